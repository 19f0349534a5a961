ghost use Rattle.std.specs.Prelude.{◌≡◌, [], ◌∷◌, ◌++◌, OnOk, OnErr, IfSome, IfNone};
ghost use Rattle.atomic_objects.specs.HeldObjects.{held_by, after_leave, next};

use std::alloc::{AllocError, Global};
use std::collections::VecDeque;
use std::marker::Model;

/// An object that is held: the thread that holds it, and those that wait for it.
#[derive(Debug, Drop)]
pub struct Lock {
    holder: u32,
    waiters: VecDeque<u32>,
}

impl Model for Lock {
    ghost use Rattle.atomic_objects.specs.HeldObjects.{Held};

    ghost Value = { Held };

    ghost view = { λ lock. record { holder = lock.holder; waiters = lock.waiters.items } };
}

impl Lock {
    /// Held by a thread, and nobody waits. It takes no memory.
    pub fn new(alloc: Global, thread: u32) -> Lock
        ensures { result ≡ held_by thread }
    {
        Lock {
            holder: thread,
            waiters: VecDeque::new(alloc),
        }
    }

    /// Who holds the object.
    pub fn holder(&self) -> u32
        ensures { result ≡ self.now.holder }
    {
        self.holder
    }

    /// Puts a thread behind those that wait. Want of memory leaves all as it was.
    pub fn wait(&mut self, thread: u32) -> Result<(), AllocError>
        ensures ok { OnOk result (self.new ≡ record self.old { waiters = self.old.waiters ++ thread ∷ [] }) }
        ensures err { OnErr result (self.new ≡ self.old) }
    {
        self.waiters.push_back(thread)?;
        Ok(())
    }

    /// Makes the first waiter the holder, and gives it. `None` comes exactly where nobody waits, and then nothing changes.
    pub fn hand_over(&mut self) -> Option<u32>
        ensures next { result ≡ next (Some self.old) }
        ensures handed { IfSome result (λ _. Some self.new ≡ after_leave (Some self.old)) }
        ensures kept { IfNone result (self.new ≡ self.old) }
    {
        let next = self.waiters.pop_front()?;
        self.holder = next;
        Some(next)
    }
}
