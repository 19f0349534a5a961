ghost use Rattle.std.specs.Prelude.{◌≡◌, IsSome, IfOk, OnOk, OnErr};
ghost use Rattle.std.specs.FinMap.{get, empty};
ghost use Rattle.atomic_objects.specs.HeldObjects.{set_object, answer, next, after_enter, after_wait, after_leave};

use crate::table::{Entered, LockTable, enter, leave, wait};
use std::alloc::{AllocError, Global};
use std::collections::HashMap;
use std::marker::Model;

/// Which thread is inside the atomic functions of each object of a processor, and which wait to be.
///
/// Contracts see it as a map from the objects that are held to their holder and those that wait, first to last. The lock is
/// the object's, so that at most one thread is inside its atomic functions, as in CC++.
#[derive(Debug, Drop)]
pub struct Locks {
    alloc: Global,
    held: LockTable,
}

impl Model for Locks {
    ghost use Rattle.std.specs.FinMap as map;
    ghost use Rattle.std.specs.Coded.{coded_ℕ};
    ghost use Rattle.atomic_objects.specs.HeldObjects.{HeldObjects, held_code};

    ghost Value = { HeldObjects };

    ghost coded = { map.code coded_ℕ held_code };

    ghost view = { λ locks. map.from_entries locks.held.entries };
}

impl Locks {
    /// All objects are free. It takes no memory.
    pub fn new(alloc: Global) -> Locks
        ensures { result ≡ empty }
    {
        Locks {
            alloc,
            held: HashMap::new(alloc),
        }
    }

    /// A thread enters an atomic function of an object. An object that is free becomes the thread's.
    ///
    /// `Busy` comes exactly where another thread holds the object. A thread to which [`Locks::leave`] gave it holds it already.
    /// Want of memory leaves all as it was.
    pub fn enter(&mut self, object: u32, thread: u32) -> Result<Entered, AllocError>
        ensures answer { IfOk result (λ entered. entered ≡ answer (get self.old object) thread) }
        ensures locks { OnOk result (self.new ≡ set_object self.old object (after_enter (get self.old object) thread)) }
        ensures err { OnErr result (self.new ≡ self.old) }
    {
        enter(self.alloc, &mut self.held, object, thread)
    }

    /// Lets a thread wait for an object that is held, behind those that wait for it already. Want of memory leaves all as it was.
    pub fn wait(&mut self, object: u32, thread: u32) -> Result<(), AllocError>
        requires { IsSome (get self.old object) }
        ensures ok { OnOk result (self.new ≡ set_object self.old object (after_wait (get self.old object) thread)) }
        ensures err { OnErr result (self.new ≡ self.old) }
    {
        wait(&mut self.held, object, thread)
    }

    /// The holder of an object leaves it. The first thread that waits holds it from now on, and is given. It takes no memory.
    ///
    /// `None` comes exactly where nobody waits, and the object is free then.
    pub fn leave(&mut self, object: u32) -> Option<u32>
        requires { IsSome (get self.old object) }
        ensures next { result ≡ next (get self.old object) }
        ensures locks { self.new ≡ set_object self.old object (after_leave (get self.old object)) }
    {
        leave(&mut self.held, object)
    }
}
