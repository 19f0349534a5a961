ghost use Rattle.std.specs.Prelude.{◌≡◌, ◌+◌, ◌≤◌, ◌↔◌, IsTrue, [], ◌∷◌, ◌++◌, length, max, slice_get, MatchOption, OnOk, OnErr};
ghost use Rattle.global_ptr.specs.ReadyList.{Takes};

use crate::values::Waiter;
use std::alloc::{AllocError, Global};
use std::collections::VecDeque;
use std::marker::Model;

/// The list of what is ready to go on at a processor, with places kept for more.
///
/// Contracts see it as its `waiters`, first to last, and the number `spare` of places kept. As many waiters can be put into
/// it without memory, so that a wake is never refused. This project's own.
#[derive(Debug, Drop)]
pub struct Ready {
    waiters: VecDeque<Waiter>,
    spare: usize,
}

impl Model for Ready {
    ghost use Rattle.std.specs.Prelude.{◌+◌, ◌≤◌};
    ghost use Rattle.std.specs.VecDeque.{deque_len, deque_capacity};
    ghost use Rattle.global_ptr.specs.ReadyList.{ReadyList};

    ghost Value = { ReadyList };

    ghost view = { λ ready. record { waiters = ready.waiters.items; spare = ready.spare } };

    ghost invariant = { λ ready. ready.spare + deque_len ready.waiters ≤ deque_capacity ready.waiters };
}

impl Ready {
    /// The empty list with no place kept, which takes no memory.
    pub fn new(alloc: Global) -> Ready
        ensures waiters { result.waiters ≡ [] }
        ensures spare { result.spare ≡ 0 }
    {
        Ready {
            waiters: VecDeque::new(alloc),
            spare: 0,
        }
    }

    /// The number of waiters.
    pub fn len(&self) -> usize
        ensures { result ≡ length self.now.waiters }
    {
        self.waiters.len()
    }

    /// Whether no waiter is ready.
    pub fn is_empty(&self) -> bool
        ensures { IsTrue result ↔ (self.now.waiters ≡ []) }
    {
        self.waiters.is_empty()
    }

    /// The number of places kept.
    pub fn spare(&self) -> usize
        ensures { result ≡ self.now.spare }
    {
        self.spare
    }

    /// Keeps at least `n` places. The waiters stay, and want of memory changes nothing.
    pub fn reserve(&mut self, n: usize) -> Result<(), AllocError>
        ensures ok { OnOk result (self.new ≡ record self.old { spare = max self.old.spare n }) }
        ensures err { OnErr result (self.new ≡ self.old) }
    {
        if self.spare < n {
            self.waiters.reserve(n)?;
            self.spare = n;
        }
        Ok(())
    }

    /// Puts a waiter at the back, in one of the places kept.
    pub fn push(&mut self, waiter: Waiter)
        requires { 1 ≤ self.old.spare }
        ensures waiters { self.new.waiters ≡ self.old.waiters ++ waiter ∷ [] }
        ensures spare { self.new.spare + 1 ≡ self.old.spare }
    {
        self.spare -= 1;
        self.waiters.push_back_reserved(waiter);
    }

    /// Takes the waiter at `place`, from 0, whose place is kept. The others stay in their order.
    ///
    /// `None` comes exactly where there is no such place, and then nothing changes.
    pub fn take(&mut self, place: u32) -> Option<Waiter>
        ensures taken { result ≡ slice_get self.old.waiters place }
        ensures rest { MatchOption result (self.new ≡ self.old) (λ _. Takes self.old self.new place) }
    {
        let taken = self.waiters.remove(place as usize)?;
        self.spare += 1;
        Some(taken)
    }
}
