ghost use Rattle.std.specs.Prelude.{◌≡◌, None, IfOk};
ghost use Rattle.cc_core.specs.Core.{Program};
ghost use Rattle.cc_core.specs.Config.{Config};
ghost use Rattle.cc_core.specs.Numbers.{Numbers};
ghost use Rattle.cc_core.specs.Steps as steps;
ghost use Rattle.numbered_runs.specs.Stands.{Stands};
ghost use Rattle.numbered_runs.specs.Steps.{step};
ghost use Rattle.cc_walk.specs.Enabled.{may_move, IsMoveable, CanMove, IsFirst, AreAll, IsMainValue, IsMainInt};
ghost use Rattle.cc_walk.specs.Views.{machine_of};

use crate::answer::Asker;
use crate::arguments::first_of;
use crate::news::{Awaited, News};
use crate::walk::Walk;
use cc_core::How;
use cc_ops::{ThreadNo, int_of};
use ccpp_edge::{Bytes, List};
use code_thread::{Ask, Look};
use global_ptr::Value;
use std::alloc::AllocError;

/// The thread of `main`.
const MAIN: ThreadNo = ThreadNo {
    processor: 0,
    thread: 0,
};

impl Walk {
    /// Whether a thread can move: its next move is a step or a fault.
    fn can_move(&self, t: ThreadNo) -> bool
        ensures { result ≡ may_move (step (machine_of self.now) t) }
    {
        let Some(live) = self.table.live(t) else {
            return false;
        };
        let Look::Asks(_, ask) = live.thread.look(&self.code) else {
            return false;
        };
        if let Some(kid) = live.asked {
            return self.table.ended(kid).is_some();
        }
        let asker = Asker {
            alloc: self.alloc,
            code: &self.code,
            table: &self.table,
            live,
            processor: t.processor,
        };
        !asker.waits(&self.objects, &ask)
    }

    /// What a thread that was found blocked waits for: `None` where that is not known, and of other threads. It tells when to step the thread
    /// again; no contract speaks of it, and none rests on it.
    pub fn awaited(&self, t: ThreadNo) -> Option<Awaited> {
        let live = self.table.live(t)?;
        if let Some(kid) = live.asked {
            return Some(kid.into());
        }
        let Look::Asks(_, ask) = live.thread.look(&self.code) else {
            return None;
        };
        match ask {
            Ask::Reads(_, from) | Ask::ForksOne(from) => Awaited::cell(from),
            Ask::Calls(How::On, _, args) => Awaited::object(first_of(args)),
            Ask::Enters(_, this, _) => Awaited::object(this),
            Ask::Joins(made) => {
                let kid = live.kids.get(*made.get(live.seen)?)?;
                Some((*kid).into())
            }
            _ => None,
        }
    }

    /// What the last step that was made has changed for other threads.
    pub fn news(&self) -> News {
        self.news
    }

    /// The first thread that can move, by processor and then number, and `None` exactly where none can: the run is at rest.
    pub fn enabled(&self) -> Option<ThreadNo>
        ensures first { IsFirst (IsMoveable (machine_of self.now)) result }
        ensures follows { (p : Program) (s : Config) (n : Numbers) → Stands p (machine_of self.now) s n → IsFirst (CanMove p s n) result }
        ensures rest { (p : Program) (s : Config) (n : Numbers) → Stands p (machine_of self.now) s n → result ≡ None → steps.IsAtRest p s }
    {
        for processor in 0..self.table.processors() {
            for thread in 0..self.table.made(processor) {
                let t = ThreadNo { processor, thread };
                if self.can_move(t) {
                    return Some(t);
                }
            }
        }
        None
    }

    /// The threads that can move, by processor and then number.
    pub fn all_enabled(&self) -> Result<List<ThreadNo>, AllocError>
        ensures all { IfOk result (AreAll (IsMoveable (machine_of self.now))) }
        ensures follows { (p : Program) (s : Config) (n : Numbers) → Stands p (machine_of self.now) s n → IfOk result (AreAll (CanMove p s n)) }
    {
        let mut enabled = List::new(self.alloc);
        for processor in 0..self.table.processors() {
            for thread in 0..self.table.made(processor) {
                let t = ThreadNo { processor, thread };
                if self.can_move(t) {
                    enabled.push(t)?;
                }
            }
        }
        Ok(enabled)
    }

    /// How many threads have not ended.
    pub fn threads_left(&self) -> u64
        ensures { (p : Program) (s : Config) (n : Numbers) → Stands p (machine_of self.now) s n → result ≡ steps.threads_left s }
    {
        self.table.threads_left()
    }

    /// The int that `main` has ended with, and `None` exactly while it goes on. A value that is no int counts as 0.
    pub fn main_value(&self) -> Option<i64>
        ensures { (p : Program) (s : Config) (n : Numbers) → Stands p (machine_of self.now) s n → IsMainValue s result }
    {
        Some(int_of(self.table.ended(MAIN)?))
    }

    /// The int that `main` has ended with: `Some` exactly where it has ended with one.
    pub fn main_int(&self) -> Option<i64>
        ensures { (p : Program) (s : Config) (n : Numbers) → Stands p (machine_of self.now) s n → IsMainInt s result }
    {
        match self.table.ended(MAIN)? {
            Value::Int(int) => Some(int),
            _ => None,
        }
    }

    /// What was printed.
    pub fn output(&self) -> &[u8]
        ensures { (p : Program) (s : Config) (n : Numbers) → Stands p (machine_of self.now) s n → result.now ≡ s.output }
    {
        self.output.as_slice()
    }
    /// What was printed, at the end of a walk.
    pub fn into_output(self) -> Bytes
        ensures { (p : Program) (s : Config) (n : Numbers) → Stands p (machine_of self) s n → result ≡ s.output }
    {
        let Walk { output, .. } = self;
        output
    }
}
