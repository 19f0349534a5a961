ghost use Rattle.std.specs.Prelude.{◌≡◌, ◌≤◌, ℕ, ℤ, List, None, IfOk};
ghost use Rattle.cc_core.specs.Core.{Program};
ghost use Rattle.cc_core.specs.Config.{Config};
ghost use Rattle.cc_core.specs.Numbers.{Numbers};
ghost use Rattle.cc_core.specs.Steps as core;
ghost use Rattle.cc_core.specs.Steps.{IsAtRest};
ghost use Rattle.cc_engine.specs.Runs.{IsAfter, Advances, IsEnded, IsTypedRun};
ghost use Rattle.cc_walk.specs.Views.{machine_of};
ghost use Rattle.numbered_runs.specs.Stands.{Stands};

use crate::schedule::Schedule;
use cc_walk::{Stepped, ThreadNo, Walk};
use ccpp_edge::Bytes;
use global_ptr::{ProgFault, Standing};
use std::alloc::{AllocError, Global};

/// A run that is being made: what it has come to, and whose turn it is.
#[derive(Drop)]
pub(crate) struct Execution {
    walk: Walk,
    schedule: Schedule,
}

/// What a run comes to next.
#[derive(Clone, Copy, Debug)]
pub(crate) enum Advance {
    /// One step was made.
    Moved,
    /// The next move of a thread is this fault.
    Fault(ProgFault),
    /// No thread can move.
    Rests,
}

impl Execution {
    /// A run at its beginning, whose first thread is that of `main`.
    pub fn new(alloc: Global, walk: Walk, seed: u64) -> Result<Execution, AllocError>
        ensures { IfOk result (λ execution. execution.walk ≡ walk) }
    {
        let main = ThreadNo {
            processor: 0,
            thread: 0,
        };
        let schedule = Schedule::new(alloc, seed, main)?;
        Ok(Execution { walk, schedule })
    }

    /// The thread that is to move, which may turn out to wait or to have ended. `None` where no thread can move.
    fn next(&mut self) -> Result<Option<ThreadNo>, AllocError>
        ensures rest { (p : Program) (s : Config) (n : Numbers) → Stands p (machine_of self.old.walk) s n
            → IfOk result (λ thread. thread ≡ None → IsAtRest p s) }
        ensures kept { machine_of self.new.walk ≡ machine_of self.old.walk }
    {
        match self.schedule.pick()? {
            Some(thread) => Ok(Some(thread)),
            None => Ok(self.walk.enabled()),
        }
    }

    /// Makes one step of one thread, if one can move.
    fn advance(&mut self) -> Result<Advance, AllocError>
        ensures { (p : Program) (ns : List ℤ) (steps : ℕ) → IsAfter p ns steps (machine_of self.old.walk)
            → IfOk result (λ advance. Advances p ns steps advance (machine_of self.new.walk)) }
    {
        // A thread that waits or has ended is not picked again before something has changed for it, so this ends long before.
        for _ in 0..u64::MAX {
            let Some(thread) = self.next()? else {
                return Ok(Advance::Rests);
            };
            match self.walk.step(thread) {
                Stepped::Moved => {
                    self.schedule.note(self.walk.news())?;
                    return Ok(Advance::Moved);
                }
                Stepped::Fault(fault) => return Ok(Advance::Fault(fault)),
                Stepped::Blocked => self.schedule.wait(thread, self.walk.awaited(thread))?,
                Stepped::Gone => self.schedule.end(thread)?,
                Stepped::Memory => return Err(AllocError),
            }
        }
        Err(AllocError)
    }

    /// Makes steps until the run rests, meets a fault, or has made as many as the limit allows.
    pub fn to_end(&mut self, limit: u64) -> Result<Standing, AllocError>
        ensures { (p : Program) (ns : List ℤ) → IsTypedRun p ns → IsAfter p ns 0 (machine_of self.old.walk)
            → IfOk result (λ ended. IsEnded p ns limit ended (machine_of self.new.walk)) }
    {
        for _ in 0..limit {
            match self.advance()? {
                Advance::Moved => {}
                Advance::Fault(fault) => return Ok(Standing::Fault(fault)),
                Advance::Rests => return Ok(self.at_rest()),
            }
        }
        match self.walk.enabled() {
            Some(_) => Ok(Standing::Limit(limit)),
            None => Ok(self.at_rest()),
        }
    }

    /// How a run stands where it rests: done, with the int that `main` has ended with, or blocked. A run of a well-typed program has come to
    /// one of the two.
    fn at_rest(&self) -> Standing
        ensures { (p : Program) (ns : List ℤ) (limit steps : ℕ) → IsTypedRun p ns → (a : IsAfter p ns steps (machine_of self.now.walk))
            → IsAtRest p a.last → core.Stands p limit steps a.last result }
    {
        let left = self.walk.threads_left();
        match self.walk.main_int() {
            Some(result) if left == 0 => Standing::Done(result),
            _ => Standing::Blocked(left),
        }
    }

    /// What was printed, at the end of a run.
    pub fn into_output(self) -> Bytes
        ensures { (p : Program) (ns : List ℤ) (steps : ℕ) (a : IsAfter p ns steps (machine_of self.walk)) → result ≡ a.last.output }
    {
        let Execution { walk, .. } = self;
        walk.into_output()
    }
}
