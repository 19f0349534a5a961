ghost use Rattle.std.specs.Prelude.{◌≡◌, ◌↔◌, suc, IsTrue, false, Some, None, IfOk, length};
ghost use Rattle.cc_core.specs.Core.{Program};
ghost use Rattle.cc_core.specs.View.{program_of};
ghost use Rattle.cc_explains.specs.Places.{Place, beginning};
ghost use Rattle.cc_explains.specs.Moves.{asker, IsServedAt};
ghost use Rattle.cc_explains.specs.Explains.{IsRequest, IsEnd};
ghost use Rattle.cc_types.specs.Program.{core_program, main_params};
ghost use Rattle.effect_journal.specs.Journal.{is_end};
ghost use Rattle.effect_journal.specs.declared.entry.Entry.TheVariants as entry;
ghost use Rattle.global_ptr.specs.declared.ends.Standing.TheVariants as standing;
ghost use Rattle.rsr_message.specs.Requests.{SpellsEither};
ghost use Rattle.trace_check.specs.Replays.{IsAt, MakesStep, Replays, ReplaysOwn, ReplaysServing, TellsLife, TellsRest};

use crate::requests::decoded;
use cc_explains::Why;
use cc_types::Checked;
use cc_walk::{Stepped, ThreadNo, Walk};
use ccpp_edge::Bytes;
use effect_journal::{Entry, FaultBy};
use global_ptr::{ProgFault, Standing};
use rsr_message::{Body, Request, encode};
use std::alloc::{AllocError, Global};

/// A run that is made again as the entries of a journal name its steps.
#[derive(Drop)]
pub(crate) struct Replay {
    alloc: Global,
    walk: Walk,
    made: u64,
}

impl Replay {
    /// The beginning of a run.
    pub fn start(alloc: Global, checked: &Checked, args: &[i64]) -> Result<Replay, AllocError>
        requires count { length args.now ≡ main_params checked.now.items }
        ensures { let p = program_of (core_program checked.now) in IfOk result (λ replay. IsAt p replay (beginning p args.now)) }
    {
        let walk = Walk::start(alloc, checked, args)?;
        Ok(Replay {
            alloc,
            walk,
            made: 0,
        })
    }

    /// Makes the steps that an entry names, or says why it fails.
    pub fn entry(&mut self, entry: &Entry) -> Result<Option<Why>, AllocError>
        requires { is_end entry.now ≡ false }
        ensures { (p : Program) (a : Place) → IsAt p self.old a → IfOk result (λ why. Replays p entry.now a why self.new) }
    {
        match entry {
            Entry::Run {
                processor,
                thread,
                steps,
            } => {
                let thread = ThreadNo {
                    processor: *processor,
                    thread: *thread,
                };
                self.run(thread, *steps)
            }
            Entry::Serve { processor, request } => {
                self.serve(Some(*processor), request.as_slice())
            }
            Entry::Make { request } => self.serve(None, request.as_slice()),
            Entry::End { .. } => unreachable!(),
        }
    }

    // Makes steps of a thread that are no remote operations.
    fn run(&mut self, t: ThreadNo, steps: u64) -> Result<Option<Why>, AllocError>
        ensures { (p : Program) (a : Place) → IsAt p self.old a
            → IfOk result (λ why. Replays p (entry.Run t.processor t.thread steps) a why self.new) }
    {
        for _ in 0..steps {
            if let Some(why) = self.own_step(t)? {
                return Ok(Some(why));
            }
        }
        Ok(None)
    }

    fn own_step(&mut self, t: ThreadNo) -> Result<Option<Why>, AllocError>
        ensures { (p : Program) (a : Place) → IsAt p self.old a → IfOk result (λ why. ReplaysOwn p t a why self.new) }
    {
        if self.walk.asks(t)?.is_some() {
            return Ok(Some(Why::NotEnabled));
        }
        self.step(t)
    }

    // Makes the step of the request with these bytes, which is served at a processor, or is a Make.
    fn serve(&mut self, at: Option<u32>, bytes: &[u8]) -> Result<Option<Why>, AllocError>
        ensures { (p : Program) (a : Place) → IsAt p self.old a → IfOk result (λ why. ReplaysServing p at bytes.now a why self.new) }
    {
        let Some(request) = decoded(self.alloc, bytes)? else {
            return Ok(Some(Why::NoThread));
        };
        let thread = asker_of(&request);
        if self.is_next(at, bytes, &request)? {
            return self.step(thread);
        }
        if self.lives(thread)? {
            return Ok(Some(Why::OtherRequest));
        }
        Ok(Some(Why::NoThread))
    }

    // Whether a thread lives. It is asked where an entry fails, and no entry is replayed behind that one: so its step may be made.
    fn lives(&mut self, t: ThreadNo) -> Result<bool, AllocError>
        ensures { (p : Program) (a : Place) → IsAt p self.old a → IfOk result (TellsLife a t) }
    {
        match self.walk.step(t) {
            Stepped::Gone => Ok(false),
            Stepped::Memory => Err(AllocError),
            _ => Ok(true),
        }
    }

    // Makes the next move of a thread, if that is a step.
    fn step(&mut self, t: ThreadNo) -> Result<Option<Why>, AllocError>
        ensures { (p : Program) (a : Place) → IsAt p self.old a → IfOk result (λ why. MakesStep p t a why self.new) }
    {
        match self.walk.step(t) {
            Stepped::Moved => {
                self.made = one_more(self.made)?;
                Ok(None)
            }
            Stepped::Blocked => Ok(Some(Why::NotEnabled)),
            Stepped::Gone => Ok(Some(Why::NoThread)),
            Stepped::Fault(_) => Ok(Some(Why::Faults)),
            Stepped::Memory => Err(AllocError),
        }
    }

    // Whether a request, which has these bytes, is that of its asker's next move, is spelled in version 2 and is served there.
    fn is_next(&self, at: Option<u32>, bytes: &[u8], request: &Request) -> Result<bool, AllocError>
        requires { SpellsEither request.now bytes.now }
        ensures { (p : Program) (a : Place) → IsAt p self.now a → IfOk result (λ is. IsTrue is ↔ IsRequest p at bytes.now a request.now) }
    {
        if !is_served(at, request) {
            return Ok(false);
        }
        let Some(next) = self.walk.asks(asker_of(request))? else {
            return Ok(false);
        };
        let mut spelled = Bytes::new(self.alloc);
        encode(&next, &mut spelled)?;
        Ok(spelled.as_slice() == bytes)
    }

    /// Whether the run may end so.
    pub fn ends(&mut self, standing: Standing, by: Option<FaultBy>) -> Result<bool, AllocError>
        ensures { (p : Program) (a : Place) → IsAt p self.old a → IfOk result (λ ends. IsTrue ends ↔ IsEnd p a standing by) }
    {
        match (standing, by) {
            (Standing::Done(value), None) => Ok(self.is_done(value)),
            (Standing::Blocked(left), None) => Ok(self.is_blocked(left)),
            (Standing::Limit(steps), None) => Ok(steps == self.made && !self.rests()),
            (Standing::Fault(fault), Some(by)) => self.faults(fault, by),
            _ => Ok(false),
        }
    }

    // Whether no thread can move.
    fn rests(&self) -> bool
        ensures { (p : Program) (a : Place) → IsAt p self.now a → TellsRest p a result }
    {
        self.walk.enabled().is_none()
    }

    fn is_done(&self, value: i64) -> bool
        ensures { (p : Program) (a : Place) → IsAt p self.now a → IsTrue result ↔ IsEnd p a (standing.Done value) None }
    {
        if !self.rests() {
            return false;
        }
        self.walk.threads_left() == 0 && self.walk.main_int() == Some(value)
    }

    fn is_blocked(&self, left: u64) -> bool
        ensures { (p : Program) (a : Place) → IsAt p self.now a → IsTrue result ↔ IsEnd p a (standing.Blocked left) None }
    {
        if !self.rests() {
            return false;
        }
        left > 0 && self.walk.threads_left() == left
    }

    fn faults(&mut self, fault: ProgFault, by: FaultBy) -> Result<bool, AllocError>
        ensures { (p : Program) (a : Place) → IsAt p self.old a → IfOk result (λ is. IsTrue is ↔ IsEnd p a (standing.Fault fault) (Some by)) }
    {
        let thread = ThreadNo {
            processor: by.processor,
            thread: by.thread,
        };
        match self.walk.step(thread) {
            Stepped::Fault(found) => Ok(found == fault),
            Stepped::Memory => Err(AllocError),
            _ => Ok(false),
        }
    }
}

// No run makes so many steps that they are not counted.
fn one_more(made: u64) -> Result<u64, AllocError>
    ensures { IfOk result (λ count. count ≡ suc made) }
{
    made.checked_add(1).ok_or(AllocError)
}

// The thread that a request names.
fn asker_of(request: &Request) -> ThreadNo
    ensures { result ≡ asker request.now }
{
    ThreadNo {
        processor: request.from,
        thread: request.ticket,
    }
}

// Whether a processor serves a request, or it is a Make.
fn is_served(at: Option<u32>, request: &Request) -> bool
    ensures { IsTrue result ↔ IsServedAt at request.now }
{
    let is_make = matches!(request.body, Body::Make { .. });
    match at {
        Some(processor) => !is_make && request.to == processor,
        None => is_make,
    }
}
