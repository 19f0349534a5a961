ghost use Rattle.std.specs.Prelude.{◌≡◌, ℕ, ◌++◌, List, map, option_to_list, OnOk, IfOk, MatchResult};
ghost use Rattle.cc_ops.specs.Machine.{Address, value_of, Values};
ghost use Rattle.cc_ops.specs.Shelves.{Shelf};
ghost use Rattle.cc_core.specs.Asks.{Ask as AskOf, Answer as AnswerOf};
ghost use Rattle.cc_core.specs.Core.{Program};
ghost use Rattle.cc_core.specs.Config.{Config};
ghost use Rattle.cc_core.specs.Numbers.{Numbers};
ghost use Rattle.cc_code.specs.Code.{Then, move};
ghost use Rattle.stack_code.specs.View.{code_of};
ghost use Rattle.code_thread.specs.Moves.{after};
ghost use Rattle.code_thread.specs.View.{answer_of};
ghost use Rattle.numbered_runs.specs.Machine.{Machine, Runner, Goes, thread_in, put_thread, ended_with};
ghost use Rattle.numbered_runs.specs.Stands.{Stands};
ghost use Rattle.numbered_runs.specs.Steps.{step, settle, freed, apply, join, joined};
ghost use Rattle.cc_walk.specs.Answered.{HasEffect};
ghost use Rattle.cc_walk.specs.Answers.{IsStep, Follows};
ghost use Rattle.cc_walk.specs.Asking.{IsAsking};
ghost use Rattle.cc_walk.specs.Views.{runner_of, machine_of, home_of, started};

use crate::answer::Asker;
use crate::effect::{Effect, Start};
use crate::holders::leave_all;
use crate::live::{Live, State};
use crate::news::News;
use crate::stop::Stop;
use crate::walk::{Stepped, Walk};
use cc_ops::ThreadNo;
use code_thread::{Look, Thread};
use global_ptr::{ProgFault, Value};
use std::alloc::AllocError;

impl Walk {
    /// Makes the next move of a thread, if that is a step. Every other answer leaves the walk as it was, but after want of memory the walk is
    /// not used again.
    pub fn step(&mut self, t: ThreadNo) -> Stepped
        ensures step { IsStep (step (machine_of self.old) t) (machine_of self.old) result (machine_of self.new) }
        ensures follows { (p : Program) (s : Config) (n : Numbers) → Stands p (machine_of self.old) s n
            → Follows p s n t (machine_of self.old) result (machine_of self.new) }
    {
        let Some(live) = self.table.live(t) else {
            return Stepped::Gone;
        };
        let Look::Asks(line, ask) = live.thread.look(&self.code) else {
            return Stepped::Blocked;
        };
        if let Some(kid) = live.asked {
            return self.resume(t, kid);
        }
        let asker = Asker {
            alloc: self.alloc,
            code: &self.code,
            table: &self.table,
            live,
            processor: t.processor,
        };
        if asker.waits(&self.objects, &ask) {
            let seen = asker.seen(&ask);
            self.table.note_seen(t, seen);
            return Stepped::Blocked;
        }
        let news = News::of(&ask, live.inside.top().map(|inside| inside.object));
        match asker.answer(&ask, &mut self.objects, &mut self.output) {
            Ok(effect) => {
                self.news = news;
                stepped(self.go_on(t, effect))
            }
            Err(Stop::Fault(kind)) => Stepped::Fault(ProgFault { kind, line }),
            Err(Stop::Memory) => Stepped::Memory,
        }
    }

    /// The step of a thread that waits for the value of the thread `kid`.
    fn resume(&mut self, t: ThreadNo, kid: ThreadNo) -> Stepped
        ensures { (r : Runner) (line : ℕ) (ask : AskOf Address) (k : AnswerOf Address → Then Address) → let w = machine_of self.old in
            IsAsking w t r line ask k → IsStep (join w t r k (ended_with (thread_in w.threads kid))) w result (machine_of self.new) }
    {
        match self.table.ended(kid) {
            Some(value) => {
                self.news = News::none();
                stepped(self.join(t, value))
            }
            None => Stepped::Blocked,
        }
    }

    /// Takes the value of the thread that was made for a remote call.
    fn join(&mut self, t: ThreadNo, value: Value) -> Result<(), AllocError>
        ensures { (r : Runner) (line : ℕ) (ask : AskOf Address) (k : AnswerOf Address → Then Address) → let w = machine_of self.old in
            IsAsking w t r line ask k → OnOk result (machine_of self.new ≡ joined w t r k (value_of value)) }
    {
        let Some(mut taken) = self.table.take(t) else {
            return Ok(());
        };
        let live = taken.as_mut();
        live.asked = None;
        live.thread
            .answered(self.alloc, &self.code, &[value], 0, 0)?;
        self.put_settled(t, taken)?;
        Ok(())
    }

    /// Goes on behind the answer to what a thread asks: the processor and the threads that are made, and the thread itself. The machine that
    /// has asked had other objects and another output.
    fn go_on(&mut self, t: ThreadNo, effect: Effect) -> Result<(), AllocError>
        ensures { (shelves : List Shelf) (output : List ℕ) (r : Runner) (line : ℕ) (ask : AskOf Address) (k : AnswerOf Address → Then Address)
            (found : Values) → let w = record (machine_of self.old) { shelves = shelves; output = output } in
            IsAsking w t r line ask k → r.asked ≡ None → HasEffect w t.processor r ask found effect self.old.objects self.old.output
            → OnOk result (machine_of self.new ≡ apply w t r ask k found) }
    {
        let Effect {
            found,
            entry,
            start,
            calls,
            branches,
            processors,
        } = effect;
        let home = home_of(t.processor, &start);
        let threads = self.new_threads(t, start, found.as_slice())?;
        self.table.add_processors(processors)?;
        let next = self.table.next(home);
        let kids = self.table.make_all(&self.code, home, threads)?;
        self.news.first = next;
        self.news.made = self.table.made(home).saturating_sub(next.thread);
        let Some(mut taken) = self.table.take(t) else {
            return Ok(());
        };
        let live = taken.as_mut();
        let first = live.kids.len();
        live.kids.append(kids)?;
        live.enter(entry)?;
        if calls {
            live.asked = Some(next);
            self.table.put(t, State::Live(taken));
            return Ok(());
        }
        live.thread
            .answered(self.alloc, &self.code, found.as_slice(), first, branches)?;
        self.put_settled(t, taken)?;
        Ok(())
    }

    /// The threads that a thread makes by a step: the one of a call, and its branches.
    fn new_threads(
        &self,
        t: ThreadNo,
        start: Option<Start>,
        found: &[Value],
    ) -> Result<Vec<Thread>, AllocError>
        ensures { (r : Runner) (first count : ℕ) → thread_in self.now.table t ≡ Some (Goes r) → let m = move (code_of self.now.code) r.thread in
            IfOk result (λ threads. threads.items
            ≡ map started (option_to_list start) ++ (after m (answer_of found.now first count)).branches) }
    {
        let Some(live) = self.table.live(t) else {
            return Ok(Vec::new(self.alloc));
        };
        let mut threads = live.thread.branches(self.alloc, &self.code, found)?;
        if let Some(start) = start {
            let Start {
                function,
                this,
                args,
                ..
            } = start;
            threads.insert(0, Thread::start(function, this, args))?;
        }
        Ok(threads)
    }

    /// Puts a thread back after its silent moves. One that has ended leaves all functions that it is inside.
    fn put_settled(&mut self, t: ThreadNo, mut live: Box<Live>) -> Result<(), AllocError>
        ensures { let w = machine_of self.old in let r = runner_of live.value in let x = settle w.code r in OnOk result (machine_of self.new
            ≡ record w { shelves = freed w.code x r.inside w.shelves; threads = put_thread w.threads t x }) }
    {
        match live.settle(&self.code)? {
            Some(value) => {
                let Live { inside, .. } = Box::into_inner(live);
                leave_all(&self.code, &mut self.objects, inside);
                self.table.put(t, State::Ended(value));
            }
            None => self.table.put(t, State::Live(live)),
        }
        Ok(())
    }
}

/// What is answered of a step.
fn stepped(made: Result<(), AllocError>) -> Stepped
    ensures { MatchResult made (λ _. result ≡ Stepped.Moved) (λ _. result ≡ Stepped.Memory) }
{
    match made {
        Ok(()) => Stepped::Moved,
        Err(_) => Stepped::Memory,
    }
}

/// The processor of the threads that a step makes: that of the thread that is made for a call, else their maker's own.
fn home_of(own: u32, start: &Option<Start>) -> u32
    ensures { result ≡ home_of own start.now }
{
    match start {
        Some(start) => start.processor,
        None => own,
    }
}
