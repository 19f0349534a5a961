ghost use Rattle.std.specs.Prelude.{◌≡◌, IfOk, OnOk};
ghost use Rattle.stack_code.specs.View.{code_of};
ghost use Rattle.numbered_runs.specs.Steps.{settle, new_runner};
ghost use Rattle.cc_walk.specs.Answered.{inside_after};
ghost use Rattle.cc_walk.specs.Views.{runner_of, progress_of, ended_as};

use crate::effect::Entry;
use cc_ops::ThreadNo;
use ccpp_edge::List;
use code_thread::{Look, Stack, Thread};
use global_ptr::Value;
use stack_code::Code;
use std::alloc::{AllocError, Global};

/// A function that a thread is inside, with its object.
#[derive(Clone, Copy, Debug)]
pub(crate) struct Inside {
    pub function: u32,
    pub object: Value,
}

/// A thread that has not ended.
#[derive(Debug, Drop)]
pub(crate) struct Live {
    /// What it has left to do.
    pub thread: Thread,
    /// The thread that was made for its remote call, whose value it waits for.
    pub asked: Option<ThreadNo>,
    /// The threads that it made, in order.
    pub kids: List<ThreadNo>,
    /// The functions that it is inside.
    pub inside: Stack<Inside>,
    /// The place, among the branches that it joins, where one was last seen to go on. It counts for the time that a look takes alone.
    pub seen: usize,
}

/// A thread goes on, or has ended with a value.
#[derive(Debug, Drop)]
pub(crate) enum State {
    Live(Box<Live>),
    Ended(Value),
}

impl Live {
    /// A thread that has made nothing.
    pub fn new(alloc: Global, thread: Thread) -> Live
        ensures { runner_of result ≡ new_runner thread }
    {
        Live {
            thread,
            asked: None,
            kids: List::new(alloc),
            inside: Stack::new(alloc),
            seen: 0,
        }
    }

    /// Makes its silent moves, and gives the value that it ends with, if it does.
    pub fn settle(&mut self, code: &Code) -> Result<Option<Value>, AllocError>
        ensures inside { OnOk result (self.new.inside ≡ self.old.inside) }
        ensures settled { IfOk result (λ end. ended_as (runner_of self.new) end ≡ settle (code_of code.now) (runner_of self.old)) }
    {
        self.thread.settle(code)?;
        match self.thread.look(code) {
            Look::Ends(value) => Ok(Some(value)),
            _ => Ok(None),
        }
    }

    /// Notes the function that it has entered, or that it has left the innermost one.
    pub fn enter(&mut self, entry: Entry) -> Result<(), AllocError>
        ensures { let r = runner_of self.old in OnOk result (runner_of self.new ≡ record r { inside = inside_after entry r.inside }) }
    {
        match entry {
            Entry::Stays => {}
            Entry::Enters(inside) => self.inside.push(inside)?,
            Entry::Leaves => {
                self.inside.pop();
            }
        }
        Ok(())
    }

    /// How it stands after its silent moves, where this is the value that it ends with.
    pub fn state(self, alloc: Global, end: Option<Value>) -> Result<State, AllocError>
        ensures { IfOk result (λ state. progress_of state ≡ ended_as (runner_of self) end) }
    {
        match end {
            Some(value) => Ok(State::Ended(value)),
            None => Ok(State::Live(Box::new(alloc, self)?)),
        }
    }
}

impl State {
    /// A new thread after its silent moves: it goes on, or has ended at once.
    pub fn new(alloc: Global, code: &Code, thread: Thread) -> Result<State, AllocError>
        ensures { IfOk result (λ state. progress_of state ≡ settle (code_of code.now) (new_runner thread)) }
    {
        let mut live = Live::new(alloc, thread);
        let end = live.settle(code)?;
        live.state(alloc, end)
    }

    /// Notes where the branches that it joins are looked at first. All that is told of it stays.
    pub fn note_seen(&mut self, place: usize)
        ensures { progress_of self.new ≡ progress_of self.old }
    {
        if let State::Live(live) = self {
            live.seen = place;
        }
    }
}
