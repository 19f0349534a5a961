ghost use Rattle.std.specs.Prelude.{◌≡◌, ◌+◌, ◌++◌, ◌∷◌, [], suc, length, map, nat_le, slice_get, OnOk, IfOk};
ghost use Rattle.std.specs.Option.{option_map};
ghost use Rattle.cc_ops.specs.Values as values;
ghost use Rattle.cc_ops.specs.Machine.{value_of};
ghost use Rattle.cc_ops.specs.Shelves.{changed};
ghost use Rattle.cc_core.specs.Needs.{most_threads};
ghost use Rattle.numbered_runs.specs.Machine.{Over, thread_in, put_thread, push_thread, made_in, ended_with, going, all_going};
ghost use Rattle.numbered_runs.specs.Steps.{more_tables, push_all, settle_all, numbers_on};
ghost use Rattle.stack_code.specs.View.{code_of};
ghost use Rattle.cc_walk.specs.Views.{runner_of, progress_of, live_of};

use crate::limits::MOST_THREADS;
use crate::live::{Live, State};
use cc_ops::ThreadNo;
use ccpp_edge::List;
use code_thread::Thread;
use global_ptr::Value;
use stack_code::Code;
use std::alloc::{AllocError, Global};
use std::marker::Model;

/// The threads of one processor, by their numbers.
#[derive(Debug, Drop)]
struct Threads {
    states: Vec<State>,
}

impl Model for Threads {
    ghost use Rattle.std.specs.Prelude.{◌<◌, ◌^◌, List, map, vec_len};
    ghost use Rattle.numbered_runs.specs.Machine.{Progress};
    ghost use Rattle.cc_walk.specs.Views.{progress_of};

    ghost Value = { List Progress };

    ghost view = { λ t. map progress_of t.states.items };

    ghost invariant = { λ t. vec_len t.states < 2 ^ 32 };
}

impl Threads {
    fn new(alloc: Global) -> Threads
        ensures { result ≡ [] }
    {
        Threads {
            states: Vec::new(alloc),
        }
    }

    fn len(&self) -> u32
        ensures { result ≡ length self.now }
    {
        self.states.len() as u32
    }

    fn get(&self, thread: u32) -> Option<&State>
        ensures { option_map (λ s. progress_of s.now) result ≡ slice_get self.now thread }
    {
        self.states.get(thread as usize)
    }

    /// Puts a state in the place of another, which it gives back.
    fn replace(&mut self, thread: u32, state: State) -> Option<State>
        ensures was { option_map progress_of result ≡ slice_get self.old thread }
        ensures now { self.new ≡ changed self.old thread (λ s. progress_of state) }
    {
        let place = self.states.get_mut(thread as usize)?;
        Some(std::mem::replace(place, state))
    }

    /// Notes where the branches that a thread joins are looked at first.
    fn note_seen(&mut self, thread: u32, place: usize)
        ensures { self.new ≡ self.old }
    {
        let Some(state) = self.states.get_mut(thread as usize) else {
            return;
        };
        state.note_seen(place);
    }

    /// Makes a thread. More than 32 bits can number fit no memory.
    fn push(&mut self, state: State) -> Result<(), AllocError>
        ensures { OnOk result (self.new ≡ self.old ++ progress_of state ∷ []) }
    {
        if self.states.len() >= u32::MAX as usize {
            return Err(AllocError);
        }
        self.states.push(state)?;
        Ok(())
    }

    /// How many have not ended.
    fn going(&self) -> u32
        ensures { result ≡ going self.now }
    {
        let mut going = 0;
        for state in &self.states {
            if let State::Live(_) = state {
                going += 1;
            }
        }
        going
    }
}

/// The threads of all processors, by their numbers. This project's own.
#[derive(Debug, Drop)]
pub(crate) struct Table {
    alloc: Global,
    processors: Vec<Threads>,
}

impl Model for Table {
    ghost use Rattle.std.specs.Prelude.{◌<◌, ◌^◌, List, vec_len};
    ghost use Rattle.numbered_runs.specs.Machine.{Progress};

    ghost Value = { List (List Progress) };

    ghost view = { λ t. t.processors.items };

    ghost invariant = { λ t. vec_len t.processors < 2 ^ 32 };
}

impl Table {
    /// No processor.
    pub fn new(alloc: Global) -> Table
        ensures { result ≡ [] }
    {
        Table {
            alloc,
            processors: Vec::new(alloc),
        }
    }

    /// How many processors there are.
    pub fn processors(&self) -> u32
        ensures { result ≡ length self.now }
    {
        self.processors.len() as u32
    }

    /// One processor more, without a thread. More than 32 bits can number fit no memory.
    pub fn add_processor(&mut self) -> Result<(), AllocError>
        ensures { OnOk result (self.new ≡ self.old ++ [] ∷ []) }
    {
        if self.processors.len() >= u32::MAX as usize {
            return Err(AllocError);
        }
        self.processors.push(Threads::new(self.alloc))?;
        Ok(())
    }

    /// So many processors more, without a thread.
    pub fn add_processors(&mut self, count: u32) -> Result<(), AllocError>
        ensures { OnOk result (self.new ≡ more_tables count self.old) }
    {
        for _ in 0..count {
            self.add_processor()?;
        }
        Ok(())
    }

    /// How many threads were made on a processor.
    pub fn made(&self, processor: u32) -> u32
        ensures { result ≡ made_in self.now processor }
    {
        match self.processors.get(processor as usize) {
            Some(threads) => threads.len(),
            None => 0,
        }
    }

    /// Whether so many threads more may be made on a processor.
    pub fn has_room(&self, processor: u32, count: usize) -> bool
        ensures { result ≡ nat_le (made_in self.now processor + count) most_threads }
    {
        match MOST_THREADS.checked_sub(self.made(processor) as usize) {
            Some(room) => count <= room,
            None => false,
        }
    }

    /// The number of the thread that a processor makes next.
    pub fn next(&self, processor: u32) -> ThreadNo
        ensures { result ≡ record { processor = processor; thread = made_in self.now processor } }
    {
        ThreadNo {
            processor,
            thread: self.made(processor),
        }
    }

    /// The thread of a number, if one was made.
    pub fn state(&self, t: ThreadNo) -> Option<&State>
        ensures { option_map (λ s. progress_of s.now) result ≡ thread_in self.now t }
    {
        self.processors.get(t.processor as usize)?.get(t.thread)
    }

    /// The live thread of a number.
    pub fn live(&self, t: ThreadNo) -> Option<&Live>
        ensures { option_map (λ l. runner_of l.now) result ≡ live_of (thread_in self.now t) }
    {
        match self.state(t)? {
            State::Live(live) => Some(live.as_ref()),
            State::Ended(_) => None,
        }
    }

    /// The value that a thread has ended with.
    pub fn ended(&self, t: ThreadNo) -> Option<Value>
        ensures { option_map value_of result ≡ ended_with (thread_in self.now t) }
    {
        match self.state(t)? {
            State::Live(_) => None,
            State::Ended(value) => Some(*value),
        }
    }

    /// Takes the live thread of a number out of the table. Void stands there until it is put back.
    pub fn take(&mut self, t: ThreadNo) -> Option<Box<Live>>
        ensures live { option_map (λ l. runner_of l.value) result ≡ live_of (thread_in self.old t) }
        ensures now { self.new ≡ put_thread self.old t (Over values.Void) }
    {
        match self.replace(t, State::Ended(Value::Void))? {
            State::Live(live) => Some(live),
            State::Ended(_) => None,
        }
    }

    /// Puts a state in the place of another of the same thread, if one was made.
    pub fn put(&mut self, t: ThreadNo, state: State)
        ensures { self.new ≡ put_thread self.old t (progress_of state) }
    {
        self.replace(t, state);
    }

    /// Puts a state in the place of another of the same thread, if one was made, and gives that back.
    fn replace(&mut self, t: ThreadNo, state: State) -> Option<State>
        ensures was { option_map progress_of result ≡ thread_in self.old t }
        ensures now { self.new ≡ put_thread self.old t (progress_of state) }
    {
        let threads = self.processors.get_mut(t.processor as usize)?;
        threads.replace(t.thread, state)
    }

    /// Notes where the branches that a thread joins are looked at first. All that is told of the threads stays.
    pub fn note_seen(&mut self, t: ThreadNo, place: usize)
        ensures { self.new ≡ self.old }
    {
        if let Some(threads) = self.processors.get_mut(t.processor as usize) {
            threads.note_seen(t.thread, place);
        }
    }

    /// Makes a thread on a processor that is there.
    pub fn push(&mut self, processor: u32, state: State) -> Result<(), AllocError>
        ensures thread { OnOk result (self.new ≡ push_thread self.old processor (progress_of state)) }
        ensures made { OnOk result (made_in self.new processor ≡ suc (made_in self.old processor)) }
    {
        let Some(threads) = self.processors.get_mut(processor as usize) else {
            return Err(AllocError);
        };
        threads.push(state)?;
        Ok(())
    }

    /// Makes threads on a processor, one after another, and gives their numbers.
    pub fn make_all(
        &mut self,
        code: &Code,
        processor: u32,
        threads: Vec<Thread>,
    ) -> Result<List<ThreadNo>, AllocError>
        ensures numbers { IfOk result (λ numbers. numbers ≡ numbers_on processor (made_in self.old processor) threads.items) }
        ensures threads { OnOk result (self.new ≡ push_all self.old processor (settle_all (code_of code.now) threads.items)) }
    {
        let mut numbers = List::new(self.alloc);
        for thread in threads {
            numbers.push(self.next(processor))?;
            let state = State::new(self.alloc, code, thread)?;
            self.push(processor, state)?;
        }
        Ok(numbers)
    }

    /// How many threads have not ended.
    pub fn threads_left(&self) -> u64
        ensures { result ≡ all_going self.now }
    {
        let mut left = 0;
        for threads in &self.processors {
            left += u64::from(threads.going());
        }
        left
    }
}
