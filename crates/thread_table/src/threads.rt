ghost use Rattle.std.specs.Prelude.{◌≡◌, ℕ, ◌+◌, ◌-◌, ◌<◌, ◌^◌, ◌↔◌, ◌++◌, ◌∷◌, [], Some, None, Err, length, count_by, is_some, slice_get, IsTrue, IsSome, IsSomeAnd, IfSome, IfOk, OnOk, OnErr, MatchOption};
ghost use Rattle.std.specs.Option.{ForSome, option_copied, option_and_then};
ghost use Rattle.global_ptr.specs.ReadyList.{ReadyList, Takes};
ghost use Rattle.thread_table.specs.declared.frame.TheConstants.{MOST_INSIDE};
ghost use Rattle.thread_table.specs.LiveThread.{last, with_operand, without_operand, in_innermost, at_code, with_var, inside_of, outside, left_frame, blocked, picked};
ghost use Rattle.thread_table.specs.Numbers.{thread_at};
ghost use Rattle.thread_table.specs.Table.{IsLive, CanEnd, level_at, changed, state_of, picked_in, parent_of, forked, spawned, ended, finished, woken_by, told_by, branches_of, HasRoom};

use crate::frame::{
    Asker, Frame, FrameFault, Level, MOST_THREADS, Parent, ThreadFault, ThreadState,
};
use crate::numbers::Numbered;
use crate::thread::Thread;
use ccpp_edge::List;
use global_ptr::{Ready, Value, Waiter};
use std::alloc::{AllocError, Global};
use std::marker::Model;

/// The threads of a processor, under numbers from 0 in the order made.
///
/// Contracts see it as the list of the live threads by their numbers, with nothing where a thread has ended. A number is never
/// given again. This project's own.
#[derive(Debug, Drop)]
pub struct Threads {
    alloc: Global,
    numbered: Numbered,
}

impl Model for Threads {
    ghost use Rattle.thread_table.specs.Table.{Table, IsTable};

    ghost Value = { Table };

    ghost view = { λ t. t.numbered.threads };

    ghost invariant = { λ t. IsTable t.numbered.threads };
}

impl Threads {
    /// No thread was made. It takes no memory.
    pub fn new(alloc: Global) -> Threads
        ensures { result ≡ [] }
    {
        Threads {
            alloc,
            numbered: Numbered::new(alloc),
        }
    }

    /// How many threads may still be made.
    pub fn room(&self) -> u32
        ensures { result + length self.now ≡ MOST_THREADS }
    {
        MOST_THREADS - self.numbered.made() as u32
    }

    /// How many threads live.
    pub fn live(&self) -> u64
        ensures { result ≡ count_by is_some self.now }
    {
        self.numbered.live() as u64
    }

    /// Whether a thread goes on.
    pub fn state(&self, thread: u32) -> ThreadState
        ensures { result ≡ state_of (thread_at self.now thread) }
    {
        match self.numbered.get(thread) {
            None => ThreadState::Gone,
            Some(thread) => {
                if thread.is_parked() {
                    ThreadState::Parked
                } else {
                    ThreadState::Ready
                }
            }
        }
    }

    /// Lets a thread wait, for the branches of its innermost frame where it is `joining`.
    pub fn block(&mut self, thread: u32, joining: bool)
        requires { IsLive self.old thread }
        ensures { self.new ≡ changed self.old thread (blocked joining) }
    {
        self.numbered.get_mut(thread).block(joining);
    }

    /// Makes a thread that has these operands and is inside no function, and puts it at the back of `ready`. It gives its number.
    ///
    /// A thread that has a parent is a branch: it counts to the frame that is the parent's innermost one. The list keeps as many
    /// places as before, so that there is one for each live thread that is not in it. `Full` comes exactly where as many threads
    /// were made as may be. A refusal leaves the threads and the list as they were.
    pub fn spawn(
        &mut self,
        frame: Frame,
        args: List<Value>,
        parent: Option<u32>,
        asker: Option<Asker>,
        ready: &mut Ready,
    ) -> Result<u32, ThreadFault>
        requires { ForSome parent (λ p. IsSome (level_at self.old p)) }
        ensures number { IfOk result (λ n. n ≡ length self.old) }
        ensures threads { OnOk result (self.new ≡ spawned self.old frame args parent asker) }
        ensures ready { IfOk result (λ n. ready.new ≡ record ready.old { waiters = ready.old.waiters ++ Waiter.Thread n ∷ [] }) }
        ensures room { (more : ℕ) → HasRoom self.old ready.old more → OnOk result (HasRoom self.new ready.new more) }
        ensures full { (made : ℕ) → (result ≡ Err (ThreadFault.Full made)) ↔ ((length self.old ≡ MOST_THREADS) × (made ≡ MOST_THREADS)) }
        ensures err { OnErr result ((self.new ≡ self.old) × (ready.new ≡ ready.old)) }
    {
        let made = self.numbered.made() as u32;
        if made == MOST_THREADS {
            return Err(ThreadFault::Full { made });
        }
        let branch_of = parent_frame(&self.numbered, parent);
        let thread = Thread::new(self.alloc, frame, args, branch_of, asker)?;
        self.numbered.reserve()?;
        keep_place(ready)?;
        fork(&mut self.numbered, parent);
        let number = self.numbered.insert(thread);
        ready.push(Waiter::Thread(number));
        Ok(number)
    }

    /// Takes the waiter at that place out of `ready`. A thread that is taken waits no longer.
    ///
    /// `None` comes exactly where there is no such place, and then nothing changes.
    pub fn pick(&mut self, ready: &mut Ready, place: u32) -> Option<Waiter>
        ensures waiter { result ≡ slice_get ready.old.waiters place }
        ensures ready { MatchOption result (ready.new ≡ ready.old) (λ _. Takes ready.old ready.new place) }
        ensures threads { self.new ≡ picked_in self.old result }
        ensures room { (more : ℕ) → HasRoom self.old ready.old more → HasRoom self.new ready.new more }
    {
        let waiter = ready.take(place)?;
        if let Waiter::Thread(thread) = waiter {
            unblock(&mut self.numbered, thread);
        }
        Some(waiter)
    }

    /// How many branches of the thread's innermost frame live.
    pub fn branches(&self, thread: u32) -> u32
        requires { IsSome (level_at self.now thread) }
        ensures live { result ≡ branches_of self.now thread }
        ensures counted { IfSome (level_at self.now thread) (λ l. result ≡ l.branches) }
    {
        let Some(level) = innermost(&self.numbered, thread) else {
            unreachable!();
        };
        level.branches
    }

    /// Ends a thread. Its number is not given again.
    ///
    /// It gives the thread's parent exactly where the thread was the last live branch of a frame for whose branches the parent waits.
    pub fn finish(&mut self, thread: u32) -> Option<u32>
        requires { IsLive self.old thread }
        ensures woken { result ≡ woken_by self.old thread }
        ensures threads { self.new ≡ finished self.old thread }
        ensures room { (ready : ReadyList) (more : ℕ) → HasRoom self.old ready more → HasRoom self.new ready more }
    {
        let branch = self.numbered.remove(thread).parent()?;
        end_branch(&mut self.numbered, branch)
    }

    /// Puts a value on top of a thread's operands. Want of memory leaves all as it was.
    pub fn push_operand(&mut self, thread: u32, value: Value) -> Result<(), AllocError>
        requires { IsLive self.old thread }
        ensures ok { OnOk result (self.new ≡ changed self.old thread (with_operand value)) }
        ensures err { OnErr result (self.new ≡ self.old) }
    {
        self.numbered.get_mut(thread).push_operand(value)
    }

    /// Takes the value on top of a thread's operands. `None` comes exactly where there is none.
    pub fn pop_operand(&mut self, thread: u32) -> Option<Value>
        requires { IsLive self.old thread }
        ensures value { result ≡ option_and_then (λ t. last t.operands) (thread_at self.old thread) }
        ensures threads { self.new ≡ changed self.old thread without_operand }
    {
        self.numbered.get_mut(thread).pop_operand()
    }

    /// Lets a thread enter a function, in the place of a first frame that awaits its call.
    ///
    /// `Deep` comes exactly where the thread is inside as many functions as it may be. A refusal leaves all as it was.
    pub fn push_frame(&mut self, thread: u32, frame: Frame) -> Result<(), FrameFault>
        requires live { IsLive self.old thread }
        requires entered { IsTrue frame.entered }
        ensures ok { OnOk result (self.new ≡ changed self.old thread (inside_of frame)) }
        ensures deep { IfSome (thread_at self.old thread) (λ t. (result ≡ Err FrameFault.Deep) ↔ (t.inside ≡ MOST_INSIDE)) }
        ensures err { OnErr result (self.new ≡ self.old) }
    {
        self.numbered.get_mut(thread).push_frame(frame)
    }

    /// Lets a thread leave its innermost function. `None` comes exactly where it is inside none.
    pub fn pop_frame(&mut self, thread: u32) -> Option<Frame>
        requires { IsLive self.old thread }
        ensures frame { result ≡ option_and_then left_frame (thread_at self.old thread) }
        ensures threads { self.new ≡ changed self.old thread outside }
    {
        self.numbered.get_mut(thread).pop_frame()
    }

    /// The innermost frame of a thread.
    pub fn frame(&self, thread: u32) -> &Frame
        requires { IsSome (level_at self.now thread) }
        ensures { IfSome (level_at self.now thread) (λ l. result.now ≡ l.frame) }
    {
        let Some(level) = innermost(&self.numbered, thread) else {
            unreachable!();
        };
        &level.frame
    }

    /// Puts the innermost frame of a thread at another instruction.
    pub fn go(&mut self, thread: u32, code: u32)
        requires { IsSome (level_at self.old thread) }
        ensures { self.new ≡ changed self.old thread (in_innermost (at_code code)) }
    {
        self.numbered.get_mut(thread).go(code);
    }

    /// Gives a variable of the innermost frame of a thread another value.
    pub fn set_var(&mut self, thread: u32, k: u32, value: Value)
        requires { IsSomeAnd (level_at self.old thread) (λ l. k < length l.frame.vars) }
        ensures { self.new ≡ changed self.old thread (in_innermost (with_var k value)) }
    {
        self.numbered.get_mut(thread).set_var(k, value);
    }

    /// Who asked for a thread. `None` comes exactly where it was made without one.
    pub fn asker(&self, thread: u32) -> Option<Asker>
        requires { IsLive self.now thread }
        ensures { result ≡ option_and_then (λ t. t.asker) (thread_at self.now thread) }
    {
        self.numbered.get(thread)?.asker()
    }
}

/// Keeps one place more in a list. Want of memory leaves it as it was.
fn keep_place(ready: &mut Ready) -> Result<(), AllocError>
    ensures ok { OnOk result (ready.new ≡ record ready.old { spare = ready.old.spare + 1 }) }
    ensures err { OnErr result (ready.new ≡ ready.old) }
{
    let places = ready.spare().checked_add(1).ok_or(AllocError)?;
    ready.reserve(places)
}

/// The innermost frame of a live thread.
fn innermost(numbered: &Numbered, thread: u32) -> Option<&Level>
    ensures { option_copied result ≡ level_at numbered.now.threads thread }
{
    numbered.get(thread)?.innermost()
}

/// The frame to which the next thread counts, where it has this parent.
fn parent_frame(numbered: &Numbered, parent: Option<u32>) -> Option<Parent>
    requires { length numbered.now.threads < 2 ^ 32 }
    ensures { result ≡ parent_of numbered.now.threads parent }
{
    let parent = parent?;
    numbered
        .get(parent)?
        .branch_of(parent, numbered.made() as u32)
}

/// Counts the next thread as a branch of the innermost frame of this parent.
fn fork(numbered: &mut Numbered, parent: Option<u32>)
    requires few { length numbered.old.threads < 2 ^ 32 }
    requires live { ForSome parent (λ p. IsSomeAnd (level_at numbered.old.threads p) (λ l. l.branches < 4294967295)) }
    ensures threads { numbered.new.threads ≡ forked numbered.old.threads parent }
    ensures room { numbered.new.room ≡ numbered.old.room }
{
    let Some(parent) = parent else {
        return;
    };
    let number = numbered.made() as u32;
    numbered.get_mut(parent).fork(number);
}

/// Takes note that a thread waits no longer, if it lives.
fn unblock(numbered: &mut Numbered, thread: u32)
    ensures { numbered.new.threads ≡ changed numbered.old.threads thread picked }
{
    if numbered.get(thread).is_some() {
        numbered.get_mut(thread).unblock();
    }
}

/// Takes note that a branch of a frame has ended. It gives the frame's thread where that is woken.
fn end_branch(numbered: &mut Numbered, branch: Parent) -> Option<u32>
    requires { CanEnd numbered.old.threads branch }
    ensures woken { result ≡ told_by numbered.old.threads branch }
    ensures threads { numbered.new.threads ≡ ended numbered.old.threads (Some branch) }
{
    numbered.get(branch.thread)?;
    if numbered.get_mut(branch.thread).branch_ended(branch) {
        Some(branch.thread)
    } else {
        None
    }
}
