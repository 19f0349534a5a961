ghost use Rattle.std.specs.Prelude.{◌≡◌, ◌<◌, ◌↔◌, [], ◌∷◌, Some, None, length, IfOk, OnOk, OnErr, IfSome, IfNone, IsSome, IsSomeAnd, false, IsTrue, Err, is_some};
ghost use Rattle.std.specs.Option.{option_copied};
ghost use Rattle.thread_table.specs.LiveThread.{new_thread, last, with_operand, without_operand, innermost, in_innermost, at_code, with_var, inside_of, outside, left_frame, blocked, picked, one_more, awaits_call};
ghost use Rattle.thread_table.specs.Table.{branch_of, branched, waits_at, waits_for_last, one_ended};

use crate::frame::{Asker, Frame, FrameFault, Level, MOST_INSIDE, Parent};
use ccpp_edge::List;
use global_ptr::Value;
use std::alloc::{AllocError, Global};
use std::marker::Model;

/// A live thread.
#[derive(Debug, Drop)]
pub(crate) struct Thread {
    operands: List<Value>,
    frames: Vec<Level>,
    inside: u32,
    parent: Option<Parent>,
    asker: Option<Asker>,
    parked: bool,
    joining: bool,
}

impl Model for Thread {
    ghost use Rattle.thread_table.specs.LiveThread.{LiveThread, IsThread};

    ghost Value = { LiveThread };

    ghost view = { λ t. record {
      operands = t.operands;
      frames = t.frames.items;
      inside = t.inside;
      parent = t.parent;
      asker = t.asker;
      parked = t.parked;
      joining = t.joining;
    } };

    ghost invariant = { λ t. IsThread t.frames.items t.inside };
}

impl Thread {
    /// A thread that has these operands and is inside no function.
    pub fn new(
        alloc: Global,
        frame: Frame,
        args: List<Value>,
        parent: Option<Parent>,
        asker: Option<Asker>,
    ) -> Result<Thread, AllocError>
        ensures { IfOk result (λ thread. thread ≡ new_thread frame args parent asker) }
    {
        let mut frames = Vec::with_capacity(alloc, 1)?;
        frames.push(Level {
            frame,
            first: None,
            branches: 0,
        })?;
        Ok(Thread {
            operands: args,
            frames,
            inside: 0,
            parent,
            asker,
            parked: false,
            joining: false,
        })
    }

    /// Puts a value on top of the operands. Want of memory leaves them as they were.
    pub fn push_operand(&mut self, value: Value) -> Result<(), AllocError>
        ensures ok { OnOk result (self.new ≡ with_operand value self.old) }
        ensures err { OnErr result (self.new ≡ self.old) }
    {
        self.operands.push(value)
    }

    /// Takes the value on top of the operands.
    pub fn pop_operand(&mut self) -> Option<Value>
        ensures value { result ≡ last self.old.operands }
        ensures rest { self.new ≡ without_operand self.old }
    {
        self.operands.pop()
    }

    /// Waits from now on, for the branches of the innermost frame where it is `joining`.
    pub fn block(&mut self, joining: bool)
        ensures { self.new ≡ blocked joining self.old }
    {
        self.parked = true;
        self.joining = joining;
    }

    /// Waits no longer.
    pub fn unblock(&mut self)
        ensures { self.new ≡ picked self.old }
    {
        self.parked = false;
        self.joining = false;
    }

    /// Whether it waits.
    pub fn is_parked(&self) -> bool
        ensures { result ≡ self.now.parked }
    {
        self.parked
    }

    /// Who asked for it.
    pub fn asker(&self) -> Option<Asker>
        ensures { result ≡ self.now.asker }
    {
        self.asker
    }

    /// The frame that it is a branch of.
    pub fn parent(&self) -> Option<Parent>
        ensures { result ≡ self.now.parent }
    {
        self.parent
    }

    /// The innermost frame, with its branches.
    pub fn innermost(&self) -> Option<&Level>
        ensures { option_copied result ≡ innermost self.now }
    {
        self.frames.last()
    }

    /// Puts the innermost frame at another instruction.
    pub fn go(&mut self, code: u32)
        requires { IsSome (innermost self.old) }
        ensures { self.new ≡ in_innermost (at_code code) self.old }
    {
        let last = self.frames.len() - 1;
        let level = &mut self.frames[last];
        level.frame.code = code;
    }

    /// Gives a variable of the innermost frame another value.
    pub fn set_var(&mut self, k: u32, value: Value)
        requires { IsSomeAnd (innermost self.old) (λ l. k < length l.frame.vars) }
        ensures { self.new ≡ in_innermost (with_var k value) self.old }
    {
        let last = self.frames.len() - 1;
        let level = &mut self.frames[last];
        level.frame.vars.set(k as usize, value);
    }

    /// Enters a function, in the place of a frame that awaits its call.
    ///
    /// `Deep` comes exactly where the thread is inside as many functions as it may be. A refusal leaves all as it was.
    pub fn push_frame(&mut self, frame: Frame) -> Result<(), FrameFault>
        requires { IsTrue frame.entered }
        ensures ok { OnOk result (self.new ≡ inside_of frame self.old) }
        ensures deep { (result ≡ Err FrameFault.Deep) ↔ (self.old.inside ≡ MOST_INSIDE) }
        ensures err { OnErr result (self.new ≡ self.old) }
    {
        if self.inside == MOST_INSIDE {
            return Err(FrameFault::Deep);
        }
        let level = Level {
            frame,
            first: None,
            branches: 0,
        };
        if awaits_call(self.frames.as_slice()) {
            self.frames[0] = level;
            self.inside += 1;
            return Ok(());
        }
        self.frames.push(level).map_err(|_| FrameFault::Memory)?;
        self.inside += 1;
        Ok(())
    }

    /// Leaves the innermost function. `None` comes exactly where the thread is inside none.
    pub fn pop_frame(&mut self) -> Option<Frame>
        ensures frame { result ≡ left_frame self.old }
        ensures thread { self.new ≡ outside self.old }
    {
        if self.inside == 0 {
            return None;
        }
        let level = self.frames.pop()?;
        self.inside -= 1;
        let Level { frame, .. } = level;
        Some(frame)
    }

    /// The innermost frame as that to which the branch of this number counts, where this is the thread's own number.
    pub fn branch_of(&self, own: u32, number: u32) -> Option<Parent>
        ensures { result ≡ branch_of own number self.now }
    {
        let level = self.frames.last()?;
        Some(Parent {
            thread: own,
            frame: self.frames.len() as u32 - 1,
            first: level.first.unwrap_or(number),
        })
    }

    /// Gives the innermost frame one more branch, the thread of this number.
    pub fn fork(&mut self, number: u32)
        requires { IfSome (innermost self.old) (λ l. l.branches < 4294967295) }
        ensures { self.new ≡ in_innermost (one_more number) self.old }
    {
        let Some(last) = self.frames.len().checked_sub(1) else {
            return;
        };
        let level = &mut self.frames[last];
        level.first = Some(level.first.unwrap_or(number));
        level.branches += 1;
    }

    /// Whether it waits for the branches of the frame at this place.
    fn waits_at(&self, place: u32) -> bool
        ensures { result ≡ waits_at place self.now }
    {
        self.joining && place as usize + 1 == self.frames.len()
    }

    /// Takes note that a branch has ended, where the frame that it counted to is still there. It says whether the thread waits for
    /// the branches of that frame and this was the last one.
    pub fn branch_ended(&mut self, branch: Parent) -> bool
        requires { IfSome (branched branch self.old.frames) (λ l. 0 < l.branches) }
        ensures last { result ≡ waits_for_last branch self.old }
        ensures thread { self.new ≡ one_ended branch self.old }
    {
        let waits = self.waits_at(branch.frame);
        if !has_frame(self.frames.as_slice(), branch) {
            return false;
        }
        let level = &mut self.frames[branch.frame as usize];
        level.branches -= 1;
        waits && level.branches == 0
    }
}

/// Whether the frame that a branch counts to is still there.
fn has_frame(levels: &[Level], branch: Parent) -> bool
    ensures { result ≡ is_some (branched branch levels.now) }
{
    match levels.get(branch.frame as usize) {
        Some(level) => level.first == Some(branch.first),
        None => false,
    }
}

/// Whether the first frame is of a function that is still to be called.
fn awaits_call(frames: &[Level]) -> bool
    ensures { result ≡ awaits_call frames.now }
{
    match frames {
        [] => false,
        [first, ..] => !first.frame.entered,
    }
}
