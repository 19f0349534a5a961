ghost use Rattle.std.specs.Prelude.{◌≡◌, ◌∷◌, [], suc, map, drop, slice_get, MatchOption, OnOk, IfOk};
ghost use Rattle.std.specs.Option.{option_map};
ghost use Rattle.cc_ops.specs.Machine.{value_of};
ghost use Rattle.cc_code.specs.Code.{move, next_place, enter_at, at_place, Runs, Stuck};
ghost use Rattle.stack_code.specs.View.{code_of, instr_of};
ghost use Rattle.code_thread.specs.View.{operands_of, running_of, IsNext};

use crate::frame::Frame;
use crate::shapes::{entry, variables};
use crate::stack::Stack;
use crate::values::resized;
use global_ptr::Value;
use stack_code::{Code, Instr};
use std::alloc::{AllocError, Global};

/// A thread in a function, over those that it returns to, with its operands.
#[derive(Debug, Drop)]
pub(crate) struct Running {
    pub frame: Frame,
    pub callers: Stack<Frame>,
    pub operands: Stack<Value>,
}

impl Running {
    /// In a frame alone, with no operand.
    pub fn new(alloc: Global, frame: Frame) -> Running
        ensures { running_of result ≡ Runs frame [] [] }
    {
        Running {
            frame,
            callers: Stack::new(alloc),
            operands: Stack::new(alloc),
        }
    }

    /// The instruction at its place, and `None` exactly where the code has no such place.
    pub fn instr<'a>(&self, code: &'a Code) -> Option<&'a Instr>
        ensures { MatchOption result (move (code_of code.now) (running_of self.now) ≡ Stuck)
            (λ instr. IsNext (code_of code.now) self.now (instr_of instr.now)) }
    {
        let place = self.frame.place();
        if place >= code.len() {
            return None;
        }
        Some(code.at(place))
    }

    /// The operand on top.
    pub fn top(&self) -> Option<Value>
        ensures { option_map value_of result ≡ slice_get (operands_of self.now) 0 }
    {
        self.operands.top().copied()
    }

    /// Goes to the next place. More places than 32 bits can count fit no memory.
    pub fn next(&mut self) -> Result<(), AllocError>
        ensures { OnOk result (running_of self.new ≡ next_place self.old.frame self.old.callers (operands_of self.old)) }
    {
        let place = self.frame.place().checked_add(1).ok_or(AllocError)?;
        self.frame.go(place);
        Ok(())
    }

    /// Drops so many operands, and goes to the next place.
    #[tactic(auto, using(crate::proofs::ValueLaws::dropped_values))]
    pub fn takes(&mut self, taken: usize) -> Result<(), AllocError>
        ensures { OnOk result (running_of self.new ≡ next_place self.old.frame self.old.callers (drop taken (operands_of self.old))) }
    {
        self.operands.drop_topmost(taken);
        self.next()
    }

    /// Pushes a value in the place of so many operands, and goes to the next place.
    #[tactic(auto, using(crate::proofs::ValueLaws::dropped_values))]
    pub fn gives(&mut self, taken: usize, value: Value) -> Result<(), AllocError>
        ensures { OnOk result (running_of self.new
            ≡ next_place self.old.frame self.old.callers (value_of value ∷ drop taken (operands_of self.old))) }
    {
        self.operands.drop_topmost(taken);
        self.operands.push(value)?;
        self.next()
    }

    /// Drops so many operands and enters a function, which will return to the next place.
    pub fn enters(
        &mut self,
        alloc: Global,
        code: &Code,
        taken: usize,
        function: u32,
        this: Value,
        parameters: &[Value],
    ) -> Result<(), AllocError>
        ensures { OnOk result (running_of self.new
            ≡ Runs (enter_at (code_of code.now) function (value_of this) (map value_of parameters.now))
            (at_place self.old.frame (suc self.old.frame.place) ∷ self.old.callers) (drop taken (operands_of self.old))) }
    {
        let entered = entered(alloc, code, function, this, parameters)?;
        self.takes(taken)?;
        let caller = std::mem::replace(&mut self.frame, entered);
        self.callers.push(caller)
    }
}

/// The frame of a function as it is entered, with the addresses of its parameters.
pub(crate) fn entered(
    alloc: Global,
    code: &Code,
    function: u32,
    this: Value,
    parameters: &[Value],
) -> Result<Frame, AllocError>
    ensures { IfOk result
        (λ frame. frame ≡ enter_at (code_of code.now) function (value_of this) (map value_of parameters.now)) }
{
    let vars = resized(alloc, variables(code, function) as usize, parameters)?;
    Ok(Frame::new(alloc, this, vars, entry(code, function)))
}
