ghost use Rattle.std.specs.Prelude.{◌≡◌, ℕ, ◌≤◌, ◌∷◌, ◌↔◌, drop, length, if◌then◌else◌, Ok, IfOk, OnOk, OnErr, IsErr, IsTrue, true, false};
ghost use Rattle.cc_ops.specs.Values as values;
ghost use Rattle.cc_ops.specs.Operators as operators;
ghost use Rattle.cc_ops.specs.Machine.{value_of};
ghost use Rattle.cc_core.specs.View.{constant_of};
ghost use Rattle.cc_core.specs.Effects.{numbers};
ghost use Rattle.cc_code.specs.Code.{act, next_place, chooses, returned, at_place, Runs};
ghost use Rattle.cc_code.specs.Code as spec;
ghost use Rattle.cc_code.specs.Valid.{taken, goes_on};
ghost use Rattle.stack_code.specs.View.{code_of, instr_of};
ghost use Rattle.numbered_threads.specs.Numbered.{IsSilent};
ghost use Rattle.numbered_threads.specs.Quiet.{after_silent};
ghost use Rattle.code_thread.specs.Stacks.{topmost};
ghost use Rattle.code_thread.specs.Moves.{IsAsk, after};
ghost use Rattle.code_thread.specs.Frames.{with_variable, with_branches};
ghost use Rattle.code_thread.specs.View.{operands_of, running_of, acts, ended_or, answer_of};

use crate::running::Running;
use crate::taken::taken;
use cc_core::Constant;
use cc_ops::{is_zero, moved, truth, value_at};
use global_ptr::Value;
use stack_code::{Code, Instr};
use std::alloc::{AllocError, Global};

impl Running {
    /// Makes the move of an instruction where that is silent, and says whether it did.
    pub fn silent_move(&mut self, instr: &Instr) -> Result<bool, AllocError>
        ensures moved { (code : spec.Code) (line : ℕ) → IfOk result (λ moved. IsTrue moved
            ↔ IsSilent (act code self.old.frame self.old.callers (operands_of self.old) line (instr_of instr.now))) }
        ensures thread { (code : spec.Code) (line : ℕ) → OnOk result (running_of self.new ≡ after_silent (λ c. c) (running_of self.old)
            (act code self.old.frame self.old.callers (operands_of self.old) line (instr_of instr.now))) }
    {
        match instr {
            Instr::Push(constant) => made(self.gives(0, value(*constant))),
            Instr::This => {
                let this = self.frame.this();
                made(self.gives(0, this))
            }
            Instr::Var(k) => {
                let address = self.frame.variable(*k);
                made(self.gives(0, address))
            }
            Instr::Field(cells) => {
                let Some(address) = self.top() else {
                    return Ok(false);
                };
                made(self.gives(1, moved(address, *cells)))
            }
            Instr::Drop => {
                if self.operands.len() == 0 {
                    return Ok(false);
                }
                made(self.takes(1))
            }
            Instr::Jump(to) => {
                self.frame.go(*to);
                Ok(true)
            }
            _ => Ok(false),
        }
    }

    /// Goes on after the answer to what an instruction asks: the addresses of what was made and then the values that were found, and
    /// the number of the first branch that was made and how many were. It gives the value that the thread ends with, if it does.
    pub fn answer_at(
        &mut self,
        alloc: Global,
        code: &Code,
        instr: &Instr,
        found: &[Value],
        first: usize,
        count: usize,
    ) -> Result<Option<Value>, AllocError>
        ensures { (line : ℕ)
            → let m = act (code_of code.now) self.old.frame self.old.callers (operands_of self.old) line (instr_of instr.now) in
            IsAsk m → IfOk result (λ end. ended_or self.new end ≡ (after m (answer_of found.now first count)).left) }
    {
        if let Instr::Ret = instr {
            return self.returns();
        }
        self.go_on(alloc, code, instr, found, first, count)?;
        Ok(None)
    }

    /// Goes on at another place of the same frame, or enters a function.
    fn go_on(
        &mut self,
        alloc: Global,
        code: &Code,
        instr: &Instr,
        found: &[Value],
        first: usize,
        count: usize,
    ) -> Result<(), AllocError>
        ensures { (line : ℕ) → taken (code_of code.now).shapes (instr_of instr.now) ≤ length (operands_of self.old)
            → let m = acts (code_of code.now) self.old line (instr_of instr.now) in
            IsAsk m → goes_on (instr_of instr.now) ≡ true → OnOk result (running_of self.new ≡ (after m (answer_of found.now first count)).left) }
    {
        let taken = taken(code, instr);
        let value = value_at(found, 0);
        match instr {
            Instr::Index(_) | Instr::At | Instr::Load | Instr::Get => self.gives(taken, value),
            Instr::Op(_) | Instr::New { .. } => self.gives(taken, value),
            Instr::NewObj(_) | Instr::NewProc(_) => self.gives(taken, value),
            Instr::Store | Instr::Put | Instr::Print(_) => self.takes(taken),
            Instr::Spawn(_) | Instr::SpawnOn(_) | Instr::Cast(_) => self.takes(taken),
            Instr::Make { var, .. } | Instr::Set { var, .. } | Instr::Build { var, .. } => {
                self.binds(taken, *var, value)
            }
            Instr::Test(to) => self.tests(*to),
            Instr::And(to) => self.chooses(*to, true),
            Instr::Or(to) => self.chooses(*to, false),
            Instr::Call(f) => self.enters(alloc, code, taken, *f, Value::Void, found),
            Instr::CallOn(f) => {
                let this = self.lowest(taken);
                self.enters(alloc, code, taken, *f, this, found)
            }
            Instr::Ask(_) => {
                self.gives(taken, value)?;
                self.next()
            }
            Instr::Fork(_) => {
                self.frame.joined();
                self.forks(first, count)
            }
            Instr::Each { .. } => self.forks(first, count),
            Instr::Join => {
                self.frame.joined();
                self.next()
            }
            _ => Ok(()),
        }
    }

    /// The lowest of so many topmost operands.
    #[tactic(auto, using(crate::proofs::ValueLaws::topmost_values))]
    fn lowest(&self, count: usize) -> Value
        ensures { count ≤ length (operands_of self.now) → value_of result ≡ values.first (topmost count (operands_of self.now)) }
    {
        match self.operands.topmost(count) {
            Some(operands) => value_at(operands, 0),
            None => Value::Void,
        }
    }

    /// Notes branches, so many from the number of the first one, and goes to the next place.
    fn forks(&mut self, first: usize, count: usize) -> Result<(), AllocError>
        ensures { OnOk result (running_of self.new
            ≡ next_place (with_branches (numbers first count) self.old.frame) self.old.callers (operands_of self.old)) }
    {
        self.frame.note(first, count)?;
        self.next()
    }

    /// Takes a value, and goes to a place where it is 0, else on.
    fn tests(&mut self, to: u32) -> Result<(), AllocError>
        ensures { 1 ≤ length (operands_of self.old) → let rest = drop 1 (operands_of self.old) in OnOk result (running_of self.new
            ≡ chooses self.old.frame self.old.callers to rest rest (values.is_zero (values.first (topmost 1 (operands_of self.old))))) }
    {
        let Some(value) = self.operands.pop() else {
            return Ok(());
        };
        if is_zero(value) {
            self.frame.go(to);
            return Ok(());
        }
        self.next()
    }

    /// Takes a value, and where it is 0, or where it is not, goes to a place with that truth, else on.
    fn chooses(&mut self, to: u32, at_zero: bool) -> Result<(), AllocError>
        ensures zero { 1 ≤ length (operands_of self.old) → at_zero ≡ true → let rest = drop 1 (operands_of self.old) in OnOk result (running_of self.new
            ≡ chooses self.old.frame self.old.callers to (operators.truth false ∷ rest) rest
            (values.is_zero (values.first (topmost 1 (operands_of self.old))))) }
        ensures other { 1 ≤ length (operands_of self.old) → at_zero ≡ false → let rest = drop 1 (operands_of self.old) in OnOk result (running_of self.new
            ≡ (if values.is_zero (values.first (topmost 1 (operands_of self.old))) then next_place self.old.frame self.old.callers rest
            else Runs (at_place self.old.frame to) self.old.callers (operators.truth true ∷ rest))) }
    {
        let Some(value) = self.operands.pop() else {
            return Ok(());
        };
        if is_zero(value) == at_zero {
            self.operands.push(truth(!at_zero))?;
            self.frame.go(to);
            return Ok(());
        }
        self.next()
    }

    /// Drops so many operands, and goes on with a variable at an address.
    fn binds(&mut self, taken: usize, var: u32, address: Value) -> Result<(), AllocError>
        ensures { OnOk result (running_of self.new
            ≡ next_place (with_variable var (value_of address) self.old.frame) self.old.callers (drop taken (operands_of self.old))) }
    {
        self.frame.set_variable(var, address);
        self.takes(taken)
    }

    /// Takes the value that the function returns, and goes back with it. It gives the value where there is nowhere to go back to.
    fn returns(&mut self) -> Result<Option<Value>, AllocError>
        ensures { 1 ≤ length (operands_of self.old) → IfOk result (λ end. ended_or self.new end
            ≡ returned (values.first (topmost 1 (operands_of self.old))) self.old.callers (drop 1 (operands_of self.old))) }
    {
        let Some(value) = self.operands.pop() else {
            return Ok(None);
        };
        let Some(caller) = self.callers.pop() else {
            return Ok(Some(value));
        };
        self.frame = caller;
        self.operands.push(value)?;
        Ok(None)
    }
}

/// Says of a silent move that it was made.
fn made(step: Result<(), AllocError>) -> Result<bool, AllocError>
    ensures ok { OnOk step (result ≡ Ok true) }
    ensures err { OnErr step (IsErr result) }
{
    step?;
    Ok(true)
}

/// The value of a constant.
fn value(constant: Constant) -> Value
    ensures { value_of result ≡ values.constant (constant_of constant) }
{
    match constant {
        Constant::Void => Value::Void,
        Constant::Int(n) => Value::Int(n),
        Constant::Null => Value::Null,
    }
}
