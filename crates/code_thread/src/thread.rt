ghost use Rattle.std.specs.Prelude.{◌≡◌, ℕ, ◌↔◌, [], map, OnOk, IfOk, IsTrue};
ghost use Rattle.cc_ops.specs.Machine.{value_of};
ghost use Rattle.cc_code.specs.Code.{move, Runs, Starting, Finished, enter_at};
ghost use Rattle.stack_code.specs.View.{code_of};
ghost use Rattle.numbered_threads.specs.Numbered.{IsSilent};
ghost use Rattle.numbered_threads.specs.Quiet.{run_quietly, quiet_end};
ghost use Rattle.code_thread.specs.Moves.{seen, IsAsk, after};
ghost use Rattle.code_thread.specs.View.{look_of, answer_of};

use crate::ask::{Ask, Look};
use crate::frame::Frame;
use crate::running::{Running, entered};
use crate::shapes::line;
use ccpp_edge::List;
use global_ptr::Value;
use stack_code::Code;
use std::alloc::{AllocError, Global};
use std::marker::Model;

/// A thread of code.
#[derive(Debug, Drop)]
pub struct Thread {
    doing: Doing,
}

/// What a thread is about.
#[derive(Debug, Drop)]
enum Doing {
    Runs(Running),
    /// Its first step is a call.
    Starts {
        function: u32,
        this: Value,
        args: List<Value>,
    },
    Finished(Value),
}

impl Model for Thread {
    ghost use Rattle.cc_ops.specs.Machine.{Address};
    ghost use Rattle.cc_code.specs.Code.{Thread as CodeThread};

    ghost Value = { CodeThread Address };

    ghost use Rattle.code_thread.specs.Doing.{thread_of};

    ghost view = { λ t. thread_of t.doing };
}

impl Thread {
    /// A thread whose first step is a call.
    pub fn start(function: u32, this: Value, args: List<Value>) -> Thread
        ensures { result ≡ Starting function (value_of this) (map value_of args) }
    {
        Thread {
            doing: Doing::Starts {
                function,
                this,
                args,
            },
        }
    }

    /// A thread in a frame alone.
    pub(crate) fn branch(alloc: Global, frame: Frame) -> Thread
        ensures { result ≡ Runs frame [] [] }
    {
        Thread {
            doing: Doing::Runs(Running::new(alloc, frame)),
        }
    }

    /// A thread that has entered a function, with the addresses of its parameters.
    pub fn entered(
        alloc: Global,
        code: &Code,
        function: u32,
        this: Value,
        parameters: &[Value],
    ) -> Result<Thread, AllocError>
        ensures { IfOk result (λ thread. thread
            ≡ Runs (enter_at (code_of code.now) function (value_of this) (map value_of parameters.now)) [] []) }
    {
        let frame = entered(alloc, code, function, this, parameters)?;
        Ok(Thread::branch(alloc, frame))
    }

    /// What it does next.
    pub fn look<'a>(&'a self, code: &'a Code) -> Look<'a>
        ensures { look_of (code_of code.now).shapes result ≡ seen (move (code_of code.now) self.now) }
    {
        match &self.doing {
            Doing::Finished(value) => Look::Ends(*value),
            Doing::Starts {
                function,
                this,
                args,
            } => {
                let line = line(code, *function);
                Look::Asks(line, Ask::Enters(*function, *this, args.as_slice()))
            }
            Doing::Runs(running) => {
                let Some(instr) = running.instr(code) else {
                    return Look::Stuck;
                };
                let line = code.line(running.frame.place());
                running.look_at(code, instr, line)
            }
        }
    }

    /// Makes its move where that is silent, and says whether it did.
    pub fn silent_move(&mut self, code: &Code) -> Result<bool, AllocError>
        ensures moved { IfOk result (λ moved. IsTrue moved ↔ IsSilent (move (code_of code.now) self.old)) }
        ensures thread { OnOk result (self.new ≡ run_quietly (code_of code.now) 1 self.old) }
    {
        let Doing::Runs(running) = &mut self.doing else {
            return Ok(false);
        };
        let Some(instr) = running.instr(code) else {
            return Ok(false);
        };
        running.silent_move(instr)
    }

    /// Makes its silent moves, to their end.
    pub fn settle(&mut self, code: &Code) -> Result<(), AllocError>
        ensures { OnOk result (self.new ≡ quiet_end (code_of code.now) self.old) }
    {
        code.is_valid();
        'quiet: while self.silent_move(code)? {}
        Ok(())
    }

    /// The branches that it forks by what it asks, after the answer with these values.
    pub fn branches(
        &self,
        alloc: Global,
        code: &Code,
        found: &[Value],
    ) -> Result<Vec<Thread>, AllocError>
        ensures { (first count : ℕ) → let m = move (code_of code.now) self.now in
            IfOk result (λ branches. branches.items ≡ (after m (answer_of found.now first count)).branches) }
    {
        let Doing::Runs(running) = &self.doing else {
            return Ok(Vec::new(alloc));
        };
        let Some(instr) = running.instr(code) else {
            return Ok(Vec::new(alloc));
        };
        running.branches_at(alloc, instr, found)
    }

    /// Goes on after the answer to what it asks: the addresses of what was made and then the values that were found, and the number of
    /// the first branch that was made, among the threads that it makes, and how many were.
    pub fn answered(
        &mut self,
        alloc: Global,
        code: &Code,
        found: &[Value],
        first: usize,
        count: usize,
    ) -> Result<(), AllocError>
        ensures { let m = move (code_of code.now) self.old in IsAsk m → OnOk result (self.new ≡ (after m (answer_of found.now first count)).left) }
    {
        match &mut self.doing {
            Doing::Runs(running) => {
                let Some(instr) = running.instr(code) else {
                    return Ok(());
                };
                let end = running.answer_at(alloc, code, instr, found, first, count)?;
                if let Some(value) = end {
                    self.finish(value);
                }
                Ok(())
            }
            Doing::Starts { function, this, .. } => {
                let frame = entered(alloc, code, *function, *this, found)?;
                self.doing = Doing::Runs(Running::new(alloc, frame));
                Ok(())
            }
            Doing::Finished(_) => Ok(()),
        }
    }

    /// Ends with a value.
    fn finish(&mut self, value: Value)
        ensures { self.new ≡ Finished (value_of value) }
    {
        self.doing = Doing::Finished(value);
    }
}
