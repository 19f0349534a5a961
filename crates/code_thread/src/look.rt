ghost use Rattle.std.specs.Prelude.{◌≡◌, List, map};
ghost use Rattle.cc_ops.specs.Values as values;
ghost use Rattle.cc_ops.specs.Machine.{Address, value_of};
ghost use Rattle.cc_code.specs.Code as spec;
ghost use Rattle.cc_code.specs.Code.{act};
ghost use Rattle.stack_code.specs.View.{code_of, instr_of};
ghost use Rattle.code_thread.specs.View.{operands_of, look_of};
ghost use Rattle.code_thread.specs.Moves.{seen};
ghost use Rattle.code_thread.specs.Acts.{acts_on};

use crate::ask::{Ask, Look};
use crate::frame::Frame;
use crate::running::Running;
use crate::taken::taken;
use cc_core::How;
use cc_ops::{no_void, value_at};
use global_ptr::Value;
use stack_code::{Code, Instr};

impl Running {
    /// What it does next by an instruction at a line.
    pub fn look_at<'a>(&'a self, code: &Code, instr: &'a Instr, line: u32) -> Look<'a>
        ensures { look_of (code_of code.now).shapes result
            ≡ seen (act (code_of code.now) self.now.frame self.now.callers (operands_of self.now) line (instr_of instr.now)) }
    {
        match self.operands.topmost(taken(code, instr)) {
            Some(args) => look_with(&self.frame, instr, line, args),
            None => Look::Stuck,
        }
    }
}

/// What is done next by an instruction at a line that takes these operands.
fn look_with<'a>(frame: &'a Frame, instr: &'a Instr, line: u32, args: &'a [Value]) -> Look<'a>
    ensures { (code : spec.Code) (callers : List (spec.Frame Address)) (rest : List (values.Value Address)) → look_of code.shapes result
        ≡ seen (acts_on code frame.now callers (map value_of args.now) rest line (instr_of instr.now)) }
{
    let first = value_at(args, 0);
    let second = value_at(args, 1);
    match instr {
        Instr::Push(_) | Instr::This | Instr::Var(_) => Look::Silent,
        Instr::Field(_) | Instr::Drop | Instr::Jump(_) => Look::Silent,
        Instr::End => Look::Ends(Value::Void),
        Instr::Load => Look::Asks(line, Ask::Reads(false, first)),
        Instr::Get => Look::Asks(line, Ask::Reads(true, first)),
        Instr::Store => Look::Asks(line, Ask::Writes(false, first, second)),
        Instr::Put => Look::Asks(line, Ask::Writes(true, first, no_void(second))),
        Instr::Index(length) => Look::Asks(line, Ask::Indexes(first, *length, second)),
        Instr::At => Look::Asks(line, Ask::Shifts(first, second)),
        Instr::Op(op) => Look::Asks(line, Ask::Computes(*op, args)),
        Instr::Test(_) | Instr::And(_) | Instr::Or(_) => Look::Asks(line, Ask::Tests),
        Instr::Make { kind, count, .. } | Instr::New { kind, count } => {
            Look::Asks(line, Ask::Makes(*kind, *count))
        }
        Instr::Set { kind, .. } => Look::Asks(line, Ask::MakesWith(*kind, first)),
        Instr::Build { class, .. } | Instr::NewObj(class) => {
            Look::Asks(line, Ask::Constructs(false, *class, args))
        }
        Instr::NewProc(class) => Look::Asks(line, Ask::Constructs(true, *class, args)),
        Instr::Call(f) => Look::Asks(line, Ask::Calls(How::Alone, *f, args)),
        Instr::CallOn(f) => Look::Asks(line, Ask::Calls(How::On, *f, args)),
        Instr::Ask(f) => Look::Asks(line, Ask::Calls(How::Remote, *f, args)),
        Instr::Spawn(f) => Look::Asks(line, Ask::Spawns(How::Alone, *f, args)),
        Instr::SpawnOn(f) => Look::Asks(line, Ask::Spawns(How::On, *f, args)),
        Instr::Cast(f) => Look::Asks(line, Ask::Spawns(How::Remote, *f, args)),
        Instr::Ret => Look::Asks(line, Ask::Leaves),
        Instr::Fork(targets) => Look::Asks(line, Ask::ForksAll(targets.len())),
        Instr::Each { var, .. } => Look::Asks(line, Ask::ForksOne(frame.variable(*var))),
        Instr::Join => Look::Asks(line, Ask::Joins(frame.made().as_slice())),
        Instr::Print(parts) => Look::Asks(line, Ask::Prints(parts.as_slice(), args)),
    }
}
