ghost use Rattle.std.specs.Prelude.{◌≡◌, ◌<◌, length, true, IfOk};
ghost use Rattle.cc_code.specs.Valid.{targets_of, goes_on, given, taken, target_depth, in_range};
ghost use Rattle.cc_core.specs.Core.{Shapes};
ghost use Rattle.cc_ops.specs.declared.shape.FunShape.{FunShape};
ghost use Rattle.stack_code.specs.View.{instr_of, aimed, takes_by_itself};

use cc_code::Depth;
use cc_core::{Constant, PrintPart};
use cc_ops::{Kind, Op};
use ccpp_edge::List;
use std::alloc::AllocError;
use std::slice;

/// An instruction. A target is a place of the code; variables, functions and classes are numbers. This project's own.
#[derive(Drop)]
pub enum Instr {
    /// Pushes a constant.
    Push(Constant),
    /// Pushes the pointer to the own object.
    This,
    /// Pushes the address of a variable.
    Var(u32),
    /// Moves an address so many cells on.
    Field(u32),
    Drop,
    Jump(u32),
    /// Ends a branch.
    End,
    /// Takes an index and the address of an array of that length, and pushes the element's.
    Index(u32),
    /// Takes an index and a pointer, and pushes the element's address.
    At,
    Load,
    Store,
    Op(Op),
    /// Takes a value, and goes to the target where it is 0.
    Test(u32),
    /// Takes a value, and where it is 0 pushes 0 and goes to the target.
    And(u32),
    /// Takes a value, and where it is not 0 pushes 1 and goes to the target.
    Or(u32),
    /// Makes cells for a variable.
    Make { var: u32, kind: Kind, count: u32 },
    /// Makes a cell for a variable, with the value that it takes.
    Set { var: u32, kind: Kind },
    /// Makes an object of a class for a variable.
    Build { var: u32, class: u32 },
    /// Pushes the pointer to new cells.
    New { kind: Kind, count: u32 },
    /// Pushes the pointer to a new object of a class.
    NewObj(u32),
    Call(u32),
    /// Calls a function on the object that lies under the arguments.
    CallOn(u32),
    Spawn(u32),
    SpawnOn(u32),
    Ret,
    /// Makes a branch at each target.
    Fork(List<u32>),
    /// Makes a branch at the target, with its own copy of a variable.
    Each { target: u32, var: u32 },
    /// Waits for the branches that its frame forked, or for the answer of an `Ask` before it.
    Join,
    Print(List<PrintPart>),
    /// A load through a global pointer, and the remote forms of other instructions.
    Get,
    Put,
    Ask(u32),
    Cast(u32),
    NewProc(u32),
}

impl Instr {
    /// Whether a thread may go on to the next place.
    pub fn goes_on(&self) -> bool
        ensures { result ≡ goes_on (instr_of self.now) }
    {
        !matches!(self, Instr::Jump(_) | Instr::End | Instr::Ret)
    }

    /// The places that it may lead to, besides the next one.
    pub fn targets(&self) -> &[u32]
        ensures { result.now ≡ targets_of (instr_of self.now) }
    {
        match self {
            Instr::Jump(to) => slice::from_ref(to),
            Instr::Test(to) => slice::from_ref(to),
            Instr::And(to) => slice::from_ref(to),
            Instr::Or(to) => slice::from_ref(to),
            Instr::Each { target, .. } => slice::from_ref(target),
            Instr::Fork(targets) => targets.as_slice(),
            _ => &[],
        }
    }

    /// How many operands it leaves where it goes on to the next place.
    pub(crate) fn given(&self) -> u32
        ensures { result ≡ given (instr_of self.now) }
    {
        match self {
            Instr::Push(_) | Instr::This | Instr::Var(_) | Instr::Field(_) => 1,
            Instr::Index(_) | Instr::At | Instr::Load | Instr::Get | Instr::Op(_) => 1,
            Instr::New { .. } | Instr::NewObj(_) | Instr::NewProc(_) => 1,
            Instr::Call(_) | Instr::CallOn(_) | Instr::Ask(_) => 1,
            _ => 0,
        }
    }

    /// How many operands it takes, unless that depends on a shape.
    pub(crate) fn taken_of_itself(&self) -> usize
        ensures { (h : Shapes) → takes_by_itself (instr_of self.now) ≡ true → result ≡ taken h (instr_of self.now) }
    {
        match self {
            Instr::Index(_) | Instr::At | Instr::Store | Instr::Put => 2,
            Instr::Field(_) | Instr::Drop | Instr::Load | Instr::Get | Instr::Ret => 1,
            Instr::Test(_) | Instr::And(_) | Instr::Or(_) | Instr::Set { .. } => 1,
            _ => 0,
        }
    }

    /// The depth at its targets, where this depth is left.
    pub(crate) fn target_depth(&self, rest: Depth) -> Result<Depth, AllocError>
        ensures { IfOk result (λ depth. depth ≡ target_depth (instr_of self.now) rest) }
    {
        match self {
            Instr::And(_) | Instr::Or(_) => rest.deeper(1),
            Instr::Fork(_) | Instr::Each { .. } => Ok(Depth::Exactly(0)),
            _ => Ok(rest),
        }
    }

    /// Whether each number is in range, in a function of so many variables and with so many functions and classes.
    pub(crate) fn in_range(&self, variables: u32, functions: usize, classes: usize) -> bool
        ensures { (h : Shapes) (f : FunShape) → f.vars ≡ variables → length h.functions ≡ functions → length h.classes ≡ classes
            → result ≡ in_range h f (instr_of self.now) }
    {
        match self {
            Instr::Var(var) | Instr::Set { var, .. } | Instr::Each { var, .. } => *var < variables,
            Instr::Make { var, count, .. } => *var < variables && *count > 0,
            Instr::Build { var, class } => *var < variables && (*class as usize) < classes,
            Instr::Index(count) | Instr::New { count, .. } => *count > 0,
            Instr::NewObj(class) | Instr::NewProc(class) => (*class as usize) < classes,
            Instr::Call(f) | Instr::CallOn(f) | Instr::Ask(f) => (*f as usize) < functions,
            Instr::Spawn(f) | Instr::SpawnOn(f) | Instr::Cast(f) => (*f as usize) < functions,
            _ => true,
        }
    }

    /// Sets a target, by its number from 0, if there is such a target.
    pub(crate) fn aim(&mut self, which: usize, target: u32)
        ensures { instr_of self.new ≡ aimed (instr_of self.old) which target }
    {
        match self {
            Instr::Jump(to) => *to = target,
            Instr::Test(to) => *to = target,
            Instr::And(to) => *to = target,
            Instr::Or(to) => *to = target,
            Instr::Each { target: to, .. } => *to = target,
            Instr::Fork(targets) => {
                if which < targets.len() {
                    targets.set(which, target);
                }
            }
            _ => {}
        }
    }
}
