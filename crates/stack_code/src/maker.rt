ghost use Rattle.std.specs.Prelude.{◌≡◌, ◌<◌, length, IfOk, IfErr, OnOk, OnErr};
ghost use Rattle.cc_ops.specs.Shapes.{shape_of};
ghost use Rattle.cc_code.specs.Valid.{IsValid};
ghost use Rattle.stack_code.specs.View.{code_of, instr_of, empty_code, with_placed, with_function, with_class, with_target};
ghost use Rattle.stack_code.specs.Kept.{IsFunShape, IsClassShape};
ghost use Rattle.stack_code.specs.Faults.{IsFaultOf};

use crate::close::CodeFault;
use crate::code::Code;
use crate::draft::Draft;
use crate::instr::Instr;
use cc_ops::{ClassShape, FunShape};
use std::alloc::{AllocError, Global};
use std::marker::Model;

/// Makes code, instruction by instruction, function by function. Contracts see the code that is made so far.
#[derive(Drop)]
pub struct CodeMaker {
    draft: Draft,
}

impl Model for CodeMaker {
    ghost use Rattle.stack_code.specs.View.{Parts, parts_of};
    ghost use Rattle.stack_code.specs.Kept.{Keeps};

    ghost Value = { Parts };

    ghost use Rattle.std.specs.Coded.{codes};
    ghost use Rattle.cc_ops.specs.contracts.build.BuildExpr as expression;

    ghost coded = { Prim.hlevel (codes, expression.the_row.coded) };

    ghost view = { λ maker. parts_of maker.draft };

    ghost invariant = { λ maker. Keeps maker.draft };
}

impl CodeMaker {
    /// No code, which takes no memory.
    pub fn new(alloc: Global) -> CodeMaker
        ensures { code_of result ≡ empty_code }
    {
        CodeMaker {
            draft: Draft::new(alloc),
        }
    }

    /// The number of instructions so far, which is the place of the next one.
    pub fn len(&self) -> u32
        ensures { result ≡ length (code_of self.now).places }
    {
        self.draft.len()
    }

    /// One more class; gives its number. Want of memory drops it and leaves the code as it was.
    pub fn class(&mut self, shape: ClassShape) -> Result<u32, AllocError>
        requires few { length (code_of self.old).shapes.classes < 65536 }
        requires fits { IsClassShape (shape_of shape) }
        ensures number { IfOk result (λ c. c ≡ length (code_of self.old).shapes.classes) }
        ensures made { OnOk result (code_of self.new ≡ with_class (code_of self.old) shape) }
        ensures refused { OnErr result (self.new ≡ self.old) }
    {
        self.draft.class(shape)
    }

    /// Begins the next function; gives its number. Want of memory drops it and leaves the code as it was.
    pub fn function(&mut self, shape: FunShape) -> Result<u32, AllocError>
        requires few { length (code_of self.old).shapes.functions < 65536 }
        requires fits { IsFunShape shape }
        ensures number { IfOk result (λ f. f ≡ length (code_of self.old).shapes.functions) }
        ensures begun { OnOk result (code_of self.new ≡ with_function (code_of self.old) shape) }
        ensures refused { OnErr result (self.new ≡ self.old) }
    {
        self.draft.begin(shape)
    }

    /// One more instruction of the function that was begun last; gives its place. Want of memory drops it and leaves the code as
    /// it was.
    pub fn push(&mut self, instr: Instr, line: u32) -> Result<u32, AllocError>
        requires begun { 0 < length (code_of self.old).shapes.functions }
        ensures place { IfOk result (λ at. at ≡ length (code_of self.old).places) }
        ensures pushed { OnOk result (code_of self.new ≡ with_placed (code_of self.old) (record { instr = instr_of instr; line = line })) }
        ensures refused { OnErr result (self.new ≡ self.old) }
    {
        self.draft.push(instr, line)
    }

    /// Sets a target of the instruction at a place, by the target's number from 0. Where there is no such place or target it does
    /// nothing. It takes no memory.
    pub fn aim(&mut self, at: u32, which: u32, target: u32)
        ensures { code_of self.new ≡ with_target (code_of self.old) at which target }
    {
        self.draft.aim(at, which, target);
    }

    /// Checks the code, in time that grows with its length alone.
    ///
    /// A refusal names the first place that is at fault, with the bad target where it has both faults. It drops the code, as want of
    /// memory does.
    pub fn close(self, alloc: Global) -> Result<Code, CodeFault>
        ensures code { IfOk result (λ code. code_of code ≡ code_of self) }
        ensures valid { IfOk result (λ code. IsValid (code_of code)) }
        ensures fault { IfErr result (IsFaultOf (code_of self)) }
    {
        let CodeMaker { draft } = self;
        if let Some(fault) = draft.fault(alloc)? {
            return Err(fault);
        }
        Ok(Code::checked(draft))
    }
}
