ghost use Rattle.std.specs.Prelude.{◌≡◌, ◌<◌, ◌≤◌, ◌^◌, length};
ghost use Rattle.cc_ops.specs.Shapes.{shape_of};
ghost use Rattle.cc_core.specs.Core.{function_shape, class_shape};
ghost use Rattle.cc_code.specs.Code.{entry};
ghost use Rattle.cc_code.specs.Valid.{IsValid, function_at, end_of};
ghost use Rattle.stack_code.specs.View.{code_of, drafted, instr_of, placed_at};
ghost use Rattle.stack_code.specs.Kept.{Keeps, IsFunShape, IsClassShape, main_of};

use crate::draft::Draft;
use crate::instr::Instr;
use cc_ops::{ClassShape, FunShape};
use std::marker::Model;

/// Valid code: each target stands in its own function, each number is in range, jumps do not go round in a circle, and each place is
/// reached with one number of operands, which its instruction finds. Look-ups take constant time and no memory.
#[derive(Drop)]
pub struct Code {
    draft: Draft,
    main: Option<u32>,
}

impl Model for Code {
    ghost use Rattle.stack_code.specs.View.{Parts, parts_of};
    ghost use Rattle.stack_code.specs.Kept.{IsClosed};

    ghost Value = { Parts };

    ghost use Rattle.std.specs.Coded.{codes};
    ghost use Rattle.cc_ops.specs.contracts.build.BuildExpr as expression;

    ghost coded = { Prim.hlevel (codes, expression.the_row.coded) };

    ghost view = { λ code. parts_of code.draft };

    ghost invariant = { λ code. IsClosed code.draft code.main };
}

impl Code {
    /// The code of a draft that was checked.
    pub(crate) fn checked(draft: Draft) -> Code
        requires keeps { Keeps draft }
        requires valid { IsValid (drafted draft) }
        ensures code { code_of result ≡ drafted draft }
        ensures checked { IsValid (code_of result) }
    {
        let main = draft.main();
        Code { draft, main }
    }

    /// Shows that the code is valid. It does nothing.
    pub fn is_valid(&self)
        ensures { IsValid (code_of self.now) }
    {
        let _len = self.draft.len();
    }

    /// The number of instructions.
    pub fn len(&self) -> u32
        ensures { result ≡ length (code_of self.now).places }
    {
        self.draft.len()
    }

    /// The number of functions. Numbers of 16 bits name them.
    pub fn functions(&self) -> u32
        ensures count { result ≡ length (code_of self.now).shapes.functions }
        ensures few { result ≤ 2 ^ 16 }
    {
        self.draft.functions.len() as u32
    }

    /// The number of classes. Numbers of 16 bits name them.
    pub fn classes(&self) -> u32
        ensures count { result ≡ length (code_of self.now).shapes.classes }
        ensures few { result ≤ 2 ^ 16 }
    {
        self.draft.classes.len() as u32
    }

    /// The instruction at a place.
    pub fn at(&self, place: u32) -> &Instr
        requires { place < length (code_of self.now).places }
        ensures { instr_of result.now ≡ (placed_at (code_of self.now) place).instr }
    {
        &self.draft.places[place as usize].instr
    }

    /// The line of the instruction at a place.
    pub fn line(&self, place: u32) -> u32
        requires { place < length (code_of self.now).places }
        ensures { result ≡ (placed_at (code_of self.now) place).line }
    {
        self.draft.places[place as usize].line
    }

    /// The function in which a place lies.
    pub fn function_at(&self, place: u32) -> u32
        requires { place < length (code_of self.now).places }
        ensures { result ≡ function_at (code_of self.now) place }
    {
        self.draft.places[place as usize].function
    }

    /// The place where a function begins.
    pub fn entry(&self, function: u32) -> u32
        requires { function < length (code_of self.now).shapes.functions }
        ensures { result ≡ entry (code_of self.now) function }
    {
        self.draft.functions[function as usize].entry
    }

    /// The place behind the instructions of a function.
    pub fn end(&self, function: u32) -> u32
        requires { function < length (code_of self.now).shapes.functions }
        ensures end { result ≡ end_of (code_of self.now) function }
        ensures in_order { entry (code_of self.now) function ≤ result }
        ensures within { result ≤ length (code_of self.now).places }
    {
        self.draft.end(function)
    }

    /// The shape of a function.
    pub fn fun(&self, function: u32) -> &FunShape
        requires { function < length (code_of self.now).shapes.functions }
        ensures shape { result.now ≡ function_shape (code_of self.now).shapes function }
        ensures fits { IsFunShape result.now }
    {
        &self.draft.functions[function as usize].shape
    }

    /// The shape of a class.
    pub fn shape(&self, class: u32) -> &ClassShape
        requires { class < length (code_of self.now).shapes.classes }
        ensures shape { shape_of result.now ≡ class_shape (code_of self.now).shapes class }
        ensures fits { IsClassShape (shape_of result.now) }
    {
        &self.draft.classes[class as usize]
    }

    /// The number of the function `main`, and `None` exactly where no function has that name.
    pub fn main(&self) -> Option<u32>
        ensures { result ≡ main_of (code_of self.now) }
    {
        self.main
    }
}
