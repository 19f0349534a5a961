ghost use Rattle.std.specs.Prelude.{◌≡◌, ◌<◌, ◌+◌, ◌^◌, ◌≤◌, length, slice_get, IfOk, OnOk, OnErr};
ghost use Rattle.cc_ops.specs.Shapes.{shape_of};
ghost use Rattle.cc_code.specs.Code.{entry};
ghost use Rattle.cc_code.specs.Valid.{end_of};
ghost use Rattle.stack_code.specs.View.{drafted, parts_of, instr_of, empty_code, with_placed, with_function, with_class, with_target};
ghost use Rattle.stack_code.specs.Kept.{Keeps, IsFunShape, IsClassShape, main_of};

use crate::instr::Instr;
use cc_ops::{ClassShape, FunShape};
use std::alloc::{AllocError, Global};

/// An instruction at its place, with its line and the number of the function that it lies in.
#[derive(Drop)]
pub(crate) struct Place {
    pub instr: Instr,
    pub line: u32,
    pub function: u32,
}

/// A function, with the place where it begins.
#[derive(Drop)]
pub(crate) struct Begun {
    pub entry: u32,
    pub shape: FunShape,
}

/// Code while it is made.
#[derive(Drop)]
pub(crate) struct Draft {
    pub places: Vec<Place>,
    pub functions: Vec<Begun>,
    pub classes: Vec<ClassShape>,
}

impl Draft {
    pub fn new(alloc: Global) -> Draft
        ensures empty { drafted result ≡ empty_code }
        ensures keeps { Keeps result }
    {
        Draft {
            places: Vec::new(alloc),
            functions: Vec::new(alloc),
            classes: Vec::new(alloc),
        }
    }

    pub fn len(&self) -> u32
        requires { Keeps self.now }
        ensures { result ≡ length (drafted self.now).places }
    {
        self.places.len() as u32
    }

    /// The place behind the instructions of a function.
    pub fn end(&self, function: u32) -> u32
        requires begun { function < length (drafted self.now).shapes.functions }
        requires kept { Keeps self.now }
        ensures end { result ≡ end_of (drafted self.now) function }
        ensures in_order { entry (drafted self.now) function ≤ result }
        ensures within { result ≤ length (drafted self.now).places }
    {
        match self.functions.get(function as usize + 1) {
            Some(next) => next.entry,
            None => self.len(),
        }
    }

    /// The number of the function `main`, if there is one.
    pub fn main(&self) -> Option<u32>
        requires { Keeps self.now }
        ensures { result ≡ main_of (drafted self.now) }
    {
        for (number, begun) in self.functions.iter().enumerate() {
            if begun.shape.name.as_str() == "main" {
                return Some(number as u32);
            }
        }
        None
    }

    pub fn push(&mut self, instr: Instr, line: u32) -> Result<u32, AllocError>
        requires begun { 0 < length (drafted self.old).shapes.functions }
        requires kept { Keeps self.old }
        ensures place { IfOk result (λ at. at ≡ length (drafted self.old).places) }
        ensures pushed { OnOk result (drafted self.new ≡ with_placed (drafted self.old) (record { instr = instr_of instr; line = line })) }
        ensures refused { OnErr result (parts_of self.new ≡ parts_of self.old) }
        ensures keeps { Keeps self.new }
    {
        let at = next_number(self.places.len())?;
        let function = (self.functions.len() - 1) as u32;
        self.places.push(Place {
            instr,
            line,
            function,
        })?;
        Ok(at)
    }

    pub fn begin(&mut self, shape: FunShape) -> Result<u32, AllocError>
        requires few { length (drafted self.old).shapes.functions < 65536 }
        requires fits { IsFunShape shape }
        requires kept { Keeps self.old }
        ensures number { IfOk result (λ f. f ≡ length (drafted self.old).shapes.functions) }
        ensures begun { OnOk result (drafted self.new ≡ with_function (drafted self.old) shape) }
        ensures refused { OnErr result (parts_of self.new ≡ parts_of self.old) }
        ensures keeps { Keeps self.new }
    {
        let number = self.functions.len() as u32;
        let entry = self.places.len() as u32;
        self.functions.push(Begun { entry, shape })?;
        Ok(number)
    }

    pub fn class(&mut self, shape: ClassShape) -> Result<u32, AllocError>
        requires few { length (drafted self.old).shapes.classes < 65536 }
        requires fits { IsClassShape (shape_of shape) }
        requires kept { Keeps self.old }
        ensures number { IfOk result (λ c. c ≡ length (drafted self.old).shapes.classes) }
        ensures made { OnOk result (drafted self.new ≡ with_class (drafted self.old) shape) }
        ensures refused { OnErr result (parts_of self.new ≡ parts_of self.old) }
        ensures keeps { Keeps self.new }
    {
        let number = self.classes.len() as u32;
        self.classes.push(shape)?;
        Ok(number)
    }

    pub fn aim(&mut self, at: u32, which: u32, target: u32)
        requires { Keeps self.old }
        ensures aimed { drafted self.new ≡ with_target (drafted self.old) at which target }
        ensures keeps { Keeps self.new }
    {
        if (at as usize) < self.places.len() {
            self.places[at as usize].instr.aim(which as usize, target);
        }
    }
}

/// The number of the next place, or want of memory where 32 bits do not suffice.
fn next_number(len: usize) -> Result<u32, AllocError>
    ensures { IfOk result (λ at. (at ≡ len) × (len + 1 < 2 ^ 32)) }
{
    if len >= u32::MAX as usize {
        return Err(AllocError);
    }
    Ok(len as u32)
}
