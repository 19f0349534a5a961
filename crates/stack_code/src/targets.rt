ghost use Rattle.std.specs.Prelude.{◌≡◌, ◌<◌, ◌↔◌, IsTrue, length};
ghost use Rattle.std.specs.List.{list_all};
ghost use Rattle.cc_core.specs.Core.{function_shape};
ghost use Rattle.cc_code.specs.Valid.{same_function, stays, well_aimed, in_range, function_at, end_of, IsMisaimed, IsEmptyEntry};
ghost use Rattle.stack_code.specs.View.{drafted, instr_of};
ghost use Rattle.stack_code.specs.Kept.{Keeps};
ghost use Rattle.stack_code.specs.First.{IsFirst};

use crate::draft::Draft;
use crate::instr::Instr;

impl Draft {
    /// Whether a place is one of the function in which `at` lies.
    pub fn same_function(&self, at: usize, to: usize) -> bool
        requires stands { at < length (drafted self.now).places }
        requires kept { Keeps self.now }
        ensures { result ≡ same_function (drafted self.now) at to }
    {
        let function = self.places[at].function;
        match self.places.get(to) {
            Some(place) => place.function == function,
            None => false,
        }
    }

    fn all_same_function(&self, at: usize, targets: &[u32]) -> bool
        requires stands { at < length (drafted self.now).places }
        requires kept { Keeps self.now }
        ensures { result ≡ list_all (same_function (drafted self.now) at) targets.now }
    {
        targets
            .iter()
            .all(|to| self.same_function(at, *to as usize))
    }

    /// Whether an instruction leads nowhere but to places of the function in which `at` lies.
    fn stays(&self, at: usize, instr: &Instr) -> bool
        requires stands { at < length (drafted self.now).places }
        requires kept { Keeps self.now }
        ensures { result ≡ stays (drafted self.now) at (instr_of instr.now) }
    {
        if instr.goes_on() && !self.same_function(at, at + 1) {
            return false;
        }
        self.all_same_function(at, instr.targets())
    }

    /// The number of variables of the function in which `at` lies.
    fn variables(&self, at: usize) -> u32
        requires stands { at < length (drafted self.now).places }
        requires kept { Keeps self.now }
        ensures { result ≡ (function_shape (drafted self.now).shapes (function_at (drafted self.now) at)).vars }
    {
        match self.functions.get(self.places[at].function as usize) {
            Some(begun) => begun.shape.vars,
            None => 0,
        }
    }

    /// Whether each number of an instruction of the function in which `at` lies is in range.
    fn in_range(&self, at: usize, instr: &Instr) -> bool
        requires stands { at < length (drafted self.now).places }
        requires kept { Keeps self.now }
        ensures { result ≡ in_range (drafted self.now).shapes (function_shape (drafted self.now).shapes (function_at (drafted self.now) at)) (instr_of instr.now) }
    {
        instr.in_range(self.variables(at), self.functions.len(), self.classes.len())
    }

    /// Whether the targets and the numbers of an instruction of the function in which `at` lies are right.
    fn is_well_aimed(&self, at: usize, instr: &Instr) -> bool
        requires stands { at < length (drafted self.now).places }
        requires kept { Keeps self.now }
        ensures { result ≡ well_aimed (drafted self.now) at (instr_of instr.now) }
    {
        self.in_range(at, instr) && self.stays(at, instr)
    }

    /// The first place whose instruction has a number that is out of range, or leads out of its function.
    pub fn misaimed(&self) -> Option<u32>
        requires kept { Keeps self.now }
        ensures { IsFirst (IsMisaimed (drafted self.now)) result }
    {
        for at in 0..self.places.len() {
            if self.is_misaimed(at) {
                return Some(at as u32);
            }
        }
        None
    }

    /// Whether the instruction at a place has a number that is out of range, or leads out of its function.
    fn is_misaimed(&self, at: usize) -> bool
        requires stands { at < length (drafted self.now).places }
        requires kept { Keeps self.now }
        ensures { IsTrue result ↔ IsMisaimed (drafted self.now) at }
    {
        !self.is_well_aimed(at, &self.places[at].instr)
    }

    /// The place behind a function.
    fn end_of(&self, function: usize) -> u32
        requires stands { function < length (drafted self.now).shapes.functions }
        requires kept { Keeps self.now }
        ensures { result ≡ end_of (drafted self.now) function }
    {
        match self.functions.get(function + 1) {
            Some(next) => next.entry,
            None => self.places.len() as u32,
        }
    }

    /// The first place where a function without an instruction begins.
    pub fn empty_entry(&self) -> Option<u32>
        requires kept { Keeps self.now }
        ensures { IsFirst (IsEmptyEntry (drafted self.now)) result }
    {
        for (number, begun) in self.functions.iter().enumerate() {
            if begun.entry == self.end_of(number) {
                return Some(begun.entry);
            }
        }
        None
    }
}
