ghost use Rattle.std.specs.Prelude.{◌≡◌, ◌<◌, ◌≤◌, ◌+◌, ◌∷◌, [], length, map, replicate, slice_get, ◌↔◌, IsTrue, None, IfOk, OnOk};
ghost use Rattle.cc_ops.specs.Classes.{arity};
ghost use Rattle.cc_core.specs.Core.{function_shape, class_shape};
ghost use Rattle.cc_core.specs.Source.{values};
ghost use Rattle.cc_core.specs.View.{part_of};
ghost use Rattle.cc_code.specs.Valid.{taken, ways, suits, suits_at, IsBadDepth};
ghost use Rattle.stack_code.specs.View.{drafted, instr_of};
ghost use Rattle.stack_code.specs.Kept.{Keeps};
ghost use Rattle.stack_code.specs.First.{IsFirst};
ghost use Rattle.stack_code.specs.Spread.{spread_of, arrived, gone, handed, next_way, IsSpread};

use crate::draft::Draft;
use crate::instr::Instr;
use cc_code::Depth;
use cc_core::PrintPart;
use std::alloc::{AllocError, Global};

/// The depth that is known of each place, and the places that have not yet handed on theirs.
#[derive(Drop)]
pub(crate) struct Depths {
    pub known: Vec<Option<Depth>>,
    pub pending: Vec<u32>,
}

impl Depths {
    /// Nothing is known of any of so many places.
    pub fn new(alloc: Global, places: usize) -> Result<Depths, AllocError>
        ensures { IfOk result (λ depths. spread_of depths ≡ record { known = replicate places None; pending = [] }) }
    {
        Ok(Depths {
            known: vec![in alloc; None; places]?,
            pending: Vec::new(alloc),
        })
    }

    /// A place is reached with a depth.
    fn arrive(&mut self, to: u32, depth: Depth) -> Result<(), AllocError>
        requires { to < length (spread_of self.old).known }
        ensures spread { OnOk result (spread_of self.new ≡ arrived (spread_of self.old) to depth) }
        ensures size { length (spread_of self.new).known ≡ length (spread_of self.old).known }
    {
        let Some(raised) = depth.raised(self.known[to as usize]) else {
            return Ok(());
        };
        self.pending.push(to)?;
        self.known[to as usize] = Some(raised);
        Ok(())
    }

    /// A place is reached with a depth from the place `at`, if both lie in one function.
    fn arrive_inside(
        &mut self,
        draft: &Draft,
        at: u32,
        to: u32,
        depth: Depth,
    ) -> Result<(), AllocError>
        requires kept { Keeps draft.now }
        requires stands { at < length (drafted draft.now).places }
        requires size { length (spread_of self.old).known ≡ length (drafted draft.now).places }
        ensures spread { OnOk result (spread_of self.new ≡ gone (drafted draft.now) at (spread_of self.old) ((to, depth) ∷ [])) }
        ensures size { length (spread_of self.new).known ≡ length (spread_of self.old).known }
    {
        if !draft.same_function(at as usize, to as usize) {
            return Ok(());
        }
        self.arrive(to, depth)
    }

    /// Each of these places is reached with a depth from the place `at`, if both lie in one function.
    fn arrive_at_all(
        &mut self,
        draft: &Draft,
        at: u32,
        targets: &[u32],
        depth: Depth,
    ) -> Result<(), AllocError>
        requires kept { Keeps draft.now }
        requires stands { at < length (drafted draft.now).places }
        requires size { length (spread_of self.old).known ≡ length (drafted draft.now).places }
        ensures spread { OnOk result (spread_of self.new
            ≡ gone (drafted draft.now) at (spread_of self.old) (map (λ to. (to, depth)) targets.now)) }
        ensures size { length (spread_of self.new).known ≡ length (spread_of self.old).known }
    {
        for to in targets {
            self.arrive_inside(draft, at, *to, depth)?;
        }
        Ok(())
    }

    /// The next place is reached from the place `at`, if its instruction goes on.
    fn go_on(
        &mut self,
        draft: &Draft,
        at: u32,
        instr: &Instr,
        rest: Depth,
    ) -> Result<(), AllocError>
        requires kept { Keeps draft.now }
        requires stands { at < length (drafted draft.now).places }
        requires size { length (spread_of self.old).known ≡ length (drafted draft.now).places }
        ensures spread { OnOk result (spread_of self.new ≡ gone (drafted draft.now) at (spread_of self.old) (next_way at (instr_of instr.now) rest)) }
        ensures size { length (spread_of self.new).known ≡ length (spread_of self.old).known }
    {
        if !instr.goes_on() {
            return Ok(());
        }
        let depth = rest.deeper(instr.given())?;
        self.arrive_inside(draft, at, at + 1, depth)
    }

    /// The place `at` hands on what is left there when its instruction has taken its operands.
    fn go(&mut self, draft: &Draft, at: u32, instr: &Instr, rest: Depth) -> Result<(), AllocError>
        requires kept { Keeps draft.now }
        requires stands { at < length (drafted draft.now).places }
        requires size { length (spread_of self.old).known ≡ length (drafted draft.now).places }
        ensures spread { OnOk result (spread_of self.new ≡ gone (drafted draft.now) at (spread_of self.old) (ways at (instr_of instr.now) rest)) }
        ensures size { length (spread_of self.new).known ≡ length (spread_of self.old).known }
    {
        self.go_on(draft, at, instr, rest)?;
        self.arrive_at_all(draft, at, instr.targets(), instr.target_depth(rest)?)
    }

    /// The place `at` hands on its depth.
    fn hand_on(&mut self, draft: &Draft, at: u32) -> Result<(), AllocError>
        requires kept { Keeps draft.now }
        requires stands { at < length (drafted draft.now).places }
        requires size { length (spread_of self.old).known ≡ length (drafted draft.now).places }
        ensures spread { OnOk result (spread_of self.new ≡ handed (drafted draft.now) at (spread_of self.old)) }
        ensures size { length (spread_of self.new).known ≡ length (spread_of self.old).known }
    {
        let Some(depth) = self.known[at as usize] else {
            return Ok(());
        };
        let instr = &draft.places[at as usize].instr;
        let Some(rest) = depth.less(draft.taken(instr)) else {
            return Ok(());
        };
        self.go(draft, at, instr, rest)
    }

    /// The functions begin: each is reached with no operand.
    fn begin(&mut self, draft: &Draft) -> Result<(), AllocError>
        requires kept { Keeps draft.now }
        requires fresh { IsSpread (drafted draft.now) (spread_of self.old) 0 }
        ensures { OnOk result (IsSpread (drafted draft.now) (spread_of self.new) (length (drafted draft.now).entries)) }
    {
        for number in 0..draft.functions.len() {
            self.begin_one(draft, number)?;
        }
        Ok(())
    }

    /// One more function begins.

    fn begin_one(&mut self, draft: &Draft, number: usize) -> Result<(), AllocError>
        requires kept { Keeps draft.now }
        requires stands { number < length (drafted draft.now).entries }
        requires spread { IsSpread (drafted draft.now) (spread_of self.old) number }
        ensures { OnOk result (IsSpread (drafted draft.now) (spread_of self.new) (number + 1)) }
    {
        let entry = draft.functions[number].entry;
        if entry as usize >= draft.places.len() {
            return Ok(());
        }
        self.arrive(entry, Depth::Exactly(0))
    }

    /// Depths are handed on until no place has one to hand on.
    fn spread(&mut self, draft: &Draft) -> Result<(), AllocError>
        requires kept { Keeps draft.now }
        requires begun { IsSpread (drafted draft.now) (spread_of self.old) (length (drafted draft.now).entries) }
        ensures spread { OnOk result (IsSpread (drafted draft.now) (spread_of self.new) (length (drafted draft.now).entries)) }
        ensures done { OnOk result ((spread_of self.new).pending ≡ []) }
    {
        while let Some(at) = self.pending.pop() {
            self.hand_on(draft, at)?;
        }
        Ok(())
    }

    /// The first place that is reached with a depth that does not suit its instruction.
    fn first_unsuited(&self, draft: &Draft) -> Option<u32>
        requires kept { Keeps draft.now }
        requires spread { IsSpread (drafted draft.now) (spread_of self.now) (length (drafted draft.now).entries) }
        requires done { (spread_of self.now).pending ≡ [] }
        ensures { IsFirst (IsBadDepth (drafted draft.now)) result }
    {
        for at in 0..draft.places.len() {
            if self.is_unsuited(draft, at) {
                return Some(at as u32);
            }
        }
        None
    }

    /// Whether a place is reached with a depth that does not suit its instruction.
    fn is_unsuited(&self, draft: &Draft, at: usize) -> bool
        requires kept { Keeps draft.now }
        requires stands { at < length (drafted draft.now).places }
        requires spread { IsSpread (drafted draft.now) (spread_of self.now) (length (drafted draft.now).entries) }
        requires done { (spread_of self.now).pending ≡ [] }
        ensures { IsTrue result ↔ IsBadDepth (drafted draft.now) at }
    {
        match self.known[at] {
            Some(depth) => !draft.suits_at(at, depth),
            None => false,
        }
    }
}

impl Draft {
    /// The first place that is reached with a depth that does not suit its instruction.
    pub fn bad_depth(&self, alloc: Global) -> Result<Option<u32>, AllocError>
        requires { Keeps self.now }
        ensures { IfOk result (IsFirst (IsBadDepth (drafted self.now))) }
    {
        let mut depths = Depths::new(alloc, self.places.len())?;
        depths.begin(self)?;
        depths.spread(self)?;
        Ok(depths.first_unsuited(self))
    }

    /// Whether a depth suits the instruction at a place.
    fn suits_at(&self, at: usize, depth: Depth) -> bool
        requires kept { Keeps self.now }
        requires stands { at < length (drafted self.now).places }
        ensures { result ≡ suits_at (drafted self.now).shapes (slice_get (drafted self.now).places at) depth }
    {
        match depth {
            Depth::Exactly(operands) => self.suits(&self.places[at].instr, operands as usize),
            Depth::Several => false,
        }
    }

    /// Whether an instruction finds the operands that it wants.
    fn suits(&self, instr: &Instr, operands: usize) -> bool
        requires { Keeps self.now }
        ensures { result ≡ suits (drafted self.now).shapes (instr_of instr.now) operands }
    {
        match instr {
            Instr::Ret => operands == 1,
            Instr::End => operands == 0,
            _ => self.taken(instr) <= operands,
        }
    }

    /// The number of values that a call of a function hands over.
    #[tactic(auto, using(crate::proofs::KeptLaws::fits_at))]
    fn arity(&self, function: u32) -> usize
        requires { Keeps self.now }
        ensures arity { result ≡ arity (function_shape (drafted self.now).shapes function).params }
        ensures few { result ≤ 8 }
    {
        if function as usize >= self.functions.len() {
            return 0;
        }
        self.functions[function as usize].shape.arity()
    }

    /// The number of values that the constructor of a class takes.
    fn parameters(&self, class: u32) -> usize
        ensures { result ≡ (class_shape (drafted self.now).shapes class).params }
    {
        match self.classes.get(class as usize) {
            Some(shape) => shape.params as usize,
            None => 0,
        }
    }

    /// The number of operands that an instruction takes.
    fn taken(&self, instr: &Instr) -> usize
        requires { Keeps self.now }
        ensures { result ≡ taken (drafted self.now).shapes (instr_of instr.now) }
    {
        match instr {
            Instr::Op(op) => op.takes(),
            Instr::Build { class, .. } => self.parameters(*class),
            Instr::NewObj(class) | Instr::NewProc(class) => self.parameters(*class),
            Instr::Call(function) | Instr::Spawn(function) => self.arity(*function),
            Instr::CallOn(function) | Instr::Ask(function) => 1 + self.arity(*function),
            Instr::SpawnOn(function) | Instr::Cast(function) => 1 + self.arity(*function),
            Instr::Print(parts) => printed_values(parts.as_slice()),
            _ => instr.taken_of_itself(),
        }
    }
}

/// The number of values that are printed.
fn printed_values(parts: &[PrintPart]) -> usize
    ensures { result ≡ values (map part_of parts.now) }
{
    let mut values = 0;
    for part in parts {
        if matches!(part, PrintPart::Number) {
            values += 1;
        }
    }
    values
}
