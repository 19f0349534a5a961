ghost use Rattle.std.specs.Prelude.{◌≡◌, ◌≢◌, ◌↔◌, ℕ, ◌+◌, ◌^◌, ◌<◌, List, Bool, length, true, false, IsTrue, IfOk, IfSome, IfNone};
ghost use Rattle.cc_code.specs.Valid.{IsCircle, LeadsSilently};
ghost use Rattle.stack_code.specs.View.{drafted};
ghost use Rattle.stack_code.specs.Kept.{Keeps};
ghost use Rattle.stack_code.specs.First.{IsFirst};
ghost use Rattle.stack_code.specs.Circles.{next, is_jump_at, is_round, walk_at, Ends, IsWalked, IsMet, AreRounds};

use crate::draft::Draft;
use crate::instr::Instr;
use std::alloc::{AllocError, Global};

impl Draft {
    /// Where the instruction at a place leads, if it is silent.
    fn silent_next(&self, at: usize) -> Option<usize>
        requires { Keeps self.now }
        ensures { result ≡ next (drafted self.now) at }
    {
        match &self.places.get(at)?.instr {
            Instr::Push(_) | Instr::This | Instr::Var(_) | Instr::Field(_) | Instr::Drop => {
                Some(at + 1)
            }
            Instr::Jump(to) => Some(*to as usize),
            _ => None,
        }
    }

    /// Whether a jump stands at a place.
    fn is_jump(&self, at: usize) -> bool
        ensures { result ≡ is_jump_at (drafted self.now) at }
    {
        match self.places.get(at) {
            Some(place) => matches!(place.instr, Instr::Jump(_)),
            None => false,
        }
    }

    /// The first jump that reaches itself by silent instructions alone.
    pub fn circle(&self, alloc: Global) -> Result<Option<u32>, AllocError>
        requires { Keeps self.now }
        ensures { IfOk result (IsFirst (IsCircle (drafted self.now))) }
    {
        let rounds = rounds_of(alloc, self)?;
        Ok(self.first_circle(&rounds))
    }

    fn first_circle(&self, rounds: &Vec<bool>) -> Option<u32>
        requires kept { Keeps self.now }
        requires rounds { AreRounds (drafted self.now) rounds.now.items }
        requires all { (b : ℕ) → Ends (drafted self.now) rounds.now.items b }
        ensures { IsFirst (IsCircle (drafted self.now)) result }
    {
        for at in 0..self.places.len() {
            if self.is_circle(rounds, at) {
                return Some(at as u32);
            }
        }
        None
    }

    /// Whether a jump stands at a place that reaches itself by silent instructions alone.
    fn is_circle(&self, rounds: &Vec<bool>, at: usize) -> bool
        requires kept { Keeps self.now }
        requires rounds { AreRounds (drafted self.now) rounds.now.items }
        requires all { (b : ℕ) → Ends (drafted self.now) rounds.now.items b }
        ensures { IsTrue result ↔ IsCircle (drafted self.now) at }
    {
        if !is_marked(rounds, at) {
            return false;
        }
        self.is_jump(at)
    }
}

/// Whether a place is marked.
fn is_marked(rounds: &Vec<bool>, at: usize) -> bool
    ensures { result ≡ is_round rounds.now.items at }
{
    match rounds.get(at) {
        Some(round) => *round,
        None => false,
    }
}

/// For each place whether it lies on a circle of silent instructions.
fn rounds_of(alloc: Global, draft: &Draft) -> Result<Vec<bool>, AllocError>
    requires { Keeps draft.now }
    ensures rounds { IfOk result (λ rounds. AreRounds (drafted draft.now) rounds.items) }
    ensures all { IfOk result (λ rounds. (b : ℕ) → Ends (drafted draft.now) rounds.items b) }
{
    let places = draft.places.len();
    let mut walked = vec![in alloc; 0u32; places]?;
    let mut rounds = vec![in alloc; false; places]?;
    for start in 0..places {
        walk(draft, &mut walked, &mut rounds, start);
    }
    Ok(rounds)
}

/// Walks over the silent instructions from a place on, in the walk after so many.
fn walk(draft: &Draft, walked: &mut Vec<u32>, rounds: &mut Vec<bool>, start: usize)
    requires kept { Keeps draft.now }
    requires stands { start < length (drafted draft.now).places }
    requires before { IsWalked (drafted draft.now) walked.old.items rounds.old.items start }
    ensures after { IsWalked (drafted draft.now) walked.new.items rounds.new.items (start + 1) }
    ensures start { walk_at walked.new.items start ≢ 0 }
    ensures stay { (b : ℕ) → walk_at walked.old.items b ≢ 0 → walk_at walked.new.items b ≢ 0 }
{
    let Some(at) = walk_on(draft, walked, start as u32, start) else {
        return;
    };
    if is_walked_in(walked, at, start as u32 + 1) {
        go_round(draft, rounds, at);
    }
}

/// Whether a place was walked over in a walk.
fn is_walked_in(walked: &Vec<u32>, at: usize, number: u32) -> bool
    requires { number ≢ 0 }
    ensures { IsTrue result ↔ (walk_at walked.now.items at ≡ number) }
{
    match walked.get(at) {
        Some(walk) => *walk == number,
        None => false,
    }
}

/// Whether a place was not walked over yet.
fn is_new(walked: &Vec<u32>, at: usize) -> bool
    ensures { IsTrue result ↔ ((at < length walked.now.items) × (walk_at walked.now.items at ≡ 0)) }
{
    match walked.get(at) {
        Some(walk) => *walk == 0,
        None => false,
    }
}

/// Walks over the silent instructions from a place on, up to one that is not silent, or to a place that was walked over before, which it
/// gives.
fn walk_on(draft: &Draft, walked: &mut Vec<u32>, walks: u32, start: usize) -> Option<usize>
    requires kept { Keeps draft.now }
    requires stands { start < length (drafted draft.now).places }
    requires few { walks + 1 < 2 ^ 32 }
    ensures stopped { (rounds : List Bool) → IsWalked (drafted draft.now) walked.old.items rounds walks
        → IfNone result (IsWalked (drafted draft.now) walked.new.items rounds (walks + 1)) }
    ensures met { (rounds : List Bool) → IsWalked (drafted draft.now) walked.old.items rounds walks
        → IfSome result (IsMet (drafted draft.now) walked.new.items rounds (walks + 1)) }
    ensures start { (rounds : List Bool) → IsWalked (drafted draft.now) walked.old.items rounds walks → walk_at walked.new.items start ≢ 0 }
    ensures stay { (b : ℕ) → walk_at walked.old.items b ≢ 0 → walk_at walked.new.items b ≢ 0 }
{
    let mut at = start;
    'walk: while is_new(walked, at) {
        walked[at] = walks + 1;
        match draft.silent_next(at) {
            Some(next) => at = next,
            None => return None,
        }
    }
    Some(at)
}

/// Goes round a circle from a place of it on, and marks its places.
fn go_round(draft: &Draft, rounds: &mut Vec<bool>, from: usize)
    requires kept { Keeps draft.now }
    requires rounds { AreRounds (drafted draft.now) rounds.old.items }
    requires circle { LeadsSilently (drafted draft.now) from from }
    ensures rounds { AreRounds (drafted draft.now) rounds.new.items }
    ensures found { is_round rounds.new.items from ≡ true }
    ensures stay { (b : ℕ) → is_round rounds.old.items b ≡ true → is_round rounds.new.items b ≡ true }
{
    let mut at = from;
    'round: while is_unmarked(rounds, at) {
        rounds[at] = true;
        match draft.silent_next(at) {
            Some(next) => at = next,
            None => return,
        }
    }
}

/// Whether a place is not marked.
fn is_unmarked(rounds: &Vec<bool>, at: usize) -> bool
    ensures { IsTrue result ↔ ((at < length rounds.now.items) × (is_round rounds.now.items at ≡ false)) }
{
    match rounds.get(at) {
        Some(round) => !*round,
        None => false,
    }
}
