ghost use Rattle.std.specs.Prelude.{◌≡◌, replicate, false, IfOk, length};
ghost use Rattle.cc_blocking.specs.Conduct.{AreMarks};
ghost use Rattle.cc_blocking.specs.Rounds as spec;

use crate::conduct::Conduct;
use cc_names::FunId;
use cc_scopes::Call;
use ccpp_edge::List;
use std::alloc::{AllocError, Global};

fn is_atomic(functions: &[Conduct], function: FunId) -> bool
    ensures { result ≡ spec.is_atomic functions.now function.0 }
{
    match functions.get(function.0 as usize) {
        None => false,
        Some(conduct) => conduct.atomic,
    }
}

fn is_marked(marks: &[bool], function: FunId) -> bool
    ensures { result ≡ spec.is_marked marks.now function.0 }
{
    match marks.get(function.0 as usize) {
        None => false,
        Some(mark) => *mark,
    }
}

/// Whether an atomic function may not make a call, where these functions are known to block.
pub(crate) fn is_blocking(functions: &[Conduct], marks: &[bool], call: Call) -> bool
    ensures { result ≡ spec.is_blocking functions.now marks.now call }
{
    is_atomic(functions, call.function) || is_marked(marks, call.function)
}

fn calls_blocking(functions: &[Conduct], marks: &[bool], calls: &[Call]) -> bool
    ensures { result ≡ spec.calls_blocking functions.now marks.now calls.now }
{
    for call in calls {
        if is_blocking(functions, marks, *call) {
            return true;
        }
    }
    false
}

fn blocks(functions: &[Conduct], marks: &[bool], conduct: &Conduct) -> bool
    ensures { result ≡ spec.blocks functions.now marks.now conduct.now }
{
    !conduct.blocks.as_slice().is_empty()
        || calls_blocking(functions, marks, conduct.calls.as_slice())
}

/// A round: what is known to block, and what blocks by what is known.
#[tactic(auto, unfolding(crate::specs::Rounds::grown))]
fn grown(alloc: Global, functions: &[Conduct], known: &[bool]) -> Result<List<bool>, AllocError>
    ensures { IfOk result (λ marks. marks ≡ spec.grown functions.now known.now) }
{
    let mut marks = List::new(alloc);
    let mut left = functions;
    let mut old = known;
    while let [mark, more @ ..] = old {
        let [conduct, rest @ ..] = left else {
            return Ok(marks);
        };
        marks.push(*mark || blocks(functions, known, conduct))?;
        old = more;
        left = rest;
    }
    Ok(marks)
}

/// How many are not marked.
fn unmarked(marks: &[bool]) -> usize
    ensures { result ≡ spec.unmarked marks.now }
{
    let mut count = 0;
    for mark in marks {
        if !*mark {
            count += 1;
        }
    }
    count
}

fn none_marked(alloc: Global, count: usize) -> Result<List<bool>, AllocError>
    ensures { IfOk result (λ marks. marks ≡ replicate count false) }
{
    let mut marks = List::new(alloc);
    for _ in 0..count {
        marks.push(false)?;
    }
    Ok(marks)
}

/// For each function whether it may block. It fails for want of memory alone, and takes at most as many rounds as there are
/// functions; a round goes over all calls.
pub fn may_block(alloc: Global, functions: &[Conduct]) -> Result<List<bool>, AllocError>
    ensures computed { IfOk result (λ marks. marks ≡ spec.may_block functions.now) }
    ensures decides { IfOk result (λ marks. AreMarks functions.now marks) }
{
    let mut marks = none_marked(alloc, functions.len())?;
    for _ in 0..functions.len() {
        let more = grown(alloc, functions, marks.as_slice())?;
        if unmarked(more.as_slice()) == unmarked(marks.as_slice()) {
            return Ok(marks);
        }
        marks = more;
    }
    Ok(marks)
}
