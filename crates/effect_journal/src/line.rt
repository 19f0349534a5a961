ghost use Rattle.std.specs.Prelude.{◌≡◌, ◌<◌, ◌^◌, IfOk};
ghost use Rattle.effect_journal.specs.Reading.{run_of, serve_of, make_of, fault_of, end_of, entry_of};

use crate::entry::{Entry, FaultBy};
use crate::words::{after, fault_kind, integer, natural, request, short_natural, split_once};
use global_ptr::{ProgFault, Standing};
use std::alloc::{AllocError, Global};

/// The entry that a line spells, without its line feed.
#[tactic(auto, unfolding(crate::specs::Reading::entry_of))]
pub(crate) fn entry(alloc: Global, longest: usize, line: &[u8]) -> Result<Option<Entry>, AllocError>
    requires { longest < 2 ^ 32 }
    ensures { IfOk result (λ entry. entry ≡ entry_of longest line.now) }
{
    if let Some(rest) = after(b"run", line) {
        return Ok(run(rest));
    }
    if let Some(rest) = after(b"serve", line) {
        return serve(alloc, longest, rest);
    }
    if let Some(rest) = after(b"make", line) {
        return make(alloc, longest, rest);
    }
    if let Some(rest) = after(b"end", line) {
        return Ok(end(rest));
    }
    Ok(None)
}

#[tactic(auto, unfolding(crate::specs::Reading::run_of))]
fn run(text: &[u8]) -> Option<Entry>
    ensures { result ≡ run_of text.now }
{
    let (processor, rest) = split_once(text, b' ')?;
    let (thread, steps) = split_once(rest, b' ')?;
    let processor = short_natural(processor)?;
    let thread = short_natural(thread)?;
    let steps = natural(steps)?;
    if steps == 0 {
        return None;
    }
    Some(Entry::Run {
        processor,
        thread,
        steps,
    })
}

#[tactic(auto, unfolding(crate::specs::Reading::serve_of))]
fn serve(alloc: Global, longest: usize, text: &[u8]) -> Result<Option<Entry>, AllocError>
    requires { longest < 2 ^ 32 }
    ensures { IfOk result (λ entry. entry ≡ serve_of longest text.now) }
{
    let Some((processor, digits)) = split_once(text, b' ') else {
        return Ok(None);
    };
    let Some(processor) = short_natural(processor) else {
        return Ok(None);
    };
    let Some(request) = request(alloc, longest, digits)? else {
        return Ok(None);
    };
    Ok(Some(Entry::Serve { processor, request }))
}

#[tactic(auto, unfolding(crate::specs::Reading::make_of))]
fn make(alloc: Global, longest: usize, text: &[u8]) -> Result<Option<Entry>, AllocError>
    requires { longest < 2 ^ 32 }
    ensures { IfOk result (λ entry. entry ≡ make_of longest text.now) }
{
    let Some(request) = request(alloc, longest, text)? else {
        return Ok(None);
    };
    Ok(Some(Entry::Make { request }))
}

#[tactic(auto, unfolding(crate::specs::Reading::end_of))]
fn end(text: &[u8]) -> Option<Entry>
    ensures { result ≡ end_of text.now }
{
    if let Some(value) = after(b"done", text) {
        return Some(ended(Standing::Done(integer(value)?)));
    }
    if let Some(left) = after(b"blocked", text) {
        return Some(ended(Standing::Blocked(natural(left)?)));
    }
    if let Some(rest) = after(b"fault", text) {
        return fault(rest);
    }
    if let Some(steps) = after(b"limit", text) {
        return Some(ended(Standing::Limit(natural(steps)?)));
    }
    None
}

fn ended(standing: Standing) -> Entry
    ensures { result ≡ Entry.End standing None }
{
    Entry::End { standing, by: None }
}

#[tactic(auto, unfolding(crate::specs::Reading::fault_of))]
fn fault(text: &[u8]) -> Option<Entry>
    ensures { result ≡ fault_of text.now }
{
    let (name, rest) = split_once(text, b' ')?;
    let (line, rest) = split_once(after(b"line", rest)?, b' ')?;
    let (processor, thread) = split_once(after(b"by", rest)?, b' ')?;
    let fault = ProgFault {
        kind: fault_kind(name)?,
        line: short_natural(line)?,
    };
    let by = FaultBy {
        processor: short_natural(processor)?,
        thread: short_natural(thread)?,
    };
    Some(Entry::End {
        standing: Standing::Fault(fault),
        by: Some(by),
    })
}
