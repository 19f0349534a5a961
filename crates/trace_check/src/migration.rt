ghost use Rattle.std.specs.Prelude.{◌≡◌, ◌⊎◌, ◌∷◌, ◌++◌, ℕ, List, Err, Result, MatchOption};
ghost use Rattle.effect_journal.specs.declared.read.JournalFault.{JournalFault};
ghost use Rattle.effect_journal.specs.Journal.{version_1};
ghost use Rattle.trace_check.specs.Migration.{IsOfVersion1, Migrates, Rewritten};

use crate::entries::migrated;
use ccpp_edge::Bytes;
use effect_journal::{JournalFault, Version, next_line, read_journal, write_entry, write_header};
use std::alloc::Global;

/// The journal of version 2 with the entries of this journal, each request in the bytes of version 2. A journal of version 2 is
/// given as it is.
///
/// `Line` names the first line, from 1, that is not spelled at its place, or, in a text of version 1, whose request is not one
/// whole message of version 1. A whole first line of neither version is line 1. `NoEnd` comes exactly where the text ends before
/// a whole `end` line and no whole line is refused.
pub fn migrate(alloc: Global, text: &[u8]) -> Result<Bytes, JournalFault>
    ensures answers { (result ≡ Err JournalFault.Memory) ⊎ Migrates text.now result }
    // What is to be answered, is answered, unless memory runs out.
    ensures exact { (answer : Result (List ℕ) JournalFault) → Migrates text.now answer
        → (result ≡ Err JournalFault.Memory) ⊎ (result ≡ answer) }
{
    answer(alloc, text)
}

fn answer(alloc: Global, text: &[u8]) -> Result<Bytes, JournalFault>
    ensures { (result ≡ Err JournalFault.Memory) ⊎ Migrates text.now result }
{
    let Some(lines) = behind_header(text) else {
        read_journal(alloc, text)?;
        return Ok(Bytes::from_slice(alloc, text)?);
    };
    rewrite(alloc, lines)
}

// What stands behind the first line of version 1.
fn behind_header(text: &[u8]) -> Option<&[u8]>
    ensures { MatchOption result (IsOfVersion1 text.now → ⊥) (λ lines. text.now ≡ version_1.header ++ 10 ∷ lines.now) }
{
    let (first, lines) = next_line(text)?;
    if first == Version::One.header() {
        Some(lines)
    } else {
        None
    }
}

// The journal whose lines stand behind the first line of version 1.
fn rewrite(alloc: Global, lines: &[u8]) -> Result<Bytes, JournalFault>
    ensures { (result ≡ Err JournalFault.Memory) ⊎ Rewritten (version_1.header ++ 10 ∷ lines.now) result }
{
    let mut new = Bytes::new(alloc);
    write_header(alloc, &mut new)?;
    let mut rest = lines;
    let mut line = 1;
    while let Some((next, behind)) = next_line(rest) {
        line += 1;
        let Some(entry) = migrated(alloc, next)? else {
            return Err(JournalFault::Line { line });
        };
        write_entry(alloc, &mut new, &entry)?;
        if entry.is_end() {
            if behind.is_empty() {
                return Ok(new);
            }
            return Err(JournalFault::Line { line: line + 1 });
        }
        rest = behind;
    }
    Err(JournalFault::NoEnd)
}
