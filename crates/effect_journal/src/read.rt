ghost use Rattle.std.specs.Prelude.{◌≡◌, ◌≢◌, ◌∷◌, ◌++◌, ◌⊎◌, Err, List, Result, IfOk, MatchOption};
ghost use Rattle.effect_journal.specs.declared.entry.Entry.{Entry};
ghost use Rattle.effect_journal.specs.Journal.{Answers, IsEntry, Lacks, line, format_of, version_1, version_2};

use crate::entry::Entry;
use crate::format::Version;
use crate::line::entry;
use crate::words::split_once;
use ccpp_edge::List;
use std::alloc::{AllocError, Global};
use thiserror::Error;

/// Why a text is no journal.
#[derive(Debug, PartialEq, Eq, Drop, Error)]
pub enum JournalFault {
    /// The first line, from 1, that is not spelled at its place.
    #[error("line {line} is not spelled at its place")]
    Line {
        /// The line.
        line: u64,
    },
    /// The text ends before a whole `end` line, and each whole line is spelled at its place.
    #[error("the text ends before its end line")]
    NoEnd,
    /// Want of memory.
    #[error("out of memory")]
    Memory,
}

impl From<AllocError> for JournalFault {
    ghost use Rattle.effect_journal.specs.declared.read.JournalFault.{JournalFault};

    ghost from_gives = { λ _ fault. fault ≡ JournalFault.Memory };

    fn from(_error: AllocError) -> JournalFault {
        JournalFault::Memory
    }
}

/// The entries of a journal of version 2, or why the text is none.
///
/// `Line` names the first line that is not spelled at its place, from 1. `NoEnd` comes exactly where the text ends before a
/// whole `end` line and each whole line is spelled at its place.
pub fn read_journal(alloc: Global, text: &[u8]) -> Result<List<Entry>, JournalFault>
    ensures answers { (result ≡ Err JournalFault.Memory) ⊎ Answers version_2 text.now result }
    // What the text is, is answered, unless memory runs out.
    ensures exact { (answer : Result (List Entry) JournalFault) → Answers version_2 text.now answer
        → (result ≡ Err JournalFault.Memory) ⊎ (result ≡ answer) }
{
    read(alloc, Version::Two, text)
}

/// The entries of a journal of version 1, or why the text is none, as `read_journal` says it.
pub fn read_journal_1(alloc: Global, text: &[u8]) -> Result<List<Entry>, JournalFault>
    ensures answers { (result ≡ Err JournalFault.Memory) ⊎ Answers version_1 text.now result }
    // What the text is, is answered, unless memory runs out.
    ensures exact { (answer : Result (List Entry) JournalFault) → Answers version_1 text.now answer
        → (result ≡ Err JournalFault.Memory) ⊎ (result ≡ answer) }
{
    read(alloc, Version::One, text)
}

/// The next whole line of a text, without its line feed, and what stands behind it.
pub fn next_line(text: &[u8]) -> Option<(&[u8], &[u8])>
    ensures { MatchOption result (Lacks 10 text.now) (λ found. (text.now ≡ found.0.now ++ 10 ∷ found.1.now) × Lacks 10 found.0.now) }
{
    split_once(text, b'\n')
}

/// The entry that a line spells, without its line feed.
pub fn read_entry(alloc: Global, version: Version, text: &[u8]) -> Result<Option<Entry>, AllocError>
    ensures { IfOk result (λ found. MatchOption found ((e : Entry) → IsEntry (format_of version).allows e → text.now ≢ line e)
        (λ e. (text.now ≡ line e) × IsEntry (format_of version).allows e)) }
{
    entry(alloc, version.longest(), text)
}

fn read(alloc: Global, version: Version, text: &[u8]) -> Result<List<Entry>, JournalFault>
    ensures { (result ≡ Err JournalFault.Memory) ⊎ Answers (format_of version) text.now result }
{
    let Some((first, mut rest)) = next_line(text) else {
        return Err(JournalFault::NoEnd);
    };
    if first != version.header() {
        return Err(JournalFault::Line { line: 1 });
    }
    let mut entries = List::new(alloc);
    let mut line = 1;
    while let Some((next, behind)) = next_line(rest) {
        line += 1;
        let Some(found) = read_entry(alloc, version, next)? else {
            return Err(JournalFault::Line { line });
        };
        let is_end = found.is_end();
        entries.push(found)?;
        if is_end {
            if behind.is_empty() {
                return Ok(entries);
            }
            return Err(JournalFault::Line { line: line + 1 });
        }
        rest = behind;
    }
    Err(JournalFault::NoEnd)
}
