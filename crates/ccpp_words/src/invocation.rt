ghost use Rattle.std.specs.Prelude.{◌≡◌, ◌∷◌, [], ℕ, List, IfOk, MatchOption, codes};
ghost use Rattle.ccpp_words.specs.Fronts.{IsWrongIn};
ghost use Rattle.ccpp_words.specs.Words.{Ask, IsSize, IsWrongAt, MayBeSize, MayBeTraced};

use crate::command::{Command, is_file_name};
use crate::fault::WordsFault;
use crate::numbers::{ints_of, natural_of};
use crate::word::Word;
use ccpp_edge::{List, Memory, Text};
use std::alloc::Global;

/// What the words of a command line ask for.
#[derive(Debug, Drop)]
pub enum Invocation {
    /// A command on a file.
    OnFile(Command),
    /// To say whether a run of the program in a file explains the journal in another.
    Trace {
        /// The name of the program's file.
        file: Text,
        /// The name of the journal's file.
        journal: Text,
        /// What the program was run on, eight ints at most.
        ints: List<i64>,
    },
    /// To run the load program.
    Load {
        /// Its size, 1 to 10,000.
        size: u32,
    },
}

impl Invocation {
    /// What the words ask for.
    pub fn of(alloc: Global, words: &[Word]) -> Result<Invocation, WordsFault>
        ensures invocation { IfOk result (Ask words.now) }
        ensures wrong { (place : ℕ) → result ≡ Err (WordsFault.Wrong place) → IsWrongAt words.now place }
    {
        let [name, rest @ ..] = words else {
            return Err(WordsFault::Wrong { place: 1 });
        };
        if name.as_text() == "load" {
            return match size_of(alloc, rest) {
                Ok(size) => Ok(Invocation::Load { size }),
                Err(fault) => Err(fault.behind(1)),
            };
        }
        if name.as_text() == "trace" {
            return match trace_of(alloc, rest) {
                Ok(invocation) => Ok(invocation),
                Err(fault) => Err(fault.behind(1)),
            };
        }
        match Command::of(alloc, words) {
            Ok(command) => Ok(Invocation::OnFile(command)),
            Err(fault) => Err(fault),
        }
    }
}

/// What the words behind `trace` ask for.
fn trace_of(alloc: Global, words: &[Word]) -> Result<Invocation, WordsFault>
    ensures invocation { IfOk result (Ask (codes "trace" ∷ words.now)) }
    ensures wrong { (place : ℕ) → result ≡ Err (WordsFault.Wrong place) → IsWrongIn MayBeTraced words.now place }
{
    let [file, words @ ..] = words else {
        return Err(WordsFault::Wrong { place: 1 });
    };
    if !is_file_name(file.as_text()) {
        return Err(WordsFault::Wrong { place: 1 });
    }
    let [journal, words @ ..] = words else {
        return Err(WordsFault::Wrong { place: 2 });
    };
    if !is_file_name(journal.as_text()) {
        return Err(WordsFault::Wrong { place: 2 });
    }
    let file = Text::of(alloc, file.as_text())?;
    let journal = Text::of(alloc, journal.as_text())?;
    match ints_of(alloc, words) {
        Ok(ints) => Ok(Invocation::Trace {
            file,
            journal,
            ints,
        }),
        Err(fault) => Err(fault.behind(2)),
    }
}

/// The largest size of the load program.
const MOST_SIZE: u64 = 10_000;

/// The size that the word is.
fn size_in(alloc: Global, word: &str) -> Result<Option<u32>, Memory>
    ensures { IfOk result (λ read. MatchOption read ((n : ℕ) → IsSize word.now n → ⊥) (IsSize word.now)) }
{
    let Some(size) = natural_of(alloc, word)? else {
        return Ok(None);
    };
    if size == 0 || size > MOST_SIZE {
        return Ok(None);
    }
    Ok(Some(size as u32))
}

/// The size that stands alone behind `load`.
fn size_of(alloc: Global, words: &[Word]) -> Result<u32, WordsFault>
    ensures size { (n : ℕ) → result ≡ Ok n → (word : List ℕ) × (words.now ≡ word ∷ []) × IsSize word n }
    ensures wrong { (place : ℕ) → result ≡ Err (WordsFault.Wrong place) → IsWrongIn MayBeSize words.now place }
{
    let [word, more @ ..] = words else {
        return Err(WordsFault::Wrong { place: 1 });
    };
    let Some(size) = size_in(alloc, word.as_text())? else {
        return Err(WordsFault::Wrong { place: 1 });
    };
    if more.is_empty() {
        Ok(size)
    } else {
        Err(WordsFault::Wrong { place: 2 })
    }
}
