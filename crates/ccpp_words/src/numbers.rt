ghost use Rattle.std.specs.Prelude.{◌≡◌, ◌≤◌, ℕ, ℤ, length, IfOk, MatchOption};
ghost use Rattle.ccpp_words.specs.Fronts.{IsWrongIn};
ghost use Rattle.ccpp_words.specs.Words.{IsNatural, IsInt, AreInts, MayBeInts};

use crate::fault::WordsFault;
use crate::word::Word;
use ccpp_edge::{List, Memory};
use std::alloc::Global;

/// The natural number of 64 bits that the word is, in decimal: `0`, or a digit 1 to 9 and digits.
pub(crate) fn natural_of(alloc: Global, word: &str) -> Result<Option<u64>, Memory>
    ensures { IfOk result (λ read. MatchOption read ((n : ℕ) → IsNatural word.now n → ⊥) (IsNatural word.now)) }
{
    let Ok(n) = word.parse::<u64>() else {
        return Ok(None);
    };
    let spelled = format!(in alloc; "{n}")?;
    if spelled.as_str() == word {
        Ok(Some(n))
    } else {
        Ok(None)
    }
}

/// The int that the word is: a natural number, or `-` and one other than 0, within 64 bits.
fn int_of(alloc: Global, word: &str) -> Result<Option<i64>, Memory>
    ensures { IfOk result (λ read. MatchOption read ((n : ℤ) → IsInt word.now n → ⊥) (IsInt word.now)) }
{
    let Ok(n) = word.parse::<i64>() else {
        return Ok(None);
    };
    let spelled = format!(in alloc; "{n}")?;
    if spelled.as_str() == word {
        Ok(Some(n))
    } else {
        Ok(None)
    }
}

/// How many ints a command takes at most.
const MOST_INTS: usize = 8;

/// The ints that the words are, eight at most.
pub(crate) fn ints_of(alloc: Global, words: &[Word]) -> Result<List<i64>, WordsFault>
    ensures ints { IfOk result (λ ints. AreInts words.now ints × (length ints ≤ 8)) }
    ensures wrong { (place : ℕ) → result ≡ Err (WordsFault.Wrong place) → IsWrongIn MayBeInts words.now place }
{
    let mut ints = List::new(alloc);
    for (before, word) in words.iter().enumerate() {
        if before == MOST_INTS {
            return Err(WordsFault::Wrong { place: before + 1 });
        }
        match int_of(alloc, word.as_text())? {
            Some(int) => ints.push(int)?,
            None => return Err(WordsFault::Wrong { place: before + 1 }),
        }
    }
    Ok(ints)
}
