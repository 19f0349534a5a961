ghost use Rattle.std.specs.Prelude.{◌≡◌, ◌≢◌, ℕ, true, false, List, ◌∷◌, IfOk, MatchOption};
ghost use Rattle.ccpp_words.specs.Fronts.{IsWrongIn};
ghost use Rattle.ccpp_words.specs.Words.{choice_word, IsValueOf, has, with_choice, with_value, Say, MayStand};
ghost use Rattle.ccpp_words.specs.declared.settings.Choice.{Choice};

use crate::fault::WordsFault;
use crate::numbers::{ints_of, natural_of};
use crate::word::Word;
use ccpp_edge::{List, Memory};
use std::alloc::Global;

/// An option of `run`.
#[derive(Clone, Copy)]
pub(crate) enum Choice {
    /// How many steps the run may make.
    Steps,
    /// The seed from which turns are drawn.
    Seed,
}

/// The most steps that a run may be allowed.
const MOST_STEPS: u64 = 1_000_000_000;

impl Choice {
    /// The option that the word is.
    fn of(word: &str) -> Option<Choice>
        ensures { MatchOption result ((choice : Choice) → word.now ≢ choice_word choice) (λ choice. word.now ≡ choice_word choice) }
    {
        match word {
            "--steps" => Some(Choice::Steps),
            "--seed" => Some(Choice::Seed),
            _ => None,
        }
    }

    /// The number that the word gives to the option.
    fn value(self, alloc: Global, word: &str) -> Result<Option<u64>, Memory>
        ensures { IfOk result (λ read. MatchOption read ((n : ℕ) → IsValueOf self word.now n → ⊥) (IsValueOf self word.now)) }
    {
        let value = natural_of(alloc, word)?;
        match (self, value) {
            (Choice::Steps, Some(steps)) if steps == 0 || steps > MOST_STEPS => Ok(None),
            _ => Ok(value),
        }
    }
}

/// Which options were given.
#[derive(Clone, Copy)]
pub(crate) struct Given {
    pub steps: bool,
    pub seed: bool,
}

impl Given {
    /// No option.
    pub(crate) const NONE: Given = Given {
        steps: false,
        seed: false,
    };

    /// Whether the option was given.
    fn has(self, choice: Choice) -> bool
        ensures { result ≡ has self choice }
    {
        match choice {
            Choice::Steps => self.steps,
            Choice::Seed => self.seed,
        }
    }

    /// The option is given too.
    fn with(self, choice: Choice) -> Given
        ensures { result ≡ with_choice self choice }
    {
        match choice {
            Choice::Steps => Given {
                steps: true,
                ..self
            },
            Choice::Seed => Given { seed: true, ..self },
        }
    }
}

/// What stands behind the file's name of `run`: the options that are given, and the ints.
#[derive(Drop)]
pub(crate) struct Settings {
    pub steps: Option<u64>,
    pub seed: Option<u64>,
    pub ints: List<i64>,
}

impl Settings {
    /// What the words say that stand behind these options.
    pub(crate) fn of(alloc: Global, words: &[Word], given: Given) -> Result<Settings, WordsFault>
        ensures settings { IfOk result (Say given words.now) }
        ensures wrong { (place : ℕ) → result ≡ Err (WordsFault.Wrong place) → IsWrongIn (MayStand given) words.now place }
    {
        let Some(choice) = next_choice(words, given) else {
            let ints = ints_of(alloc, words)?;
            return Ok(Settings {
                steps: None,
                seed: None,
                ints,
            });
        };
        let [_, word, rest @ ..] = words else {
            return Err(WordsFault::Wrong { place: 2 });
        };
        let Some(value) = choice.value(alloc, word.as_text())? else {
            return Err(WordsFault::Wrong { place: 2 });
        };
        match Settings::of(alloc, rest, given.with(choice)) {
            Ok(settings) => Ok(settings.with(choice, value)),
            Err(fault) => Err(fault.behind(2)),
        }
    }

    /// The same with an option's value.
    fn with(self, choice: Choice, value: u64) -> Settings
        ensures { result ≡ with_value self choice value }
    {
        match choice {
            Choice::Steps => Settings {
                steps: Some(value),
                ..self
            },
            Choice::Seed => Settings {
                seed: Some(value),
                ..self
            },
        }
    }
}

/// The option with which the words begin, if it was not given yet.
fn next_choice(words: &[Word], given: Given) -> Option<Choice>
    ensures { MatchOption result
        ((choice : Choice) (rest : List (List ℕ)) → words.now ≡ choice_word choice ∷ rest → has given choice ≡ true)
        (λ choice. (has given choice ≡ false) × ((rest : List (List ℕ)) × (words.now ≡ choice_word choice ∷ rest))) }
{
    let [name, ..] = words else {
        return None;
    };
    let choice = Choice::of(name.as_text())?;
    if given.has(choice) {
        None
    } else {
        Some(choice)
    }
}
