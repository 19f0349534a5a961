ghost use Rattle.std.specs.Prelude.{◌≡◌, ◌≢◌, [], ◌∷◌, ℕ, List, IfOk, MatchOption, IsTrue, ◌↔◌};
ghost use Rattle.ccpp_words.specs.Fronts.{IsWrongIn};
ghost use Rattle.ccpp_words.specs.Words.{AskFor, IsFileName, IsNoCommandAt, MayFollow, file_of, verb_word};

use crate::fault::WordsFault;
use crate::settings::{Given, Settings};
use crate::word::Word;
use ccpp_edge::{List, Text};
use std::alloc::Global;

/// A command on a file.
#[derive(Debug, Drop)]
pub enum Command {
    /// To run the program in the file.
    Run {
        /// The file's name.
        file: Text,
        /// How many steps the run may make, 1 to 1,000,000,000.
        steps: u64,
        /// The seed from which turns are drawn.
        seed: u64,
        /// What the program is run on, eight ints at most.
        ints: List<i64>,
    },
    /// To say whether the file is a source.
    Check {
        /// The file's name.
        file: Text,
    },
    /// To say whether its program breaks a rule of sharing.
    Share {
        /// The file's name.
        file: Text,
    },
    /// To list the code of its program.
    Code {
        /// The file's name.
        file: Text,
    },
    /// To list the messages in the file.
    Message {
        /// The file's name.
        file: Text,
    },
    /// To rewrite the journal in the file in version 2.
    Migrate {
        /// The file's name.
        file: Text,
    },
}

impl Command {
    /// The command that the words ask for.
    pub(crate) fn of(alloc: Global, words: &[Word]) -> Result<Command, WordsFault>
        ensures command { IfOk result (AskFor words.now) }
        ensures wrong { (place : ℕ) → result ≡ Err (WordsFault.Wrong place) → IsNoCommandAt words.now place }
    {
        let [name, words @ ..] = words else {
            return Err(WordsFault::Wrong { place: 1 });
        };
        let Some(verb) = Verb::of(name.as_text()) else {
            return Err(WordsFault::Wrong { place: 1 });
        };
        let [file, words @ ..] = words else {
            return Err(WordsFault::Wrong { place: 2 });
        };
        if !is_file_name(file.as_text()) {
            return Err(WordsFault::Wrong { place: 2 });
        }
        let file = Text::of(alloc, file.as_text())?;
        match verb.asked(alloc, file, words) {
            Ok(command) => Ok(command),
            Err(fault) => Err(fault.behind(2)),
        }
    }

    /// The name of the file that it reads.
    pub fn file(&self) -> &str
        ensures { result.now ≡ file_of self.now }
    {
        match self {
            Command::Run { file, .. }
            | Command::Check { file }
            | Command::Share { file }
            | Command::Code { file }
            | Command::Message { file }
            | Command::Migrate { file } => file.as_str(),
        }
    }

    /// The command, if no more words stand behind it.
    fn alone(self, words: &[Word]) -> Result<Command, WordsFault>
        ensures alone { IfOk result (λ command. (command ≡ self) × (words.now ≡ [])) }
        ensures wrong { (place : ℕ) → result ≡ Err (WordsFault.Wrong place) → IsWrongIn (λ ws. ws ≡ []) words.now place }
    {
        if words.is_empty() {
            Ok(self)
        } else {
            Err(WordsFault::Wrong { place: 1 })
        }
    }
}

/// The first word of a command.
#[derive(Clone, Copy)]
enum Verb {
    Run,
    Check,
    Share,
    Code,
    Message,
    Migrate,
}

impl Verb {
    ghost use Rattle.ccpp_words.specs.declared.command.Verb.{Verb};

    /// The verb that the word is.
    fn of(word: &str) -> Option<Verb>
        ensures { MatchOption result ((verb : Verb) → word.now ≢ verb_word verb) (λ verb. word.now ≡ verb_word verb) }
    {
        match word {
            "run" => Some(Verb::Run),
            "check" => Some(Verb::Check),
            "share" => Some(Verb::Share),
            "code" => Some(Verb::Code),
            "message" => Some(Verb::Message),
            "migrate" => Some(Verb::Migrate),
            _ => None,
        }
    }

    /// The command for which a verb, a file and words behind them ask.
    fn asked(self, alloc: Global, file: Text, words: &[Word]) -> Result<Command, WordsFault>
        requires { IsFileName file }
        ensures command { IfOk result (AskFor (verb_word self ∷ file ∷ words.now)) }
        ensures wrong { (place : ℕ) → result ≡ Err (WordsFault.Wrong place) → IsWrongIn (MayFollow self file) words.now place }
    {
        match self {
            Verb::Run => run_of(alloc, file, words),
            Verb::Check => Command::Check { file }.alone(words),
            Verb::Share => Command::Share { file }.alone(words),
            Verb::Code => Command::Code { file }.alone(words),
            Verb::Message => Command::Message { file }.alone(words),
            Verb::Migrate => Command::Migrate { file }.alone(words),
        }
    }
}

/// The step limit where none is given.
const STEPS_BY_DEFAULT: u64 = 10_000_000;

/// The command to run a file, for which these words behind its name ask.
fn run_of(alloc: Global, file: Text, words: &[Word]) -> Result<Command, WordsFault>
    requires { IsFileName file }
    ensures command { IfOk result (AskFor (verb_word Verb.Run ∷ file ∷ words.now)) }
    ensures wrong { (place : ℕ) → result ≡ Err (WordsFault.Wrong place) → IsWrongIn (MayFollow Verb.Run file) words.now place }
{
    let Settings { steps, seed, ints } = Settings::of(alloc, words, Given::NONE)?;
    Ok(Command::Run {
        file,
        steps: steps.unwrap_or(STEPS_BY_DEFAULT),
        seed: seed.unwrap_or(0),
        ints,
    })
}

/// Whether a word can name a file: it is not empty and does not begin with `-`.
pub(crate) fn is_file_name(word: &str) -> bool
    ensures { IsTrue result ↔ IsFileName word.now }
{
    !word.is_empty() && !word.starts_with('-')
}
