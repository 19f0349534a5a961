ghost use Rattle.std.specs.Prelude.{◌≡◌, IfOk};

use ccpp_edge::{Memory, Text};
use std::alloc::Global;
use std::marker::Model;

/// A word of the command line, which contracts see as its bytes.
#[derive(Debug, Drop)]
pub struct Word {
    text: Text,
}

impl Model for Word {
    ghost use Rattle.std.specs.Prelude.{ℕ, List};

    ghost Value = { List ℕ };

    ghost view = { λ word. word.text };
}

impl Word {
    /// A copy of the text.
    pub fn new(alloc: Global, text: &str) -> Result<Word, Memory>
        ensures { IfOk result (λ word. word ≡ text.now) }
    {
        Ok(Word {
            text: Text::of(alloc, text)?,
        })
    }

    /// The word's text.
    pub fn as_text(&self) -> &str
        ensures { result.now ≡ self.now }
    {
        self.text.as_str()
    }
}
