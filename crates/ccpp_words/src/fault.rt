use std::alloc::AllocError;

/// Why the words of a command line give no command.
#[derive(Clone, Copy, Debug)]
pub enum WordsFault {
    /// No command has this word at its place, counted from 1, which is one more than there are words where more are wanted.
    Wrong {
        /// The place.
        place: usize,
    },
    /// Want of memory.
    Memory,
}

impl From<AllocError> for WordsFault {
    ghost use Rattle.std.specs.Prelude.{◌≡◌};
    ghost use Rattle.ccpp_words.specs.declared.fault.WordsFault.TheVariants.{Memory};

    ghost from_gives = { λ _ fault. fault ≡ Memory };

    fn from(_: AllocError) -> WordsFault {
        WordsFault::Memory
    }
}

impl WordsFault {
    ghost use Rattle.std.specs.Prelude.{◌≡◌, ◌<◌, ◌+◌, ◌^◌, ℕ};
    ghost use Rattle.ccpp_words.specs.declared.fault.WordsFault.TheVariants.{Wrong};

    /// The fault where so many more words stand before.
    pub(crate) fn behind(self, words: usize) -> WordsFault
        requires { (place : ℕ) → self ≡ Wrong place → place + words < 2 ^ 64 }
        ensures { (place : ℕ) → result ≡ Wrong place → (before : ℕ) × (self ≡ Wrong before) × (place ≡ before + words) }
    {
        match self {
            WordsFault::Wrong { place } => WordsFault::Wrong {
                place: place + words,
            },
            WordsFault::Memory => WordsFault::Memory,
        }
    }
}
