use std::alloc::AllocError;
use thiserror::Error;

/// Why tokens give no program. `at` is the number of a token, from 0.
#[derive(Clone, Copy, Debug, Error, PartialEq, Eq)]
pub enum ParseFault {
    /// This token can't stand here: the tokens before it are the front of a program, and with it they are none. Where all
    /// tokens are the front of a program and something is missing behind them, `at` is how many they are.
    #[error("token {at} can't stand here")]
    Syntax { at: u32 },
    /// This token is the first that opens a 65th level.
    #[error("token {at} opens a level too many")]
    TooDeep { at: u32 },
    /// Want of memory.
    #[error("no memory")]
    Memory,
}

impl From<AllocError> for ParseFault {
    ghost use Rattle.std.specs.Prelude.{◌≡◌};
    ghost use Rattle.cc_parser.specs.declared.fault.ParseFault.TheVariants.{Memory};

    ghost from_gives = { λ _ fault. fault ≡ Memory };

    fn from(_: AllocError) -> ParseFault {
        ParseFault::Memory
    }
}
