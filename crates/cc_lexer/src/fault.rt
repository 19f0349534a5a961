ghost use Rattle.std.specs.Prelude.{◌≡◌, ◌≤◌, length};
ghost use Rattle.cc_lexer.specs.Cut.{longest_text};

use std::alloc::AllocError;
use thiserror::Error;

/// Why a text is not cut into tokens. `at` is a place in the text, in bytes from 0.
#[derive(Clone, Copy, Debug, Error, PartialEq, Eq)]
pub enum LexFault {
    /// The text has more than 1,048,576 bytes.
    #[error("the text has more than 1048576 bytes")]
    TooLong,
    /// This byte begins no token, or is not allowed in the string in which it stands.
    #[error("byte {at} begins no token, or is not allowed in its string")]
    BadByte { at: u32 },
    /// The comment that begins here is not closed.
    #[error("the comment at byte {at} is not closed")]
    OpenComment { at: u32 },
    /// The string that begins here is not closed in its line.
    #[error("the string at byte {at} is not closed in its line")]
    OpenString { at: u32 },
    /// The name that begins here has more than 255 bytes.
    #[error("the name at byte {at} has more than 255 bytes")]
    LongName { at: u32 },
    /// The number that begins here is larger than 9,223,372,036,854,775,807.
    #[error("the number at byte {at} is larger than 9223372036854775807")]
    NumberTooLarge { at: u32 },
    /// Want of memory.
    #[error("no memory")]
    Memory,
}

impl From<AllocError> for LexFault {
    ghost use Rattle.std.specs.Prelude.{◌≡◌};
    ghost use Rattle.cc_lexer.specs.declared.fault.LexFault.TheVariants.{Memory};

    ghost from_gives = { λ _ fault. fault ≡ Memory };

    fn from(_: AllocError) -> LexFault {
        LexFault::Memory
    }
}

/// The place at which the text goes on behind these bytes.
pub fn place(before: &[u8]) -> u32
    requires { length before.now ≤ longest_text }
    ensures { result ≡ length before.now }
{
    before.len() as u32
}
