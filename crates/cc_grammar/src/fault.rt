use std::alloc::AllocError;

/// Why no value is read. A reader that answers `Syntax` or `TooDeep` stands at the token that is refused.
#[derive(Clone, Copy, Debug, PartialEq, Eq)]
pub enum Fault {
    /// No token that may stand here does.
    Syntax,
    /// The token here opens one level more than may be opened.
    TooDeep,
    /// Want of memory.
    Memory,
}

impl From<AllocError> for Fault {
    ghost use Rattle.std.specs.Prelude.{◌≡◌};
    ghost use Rattle.cc_grammar.specs.declared.fault.Fault.TheVariants.{Memory};

    ghost from_gives = { λ _ fault. fault ≡ Memory };

    fn from(_: AllocError) -> Fault {
        Fault::Memory
    }
}
