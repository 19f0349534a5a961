ghost use Rattle.std.specs.Prelude.{◌≡◌};
ghost use Rattle.cc_ops.specs.declared.build_error.BuildError.TheVariants.{Fault, Memory};

use global_ptr::FaultKind;
use std::alloc::AllocError;

/// Why no object was made.
#[derive(Clone, Copy, Debug, PartialEq, Eq)]
pub enum BuildError {
    /// The constructor has this fault.
    Fault(FaultKind),
    /// Want of memory.
    Memory,
}

impl From<FaultKind> for BuildError {
    ghost from_gives = { λ kind e. e ≡ Fault kind };

    fn from(kind: FaultKind) -> BuildError {
        BuildError::Fault(kind)
    }
}

impl From<AllocError> for BuildError {
    ghost from_gives = { λ _ e. e ≡ Memory };

    fn from(_: AllocError) -> BuildError {
        BuildError::Memory
    }
}
