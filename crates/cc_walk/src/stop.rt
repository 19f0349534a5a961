use cc_ops::BuildError;
use global_ptr::FaultKind;
use std::alloc::AllocError;

/// Why a step was not made.
#[derive(Clone, Copy, Debug, PartialEq, Eq)]
pub(crate) enum Stop {
    /// The thread's next move is a fault of this kind.
    Fault(FaultKind),
    /// Want of memory.
    Memory,
}

impl From<FaultKind> for Stop {
    ghost use Rattle.std.specs.Prelude.{◌≡◌};
    ghost use Rattle.cc_walk.specs.declared.stop.Stop.TheVariants as stop;

    ghost from_gives = { λ kind e. e ≡ stop.Fault kind };

    fn from(kind: FaultKind) -> Stop {
        Stop::Fault(kind)
    }
}

impl From<AllocError> for Stop {
    ghost use Rattle.std.specs.Prelude.{◌≡◌};
    ghost use Rattle.cc_walk.specs.declared.stop.Stop.TheVariants as stop;

    ghost from_gives = { λ _ e. e ≡ stop.Memory };

    fn from(_: AllocError) -> Stop {
        Stop::Memory
    }
}

impl From<BuildError> for Stop {
    ghost use Rattle.std.specs.Prelude.{◌≡◌};
    ghost use Rattle.cc_walk.specs.Stops.{stop_of};

    ghost from_gives = { λ error e. e ≡ stop_of error };

    fn from(error: BuildError) -> Stop {
        match error {
            BuildError::Fault(kind) => Stop::Fault(kind),
            BuildError::Memory => Stop::Memory,
        }
    }
}
