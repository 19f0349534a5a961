ghost use Rattle.std.specs.Prelude.{◌≡◌, IfOk};
ghost use Rattle.cc_code.specs.Depth.{deeper, less, raised};

use std::alloc::AllocError;

/// The number of operands that a place of code is reached with. This project's own.
#[derive(Clone, Copy, Debug, PartialEq, Eq)]
pub enum Depth {
    Exactly(u32),
    /// More than one such number.
    Several,
}

impl Depth {
    /// With so many operands more. More than 32 bits can count fit no memory.
    pub fn deeper(self, more: u32) -> Result<Depth, AllocError>
        ensures { IfOk result (λ depth. depth ≡ deeper self more) }
    {
        match self {
            Depth::Exactly(operands) => {
                let operands = operands.checked_add(more).ok_or(AllocError)?;
                Ok(Depth::Exactly(operands))
            }
            Depth::Several => Ok(Depth::Several),
        }
    }

    /// What is left where so many operands are taken, and `None` exactly where they are not there.
    pub fn less(self, taken: usize) -> Option<Depth>
        ensures { result ≡ less taken self }
    {
        match self {
            Depth::Exactly(operands) => {
                if taken > operands as usize {
                    return None;
                }
                Some(Depth::Exactly(operands - taken as u32))
            }
            Depth::Several => Some(Depth::Several),
        }
    }

    /// The depth of a place that is reached with this depth too, where that is another than before.
    pub fn raised(self, known: Option<Depth>) -> Option<Depth>
        ensures { result ≡ raised known self }
    {
        match (known, self) {
            (None, _) => Some(self),
            (Some(Depth::Several), _) => None,
            (Some(Depth::Exactly(a)), Depth::Exactly(b)) => {
                if a == b { None } else { Some(Depth::Several) }
            }
            (Some(Depth::Exactly(_)), Depth::Several) => Some(Depth::Several),
        }
    }
}
