ghost use Rattle.std.specs.Prelude.{◌≡◌, IfOk, OnOk, IfErr, MatchOption};
ghost use Rattle.cc_code.specs.Valid.{IsValid};
ghost use Rattle.stack_code.specs.View.{code_of, drafted};
ghost use Rattle.stack_code.specs.Kept.{Keeps, main_of};
ghost use Rattle.stack_code.specs.First.{earlier};
ghost use Rattle.stack_code.specs.Faults.{IsFaultOf, first_fault};

use crate::draft::Draft;
use std::alloc::{AllocError, Global};

/// Why code is not valid, or want of memory.
#[derive(Clone, Copy, Debug, PartialEq, Eq)]
pub enum CodeFault {
    /// The instruction at a place leads out of its function, or has a number that is out of range, or is a jump that reaches itself
    /// by silent instructions alone; or a function begins there that has no instruction.
    BadTarget { at: u32 },
    /// A place is reached with more than one number of operands, or its instruction does not find those that it wants.
    BadDepth { at: u32 },
    /// Want of memory.
    Memory,
}

impl From<AllocError> for CodeFault {
    ghost use Rattle.stack_code.specs.declared.close.CodeFault.TheVariants.{Memory};

    ghost from_gives = { λ _ e. e ≡ Memory };

    fn from(_: AllocError) -> CodeFault {
        CodeFault::Memory
    }
}

impl Draft {
    /// The fault of the first place that has one, the bad target where it has both.
    pub fn fault(&self, alloc: Global) -> Result<Option<CodeFault>, AllocError>
        requires { Keeps self.now }
        ensures { IfOk result (λ fault. MatchOption fault (IsValid (drafted self.now)) (IsFaultOf (drafted self.now))) }
    {
        let aims = earlier(self.misaimed(), self.circle(alloc)?);
        let target = earlier(self.empty_entry(), aims);
        let depth = self.bad_depth(alloc)?;
        Ok(first_fault(target, depth))
    }
}

/// The lesser place, where there is one.
fn earlier(one: Option<u32>, other: Option<u32>) -> Option<u32>
    ensures { result ≡ earlier one other }
{
    match (one, other) {
        (Some(a), Some(b)) => Some(a.min(b)),
        (Some(a), None) => Some(a),
        (None, _) => other,
    }
}

/// The fault at the earlier place, where these are the first places with a bad target and with a bad depth.
fn first_fault(target: Option<u32>, depth: Option<u32>) -> Option<CodeFault>
    ensures { result ≡ first_fault target depth }
{
    match (target, depth) {
        (None, None) => None,
        (Some(at), None) => Some(CodeFault::BadTarget { at }),
        (None, Some(at)) => Some(CodeFault::BadDepth { at }),
        (Some(target), Some(depth)) => {
            if target <= depth {
                Some(CodeFault::BadTarget { at: target })
            } else {
                Some(CodeFault::BadDepth { at: depth })
            }
        }
    }
}
