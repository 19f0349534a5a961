ghost use Rattle.std.specs.Prelude.{◌≡◌};
ghost use Rattle.cc_names.specs.Broken as spec;
ghost use Rattle.cc_names.specs.Broken.{fault_of};
ghost use Rattle.cc_names.specs.declared.broken.TypeFault.TheVariants.{Memory as TheMemory};

use crate::rule::{StaticLimit, StaticRule};
use std::alloc::AllocError;

/// A static rule or a limit that is broken, and where.
#[derive(Clone, Copy, Debug, PartialEq, Eq)]
pub enum Broken {
    /// A rule.
    Rule {
        /// Which.
        rule: StaticRule,
        /// The line of the first token of the statement or declaration, from 1.
        line: u32,
    },
    /// A limit.
    Limit {
        /// Which.
        which: StaticLimit,
        /// The line of the first token of the declaration past the limit, from 1.
        line: u32,
    },
}

/// Why a program that is spelled as the grammar says is refused: the broken rule or limit that is answered.
#[derive(Clone, Copy, Debug, PartialEq, Eq)]
pub enum TypeFault {
    /// A rule is broken.
    Rule {
        /// Which.
        rule: StaticRule,
        /// The line, from 1.
        line: u32,
    },
    /// A limit is exceeded.
    Limit {
        /// Which.
        which: StaticLimit,
        /// The line, from 1.
        line: u32,
    },
    /// Want of memory.
    Memory,
}

impl From<AllocError> for TypeFault {
    ghost from_gives = { λ _ fault. fault ≡ TheMemory };

    fn from(_: AllocError) -> TypeFault {
        TypeFault::Memory
    }
}

impl From<Broken> for TypeFault {
    ghost from_gives = { λ broken fault. fault ≡ fault_of broken };

    fn from(broken: Broken) -> TypeFault {
        match broken {
            Broken::Rule { rule, line } => TypeFault::Rule { rule, line },
            Broken::Limit { which, line } => TypeFault::Limit { which, line },
        }
    }
}

impl Broken {
    /// The line at which it stands.
    pub fn line(self) -> u32
        ensures { result ≡ spec.line_of self }
    {
        match self {
            Broken::Rule { line, .. } => line,
            Broken::Limit { line, .. } => line,
        }
    }

    /// The rule's or the limit's number in the order of the table.
    pub fn number(self) -> u8
        ensures { result ≡ spec.number_of self }
    {
        match self {
            Broken::Rule { rule, .. } => rule.number(),
            Broken::Limit { which, .. } => which.number(),
        }
    }

    /// Whether it is answered rather than `other`: by its line, and at one line by its number.
    #[tactic(auto, unfolding(crate::specs::Broken::is_before))]
    pub fn is_before(self, other: Broken) -> bool
        ensures { result ≡ spec.is_before self other }
    {
        if self.line() == other.line() {
            self.number() < other.number()
        } else {
            self.line() < other.line()
        }
    }
}

fn earlier(found: Option<Broken>, next: Broken) -> Option<Broken>
    ensures { result ≡ spec.earlier found next }
{
    match found {
        None => Some(next),
        Some(other) => Some(if next.is_before(other) { next } else { other }),
    }
}

/// The broken rule that is answered: the one with the least line, and at equal lines with the least number. `None` exactly
/// where none is broken.
pub fn least(broken: &[Broken]) -> Option<Broken>
    ensures computed { result ≡ spec.least broken.now }
    ensures least { spec.IsLeast broken.now result }
{
    let mut found = None;
    for next in broken {
        found = earlier(found, *next);
    }
    found
}
