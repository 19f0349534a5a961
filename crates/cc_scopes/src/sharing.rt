ghost use Rattle.std.specs.Prelude.{◌≡◌};
ghost use Rattle.cc_scopes.specs.Sharing as spec;

/// A rule of sharing, in the order in which they are answered. This project's own.
#[derive(Clone, Copy, Debug, PartialEq, Eq)]
pub enum ShareRule {
    /// The address of a plain int variable or element is taken, or a plain array's name stands as a pointer.
    PlainAddress,
    /// A plain int is written through a pointer.
    PlainThroughPointer,
    /// A plain member, or an element of one, is written outside a constructor.
    PlainMember,
    /// A plain variable, or an element of one, is written in another parallel part than that of its declaration.
    OuterPlainWritten,
    /// `cout` stands outside `main`, or in `main` inside a `par` or `parfor`.
    PrintInBranch,
    /// An atomic function is declared.
    AtomicUsed,
}

/// A rule of sharing that is broken, and where.
#[derive(Clone, Copy, Debug, PartialEq, Eq)]
pub struct Share {
    /// Which.
    pub rule: ShareRule,
    /// The line of the first token of the innermost statement or declaration, from 1.
    pub line: u32,
}

impl ShareRule {
    /// The rule's name, as reports print it.
    pub fn name(self) -> &'static str
        ensures { result.now ≡ spec.share_name self }
    {
        match self {
            ShareRule::PlainAddress => "PlainAddress",
            ShareRule::PlainThroughPointer => "PlainThroughPointer",
            ShareRule::PlainMember => "PlainMember",
            ShareRule::OuterPlainWritten => "OuterPlainWritten",
            ShareRule::PrintInBranch => "PrintInBranch",
            ShareRule::AtomicUsed => "AtomicUsed",
        }
    }

    /// Its number in the order of the rules.
    pub fn number(self) -> u8
        ensures { result ≡ spec.share_number self }
    {
        match self {
            ShareRule::PlainAddress => 1,
            ShareRule::PlainThroughPointer => 2,
            ShareRule::PlainMember => 3,
            ShareRule::OuterPlainWritten => 4,
            ShareRule::PrintInBranch => 5,
            ShareRule::AtomicUsed => 6,
        }
    }
}
