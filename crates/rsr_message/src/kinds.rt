ghost use Rattle.std.specs.Prelude.{◌≡◌, ◌≢◌, MatchOption};
ghost use Rattle.rsr_message.specs.Shapes.{byte_of, fields_len, kind_of};

use crate::requests::Body;
use crate::versions::Version;

/// The first byte of each message.
pub(crate) const MAGIC: u8 = 0x52;

/// What the first three bytes of a message tell.
#[derive(Clone, Copy, Debug)]
pub(crate) struct Head {
    pub(crate) version: Version,
    pub(crate) kind: Kind,
}

/// The kind of a request, which its third byte tells.
#[derive(Clone, Copy, Debug, PartialEq, Eq)]
pub(crate) enum Kind {
    Call,
    Get,
    Put,
    Make,
    Reply,
    Cast,
}

impl Kind {
    ghost use Rattle.rsr_message.specs.declared.kinds.Kind.{Kind};

    /// The third byte of a message of this kind.
    pub(crate) fn byte(self) -> u8
        ensures { result ≡ byte_of self }
    {
        match self {
            Kind::Call => 1,
            Kind::Get => 2,
            Kind::Put => 3,
            Kind::Make => 4,
            Kind::Reply => 5,
            Kind::Cast => 6,
        }
    }

    /// The kind of the messages with this third byte, and `None` exactly where there are none.
    pub(crate) fn of_byte(byte: u8) -> Option<Kind>
        ensures { MatchOption result ((kind : Kind) → byte ≢ byte_of kind) (λ kind. byte ≡ byte_of kind) }
    {
        match byte {
            1 => Some(Kind::Call),
            2 => Some(Kind::Get),
            3 => Some(Kind::Put),
            4 => Some(Kind::Make),
            5 => Some(Kind::Reply),
            6 => Some(Kind::Cast),
            _ => None,
        }
    }

    /// How many bytes the numbers behind the third byte have, but for the number of a list's values.
    pub(crate) fn fields_len(self) -> usize
        ensures { result ≡ fields_len self }
    {
        match self {
            Kind::Call | Kind::Cast => 18,
            Kind::Get | Kind::Put => 20,
            Kind::Make => 14,
            Kind::Reply => 12,
        }
    }
}

impl Body {
    /// The kind of this body.
    pub(crate) fn kind(&self) -> Kind
        ensures { result ≡ kind_of self.now }
    {
        match self {
            Body::Call { .. } => Kind::Call,
            Body::Get { .. } => Kind::Get,
            Body::Put { .. } => Kind::Put,
            Body::Make { .. } => Kind::Make,
            Body::Reply { .. } => Kind::Reply,
            Body::Cast { .. } => Kind::Cast,
        }
    }
}
