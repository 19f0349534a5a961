ghost use Rattle.std.specs.Prelude.{◌≡◌};
ghost use Rattle.rsr_message.specs.declared.faults.MessageFault.TheVariants.{Memory};

use std::alloc::AllocError;

/// Why bytes are not read as a message.
#[derive(Clone, Copy, Debug, PartialEq, Eq)]
pub enum MessageFault {
    /// They are less than a whole message.
    Short,
    /// No message has this first byte.
    BadMagic,
    /// No message has this second byte.
    BadVersion,
    /// No message has this third byte.
    BadKind,
    /// No list has a number of values with this byte.
    BadCount {
        /// The place of the byte in the message.
        at: u32,
    },
    /// No value that may stand here has this tag.
    BadTag {
        /// The place of the byte in the message.
        at: u32,
    },
    /// Want of memory.
    Memory,
}

impl From<AllocError> for MessageFault {
    ghost from_gives = { λ _ fault. fault ≡ Memory };

    fn from(_want: AllocError) -> MessageFault {
        MessageFault::Memory
    }
}

impl MessageFault {
    ghost use Rattle.rsr_message.specs.Lines.{fault_name};
    ghost use Rattle.rsr_message.specs.Streams.{place_of};

    /// Its name, as reports print it.
    pub fn name(self) -> &'static str
        ensures { result.now ≡ fault_name self }
    {
        match self {
            MessageFault::Short => "Short",
            MessageFault::BadMagic => "BadMagic",
            MessageFault::BadVersion => "BadVersion",
            MessageFault::BadKind => "BadKind",
            MessageFault::BadCount { .. } => "BadCount",
            MessageFault::BadTag { .. } => "BadTag",
            MessageFault::Memory => "Memory",
        }
    }

    /// The place in the message of the byte that is refused, from 0.
    pub(crate) fn place(self) -> u32
        ensures { result ≡ place_of self }
    {
        match self {
            MessageFault::BadMagic | MessageFault::Short | MessageFault::Memory => 0,
            MessageFault::BadVersion => 1,
            MessageFault::BadKind => 2,
            MessageFault::BadCount { at } | MessageFault::BadTag { at } => at,
        }
    }
}
