//! The messages of a whole file, line by line.
ghost use Rattle.std.specs.Prelude.{◌≡◌, ◌≢◌, ℕ, ◌<◌, ◌^◌, ◌⊎◌, ◌++◌, string_bytes, IsOk, IfOk, IsErrOf};
ghost use Rattle.marshal.specs.Spellings.{BeginsWith};
ghost use Rattle.rsr_message.specs.declared.faults.MessageFault.{MessageFault};
ghost use Rattle.rsr_message.specs.declared.requests.Request.{Request};
ghost use Rattle.rsr_message.specs.Lines.{line_of};
ghost use Rattle.rsr_message.specs.Requests.{SpellsEither};
ghost use Rattle.rsr_message.specs.Refusals.{IsCause};
ghost use Rattle.rsr_message.specs.Streams.{IsStream};
ghost use Rattle.rsr_message.specs.Listings.{Lists, FirstFault, Tells, fault_behind};

use crate::decoding::decode;
use crate::faults::MessageFault;
use ccpp_edge::Bytes;
use std::alloc::Global;
use std::fmt::Write;

/// The messages of a file.
#[derive(Debug, Drop)]
pub struct Listing {
    /// A line for each message, in order.
    pub lines: Bytes,
    /// How many they are.
    pub messages: usize,
}

/// Why there is no listing.
#[derive(Clone, Copy, Debug, PartialEq, Eq)]
pub enum ListFault {
    /// The bytes are no list of messages.
    No {
        /// Why the first message that is none is refused.
        fault: MessageFault,
        /// The place of the first byte that no list of messages has there, from 0; where the bytes end within a message, how many they are.
        at: usize,
    },
    /// Want of memory.
    Memory,
}

/// The lines of all messages of some bytes, each in either version.
pub fn list_messages(alloc: Global, bytes: &[u8]) -> Result<Listing, ListFault>
    ensures listed { IfOk result (Lists bytes.now) }
    ensures refused { (fault : MessageFault) (at : ℕ) → IsErrOf result (ListFault.No fault at) → FirstFault bytes.now fault at }
    ensures no_list { (fault : MessageFault) (at : ℕ) → IsErrOf result (ListFault.No fault at) → IsStream bytes.now → ⊥ }

    // There is no other answer, but for want of memory.
    ensures list { IsStream bytes.now → IsOk result ⊎ IsErrOf result ListFault.Memory }
    ensures fault { (fault : MessageFault) (at : ℕ) → FirstFault bytes.now fault at → IsErrOf result (ListFault.No fault at) ⊎ IsErrOf result ListFault.Memory }
{
    list_all(alloc, bytes)
}

fn list_all(alloc: Global, bytes: &[u8]) -> Result<Listing, ListFault>
    ensures { Tells bytes.now result }
{
    let mut lines = String::new(alloc);
    let mut messages = 0;
    let mut used = 0;
    while used < bytes.len() {
        match put_line(alloc, &bytes[used..], &mut lines) {
            Ok(len) => {
                messages += 1;
                used += len;
            }
            Err(fault) => return Err(fault_behind(used, bytes.len(), fault)),
        }
    }
    Ok(Listing {
        lines: Bytes::from_vec(lines.into_bytes()),
        messages,
    })
}

// Puts the line of the message with which the bytes begin at the end, and says how many bytes the message has.
fn put_line(alloc: Global, bytes: &[u8], lines: &mut String) -> Result<usize, MessageFault>
    ensures ok { IfOk result (λ len. (request : Request) × BeginsWith (SpellsEither request) bytes.now len × (string_bytes lines.new ≡ string_bytes lines.old ++ line_of request)) }
    ensures refused { (fault : MessageFault) → fault ≢ MessageFault.Memory → IsErrOf result fault → IsCause bytes.now fault }
{
    let (request, len) = decode(alloc, bytes)?;
    match writeln!(lines, "{request}") {
        Ok(()) => Ok(len),
        Err(_) => Err(MessageFault::Memory),
    }
}

// What is told of `len` bytes where behind `used` of them, which are messages, a message is refused so.
fn fault_behind(used: usize, len: usize, fault: MessageFault) -> ListFault
    requires { used < 2 ^ 63 }
    ensures { result ≡ fault_behind used len fault }
{
    match fault {
        MessageFault::Memory => ListFault::Memory,
        MessageFault::Short => ListFault::No { fault, at: len },
        _ => ListFault::No {
            fault,
            at: used + fault.place() as usize,
        },
    }
}
