ghost use Rattle.std.specs.Prelude.{◌≡◌, ℕ, ◌+◌, ◌^◌, ◌<◌, ◌≤◌, ◌⊎◌, [], ◌++◌, List, length, drop, vec_len, IfOk, IfErr, OnOk, OnErr, IsErrOf};
ghost use Rattle.marshal.specs.Spellings.{IsPartial, IsWrongAt};
ghost use Rattle.rsr_message.specs.declared.faults.MessageFault.{MessageFault};
ghost use Rattle.rsr_message.specs.declared.requests.Request.{Request};
ghost use Rattle.rsr_message.specs.declared.splitter.FeedFault.TheVariants.{Memory};
ghost use Rattle.rsr_message.specs.Requests.{IsMessage};
ghost use Rattle.rsr_message.specs.Streams.{IsStream, Passes, Stops, Feeds, Splits};

use crate::faults::MessageFault;
use crate::lengths::measure;
use crate::reading::read;
use crate::requests::Request;
use ccpp_edge::List;
use std::alloc::{AllocError, Global};
use std::marker::Model;

/// Cuts a stream of messages, each in either version, that comes in pieces, wherever they are cut.
///
/// Contracts see it as a flow: its `rest`, which is of no whole message yet, the number `passed` of the bytes before it, and
/// once it is `closed`, the place of the first wrong byte in the stream and what is wrong there. This project's own.
#[derive(Debug, Drop)]
pub struct Splitter {
    rest: Vec<u8>,
    passed: u64,
    closed: Option<Refusal>,
}

// A wrong byte in a stream.
#[derive(Clone, Copy, Debug)]
struct Refusal {
    at: u64,
    fault: MessageFault,
}

impl Model for Splitter {
    ghost use Rattle.marshal.specs.Spellings.{IsPartial};
    ghost use Rattle.rsr_message.specs.Requests.{IsMessage};
    ghost use Rattle.rsr_message.specs.Streams.{Flow};

    ghost Value = { Flow };

    ghost use Rattle.rsr_message.specs.Refused.{place_and_fault};

    ghost view = { λ splitter. record { rest = splitter.rest.items; passed = splitter.passed; closed = place_and_fault splitter.closed } };

    ghost invariant = { λ splitter. IsPartial IsMessage splitter.rest.items };
}

/// Why a piece is not taken.
#[derive(Clone, Copy, Debug, PartialEq, Eq)]
pub enum FeedFault {
    /// The stream has its first wrong byte at this place, in a message that is refused so. From now on it is closed.
    Bad {
        /// The place in the whole stream, from 0.
        at: u64,
        /// Why the message is refused.
        fault: MessageFault,
    },
    /// The stream was closed before.
    Closed {
        /// The place of the wrong byte.
        at: u64,
        /// Why its message was refused.
        fault: MessageFault,
    },
    /// Want of memory.
    Memory,
}

impl From<AllocError> for FeedFault {
    ghost from_gives = { λ _ fault. fault ≡ Memory };

    fn from(_want: AllocError) -> FeedFault {
        FeedFault::Memory
    }
}

impl Splitter {
    /// A stream of which nothing has come, which takes no memory.
    pub fn new(alloc: Global) -> Splitter
        ensures rest { result.rest ≡ [] }
        ensures passed { result.passed ≡ 0 }
        ensures not_closed { result.closed ≡ None }
    {
        Splitter {
            rest: Vec::new(alloc),
            passed: 0,
            closed: None,
        }
    }

    /// The bytes that are of no whole message yet. They are fewer than the 53,271 of the longest message.
    pub fn rest(&self) -> &[u8]
        ensures rest { result.now ≡ self.now.rest }
        ensures partial { IsPartial IsMessage result.now }
        ensures few { length result.now < 53271 }
    {
        self.rest.as_slice()
    }

    /// Takes the next piece of the stream, and puts the requests whose messages are whole now at the end of `out`.
    ///
    /// At the first wrong byte of the stream it is refused, with the messages before it given, and closed from then on: each
    /// later call answers `Closed` with the same place and fault. Want of memory, and a closed stream, change nothing.
    pub fn feed(
        &mut self,
        alloc: Global,
        piece: &[u8],
        out: &mut List<Request>,
    ) -> Result<(), FeedFault>
        requires { self.old.passed + length self.old.rest + length piece.now < 2 ^ 64 }
        ensures ok { OnOk result (Passes self.old piece.now self.new out.old out.new) }
        ensures err { IfErr result (λ fault. Stops self.old piece.now self.new out.old out.new fault) }
        ensures counted { OnOk result (self.new.passed + length self.new.rest ≡ self.old.passed + length self.old.rest + length piece.now) }

        // There is no other answer, but for want of memory.
        ensures closed { (at : ℕ) (fault : MessageFault) → self.old.closed ≡ Some (at, fault) → IsErrOf result (FeedFault.Closed at fault) }
        ensures wrong { (at : ℕ) → self.old.closed ≡ None → IsWrongAt IsStream (self.old.rest ++ piece.now) at →
            ((fault : MessageFault) × IsErrOf result (FeedFault.Bad (self.old.passed + at) fault)) ⊎ IsErrOf result FeedFault.Memory }
    {
        self.take_piece(alloc, piece, out)
    }

    fn take_piece(
        &mut self,
        alloc: Global,
        piece: &[u8],
        out: &mut List<Request>,
    ) -> Result<(), FeedFault>
        requires { self.old.passed + length self.old.rest + length piece.now < 2 ^ 64 }
        ensures { Feeds self.old piece.now self.new out.old out.new result }
    {
        if let Some(Refusal { at, fault }) = self.closed {
            return Err(FeedFault::Closed { at, fault });
        }
        let (held, given) = (self.rest.len(), out.len());
        self.rest.extend_from_slice(piece)?;
        match split(alloc, self.rest.as_slice(), out) {
            Ok((used, None)) => {
                drop_front(&mut self.rest, used);
                self.passed += used as u64;
                Ok(())
            }
            Ok((used, Some(fault))) => {
                self.rest.truncate(held);
                let at = self.passed + used as u64 + fault.place() as u64;
                self.closed = Some(Refusal { at, fault });
                Err(FeedFault::Bad { at, fault })
            }
            Err(AllocError) => {
                self.rest.truncate(held);
                out.truncate(given);
                Err(FeedFault::Memory)
            }
        }
    }
}

// How many bytes are whole messages, whose requests are put at the end, and what is wrong behind them. Want of memory may
// leave some of the requests there.
fn split(
    alloc: Global,
    stream: &[u8],
    out: &mut List<Request>,
) -> Result<(usize, Option<MessageFault>), AllocError>
    ensures ok { IfOk result (λ found. Splits stream.now found.0 found.1 out.old out.new) }
    ensures err { OnErr result ((more : List Request) × (out.new ≡ out.old ++ more)) }
{
    let mut used = 0;
    loop {
        let rest = &stream[used..];
        match measure(rest) {
            Ok((head, len)) => {
                out.push(read(alloc, head, &rest[..len])?)?;
                used += len;
            }
            Err(fault) => match fault {
                MessageFault::Short => return Ok((used, None)),
                _ => return Ok((used, Some(fault))),
            },
        }
    }
}

fn drop_front(bytes: &mut Vec<u8>, n: usize)
    requires { n ≤ vec_len bytes.old }
    ensures { bytes.new.items ≡ drop n bytes.old.items }
{
    bytes.drain(..n);
}
