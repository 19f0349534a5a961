ghost use Rattle.std.specs.Prelude.{◌≡◌, ◌++◌, Some, OnOk, OnErr};
ghost use Rattle.rsr_message.specs.Lines.{values_text, kind_word, body_text, request_text, line_of};

use crate::requests::{Body, Request};
use ccpp_edge::Bytes;
use global_ptr::Value;
use std::alloc::{AllocError, Global};
use std::fmt;

/// Puts the line that tells of a request at the end, with its line feed. Want of memory leaves `out` as it was.
pub fn message_line(alloc: Global, request: &Request, out: &mut Bytes) -> Result<(), AllocError>
    ensures ok { OnOk result (out.new ≡ out.old ++ line_of request.now) }
    ensures err { OnErr result (out.new ≡ out.old) }
{
    let line = format!(in alloc; "{request}\n")?;
    out.extend_from_slice(line.as_bytes())
}

/// Prints the kind, who asks whom, the ticket and what is asked, as in `get to 1 from 0 ticket 5 object 2 offset 3`.
impl fmt::Display for Request {
    ghost output = { λ request. Some (request_text request) };

    fn fmt<W: fmt::Write>(&self, f: &mut fmt::Formatter<W>) -> fmt::Result {
        let Request {
            to,
            from,
            ticket,
            body,
        } = self;
        let word = body.word();
        write!(f, "{word} to {to} from {from} ticket {ticket}{body}")
    }
}

/// Prints what stands behind the ticket.
impl fmt::Display for Body {
    ghost output = { λ body. Some (body_text body) };

    fn fmt<W: fmt::Write>(&self, f: &mut fmt::Formatter<W>) -> fmt::Result {
        match self {
            Body::Call {
                object,
                handler,
                args,
            } => {
                let values = Values(args.as_slice());
                write!(f, " object {object} handler {handler} ({values})")
            }
            Body::Get { spot } => {
                let (object, offset) = (spot.object, spot.offset);
                write!(f, " object {object} offset {offset}")
            }
            Body::Put { spot, value } => {
                let (object, offset) = (spot.object, spot.offset);
                write!(f, " object {object} offset {offset} {value}")
            }
            Body::Make { class, args } => {
                let values = Values(args.as_slice());
                write!(f, " class {class} ({values})")
            }
            Body::Reply { value } => write!(f, " {value}"),
            Body::Cast {
                object,
                handler,
                args,
            } => {
                let values = Values(args.as_slice());
                write!(f, " object {object} handler {handler} ({values})")
            }
        }
    }
}

impl Body {
    // The word for its kind.
    fn word(&self) -> &'static str
        ensures { result.now ≡ kind_word self.now }
    {
        match self {
            Body::Call { .. } => "call",
            Body::Get { .. } => "get",
            Body::Put { .. } => "put",
            Body::Make { .. } => "make",
            Body::Reply { .. } => "reply",
            Body::Cast { .. } => "cast",
        }
    }
}

// Values with commas between them.
#[derive(Clone, Copy)]
struct Values<'a>(&'a [Value]);

impl fmt::Display for Values<'_> {
    ghost output = { λ values. Some (values_text values.0.now) };

    fn fmt<W: fmt::Write>(&self, f: &mut fmt::Formatter<W>) -> fmt::Result {
        let Some((first, others)) = self.0.split_first() else {
            return Ok(());
        };
        write!(f, "{first}")?;
        for value in others {
            write!(f, ", {value}")?;
        }
        Ok(())
    }
}
