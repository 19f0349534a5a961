ghost use Rattle.std.specs.Prelude.{◌≡◌, ◌==◌, IfOk, MatchOption, slice_index};
ghost use Rattle.rsr_message.specs.declared.requests.Request.{Request};
ghost use Rattle.rsr_message.specs.Requests.{SpellsEither};
ghost use Rattle.trace_check.specs.Migration.{IsMessage1, SameRequest};

use ccpp_edge::Bytes;
use rsr_message::{MessageFault, Request, decode, encode};
use std::alloc::{AllocError, Global};

/// The bytes in version 2 of the request of which these bytes are the whole message in version 1.
pub(crate) fn in_version_2(alloc: Global, message: &[u8]) -> Result<Option<Bytes>, AllocError>
    ensures { IfOk result (λ found. MatchOption found (IsMessage1 message.now → ⊥) (SameRequest message.now)) }
{
    if !is_of_version_1(message) {
        return Ok(None);
    }
    let Some(request) = decoded(alloc, message)? else {
        return Ok(None);
    };
    let mut new = Bytes::new(alloc);
    encode(&request, &mut new)?;
    Ok(Some(new))
}

fn is_of_version_1(message: &[u8]) -> bool
    ensures { result ≡ (slice_index message.now 1 == 1) }
{
    message.len() > 1 && message[1] == 1
}

/// The request of which the bytes are the whole message.
pub(crate) fn decoded(alloc: Global, bytes: &[u8]) -> Result<Option<Request>, AllocError>
    ensures { IfOk result (λ found. MatchOption found ((request : Request) → SpellsEither request bytes.now → ⊥) (λ request. SpellsEither request bytes.now)) }
{
    match decode(alloc, bytes) {
        Ok((request, len)) => {
            if len == bytes.len() {
                Ok(Some(request))
            } else {
                Ok(None)
            }
        }
        Err(fault) => match fault {
            MessageFault::Memory => Err(AllocError),
            _ => Ok(None),
        },
    }
}
