ghost use Rattle.std.specs.Prelude.{◌≡◌, ◌≢◌, ℕ, ◌⊎◌, IfOk, IfErr, IsErrOf};
ghost use Rattle.marshal.specs.Spellings.{BeginsWith};
ghost use Rattle.rsr_message.specs.declared.faults.MessageFault.{MessageFault};
ghost use Rattle.rsr_message.specs.declared.requests.Request.{Request};
ghost use Rattle.rsr_message.specs.Requests.{SpellsEither};
ghost use Rattle.rsr_message.specs.Refusals.{HasList, IsCause, Decodes};

use crate::faults::MessageFault;
use crate::lengths::measure;
use crate::reading::read;
use crate::requests::Request;
use std::alloc::Global;

/// The request with which the bytes begin, in either version, and how many bytes it has. Other bytes may follow it.
///
/// A message is refused at its first wrong byte. Memory is taken for a list of values alone, once a whole message is there.
pub fn decode(alloc: Global, bytes: &[u8]) -> Result<(Request, usize), MessageFault>
    ensures found { IfOk result (λ found. BeginsWith (SpellsEither found.0) bytes.now found.1) }
    ensures refused { IfErr result (λ fault. IsCause bytes.now fault) }

    // There is no other answer, but for want of memory.
    ensures message { (request : Request) (len : ℕ) → BeginsWith (SpellsEither request) bytes.now len →
        (result ≡ Ok (request, len)) ⊎ (IsErrOf result MessageFault.Memory × HasList request.body) }
    ensures cause { (fault : MessageFault) → fault ≢ MessageFault.Memory → IsCause bytes.now fault → IsErrOf result fault }
{
    decode_front(alloc, bytes)
}

fn decode_front(alloc: Global, bytes: &[u8]) -> Result<(Request, usize), MessageFault>
    ensures { Decodes bytes.now result }
{
    let (head, len) = measure(bytes)?;
    let request = read(alloc, head, &bytes[..len])?;
    Ok((request, len))
}
