ghost use Rattle.std.specs.Prelude.{IfOk};
ghost use Rattle.ccpp_top.specs.Messages.{Messages};

use crate::answer::Answer;
use crate::status::Status;
use cc_engine::push_line;
use ccpp_edge::Memory;
use rsr_message::{ListFault, Listing, list_messages};
use std::alloc::{AllocError, Global};

/// The listing of the messages in the bytes, or why they are no list of messages.
pub(crate) fn messages_of(alloc: Global, bytes: &[u8]) -> Result<Answer, Memory>
    ensures { IfOk result (λ answer. Messages bytes.now answer.text answer.status) }
{
    match list_messages(alloc, bytes) {
        Ok(listing) => {
            let Listing { lines, messages } = listing;
            let mut text = lines;
            push_line(
                &mut text,
                format!(in alloc; "== messages {messages}")?.as_str(),
            )?;
            Ok(Answer {
                text,
                status: Status::Done,
            })
        }
        Err(ListFault::No { fault, at }) => {
            let name = fault.name();
            Answer::line(
                alloc,
                Status::No,
                format!(in alloc; "no {name} at {at}")?.as_str(),
            )
        }
        Err(ListFault::Memory) => Err(AllocError),
    }
}
