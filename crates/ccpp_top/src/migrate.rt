ghost use Rattle.std.specs.Prelude.{IfOk};
ghost use Rattle.ccpp_top.specs.Migrations.{Migrations};

use crate::answer::Answer;
use crate::status::Status;
use ccpp_edge::Memory;
use effect_journal::JournalFault;
use std::alloc::{AllocError, Global};
use trace_check::migrate;

/// The journal of version 2 that says the same as the bytes, or why they are no journal.
pub(crate) fn migration_of(alloc: Global, bytes: &[u8]) -> Result<Answer, Memory>
    ensures { IfOk result (λ answer. Migrations bytes.now answer.text answer.status) }
{
    match migrate(alloc, bytes) {
        Ok(text) => Ok(Answer {
            text,
            status: Status::Done,
        }),
        Err(JournalFault::Line { line }) => Answer::line(
            alloc,
            Status::No,
            format!(in alloc; "no line {line}")?.as_str(),
        ),
        Err(JournalFault::NoEnd) => Answer::line(alloc, Status::No, "no end"),
        Err(JournalFault::Memory) => Err(AllocError),
    }
}
