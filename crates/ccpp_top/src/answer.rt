ghost use Rattle.std.specs.Prelude.{◌≡◌, ◌≢◌, IfOk};
ghost use Rattle.cc_core.specs.Report as spec;
ghost use Rattle.cc_engine.specs.Report.{shown};
ghost use Rattle.ccpp_source.specs.Source.{refusal_text};
ghost use Rattle.ccpp_top.specs.Status.{status_of};

use crate::status::Status;
use cc_engine::{Outcome, push_line, push_sharing, write_report};
use ccpp_edge::{Bytes, Memory};
use ccpp_source::Refusal;
use sharing_check::Sharing;
use std::alloc::Global;

/// What is written, and the status.
#[derive(Drop)]
pub(crate) struct Answer {
    pub text: Bytes,
    pub status: Status,
}

impl Answer {
    /// A line of its own.
    pub(crate) fn line(alloc: Global, status: Status, line: &str) -> Result<Answer, Memory>
        ensures { IfOk result (λ answer. answer ≡ record { text = spec.line line.now; status = status }) }
    {
        let mut text = Bytes::new(alloc);
        push_line(&mut text, line)?;
        Ok(Answer { text, status })
    }

    /// Why a text is no source.
    pub(crate) fn refused(alloc: Global, why: Refusal) -> Result<Answer, Memory>
        ensures { IfOk result (λ answer. (why ≢ Refusal.Memory) × (answer ≡ record {
          text = spec.line (refusal_text why);
          status = Status.SourceRefused;
        })) }
    {
        Answer::line(alloc, Status::SourceRefused, why.text(alloc)?.as_str())
    }

    /// Whether a program breaks a rule of sharing.
    pub(crate) fn sharing(alloc: Global, sharing: Sharing) -> Result<Answer, Memory>
        ensures { IfOk result (λ answer. answer ≡ record {
          text = spec.line (spec.sharing_text (shown sharing));
          status = Status.Done;
        }) }
    {
        let mut text = Bytes::new(alloc);
        push_sharing(alloc, &mut text, sharing)?;
        Ok(Answer {
            text,
            status: Status::Done,
        })
    }

    /// The report of a run.
    pub(crate) fn report(
        alloc: Global,
        outcome: &Outcome,
        sharing: Sharing,
    ) -> Result<Answer, Memory>
        ensures { IfOk result (λ answer. answer ≡ record {
          text = spec.report outcome.now.output outcome.now.ended (shown sharing);
          status = status_of outcome.now.ended;
        }) }
    {
        let mut text = Bytes::new(alloc);
        write_report(
            alloc,
            outcome.output.as_slice(),
            outcome.ended,
            sharing,
            &mut text,
        )?;
        Ok(Answer {
            text,
            status: Status::from(outcome.ended),
        })
    }
}
