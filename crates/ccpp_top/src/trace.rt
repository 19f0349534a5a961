ghost use Rattle.std.specs.Prelude.{◌≡◌, ◌≤◌, ℕ, length, IfOk};
ghost use Rattle.cc_core.specs.Report as spec;
ghost use Rattle.cc_types.specs.Program.{main_params};
ghost use Rattle.ccpp_top.specs.Checks.{OnSource};
ghost use Rattle.ccpp_top.specs.Traces as traces;
ghost use Rattle.ccpp_top.specs.Traces.{Traces, TracesProgram, Verdicts, verdict_text, verdict_status};

use crate::answer::Answer;
use crate::status::Status;
use cc_engine::standing_text;
use cc_types::Checked;
use ccpp_edge::{Memory, Shelf, ShelfFault};
use ccpp_source::read_source;
use effect_journal::{JournalFault, read_journal};
use std::alloc::{AllocError, Global};
use trace_check::{Verdict, Why, trace};

/// What `trace` answers on the files of a program and of a journal, and on these ints. The second is read where the first is a source that takes
/// as many ints.
pub(crate) fn trace_answer<S: Shelf>(
    alloc: Global,
    file: &str,
    journal: &str,
    ints: &[i64],
    shelf: &mut S,
) -> Result<Answer, Memory>
    ensures says { IfOk result (λ answer. Traces (S.held shelf.old) (S.faults shelf.old) (S.faults shelf.new) file.now journal.now ints.now answer.text answer.status) }
    ensures held { S.held shelf.new ≡ S.held shelf.old }
{
    match shelf.read(file) {
        Ok(source) => source_traced(alloc, source.as_slice(), journal, ints, shelf),
        Err(ShelfFault::Absent) => Answer::line(
            alloc,
            Status::NoFile,
            format!(in alloc; "no file {file}")?.as_str(),
        ),
        Err(ShelfFault::Failed) => Answer::line(alloc, Status::ReadFault, "read fault"),
        Err(ShelfFault::Memory) => Err(AllocError),
    }
}

/// What is said of a source.
fn source_traced<S: Shelf>(
    alloc: Global,
    source: &[u8],
    journal: &str,
    ints: &[i64],
    shelf: &mut S,
) -> Result<Answer, Memory>
    ensures says { (before : ℕ) → before ≤ S.faults shelf.old
        → IfOk result (λ answer. OnSource (TracesProgram (S.held shelf.old) before (S.faults shelf.new) journal.now ints.now) source.now answer.text answer.status) }
    ensures held { S.held shelf.new ≡ S.held shelf.old }
{
    match read_source(alloc, source) {
        Ok(checked) => program_traced(alloc, &checked, journal, ints, shelf),
        Err(why) => Answer::refused(alloc, why),
    }
}

/// What is said of a program.
fn program_traced<S: Shelf>(
    alloc: Global,
    checked: &Checked,
    journal: &str,
    ints: &[i64],
    shelf: &mut S,
) -> Result<Answer, Memory>
    ensures says { (before : ℕ) → before ≤ S.faults shelf.old
        → IfOk result (λ answer. TracesProgram (S.held shelf.old) before (S.faults shelf.new) journal.now ints.now checked.now answer.text answer.status) }
    ensures held { S.held shelf.new ≡ S.held shelf.old }
{
    let takes = checked.main_parameters() as usize;
    let got = ints.len();
    if takes != got {
        return Answer::line(
            alloc,
            Status::IntCount,
            format!(in alloc; "main takes {takes}, got {got}")?.as_str(),
        );
    }
    match shelf.read(journal) {
        Ok(bytes) => journal_traced(alloc, checked, ints, bytes.as_slice()),
        Err(ShelfFault::Absent) => Answer::line(
            alloc,
            Status::NoFile,
            format!(in alloc; "no file {journal}")?.as_str(),
        ),
        Err(ShelfFault::Failed) => Answer::line(alloc, Status::ReadFault, "read fault"),
        Err(ShelfFault::Memory) => Err(AllocError),
    }
}

/// What is said of the bytes of a journal.
fn journal_traced(
    alloc: Global,
    checked: &Checked,
    ints: &[i64],
    bytes: &[u8],
) -> Result<Answer, Memory>
    requires { length ints.now ≡ main_params checked.now.items }
    ensures { IfOk result (λ answer. Verdicts ints.now checked.now bytes.now answer.text answer.status) }
{
    match read_journal(alloc, bytes) {
        Ok(entries) => {
            let verdict = trace(alloc, checked, ints, entries.as_slice())?;
            verdict_line(alloc, verdict)
        }
        Err(JournalFault::Line { line }) => Answer::line(
            alloc,
            Status::No,
            format!(in alloc; "no line {line}")?.as_str(),
        ),
        Err(JournalFault::NoEnd) => Answer::line(alloc, Status::No, "no end"),
        Err(JournalFault::Memory) => Err(AllocError),
    }
}

/// How a verdict is said.
fn verdict_line(alloc: Global, verdict: Verdict) -> Result<Answer, Memory>
    ensures { IfOk result (λ answer. answer ≡ record { text = spec.line (verdict_text verdict); status = verdict_status verdict }) }
{
    match verdict {
        Verdict::Yes(standing) => {
            let standing = standing_text(alloc, standing)?;
            Answer::line(
                alloc,
                Status::Done,
                format!(in alloc; "yes {standing}")?.as_str(),
            )
        }
        Verdict::No { entry, why } => {
            let why = why_name(why);
            Answer::line(
                alloc,
                Status::No,
                format!(in alloc; "no entry {entry} {why}")?.as_str(),
            )
        }
    }
}

/// The name of a reason.
fn why_name(why: Why) -> &'static str
    ensures { result.now ≡ traces.why_name why }
{
    match why {
        Why::NoThread => "NoThread",
        Why::OtherRequest => "OtherRequest",
        Why::NotEnabled => "NotEnabled",
        Why::Faults => "Faults",
        Why::OtherEnd => "OtherEnd",
    }
}
