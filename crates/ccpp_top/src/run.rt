ghost use Rattle.std.specs.Prelude.{◌≤◌, IfOk};
ghost use Rattle.ccpp_top.specs.Answers.{Answers, Reports};

use crate::answer::Answer;
use crate::status::Status;
use cc_engine::run_program;
use cc_types::Checked;
use ccpp_edge::{Gate, Memory};
use ccpp_source::read_source;
use sharing_check::sharing;
use std::alloc::Global;
use std::thread::Threads;

/// What a program is run on, from which seed turns are drawn, and how many steps the run may make.
#[derive(Clone, Copy)]
pub(crate) struct Asked<'a> {
    pub ints: &'a [i64],
    pub seed: u64,
    pub limit: u64,
}

/// What `run` answers on a file of these bytes.
pub(crate) fn run_answer<R: Threads + Sync, G: Gate>(
    rt: &R,
    alloc: Global,
    source: &[u8],
    asked: Asked,
    gate: &G,
) -> Result<Answer, Memory>
    requires some { 1 ≤ asked.limit }
    requires limit { asked.limit ≤ 1000000000 }
    ensures { IfOk result (λ answer. Answers asked.entry.ints.now asked.entry.limit source.now answer.text answer.status) }
{
    match read_source(alloc, source) {
        Ok(checked) => report_of(rt, alloc, &checked, asked, gate),
        Err(why) => Answer::refused(alloc, why),
    }
}

/// The report of a run of the program, or that it takes another number of ints.
fn report_of<R: Threads + Sync, G: Gate>(
    rt: &R,
    alloc: Global,
    checked: &Checked,
    asked: Asked,
    gate: &G,
) -> Result<Answer, Memory>
    requires some { 1 ≤ asked.limit }
    requires limit { asked.limit ≤ 1000000000 }
    ensures { IfOk result (λ answer. Reports asked.entry.ints.now asked.entry.limit checked.now answer.text answer.status) }
{
    let takes = checked.main_parameters() as usize;
    let got = asked.ints.len();
    if takes != got {
        return Answer::line(
            alloc,
            Status::IntCount,
            format!(in alloc; "main takes {takes}, got {got}")?.as_str(),
        );
    }
    let outcome = run_program(
        rt,
        alloc,
        checked,
        asked.ints,
        asked.seed,
        asked.limit,
        gate,
    )?;
    Answer::report(alloc, &outcome, sharing(checked))
}
