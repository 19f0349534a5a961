ghost use Rattle.std.specs.Prelude.{◌≡◌, ◌≤◌, IfOk};
ghost use Rattle.cc_types.specs.Program.{main_params};
ghost use Rattle.ccpp_gen.specs.LoadSource.{load_source};
ghost use Rattle.ccpp_source.specs.Source.{IsSource};
ghost use Rattle.ccpp_top.specs.Loads.{Loads};

use crate::answer::Answer;
use cc_engine::{push_line, run_program};
use cc_types::Checked;
use ccpp_edge::{Bytes, Gate, List, Memory};
use ccpp_gen::make_source;
use ccpp_source::{Refusal, read_source};
use sharing_check::sharing;
use std::alloc::{AllocError, Global};
use std::thread::Threads;

/// How many steps the run may make: as many as that of `run` where none are given.
const STEPS: u64 = 10_000_000;

/// What `load` answers of this size.
pub(crate) fn load_answer<R: Threads + Sync, G: Gate>(
    rt: &R,
    alloc: Global,
    size: u32,
    gate: &G,
) -> Result<Answer, Memory>
    requires some { 1 ≤ size }
    requires most { size ≤ 10000 }
    ensures { IfOk result (λ answer. Loads size answer.text answer.status) }
{
    let source = make_source(alloc, size)?;
    match read_source(alloc, source.as_slice()) {
        Ok(checked) => report_of(rt, alloc, size, &checked, gate),
        Err(why) => Err(memory(why)),
    }
}

/// The only reason why the load program may be refused.
fn memory(_why: Refusal) -> Memory
    requires { _why ≡ Refusal.Memory }
{
    AllocError
}

/// The line of `load`, and the report of a run of the load program.
fn report_of<R: Threads + Sync, G: Gate>(
    rt: &R,
    alloc: Global,
    size: u32,
    checked: &Checked,
    gate: &G,
) -> Result<Answer, Memory>
    requires source { IsSource (load_source size) checked.now }
    requires takes_none { main_params checked.now.items ≡ 0 }
    ensures { IfOk result (λ answer. Loads size answer.text answer.status) }
{
    let ints = List::new(alloc);
    let outcome = run_program(rt, alloc, checked, ints.as_slice(), 0, STEPS, gate)?;
    let Answer {
        text: report,
        status,
    } = Answer::report(alloc, &outcome, sharing(checked))?;
    let mut text = Bytes::new(alloc);
    push_line(&mut text, format!(in alloc; "load {size}")?.as_str())?;
    text.append(report)?;
    Ok(Answer { text, status })
}
