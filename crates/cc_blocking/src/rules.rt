ghost use Rattle.std.specs.Prelude.{◌≡◌, ◌++◌, map, OnOk};
ghost use Rattle.cc_blocking.specs.Rounds as spec;

use crate::conduct::Conduct;
use crate::rounds::is_blocking;
use cc_names::{Broken, StaticRule};
use cc_scopes::Call;
use ccpp_edge::List;
use std::alloc::AllocError;

fn rule_at(line: u32) -> Broken
    ensures { result ≡ spec.rule_at line }
{
    Broken::Rule {
        rule: StaticRule::AtomicBody,
        line,
    }
}

fn note_lines(broken: &mut List<Broken>, lines: &[u32]) -> Result<(), AllocError>
    ensures { OnOk result (broken.new ≡ broken.old ++ map spec.rule_at lines.now) }
{
    for line in lines {
        broken.push(rule_at(*line))?;
    }
    Ok(())
}

fn note_call(broken: &mut List<Broken>, blocks: bool, line: u32) -> Result<(), AllocError>
    ensures { OnOk result (broken.new ≡ broken.old ++ spec.rule_if blocks line) }
{
    if blocks {
        return broken.push(rule_at(line));
    }
    Ok(())
}

fn note_calls(
    broken: &mut List<Broken>,
    functions: &[Conduct],
    marks: &[bool],
    calls: &[Call],
) -> Result<(), AllocError>
    ensures { OnOk result (broken.new ≡ broken.old ++ spec.call_rules functions.now marks.now calls.now) }
{
    for call in calls {
        note_call(broken, is_blocking(functions, marks, *call), call.line)?;
    }
    Ok(())
}

fn note_body(
    broken: &mut List<Broken>,
    functions: &[Conduct],
    marks: &[bool],
    conduct: &Conduct,
) -> Result<(), AllocError>
    ensures { OnOk result (broken.new ≡ broken.old ++ spec.body_rules functions.now marks.now conduct.now) }
{
    note_lines(broken, conduct.blocks.as_slice())?;
    note_calls(broken, functions, marks, conduct.calls.as_slice())
}

fn note_function(
    broken: &mut List<Broken>,
    functions: &[Conduct],
    marks: &[bool],
    conduct: &Conduct,
) -> Result<(), AllocError>
    ensures { OnOk result (broken.new ≡ broken.old ++ spec.function_rules conduct.now.atomic functions.now marks.now conduct.now) }
{
    if conduct.atomic {
        return note_body(broken, functions, marks, conduct);
    }
    Ok(())
}

/// Adds the rules that atomic functions break, where the marked functions may block.
pub fn note_atomic(
    broken: &mut List<Broken>,
    functions: &[Conduct],
    marks: &[bool],
) -> Result<(), AllocError>
    ensures { OnOk result (broken.new ≡ broken.old ++ spec.atomic_rules functions.now marks.now) }
{
    for conduct in functions {
        note_function(broken, functions, marks, conduct)?;
    }
    Ok(())
}
