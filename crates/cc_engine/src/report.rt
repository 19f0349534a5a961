ghost use Rattle.std.specs.Prelude.{◌≡◌, ◌++◌, ◌-◌, length, slice_get, IfOk, OnOk, OnErr, codes, string_bytes};
ghost use Rattle.cc_core.specs.Report as spec;
ghost use Rattle.cc_engine.specs.Report.{shown};

use ccpp_edge::Bytes;
use global_ptr::Standing;
use sharing_check::Sharing;
use std::alloc::{AllocError, Global};

/// Puts the report of a run at the end of `out`: its output, how it ended, and the answer of the rules of sharing. Want of memory leaves
/// `out` as it was.
pub fn write_report(
    alloc: Global,
    output: &[u8],
    standing: Standing,
    sharing: Sharing,
    out: &mut Bytes,
) -> Result<(), AllocError>
    ensures ok { OnOk result (out.new ≡ out.old ++ spec.report output.now standing (shown sharing)) }
    ensures err { OnErr result (out.new ≡ out.old) }
{
    let ending = ending_of(alloc, output, standing, sharing)?;
    let before = out.len();
    out.extend_from_slice(output)?;
    match out.append(ending) {
        Ok(()) => Ok(()),
        Err(fault) => {
            out.truncate(before);
            Err(fault)
        }
    }
}

/// What a report puts behind the output.
fn ending_of(
    alloc: Global,
    output: &[u8],
    standing: Standing,
    sharing: Sharing,
) -> Result<Bytes, AllocError>
    ensures { IfOk result (λ ending. ending ≡ spec.line_end (slice_get output.now (length output.now - 1))
        ++ spec.line (codes "== " ++ spec.standing_text standing) ++ spec.line (codes "== " ++ spec.sharing_text (shown sharing))) }
{
    let mut ending = line_end(alloc, output)?;
    let standing = standing_text(alloc, standing)?;
    push_line(&mut ending, format!(in alloc; "== {standing}")?.as_str())?;
    let sharing = sharing_text(alloc, sharing)?;
    push_line(&mut ending, format!(in alloc; "== {sharing}")?.as_str())?;
    Ok(ending)
}

/// Puts a line at the end.
pub fn push_line(text: &mut Bytes, line: &str) -> Result<(), AllocError>
    ensures { OnOk result (text.new ≡ text.old ++ spec.line line.now) }
{
    text.extend_from_slice(line.as_bytes())?;
    text.push(b'\n')
}

/// Puts the answer of the rules of sharing at the end, as a line.
pub fn push_sharing(alloc: Global, text: &mut Bytes, sharing: Sharing) -> Result<(), AllocError>
    ensures { OnOk result (text.new ≡ text.old ++ spec.line (spec.sharing_text (shown sharing))) }
{
    push_line(text, sharing_text(alloc, sharing)?.as_str())
}

/// What ends the last line of the output, if it is not ended.
fn line_end(alloc: Global, output: &[u8]) -> Result<Bytes, AllocError>
    ensures { IfOk result (λ end. end ≡ spec.line_end (slice_get output.now (length output.now - 1))) }
{
    let mut end = Bytes::new(alloc);
    match output.last() {
        None | Some(b'\n') => Ok(end),
        Some(_) => {
            end.push(b'\n')?;
            Ok(end)
        }
    }
}

/// Whether a program breaks a rule of sharing, as a report says it.
fn sharing_text(alloc: Global, sharing: Sharing) -> Result<String, AllocError>
    ensures { IfOk result (λ text. string_bytes text ≡ spec.sharing_text (shown sharing)) }
{
    match sharing {
        Sharing::Determinate => format!(in alloc; "determinate"),
        Sharing::Shared { rule, line } => {
            let rule = rule.name();
            format!(in alloc; "shared {rule} line {line}")
        }
    }
}

/// How a run ended, as a report says it.
pub fn standing_text(alloc: Global, standing: Standing) -> Result<String, AllocError>
    ensures { IfOk result (λ text. string_bytes text ≡ spec.standing_text standing) }
{
    match standing {
        Standing::Done(value) => format!(in alloc; "done {value}"),
        Standing::Blocked(threads) => format!(in alloc; "blocked {threads}"),
        Standing::Fault(fault) => {
            let kind = fault.kind.name();
            let line = fault.line;
            format!(in alloc; "fault {kind} line {line}")
        }
        Standing::Limit(steps) => format!(in alloc; "limit {steps}"),
    }
}
