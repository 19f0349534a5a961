ghost use Rattle.std.specs.Prelude.{◌≡◌, IfOk, length};
ghost use Rattle.cc_core.specs.View.{program_of};
ghost use Rattle.cc_types.specs.Program.{core_program, main_params};
ghost use Rattle.trace_check.specs.Verdicts.{EndsOnce, IsVerdict};
ghost use Rattle.trace_check.specs.declared.verdict.Verdict.{Verdict};

use crate::replay::Replay;
use crate::verdict::Verdict;
use cc_explains::Why;
use cc_types::Checked;
use effect_journal::Entry;
use std::alloc::{AllocError, Global};

/// Whether a run of a program, from as many ints as `main` has parameters, explains the entries of a journal. It makes the steps that the
/// entries name, one after another: a `run` entry of K steps takes K steps at most, and no step takes longer where there are more threads.
///
/// An end stands once and last, as in what `read_journal` answers. Nothing is said of an entry behind the first that no run explains.
pub fn trace(
    alloc: Global,
    checked: &Checked,
    args: &[i64],
    entries: &[Entry],
) -> Result<Verdict, AllocError>
    requires count { length args.now ≡ main_params checked.now.items }
    requires ended { EndsOnce entries.now }
    ensures answers { IfOk result (IsVerdict (program_of (core_program checked.now)) args.now entries.now) }
    // What is to be answered, is answered, unless memory runs out.
    ensures exact { (verdict : Verdict) → IsVerdict (program_of (core_program checked.now)) args.now entries.now verdict
        → IfOk result (λ found. found ≡ verdict) }
{
    verdict(alloc, checked, args, entries)
}

fn verdict(
    alloc: Global,
    checked: &Checked,
    args: &[i64],
    entries: &[Entry],
) -> Result<Verdict, AllocError>
    requires count { length args.now ≡ main_params checked.now.items }
    requires ended { EndsOnce entries.now }
    ensures { IfOk result (IsVerdict (program_of (core_program checked.now)) args.now entries.now) }
{
    let [before @ .., end] = entries else {
        unreachable!()
    };
    let mut replay = Replay::start(alloc, checked, args)?;
    for (place, entry) in before.iter().enumerate() {
        if let Some(why) = replay.entry(entry)? {
            let entry = place as u64;
            return Ok(Verdict::No { entry, why });
        }
    }
    let Entry::End { standing, by } = end else {
        unreachable!()
    };
    if replay.ends(*standing, *by)? {
        return Ok(Verdict::Yes(*standing));
    }
    let entry = before.len() as u64;
    Ok(Verdict::No {
        entry,
        why: Why::OtherEnd,
    })
}
