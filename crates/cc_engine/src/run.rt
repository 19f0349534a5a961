ghost use Rattle.std.specs.Prelude.{◌≡◌, ◌≤◌, length, IfOk};
ghost use Rattle.cc_core.specs.Steps.{RunsTo, IsAtRest};
ghost use Rattle.cc_core.specs.View.{program_of};
ghost use Rattle.cc_engine.specs.Runs.{IsUnheld};
ghost use Rattle.cc_types.specs.Program.{core_program, main_params};

use crate::execution::Execution;
use crate::outcome::Outcome;
use cc_types::Checked;
use cc_walk::Walk;
use ccpp_edge::Gate;
use std::alloc::{AllocError, Global};
use std::thread::Threads;

/// Runs a program from as many ints as `main` has parameters, for at most `limit` steps. What comes out is the output and the standing of
/// a run of the source definition. With the seed 0 the threads that can move have their turns one after another; another seed draws whose
/// turn it is, and for how many steps. The same arguments give the same outcome.
///
/// Where such a run rests, no thread is inside an atomic function of an object: so no object is held, and no thread waits for one (`unheld`).
///
/// The runtime and the gate are for processors whose turns are made by threads of the machine; today all turns are made by the caller.
pub fn run_program<R: Threads + Sync, G: Gate>(
    _rt: &R,
    alloc: Global,
    checked: &Checked,
    args: &[i64],
    seed: u64,
    limit: u64,
    _gate: &G,
) -> Result<Outcome, AllocError>
    requires count { length args.now ≡ main_params checked.now.items }
    requires some { 1 ≤ limit }
    requires most { limit ≤ 1000000000 }
    ensures run { IfOk result (λ outcome. RunsTo (program_of (core_program checked.now)) args.now limit outcome.output outcome.ended) }
    ensures unheld { let p = program_of (core_program checked.now) in IfOk result (λ outcome.
        (r : RunsTo p args.now limit outcome.output outcome.ended) → IsAtRest p r.last → IsUnheld p r.last) }
{
    let _well_formed = checked.program();
    let walk = Walk::start(alloc, checked, args)?;
    let mut execution = Execution::new(alloc, walk, seed)?;
    let ended = execution.to_end(limit)?;
    let output = execution.into_output();
    Ok(Outcome { output, ended })
}
