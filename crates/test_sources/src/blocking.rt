//! Tests of `cc_blocking`: which functions may block, and atomic ones that do.

use cc_blocking::{Conduct, may_block, note_atomic};
use cc_names::{Broken, FunId, StaticRule};
use cc_scopes::Call;
use ccpp_edge::List;
use std::alloc::{AllocError, Global};
use std::test::Fail;

fn conduct(
    alloc: Global,
    atomic: bool,
    blocks: &[u32],
    callees: &[u32],
) -> Result<Conduct, AllocError> {
    let mut calls = List::new(alloc);
    for callee in callees {
        calls.push(Call {
            function: FunId(*callee),
            line: 7,
        })?;
    }
    Ok(Conduct {
        atomic,
        blocks: List::from_slice(alloc, blocks)?,
        calls,
    })
}

/// The first function calls the second, which reads a sync variable at line 3; the third calls itself; the fourth is atomic and
/// calls the first and the third.
#[test]
fn what_blocks_is_found_through_calls(rt: HostRuntime) -> Result<(), Fail> {
    let alloc = rt.alloc();
    let mut functions = List::new(alloc);
    functions.push(conduct(alloc, false, &[], &[1])?)?;
    functions.push(conduct(alloc, false, &[3], &[])?)?;
    functions.push(conduct(alloc, false, &[], &[2])?)?;
    functions.push(conduct(alloc, true, &[], &[0, 2])?)?;
    let marks = may_block(alloc, functions.as_slice())?;
    assert_eq!(rt; marks.get(0), Some(&true));
    assert_eq!(rt; marks.get(1), Some(&true));
    assert_eq!(rt; marks.get(2), Some(&false));
    assert_eq!(rt; marks.get(3), Some(&true));
    let mut broken = List::new(alloc);
    note_atomic(&mut broken, functions.as_slice(), marks.as_slice())?;
    let rule = Broken::Rule {
        rule: StaticRule::AtomicBody,
        line: 7,
    };
    assert_eq!(rt; broken.len(), 1);
    assert_eq!(rt; broken.get(0), Some(&rule));
    Ok(())
}
