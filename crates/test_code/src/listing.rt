//! Tests of `code_listing`: the parts of a print.

use crate::making::closed;
use cc_core::{Constant, PrintPart};
use ccpp_edge::{Bytes, List};
use code_listing::listing;
use stack_code::{CodeFault, Instr};
use std::alloc::{AllocError, Global};
use std::test::Fail;

/// The listing of a function of these instructions, and nothing where they are no valid code.
fn listed(alloc: Global, instrs: Vec<Instr>) -> Result<Bytes, AllocError> {
    let mut text = Bytes::new(alloc);
    match closed(alloc, "C.show", 0, instrs) {
        Ok(code) => listing(alloc, &code, &mut text)?,
        Err(CodeFault::Memory) => return Err(AllocError),
        Err(_) => {}
    }
    Ok(text)
}

#[test]
fn texts_are_escaped(rt: HostRuntime) -> Result<(), Fail> {
    let alloc = rt.alloc();
    let text = Bytes::from_slice(alloc, b"a\tb\\\"\n")?;
    let parts = vec![in alloc; PrintPart::Text(text), PrintPart::Number, PrintPart::Endl]?;
    let instrs = vec![in alloc;
        Instr::Push(Constant::Int(-7)),
        Instr::Print(List::from_vec(parts)),
        Instr::Push(Constant::Void),
        Instr::Ret,
    ]?;
    let lines =
        b"function C.show\n0 push -7\n1 print \"a\\tb\\\\\\\"\\n\" int endl\n2 push void\n3 ret\n";
    assert_eq!(rt; listed(alloc, instrs)?.as_slice(), lines.as_slice());
    Ok(())
}
