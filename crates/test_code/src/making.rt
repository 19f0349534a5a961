//! What the tests make code of: the shape of a function, and the code of one function.

ghost use Rattle.std.specs.Prelude.{IfOk};
ghost use Rattle.stack_code.specs.Kept.{IsFunShape};

use cc_ops::FunShape;
use ccpp_edge::{List, Text};
use stack_code::{Code, CodeFault, CodeMaker, Instr};
use std::alloc::{AllocError, Global};

/// A function without parameters, in the first line.
pub(crate) fn shape(alloc: Global, name: &str, vars: u32) -> Result<FunShape, AllocError>
    ensures { IfOk result IsFunShape }
{
    Ok(FunShape {
        name: Text::of(alloc, name)?,
        line: 1,
        params: List::new(alloc),
        vars,
        atomic: false,
    })
}

/// What `close` says of such a function alone, with these instructions.
pub(crate) fn closed(
    alloc: Global,
    name: &str,
    vars: u32,
    instrs: Vec<Instr>,
) -> Result<Code, CodeFault> {
    let mut maker = CodeMaker::new(alloc);
    maker.function(shape(alloc, name, vars)?)?;
    for instr in instrs {
        maker.push(instr, 1)?;
    }
    maker.close(alloc)
}
