ghost use Rattle.std.specs.Prelude.{◌≡◌, IfOk, OnOk};
ghost use Rattle.cc_core.specs.View.{term_of, stmt_of};
ghost use Rattle.stack_code.specs.View.{code_of};
ghost use Rattle.cc_lower.specs.Emitted.{here, emitted_term, emitted_while_test, emitted_for_test, emitted_break, emitted_continue, for_again, for_out, while_out, HasFunction};
ghost use Rattle.cc_lower.specs.Exits.{loop_of};

use crate::ends::{end_of_statement, next};
use crate::expressions::{expression, put};
use cc_core::{Expression, Statement};
use stack_code::{CodeMaker, Instr};
use std::alloc::AllocError;

/// Where the body of a loop is left to: by `break`, and by `continue`.
#[derive(Clone, Copy)]
pub(crate) struct Exits {
    pub(crate) out: u32,
    pub(crate) again: u32,
}

/// Appends the jump of a `break` in the loop with these exits. Outside of loops there is none.
pub(crate) fn put_break(
    maker: &mut CodeMaker,
    line: u32,
    exits: Option<Exits>,
) -> Result<(), AllocError>
    requires { HasFunction (code_of maker.old) }
    ensures begun { HasFunction (code_of maker.new) }
    ensures lowered { OnOk result (code_of maker.new ≡ emitted_break (code_of maker.old) line (loop_of exits)) }
{
    match exits {
        Some(exits) => put(maker, line, Instr::Jump(exits.out)),
        None => Ok(()),
    }
}

/// Appends the jump of a `continue` in the loop with these exits. Outside of loops there is none.
pub(crate) fn put_continue(
    maker: &mut CodeMaker,
    line: u32,
    exits: Option<Exits>,
) -> Result<(), AllocError>
    requires { HasFunction (code_of maker.old) }
    ensures begun { HasFunction (code_of maker.new) }
    ensures lowered { OnOk result (code_of maker.new ≡ emitted_continue (code_of maker.old) line (loop_of exits)) }
{
    match exits {
        Some(exits) => put(maker, line, Instr::Jump(exits.again)),
        None => Ok(()),
    }
}

/// Appends the test of a `while`, and gives the place behind the loop.
pub(crate) fn put_while_test(
    maker: &mut CodeMaker,
    line: u32,
    test: &Expression,
    body: &Statement,
) -> Result<u32, AllocError>
    requires { HasFunction (code_of maker.old) }
    ensures begun { HasFunction (code_of maker.new) }
    ensures out { IfOk result (λ out. out ≡ while_out (here (emitted_term (code_of maker.old) line (term_of test.now))) (stmt_of body.now)) }
    ensures lowered { OnOk result (code_of maker.new ≡ emitted_while_test (code_of maker.old) line (term_of test.now) (stmt_of body.now)) }
{
    expression(maker, line, test)?;
    let turn = next(maker.len())?;
    let jump = end_of_statement(turn, body)?;
    let out = next(jump)?;
    put(maker, line, Instr::Test(out))?;
    Ok(out)
}

/// Appends the test of a `for`, and gives where its body is left to.
pub(crate) fn put_for_test(
    maker: &mut CodeMaker,
    line: u32,
    test: &Expression,
    step: &Statement,
    body: &Statement,
) -> Result<Exits, AllocError>
    requires { HasFunction (code_of maker.old) }
    ensures begun { HasFunction (code_of maker.new) }
    ensures out { IfOk result (λ exits. exits.out
        ≡ for_out (here (emitted_term (code_of maker.old) line (term_of test.now))) (stmt_of step.now) (stmt_of body.now)) }
    ensures again { IfOk result (λ exits. exits.again
        ≡ for_again (here (emitted_term (code_of maker.old) line (term_of test.now))) (stmt_of body.now)) }
    ensures lowered { OnOk result (code_of maker.new
        ≡ emitted_for_test (code_of maker.old) line (term_of test.now) (stmt_of step.now) (stmt_of body.now)) }
{
    expression(maker, line, test)?;
    let turn = next(maker.len())?;
    let again = end_of_statement(turn, body)?;
    let jump = end_of_statement(again, step)?;
    let out = next(jump)?;
    put(maker, line, Instr::Test(out))?;
    Ok(Exits { out, again })
}
