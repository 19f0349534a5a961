ghost use Rattle.std.specs.Prelude.{◌≡◌, ◌+◌, replicate, IfOk, OnOk};
ghost use Rattle.cc_core.specs.Core.{If, While, Par, ParFor};
ghost use Rattle.cc_core.specs.View.{term_of, terms_of, stmt_of, stmts_of};
ghost use Rattle.cc_code.specs.Code.{TestI, ForkI};
ghost use Rattle.stack_code.specs.View.{code_of, instr_of};
ghost use Rattle.cc_code.specs.Layout.{NoLoop};
ghost use Rattle.cc_lower.specs.Exits.{loop_of};
ghost use Rattle.cc_lower.specs.Emitted.{put, here, count, emitted_term, emitted_terms, emitted_stmt, emitted_stmts, emitted_branches, emitted_start, emitted_step, emitted_header, HasFunction};

use crate::copies::copy_parts;
use crate::ends::next;
use crate::expressions::{aim_here, expression, expressions, put, put_open, spawn, store};
use crate::loops::{Exits, put_break, put_continue, put_for_test, put_while_test};
use cc_core::{Expression, Statement};
use cc_ops::Kind;
use ccpp_edge::List;
use stack_code::{CodeMaker, Instr};
use std::alloc::{AllocError, Global};

/// Appends the instructions of an expression, and one that takes its value.
fn put_behind(
    maker: &mut CodeMaker,
    line: u32,
    e: &Expression,
    instr: Instr,
) -> Result<(), AllocError>
    requires { HasFunction (code_of maker.old) }
    ensures begun { HasFunction (code_of maker.new) }
    ensures lowered { OnOk result (code_of maker.new ≡ put (emitted_term (code_of maker.old) line (term_of e.now)) line (instr_of instr)) }
{
    expression(maker, line, e)?;
    put(maker, line, instr)
}

/// Appends the instructions of several expressions, and one that takes their values.
fn put_behind_all(
    maker: &mut CodeMaker,
    line: u32,
    es: &[Expression],
    instr: Instr,
) -> Result<(), AllocError>
    requires { HasFunction (code_of maker.old) }
    ensures begun { HasFunction (code_of maker.new) }
    ensures lowered { OnOk result (code_of maker.new ≡ put (emitted_terms (code_of maker.old) line (terms_of es.now)) line (instr_of instr)) }
{
    expressions(maker, line, es)?;
    put(maker, line, instr)
}

/// Appends the instructions of a place, of a value, and one that takes both.
fn put_behind_both(
    maker: &mut CodeMaker,
    line: u32,
    first: &Expression,
    second: &Expression,
    instr: Instr,
) -> Result<(), AllocError>
    requires { HasFunction (code_of maker.old) }
    ensures begun { HasFunction (code_of maker.new) }
    ensures lowered { OnOk result (code_of maker.new
        ≡ put (emitted_term (emitted_term (code_of maker.old) line (term_of first.now)) line (term_of second.now)) line (instr_of instr)) }
{
    expression(maker, line, first)?;
    expression(maker, line, second)?;
    put(maker, line, instr)
}

/// Appends a test whose target is filled in later, and gives its place.
fn put_test(maker: &mut CodeMaker, line: u32, test: &Expression) -> Result<u32, AllocError>
    requires { HasFunction (code_of maker.old) }
    ensures begun { HasFunction (code_of maker.new) }
    ensures place { IfOk result (λ at. at ≡ here (emitted_term (code_of maker.old) line (term_of test.now))) }
    ensures lowered { OnOk result (code_of maker.new ≡ put (emitted_term (code_of maker.old) line (term_of test.now)) line (TestI 0)) }
{
    expression(maker, line, test)?;
    put_open(maker, line, Instr::Test(0))
}

/// Appends the instructions of a statement in the loop with these exits, or in none.
#[cycle(statement)]
#[tactic(auto, using(crate::proofs::Views::statements))]
pub(crate) fn statement(
    alloc: Global,
    maker: &mut CodeMaker,
    line: u32,
    exits: Option<Exits>,
    s: &Statement,
) -> Result<(), AllocError>
    requires { HasFunction (code_of maker.old) }
    ensures begun { HasFunction (code_of maker.new) }
    ensures lowered { OnOk result (code_of maker.new ≡ emitted_stmt (code_of maker.old) line (loop_of exits) (stmt_of s.now)) }
{
    match s {
        Statement::Empty => Ok(()),
        Statement::AtLine(line, body) => statement(alloc, maker, *line, exits, body.get()),
        Statement::Make(var, kind, count) => {
            let instr = Instr::Make {
                var: *var,
                kind: *kind,
                count: *count,
            };
            put(maker, line, instr)
        }
        Statement::Set(var, kind, e) => {
            let instr = Instr::Set {
                var: *var,
                kind: *kind,
            };
            put_behind(maker, line, e, instr)
        }
        Statement::Build(var, class, arguments) => {
            let instr = Instr::Build {
                var: *var,
                class: *class,
            };
            put_behind_all(maker, line, arguments.as_slice(), instr)
        }
        Statement::Assign(remote, place, value) => {
            put_behind_both(maker, line, place, value, store(*remote))
        }
        Statement::Drop(e) => put_behind(maker, line, e, Instr::Drop),
        Statement::Print(parts, es) => {
            let parts = copy_parts(alloc, parts.as_slice())?;
            put_behind_all(maker, line, es.as_slice(), Instr::Print(parts))
        }
        Statement::If(test, body) => if_then(alloc, maker, line, exits, body.get(), test),
        Statement::IfElse(test, first, second) => {
            let test = put_test(maker, line, test)?;
            statement(alloc, maker, line, exits, first.get())?;
            let jump = put_open(maker, line, Instr::Jump(0))?;
            aim_here(maker, test);
            statement(alloc, maker, line, exits, second.get())?;
            aim_here(maker, jump);
            Ok(())
        }
        Statement::While(test, body) => while_loop(alloc, maker, line, body.get(), test),
        Statement::For(test, step, body) => {
            let start = maker.len();
            let exits = put_for_test(maker, line, test, step.get(), body.get())?;
            statement(alloc, maker, line, Some(exits), body.get())?;
            statement(alloc, maker, line, None, step.get())?;
            put(maker, line, Instr::Jump(start))
        }
        Statement::Break => put_break(maker, line, exits),
        Statement::Continue => put_continue(maker, line, exits),
        Statement::Par(branches) => parallel(alloc, maker, line, branches.as_slice()),
        Statement::ParFor(var, start, test, step_line, value, body) => {
            let header = Header {
                var: *var,
                start,
                test,
                line: *step_line,
                value,
            };
            parallel_for(alloc, maker, line, body.get(), header)
        }
        Statement::Spawn(how, function, arguments) => {
            put_behind_all(maker, line, arguments.as_slice(), spawn(*how, *function))
        }
        Statement::Return(e) => put_behind(maker, line, e, Instr::Ret),
        Statement::Block(body) => statements(alloc, maker, line, exits, body.as_slice()),
    }
}

/// Appends the instructions of several statements in the loop with these exits, or in none.
#[cycle(statement)]
pub(crate) fn statements(
    alloc: Global,
    maker: &mut CodeMaker,
    line: u32,
    exits: Option<Exits>,
    body: &[Statement],
) -> Result<(), AllocError>
    requires { HasFunction (code_of maker.old) }
    ensures begun { HasFunction (code_of maker.new) }
    ensures lowered { OnOk result (code_of maker.new ≡ emitted_stmts (code_of maker.old) line (loop_of exits) (stmts_of body.now)) }
{
    for s in body {
        statement(alloc, maker, line, exits, s)?;
    }
    Ok(())
}

#[cycle(statement)]
fn if_then(
    alloc: Global,
    maker: &mut CodeMaker,
    line: u32,
    exits: Option<Exits>,
    body: &Statement,
    test: &Expression,
) -> Result<(), AllocError>
    requires { HasFunction (code_of maker.old) }
    ensures begun { HasFunction (code_of maker.new) }
    ensures lowered { OnOk result (code_of maker.new ≡ emitted_stmt (code_of maker.old) line (loop_of exits) (If (term_of test.now) (stmt_of body.now))) }
{
    let test = put_test(maker, line, test)?;
    statement(alloc, maker, line, exits, body)?;
    aim_here(maker, test);
    Ok(())
}

#[cycle(statement)]
fn while_loop(
    alloc: Global,
    maker: &mut CodeMaker,
    line: u32,
    body: &Statement,
    test: &Expression,
) -> Result<(), AllocError>
    requires { HasFunction (code_of maker.old) }
    ensures begun { HasFunction (code_of maker.new) }
    ensures lowered { OnOk result (code_of maker.new ≡ emitted_stmt (code_of maker.old) line NoLoop (While (term_of test.now) (stmt_of body.now))) }
{
    let again = maker.len();
    let out = put_while_test(maker, line, test, body)?;
    let exits = Exits { out, again };
    statement(alloc, maker, line, Some(exits), body)?;
    put(maker, line, Instr::Jump(again))
}

#[cycle(statement)]
fn parallel(
    alloc: Global,
    maker: &mut CodeMaker,
    line: u32,
    branches: &[Statement],
) -> Result<(), AllocError>
    requires { HasFunction (code_of maker.old) }
    ensures begun { HasFunction (code_of maker.new) }
    ensures lowered { OnOk result (code_of maker.new ≡ emitted_stmt (code_of maker.old) line NoLoop (Par (stmts_of branches.now))) }
{
    let fork = put_fork(alloc, maker, line, branches)?;
    let jump = put_open(maker, line, Instr::Jump(0))?;
    put_branches(alloc, maker, line, branches, fork)?;
    aim_here(maker, jump);
    put(maker, line, Instr::Join)
}

/// Appends a fork with a target for each branch, which are filled in later, and gives its place.
#[tactic(auto, using(crate::proofs::Views::count_branches))]
fn put_fork(
    alloc: Global,
    maker: &mut CodeMaker,
    line: u32,
    branches: &[Statement],
) -> Result<u32, AllocError>
    requires { HasFunction (code_of maker.old) }
    ensures begun { HasFunction (code_of maker.new) }
    ensures place { IfOk result (λ at. at ≡ here (code_of maker.old)) }
    ensures put { OnOk result (code_of maker.new ≡ put (code_of maker.old) line (ForkI (replicate (count (stmts_of branches.now)) 0))) }
{
    let targets = List::from_vec(vec![in alloc; 0u32; branches.len()]?);
    put_open(maker, line, Instr::Fork(targets))
}

/// Appends the branches of a fork, and fills in its targets.
#[cycle(statement)]
fn put_branches(
    alloc: Global,
    maker: &mut CodeMaker,
    line: u32,
    branches: &[Statement],
    fork: u32,
) -> Result<(), AllocError>
    requires { HasFunction (code_of maker.old) }
    ensures begun { HasFunction (code_of maker.new) }
    ensures lowered { OnOk result (code_of maker.new ≡ emitted_branches (code_of maker.old) line fork 0 (stmts_of branches.now)) }
{
    let mut which = 0;
    for branch in branches {
        let here = maker.len();
        maker.aim(fork, which, here);
        statement(alloc, maker, 0, None, branch)?;
        put(maker, line, Instr::End)?;
        which = next(which)?;
    }
    Ok(())
}

/// What a `parfor` has but its body.
#[derive(Clone, Copy)]
pub(crate) struct Header<'a> {
    var: u32,
    start: &'a Expression,
    test: &'a Expression,
    line: u32,
    value: &'a Expression,
}

/// Appends the header of a `parfor`, and gives the place of its test, whose target is filled in later.
fn put_header(maker: &mut CodeMaker, line: u32, header: Header) -> Result<u32, AllocError>
    requires { HasFunction (code_of maker.old) }
    ensures begun { HasFunction (code_of maker.new) }
    ensures place { IfOk result (λ at. at
        ≡ here (emitted_term (emitted_start (code_of maker.old) line header.entry.var (term_of header.entry.start.now)) line (term_of header.entry.test.now))) }
    ensures lowered { OnOk result (code_of maker.new ≡ emitted_header (code_of maker.old) line header.entry.var (term_of header.entry.start.now) (term_of header.entry.test.now) header.entry.line (term_of header.entry.value.now)) }
{
    let set = Instr::Set {
        var: header.var,
        kind: Kind::Int,
    };
    put_behind(maker, line, header.start, set)?;
    let start = maker.len();
    let test = put_test(maker, line, header.test)?;
    put_step(maker, line, header, start)?;
    Ok(test)
}

/// Appends the fork of one turn of a `parfor`, its step, and the jump to its test.
fn put_step(maker: &mut CodeMaker, line: u32, header: Header, start: u32) -> Result<(), AllocError>
    requires { HasFunction (code_of maker.old) }
    ensures begun { HasFunction (code_of maker.new) }
    ensures lowered { OnOk result (code_of maker.new ≡ emitted_step (code_of maker.old) line header.entry.var header.entry.line (term_of header.entry.value.now) start) }
{
    let each = Instr::Each {
        target: 0,
        var: header.var,
    };
    let each = put_open(maker, line, each)?;
    put(maker, header.line, Instr::Var(header.var))?;
    put_behind(maker, header.line, header.value, Instr::Store)?;
    put(maker, line, Instr::Jump(start))?;
    aim_here(maker, each);
    Ok(())
}

#[cycle(statement)]
fn parallel_for(
    alloc: Global,
    maker: &mut CodeMaker,
    line: u32,
    body: &Statement,
    header: Header,
) -> Result<(), AllocError>
    requires { HasFunction (code_of maker.old) }
    ensures begun { HasFunction (code_of maker.new) }
    ensures lowered { OnOk result (code_of maker.new ≡ emitted_stmt (code_of maker.old) line NoLoop
        (ParFor header.entry.var (term_of header.entry.start.now) (term_of header.entry.test.now) header.entry.line (term_of header.entry.value.now) (stmt_of body.now))) }
{
    let test = put_header(maker, line, header)?;
    statement(alloc, maker, 0, None, body)?;
    put(maker, line, Instr::End)?;
    aim_here(maker, test);
    put(maker, line, Instr::Join)
}
