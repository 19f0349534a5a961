ghost use Rattle.std.specs.Prelude.{◌≡◌, suc, IfOk};
ghost use Rattle.cc_core.specs.View.{term_of, terms_of, stmt_of, stmts_of, how_of};
ghost use Rattle.cc_code.specs.Layout.{end_call, end_term, end_terms, end_stmt, end_stmts, end_branches};

use cc_core::{Expression, How, Statement};
use std::alloc::AllocError;

/// The number after this one. More than 32 bits can count fit no memory.
pub(crate) fn next(number: u32) -> Result<u32, AllocError>
    ensures { IfOk result (λ next. next ≡ suc number) }
{
    number.checked_add(1).ok_or(AllocError)
}

/// The place behind an expression that begins at a place.
#[cycle(end)]
#[tactic(auto, using(crate::proofs::Views::terms))]
fn end_of_expression(at: u32, e: &Expression) -> Result<u32, AllocError>
    ensures { IfOk result (λ end. end ≡ end_term at (term_of e.now)) }
{
    match e {
        Expression::Push(_) | Expression::This | Expression::Variable(_) | Expression::New(_, _) =>
            next(at),
        Expression::Member(part, _) | Expression::Load(_, part) | Expression::Unary(_, part) => {
            let end = end_of_expression(at, part.get())?;
            next(end)
        }
        Expression::Index(first, _, second)
        | Expression::At(first, second)
        | Expression::Binary(_, first, second) => {
            let middle = end_of_expression(at, first.get())?;
            let end = end_of_expression(middle, second.get())?;
            next(end)
        }
        Expression::And(first, second) | Expression::Or(first, second) => {
            let test = end_of_expression(at, first.get())?;
            let end = end_of_expression(next(test)?, second.get())?;
            next(end)
        }
        Expression::NewObject(_, _, arguments) => {
            let end = end_of_expressions(at, arguments.as_slice())?;
            next(end)
        }
        Expression::Call(how, _, arguments) => {
            let call = end_of_expressions(at, arguments.as_slice())?;
            end_of_call(call, *how)
        }
    }
}

/// The place behind several expressions.
#[cycle(end)]
fn end_of_expressions(at: u32, es: &[Expression]) -> Result<u32, AllocError>
    ensures { IfOk result (λ end. end ≡ end_terms at (terms_of es.now)) }
{
    let mut end = at;
    for e in es {
        end = end_of_expression(end, e)?;
    }
    Ok(end)
}

/// The place behind a call; a remote one has a join behind it.
fn end_of_call(at: u32, how: How) -> Result<u32, AllocError>
    ensures { IfOk result (λ end. end ≡ end_call (how_of how) at) }
{
    match how {
        How::Alone | How::On => next(at),
        How::Remote => {
            let join = next(at)?;
            next(join)
        }
    }
}

/// The place behind an expression and an instruction that takes its value.
pub(crate) fn end_behind(at: u32, e: &Expression) -> Result<u32, AllocError>
    ensures { IfOk result (λ end. end ≡ suc (end_term at (term_of e.now))) }
{
    let end = end_of_expression(at, e)?;
    next(end)
}

/// The place behind several expressions and an instruction that takes their values.
fn end_behind_all(at: u32, es: &[Expression]) -> Result<u32, AllocError>
    ensures { IfOk result (λ end. end ≡ suc (end_terms at (terms_of es.now))) }
{
    let end = end_of_expressions(at, es)?;
    next(end)
}

/// The place behind a statement that begins at a place.
#[cycle(end_stmt)]
#[tactic(auto, using(crate::proofs::Views::statements))]
pub(crate) fn end_of_statement(at: u32, s: &Statement) -> Result<u32, AllocError>
    ensures { IfOk result (λ end. end ≡ end_stmt at (stmt_of s.now)) }
{
    match s {
        Statement::Empty => Ok(at),
        Statement::AtLine(_, body) => end_of_statement(at, body.get()),
        Statement::Make(_, _, _) | Statement::Break | Statement::Continue => next(at),
        Statement::Set(_, _, e) | Statement::Drop(e) | Statement::Return(e) => end_behind(at, e),
        Statement::Build(_, _, es) | Statement::Print(_, es) | Statement::Spawn(_, _, es) =>
            end_behind_all(at, es.as_slice()),
        Statement::Assign(_, place, value) => {
            let middle = end_of_expression(at, place)?;
            end_behind(middle, value)
        }
        Statement::If(test, body) => {
            let then = end_behind(at, test)?;
            end_of_statement(then, body.get())
        }
        Statement::IfElse(test, first, second) => {
            let then = end_behind(at, test)?;
            let jump = end_of_statement(then, first.get())?;
            end_of_statement(next(jump)?, second.get())
        }
        Statement::While(test, body) => {
            let turn = end_behind(at, test)?;
            let jump = end_of_statement(turn, body.get())?;
            next(jump)
        }
        Statement::For(test, step, body) => {
            let turn = end_behind(at, test)?;
            let again = end_of_statement(turn, body.get())?;
            let jump = end_of_statement(again, step.get())?;
            next(jump)
        }
        Statement::Par(branches) => {
            let jump = next(at)?;
            let join = end_of_branches(next(jump)?, branches.as_slice())?;
            next(join)
        }
        Statement::ParFor(_, start, test, _, value, body) => {
            let turn = end_of_header(at, start, test, value)?;
            let end = end_of_statement(turn, body.get())?;
            let join = next(end)?;
            next(join)
        }
        Statement::Block(body) => end_of_statements(at, body.as_slice()),
    }
}

/// The place behind several statements.
#[cycle(end_stmt)]
fn end_of_statements(at: u32, body: &[Statement]) -> Result<u32, AllocError>
    ensures { IfOk result (λ end. end ≡ end_stmts at (stmts_of body.now)) }
{
    let mut end = at;
    for s in body {
        end = end_of_statement(end, s)?;
    }
    Ok(end)
}

/// The place behind the branches of a `par`.
#[cycle(end_stmt)]
fn end_of_branches(at: u32, branches: &[Statement]) -> Result<u32, AllocError>
    ensures { IfOk result (λ end. end ≡ end_branches at (stmts_of branches.now)) }
{
    let mut end = at;
    for branch in branches {
        end = next(end_of_statement(end, branch)?)?;
    }
    Ok(end)
}

/// The place behind the header of a `parfor`: its start, its test, its fork, and its step with the jump back.
fn end_of_header(
    at: u32,
    start: &Expression,
    test: &Expression,
    value: &Expression,
) -> Result<u32, AllocError>
    ensures { IfOk result (λ end. end
        ≡ suc (suc (end_term (suc (suc (suc (end_term (suc (end_term at (term_of start.now))) (term_of test.now))))) (term_of value.now)))) }
{
    let loop_test = end_behind(at, start)?;
    let each = end_behind(loop_test, test)?;
    let variable = next(each)?;
    let jump = end_behind(next(variable)?, value)?;
    next(jump)
}
