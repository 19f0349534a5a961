ghost use Rattle.std.specs.Prelude.{◌≡◌, IfOk};
ghost use Rattle.cc_core.specs.declared.expression.Expression.{out-Expression};
ghost use Rattle.cc_scopes.specs.Elab.{Gives};
ghost use Rattle.cc_scopes.specs.Scope.{context};
ghost use Rattle.cc_elaboration.specs.Simple as spec;

use cc_core::{Constant, Expression, PrintPart, Statement};
use cc_names::StaticRule;
use cc_scopes::{Scope, ShareRule, State, Ty, Typed};
use cc_tree::{Expr, PrintItem};
use cc_typing::{expr, fitting, operand};
use ccpp_edge::{Bytes, List};
use std::alloc::{AllocError, Global};

/// What a `cout` statement writes.
#[derive(Drop)]
pub(crate) struct Printed {
    /// Its items.
    pub(crate) parts: List<PrintPart>,
    /// The values of its ints, in order.
    pub(crate) values: List<Expression>,
}

/// What stands for a value that breaks a rule.
pub(crate) fn no_value() -> Expression
    ensures { result ≡ spec.no_value }
{
    Expression::Push(Constant::Null)
}

fn term_or_none(term: Option<Expression>) -> Expression
    ensures { result ≡ spec.term_or_none term }
{
    match term {
        None => no_value(),
        Some(term) => term,
    }
}

/// An int, as a condition or a printed value.
#[tactic(auto, unfolding(crate::specs::Simple::int_value))]
pub(crate) fn int_value(
    alloc: Global,
    scope: &Scope<'_>,
    state: &mut State,
    e: &Expr,
) -> Result<Expression, AllocError>
    ensures { Gives (spec.int_value (context scope.now) e.now state.old) result state.new }
{
    let term = fitting(alloc, scope, state, Ty::Int, e)?;
    Ok(term_or_none(term))
}

fn dropped(typed: Typed) -> Statement
    ensures { result ≡ spec.dropped typed }
{
    match typed {
        Typed::Value(value) => Statement::Drop(value.term),
        _ => Statement::Empty,
    }
}

/// A call whose value is dropped.
#[tactic(auto, unfolding(crate::specs::Simple::call))]
pub(crate) fn call(
    alloc: Global,
    scope: &Scope<'_>,
    state: &mut State,
    e: &Expr,
) -> Result<Statement, AllocError>
    ensures { Gives (spec.call (context scope.now) e.now state.old) result state.new }
{
    let typed = expr(alloc, scope, state, e)?;
    Ok(dropped(typed))
}

fn spawned_call(call: Expression) -> Statement
    ensures { result ≡ spec.spawned_by (out-Expression call) }
{
    match call {
        Expression::Call(how, function, terms) => Statement::Spawn(how, function, terms),
        _ => Statement::Empty,
    }
}

fn spawned(typed: Typed) -> Statement
    ensures { result ≡ spec.spawned typed }
{
    match typed {
        Typed::Value(value) => spawned_call(value.term),
        _ => Statement::Empty,
    }
}

/// A call in a thread of its own.
#[tactic(auto, unfolding(crate::specs::Simple::spawn))]
pub(crate) fn spawn(
    alloc: Global,
    scope: &Scope<'_>,
    state: &mut State,
    e: &Expr,
) -> Result<Statement, AllocError>
    ensures { Gives (spec.spawn (context scope.now) e.now state.old) result state.new }
{
    state.block(scope.line)?;
    let typed = expr(alloc, scope, state, e)?;
    Ok(spawned(typed))
}

impl Printed {
    fn nothing(alloc: Global) -> Printed
        ensures { result ≡ spec.nothing_printed }
    {
        Printed {
            parts: List::new(alloc),
            values: List::new(alloc),
        }
    }

    fn with_number(self, value: Expression) -> Result<Printed, AllocError>
        ensures { IfOk result (λ p. p ≡ spec.with_number self value) }
    {
        let Printed {
            mut parts,
            mut values,
        } = self;
        parts.push(PrintPart::Number)?;
        values.push(value)?;
        Ok(Printed { parts, values })
    }

    fn with_part(self, part: PrintPart) -> Result<Printed, AllocError>
        ensures { IfOk result (λ p. p ≡ spec.with_part self part) }
    {
        let Printed { mut parts, values } = self;
        parts.push(part)?;
        Ok(Printed { parts, values })
    }
}

#[tactic(auto, unfolding(crate::specs::Simple::printed_value))]
fn printed_value(
    alloc: Global,
    scope: &Scope<'_>,
    state: &mut State,
    printed: Printed,
    e: &Expr,
) -> Result<Printed, AllocError>
    ensures { Gives (spec.printed_value (context scope.now) printed e.now state.old) result state.new }
{
    let value = int_value(alloc, scope, state, e)?;
    printed.with_number(value)
}

fn text_part(alloc: Global, bytes: &Bytes) -> Result<PrintPart, AllocError>
    ensures { IfOk result (λ p. p ≡ PrintPart.Text bytes.now) }
{
    Ok(PrintPart::Text(List::from_slice(alloc, bytes.as_slice())?))
}

fn printed_text(alloc: Global, printed: Printed, bytes: &Bytes) -> Result<Printed, AllocError>
    ensures { IfOk result (λ p. p ≡ spec.with_part printed (PrintPart.Text bytes.now)) }
{
    let part = text_part(alloc, bytes)?;
    printed.with_part(part)
}

fn printed_item(
    alloc: Global,
    scope: &Scope<'_>,
    state: &mut State,
    printed: Printed,
    item: &PrintItem,
) -> Result<Printed, AllocError>
    ensures { Gives (spec.printed_item (context scope.now) printed item.now state.old) result state.new }
{
    match item {
        PrintItem::Value(e) => printed_value(alloc, scope, state, printed, e),
        PrintItem::Str(bytes) => printed_text(alloc, printed, bytes),
        PrintItem::Endl => printed.with_part(PrintPart::Endl),
    }
}

fn read_items(
    alloc: Global,
    scope: &Scope<'_>,
    state: &mut State,
    mut items: &[PrintItem],
) -> Result<Printed, AllocError>
    ensures { Gives (spec.printed_from (context scope.now) spec.nothing_printed items.entry.now state.old) result state.new }
{
    let mut done = Printed::nothing(alloc);
    while let [item, rest @ ..] = items {
        done = printed_item(alloc, scope, state, done, item)?;
        items = rest;
    }
    Ok(done)
}

fn share_print(scope: &Scope<'_>, state: &mut State, alone: bool) -> Result<(), AllocError>
    ensures { Gives (spec.share_print alone (context scope.now) state.old) result state.new }
{
    if alone {
        return Ok(());
    }
    state.share(ShareRule::PrintInBranch, scope.line)
}

/// A `cout` statement.
#[tactic(auto, unfolding(crate::specs::Simple::print))]
pub(crate) fn print(
    alloc: Global,
    scope: &Scope<'_>,
    state: &mut State,
    items: &[PrintItem],
) -> Result<Statement, AllocError>
    ensures { Gives (spec.print (context scope.now) items.now state.old) result state.new }
{
    share_print(scope, state, scope.in_main && !scope.in_branch)?;
    let printed = read_items(alloc, scope, state, items)?;
    Ok(Statement::Print(printed.parts, printed.values))
}

/// Adds a rule, where it is broken.
pub fn note_if(
    scope: &Scope<'_>,
    state: &mut State,
    is_broken: bool,
    rule: StaticRule,
) -> Result<(), AllocError>
    ensures { Gives (spec.note_if is_broken (context scope.now) rule state.old) result state.new }
{
    if is_broken {
        return scope.note_rule(state, rule);
    }
    Ok(())
}

fn is_void(ty: Ty) -> bool
    ensures { result ≡ spec.is_void ty }
{
    match ty {
        Ty::Void => true,
        _ => false,
    }
}

#[tactic(auto, unfolding(crate::specs::Simple::return_value))]
fn return_value(
    alloc: Global,
    scope: &Scope<'_>,
    state: &mut State,
    e: &Expr,
) -> Result<Statement, AllocError>
    ensures { Gives (spec.return_value (context scope.now) e.now state.old) result state.new }
{
    let value = fitting(alloc, scope, state, scope.result, e)?;
    Ok(Statement::Return(term_or_none(value)))
}

#[tactic(auto, unfolding(crate::specs::Simple::return_from_void))]
fn return_from_void(
    alloc: Global,
    scope: &Scope<'_>,
    state: &mut State,
    e: &Expr,
) -> Result<Statement, AllocError>
    ensures { Gives (spec.return_from_void (context scope.now) e.now state.old) result state.new }
{
    operand(alloc, scope, state, e)?;
    scope.note_rule(state, StaticRule::ReturnValue)?;
    Ok(Statement::Empty)
}

fn return_some(
    alloc: Global,
    scope: &Scope<'_>,
    state: &mut State,
    e: &Expr,
) -> Result<Statement, AllocError>
    ensures { Gives (spec.return_some (spec.is_void (context scope.now).result) (context scope.now) e.now state.old) result state.new }
{
    if is_void(scope.result) {
        return return_from_void(alloc, scope, state, e);
    }
    return_value(alloc, scope, state, e)
}

fn return_nothing(scope: &Scope<'_>, state: &mut State) -> Result<Statement, AllocError>
    ensures { Gives (spec.return_nothing (context scope.now) state.old) result state.new }
{
    note_if(
        scope,
        state,
        !is_void(scope.result),
        StaticRule::ReturnValue,
    )?;
    Ok(Statement::Return(Expression::Push(Constant::Void)))
}

fn returned(
    alloc: Global,
    scope: &Scope<'_>,
    state: &mut State,
    e: &Option<Expr>,
) -> Result<Statement, AllocError>
    ensures { Gives (spec.returned (context scope.now) e.now state.old) result state.new }
{
    match e {
        None => return_nothing(scope, state),
        Some(e) => return_some(alloc, scope, state, e),
    }
}

/// A `return`.
#[tactic(auto, unfolding(crate::specs::Simple::give))]
pub(crate) fn give(
    alloc: Global,
    scope: &Scope<'_>,
    state: &mut State,
    e: &Option<Expr>,
) -> Result<Statement, AllocError>
    ensures { Gives (spec.give (context scope.now) e.now state.old) result state.new }
{
    note_if(scope, state, scope.in_branch, StaticRule::ReturnInBranch)?;
    returned(alloc, scope, state, e)
}

/// A `break`.
#[tactic(auto, unfolding(crate::specs::Simple::jump))]
pub(crate) fn exit_loop(scope: &Scope<'_>, state: &mut State) -> Result<Statement, AllocError>
    ensures { Gives (spec.jump (context scope.now) Statement.Break state.old) result state.new }
{
    note_if(scope, state, !scope.in_loop, StaticRule::LoopOutside)?;
    Ok(Statement::Break)
}

/// A `continue`.
#[tactic(auto, unfolding(crate::specs::Simple::jump))]
pub(crate) fn next_turn(scope: &Scope<'_>, state: &mut State) -> Result<Statement, AllocError>
    ensures { Gives (spec.jump (context scope.now) Statement.Continue state.old) result state.new }
{
    note_if(scope, state, !scope.in_loop, StaticRule::LoopOutside)?;
    Ok(Statement::Continue)
}
