ghost use Rattle.std.specs.Prelude.{◌≡◌};
ghost use Rattle.cc_scopes.specs.Elab.{Gives};
ghost use Rattle.cc_typing.specs.Expr as exprs;
ghost use Rattle.cc_scopes.specs.Scope.{context};
ghost use Rattle.cc_typing.specs.Whole as spec;

use crate::calls::Args;
use crate::elaborator::{Elaborator, expr_to};
use cc_core::Expression;
use cc_names::StaticRule;
use cc_scopes::{Operand, Place, Root, Scope, ShareRule, State, Ty, Typed};
use cc_tree::Expr;
use std::alloc::{AllocError, Global};

/// How many levels of a tree are read. The parser gives no tree this high: its levels of nesting are 64, and each is at most about
/// ten nodes high.
const MAX_DEPTH: usize = 1000;

/// What an expression is.
pub fn expr(
    alloc: Global,
    scope: &Scope<'_>,
    state: &mut State,
    e: &Expr,
) -> Result<Typed, AllocError>
    ensures { Gives (exprs.expr (context scope.now) e.now state.old) result state.new }
{
    expr_to(alloc, MAX_DEPTH, scope, state, e)
}

/// An expression as a value, and none where a rule is broken.
pub fn operand(
    alloc: Global,
    scope: &Scope<'_>,
    state: &mut State,
    e: &Expr,
) -> Result<Option<Operand>, AllocError>
    ensures { Gives (spec.operand (context scope.now) e.now state.old) result state.new }
{
    Elaborator {
        alloc,
        depth: MAX_DEPTH,
        expr: expr_to,
    }
    .operand(scope, state, e)
}

/// Arguments as values, and none where a rule is broken in one.
pub fn args(
    alloc: Global,
    scope: &Scope<'_>,
    state: &mut State,
    all: &[Expr],
) -> Result<Option<Args>, AllocError>
    ensures { Gives (spec.args (context scope.now) all.now state.old) result state.new }
{
    Elaborator {
        alloc,
        depth: MAX_DEPTH,
        expr: expr_to,
    }
    .args(scope, state, all)
}

/// The length of an array, and none where a rule is broken.
#[tactic(auto, unfolding(crate::specs::Whole::array_length))]
pub fn array_length(
    alloc: Global,
    scope: &Scope<'_>,
    state: &mut State,
    e: &Expr,
) -> Result<Option<u32>, AllocError>
    ensures { Gives (spec.array_length (context scope.now) e.now state.old) result state.new }
{
    let typed = expr(alloc, scope, state, e)?;
    scope.length_of(state, typed)
}

/// The value of a named constant, and none where a rule is broken.
#[tactic(auto, unfolding(crate::specs::Whole::constant))]
pub fn constant(
    alloc: Global,
    scope: &Scope<'_>,
    state: &mut State,
    e: &Expr,
) -> Result<Option<i64>, AllocError>
    ensures { Gives (spec.constant (context scope.now) e.now state.old) result state.new }
{
    let typed = expr(alloc, scope, state, e)?;
    scope.constant_of(state, typed)
}

fn fitted(
    scope: &Scope<'_>,
    state: &mut State,
    wanted: Ty,
    value: Option<Operand>,
) -> Result<Option<Expression>, AllocError>
    ensures { Gives (spec.fitted (context scope.now) wanted value state.old) result state.new }
{
    match value {
        None => Ok(None),
        Some(value) => {
            if !wanted.accepts(value.ty) {
                scope.note_rule(state, StaticRule::BadType)?;
                return Ok(None);
            }
            Ok(Some(value.term))
        }
    }
}

/// An expression as a value that a place of a type takes, and none where a rule is broken.
#[tactic(auto, unfolding(crate::specs::Whole::fitting))]
pub fn fitting(
    alloc: Global,
    scope: &Scope<'_>,
    state: &mut State,
    wanted: Ty,
    e: &Expr,
) -> Result<Option<Expression>, AllocError>
    ensures { Gives (spec.fitting (context scope.now) wanted e.now state.old) result state.new }
{
    let value = operand(alloc, scope, state, e)?;
    fitted(scope, state, wanted, value)
}

fn no_place(
    scope: &Scope<'_>,
    state: &mut State,
    rule: StaticRule,
) -> Result<Option<Place>, AllocError>
    ensures { Gives (spec.no_place (context scope.now) rule state.old) result state.new }
{
    scope.note_rule(state, rule)?;
    Ok(None)
}

fn place_unless(
    scope: &Scope<'_>,
    state: &mut State,
    is_far_local: bool,
    place: Place,
) -> Result<Option<Place>, AllocError>
    ensures { Gives (spec.place_unless is_far_local (context scope.now) place state.old) result state.new }
{
    if is_far_local {
        return no_place(scope, state, StaticRule::RemoteLocal);
    }
    Ok(Some(place))
}

fn as_place(scope: &Scope<'_>, state: &mut State, typed: Typed) -> Result<Option<Place>, AllocError>
    ensures { Gives (spec.as_place (context scope.now) typed state.old) result state.new }
{
    match typed {
        Typed::Broken => Ok(None),
        Typed::Spoiled => Ok(None),
        Typed::Value(_) => no_place(scope, state, StaticRule::NotPlace),
        Typed::This(_, _) => no_place(scope, state, StaticRule::NotPlace),
        Typed::Constant(_, _) => no_place(scope, state, StaticRule::NotPlace),
        Typed::Place(place) => place_unless(scope, state, place.is_far_local(), place),
        Typed::Array(_, _) => no_place(scope, state, StaticRule::BadType),
        Typed::Object(_) => no_place(scope, state, StaticRule::BadType),
    }
}

/// The place that an assignment writes, and none where a rule is broken.
#[tactic(auto, unfolding(crate::specs::Whole::place))]
pub fn place(
    alloc: Global,
    scope: &Scope<'_>,
    state: &mut State,
    e: &Expr,
) -> Result<Option<Place>, AllocError>
    ensures { Gives (spec.place (context scope.now) e.now state.old) result state.new }
{
    let typed = expr(alloc, scope, state, e)?;
    as_place(scope, state, typed)
}

fn written_rule(scope: &Scope<'_>, root: Root) -> Option<ShareRule>
    ensures { result ≡ spec.written_rule (context scope.now) root }
{
    match root {
        Root::Variable(part) => {
            if part == scope.part {
                None
            } else {
                Some(ShareRule::OuterPlainWritten)
            }
        }
        Root::Member => {
            if scope.in_constructor {
                None
            } else {
                Some(ShareRule::PlainMember)
            }
        }
        Root::Pointer => Some(ShareRule::PlainThroughPointer),
    }
}

fn share_write(
    scope: &Scope<'_>,
    state: &mut State,
    sync: bool,
    root: Root,
) -> Result<(), AllocError>
    ensures { Gives (spec.share_write sync (context scope.now) root state.old) result state.new }
{
    if sync {
        return Ok(());
    }
    match written_rule(scope, root) {
        None => Ok(()),
        Some(rule) => state.share(rule, scope.line),
    }
}

/// Adds what a write of a place does: the rule of sharing that it breaks, and that it is a remote operation.
#[tactic(auto, unfolding(crate::specs::Whole::written))]
pub fn written(scope: &Scope<'_>, state: &mut State, place: &Place) -> Result<(), AllocError>
    ensures { Gives (spec.written (context scope.now) place.now state.old) result state.new }
{
    share_write(scope, state, place.sync, place.root)?;
    state.block_if(place.remote, scope.line)
}
