ghost use Rattle.std.specs.Prelude.{◌≡◌};
ghost use Rattle.cc_scopes.specs.Elab.{Gives};
ghost use Rattle.cc_scopes.specs.Scope.{context};
ghost use Rattle.cc_elaboration.specs.Assignments as spec;

use cc_core::{Expression, Statement};
use cc_scopes::{Operand, Place, Scope, State, Ty, Typed};
use cc_tree::{AssignOp, BinaryOp, Expr};
use cc_typing::{expr, fitting, joined, operand, place, written};
use std::alloc::{AllocError, Global};

/// What an assignment writes, and where to.
#[derive(Drop)]
pub struct Assignment {
    /// Where to.
    pub place: Place,
    /// What.
    pub value: Expression,
}

fn operator(op: AssignOp) -> Option<BinaryOp>
    ensures { result ≡ spec.operator op }
{
    match op {
        AssignOp::Set => None,
        AssignOp::Add => Some(BinaryOp::Add),
        AssignOp::Sub => Some(BinaryOp::Sub),
        AssignOp::Mul => Some(BinaryOp::Mul),
        AssignOp::Div => Some(BinaryOp::Div),
        AssignOp::Rem => Some(BinaryOp::Rem),
    }
}

#[tactic(auto, unfolding(crate::specs::Assignments::combined))]
fn combined(
    alloc: Global,
    scope: &Scope<'_>,
    state: &mut State,
    op: BinaryOp,
    target: &Expr,
    value: &Expr,
) -> Result<Typed, AllocError>
    ensures { Gives (spec.combined (context scope.now) op target.now value.now state.old) result state.new }
{
    let before = expr(alloc, scope, state, target)?;
    let value = expr(alloc, scope, state, value)?;
    joined(alloc, scope, state, op, before, value)
}

fn term_of(value: Option<Operand>) -> Option<Expression>
    ensures { result ≡ spec.term_of value }
{
    match value {
        None => None,
        Some(value) => Some(value.term),
    }
}

#[tactic(auto, unfolding(crate::specs::Assignments::combined_value))]
fn combined_value(
    alloc: Global,
    scope: &Scope<'_>,
    state: &mut State,
    op: BinaryOp,
    target: &Expr,
    value: &Expr,
) -> Result<Option<Expression>, AllocError>
    ensures { Gives (spec.combined_value (context scope.now) op target.now value.now state.old) result state.new }
{
    let typed = combined(alloc, scope, state, op, target, value)?;
    let value = scope.decay(alloc, state, typed)?;
    Ok(term_of(value))
}

fn value_by(
    alloc: Global,
    scope: &Scope<'_>,
    state: &mut State,
    wanted: Ty,
    op: Option<BinaryOp>,
    target: &Expr,
    value: &Expr,
) -> Result<Option<Expression>, AllocError>
    ensures { Gives (spec.value_by op (context scope.now) wanted target.now value.now state.old) result state.new }
{
    match op {
        None => fitting(alloc, scope, state, wanted, value),
        Some(op) => combined_value(alloc, scope, state, op, target, value),
    }
}

fn assigned(place: Place, value: Option<Expression>) -> Option<Assignment>
    ensures { result ≡ spec.assigned place value }
{
    match value {
        None => None,
        Some(value) => Some(Assignment { place, value }),
    }
}

#[tactic(auto, unfolding(crate::specs::Assignments::assignment_to))]
fn assignment_to(
    alloc: Global,
    scope: &Scope<'_>,
    state: &mut State,
    place: Place,
    op: AssignOp,
    target: &Expr,
    value: &Expr,
) -> Result<Option<Assignment>, AllocError>
    ensures { Gives (spec.assignment_to place (context scope.now) op target.now value.now state.old) result state.new }
{
    let value = value_by(alloc, scope, state, place.ty, operator(op), target, value)?;
    written(scope, state, &place)?;
    Ok(assigned(place, value))
}

#[tactic(auto, unfolding(crate::specs::Assignments::no_assignment))]
fn no_assignment(
    alloc: Global,
    scope: &Scope<'_>,
    state: &mut State,
    value: &Expr,
) -> Result<Option<Assignment>, AllocError>
    ensures { Gives (spec.no_assignment (context scope.now) value.now state.old) result state.new }
{
    operand(alloc, scope, state, value)?;
    Ok(None)
}

fn assignment_at(
    alloc: Global,
    scope: &Scope<'_>,
    state: &mut State,
    place: Option<Place>,
    op: AssignOp,
    target: &Expr,
    value: &Expr,
) -> Result<Option<Assignment>, AllocError>
    ensures { Gives (spec.assignment_at place (context scope.now) op target.now value.now state.old) result state.new }
{
    match place {
        None => no_assignment(alloc, scope, state, value),
        Some(place) => assignment_to(alloc, scope, state, place, op, target, value),
    }
}

/// What an assignment writes and where to, and `None` where a rule is broken in it.
#[tactic(auto, unfolding(crate::specs::Assignments::assignment))]
pub fn read_assignment(
    alloc: Global,
    scope: &Scope<'_>,
    state: &mut State,
    target: &Expr,
    op: AssignOp,
    value: &Expr,
) -> Result<Option<Assignment>, AllocError>
    ensures { Gives (spec.assignment (context scope.now) target.now op value.now state.old) result state.new }
{
    let to = place(alloc, scope, state, target)?;
    assignment_at(alloc, scope, state, to, op, target, value)
}

fn stored(assignment: Option<Assignment>) -> Statement
    ensures { result ≡ spec.stored assignment }
{
    match assignment {
        None => Statement::Empty,
        Some(Assignment { place, value }) => {
            Statement::Assign(place.remote, place.address, value)
        }
    }
}

/// An assignment.
#[tactic(auto, unfolding(crate::specs::Assignments::assign))]
pub(crate) fn assign(
    alloc: Global,
    scope: &Scope<'_>,
    state: &mut State,
    target: &Expr,
    op: AssignOp,
    value: &Expr,
) -> Result<Statement, AllocError>
    ensures { Gives (spec.assign (context scope.now) target.now op value.now state.old) result state.new }
{
    let assignment = read_assignment(alloc, scope, state, target, op, value)?;
    Ok(stored(assignment))
}
