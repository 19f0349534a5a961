ghost use Rattle.std.specs.Prelude.{◌≡◌, IfOk};
ghost use Rattle.cc_scopes.specs.Elab.{Gives};
ghost use Rattle.cc_operators.specs.Operators as spec;
ghost use Rattle.cc_scopes.specs.Scope.{context};

use crate::folding::{computed, negated_value};
use crate::joint::Joint;
use cc_core::Expression;
use cc_names::{ClassId, StaticRule};
use cc_ops::Op;
use cc_scopes::{Object, Operand, Place, Root, Scope, State, Target, Ty, Typed};
use cc_tree::{BinaryOp, UnaryOp};
use ccpp_edge::Boxed;
use std::alloc::{AllocError, Global};

fn unary_term(alloc: Global, op: Op, part: Expression) -> Result<Expression, AllocError>
    ensures { IfOk result (λ t. t ≡ spec.unary_term op part) }
{
    Ok(Expression::Unary(op, Boxed::new(alloc, part)?))
}

fn int_at(address: Expression, sync: bool, remote: bool) -> Typed
    ensures { result ≡ spec.int_at address sync remote }
{
    Typed::Place(Place {
        address,
        ty: Ty::Int,
        sync,
        remote,
        root: Root::Pointer,
        is_element: false,
    })
}

fn object_at(address: Expression, class: ClassId, remote: bool) -> Typed
    ensures { result ≡ spec.object_at address class remote }
{
    Typed::Object(Object {
        class,
        address,
        remote,
        is_variable: false,
    })
}

/// What a pointer leads to.
fn at_target(to: Target, remote: bool, address: Expression) -> Typed
    ensures { result ≡ spec.at_target to remote address }
{
    match to {
        Target::Int => int_at(address, false, remote),
        Target::SyncInt => int_at(address, true, remote),
        Target::Class(class) => object_at(address, class, remote),
    }
}

fn root_address_rule(root: Root, is_element: bool) -> Option<StaticRule>
    ensures { result ≡ spec.address_rule_by root is_element }
{
    match (root, is_element) {
        (Root::Variable(_), _) | (Root::Pointer, true) => None,
        (Root::Member, _) => Some(StaticRule::MemberAddress),
        (Root::Pointer, false) => Some(StaticRule::BadType),
    }
}

/// The rule that `&` of a place breaks.
fn address_rule(ty: Ty, root: Root, is_element: bool) -> Option<StaticRule>
    ensures { result ≡ spec.address_rule ty root is_element }
{
    match ty {
        Ty::Int => root_address_rule(root, is_element),
        _ => Some(StaticRule::BadType),
    }
}

/// The operators that constant expressions are made of.
fn arithmetic(op: BinaryOp) -> Option<Op>
    ensures { result ≡ spec.arithmetic op }
{
    match Joint::of(op) {
        Joint::Computes(op) => Some(op),
        _ => None,
    }
}

fn takes(op: BinaryOp, a: Ty, b: Ty) -> bool
    ensures { result ≡ spec.takes op a b }
{
    match op {
        BinaryOp::Eq | BinaryOp::Ne => a.is_comparable(b),
        _ => a.is_int() && b.is_int(),
    }
}

fn joined_term(
    alloc: Global,
    op: BinaryOp,
    a: Expression,
    b: Expression,
) -> Result<Expression, AllocError>
    ensures { IfOk result (λ t. t ≡ spec.joined_term op a b) }
{
    let a = Boxed::new(alloc, a)?;
    let b = Boxed::new(alloc, b)?;
    Ok(match Joint::of(op) {
        Joint::Or => Expression::Or(a, b),
        Joint::And => Expression::And(a, b),
        Joint::Compares(op) => Expression::Binary(op, a, b),
        Joint::Computes(op) => Expression::Binary(op, a, b),
    })
}

fn operated_by(
    alloc: Global,
    scope: &Scope<'_>,
    state: &mut State,
    op: Op,
    value: Option<Operand>,
) -> Result<Typed, AllocError>
    ensures { Gives (spec.operated_by (context scope.now) op value state.old) result state.new }
{
    match value {
        None => Ok(Typed::Spoiled),
        Some(value) => {
            if !value.ty.is_int() {
                return scope.broken(state, StaticRule::BadType);
            }
            Ok(Typed::Value(Operand::int(unary_term(alloc, op, value.term)?)))
        }
    }
}

/// An operator of an int.
#[tactic(auto, unfolding(crate::specs::Operators::operated))]
fn operated(
    alloc: Global,
    scope: &Scope<'_>,
    state: &mut State,
    op: Op,
    typed: Typed,
) -> Result<Typed, AllocError>
    ensures { Gives (spec.operated (context scope.now) op typed state.old) result state.new }
{
    let value = scope.decay(alloc, state, typed)?;
    operated_by(alloc, scope, state, op, value)
}

fn negated(
    alloc: Global,
    scope: &Scope<'_>,
    state: &mut State,
    typed: Typed,
) -> Result<Typed, AllocError>
    ensures { Gives (spec.negated (context scope.now) typed state.old) result state.new }
{
    match typed {
        Typed::Constant(term, value) => Ok(Typed::Constant(
            unary_term(alloc, Op::Neg, term)?,
            negated_value(value),
        )),
        typed => operated(alloc, scope, state, Op::Neg, typed),
    }
}

fn led(scope: &Scope<'_>, state: &mut State, value: Option<Operand>) -> Result<Typed, AllocError>
    ensures { Gives (spec.led (context scope.now) value state.old) result state.new }
{
    match value {
        None => Ok(Typed::Spoiled),
        Some(value) => match value.ty {
            Ty::Pointer { to, remote } => Ok(at_target(to, remote, value.term)),
            _ => scope.broken(state, StaticRule::BadType),
        },
    }
}

#[tactic(auto, unfolding(crate::specs::Operators::dereferenced))]
fn dereferenced(
    alloc: Global,
    scope: &Scope<'_>,
    state: &mut State,
    typed: Typed,
) -> Result<Typed, AllocError>
    ensures { Gives (spec.dereferenced (context scope.now) typed state.old) result state.new }
{
    let value = scope.decay(alloc, state, typed)?;
    led(scope, state, value)
}

#[tactic(auto, unfolding(crate::specs::Operators::address_of))]
fn address_of(scope: &Scope<'_>, state: &mut State, place: Place) -> Result<Typed, AllocError>
    ensures { Gives (spec.address_of (context scope.now) place state.old) result state.new }
{
    scope.share_address(state, place.sync)?;
    Ok(Typed::Value(place.pointer()))
}

fn address_unless(
    scope: &Scope<'_>,
    state: &mut State,
    rule: Option<StaticRule>,
    place: Place,
) -> Result<Typed, AllocError>
    ensures { Gives (spec.address_unless rule (context scope.now) place state.old) result state.new }
{
    match rule {
        Some(rule) => scope.broken(state, rule),
        None => address_of(scope, state, place),
    }
}

fn place_address(scope: &Scope<'_>, state: &mut State, place: Place) -> Result<Typed, AllocError>
    ensures { Gives (spec.place_address (context scope.now) place state.old) result state.new }
{
    let rule = address_rule(place.ty, place.root, place.is_element);
    address_unless(scope, state, rule, place)
}

fn object_address(
    scope: &Scope<'_>,
    state: &mut State,
    is_variable: bool,
    object: Object,
) -> Result<Typed, AllocError>
    ensures { Gives (spec.object_address is_variable (context scope.now) object state.old) result state.new }
{
    if is_variable {
        return Ok(Typed::Value(object.pointer()));
    }
    scope.broken(state, StaticRule::BadType)
}

fn value_address(scope: &Scope<'_>, state: &mut State, ty: Ty) -> Result<Typed, AllocError>
    ensures { Gives (spec.value_address ty (context scope.now) state.old) result state.new }
{
    match ty {
        Ty::Void => scope.broken(state, StaticRule::BadType),
        _ => scope.broken(state, StaticRule::NotPlace),
    }
}

fn address(scope: &Scope<'_>, state: &mut State, typed: Typed) -> Result<Typed, AllocError>
    ensures { Gives (spec.address (context scope.now) typed state.old) result state.new }
{
    match typed {
        Typed::Broken => Ok(Typed::Spoiled),
        Typed::Spoiled => Ok(Typed::Spoiled),
        Typed::Value(value) => value_address(scope, state, value.ty),
        Typed::This(_, _) => scope.broken(state, StaticRule::NotPlace),
        Typed::Constant(_, _) => scope.broken(state, StaticRule::NotPlace),
        Typed::Place(place) => place_address(scope, state, place),
        Typed::Array(_, _) => scope.broken(state, StaticRule::BadType),
        Typed::Object(object) => object_address(scope, state, object.is_variable, object),
    }
}

/// An operator before its operand.
pub fn unary(
    alloc: Global,
    scope: &Scope<'_>,
    state: &mut State,
    op: UnaryOp,
    typed: Typed,
) -> Result<Typed, AllocError>
    ensures { Gives (spec.unary (context scope.now) op typed state.old) result state.new }
{
    match op {
        UnaryOp::Neg => negated(alloc, scope, state, typed),
        UnaryOp::Not => operated(alloc, scope, state, Op::Not, typed),
        UnaryOp::Deref => dereferenced(alloc, scope, state, typed),
        UnaryOp::Address => address(scope, state, typed),
    }
}

fn joined_operands(
    alloc: Global,
    scope: &Scope<'_>,
    state: &mut State,
    op: BinaryOp,
    a: Option<Operand>,
    b: Option<Operand>,
) -> Result<Typed, AllocError>
    ensures { Gives (spec.joined_operands (context scope.now) op a b state.old) result state.new }
{
    let (Some(a), Some(b)) = (a, b) else {
        return Ok(Typed::Spoiled);
    };
    if !takes(op, a.ty, b.ty) {
        return scope.broken(state, StaticRule::BadType);
    }
    Ok(Typed::Value(Operand::int(joined_term(alloc, op, a.term, b.term)?)))
}

#[tactic(auto, unfolding(crate::specs::Operators::joined_values))]
fn joined_values(
    alloc: Global,
    scope: &Scope<'_>,
    state: &mut State,
    op: BinaryOp,
    a: Typed,
    b: Typed,
) -> Result<Typed, AllocError>
    ensures { Gives (spec.joined_values (context scope.now) op a b state.old) result state.new }
{
    let a = scope.decay(alloc, state, a)?;
    let b = scope.decay(alloc, state, b)?;
    joined_operands(alloc, scope, state, op, a, b)
}

fn joined_constant(
    alloc: Global,
    scope: &Scope<'_>,
    state: &mut State,
    op: (BinaryOp, Op),
    a: (Expression, Option<i64>),
    b: Typed,
) -> Result<Typed, AllocError>
    ensures { Gives (spec.joined_constant (context scope.now) op.0 op.1 a.0 a.1 b state.old) result state.new }
{
    match b {
        Typed::Constant(b, value) => Ok(Typed::Constant(
            joined_term(alloc, op.0, a.0, b)?,
            computed(op.1, a.1, value),
        )),
        b => joined_values(alloc, scope, state, op.0, Typed::Constant(a.0, a.1), b),
    }
}

fn joined_numbers(
    alloc: Global,
    scope: &Scope<'_>,
    state: &mut State,
    op: (BinaryOp, Op),
    a: Typed,
    b: Typed,
) -> Result<Typed, AllocError>
    ensures { Gives (spec.joined_numbers (context scope.now) op.0 op.1 a b state.old) result state.new }
{
    match a {
        Typed::Constant(a, value) => joined_constant(alloc, scope, state, op, (a, value), b),
        a => joined_values(alloc, scope, state, op.0, a, b),
    }
}

/// An operator between two operands.
#[tactic(auto, unfolding(crate::specs::Operators::joined))]
pub fn joined(
    alloc: Global,
    scope: &Scope<'_>,
    state: &mut State,
    op: BinaryOp,
    a: Typed,
    b: Typed,
) -> Result<Typed, AllocError>
    ensures { Gives (spec.joined (context scope.now) op a b state.old) result state.new }
{
    match arithmetic(op) {
        None => joined_values(alloc, scope, state, op, a, b),
        Some(sum) => joined_numbers(alloc, scope, state, (op, sum), a, b),
    }
}
