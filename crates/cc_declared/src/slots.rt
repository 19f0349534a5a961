ghost use Rattle.std.specs.Prelude.{◌≡◌};
ghost use Rattle.cc_scopes.specs.Elab.{Gives};
ghost use Rattle.cc_scopes.specs.Scope.{context};
ghost use Rattle.cc_declared.specs.Slots as spec;

use crate::role::Role;
use crate::written::{no_type, unknown, written};
use cc_names::StaticRule;
use cc_scopes::{Declared, Scope, Shape, State, Ty};
use cc_tree::{Decl, Expr, TypeName};
use cc_typing::array_length;
use std::alloc::{AllocError, Global};

fn kept(declared: Declared) -> Declared
    ensures { result ≡ spec.kept_by declared.ty declared }
{
    match declared.ty {
        Ty::Void => unknown(),
        _ => declared,
    }
}

fn checked(
    scope: &Scope<'_>,
    state: &mut State,
    is_allowed: bool,
    declared: Declared,
) -> Result<Declared, AllocError>
    ensures { Gives (spec.checked is_allowed (context scope.now) declared state.old) result state.new }
{
    if is_allowed {
        return Ok(declared);
    }
    scope.note_rule(state, StaticRule::BadDeclared)?;
    Ok(kept(declared))
}

#[tactic(auto, unfolding(crate::specs::Slots::typed_as))]
fn typed_as(
    scope: &Scope<'_>,
    state: &mut State,
    role: Role,
    ty: &TypeName,
) -> Result<Declared, AllocError>
    ensures { Gives (spec.typed_as role (context scope.now) ty.now state.old) result state.new }
{
    let declared = written(scope, state, ty)?;
    checked(scope, state, role.allows(scope, declared), declared)
}

fn known_length(length: Option<u32>) -> u32
    ensures { result ≡ spec.known_length length }
{
    match length {
        None => 1,
        Some(length) => length,
    }
}

fn array_of(length: Option<u32>, declared: Declared) -> Declared
    ensures { result ≡ spec.array_of length declared }
{
    Declared {
        shape: Shape::Array(known_length(length)),
        ..declared
    }
}

fn arrayed_by(
    scope: &Scope<'_>,
    state: &mut State,
    declared: Declared,
    length: Option<u32>,
) -> Result<Declared, AllocError>
    ensures { Gives (spec.arrayed_by declared.shape (context scope.now) declared length state.old) result state.new }
{
    match declared.shape {
        Shape::Object(_) => no_type(scope, state, StaticRule::BadDeclared),
        _ => Ok(array_of(length, declared)),
    }
}

#[tactic(auto, unfolding(crate::specs::Slots::arrayed))]
fn arrayed(
    alloc: Global,
    scope: &Scope<'_>,
    state: &mut State,
    declared: Declared,
    length: &Expr,
) -> Result<Declared, AllocError>
    ensures { Gives (spec.arrayed (context scope.now) declared length.now state.old) result state.new }
{
    let length = array_length(alloc, scope, state, length)?;
    arrayed_by(scope, state, declared, length)
}

fn with_length(
    alloc: Global,
    scope: &Scope<'_>,
    state: &mut State,
    declared: Declared,
    length: &Option<Expr>,
) -> Result<Declared, AllocError>
    ensures { Gives (spec.with_length (context scope.now) declared length.now state.old) result state.new }
{
    match length {
        None => Ok(declared),
        Some(length) => arrayed(alloc, scope, state, declared, length),
    }
}

#[tactic(auto, unfolding(crate::specs::Slots::slot))]
fn slot(
    alloc: Global,
    scope: &Scope<'_>,
    state: &mut State,
    role: Role,
    decl: &Decl,
) -> Result<Declared, AllocError>
    ensures { Gives (spec.slot role (context scope.now) decl.now state.old) result state.new }
{
    let declared = typed_as(scope, state, role, &decl.ty)?;
    with_length(alloc, scope, state, declared, &decl.length)
}

/// What a variable is declared as. Its start is not read.
pub fn variable(
    alloc: Global,
    scope: &Scope<'_>,
    state: &mut State,
    decl: &Decl,
) -> Result<Declared, AllocError>
    ensures { Gives (spec.variable (context scope.now) decl.now state.old) result state.new }
{
    slot(alloc, scope, state, Role::Variable, decl)
}

/// What a field is declared as.
pub fn field(
    alloc: Global,
    scope: &Scope<'_>,
    state: &mut State,
    decl: &Decl,
) -> Result<Declared, AllocError>
    ensures { Gives (spec.field (context scope.now) decl.now state.old) result state.new }
{
    slot(alloc, scope, state, Role::Field, decl)
}

/// What a parameter is declared as, by its type.
pub fn parameter(
    scope: &Scope<'_>,
    state: &mut State,
    ty: &TypeName,
) -> Result<Declared, AllocError>
    ensures { Gives (spec.parameter (context scope.now) ty.now state.old) result state.new }
{
    typed_as(scope, state, Role::Parameter, ty)
}

/// The type of the values of what is declared so: of a parameter or a result. An object by value has none.
pub fn value_type(declared: Declared) -> Ty
    ensures { result ≡ spec.value_type declared }
{
    match declared.shape {
        Shape::Object(_) => Ty::Unknown,
        _ => declared.ty,
    }
}

/// What a function returns, by its type.
pub fn returned(scope: &Scope<'_>, state: &mut State, ty: &TypeName) -> Result<Declared, AllocError>
    ensures { Gives (spec.returned (context scope.now) ty.now state.old) result state.new }
{
    typed_as(scope, state, Role::Result, ty)
}
