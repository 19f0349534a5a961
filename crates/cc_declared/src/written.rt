ghost use Rattle.std.specs.Prelude.{◌≡◌};
ghost use Rattle.cc_scopes.specs.Elab.{Gives};
ghost use Rattle.cc_names.specs.Names.{class_named};
ghost use Rattle.cc_scopes.specs.Scope.{context};
ghost use Rattle.cc_declared.specs.Written as spec;

use cc_names::{ClassId, StaticRule};
use cc_scopes::{Declared, Scope, Shape, State, Target, Ty};
use cc_tree::{Base, TypeName};
use ccpp_edge::Text;
use std::alloc::AllocError;

fn cell(ty: Ty, sync: bool) -> Declared
    ensures { result ≡ spec.cell ty sync }
{
    Declared {
        shape: Shape::Cell,
        ty,
        sync,
    }
}

/// What is known of a declaration whose type breaks a rule: nothing.
pub(crate) fn unknown() -> Declared
    ensures { result ≡ spec.unknown }
{
    cell(Ty::Unknown, false)
}

fn object(class: ClassId) -> Declared
    ensures { result ≡ spec.object class }
{
    Declared {
        shape: Shape::Object(class),
        ty: Ty::Int,
        sync: false,
    }
}

fn pointer(to: Target, ty: &TypeName) -> Declared
    ensures { result ≡ spec.pointer to ty.now }
{
    let remote = ty.remote;
    cell(Ty::Pointer { to, remote }, ty.once)
}

fn int_type(sync: bool, ty: &TypeName) -> Declared
    ensures { result ≡ spec.int_type sync ty.now }
{
    if ty.star {
        pointer(Target::int(sync), ty)
    } else {
        cell(Ty::Int, sync)
    }
}

fn class_type(class: ClassId, ty: &TypeName) -> Declared
    ensures { result ≡ spec.class_type class ty.now }
{
    if ty.star {
        pointer(Target::Class(class), ty)
    } else {
        object(class)
    }
}

/// The declaration of a type that breaks a rule.
pub(crate) fn no_type(
    scope: &Scope<'_>,
    state: &mut State,
    rule: StaticRule,
) -> Result<Declared, AllocError>
    ensures { Gives (spec.no_type (context scope.now) rule state.old) result state.new }
{
    scope.note_rule(state, rule)?;
    Ok(unknown())
}

fn void_type(scope: &Scope<'_>, state: &mut State, star: bool) -> Result<Declared, AllocError>
    ensures { Gives (spec.void_type star (context scope.now) state.old) result state.new }
{
    if star {
        return no_type(scope, state, StaticRule::BadDeclared);
    }
    Ok(cell(Ty::Void, false))
}

fn named_type(
    scope: &Scope<'_>,
    state: &mut State,
    name: &Text,
    ty: &TypeName,
) -> Result<Declared, AllocError>
    ensures { Gives (spec.class_or_none (class_named (context scope.now).names name.now) (context scope.now) ty.now state.old) result state.new }
{
    match scope.names.class(name) {
        None => no_type(scope, state, StaticRule::UnknownClass),
        Some(class) => Ok(class_type(class, ty)),
    }
}

/// The type that a type's name says, whatever is declared of it.
pub(crate) fn written(
    scope: &Scope<'_>,
    state: &mut State,
    ty: &TypeName,
) -> Result<Declared, AllocError>
    ensures { Gives (spec.written (context scope.now) ty.now state.old) result state.new }
{
    match &ty.base {
        Base::Void => void_type(scope, state, ty.star),
        Base::Int => Ok(int_type(false, ty)),
        Base::SyncInt => Ok(int_type(true, ty)),
        Base::Named(name) => named_type(scope, state, name, ty),
    }
}
