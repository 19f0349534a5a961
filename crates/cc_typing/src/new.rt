ghost use Rattle.std.specs.Prelude.{◌≡◌};
ghost use Rattle.cc_scopes.specs.Elab.{Gives};
ghost use Rattle.cc_typing.specs.New as spec;
ghost use Rattle.cc_scopes.specs.Scope.{context};

use crate::calls::{Args, args_rule};
use cc_core::Expression;
use cc_names::{ClassId, StaticRule};
use cc_scopes::{Operand, Scope, State, Target, Ty, Typed};
use ccpp_edge::List;
use std::alloc::AllocError;

/// A new object of so many int cells.
pub(crate) fn new_cells(sync: bool, count: u32) -> Typed
    ensures { result ≡ spec.new_cells sync count }
{
    Typed::Value(Operand {
        ty: Ty::Pointer {
            to: Target::int(sync),
            remote: false,
        },
        term: Expression::New(Ty::Int.cell_kind(sync), count),
    })
}

/// A new array, where its length breaks no rule.
pub(crate) fn new_array(sync: bool, length: Option<u32>) -> Typed
    ensures { result ≡ spec.new_array sync length }
{
    match length {
        None => Typed::Spoiled,
        Some(length) => new_cells(sync, length),
    }
}

fn object_made(class: ClassId, remote: bool, terms: List<Expression>) -> Operand
    ensures { result ≡ spec.object_made class remote terms }
{
    Operand {
        ty: Ty::Pointer {
            to: Target::Class(class),
            remote,
        },
        term: Expression::NewObject(remote, class.0, terms),
    }
}

#[tactic(auto, unfolding(crate::specs::New::made))]
fn made(
    scope: &Scope<'_>,
    state: &mut State,
    class: ClassId,
    remote: bool,
    terms: List<Expression>,
) -> Result<Typed, AllocError>
    ensures { Gives (spec.made (context scope.now) class remote terms state.old) result state.new }
{
    state.block_if(remote, scope.line)?;
    Ok(Typed::Value(object_made(class, remote, terms)))
}

fn made_of(
    scope: &Scope<'_>,
    state: &mut State,
    class: ClassId,
    args: Args,
) -> Result<Typed, AllocError>
    ensures { Gives (spec.new_named (Some class) (context scope.now) args state.old) result state.new }
{
    match scope.class_at(class) {
        None => scope.broken(state, StaticRule::UnknownClass),
        Some(found) => match args_rule(found.constructor.as_slice(), args.types.as_slice()) {
            Some(rule) => scope.broken(state, rule),
            None => made(scope, state, class, found.remote, args.terms),
        },
    }
}

fn new_named(
    scope: &Scope<'_>,
    state: &mut State,
    class: Option<ClassId>,
    args: Args,
) -> Result<Typed, AllocError>
    ensures { Gives (spec.new_named class (context scope.now) args state.old) result state.new }
{
    match class {
        None => scope.broken(state, StaticRule::UnknownClass),
        Some(class) => made_of(scope, state, class, args),
    }
}

/// A new object of a class, from its constructor's arguments.
pub(crate) fn new_object(
    scope: &Scope<'_>,
    state: &mut State,
    class: Option<ClassId>,
    args: Option<Args>,
) -> Result<Typed, AllocError>
    ensures { Gives (spec.new_object (context scope.now) class args state.old) result state.new }
{
    match args {
        None => Ok(Typed::Spoiled),
        Some(args) => new_named(scope, state, class, args),
    }
}
