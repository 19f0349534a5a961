ghost use Rattle.std.specs.Prelude.{◌≡◌};
ghost use Rattle.cc_scopes.specs.Elab.{Gives};
ghost use Rattle.cc_scopes.specs.Scope.{context};
ghost use Rattle.cc_elaboration.specs.Declarations as spec;
ghost use Rattle.cc_typing.specs.Calls as args_spec;

use cc_core::{Expression, Statement};
use cc_declared::variable;
use cc_names::{ClassId, StaticRule};
use cc_scopes::{Declared, Scope, Shape, State};
use cc_tree::{Decl, Expr, Start};
use cc_typing::{Args, args, args_rule, fitting, operand};
use ccpp_edge::List;
use std::alloc::{AllocError, Global};

/// How a variable starts.
#[derive(Drop)]
pub(crate) enum Begun {
    /// With fresh cells.
    Nothing,
    /// With a value.
    Value(Expression),
    /// As an object of a class, by the arguments of its constructor.
    Object(ClassId, List<Expression>),
}

fn built_unless(
    scope: &Scope<'_>,
    state: &mut State,
    rule: Option<StaticRule>,
    class: ClassId,
    terms: List<Expression>,
) -> Result<Begun, AllocError>
    ensures { Gives (spec.built_unless rule (context scope.now) class terms state.old) result state.new }
{
    match rule {
        Some(rule) => {
            scope.note_rule(state, rule)?;
            Ok(Begun::Nothing)
        }
        None => Ok(Begun::Object(class, terms)),
    }
}

fn built_with(
    scope: &Scope<'_>,
    state: &mut State,
    class: ClassId,
    args: Args,
) -> Result<Begun, AllocError>
    ensures { Gives (spec.built (context scope.now) class (Some args) state.old) result state.new }
{
    match scope.class_at(class) {
        None => {
            scope.note_rule(state, StaticRule::UnknownClass)?;
            Ok(Begun::Nothing)
        }
        Some(found) => {
            let rule = args_rule(found.constructor.as_slice(), args.types.as_slice());
            built_unless(scope, state, rule, class, args.terms)
        }
    }
}

fn built(
    scope: &Scope<'_>,
    state: &mut State,
    class: ClassId,
    args: Option<Args>,
) -> Result<Begun, AllocError>
    ensures { Gives (spec.built (context scope.now) class args state.old) result state.new }
{
    match args {
        None => Ok(Begun::Nothing),
        Some(args) => built_with(scope, state, class, args),
    }
}

fn misplaced(scope: &Scope<'_>, state: &mut State) -> Result<Begun, AllocError>
    ensures { Gives (spec.misplaced (context scope.now) state.old) result state.new }
{
    scope.note_rule(state, StaticRule::BadDeclared)?;
    Ok(Begun::Nothing)
}

#[tactic(auto, unfolding(crate::specs::Declarations::misplaced_value))]
fn misplaced_value(
    alloc: Global,
    scope: &Scope<'_>,
    state: &mut State,
    value: &Expr,
) -> Result<Begun, AllocError>
    ensures { Gives (spec.misplaced_value (context scope.now) value.now state.old) result state.new }
{
    operand(alloc, scope, state, value)?;
    misplaced(scope, state)
}

#[tactic(auto, unfolding(crate::specs::Declarations::misplaced_args))]
fn misplaced_args(
    alloc: Global,
    scope: &Scope<'_>,
    state: &mut State,
    all: &[Expr],
) -> Result<Begun, AllocError>
    ensures { Gives (spec.misplaced_args (context scope.now) all.now state.old) result state.new }
{
    args(alloc, scope, state, all)?;
    misplaced(scope, state)
}

fn with_value(value: Option<Expression>) -> Begun
    ensures { result ≡ spec.with_value value }
{
    match value {
        None => Begun::Nothing,
        Some(value) => Begun::Value(value),
    }
}

#[tactic(auto, unfolding(crate::specs::Declarations::started_cell))]
fn started_cell(
    alloc: Global,
    scope: &Scope<'_>,
    state: &mut State,
    declared: Declared,
    value: &Expr,
) -> Result<Begun, AllocError>
    ensures { Gives (spec.started_cell (context scope.now) declared value.now state.old) result state.new }
{
    let value = fitting(alloc, scope, state, declared.ty, value)?;
    Ok(with_value(value))
}

#[tactic(auto, unfolding(crate::specs::Declarations::started_object))]
fn started_object(
    alloc: Global,
    scope: &Scope<'_>,
    state: &mut State,
    class: ClassId,
    all: &[Expr],
) -> Result<Begun, AllocError>
    ensures { Gives (spec.started_object (context scope.now) class all.now state.old) result state.new }
{
    let args = args(alloc, scope, state, all)?;
    built(scope, state, class, args)
}

fn cell_start(
    alloc: Global,
    scope: &Scope<'_>,
    state: &mut State,
    declared: Declared,
    start: &Start,
) -> Result<Begun, AllocError>
    ensures { Gives (spec.cell_start start.now (context scope.now) declared state.old) result state.new }
{
    match start {
        Start::Nothing => Ok(Begun::Nothing),
        Start::Value(value) => started_cell(alloc, scope, state, declared, value),
        Start::Args(all) => misplaced_args(alloc, scope, state, all.as_slice()),
    }
}

fn array_start(
    alloc: Global,
    scope: &Scope<'_>,
    state: &mut State,
    start: &Start,
) -> Result<Begun, AllocError>
    ensures { Gives (spec.array_start start.now (context scope.now) state.old) result state.new }
{
    match start {
        Start::Nothing => Ok(Begun::Nothing),
        Start::Value(value) => misplaced_value(alloc, scope, state, value),
        Start::Args(all) => misplaced_args(alloc, scope, state, all.as_slice()),
    }
}

fn no_args(alloc: Global) -> Args
    ensures { result ≡ args_spec.no_args }
{
    Args {
        types: List::new(alloc),
        terms: List::new(alloc),
    }
}

fn object_start(
    alloc: Global,
    scope: &Scope<'_>,
    state: &mut State,
    class: ClassId,
    start: &Start,
) -> Result<Begun, AllocError>
    ensures { Gives (spec.object_start start.now (context scope.now) class state.old) result state.new }
{
    match start {
        Start::Nothing => built(scope, state, class, Some(no_args(alloc))),
        Start::Value(value) => misplaced_value(alloc, scope, state, value),
        Start::Args(all) => started_object(alloc, scope, state, class, all.as_slice()),
    }
}

fn started(
    alloc: Global,
    scope: &Scope<'_>,
    state: &mut State,
    declared: Declared,
    start: &Start,
) -> Result<Begun, AllocError>
    ensures { Gives (spec.started (context scope.now) declared start.now state.old) result state.new }
{
    match declared.shape {
        Shape::Cell => cell_start(alloc, scope, state, declared, start),
        Shape::Array(_) => array_start(alloc, scope, state, start),
        Shape::Object(class) => object_start(alloc, scope, state, class, start),
    }
}

/// The number of cells of a shape that is no object.
pub fn cells(shape: Shape) -> u32
    ensures { result ≡ spec.cells shape }
{
    match shape {
        Shape::Array(length) => length,
        _ => 1,
    }
}

fn made(number: u32, declared: Declared, begun: Begun) -> Statement
    ensures { result ≡ spec.made number declared begun }
{
    let kind = declared.ty.cell_kind(declared.sync);
    match begun {
        Begun::Nothing => Statement::Make(number, kind, cells(declared.shape)),
        Begun::Value(value) => Statement::Set(number, kind, value),
        Begun::Object(class, terms) => Statement::Build(number, class.0, terms),
    }
}

/// The declaration of a variable.
#[tactic(auto, unfolding(crate::specs::Declarations::declaration))]
pub(crate) fn declaration(
    alloc: Global,
    scope: &Scope<'_>,
    state: &mut State,
    decl: &Decl,
) -> Result<Statement, AllocError>
    ensures { Gives (spec.declaration (context scope.now) decl.now state.old) result state.new }
{
    let declared = variable(alloc, scope, state, decl)?;
    let begun = started(alloc, scope, state, declared, &decl.start)?;
    let number = scope.declare(alloc, state, &decl.name, declared)?;
    Ok(made(number, declared, begun))
}
