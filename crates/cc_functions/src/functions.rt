ghost use Rattle.std.specs.Prelude.{◌≡◌, [], IfOk, map, length};
ghost use Rattle.cc_scopes.specs.Elab.{Gives};
ghost use Rattle.cc_scopes.specs.Scope.{context};
ghost use Rattle.cc_functions.specs.Functions as spec;

use cc_blocking::Conduct;
use cc_core::{Constant, Statement};
use cc_declared::{parameter, returned, value_type};
use cc_elaboration::{function_body, note_if};
use cc_names::StaticRule;
use cc_ops::{FunShape, Kind};
use cc_scopes::{Declared, Locals, Scope, Shape, ShareRule, State, Ty};
use cc_tree::{Function, Param, TypeName};
use ccpp_edge::{List, Text};
use std::alloc::{AllocError, Global};

/// The parts of a function.
#[derive(Drop)]
pub(crate) struct FunctionParts {
    /// The type of its result.
    pub(crate) result: Ty,
    /// Its parameters.
    pub(crate) params: List<Declared>,
    /// Its statements.
    pub(crate) body: List<Statement>,
}

/// A function, and what it does that an atomic function may not.
#[derive(Drop)]
pub(crate) struct Elaborated {
    /// Its core.
    pub(crate) function: cc_core::Function,
    /// What it does that an atomic function may not.
    pub(crate) conduct: Conduct,
}

/// A function, a field or a constant begins: nothing is in scope, and nothing is collected of a function.
pub(crate) fn begin(alloc: Global, state: &mut State)
    ensures { spec.begin state.old ≡ (tt, state.new) }
{
    state.locals = Locals::new(alloc);
    state.made = List::new(alloc);
    state.blocks = List::new(alloc);
    state.calls = List::new(alloc);
}

fn is_plain(ty: Ty, sync: bool) -> bool
    ensures { result ≡ spec.is_plain ty sync }
{
    match ty {
        Ty::Int => !sync,
        _ => false,
    }
}

fn is_plain_int(declared: Declared) -> bool
    ensures { result ≡ spec.is_plain_int declared }
{
    match declared.shape {
        Shape::Cell => is_plain(declared.ty, declared.sync),
        _ => false,
    }
}

#[tactic(auto, unfolding(crate::specs::Functions::param_at))]
fn param_at(
    alloc: Global,
    scope: &Scope<'_>,
    state: &mut State,
    is_main: bool,
    param: &Param,
) -> Result<Declared, AllocError>
    ensures { Gives (spec.param_at (context scope.now) is_main param.now state.old) result state.new }
{
    let declared = parameter(scope, state, &param.ty)?;
    note_if(
        scope,
        state,
        is_main && !is_plain_int(declared),
        StaticRule::BadMain,
    )?;
    scope.declare(alloc, state, &param.name, declared)?;
    Ok(declared)
}

/// A parameter.
pub(crate) fn param(
    alloc: Global,
    scope: &Scope<'_>,
    state: &mut State,
    is_main: bool,
    param: &Param,
) -> Result<Declared, AllocError>
    ensures { Gives (spec.param (context scope.now) is_main param.now state.old) result state.new }
{
    let here = Scope {
        line: param.line,
        ..*scope
    };
    param_at(alloc, &here, state, is_main, param)
}

fn params(
    alloc: Global,
    scope: &Scope<'_>,
    state: &mut State,
    is_main: bool,
    mut all: &[Param],
) -> Result<List<Declared>, AllocError>
    ensures { Gives (spec.params_from (context scope.now) is_main [] all.entry.now state.old) result state.new }
{
    let mut done = List::new(alloc);
    while let [first, rest @ ..] = all {
        done.push(param(alloc, scope, state, is_main, first)?)?;
        all = rest;
    }
    Ok(done)
}

#[tactic(auto, unfolding(crate::specs::Functions::result_of))]
fn result_of(
    scope: &Scope<'_>,
    state: &mut State,
    is_main: bool,
    ty: &TypeName,
) -> Result<Ty, AllocError>
    ensures { Gives (spec.result_of (context scope.now) is_main ty.now state.old) result state.new }
{
    let declared = returned(scope, state, ty)?;
    note_if(
        scope,
        state,
        is_main && !is_plain_int(declared),
        StaticRule::BadMain,
    )?;
    Ok(value_type(declared))
}

#[tactic(auto, unfolding(crate::specs::Functions::parts))]
fn parts(
    alloc: Global,
    scope: &Scope<'_>,
    state: &mut State,
    is_main: bool,
    function: &Function,
) -> Result<FunctionParts, AllocError>
    ensures { Gives (spec.parts (context scope.now) is_main function.now state.old) result state.new }
{
    let result = result_of(scope, state, is_main, &function.result)?;
    let inside = Scope {
        result,
        in_main: is_main,
        in_constructor: false,
        in_branch: false,
        in_loop: false,
        part: 0,
        start: 0,
        ..*scope
    };
    let params = params(alloc, &inside, state, is_main, function.params.as_slice())?;
    let body = function_body(alloc, &inside, state, function.body.as_slice())?;
    Ok(FunctionParts {
        result,
        params,
        body,
    })
}

fn default_of(ty: Ty) -> Constant
    ensures { result ≡ spec.default_of ty }
{
    match ty {
        Ty::Int => Constant::Int(0),
        Ty::Pointer { .. } => Constant::Null,
        _ => Constant::Void,
    }
}

fn kinds_of(alloc: Global, declared: Declared) -> Result<List<Kind>, AllocError>
    ensures { IfOk result (λ kinds. kinds ≡ spec.kinds_of declared) }
{
    let mut kinds = List::new(alloc);
    kinds.push(declared.ty.cell_kind(declared.sync))?;
    Ok(kinds)
}

fn all_kinds(alloc: Global, params: &[Declared]) -> Result<List<List<Kind>>, AllocError>
    ensures { IfOk result (λ kinds. kinds ≡ map spec.kinds_of params.now) }
{
    let mut all = List::new(alloc);
    for param in params {
        all.push(kinds_of(alloc, *param)?)?;
    }
    Ok(all)
}

/// More variables than there are numbers fit into no memory.
fn number_of(variables: usize) -> Result<u32, AllocError>
    ensures { IfOk result (λ number. number ≡ variables) }
{
    let Ok(number) = u32::try_from(variables) else {
        return Err(AllocError);
    };
    Ok(number)
}

fn shape_of(
    alloc: Global,
    name: Text,
    function: &Function,
    params: &[Declared],
    variables: usize,
) -> Result<FunShape, AllocError>
    ensures { IfOk result (λ shape. shape ≡ spec.shape_of name function.now params.now variables) }
{
    Ok(FunShape {
        name,
        line: function.line,
        params: all_kinds(alloc, params)?,
        vars: number_of(variables)?,
        atomic: function.atomic,
    })
}

fn conduct_of(alloc: Global, function: &Function, state: &State) -> Result<Conduct, AllocError>
    ensures { IfOk result (λ conduct. conduct ≡ spec.conduct_of function.now state.now) }
{
    Ok(Conduct {
        atomic: function.atomic,
        blocks: List::from_slice(alloc, state.blocks.as_slice())?,
        calls: List::from_slice(alloc, state.calls.as_slice())?,
    })
}

fn finished(
    alloc: Global,
    name: Text,
    function: &Function,
    parts: FunctionParts,
    state: &State,
) -> Result<Elaborated, AllocError>
    ensures { IfOk result (λ done. done ≡ spec.elaborated name function.now parts state.now) }
{
    let FunctionParts {
        result,
        params,
        body,
    } = parts;
    let shape = shape_of(alloc, name, function, params.as_slice(), state.made.len())?;
    let conduct = conduct_of(alloc, function, state)?;
    Ok(Elaborated {
        function: cc_core::Function {
            shape,
            default: default_of(result),
            body,
        },
        conduct,
    })
}

fn share_atomic(scope: &Scope<'_>, state: &mut State, is_atomic: bool) -> Result<(), AllocError>
    ensures { Gives (spec.share_atomic is_atomic (context scope.now) state.old) result state.new }
{
    if is_atomic {
        return state.share(ShareRule::AtomicUsed, scope.line);
    }
    Ok(())
}

#[tactic(auto, unfolding(crate::specs::Functions::function_at))]
fn function_at(
    alloc: Global,
    scope: &Scope<'_>,
    state: &mut State,
    is_main: bool,
    name: Text,
    function: &Function,
) -> Result<Elaborated, AllocError>
    ensures { Gives (spec.function_at (context scope.now) is_main name function.now state.old) result state.new }
{
    begin(alloc, state);
    share_atomic(scope, state, function.atomic)?;
    let parts = parts(alloc, scope, state, is_main, function)?;
    finished(alloc, name, function, parts, state)
}

/// A function, by the name that is listed.
pub(crate) fn function(
    alloc: Global,
    scope: &Scope<'_>,
    state: &mut State,
    is_main: bool,
    name: Text,
    function: &Function,
) -> Result<Elaborated, AllocError>
    ensures { Gives (spec.function (context scope.now) is_main name function.now state.old) result state.new }
{
    let here = Scope {
        line: function.line,
        ..*scope
    };
    function_at(alloc, &here, state, is_main, name, function)
}
