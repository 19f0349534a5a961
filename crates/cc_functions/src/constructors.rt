ghost use Rattle.std.specs.Prelude.{◌≡◌, [], IfOk, length};
ghost use Rattle.cc_scopes.specs.Elab.{Gives};
ghost use Rattle.cc_scopes.specs.Scope.{context};
ghost use Rattle.cc_functions.specs.Constructors as spec;

use crate::builds::set_of;
use crate::functions::{begin, param};
use crate::own::names_own;
use cc_declared::value_type;
use cc_elaboration::{Assignment, note_if, read_assignment, statement};
use cc_names::StaticRule;
use cc_ops::BuildSet;
use cc_scopes::{Scope, State, Ty};
use cc_tree::{AssignOp, ClassDecl, Expr, Param, Stmt, StmtKind};
use ccpp_edge::{List, Text};
use std::alloc::{AllocError, Global};

/// A constructor.
#[derive(Drop)]
pub(crate) struct Built {
    /// The number of its parameters.
    pub(crate) params: u32,
    /// Its assignments, in order.
    pub(crate) sets: List<BuildSet>,
}

#[tactic(auto, unfolding(crate::specs::Constructors::refused))]
fn refused(scope: &Scope<'_>, state: &mut State) -> Result<Option<BuildSet>, AllocError>
    ensures { Gives (spec.refused (context scope.now) state.old) result state.new }
{
    scope.note_rule(state, StaticRule::Constructor)?;
    Ok(None)
}

fn set_or_refused(
    scope: &Scope<'_>,
    state: &mut State,
    set: Option<BuildSet>,
) -> Result<Option<BuildSet>, AllocError>
    ensures { Gives (spec.set_or_refused set (context scope.now) state.old) result state.new }
{
    match set {
        None => refused(scope, state),
        Some(set) => Ok(Some(set)),
    }
}

fn set_if(
    alloc: Global,
    is_own: bool,
    assignment: &Assignment,
) -> Result<Option<BuildSet>, AllocError>
    ensures { IfOk result (λ set. set ≡ spec.set_if is_own assignment.now) }
{
    if is_own {
        return set_of(alloc, assignment);
    }
    Ok(None)
}

fn assigned_set(
    alloc: Global,
    scope: &Scope<'_>,
    state: &mut State,
    assignment: Option<Assignment>,
    is_own: bool,
) -> Result<Option<BuildSet>, AllocError>
    ensures { Gives (spec.assigned_set assignment is_own (context scope.now) state.old) result state.new }
{
    match assignment {
        None => Ok(None),
        Some(assignment) => {
            let set = set_if(alloc, is_own, &assignment)?;
            set_or_refused(scope, state, set)
        }
    }
}

#[tactic(auto, unfolding(crate::specs::Constructors::assigned))]
fn assigned(
    alloc: Global,
    scope: &Scope<'_>,
    state: &mut State,
    target: &Expr,
    op: AssignOp,
    value: &Expr,
) -> Result<Option<BuildSet>, AllocError>
    ensures { Gives (spec.assigned (context scope.now) target.now op value.now state.old) result state.new }
{
    let assignment = read_assignment(alloc, scope, state, target, op, value)?;
    assigned_set(alloc, scope, state, assignment, names_own(target))
}

#[tactic(auto, unfolding(crate::specs::Constructors::other))]
fn other(
    alloc: Global,
    scope: &Scope<'_>,
    state: &mut State,
    s: &Stmt,
) -> Result<Option<BuildSet>, AllocError>
    ensures { Gives (spec.other (context scope.now) s.now state.old) result state.new }
{
    drop(statement(alloc, scope, state, s)?);
    let here = Scope {
        line: s.line,
        ..*scope
    };
    refused(&here, state)
}

#[tactic(auto, unfolding(crate::specs::Constructors::set))]
fn set(
    alloc: Global,
    scope: &Scope<'_>,
    state: &mut State,
    s: &Stmt,
) -> Result<Option<BuildSet>, AllocError>
    ensures { Gives (spec.set (context scope.now) s.now state.old) result state.new }
{
    match &s.kind {
        StmtKind::Assign { place, op, value } => {
            let here = Scope {
                line: s.line,
                ..*scope
            };
            assigned(alloc, &here, state, place, *op, value)
        }
        _ => other(alloc, scope, state, s),
    }
}

fn with_set(mut done: List<BuildSet>, set: Option<BuildSet>) -> Result<List<BuildSet>, AllocError>
    ensures { IfOk result (λ more. more ≡ spec.with_set done set) }
{
    match set {
        None => Ok(done),
        Some(set) => {
            done.push(set)?;
            Ok(done)
        }
    }
}

fn sets(
    alloc: Global,
    scope: &Scope<'_>,
    state: &mut State,
    mut all: &[Stmt],
) -> Result<List<BuildSet>, AllocError>
    ensures { Gives (spec.sets_from (context scope.now) [] all.entry.now state.old) result state.new }
{
    let mut done = List::new(alloc);
    while let [s, rest @ ..] = all {
        let set = set(alloc, scope, state, s)?;
        done = with_set(done, set)?;
        all = rest;
    }
    Ok(done)
}

#[tactic(auto, unfolding(crate::specs::Constructors::param_in))]
fn param_in(
    alloc: Global,
    scope: &Scope<'_>,
    state: &mut State,
    remote: bool,
    first: &Param,
) -> Result<(), AllocError>
    ensures { Gives (spec.param_in (context scope.now) remote first.now state.old) result state.new }
{
    let declared = param(alloc, scope, state, false, first)?;
    let here = Scope {
        line: first.line,
        ..*scope
    };
    note_if(
        &here,
        state,
        remote && value_type(declared).is_local_pointer(),
        StaticRule::RemoteLocal,
    )
}

fn params_in(
    alloc: Global,
    scope: &Scope<'_>,
    state: &mut State,
    remote: bool,
    mut all: &[Param],
) -> Result<(), AllocError>
    ensures { Gives (spec.params_in (context scope.now) remote all.entry.now state.old) result state.new }
{
    while let [first, rest @ ..] = all {
        param_in(alloc, scope, state, remote, first)?;
        all = rest;
    }
    Ok(())
}

/// More parameters than there are numbers fit into no memory.
fn count_of(params: &[Param]) -> Result<u32, AllocError>
    ensures { IfOk result (λ count. count ≡ length params.now) }
{
    let Ok(count) = u32::try_from(params.len()) else {
        return Err(AllocError);
    };
    Ok(count)
}

#[tactic(auto, unfolding(crate::specs::Constructors::constructor_at))]
fn constructor_at(
    alloc: Global,
    scope: &Scope<'_>,
    state: &mut State,
    class: &ClassDecl,
    name: &Text,
    params: &[Param],
    body: &[Stmt],
) -> Result<Built, AllocError>
    ensures { Gives (spec.constructor_at (context scope.now) class.now name.now params.now body.now state.old) result state.new }
{
    begin(alloc, state);
    let is_other = name.as_str() != class.name.as_str();
    note_if(scope, state, is_other, StaticRule::Constructor)?;
    params_in(alloc, scope, state, class.remote, params)?;
    let sets = sets(alloc, scope, state, body)?;
    Ok(Built {
        params: count_of(params)?,
        sets,
    })
}

/// The constructor of a class.
pub(crate) fn constructor(
    alloc: Global,
    scope: &Scope<'_>,
    state: &mut State,
    class: &ClassDecl,
    name: &Text,
    params: &[Param],
    body: &[Stmt],
    line: u32,
) -> Result<Built, AllocError>
    ensures { Gives (spec.constructor (context scope.now) class.now name.now params.now body.now line state.old) result state.new }
{
    let inside = Scope {
        result: Ty::Void,
        in_main: false,
        in_constructor: true,
        in_branch: false,
        in_loop: false,
        part: 0,
        start: 0,
        line,
        ..*scope
    };
    constructor_at(alloc, &inside, state, class, name, params, body)
}
