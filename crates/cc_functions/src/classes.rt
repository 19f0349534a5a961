ghost use Rattle.std.specs.Prelude.{◌≡◌, ◌++◌, ◌∷◌, [], IfOk};
ghost use Rattle.cc_scopes.specs.Elab.{Gives};
ghost use Rattle.cc_scopes.specs.Scope.{context};
ghost use Rattle.cc_functions.specs.Items as spec;

use crate::constructors::{Built, constructor};
use crate::done::Done;
use crate::functions::{begin, function};
use cc_declared::field;
use cc_elaboration::cells;
use cc_ops::{CellRun, ClassShape, Kind};
use cc_scopes::{Declared, Scope, State};
use cc_tree::{ClassDecl, Decl, Function, Member};
use ccpp_edge::{List, Text};
use std::alloc::{AllocError, Global};

fn no_members(alloc: Global) -> ClassShape
    ensures { result ≡ spec.no_members }
{
    ClassShape {
        cells: List::new(alloc),
        params: 0,
        sets: List::new(alloc),
    }
}

fn run_of(declared: Declared) -> CellRun
    ensures { result ≡ spec.run_of declared }
{
    CellRun {
        kind: declared.ty.cell_kind(declared.sync),
        count: cells(declared.shape),
    }
}

fn with_run(mut shape: ClassShape, declared: Declared) -> Result<ClassShape, AllocError>
    ensures { IfOk result (λ more. more ≡ spec.with_run shape declared) }
{
    shape.cells.push(run_of(declared))?;
    Ok(shape)
}

fn with_constructor(shape: ClassShape, built: Built) -> ClassShape
    ensures { result ≡ spec.with_constructor shape built }
{
    ClassShape {
        cells: shape.cells,
        params: built.params,
        sets: built.sets,
    }
}

fn one_run(mut none: List<CellRun>) -> Result<List<CellRun>, AllocError>
    ensures { IfOk result (λ runs. runs ≡ none ++ spec.one_int ∷ []) }
{
    none.push(CellRun {
        kind: Kind::Int,
        count: 1,
    })?;
    Ok(none)
}

fn filled_runs(runs: List<CellRun>) -> Result<List<CellRun>, AllocError>
    ensures { IfOk result (λ full. full ≡ spec.filled_runs runs) }
{
    match runs.as_slice() {
        [] => one_run(runs),
        [_, ..] => Ok(runs),
    }
}

fn filled(shape: ClassShape) -> Result<ClassShape, AllocError>
    ensures { IfOk result (λ full. full ≡ spec.filled shape) }
{
    Ok(ClassShape {
        cells: filled_runs(shape.cells)?,
        params: shape.params,
        sets: shape.sets,
    })
}

fn member_name(alloc: Global, class: &Text, name: &Text) -> Result<Text, AllocError>
    ensures { IfOk result (λ full. full ≡ spec.member_name class.now name.now) }
{
    let mut full = String::from_str(alloc, class.as_str())?;
    full.push_str(".")?;
    full.push_str(name.as_str())?;
    Text::of(alloc, full.as_str())
}

#[tactic(auto, unfolding(crate::specs::Items::field_member))]
fn field_member(
    alloc: Global,
    scope: &Scope<'_>,
    state: &mut State,
    decl: &Decl,
    done: Done,
    shape: ClassShape,
) -> Result<(Done, ClassShape), AllocError>
    ensures { Gives (spec.field_member (context scope.now) decl.now done shape state.old) result state.new }
{
    begin(alloc, state);
    let here = Scope {
        line: decl.line,
        ..*scope
    };
    let declared = field(alloc, &here, state, decl)?;
    let shape = with_run(shape, declared)?;
    Ok((done, shape))
}

#[tactic(auto, unfolding(crate::specs::Items::function_member))]
fn function_member(
    alloc: Global,
    scope: &Scope<'_>,
    state: &mut State,
    class: &ClassDecl,
    declared: &Function,
    done: Done,
    shape: ClassShape,
) -> Result<(Done, ClassShape), AllocError>
    ensures { Gives (spec.function_member (context scope.now) class.now declared.now done shape state.old) result state.new }
{
    let name = member_name(alloc, &class.name, &declared.name)?;
    let function = function(alloc, scope, state, false, name, declared)?;
    let done = done.with_function(function)?;
    Ok((done, shape))
}

fn member(
    alloc: Global,
    scope: &Scope<'_>,
    state: &mut State,
    class: &ClassDecl,
    so_far: (Done, ClassShape),
    member: &Member,
) -> Result<(Done, ClassShape), AllocError>
    ensures { Gives (spec.member_by member.now (context scope.now) class.now so_far.0 so_far.1 state.old) result state.new }
{
    let (done, shape) = so_far;
    match member {
        Member::Field(decl) => field_member(alloc, scope, state, decl, done, shape),
        Member::Func(function) => {
            function_member(alloc, scope, state, class, function, done, shape)
        }
        Member::Build {
            name,
            params,
            body,
            line,
        } => {
            let built = constructor(
                alloc,
                scope,
                state,
                class,
                name,
                params.as_slice(),
                body.as_slice(),
                *line,
            )?;
            Ok((done, with_constructor(shape, built)))
        }
    }
}

fn members(
    alloc: Global,
    scope: &Scope<'_>,
    state: &mut State,
    class: &ClassDecl,
    done: Done,
    mut all: &[Member],
) -> Result<(Done, ClassShape), AllocError>
    ensures { Gives (spec.members_from (context scope.now) class.now done spec.no_members all.entry.now state.old) result state.new }
{
    let mut so_far = (done, no_members(alloc));
    while let [first, rest @ ..] = all {
        so_far = member(alloc, scope, state, class, so_far, first)?;
        all = rest;
    }
    Ok(so_far)
}

/// A class.
#[tactic(auto, unfolding(crate::specs::Items::class_item))]
pub(crate) fn class_item(
    alloc: Global,
    scope: &Scope<'_>,
    state: &mut State,
    class: &ClassDecl,
    done: Done,
) -> Result<Done, AllocError>
    ensures { Gives (spec.class_item (context scope.now) class.now done state.old) result state.new }
{
    let (done, shape) = members(alloc, scope, state, class, done, class.members.as_slice())?;
    let shape = filled(shape)?;
    done.with_class(shape)
}
