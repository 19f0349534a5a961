ghost use Rattle.std.specs.Prelude.{◌≡◌, ◌+◌, IfOk};
ghost use Rattle.cc_scopes.specs.Elab.{Gives};
ghost use Rattle.cc_scopes.specs.Scope.{context};
ghost use Rattle.cc_functions.specs.Items as spec;

use crate::classes::class_item;
use crate::done::Done;
use crate::functions::{begin, function};
use cc_names::{ClassId, Names};
use cc_scopes::{Scope, State, Tables};
use cc_tables::outside;
use cc_tree::{ClassDecl, Expr, Function, Item};
use cc_typing::constant;
use ccpp_edge::Text;
use std::alloc::{AllocError, Global};

/// The items of a program that are read so far.
#[derive(Drop)]
pub(crate) struct SoFar {
    /// The number of constants.
    pub(crate) constants: u32,
    /// The number of classes.
    pub(crate) classes: u32,
    /// What is done.
    pub(crate) done: Done,
}

/// The next number. More items than there are numbers fit into no memory.
fn next(number: u32) -> Result<u32, AllocError>
    ensures { IfOk result (λ after. after ≡ number + 1) }
{
    number.checked_add(1).ok_or(AllocError)
}

#[tactic(auto, unfolding(crate::specs::Items::constant_item))]
fn constant_item(
    alloc: Global,
    scope: &Scope<'_>,
    state: &mut State,
    value: &Expr,
) -> Result<(), AllocError>
    ensures { Gives (spec.constant_item (context scope.now) value.now state.old) result state.new }
{
    begin(alloc, state);
    constant(alloc, scope, state, value)?;
    Ok(())
}

#[tactic(auto, unfolding(crate::specs::Items::function_item))]
fn function_item(
    alloc: Global,
    scope: &Scope<'_>,
    state: &mut State,
    declared: &Function,
    done: Done,
) -> Result<Done, AllocError>
    ensures { Gives (spec.function_item (context scope.now) declared.now done state.old) result state.new }
{
    let is_main = declared.name.as_str() == "main";
    let name = Text::of(alloc, declared.name.as_str())?;
    let function = function(alloc, scope, state, is_main, name, declared)?;
    done.with_function(function)
}

#[tactic(auto, unfolding(crate::specs::Items::after_constant))]
fn after_constant(
    alloc: Global,
    names: &Names,
    tables: &Tables,
    state: &mut State,
    so_far: SoFar,
    value: &Expr,
    line: u32,
) -> Result<SoFar, AllocError>
    ensures { Gives (spec.after_constant names.now tables.now so_far value.now line state.old) result state.new }
{
    let SoFar {
        constants,
        classes,
        done,
    } = so_far;
    let scope = outside(names, tables, constants, None, line);
    let after = next(constants)?;
    constant_item(alloc, &scope, state, value)?;
    Ok(SoFar {
        constants: after,
        classes,
        done,
    })
}

fn class_at(
    alloc: Global,
    names: &Names,
    tables: &Tables,
    state: &mut State,
    numbers: (u32, u32),
    class: &ClassDecl,
    done: Done,
) -> Result<Done, AllocError>
    ensures { Gives (spec.class_at names.now tables.now numbers.0 numbers.1 class.now done state.old) result state.new }
{
    let scope = outside(
        names,
        tables,
        numbers.0,
        Some(ClassId(numbers.1)),
        class.line,
    );
    class_item(alloc, &scope, state, class, done)
}

fn function_at(
    alloc: Global,
    names: &Names,
    tables: &Tables,
    state: &mut State,
    constants: u32,
    function: &Function,
    done: Done,
) -> Result<Done, AllocError>
    ensures { Gives (spec.function_at names.now tables.now constants function.now done state.old) result state.new }
{
    let scope = outside(names, tables, constants, None, function.line);
    function_item(alloc, &scope, state, function, done)
}

#[tactic(auto, unfolding(crate::specs::Items::after_class))]
fn after_class(
    alloc: Global,
    names: &Names,
    tables: &Tables,
    state: &mut State,
    so_far: SoFar,
    class: &ClassDecl,
) -> Result<SoFar, AllocError>
    ensures { Gives (spec.after_class names.now tables.now so_far class.now state.old) result state.new }
{
    let SoFar {
        constants,
        classes,
        done,
    } = so_far;
    let after = next(classes)?;
    let numbers = (constants, classes);
    let done = class_at(alloc, names, tables, state, numbers, class, done)?;
    Ok(SoFar {
        constants,
        classes: after,
        done,
    })
}

#[tactic(auto, unfolding(crate::specs::Items::after_function))]
fn after_function(
    alloc: Global,
    names: &Names,
    tables: &Tables,
    state: &mut State,
    so_far: SoFar,
    function: &Function,
) -> Result<SoFar, AllocError>
    ensures { Gives (spec.after_function names.now tables.now so_far function.now state.old) result state.new }
{
    let SoFar {
        constants,
        classes,
        done,
    } = so_far;
    let done = function_at(alloc, names, tables, state, constants, function, done)?;
    Ok(SoFar {
        constants,
        classes,
        done,
    })
}

fn after_item(
    alloc: Global,
    names: &Names,
    tables: &Tables,
    state: &mut State,
    so_far: SoFar,
    item: &Item,
) -> Result<SoFar, AllocError>
    ensures { Gives (spec.after_item names.now tables.now item.now so_far state.old) result state.new }
{
    match item {
        Item::Const { value, line, .. } => {
            after_constant(alloc, names, tables, state, so_far, value, *line)
        }
        Item::Class(class) => after_class(alloc, names, tables, state, so_far, class),
        Item::Func(function) => after_function(alloc, names, tables, state, so_far, function),
    }
}

fn all_items(
    alloc: Global,
    names: &Names,
    tables: &Tables,
    state: &mut State,
    mut all: &[Item],
) -> Result<SoFar, AllocError>
    ensures { Gives (spec.items_from names.now tables.now spec.start all.entry.now state.old) result state.new }
{
    let mut so_far = SoFar {
        constants: 0,
        classes: 0,
        done: Done::nothing(alloc),
    };
    while let [first, rest @ ..] = all {
        so_far = after_item(alloc, names, tables, state, so_far, first)?;
        all = rest;
    }
    Ok(so_far)
}

/// The core of a program's functions and classes, with the rules of the second group that are broken in them but for those that
/// calls in atomic functions break.
#[tactic(auto, unfolding(crate::specs::Items::items))]
pub fn items(
    alloc: Global,
    names: &Names,
    tables: &Tables,
    state: &mut State,
    all: &[Item],
) -> Result<Done, AllocError>
    ensures { Gives (spec.items names.now tables.now all.now state.old) result state.new }
{
    let so_far = all_items(alloc, names, tables, state, all)?;
    Ok(so_far.done)
}
