ghost use Rattle.std.specs.Prelude.{◌≡◌, ◌+◌, ◌++◌, OnOk, IfOk};
ghost use Rattle.cc_tables.specs.Tables as spec;
ghost use Rattle.cc_names.specs.Declarations.{after_methods};
ghost use Rattle.cc_scopes.specs.Scope.{context};

use crate::constants::{constants_of, outside};
use cc_declared::{field, parameter, returned, value_type};
use cc_names::{ClassId, FunId, Names};
use cc_scopes::{Class, Declared, Member as Entry, Scope, Shape, Signature, State, Tables, Ty};
use cc_tree::{ClassDecl, Decl, Function, Item, Member, Param};
use ccpp_edge::List;
use std::alloc::{AllocError, Global};

/// The next number. More functions, constants or cells than there are numbers fit into no memory.
fn after(number: u32, more: u32) -> Result<u32, AllocError>
    ensures { IfOk result (λ next. next ≡ number + more) }
{
    number.checked_add(more).ok_or(AllocError)
}

fn width(shape: Shape) -> u32
    ensures { result ≡ spec.width shape }
{
    match shape {
        Shape::Cell => 1,
        Shape::Array(length) => length,
        Shape::Object(_) => 1,
    }
}

/// What a field is declared as.
fn field_of(alloc: Global, scope: &Scope<'_>, decl: &Decl) -> Result<Declared, AllocError>
    ensures { IfOk result (λ declared. declared ≡ spec.field_of (context scope.now) decl.now) }
{
    let mut state = State::new(alloc);
    field(alloc, scope, &mut state, decl)
}

/// The members of a class, its functions behind so many others.
fn members_of(
    alloc: Global,
    scope: &Scope<'_>,
    functions: u32,
    members: &[Member],
) -> Result<List<Entry>, AllocError>
    ensures { IfOk result (λ entries. entries ≡ spec.members_from (context scope.now) 0 functions members.now) }
{
    let mut entries = List::new(alloc);
    let mut cells = 0;
    let mut next = functions;
    for member in members {
        match member {
            Member::Field(decl) => {
                let declared = field_of(alloc, scope, decl)?;
                entries.push(Entry::Field {
                    declared,
                    offset: cells,
                })?;
                cells = after(cells, width(declared.shape))?;
            }
            Member::Func(_) => {
                entries.push(Entry::Method(FunId(next)))?;
                next = after(next, 1)?;
            }
            Member::Build { .. } => {}
        }
    }
    Ok(entries)
}

/// The type of a parameter's values.
fn param_type(alloc: Global, scope: &Scope<'_>, param: &Param) -> Result<Ty, AllocError>
    ensures { IfOk result (λ ty. ty ≡ spec.param_type (context scope.now) param.now) }
{
    let mut state = State::new(alloc);
    Ok(value_type(parameter(scope, &mut state, &param.ty)?))
}

/// The type of a function's result.
fn result_of(alloc: Global, scope: &Scope<'_>, function: &Function) -> Result<Ty, AllocError>
    ensures { IfOk result (λ ty. ty ≡ spec.result_of (context scope.now) function.now) }
{
    let mut state = State::new(alloc);
    Ok(value_type(returned(scope, &mut state, &function.result)?))
}

fn param_types(alloc: Global, scope: &Scope<'_>, params: &[Param]) -> Result<List<Ty>, AllocError>
    ensures { IfOk result (λ types. types ≡ spec.param_types (context scope.now) params.now) }
{
    let mut types = List::new(alloc);
    for param in params {
        types.push(param_type(alloc, scope, param)?)?;
    }
    Ok(types)
}

/// The types of the constructor's parameters.
fn constructor_types(
    alloc: Global,
    scope: &Scope<'_>,
    members: &[Member],
) -> Result<List<Ty>, AllocError>
    ensures { IfOk result (λ types. types ≡ spec.constructor_types (context scope.now) members.now) }
{
    for member in members {
        if let Member::Build { params, .. } = member {
            return param_types(alloc, scope, params.as_slice());
        }
    }
    Ok(List::new(alloc))
}

fn class_of(
    alloc: Global,
    scope: &Scope<'_>,
    functions: u32,
    class: &ClassDecl,
) -> Result<Class, AllocError>
    ensures { IfOk result (λ entry. entry ≡ spec.class_of (context scope.now) functions class.now) }
{
    let members = members_of(alloc, scope, functions, class.members.as_slice())?;
    let constructor = constructor_types(alloc, scope, class.members.as_slice())?;
    Ok(Class {
        remote: class.remote,
        members,
        constructor,
    })
}

/// The number of functions after those of a class.
fn after_class(functions: u32, members: &[Member]) -> Result<u32, AllocError>
    ensures { IfOk result (λ next. next ≡ after_methods functions members.now) }
{
    let mut next = functions;
    for member in members {
        if let Member::Func(_) = member {
            next = after(next, 1)?;
        }
    }
    Ok(next)
}

fn classes_of(
    alloc: Global,
    names: &Names,
    constants: &Tables,
    items: &[Item],
) -> Result<List<Class>, AllocError>
    ensures { IfOk result (λ classes. classes ≡ spec.classes_from names.now constants.now 0 0 0 items.now) }
{
    let mut classes = List::new(alloc);
    let mut known = 0;
    let mut number = 0;
    let mut functions = 0;
    for item in items {
        match item {
            Item::Const { .. } => known = after(known, 1)?,
            Item::Class(class) => {
                let own = Some(ClassId(number));
                let scope = outside(names, constants, known, own, class.line);
                classes.push(class_of(alloc, &scope, functions, class)?)?;
                number = after(number, 1)?;
                functions = after_class(functions, class.members.as_slice())?;
            }
            Item::Func(_) => functions = after(functions, 1)?,
        }
    }
    Ok(classes)
}

fn signature(
    alloc: Global,
    scope: &Scope<'_>,
    is_main: bool,
    function: &Function,
) -> Result<Signature, AllocError>
    ensures { IfOk result (λ entry. entry ≡ spec.signature (context scope.now) is_main function.now) }
{
    Ok(Signature {
        params: param_types(alloc, scope, function.params.as_slice())?,
        result: result_of(alloc, scope, function)?,
        is_main,
    })
}

/// Puts the functions of a class behind others.
fn add_methods(
    alloc: Global,
    scope: &Scope<'_>,
    functions: &mut List<Signature>,
    members: &[Member],
) -> Result<(), AllocError>
    ensures { OnOk result (functions.new ≡ functions.old ++ spec.methods (context scope.now) members.now) }
{
    for member in members {
        if let Member::Func(function) = member {
            functions.push(signature(alloc, scope, false, function)?)?;
        }
    }
    Ok(())
}

fn functions_of(
    alloc: Global,
    scope: &Scope<'_>,
    items: &[Item],
) -> Result<List<Signature>, AllocError>
    ensures { IfOk result (λ functions. functions ≡ spec.functions_of (context scope.now) items.now) }
{
    let mut functions = List::new(alloc);
    for item in items {
        match item {
            Item::Const { .. } => {}
            Item::Class(class) => {
                add_methods(alloc, scope, &mut functions, class.members.as_slice())?;
            }
            Item::Func(function) => {
                let is_main = function.name.as_str() == "main";
                functions.push(signature(alloc, scope, is_main, function)?)?;
            }
        }
    }
    Ok(functions)
}

/// What the classes, functions and constants of a program are. It fails for want of memory alone.
#[tactic(auto, unfolding(crate::specs::Tables::tables_of))]
pub fn tables_of(alloc: Global, names: &Names, items: &[Item]) -> Result<Tables, AllocError>
    ensures { IfOk result (λ tables. tables ≡ spec.tables_of names.now items.now) }
{
    let constants = constants_of(alloc, names, items)?;
    let classes = classes_of(alloc, names, &constants, items)?;
    let functions = functions_of(alloc, &outside(names, &constants, 0, None, 0), items)?;
    Ok(Tables {
        classes,
        functions,
        constants: constants.constants,
    })
}
