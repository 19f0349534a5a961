ghost use Rattle.std.specs.Prelude.{◌≡◌, ◌+◌, ◌++◌, [], OnOk, IfOk};
ghost use Rattle.cc_names.specs.Declarations as spec;
ghost use Rattle.cc_names.specs.Table as table_spec;

use crate::broken::Broken;
use crate::rule::StaticRule;
use crate::table::Table;
use cc_tree::{Item, Member};
use ccpp_edge::{List, Text};
use std::alloc::{AllocError, Global};

/// A class, by its number in declared order, from 0.
#[derive(Clone, Copy, Debug, PartialEq, Eq)]
pub struct ClassId(pub u32);

/// A function, by its number in the order of the text, from 0. Functions of classes count, constructors do not.
#[derive(Clone, Copy, Debug, PartialEq, Eq)]
pub struct FunId(pub u32);

/// A member of a class, by its number in declared order, from 0. Constructors do not count.
#[derive(Clone, Copy, Debug, PartialEq, Eq)]
pub struct MemberId(pub u32);

/// What a name of the file stands for.
#[derive(Clone, Copy, Debug, PartialEq, Eq)]
pub enum Entity {
    /// A constant, by its number in declared order, from 0.
    Constant(u32),
    /// A class.
    Class(ClassId),
    /// A function of the file.
    Function(FunId),
}

/// The next number. More names than there are numbers fit into no memory.
fn next(number: u32) -> Result<u32, AllocError>
    ensures { IfOk result (λ after. after ≡ number + 1) }
{
    number.checked_add(1).ok_or(AllocError)
}

/// Puts a declaration into a table. A name that is there already stays what it is, and breaks a rule.
fn add<V: Copy>(
    alloc: Global,
    table: &mut Table<V>,
    broken: &mut List<Broken>,
    name: &Text,
    line: u32,
    value: V,
) -> Result<(), AllocError>
    ensures table { OnOk result (table.new ≡ table_spec.with_name table.old (table_spec.declared name.now line value)) }
    ensures broken { OnOk result (broken.new ≡ broken.old ++ table_spec.again table.old (table_spec.declared name.now line value)) }
{
    if table.get(name).is_some() {
        return broken.push(Broken::Rule {
            rule: StaticRule::NameTwice,
            line,
        });
    }
    table.push(alloc, name, value)
}

/// The number of functions after those of a class.
fn after_methods(functions: u32, members: &[Member]) -> Result<u32, AllocError>
    ensures { IfOk result (λ after. after ≡ spec.after_methods functions members.now) }
{
    let mut after = functions;
    for member in members {
        if let Member::Func(_) = member {
            after = next(after)?;
        }
    }
    Ok(after)
}

/// The constants, classes and functions of a file. A name that is declared again breaks a rule.
pub(crate) fn file_table(
    alloc: Global,
    broken: &mut List<Broken>,
    items: &[Item],
) -> Result<Table<Entity>, AllocError>
    ensures table { IfOk result (λ table. table ≡ table_spec.once [] (spec.file items.now)) }
    ensures broken { OnOk result (broken.new ≡ broken.old ++ table_spec.twice [] (spec.file items.now)) }
{
    let mut table = Table::new(alloc);
    let mut constants = 0;
    let mut classes = 0;
    let mut functions = 0;
    for item in items {
        match item {
            Item::Const { name, line, .. } => {
                add(
                    alloc,
                    &mut table,
                    broken,
                    name,
                    *line,
                    Entity::Constant(constants),
                )?;
                constants = next(constants)?;
            }
            Item::Class(class) => {
                add(
                    alloc,
                    &mut table,
                    broken,
                    &class.name,
                    class.line,
                    Entity::Class(ClassId(classes)),
                )?;
                classes = next(classes)?;
                functions = after_methods(functions, class.members.as_slice())?;
            }
            Item::Func(function) => {
                add(
                    alloc,
                    &mut table,
                    broken,
                    &function.name,
                    function.line,
                    Entity::Function(FunId(functions)),
                )?;
                functions = next(functions)?;
            }
        }
    }
    Ok(table)
}

/// The members of a class. A name that is declared again breaks a rule.
pub(crate) fn member_table(
    alloc: Global,
    broken: &mut List<Broken>,
    members: &[Member],
) -> Result<Table<MemberId>, AllocError>
    ensures table { IfOk result (λ table. table ≡ table_spec.once [] (spec.members members.now)) }
    ensures broken { OnOk result (broken.new ≡ broken.old ++ table_spec.twice [] (spec.members members.now)) }
{
    let mut table = Table::new(alloc);
    let mut number = 0;
    for member in members {
        let (name, line) = match member {
            Member::Field(field) => (&field.name, field.line),
            Member::Func(function) => (&function.name, function.line),
            Member::Build { .. } => continue,
        };
        add(alloc, &mut table, broken, name, line, MemberId(number))?;
        number = next(number)?;
    }
    Ok(table)
}
