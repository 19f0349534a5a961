ghost use Rattle.std.specs.Prelude.{◌≡◌, ◌++◌, [], map, OnOk, IfOk};
ghost use Rattle.std.specs.List.{list_any};
ghost use Rattle.cc_names.specs.Declarations.{file, members as members_of};
ghost use Rattle.cc_names.specs.Group as spec;
ghost use Rattle.cc_names.specs.Names.{member_tables};
ghost use Rattle.cc_names.specs.Table.{once};

use crate::broken::Broken;
use crate::declarations::{Entity, MemberId, file_table, member_table};
use crate::rule::{StaticLimit, StaticRule};
use crate::table::Table;
use cc_tree::{Item, Member, Param};
use ccpp_edge::List;
use std::alloc::{AllocError, Global};

const MAX_CLASSES: usize = 256;

const MAX_FUNCTIONS: usize = 1024;

const MAX_MEMBERS: usize = 256;

const MAX_PARAMETERS: usize = 8;

fn is_main(item: &Item) -> bool
    ensures { result ≡ spec.is_main item.now }
{
    match item {
        Item::Func(function) => function.name.as_str() == "main",
        Item::Const { .. } | Item::Class(_) => false,
    }
}

fn has_main(items: &[Item]) -> bool
    ensures { result ≡ list_any spec.is_main items.now }
{
    items.iter().any(is_main)
}

/// There is to be a function `main`.
pub(crate) fn no_main(broken: &mut List<Broken>, items: &[Item]) -> Result<(), AllocError>
    ensures { OnOk result (broken.new ≡ broken.old ++ spec.no_main items.now) }
{
    if has_main(items) {
        return Ok(());
    }
    broken.push(Broken::Rule {
        rule: StaticRule::NoMain,
        line: 1,
    })
}

/// A limit is broken by the declaration past it.
fn past(broken: &mut List<Broken>, which: StaticLimit, line: Option<u32>) -> Result<(), AllocError>
    ensures { OnOk result (broken.new ≡ broken.old ++ spec.past which line) }
{
    match line {
        None => Ok(()),
        Some(line) => broken.push(Broken::Limit { which, line }),
    }
}

fn class_lines(alloc: Global, items: &[Item]) -> Result<List<u32>, AllocError>
    ensures { IfOk result (λ lines. lines ≡ spec.class_lines items.now) }
{
    let mut lines = List::new(alloc);
    for item in items {
        if let Item::Class(class) = item {
            lines.push(class.line)?;
        }
    }
    Ok(lines)
}

/// Puts the lines of a class's functions at the end of others.
fn add_method_lines(lines: &mut List<u32>, members: &[Member]) -> Result<(), AllocError>
    ensures { OnOk result (lines.new ≡ lines.old ++ spec.method_lines members.now) }
{
    for member in members {
        if let Member::Func(function) = member {
            lines.push(function.line)?;
        }
    }
    Ok(())
}

fn function_lines(alloc: Global, items: &[Item]) -> Result<List<u32>, AllocError>
    ensures { IfOk result (λ lines. lines ≡ spec.function_lines items.now) }
{
    let mut lines = List::new(alloc);
    for item in items {
        match item {
            Item::Const { .. } => {}
            Item::Class(class) => add_method_lines(&mut lines, class.members.as_slice())?,
            Item::Func(function) => lines.push(function.line)?,
        }
    }
    Ok(lines)
}

fn member_lines(alloc: Global, members: &[Member]) -> Result<List<u32>, AllocError>
    ensures { IfOk result (λ lines. lines ≡ spec.member_lines members.now) }
{
    let mut lines = List::new(alloc);
    for member in members {
        match member {
            Member::Field(field) => lines.push(field.line)?,
            Member::Func(function) => lines.push(function.line)?,
            Member::Build { .. } => {}
        }
    }
    Ok(lines)
}

fn constructor_lines(alloc: Global, members: &[Member]) -> Result<List<u32>, AllocError>
    ensures { IfOk result (λ lines. lines ≡ spec.constructor_lines members.now) }
{
    let mut lines = List::new(alloc);
    for member in members {
        if let Member::Build { line, .. } = member {
            lines.push(*line)?;
        }
    }
    Ok(lines)
}

/// A class has at most one constructor.
fn second_constructors(broken: &mut List<Broken>, lines: &[u32]) -> Result<(), AllocError>
    ensures { OnOk result (broken.new ≡ broken.old ++ spec.second_constructors lines.now) }
{
    match lines {
        [] => Ok(()),
        [_, more @ ..] => later_constructors(broken, more),
    }
}

fn later_constructors(broken: &mut List<Broken>, lines: &[u32]) -> Result<(), AllocError>
    ensures { OnOk result (broken.new ≡ broken.old ++ map (Broken.Rule StaticRule.NameTwice) lines.now) }
{
    for line in lines {
        broken.push(Broken::Rule {
            rule: StaticRule::NameTwice,
            line: *line,
        })?;
    }
    Ok(())
}

fn parameter_rules(broken: &mut List<Broken>, params: &[Param]) -> Result<(), AllocError>
    ensures { OnOk result (broken.new ≡ broken.old ++ spec.parameter_rules params.now) }
{
    let line = params.get(MAX_PARAMETERS).map(|param| param.line);
    past(broken, StaticLimit::Parameters, line)
}

fn member_rules(broken: &mut List<Broken>, members: &[Member]) -> Result<(), AllocError>
    ensures { OnOk result (broken.new ≡ broken.old ++ spec.member_rules members.now) }
{
    for member in members {
        match member {
            Member::Field(_) => {}
            Member::Func(function) => parameter_rules(broken, function.params.as_slice())?,
            Member::Build { params, .. } => parameter_rules(broken, params.as_slice())?,
        }
    }
    Ok(())
}

/// The rules on a file: a name twice, and its limits. Gives its names.
pub(crate) fn file_rules(
    alloc: Global,
    broken: &mut List<Broken>,
    items: &[Item],
) -> Result<Table<Entity>, AllocError>
    ensures table { IfOk result (λ table. table ≡ once [] (file items.now)) }
    ensures broken { OnOk result (broken.new ≡ broken.old ++ spec.file_rules items.now) }
{
    let table = file_table(alloc, broken, items)?;
    let lines = class_lines(alloc, items)?;
    past(
        broken,
        StaticLimit::Classes,
        lines.get(MAX_CLASSES).copied(),
    )?;
    let lines = function_lines(alloc, items)?;
    past(
        broken,
        StaticLimit::Functions,
        lines.get(MAX_FUNCTIONS).copied(),
    )?;
    Ok(table)
}

/// The rules on a class: a member's name twice, a second constructor, and its limits. Gives its members.
pub(crate) fn class_rules(
    alloc: Global,
    broken: &mut List<Broken>,
    members: &[Member],
) -> Result<Table<MemberId>, AllocError>
    ensures table { IfOk result (λ table. table ≡ once [] (members_of members.now)) }
    ensures broken { OnOk result (broken.new ≡ broken.old ++ spec.class_rules members.now) }
{
    let table = member_table(alloc, broken, members)?;
    let lines = constructor_lines(alloc, members)?;
    second_constructors(broken, lines.as_slice())?;
    let lines = member_lines(alloc, members)?;
    past(
        broken,
        StaticLimit::Members,
        lines.get(MAX_MEMBERS).copied(),
    )?;
    member_rules(broken, members)?;
    Ok(table)
}

/// The rules on classes and parameters. Gives each class's members.
pub(crate) fn item_rules(
    alloc: Global,
    broken: &mut List<Broken>,
    items: &[Item],
) -> Result<List<Table<MemberId>>, AllocError>
    ensures tables { IfOk result (λ tables. tables ≡ member_tables items.now) }
    ensures broken { OnOk result (broken.new ≡ broken.old ++ spec.item_rules items.now) }
{
    let mut tables = List::new(alloc);
    for item in items {
        match item {
            Item::Const { .. } => {}
            Item::Class(class) => {
                tables.push(class_rules(alloc, broken, class.members.as_slice())?)?;
            }
            Item::Func(function) => parameter_rules(broken, function.params.as_slice())?,
        }
    }
    Ok(tables)
}
