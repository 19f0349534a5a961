//! Tests of `cc_names`: the numbers of names, and rules of names that are broken.

use cc_names::{ClassId, FunId, MemberId, Names, StaticLimit, StaticRule, TypeFault};
use cc_tree::{Base, ClassDecl, Decl, Function, Item, Member, Program, Start, TypeName};
use ccpp_edge::{List, Text};
use std::alloc::{AllocError, Global};
use std::test::Fail;

fn int_type() -> TypeName {
    TypeName {
        base: Base::Int,
        star: false,
        remote: false,
        once: false,
    }
}

fn function(alloc: Global, name: &str, line: u32) -> Result<Function, AllocError> {
    Ok(Function {
        name: Text::of(alloc, name)?,
        atomic: false,
        result: int_type(),
        params: List::new(alloc),
        body: List::new(alloc),
        line,
    })
}

fn field(alloc: Global, name: &str, line: u32) -> Result<Decl, AllocError> {
    Ok(Decl {
        ty: int_type(),
        name: Text::of(alloc, name)?,
        length: None,
        start: Start::Nothing,
        line,
    })
}

/// A class with a field `n` and a function `add`, and the functions of the file.
fn program(alloc: Global, functions: &[&str]) -> Result<Program, AllocError> {
    let mut members = List::new(alloc);
    members.push(Member::Field(field(alloc, "n", 1)?))?;
    members.push(Member::Func(function(alloc, "add", 2)?))?;
    let mut items = List::new(alloc);
    items.push(Item::Class(ClassDecl {
        name: Text::of(alloc, "Counter")?,
        remote: false,
        members,
        line: 1,
    }))?;
    for name in functions {
        items.push(Item::Func(function(alloc, name, 3)?))?;
    }
    Ok(Program { items })
}

#[test]
fn names_have_numbers(rt: HostRuntime) -> Result<(), Fail> {
    let alloc = rt.alloc();
    let names = Names::of(alloc, &program(alloc, &["main"])?)?;
    assert_eq!(rt; names.class(&Text::of(alloc, "Counter")?), Some(ClassId(0)));
    assert_eq!(rt; names.function(&Text::of(alloc, "main")?), Some(FunId(1)));
    assert_eq!(rt;
        names.member(ClassId(0), &Text::of(alloc, "add")?),
        Some(MemberId(1))
    );
    assert_eq!(rt; names.constant(&Text::of(alloc, "main")?), None);
    Ok(())
}

#[test]
fn broken_rules_are_named(rt: HostRuntime) -> Result<(), Fail> {
    let alloc = rt.alloc();
    let none = Names::of(alloc, &program(alloc, &[])?).err();
    let twice = Names::of(alloc, &program(alloc, &["main", "Counter"])?).err();
    assert_eq!(rt;
        none,
        Some(TypeFault::Rule {
            rule: StaticRule::NoMain,
            line: 1
        })
    );
    assert_eq!(rt;
        twice,
        Some(TypeFault::Rule {
            rule: StaticRule::NameTwice,
            line: 3
        })
    );
    assert_eq!(rt; StaticRule::NameTwice.name(), "NameTwice");
    assert_eq!(rt; StaticLimit::ArrayLength.name(), "ArrayLength");
    Ok(())
}
