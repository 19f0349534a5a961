//! Nodes of functions and members, from what their symbols stand for.

ghost use Rattle.std.specs.Prelude.{◌≡◌, [], ◌∷◌, IfOk};
ghost use Rattle.cc_grammar.specs.Nodes as nodes;

use cc_declarations::{decl_of, type_of};
use cc_grammar::{Block, Name, Pointer, Slot, Spec};
use cc_tree::{Function, Member, Param, Start};
use ccpp_edge::List;
use std::alloc::{AllocError, Global};

pub fn function_of(
    spec: Spec,
    pointer: Pointer,
    name: Name,
    params: List<Param>,
    block: Block,
) -> Function
    ensures { result ≡ nodes.function_of spec pointer name params block }
{
    let line = spec.line;
    let Name { text: name, .. } = name;
    let Block { body, .. } = block;
    Function {
        name,
        atomic: false,
        result: type_of(spec, pointer),
        params,
        body,
        line,
    }
}

/// A function behind the word `atomic` at this line.
pub fn atomic_of(line: u32, function: Function) -> Function
    ensures { result ≡ nodes.atomic_of line function }
{
    let Function {
        name,
        result,
        params,
        body,
        ..
    } = function;
    Function {
        name,
        atomic: true,
        result,
        params,
        body,
        line,
    }
}

/// A field that shares the first word of its type with others.
pub fn field_of(alloc: Global, spec: &Spec, slot: Slot) -> Result<Member, AllocError>
    ensures { IfOk result (λ member. member ≡ nodes.field_of spec.now slot) }
{
    Ok(Member::Field(decl_of(alloc, spec, slot, Start::Nothing)?))
}

pub fn build_of(name: Name, params: List<Param>, block: Block) -> Member
    ensures { result ≡ nodes.build_of name params block }
{
    let Name { text: name, line } = name;
    let Block { body, .. } = block;
    Member::Build {
        name,
        params,
        body,
        line,
    }
}

/// A member alone.
pub fn alone(alloc: Global, member: Member) -> Result<List<Member>, AllocError>
    ensures { IfOk result (λ members. members ≡ member ∷ []) }
{
    let mut members = List::new(alloc);
    members.push(member)?;
    Ok(members)
}
