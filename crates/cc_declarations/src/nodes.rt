//! Nodes of declarations.

ghost use Rattle.std.specs.Prelude.{◌≡◌, IfOk};
ghost use Rattle.cc_grammar.specs.Nodes as nodes;

use cc_grammar::{Name, Pointer, Slot, Spec};
use cc_tree::{Base, Decl, Expr, Param, Start, Stmt, StmtKind, TypeName};
use ccpp_edge::Text;
use std::alloc::{AllocError, Global};

/// A copy of what a type begins with.
fn copy_of(alloc: Global, base: &Base) -> Result<Base, AllocError>
    ensures { IfOk result (λ copy. copy ≡ base.now) }
{
    match base {
        Base::Void => Ok(Base::Void),
        Base::Int => Ok(Base::Int),
        Base::SyncInt => Ok(Base::SyncInt),
        Base::Named(name) => Ok(Base::Named(Text::of(alloc, name.as_str())?)),
    }
}

/// A type of which the first word is shared.
fn shared_type(alloc: Global, spec: &Spec, pointer: Pointer) -> Result<TypeName, AllocError>
    ensures { IfOk result (λ ty. ty ≡ nodes.type_of spec.now pointer) }
{
    Ok(TypeName {
        base: copy_of(alloc, &spec.base)?,
        star: pointer.star,
        remote: pointer.remote,
        once: pointer.once,
    })
}

/// A type.
pub fn type_of(spec: Spec, pointer: Pointer) -> TypeName
    ensures { result ≡ nodes.type_of spec pointer }
{
    let Spec { base, .. } = spec;
    TypeName {
        base,
        star: pointer.star,
        remote: pointer.remote,
        once: pointer.once,
    }
}

/// A parameter.
pub fn param_of(spec: Spec, pointer: Pointer, name: Name) -> Param
    ensures { result ≡ nodes.param_of spec pointer name }
{
    let line = spec.line;
    let Name { text: name, .. } = name;
    Param {
        ty: type_of(spec, pointer),
        name,
        line,
    }
}

/// A declared name.
pub fn slot_of(pointer: Pointer, name: Name, length: Option<Expr>) -> Slot
    ensures { result ≡ nodes.slot_of pointer name length }
{
    let Name { text: name, .. } = name;
    Slot {
        pointer,
        name,
        length,
    }
}

/// A declaration that shares the first word of its type with others.
pub fn decl_of(alloc: Global, spec: &Spec, slot: Slot, start: Start) -> Result<Decl, AllocError>
    ensures { IfOk result (λ decl. decl ≡ nodes.decl_of spec.now slot start) }
{
    let Slot {
        pointer,
        name,
        length,
    } = slot;
    Ok(Decl {
        ty: shared_type(alloc, spec, pointer)?,
        name,
        length,
        start,
        line: spec.line,
    })
}

/// The statement that is such a declaration.
pub fn declared(alloc: Global, spec: &Spec, slot: Slot, start: Start) -> Result<Stmt, AllocError>
    ensures { IfOk result (λ stmt. stmt ≡ nodes.declared spec.now slot start) }
{
    Ok(Stmt {
        kind: StmtKind::Declare(decl_of(alloc, spec, slot, start)?),
        line: spec.line,
    })
}
