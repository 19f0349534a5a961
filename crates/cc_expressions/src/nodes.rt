//! Nodes of the tree, from what their symbols stand for.

ghost use Rattle.std.specs.Prelude.{◌≡◌, ◌∷◌, IfOk};
ghost use Rattle.cc_grammar.specs.Nodes as nodes;

use cc_grammar::Name;
use cc_tree::{Expr, ExprKind, Link, Suffix, UnaryOp};
use ccpp_edge::{Boxed, List};
use std::alloc::{AllocError, Global};

/// A list with one more item in front.
pub fn with_front<T: Drop>(alloc: Global, first: T, rest: List<T>) -> Result<List<T>, AllocError>
    ensures { IfOk result (λ all. all ≡ first ∷ rest) }
{
    let mut all = List::new(alloc);
    all.push(first)?;
    all.append(rest)?;
    Ok(all)
}

/// What is there, on the heap.
pub fn boxed<T: Drop>(alloc: Global, item: Option<T>) -> Result<Option<Boxed<T>>, AllocError>
    ensures { IfOk result (λ boxed. boxed ≡ item) }
{
    match item {
        None => Ok(None),
        Some(item) => Ok(Some(Boxed::new(alloc, item)?)),
    }
}

/// A name, alone or with arguments.
pub fn named(name: Name, args: Option<List<Expr>>) -> Expr
    ensures { result ≡ nodes.named name args }
{
    let Name { text, line } = name;
    let kind = match args {
        None => ExprKind::Name(text),
        Some(args) => ExprKind::Call { name: text, args },
    };
    Expr { kind, line }
}

/// A member behind `.` or `->`, alone or with arguments.
pub fn member_of(arrow: bool, name: Name, args: Option<List<Expr>>) -> Suffix
    ensures { result ≡ nodes.member_of arrow name args }
{
    let Name { text, .. } = name;
    match args {
        None => Suffix::Field { arrow, name: text },
        Some(args) => Suffix::CallOn {
            arrow,
            name: text,
            args,
        },
    }
}

/// An operator before its operand.
pub fn prefixed(alloc: Global, op: UnaryOp, part: Expr, line: u32) -> Result<Expr, AllocError>
    ensures { IfOk result (λ expr. expr ≡ nodes.prefixed op part line) }
{
    let part = Boxed::new(alloc, part)?;
    let kind = ExprKind::Unary { op, part };
    Ok(Expr { kind, line })
}

/// A base with its tails, or the base alone where there are none.
pub fn posted(alloc: Global, base: Expr, tail: List<Suffix>) -> Result<Expr, AllocError>
    ensures { IfOk result (λ expr. expr ≡ nodes.posted base tail) }
{
    if tail.is_empty() {
        return Ok(base);
    }
    let line = base.line;
    let base = Boxed::new(alloc, base)?;
    let kind = ExprKind::Post { base, tail };
    Ok(Expr { kind, line })
}

/// Operators of one level in a row, or the first operand alone where there are none.
pub fn chained(alloc: Global, first: Expr, rest: List<Link>) -> Result<Expr, AllocError>
    ensures { IfOk result (λ expr. expr ≡ nodes.chained first rest) }
{
    if rest.is_empty() {
        return Ok(first);
    }
    let line = first.line;
    let first = Boxed::new(alloc, first)?;
    let kind = ExprKind::Chain { first, rest };
    Ok(Expr { kind, line })
}
