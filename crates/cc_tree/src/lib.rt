//! The tree of a program, as it is written.
//!
//! Every field is public, and contracts see a tree as plain data: lists as lists, boxes as what they hold, names and texts as
//! lists of bytes. The line of a node is that of its first token, counted from 1. A tree is this project's own; what its
//! parts mean is said by the grammar in `docs/LANGUAGE.md`.
//!
//! A tree is let go by recursion on its nesting alone: a long block or a long chain of operators lies in one list.
#![tactic(auto)]

mod declarations;
mod expressions;
mod statements;

pub use declarations::{ClassDecl, Function, Item, Member, Param, Program};
pub use expressions::{BinaryOp, Expr, ExprKind, Link, Suffix, UnaryOp};
pub use statements::{AssignOp, Base, Decl, PrintItem, Start, Stmt, StmtKind, TypeName};
