//! Operators in expressions: the types of their operands, the values of constant expressions, and the address of a place.
//!
//! `Operators` in `specs/` says of an operator before an operand (`unary`) and between two (`joined`) what the expression is and
//! which rule it breaks; of one between two, `joint` says which operator of the core and of the machine it is. `Folding` says the
//! value of an operator of constants, which is that of `cc_ops`. Every function ensures just the outcome that its word gives, and
//! fails for want of memory alone.
//!
//! The rules are this project's own; the operators are those of C++.
//!
//! The crate knows scopes and the operators of the machine (`cc_ops`). It must know nothing of names, calls and statements.
#![tactic(auto)]

mod folding;
mod joint;
mod operators;

pub use operators::{joined, unary};
