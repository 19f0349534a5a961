//! Expressions: the static rules on them and the resolution of their names and types, as one recursion.
//!
//! An expression is read in a `Scope` and found to be a `Typed`; what is collected on the way is added to a `State`
//! (`cc_scopes`). The definitions in `specs/` have a word for each function here, of the same name: `Calls`, `Objects` and `New`
//! hold the rules, beside those on operators (`cc_operators`), `Parts` and `Expr` close the recursion, and `Whole` is what
//! statements and declarations use. Every function ensures just the outcome that its word gives, and fails for want of memory
//! alone.
//!
//! The rules and their names are this project's own; the language is that of Chandy and Kesselman's CC++ definition and of
//! Foster, Designing and Building Parallel Programs, chapter 5.
//!
//! The crate knows scopes and operators. It must know nothing of statements and of steps.
#![tactic(auto)]

mod calls;
mod elaborator;
mod forms;
mod new;
mod objects;
mod suffixes;
mod whole;

pub use calls::{Args, args_rule};
pub use cc_operators::joined;
pub use whole::{args, array_length, constant, expr, fitting, operand, place, written};
