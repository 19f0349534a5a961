//! Statements: the static rules on them and the resolution of their names and types, as one recursion.
//!
//! A statement is read in a `Scope` and gives its core; the rules that are broken in it, those of sharing, what an atomic
//! function may not do, and calls are added to a `State` (`cc_scopes`). The definitions in `specs/` have a word for each function
//! here, of the same name: `Assignments`, `Declarations` and `Simple` are statements that hold no statement, and `Statements`
//! closes the recursion. Every function ensures just the outcome that its word gives, and fails for want of memory alone.
//!
//! Where a rule is broken the core says nothing. The rules and their names are this project's own; the language is that of
//! Chandy and Kesselman's CC++ definition and of Foster, Designing and Building Parallel Programs, chapter 5.
//!
//! The crate knows expressions and declared types by their outcomes. It must know nothing of functions and classes as a whole, and of steps.
#![tactic(auto)]

mod assignments;
mod branches;
mod declarations;
mod header;
mod loops;
mod simple;
mod statements;
mod whole;

pub use assignments::{Assignment, read_assignment};
pub use declarations::cells;
pub use simple::note_if;
pub use whole::{function_body, statement};
