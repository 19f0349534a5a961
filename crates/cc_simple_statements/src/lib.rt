//! Reading statements that hold no statement: assignments, calls, printing, `spawn`, `return`, `break`, `continue`, and the empty
//! statement.
//!
//! Each function that reads answers what the reader of its symbol does, which `cc_grammar` defines; so a contract is one line,
//! and that it reads exactly its symbol is proved there.
//!
//! The crate knows expressions. It must know nothing of statements that hold others, and of names and types.
#![tactic(auto)]

mod assignments;
mod endings;
mod nodes;
mod printing;

pub use assignments::{begins_simple, maybe_simple, simple};
pub use endings::{empty, ended_by, expr_semicolon, jump, maybe_expr, plain, returned, spawned};
pub use printing::print;
