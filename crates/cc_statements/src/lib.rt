//! Reading statements: blocks, choices, loops, and what runs in parallel.
//!
//! Each function that reads answers what the reader of its symbol does, which `cc_grammar` defines; so a contract is one line,
//! and that it reads exactly its symbol is proved there. A function that reads takes time in proportion to the tokens that it
//! takes, and recurs in nesting alone: the statements of a block are read one after the other.
//!
//! The crate knows what reads declarations and simple statements. It must know nothing of functions, names and types.
#![tactic(auto)]

mod headers;
mod statements;

pub use cc_simple_statements::expr_semicolon;
pub use headers::int_name;
pub use statements::{block_at, statement};
