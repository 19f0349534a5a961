//! The parser: the program that the tokens of a text spell, or the place at which they stop being the front of one.
//!
//! Each function that reads answers what the reader of its symbol does, which `cc_grammar` defines; that a reader reads exactly
//! its symbol is proved there. Reading recurs in nesting alone.
//!
//! The crate knows what reads statements and declarations. It must know nothing of names and types.
#![tactic(auto)]

mod fault;
mod functions;
mod items;
mod members;
mod nodes;
mod parser;

pub use fault::ParseFault;
pub use parser::{MAX_LEVELS, line_at, parse};
