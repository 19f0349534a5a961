//! The compiler: it makes the stack code of a core program.
//!
//! The crate knows the core program and the maker of code (`stack_code`). It must know nothing of sources and of runs.
#![tactic(auto)]

mod copies;
mod ends;
mod expressions;
mod loops;
mod program;
mod statements;

pub use program::lower;
