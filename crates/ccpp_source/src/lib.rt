//! Source texts: the program of one, and why another text is none.
//!
//! The crate knows the front end by what it answers. It must know nothing of runs, of words and of files.
#![tactic(auto)]

mod source;

pub use source::{Refusal, read_source};
