//! The load program: a source of any size, which keeps processors, messages and threads busy.
//!
//! The crate knows bytes alone. It must know nothing of the language: that its text is a program is a law of another crate.
#![tactic(auto)]

mod source;

pub use source::make_source;
