//! One run of a program, and its report.
//!
//! A run is what the source definition says, and the contracts speak of that alone: how the run is made is this crate's own affair.
//! Today the tree stepper makes it, in turns of a few steps by each thread that can move.
//!
//! The crate knows the stepper (`cc_walk`) and the laws of typed sources. It must know nothing of words, files and trees.
#![tactic(auto)]

mod execution;
mod order;
mod outcome;
mod report;
mod run;
mod schedule;

pub use outcome::Outcome;
pub use report::{push_line, push_sharing, standing_text, write_report};
pub use run::run_program;
