//! The objects of a run by their numbers.
//!
//! The crate knows cells and the machine of numbers. It must know nothing of code and of schedules.
#![tactic(auto)]

mod objects;

pub use objects::Objects;
