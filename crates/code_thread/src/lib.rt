//! One thread of code: what it asks next, and how it goes on after the answer.
//!
//! The crate knows code and what a thread of numbers asks (`numbered_threads`). It must know nothing of other threads, of cells and of
//! processors.
#![tactic(auto)]

mod ask;
mod branches;
mod frame;
mod look;
mod moves;
mod running;
mod shapes;
mod stack;
mod taken;
mod thread;
mod values;

pub use ask::{Ask, Look};
pub use shapes::{class, function, is_atomic, parameters};
pub use stack::Stack;
pub use thread::Thread;
