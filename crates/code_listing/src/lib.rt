//! The listing of stack code as text.
//!
//! The crate knows code by its look-ups (`stack_code`). It must know nothing of threads.
#![tactic(auto)]

mod lines;

pub use lines::listing;
