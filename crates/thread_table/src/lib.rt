//! The threads of one processor: their operands, the functions that they are inside, and what they wait for.
//!
//! The crate knows values and addresses. It must know nothing of code, of cells and of other processors.
#![tactic(auto)]

mod frame;
mod numbers;
mod thread;
mod threads;

pub use frame::{
    Asker, Frame, FrameFault, Level, MOST_INSIDE, MOST_THREADS, Parent, ThreadFault, ThreadState,
};
pub use threads::Threads;
