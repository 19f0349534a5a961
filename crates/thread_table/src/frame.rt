use ccpp_edge::List;
use global_ptr::Value;
use std::alloc::AllocError;

/// How many threads a processor may make.
pub const MOST_THREADS: u32 = 1_048_576;

/// How many functions a thread may be inside.
pub const MOST_INSIDE: u32 = 4096;

/// An entered function, or the part of one that a branch of a `par` runs. This project's own.
#[derive(Debug, Drop)]
pub struct Frame {
    /// The place of the next instruction. In a frame that is not entered, the entry of the function that is to be called.
    pub code: u32,
    /// The object of a member function, void where there is none.
    pub object: Value,
    /// The addresses of the variables, by number.
    pub vars: List<Value>,
    /// Whether the function is an atomic one.
    pub atomic: bool,
    /// False exactly in the first frame of a thread whose call is still to be made.
    pub entered: bool,
}

/// Who asked for a thread through a global pointer, and is told what it gives.
#[derive(Clone, Copy, Debug, PartialEq, Eq)]
pub struct Asker {
    /// The processor that asked.
    pub from: u32,
    /// The number there of the thread that waits.
    pub ticket: u32,
}

/// A frame of a thread, with its branches.
#[derive(Debug, Drop)]
pub struct Level {
    /// The frame.
    pub frame: Frame,
    /// The number of the first thread that became a branch of it, by which its branches know it again.
    pub first: Option<u32>,
    /// How many of its branches live.
    pub branches: u32,
}

/// The frame that a branch counts to.
#[derive(Clone, Copy, Debug, PartialEq, Eq)]
pub struct Parent {
    /// The number of the frame's thread.
    pub thread: u32,
    /// The frame's place among those of that thread, from 0 at the outermost.
    pub frame: u32,
    /// The number of the frame's first branch. Another frame that comes to the same place later has another one.
    pub first: u32,
}

/// Why a function was not entered.
#[derive(Debug, PartialEq, Eq, Drop)]
pub enum FrameFault {
    /// The thread is inside as many functions as it may be.
    Deep,
    /// Want of memory.
    Memory,
}

impl From<AllocError> for FrameFault {
    ghost use Rattle.std.specs.Prelude.{◌≡◌};
    ghost use Rattle.thread_table.specs.declared.frame.FrameFault.{FrameFault};

    ghost from_gives = { λ _ fault. fault ≡ FrameFault.Memory };

    fn from(_error: AllocError) -> FrameFault {
        FrameFault::Memory
    }
}

/// Whether a thread goes on.
#[derive(Clone, Copy, Debug, PartialEq, Eq)]
pub enum ThreadState {
    /// It goes on when it is picked.
    Ready,
    /// It waits, from a block to the next pick.
    Parked,
    /// There is no such live thread.
    Gone,
}

/// Why no thread was made.
#[derive(Debug, PartialEq, Eq, Drop)]
pub enum ThreadFault {
    /// As many threads were made as may be.
    Full {
        /// How many.
        made: u32,
    },
    /// Want of memory.
    Memory,
}

impl From<AllocError> for ThreadFault {
    ghost use Rattle.std.specs.Prelude.{◌≡◌};
    ghost use Rattle.thread_table.specs.declared.frame.ThreadFault.{ThreadFault};

    ghost from_gives = { λ _ fault. fault ≡ ThreadFault.Memory };

    fn from(_error: AllocError) -> ThreadFault {
        ThreadFault::Memory
    }
}
