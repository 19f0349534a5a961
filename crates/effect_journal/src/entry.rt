ghost use Rattle.std.specs.Prelude.{◌≡◌};
ghost use Rattle.effect_journal.specs.Journal.{is_end};

use ccpp_edge::Bytes;
use global_ptr::Standing;

/// One line of a journal: what a run did next, or how it ended. This project's own.
#[derive(Debug, Drop)]
pub enum Entry {
    /// A thread made steps.
    Run {
        /// The thread's processor.
        processor: u32,
        /// The thread's number there.
        thread: u32,
        /// How many steps, 1 or more.
        steps: u64,
    },
    /// A processor made the step of a request.
    Serve {
        /// The processor.
        processor: u32,
        /// The request as it was sent.
        request: Bytes,
    },
    /// A processor was made.
    Make {
        /// The request as it was sent.
        request: Bytes,
    },
    /// The run ended.
    End {
        /// How.
        standing: Standing,
        /// The thread whose next move is the fault, given exactly for a fault.
        by: Option<FaultBy>,
    },
}

/// The thread whose next move is a fault. For a fault in serving a request it is the one that asked.
#[derive(Clone, Copy, Debug, PartialEq, Eq)]
pub struct FaultBy {
    /// Its processor.
    pub processor: u32,
    /// Its number there.
    pub thread: u32,
}

impl Entry {
    /// Whether it says how the run ended.
    pub fn is_end(&self) -> bool
        ensures { result ≡ is_end self.now }
    {
        matches!(self, Entry::End { .. })
    }
}
