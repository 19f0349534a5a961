//! The journal of a run as text: what each thread did, which requests were served, and how the run ended, one entry a line.
//!
//! The crate knows addresses, standings and bytes. It must know nothing of what a request says, and of runs.
#![tactic(auto)]

mod entry;
mod format;
mod law;
mod line;
mod read;
mod words;
mod write;

pub use entry::{Entry, FaultBy};
pub use format::Version;
pub use law::one_answer;
pub use read::{JournalFault, next_line, read_entry, read_journal, read_journal_1};
pub use write::{write_entry, write_header};
