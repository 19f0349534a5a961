//! Journals checked: whether a run of a program explains one, and what a journal of version 1 is in version 2.
//!
//! The crate knows the stepper (`cc_walk`) and what explains a journal (`cc_explains`). It must know nothing of schedules and of files.
#![tactic(auto)]

mod entries;
mod law;
mod migration;
mod replay;
mod requests;
mod tracing;
mod verdict;

pub use cc_explains::Why;
pub use law::{journal_ends_once, one_migration, one_verdict};
pub use migration::migrate;
pub use tracing::trace;
pub use verdict::Verdict;
