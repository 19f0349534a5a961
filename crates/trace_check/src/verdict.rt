use cc_explains::Why;
use global_ptr::Standing;

/// What is found of a journal.
#[derive(Clone, Copy, Debug, PartialEq, Eq)]
pub enum Verdict {
    /// A run explains it, and ends so.
    Yes(Standing),
    /// No run explains it.
    No {
        /// The first entry that none explains, from 0.
        entry: u64,
        /// Why.
        why: Why,
    },
}
