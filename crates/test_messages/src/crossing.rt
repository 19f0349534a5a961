//! A check that values cross threads.

/// Takes a value that threads may hand over and read at once.
pub(crate) fn crosses_threads<T: Send + Sync>(_value: &T) {}
