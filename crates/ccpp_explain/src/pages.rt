//! The pages of the rules, which are files.

use ccpp_edge::{Bytes, Shelf, ShelfFault};
use std::alloc::Global;

/// Whether a word can be the name of a rule, fault or limit: it has letters alone.
pub(crate) fn is_rule(word: &str) -> bool {
    for byte in word.as_bytes() {
        if !byte.is_ascii_alphabetic() {
            return false;
        }
    }
    !word.is_empty()
}

/// The page of a rule.
pub(crate) fn page_of<S: Shelf>(
    alloc: Global,
    shelf: &mut S,
    pages: &str,
    rule: &str,
) -> Result<Bytes, ShelfFault> {
    match format!(in alloc; "{pages}/{rule}.txt") {
        Ok(name) => shelf.read(name.as_str()),
        Err(_) => Err(ShelfFault::Memory),
    }
}
