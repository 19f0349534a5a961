//! The rules of sharing: whether a program leaves its one answer to no schedule.
//!
//! Each rule forbids something by which two threads could write and read one plain variable, print, or meet in an atomic function, in
//! an order that the schedule settles. The rules that are broken are collected where expressions and statements are resolved
//! (`cc_scopes`); here the one is named that stands first, by its line, and at one line by its number.
//!
//! The rules are this project's own.
//!
//! The crate knows the rules that the front end has collected. It must know nothing of how they are found, and of steps.
#![tactic(auto)]

mod answer;
mod program;

pub use answer::{Sharing, least, sharing_of};
pub use program::sharing;
