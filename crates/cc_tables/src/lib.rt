//! What the names of a program's file stand for: its constants with their values, its classes with their fields' offsets, and its
//! functions with their signatures.
//!
//! The tables are made in silence, before a rule is noted, since names are known in the whole file. A constant's value is made from
//! those before it; the types of fields, parameters and results are those of `cc_declared`. `Tables` in `specs/` is the definition.
//!
//! The tables are this project's own.
//!
//! The crate knows declared types (`cc_declared`). It must know nothing of bodies of functions.
#![tactic(auto)]

mod constants;
mod tables;

pub use constants::outside;
pub use tables::tables_of;
