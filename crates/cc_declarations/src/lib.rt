//! Reading types, parameters and declarations of variables.
//!
//! Each function that reads answers what the reader of its symbol does, which `cc_grammar` defines.
//!
//! The crate knows the grammar and its expressions (`cc_expressions`). It must know nothing of statements, names and types.
#![tactic(auto)]

mod declarations;
mod nodes;
mod separated;

pub use declarations::{begins_decl, decl, maybe_star, params, slot, spec};
pub use nodes::{decl_of, slot_of, type_of};
