//! The grammar of the profile of CC++ that `ccpp` reads: which lists of tokens spell which tree, and which are the front of
//! one. The definitions stand in `specs/`, one for each line of the grammar of `docs/LANGUAGE.md`; readers that decide by the
//! next token, which the parser follows, stand beside them, and `proofs/` shows that each reads exactly its symbol.
#![tactic(auto)]

mod fault;
mod laws;
mod parts;

pub use fault::Fault;
pub use laws::one_tree;
pub use parts::{Block, Counter, Ending, Header, Name, Number, Pointer, Precedence, Slot, Spec};
