//! Which functions do what an atomic function may not do, themselves or by a call.
//!
//! An atomic function reads no sync variable, has no `par`, `parfor`, `spawn`, remote operation or `new` of a global class, calls no
//! atomic function, and calls only functions for which the same holds. `Conduct` in `specs/` says by three rules which functions may
//! block (`MayBlock`): they do something of this themselves, call an atomic function, or call one that may block. `Rounds`
//! computes it, and the rules that atomic functions break by it.
//!
//! What an atomic function may do is this project's own.
//!
//! The crate knows what is noted while functions are read (`cc_scopes`). It must know nothing of the core, and of how a function is read.
#![tactic(auto)]

mod conduct;
mod rounds;
mod rules;

pub use conduct::Conduct;
pub use rounds::may_block;
pub use rules::note_atomic;
