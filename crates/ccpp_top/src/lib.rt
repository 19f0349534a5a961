//! The command `ccpp`: what it writes, and the status with which it ends.
//!
//! The crate knows words, texts and what each command calls. It must know nothing of how a source is read or a run is made.
#![tactic(auto)]

mod answer;
mod call;
mod checks;
mod load;
mod message;
mod migrate;
mod run;
mod status;
mod trace;

pub use call::ccpp;
pub use ccpp_words::Word;
pub use status::Status;
