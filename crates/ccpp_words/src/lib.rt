//! The words of the command line of `ccpp`, and what they ask for.
//!
//! The crate knows bytes alone. It must know nothing of what a command does.
#![tactic(auto)]

mod command;
mod fault;
mod invocation;
mod numbers;
mod settings;
mod word;

pub use command::Command;
pub use fault::WordsFault;
pub use invocation::Invocation;
pub use word::Word;
