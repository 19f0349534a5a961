//! The code that programs are laid out in: its instructions, what each does, and where each part of a program stands.
#![tactic(auto)]

mod depth;

pub use depth::Depth;
