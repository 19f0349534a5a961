//! The code that programs are laid out in: made instruction by instruction, checked, and looked up in constant time.
//!
//! The crate knows which code is valid (`cc_code`). It must know nothing of what makes the code and of what runs it.
#![tactic(auto)]

mod circles;
mod close;
mod code;
mod depths;
mod draft;
mod instr;
mod maker;
mod targets;

pub use close::CodeFault;
pub use code::Code;
pub use instr::Instr;
pub use maker::CodeMaker;
