//! Numbers and values in bytes, as requests carry them.
#![tactic(auto)]

mod numbers;
mod read;
mod tags;
mod write;

pub use numbers::{put_u16, put_u32, take_u16, take_u32};
pub use read::{ValueFault, take_value};
pub use write::put_value;
