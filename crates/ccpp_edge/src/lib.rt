//! The edge of the program: lists and text that contracts see as plain lists, the files that it reads and writes (a
//! [`Shelf`]), what it prints to (a [`Sink`]), and what its workers pass before a turn (a [`Gate`]).
#![tactic(auto)]

mod boxed;
mod calls;
mod gate;
mod items;
mod mem_shelf;
mod mem_sink;
mod real;
mod shelf;
mod sink;
mod text;

pub use boxed::Boxed;
pub use gate::{Gate, OpenGate};
pub use items::{Bytes, List};
pub use mem_shelf::{MemShelf, NamedBytes};
pub use mem_sink::MemSink;
pub use real::{RealShelf, RealSink};
pub use shelf::{Shelf, ShelfFault};
pub use sink::{Sink, SinkFault};
pub use text::Text;

/// Want of memory. It may come from every call that grows something, and no contract says when.
pub type Memory = std::alloc::AllocError;
