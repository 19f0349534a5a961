use ccpp_edge::List;
use global_ptr::{Spot, Value};

/// What one processor asks of another, or answers to it.
///
/// It names a processor, an object, a handler and data, as the remote service requests of Nexus do. The rest is this
/// project's own.
#[derive(Debug, Drop)]
pub struct Request {
    /// The processor that is asked.
    pub to: u32,
    /// The processor that asks.
    pub from: u32,
    /// The number of the thread that waits for the answer.
    pub ticket: u32,
    /// What is asked.
    pub body: Body,
}

/// What a request asks, by its kind.
#[derive(Debug, Drop)]
pub enum Body {
    /// Run a function of an object, and answer what it returned.
    Call {
        /// The object's number.
        object: u32,
        /// The function's number.
        handler: u16,
        /// The function's arguments.
        args: List<Value>,
    },
    /// Read a cell, and answer its value.
    Get {
        /// The cell.
        spot: Spot,
    },
    /// Write a cell, and answer once it is written.
    Put {
        /// The cell.
        spot: Spot,
        /// The value.
        value: Value,
    },
    /// Make a processor with an object of a class, and answer its address.
    Make {
        /// The class's number.
        class: u16,
        /// The constructor's arguments.
        args: List<Value>,
    },
    /// The answer to a request.
    Reply {
        /// What was asked for, or void.
        value: Value,
    },
    /// Start a thread that runs a function of an object, and answer once it is made.
    Cast {
        /// The object's number.
        object: u32,
        /// The function's number.
        handler: u16,
        /// The function's arguments.
        args: List<Value>,
    },
}
