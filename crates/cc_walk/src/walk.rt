use crate::news::News;
use crate::table::Table;
use ccpp_edge::Bytes;
use global_ptr::ProgFault;
use stack_code::Code;
use std::alloc::Global;
use walk_objects::Objects;

/// A run of the source definition, at the configuration that it has come to.
#[derive(Drop)]
pub struct Walk {
    pub(crate) alloc: Global,
    pub(crate) code: Code,
    pub(crate) objects: Objects,
    pub(crate) table: Table,
    pub(crate) output: Bytes,
    pub(crate) news: News,
}

/// What became of a step.
#[derive(Clone, Copy, Debug, PartialEq, Eq)]
pub enum Stepped {
    /// It was made.
    Moved,
    /// The thread lives and cannot move.
    Blocked,
    /// No such thread lives.
    Gone,
    /// The thread's next move is this fault.
    Fault(ProgFault),
    /// Want of memory. The walk is not used again.
    Memory,
}
