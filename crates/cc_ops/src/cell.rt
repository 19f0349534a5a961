ghost use Rattle.std.specs.Prelude.{◌≡◌};
ghost use Rattle.cc_ops.specs.Values as values;
ghost use Rattle.cc_ops.specs.Cells as spec;
ghost use Rattle.cc_ops.specs.Machine.{value_of, cell_of, answer_of};

use crate::kind::Kind;
use global_ptr::{FaultKind, Value};

/// A cell of an object. A sync cell is assigned once, and a read of it waits until then (Foster, Designing and Building Parallel
/// Programs, chapter 5).
#[derive(Clone, Copy, Debug, PartialEq, Eq)]
pub enum Cell {
    /// It may be assigned again and again.
    Plain(Value),
    /// A sync cell that is undefined still.
    Empty,
    /// A sync cell that has its value, for ever.
    Full(Value),
}

impl Cell {
    /// A new cell: a plain one holds 0 or null, a sync one is undefined.
    pub fn fresh(kind: Kind) -> Cell
        ensures { cell_of result ≡ values.fresh kind }
    {
        match kind {
            Kind::Int => Cell::Plain(Value::Int(0)),
            Kind::Ptr => Cell::Plain(Value::Null),
            Kind::SyncInt | Kind::SyncPtr => Cell::Empty,
        }
    }

    /// A new cell with a start value.
    pub fn started(kind: Kind, value: Value) -> Cell
        ensures { cell_of result ≡ values.started kind (value_of value) }
    {
        match kind {
            Kind::Int | Kind::Ptr => Cell::Plain(value),
            Kind::SyncInt | Kind::SyncPtr => Cell::Full(value),
        }
    }

    /// The cell after a write of `value`. It is refused, as `SyncTwice`, exactly where the cell is full.
    pub fn written(self, value: Value) -> Result<Cell, FaultKind>
        ensures { answer_of cell_of result ≡ spec.written (cell_of self) (value_of value) }
    {
        match self {
            Cell::Plain(_) => Ok(Cell::Plain(value)),
            Cell::Empty => Ok(Cell::Full(value)),
            Cell::Full(_) => Err(FaultKind::SyncTwice),
        }
    }
}
