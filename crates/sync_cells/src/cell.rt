ghost use Rattle.std.specs.Prelude.{◌≡◌};
ghost use Rattle.sync_cells.specs.Cells.{assigned, found, wrote};

use cc_ops::Cell;
use global_ptr::Value;
use std::alloc::AllocError;
use std::mem::size_of;

// A million cells are to fit into 32 MiB.
const _: () = prove!(size_of::<Cell>() <= 32);

/// What a read finds.
#[derive(Clone, Copy, Debug, PartialEq, Eq)]
pub enum Found {
    /// The cell's value.
    Value(Value),
    /// The cell is not assigned yet.
    Empty,
    /// There is no such cell.
    OutOfObject,
}

/// What became of a write.
#[derive(Clone, Copy, Debug, PartialEq, Eq)]
pub enum Wrote {
    /// The cell has the value.
    Done,
    /// The cell was assigned before, and stays as it is.
    Twice,
    /// There is no such cell.
    OutOfObject,
}

/// What a read of a cell finds.
pub(crate) fn found_in(cell: Cell) -> Found
    ensures { result ≡ found (Some cell) }
{
    match cell {
        Cell::Plain(value) => Found::Value(value),
        Cell::Empty => Found::Empty,
        Cell::Full(value) => Found::Value(value),
    }
}

/// Gives a cell a value, unless it was assigned before.
pub(crate) fn assign(cell: &mut Cell, value: Value) -> Wrote
    ensures answer { result ≡ wrote (Some cell.old) }
    ensures cell { cell.new ≡ assigned value cell.old }
{
    *cell = match cell {
        Cell::Plain(_) => Cell::Plain(value),
        Cell::Empty => Cell::Full(value),
        Cell::Full(_) => return Wrote::Twice,
    };
    Wrote::Done
}

/// Why no object was made.
#[derive(Clone, Copy, Debug, PartialEq, Eq)]
pub enum StoreFault {
    /// There would be more slots than a processor may make.
    Full {
        /// How many slots were made.
        made: u32,
        /// How many more were asked for.
        asked: u32,
    },
    /// Want of memory.
    Memory,
}

impl From<AllocError> for StoreFault {
    ghost use Rattle.std.specs.Prelude.{◌≡◌};
    ghost use Rattle.sync_cells.specs.declared.cell.StoreFault.TheVariants.{Memory};

    ghost from_gives = { λ _ fault. fault ≡ Memory };

    fn from(_: AllocError) -> StoreFault {
        StoreFault::Memory
    }
}
