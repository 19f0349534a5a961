ghost use Rattle.std.specs.Prelude.{◌≡◌, ◌++◌, ◌∷◌, [], length, map, OnOk, IfOk};
ghost use Rattle.std.specs.Option.{option_map};
ghost use Rattle.cc_ops.specs.Machine.{value_of, cell_of};
ghost use Rattle.cc_ops.specs.Shelves.{cell_in, slots_in, is_held, put_cell, put_held, put_thing, no_shelf, next_address};
ghost use Rattle.numbered_runs.specs.Changes.{with_cell, with_held, with_thing, with_new};
ghost use Rattle.walk_objects.specs.Reads.{address_at, reading, IsRead, IsWritten};

use cc_ops::Cell;
use ccpp_edge::List;
use global_ptr::{Addr, FaultKind, Value};
use std::alloc::{AllocError, Global};
use std::marker::Model;

/// An object.
#[derive(Debug, Drop)]
struct Object {
    cells: List<Cell>,
    /// Whether a thread is inside an atomic function of it.
    held: bool,
}

impl Model for Object {
    ghost use Rattle.std.specs.Prelude.{map};
    ghost use Rattle.cc_ops.specs.Machine.{cell_of};
    ghost use Rattle.cc_ops.specs.Shelves.{Thing};

    ghost Value = { Thing };

    ghost view = { λ o. record { cells = map cell_of o.cells; held = o.held } };
}

/// The objects of one processor, and how many cells were made there.
#[derive(Debug, Drop)]
struct Shelf {
    objects: Vec<Object>,
    slots: u32,
}

impl Model for Shelf {
    ghost use Rattle.cc_ops.specs.Shelves.{Shelf as Shown};

    ghost Value = { Shown };

    ghost view = { λ s. record { things = s.objects.items; slots = s.slots } };
}

impl Object {
    fn put(&mut self, offset: u32, cell: Cell)
        ensures { self.new ≡ with_cell offset (cell_of cell) self.old }
    {
        if (offset as usize) < self.cells.len() {
            self.cells.set(offset as usize, cell);
        }
    }
}

impl Shelf {
    fn put(&mut self, at: Addr, cell: Cell)
        ensures { self.new ≡ with_thing at.object (with_cell at.offset (cell_of cell)) self.old }
    {
        if let Some(object) = self.objects.get_mut(at.object as usize) {
            object.put(at.offset, cell);
        }
    }

    fn set_held(&mut self, at: Addr, held: bool)
        ensures { self.new ≡ with_thing at.object (with_held held) self.old }
    {
        if let Some(object) = self.objects.get_mut(at.object as usize) {
            object.held = held;
        }
    }

    /// Makes an object, and gives its number.
    fn make(&mut self, cells: List<Cell>) -> Result<u32, AllocError>
        ensures number { IfOk result (λ number. number ≡ length self.old.things) }
        ensures object { OnOk result (self.new ≡ with_new (map cell_of cells) self.old) }
    {
        let number = u32::try_from(self.objects.len()).map_err(|_| AllocError)?;
        let made = u32::try_from(cells.len()).map_err(|_| AllocError)?;
        let slots = self.slots.checked_add(made).ok_or(AllocError)?;
        self.objects.push(Object { cells, held: false })?;
        self.slots = slots;
        Ok(number)
    }
}

/// The objects of all processors, by their numbers. This project's own.
#[derive(Debug, Drop)]
pub struct Objects {
    alloc: Global,
    shelves: Vec<Shelf>,
}

impl Model for Objects {
    ghost use Rattle.std.specs.Prelude.{List};
    ghost use Rattle.cc_ops.specs.Shelves.{Shelf as Shown};

    ghost Value = { List Shown };

    ghost view = { λ o. o.shelves.items };
}

impl Objects {
    /// No processor.
    pub fn new(alloc: Global) -> Objects
        ensures { result ≡ [] }
    {
        Objects {
            alloc,
            shelves: Vec::new(alloc),
        }
    }

    /// How many processors there are.
    pub fn processors(&self) -> usize
        ensures { result ≡ length self.now }
    {
        self.shelves.len()
    }

    /// One processor more, without an object.
    pub fn add_processor(&mut self) -> Result<(), AllocError>
        ensures { OnOk result (self.new ≡ self.old ++ no_shelf ∷ []) }
    {
        let shelf = Shelf {
            objects: Vec::new(self.alloc),
            slots: 0,
        };
        self.shelves.push(shelf)?;
        Ok(())
    }

    /// How many cells were made on a processor.
    pub fn slots(&self, processor: u32) -> u32
        ensures { result ≡ slots_in self.now processor }
    {
        match self.shelves.get(processor as usize) {
            Some(shelf) => shelf.slots,
            None => 0,
        }
    }

    /// The cell at an address, if there is one.
    fn cell(&self, at: Addr) -> Option<Cell>
        ensures { option_map cell_of result ≡ cell_in self.now (address_at at) at.offset }
    {
        let shelf = self.shelves.get(at.processor as usize)?;
        let object = shelf.objects.get(at.object as usize)?;
        object.cells.get(at.offset as usize).copied()
    }

    /// Puts a cell at an address where there is one.
    fn put(&mut self, at: Addr, cell: Cell)
        ensures { self.new ≡ put_cell self.old (address_at at) at.offset (cell_of cell) }
    {
        if let Some(shelf) = self.shelves.get_mut(at.processor as usize) {
            shelf.put(at, cell);
        }
    }

    /// The value of a cell: `None` where it waits for one still.
    pub fn read(&self, from: Value) -> Result<Option<Value>, FaultKind>
        ensures { IsRead (reading self.now (value_of from)) result }
    {
        let Value::Ptr(at) = from else {
            return Err(FaultKind::NullPointer);
        };
        match self.cell(at) {
            None => Err(FaultKind::IndexOut),
            Some(Cell::Plain(value) | Cell::Full(value)) => Ok(Some(value)),
            Some(Cell::Empty) => Ok(None),
        }
    }

    /// Writes a value. A fault changes nothing.
    pub fn write(&mut self, to: Value, value: Value) -> Result<(), FaultKind>
        ensures { IsWritten self.old (value_of to) (value_of value) result self.new }
    {
        let Value::Ptr(at) = to else {
            return Err(FaultKind::NullPointer);
        };
        let Some(cell) = self.cell(at) else {
            return Err(FaultKind::IndexOut);
        };
        let cell = cell.written(value)?;
        self.put(at, cell);
        Ok(())
    }

    /// Makes an object on a processor that is there, and gives the address of its first cell.
    pub fn make(&mut self, processor: u32, cells: List<Cell>) -> Result<Value, AllocError>
        ensures address { IfOk result (λ address. value_of address ≡ next_address self.old processor) }
        ensures object { OnOk result (self.new ≡ put_thing self.old processor (map cell_of cells)) }
    {
        let Some(shelf) = self.shelves.get_mut(processor as usize) else {
            return Err(AllocError);
        };
        let object = shelf.make(cells)?;
        Ok(Value::Ptr(Addr {
            processor,
            object,
            offset: 0,
        }))
    }

    /// Whether a thread is inside an atomic function of the object that a value leads to.
    pub fn is_held(&self, object: Value) -> bool
        ensures { result ≡ is_held self.now (value_of object) }
    {
        let Value::Ptr(at) = object else {
            return false;
        };
        let Some(shelf) = self.shelves.get(at.processor as usize) else {
            return false;
        };
        match shelf.objects.get(at.object as usize) {
            Some(object) => object.held,
            None => false,
        }
    }

    /// Notes whether a thread is inside an atomic function of an object.
    pub fn set_held(&mut self, at: Addr, held: bool)
        ensures { self.new ≡ put_held self.old (address_at at) held }
    {
        if let Some(shelf) = self.shelves.get_mut(at.processor as usize) {
            shelf.set_held(at, held);
        }
    }
}
