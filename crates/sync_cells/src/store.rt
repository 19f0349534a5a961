ghost use Rattle.std.specs.Prelude.{◌≡◌, ◌≢◌, ◌+◌, ◌≤◌, ◌<◌, ◌^◌, [], ◌++◌, length, replicate, IfOk, IfErr, OnOk, OnErr};
ghost use Rattle.sync_cells.specs.Cells.{cell_at, waiters_at, found, wrote, after_make, after_write, after_park, after_wake};

use crate::cell::{Found, StoreFault, Wrote, assign, found_in};
use crate::layout::{Extent, MOST_SLOTS, find, prepare};
use crate::queues::{Queues, add, count, wake};
use cc_ops::Cell;
use global_ptr::{Ready, Spot, Value, Waiter};
use std::alloc::{AllocError, Global};
use std::collections::HashMap;
use std::marker::Model;

/// The cells of one processor. They stand in objects, which have numbers from 0 in the order made.
///
/// Contracts see the objects as lists of slots, each a cell and what waits until it is full, and how many slots were made.
/// Sync cells are those of CC++; the store is this project's own.
#[derive(Debug, Drop)]
pub struct Store {
    alloc: Global,
    cells: Vec<Cell>,
    objects: Vec<Extent>,
    waiting: Queues,
}

impl Model for Store {
    ghost use Rattle.sync_cells.specs.Cells.{Cells};
    ghost use Rattle.sync_cells.specs.Layout.{IsLaidOut, shown, queue};

    ghost Value = { Cells };

    ghost view = { λ store. shown store.cells.items store.objects.items (queue store.waiting) };

    ghost invariant = { λ store. IsLaidOut store.cells.items store.objects.items (queue store.waiting) };
}

impl Store {
    /// The store with no object, which takes no memory.
    pub fn new(alloc: Global) -> Store
        ensures objects { result.objects ≡ [] }
        ensures made { result.made ≡ 0 }
    {
        Store {
            alloc,
            cells: Vec::new(alloc),
            objects: Vec::new(alloc),
            waiting: HashMap::new(alloc),
        }
    }

    /// How many more slots may be made.
    pub fn room(&self) -> u32
        ensures { result + self.now.made ≡ MOST_SLOTS }
    {
        MOST_SLOTS - self.cells.len() as u32
    }

    /// Makes an object of `count` cells, each as `cell`, and gives its number.
    ///
    /// `Full` comes exactly where the slots would be more than [`MOST_SLOTS`]. A refusal leaves the store as it was.
    pub fn make(&mut self, cell: Cell, count: u32) -> Result<u32, StoreFault>
        requires { 0 < count }
        ensures number { IfOk result (λ object. object ≡ length self.old.objects) }
        ensures made { OnOk result (self.new ≡ after_make self.old (replicate count cell)) }
        ensures full { MOST_SLOTS < self.old.made + count → result ≡ Err (StoreFault.Full self.old.made count) }
        ensures memory { self.old.made + count ≤ MOST_SLOTS → IfErr result (λ fault. fault ≡ StoreFault.Memory) }
        ensures err { OnErr result (self.new ≡ self.old) }
    {
        let made = self.cells.len();
        let extent = prepare(&mut self.objects, made, count)?;
        let object = self.objects.len() as u32;
        self.cells.resize(made + count as usize, cell)?;
        self.objects.push_reserved(extent);
        Ok(object)
    }

    /// Makes an object of these cells, and gives its number.
    ///
    /// `Full` comes exactly where the slots would be more than [`MOST_SLOTS`]. A refusal leaves the store as it was.
    pub fn make_list(&mut self, cells: &[Cell]) -> Result<u32, StoreFault>
        requires some { 0 < length cells.now }
        requires few { length cells.now < 2 ^ 32 }
        ensures number { IfOk result (λ object. object ≡ length self.old.objects) }
        ensures made { OnOk result (self.new ≡ after_make self.old cells.now) }
        ensures full { MOST_SLOTS < self.old.made + length cells.now → result ≡ Err (StoreFault.Full self.old.made (length cells.now)) }
        ensures memory { self.old.made + length cells.now ≤ MOST_SLOTS → IfErr result (λ fault. fault ≡ StoreFault.Memory) }
        ensures err { OnErr result (self.new ≡ self.old) }
    {
        let made = self.cells.len();
        let extent = prepare(&mut self.objects, made, cells.len() as u32)?;
        let object = self.objects.len() as u32;
        self.cells.extend_from_slice(cells)?;
        self.objects.push_reserved(extent);
        Ok(object)
    }

    /// What is in the cell at a spot.
    pub fn read(&self, at: Spot) -> Found
        ensures { result ≡ found (cell_at self.now at) }
    {
        match find(&self.objects, at) {
            Some(place) => found_in(self.cells[place]),
            None => Found::OutOfObject,
        }
    }

    /// Assigns the cell at a spot. An empty cell becomes full, and what waits for it waits until [`Store::wake`].
    ///
    /// `Twice` comes exactly where the cell is full. A refusal leaves the store as it was.
    pub fn write(&mut self, at: Spot, value: Value) -> Wrote
        ensures answer { result ≡ wrote (cell_at self.old at) }
        ensures store { self.new ≡ after_write self.old at value }
        ensures refused { result ≢ Wrote.Done → self.new ≡ self.old }
        ensures once { (p : Spot) (v : Value) → cell_at self.old p ≡ Some (Cell.Full v) → cell_at self.new p ≡ Some (Cell.Full v) }
    {
        let Some(place) = find(&self.objects, at) else {
            return Wrote::OutOfObject;
        };
        let cell = &mut self.cells[place];
        assign(cell, value)
    }

    /// Lets a waiter wait for an empty cell, behind those that wait for it already. Want of memory leaves the store as it was.
    pub fn park(&mut self, at: Spot, waiter: Waiter) -> Result<(), AllocError>
        requires { cell_at self.old at ≡ Some Cell.Empty }
        ensures ok { OnOk result (self.new ≡ after_park self.old at waiter) }
        ensures err { OnErr result (self.new ≡ self.old) }
    {
        let Some(place) = find(&self.objects, at) else {
            unreachable!();
        };
        add(self.alloc, &mut self.waiting, place, waiter)?;
        Ok(())
    }

    /// How many wait for the cell at a spot: none where there is no such cell.
    pub fn waiting(&self, at: Spot) -> u32
        ensures { result ≡ length (waiters_at self.now at) }
    {
        match find(&self.objects, at) {
            Some(place) => count(&self.waiting, place) as u32,
            None => 0,
        }
    }

    /// Moves all that wait for the cell at a spot to the back of `ready`, in their order. It takes no memory.
    pub fn wake(&mut self, at: Spot, ready: &mut Ready)
        requires { length (waiters_at self.old at) ≤ ready.old.spare }
        ensures store { self.new ≡ after_wake self.old at }
        ensures waiters { ready.new.waiters ≡ ready.old.waiters ++ waiters_at self.old at }
        ensures spare { ready.new.spare + length (waiters_at self.old at) ≡ ready.old.spare }
    {
        let Some(place) = find(&self.objects, at) else {
            return;
        };
        wake(&mut self.waiting, place, ready);
    }
}
