use atomic_objects::{Entered, Locks};
use ccpp_edge::List;
use global_ptr::{Ready, Spot, Value};
use std::alloc::{AllocError, Global};
use sync_cells::{Cell, Found, MOST_SLOTS, Store, StoreFault, Wrote};
use thread_table::{Frame, ThreadFault, Threads};

/// What is made or called so many times.
#[derive(Clone, Copy, Debug, PartialEq, Eq)]
pub enum Load {
    /// Nothing, for what a program takes by itself.
    Nothing,
    /// Objects of one sync cell.
    Objects,
    /// Threads with an empty frame.
    Threads,
    /// A thread enters and leaves one object.
    OneLock,
    /// A thread enters an object each time, and holds them all before it leaves them.
    Locks,
    /// The sync cells of one object are assigned and read.
    Cells,
}

/// A part has no room for more, or memory has none.
#[derive(Clone, Copy, Debug, PartialEq, Eq)]
pub struct NoRoom;

impl From<AllocError> for NoRoom {
    fn from(_: AllocError) -> NoRoom {
        NoRoom
    }
}

impl From<StoreFault> for NoRoom {
    fn from(_: StoreFault) -> NoRoom {
        NoRoom
    }
}

impl From<ThreadFault> for NoRoom {
    fn from(_: ThreadFault) -> NoRoom {
        NoRoom
    }
}

impl Load {
    /// The load of this name.
    pub fn of(name: &str) -> Option<Load> {
        match name {
            "nothing" => Some(Load::Nothing),
            "objects" => Some(Load::Objects),
            "threads" => Some(Load::Threads),
            "one-lock" => Some(Load::OneLock),
            "locks" => Some(Load::Locks),
            "cells" => Some(Load::Cells),
            _ => None,
        }
    }

    /// Does it so many times, and says how many times that did what it should.
    pub fn run(self, alloc: Global, count: u32) -> Result<u32, NoRoom> {
        match self {
            Load::Nothing => Ok(0),
            Load::Objects => objects(alloc, count),
            Load::Threads => threads(alloc, count),
            Load::OneLock => one_lock(alloc, count),
            Load::Locks => locks(alloc, count),
            Load::Cells => cells(alloc, count),
        }
    }
}

/// Makes objects, and says how many were made.
fn objects(alloc: Global, count: u32) -> Result<u32, NoRoom> {
    let mut store = Store::new(alloc);
    for _ in 0..count {
        store.make(Cell::Empty, 1)?;
    }
    Ok(MOST_SLOTS - store.room())
}

/// Makes threads, and says how many live.
fn threads(alloc: Global, count: u32) -> Result<u32, NoRoom> {
    let mut threads = Threads::new(alloc);
    let mut ready = Ready::new(alloc);
    for _ in 0..count {
        let frame = Frame {
            code: 0,
            object: Value::Void,
            vars: List::new(alloc),
            atomic: false,
            entered: false,
        };
        threads.spawn(frame, List::new(alloc), None, None, &mut ready)?;
    }
    Ok(u32::try_from(threads.live()).unwrap_or(u32::MAX))
}

/// Enters one object and leaves it, again and again, and says how often that thread held it.
fn one_lock(alloc: Global, count: u32) -> Result<u32, NoRoom> {
    let mut locks = Locks::new(alloc);
    let mut held = 0;
    for _ in 0..count {
        if locks.enter(0, 0)? == Entered::Now {
            held += 1;
        }
        let _ = locks.leave(0);
    }
    Ok(held)
}

/// Enters objects and then leaves them all, and says how many nobody waited for.
fn locks(alloc: Global, count: u32) -> Result<u32, NoRoom> {
    let mut locks = Locks::new(alloc);
    for object in 0..count {
        locks.enter(object, 0)?;
    }
    let mut freed = 0;
    for object in 0..count {
        if locks.leave(object).is_none() {
            freed += 1;
        }
    }
    Ok(freed)
}

/// Assigns the cells of an object and then reads them, and says how many hold what they were given.
fn cells(alloc: Global, count: u32) -> Result<u32, NoRoom> {
    if count == 0 {
        return Ok(0);
    }
    let mut store = Store::new(alloc);
    let object = store.make(Cell::Empty, count)?;
    for offset in 0..count {
        if store.write(Spot { object, offset }, given(offset)) != Wrote::Done {
            return Err(NoRoom);
        }
    }
    let mut kept = 0;
    for offset in 0..count {
        if store.read(Spot { object, offset }) == Found::Value(given(offset)) {
            kept += 1;
        }
    }
    Ok(kept)
}

/// What the cell at this offset is given.
fn given(offset: u32) -> Value {
    Value::Int(i64::from(offset))
}
