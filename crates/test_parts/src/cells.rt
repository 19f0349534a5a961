//! Tests of `sync_cells`: how many slots there are, and cells that are assigned once.

use crate::crossing::crosses_threads;
use global_ptr::{Ready, Spot, Value, Waiter};
use std::test::Fail;
use sync_cells::{Cell, Found, MOST_SLOTS, Store, StoreFault, Wrote};

#[test]
fn types_cross_threads(rt: HostRuntime) {
    crosses_threads(&Cell::Full(Value::Null));
    crosses_threads(&StoreFault::Memory);
    crosses_threads(&Store::new(rt.alloc()));
}

#[test]
fn slots_are_counted(rt: HostRuntime) {
    let mut store = Store::new(rt.alloc());
    assert_eq!(rt; store.make(Cell::Plain(Value::Int(0)), MOST_SLOTS), Ok(0));
    assert_eq!(rt; store.room(), 0);
    let full = StoreFault::Full {
        made: MOST_SLOTS,
        asked: 1,
    };
    assert_eq!(rt; store.make(Cell::Empty, 1), Err(full));
    assert_eq!(rt; store.make_list(&[Cell::Empty]), Err(full));
    let last = Spot {
        object: 0,
        offset: MOST_SLOTS - 1,
    };
    assert_eq!(rt; store.read(last), Found::Value(Value::Int(0)));
}

#[test]
fn a_sync_cell_is_assigned_once(rt: HostRuntime) -> Result<(), Fail> {
    let mut store = Store::new(rt.alloc());
    let mut ready = Ready::new(rt.alloc());
    let cell = Spot {
        object: 0,
        offset: 0,
    };
    assert_eq!(rt; store.make(Cell::Empty, 1), Ok(0));
    assert_eq!(rt; store.read(cell), Found::Empty);
    store.park(cell, Waiter::Thread(4))?;
    store.park(cell, Waiter::Thread(2))?;
    assert_eq!(rt; store.write(cell, Value::Int(3)), Wrote::Done);
    assert_eq!(rt; store.waiting(cell), 2);
    ready.reserve(2)?;
    store.wake(cell, &mut ready);
    assert_eq!(rt; store.waiting(cell), 0);
    assert_eq!(rt; ready.take(0), Some(Waiter::Thread(4)));
    assert_eq!(rt; ready.take(0), Some(Waiter::Thread(2)));
    assert_eq!(rt; store.write(cell, Value::Int(3)), Wrote::Twice);
    assert_eq!(rt; store.read(cell), Found::Value(Value::Int(3)));
    let beyond = Spot {
        object: 0,
        offset: 1,
    };
    assert_eq!(rt; store.read(beyond), Found::OutOfObject);
    assert_eq!(rt; store.write(beyond, Value::Null), Wrote::OutOfObject);
    Ok(())
}
