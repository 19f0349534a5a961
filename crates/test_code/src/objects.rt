//! Tests of `walk_objects`: objects that are made, read, written and held.

use crate::crossing::crosses_threads;
use cc_ops::Cell;
use ccpp_edge::List;
use global_ptr::{Addr, FaultKind, Value};
use std::test::Fail;
use walk_objects::Objects;

/// The address of a cell of the first object of the second processor.
fn address(offset: u32) -> Addr {
    Addr {
        processor: 1,
        object: 0,
        offset,
    }
}

fn pointer(offset: u32) -> Value {
    Value::Ptr(address(offset))
}

#[test]
fn objects_are_made_read_written_and_held(rt: HostRuntime) -> Result<(), Fail> {
    let mut objects = Objects::new(rt.alloc());
    crosses_threads(&objects);
    objects.add_processor()?;
    objects.add_processor()?;
    assert_eq!(rt; objects.processors(), 2);
    let mut cells = List::new(rt.alloc());
    cells.push(Cell::Plain(Value::Int(7)))?;
    cells.push(Cell::Empty)?;
    assert_eq!(rt; objects.make(1, cells)?, pointer(0));
    assert_eq!(rt; (objects.slots(0), objects.slots(1)), (0, 2));

    let reads = [
        (pointer(0), Ok(Some(Value::Int(7)))),
        (pointer(1), Ok(None)),
        (pointer(2), Err(FaultKind::IndexOut)),
        (Value::Null, Err(FaultKind::NullPointer)),
    ];
    for (from, read) in reads {
        assert_eq!(rt; objects.read(from), read);
    }
    let writes = [
        (pointer(0), Ok(())),
        (pointer(1), Ok(())),
        (pointer(1), Err(FaultKind::SyncTwice)),
        (pointer(2), Err(FaultKind::IndexOut)),
        (Value::Void, Err(FaultKind::NullPointer)),
    ];
    for (to, written) in writes {
        assert_eq!(rt; objects.write(to, Value::Null), written);
    }
    assert_eq!(rt; objects.read(pointer(1)), Ok(Some(Value::Null)));

    assert!(rt; !objects.is_held(pointer(0)));
    objects.set_held(address(1), true);
    assert!(rt; objects.is_held(pointer(0)));
    Ok(())
}
