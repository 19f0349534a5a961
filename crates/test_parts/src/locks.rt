//! Tests of `atomic_objects`: who holds an object, and who waits for it.

use crate::crossing::crosses_threads;
use atomic_objects::{Entered, Locks};
use std::test::Fail;

#[test]
fn types_cross_threads(rt: HostRuntime) {
    crosses_threads(&Entered::Now);
    crosses_threads(&Locks::new(rt.alloc()));
}

#[test]
fn an_object_has_one_holder(rt: HostRuntime) -> Result<(), Fail> {
    let mut locks = Locks::new(rt.alloc());
    assert_eq!(rt; locks.enter(7, 0)?, Entered::Now);
    assert_eq!(rt; locks.enter(7, 1)?, Entered::Busy { holder: 0 });
    locks.wait(7, 1)?;
    assert_eq!(rt; locks.leave(7), Some(1));
    assert_eq!(rt; locks.enter(7, 2)?, Entered::Busy { holder: 1 });
    assert_eq!(rt; locks.enter(7, 1)?, Entered::Now);
    assert_eq!(rt; locks.leave(7), None);
    Ok(())
}
