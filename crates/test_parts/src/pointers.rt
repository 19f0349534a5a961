//! Tests of `global_ptr`: the waiters that are ready, and how values and faults are printed.

use crate::crossing::crosses_threads;
use global_ptr::{Addr, FaultKind, ProgFault, Ready, Spot, Standing, Value, Waiter};
use std::test::Fail;

#[test]
fn types_cross_threads(rt: HostRuntime) {
    let spot = Spot {
        object: 2,
        offset: 3,
    };
    let fault = ProgFault {
        kind: FaultKind::Overflow,
        line: 1,
    };
    let asked = Waiter::Asked {
        from: 0,
        ticket: 5,
        spot,
    };
    crosses_threads(&Value::Null);
    crosses_threads(&asked);
    crosses_threads(&Standing::Fault(fault));
    crosses_threads(&Ready::new(rt.alloc()));
}

#[test]
fn ready_keeps_its_places(rt: HostRuntime) -> Result<(), Fail> {
    let mut ready = Ready::new(rt.alloc());
    assert_eq!(rt; ready.take(0), None);
    ready.reserve(2)?;
    ready.push(Waiter::Thread(4));
    ready.push(Waiter::Thread(2));
    assert_eq!(rt; (ready.len(), ready.spare()), (2, 0));
    assert_eq!(rt; ready.take(2), None);
    assert_eq!(rt; ready.take(1), Some(Waiter::Thread(2)));
    assert_eq!(rt; ready.take(0), Some(Waiter::Thread(4)));
    assert_eq!(rt; (ready.is_empty(), ready.spare()), (true, 2));
    Ok(())
}

#[test]
fn values_are_printed(rt: HostRuntime) -> Result<(), Fail> {
    let address = Addr {
        processor: 1,
        object: 20,
        offset: 3,
    };
    let values = [
        Value::Void,
        Value::Int(-7),
        Value::Null,
        Value::Ptr(address),
    ];
    let texts = ["void", "-7", "null", "1:20:3"];
    for (value, text) in values.iter().zip(texts.iter()) {
        assert_eq!(rt; value.to_string(rt.alloc())?.as_str(), *text);
    }
    Ok(())
}

#[test]
fn faults_have_names(rt: HostRuntime) {
    assert_eq!(rt; FaultKind::SyncTwice.name(), "SyncTwice");
    assert_eq!(rt; FaultKind::CallDepth.name(), "CallDepth");
}
