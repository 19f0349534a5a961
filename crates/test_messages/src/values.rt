//! Tests of `marshal`: the bytes of values, and tags that are none.

use crate::crossing::crosses_threads;
use ccpp_edge::Bytes;
use global_ptr::{Addr, Value};
use marshal::{ValueFault, put_value, take_value};
use std::test::Fail;

#[test]
fn values_have_their_bytes(rt: HostRuntime) -> Result<(), Fail> {
    let address = Addr {
        processor: 1,
        object: 0x0203,
        offset: 0xffff_ffff,
    };
    let cases: [(Value, &[u8]); 5] = [
        (Value::Void, &[0]),
        (Value::Int(-2), &[1, 255, 255, 255, 255, 255, 255, 255, 254]),
        (Value::Int(258), &[1, 0, 0, 0, 0, 0, 0, 1, 2]),
        (Value::Null, &[2]),
        (
            Value::Ptr(address),
            &[3, 0, 0, 0, 1, 0, 0, 2, 3, 255, 255, 255, 255],
        ),
    ];
    for &(value, bytes) in cases.iter() {
        let mut out = Bytes::new(rt.alloc());
        put_value(&mut out, value)?;
        assert_eq!(rt; out.as_slice(), bytes);
        assert_eq!(rt; take_value(bytes), Ok((value, bytes.len())));
        for len in 0..bytes.len() {
            assert_eq!(rt; take_value(&bytes[..len]), Err(ValueFault::Short));
        }
    }
    Ok(())
}

#[test]
fn no_other_byte_is_a_tag(rt: HostRuntime) {
    for tag in 4..=255u8 {
        assert_eq!(rt; take_value(&[tag, 0]), Err(ValueFault::BadTag { at: 0 }));
    }
    crosses_threads(&ValueFault::Short);
}
