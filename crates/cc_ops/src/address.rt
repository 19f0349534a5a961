ghost use Rattle.std.specs.Prelude.{◌≡◌};
ghost use Rattle.cc_ops.specs.Values as values;
ghost use Rattle.cc_ops.specs.Addresses as spec;
ghost use Rattle.cc_ops.specs.Machine.{value_of, answer_of};

use crate::value::int_of;
use global_ptr::{Addr, FaultKind, Value};

/// An address moved on by a number of cells. An offset stops at its largest number, and null stays null.
pub fn moved(address: Value, cells: u32) -> Value
    ensures { value_of result ≡ values.moved (value_of address) cells }
{
    match address {
        Value::Ptr(at) => Value::Ptr(Addr {
            offset: at.offset.saturating_add(cells),
            ..at
        }),
        _ => Value::Null,
    }
}

/// The place that an index names in an array of `length` elements, or `IndexOut` where it names none.
pub fn element(length: u32, index: Value) -> Result<u32, FaultKind>
    ensures { answer_of (λ k. k) result ≡ spec.element length (value_of index) }
{
    match u32::try_from(int_of(index)) {
        Ok(k) if k < length => Ok(k),
        _ => Err(FaultKind::IndexOut),
    }
}

/// The address of an element of the array of `length` elements at an address.
pub fn indexed(array: Value, length: u32, index: Value) -> Result<Value, FaultKind>
    ensures { answer_of value_of result ≡ spec.indexed (value_of array) length (value_of index) }
{
    let k = element(length, index)?;
    Ok(moved(array, k))
}

/// The address `index` cells behind a pointer's: `NullPointer` where it is none, and `IndexOut` where the offset leaves its range.
pub fn shifted(pointer: Value, index: Value) -> Result<Value, FaultKind>
    ensures { answer_of value_of result ≡ spec.shifted (value_of pointer) (values.int_of (value_of index)) }
{
    let Value::Ptr(at) = pointer else {
        return Err(FaultKind::NullPointer);
    };
    let offset = i64::from(at.offset).checked_add(int_of(index));
    match offset.map(u32::try_from) {
        Some(Ok(offset)) => Ok(Value::Ptr(Addr { offset, ..at })),
        _ => Err(FaultKind::IndexOut),
    }
}
