ghost use Rattle.std.specs.Prelude.{◌≡◌, map, get_or};
ghost use Rattle.cc_ops.specs.Values as spec;
ghost use Rattle.cc_ops.specs.Operators as operators;
ghost use Rattle.cc_ops.specs.Machine.{value_of, same_address};

use crate::kind::Kind;
use global_ptr::Value;

/// The number that a value holds, and 0 where it holds none.
pub fn int_of(value: Value) -> i64
    ensures { result ≡ spec.int_of (value_of value) }
{
    match value {
        Value::Int(n) => n,
        _ => 0,
    }
}

/// The value where it is a pointer, and null where it is none.
pub fn address_of(value: Value) -> Value
    ensures { value_of result ≡ spec.address_of (value_of value) }
{
    match value {
        Value::Ptr(_) => value,
        _ => Value::Null,
    }
}

/// Whether a value counts as 0, as a test and `!` ask.
pub fn is_zero(value: Value) -> bool
    ensures { result ≡ spec.is_zero (value_of value) }
{
    int_of(value) == 0
}

/// 1 where `holds`, else 0.
pub fn truth(holds: bool) -> Value
    ensures { value_of result ≡ operators.truth holds }
{
    Value::Int(i64::from(holds))
}

/// Whether two values are the same, as `==` asks. Values of different kinds never are.
pub fn same_value(a: Value, b: Value) -> bool
    ensures { result ≡ operators.same_value same_address (value_of a) (value_of b) }
{
    a == b
}

/// What a remote operation sends where a cell of this kind is wanted: a number, or an address.
pub fn as_kind(kind: Kind, value: Value) -> Value
    ensures { value_of result ≡ spec.as_kind kind (value_of value) }
{
    match kind {
        Kind::Int | Kind::SyncInt => Value::Int(int_of(value)),
        Kind::Ptr | Kind::SyncPtr => address_of(value),
    }
}

/// What a remote operation sends where any value may stand: never void.
pub fn no_void(value: Value) -> Value
    ensures { value_of result ≡ spec.no_void (value_of value) }
{
    match value {
        Value::Void => Value::Null,
        _ => value,
    }
}

/// The value at a place, and void where there is none.
pub fn value_at(values: &[Value], at: usize) -> Value
    ensures { value_of result ≡ get_or (map value_of values.now) at spec.Void }
{
    values.get(at).copied().unwrap_or(Value::Void)
}
