ghost use Rattle.std.specs.Prelude.{◌≡◌};
ghost use Rattle.cc_operators.specs.Folding as spec;

use cc_ops::Op;
use global_ptr::{FaultKind, Value};

fn int_given(answer: Result<Value, FaultKind>) -> Option<i64>
    ensures { result ≡ spec.int_given (spec.answer answer) }
{
    match answer {
        Ok(Value::Int(n)) => Some(n),
        _ => None,
    }
}

/// The value of `-` of a constant, and none for a fault.
pub(crate) fn negated_value(value: Option<i64>) -> Option<i64>
    ensures { result ≡ spec.negated_value value }
{
    match value {
        None => None,
        Some(n) => int_given(Op::Neg.apply(&[Value::Int(n)])),
    }
}

/// The value of an operator of two constants, and none for a fault.
pub(crate) fn computed(op: Op, a: Option<i64>, b: Option<i64>) -> Option<i64>
    ensures { result ≡ spec.computed op a b }
{
    match (a, b) {
        (Some(a), Some(b)) => int_given(op.apply(&[Value::Int(a), Value::Int(b)])),
        _ => None,
    }
}
