ghost use Rattle.std.specs.Prelude.{◌≡◌, map};
ghost use Rattle.cc_ops.specs.Operators as spec;
ghost use Rattle.cc_ops.specs.Machine.{value_of, same_address, answer_of, checked};
ghost use Rattle.cc_ops.specs.Shapes.{both_of};
ghost use Rattle.cc_ops.specs.Values.{on_gives};

use crate::value::{int_of, same_value, truth, value_at};
use global_ptr::{FaultKind, Value};

/// An operator. `Bool` turns a number into 0 or 1; the others are those of C++, on numbers of 64 bits with a sign.
#[derive(Clone, Copy, Debug, PartialEq, Eq)]
pub enum Op {
    Neg,
    Not,
    Bool,
    Add,
    Sub,
    Mul,
    Div,
    Rem,
    Eq,
    Ne,
    Lt,
    Le,
    Gt,
    Ge,
}

impl Op {
    /// The number of its operands.
    pub fn takes(self) -> usize
        ensures { result ≡ spec.takes self }
    {
        match self {
            Op::Neg | Op::Not | Op::Bool => 1,
            _ => 2,
        }
    }

    /// The value at these operands, or the fault. A missing operand counts as void.
    pub fn apply(self, operands: &[Value]) -> Result<Value, FaultKind>
        ensures { answer_of value_of result ≡ spec.compute same_address self (map value_of operands.now) }
    {
        self.apply_to(value_at(operands, 0), value_at(operands, 1))
    }

    /// The value at two operands, where their evaluation gave no fault.
    pub(crate) fn apply_found(
        self,
        operands: Result<(Value, Value), FaultKind>,
    ) -> Result<Value, FaultKind>
        ensures { answer_of value_of result ≡ on_gives (answer_of both_of operands) (λ pair. spec.operate same_address self pair.0 pair.1) }
    {
        let (first, second) = operands?;
        self.apply_to(first, second)
    }

    /// The value at two operands, of which an operator that takes one looks at the first.
    fn apply_to(self, first: Value, second: Value) -> Result<Value, FaultKind>
        ensures { answer_of value_of result ≡ spec.operate same_address self (value_of first) (value_of second) }
    {
        let a = int_of(first);
        let b = int_of(second);
        match self {
            Op::Neg => number(a.checked_neg()),
            Op::Not => Ok(truth(a == 0)),
            Op::Bool => Ok(truth(a != 0)),
            Op::Add => number(a.checked_add(b)),
            Op::Sub => number(a.checked_sub(b)),
            Op::Mul => number(a.checked_mul(b)),
            Op::Div => quotient(a, b),
            Op::Rem => remainder(a, b),
            Op::Eq => Ok(truth(same_value(first, second))),
            Op::Ne => Ok(truth(!same_value(first, second))),
            Op::Lt => Ok(truth(a < b)),
            Op::Le => Ok(truth(a <= b)),
            Op::Gt => Ok(truth(a > b)),
            Op::Ge => Ok(truth(a >= b)),
        }
    }
}

/// A checked result as a value, or the fault where it has more than 64 bits.
fn number(n: Option<i64>) -> Result<Value, FaultKind>
    ensures { answer_of value_of result ≡ checked n }
{
    n.map(Value::Int).ok_or(FaultKind::Overflow)
}

/// `a / b`, cut towards zero.
fn quotient(a: i64, b: i64) -> Result<Value, FaultKind>
    ensures { answer_of value_of result ≡ spec.quotient a b }
{
    if b == 0 {
        return Err(FaultKind::DivideByZero);
    }
    number(a.checked_div(b))
}

/// `a % b`, with the sign of `a`; of the least number by -1 it is 0.
fn remainder(a: i64, b: i64) -> Result<Value, FaultKind>
    ensures { answer_of value_of result ≡ spec.remainder a b }
{
    if b == 0 {
        return Err(FaultKind::DivideByZero);
    }
    Ok(Value::Int(a.wrapping_rem(b)))
}
