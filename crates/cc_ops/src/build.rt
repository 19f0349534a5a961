ghost use Rattle.std.specs.Prelude.{◌≡◌, map, OnErr};
ghost use Rattle.cc_ops.specs.Values as values;
ghost use Rattle.cc_ops.specs.Operators.{truth_of};
ghost use Rattle.cc_ops.specs.Cells.{write_cell};
ghost use Rattle.cc_ops.specs.Classes as spec;
ghost use Rattle.cc_ops.specs.Machine.{value_of, cell_of, same_address, answer_of};
ghost use Rattle.cc_ops.specs.Shapes.{expr_of, exprs_of, set_of, constant_of, both_of, first_two};

use crate::address::element;
use crate::cell::Cell;
use crate::operator::Op;
use crate::value::{is_zero, truth, value_at};
use ccpp_edge::{Boxed, List};
use global_ptr::{FaultKind, Value};

/// An expression of a constructor. It reads the constructor's parameters alone. This project's own.
#[derive(Debug, Drop)]
pub enum BuildExpr {
    /// A literal, a named constant or `NULL`; a pointer to an object counts as null.
    Value(Value),
    /// The parameter of that number.
    Param(u32),
    /// An operator with as many parts as it takes.
    Op { op: Op, parts: List<BuildExpr> },
    /// `a && b`.
    And(Boxed<BuildExpr>, Boxed<BuildExpr>),
    /// `a || b`.
    Or(Boxed<BuildExpr>, Boxed<BuildExpr>),
}

/// An assignment of a constructor.
#[derive(Debug, Drop)]
pub struct BuildSet {
    /// The offset of the cell, or of the array's first cell.
    pub offset: u32,
    /// The number of the array's elements.
    pub length: u32,
    /// The element's index, where an element of an array is assigned.
    pub index: Option<BuildExpr>,
    /// What is assigned.
    pub value: BuildExpr,
}

impl BuildExpr {
    /// The value where the parameters have these values, or the first fault.
    #[cycle(evaluate)]
    #[tactic(auto, using(crate::proofs::Exprs::exprs))]
    pub fn evaluate(&self, args: &[Value]) -> Result<Value, FaultKind>
        ensures { answer_of value_of result ≡ spec.evaluate same_address (map value_of args.now) (expr_of self.now) }
    {
        match self {
            BuildExpr::Value(value) => Ok(without_object(*value)),
            BuildExpr::Param(k) => Ok(value_at(args, *k as usize)),
            BuildExpr::Op { op, parts } => { op.apply_found(operands(parts.as_slice(), args)) }
            BuildExpr::And(a, b) => {
                if is_zero(a.get().evaluate(args)?) {
                    return Ok(truth(false));
                }
                as_truth(b.get().evaluate(args))
            }
            BuildExpr::Or(a, b) => {
                if !is_zero(a.get().evaluate(args)?) {
                    return Ok(truth(true));
                }
                as_truth(b.get().evaluate(args))
            }
        }
    }
}

impl BuildSet {
    /// Makes the assignment. A fault leaves the cells as they were.
    pub(crate) fn assign(&self, cells: &mut List<Cell>, args: &[Value]) -> Result<(), FaultKind>
        ensures does { answer_of (λ _. map cell_of cells.new) result
            ≡ spec.assign same_address (map value_of args.now) (map cell_of cells.old) (set_of self.now) }
        ensures refused { OnErr result (cells.new ≡ cells.old) }
    {
        let at = self.place(args)?;
        let value = self.value.evaluate(args)?;
        write(cells, at, value)
    }

    /// The offset of the cell that is assigned.
    fn place(&self, args: &[Value]) -> Result<usize, FaultKind>
        ensures { answer_of (λ at. at) result ≡ spec.place same_address (map value_of args.now) (set_of self.now) (set_of self.now).index }
    {
        let Some(index) = &self.index else {
            return Ok(self.offset as usize);
        };
        let k = element(self.length, index.evaluate(args)?)?;
        Ok(self.offset as usize + k as usize)
    }
}

/// Writes a value into the cell at a place. A fault leaves the cells as they were.
fn write(cells: &mut List<Cell>, at: usize, value: Value) -> Result<(), FaultKind>
    ensures does { answer_of (λ _. map cell_of cells.new) result ≡ write_cell (map cell_of cells.old) at (value_of value) }
    ensures refused { OnErr result (cells.new ≡ cells.old) }
{
    let Some(cell) = cells.get(at) else {
        return Err(FaultKind::IndexOut);
    };
    let cell = cell.written(value)?;
    cells.set(at, cell);
    Ok(())
}

/// The values of an operator's parts, of which there are at most two, or the first fault.
#[cycle(evaluate)]
fn operands(parts: &[BuildExpr], args: &[Value]) -> Result<(Value, Value), FaultKind>
    ensures { answer_of both_of result ≡ first_two same_address (map value_of args.now) 0 values.Void values.Void (exprs_of parts.now) }
{
    let mut first = Value::Void;
    let mut second = Value::Void;
    for (at, part) in parts.iter().enumerate() {
        let value = part.evaluate(args)?;
        match at {
            0 => first = value,
            1 => second = value,
            _ => {}
        }
    }
    Ok((first, second))
}

/// 1 where a value is not 0, else 0; a fault stays.
fn as_truth(value: Result<Value, FaultKind>) -> Result<Value, FaultKind>
    ensures { answer_of value_of result ≡ truth_of (answer_of value_of value) }
{
    Ok(truth(!is_zero(value?)))
}

/// A constant of the program's text.
fn without_object(value: Value) -> Value
    ensures { value_of result ≡ values.constant (constant_of value) }
{
    match value {
        Value::Ptr(_) => Value::Null,
        _ => value,
    }
}
