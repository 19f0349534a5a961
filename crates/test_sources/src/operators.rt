//! Tests of `cc_ops`: operators, constructors and the shapes of functions.

ghost use Rattle.std.specs.Prelude.{◌≡◌, IfOk};
ghost use Rattle.cc_ops.specs.Classes.{size};

use cc_ops::{BuildError, BuildExpr, BuildSet, Cell, CellRun, ClassShape, FunShape, Kind, Op};
use ccpp_edge::{List, Text};
use global_ptr::{FaultKind, Value};
use std::test::Fail;

/// Takes a value that threads may hand over and read at once.
fn crosses_threads<T: Send + Sync>(_value: &T) {}

#[test]
fn operators_are_those_of_the_language(rt: HostRuntime) {
    let int = Value::Int;
    let least = i64::MIN;
    let table = [
        (Op::Neg, int(least), Value::Void, Err(FaultKind::Overflow)),
        (Op::Not, int(0), Value::Void, Ok(int(1))),
        (Op::Bool, int(-7), Value::Void, Ok(int(1))),
        (Op::Add, int(i64::MAX), int(1), Err(FaultKind::Overflow)),
        (Op::Sub, int(3), int(5), Ok(int(-2))),
        (Op::Mul, int(-4), int(6), Ok(int(-24))),
        (Op::Div, int(-7), int(2), Ok(int(-3))),
        (Op::Div, int(least), int(-1), Err(FaultKind::Overflow)),
        (Op::Div, int(1), int(0), Err(FaultKind::DivideByZero)),
        (Op::Rem, int(-7), int(2), Ok(int(-1))),
        (Op::Rem, int(least), int(-1), Ok(int(0))),
        (Op::Eq, Value::Null, Value::Null, Ok(int(1))),
        (Op::Ne, Value::Null, int(0), Ok(int(1))),
        (Op::Le, int(5), int(5), Ok(int(1))),
        (Op::Gt, int(5), int(5), Ok(int(0))),
    ];
    for (op, a, b, wanted) in table {
        assert_eq!(rt; op.apply(&[a, b]), wanted, "at {op:?}");
    }
}

/// The class `struct Pair { int n; sync int a[2]; Pair(int k, int v) { n = k; a[k] = v; } };`.
fn pair(rt: &HostRuntime) -> Result<ClassShape, Fail>
    ensures { IfOk result (λ class. size class.cells ≡ 3) }
{
    let alloc = rt.alloc();
    let mut cells = List::new(alloc);
    cells.push(CellRun {
        kind: Kind::Int,
        count: 1,
    })?;
    cells.push(CellRun {
        kind: Kind::SyncInt,
        count: 2,
    })?;
    let mut sets = List::new(alloc);
    sets.push(BuildSet {
        offset: 0,
        length: 1,
        index: None,
        value: BuildExpr::Param(0),
    })?;
    let mut parts = List::new(alloc);
    parts.push(BuildExpr::Param(1))?;
    sets.push(BuildSet {
        offset: 1,
        length: 2,
        index: Some(BuildExpr::Param(0)),
        value: BuildExpr::Op { op: Op::Neg, parts },
    })?;
    Ok(ClassShape {
        cells,
        params: 2,
        sets,
    })
}

#[test]
fn a_constructor_makes_cells(rt: HostRuntime) -> Result<(), Fail> {
    let pair = pair(&rt)?;
    let alloc = rt.alloc();
    let cells = pair.construct(alloc, &[Value::Int(1), Value::Int(8)])?;
    let wanted = [
        Cell::Plain(Value::Int(1)),
        Cell::Empty,
        Cell::Full(Value::Int(-8)),
    ];
    assert_eq!(rt; pair.size(), 3);
    assert_eq!(rt; cells.as_slice(), &wanted[..]);
    let outside = pair.construct(alloc, &[Value::Int(2), Value::Int(i64::MIN)]);
    assert_eq!(rt; outside.err(), Some(BuildError::Fault(FaultKind::IndexOut)));
    crosses_threads(&pair);
    Ok(())
}

#[test]
fn a_call_hands_over_a_value_for_each_cell(rt: HostRuntime) -> Result<(), Fail> {
    let alloc = rt.alloc();
    let mut params = List::new(alloc);
    params.push(List::from_slice(alloc, &[Kind::Int, Kind::SyncPtr])?)?;
    params.push(List::from_slice(alloc, &[Kind::Ptr])?)?;
    let shape = FunShape {
        name: Text::of(alloc, "C.f")?,
        line: 3,
        params,
        vars: 2,
        atomic: false,
    };
    assert_eq!(rt; shape.arity(), 3);
    crosses_threads(&shape);
    Ok(())
}
