//! Tests of `code_thread`: stacks, what a thread asks, its silent moves, and the shapes of functions.

ghost use Rattle.std.specs.Prelude.{◌≡◌, ◌+◌, ◌<◌, length, IfOk, OnOk};
ghost use Rattle.stack_code.specs.Kept.{IsFunShape};
ghost use Rattle.stack_code.specs.View.{code_of};

use crate::crossing::crosses_threads;
use crate::making::shape;
use cc_core::{Constant, PrintPart};
use cc_ops::{FunShape, Kind, int_of};
use ccpp_edge::{List, Text};
use code_thread::{Ask, Look, Stack, Thread, class, function, is_atomic, parameters};
use global_ptr::{Addr, Value};
use stack_code::{Code, CodeMaker, Instr};
use std::alloc::{AllocError, Global};
use std::test::Fail;

#[test]
fn types_cross_threads(rt: HostRuntime) {
    let alloc = rt.alloc();
    let stack: Stack<Value> = Stack::new(alloc);
    crosses_threads(&stack);
    crosses_threads(&Look::Stuck);
    crosses_threads(&Ask::Leaves);
    crosses_threads(&Thread::start(0, Value::Void, List::new(alloc)));
}

#[test]
fn a_stack_has_its_last_item_on_top(rt: HostRuntime) -> Result<(), Fail> {
    let mut stack = Stack::new(rt.alloc());
    for item in 1..6 {
        stack.push(item)?;
    }
    assert_eq!(rt; stack.top(), Some(&5));
    assert_eq!(rt; stack.topmost(2), Some(&[4, 5][..]));
    assert_eq!(rt; stack.topmost(6), None);
    stack.drop_topmost(2);
    assert_eq!(rt; stack.pop(), Some(3));
    assert_eq!(rt; stack.as_slice(), [1, 2].as_slice());
    assert_eq!(rt; stack.len(), 2);
    Ok(())
}

/// An atomic function of a parameter, in the sixth line.
fn with_parameter(alloc: Global, name: &str) -> Result<FunShape, AllocError>
    ensures { IfOk result IsFunShape }
{
    let mut params = List::new(alloc);
    params.push(List::from_slice(alloc, &[Kind::Int])?)?;
    Ok(FunShape {
        name: Text::of(alloc, name)?,
        line: 6,
        params,
        vars: 1,
        atomic: true,
    })
}

/// Adds a function with these instructions at their lines.
fn add(maker: &mut CodeMaker, shape: FunShape, instrs: Vec<(u32, Instr)>) -> Result<(), AllocError>
    requires few { length (code_of maker.old).shapes.functions < 65536 }
    requires fits { IsFunShape shape }
    ensures { OnOk result (length (code_of maker.new).shapes.functions ≡ length (code_of maker.old).shapes.functions + 1) }
{
    maker.function(shape)?;
    for (line, instr) in instrs {
        maker.push(instr, line)?;
    }
    Ok(())
}

/// Code of a function that calls another one, tests its result and forks two branches.
fn code(alloc: Global) -> Result<Code, Fail> {
    let mut maker = CodeMaker::new(alloc);
    let main = vec![in alloc;
        (2, Instr::Push(Constant::Int(7))),
        (
            2,
            Instr::Set {
                var: 0,
                kind: Kind::Int
            }
        ),
        (3, Instr::Var(0)),
        (3, Instr::Load),
        (3, Instr::Call(1)),
        (3, Instr::Test(11)),
        (4, Instr::Fork(List::from_slice(alloc, &[8, 10])?)),
        (4, Instr::Jump(11)),
        (0, Instr::Push(Constant::Null)),
        (0, Instr::Drop),
        (0, Instr::End),
        (4, Instr::Join),
        (5, Instr::Push(Constant::Int(9))),
        (
            5,
            Instr::Print(List::from_vec(vec![in alloc; PrintPart::Number]?))
        ),
        (1, Instr::Push(Constant::Void)),
        (1, Instr::Ret),
    ]?;
    add(&mut maker, shape(alloc, "main", 1)?, main)?;
    let same = vec![in alloc; (7, Instr::Var(0)), (7, Instr::Load), (7, Instr::Ret)]?;
    add(&mut maker, with_parameter(alloc, "same")?, same)?;
    maker
        .close(alloc)
        .map_err(|_| Fail::new("the code is not valid"))
}

/// What a thread asks, in a word, with a number of it.
fn told(ask: Ask) -> (&'static str, usize) {
    match ask {
        Ask::Enters(function, _, _) => ("enters", function as usize),
        Ask::MakesWith(_, value) => ("makes", usize::try_from(int_of(value)).unwrap_or(0)),
        Ask::Reads(_, Value::Ptr(at)) => ("reads", at.object as usize),
        Ask::Calls(_, function, _) => ("calls", function as usize),
        Ask::Tests => ("tests", 0),
        Ask::ForksAll(branches) => ("forks", branches),
        Ask::Joins(made) => ("joins", made.len()),
        Ask::Prints(_, values) => ("prints", values.len()),
        Ask::Leaves => ("leaves", 0),
        _ => ("other", 0),
    }
}

/// The address of an object's first cell.
fn at(object: u32) -> Value {
    Value::Ptr(Addr {
        processor: 0,
        object,
        offset: 0,
    })
}

/// What a thread asks, after its silent moves: the line, a word and a number; and how many branches it forks. It goes on after the answer.
fn step(
    alloc: Global,
    thread: &mut Thread,
    code: &Code,
    found: Value,
) -> Result<(u32, &'static str, usize, usize), Fail> {
    thread.settle(code)?;
    let Look::Asks(line, ask) = thread.look(code) else {
        return Err(Fail::new("it asks nothing"));
    };
    let (word, number) = told(ask);
    let branches = thread.branches(alloc, code, &[found])?.len();
    thread.answered(alloc, code, &[found], 3, branches)?;
    Ok((line, word, number, branches))
}

/// An ask at a line, as a word and a number, with how many branches it forks, and the value that answers it.
#[derive(Clone, Copy)]
struct Row {
    line: u32,
    word: &'static str,
    number: usize,
    branches: usize,
    found: Value,
}

fn asked(line: u32, word: &'static str, number: usize, found: Value) -> Row {
    Row {
        line,
        word,
        number,
        branches: if word == "forks" { number } else { 0 },
        found,
    }
}

#[test]
fn a_thread_asks_and_goes_on(rt: HostRuntime) -> Result<(), Fail> {
    let alloc = rt.alloc();
    let code = code(alloc)?;
    let mut thread = Thread::start(0, Value::Void, List::new(alloc));
    let rows = [
        asked(1, "enters", 0, Value::Void),
        asked(2, "makes", 7, at(1)),
        asked(3, "reads", 1, Value::Int(7)),
        asked(3, "calls", 1, at(2)),
        asked(7, "reads", 2, Value::Int(7)),
        asked(7, "leaves", 0, Value::Void),
        asked(3, "tests", 0, Value::Void),
        asked(4, "forks", 2, Value::Void),
        asked(4, "joins", 2, Value::Void),
        asked(5, "prints", 1, Value::Void),
        asked(1, "leaves", 0, Value::Void),
    ];
    for row in &rows {
        let (line, word, number, branches) = step(alloc, &mut thread, &code, row.found)?;
        assert_eq!(rt; line, row.line);
        assert_eq!(rt; word, row.word);
        assert_eq!(rt; number, row.number);
        assert_eq!(rt; branches, row.branches);
    }
    assert_eq!(rt; matches!(thread.look(&code), Look::Ends(Value::Void)), true);
    Ok(())
}

#[test]
fn a_silent_move_is_one(rt: HostRuntime) -> Result<(), Fail> {
    let alloc = rt.alloc();
    let code = code(alloc)?;
    let mut thread = Thread::entered(alloc, &code, 1, Value::Void, &[at(4)])?;
    assert_eq!(rt; matches!(thread.look(&code), Look::Silent), true);
    assert_eq!(rt; thread.silent_move(&code)?, true);
    assert_eq!(rt;
        matches!(thread.look(&code), Look::Asks(7, Ask::Reads(false, _))),
        true
    );
    assert_eq!(rt; thread.silent_move(&code)?, false);
    Ok(())
}

#[test]
fn functions_that_are_not_there_have_no_shape(rt: HostRuntime) -> Result<(), Fail> {
    let code = code(rt.alloc())?;
    assert_eq!(rt; function(&code, 1).is_some(), true);
    assert_eq!(rt; function(&code, 2).is_none(), true);
    assert_eq!(rt; class(&code, 0).is_none(), true);
    assert_eq!(rt; parameters(&code, 1).len(), 1);
    assert_eq!(rt; parameters(&code, 2).len(), 0);
    assert_eq!(rt; is_atomic(&code, 1), true);
    assert_eq!(rt; is_atomic(&code, 2), false);
    Ok(())
}
