//! Tests of `cc_lower`: the code of a program.

ghost use Rattle.std.specs.Prelude.{◌≡◌, ◌∷◌, [], IfOk};
ghost use Rattle.stack_code.specs.Kept.{IsFunShape};
ghost use Rattle.cc_lower.specs.Lowerable.{IsLowerable};

use crate::making::shape;
use cc_core::{Constant, Expression, Function, Program, Statement};
use cc_lower::lower;
use ccpp_edge::{Boxed, Bytes, List};
use code_listing::listing;
use std::alloc::{AllocError, Global};
use std::test::Fail;

/// The function `main` with these statements.
fn function(alloc: Global, body: List<Statement>) -> Result<Function, AllocError>
    ensures body { IfOk result (λ function. function.body ≡ body) }
    ensures shape { IfOk result (λ function. IsFunShape function.shape) }
{
    let shape = shape(alloc, "main", 0)?;
    let default = Constant::Int(0);
    Ok(Function {
        shape,
        default,
        body,
    })
}

/// The program of this function alone.
fn alone(alloc: Global, function: Function) -> Result<Program, AllocError>
    ensures functions { IfOk result (λ program. program.functions ≡ function ∷ []) }
    ensures classes { IfOk result (λ program. program.classes ≡ []) }
{
    let mut functions = List::new(alloc);
    functions.push(function)?;
    let classes = List::new(alloc);
    Ok(Program {
        functions,
        classes,
        main: 0,
    })
}

/// The program `int main() { return 0; }`.
fn returning(alloc: Global) -> Result<Program, AllocError>
    ensures { IfOk result IsLowerable }
{
    let mut body = List::new(alloc);
    body.push(Statement::Return(Expression::Push(Constant::Int(0))))?;
    let function = function(alloc, body)?;
    let program = alone(alloc, function)?;
    Ok(program)
}

/// The program `int main() { while (1) break; return 0; }`.
fn leaving(alloc: Global) -> Result<Program, AllocError>
    ensures { IfOk result IsLowerable }
{
    let leave = Boxed::new(alloc, Statement::Break)?;
    let mut body = List::new(alloc);
    body.push(Statement::While(Expression::Push(Constant::Int(1)), leave))?;
    body.push(Statement::Return(Expression::Push(Constant::Int(0))))?;
    let function = function(alloc, body)?;
    let program = alone(alloc, function)?;
    Ok(program)
}

#[test]
fn a_program_is_lowered_and_listed(rt: HostRuntime) -> Result<(), Fail> {
    let alloc = rt.alloc();
    let program = returning(alloc)?;
    let code = lower(alloc, &program)?;
    let mut text = Bytes::new(alloc);
    listing(alloc, &code, &mut text)?;
    let lines = b"function main\n0 push 0\n1 ret\n2 push 0\n3 ret\n";
    assert_eq!(rt; text.as_slice(), lines.as_slice());
    Ok(())
}

#[test]
fn a_loop_is_left(rt: HostRuntime) -> Result<(), Fail> {
    let alloc = rt.alloc();
    let program = leaving(alloc)?;
    let code = lower(alloc, &program)?;
    let mut text = Bytes::new(alloc);
    listing(alloc, &code, &mut text)?;
    let lines =
        b"function main\n0 push 1\n1 test 4\n2 jump 4\n3 jump 0\n4 push 0\n5 ret\n6 push 0\n7 ret\n";
    assert_eq!(rt; text.as_slice(), lines.as_slice());
    Ok(())
}
