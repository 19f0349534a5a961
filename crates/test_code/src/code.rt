//! Tests of `stack_code`: which code is closed, and the fault that is named where it is not.

use crate::crossing::crosses_threads;
use crate::making::closed;
use cc_core::Constant;
use cc_ops::{Kind, Op};
use stack_code::{CodeFault, Instr};
use std::alloc::{AllocError, Global};
use std::test::Fail;

/// What `close` says of a function of two variables and these instructions.
fn fault(alloc: Global, instrs: Vec<Instr>) -> Result<Option<CodeFault>, AllocError> {
    match closed(alloc, "main", 2, instrs) {
        Ok(_) => Ok(None),
        Err(CodeFault::Memory) => Err(AllocError),
        Err(fault) => Ok(Some(fault)),
    }
}

#[test]
fn types_cross_threads(rt: HostRuntime) -> Result<(), Fail> {
    let alloc = rt.alloc();
    let instrs = vec![in alloc; Instr::Push(Constant::Void), Instr::Ret]?;
    let Ok(code) = closed(alloc, "main", 2, instrs) else {
        return Err(Fail::new("the code is not valid"));
    };
    crosses_threads(&code);
    assert_eq!(rt; code.main(), Some(0));
    Ok(())
}

fn target(at: u32) -> Option<CodeFault> {
    Some(CodeFault::BadTarget { at })
}

fn depth(at: u32) -> Option<CodeFault> {
    Some(CodeFault::BadDepth { at })
}

#[test]
fn close_names_the_first_bad_target(rt: HostRuntime) -> Result<(), Fail> {
    let alloc = rt.alloc();
    let zero = Constant::Int(0);
    let good = vec![in alloc; Instr::Push(zero), Instr::Ret]?;
    assert_eq!(rt; fault(alloc, good)?, None);
    let empty = vec![in alloc]?;
    assert_eq!(rt; fault(alloc, empty)?, target(0));
    let behind_the_end = vec![in alloc; Instr::Jump(1)]?;
    assert_eq!(rt; fault(alloc, behind_the_end)?, target(0));
    let circle = vec![in alloc; Instr::Push(zero), Instr::Drop, Instr::Jump(0)]?;
    assert_eq!(rt; fault(alloc, circle)?, target(2));
    let variable = vec![in alloc; Instr::Var(2), Instr::Ret]?;
    assert_eq!(rt; fault(alloc, variable)?, target(0));
    let falls_out = vec![in alloc; Instr::Push(zero)]?;
    assert_eq!(rt; fault(alloc, falls_out)?, target(0));
    Ok(())
}

#[test]
fn close_names_the_first_number_out_of_range(rt: HostRuntime) -> Result<(), Fail> {
    let alloc = rt.alloc();
    let function = vec![in alloc; Instr::Call(1), Instr::Ret]?;
    assert_eq!(rt; fault(alloc, function)?, target(0));
    let class = vec![in alloc; Instr::NewObj(0), Instr::Ret]?;
    assert_eq!(rt; fault(alloc, class)?, target(0));
    let kind = Kind::Int;
    let no_cells = vec![in alloc;
        Instr::This,
        Instr::Drop,
        Instr::New { kind, count: 0 },
        Instr::Ret,
    ]?;
    assert_eq!(rt; fault(alloc, no_cells)?, target(2));
    Ok(())
}

#[test]
fn close_names_the_first_bad_depth(rt: HostRuntime) -> Result<(), Fail> {
    let alloc = rt.alloc();
    let zero = Constant::Int(0);
    let none = vec![in alloc; Instr::Ret]?;
    assert_eq!(rt; fault(alloc, none)?, depth(0));
    let two = vec![in alloc; Instr::Push(zero), Instr::Push(zero), Instr::Ret]?;
    assert_eq!(rt; fault(alloc, two)?, depth(2));
    let few = vec![in alloc; Instr::Push(zero), Instr::Op(Op::Add), Instr::Ret]?;
    assert_eq!(rt; fault(alloc, few)?, depth(1));
    let differ = vec![in alloc;
        Instr::Push(zero),
        Instr::Test(3),
        Instr::Push(zero),
        Instr::Push(zero),
        Instr::Ret,
    ]?;
    assert_eq!(rt; fault(alloc, differ)?, depth(3));
    let both = vec![in alloc;
        Instr::Field(0),
        Instr::Test(9),
        Instr::Push(zero),
        Instr::Ret,
    ]?;
    assert_eq!(rt; fault(alloc, both)?, depth(0));
    let one_place = vec![in alloc; Instr::Test(9), Instr::Push(zero), Instr::Ret]?;
    assert_eq!(rt; fault(alloc, one_place)?, target(0));
    Ok(())
}
