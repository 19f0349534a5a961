ghost use Rattle.std.specs.Prelude.{◌≡◌, ◌<◌, length, IfOk, OnOk};
ghost use Rattle.cc_core.specs.View.{term_of, terms_of, how_of};
ghost use Rattle.cc_code.specs.Code.{LoadI, StoreI, NewObjectI, SpawnI};
ghost use Rattle.stack_code.specs.View.{code_of, instr_of};
ghost use Rattle.cc_lower.specs.Emitted.{put, here, aim_here, put_call, emitted_term, emitted_terms, HasFunction};

use cc_core::{Expression, How};
use cc_ops::Op;
use stack_code::{CodeMaker, Instr};
use std::alloc::AllocError;

/// Appends an instruction.
pub(crate) fn put(maker: &mut CodeMaker, line: u32, instr: Instr) -> Result<(), AllocError>
    requires { HasFunction (code_of maker.old) }
    ensures begun { HasFunction (code_of maker.new) }
    ensures put { OnOk result (code_of maker.new ≡ put (code_of maker.old) line (instr_of instr)) }
{
    maker.push(instr, line)?;
    Ok(())
}

/// Appends an instruction whose target is filled in later, and gives its place.
pub(crate) fn put_open(maker: &mut CodeMaker, line: u32, instr: Instr) -> Result<u32, AllocError>
    requires { HasFunction (code_of maker.old) }
    ensures begun { HasFunction (code_of maker.new) }
    ensures place { IfOk result (λ at. at ≡ here (code_of maker.old)) }
    ensures put { OnOk result (code_of maker.new ≡ put (code_of maker.old) line (instr_of instr)) }
{
    maker.push(instr, line)
}

/// The next place becomes the target of an instruction.
pub(crate) fn aim_here(maker: &mut CodeMaker, at: u32)
    requires { HasFunction (code_of maker.old) }
    ensures begun { HasFunction (code_of maker.new) }
    ensures aimed { code_of maker.new ≡ aim_here (code_of maker.old) at }
{
    let here = maker.len();
    maker.aim(at, 0, here);
}

/// Appends the instructions of an expression, which leave its value on the operands.
#[cycle(expression)]
#[tactic(auto, using(crate::proofs::Views::terms))]
pub(crate) fn expression(maker: &mut CodeMaker, line: u32, e: &Expression) -> Result<(), AllocError>
    requires { HasFunction (code_of maker.old) }
    ensures begun { HasFunction (code_of maker.new) }
    ensures lowered { OnOk result (code_of maker.new ≡ emitted_term (code_of maker.old) line (term_of e.now)) }
{
    match e {
        Expression::Push(constant) => put(maker, line, Instr::Push(*constant)),
        Expression::This => put(maker, line, Instr::This),
        Expression::Variable(var) => put(maker, line, Instr::Var(*var)),
        Expression::Member(object, offset) => {
            expression(maker, line, object.get())?;
            put(maker, line, Instr::Field(*offset))
        }
        Expression::Index(array, count, index) => {
            expression(maker, line, array.get())?;
            expression(maker, line, index.get())?;
            put(maker, line, Instr::Index(*count))
        }
        Expression::At(pointer, index) => {
            expression(maker, line, pointer.get())?;
            expression(maker, line, index.get())?;
            put(maker, line, Instr::At)
        }
        Expression::Load(remote, place) => {
            expression(maker, line, place.get())?;
            put(maker, line, load(*remote))
        }
        Expression::Unary(op, part) => {
            expression(maker, line, part.get())?;
            put(maker, line, Instr::Op(*op))
        }
        Expression::Binary(op, first, second) => {
            expression(maker, line, first.get())?;
            expression(maker, line, second.get())?;
            put(maker, line, Instr::Op(*op))
        }
        Expression::And(first, second) => {
            expression(maker, line, first.get())?;
            let test = put_open(maker, line, Instr::And(0))?;
            expression(maker, line, second.get())?;
            put(maker, line, Instr::Op(Op::Bool))?;
            aim_here(maker, test);
            Ok(())
        }
        Expression::Or(first, second) => {
            expression(maker, line, first.get())?;
            let test = put_open(maker, line, Instr::Or(0))?;
            expression(maker, line, second.get())?;
            put(maker, line, Instr::Op(Op::Bool))?;
            aim_here(maker, test);
            Ok(())
        }
        Expression::New(kind, count) => put(
            maker,
            line,
            Instr::New {
                kind: *kind,
                count: *count,
            },
        ),
        Expression::NewObject(remote, class, arguments) => {
            expressions(maker, line, arguments.as_slice())?;
            put(maker, line, new_object(*remote, *class))
        }
        Expression::Call(how, function, arguments) => {
            expressions(maker, line, arguments.as_slice())?;
            put_call(maker, line, *how, *function)
        }
    }
}

/// Appends the instructions of several expressions.
#[cycle(expression)]
#[tactic(auto, using(crate::proofs::Views::terms))]
pub(crate) fn expressions(
    maker: &mut CodeMaker,
    line: u32,
    es: &[Expression],
) -> Result<(), AllocError>
    requires { HasFunction (code_of maker.old) }
    ensures begun { HasFunction (code_of maker.new) }
    ensures lowered { OnOk result (code_of maker.new ≡ emitted_terms (code_of maker.old) line (terms_of es.now)) }
{
    for e in es {
        expression(maker, line, e)?;
    }
    Ok(())
}

/// A call; a remote one waits for its value.
fn put_call(maker: &mut CodeMaker, line: u32, how: How, function: u32) -> Result<(), AllocError>
    requires { HasFunction (code_of maker.old) }
    ensures begun { HasFunction (code_of maker.new) }
    ensures put { OnOk result (code_of maker.new ≡ put_call (code_of maker.old) line (how_of how) function) }
{
    match how {
        How::Alone => put(maker, line, Instr::Call(function)),
        How::On => put(maker, line, Instr::CallOn(function)),
        How::Remote => {
            put(maker, line, Instr::Ask(function))?;
            put(maker, line, Instr::Join)
        }
    }
}

fn load(remote: bool) -> Instr
    ensures { instr_of result ≡ LoadI remote }
{
    if remote { Instr::Get } else { Instr::Load }
}

fn new_object(remote: bool, class: u32) -> Instr
    ensures { instr_of result ≡ NewObjectI remote class }
{
    if remote {
        Instr::NewProc(class)
    } else {
        Instr::NewObj(class)
    }
}

pub(crate) fn store(remote: bool) -> Instr
    ensures { instr_of result ≡ StoreI remote }
{
    if remote { Instr::Put } else { Instr::Store }
}

pub(crate) fn spawn(how: How, function: u32) -> Instr
    ensures { instr_of result ≡ SpawnI (how_of how) function }
{
    match how {
        How::Alone => Instr::Spawn(function),
        How::On => Instr::SpawnOn(function),
        How::Remote => Instr::Cast(function),
    }
}
