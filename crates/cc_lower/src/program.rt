ghost use Rattle.std.specs.Prelude.{◌≡◌, ◌+◌, ◌<◌, ◌≤◌, length, map, IfOk, OnOk};
ghost use Rattle.std.specs.List.{AllByRecursion};
ghost use Rattle.cc_ops.specs.Shapes.{shape_of};
ghost use Rattle.cc_core.specs.View.{function_of, program_of};
ghost use Rattle.cc_code.specs.Layout.{layout};
ghost use Rattle.stack_code.specs.View.{code_of};
ghost use Rattle.stack_code.specs.Kept.{IsFunShape, IsClassShape};
ghost use Rattle.cc_lower.specs.Emitted.{emitted_function, emitted_functions, emitted_classes};
ghost use Rattle.cc_lower.specs.Lowerable.{IsLowerable};

use crate::copies::{copy_class, copy_function};
use crate::expressions::put;
use crate::statements::statements;
use cc_core::{Function, Program};
use cc_ops::ClassShape;
use stack_code::{Code, CodeFault, CodeMaker, Instr};
use std::alloc::{AllocError, Global};

/// The code of a program: its layout, which is valid. The only refusal is want of memory.
///
/// Each loop is measured before its body is made, so a part is measured once for each loop around it.
pub fn lower(alloc: Global, program: &Program) -> Result<Code, AllocError>
    requires { IsLowerable program.now }
    ensures { IfOk result (λ code. code_of code ≡ layout (program_of program.now)) }
{
    let mut maker = CodeMaker::new(alloc);
    put_classes(alloc, &mut maker, program.classes.as_slice())?;
    put_functions(alloc, &mut maker, program.functions.as_slice())?;
    match maker.close(alloc) {
        Ok(code) => Ok(code),
        Err(CodeFault::Memory) => Err(AllocError),
        Err(CodeFault::BadTarget { .. }) => unreachable!(),
        Err(CodeFault::BadDepth { .. }) => unreachable!(),
    }
}

fn put_classes(
    alloc: Global,
    maker: &mut CodeMaker,
    classes: &[ClassShape],
) -> Result<(), AllocError>
    requires fit { AllByRecursion (λ c. IsClassShape (shape_of c)) classes.now }
    requires few { length (code_of maker.old).shapes.classes + length classes.now ≤ 65536 }
    ensures { OnOk result (code_of maker.new ≡ emitted_classes (code_of maker.old) (map shape_of classes.now)) }
{
    for class in classes {
        maker.class(copy_class(alloc, class)?)?;
    }
    Ok(())
}

fn put_functions(
    alloc: Global,
    maker: &mut CodeMaker,
    functions: &[Function],
) -> Result<(), AllocError>
    requires fit { AllByRecursion (λ f. IsFunShape f.shape) functions.now }
    requires few { length (code_of maker.old).shapes.functions + length functions.now ≤ 65536 }
    ensures { OnOk result (code_of maker.new ≡ emitted_functions (code_of maker.old) (map function_of functions.now)) }
{
    for function in functions {
        put_function(alloc, maker, function)?;
    }
    Ok(())
}

fn put_function(alloc: Global, maker: &mut CodeMaker, function: &Function) -> Result<(), AllocError>
    requires fits { IsFunShape function.now.shape }
    requires few { length (code_of maker.old).shapes.functions < 65536 }
    ensures { OnOk result (code_of maker.new ≡ emitted_function (code_of maker.old) (function_of function.now)) }
{
    let line = function.shape.line;
    let shape = copy_function(alloc, &function.shape)?;
    maker.function(shape)?;
    statements(alloc, maker, line, None, function.body.as_slice())?;
    put(maker, line, Instr::Push(function.default))?;
    put(maker, line, Instr::Ret)
}
