ghost use Rattle.std.specs.Prelude.{◌≡◌, IfOk, map};
ghost use Rattle.cc_core.specs.View.{part_of};
ghost use Rattle.cc_ops.specs.Shapes.{shape_of, set_of, expr_of, exprs_of};

use cc_core::PrintPart;
use cc_ops::{BuildExpr, BuildSet, ClassShape, FunShape, Kind};
use ccpp_edge::{Boxed, Bytes, List, Text};
use std::alloc::{AllocError, Global};

/// A copy of what `cout` writes.
pub(crate) fn copy_parts(alloc: Global, parts: &[PrintPart]) -> Result<List<PrintPart>, AllocError>
    ensures { IfOk result (λ copy. map part_of copy ≡ map part_of parts.now) }
{
    let mut copy = List::new(alloc);
    for part in parts {
        copy.push(copy_part(alloc, part)?)?;
    }
    Ok(copy)
}

fn copy_part(alloc: Global, part: &PrintPart) -> Result<PrintPart, AllocError>
    ensures { IfOk result (λ copy. part_of copy ≡ part_of part.now) }
{
    match part {
        PrintPart::Number => Ok(PrintPart::Number),
        PrintPart::Text(bytes) => {
            let bytes = Bytes::from_slice(alloc, bytes.as_slice())?;
            Ok(PrintPart::Text(bytes))
        }
        PrintPart::Endl => Ok(PrintPart::Endl),
    }
}

/// A copy of the shape of a function.
pub(crate) fn copy_function(alloc: Global, shape: &FunShape) -> Result<FunShape, AllocError>
    ensures { IfOk result (λ copy. copy ≡ shape.now) }
{
    Ok(FunShape {
        name: Text::of(alloc, shape.name.as_str())?,
        line: shape.line,
        params: copy_params(alloc, shape.params.as_slice())?,
        vars: shape.vars,
        atomic: shape.atomic,
    })
}

fn copy_params(alloc: Global, params: &[List<Kind>]) -> Result<List<List<Kind>>, AllocError>
    ensures { IfOk result (λ copy. copy ≡ params.now) }
{
    let mut copy = List::new(alloc);
    for kinds in params {
        copy.push(List::from_slice(alloc, kinds.as_slice())?)?;
    }
    Ok(copy)
}

/// A copy of the shape of a class.
pub(crate) fn copy_class(alloc: Global, shape: &ClassShape) -> Result<ClassShape, AllocError>
    ensures { IfOk result (λ copy. shape_of copy ≡ shape_of shape.now) }
{
    let cells = List::from_slice(alloc, shape.cells.as_slice())?;
    let sets = copy_sets(alloc, shape.sets.as_slice())?;
    Ok(ClassShape {
        cells,
        params: shape.params,
        sets,
    })
}

fn copy_sets(alloc: Global, sets: &[BuildSet]) -> Result<List<BuildSet>, AllocError>
    ensures { IfOk result (λ copy. map set_of copy ≡ map set_of sets.now) }
{
    let mut copy = List::new(alloc);
    for set in sets {
        copy.push(copy_set(alloc, set)?)?;
    }
    Ok(copy)
}

fn copy_set(alloc: Global, set: &BuildSet) -> Result<BuildSet, AllocError>
    ensures { IfOk result (λ copy. set_of copy ≡ set_of set.now) }
{
    let index = match &set.index {
        Some(index) => Some(copy_build(alloc, index)?),
        None => None,
    };
    let value = copy_build(alloc, &set.value)?;
    Ok(BuildSet {
        offset: set.offset,
        length: set.length,
        index,
        value,
    })
}

#[cycle(copy)]
#[tactic(auto, using(cc_ops::proofs::Exprs::exprs))]
fn copy_build(alloc: Global, e: &BuildExpr) -> Result<BuildExpr, AllocError>
    ensures { IfOk result (λ copy. expr_of copy ≡ expr_of e.now) }
{
    match e {
        BuildExpr::Value(value) => Ok(BuildExpr::Value(*value)),
        BuildExpr::Param(k) => Ok(BuildExpr::Param(*k)),
        BuildExpr::Op { op, parts } => {
            let parts = copy_builds(alloc, parts.as_slice())?;
            Ok(BuildExpr::Op { op: *op, parts })
        }
        BuildExpr::And(a, b) => {
            let a = Boxed::new(alloc, copy_build(alloc, a.get())?)?;
            let b = Boxed::new(alloc, copy_build(alloc, b.get())?)?;
            Ok(BuildExpr::And(a, b))
        }
        BuildExpr::Or(a, b) => {
            let a = Boxed::new(alloc, copy_build(alloc, a.get())?)?;
            let b = Boxed::new(alloc, copy_build(alloc, b.get())?)?;
            Ok(BuildExpr::Or(a, b))
        }
    }
}

#[cycle(copy)]
fn copy_builds(alloc: Global, es: &[BuildExpr]) -> Result<List<BuildExpr>, AllocError>
    ensures { IfOk result (λ copy. exprs_of copy ≡ exprs_of es.now) }
{
    let mut copy = List::new(alloc);
    for e in es {
        copy.push(copy_build(alloc, e)?)?;
    }
    Ok(copy)
}
