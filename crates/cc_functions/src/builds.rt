ghost use Rattle.std.specs.Prelude.{◌≡◌, ◌∷◌, [], IfOk};
ghost use Rattle.cc_core.specs.declared.expression.Expression.{out-Expression};
ghost use Rattle.cc_functions.specs.BuildNests.{Builds, IsBuilt};
ghost use Rattle.cc_functions.specs.Builds as spec;
ghost use Rattle.cc_functions.specs.Builds.{built_to};

use cc_core::{Constant, Expression};
use cc_elaboration::Assignment;
use cc_ops::{BuildExpr, BuildSet, Op};
use ccpp_edge::{Boxed, List};
use global_ptr::Value;
use std::alloc::{AllocError, Global};

/// How many levels of an expression of the core are read: more than a text of a program has bytes.
const MAX_DEPTH: usize = 1_048_576;

fn literal(constant: Constant) -> Value
    ensures { result ≡ spec.literal constant }
{
    match constant {
        Constant::Void => Value::Void,
        Constant::Int(n) => Value::Int(n),
        Constant::Null => Value::Null,
    }
}

fn param_by(place: &Expression) -> Option<BuildExpr>
    ensures { result ≡ spec.param_by (out-Expression place.now) }
{
    match place {
        Expression::Variable(k) => Some(BuildExpr::Param(*k)),
        _ => None,
    }
}

fn param_at(remote: bool, place: &Expression) -> Option<BuildExpr>
    ensures { result ≡ spec.param_at remote place.now }
{
    if remote {
        return None;
    }
    param_by(place)
}

fn applied(alloc: Global, op: Op, a: Option<BuildExpr>) -> Result<Option<BuildExpr>, AllocError>
    ensures { IsBuilt (spec.applied op a) result }
{
    match a {
        None => Ok(None),
        Some(a) => {
            let mut parts = List::new(alloc);
            parts.push(a)?;
            Ok(Some(BuildExpr::Op { op, parts }))
        }
    }
}

fn parts_of(alloc: Global, a: BuildExpr, b: BuildExpr) -> Result<List<BuildExpr>, AllocError>
    ensures { IfOk result (λ parts. parts ≡ a ∷ b ∷ []) }
{
    let mut parts = List::new(alloc);
    parts.push(a)?;
    parts.push(b)?;
    Ok(parts)
}

fn applied_both(
    alloc: Global,
    op: Op,
    a: Option<BuildExpr>,
    b: Option<BuildExpr>,
) -> Result<Option<BuildExpr>, AllocError>
    ensures { IsBuilt (spec.applied_both op a b) result }
{
    match a {
        None => Ok(None),
        Some(a) => match b {
            None => Ok(None),
            Some(b) => {
                let parts = parts_of(alloc, a, b)?;
                Ok(Some(BuildExpr::Op { op, parts }))
            }
        },
    }
}

fn both(
    alloc: Global,
    a: Option<BuildExpr>,
    b: Option<BuildExpr>,
) -> Result<Option<BuildExpr>, AllocError>
    ensures { IsBuilt (spec.both a b) result }
{
    match a {
        None => Ok(None),
        Some(a) => match b {
            None => Ok(None),
            Some(b) => Ok(Some(BuildExpr::And(Boxed::new(alloc, a)?, Boxed::new(alloc, b)?))),
        },
    }
}

fn either(
    alloc: Global,
    a: Option<BuildExpr>,
    b: Option<BuildExpr>,
) -> Result<Option<BuildExpr>, AllocError>
    ensures { IsBuilt (spec.either a b) result }
{
    match a {
        None => Ok(None),
        Some(a) => match b {
            None => Ok(None),
            Some(b) => Ok(Some(BuildExpr::Or(Boxed::new(alloc, a)?, Boxed::new(alloc, b)?))),
        },
    }
}

/// Reads expressions of constructors whose parts `part` reads to a depth. Only `built_to` recurs.
#[derive(Clone, Copy)]
pub(crate) struct Builder<F> {
    pub(crate) alloc: Global,
    pub(crate) depth: usize,
    pub(crate) part: F,
}

impl<F: Fn(Global, usize, &Expression) -> Result<Option<BuildExpr>, AllocError>> Builder<F> {
    pub(crate) fn part(&self, e: &Expression) -> Result<Option<BuildExpr>, AllocError>
        requires { Builds self.now.depth (F.pre self.now.part) (F.post self.now.part) }
        ensures { IsBuilt (built_to self.now.depth e.now) result }
    {
        (self.part)(self.alloc, self.depth, e)
    }

    pub(crate) fn unary(&self, op: Op, a: &Expression) -> Result<Option<BuildExpr>, AllocError>
        requires { Builds self.now.depth (F.pre self.now.part) (F.post self.now.part) }
        ensures { IsBuilt (spec.applied op (built_to self.now.depth a.now)) result }
    {
        let a = self.part(a)?;
        applied(self.alloc, op, a)
    }

    pub(crate) fn binary(
        &self,
        op: Op,
        a: &Expression,
        b: &Expression,
    ) -> Result<Option<BuildExpr>, AllocError>
        requires { Builds self.now.depth (F.pre self.now.part) (F.post self.now.part) }
        ensures { IsBuilt (spec.applied_both op (built_to self.now.depth a.now) (built_to self.now.depth b.now)) result }
    {
        let a = self.part(a)?;
        let b = self.part(b)?;
        applied_both(self.alloc, op, a, b)
    }

    pub(crate) fn and(
        &self,
        a: &Expression,
        b: &Expression,
    ) -> Result<Option<BuildExpr>, AllocError>
        requires { Builds self.now.depth (F.pre self.now.part) (F.post self.now.part) }
        ensures { IsBuilt (spec.both (built_to self.now.depth a.now) (built_to self.now.depth b.now)) result }
    {
        let a = self.part(a)?;
        let b = self.part(b)?;
        both(self.alloc, a, b)
    }

    pub(crate) fn or(&self, a: &Expression, b: &Expression) -> Result<Option<BuildExpr>, AllocError>
        requires { Builds self.now.depth (F.pre self.now.part) (F.post self.now.part) }
        ensures { IsBuilt (spec.either (built_to self.now.depth a.now) (built_to self.now.depth b.now)) result }
    {
        let a = self.part(a)?;
        let b = self.part(b)?;
        either(self.alloc, a, b)
    }

    #[tactic(auto, unfolding(crate::specs::Builds::built))]
    pub(crate) fn built(&self, e: &Expression) -> Result<Option<BuildExpr>, AllocError>
        requires { Builds self.now.depth (F.pre self.now.part) (F.post self.now.part) }
        ensures { IsBuilt (spec.built (built_to self.now.depth) e.now) result }
    {
        match e {
            Expression::Push(constant) => Ok(Some(BuildExpr::Value(literal(*constant)))),
            Expression::Load(remote, place) => Ok(param_at(*remote, place.get())),
            Expression::Unary(op, a) => self.unary(*op, a.get()),
            Expression::Binary(op, a, b) => self.binary(*op, a.get(), b.get()),
            Expression::And(a, b) => self.and(a.get(), b.get()),
            Expression::Or(a, b) => self.or(a.get(), b.get()),
            _ => Ok(None),
        }
    }
}

pub(crate) fn built_to(
    alloc: Global,
    depth: usize,
    e: &Expression,
) -> Result<Option<BuildExpr>, AllocError>
    ensures { IsBuilt (built_to depth e.now) result }
{
    if depth == 0 {
        return Ok(None);
    }
    Builder {
        alloc,
        depth: depth - 1,
        part: built_to,
    }
    .built(e)
}

fn build_of(alloc: Global, e: &Expression) -> Result<Option<BuildExpr>, AllocError>
    ensures { IsBuilt (spec.build_of e.now) result }
{
    built_to(alloc, MAX_DEPTH, e)
}

fn is_this(e: &Expression) -> bool
    ensures { result ≡ spec.is_this e.now }
{
    match e {
        Expression::This => true,
        _ => false,
    }
}

fn own_offset(e: &Expression) -> Option<u32>
    ensures { result ≡ spec.own_offset e.now }
{
    match e {
        Expression::Member(object, offset) => {
            if is_this(object.get()) {
                Some(*offset)
            } else {
                None
            }
        }
        _ => None,
    }
}

fn member_set(offset: Option<u32>, value: Option<BuildExpr>) -> Option<BuildSet>
    ensures { result ≡ spec.member_set offset value }
{
    match offset {
        None => None,
        Some(offset) => match value {
            None => None,
            Some(value) => Some(BuildSet {
                offset,
                length: 1,
                index: None,
                value,
            }),
        },
    }
}

fn element_at(
    offset: u32,
    length: u32,
    index: Option<BuildExpr>,
    value: Option<BuildExpr>,
) -> Option<BuildSet>
    ensures { result ≡ spec.element_set (Some offset) length index value }
{
    match index {
        None => None,
        Some(index) => match value {
            None => None,
            Some(value) => Some(BuildSet {
                offset,
                length,
                index: Some(index),
                value,
            }),
        },
    }
}

fn element_set(
    offset: Option<u32>,
    length: u32,
    index: Option<BuildExpr>,
    value: Option<BuildExpr>,
) -> Option<BuildSet>
    ensures { result ≡ spec.element_set offset length index value }
{
    match offset {
        None => None,
        Some(offset) => element_at(offset, length, index, value),
    }
}

fn set_at(
    alloc: Global,
    place: &Expression,
    value: Option<BuildExpr>,
) -> Result<Option<BuildSet>, AllocError>
    ensures { IfOk result (λ set. set ≡ spec.set_by (out-Expression place.now) place.now value) }
{
    match place {
        Expression::Index(array, length, index) => {
            let index = build_of(alloc, index.get())?;
            Ok(element_set(own_offset(array.get()), *length, index, value))
        }
        _ => Ok(member_set(own_offset(place), value)),
    }
}

/// What an assignment puts into a new object, and `None` where it is not one of a constructor.
pub(crate) fn set_of(alloc: Global, assignment: &Assignment) -> Result<Option<BuildSet>, AllocError>
    ensures { IfOk result (λ set. set ≡ spec.set_of assignment.now) }
{
    let value = build_of(alloc, &assignment.value)?;
    set_at(alloc, &assignment.place.address, value)
}
