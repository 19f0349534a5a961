ghost use Rattle.std.specs.Prelude.{◌≡◌, IfOk};
ghost use Rattle.cc_scopes.specs.Elab.{Gives};
ghost use Rattle.cc_scopes.specs.Meaning.{member_of};
ghost use Rattle.cc_typing.specs.Objects as spec;
ghost use Rattle.cc_scopes.specs.Scope.{context};

use crate::calls::{Args, Callee, called};
use cc_core::Expression;
use cc_names::{ClassId, StaticRule};
use cc_scopes::{Declared, Meaning, Object, Operand, Place, Root, Scope, State, Target, Ty, Typed};
use ccpp_edge::{Boxed, Text};
use std::alloc::{AllocError, Global};

fn element(alloc: Global, place: Place, length: u32, index: Expression) -> Result<Typed, AllocError>
    ensures { IfOk result (λ t. t ≡ spec.element place length index) }
{
    let Place {
        address,
        ty,
        sync,
        remote,
        root,
        ..
    } = place;
    let address = Boxed::new(alloc, address)?;
    Ok(Typed::Place(Place {
        address: Expression::Index(address, length, Boxed::new(alloc, index)?),
        ty,
        sync,
        remote,
        root,
        is_element: true,
    }))
}

fn element_behind(
    alloc: Global,
    base: Expression,
    index: Expression,
    sync: bool,
    remote: bool,
) -> Result<Typed, AllocError>
    ensures { IfOk result (λ t. t ≡ spec.element_behind base index sync remote) }
{
    let base = Boxed::new(alloc, base)?;
    Ok(Typed::Place(Place {
        address: Expression::At(base, Boxed::new(alloc, index)?),
        ty: Ty::Int,
        sync,
        remote,
        root: Root::Pointer,
        is_element: true,
    }))
}

fn object_behind(class: ClassId, address: Expression, remote: bool) -> Object
    ensures { result ≡ spec.object_behind class address remote }
{
    Object {
        class,
        address,
        remote,
        is_variable: false,
    }
}

fn field_at(
    alloc: Global,
    object: Object,
    declared: Declared,
    offset: u32,
) -> Result<Typed, AllocError>
    ensures { IfOk result (λ t. t ≡ spec.field_at object declared offset) }
{
    Ok(Typed::placed(
        Expression::Member(Boxed::new(alloc, object.address)?, offset),
        declared,
        object.remote,
        Root::Member,
    ))
}

/// What a function of an object is called on.
fn callee_at(remote: bool, address: Expression) -> Callee
    ensures { result ≡ spec.callee_at remote address }
{
    if remote {
        Callee::Remote(address)
    } else {
        Callee::On(address)
    }
}

/// An element of an array that is given by its name.
pub(crate) fn indexed_array(
    alloc: Global,
    scope: &Scope<'_>,
    state: &mut State,
    place: Place,
    length: u32,
    index: Option<Operand>,
) -> Result<Typed, AllocError>
    ensures { Gives (spec.indexed_array (context scope.now) place length index state.old) result state.new }
{
    match index {
        None => Ok(Typed::Spoiled),
        Some(index) => {
            if !index.ty.is_int() {
                return scope.broken(state, StaticRule::BadType);
            }
            element(alloc, place, length, index.term)
        }
    }
}

fn indexed_target(
    alloc: Global,
    scope: &Scope<'_>,
    state: &mut State,
    to: Target,
    remote: bool,
    base: Expression,
    index: Expression,
) -> Result<Typed, AllocError>
    ensures { Gives (spec.indexed_target to (context scope.now) remote base index state.old) result state.new }
{
    match to {
        Target::Int => element_behind(alloc, base, index, false, remote),
        Target::SyncInt => element_behind(alloc, base, index, true, remote),
        Target::Class(_) => scope.broken(state, StaticRule::BadType),
    }
}

fn indexed_pointer(
    alloc: Global,
    scope: &Scope<'_>,
    state: &mut State,
    ty: Ty,
    base: Expression,
    index: Expression,
) -> Result<Typed, AllocError>
    ensures { Gives (spec.indexed_pointer ty (context scope.now) base index state.old) result state.new }
{
    match ty {
        Ty::Pointer { to, remote } => {
            indexed_target(alloc, scope, state, to, remote, base, index)
        }
        _ => scope.broken(state, StaticRule::BadType),
    }
}

/// An element behind a pointer.
pub(crate) fn indexed_value(
    alloc: Global,
    scope: &Scope<'_>,
    state: &mut State,
    base: Option<Operand>,
    index: Option<Operand>,
) -> Result<Typed, AllocError>
    ensures { Gives (spec.indexed_value (context scope.now) base index state.old) result state.new }
{
    let Some(base) = base else {
        return Ok(Typed::Spoiled);
    };
    let Some(index) = index else {
        return Ok(Typed::Spoiled);
    };
    if !index.ty.is_int() {
        return scope.broken(state, StaticRule::BadType);
    }
    indexed_pointer(alloc, scope, state, base.ty, base.term, index.term)
}

fn no_object(scope: &Scope<'_>, state: &mut State) -> Result<Option<Object>, AllocError>
    ensures { Gives (spec.no_object (context scope.now) state.old) result state.new }
{
    scope.note_rule(state, StaticRule::BadType)?;
    Ok(None)
}

fn before_dot(
    scope: &Scope<'_>,
    state: &mut State,
    typed: Typed,
) -> Result<Option<Object>, AllocError>
    ensures { Gives (spec.before_dot (context scope.now) typed state.old) result state.new }
{
    match typed {
        Typed::Broken => Ok(None),
        Typed::Spoiled => Ok(None),
        Typed::Value(_) => no_object(scope, state),
        Typed::This(_, _) => no_object(scope, state),
        Typed::Constant(_, _) => no_object(scope, state),
        Typed::Place(_) => no_object(scope, state),
        Typed::Array(_, _) => no_object(scope, state),
        Typed::Object(object) => Ok(Some(object)),
    }
}

fn target_object(
    scope: &Scope<'_>,
    state: &mut State,
    to: Target,
    term: Expression,
    remote: bool,
) -> Result<Option<Object>, AllocError>
    ensures { Gives (spec.target_object to (context scope.now) term remote state.old) result state.new }
{
    match to {
        Target::Class(class) => Ok(Some(object_behind(class, term, remote))),
        _ => no_object(scope, state),
    }
}

fn pointed_object(
    scope: &Scope<'_>,
    state: &mut State,
    value: Option<Operand>,
) -> Result<Option<Object>, AllocError>
    ensures { Gives (spec.pointed_object (context scope.now) value state.old) result state.new }
{
    match value {
        None => Ok(None),
        Some(value) => match value.ty {
            Ty::Pointer { to, remote } => target_object(scope, state, to, value.term, remote),
            _ => no_object(scope, state),
        },
    }
}

#[tactic(auto, unfolding(crate::specs::Objects::value_before_arrow))]
fn value_before_arrow(
    alloc: Global,
    scope: &Scope<'_>,
    state: &mut State,
    typed: Typed,
) -> Result<Option<Object>, AllocError>
    ensures { Gives (spec.value_before_arrow (context scope.now) typed state.old) result state.new }
{
    let value = scope.decay(alloc, state, typed)?;
    pointed_object(scope, state, value)
}

fn before_arrow(
    alloc: Global,
    scope: &Scope<'_>,
    state: &mut State,
    typed: Typed,
) -> Result<Option<Object>, AllocError>
    ensures { Gives (spec.before_arrow (context scope.now) typed state.old) result state.new }
{
    match typed {
        Typed::This(class, _) => Ok(Some(object_behind(class, Expression::This, false))),
        typed => value_before_arrow(alloc, scope, state, typed),
    }
}

/// The object before a dot or an arrow, and none where a rule is broken.
pub(crate) fn object_of(
    alloc: Global,
    scope: &Scope<'_>,
    state: &mut State,
    arrow: bool,
    typed: Typed,
) -> Result<Option<Object>, AllocError>
    ensures { Gives (spec.object_of (context scope.now) arrow typed state.old) result state.new }
{
    if arrow {
        return before_arrow(alloc, scope, state, typed);
    }
    before_dot(scope, state, typed)
}

fn field_as(
    alloc: Global,
    scope: &Scope<'_>,
    state: &mut State,
    meaning: Meaning,
    object: Object,
) -> Result<Typed, AllocError>
    ensures { Gives (spec.field_as meaning (context scope.now) object state.old) result state.new }
{
    match meaning {
        Meaning::Field(declared, offset) => field_at(alloc, object, declared, offset),
        Meaning::Nothing => scope.broken(state, StaticRule::UnknownMember),
        _ => scope.broken(state, StaticRule::NotFunction),
    }
}

/// A member of an object.
pub(crate) fn field_of(
    alloc: Global,
    scope: &Scope<'_>,
    state: &mut State,
    name: &Text,
    object: Option<Object>,
) -> Result<Typed, AllocError>
    ensures { Gives (spec.field_of (context scope.now) name.now object state.old) result state.new }
{
    match object {
        None => Ok(Typed::Spoiled),
        Some(object) => {
            let meaning = Meaning::in_class(scope.member_of(object.class, name));
            field_as(alloc, scope, state, meaning, object)
        }
    }
}

fn call_as(
    alloc: Global,
    scope: &Scope<'_>,
    state: &mut State,
    meaning: Meaning,
    object: Object,
    args: Args,
) -> Result<Typed, AllocError>
    ensures { Gives (spec.call_as meaning (context scope.now) object args state.old) result state.new }
{
    match meaning {
        Meaning::Method(f) => called(
            alloc,
            scope,
            state,
            f,
            callee_at(object.remote, object.address),
            args,
        ),
        Meaning::Nothing => scope.broken(state, StaticRule::UnknownMember),
        _ => scope.broken(state, StaticRule::NotFunction),
    }
}

/// A call on an object.
pub(crate) fn call_member(
    alloc: Global,
    scope: &Scope<'_>,
    state: &mut State,
    name: &Text,
    object: Option<Object>,
    args: Option<Args>,
) -> Result<Typed, AllocError>
    ensures { Gives (spec.call_member (context scope.now) name.now object args state.old) result state.new }
{
    let Some(object) = object else {
        return Ok(Typed::Spoiled);
    };
    let Some(args) = args else {
        return Ok(Typed::Spoiled);
    };
    let meaning = Meaning::in_class(scope.member_of(object.class, name));
    call_as(alloc, scope, state, meaning, object, args)
}
