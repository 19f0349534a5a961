ghost use Rattle.std.specs.Prelude.{◌≡◌, IfOk};
ghost use Rattle.cc_scopes.specs.Elab.{Gives};
ghost use Rattle.cc_scopes.specs.Scope.{context};
ghost use Rattle.cc_scopes.specs.Typed as spec;

use crate::scope::Scope;
use crate::sharing::ShareRule;
use crate::state::State;
use crate::types::{Declared, Shape, Target, Ty};
use cc_core::{Constant, Expression};
use cc_names::{Broken, ClassId, StaticRule};
use ccpp_edge::Boxed;
use std::alloc::{AllocError, Global};

/// What a place is part of.
#[derive(Clone, Copy, Debug)]
pub enum Root {
    /// A variable that this parallel part declares.
    Variable(usize),
    /// A member of an object.
    Member,
    /// What a pointer leads to.
    Pointer,
}

/// A cell, or the first one of an array, that is read or written.
#[derive(Drop)]
pub struct Place {
    /// Its address.
    pub address: Expression,
    /// The type of its values.
    pub ty: Ty,
    /// Whether it is a sync variable.
    pub sync: bool,
    /// Whether it is reached through a global pointer.
    pub remote: bool,
    /// What it is part of.
    pub root: Root,
    /// Whether it is an element, given by an index.
    pub is_element: bool,
}

/// An object of a class.
#[derive(Drop)]
pub struct Object {
    /// The class.
    pub class: ClassId,
    /// Its address.
    pub address: Expression,
    /// Whether it is reached through a global pointer.
    pub remote: bool,
    /// Whether it is a variable.
    pub is_variable: bool,
}

/// A value: its type, and the expression of the core that gives it.
#[derive(Drop)]
pub struct Operand {
    /// Its type.
    pub ty: Ty,
    /// What gives it.
    pub term: Expression,
}

/// What an expression is.
#[derive(Drop)]
pub enum Typed {
    /// It breaks a rule, or nothing is known of it.
    Broken,
    /// A part of it breaks a rule, so it breaks no further one.
    Spoiled,
    /// A value that is no place.
    Value(Operand),
    /// `this` of a class, and whether the class is global.
    This(ClassId, bool),
    /// A constant expression, and its value where that is no fault.
    Constant(Expression, Option<i64>),
    /// A cell.
    Place(Place),
    /// A whole array of so many elements, by its first cell.
    Array(Place, u32),
    /// An object of a class.
    Object(Object),
}

impl Root {
    fn is_variable(self) -> bool
        ensures { result ≡ spec.is_variable self }
    {
        match self {
            Root::Variable(_) => true,
            _ => false,
        }
    }
}

impl Place {
    fn typed(self, shape: Shape) -> Typed
        ensures { result ≡ spec.placed_by shape self }
    {
        match shape {
            Shape::Cell => Typed::Place(self),
            Shape::Array(n) => Typed::Array(self, n),
            Shape::Object(class) => self.object(class),
        }
    }

    fn object(self, class: ClassId) -> Typed
        ensures { result ≡ spec.placed_by (Shape.Object class) self }
    {
        Typed::Object(Object {
            class,
            remote: self.remote,
            is_variable: self.root.is_variable(),
            address: self.address,
        })
    }

    /// Whether it holds a local pointer and is reached through a global one.
    pub fn is_far_local(&self) -> bool
        ensures { result ≡ spec.is_far_local self.now }
    {
        self.remote && self.ty.is_local_pointer()
    }

    fn may_wait(&self) -> bool
        ensures { result ≡ spec.may_wait self.now }
    {
        self.remote || self.sync
    }

    fn loaded(self, alloc: Global) -> Result<Operand, AllocError>
        ensures { IfOk result (λ v. v ≡ spec.loaded self) }
    {
        Ok(Operand {
            ty: self.ty,
            term: Expression::Load(self.remote, Boxed::new(alloc, self.address)?),
        })
    }

    /// The pointer to it.
    pub fn pointer(self) -> Operand
        ensures { result ≡ spec.pointer_to self }
    {
        Operand {
            ty: Ty::Pointer {
                to: Target::int(self.sync),
                remote: self.remote,
            },
            term: self.address,
        }
    }
}

impl Object {
    /// The pointer to it, which is a local one.
    pub fn pointer(self) -> Operand
        ensures { result ≡ spec.object_pointer self }
    {
        Operand {
            ty: Ty::Pointer {
                to: Target::Class(self.class),
                remote: false,
            },
            term: self.address,
        }
    }
}

impl Operand {
    /// The value of an int expression.
    pub fn int(term: Expression) -> Operand
        ensures { result ≡ spec.int term }
    {
        Operand { ty: Ty::Int, term }
    }
}

impl Typed {
    /// What is at the address of a declared thing. Of an unknown type it breaks no further rule.
    pub fn placed(address: Expression, declared: Declared, remote: bool, root: Root) -> Typed
        ensures { result ≡ spec.placed address declared remote root }
    {
        let place = Place {
            address,
            ty: declared.ty,
            sync: declared.sync,
            remote,
            root,
            is_element: false,
        };
        match declared.ty {
            Ty::Unknown => Typed::Broken,
            _ => place.typed(declared.shape),
        }
    }

    /// A literal.
    pub fn literal(n: i64) -> Typed
        ensures { result ≡ spec.literal n }
    {
        Typed::Constant(pushed(n), Some(n))
    }
}

/// An int of the text.
pub(crate) fn pushed(n: i64) -> Expression
    ensures { result ≡ spec.pushed n }
{
    Expression::Push(Constant::Int(n))
}

/// The rule that an array breaks which stands as a pointer to its first element.
fn array_rule(ty: Ty, root: Root) -> Option<StaticRule>
    ensures { result ≡ spec.array_rule ty root }
{
    match (ty, root) {
        (Ty::Int, Root::Member) => Some(StaticRule::MemberAddress),
        (Ty::Int, _) => None,
        _ => Some(StaticRule::BadType),
    }
}

fn own(class: ClassId, remote: bool) -> Operand
    ensures { result ≡ spec.own class remote }
{
    Operand {
        ty: Ty::Pointer {
            to: Target::Class(class),
            remote,
        },
        term: Expression::This,
    }
}

impl Scope<'_> {
    /// Adds a rule that is broken here.
    pub fn note_rule(&self, state: &mut State, rule: StaticRule) -> Result<(), AllocError>
        ensures { Gives (spec.note_rule (context self.now) rule state.old) result state.new }
    {
        state.note(Broken::Rule {
            rule,
            line: self.line,
        })
    }

    /// An expression that breaks a rule.
    pub fn broken(&self, state: &mut State, rule: StaticRule) -> Result<Typed, AllocError>
        ensures { Gives (spec.broken (context self.now) rule state.old) result state.new }
    {
        self.note_rule(state, rule)?;
        Ok(Typed::Broken)
    }

    fn no_operand(&self, state: &mut State, rule: StaticRule) -> Result<Option<Operand>, AllocError>
        ensures { Gives (spec.no_operand (context self.now) rule state.old) result state.new }
    {
        self.note_rule(state, rule)?;
        Ok(None)
    }

    #[tactic(auto, unfolding(crate::specs::Typed::load))]
    fn load(
        &self,
        alloc: Global,
        state: &mut State,
        place: Place,
    ) -> Result<Option<Operand>, AllocError>
        ensures { Gives (spec.load (context self.now) place state.old) result state.new }
    {
        state.block_if(place.may_wait(), self.line)?;
        Ok(Some(place.loaded(alloc)?))
    }

    fn load_unless(
        &self,
        alloc: Global,
        state: &mut State,
        is_far_local: bool,
        place: Place,
    ) -> Result<Option<Operand>, AllocError>
        ensures { Gives (spec.load_unless is_far_local (context self.now) place state.old) result state.new }
    {
        if is_far_local {
            return self.no_operand(state, StaticRule::RemoteLocal);
        }
        self.load(alloc, state, place)
    }

    /// The value in a place.
    fn read(
        &self,
        alloc: Global,
        state: &mut State,
        place: Place,
    ) -> Result<Option<Operand>, AllocError>
        ensures { Gives (spec.read (context self.now) place state.old) result state.new }
    {
        self.load_unless(alloc, state, place.is_far_local(), place)
    }

    /// The address of a plain int makes it shared.
    pub fn share_address(&self, state: &mut State, sync: bool) -> Result<(), AllocError>
        ensures { Gives (spec.share_address sync (context self.now) state.old) result state.new }
    {
        if sync {
            return Ok(());
        }
        state.share(ShareRule::PlainAddress, self.line)
    }

    #[tactic(auto, unfolding(crate::specs::Typed::pointed))]
    fn pointed(&self, state: &mut State, place: Place) -> Result<Option<Operand>, AllocError>
        ensures { Gives (spec.pointed (context self.now) place state.old) result state.new }
    {
        self.share_address(state, place.sync)?;
        Ok(Some(place.pointer()))
    }

    fn first_unless(
        &self,
        state: &mut State,
        rule: Option<StaticRule>,
        place: Place,
    ) -> Result<Option<Operand>, AllocError>
        ensures { Gives (spec.first_unless rule (context self.now) place state.old) result state.new }
    {
        match rule {
            Some(rule) => self.no_operand(state, rule),
            None => self.pointed(state, place),
        }
    }

    /// The pointer to the first element of an array.
    fn first(&self, state: &mut State, place: Place) -> Result<Option<Operand>, AllocError>
        ensures { Gives (spec.first (context self.now) place state.old) result state.new }
    {
        self.first_unless(state, array_rule(place.ty, place.root), place)
    }

    fn not_void(&self, state: &mut State, value: Operand) -> Result<Option<Operand>, AllocError>
        ensures { Gives (spec.not_void (context self.now) value state.old) result state.new }
    {
        match value.ty {
            Ty::Void => self.no_operand(state, StaticRule::BadType),
            _ => Ok(Some(value)),
        }
    }

    /// An expression as a value, and none where a rule is broken.
    pub fn decay(
        &self,
        alloc: Global,
        state: &mut State,
        typed: Typed,
    ) -> Result<Option<Operand>, AllocError>
        ensures { Gives (spec.decay (context self.now) typed state.old) result state.new }
    {
        match typed {
            Typed::Broken => Ok(None),
            Typed::Spoiled => Ok(None),
            Typed::Value(value) => self.not_void(state, value),
            Typed::This(class, remote) => Ok(Some(own(class, remote))),
            Typed::Constant(term, _) => Ok(Some(Operand::int(term))),
            Typed::Place(place) => self.read(alloc, state, place),
            Typed::Array(place, _) => self.first(state, place),
            Typed::Object(_) => self.no_operand(state, StaticRule::BadType),
        }
    }
}
