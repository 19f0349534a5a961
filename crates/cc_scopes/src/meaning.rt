ghost use Rattle.std.specs.Prelude.{◌≡◌, IfOk};
ghost use Rattle.std.specs.Option.{option_copied};
ghost use Rattle.cc_scopes.specs.Elab.{Gives};
ghost use Rattle.cc_scopes.specs.Meaning as spec;
ghost use Rattle.cc_scopes.specs.Scope.{context};

use crate::scope::{Found, Scope};
use crate::state::State;
use crate::tables::{Class, Member};
use crate::typed::{Operand, Root, Typed, pushed};
use crate::types::Declared;
use cc_core::Expression;
use cc_names::{ClassId, Entity, FunId, MemberId, StaticRule};
use ccpp_edge::{Boxed, Text};
use std::alloc::{AllocError, Global};

/// What a name stands for.
#[derive(Clone, Copy)]
pub enum Meaning {
    /// A variable.
    Variable(Found),
    /// A field, and how many cells of the object lie before it.
    Field(Declared, u32),
    /// A function of the class.
    Method(FunId),
    /// A constant: whether it is declared before, and its value, and none where it breaks a rule.
    Constant(bool, Option<i64>),
    /// A function of the file.
    Function(FunId),
    /// Nothing that an expression may name.
    Nothing,
}

impl Member {
    fn meaning(self) -> Meaning
        ensures { result ≡ spec.of_member self }
    {
        match self {
            Member::Field { declared, offset } => Meaning::Field(declared, offset),
            Member::Method(function) => Meaning::Method(function),
        }
    }
}

impl Meaning {
    /// The meaning of a name behind a dot or an arrow, from the member that it names.
    pub fn in_class(member: Option<Member>) -> Meaning
        ensures { result ≡ spec.meant_in member }
    {
        match member {
            None => Meaning::Nothing,
            Some(member) => member.meaning(),
        }
    }
}

fn of_constant(is_earlier: bool, value: Option<i64>) -> Typed
    ensures { result ≡ spec.of_constant is_earlier value }
{
    match (is_earlier, value) {
        (true, None) => Typed::Spoiled,
        (true, Some(n)) => Typed::literal(n),
        (false, None) => Typed::Value(Operand::int(pushed(0))),
        (false, Some(n)) => Typed::Value(Operand::int(pushed(n))),
    }
}

fn of_variable(found: Found) -> Typed
    ensures { result ≡ spec.of_variable found }
{
    Typed::placed(
        Expression::Variable(found.number),
        found.declared,
        false,
        Root::Variable(found.part),
    )
}

fn own_field(alloc: Global, declared: Declared, offset: u32) -> Result<Typed, AllocError>
    ensures { IfOk result (λ t. t ≡ spec.own_field declared offset) }
{
    Ok(Typed::placed(
        Expression::Member(Boxed::new(alloc, Expression::This)?, offset),
        declared,
        false,
        Root::Member,
    ))
}

impl Scope<'_> {
    /// A class of the tables.
    pub fn class_at(&self, class: ClassId) -> Option<&Class>
        ensures { option_copied result ≡ spec.class_at (context self.now) class }
    {
        self.tables.classes.get(class.0 as usize)
    }

    fn member_at(&self, class: ClassId, id: MemberId) -> Option<Member>
        ensures { result ≡ spec.member_in (spec.class_at (context self.now) class) id }
    {
        match self.class_at(class) {
            None => None,
            Some(class) => class.members.get(id.0 as usize).copied(),
        }
    }

    /// The member of a class of a name.
    pub fn member_of(&self, class: ClassId, name: &Text) -> Option<Member>
        ensures { result ≡ spec.member_of (context self.now) class name.now }
    {
        match self.names.member(class, name) {
            None => None,
            Some(id) => self.member_at(class, id),
        }
    }

    fn constant_value(&self, constant: u32) -> Option<i64>
        ensures { result ≡ spec.constant_value (context self.now) constant }
    {
        match self.tables.constants.get(constant as usize) {
            None => None,
            Some(value) => *value,
        }
    }

    fn of_file(&self, name: &Text) -> Meaning
        ensures { result ≡ spec.of_file (context self.now) name.now }
    {
        match self.names.entity(name) {
            None => Meaning::Nothing,
            Some(Entity::Constant(k)) => Meaning::Constant(k < self.known, self.constant_value(k)),
            Some(Entity::Class(_)) => Meaning::Nothing,
            Some(Entity::Function(function)) => Meaning::Function(function),
        }
    }

    fn within(&self, class: ClassId, name: &Text) -> Meaning
        ensures { result ≡ spec.outside_by (Some class) (context self.now) name.now }
    {
        match self.member_of(class, name) {
            None => self.of_file(name),
            Some(member) => member.meaning(),
        }
    }

    fn outside(&self, name: &Text) -> Meaning
        ensures { result ≡ spec.outside_by self.now.class (context self.now) name.now }
    {
        match self.class {
            None => self.of_file(name),
            Some(class) => self.within(class, name),
        }
    }

    /// The meaning of a name: a variable, else a member of the own class, a constant or a function.
    pub fn meant(&self, state: &State, name: &Text) -> Meaning
        ensures { result ≡ spec.meant (context self.now) name.now state.now }
    {
        match state.locals.latest(name) {
            None => self.outside(name),
            Some(found) => Meaning::Variable(found),
        }
    }

    fn of_meaning(
        &self,
        alloc: Global,
        state: &mut State,
        meaning: Meaning,
    ) -> Result<Typed, AllocError>
        ensures { Gives (spec.of_meaning (context self.now) meaning state.old) result state.new }
    {
        match meaning {
            Meaning::Variable(found) => Ok(of_variable(found)),
            Meaning::Field(declared, offset) => own_field(alloc, declared, offset),
            Meaning::Method(_) => self.broken(state, StaticRule::NotFunction),
            Meaning::Constant(is_earlier, value) => Ok(of_constant(is_earlier, value)),
            Meaning::Function(_) => self.broken(state, StaticRule::NotFunction),
            Meaning::Nothing => self.broken(state, StaticRule::UnknownName),
        }
    }

    /// A name alone.
    pub fn name(&self, alloc: Global, state: &mut State, name: &Text) -> Result<Typed, AllocError>
        ensures { Gives (spec.name (context self.now) name.now state.old) result state.new }
    {
        let meaning = self.meant(state, name);
        self.of_meaning(alloc, state, meaning)
    }

    fn this_of(&self, state: &mut State, class: ClassId) -> Result<Typed, AllocError>
        ensures { Gives (spec.this_by (Some class) (context self.now) state.old) result state.new }
    {
        match self.class_at(class) {
            None => self.broken(state, StaticRule::ThisOutside),
            Some(found) => Ok(Typed::This(class, found.remote)),
        }
    }

    /// `this`.
    pub fn this(&self, state: &mut State) -> Result<Typed, AllocError>
        ensures { Gives (spec.this (context self.now) state.old) result state.new }
    {
        match self.class {
            None => self.broken(state, StaticRule::ThisOutside),
            Some(class) => self.this_of(state, class),
        }
    }
}
