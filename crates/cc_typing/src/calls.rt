ghost use Rattle.std.specs.Prelude.{◌≡◌};
ghost use Rattle.cc_typing.specs.Calls as spec;
ghost use Rattle.cc_scopes.specs.Elab.{Gives};
ghost use Rattle.cc_scopes.specs.Scope.{context};

use cc_core::{Expression, How};
use cc_names::{FunId, StaticRule};
use cc_scopes::{Meaning, Object, Operand, Scope, Signature, State, Ty, Typed};
use ccpp_edge::List;
use std::alloc::{AllocError, Global};

/// Arguments that break no rule.
#[derive(Drop)]
pub struct Args {
    /// Their types.
    pub types: List<Ty>,
    /// What gives them.
    pub terms: List<Expression>,
}

/// What a function is called on.
#[derive(Drop)]
pub enum Callee {
    /// Nothing.
    Alone,
    /// An object on this processor.
    On(Expression),
    /// An object behind a global pointer.
    Remote(Expression),
}

impl Args {
    pub(crate) fn none(alloc: Global) -> Args
        ensures { result ≡ spec.no_args }
    {
        Args {
            types: List::new(alloc),
            terms: List::new(alloc),
        }
    }

    fn pushed(self, value: Operand) -> Result<Args, AllocError>
        ensures { spec.IsPushed self value result }
    {
        let Args {
            mut types,
            mut terms,
        } = self;
        types.push(value.ty)?;
        terms.push(value.term)?;
        Ok(Args { types, terms })
    }
}

fn object_passed(object: Object) -> Operand
    ensures { result ≡ spec.object_passed object }
{
    Operand {
        ty: Ty::Unknown,
        term: object.address,
    }
}

/// An expression as an argument. An object is looked at with the call.
pub(crate) fn passed(
    alloc: Global,
    scope: &Scope<'_>,
    state: &mut State,
    typed: Typed,
) -> Result<Option<Operand>, AllocError>
    ensures { Gives (spec.passed (context scope.now) typed state.old) result state.new }
{
    match typed {
        Typed::Object(object) => Ok(Some(object_passed(object))),
        typed => scope.decay(alloc, state, typed),
    }
}

/// The arguments with one more, and none where a rule is broken in one.
pub(crate) fn with_arg(
    args: Option<Args>,
    value: Option<Operand>,
) -> Result<Option<Args>, AllocError>
    ensures { spec.IsWithArg args value result }
{
    match args {
        None => Ok(None),
        Some(args) => match value {
            None => Ok(None),
            Some(value) => Ok(Some(args.pushed(value)?)),
        },
    }
}

fn all_fit(mut params: &[Ty], mut types: &[Ty]) -> bool
    ensures { result ≡ spec.all_fit params.entry.now types.entry.now }
{
    while let [param, rest @ ..] = params {
        let [ty, more @ ..] = types else {
            return true;
        };
        if !param.accepts(*ty) {
            return false;
        }
        params = rest;
        types = more;
    }
    true
}

fn any_local(params: &[Ty]) -> bool
    ensures { result ≡ spec.any_local params.now }
{
    for param in params {
        if param.is_local_pointer() {
            return true;
        }
    }
    false
}

/// The rule that arguments break which are too many, too few or of a wrong type.
#[tactic(auto, unfolding(crate::specs::Calls::args_rule))]
pub fn args_rule(params: &[Ty], types: &[Ty]) -> Option<StaticRule>
    ensures { result ≡ spec.args_rule params.now types.now }
{
    if types.len() != params.len() {
        return Some(StaticRule::ArgCount);
    }
    if !all_fit(params, types) {
        return Some(StaticRule::BadType);
    }
    None
}

/// The rule that a call of a function breaks whatever its arguments are.
#[tactic(auto, unfolding(crate::specs::Calls::callee_rule))]
fn callee_rule(signature: &Signature, remote: bool) -> Option<StaticRule>
    ensures { result ≡ spec.callee_rule signature.now remote }
{
    if remote && (any_local(signature.params.as_slice()) || signature.result.is_local_pointer()) {
        return Some(StaticRule::RemoteLocal);
    }
    if signature.is_main {
        return Some(StaticRule::MainCalled);
    }
    None
}

fn call_rule(signature: &Signature, remote: bool, types: &[Ty]) -> Option<StaticRule>
    ensures { result ≡ spec.call_rule signature.now remote types.now }
{
    match args_rule(signature.params.as_slice(), types) {
        Some(rule) => Some(rule),
        None => callee_rule(signature, remote),
    }
}

impl Callee {
    fn is_remote(&self) -> bool
        ensures { result ≡ spec.is_remote self.now }
    {
        match self {
            Callee::Remote(_) => true,
            _ => false,
        }
    }

    fn term(
        self,
        alloc: Global,
        function: FunId,
        terms: List<Expression>,
    ) -> Result<Expression, AllocError>
        ensures { spec.IsCallTerm function self terms result }
    {
        match self {
            Callee::Alone => Ok(Expression::Call(How::Alone, function.0, terms)),
            Callee::On(object) => Ok(Expression::Call(
                How::On,
                function.0,
                with_object(alloc, object, terms)?,
            )),
            Callee::Remote(object) => Ok(Expression::Call(
                How::Remote,
                function.0,
                with_object(alloc, object, terms)?,
            )),
        }
    }
}

fn with_object(
    alloc: Global,
    object: Expression,
    terms: List<Expression>,
) -> Result<List<Expression>, AllocError>
    ensures { spec.IsWithObject object terms result }
{
    let mut all = List::new(alloc);
    all.push(object)?;
    all.append(terms)?;
    Ok(all)
}

fn given(ty: Ty, term: Expression) -> Typed
    ensures { result ≡ spec.given ty term }
{
    match ty {
        Ty::Unknown => Typed::Broken,
        _ => Typed::Value(Operand { ty, term }),
    }
}

fn enter(
    scope: &Scope<'_>,
    state: &mut State,
    function: FunId,
    remote: bool,
) -> Result<(), AllocError>
    ensures { Gives (spec.enter (context scope.now) function remote state.old) result state.new }
{
    if remote {
        return state.block(scope.line);
    }
    state.call(function, scope.line)
}

#[tactic(auto, unfolding(crate::specs::Calls::entered))]
fn entered(
    alloc: Global,
    scope: &Scope<'_>,
    state: &mut State,
    function: FunId,
    gives: Ty,
    callee: Callee,
    terms: List<Expression>,
) -> Result<Typed, AllocError>
    ensures { Gives (spec.entered (context scope.now) function gives callee terms state.old) result state.new }
{
    enter(scope, state, function, callee.is_remote())?;
    Ok(given(gives, callee.term(alloc, function, terms)?))
}

/// A call of a function.
pub(crate) fn called(
    alloc: Global,
    scope: &Scope<'_>,
    state: &mut State,
    function: FunId,
    callee: Callee,
    args: Args,
) -> Result<Typed, AllocError>
    ensures { Gives (spec.called (context scope.now) function callee args state.old) result state.new }
{
    match scope.tables.functions.get(function.0 as usize) {
        None => scope.broken(state, StaticRule::UnknownName),
        Some(signature) => {
            match call_rule(signature, callee.is_remote(), args.types.as_slice()) {
                Some(rule) => scope.broken(state, rule),
                None => entered(
                    alloc,
                    scope,
                    state,
                    function,
                    signature.result,
                    callee,
                    args.terms,
                ),
            }
        }
    }
}

fn called_name(
    alloc: Global,
    scope: &Scope<'_>,
    state: &mut State,
    meaning: Meaning,
    args: Args,
) -> Result<Typed, AllocError>
    ensures { Gives (spec.called_name (context scope.now) meaning args state.old) result state.new }
{
    match meaning {
        Meaning::Variable(_) => scope.broken(state, StaticRule::NotFunction),
        Meaning::Field(_, _) => scope.broken(state, StaticRule::NotFunction),
        Meaning::Method(f) => called(alloc, scope, state, f, Callee::On(Expression::This), args),
        Meaning::Constant(_, _) => scope.broken(state, StaticRule::NotFunction),
        Meaning::Function(f) => called(alloc, scope, state, f, Callee::Alone, args),
        Meaning::Nothing => scope.broken(state, StaticRule::UnknownName),
    }
}

/// A call by a name.
pub(crate) fn call_named(
    alloc: Global,
    scope: &Scope<'_>,
    state: &mut State,
    meaning: Meaning,
    args: Option<Args>,
) -> Result<Typed, AllocError>
    ensures { Gives (spec.call_named (context scope.now) meaning args state.old) result state.new }
{
    match args {
        None => Ok(Typed::Spoiled),
        Some(args) => called_name(alloc, scope, state, meaning, args),
    }
}
