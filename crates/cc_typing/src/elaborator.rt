ghost use Rattle.cc_scopes.specs.Elab.{Gives};
ghost use Rattle.cc_typing.specs.Expr.{expr_to};
ghost use Rattle.cc_typing.specs.Nests.{Nests};
ghost use Rattle.cc_typing.specs.Parts as spec;
ghost use Rattle.cc_scopes.specs.Scope.{context};

use crate::calls::{Args, passed, with_arg};
use cc_names::StaticRule;
use cc_scopes::{Operand, Scope, State, Typed};
use cc_tree::Expr;
use std::alloc::{AllocError, Global};

/// Reads expressions whose parts `expr` reads to a depth. So each function here is proved by itself, and only `expr_to` recurs.
#[derive(Clone, Copy)]
pub(crate) struct Elaborator<F> {
    pub(crate) alloc: Global,
    pub(crate) depth: usize,
    pub(crate) expr: F,
}

impl<F: Fn(Global, usize, &Scope<'_>, &mut State, &Expr) -> Result<Typed, AllocError>> Elaborator<
    F,
> {
    pub(crate) fn expr(
        &self,
        scope: &Scope<'_>,
        state: &mut State,
        e: &Expr,
    ) -> Result<Typed, AllocError>
        requires { Nests self.now.depth (F.pre self.now.expr) (F.post self.now.expr) }
        ensures { Gives (expr_to self.now.depth (context scope.now) e.now state.old) result state.new }
    {
        (self.expr)(self.alloc, self.depth, scope, state, e)
    }

    /// An expression as a value.
    #[tactic(auto, unfolding(crate::specs::Parts::operand))]
    pub(crate) fn operand(
        &self,
        scope: &Scope<'_>,
        state: &mut State,
        e: &Expr,
    ) -> Result<Option<Operand>, AllocError>
        requires { Nests self.now.depth (F.pre self.now.expr) (F.post self.now.expr) }
        ensures { Gives (spec.operand (expr_to self.now.depth) (context scope.now) e.now state.old) result state.new }
    {
        let typed = self.expr(scope, state, e)?;
        scope.decay(self.alloc, state, typed)
    }

    /// An argument.
    #[tactic(auto, unfolding(crate::specs::Parts::argument))]
    fn argument(
        &self,
        scope: &Scope<'_>,
        state: &mut State,
        e: &Expr,
    ) -> Result<Option<Operand>, AllocError>
        requires { Nests self.now.depth (F.pre self.now.expr) (F.post self.now.expr) }
        ensures { Gives (spec.argument (expr_to self.now.depth) (context scope.now) e.now state.old) result state.new }
    {
        let typed = self.expr(scope, state, e)?;
        passed(self.alloc, scope, state, typed)
    }

    /// Arguments.
    #[tactic(auto, unfolding(crate::specs::Parts::args))]
    pub(crate) fn args(
        &self,
        scope: &Scope<'_>,
        state: &mut State,
        mut all: &[Expr],
    ) -> Result<Option<Args>, AllocError>
        requires { Nests self.now.depth (F.pre self.now.expr) (F.post self.now.expr) }
        ensures { Gives (spec.args (expr_to self.now.depth) (context scope.now) all.entry.now state.old) result state.new }
    {
        let mut done = Some(Args::none(self.alloc));
        while let [e, rest @ ..] = all {
            let value = self.argument(scope, state, e)?;
            done = with_arg(done, value)?;
            all = rest;
        }
        Ok(done)
    }
}

pub(crate) fn expr_to(
    alloc: Global,
    depth: usize,
    scope: &Scope<'_>,
    state: &mut State,
    e: &Expr,
) -> Result<Typed, AllocError>
    ensures { Gives (expr_to depth (context scope.now) e.now state.old) result state.new }
{
    if depth == 0 {
        return scope.broken(state, StaticRule::BadType);
    }
    Elaborator {
        alloc,
        depth: depth - 1,
        expr: expr_to,
    }
    .node(scope, state, e)
}
