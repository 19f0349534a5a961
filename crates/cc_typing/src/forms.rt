ghost use Rattle.std.specs.Prelude.{◌≡◌};
ghost use Rattle.cc_scopes.specs.Elab.{Gives};
ghost use Rattle.cc_typing.specs.Expr as whole;
ghost use Rattle.cc_typing.specs.Expr.{expr_to};
ghost use Rattle.cc_typing.specs.Nests.{Nests};
ghost use Rattle.cc_typing.specs.Parts as spec;
ghost use Rattle.cc_scopes.specs.Scope.{context};

use crate::calls::call_named;
use crate::elaborator::Elaborator;
use crate::new::{new_array, new_cells, new_object};
use cc_core::{Constant, Expression};
use cc_operators::{joined, unary};
use cc_scopes::{Operand, Scope, State, Ty, Typed};
use cc_tree::{Expr, ExprKind, Link, UnaryOp};
use ccpp_edge::{Boxed, Text};
use std::alloc::{AllocError, Global};

fn null() -> Operand
    ensures { result ≡ whole.null }
{
    Operand {
        ty: Ty::Null,
        term: Expression::Push(Constant::Null),
    }
}

impl<F: Fn(Global, usize, &Scope<'_>, &mut State, &Expr) -> Result<Typed, AllocError>> Elaborator<
    F,
> {
    #[tactic(auto, unfolding(crate::specs::Parts::call))]
    fn call(
        &self,
        scope: &Scope<'_>,
        state: &mut State,
        name: &Text,
        all: &[Expr],
    ) -> Result<Typed, AllocError>
        requires { Nests self.now.depth (F.pre self.now.expr) (F.post self.now.expr) }
        ensures { Gives (spec.call (expr_to self.now.depth) (context scope.now) name.now all.now state.old) result state.new }
    {
        let args = self.args(scope, state, all)?;
        let meaning = scope.meant(state, name);
        call_named(self.alloc, scope, state, meaning, args)
    }

    fn links(
        &self,
        scope: &Scope<'_>,
        state: &mut State,
        first: Typed,
        mut all: &[Link],
    ) -> Result<Typed, AllocError>
        requires { Nests self.now.depth (F.pre self.now.expr) (F.post self.now.expr) }
        ensures { Gives (spec.links_from (expr_to self.now.depth) (context scope.now) first all.entry.now state.old) result state.new }
    {
        let mut done = first;
        while let [link, rest @ ..] = all {
            let part = self.expr(scope, state, &link.part)?;
            done = joined(self.alloc, scope, state, link.op, done, part)?;
            all = rest;
        }
        Ok(done)
    }

    #[tactic(auto, unfolding(crate::specs::Parts::chain))]
    fn chain(
        &self,
        scope: &Scope<'_>,
        state: &mut State,
        first: &Expr,
        all: &[Link],
    ) -> Result<Typed, AllocError>
        requires { Nests self.now.depth (F.pre self.now.expr) (F.post self.now.expr) }
        ensures { Gives (spec.chain (expr_to self.now.depth) (context scope.now) first.now all.now state.old) result state.new }
    {
        let typed = self.expr(scope, state, first)?;
        self.links(scope, state, typed, all)
    }

    #[tactic(auto, unfolding(crate::specs::Parts::prefixed))]
    fn prefixed(
        &self,
        scope: &Scope<'_>,
        state: &mut State,
        op: UnaryOp,
        part: &Expr,
    ) -> Result<Typed, AllocError>
        requires { Nests self.now.depth (F.pre self.now.expr) (F.post self.now.expr) }
        ensures { Gives (spec.prefixed (expr_to self.now.depth) (context scope.now) op part.now state.old) result state.new }
    {
        let typed = self.expr(scope, state, part)?;
        unary(self.alloc, scope, state, op, typed)
    }

    #[tactic(auto, unfolding(crate::specs::Parts::new_length))]
    fn new_length(
        &self,
        scope: &Scope<'_>,
        state: &mut State,
        sync: bool,
        length: &Expr,
    ) -> Result<Typed, AllocError>
        requires { Nests self.now.depth (F.pre self.now.expr) (F.post self.now.expr) }
        ensures { Gives (spec.new_length (expr_to self.now.depth) (context scope.now) sync length.now state.old) result state.new }
    {
        let typed = self.expr(scope, state, length)?;
        let length = scope.length_of(state, typed)?;
        Ok(new_array(sync, length))
    }

    fn new_int(
        &self,
        scope: &Scope<'_>,
        state: &mut State,
        sync: bool,
        length: &Option<Boxed<Expr>>,
    ) -> Result<Typed, AllocError>
        requires { Nests self.now.depth (F.pre self.now.expr) (F.post self.now.expr) }
        ensures { Gives (spec.new_int (expr_to self.now.depth) (context scope.now) sync length.now state.old) result state.new }
    {
        match length {
            None => Ok(new_cells(sync, 1)),
            Some(length) => self.new_length(scope, state, sync, length.get()),
        }
    }

    #[tactic(auto, unfolding(crate::specs::Parts::new_class))]
    fn new_class(
        &self,
        scope: &Scope<'_>,
        state: &mut State,
        name: &Text,
        all: &[Expr],
    ) -> Result<Typed, AllocError>
        requires { Nests self.now.depth (F.pre self.now.expr) (F.post self.now.expr) }
        ensures { Gives (spec.new_class (expr_to self.now.depth) (context scope.now) name.now all.now state.old) result state.new }
    {
        let args = self.args(scope, state, all)?;
        new_object(scope, state, scope.names.class(name), args)
    }

    /// One level of an expression.
    #[tactic(auto, unfolding(crate::specs::Expr::node))]
    pub(crate) fn node(
        &self,
        scope: &Scope<'_>,
        state: &mut State,
        e: &Expr,
    ) -> Result<Typed, AllocError>
        requires { Nests self.now.depth (F.pre self.now.expr) (F.post self.now.expr) }
        ensures { Gives (whole.node (expr_to self.now.depth) (context scope.now) e.now state.old) result state.new }
    {
        match &e.kind {
            ExprKind::Int(n) => Ok(Typed::literal(*n)),
            ExprKind::Null => Ok(Typed::Value(null())),
            ExprKind::This => scope.this(state),
            ExprKind::Name(name) => scope.name(self.alloc, state, name),
            ExprKind::Call { name, args } => self.call(scope, state, name, args.as_slice()),
            ExprKind::Paren(e) => self.expr(scope, state, e.get()),
            ExprKind::Post { base, tail } => {
                self.post(scope, state, base.get(), tail.as_slice())
            }
            ExprKind::Unary { op, part } => self.prefixed(scope, state, *op, part.get()),
            ExprKind::Chain { first, rest } => {
                self.chain(scope, state, first.get(), rest.as_slice())
            }
            ExprKind::NewInt { sync, length } => self.new_int(scope, state, *sync, length),
            ExprKind::NewClass { name, args } => {
                self.new_class(scope, state, name, args.as_slice())
            }
        }
    }
}
