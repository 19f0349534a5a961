ghost use Rattle.cc_scopes.specs.Elab.{Gives};
ghost use Rattle.cc_typing.specs.Expr.{expr_to};
ghost use Rattle.cc_typing.specs.Nests.{Nests};
ghost use Rattle.cc_typing.specs.Parts as spec;
ghost use Rattle.cc_scopes.specs.Scope.{context};

use crate::elaborator::Elaborator;
use crate::objects::{call_member, field_of, indexed_array, indexed_value, object_of};
use cc_scopes::{Place, Scope, State, Typed};
use cc_tree::{Expr, Suffix};
use ccpp_edge::Text;
use std::alloc::{AllocError, Global};

impl<F: Fn(Global, usize, &Scope<'_>, &mut State, &Expr) -> Result<Typed, AllocError>> Elaborator<
    F,
> {
    #[tactic(auto, unfolding(crate::specs::Parts::index_array))]
    fn index_array(
        &self,
        scope: &Scope<'_>,
        state: &mut State,
        array: (Place, u32),
        index: &Expr,
    ) -> Result<Typed, AllocError>
        requires { Nests self.now.depth (F.pre self.now.expr) (F.post self.now.expr) }
        ensures { Gives (spec.index_array (expr_to self.now.depth) (context scope.now) array.0 array.1 index.now state.old) result state.new }
    {
        let index = self.operand(scope, state, index)?;
        indexed_array(self.alloc, scope, state, array.0, array.1, index)
    }

    #[tactic(auto, unfolding(crate::specs::Parts::index_value))]
    fn index_value(
        &self,
        scope: &Scope<'_>,
        state: &mut State,
        typed: Typed,
        index: &Expr,
    ) -> Result<Typed, AllocError>
        requires { Nests self.now.depth (F.pre self.now.expr) (F.post self.now.expr) }
        ensures { Gives (spec.index_value (expr_to self.now.depth) (context scope.now) typed index.now state.old) result state.new }
    {
        let base = scope.decay(self.alloc, state, typed)?;
        let index = self.operand(scope, state, index)?;
        indexed_value(self.alloc, scope, state, base, index)
    }

    fn index(
        &self,
        scope: &Scope<'_>,
        state: &mut State,
        typed: Typed,
        index: &Expr,
    ) -> Result<Typed, AllocError>
        requires { Nests self.now.depth (F.pre self.now.expr) (F.post self.now.expr) }
        ensures { Gives (spec.index (expr_to self.now.depth) (context scope.now) typed index.now state.old) result state.new }
    {
        match typed {
            Typed::Array(place, length) => {
                self.index_array(scope, state, (place, length), index)
            }
            typed => self.index_value(scope, state, typed, index),
        }
    }

    #[tactic(auto, unfolding(crate::specs::Parts::field))]
    fn field(
        &self,
        scope: &Scope<'_>,
        state: &mut State,
        typed: Typed,
        arrow: bool,
        name: &Text,
    ) -> Result<Typed, AllocError>
        requires { Nests self.now.depth (F.pre self.now.expr) (F.post self.now.expr) }
        ensures { Gives (spec.field (expr_to self.now.depth) (context scope.now) typed arrow name.now state.old) result state.new }
    {
        let object = object_of(self.alloc, scope, state, arrow, typed)?;
        field_of(self.alloc, scope, state, name, object)
    }

    #[tactic(auto, unfolding(crate::specs::Parts::call_on))]
    fn call_on(
        &self,
        scope: &Scope<'_>,
        state: &mut State,
        typed: Typed,
        arrow: bool,
        name: &Text,
        all: &[Expr],
    ) -> Result<Typed, AllocError>
        requires { Nests self.now.depth (F.pre self.now.expr) (F.post self.now.expr) }
        ensures { Gives (spec.call_on (expr_to self.now.depth) (context scope.now) typed arrow name.now all.now state.old) result state.new }
    {
        let object = object_of(self.alloc, scope, state, arrow, typed)?;
        let args = self.args(scope, state, all)?;
        call_member(self.alloc, scope, state, name, object, args)
    }

    #[tactic(auto, unfolding(crate::specs::Parts::suffix))]
    fn suffix(
        &self,
        scope: &Scope<'_>,
        state: &mut State,
        typed: Typed,
        suffix: &Suffix,
    ) -> Result<Typed, AllocError>
        requires { Nests self.now.depth (F.pre self.now.expr) (F.post self.now.expr) }
        ensures { Gives (spec.suffix (expr_to self.now.depth) (context scope.now) typed suffix.now state.old) result state.new }
    {
        match suffix {
            Suffix::Index(index) => self.index(scope, state, typed, index),
            Suffix::Field { arrow, name } => self.field(scope, state, typed, *arrow, name),
            Suffix::CallOn { arrow, name, args } => {
                self.call_on(scope, state, typed, *arrow, name, args.as_slice())
            }
        }
    }

    fn suffixes(
        &self,
        scope: &Scope<'_>,
        state: &mut State,
        first: Typed,
        mut all: &[Suffix],
    ) -> Result<Typed, AllocError>
        requires { Nests self.now.depth (F.pre self.now.expr) (F.post self.now.expr) }
        ensures { Gives (spec.suffixes_from (expr_to self.now.depth) (context scope.now) first all.entry.now state.old) result state.new }
    {
        let mut done = first;
        while let [suffix, rest @ ..] = all {
            done = self.suffix(scope, state, done, suffix)?;
            all = rest;
        }
        Ok(done)
    }

    /// A base and what follows it.
    #[tactic(auto, unfolding(crate::specs::Parts::post))]
    pub(crate) fn post(
        &self,
        scope: &Scope<'_>,
        state: &mut State,
        base: &Expr,
        all: &[Suffix],
    ) -> Result<Typed, AllocError>
        requires { Nests self.now.depth (F.pre self.now.expr) (F.post self.now.expr) }
        ensures { Gives (spec.post (expr_to self.now.depth) (context scope.now) base.now all.now state.old) result state.new }
    {
        let typed = self.expr(scope, state, base)?;
        self.suffixes(scope, state, typed, all)
    }
}
