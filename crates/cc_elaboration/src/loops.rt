ghost use Rattle.std.specs.Prelude.{◌≡◌, ◌∷◌, ◌++◌, [], IfOk};
ghost use Rattle.cc_scopes.specs.Elab.{Gives};
ghost use Rattle.cc_scopes.specs.Scope.{context};
ghost use Rattle.cc_elaboration.specs.Nests.{Nests};
ghost use Rattle.cc_elaboration.specs.Statements as spec;
ghost use Rattle.cc_elaboration.specs.Statements.{statement_to};

use crate::simple::int_value;
use crate::statements::Statements;
use cc_core::{Constant, Expression, Statement};
use cc_scopes::{Scope, State};
use cc_tree::{Expr, Stmt};
use ccpp_edge::{Boxed, List};
use std::alloc::{AllocError, Global};

/// The condition of a `for`. One that is left out is the literal 1.
fn condition(
    alloc: Global,
    scope: &Scope<'_>,
    state: &mut State,
    test: &Option<Expr>,
) -> Result<Expression, AllocError>
    ensures { Gives (spec.condition (context scope.now) test.now state.old) result state.new }
{
    match test {
        None => Ok(Expression::Push(Constant::Int(1))),
        Some(test) => int_value(alloc, scope, state, test),
    }
}

fn followed(mut first: List<Statement>, last: Statement) -> Result<Statement, AllocError>
    ensures { IfOk result (λ s. s ≡ Statement.Block (first ++ last ∷ [])) }
{
    first.push(last)?;
    Ok(Statement::Block(first))
}

/// Where the statement of a loop stands.
fn repeating<'a>(scope: &Scope<'a>) -> Scope<'a>
    ensures { context result ≡ spec.repeating (context scope.now) }
{
    Scope {
        in_loop: true,
        ..*scope
    }
}

/// Where a loop stands between two turns.
fn between<'a>(scope: &Scope<'a>) -> Scope<'a>
    ensures { context result ≡ spec.between (context scope.now) }
{
    Scope {
        in_loop: false,
        ..*scope
    }
}

impl<
    F: Fn(Global, usize, &Scope<'_>, &mut State, &Stmt) -> Result<Statement, AllocError>,
> Statements<F> {
    #[tactic(auto, unfolding(crate::specs::Statements::if_only))]
    fn if_only(
        &self,
        scope: &Scope<'_>,
        state: &mut State,
        test: &Expr,
        yes: &Stmt,
    ) -> Result<Statement, AllocError>
        requires { Nests self.now.depth (F.pre self.now.stmt) (F.post self.now.stmt) }
        ensures { Gives (spec.if_only (statement_to self.now.depth) (context scope.now) test.now yes.now state.old) result state.new }
    {
        let test = int_value(self.alloc, scope, state, test)?;
        let yes = self.boxed(scope, state, yes)?;
        Ok(Statement::If(test, yes))
    }

    #[tactic(auto, unfolding(crate::specs::Statements::both))]
    fn both(
        &self,
        scope: &Scope<'_>,
        state: &mut State,
        yes: &Stmt,
        no: &Stmt,
    ) -> Result<(Boxed<Statement>, Boxed<Statement>), AllocError>
        requires { Nests self.now.depth (F.pre self.now.stmt) (F.post self.now.stmt) }
        ensures { Gives (spec.both (statement_to self.now.depth) (context scope.now) yes.now no.now state.old) result state.new }
    {
        let yes = self.boxed(scope, state, yes)?;
        let no = self.boxed(scope, state, no)?;
        Ok((yes, no))
    }

    #[tactic(auto, unfolding(crate::specs::Statements::if_else))]
    fn if_else(
        &self,
        scope: &Scope<'_>,
        state: &mut State,
        test: &Expr,
        yes: &Stmt,
        no: &Stmt,
    ) -> Result<Statement, AllocError>
        requires { Nests self.now.depth (F.pre self.now.stmt) (F.post self.now.stmt) }
        ensures { Gives (spec.if_else (statement_to self.now.depth) (context scope.now) test.now yes.now no.now state.old) result state.new }
    {
        let test = int_value(self.alloc, scope, state, test)?;
        let both = self.both(scope, state, yes, no)?;
        Ok(Statement::IfElse(test, both.0, both.1))
    }

    /// An `if`.
    pub(crate) fn choice(
        &self,
        scope: &Scope<'_>,
        state: &mut State,
        test: &Expr,
        yes: &Stmt,
        no: &Option<Boxed<Stmt>>,
    ) -> Result<Statement, AllocError>
        requires { Nests self.now.depth (F.pre self.now.stmt) (F.post self.now.stmt) }
        ensures { Gives (spec.choice (statement_to self.now.depth) (context scope.now) test.now yes.now no.now state.old) result state.new }
    {
        match no {
            None => self.if_only(scope, state, test, yes),
            Some(no) => self.if_else(scope, state, test, yes, no.get()),
        }
    }

    /// A `while`.
    #[tactic(auto, unfolding(crate::specs::Statements::repeated))]
    pub(crate) fn repeated(
        &self,
        scope: &Scope<'_>,
        state: &mut State,
        test: &Expr,
        body: &Stmt,
    ) -> Result<Statement, AllocError>
        requires { Nests self.now.depth (F.pre self.now.stmt) (F.post self.now.stmt) }
        ensures { Gives (spec.repeated (statement_to self.now.depth) (context scope.now) test.now body.now state.old) result state.new }
    {
        let test = int_value(self.alloc, scope, state, test)?;
        let inside = repeating(scope);
        let body = self.boxed(&inside, state, body)?;
        Ok(Statement::While(test, body))
    }

    fn step(
        &self,
        scope: &Scope<'_>,
        state: &mut State,
        step: &Option<Boxed<Stmt>>,
    ) -> Result<Boxed<Statement>, AllocError>
        requires { Nests self.now.depth (F.pre self.now.stmt) (F.post self.now.stmt) }
        ensures { Gives (spec.step (statement_to self.now.depth) (context scope.now) step.now state.old) result state.new }
    {
        match step {
            None => Boxed::new(self.alloc, Statement::Empty),
            Some(step) => self.boxed(scope, state, step.get()),
        }
    }

    #[tactic(auto, unfolding(crate::specs::Statements::turn))]
    fn turn(
        &self,
        scope: &Scope<'_>,
        state: &mut State,
        step: &Option<Boxed<Stmt>>,
        body: &Stmt,
    ) -> Result<(Boxed<Statement>, Boxed<Statement>), AllocError>
        requires { Nests self.now.depth (F.pre self.now.stmt) (F.post self.now.stmt) }
        ensures { Gives (spec.turn (statement_to self.now.depth) (context scope.now) step.now body.now state.old) result state.new }
    {
        let after = between(scope);
        let step = self.step(&after, state, step)?;
        let inside = repeating(scope);
        let body = self.boxed_body(&inside, state, body)?;
        Ok((step, body))
    }

    #[tactic(auto, unfolding(crate::specs::Statements::counted))]
    fn counted(
        &self,
        scope: &Scope<'_>,
        state: &mut State,
        test: &Option<Expr>,
        step: &Option<Boxed<Stmt>>,
        body: &Stmt,
    ) -> Result<Statement, AllocError>
        requires { Nests self.now.depth (F.pre self.now.stmt) (F.post self.now.stmt) }
        ensures { Gives (spec.counted (statement_to self.now.depth) (context scope.now) test.now step.now body.now state.old) result state.new }
    {
        let test = condition(self.alloc, scope, state, test)?;
        let turn = self.turn(scope, state, step, body)?;
        Ok(Statement::For(test, turn.0, turn.1))
    }

    #[tactic(auto, unfolding(crate::specs::Statements::headed))]
    fn headed(
        &self,
        scope: &Scope<'_>,
        state: &mut State,
        start: &[Stmt],
        test: &Option<Expr>,
        step: &Option<Boxed<Stmt>>,
        body: &Stmt,
    ) -> Result<Statement, AllocError>
        requires { Nests self.now.depth (F.pre self.now.stmt) (F.post self.now.stmt) }
        ensures { Gives (spec.headed (statement_to self.now.depth) (context scope.now) start.now test.now step.now body.now state.old) result state.new }
    {
        let first = self.statements(scope, state, start)?;
        let last = self.counted(scope, state, test, step, body)?;
        followed(first, last)
    }

    /// A `for`.
    #[tactic(auto, unfolding(crate::specs::Statements::loop_of))]
    pub(crate) fn loop_of(
        &self,
        scope: &Scope<'_>,
        state: &mut State,
        start: &[Stmt],
        test: &Option<Expr>,
        step: &Option<Boxed<Stmt>>,
        body: &Stmt,
    ) -> Result<Statement, AllocError>
        requires { Nests self.now.depth (F.pre self.now.stmt) (F.post self.now.stmt) }
        ensures { Gives (spec.loop_of (statement_to self.now.depth) (context scope.now) start.now test.now step.now body.now state.old) result state.new }
    {
        let first = state.locals.len();
        let inside = Scope {
            start: first,
            ..*scope
        };
        let statement = self.headed(&inside, state, start, test, step, body)?;
        state.leave(first);
        Ok(statement)
    }
}
