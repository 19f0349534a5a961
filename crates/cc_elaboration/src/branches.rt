ghost use Rattle.std.specs.Prelude.{◌≡◌, length};
ghost use Rattle.cc_scopes.specs.Elab.{Gives};
ghost use Rattle.cc_scopes.specs.Scope.{context};
ghost use Rattle.cc_elaboration.specs.Nests.{Nests};
ghost use Rattle.cc_elaboration.specs.Statements as spec;
ghost use Rattle.cc_elaboration.specs.Statements.{statement_to};

use crate::assignments::{Assignment, read_assignment};
use crate::header::Header;
use crate::simple::{int_value, no_value};
use crate::statements::Statements;
use cc_core::{Expression, Statement};
use cc_names::StaticRule;
use cc_scopes::{Declared, Scope, Shape, State, Ty};
use cc_tree::{AssignOp, Expr, ExprKind, Stmt, StmtKind};
use ccpp_edge::{Boxed, List, Text};
use std::alloc::{AllocError, Global};

fn plain_int() -> Declared
    ensures { result ≡ spec.plain_int }
{
    Declared {
        shape: Shape::Cell,
        ty: Ty::Int,
        sync: false,
    }
}

fn assigned_value(assignment: Option<Assignment>) -> Expression
    ensures { result ≡ spec.assigned_value assignment }
{
    match assignment {
        None => no_value(),
        Some(assignment) => assignment.value,
    }
}

/// Whether an expression is a name alone, and this one.
#[tactic(auto, unfolding(crate::specs::Statements::names))]
fn names(e: &Expr, name: &Text) -> bool
    ensures { result ≡ spec.names e.now name.now }
{
    match &e.kind {
        ExprKind::Name(text) => text.as_str() == name.as_str(),
        _ => false,
    }
}

#[tactic(auto, unfolding(crate::specs::Statements::step_value))]
fn step_value(
    alloc: Global,
    scope: &Scope<'_>,
    state: &mut State,
    target: &Expr,
    op: AssignOp,
    value: &Expr,
) -> Result<Expression, AllocError>
    ensures { Gives (spec.step_value (context scope.now) target.now op value.now state.old) result state.new }
{
    let assignment = read_assignment(alloc, scope, state, target, op, value)?;
    Ok(assigned_value(assignment))
}

/// Where a parallel part begins. The loops around it are none of its own.
fn branch<'a>(scope: &Scope<'a>, state: &State) -> Scope<'a>
    ensures { context result ≡ spec.branch (context scope.now) (length state.now.locals) }
{
    Scope {
        part: state.locals.len(),
        in_branch: true,
        in_loop: false,
        ..*scope
    }
}

impl<
    F: Fn(Global, usize, &Scope<'_>, &mut State, &Stmt) -> Result<Statement, AllocError>,
> Statements<F> {
    fn part(&self, scope: &Scope<'_>, state: &mut State, s: &Stmt) -> Result<Statement, AllocError>
        requires { Nests self.now.depth (F.pre self.now.stmt) (F.post self.now.stmt) }
        ensures { Gives (spec.part (statement_to self.now.depth) (context scope.now) s.now state.old) result state.new }
    {
        let branch = branch(scope, state);
        self.stmt(&branch, state, s)
    }

    #[tactic(auto, unfolding(crate::specs::Statements::parts))]
    fn parts(
        &self,
        scope: &Scope<'_>,
        state: &mut State,
        mut all: &[Stmt],
    ) -> Result<List<Statement>, AllocError>
        requires { Nests self.now.depth (F.pre self.now.stmt) (F.post self.now.stmt) }
        ensures { Gives (spec.parts (statement_to self.now.depth) (context scope.now) all.entry.now state.old) result state.new }
    {
        let mut done = List::new(self.alloc);
        while let [s, rest @ ..] = all {
            done.push(self.part(scope, state, s)?)?;
            all = rest;
        }
        Ok(done)
    }

    /// A `par`.
    #[tactic(auto, unfolding(crate::specs::Statements::par))]
    pub(crate) fn par(
        &self,
        scope: &Scope<'_>,
        state: &mut State,
        all: &[Stmt],
    ) -> Result<Statement, AllocError>
        requires { Nests self.now.depth (F.pre self.now.stmt) (F.post self.now.stmt) }
        ensures { Gives (spec.par (statement_to self.now.depth) (context scope.now) all.now state.old) result state.new }
    {
        state.block(scope.line)?;
        let parts = self.parts(scope, state, all)?;
        Ok(Statement::Par(parts))
    }

    #[tactic(auto, unfolding(crate::specs::Statements::no_step))]
    fn no_step(
        &self,
        scope: &Scope<'_>,
        state: &mut State,
        step: &Stmt,
    ) -> Result<Expression, AllocError>
        requires { Nests self.now.depth (F.pre self.now.stmt) (F.post self.now.stmt) }
        ensures { Gives (spec.no_step (statement_to self.now.depth) (context scope.now) step.now state.old) result state.new }
    {
        self.boxed(scope, state, step)?;
        scope.note_rule(state, StaticRule::ParforHeader)?;
        Ok(no_value())
    }

    fn step_if(
        &self,
        scope: &Scope<'_>,
        state: &mut State,
        is_own: bool,
        step: &Stmt,
        target: &Expr,
        op: AssignOp,
        value: &Expr,
    ) -> Result<Expression, AllocError>
        requires { Nests self.now.depth (F.pre self.now.stmt) (F.post self.now.stmt) }
        ensures { Gives (spec.step_if (statement_to self.now.depth) is_own (context scope.now) step.now target.now op value.now state.old) result state.new }
    {
        if is_own {
            let here = Scope {
                line: step.line,
                ..*scope
            };
            return step_value(self.alloc, &here, state, target, op, value);
        }
        self.no_step(scope, state, step)
    }

    #[tactic(auto, unfolding(crate::specs::Statements::header_step))]
    fn header_step(
        &self,
        scope: &Scope<'_>,
        state: &mut State,
        name: &Text,
        step: &Stmt,
    ) -> Result<Expression, AllocError>
        requires { Nests self.now.depth (F.pre self.now.stmt) (F.post self.now.stmt) }
        ensures { Gives (spec.header_step (statement_to self.now.depth) (context scope.now) name.now step.now state.old) result state.new }
    {
        match &step.kind {
            StmtKind::Assign { place, op, value } => {
                self.step_if(scope, state, names(place, name), step, place, *op, value)
            }
            _ => self.no_step(scope, state, step),
        }
    }

    #[tactic(auto, unfolding(crate::specs::Statements::header_rest))]
    fn header_rest(
        &self,
        scope: &Scope<'_>,
        state: &mut State,
        name: &Text,
        variable: u32,
        start: Expression,
        test: &Expr,
        step: &Stmt,
    ) -> Result<Header, AllocError>
        requires { Nests self.now.depth (F.pre self.now.stmt) (F.post self.now.stmt) }
        ensures { Gives (spec.header_rest (statement_to self.now.depth) (context scope.now) name.now variable start test.now step.now state.old) result state.new }
    {
        let test = int_value(self.alloc, scope, state, test)?;
        let value = self.header_step(scope, state, name, step)?;
        Ok(Header {
            variable,
            start,
            test,
            line: step.line,
            value,
        })
    }

    #[tactic(auto, unfolding(crate::specs::Statements::header))]
    fn header(
        &self,
        scope: &Scope<'_>,
        state: &mut State,
        name: &Text,
        start: &Expr,
        test: &Expr,
        step: &Stmt,
    ) -> Result<Header, AllocError>
        requires { Nests self.now.depth (F.pre self.now.stmt) (F.post self.now.stmt) }
        ensures { Gives (spec.header (statement_to self.now.depth) (context scope.now) name.now start.now test.now step.now state.old) result state.new }
    {
        let start = int_value(self.alloc, scope, state, start)?;
        let variable = scope.declare(self.alloc, state, name, plain_int())?;
        self.header_rest(scope, state, name, variable, start, test, step)
    }

    #[tactic(auto, unfolding(crate::specs::Statements::copied))]
    fn copied(
        &self,
        scope: &Scope<'_>,
        state: &mut State,
        name: &Text,
        variable: u32,
        body: &Stmt,
    ) -> Result<Boxed<Statement>, AllocError>
        requires { Nests self.now.depth (F.pre self.now.stmt) (F.post self.now.stmt) }
        ensures { Gives (spec.copied (statement_to self.now.depth) (context scope.now) name.now variable body.now state.old) result state.new }
    {
        scope.bring(self.alloc, state, name, variable, plain_int())?;
        self.boxed_body(scope, state, body)
    }

    fn each(
        &self,
        scope: &Scope<'_>,
        state: &mut State,
        name: &Text,
        variable: u32,
        body: &Stmt,
    ) -> Result<Boxed<Statement>, AllocError>
        requires { Nests self.now.depth (F.pre self.now.stmt) (F.post self.now.stmt) }
        ensures { Gives (spec.each (statement_to self.now.depth) (context scope.now) name.now variable body.now state.old) result state.new }
    {
        let branch = branch(scope, state);
        self.copied(&branch, state, name, variable, body)
    }

    #[tactic(auto, unfolding(crate::specs::Statements::iterated))]
    fn iterated(
        &self,
        scope: &Scope<'_>,
        state: &mut State,
        name: &Text,
        start: &Expr,
        test: &Expr,
        step: &Stmt,
        body: &Stmt,
    ) -> Result<Statement, AllocError>
        requires { Nests self.now.depth (F.pre self.now.stmt) (F.post self.now.stmt) }
        ensures { Gives (spec.iterated (statement_to self.now.depth) (context scope.now) name.now start.now test.now step.now body.now state.old) result state.new }
    {
        let header = self.header(scope, state, name, start, test, step)?;
        let body = self.each(scope, state, name, header.variable, body)?;
        Ok(Statement::ParFor(
            header.variable,
            header.start,
            header.test,
            header.line,
            header.value,
            body,
        ))
    }

    /// A `parfor`.
    #[tactic(auto, unfolding(crate::specs::Statements::parfor))]
    pub(crate) fn parfor(
        &self,
        scope: &Scope<'_>,
        state: &mut State,
        name: &Text,
        start: &Expr,
        test: &Expr,
        step: &Stmt,
        body: &Stmt,
    ) -> Result<Statement, AllocError>
        requires { Nests self.now.depth (F.pre self.now.stmt) (F.post self.now.stmt) }
        ensures { Gives (spec.parfor (statement_to self.now.depth) (context scope.now) name.now start.now test.now step.now body.now state.old) result state.new }
    {
        let first = state.locals.len();
        state.block(scope.line)?;
        let inside = Scope {
            start: first,
            ..*scope
        };
        let statement = self.iterated(&inside, state, name, start, test, step, body)?;
        state.leave(first);
        Ok(statement)
    }
}
