ghost use Rattle.std.specs.Prelude.{◌≡◌, IfOk};
ghost use Rattle.cc_scopes.specs.Elab.{Gives};
ghost use Rattle.cc_scopes.specs.Scope.{context};
ghost use Rattle.cc_elaboration.specs.Nests.{Nests};
ghost use Rattle.cc_elaboration.specs.Statements as spec;
ghost use Rattle.cc_elaboration.specs.Statements.{statement_to};

use crate::assignments::assign;
use crate::declarations::declaration;
use crate::simple::{call, exit_loop, give, next_turn, print, spawn};
use cc_core::Statement;
use cc_names::StaticRule;
use cc_scopes::{Scope, State};
use cc_tree::{Stmt, StmtKind};
use ccpp_edge::{Boxed, List};
use std::alloc::{AllocError, Global};

/// Reads statements whose parts `stmt` reads to a depth. So each function here is proved by itself, and only `statement_to`
/// recurs.
#[derive(Clone, Copy)]
pub(crate) struct Statements<F> {
    pub(crate) alloc: Global,
    pub(crate) depth: usize,
    pub(crate) stmt: F,
}

/// A statement of the text, at its line.
pub(crate) fn at_line(
    alloc: Global,
    line: u32,
    statement: Statement,
) -> Result<Statement, AllocError>
    ensures { IfOk result (λ s. s ≡ Statement.AtLine line statement) }
{
    Ok(Statement::AtLine(line, Boxed::new(alloc, statement)?))
}

impl<
    F: Fn(Global, usize, &Scope<'_>, &mut State, &Stmt) -> Result<Statement, AllocError>,
> Statements<F> {
    pub(crate) fn stmt(
        &self,
        scope: &Scope<'_>,
        state: &mut State,
        s: &Stmt,
    ) -> Result<Statement, AllocError>
        requires { Nests self.now.depth (F.pre self.now.stmt) (F.post self.now.stmt) }
        ensures { Gives (statement_to self.now.depth (context scope.now) s.now state.old) result state.new }
    {
        (self.stmt)(self.alloc, self.depth, scope, state, s)
    }

    pub(crate) fn boxed(
        &self,
        scope: &Scope<'_>,
        state: &mut State,
        s: &Stmt,
    ) -> Result<Boxed<Statement>, AllocError>
        requires { Nests self.now.depth (F.pre self.now.stmt) (F.post self.now.stmt) }
        ensures { Gives (statement_to self.now.depth (context scope.now) s.now state.old) result state.new }
    {
        let statement = self.stmt(scope, state, s)?;
        Boxed::new(self.alloc, statement)
    }

    /// Statements of one scope.
    #[tactic(auto, unfolding(crate::specs::Statements::statements))]
    pub(crate) fn statements(
        &self,
        scope: &Scope<'_>,
        state: &mut State,
        mut all: &[Stmt],
    ) -> Result<List<Statement>, AllocError>
        requires { Nests self.now.depth (F.pre self.now.stmt) (F.post self.now.stmt) }
        ensures { Gives (spec.statements (statement_to self.now.depth) (context scope.now) all.entry.now state.old) result state.new }
    {
        let mut done = List::new(self.alloc);
        while let [s, rest @ ..] = all {
            done.push(self.stmt(scope, state, s)?)?;
            all = rest;
        }
        Ok(done)
    }

    #[tactic(auto, unfolding(crate::specs::Statements::block_of))]
    fn block_of(
        &self,
        scope: &Scope<'_>,
        state: &mut State,
        all: &[Stmt],
    ) -> Result<Statement, AllocError>
        requires { Nests self.now.depth (F.pre self.now.stmt) (F.post self.now.stmt) }
        ensures { Gives (spec.block_of (statement_to self.now.depth) (context scope.now) all.now state.old) result state.new }
    {
        let start = state.locals.len();
        let inside = Scope { start, ..*scope };
        let body = self.statements(&inside, state, all)?;
        state.leave(start);
        Ok(Statement::Block(body))
    }

    #[tactic(auto, unfolding(crate::specs::Statements::open_block))]
    fn open_block(
        &self,
        scope: &Scope<'_>,
        state: &mut State,
        line: u32,
        all: &[Stmt],
    ) -> Result<Statement, AllocError>
        requires { Nests self.now.depth (F.pre self.now.stmt) (F.post self.now.stmt) }
        ensures { Gives (spec.open_block (statement_to self.now.depth) (context scope.now) line all.now state.old) result state.new }
    {
        let here = Scope { line, ..*scope };
        let body = self.statements(&here, state, all)?;
        at_line(self.alloc, line, Statement::Block(body))
    }

    /// The statement of a loop whose header has a scope, which it shares.
    #[tactic(auto, unfolding(crate::specs::Statements::body))]
    pub(crate) fn body(
        &self,
        scope: &Scope<'_>,
        state: &mut State,
        s: &Stmt,
    ) -> Result<Statement, AllocError>
        requires { Nests self.now.depth (F.pre self.now.stmt) (F.post self.now.stmt) }
        ensures { Gives (spec.body (statement_to self.now.depth) (context scope.now) s.now state.old) result state.new }
    {
        match &s.kind {
            StmtKind::Block(all) => self.open_block(scope, state, s.line, all.as_slice()),
            _ => self.stmt(scope, state, s),
        }
    }

    /// The same, boxed at once.
    pub(crate) fn boxed_body(
        &self,
        scope: &Scope<'_>,
        state: &mut State,
        s: &Stmt,
    ) -> Result<Boxed<Statement>, AllocError>
        requires { Nests self.now.depth (F.pre self.now.stmt) (F.post self.now.stmt) }
        ensures { Gives (spec.body (statement_to self.now.depth) (context scope.now) s.now state.old) result state.new }
    {
        let statement = self.body(scope, state, s)?;
        Boxed::new(self.alloc, statement)
    }

    #[tactic(auto, unfolding(crate::specs::Statements::kind_of))]
    fn kind(
        &self,
        scope: &Scope<'_>,
        state: &mut State,
        kind: &StmtKind,
    ) -> Result<Statement, AllocError>
        requires { Nests self.now.depth (F.pre self.now.stmt) (F.post self.now.stmt) }
        ensures { Gives (spec.kind_of (statement_to self.now.depth) (context scope.now) kind.now state.old) result state.new }
    {
        match kind {
            StmtKind::Block(all) => self.block_of(scope, state, all.as_slice()),
            StmtKind::Empty => Ok(Statement::Empty),
            StmtKind::Declare(decl) => declaration(self.alloc, scope, state, decl),
            StmtKind::Assign { place, op, value } => {
                assign(self.alloc, scope, state, place, *op, value)
            }
            StmtKind::Call(e) => call(self.alloc, scope, state, e),
            StmtKind::Print(items) => print(self.alloc, scope, state, items.as_slice()),
            StmtKind::If { test, yes, no } => self.choice(scope, state, test, yes.get(), no),
            StmtKind::While { test, body } => self.repeated(scope, state, test, body.get()),
            StmtKind::For {
                start,
                test,
                step,
                body,
            } => self.loop_of(scope, state, start.as_slice(), test, step, body.get()),
            StmtKind::Break => exit_loop(scope, state),
            StmtKind::Continue => next_turn(scope, state),
            StmtKind::Par(all) => self.par(scope, state, all.as_slice()),
            StmtKind::ParFor {
                name,
                start,
                test,
                step,
                body,
            } => self.parfor(scope, state, name, start, test, step.get(), body.get()),
            StmtKind::Spawn(e) => spawn(self.alloc, scope, state, e),
            StmtKind::Return(e) => give(self.alloc, scope, state, e),
        }
    }

    #[tactic(auto, unfolding(crate::specs::Statements::node))]
    fn node(&self, scope: &Scope<'_>, state: &mut State, s: &Stmt) -> Result<Statement, AllocError>
        requires { Nests self.now.depth (F.pre self.now.stmt) (F.post self.now.stmt) }
        ensures { Gives (spec.node (statement_to self.now.depth) (context scope.now) s.now state.old) result state.new }
    {
        let here = Scope {
            line: s.line,
            ..*scope
        };
        let statement = self.kind(&here, state, &s.kind)?;
        at_line(self.alloc, s.line, statement)
    }
}

/// What lies deeper than statements are read.
pub(crate) fn too_deep(scope: &Scope<'_>, state: &mut State) -> Result<Statement, AllocError>
    ensures { Gives (spec.too_deep (context scope.now) state.old) result state.new }
{
    scope.note_rule(state, StaticRule::BadType)?;
    Ok(Statement::Empty)
}

pub(crate) fn statement_to(
    alloc: Global,
    depth: usize,
    scope: &Scope<'_>,
    state: &mut State,
    s: &Stmt,
) -> Result<Statement, AllocError>
    ensures { Gives (statement_to depth (context scope.now) s.now state.old) result state.new }
{
    if depth == 0 {
        return too_deep(scope, state);
    }
    Statements {
        alloc,
        depth: depth - 1,
        stmt: statement_to,
    }
    .node(scope, state, s)
}
