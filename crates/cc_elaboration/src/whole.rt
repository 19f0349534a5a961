ghost use Rattle.cc_scopes.specs.Elab.{Gives};
ghost use Rattle.cc_scopes.specs.Scope.{context};
ghost use Rattle.cc_elaboration.specs.Statements as spec;

use crate::statements::{Statements, statement_to};
use cc_core::Statement;
use cc_scopes::{Scope, State};
use cc_tree::Stmt;
use ccpp_edge::List;
use std::alloc::{AllocError, Global};

/// How many levels of statements are read. The parser gives none nested more than 64 levels.
const MAX_DEPTH: usize = 1000;

/// A statement.
pub fn statement(
    alloc: Global,
    scope: &Scope<'_>,
    state: &mut State,
    s: &Stmt,
) -> Result<Statement, AllocError>
    ensures { Gives (spec.statement (context scope.now) s.now state.old) result state.new }
{
    statement_to(alloc, MAX_DEPTH, scope, state, s)
}

/// The statements of a function's body, in one scope with its parameters.
pub fn function_body(
    alloc: Global,
    scope: &Scope<'_>,
    state: &mut State,
    all: &[Stmt],
) -> Result<List<Statement>, AllocError>
    ensures { Gives (spec.function_body (context scope.now) all.now state.old) result state.new }
{
    Statements {
        alloc,
        depth: MAX_DEPTH,
        stmt: statement_to,
    }
    .statements(scope, state, all)
}
