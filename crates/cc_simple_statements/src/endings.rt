//! What ends with a semicolon.

ghost use Rattle.std.specs.Prelude.{◌≡◌, [], ◌∷◌};
ghost use Rattle.cc_grammar.specs.Kinds.{heads};
ghost use Rattle.cc_grammar.specs.Reading.{Gives};
ghost use Rattle.cc_grammar.specs.ReadExpressions as read_expressions;
ghost use Rattle.cc_grammar.specs.ReadStatements as read;
ghost use Rattle.cc_simple_statements.specs.Endings as endings;

use crate::assignments::simple;
use cc_expressions::{Cursor, Terms};
use cc_grammar::Fault;
use cc_lexer::{Keyword, Mark, TokenKind};
use cc_tree::{Expr, Stmt, StmtKind};

const FIRST_EXPR: [TokenKind; 10] = [
    TokenKind::Mark(Mark::Minus),
    TokenKind::Mark(Mark::Not),
    TokenKind::Mark(Mark::Star),
    TokenKind::Mark(Mark::Ampersand),
    TokenKind::Word(Keyword::New),
    TokenKind::Int(0),
    TokenKind::Word(Keyword::Null),
    TokenKind::Name,
    TokenKind::Word(Keyword::This),
    TokenKind::Mark(Mark::OpenParen),
];

/// What was read, where this mark comes next, which it takes.
pub fn ended_by<T: Drop>(tokens: &mut Cursor<'_>, mark: Mark, item: T) -> Result<T, Fault>
    ensures { Gives (endings.ended_by mark item tokens.old) result tokens.new }
{
    tokens.mark(mark)?;
    Ok(item)
}

/// Whether an expression comes next.
pub fn begins_expr(tokens: &Cursor<'_>) -> bool
    ensures { result ≡ heads read_expressions.first_expr tokens.now }
{
    tokens.at_any(&FIRST_EXPR)
}

/// An expression, or none.
#[tactic(auto, unfolding(cc_grammar::specs::ReadStatements::maybe_expr))]
pub fn maybe_expr(terms: Terms, tokens: &mut Cursor<'_>) -> Result<Option<Expr>, Fault>
    ensures { Gives (read.maybe_expr terms.depth tokens.old) result tokens.new }
{
    if begins_expr(tokens) {
        return Ok(Some(terms.expr(tokens)?));
    }
    Ok(None)
}

/// An expression and a semicolon.
#[tactic(auto, unfolding(cc_grammar::specs::ReadStatements::expr_semicolon))]
pub fn expr_semicolon(terms: Terms, tokens: &mut Cursor<'_>) -> Result<Expr, Fault>
    ensures { Gives (read.expr_semicolon terms.depth tokens.old) result tokens.new }
{
    let value = terms.expr(tokens)?;
    ended_by(tokens, Mark::Semicolon, value)
}

#[tactic(auto, unfolding(cc_grammar::specs::ReadStatements::empty))]
pub fn empty(tokens: &mut Cursor<'_>) -> Result<Stmt, Fault>
    ensures { Gives (read.empty tokens.old) result tokens.new }
{
    let line = tokens.mark(Mark::Semicolon)?;
    Ok(Stmt {
        kind: StmtKind::Empty,
        line,
    })
}

/// A simple statement and a semicolon.
#[tactic(auto, unfolding(cc_grammar::specs::ReadStatements::plain))]
pub fn plain(terms: Terms, tokens: &mut Cursor<'_>) -> Result<Stmt, Fault>
    ensures { Gives (read.plain terms.depth tokens.old) result tokens.new }
{
    let stmt = simple(terms, tokens)?;
    ended_by(tokens, Mark::Semicolon, stmt)
}

#[tactic(auto, unfolding(cc_grammar::specs::ReadStatements::spawned))]
pub fn spawned(terms: Terms, tokens: &mut Cursor<'_>) -> Result<Stmt, Fault>
    ensures { Gives (read.spawned terms.depth tokens.old) result tokens.new }
{
    let line = tokens.word(Keyword::Spawn)?;
    let call = terms.call(tokens)?;
    tokens.mark(Mark::Semicolon)?;
    Ok(Stmt {
        kind: StmtKind::Spawn(call),
        line,
    })
}

#[tactic(auto, unfolding(cc_grammar::specs::ReadStatements::returned))]
pub fn returned(terms: Terms, tokens: &mut Cursor<'_>) -> Result<Stmt, Fault>
    ensures { Gives (read.returned terms.depth tokens.old) result tokens.new }
{
    let line = tokens.word(Keyword::Return)?;
    let value = maybe_expr(terms, tokens)?;
    tokens.mark(Mark::Semicolon)?;
    Ok(Stmt {
        kind: StmtKind::Return(value),
        line,
    })
}

/// A `break` or a `continue`.
#[tactic(auto, unfolding(cc_grammar::specs::ReadStatements::jump))]
pub fn jump(tokens: &mut Cursor<'_>) -> Result<Stmt, Fault>
    ensures { Gives (read.jump tokens.old) result tokens.new }
{
    if tokens.at_word(Keyword::Break) {
        let line = tokens.word(Keyword::Break)?;
        tokens.mark(Mark::Semicolon)?;
        return Ok(Stmt {
            kind: StmtKind::Break,
            line,
        });
    }
    let line = tokens.word(Keyword::Continue)?;
    tokens.mark(Mark::Semicolon)?;
    Ok(Stmt {
        kind: StmtKind::Continue,
        line,
    })
}
