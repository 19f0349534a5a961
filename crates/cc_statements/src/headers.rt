//! What stands in the parentheses of a test and of a loop.

ghost use Rattle.std.specs.Prelude.{◌≡◌, [], ◌∷◌, pred};
ghost use Rattle.cc_grammar.specs.Reading.{Gives};
ghost use Rattle.cc_grammar.specs.ReadStatements as read;

use cc_declarations::{begins_decl, decl};
use cc_expressions::{Cursor, Terms, boxed, with_front};
use cc_grammar::{Counter, Fault, Header, Name};
use cc_lexer::{Keyword, Mark, TokenKind};
use cc_simple_statements::{ended_by, expr_semicolon, maybe_expr, maybe_simple, simple};
use cc_tree::{Expr, Stmt};
use ccpp_edge::{Boxed, List};
use std::alloc::Global;

/// What a declaration or a simple statement begins with.
const FIRST_BEGINNING: [TokenKind; 9] = [
    TokenKind::Word(Keyword::Int),
    TokenKind::Word(Keyword::Sync),
    TokenKind::Word(Keyword::Void),
    TokenKind::Mark(Mark::PlusPlus),
    TokenKind::Mark(Mark::MinusMinus),
    TokenKind::Mark(Mark::Star),
    TokenKind::Name,
    TokenKind::Word(Keyword::This),
    TokenKind::Mark(Mark::OpenParen),
];

/// One level fewer, where there is one.
pub fn within(terms: Terms) -> Terms
    ensures { result.depth ≡ pred terms.depth }
{
    Terms {
        alloc: terms.alloc,
        depth: terms.depth.saturating_sub(1),
    }
}

/// A test in parentheses.
pub fn test(terms: Terms, tokens: &mut Cursor<'_>) -> Result<Expr, Fault>
    ensures { Gives (read.test terms.depth tokens.old) result tokens.new }
{
    tokens.open_mark(terms.depth, Mark::OpenParen)?;
    let test = terms.inner(tokens)?;
    ended_by(tokens, Mark::CloseParen, test)
}

/// A declaration, or a simple statement.
#[tactic(auto, unfolding(cc_grammar::specs::ReadStatements::beginning))]
fn beginning(terms: Terms, tokens: &mut Cursor<'_>) -> Result<List<Stmt>, Fault>
    ensures { Gives (read.beginning terms.depth tokens.old) result tokens.new }
{
    if begins_decl(tokens) {
        return decl(terms, tokens);
    }
    let stmt = simple(terms, tokens)?;
    Ok(with_front(terms.alloc, stmt, List::new(terms.alloc))?)
}

#[tactic(auto, unfolding(cc_grammar::specs::ReadStatements::maybe_beginning))]
fn maybe_beginning(terms: Terms, tokens: &mut Cursor<'_>) -> Result<List<Stmt>, Fault>
    ensures { Gives (read.maybe_beginning terms.depth tokens.old) result tokens.new }
{
    if tokens.at_any(&FIRST_BEGINNING) {
        return beginning(terms, tokens);
    }
    Ok(List::new(terms.alloc))
}

#[tactic(auto, unfolding(cc_grammar::specs::ReadStatements::header_start))]
fn header_start(terms: Terms, tokens: &mut Cursor<'_>) -> Result<List<Stmt>, Fault>
    ensures { Gives (read.header_start terms.depth tokens.old) result tokens.new }
{
    let start = maybe_beginning(terms, tokens)?;
    ended_by(tokens, Mark::Semicolon, start)
}

#[tactic(auto, unfolding(cc_grammar::specs::ReadStatements::header_test))]
fn header_test(terms: Terms, tokens: &mut Cursor<'_>) -> Result<Option<Expr>, Fault>
    ensures { Gives (read.header_test terms.depth tokens.old) result tokens.new }
{
    let test = maybe_expr(terms, tokens)?;
    ended_by(tokens, Mark::Semicolon, test)
}

#[tactic(auto, unfolding(cc_grammar::specs::ReadStatements::header_step))]
fn header_step(terms: Terms, tokens: &mut Cursor<'_>) -> Result<Option<Boxed<Stmt>>, Fault>
    ensures { Gives (read.header_step terms.depth tokens.old) result tokens.new }
{
    let step = maybe_simple(terms, tokens)?;
    let step = boxed(terms.alloc, step)?;
    ended_by(tokens, Mark::CloseParen, step)
}

/// What stands in the parentheses of a `for`.
#[tactic(auto, unfolding(cc_grammar::specs::ReadStatements::header))]
pub fn header(terms: Terms, tokens: &mut Cursor<'_>) -> Result<Header, Fault>
    ensures { Gives (read.header terms.depth tokens.old) result tokens.new }
{
    tokens.open_mark(terms.depth, Mark::OpenParen)?;
    let start = header_start(within(terms), tokens)?;
    let test = header_test(within(terms), tokens)?;
    let step = header_step(within(terms), tokens)?;
    Ok(Header { start, test, step })
}

/// `int`, a name and `=`.
#[tactic(auto, unfolding(cc_grammar::specs::ReadStatements::int_name))]
pub fn int_name(alloc: Global, tokens: &mut Cursor<'_>) -> Result<Name, Fault>
    ensures { Gives (read.int_name tokens.old) result tokens.new }
{
    tokens.word(Keyword::Int)?;
    let name = tokens.name(alloc)?;
    ended_by(tokens, Mark::Assign, name)
}

#[tactic(auto, unfolding(cc_grammar::specs::ReadStatements::counter_step))]
fn counter_step(terms: Terms, tokens: &mut Cursor<'_>) -> Result<Stmt, Fault>
    ensures { Gives (read.counter_step terms.depth tokens.old) result tokens.new }
{
    let step = simple(terms, tokens)?;
    ended_by(tokens, Mark::CloseParen, step)
}

/// What stands in the parentheses of a `parfor`.
#[tactic(auto, unfolding(cc_grammar::specs::ReadStatements::counter))]
pub fn counter(terms: Terms, tokens: &mut Cursor<'_>) -> Result<Counter, Fault>
    ensures { Gives (read.counter terms.depth tokens.old) result tokens.new }
{
    tokens.open_mark(terms.depth, Mark::OpenParen)?;
    let Name { text: name, .. } = int_name(terms.alloc, tokens)?;
    let start = expr_semicolon(within(terms), tokens)?;
    let test = expr_semicolon(within(terms), tokens)?;
    let step = counter_step(within(terms), tokens)?;
    Ok(Counter {
        name,
        start,
        test,
        step,
    })
}
