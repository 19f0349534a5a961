//! Printing.

ghost use Rattle.std.specs.Prelude.{◌≡◌, [], ◌∷◌};
ghost use Rattle.cc_grammar.specs.Reading.{Gives};
ghost use Rattle.cc_grammar.specs.ReadStatements as read;

use crate::endings::begins_expr;
use cc_expressions::{Cursor, Terms, many, with_front};
use cc_grammar::Fault;
use cc_lexer::{Keyword, Mark, TokenKind};
use cc_tree::{PrintItem, Stmt, StmtKind};
use ccpp_edge::List;
use std::alloc::Global;

#[tactic(auto, unfolding(cc_grammar::specs::ReadStatements::out_value))]
fn out_value(terms: Terms, tokens: &mut Cursor<'_>) -> Result<PrintItem, Fault>
    ensures { Gives (read.out_value terms.depth tokens.old) result tokens.new }
{
    Ok(PrintItem::Value(terms.sum(tokens)?))
}

#[tactic(auto, unfolding(cc_grammar::specs::ReadStatements::out_string))]
fn out_string(alloc: Global, tokens: &mut Cursor<'_>) -> Result<PrintItem, Fault>
    ensures { Gives (read.out_string tokens.old) result tokens.new }
{
    Ok(PrintItem::Str(tokens.string(alloc)?))
}

#[tactic(auto, unfolding(cc_grammar::specs::ReadStatements::out_endl))]
fn out_endl(tokens: &mut Cursor<'_>) -> Result<PrintItem, Fault>
    ensures { Gives (read.out_endl tokens.old) result tokens.new }
{
    tokens.word(Keyword::Endl)?;
    Ok(PrintItem::Endl)
}

/// One item: an expression without comparisons, a string, or `endl`.
#[tactic(auto, unfolding(cc_grammar::specs::ReadStatements::out))]
fn out(terms: Terms, tokens: &mut Cursor<'_>) -> Result<PrintItem, Fault>
    ensures { Gives (read.out terms.depth tokens.old) result tokens.new }
{
    if begins_expr(tokens) {
        return out_value(terms, tokens);
    }
    if tokens.at(TokenKind::Str) {
        return out_string(terms.alloc, tokens);
    }
    out_endl(tokens)
}

/// `<<` and an item.
#[tactic(auto, unfolding(cc_grammar::specs::ReadStatements::shift))]
fn shift(terms: Terms, tokens: &mut Cursor<'_>) -> Result<PrintItem, Fault>
    ensures { Gives (read.shift terms.depth tokens.old) result tokens.new }
{
    tokens.mark(Mark::LessLess)?;
    out(terms, tokens)
}

#[tactic(auto, unfolding(cc_grammar::specs::ReadStatements::shifts))]
fn shifts(terms: Terms, tokens: &mut Cursor<'_>) -> Result<List<PrintItem>, Fault>
    ensures { Gives (read.shifts terms.depth tokens.old) result tokens.new }
{
    many(
        terms.alloc,
        tokens,
        &[TokenKind::Mark(Mark::LessLess)],
        |tokens| shift(terms, tokens),
    )
}

/// `cout` with its items.
#[tactic(auto, unfolding(cc_grammar::specs::ReadStatements::print))]
pub fn print(terms: Terms, tokens: &mut Cursor<'_>) -> Result<Stmt, Fault>
    ensures { Gives (read.print terms.depth tokens.old) result tokens.new }
{
    let line = tokens.word(Keyword::Cout)?;
    let first = shift(terms, tokens)?;
    let rest = shifts(terms, tokens)?;
    tokens.mark(Mark::Semicolon)?;
    let kind = StmtKind::Print(with_front(terms.alloc, first, rest)?);
    Ok(Stmt { kind, line })
}
