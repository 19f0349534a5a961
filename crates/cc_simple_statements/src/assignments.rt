//! Simple statements: assignments, and calls for their effect.

ghost use Rattle.std.specs.Prelude.{◌≡◌, [], ◌∷◌};
ghost use Rattle.cc_grammar.specs.Kinds.{heads};
ghost use Rattle.cc_grammar.specs.Reading.{Gives};
ghost use Rattle.cc_grammar.specs.ReadStatements as read;

use crate::nodes::{assigned, called, one};
use cc_expressions::{Cursor, Terms, ending, posted};
use cc_grammar::{Ending, Fault};
use cc_lexer::{Keyword, Mark, TokenKind};
use cc_tree::{AssignOp, Expr, Stmt, StmtKind};

/// What a simple statement begins with.
const FIRST_SIMPLE: [TokenKind; 6] = [
    TokenKind::Mark(Mark::PlusPlus),
    TokenKind::Mark(Mark::MinusMinus),
    TokenKind::Mark(Mark::Star),
    TokenKind::Name,
    TokenKind::Word(Keyword::This),
    TokenKind::Mark(Mark::OpenParen),
];

fn assign_by(tokens: &mut Cursor<'_>, mark: Mark, op: AssignOp) -> Result<AssignOp, Fault>
    ensures { Gives (read.assign_by mark op tokens.old) result tokens.new }
{
    tokens.mark(mark)?;
    Ok(op)
}

/// The operator of an assignment.
#[tactic(auto, unfolding(cc_grammar::specs::ReadStatements::assign))]
fn assign(tokens: &mut Cursor<'_>) -> Result<AssignOp, Fault>
    ensures { Gives (read.assign tokens.old) result tokens.new }
{
    if tokens.at_mark(Mark::Assign) {
        return assign_by(tokens, Mark::Assign, AssignOp::Set);
    }
    if tokens.at_mark(Mark::PlusAssign) {
        return assign_by(tokens, Mark::PlusAssign, AssignOp::Add);
    }
    if tokens.at_mark(Mark::MinusAssign) {
        return assign_by(tokens, Mark::MinusAssign, AssignOp::Sub);
    }
    if tokens.at_mark(Mark::StarAssign) {
        return assign_by(tokens, Mark::StarAssign, AssignOp::Mul);
    }
    if tokens.at_mark(Mark::SlashAssign) {
        return assign_by(tokens, Mark::SlashAssign, AssignOp::Div);
    }
    assign_by(tokens, Mark::PercentAssign, AssignOp::Rem)
}

fn count_by(tokens: &mut Cursor<'_>, mark: Mark, op: AssignOp) -> Result<(AssignOp, u32), Fault>
    ensures { Gives (read.count_by mark op tokens.old) result tokens.new }
{
    let line = tokens.mark(mark)?;
    Ok((op, line))
}

/// `++` or `--`, as the operator that it stands for, and its line.
#[tactic(auto, unfolding(cc_grammar::specs::ReadStatements::count))]
fn count(tokens: &mut Cursor<'_>) -> Result<(AssignOp, u32), Fault>
    ensures { Gives (read.count tokens.old) result tokens.new }
{
    if tokens.at_mark(Mark::PlusPlus) {
        return count_by(tokens, Mark::PlusPlus, AssignOp::Add);
    }
    count_by(tokens, Mark::MinusMinus, AssignOp::Sub)
}

/// What follows a place that is assigned to.
#[tactic(auto, unfolding(cc_grammar::specs::ReadStatements::set_to))]
fn set_to(terms: Terms, tokens: &mut Cursor<'_>, place: Expr) -> Result<Stmt, Fault>
    ensures { Gives (read.set_to terms.depth place tokens.old) result tokens.new }
{
    let op = assign(tokens)?;
    let value = terms.expr(tokens)?;
    Ok(assigned(place, op, value))
}

/// What follows a place that is counted up or down.
#[tactic(auto, unfolding(cc_grammar::specs::ReadStatements::counted))]
fn counted(tokens: &mut Cursor<'_>, place: Expr) -> Result<Stmt, Fault>
    ensures { Gives (read.counted place tokens.old) result tokens.new }
{
    let (op, line) = count(tokens)?;
    Ok(assigned(place, op, one(line)))
}

/// What follows a place, and makes it a statement.
#[tactic(auto, unfolding(cc_grammar::specs::ReadStatements::changed))]
fn changed(terms: Terms, tokens: &mut Cursor<'_>, place: Expr) -> Result<Stmt, Fault>
    ensures { Gives (read.changed terms.depth place tokens.old) result tokens.new }
{
    if tokens.at_any(&[
        TokenKind::Mark(Mark::Assign),
        TokenKind::Mark(Mark::PlusAssign),
        TokenKind::Mark(Mark::MinusAssign),
        TokenKind::Mark(Mark::StarAssign),
        TokenKind::Mark(Mark::SlashAssign),
        TokenKind::Mark(Mark::PercentAssign),
    ]) {
        return set_to(terms, tokens, place);
    }
    counted(tokens, place)
}

/// `++` or `--` before a place.
#[tactic(auto, unfolding(cc_grammar::specs::ReadStatements::count_first))]
fn count_first(terms: Terms, tokens: &mut Cursor<'_>) -> Result<Stmt, Fault>
    ensures { Gives (read.count_first terms.depth tokens.old) result tokens.new }
{
    let (op, line) = count(tokens)?;
    let place = terms.place(tokens)?;
    let value = one(line);
    let kind = StmtKind::Assign { place, op, value };
    Ok(Stmt { kind, line })
}

#[tactic(auto, unfolding(cc_grammar::specs::ReadStatements::deref_changed))]
fn deref_changed(terms: Terms, tokens: &mut Cursor<'_>) -> Result<Stmt, Fault>
    ensures { Gives (read.deref_changed terms.depth tokens.old) result tokens.new }
{
    let place = terms.deref(tokens)?;
    changed(terms, tokens, place)
}

/// A statement that begins with a chain: its end tells whether it is a place or a call.
#[tactic(auto, unfolding(cc_grammar::specs::ReadStatements::chain_stmt))]
fn chain_stmt(terms: Terms, tokens: &mut Cursor<'_>) -> Result<Stmt, Fault>
    ensures { Gives (read.chain_stmt terms.depth tokens.old) result tokens.new }
{
    let base = terms.root(tokens)?;
    let tail = terms.tails(tokens)?;
    match ending(&base, tail.as_slice()) {
        Ending::Place => changed(terms, tokens, posted(terms.alloc, base, tail)?),
        Ending::Call => Ok(called(posted(terms.alloc, base, tail)?)),
        Ending::Neither => Err(Fault::Syntax),
    }
}

/// A simple statement.
#[tactic(auto, unfolding(cc_grammar::specs::ReadStatements::simple))]
pub fn simple(terms: Terms, tokens: &mut Cursor<'_>) -> Result<Stmt, Fault>
    ensures { Gives (read.simple terms.depth tokens.old) result tokens.new }
{
    if tokens.at_any(&[
        TokenKind::Mark(Mark::PlusPlus),
        TokenKind::Mark(Mark::MinusMinus),
    ]) {
        return count_first(terms, tokens);
    }
    if tokens.at_mark(Mark::Star) {
        return deref_changed(terms, tokens);
    }
    chain_stmt(terms, tokens)
}

/// Whether a simple statement comes next.
pub fn begins_simple(tokens: &Cursor<'_>) -> bool
    ensures { result ≡ heads read.first_simple tokens.now }
{
    tokens.at_any(&FIRST_SIMPLE)
}

/// A simple statement, or none.
#[tactic(auto, unfolding(cc_grammar::specs::ReadStatements::maybe_simple))]
pub fn maybe_simple(terms: Terms, tokens: &mut Cursor<'_>) -> Result<Option<Stmt>, Fault>
    ensures { Gives (read.maybe_simple terms.depth tokens.old) result tokens.new }
{
    if begins_simple(tokens) {
        return Ok(Some(simple(terms, tokens)?));
    }
    Ok(None)
}
