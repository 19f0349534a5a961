//! Operators between operands.

ghost use Rattle.std.specs.Prelude.{◌≡◌};
ghost use Rattle.cc_tree.specs.declared.expressions.Expr.{Expr};
ghost use Rattle.cc_grammar.specs.Kinds as kinds_spec;
ghost use Rattle.cc_grammar.specs.Reading.{Gives, Reader};
ghost use Rattle.cc_grammar.specs.ReadExpressions as read;
ghost use Rattle.cc_expressions.specs.Parts.{ReadsBy};

use crate::cursor::Cursor;
use crate::lists::many;
use crate::nodes::chained;
use cc_grammar::{Fault, Precedence};
use cc_lexer::{Mark, TokenKind};
use cc_tree::{BinaryOp, Expr, Link};
use std::alloc::Global;

/// The marks of the operators that bind so tightly.
#[tactic(auto, unfolding(cc_grammar::specs::ReadExpressions::operators))]
fn operators(precedence: Precedence) -> &'static [TokenKind]
    ensures { kinds_spec.kinds result.now ≡ read.operators precedence }
{
    match precedence {
        Precedence::Or => &[TokenKind::Mark(Mark::Or)],
        Precedence::And => &[TokenKind::Mark(Mark::And)],
        Precedence::Equality => &[
            TokenKind::Mark(Mark::Equal),
            TokenKind::Mark(Mark::NotEqual),
        ],
        Precedence::Order => &[
            TokenKind::Mark(Mark::Less),
            TokenKind::Mark(Mark::LessEqual),
            TokenKind::Mark(Mark::Greater),
            TokenKind::Mark(Mark::GreaterEqual),
        ],
        Precedence::Sum => &[TokenKind::Mark(Mark::Plus), TokenKind::Mark(Mark::Minus)],
        Precedence::Product => &[
            TokenKind::Mark(Mark::Star),
            TokenKind::Mark(Mark::Slash),
            TokenKind::Mark(Mark::Percent),
        ],
    }
}

fn operator_by(tokens: &mut Cursor<'_>, mark: Mark, op: BinaryOp) -> Result<BinaryOp, Fault>
    ensures { Gives (read.operator_by mark op tokens.old) result tokens.new }
{
    tokens.mark(mark)?;
    Ok(op)
}

#[tactic(auto, unfolding(cc_grammar::specs::ReadExpressions::equality_operator))]
fn equality_operator(tokens: &mut Cursor<'_>) -> Result<BinaryOp, Fault>
    ensures { Gives (read.equality_operator tokens.old) result tokens.new }
{
    if tokens.at_mark(Mark::Equal) {
        return operator_by(tokens, Mark::Equal, BinaryOp::Eq);
    }
    operator_by(tokens, Mark::NotEqual, BinaryOp::Ne)
}

#[tactic(auto, unfolding(cc_grammar::specs::ReadExpressions::order_operator))]
fn order_operator(tokens: &mut Cursor<'_>) -> Result<BinaryOp, Fault>
    ensures { Gives (read.order_operator tokens.old) result tokens.new }
{
    if tokens.at_mark(Mark::Less) {
        return operator_by(tokens, Mark::Less, BinaryOp::Lt);
    }
    if tokens.at_mark(Mark::LessEqual) {
        return operator_by(tokens, Mark::LessEqual, BinaryOp::Le);
    }
    if tokens.at_mark(Mark::Greater) {
        return operator_by(tokens, Mark::Greater, BinaryOp::Gt);
    }
    operator_by(tokens, Mark::GreaterEqual, BinaryOp::Ge)
}

#[tactic(auto, unfolding(cc_grammar::specs::ReadExpressions::sum_operator))]
fn sum_operator(tokens: &mut Cursor<'_>) -> Result<BinaryOp, Fault>
    ensures { Gives (read.sum_operator tokens.old) result tokens.new }
{
    if tokens.at_mark(Mark::Plus) {
        return operator_by(tokens, Mark::Plus, BinaryOp::Add);
    }
    operator_by(tokens, Mark::Minus, BinaryOp::Sub)
}

#[tactic(auto, unfolding(cc_grammar::specs::ReadExpressions::product_operator))]
fn product_operator(tokens: &mut Cursor<'_>) -> Result<BinaryOp, Fault>
    ensures { Gives (read.product_operator tokens.old) result tokens.new }
{
    if tokens.at_mark(Mark::Star) {
        return operator_by(tokens, Mark::Star, BinaryOp::Mul);
    }
    if tokens.at_mark(Mark::Slash) {
        return operator_by(tokens, Mark::Slash, BinaryOp::Div);
    }
    operator_by(tokens, Mark::Percent, BinaryOp::Rem)
}

/// An operator that binds so tightly.
#[tactic(auto, unfolding(cc_grammar::specs::ReadExpressions::operator))]
fn operator(tokens: &mut Cursor<'_>, precedence: Precedence) -> Result<BinaryOp, Fault>
    ensures { Gives (read.operator precedence tokens.old) result tokens.new }
{
    match precedence {
        Precedence::Or => operator_by(tokens, Mark::Or, BinaryOp::Or),
        Precedence::And => operator_by(tokens, Mark::And, BinaryOp::And),
        Precedence::Equality => equality_operator(tokens),
        Precedence::Order => order_operator(tokens),
        Precedence::Sum => sum_operator(tokens),
        Precedence::Product => product_operator(tokens),
    }
}

/// Operands with operators of one precedence between them.
#[tactic(auto, unfolding(cc_grammar::specs::ReadExpressions::links, cc_grammar::specs::ReadExpressions::link))]
pub fn level<P: Fn(&mut Cursor<'_>) -> Result<Expr, Fault>>(
    alloc: Global,
    tokens: &mut Cursor<'_>,
    precedence: Precedence,
    operand: P,
) -> Result<Expr, Fault>
    requires { P.IsAlwaysCallable operand }
    ensures { (reader : Reader Expr) → ReadsBy (P.post operand) reader → Gives (read.level precedence reader tokens.old) result tokens.new }
{
    let first = operand(tokens)?;
    let rest = many(
        alloc,
        tokens,
        operators(precedence),
        |tokens: &mut Cursor<'_>| -> Result<Link, Fault>
            requires { P.IsAlwaysCallable operand }
            ensures { (reader : Reader Expr) → ReadsBy (P.post operand) reader → Gives (read.link precedence reader tokens.old) result tokens.new }
        {
            let op = operator(tokens, precedence)?;
            let part = operand(tokens)?;
            Ok(Link { op, part })
        },
    )?;
    Ok(chained(alloc, first, rest)?)
}
