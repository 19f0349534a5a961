//! Repetitions.

ghost use Rattle.std.specs.Prelude.{List as ListOf};
ghost use Rattle.cc_grammar.specs.Kinds.{kinds};
ghost use Rattle.cc_grammar.specs.Reading.{Gives, Reader};
ghost use Rattle.cc_grammar.specs.Reading as reading;
ghost use Rattle.cc_grammar.specs.ReadExpressions as read;
ghost use Rattle.cc_expressions.specs.Parts.{ReadsBy};

use crate::cursor::Cursor;
use crate::nodes::with_front;
use cc_grammar::Fault;
use cc_lexer::{Mark, TokenKind};
use ccpp_edge::List;
use std::alloc::Global;

/// As many parts as there are, while a token of one of these kinds comes next.
#[tactic(auto, using(crate::proofs::RepeatLaws::repeat_starts, crate::proofs::RepeatLaws::repeat_stops, crate::proofs::RepeatLaws::repeat_ends, crate::proofs::RepeatLaws::repeat_fails, crate::proofs::RepeatLaws::repeat_goes))]
pub fn many<T: Drop, P: Fn(&mut Cursor<'_>) -> Result<T, Fault>>(
    alloc: Global,
    tokens: &mut Cursor<'_>,
    first: &[TokenKind],
    part: P,
) -> Result<List<T>, Fault>
    requires { P.IsAlwaysCallable part }
    ensures { (reader : Reader T) → ReadsBy (P.post part) reader → Gives (reading.many (kinds first.now) reader tokens.old) result tokens.new }
{
    let mut found = List::new(alloc);
    for _turn in 0..tokens.left() {
        if !tokens.at_any(first) {
            return Ok(found);
        }
        found.push(part(tokens)?)?;
    }
    Ok(found)
}

/// The same of parts that are lists, whose lists are put together.
#[tactic(auto, using(crate::proofs::FlatLaws::flat_starts, crate::proofs::FlatLaws::flat_stops, crate::proofs::FlatLaws::flat_ends, crate::proofs::FlatLaws::flat_fails, crate::proofs::FlatLaws::flat_goes))]
pub fn flat<T: Drop, P: Fn(&mut Cursor<'_>) -> Result<List<T>, Fault>>(
    alloc: Global,
    tokens: &mut Cursor<'_>,
    first: &[TokenKind],
    part: P,
) -> Result<List<T>, Fault>
    requires { P.IsAlwaysCallable part }
    ensures { (reader : Reader (ListOf T)) → ReadsBy (P.post part) reader → Gives (reading.flat (kinds first.now) reader tokens.old) result tokens.new }
{
    let mut found = List::new(alloc);
    for _turn in 0..tokens.left() {
        if !tokens.at_any(first) {
            return Ok(found);
        }
        found.append(part(tokens)?)?;
    }
    Ok(found)
}

/// As many parts as there are, each behind a comma.
#[tactic(auto, unfolding(cc_grammar::specs::ReadExpressions::commas, cc_grammar::specs::ReadExpressions::after_comma))]
pub fn commas<T: Drop, P: Fn(&mut Cursor<'_>) -> Result<T, Fault>>(
    alloc: Global,
    tokens: &mut Cursor<'_>,
    part: P,
) -> Result<List<T>, Fault>
    requires { P.IsAlwaysCallable part }
    ensures { (reader : Reader T) → ReadsBy (P.post part) reader → Gives (read.commas reader tokens.old) result tokens.new }
{
    many(
        alloc,
        tokens,
        &[TokenKind::Mark(Mark::Comma)],
        |tokens: &mut Cursor<'_>| -> Result<T, Fault>
            requires { P.IsAlwaysCallable part }
            ensures { (reader : Reader T) → ReadsBy (P.post part) reader → Gives (read.after_comma reader tokens.old) result tokens.new }
        {
            tokens.mark(Mark::Comma)?;
            part(tokens)
        },
    )
}

/// Parts between commas, or none where a token of none of these kinds comes next.
#[tactic(auto, unfolding(cc_grammar::specs::ReadExpressions::listed))]
pub fn listed<T: Drop, P: Fn(&mut Cursor<'_>) -> Result<T, Fault>>(
    alloc: Global,
    tokens: &mut Cursor<'_>,
    first: &[TokenKind],
    part: P,
) -> Result<List<T>, Fault>
    requires { P.IsAlwaysCallable part }
    ensures { (reader : Reader T) → ReadsBy (P.post part) reader → Gives (read.listed (kinds first.now) reader tokens.old) result tokens.new }
{
    if !tokens.at_any(first) {
        return Ok(List::new(alloc));
    }
    let first = part(tokens)?;
    let rest = commas(alloc, tokens, part)?;
    Ok(with_front(alloc, first, rest)?)
}
