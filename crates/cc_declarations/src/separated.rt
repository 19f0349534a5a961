ghost use Rattle.cc_grammar.specs.Reading.{Gives, Reader};
ghost use Rattle.cc_expressions.specs.Parts.{ReadsBy};
ghost use Rattle.cc_declarations.specs.Separated as read;

use cc_expressions::{Cursor, commas, with_front};
use cc_grammar::Fault;
use ccpp_edge::List;
use std::alloc::Global;

/// Parts between commas, of which there is at least one.
#[tactic(auto, unfolding(crate::specs::Separated::separated))]
pub fn separated<T: Drop, P: Fn(&mut Cursor<'_>) -> Result<T, Fault>>(
    alloc: Global,
    tokens: &mut Cursor<'_>,
    part: P,
) -> Result<List<T>, Fault>
    requires { P.IsAlwaysCallable part }
    ensures { (reader : Reader T) → ReadsBy (P.post part) reader → Gives (read.separated reader tokens.old) result tokens.new }
{
    let first = part(tokens)?;
    let rest = commas(alloc, tokens, part)?;
    Ok(with_front(alloc, first, rest)?)
}
