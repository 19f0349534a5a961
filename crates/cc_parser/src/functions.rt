//! Functions.

ghost use Rattle.std.specs.Prelude.{◌≡◌};
ghost use Rattle.cc_grammar.specs.Reading.{Gives};
ghost use Rattle.cc_grammar.specs.ReadItems as read;

use crate::nodes::function_of;
use cc_declarations::{maybe_star, params, spec};
use cc_expressions::{Cursor, Terms};
use cc_grammar::{Fault, Name, Pointer, Spec};
use cc_statements::block_at;
use cc_tree::Function;

/// What follows the name of a function.
#[tactic(auto, unfolding(cc_grammar::specs::ReadItems::function_end))]
pub fn function_end(
    terms: Terms,
    tokens: &mut Cursor<'_>,
    spec: Spec,
    pointer: Pointer,
    name: Name,
) -> Result<Function, Fault>
    ensures { Gives (read.function_end terms.depth spec pointer name tokens.old) result tokens.new }
{
    let params = params(terms, tokens)?;
    let body = block_at(terms, tokens)?;
    Ok(function_of(spec, pointer, name, params, body))
}

/// A function.
#[tactic(auto, unfolding(cc_grammar::specs::ReadItems::function))]
pub fn function(terms: Terms, tokens: &mut Cursor<'_>) -> Result<Function, Fault>
    ensures { Gives (read.function terms.depth tokens.old) result tokens.new }
{
    let spec = spec(terms.alloc, tokens)?;
    let pointer = maybe_star(tokens)?;
    let name = tokens.name(terms.alloc)?;
    function_end(terms, tokens, spec, pointer, name)
}
