//! Types, parameters, and declarations of variables.

ghost use Rattle.std.specs.Prelude.{◌≡◌, [], ◌∷◌};
ghost use Rattle.cc_grammar.specs.Reading.{Gives};
ghost use Rattle.cc_grammar.specs.ReadDeclarations as read;
ghost use Rattle.cc_declarations.specs.Separated.{separated};

use crate::nodes::{declared, param_of, slot_of};
use crate::separated::separated;
use cc_expressions::{Cursor, Terms, listed};
use cc_grammar::{Fault, Name, Pointer, Slot, Spec};
use cc_lexer::{Keyword, Mark, TokenKind};
use cc_tree::{Base, Param, Start, Stmt};
use ccpp_edge::List;
use std::alloc::Global;

const FIRST_SPEC: [TokenKind; 4] = [
    TokenKind::Word(Keyword::Int),
    TokenKind::Word(Keyword::Sync),
    TokenKind::Word(Keyword::Void),
    TokenKind::Name,
];

#[tactic(auto, unfolding(cc_grammar::specs::ReadDeclarations::int_spec))]
fn int_spec(tokens: &mut Cursor<'_>) -> Result<Spec, Fault>
    ensures { Gives (read.int_spec tokens.old) result tokens.new }
{
    let line = tokens.word(Keyword::Int)?;
    let base = Base::Int;
    Ok(Spec { base, line })
}

#[tactic(auto, unfolding(cc_grammar::specs::ReadDeclarations::sync_spec))]
fn sync_spec(tokens: &mut Cursor<'_>) -> Result<Spec, Fault>
    ensures { Gives (read.sync_spec tokens.old) result tokens.new }
{
    let line = tokens.word(Keyword::Sync)?;
    tokens.word(Keyword::Int)?;
    let base = Base::SyncInt;
    Ok(Spec { base, line })
}

#[tactic(auto, unfolding(cc_grammar::specs::ReadDeclarations::void_spec))]
fn void_spec(tokens: &mut Cursor<'_>) -> Result<Spec, Fault>
    ensures { Gives (read.void_spec tokens.old) result tokens.new }
{
    let line = tokens.word(Keyword::Void)?;
    let base = Base::Void;
    Ok(Spec { base, line })
}

#[tactic(auto, unfolding(cc_grammar::specs::ReadDeclarations::named_spec))]
fn named_spec(alloc: Global, tokens: &mut Cursor<'_>) -> Result<Spec, Fault>
    ensures { Gives (read.named_spec tokens.old) result tokens.new }
{
    let Name { text, line } = tokens.name(alloc)?;
    let base = Base::Named(text);
    Ok(Spec { base, line })
}

/// What a type begins with.
#[tactic(auto, unfolding(cc_grammar::specs::ReadDeclarations::spec))]
pub fn spec(alloc: Global, tokens: &mut Cursor<'_>) -> Result<Spec, Fault>
    ensures { Gives (read.spec tokens.old) result tokens.new }
{
    if tokens.at_word(Keyword::Int) {
        return int_spec(tokens);
    }
    if tokens.at_word(Keyword::Sync) {
        return sync_spec(tokens);
    }
    if tokens.at_word(Keyword::Void) {
        return void_spec(tokens);
    }
    named_spec(alloc, tokens)
}

const NO_POINTER: Pointer = Pointer {
    star: false,
    remote: false,
    once: false,
};

#[tactic(auto, unfolding(cc_grammar::specs::ReadDeclarations::global_pointer))]
fn global_pointer(tokens: &mut Cursor<'_>) -> Result<Pointer, Fault>
    ensures { Gives (read.global_pointer tokens.old) result tokens.new }
{
    tokens.word(Keyword::Global)?;
    let once = tokens.has_word(Keyword::Sync)?;
    Ok(Pointer {
        star: true,
        remote: true,
        once,
    })
}

#[tactic(auto, unfolding(cc_grammar::specs::ReadDeclarations::sync_pointer))]
fn sync_pointer(tokens: &mut Cursor<'_>) -> Result<Pointer, Fault>
    ensures { Gives (read.sync_pointer tokens.old) result tokens.new }
{
    tokens.word(Keyword::Sync)?;
    let remote = tokens.has_word(Keyword::Global)?;
    Ok(Pointer {
        star: true,
        remote,
        once: true,
    })
}

#[tactic(auto, unfolding(cc_grammar::specs::ReadDeclarations::star))]
fn star(tokens: &mut Cursor<'_>) -> Result<Pointer, Fault>
    ensures { Gives (read.star tokens.old) result tokens.new }
{
    tokens.mark(Mark::Star)?;
    if tokens.at_word(Keyword::Global) {
        return global_pointer(tokens);
    }
    if tokens.at_word(Keyword::Sync) {
        return sync_pointer(tokens);
    }
    Ok(Pointer {
        star: true,
        remote: false,
        once: false,
    })
}

/// A `*` with what may follow it, or nothing.
#[tactic(auto, unfolding(cc_grammar::specs::ReadDeclarations::maybe_star))]
pub fn maybe_star(tokens: &mut Cursor<'_>) -> Result<Pointer, Fault>
    ensures { Gives (read.maybe_star tokens.old) result tokens.new }
{
    if tokens.at_mark(Mark::Star) {
        return star(tokens);
    }
    Ok(NO_POINTER)
}

#[tactic(auto, unfolding(cc_grammar::specs::ReadDeclarations::param))]
fn param(alloc: Global, tokens: &mut Cursor<'_>) -> Result<Param, Fault>
    ensures { Gives (read.param tokens.old) result tokens.new }
{
    let spec = spec(alloc, tokens)?;
    let pointer = maybe_star(tokens)?;
    let name = tokens.name(alloc)?;
    Ok(param_of(spec, pointer, name))
}

/// Parameters in parentheses.
#[tactic(auto, unfolding(cc_grammar::specs::ReadDeclarations::params))]
pub fn params(terms: Terms, tokens: &mut Cursor<'_>) -> Result<List<Param>, Fault>
    ensures { Gives (read.params terms.depth tokens.old) result tokens.new }
{
    tokens.open_mark(terms.depth, Mark::OpenParen)?;
    let params = listed(
        terms.alloc,
        tokens,
        &FIRST_SPEC,
        |tokens| param(terms.alloc, tokens),
    )?;
    tokens.mark(Mark::CloseParen)?;
    Ok(params)
}

/// A declared name with what stands before it and the length of an array.
#[tactic(auto, unfolding(cc_grammar::specs::ReadDeclarations::slot))]
pub fn slot(terms: Terms, tokens: &mut Cursor<'_>) -> Result<Slot, Fault>
    ensures { Gives (read.slot terms.depth tokens.old) result tokens.new }
{
    let pointer = maybe_star(tokens)?;
    let Name { text: name, .. } = tokens.name(terms.alloc)?;
    let length = terms.maybe_bracketed(tokens)?;
    Ok(Slot {
        pointer,
        name,
        length,
    })
}

/// What follows the name of a variable that starts with a value.
#[tactic(auto, unfolding(cc_grammar::specs::ReadDeclarations::valued))]
fn valued(
    terms: Terms,
    tokens: &mut Cursor<'_>,
    spec: &Spec,
    pointer: Pointer,
    name: Name,
) -> Result<Stmt, Fault>
    ensures { Gives (read.valued terms.depth spec.now pointer name tokens.old) result tokens.new }
{
    tokens.mark(Mark::Assign)?;
    let value = terms.expr(tokens)?;
    let slot = slot_of(pointer, name, None);
    Ok(declared(terms.alloc, spec, slot, Start::Value(value))?)
}

/// What follows the name of a variable that starts with arguments.
#[tactic(auto, unfolding(cc_grammar::specs::ReadDeclarations::built))]
fn built(
    terms: Terms,
    tokens: &mut Cursor<'_>,
    spec: &Spec,
    pointer: Pointer,
    name: Name,
) -> Result<Stmt, Fault>
    ensures { Gives (read.built terms.depth spec.now pointer name tokens.old) result tokens.new }
{
    let args = terms.args(tokens)?;
    let slot = slot_of(pointer, name, None);
    Ok(declared(terms.alloc, spec, slot, Start::Args(args))?)
}

/// What follows the name of a variable that starts with nothing.
#[tactic(auto, unfolding(cc_grammar::specs::ReadDeclarations::plain_var))]
fn plain_var(
    terms: Terms,
    tokens: &mut Cursor<'_>,
    spec: &Spec,
    pointer: Pointer,
    name: Name,
) -> Result<Stmt, Fault>
    ensures { Gives (read.plain_var terms.depth spec.now pointer name tokens.old) result tokens.new }
{
    let length = terms.maybe_bracketed(tokens)?;
    let slot = slot_of(pointer, name, length);
    Ok(declared(terms.alloc, spec, slot, Start::Nothing)?)
}

#[tactic(auto, unfolding(cc_grammar::specs::ReadDeclarations::var_end))]
fn var_end(
    terms: Terms,
    tokens: &mut Cursor<'_>,
    spec: &Spec,
    pointer: Pointer,
    name: Name,
) -> Result<Stmt, Fault>
    ensures { Gives (read.var_end terms.depth spec.now pointer name tokens.old) result tokens.new }
{
    if tokens.at_mark(Mark::Assign) {
        return valued(terms, tokens, spec, pointer, name);
    }
    if tokens.at_mark(Mark::OpenParen) {
        return built(terms, tokens, spec, pointer, name);
    }
    plain_var(terms, tokens, spec, pointer, name)
}

/// One variable of a declaration, of which the type is shared.
#[tactic(auto, unfolding(cc_grammar::specs::ReadDeclarations::var))]
fn var(terms: Terms, tokens: &mut Cursor<'_>, spec: &Spec) -> Result<Stmt, Fault>
    ensures { Gives (read.var terms.depth spec.now tokens.old) result tokens.new }
{
    let pointer = maybe_star(tokens)?;
    let name = tokens.name(terms.alloc)?;
    var_end(terms, tokens, spec, pointer, name)
}

/// The variables of a declaration, of which the type's first word is shared.
fn vars(terms: Terms, tokens: &mut Cursor<'_>, spec: &Spec) -> Result<List<Stmt>, Fault>
    ensures { Gives (separated (read.var terms.depth spec.now) tokens.old) result tokens.new }
{
    separated(
        terms.alloc,
        tokens,
        |tokens: &mut Cursor<'_>| -> Result<Stmt, Fault>
            ensures { Gives (read.var terms.depth spec.entry.now tokens.old) result tokens.new }
        { var(terms, tokens, spec) },
    )
}

/// A declaration, as one statement for each variable.
#[tactic(auto, unfolding(cc_grammar::specs::ReadDeclarations::decl, crate::specs::Separated::separated))]
pub fn decl(terms: Terms, tokens: &mut Cursor<'_>) -> Result<List<Stmt>, Fault>
    ensures { Gives (read.decl terms.depth tokens.old) result tokens.new }
{
    let spec = spec(terms.alloc, tokens)?;
    vars(terms, tokens, &spec)
}

/// Whether a declaration begins here: a word of a type, or a name and then a `*` or a name.
pub fn begins_decl(tokens: &Cursor<'_>) -> bool
    ensures { result ≡ read.begins_decl tokens.now }
{
    tokens.at_any(&[
        TokenKind::Word(Keyword::Int),
        TokenKind::Word(Keyword::Sync),
        TokenKind::Word(Keyword::Void),
    ]) || (tokens.at(TokenKind::Name)
        && tokens.at_second(&[TokenKind::Mark(Mark::Star), TokenKind::Name]))
}
