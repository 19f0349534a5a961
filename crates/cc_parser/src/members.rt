//! What stands within a class.

ghost use Rattle.std.specs.Prelude.{◌≡◌, pred};
ghost use Rattle.cc_grammar.specs.Reading.{Gives, choose, at_mark};
ghost use Rattle.cc_grammar.specs.ReadExpressions.{commas};
ghost use Rattle.cc_grammar.specs.ReadItems as read;
ghost use Rattle.cc_lexer.specs.declared.token.Mark.TheVariants as mark;

use crate::functions::{function, function_end};
use crate::nodes::{alone, atomic_of, build_of, field_of};
use cc_declarations::{maybe_star, params, slot, slot_of, spec};
use cc_expressions::{Cursor, Terms, commas, flat, with_front};
use cc_grammar::{Fault, Name, Pointer, Spec};
use cc_lexer::{Keyword, Mark, TokenKind};
use cc_statements::block_at;
use cc_tree::Member;
use ccpp_edge::List;
use std::alloc::Global;

const FIRST_LABEL: [TokenKind; 2] = [
    TokenKind::Word(Keyword::Public),
    TokenKind::Word(Keyword::Private),
];

const FIRST_MEMBER: [TokenKind; 7] = [
    TokenKind::Word(Keyword::Public),
    TokenKind::Word(Keyword::Private),
    TokenKind::Word(Keyword::Atomic),
    TokenKind::Word(Keyword::Int),
    TokenKind::Word(Keyword::Sync),
    TokenKind::Word(Keyword::Void),
    TokenKind::Name,
];

#[tactic(auto, unfolding(cc_grammar::specs::ReadItems::label_word))]
fn label_word(tokens: &mut Cursor<'_>) -> Result<u32, Fault>
    ensures { Gives (read.label_word tokens.old) result tokens.new }
{
    if tokens.at_word(Keyword::Public) {
        return tokens.word(Keyword::Public);
    }
    tokens.word(Keyword::Private)
}

/// `public:` or `private:`, which is no member.
#[tactic(auto, unfolding(cc_grammar::specs::ReadItems::label))]
fn label(alloc: Global, tokens: &mut Cursor<'_>) -> Result<List<Member>, Fault>
    ensures { Gives (read.label tokens.old) result tokens.new }
{
    label_word(tokens)?;
    tokens.mark(Mark::Colon)?;
    Ok(List::new(alloc))
}

/// A constructor.
#[tactic(auto, unfolding(cc_grammar::specs::ReadItems::build))]
fn build(terms: Terms, tokens: &mut Cursor<'_>) -> Result<List<Member>, Fault>
    ensures { Gives (read.build terms.depth tokens.old) result tokens.new }
{
    let name = tokens.name(terms.alloc)?;
    let params = params(terms, tokens)?;
    let body = block_at(terms, tokens)?;
    Ok(alone(terms.alloc, build_of(name, params, body))?)
}

/// A function behind the word `atomic`.
#[tactic(auto, unfolding(cc_grammar::specs::ReadItems::atomic_method))]
fn atomic_method(terms: Terms, tokens: &mut Cursor<'_>) -> Result<List<Member>, Fault>
    ensures { Gives (read.atomic_method terms.depth tokens.old) result tokens.new }
{
    let line = tokens.word(Keyword::Atomic)?;
    let function = function(terms, tokens)?;
    Ok(alone(terms.alloc, Member::Func(atomic_of(line, function)))?)
}

/// One more field of a line, of which the type's first word is shared.
#[tactic(auto, unfolding(cc_grammar::specs::ReadItems::field))]
fn field(terms: Terms, tokens: &mut Cursor<'_>, spec: &Spec) -> Result<Member, Fault>
    ensures { Gives (read.field terms.depth spec.now tokens.old) result tokens.new }
{
    let slot = slot(terms, tokens)?;
    Ok(field_of(terms.alloc, spec, slot)?)
}

/// The other fields of a line, each behind a comma.
fn more_fields(terms: Terms, tokens: &mut Cursor<'_>, spec: &Spec) -> Result<List<Member>, Fault>
    ensures { Gives (commas (read.field terms.depth spec.now) tokens.old) result tokens.new }
{
    commas(
        terms.alloc,
        tokens,
        |tokens: &mut Cursor<'_>| -> Result<Member, Fault>
            ensures { Gives (read.field terms.depth spec.entry.now tokens.old) result tokens.new }
        { field(terms, tokens, spec) },
    )
}

/// What follows the name of the first field of a line.
#[tactic(auto, unfolding(cc_grammar::specs::ReadItems::fields_end))]
fn fields_end(
    terms: Terms,
    tokens: &mut Cursor<'_>,
    spec: Spec,
    pointer: Pointer,
    name: Name,
) -> Result<List<Member>, Fault>
    ensures { Gives (read.fields_end terms.depth spec pointer name tokens.old) result tokens.new }
{
    let length = terms.maybe_bracketed(tokens)?;
    let rest = more_fields(terms, tokens, &spec)?;
    tokens.mark(Mark::Semicolon)?;
    let first = field_of(terms.alloc, &spec, slot_of(pointer, name, length))?;
    Ok(with_front(terms.alloc, first, rest)?)
}

/// What follows the name of a function of a class.
#[tactic(auto, unfolding(cc_grammar::specs::ReadItems::method_end))]
fn method_end(
    terms: Terms,
    tokens: &mut Cursor<'_>,
    spec: Spec,
    pointer: Pointer,
    name: Name,
) -> Result<List<Member>, Fault>
    ensures { Gives (read.method_end terms.depth spec pointer name tokens.old) result tokens.new }
{
    let function = function_end(terms, tokens, spec, pointer, name)?;
    Ok(alone(terms.alloc, Member::Func(function))?)
}

fn typed_end(
    terms: Terms,
    tokens: &mut Cursor<'_>,
    spec: Spec,
    pointer: Pointer,
    name: Name,
) -> Result<List<Member>, Fault>
    ensures { Gives (choose (at_mark mark.OpenParen) (read.method_end terms.depth spec pointer name) (read.fields_end terms.depth spec pointer name) tokens.old) result tokens.new }
{
    if tokens.at_mark(Mark::OpenParen) {
        return method_end(terms, tokens, spec, pointer, name);
    }
    fields_end(terms, tokens, spec, pointer, name)
}

/// A function or a line of fields, which begin alike.
#[tactic(auto, unfolding(cc_grammar::specs::ReadItems::typed_member))]
fn typed_member(terms: Terms, tokens: &mut Cursor<'_>) -> Result<List<Member>, Fault>
    ensures { Gives (read.typed_member terms.depth tokens.old) result tokens.new }
{
    let spec = spec(terms.alloc, tokens)?;
    let pointer = maybe_star(tokens)?;
    let name = tokens.name(terms.alloc)?;
    typed_end(terms, tokens, spec, pointer, name)
}

/// Whether a constructor begins here: a name and then a `(`.
fn begins_build(tokens: &Cursor<'_>) -> bool
    ensures { result ≡ read.begins_build tokens.now }
{
    tokens.at(TokenKind::Name) && tokens.at_second(&[TokenKind::Mark(Mark::OpenParen)])
}

#[tactic(auto, unfolding(cc_grammar::specs::ReadItems::plain_member))]
fn plain_member(terms: Terms, tokens: &mut Cursor<'_>) -> Result<List<Member>, Fault>
    ensures { Gives (read.plain_member terms.depth tokens.old) result tokens.new }
{
    if begins_build(tokens) {
        return build(terms, tokens);
    }
    typed_member(terms, tokens)
}

/// The members that one line of the grammar stands for: of a line of fields, one for each name.
#[tactic(auto, unfolding(cc_grammar::specs::ReadItems::member))]
fn member(terms: Terms, tokens: &mut Cursor<'_>) -> Result<List<Member>, Fault>
    ensures { Gives (read.member terms.depth tokens.old) result tokens.new }
{
    if tokens.at_any(&FIRST_LABEL) {
        return label(terms.alloc, tokens);
    }
    if tokens.at_word(Keyword::Atomic) {
        return atomic_method(terms, tokens);
    }
    plain_member(terms, tokens)
}

#[tactic(auto, unfolding(cc_grammar::specs::ReadItems::member_list))]
fn member_list(terms: Terms, tokens: &mut Cursor<'_>) -> Result<List<Member>, Fault>
    ensures { Gives (read.member_list terms.depth tokens.old) result tokens.new }
{
    flat(
        terms.alloc,
        tokens,
        &FIRST_MEMBER,
        |tokens| member(terms, tokens),
    )
}

/// What may be read within a level that is open.
fn within(terms: Terms) -> Terms
    ensures { result.depth ≡ pred terms.depth }
{
    Terms {
        alloc: terms.alloc,
        depth: terms.depth.saturating_sub(1),
    }
}

/// The members of a class, in braces.
#[tactic(auto, unfolding(cc_grammar::specs::ReadItems::members))]
pub fn members(terms: Terms, tokens: &mut Cursor<'_>) -> Result<List<Member>, Fault>
    ensures { Gives (read.members terms.depth tokens.old) result tokens.new }
{
    tokens.open_mark(terms.depth, Mark::OpenBrace)?;
    let members = member_list(within(terms), tokens)?;
    tokens.mark(Mark::CloseBrace)?;
    Ok(members)
}
