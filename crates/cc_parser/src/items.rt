//! What stands at the level of the file.

ghost use Rattle.std.specs.Prelude.{◌≡◌};
ghost use Rattle.cc_grammar.specs.Reading.{Gives};
ghost use Rattle.cc_grammar.specs.ReadItems as read;

use crate::functions::function;
use crate::members::members;
use cc_expressions::{Cursor, Terms, many};
use cc_grammar::{Fault, Name};
use cc_lexer::{Keyword, Mark, TokenKind};
use cc_statements::{expr_semicolon, int_name};
use cc_tree::{ClassDecl, Item, Program};
use ccpp_edge::List;

const FIRST_CLASS: [TokenKind; 3] = [
    TokenKind::Word(Keyword::Global),
    TokenKind::Word(Keyword::Class),
    TokenKind::Word(Keyword::Struct),
];

const FIRST_ITEM: [TokenKind; 8] = [
    TokenKind::Word(Keyword::Const),
    TokenKind::Word(Keyword::Global),
    TokenKind::Word(Keyword::Class),
    TokenKind::Word(Keyword::Struct),
    TokenKind::Word(Keyword::Int),
    TokenKind::Word(Keyword::Sync),
    TokenKind::Word(Keyword::Void),
    TokenKind::Name,
];

/// A named number.
#[tactic(auto, unfolding(cc_grammar::specs::ReadItems::constant))]
fn constant(terms: Terms, tokens: &mut Cursor<'_>) -> Result<Item, Fault>
    ensures { Gives (read.constant terms.depth tokens.old) result tokens.new }
{
    let line = tokens.word(Keyword::Const)?;
    let Name { text: name, .. } = int_name(terms.alloc, tokens)?;
    let value = expr_semicolon(terms, tokens)?;
    Ok(Item::Const { name, value, line })
}

#[tactic(auto, unfolding(cc_grammar::specs::ReadItems::class_word))]
fn class_word(tokens: &mut Cursor<'_>) -> Result<u32, Fault>
    ensures { Gives (read.class_word tokens.old) result tokens.new }
{
    if tokens.at_word(Keyword::Class) {
        return tokens.word(Keyword::Class);
    }
    tokens.word(Keyword::Struct)
}

#[tactic(auto, unfolding(cc_grammar::specs::ReadItems::global_head))]
fn global_head(tokens: &mut Cursor<'_>) -> Result<(bool, u32), Fault>
    ensures { Gives (read.global_head tokens.old) result tokens.new }
{
    let line = tokens.word(Keyword::Global)?;
    class_word(tokens)?;
    Ok((true, line))
}

#[tactic(auto, unfolding(cc_grammar::specs::ReadItems::local_head))]
fn local_head(tokens: &mut Cursor<'_>) -> Result<(bool, u32), Fault>
    ensures { Gives (read.local_head tokens.old) result tokens.new }
{
    let line = class_word(tokens)?;
    Ok((false, line))
}

/// The words before the name of a class: whether `global` is among them, and the line of the first.
#[tactic(auto, unfolding(cc_grammar::specs::ReadItems::class_head))]
fn class_head(tokens: &mut Cursor<'_>) -> Result<(bool, u32), Fault>
    ensures { Gives (read.class_head tokens.old) result tokens.new }
{
    if tokens.at_word(Keyword::Global) {
        return global_head(tokens);
    }
    local_head(tokens)
}

/// A class.
#[tactic(auto, unfolding(cc_grammar::specs::ReadItems::class))]
fn class(terms: Terms, tokens: &mut Cursor<'_>) -> Result<Item, Fault>
    ensures { Gives (read.class terms.depth tokens.old) result tokens.new }
{
    let (remote, line) = class_head(tokens)?;
    let Name { text: name, .. } = tokens.name(terms.alloc)?;
    let members = members(terms, tokens)?;
    tokens.mark(Mark::Semicolon)?;
    Ok(Item::Class(ClassDecl {
        name,
        remote,
        members,
        line,
    }))
}

#[tactic(auto, unfolding(cc_grammar::specs::ReadItems::function_item))]
fn function_item(terms: Terms, tokens: &mut Cursor<'_>) -> Result<Item, Fault>
    ensures { Gives (read.function_item terms.depth tokens.old) result tokens.new }
{
    Ok(Item::Func(function(terms, tokens)?))
}

/// An item.
#[tactic(auto, unfolding(cc_grammar::specs::ReadItems::item))]
fn item(terms: Terms, tokens: &mut Cursor<'_>) -> Result<Item, Fault>
    ensures { Gives (read.item terms.depth tokens.old) result tokens.new }
{
    if tokens.at_word(Keyword::Const) {
        return constant(terms, tokens);
    }
    if tokens.at_any(&FIRST_CLASS) {
        return class(terms, tokens);
    }
    function_item(terms, tokens)
}

#[tactic(auto, unfolding(cc_grammar::specs::ReadItems::items))]
fn items(terms: Terms, tokens: &mut Cursor<'_>) -> Result<List<Item>, Fault>
    ensures { Gives (read.items terms.depth tokens.old) result tokens.new }
{
    many(
        terms.alloc,
        tokens,
        &FIRST_ITEM,
        |tokens| item(terms, tokens),
    )
}

/// As many items as stand here.
#[tactic(auto, unfolding(cc_grammar::specs::ReadItems::program))]
pub fn program(terms: Terms, tokens: &mut Cursor<'_>) -> Result<Program, Fault>
    ensures { Gives (read.program terms.depth tokens.old) result tokens.new }
{
    let items = items(terms, tokens)?;
    Ok(Program { items })
}
