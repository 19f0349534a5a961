ghost use Rattle.std.specs.Prelude.{◌≡◌, ◌↔◌, ◌≤◌, ◌+◌, length, find};
ghost use Rattle.std.specs.Str.{bytes_eq};
ghost use Rattle.std.specs.List.{prefix_len};
ghost use Rattle.cc_lexer.specs.Spelling.{is_word_byte, keyword_text};
ghost use Rattle.cc_lexer.specs.Keywords.{keywords_of_length};
ghost use Rattle.cc_lexer.specs.Cut.{longest_text};
ghost use Rattle.cc_lexer.specs.Next.{class_at, IsNext};
ghost use Rattle.cc_lexer.specs.declared.class.Class.{Class};
ghost use Rattle.cc_lexer.specs.declared.token.Keyword.{Keyword};

use crate::fault::{LexFault, place};
use crate::piece::Piece;
use crate::token::{Keyword, TokenKind};

/// The most bytes of a name.
const MAX_NAME: usize = 255;

/// A keyword or a name.
pub fn word(before: &[u8], here: &[u8]) -> Result<Piece, LexFault>
    requires short { length before.now + length here.now ≤ longest_text }
    requires class { class_at here.now ≡ Class.Letter }
    ensures { IsNext before.now here.now result }
{
    let length = word_length(here);
    match keyword(&here[..length]) {
        Some(word) => Ok(Piece::Token {
            kind: TokenKind::Word(word),
            length,
        }),
        None if length > MAX_NAME => Err(LexFault::LongName { at: place(before) }),
        None => Ok(Piece::Token {
            kind: TokenKind::Name,
            length,
        }),
    }
}

/// The text of a keyword.
fn keyword_text(word: Keyword) -> &'static [u8]
    ensures { result.now ≡ keyword_text word }
{
    match word {
        Keyword::Atomic => b"atomic",
        Keyword::Break => b"break",
        Keyword::Class => b"class",
        Keyword::Const => b"const",
        Keyword::Continue => b"continue",
        Keyword::Cout => b"cout",
        Keyword::Else => b"else",
        Keyword::Endl => b"endl",
        Keyword::For => b"for",
        Keyword::Global => b"global",
        Keyword::If => b"if",
        Keyword::Int => b"int",
        Keyword::New => b"new",
        Keyword::Null => b"NULL",
        Keyword::Par => b"par",
        Keyword::Parfor => b"parfor",
        Keyword::Private => b"private",
        Keyword::Public => b"public",
        Keyword::Return => b"return",
        Keyword::Spawn => b"spawn",
        Keyword::Struct => b"struct",
        Keyword::Sync => b"sync",
        Keyword::This => b"this",
        Keyword::Void => b"void",
        Keyword::While => b"while",
    }
}

/// The keyword with this text.
fn keyword(text: &[u8]) -> Option<Keyword>
    ensures { (word : Keyword) → (result ≡ Some word) ↔ (text.now ≡ keyword_text word) }
{
    first_with_text(keywords_of_length(text.len()), text)
}

/// The keywords of this many bytes.
fn keywords_of_length(length: usize) -> &'static [Keyword]
    ensures { result.now ≡ keywords_of_length length }
{
    match length {
        2 => &[Keyword::If],
        3 => &[Keyword::For, Keyword::Int, Keyword::New, Keyword::Par],
        4 => &[
            Keyword::Cout,
            Keyword::Else,
            Keyword::Endl,
            Keyword::Null,
            Keyword::Sync,
            Keyword::This,
            Keyword::Void,
        ],
        5 => &[
            Keyword::Break,
            Keyword::Class,
            Keyword::Const,
            Keyword::Spawn,
            Keyword::While,
        ],
        6 => &[
            Keyword::Atomic,
            Keyword::Global,
            Keyword::Parfor,
            Keyword::Public,
            Keyword::Return,
            Keyword::Struct,
        ],
        7 => &[Keyword::Private],
        8 => &[Keyword::Continue],
        _ => &[],
    }
}

/// The first of these keywords with this text.
fn first_with_text(words: &[Keyword], text: &[u8]) -> Option<Keyword>
    ensures { result ≡ find (λ word. bytes_eq (keyword_text word) text.now) words.now }
{
    words
        .iter()
        .copied()
        .find(|word| keyword_text(*word) == text)
}

/// How many bytes of a word stand at the front.
fn word_length(here: &[u8]) -> usize
    ensures { result ≡ prefix_len is_word_byte here.now }
{
    here.iter().take_while(|b| is_word_byte(**b)).count()
}

/// Whether the byte is a letter, a digit or `_`.
fn is_word_byte(b: u8) -> bool
    ensures { result ≡ is_word_byte b }
{
    b.is_ascii_alphanumeric() || b == b'_'
}
