ghost use Rattle.std.specs.Prelude.{◌≡◌, ◌↔◌, ◌≤◌, ◌+◌, length, take, [], ◌∷◌};
ghost use Rattle.cc_lexer.specs.Spelling.{mark_text};
ghost use Rattle.cc_lexer.specs.Cut.{longest_text};
ghost use Rattle.cc_lexer.specs.Next.{class_at, IsNext};
ghost use Rattle.cc_lexer.specs.declared.class.Class.{Class};
ghost use Rattle.cc_lexer.specs.declared.token.Mark.{Mark};

use crate::fault::{LexFault, place};
use crate::piece::Piece;
use crate::token::{Mark, TokenKind};

/// The longest mark that stands at the front.
pub fn mark(before: &[u8], here: &[u8]) -> Result<Piece, LexFault>
    requires short { length before.now + length here.now ≤ longest_text }
    requires class { class_at here.now ≡ Class.Other }
    ensures { IsNext before.now here.now result }
{
    if let Some(mark) = double_at(here) {
        return Ok(marked(mark, 2));
    }
    match single(here[0]) {
        Some(mark) => Ok(marked(mark, 1)),
        None => Err(LexFault::BadByte { at: place(before) }),
    }
}

/// A mark with its length.
fn marked(mark: Mark, length: usize) -> Piece
    ensures { result ≡ Piece.Token (TokenKind.Mark mark) length }
{
    Piece::Token {
        kind: TokenKind::Mark(mark),
        length,
    }
}

/// The mark that the first two bytes are.
fn double_at(here: &[u8]) -> Option<Mark>
    ensures { (m : Mark) → (result ≡ Some m) ↔ ((length (mark_text m) ≡ 2) × (take 2 here.now ≡ mark_text m)) }
{
    match here {
        [first, second, ..] => double(*first, *second),
        _ => None,
    }
}

/// The mark that is this byte.
fn single(first: u8) -> Option<Mark>
    ensures { (m : Mark) → (result ≡ Some m) ↔ (first ∷ [] ≡ mark_text m) }
{
    match first {
        b'(' => Some(Mark::OpenParen),
        b')' => Some(Mark::CloseParen),
        b'{' => Some(Mark::OpenBrace),
        b'}' => Some(Mark::CloseBrace),
        b'[' => Some(Mark::OpenBracket),
        b']' => Some(Mark::CloseBracket),
        b';' => Some(Mark::Semicolon),
        b',' => Some(Mark::Comma),
        b':' => Some(Mark::Colon),
        b'.' => Some(Mark::Dot),
        b'=' => Some(Mark::Assign),
        b'+' => Some(Mark::Plus),
        b'-' => Some(Mark::Minus),
        b'*' => Some(Mark::Star),
        b'/' => Some(Mark::Slash),
        b'%' => Some(Mark::Percent),
        b'<' => Some(Mark::Less),
        b'>' => Some(Mark::Greater),
        b'!' => Some(Mark::Not),
        b'&' => Some(Mark::Ampersand),
        _ => None,
    }
}

/// The mark that is these two bytes.
fn double(first: u8, second: u8) -> Option<Mark>
    ensures { (m : Mark) → (result ≡ Some m) ↔ (first ∷ second ∷ [] ≡ mark_text m) }
{
    match (first, second) {
        (b'-', b'>') => Some(Mark::Arrow),
        (b'=', b'=') => Some(Mark::Equal),
        (b'!', b'=') => Some(Mark::NotEqual),
        (b'<', b'=') => Some(Mark::LessEqual),
        (b'>', b'=') => Some(Mark::GreaterEqual),
        (b'&', b'&') => Some(Mark::And),
        (b'|', b'|') => Some(Mark::Or),
        (b'<', b'<') => Some(Mark::LessLess),
        (b'+', b'+') => Some(Mark::PlusPlus),
        (b'-', b'-') => Some(Mark::MinusMinus),
        (b'+', b'=') => Some(Mark::PlusAssign),
        (b'-', b'=') => Some(Mark::MinusAssign),
        (b'*', b'=') => Some(Mark::StarAssign),
        (b'/', b'=') => Some(Mark::SlashAssign),
        (b'%', b'=') => Some(Mark::PercentAssign),
        _ => None,
    }
}
