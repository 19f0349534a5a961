ghost use Rattle.std.specs.Prelude.{◌≡◌, ◌≤◌, ◌+◌, length, take, drop, IsTrue, IsFalse};
ghost use Rattle.cc_lexer.specs.Spelling.{is_plain, is_escape, is_inside};
ghost use Rattle.cc_lexer.specs.Faults.{goes_on};
ghost use Rattle.cc_lexer.specs.Cut.{longest_text};
ghost use Rattle.cc_lexer.specs.Next.{class_at, IsNext};
ghost use Rattle.cc_lexer.specs.declared.class.Class.{Class};

use crate::fault::{LexFault, place};
use crate::piece::Piece;
use crate::token::TokenKind;

/// A string.
pub fn string(before: &[u8], here: &[u8]) -> Result<Piece, LexFault>
    requires short { length before.now + length here.now ≤ longest_text }
    requires class { class_at here.now ≡ Class.Quote }
    ensures { IsNext before.now here.now result }
{
    let inside = inside_length(&here[1..]);
    let open = LexFault::OpenString { at: place(before) };
    let Some(stop) = here.get(inside + 1) else {
        return Err(open);
    };
    match *stop {
        b'"' => Ok(Piece::Token {
            kind: TokenKind::Str,
            length: inside + 2,
        }),
        b'\n' => Err(open),
        _ => Err(LexFault::BadByte {
            at: place(before) + 1 + inside as u32,
        }),
    }
}

/// How many bytes the inside of a string has that begins here: bytes that stand for themselves and escapes, as many as there are.
fn inside_length(here: &[u8]) -> usize
    ensures within { result ≤ length here.now }
    ensures inside { IsTrue (is_inside (take result here.now)) }
    ensures stops { IsFalse (goes_on (drop result here.now)) }
{
    let mut length = 0;
    loop {
        match unit_length(&here[length..]) {
            0 => return length,
            n => length += n,
        }
    }
}

/// How many bytes the byte that stands for itself or the escape at the front has, or 0 where there is neither.
fn unit_length(here: &[u8]) -> usize
    ensures within { result ≤ length here.now }
    ensures inside { IsTrue (is_inside (take result here.now)) }
    ensures none { result ≡ 0 → IsFalse (goes_on here.now) }
{
    match here {
        [b'\\', b, ..] if is_escape(*b) => 2,
        [b, ..] if is_plain(*b) => 1,
        _ => 0,
    }
}

/// Whether the byte stands for itself in a string.
fn is_plain(b: u8) -> bool
    ensures { result ≡ is_plain b }
{
    (b == b'\t' || (b' ' <= b && b <= b'~') || b >= 128) && b != b'"' && b != b'\\'
}

/// Whether the byte may follow a `\` in a string.
fn is_escape(b: u8) -> bool
    ensures { result ≡ is_escape b }
{
    b == b'n' || b == b't' || b == b'\\' || b == b'"'
}
