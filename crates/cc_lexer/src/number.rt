ghost use Rattle.std.specs.Prelude.{◌≡◌, ◌≤◌, ◌+◌, length, take, ℕ, pos, IsTrue, SomeIff};
ghost use Rattle.std.specs.List.{list_all, prefix_len};
ghost use Rattle.cc_lexer.specs.Spelling.{is_digit, is_number, decimal_value};
ghost use Rattle.cc_lexer.specs.Cut.{largest_number, longest_text};
ghost use Rattle.cc_lexer.specs.Next.{class_at, IsNext};
ghost use Rattle.cc_lexer.specs.declared.class.Class.{Class};

use crate::fault::{LexFault, place};
use crate::piece::Piece;
use crate::token::TokenKind;

/// A number. None but 0 begins with 0, so that 007 is three of them.
pub fn number(before: &[u8], here: &[u8]) -> Result<Piece, LexFault>
    requires short { length before.now + length here.now ≤ longest_text }
    requires class { class_at here.now ≡ Class.Digit }
    ensures { IsNext before.now here.now result }
{
    let length = number_length(here);
    match decimal_value(&here[..length]) {
        Some(value) => Ok(Piece::Token {
            kind: TokenKind::Int(value),
            length,
        }),
        None => Err(LexFault::NumberTooLarge { at: place(before) }),
    }
}

/// How many bytes the longest number has that stands at the front.
fn number_length(here: &[u8]) -> usize
    requires { class_at here.now ≡ Class.Digit }
    ensures within { result ≤ length here.now }
    ensures number { IsTrue (is_number (take result here.now)) }
    ensures longest { (n : ℕ) → n ≤ length here.now → IsTrue (is_number (take n here.now)) → n ≤ result }
{
    if here[0] == b'0' {
        1
    } else {
        digits_length(here)
    }
}

/// How many digits stand at the front.
fn digits_length(here: &[u8]) -> usize
    ensures { result ≡ prefix_len is_digit here.now }
{
    here.iter().take_while(|b| b.is_ascii_digit()).count()
}

/// The value of the digits in base ten, where it is at most 9,223,372,036,854,775,807.
fn decimal_value(digits: &[u8]) -> Option<i64>
    requires { IsTrue (list_all is_digit digits.now) }
    ensures { SomeIff result (decimal_value digits.now ≤ largest_number) (pos (decimal_value digits.now)) }
{
    let mut value: u64 = 0;
    for digit in digits {
        value = value
            .checked_mul(10)?
            .checked_add(u64::from(*digit - b'0'))?;
    }
    i64::try_from(value).ok()
}
