ghost use Rattle.std.specs.Prelude.{◌≡◌, IfOk};
ghost use Rattle.cc_lexer.specs.Lexemes.{inside_of, escaped_byte, unescaped};

use ccpp_edge::{Bytes, List};
use std::alloc::{AllocError, Global};

/// The bytes of the string that a token is: those between its quotes, each escape replaced by its byte.
pub fn unescaped(alloc: Global, text: &[u8]) -> Result<Bytes, AllocError>
    ensures { IfOk result (λ bytes. bytes ≡ unescaped text.now) }
{
    let mut bytes = List::new(alloc);
    let mut rest = inside(text);
    loop {
        match rest {
            [] => return Ok(bytes),
            [b'\\', escape, after @ ..] => {
                bytes.push(escaped_byte(*escape))?;
                rest = after;
            }
            [byte, after @ ..] => {
                bytes.push(*byte)?;
                rest = after;
            }
        }
    }
}

/// What stands between the quotes.
fn inside(text: &[u8]) -> &[u8]
    ensures { result.now ≡ inside_of text.now }
{
    match text {
        [_, inside @ .., _] => inside,
        _ => &[],
    }
}

/// The byte that an escape stands for which has this byte after its `\`.
fn escaped_byte(b: u8) -> u8
    ensures { result ≡ escaped_byte b }
{
    match b {
        b'n' => b'\n',
        b't' => b'\t',
        _ => b,
    }
}
