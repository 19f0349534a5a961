ghost use Rattle.std.specs.Prelude.{◌≡◌, ◌≢◌, ◌≤◌, length, IfOk, IfErr};
ghost use Rattle.cc_lexer.specs.Cut.{Cut, longest_text};
ghost use Rattle.cc_lexer.specs.Faults.{FirstFault};
ghost use Rattle.cc_lexer.specs.declared.token.Token.{Token};
ghost use Rattle.cc_lexer.specs.declared.fault.LexFault.{LexFault};

use crate::fault::LexFault;
use crate::next::next;
use crate::piece::Piece;
use crate::token::Token;
use ccpp_edge::List;
use std::alloc::Global;

/// The most bytes of a text.
pub const MAX_TEXT: usize = 1_048_576;

/// The tokens of a text, in order, or the first fault by which it is not cut into blanks and tokens.
pub fn lex(alloc: Global, text: &[u8]) -> Result<List<Token>, LexFault>
    ensures cut { IfOk result (Cut text.now) }
    ensures fault { IfErr result (λ fault. fault ≢ LexFault.Memory → FirstFault text.now fault) }

    // Nothing but want of memory comes in place of the cut or of the first fault.
    ensures only_cut { (tokens : List Token) → Cut text.now tokens
        → result ≢ Err LexFault.Memory → result ≡ Ok tokens }
    ensures only_fault { (fault : LexFault) → FirstFault text.now fault
        → result ≢ Err LexFault.Memory → result ≡ Err fault }
{
    if text.len() > MAX_TEXT {
        return Err(LexFault::TooLong);
    }
    tokens_of(alloc, text)
}

/// The same, of a text that is not too long.
fn tokens_of(alloc: Global, text: &[u8]) -> Result<List<Token>, LexFault>
    requires { length text.now ≤ longest_text }
    ensures cut { IfOk result (Cut text.now) }
    ensures fault { IfErr result (λ fault. fault ≢ LexFault.Memory → FirstFault text.now fault) }
{
    let mut tokens = List::new(alloc);
    let mut at = 0;
    let mut line = 1;
    loop {
        let (before, here) = text.split_at(at);
        match next(before, here)? {
            Piece::End => return Ok(tokens),
            Piece::Blank { length, line_feeds } => {
                at += length;
                line += line_feeds;
            }
            Piece::Token { kind, length } => {
                tokens.push(Token {
                    kind,
                    start: at as u32,
                    end: (at + length) as u32,
                    line: line as u32,
                })?;
                at += length;
            }
        }
    }
}
