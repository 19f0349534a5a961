use crate::token::TokenKind;

/// What a text has next: a blank or a token, with its length in bytes, or nothing, since it ends.
#[derive(Clone, Copy, Debug, PartialEq, Eq)]
pub enum Piece {
    End,
    Blank { length: usize, line_feeds: usize },
    Token { kind: TokenKind, length: usize },
}
