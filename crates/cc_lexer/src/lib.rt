//! The tokens of the profile of CC++ that `ccpp` reads, and the cut of a text into them.
#![tactic(auto)]

mod blank;
mod class;
mod fault;
pub mod laws;
mod lexer;
mod mark;
mod next;
mod number;
mod piece;
mod string;
mod token;
mod unescape;
mod word;

pub use fault::LexFault;
pub use lexer::{MAX_TEXT, lex};
pub use token::{Keyword, Mark, Token, TokenKind};
pub use unescape::unescaped;
