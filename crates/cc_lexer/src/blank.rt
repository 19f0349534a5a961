ghost use Rattle.std.specs.Prelude.{◌≡◌, ◌↔◌, ◌≤◌, ◌+◌, ℕ, List, length, codes, count_by, take, IsTrue, IfSome, IfNone};
ghost use Rattle.cc_lexer.specs.Cut.{Begins, is_line_feed, line_length, is_indent, HasNoPlace, IsFirstPlace, longest_text};
ghost use Rattle.cc_lexer.specs.Next.{class_at, IsNext};
ghost use Rattle.cc_lexer.specs.declared.class.Class.{Class};

use crate::fault::{LexFault, place};
use crate::piece::Piece;

/// A byte that is a blank by itself.
pub fn single(here: &[u8]) -> Piece
    requires { class_at here.now ≡ Class.Blank }
    ensures { (before : List ℕ) → IsNext before here.now (Ok result) }
{
    Piece::Blank {
        length: 1,
        line_feeds: if here[0] == b'\n' { 1 } else { 0 },
    }
}

/// A comment to the end of its line.
pub fn line_comment(here: &[u8]) -> Piece
    requires { class_at here.now ≡ Class.LineComment }
    ensures { (before : List ℕ) → IsNext before here.now (Ok result) }
{
    rest_of_line(here)
}

/// A comment that is to be closed.
pub fn comment(before: &[u8], here: &[u8]) -> Result<Piece, LexFault>
    requires short { length before.now + length here.now ≤ longest_text }
    requires class { class_at here.now ≡ Class.Comment }
    ensures { IsNext before.now here.now result }
{
    match comment_end(&here[2..]) {
        Some(end) => Ok(Piece::Blank {
            length: end.at + 4,
            line_feeds: end.line_feeds,
        }),
        None => Err(LexFault::OpenComment { at: place(before) }),
    }
}

/// The rest of a line from a `#` on, if it is an include line.
pub fn include_line(before: &[u8], here: &[u8]) -> Result<Piece, LexFault>
    requires short { length before.now + length here.now ≤ longest_text }
    requires class { class_at here.now ≡ Class.Hash }
    ensures { IsNext before.now here.now result }
{
    if begins(here, b"#include") && is_indent(before) {
        Ok(rest_of_line(here))
    } else {
        Err(LexFault::BadByte { at: place(before) })
    }
}

/// The rest of the line, without the line feed that ends it.
fn rest_of_line(here: &[u8]) -> Piece
    ensures { result ≡ Piece.Blank (line_length here.now) 0 }
{
    Piece::Blank {
        length: line_length(here),
        line_feeds: 0,
    }
}

/// How long the line still is, without the line feed that ends it.
fn line_length(here: &[u8]) -> usize
    ensures { result ≡ line_length here.now }
{
    here.iter().take_while(|b| **b != b'\n').count()
}

/// Where the inside of a comment ends, and how many line feeds it has.
#[derive(Clone, Copy)]
struct CommentEnd {
    at: usize,
    line_feeds: usize,
}

/// The end of the comment whose inside begins here, or nothing where it is not closed.
fn comment_end(inside: &[u8]) -> Option<CommentEnd>
    ensures not_closed { IfNone result (HasNoPlace (codes "*/") inside.now) }
    ensures closed { IfSome result (λ end. IsFirstPlace (codes "*/") inside.now end.at) }
    ensures line_feeds { IfSome result (λ end. end.line_feeds ≡ count_by is_line_feed (take end.at inside.now)) }
{
    let mut line_feeds = 0;
    for at in 0..inside.len() {
        if begins(&inside[at..], b"*/") {
            return Some(CommentEnd { at, line_feeds });
        }
        if inside[at] == b'\n' {
            line_feeds += 1;
        }
    }
    None
}

/// Whether the line has only spaces and tabs so far.
fn is_indent(before: &[u8]) -> bool
    ensures { result ≡ is_indent before.now }
{
    before
        .iter()
        .rev()
        .take_while(|b| **b != b'\n')
        .all(|b| *b == b' ' || *b == b'\t')
}

/// Whether the text begins with these bytes.
#[tactic(auto, using(crate::proofs::Blanks::begins_test))]
fn begins(here: &[u8], bytes: &[u8]) -> bool
    ensures { IsTrue result ↔ Begins here.now bytes.now }
{
    here.starts_with(bytes)
}
