ghost use Rattle.std.specs.Prelude.{◌≤◌, ◌+◌, length};
ghost use Rattle.cc_lexer.specs.Cut.{longest_text};
ghost use Rattle.cc_lexer.specs.Next.{IsNext};

use crate::blank;
use crate::class::Class;
use crate::fault::LexFault;
use crate::mark::mark;
use crate::number::number;
use crate::piece::Piece;
use crate::string::string;
use crate::word::word;

/// What a text has next, of which `before` is behind and `here` is ahead.
pub fn next(before: &[u8], here: &[u8]) -> Result<Piece, LexFault>
    requires { length before.now + length here.now ≤ longest_text }
    ensures { IsNext before.now here.now result }
{
    match Class::at(here) {
        Class::End => Ok(Piece::End),
        Class::Blank => Ok(blank::single(here)),
        Class::LineComment => Ok(blank::line_comment(here)),
        Class::Comment => blank::comment(before, here),
        Class::Hash => blank::include_line(before, here),
        Class::Quote => string(before, here),
        Class::Letter => word(before, here),
        Class::Digit => number(before, here),
        Class::Other => mark(before, here),
    }
}
