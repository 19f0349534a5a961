ghost use Rattle.std.specs.Prelude.{◌≡◌};
ghost use Rattle.cc_lexer.specs.Next.{byte_class, class_at};

/// What the first bytes at a place say of what may stand there.
#[derive(Clone, Copy, Debug, PartialEq, Eq)]
pub enum Class {
    /// Nothing: the text ends.
    End,
    /// A space or one of the bytes 9 to 13.
    Blank,
    /// A comment to the end of its line.
    LineComment,
    /// A comment that is to be closed.
    Comment,
    /// An include line, or nothing that is allowed.
    Hash,
    /// A string.
    Quote,
    /// A name or a keyword.
    Letter,
    /// A number.
    Digit,
    /// A mark, or nothing that is allowed.
    Other,
}

impl Class {
    /// The class of what stands at the front.
    pub fn at(here: &[u8]) -> Class
        ensures { result ≡ class_at here.now }
    {
        match here {
            [] => Class::End,
            [b'/', b'/', ..] => Class::LineComment,
            [b'/', b'*', ..] => Class::Comment,
            [b, ..] => Class::of_byte(*b),
        }
    }

    /// The class of a text with this first byte, where it begins no comment.
    fn of_byte(b: u8) -> Class
        ensures { result ≡ byte_class b }
    {
        match b {
            b' ' | 9..=13 => Class::Blank,
            b'#' => Class::Hash,
            b'"' => Class::Quote,
            b'_' | b'A'..=b'Z' | b'a'..=b'z' => Class::Letter,
            b'0'..=b'9' => Class::Digit,
            _ => Class::Other,
        }
    }
}
