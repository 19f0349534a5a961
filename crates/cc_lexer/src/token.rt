/// A word that is no name. Each stands for itself, in small letters, but for `NULL`.
#[derive(Clone, Copy, Debug, PartialEq, Eq)]
pub enum Keyword {
    Atomic,
    Break,
    Class,
    Const,
    Continue,
    Cout,
    Else,
    Endl,
    For,
    Global,
    If,
    Int,
    New,
    /// `NULL`
    Null,
    Par,
    Parfor,
    Private,
    Public,
    Return,
    Spawn,
    Struct,
    Sync,
    This,
    Void,
    While,
}

/// A bracket, a separator or an operator.
#[derive(Clone, Copy, Debug, PartialEq, Eq)]
pub enum Mark {
    /// `(`
    OpenParen,
    /// `)`
    CloseParen,
    /// `{`
    OpenBrace,
    /// `}`
    CloseBrace,
    /// `[`
    OpenBracket,
    /// `]`
    CloseBracket,
    /// `;`
    Semicolon,
    /// `,`
    Comma,
    /// `:`
    Colon,
    /// `.`
    Dot,
    /// `=`
    Assign,
    /// `+`
    Plus,
    /// `-`
    Minus,
    /// `*`
    Star,
    /// `/`
    Slash,
    /// `%`
    Percent,
    /// `<`
    Less,
    /// `>`
    Greater,
    /// `!`
    Not,
    /// `&`
    Ampersand,
    /// `->`
    Arrow,
    /// `==`
    Equal,
    /// `!=`
    NotEqual,
    /// `<=`
    LessEqual,
    /// `>=`
    GreaterEqual,
    /// `&&`
    And,
    /// `||`
    Or,
    /// `<<`
    LessLess,
    /// `++`
    PlusPlus,
    /// `--`
    MinusMinus,
    /// `+=`
    PlusAssign,
    /// `-=`
    MinusAssign,
    /// `*=`
    StarAssign,
    /// `/=`
    SlashAssign,
    /// `%=`
    PercentAssign,
}

/// What a token is. The text of a name and of a string is the token's slice of the text.
#[derive(Clone, Copy, Debug, PartialEq, Eq)]
pub enum TokenKind {
    Name,
    /// A number, with its value.
    Int(i64),
    /// A string, with its quotes and its escapes as they stand.
    Str,
    Word(Keyword),
    Mark(Mark),
}

/// A token of a text: the bytes from `start` up to but not including `end`, in the line `line`, counted from 1.
#[derive(Clone, Copy, Debug, PartialEq, Eq)]
pub struct Token {
    pub kind: TokenKind,
    pub start: u32,
    pub end: u32,
    pub line: u32,
}
