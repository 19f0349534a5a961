//! A cursor over the tokens of a text. After a fault it stands at the token that is refused.

ghost use Rattle.std.specs.Prelude.{◌≡◌, [], ◌∷◌, length, IfOk};
ghost use Rattle.std.specs.Str.{IsAscii};
ghost use Rattle.cc_lexer.specs.Cut.{Cut};
ghost use Rattle.cc_grammar.specs.Lexeme as lexeme;
ghost use Rattle.cc_grammar.specs.Kinds as kinds_spec;
ghost use Rattle.cc_grammar.specs.Reading as reading;
ghost use Rattle.cc_grammar.specs.Reading.{Gives};
ghost use Rattle.cc_expressions.specs.Fits.{Fits};

use cc_grammar::{Fault, Name, Number};
use cc_lexer::{Keyword, Mark, Token, TokenKind, unescaped};
use ccpp_edge::{Bytes, Text};
use std::alloc::{AllocError, Global};
use std::marker::Model;
use std::str;

/// The tokens of a text that are not read yet.
#[derive(Drop)]
pub struct Cursor<'a> {
    text: &'a [u8],
    tokens: &'a [Token],
}

impl<'a> Model for Cursor<'a> {
    ghost use Rattle.cc_grammar.specs.Lexeme.{Lexemes, lexemes};
    ghost use Rattle.cc_expressions.specs.Fits.{AllFit};

    ghost Value = { Lexemes };

    ghost view = { λ c. lexemes c.text.now c.tokens.now };

    ghost invariant = { λ c. AllFit c.text.now c.tokens.now };
}

/// The number of a kind. Which it is does not matter.
fn code(kind: TokenKind) -> u8
    ensures { result ≡ kinds_spec.code kind }
{
    match kind {
        TokenKind::Name => 0,
        TokenKind::Int(_) => 1,
        TokenKind::Str => 2,
        TokenKind::Word(word) => 3 + word as u8,
        TokenKind::Mark(mark) => 28 + mark as u8,
    }
}

impl<'a> Cursor<'a> {
    /// A cursor before the first of a text's tokens.
    #[tactic(auto, using(crate::proofs::FitLaws::cut_fits))]
    pub fn new(tokens: &'a [Token], text: &'a [u8]) -> Cursor<'a>
        requires { Cut text.now tokens.now }
        ensures { result ≡ lexeme.lexemes text.now tokens.now }
    {
        Cursor { text, tokens }
    }

    /// How many tokens are left.
    pub fn left(&self) -> usize
        ensures { result ≡ length self.now }
    {
        self.tokens.len()
    }

    /// Whether a token of this kind comes next. Of a number the value does not matter.
    pub fn at(&self, kind: TokenKind) -> bool
        ensures { result ≡ kinds_spec.heads (kinds_spec.code kind ∷ []) self.now }
    {
        match self.tokens {
            [] => false,
            [token, ..] => code(token.kind) == code(kind),
        }
    }

    /// Whether a token of one of these kinds comes next.
    #[tactic(auto, using(crate::proofs::CursorLaws::heads_step, crate::proofs::CursorLaws::heads_found, crate::proofs::CursorLaws::heads_all))]
    pub fn at_any(&self, kinds: &[TokenKind]) -> bool
        ensures { result ≡ kinds_spec.heads (kinds_spec.kinds kinds.now) self.now }
    {
        for kind in kinds {
            if self.at(*kind) {
                return true;
            }
        }
        false
    }

    /// Whether the token after the next one is of one of these kinds.
    #[tactic(auto, using(crate::proofs::CursorLaws::tail_none, crate::proofs::CursorLaws::tail_some))]
    pub fn at_second(&self, kinds: &[TokenKind]) -> bool
        ensures { result ≡ kinds_spec.heads (kinds_spec.kinds kinds.now) (kinds_spec.tail_of self.now) }
    {
        match self.tokens {
            [] => false,
            [_, tokens @ ..] => {
                let text = self.text;
                Cursor { text, tokens }.at_any(kinds)
            }
        }
    }

    /// Takes a token of this kind, and gives its line.
    #[tactic(auto, using(crate::proofs::CursorLaws::token_fails, crate::proofs::CursorLaws::token_takes))]
    pub fn take(&mut self, kind: TokenKind) -> Result<u32, Fault>
        ensures { Gives (reading.itself kind self.old) result self.new }
    {
        if !self.at(kind) {
            return Err(Fault::Syntax);
        }
        let token = self.tokens[0];
        self.tokens = &self.tokens[1..];
        Ok(token.line)
    }

    /// Takes a token of this kind, which opens a level, where `depth` more may be opened, and gives its line.
    #[tactic(auto, using(crate::proofs::CursorLaws::opening_fails, crate::proofs::CursorLaws::opening_deep, crate::proofs::CursorLaws::opening_goes))]
    pub fn open(&mut self, depth: usize, kind: TokenKind) -> Result<u32, Fault>
        ensures { Gives (reading.opening depth kind self.old) result self.new }
    {
        if depth > 0 {
            return self.take(kind);
        }
        if self.at(kind) {
            return Err(Fault::TooDeep);
        }
        Err(Fault::Syntax)
    }

    /// Whether this keyword comes next.
    pub fn at_word(&self, word: Keyword) -> bool
        ensures { result ≡ kinds_spec.heads (reading.at_word word) self.now }
    {
        self.at(TokenKind::Word(word))
    }

    /// Whether this mark comes next.
    pub fn at_mark(&self, mark: Mark) -> bool
        ensures { result ≡ kinds_spec.heads (reading.at_mark mark) self.now }
    {
        self.at(TokenKind::Mark(mark))
    }

    /// Takes this keyword, and gives its line.
    pub fn word(&mut self, word: Keyword) -> Result<u32, Fault>
        ensures { Gives (reading.word word self.old) result self.new }
    {
        self.take(TokenKind::Word(word))
    }

    /// Takes this mark, and gives its line.
    pub fn mark(&mut self, mark: Mark) -> Result<u32, Fault>
        ensures { Gives (reading.mark mark self.old) result self.new }
    {
        self.take(TokenKind::Mark(mark))
    }

    /// Takes this keyword, which opens a level, and gives its line.
    pub fn open_word(&mut self, depth: usize, word: Keyword) -> Result<u32, Fault>
        ensures { Gives (reading.open_word depth word self.old) result self.new }
    {
        self.open(depth, TokenKind::Word(word))
    }

    /// Takes this mark, which opens a level, and gives its line.
    pub fn open_mark(&mut self, depth: usize, mark: Mark) -> Result<u32, Fault>
        ensures { Gives (reading.open_mark depth mark self.old) result self.new }
    {
        self.open(depth, TokenKind::Mark(mark))
    }

    /// Takes this keyword where it comes next, and gives whether it did.
    #[tactic(auto, unfolding(cc_grammar::specs::Reading::has_word))]
    pub fn has_word(&mut self, word: Keyword) -> Result<bool, Fault>
        ensures { Gives (reading.has_word word self.old) result self.new }
    {
        if self.at_word(word) {
            self.word(word)?;
            return Ok(true);
        }
        Ok(false)
    }

    /// Takes a name, of which it makes the one copy.
    #[tactic(auto, using(crate::proofs::CursorLaws::token_fails, crate::proofs::CursorLaws::token_takes, crate::proofs::CursorLaws::first_fits, crate::proofs::CursorLaws::first_ascii))]
    pub fn name(&mut self, alloc: Global) -> Result<Name, Fault>
        ensures { Gives (reading.name self.old) result self.new }
    {
        if !self.at(TokenKind::Name) {
            return Err(Fault::Syntax);
        }
        let token = self.tokens[0];
        self.tokens = &self.tokens[1..];
        let line = token.line;
        let text = text_of(alloc, self.text, token)?;
        Ok(Name { text, line })
    }

    /// Takes a number.
    #[tactic(auto, using(crate::proofs::CursorLaws::token_fails, crate::proofs::CursorLaws::token_takes))]
    pub fn number(&mut self) -> Result<Number, Fault>
        ensures { Gives (reading.number self.old) result self.new }
    {
        if !self.at(TokenKind::Int(0)) {
            return Err(Fault::Syntax);
        }
        let token = self.tokens[0];
        self.tokens = &self.tokens[1..];
        let value = int_value(token.kind);
        let line = token.line;
        Ok(Number { value, line })
    }

    /// Takes a string, of which it gives the bytes between the quotes with each escape replaced.
    #[tactic(auto, using(crate::proofs::CursorLaws::token_fails, crate::proofs::CursorLaws::token_takes, crate::proofs::CursorLaws::first_fits))]
    pub fn string(&mut self, alloc: Global) -> Result<Bytes, Fault>
        ensures { Gives (reading.string self.old) result self.new }
    {
        if !self.at(TokenKind::Str) {
            return Err(Fault::Syntax);
        }
        let token = self.tokens[0];
        self.tokens = &self.tokens[1..];
        let quoted = &self.text[token.start as usize..token.end as usize];
        Ok(unescaped(alloc, quoted)?)
    }
}

fn int_value(kind: TokenKind) -> i64
    ensures { result ≡ lexeme.int_value kind }
{
    match kind {
        TokenKind::Int(value) => value,
        _ => 0,
    }
}

/// The bytes of a name.
#[tactic(auto, using(crate::proofs::CursorLaws::ascii_text))]
fn text_of(alloc: Global, text: &[u8], token: Token) -> Result<Text, AllocError>
    requires fits { Fits text.now token }
    requires ascii { IsAscii (lexeme.token_text text.now token) }
    ensures { IfOk result (λ name. name ≡ lexeme.token_text text.now token) }
{
    match str::from_utf8(&text[token.start as usize..token.end as usize]) {
        Ok(name) => Text::of(alloc, name),
        Err(_) => unreachable!(),
    }
}
