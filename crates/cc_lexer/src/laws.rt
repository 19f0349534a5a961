//! What holds of every text that is cut and of every text that is not. Each law is the contract of a function that does nothing.

ghost use Rattle.std.specs.Prelude.{◌≡◌, ℕ, ◌<◌, ◌≤◌, List, length, pos, codes, ◌++◌, ℤ, All, AllPairs};
ghost use Rattle.cc_lexer.specs.Spelling.{decimal_value};
ghost use Rattle.cc_lexer.specs.Cut.{Cut, longest_name, largest_number};
ghost use Rattle.cc_lexer.specs.Faults.{FirstFault};
ghost use Rattle.cc_lexer.specs.Lexemes.{IsSpelled, token_text, replaced_escapes, unescaped};
ghost use Rattle.cc_lexer.specs.declared.token.Token.{Token};
ghost use Rattle.cc_lexer.specs.declared.token.TokenKind.{TokenKind};
ghost use Rattle.cc_lexer.specs.declared.fault.LexFault.{LexFault};

/// A text has at most one cut.
pub fn one_cut()
    ensures { (text : List ℕ) (tokens others : List Token)
        → Cut text tokens → Cut text others → tokens ≡ others }
{}

/// A text has at most one first fault, and none where it is cut.
pub fn one_fault()
    ensures one { (text : List ℕ) (fault other : LexFault)
        → FirstFault text fault → FirstFault text other → fault ≡ other }
    ensures no_cut { (text : List ℕ) (tokens : List Token) (fault : LexFault)
        → Cut text tokens → FirstFault text fault → ⊥ }
{}

/// The tokens of a text are parts of it, in order and apart, each spelled like a token of its kind. So they are no more than its bytes.
pub fn spans()
    ensures spelled { (text : List ℕ) (tokens : List Token) → Cut text tokens → All (IsSpelled text) tokens }
    ensures in_order { (text : List ℕ) (tokens : List Token) → Cut text tokens
        → AllPairs (λ token later. token.end ≤ later.start) tokens }
    ensures count { (text : List ℕ) (tokens : List Token) → Cut text tokens → length tokens ≤ length text }
{}

/// A name has 1 to 255 bytes.
pub fn names()
    ensures { (text : List ℕ) (token : Token) → IsSpelled text token → token.kind ≡ TokenKind.Name
        → (0 < length (token_text text token)) × (length (token_text text token) ≤ longest_name) }
{}

/// The value of a number is that of its digits in base ten, and at most 9,223,372,036,854,775,807.
pub fn numbers()
    ensures { (text : List ℕ) (token : Token) (value : ℤ) → IsSpelled text token → token.kind ≡ TokenKind.Int value
        → (value ≡ pos (decimal_value (token_text text token))) × (decimal_value (token_text text token) ≤ largest_number) }
{}

/// The bytes of a string are those between its quotes, each escape replaced.
pub fn strings()
    ensures { (inside : List ℕ) → unescaped (codes "\"" ++ inside ++ codes "\"") ≡ replaced_escapes inside }
{}
