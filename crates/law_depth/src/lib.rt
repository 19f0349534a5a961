//! How deep the trees nest that tokens spell.
//!
//! The crate knows the grammar. It must know nothing of names and types.
#![tactic(auto)]

ghost use Rattle.std.specs.Prelude.{ℕ, ◌+◌, ◌*◌, ◌≤◌};
ghost use Rattle.cc_grammar.specs.Expressions.{call, expr, place, sum_at};
ghost use Rattle.cc_grammar.specs.Lexeme.{Lexemes};
ghost use Rattle.cc_grammar.specs.Program.{Spells};
ghost use Rattle.cc_tree.specs.declared.declarations.Program.{Program};
ghost use Rattle.cc_tree.specs.declared.expressions.Expr.{Expr};
ghost use Rattle.law_depth.specs.Depth.{EachOf, NestsTo, ShallowFileItem};

/// An expression that tokens spell within 64 levels nests at most 1,000 deep, and so do a place, a call and what is printed: each level
/// has six levels of operators, one of tails and one of roots. So no answer about such a tree comes from a bound of 1,000.
pub fn expressions_nest_to_1000()
    ensures expressions { (n : ℕ) (a b : Lexemes) (x : Expr) → n ≤ 64 → (expr n).spells a b x → NestsTo 1000 x }
    ensures places { (n : ℕ) (a b : Lexemes) (x : Expr) → n ≤ 64 → (place n).spells a b x → NestsTo 1000 x }
    ensures calls { (n : ℕ) (a b : Lexemes) (x : Expr) → n ≤ 64 → (call n).spells a b x → NestsTo 1000 x }
    ensures printed { (n : ℕ) (a b : Lexemes) (x : Expr) → n ≤ 64 → (sum_at n).spells a b x → NestsTo 1000 x }
{}

/// In a program that tokens spell each statement nests at most 1,000 deep, and so does each expression.
pub fn programs_nest_to_1000()
    ensures { (tokens : Lexemes) (p : Program) → Spells tokens p → EachOf ShallowFileItem p.items }
{}
