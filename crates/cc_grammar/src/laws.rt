//! Laws of the grammar, as contracts.

ghost use Rattle.std.specs.Prelude.{◌≡◌};
ghost use Rattle.cc_tree.specs.declared.declarations.Program.{Program};
ghost use Rattle.cc_grammar.specs.Lexeme.{Lexemes};
ghost use Rattle.cc_grammar.specs.Program.{Spells};

/// A list of tokens spells at most one tree.
#[tactic(auto, using(crate::proofs::Top::one))]
pub fn one_tree()
    ensures { (tokens : Lexemes) (p q : Program) → Spells tokens p → Spells tokens q → p ≡ q }
{}
