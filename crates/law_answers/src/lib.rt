//! Which of several broken static rules a refusal names, said without an order in which rules are looked at. The functions do nothing: their
//! contracts are the laws.
//!
//! The crate knows the rules by their names and numbers, and what a call answers (`Answers` of `cc_names`, which is the contract of `check` and of
//! `Names::of`). It must know nothing of how rules are found.
#![tactic(auto)]

ghost use Rattle.std.specs.Prelude.{◌≡◌, ◌↔◌, List, Result};
ghost use Rattle.cc_names.specs.Broken.{Answers, IsLeast, least};
ghost use Rattle.cc_names.specs.declared.broken.Broken.{Broken};
ghost use Rattle.cc_names.specs.declared.broken.TypeFault.{TypeFault};
ghost use Rattle.cc_tree.specs.declared.declarations.Program.{Program};
ghost use Rattle.law_answers.specs.First.{NamesFirst, SameRules};

/// A call that answers a program by its broken rules says that none is broken exactly where none is, and else names the one whose line is least, of
/// those of that line the one whose number is least. There is one such rule.
pub fn refusals_name_the_first()
    ensures { (broken : List Broken) (program : Program) (answer : Result Program TypeFault)
        → Answers broken program answer ↔ NamesFirst broken program answer }
{}

/// The rule that is named is least among those that are broken, and where none is named none is broken.
pub fn named_rules_are_least()
    ensures { (broken : List Broken) → IsLeast broken (least broken) }
{}

/// Neither the order in which broken rules are found nor how often one is found changes which is named.
pub fn order_decides_nothing()
    ensures { (found others : List Broken) → SameRules found others → least found ≡ least others }
{}
