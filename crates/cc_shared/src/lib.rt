//! Where a source breaks no rule of sharing, one run of it that comes to rest decides every run from the same ints.
//!
//! The crate knows the rules of sharing as the front end collects them, and the law of one answer (`cc_one_answer`). It must know nothing of
//! code.
#![tactic(auto)]

ghost use Rattle.std.specs.Prelude.{◌≡◌, []};
ghost use Rattle.cc_core.specs.Types.{Types};
ghost use Rattle.cc_one_answer.specs.Determinate.{IsDeterminate};
ghost use Rattle.cc_shared.specs.OneAnswer.{OneRunDecides, core_of};
ghost use Rattle.cc_tree.specs.declared.declarations.Program.{Program};
ghost use Rattle.cc_types.specs.Program.{IsSpelled, IsWellFormed, rules_shared};

/// The front end leaves a determinate program, with a table of types, of a source that is spelled by some tokens, is well formed and breaks
/// no rule of sharing.
pub fn shared_nothing_is_determinate()
    ensures { (p : Program) → IsSpelled p → IsWellFormed p → rules_shared p ≡ [] → (y : Types) × IsDeterminate (core_of p) y }
{}

/// One answer. Where such a source comes to rest in one run from some ints, every run from them comes to rest after as many steps in the
/// same configuration, with the same output, result, sync values and blocked threads; and none meets a fault. Nothing is promised where no
/// run comes to rest.
pub fn source_has_one_answer()
    ensures { (p : Program) → IsSpelled p → IsWellFormed p → rules_shared p ≡ [] → OneRunDecides p }
{}
