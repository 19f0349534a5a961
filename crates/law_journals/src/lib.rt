//! The law of journals: that the entries which a run by rounds leaves are explained by a run of its program, and by the one that is reported. The function
//! does nothing: its contract is the law.
//!
//! The crate knows runs by rounds (`law_rounds`) and what explains a journal (`cc_explains`). It must know nothing of how entries are written.
#![tactic(auto)]

ghost use Rattle.std.specs.Prelude.{◌≡◌, ◌<◌, ℤ, ℕ, List, length};
ghost use Rattle.global_ptr.specs.declared.ends.Standing.{Standing};
ghost use Rattle.cc_core.specs.Core.{Program};
ghost use Rattle.cc_core.specs.Source.{IsProgram};
ghost use Rattle.effect_journal.specs.declared.entry.Entry.{Entry};
ghost use Rattle.cc_explains.specs.Explains.{Explains};
ghost use Rattle.law_rounds.specs.Turn.{Note, noted};
ghost use Rattle.law_rounds.specs.Round.{RunIs};
ghost use Rattle.law_journals.specs.Entries.{IsJournalOf};

/// The journal of a run by rounds is explained, with the standing of that run. What explains it has the same output, and as many steps as are noted.
pub fn runs_explain_their_journals()
    ensures explained { (p : Program) → IsProgram p → p.main < length p.functions → (ints : List ℤ) (seed limit : ℕ) (output : List ℕ) (s : Standing)
        (notes : List Note) → (run : RunIs p ints seed limit output s notes) → (entries : List Entry) → IsJournalOf notes run.end s entries
        → Explains p ints entries s }
    ensures reported { (p : Program) → IsProgram p → p.main < length p.functions → (ints : List ℤ) (seed limit : ℕ) (output : List ℕ) (s : Standing)
        (notes : List Note) → (run : RunIs p ints seed limit output s notes) → (entries : List Entry) → IsJournalOf notes run.end s entries
        → (other : Standing) → (x : Explains p ints entries other) → (other ≡ s) × (x.end.config.output ≡ output) × (length x.steps ≡ noted notes) }
{}
