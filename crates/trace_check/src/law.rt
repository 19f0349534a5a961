ghost use Rattle.std.specs.Prelude.{◌≡◌, ℕ, ℤ, List, Result};
ghost use Rattle.cc_core.specs.Core.{Program};
ghost use Rattle.effect_journal.specs.Journal.{version_2, Journal};
ghost use Rattle.effect_journal.specs.declared.entry.Entry.{Entry};
ghost use Rattle.effect_journal.specs.declared.read.JournalFault.{JournalFault};
ghost use Rattle.trace_check.specs.Migration.{Migrates};
ghost use Rattle.trace_check.specs.Verdicts.{EndsOnce, IsVerdict};
ghost use Rattle.trace_check.specs.declared.verdict.Verdict.{Verdict};

/// A law: of a text one thing is answered.
pub fn one_migration()
    ensures { (text : List ℕ) (a b : Result (List ℕ) JournalFault) → Migrates text a → Migrates text b → a ≡ b }
{}

/// A law: of the entries of a journal one thing is found.
pub fn one_verdict()
    ensures { (p : Program) (ints : List ℤ) (entries : List Entry) (a b : Verdict)
        → IsVerdict p ints entries a → IsVerdict p ints entries b → a ≡ b }
{}

/// A law: of the entries of a journal that is read one is the end, and it is the last. So they may be traced.
pub fn journal_ends_once()
    ensures { (entries : List Entry) (text : List ℕ) → Journal version_2 entries text → EndsOnce entries }
{}
