ghost use Rattle.std.specs.Prelude.{◌≡◌, ℕ, List, Result};
ghost use Rattle.effect_journal.specs.Journal.{Answers, format_of};
ghost use Rattle.effect_journal.specs.declared.entry.Entry.{Entry};
ghost use Rattle.effect_journal.specs.declared.format.Version.{Version};
ghost use Rattle.effect_journal.specs.declared.read.JournalFault.{JournalFault};

/// A law: in each version a text is the journal of one list of entries at most, and no journal is refused. Whatever is said of
/// a text is all that can be said of it: its entries, the first line that is not spelled at its place, or that its end is not there.
pub fn one_answer()
    ensures { (version : Version) (text : List ℕ) (a b : Result (List Entry) JournalFault)
        → Answers (format_of version) text a → Answers (format_of version) text b → a ≡ b }
{}
