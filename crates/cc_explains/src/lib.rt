//! When a run of a program explains a journal, and which entry of it none explains, and why.
//!
//! The crate knows the definition of a run, its numbers and the bytes of requests. It must know nothing of how a run is stepped or a journal
//! checked.
#![tactic(auto)]

ghost use Rattle.std.specs.Prelude.{◌≡◌, ℕ, List, map, length, Option, ℤ};
ghost use Rattle.global_ptr.specs.declared.ends.Standing.{Standing};
ghost use Rattle.cc_core.specs.Names.{Name};
ghost use Rattle.cc_core.specs.Core.{Program};
ghost use Rattle.cc_core.specs.Config.{Config};
ghost use Rattle.cc_core.specs.Steps.{Run, start};
ghost use Rattle.effect_journal.specs.declared.entry.Entry.{Entry};
ghost use Rattle.effect_journal.specs.declared.entry.Entry.TheVariants.{End};
ghost use Rattle.effect_journal.specs.declared.entry.FaultBy.{FaultBy};
ghost use Rattle.run_numbers.specs.RunNumbers.{IsNumbered};
ghost use Rattle.cc_explains.specs.Places.{Place, Step, beginning, Lead};
ghost use Rattle.cc_explains.specs.Explains.{Explains, IsReadTo};
ghost use Rattle.cc_explains.specs.Unexplained.{FirstUnexplained};
ghost use Rattle.cc_explains.specs.declared.why.Why.{Why};
ghost use Rattle.cc_explains.specs.declared.why.Why.TheVariants.{OtherEnd};

mod why;

pub use why::Why;

/// Steps that lead on from the beginning are a run of the definition, with the numbers that it gives and its number of steps; and each run
/// is such steps.
pub fn steps_are_a_run()
    ensures run { (p : Program) (ints : List ℤ) (ms : List Step) (b : Place) → Lead p ms (beginning p ints) b
        → Run p (map (λ m. m.thread) ms) (start p ints) b.config }
    ensures numbers { (p : Program) (ints : List ℤ) (ms : List Step) (b : Place) → Lead p ms (beginning p ints) b
        → IsNumbered p ints b.config b.numbers }
    ensures made { (p : Program) (ints : List ℤ) (ms : List Step) (b : Place) → Lead p ms (beginning p ints) b → b.made ≡ length ms }
    ensures each { (p : Program) (ints : List ℤ) (threads : List Name) (r : Config) → Run p threads (start p ints) r
        → (ms : List Step) × (b : Place) × Lead p ms (beginning p ints) b × (map (λ m. m.thread) ms ≡ threads) × (b.config ≡ r) }
{}

/// A journal is explained with a standing exactly where its entries, read one by one, lead to a place where a run may end so.
pub fn explained_entry_by_entry()
    ensures reads { (p : Program) (ints : List ℤ) (entries : List Entry) (standing : Standing)
        → Explains p ints entries standing → IsReadTo p ints entries standing }
    ensures explains { (p : Program) (ints : List ℤ) (entries : List Entry) (standing : Standing)
        → IsReadTo p ints entries standing → Explains p ints entries standing }
{}

/// The entries fix the run: two runs that explain the same entries make the same steps, come to the same place and end with the same
/// standing.
pub fn entries_fix_the_run()
    ensures run { (p : Program) (ints : List ℤ) (entries : List Entry) (standing other : Standing)
        → (x : Explains p ints entries standing) (y : Explains p ints entries other) → (x.steps ≡ y.steps) × (x.end ≡ y.end) }
    ensures standing { (p : Program) (ints : List ℤ) (entries : List Entry) (standing other : Standing)
        → Explains p ints entries standing → Explains p ints entries other → standing ≡ other }
{}

/// A journal that is explained, with whichever standing, has no first entry that is not.
pub fn explained_or_first_unexplained()
    ensures { (p : Program) (ints : List ℤ) (entries : List Entry) (standing : Standing) (k : ℕ) (why : Why)
        → Explains p ints entries standing → ¬ FirstUnexplained p ints entries k why }
{}

/// A journal has at most one first entry that no run explains, and one reason: the first of the table that holds. The last reason comes at an
/// end alone.
pub fn one_first_unexplained()
    ensures one { (p : Program) (ints : List ℤ) (entries : List Entry) (j k : ℕ) (why other : Why)
        → FirstUnexplained p ints entries j why → FirstUnexplained p ints entries k other → (j ≡ k) × (why ≡ other) }
    ensures end_alone { (p : Program) (ints : List ℤ) (entries : List Entry) (k : ℕ) → (u : FirstUnexplained p ints entries k OtherEnd)
        → (standing : Standing) × (by : Option FaultBy) × (u.entry ≡ End standing by) }
{}
