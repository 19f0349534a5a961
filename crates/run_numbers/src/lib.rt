//! The numbers by which a run numbers its threads and objects.
#![tactic(auto)]

ghost use Rattle.std.specs.Prelude.{◌≡◌, ◌≢◌, ℕ, List, [], length, slice_get, Some, ℤ};
ghost use Rattle.std.specs.FinMap as fin;
ghost use Rattle.cc_core.specs.Names.{Name, count};
ghost use Rattle.cc_core.specs.Core.{Program};
ghost use Rattle.cc_core.specs.Config.{Config, Thread, Live, Object};
ghost use Rattle.cc_core.specs.Numbers.{Numbers, listed, numbers_step};
ghost use Rattle.cc_core.specs.Steps.{Moves, step};
ghost use Rattle.run_numbers.specs.RunNumbers.{IsNumbered, IsListed, AreNumbered, NumbersStay};

/// In every configuration of a run each thread has one number on one processor, and each number that was given is that of a thread; so it
/// is with objects. They are numbered on their own processor, and a processor has given as many numbers to threads as were made there. A
/// step takes no number away and gives none anew.
pub fn numbers_are_one_to_one()
    ensures threads { (p : Program) (ns : List ℤ) (s : Config) (n : Numbers) → IsNumbered p ns s n → AreNumbered n.threads s.threads }
    ensures objects { (p : Program) (ns : List ℤ) (s : Config) (n : Numbers) → IsNumbered p ns s n → AreNumbered n.objects s.objects }
    ensures threads_at_home { (p : Program) (ns : List ℤ) (s : Config) (n : Numbers) → IsNumbered p ns s n
        → (q : Name) (k : ℕ) (x : Name) (l : Thread) → IsListed n.threads q k x → fin.get s.threads x ≡ Some (Live l) → l.home ≡ q }
    ensures objects_at_home { (p : Program) (ns : List ℤ) (s : Config) (n : Numbers) → IsNumbered p ns s n
        → (q : Name) (k : ℕ) (o : Name) (b : Object) → IsListed n.objects q k o → fin.get s.objects o ≡ Some b → b.home ≡ q }
    ensures threads_counted { (p : Program) (ns : List ℤ) (s : Config) (n : Numbers) → IsNumbered p ns s n
        → (q : Name) → length (listed n.threads q) ≡ count s.threads_made q }
    ensures threads_stay { (p : Program) (t : Name) (s r : Config) (n : Numbers) → step p t s ≡ Moves r
        → NumbersStay n.threads (numbers_step p t s n).threads }
    ensures objects_stay { (p : Program) (t : Name) (s r : Config) (n : Numbers) → step p t s ≡ Moves r
        → NumbersStay n.objects (numbers_step p t s n).objects }
{}

/// A run numbers its processors one to one, the root first, and main's thread is the first there. Each other processor has the name of an
/// object that there is. As many have numbers as were made, and each thread and each object is on one that has. A step takes no
/// number away.
pub fn processors_are_one_to_one()
    ensures processors { (p : Program) (ns : List ℤ) (s : Config) (n : Numbers) → IsNumbered p ns s n
        → (j k : ℕ) (q : Name) → slice_get n.processors j ≡ Some q → slice_get n.processors k ≡ Some q → j ≡ k }
    ensures root { (p : Program) (ns : List ℤ) (s : Config) (n : Numbers) → IsNumbered p ns s n → slice_get n.processors 0 ≡ Some [] }
    ensures main { (p : Program) (ns : List ℤ) (s : Config) (n : Numbers) → IsNumbered p ns s n → IsListed n.threads [] 0 [] }
    ensures founded { (p : Program) (ns : List ℤ) (s : Config) (n : Numbers) → IsNumbered p ns s n
        → (k : ℕ) (q : Name) → slice_get n.processors k ≡ Some q → q ≢ [] → (b : Object) × (fin.get s.objects q ≡ Some b) }
    ensures processors_counted { (p : Program) (ns : List ℤ) (s : Config) (n : Numbers) → IsNumbered p ns s n → s.processors ≡ length n.processors }
    ensures threads_housed { (p : Program) (ns : List ℤ) (s : Config) (n : Numbers) → IsNumbered p ns s n
        → (q : Name) (k : ℕ) (x : Name) → IsListed n.threads q k x → (j : ℕ) × (slice_get n.processors j ≡ Some q) }
    ensures objects_housed { (p : Program) (ns : List ℤ) (s : Config) (n : Numbers) → IsNumbered p ns s n
        → (q : Name) (k : ℕ) (o : Name) → IsListed n.objects q k o → (j : ℕ) × (slice_get n.processors j ≡ Some q) }
    ensures processors_stay { (p : Program) (t : Name) (s r : Config) (n : Numbers) → step p t s ≡ Moves r
        → (k : ℕ) (q : Name) → slice_get n.processors k ≡ Some q → slice_get (numbers_step p t s n).processors k ≡ Some q }
{}
