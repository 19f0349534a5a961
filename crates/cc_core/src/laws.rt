//! Laws that show that the definition of runs is sane. The functions do nothing: their contracts are the laws.

ghost use Rattle.std.specs.Prelude.{◌≡◌, ℕ, ◌≤◌, List, ◌++◌, Some, ℤ};
ghost use Rattle.std.specs.FinMap as fin;
ghost use Rattle.cc_core.specs.Names.{Name, Value};
ghost use Rattle.cc_core.specs.Core.{Program};
ghost use Rattle.cc_core.specs.Config.{Config, Ended, Object};
ghost use Rattle.cc_core.specs.Steps.{Run};
ghost use Rattle.cc_core.specs.Laws.{IsReached, GoesOn, CountsGrow, ObjectStays, NamesAreFree};

/// A run and a run from where it ends are one run, and a run may be cut anywhere.
pub fn runs_compose()
    ensures joined { (p : Program) (ts us : List Name) (s r q : Config) → Run p ts s r → Run p us r q → Run p (ts ++ us) s q }
    ensures cut { (p : Program) (ts us : List Name) (s q : Config) → Run p (ts ++ us) s q → (r : Config) × Run p ts s r × Run p us r q }
{}

/// What was printed stays, and what is printed comes behind it.
pub fn output_grows()
    ensures { (p : Program) (ts : List Name) (s r : Config) → Run p ts s r → GoesOn s.output r.output }
{}

/// Counts of what was made never fall.
pub fn counts_grow()
    ensures { (p : Program) (ts : List Name) (s r : Config) → Run p ts s r → CountsGrow s r }
{}

/// In every configuration of a run the names that a thread gives next are free.
pub fn names_are_free()
    ensures { (p : Program) (ns : List ℤ) (s : Config) → IsReached p ns s → NamesAreFree s }
{}

/// A thread that has ended stays ended, with its value.
pub fn ended_stays()
    ensures { (p : Program) (ns : List ℤ) (ts : List Name) (s r : Config) → IsReached p ns s → Run p ts s r
        → (t : Name) (v : Value) → fin.get s.threads t ≡ Some (Ended v) → fin.get r.threads t ≡ Some (Ended v) }
{}

/// An object stays where it is and keeps its number of cells, and a full cell never changes.
pub fn objects_stay()
    ensures { (p : Program) (ns : List ℤ) (ts : List Name) (s r : Config) → IsReached p ns s → Run p ts s r
        → (o : Name) (a : Object) → fin.get s.objects o ≡ Some a → (b : Object) × (fin.get r.objects o ≡ Some b) × ObjectStays a b }
{}
