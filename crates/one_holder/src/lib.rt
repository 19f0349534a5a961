//! At most one thread is inside atomic functions of an object.
#![tactic(auto)]

ghost use Rattle.std.specs.Prelude.{◌≡◌, ◌+◌, true, List, [], ◌∷◌, Some, None, ℤ};
ghost use Rattle.std.specs.FinMap as fin;
ghost use Rattle.cc_core.specs.Names.{Name, Map, Value};
ghost use Rattle.cc_core.specs.Core.{Program, Shapes, shapes};
ghost use Rattle.cc_core.specs.Config.{Config, Thread, State, Live};
ghost use Rattle.cc_core.specs.Laws.{IsReached};
ghost use Rattle.cc_core.specs.Needs.{is_inside, any_holds};
ghost use Rattle.cc_core.specs.Steps.{live};
ghost use Rattle.one_holder.specs.Holders.{HasOneHolder, IsInsideOnce};

/// In every configuration of a run at most one thread is inside atomic functions of an object, and it is inside one of them alone.
pub fn objects_have_one_holder()
    ensures one_holder { (p : Program) (ns : List ℤ) (s : Config) → IsReached p ns s → HasOneHolder (shapes p) s }
    ensures once { (p : Program) (ns : List ℤ) (s : Config) → IsReached p ns s
        → (x : Name) (l : Thread) → fin.get s.threads x ≡ Some (Live l) → IsInsideOnce (shapes p) l.inside }
{}

/// An object is held exactly where some thread is inside an atomic function of it.
pub fn holders_are_threads()
    ensures holds_found { (h : Shapes) (o : Value) (m : Map State) → any_holds h o (fin.values m) ≡ true
        → (x : Name) × (l : Thread) × (fin.get m x ≡ Some (Live l)) × (is_inside h o l.inside ≡ true) }
    ensures found_holds { (h : Shapes) (o : Value) (m : Map State) (x : Name) (l : Thread) → fin.get m x ≡ Some (Live l)
        → is_inside h o l.inside ≡ true → any_holds h o (fin.values m) ≡ true }
{}

/// How many threads go on where one comes, and where one changes.
pub fn live_threads_are_counted()
    ensures live_inserted { (m : Map State) (x : Name) (a : State) → fin.get m x ≡ None
        → live (fin.values (fin.insert m x a)) ≡ live (a ∷ []) + live (fin.values m) }
    ensures live_replaced { (m : Map State) (x : Name) (a b : State) → fin.get m x ≡ Some b
        → live (fin.values (fin.insert m x a)) + live (b ∷ []) ≡ live (a ∷ []) + live (fin.values m) }
{}
