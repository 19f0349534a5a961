//! The law of the mesh: the threads of all processors, each at the one spot where it stands, and the moves between spots. A thread goes on, waits for a
//! cell, an object or its branches, has sent a request, is answered, or has ended. Each move is one step of a run of the program, of the thread that
//! has that number, or it leaves the run as it is. The functions do nothing: their contracts are the laws.
//!
//! The crate knows the machine of numbers (`numbered_runs`), whose steps are those of the definition. It must know nothing of how a processor keeps its
//! threads: of ready lists, tables, turns, rounds and seeds. It says only what its lists must hold (`specs/Queues`).
#![tactic(auto)]

ghost use Rattle.std.specs.Prelude.{◌≡◌, ◌<◌, ℤ, ℕ, List, [], ◌∷◌, ◌++◌, length, map, slice_get, Option, Some, None};
ghost use Rattle.global_ptr.specs.declared.ends.FaultKind.{FaultKind};
ghost use Rattle.cc_ops.specs.Values.{Value};
ghost use Rattle.cc_ops.specs.Machine.{Address, Values};
ghost use Rattle.cc_ops.specs.declared.number.ThreadNo.{ThreadNo};
ghost use Rattle.cc_ops.specs.Shelves.{Shelf, changed};
ghost use Rattle.cc_core.specs.Names.{Name};
ghost use Rattle.cc_core.specs.Core.{Program};
ghost use Rattle.cc_core.specs.Config.{Config};
ghost use Rattle.cc_core.specs.Source.{IsProgram};
ghost use Rattle.cc_core.specs.Steps as core;
ghost use Rattle.cc_core.specs.Asks.{Ask, Answer};
ghost use Rattle.cc_core.specs.Numbers.{Numbers, first_numbers};
ghost use Rattle.cc_code.specs.Code.{Code, Then};
ghost use Rattle.cc_code.specs.Settles.{Settles};
ghost use Rattle.numbered_runs.specs.Machine.{Progress, thread_in, ended_with, all_going};
ghost use Rattle.numbered_runs.specs.Stands.{IsThread};
ghost use Rattle.numbered_runs.specs.Steps as numbered;
ghost use Rattle.law_mesh.specs.Spots.{Mesh, Fiber, Spot, Active, Gone, shown, item_in, put_item, verdict};
ghost use Rattle.law_mesh.specs.Queues.{Queue, Ready, Item, Itself, owner, Queues, MayLie, Hold, carried, pulled, pushed, poured, woken, AreIdle};
ghost use Rattle.law_mesh.specs.Moves.{Moves, Step, FaultsAt, acted, effect_of, push_item};
ghost use Rattle.law_mesh.specs.Shows.{Shows, IsShown, IsPosted, CannotMove};
ghost use Rattle.law_mesh.specs.Local.{Place, place_after, AsksOn, AnsweredOn, AreOn};
ghost use Rattle.law_mesh.specs.Rest.{InOrder, IsIdle, all_living};
ghost use Rattle.law_mesh.specs.Begins.{first_mesh};
ghost use Rattle.law_mesh.specs.Source.{IsOfRun, GoesOnInRun};

/// A mesh begins where a run of its program begins. A move of it is a step of the run, of the thread of that number, or leaves the run as it is;
/// and a fault is the thread's own.
pub fn a_run_is_followed()
    ensures begins { (p : Program) → IsProgram p → p.main < length p.functions → (is : List ℤ)
        → IsOfRun p (first_mesh p is) (core.start p is) (first_numbers p is) }
    ensures moves { (p : Program) (m : Mesh) (s : Config) (n : Numbers) → IsOfRun p m s n → (l : Option Step) (next : Mesh)
        → Moves m l next → GoesOnInRun p s n l next }
    ensures faults { (p : Program) (m : Mesh) (s : Config) (n : Numbers) → IsOfRun p m s n → (t : ThreadNo) (kind : FaultKind) (line : ℕ)
        → FaultsAt m t kind line → (x : Name) × IsThread n t x × (core.step p x s ≡ core.Faults kind line) }
{}

/// A move of a mesh leaves the machine of numbers that it shows, or is the step of a thread there, which posts what the move says; and a fault is that
/// thread's.
pub fn moves_are_shown()
    ensures moves { (m : Mesh) (threads : List (List Progress)) → Shows m threads → ((b : ℕ) → Settles m.code b)
        → (l : Option Step) (n : Mesh) → Moves m l n → IsShown m threads l n }
    ensures posts { (m : Mesh) (threads : List (List Progress)) → Shows m threads → (l : Option Step) (n : Mesh) → Moves m l n
        → IsPosted m.code threads l }
    ensures faults { (m : Mesh) (threads : List (List Progress)) → Shows m threads → (t : ThreadNo) (kind : FaultKind) (line : ℕ)
        → FaultsAt m t kind line → numbered.step (shown m threads) t ≡ numbered.Faults kind line }
{}

/// Where a mesh is idle no thread of the machine of numbers can move, and as many go on there as live in the mesh. What a thread has ended with is
/// shown.
pub fn rest_is_shown()
    ensures rest { (m : Mesh) (threads : List (List Progress)) → Shows m threads → InOrder m → IsIdle m
        → (t : ThreadNo) → CannotMove (shown m threads) t }
    ensures left { (m : Mesh) (threads : List (List Progress)) → Shows m threads → InOrder m → IsIdle m
        → all_going threads ≡ all_living m.spots }
    ensures value { (m : Mesh) (threads : List (List Progress)) → Shows m threads → (t : ThreadNo) (v : Value Address)
        → item_in m.spots t ≡ Some (Gone v) → ended_with (thread_in threads t) ≡ Some v }
{}

/// What an ask finds depends on the processor that answers it alone. A step that asks of its own processor alone changes that processor alone, and
/// the output.
pub fn steps_are_local()
    ensures answers { (h q : ℕ) (m : Mesh) (shelves : List Shelf) (spots : List (List Spot)) → slice_get m.shelves h ≡ slice_get shelves h
        → slice_get m.spots h ≡ slice_get spots h → (f : Fiber) (ask : Ask Address) → AnsweredOn h q f ask
        → verdict m q f ask ≡ verdict (record m { shelves = shelves; spots = spots }) q f ask }
    ensures changes { (m : Mesh) (q n : ℕ) (p : Place) → slice_get m.shelves q ≡ Some p.shelf → slice_get m.spots q ≡ Some p.spots
        → (f : Fiber) → AreOn q f.inside → (ask : Ask Address) → AsksOn q f ask → (k : Answer Address → Then Address) (found : Values)
        → let e = effect_of m q f ask found in let after = place_after m.code q n p f ask k found e in
        acted m (record { processor = q; thread = n }) f ask k found ≡ record m {
          shelves = changed m.shelves q (λ s. after.shelf);
          spots = changed m.spots q (λ s. after.spots);
          output = m.output ++ e.prints;
        } }
{}

/// Lists that hold the threads of a mesh, each once, hold them after one item is carried to the back of another list or taken out, after a thread
/// is made, and after all that wait for a cell are woken. Where no processor is busy the mesh is idle.
pub fn lists_hold_threads()
    ensures carry { (code : Code) (queues : Queues) (spots : List (List Spot)) → Hold code queues spots → (k : Queue) (front back : List Item) (x : Item)
        → queues k ≡ front ++ x ∷ back → (l : Queue) (y : Item) → owner y ≡ owner x → (p q : Spot) → item_in spots (owner x) ≡ Some p
        → MayLie code (owner x) q (Some (l, y)) → Hold code (carried queues k front back l y) (put_item spots (owner x) q) }
    ensures out { (code : Code) (queues : Queues) (spots : List (List Spot)) → Hold code queues spots → (k : Queue) (front back : List Item) (x : Item)
        → queues k ≡ front ++ x ∷ back → (p q : Spot) → item_in spots (owner x) ≡ Some p → MayLie code (owner x) q None
        → Hold code (pulled queues k front back) (put_item spots (owner x) q) }
    ensures made { (code : Code) (queues : Queues) (spots : List (List Spot)) → Hold code queues spots → (q : ℕ) (row : List Spot) → slice_get spots q ≡ Some row → (f : Fiber)
        → Hold code (pushed queues (Ready q) (Itself (record { processor = q; thread = length row }))) (push_item spots q (Active f)) }
    ensures woken { (code : Code) (queues : Queues) (spots : List (List Spot)) → Hold code queues spots → (a : Address) (x : ℕ)
        → Hold code (poured queues a x) (map (map (woken a x)) spots) }
    ensures idle { (code : Code) (queues : Queues) (m : Mesh) → Hold code queues m.spots → AreIdle queues → IsIdle m }
{}
