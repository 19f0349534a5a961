//! The law of the machine of processors: what one processor does by itself, as closed, total functions (`specs/Alone`); the moves of all processors in any
//! order (`specs/Machine`); and that each is a run of the mesh, and so of the program, with as many steps and the same output. The functions do
//! nothing: their contracts are the laws.
//!
//! A machine that is written in code is to make these moves: its contracts should speak of `moved`, `served`, `delivered` and `made`. The crate knows the
//! mesh (`law_mesh`) and, for one law, the types of running programs (`core_types`). It must know nothing of turns, rounds, quotas and seeds: here any
//! processor moves next.
#![tactic(auto)]

ghost use Rattle.std.specs.Prelude.{◌≡◌, ◌<◌, ℤ, ℕ, List, [], length, map, slice_get, Bool, false, Option, Some, None};
ghost use Rattle.global_ptr.specs.declared.ends.FaultKind.{FaultKind};
ghost use Rattle.cc_ops.specs.Values.{Ptr};
ghost use Rattle.cc_ops.specs.Machine.{Address};
ghost use Rattle.cc_ops.specs.declared.number.ThreadNo.{ThreadNo};
ghost use Rattle.cc_ops.specs.Shelves.{Shelf, no_shelf, cell_in, cells_in, is_held, slots_in};
ghost use Rattle.cc_core.specs.Names.{Name};
ghost use Rattle.cc_core.specs.Core.{Program, function};
ghost use Rattle.cc_core.specs.Config.{Config};
ghost use Rattle.cc_core.specs.Source.{IsProgram};
ghost use Rattle.cc_core.specs.Steps as core;
ghost use Rattle.cc_core.specs.Numbers.{Numbers, first_numbers};
ghost use Rattle.cc_code.specs.Code.{Code};
ghost use Rattle.numbered_runs.specs.Stands.{IsThread};
ghost use Rattle.core_types.specs.Types.{Types};
ghost use Rattle.core_types.specs.Programs.{HasTypes};
ghost use Rattle.law_mesh.specs.Spots.{made_of, is_gone, Mesh, item_in};
ghost use Rattle.law_mesh.specs.Moves.{FaultsAt};
ghost use Rattle.law_mesh.specs.Local.{cell_on};
ghost use Rattle.law_processors.specs.Processors.{Entry, Processor, Processors, tables_of, Runs};
ghost use Rattle.law_processors.specs.Alone.{Label, rejoins, rejoined, alone_at, seen_entry, cells_on, has_ended_on};
ghost use Rattle.law_processors.specs.Machine.{Moves, Faults, IsStuck, Run, line_of, one_or_none};
ghost use Rattle.law_processors.specs.Busy.{all_living_in};
ghost use Rattle.law_processors.specs.Orderly.{OthersWait, held_on};
ghost use Rattle.law_processors.specs.Follow.{GoesTo, step_of, IsPlaced};
ghost use Rattle.law_processors.specs.Whole.{first_processors, StandsFor, Follows};

/// The machine of processors begins where a run of its program begins. So many steps of it, in any order of processors, threads and messages, are
/// as many steps of the run, with the same output; a fault is a thread's own, at the line where it stands; and where the machine has no further move
/// the run is at rest, with as many live threads.
pub fn machine_follows_the_run()
    ensures begins { (p : Program) → IsProgram p → p.main < length p.functions → (is : List ℤ)
        → StandsFor p (first_processors p is) (core.start p is) (first_numbers p is) }
    ensures runs { (p : Program) (m : Processors) (s : Config) (n : Numbers) → StandsFor p m s n → (steps : List Label) (after : Processors)
        → Run m steps after → Follows p s n steps after }
    ensures prints { (p : Program) (m : Processors) (s : Config) (n : Numbers) → StandsFor p m s n → m.output ≡ s.output }
    ensures rest { (p : Program) → IsProgram p → p.main < length p.functions → (is : List ℤ) (steps : List Label) (m : Processors)
        → Run (first_processors p is) steps m → IsStuck m → (s : Config) (n : Numbers) → StandsFor p m s n
        → core.IsAtRest p s × (core.threads_left s ≡ all_living_in (tables_of m.all)) }
    ensures faults { (p : Program) (m : Processors) (s : Config) (n : Numbers) → StandsFor p m s n → (kind : FaultKind) (t : ThreadNo)
        → Faults m kind t → (x : Name) × IsThread n t x × (core.step p x s ≡ core.Faults kind (line_of m t)) }
{}

/// Each move of the machine is a run of moves of the mesh that it shows, with the step that it says, if it says one; a request is served where it goes;
/// and a fault is one of the mesh, at the line where the thread stands.
pub fn machine_moves_are_shown()
    ensures moves { (m : Processors) (n : Mesh) → Runs m n → (step : Option Label) (after : Processors) → Moves m step after
        → GoesTo n (map step_of (one_or_none step)) after }
    ensures placed { (m : Processors) (n : Mesh) → Runs m n → (l : Label) (after : Processors) → Moves m (Some l) after → IsPlaced l }
    ensures faults { (m : Processors) (n : Mesh) → Runs m n → (kind : FaultKind) (t : ThreadNo) → Faults m kind t
        → FaultsAt n t kind (line_of m t) }
{}

/// What an ask of a processor finds there: its cells, who holds its objects, how many cells and threads it has, and which of its threads have ended.
pub fn one_processor_is_seen()
    ensures cell { (q : ℕ) (s : Shelf) (a : Address) → a.processor ≡ q → (x : ℕ) → cell_in (alone_at q no_shelf s) a x ≡ cell_on s a.object x }
    ensures cells { (q : ℕ) (s : Shelf) (a : Address) → a.processor ≡ q → cells_in (alone_at q no_shelf s) a ≡ cells_on s a.object }
    ensures held { (q : ℕ) (s : Shelf) (a : Address) → a.processor ≡ q → (x : ℕ)
        → is_held (alone_at q no_shelf s) (Ptr a x) ≡ held_on s a.object }
    ensures slots { (q : ℕ) (s : Shelf) → slots_in (alone_at q no_shelf s) q ≡ s.slots }
    ensures threads { (q : ℕ) (es : List Entry) → made_of (alone_at q [] (map seen_entry es)) q ≡ length es }
    ensures ended { (q : ℕ) (es : List Entry) (t : ThreadNo) → t.processor ≡ q
        → is_gone (item_in (alone_at q [] (map seen_entry es)) t) ≡ has_ended_on (slice_get es t.thread) }
{}

/// Where all threads of a processor that join, but thread i, have a branch that lives, an end looks at thread i alone.
pub fn an_end_wakes_the_parent()
    ensures { (code : Code) (q i : ℕ) (p : Processor) → OthersWait code q i p → (k : ℕ) → i < k
        → rejoined code q k p ≡ rejoins code q i (slice_get p.table i) p }
{}

/// Where the machine of a well-typed source has no further move, no object is held, and no thread waits for one: so no thread stands inside an
/// atomic function.
pub fn objects_are_free_at_rest()
    ensures { (p : Program) (y : Types) → HasTypes p y → IsProgram p → p.main < length p.functions → (is : List ℤ)
        → length is ≡ length (function p p.main).shape.params → (steps : List Label) (m : Processors) → Run (first_processors p is) steps m → IsStuck m
        → (q : ℕ) (r : Processor) → slice_get m.all q ≡ Some r → (o : ℕ) → (r.locks o ≡ None) × (held_on r.shelf o ≡ false) }
{}
