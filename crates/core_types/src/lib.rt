//! Types of running programs: a typing of the core language, and what it promises of every run of a well-typed program. Values keep their types,
//! local pointers lead to their own processor, and a thread inside an atomic function always goes on. The functions do nothing: their contracts
//! are the laws.
//!
//! The crate knows the core language and its runs (`cc_core`), and that an object has one holder (`one_holder`). It must know nothing of source
//! texts, static rules, compiled code and machines: that what the front end leaves is well typed is a law for a crate above.
//!
//! A typing may be so weak that it says nothing, or so strict that no program has types. `examples_are_told_apart` guards against both: some
//! programs are well typed, and others have no types whatever the tables are. A change of the rules must leave it as it is.
#![tactic(auto)]

ghost use Rattle.std.specs.Prelude.{◌≡◌, ◌⊎◌, ℕ, true, false, List, [], length, Some, ℤ};
ghost use Rattle.std.specs.FinMap as fin;
ghost use Rattle.global_ptr.specs.declared.ends.Standing.TheVariants.{Done, Blocked};
ghost use Rattle.cc_ops.specs.Values.{Int, Void};
ghost use Rattle.cc_core.specs.Names.{Name, Value};
ghost use Rattle.cc_core.specs.Core.{Program, Term, function, shapes};
ghost use Rattle.cc_core.specs.Asks.{Ask, Answer, Copies};
ghost use Rattle.cc_core.specs.Next.{After, Asks, next};
ghost use Rattle.cc_core.specs.Config.{Config, Thread, Live, Ended, Object};
ghost use Rattle.cc_core.specs.Needs.{any_holds};
ghost use Rattle.cc_core.specs.Source.{IsProgram};
ghost use Rattle.cc_core.specs.Laws.{NamesAreFree};
ghost use Rattle.cc_core.specs.Steps.{Moves, step, start, CanMove, IsAtRest, Stands};
ghost use Rattle.core_types.specs.Types.{Types};
ghost use Rattle.core_types.specs.Programs.{HasTypes, WellTyped};
ghost use Rattle.core_types.specs.Runs.{IsTypedConfig, IsReachedFrom};
ghost use Rattle.core_types.specs.Kinds.{HasKinds, IsAddress, IsInt, IsWholeAt, StaysHere};
ghost use Rattle.core_types.specs.Homes.{HoldsAt, KeepHomes};
ghost use Rattle.core_types.specs.Strict.{IsStrict};
ghost use Rattle.core_types.specs.Atomic.{IsInAtomic};
ghost use Rattle.core_types.specs.Examples.{good, pointer_as_int, pointer_given, atomic_waits, local_sent, holder_kept, holder_sent, sync_copied};

/// Types are kept. Where a program has some types, a run begins in a configuration that has them, from as many ints as `main` has
/// parameters, and each step of any thread keeps them: so every configuration of every run has them.
pub fn types_are_kept()
    ensures begun { (p : Program) (y : Types) → HasTypes p y → (ns : List ℤ) → length ns ≡ length (function p p.main).shape.params
        → IsTypedConfig p y (start p ns) }
    ensures kept { (p : Program) (y : Types) → HasTypes p y → (t : Name) (s r : Config) → NamesAreFree s → IsTypedConfig p y s
        → step p t s ≡ Moves r → IsTypedConfig p y r }
    ensures reached { (p : Program) (y : Types) → HasTypes p y → (ns : List ℤ) (s : Config) → IsReachedFrom p ns s → IsTypedConfig p y s }
{}

/// Where `main` of a well-typed program has ended, it has ended with an int.
pub fn main_ends_with_an_int()
    ensures { (p : Program) → WellTyped p → (ns : List ℤ) (s : Config) (v : Value) → IsReachedFrom p ns s
        → fin.get s.threads [] ≡ Some (Ended v) → (n : ℤ) × (v ≡ Int n) }
{}

/// Where a run of a well-typed program has come to rest, it is done, with an int as the result of `main`, or it is blocked, with some threads
/// left. So a run at rest always has a standing.
pub fn runs_at_rest_stand()
    ensures { (p : Program) → WellTyped p → (ns : List ℤ) (s : Config) → IsReachedFrom p ns s → IsAtRest p s → (limit n : ℕ)
        → ((v : ℤ) × Stands p limit n s (Done v)) ⊎ ((k : ℕ) × Stands p limit n s (Blocked k)) }
{}

/// Whatever a thread of a well-typed program asks for, it asks for it with values of the kinds that are wanted: operands, indexes and
/// what is printed are ints, what is read, written or called on is a pointer or null, and a call hands over a value of its kind for each
/// parameter. So nothing ever counts as 0 or as null for want of the right kind.
pub fn asks_have_their_kinds()
    ensures { (p : Program) → WellTyped p → (ns : List ℤ) (s : Config) → IsReachedFrom p ns s → (t : Name) (l : Thread)
        → fin.get s.threads t ≡ Some (Live l) → (line : ℕ) (ask : Ask Name) (k : Answer Name → After Term)
        → next p l.term ≡ Asks line ask k → HasKinds p ask }
{}

/// Whatever a thread of a well-typed program does with its values itself, they have the kinds that are wanted: it takes the address of a
/// member of a pointer or null, tests ints, and hands over as many values as a call takes, each of its kind.
pub fn threads_are_strict()
    ensures { (p : Program) → WellTyped p → (ns : List ℤ) (s : Config) → IsReachedFrom p ns s → (t : Name) (l : Thread)
        → fin.get s.threads t ≡ Some (Live l) → IsStrict p 0 Void [] l.term }
{}

/// Each value that a cell of an object holds in a run of a well-typed program is an int, a pointer or null: void is stored nowhere.
pub fn cells_hold_values()
    ensures { (p : Program) → WellTyped p → (ns : List ℤ) (s : Config) → IsReachedFrom p ns s → (o : Name) (x : Object)
        → fin.get s.objects o ≡ Some x → (i : ℕ) (v : Value) → HoldsAt x i v → IsInt v ⊎ IsAddress v }
{}

/// An object that is handed over by value is whole: in every run of a well-typed program it has as many cells as are read, and none of them
/// is a sync cell. So no null stands for a cell that is not there or is not defined, and the read never waits.
pub fn copies_are_whole()
    ensures whole { (p : Program) → WellTyped p → (ns : List ℤ) (s : Config) → IsReachedFrom p ns s → (t : Name) (l : Thread)
        → fin.get s.threads t ≡ Some (Live l) → (line : ℕ) (from : Value) (n : ℕ) (k : Answer Name → After Term)
        → next p l.term ≡ Asks line (Copies from n) k → IsWholeAt s from n }
    ensures moves { (p : Program) → WellTyped p → (ns : List ℤ) (s : Config) → IsReachedFrom p ns s → (t : Name) (l : Thread)
        → fin.get s.threads t ≡ Some (Live l) → (line : ℕ) (from : Value) (n : ℕ) (k : Answer Name → After Term)
        → next p l.term ≡ Asks line (Copies from n) k → CanMove (step p t s) }
{}

/// Whatever a thread of a well-typed program reads, writes or calls without a global pointer is on the thread's own processor.
pub fn local_asks_stay_here()
    ensures { (p : Program) → WellTyped p → (ns : List ℤ) (s : Config) → IsReachedFrom p ns s → (t : Name) (l : Thread)
        → fin.get s.threads t ≡ Some (Live l) → (line : ℕ) (ask : Ask Name) (k : Answer Name → After Term)
        → next p l.term ≡ Asks line ask k → StaysHere s l.home ask }
{}

/// Homes are kept. In every configuration of a run a pointer whose type is not global leads to an object on the processor where the pointer is
/// held, by a thread or in a cell; and what a remote ask hands over or takes back has types that may go to another processor: ints and global
/// pointers.
pub fn pointers_keep_their_homes()
    ensures { (p : Program) (y : Types) → HasTypes p y → (ns : List ℤ) (s : Config) → IsReachedFrom p ns s → KeepHomes p y s }
{}

/// Atomic functions go on. A thread that is inside an atomic function, in a run of a well-typed source, always has a step or a fault as
/// its next move. So where a run has come to rest no thread is inside an atomic function, and no object is held.
pub fn atomic_functions_go_on()
    ensures moves { (p : Program) (y : Types) → HasTypes p y → IsProgram p → (ns : List ℤ) (s : Config) → IsReachedFrom p ns s
        → (t : Name) (l : Thread) → fin.get s.threads t ≡ Some (Live l) → IsInAtomic p l.inside → CanMove (step p t s) }
    ensures outside { (p : Program) (y : Types) → HasTypes p y → IsProgram p → (ns : List ℤ) (s : Config) → IsReachedFrom p ns s
        → IsAtRest p s → (t : Name) (l : Thread) → fin.get s.threads t ≡ Some (Live l) → IsInAtomic p l.inside → ⊥ }
    ensures unheld { (p : Program) (y : Types) → HasTypes p y → IsProgram p → (ns : List ℤ) (s : Config) → IsReachedFrom p ns s
        → IsAtRest p s → (o : Value) → any_holds (shapes p) o (fin.values s.threads) ≡ false }
{}

/// The rules take something, and refuse something. There is a well-typed program with a processor object, remote calls, an atomic function,
/// a sync member, a fork, and objects that are handed over by value, here and to another processor; and one that hands over an object with
/// a local pointer here. No table of types makes a program well typed that holds a pointer as an int, whose `main` gives a pointer, whose
/// atomic function reads a sync variable, that sends a pointer to another processor, alone or in an object, which is read there as a local
/// one, or that hands over by value an object with a sync field.
pub fn examples_are_told_apart()
    ensures takes { WellTyped good }
    ensures takes_pointer { WellTyped holder_kept }
    ensures pointer_as_int { WellTyped pointer_as_int → ⊥ }
    ensures pointer_given { WellTyped pointer_given → ⊥ }
    ensures atomic_waits { WellTyped atomic_waits → ⊥ }
    ensures local_sent { WellTyped local_sent → ⊥ }
    ensures holder_sent { WellTyped holder_sent → ⊥ }
    ensures sync_copied { WellTyped sync_copied → ⊥ }
{}
