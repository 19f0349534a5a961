//! What the front end leaves of a well-formed program is well typed: the joint between the static rules and the types of the core language. The
//! functions do nothing: their contracts are the laws.
//!
//! The crate knows the definitions of the static rules and of what is elaborated (`cc_types` and the crates below it), and the typing of the core
//! language with what it promises of runs (`core_types`). Of the proofs about sharing (`cc_shared`) it takes what speaks of types and constants
//! alone. It must know nothing of rules of sharing, of compiled code and of machines, and it proves nothing about steps itself.
//!
//! Laws about every well-formed program would say nothing if there were none: the programs that the tests of the command run are well formed,
//! and the examples of `core_types` show which core programs have types.
#![tactic(auto)]

ghost use Rattle.std.specs.Prelude.{◌≡◌, ◌⊎◌, ℕ, false, List, [], length, Some, ℤ};
ghost use Rattle.std.specs.FinMap as fin;
ghost use Rattle.cc_core.specs.Asks.{Ask, Answer};
ghost use Rattle.cc_core.specs.Config.{Config, Thread, Live, Ended};
ghost use Rattle.cc_core.specs.Core as core;
ghost use Rattle.cc_core.specs.Names.{Name, Value};
ghost use Rattle.cc_core.specs.Core.{function, shapes};
ghost use Rattle.cc_core.specs.Needs.{any_holds};
ghost use Rattle.cc_core.specs.Next.{After, Asks, next};
ghost use Rattle.cc_core.specs.Steps.{step, CanMove, IsAtRest, Stands};
ghost use Rattle.cc_core.specs.View.{program_of, stmts_of};
ghost use Rattle.cc_elaboration.specs.Statements.{function_body};
ghost use Rattle.cc_ops.specs.Values.{Int};
ghost use Rattle.cc_scopes.specs.Scope.{Context};
ghost use Rattle.cc_scopes.specs.declared.state.State.{State};
ghost use Rattle.cc_tree.specs.declared.declarations.Program.{Program};
ghost use Rattle.cc_tree.specs.declared.statements.Stmt.{Stmt};
ghost use Rattle.cc_types.specs.Program.{IsWellFormed, core_program, main_params};
ghost use Rattle.core_types.specs.Atomic.{IsInAtomic};
ghost use Rattle.core_types.specs.Homes.{KeepHomes};
ghost use Rattle.core_types.specs.Kinds.{StaysHere};
ghost use Rattle.core_types.specs.Programs.{HasTypes, WellTyped};
ghost use Rattle.core_types.specs.Runs.{IsReachedFrom};
ghost use Rattle.core_types.specs.Types.{Types};
ghost use Rattle.core_types.specs.Typing.{Scope, AreTyped};
ghost use Rattle.core_types.specs.Values.{World};
ghost use Rattle.global_ptr.specs.declared.ends.Standing.TheVariants.{Done, Blocked};
ghost use Rattle.source_types.specs.Reading.{Grown, Ends, LocalsFit, IsInside};

/// The body of a function that breaks no rule is well typed. Where its statements are read in a function of these types, no rule is broken in
/// the end, and the function may wait or nothing was read that may, the statements that are left are typed in the function's scope.
pub fn bodies_are_well_typed()
    ensures { (p : core.Program) (y : Types) (here : Scope) (grown : Grown) (cx : Context) → IsInside p y here grown cx → (bs : List Stmt) (s : State)
        → Ends grown (function_body cx bs s).1 → LocalsFit grown.made s.locals → (w : World) (q : Name)
        → AreTyped p y w q here (stmts_of (function_body cx bs s).0) }
{}

/// The core of each program that the static rules accept is well typed: there are tables of types, with which its functions, classes and
/// constructors are typed and its atomic functions never wait.
pub fn core_is_well_typed()
    ensures { (p : Program) → IsWellFormed p → WellTyped (program_of (core_program p)) }
{}

/// The function that a run begins with takes as many values as the checker counts parameters of `main`. So a run from so many ints is one of those
/// that the laws below speak of.
pub fn main_takes_its_parameters()
    ensures { (p : Program) → IsWellFormed p
        → main_params p.items ≡ length (function (program_of (core_program p)) (program_of (core_program p)).main).shape.params }
{}

/// `main` ends with an int: in every configuration that a run of a well-formed program reaches from as many ints as `main` has parameters.
pub fn main_ends_with_an_int()
    ensures { (p : Program) → IsWellFormed p → (ns : List ℤ) (s : Config) (v : Value) → IsReachedFrom (program_of (core_program p)) ns s
        → fin.get s.threads [] ≡ Some (Ended v) → (n : ℤ) × (v ≡ Int n) }
{}

/// Where a run of a well-formed program has come to rest, it is done, with an int as the result of `main`, or it is blocked, with some threads
/// left. So a run at rest always has a standing.
pub fn runs_at_rest_stand()
    ensures { (p : Program) → IsWellFormed p → (ns : List ℤ) (s : Config) → IsReachedFrom (program_of (core_program p)) ns s
        → IsAtRest (program_of (core_program p)) s → (limit n : ℕ)
        → ((v : ℤ) × Stands (program_of (core_program p)) limit n s (Done v))
        ⊎ ((k : ℕ) × Stands (program_of (core_program p)) limit n s (Blocked k)) }
{}

/// Whatever a thread of a well-formed program reads, writes or calls without a global pointer is on the thread's own processor.
pub fn local_asks_stay_here()
    ensures { (p : Program) → IsWellFormed p → (ns : List ℤ) (s : Config) → IsReachedFrom (program_of (core_program p)) ns s
        → (t : Name) (l : Thread) → fin.get s.threads t ≡ Some (Live l) → (line : ℕ) (ask : Ask Name) (k : Answer Name → After core.Term)
        → next (program_of (core_program p)) l.term ≡ Asks line ask k → StaysHere s l.home ask }
{}

/// Pointers keep their homes. For each well-formed program there are tables of types, with which it is well typed, such that in every run a
/// pointer whose type is not global leads to an object on the processor where the pointer is held, by a thread or in a cell; and what a remote
/// ask hands over or takes back has the type of an int or of a global pointer.
pub fn pointers_keep_their_homes()
    ensures { (p : Program) → IsWellFormed p → (y : Types) × HasTypes (program_of (core_program p)) y
        × ((ns : List ℤ) (s : Config) → IsReachedFrom (program_of (core_program p)) ns s → KeepHomes (program_of (core_program p)) y s) }
{}

/// A thread that is inside an atomic function, in a run of a well-formed program, has a step or a fault as its next move. So where a run has
/// come to rest no object is held.
pub fn atomic_functions_go_on()
    ensures moves { (p : Program) → IsWellFormed p → (ns : List ℤ) (s : Config) → IsReachedFrom (program_of (core_program p)) ns s
        → (t : Name) (l : Thread) → fin.get s.threads t ≡ Some (Live l) → IsInAtomic (program_of (core_program p)) l.inside
        → CanMove (step (program_of (core_program p)) t s) }
    ensures unheld { (p : Program) → IsWellFormed p → (ns : List ℤ) (s : Config) → IsReachedFrom (program_of (core_program p)) ns s
        → IsAtRest (program_of (core_program p)) s → (o : Value)
        → any_holds (shapes (program_of (core_program p))) o (fin.values s.threads) ≡ false }
{}
