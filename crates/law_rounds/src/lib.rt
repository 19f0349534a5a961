//! The law of turns, rounds and runs: in which order the processors of the machine move, and that a run by rounds is a run of the program. A turn is one
//! processor's work within a quota; a round is a turn of each busy processor, then delivery, then new processors; a run is rounds until the
//! machine rests, meets a fault or has made as many steps as the limit allows. The functions do nothing: their contracts are the laws.
//!
//! The crate knows the moves of the machine (`law_processors`), and no instruction: a turn only asks a processor to move or to serve. What is drawn is drawn by
//! SplitMix64 (`rand_xoshiro`). It must know nothing of threads of the operating system, of boxes and buffers, and of journals' text.
#![tactic(auto)]

ghost use Rattle.std.specs.Prelude.{◌≡◌, ◌<◌, ℤ, ℕ, List, length, slice_get, Bool, Some, None, pos, [], ◌∷◌};
ghost use Rattle.global_ptr.specs.declared.ends.Standing.{Standing};
ghost use Rattle.global_ptr.specs.declared.ends.Standing.TheVariants.{Done};
ghost use Rattle.cc_core.specs.Core.{Program};
ghost use Rattle.cc_core.specs.Source.{IsProgram};
ghost use Rattle.cc_code.specs.Code.{Code};
ghost use Rattle.law_mesh.specs.Queues.{Message};
ghost use Rattle.law_processors.specs.Processors.{Processor, Processors, with_processor};
ghost use Rattle.law_processors.specs.Busy.{AllFree};
ghost use Rattle.law_rounds.specs.Turn.{Note, TurnEnd, TurnIs, TurnRuns, SettleIs, SettlesWell, with_first, serves_now, ServesWell};
ghost use Rattle.law_rounds.specs.Round.{due, Part, AreParts, dues, Rise, joined, Turns, RoundEnd, RoundIs, Rounds, DoneWell, RunIs, RunFollows};
ghost use Rattle.law_rounds.specs.Examples.{prints_once, notes_once, forks_two, notes_two, calls_elsewhere, notes_elsewhere};

/// A turn of a processor is a run of the machine, of as many steps as are noted and at most the quota. It ends idle exactly where no waiter is ready
/// and the inbox is empty, and else with its quota used up, or at a fault. There is one such turn. Silent moves alone are such a turn, or find
/// a step or a fault. A message that is served by itself is one move.
pub fn turns_are_runs()
    ensures runs { (m : Processors) (q : ℕ) (p : Processor) → slice_get m.all q ≡ Some p → (quota word : ℕ) (after : Processor) (prints : List ℕ)
        (notes : List Note) (e : TurnEnd) → TurnIs m.code q p quota word after prints notes e → p.hand ≡ None → TurnRuns m q quota after prints notes e }
    ensures settled { (m : Processors) (q : ℕ) (p : Processor) → slice_get m.all q ≡ Some p → p.hand ≡ None → (after : Processor) (found : Bool)
        → SettleIs m.code q p after found → SettlesWell m q after found }
    ensures served { (m : Processors) (q : ℕ) (p : Processor) → slice_get m.all q ≡ Some p → (message : Message)
        → ServesWell (with_processor m q (with_first message p)) q (serves_now m.code q message p) }
    ensures one { (code : Code) (q : ℕ) (p : Processor) (quota word : ℕ) (p1 p2 : Processor) (prints1 prints2 : List ℕ) (notes1 notes2 : List Note)
        (d e : TurnEnd) → TurnIs code q p quota word p1 prints1 notes1 d → TurnIs code q p quota word p2 prints2 notes2 e
        → (p1 ≡ p2) × (prints1 ≡ prints2) × (notes1 ≡ notes2) × (d ≡ e) }
{}

/// A round, and rounds one after another, are a run of the machine, of as many steps as are noted.
pub fn rounds_are_runs()
    ensures round { (words : List ℕ) (left : ℕ) (m after : Processors) (notes : List Note) (e : RoundEnd) → RoundIs words left m after notes e
        → AllFree m.all → DoneWell m left after notes e }
    ensures rounds { (seed state left : ℕ) (m after : Processors) (notes : List Note) (e : RoundEnd) → Rounds seed state left m after notes e
        → AllFree m.all → DoneWell m left after notes e }
{}

/// Turns that processors take at once, each from where the round began, put together by rising place up to the first fault, are the same turns one
/// after another. And the places of those that are due rise.
pub fn turns_at_once_are_turns_in_order()
    ensures joined { (quota : ℕ) (m : Processors) (xs : List Part) (least : ℕ) → AreParts quota m xs → Rise least (dues xs)
        → let j = joined m xs in Turns quota (dues xs) m j.mesh j.notes j.fault }
    ensures due { (all : List Processor) (k : ℕ) (words : List ℕ) (least : ℕ) → Rise least (due all k words least) }
{}

/// A run by rounds is a run of the program: within the limit, of as many steps as are noted, with the same output and the same standing.
pub fn runs_are_of_the_program()
    ensures { (p : Program) → IsProgram p → p.main < length p.functions → (is : List ℤ) (seed limit : ℕ) (output : List ℕ) (s : Standing)
        (notes : List Note) (run : RunIs p is seed limit output s notes) → RunFollows p is limit output s notes run.end }
{}

/// The definitions of turns, rounds and runs compute: these runs by rounds are what a reader works out by hand. A program that prints a line's end and
/// returns 5; one whose two branches print one each; and one that makes a processor and calls its object, which takes four rounds.
pub fn small_runs_compute()
    ensures once { RunIs prints_once [] 0 100 (10 ∷ []) (Done (pos 5)) notes_once }
    ensures two { RunIs forks_two [] 0 100 (10 ∷ 10 ∷ []) (Done (pos 5)) notes_two }
    ensures elsewhere { RunIs calls_elsewhere [] 0 100 (10 ∷ []) (Done (pos 5)) notes_elsewhere }
{}
