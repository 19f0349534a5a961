//! Threads of the code that name objects by numbers do what threads of the source do.
#![tactic(auto)]

ghost use Rattle.std.specs.Prelude.{◌≡◌, ℕ, ◌<◌, List, [], length};
ghost use Rattle.cc_ops.specs.Values.{Value};
ghost use Rattle.cc_ops.specs.Machine.{Address};
ghost use Rattle.cc_core.specs.Names.{Name};
ghost use Rattle.cc_core.specs.Core.{Term, Starts, Program};
ghost use Rattle.cc_core.specs.Next.{next, entered};
ghost use Rattle.cc_code.specs.Code.{Code, Thread, Runs, Starting, Silent, enter_at, move};
ghost use Rattle.cc_code.specs.Settles.{Settles};
ghost use Rattle.cc_code.specs.Valid.{IsValid};
ghost use Rattle.cc_code.specs.Agrees.{ProgramStands};
ghost use Rattle.code_names.specs.Same.{Told, SameValue, SameValues};
ghost use Rattle.numbered_threads.specs.Numbered.{Naming, IsLater, Stands, IsSilent, MovesAlike};
ghost use Rattle.numbered_threads.specs.Quiet.{quiet_end};

/// Where the functions of a program stand in the code, an entered function and a thread whose first step is a call stand for those of
/// the source. Silent moves keep it. A thread that stands for one of the source, and whose next move is not silent, ends where that
/// ends, with its value, or asks what that asks, at its line; and after the same answer it stands for it again, as its branches do for
/// the branches. So it has the faults of the source, and it is never stuck.
pub fn numbered_threads_follow()
    ensures entered { (p : Program) (code : Code) → ProgramStands p code → (g : ℕ) → g < length code.shapes.functions → (naming : Naming)
        → (this : Value Address) (that : Value Name) → SameValue (Told naming) this that
        → (xs : List (Value Address)) (ys : List (Value Name)) → SameValues (Told naming) xs ys
        → Stands p code naming (Runs (enter_at code g this xs) [] []) (entered p g that ys) }
    ensures started { (p : Program) (code : Code) → ProgramStands p code → (g : ℕ) → g < length code.shapes.functions → (naming : Naming)
        → (this : Value Address) (that : Value Name) → SameValue (Told naming) this that
        → (vs : List (Value Address)) (ws : List (Value Name)) → SameValues (Told naming) vs ws
        → Stands p code naming (Starting g this vs) (Starts g that ws) }
    ensures quiet { (p : Program) (code : Code) (naming : Naming) (c d : Thread Address) (t : Term) → Stands p code naming c t
        → move code c ≡ Silent d → Stands p code naming d t }
    ensures later { (p : Program) (code : Code) (before after : Naming) → IsLater before after
        → (c : Thread Address) (t : Term) → Stands p code before c t → Stands p code after c t }
    ensures moves { (p : Program) (code : Code) (before after : Naming) → IsLater before after
        → (c : Thread Address) (t : Term) → Stands p code before c t → ¬ IsSilent (move code c)
        → MovesAlike p code before after (next p t) (move code c) }
{}

/// Silent moves come to an end where silent instructions do, as they do in valid code and in each layout. A thread at that end makes no
/// silent move; it stands for what the thread stood for; and a silent move on the way changes nothing of it.
pub fn silent_moves_end()
    ensures valid { (code : Code) → IsValid code → (b : ℕ) → Settles code b }
    ensures loud { (code : Code) → ((b : ℕ) → Settles code b) → (c : Thread Address) → ¬ IsSilent (move code (quiet_end code c)) }
    ensures goes { (code : Code) → ((b : ℕ) → Settles code b) → (c d : Thread Address) → move code c ≡ Silent d
        → quiet_end code c ≡ quiet_end code d }
    ensures stays { (code : Code) (c : Thread Address) → ¬ IsSilent (move code c) → quiet_end code c ≡ c }
    ensures quiet { (p : Program) (code : Code) (naming : Naming) (c : Thread Address) (t : Term) → Stands p code naming c t
        → Stands p code naming (quiet_end code c) t }
{}
