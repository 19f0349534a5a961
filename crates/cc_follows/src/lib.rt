//! The code of a program does what the program does, thread by thread.
#![tactic(auto)]

ghost use Rattle.std.specs.Prelude.{◌≡◌, ℕ, ◌<◌, List, [], length};
ghost use Rattle.cc_core.specs.Names.{Name, Value};
ghost use Rattle.cc_core.specs.Core.{Term, Starts, Program};
ghost use Rattle.cc_core.specs.Source.{IsProgram};
ghost use Rattle.cc_core.specs.Next.{next, entered};
ghost use Rattle.cc_code.specs.Layout.{layout};
ghost use Rattle.cc_code.specs.Code.{Code, Thread, Runs, Starting, enter_at, move};
ghost use Rattle.cc_code.specs.Settles.{Settles};
ghost use Rattle.cc_code.specs.Depths.{HaveDepths};
ghost use Rattle.cc_code.specs.Agrees.{Follows, Agrees, Same, ProgramStands};

/// Where the functions of a program stand in the code, an entered function and a thread whose first step is a call do, for any number of
/// moves, what their sources do; and each move of related threads is silent or the same step, and leaves related threads.
pub fn code_follows_source()
    ensures entered { (p : Program) (code : Code) → ProgramStands p code → (g : ℕ) → g < length code.shapes.functions
        → (this : Value) (xs : List Value) → Same p code (entered p g this xs) (Runs (enter_at code g this xs) [] []) }
    ensures started { (p : Program) (code : Code) → ProgramStands p code → (g : ℕ) → g < length code.shapes.functions
        → (this : Value) (xs : List Value) → Same p code (Starts g this xs) (Starting g this xs) }
    ensures kept { (p : Program) (code : Code) (t : Term) (c : Thread Name) → Same p code t c
        → Agrees p (λ n d. (k : ℕ) → Follows p code k n d) (next p t) (move code c) }
{}

/// The functions of a program stand in its layout.
pub fn layout_stands()
    ensures { (p : Program) → IsProgram p → ProgramStands p (layout p) }
{}

/// From each place of a layout silent moves come to an end.
pub fn layout_settles()
    ensures { (p : Program) → IsProgram p → (c : ℕ) → Settles (layout p) c }
{}

/// The operands fit everywhere in a layout: each place is reached with one number of them, and each instruction finds those that it takes.
pub fn layout_has_depths()
    ensures { (p : Program) → IsProgram p → HaveDepths (layout p) }
{}
