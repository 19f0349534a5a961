//! Code does the same whatever names its objects have.
#![tactic(auto)]

ghost use Rattle.std.specs.Prelude.{◌≡◌, Bool, true};
ghost use Rattle.cc_ops.specs.Machine.{Address};
ghost use Rattle.cc_core.specs.Names.{Name};
ghost use Rattle.cc_code.specs.Code.{Code, Thread, move};
ghost use Rattle.code_names.specs.Same.{Told, SameThread, SameMove};

/// Two threads of one code that differ in the names of objects alone, numbers here and paths there, make the same moves: both silent, or
/// both the same end, or the same question at the same line; and after the same answer they differ in names alone again. By then more
/// objects may have names.
pub fn names_do_not_matter()
    ensures { (before after : Address → Name → Bool) → ((a : Address) (o : Name) → before a o ≡ true → after a o ≡ true)
        → (code : Code) (c : Thread Address) (d : Thread Name) → SameThread (Told before) c d
        → SameMove (Told before) (Told after) (move code c) (move code d) }
{}
