//! One run that comes to rest decides every run, where the moves of different threads commute.
//!
//! The crate knows the core language and its steps alone. It must know nothing of sources and of the rules of sharing.
#![tactic(auto)]

ghost use Rattle.std.specs.Prelude.{◌≡◌, ℕ, List, length, ℤ};
ghost use Rattle.cc_core.specs.Names.{Name};
ghost use Rattle.cc_core.specs.Core.{Program};
ghost use Rattle.cc_core.specs.Config.{Config};
ghost use Rattle.cc_core.specs.Steps.{Run, IsAtRest, start};
ghost use Rattle.cc_core.specs.Laws.{IsReached, NamesAreFree};
ghost use Rattle.cc_one_answer.specs.Answer.{MovesCommute, HasOneAnswer};
ghost use Rattle.cc_one_answer.specs.Apart.{AreApart};
ghost use Rattle.cc_one_answer.specs.Determinate.{IsDeterminate};
ghost use Rattle.cc_core.specs.Types.{Types};

/// Where the moves of different threads commute in every configuration that runs from these ints come to, one run that comes to rest
/// decides every run from them: none meets a fault, none has more steps, each that has fewer goes on, and each that has as many ends in
/// the same configuration.
pub fn commuting_moves()
    ensures { (p : Program) (ns : List ℤ) → ((s : Config) → IsReached p ns s → MovesCommute p s) → (ts : List Name) (r : Config)
        → Run p ts (start p ns) r → IsAtRest p r → HasOneAnswer p (start p ns) (length ts) r }
{}

/// Where the threads of a configuration are apart, their moves commute: of two threads that can step both go on to one configuration, or
/// after the first one's step the second has a fault, as where both write one sync cell; and a thread that has a fault keeps one.
pub fn apart_threads_commute()
    ensures { (p : Program) (s : Config) → NamesAreFree s → AreApart p s → MovesCommute p s }
{}

/// Where threads are apart in every configuration that runs from these ints come to, one run that comes to rest decides every run.
pub fn apart_threads_have_one_answer()
    ensures { (p : Program) (ns : List ℤ) → ((s : Config) → IsReached p ns s → AreApart p s) → (ts : List Name) (r : Config)
        → Run p ts (start p ns) r → IsAtRest p r → HasOneAnswer p (start p ns) (length ts) r }
{}

/// One answer. Where a program breaks no rule of sharing, and one run of it from these ints comes to rest, every run from them comes to
/// rest after as many steps in the same configuration, with the same output, result, sync values and blocked threads; and none meets a
/// fault. Nothing is promised where no run comes to rest.
pub fn one_answer()
    ensures { (p : Program) (y : Types) → IsDeterminate p y → (ns : List ℤ) (ts : List Name) (r : Config)
        → Run p ts (start p ns) r → IsAtRest p r → HasOneAnswer p (start p ns) (length ts) r }
{}
