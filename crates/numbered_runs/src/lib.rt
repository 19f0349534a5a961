//! A run by numbers: what a program does whose threads and objects are named by the numbers that the run gives them.
#![tactic(auto)]

ghost use Rattle.std.specs.Prelude.{◌≡◌, ◌<◌, [], length, List, ℤ};
ghost use Rattle.std.specs.FinMap as fin;
ghost use Rattle.cc_ops.specs.declared.number.ThreadNo.{ThreadNo};
ghost use Rattle.cc_core.specs.Names.{Name};
ghost use Rattle.cc_core.specs.Core.{Program};
ghost use Rattle.cc_core.specs.Config.{Config};
ghost use Rattle.cc_core.specs.Numbers as numbers;
ghost use Rattle.cc_core.specs.Numbers.{Numbers, first_numbers};
ghost use Rattle.cc_core.specs.Source.{IsProgram};
ghost use Rattle.cc_core.specs.Steps.{start, threads_left};
ghost use Rattle.numbered_runs.specs.Alike.{DoesAlike, first_machine, main_thread};
ghost use Rattle.numbered_runs.specs.Machine.{Machine, thread_in, all_going};
ghost use Rattle.numbered_runs.specs.Posts.{posts};
ghost use Rattle.numbered_runs.specs.Stands.{Stands, IsThread};
ghost use Rattle.numbered_runs.specs.Steps.{step};

/// The machine of numbers at the beginning of a run stands for the configuration where the run begins.
pub fn numbered_run_begins()
    ensures { (p : Program) → IsProgram p → p.main < length p.functions → (is : List ℤ) → Stands p (first_machine p is) (start p is) (first_numbers p is) }
{}

/// Where a machine of numbers stands for a configuration of a run, each of its threads does what the thread of that number does: it waits, has
/// the same fault at the same line, or makes a step, after which the machine stands for what follows. It posts what that thread posts. As
/// many threads go on, and main is the first.
pub fn numbered_steps_follow()
    ensures steps { (p : Program) (w : Machine) (s : Config) (n : Numbers) → Stands p w s n → (t : ThreadNo) → DoesAlike p s n t (step w t) }
    ensures posts { (p : Program) (w : Machine) (s : Config) (n : Numbers) → Stands p w s n → (t : ThreadNo) (x : Name) → IsThread n t x
        → posts w.code (thread_in w.threads t) ≡ numbers.posts p s n (fin.get s.threads x) }
    ensures left { (p : Program) (w : Machine) (s : Config) (n : Numbers) → Stands p w s n → all_going w.threads ≡ threads_left s }
    ensures main { (p : Program) (w : Machine) (s : Config) (n : Numbers) → Stands p w s n → IsThread n main_thread [] }
{}
