//! The law that the load program is a source of the profile, whatever its size.
//!
//! The crate knows the text of the load program and the definitions of the front end. It must know nothing of their bodies, and of runs.
#![tactic(auto)]

ghost use Rattle.std.specs.Prelude.{◌≡◌, ◌≤◌, ℕ, []};
ghost use Rattle.cc_tree.specs.declared.declarations.Program.{Program};
ghost use Rattle.cc_types.specs.Program.{main_params, rules_shared};
ghost use Rattle.ccpp_source.specs.Source.{IsSource};
ghost use Rattle.ccpp_gen.specs.LoadSource.{load_source};

/// Of each size from 1 to 10,000 the load program is cut into tokens, which spell a program; that breaks no static rule and no rule of
/// sharing, and its `main` takes no ints.
pub fn load_program_is_source()
    ensures { (n : ℕ) → 1 ≤ n → n ≤ 10000
        → (program : Program) × IsSource (load_source n) program × (main_params program.items ≡ 0) × (rules_shared program ≡ []) }
{}
