//! The code of a program is valid.
#![tactic(auto)]

ghost use Rattle.cc_core.specs.Core.{Program};
ghost use Rattle.cc_core.specs.Source.{IsProgram};
ghost use Rattle.cc_code.specs.Layout.{layout};
ghost use Rattle.cc_code.specs.Valid.{IsValid};
ghost use Rattle.cc_valid.specs.Ranges.{InRange};

/// The layout of a program whose numbers are in range is valid: no place of it has a bad target or a bad depth.
pub fn layout_is_valid()
    ensures { (p : Program) → IsProgram p → InRange p → IsValid (layout p) }
{}
