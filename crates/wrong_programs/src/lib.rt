//! What the typing rules are for: programs that break one static rule each, and a run of each in which a promise about well-typed programs fails.
//! The functions do nothing: their contracts are the laws.
//!
//! The crate knows the core language, its runs and the promises of its types (`core_types`). It must know nothing of source texts and of how they
//! are refused. `docs/THEOREMS.md`, section 10, says for each static rule which promise fails without it.
#![tactic(auto)]

ghost use Rattle.cc_core.specs.Core.{Program};
ghost use Rattle.cc_core.specs.Source.{IsProgram};
ghost use Rattle.core_types.specs.Programs.{WellTyped};
ghost use Rattle.wrong_programs.specs.Programs.{operand, start_value, assigned, void_used, argument, argument_count, constant_assigned};
ghost use Rattle.wrong_programs.specs.Programs.{this_outside, member_address};
ghost use Rattle.wrong_programs.specs.Programs.{pointer_returned, main_of_pointers, nothing_returned, global_as_local, local_sent, atomic_reads};
ghost use Rattle.wrong_programs.specs.Wrong.{AsksWrongly, UsesAnothersObject, WaitsInside, EndsWithNoInt};

/// Each of these programs breaks one static rule, and a run of it goes wrong: a thread asks with a value of another kind than is wanted, or with
/// too few; `main` ends with no int; an object of another processor is used as one of the own; or a thread waits inside an atomic function.
pub fn programs_go_wrong()
    ensures operand { AsksWrongly operand }
    ensures start_value { AsksWrongly start_value }
    ensures assigned { AsksWrongly assigned }
    ensures void_used { AsksWrongly void_used }
    ensures argument { AsksWrongly argument }
    ensures argument_count { AsksWrongly argument_count }
    ensures constant_assigned { AsksWrongly constant_assigned }
    ensures this_outside { AsksWrongly this_outside }
    ensures member_address { AsksWrongly member_address }
    ensures pointer_returned { EndsWithNoInt pointer_returned }
    ensures main_of_pointers { EndsWithNoInt main_of_pointers }
    ensures nothing_returned { EndsWithNoInt nothing_returned }
    ensures global_as_local { UsesAnothersObject global_as_local }
    ensures local_sent { UsesAnothersObject local_sent }
    ensures atomic_reads { WaitsInside atomic_reads }
{}

/// A well-typed program goes wrong in none of these ways. So no table of types makes one of the programs above well typed.
pub fn well_typed_programs_go_right()
    ensures asks { (p : Program) → WellTyped p → AsksWrongly p → ⊥ }
    ensures ends { (p : Program) → WellTyped p → EndsWithNoInt p → ⊥ }
    ensures stays { (p : Program) → WellTyped p → UsesAnothersObject p → ⊥ }
    ensures goes_on { (p : Program) → WellTyped p → IsProgram p → WaitsInside p → ⊥ }
{}
