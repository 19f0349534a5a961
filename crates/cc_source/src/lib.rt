//! What the front end leaves of a well-formed program.
//!
//! The crate knows what the front end makes of a tree (`cc_types`), and which programs the compiler takes. It must know nothing of how either
//! is computed, and of steps.
#![tactic(auto)]

ghost use Rattle.std.specs.Prelude.{◌<◌, ◌≤◌, length};
ghost use Rattle.std.specs.List.{AllByRecursion};
ghost use Rattle.cc_ops.specs.Shapes.{shape_of};
ghost use Rattle.cc_tree.specs.declared.declarations.Program.{Program};
ghost use Rattle.cc_core.specs.Source.{IsProgram};
ghost use Rattle.cc_core.specs.View.{program_of};
ghost use Rattle.cc_types.specs.Program.{IsWellFormed, core_program};
ghost use Rattle.cc_valid.specs.Ranges.{InRange};
ghost use Rattle.stack_code.specs.Kept.{IsFunShape, IsClassShape};

/// What the front end leaves of a well-formed program is a source of the core language: each call names a function that there is and
/// hands over as many values as it takes, a new object gets as many as its class's constructor takes, each operator has its operands,
/// `break` and `continue` stand in loops, and no running form stands in it.
pub fn core_is_a_program()
    ensures { (p : Program) → IsWellFormed p → IsProgram (program_of (core_program p)) }
{}

/// In what the front end leaves of a well-formed program each variable is one of its function's, parameters among them, each class is
/// one of the program's, and each array and each `new` has a cell.
pub fn core_is_in_range()
    ensures { (p : Program) → IsWellFormed p → InRange (program_of (core_program p)) }
{}

/// The shapes that the front end leaves of a well-formed program fit the numbers of code: each parameter has one cell, and there are at
/// most eight; a class has at least one cell, and fewer than 2^32; and there are at most 1,024 functions and 256 classes.
pub fn core_shapes_fit()
    ensures functions { (p : Program) → IsWellFormed p → AllByRecursion (λ f. IsFunShape f.shape) (core_program p).functions }
    ensures classes { (p : Program) → IsWellFormed p → AllByRecursion (λ c. IsClassShape (shape_of c)) (core_program p).classes }
    ensures few_functions { (p : Program) → IsWellFormed p → length (core_program p).functions ≤ 1024 }
    ensures few_classes { (p : Program) → IsWellFormed p → length (core_program p).classes ≤ 256 }
{}

/// In what the front end leaves of a well-formed program the function `main`, where a run begins, is one of the program's functions.
pub fn core_main_is_there()
    ensures { (p : Program) → IsWellFormed p → (program_of (core_program p)).main < length (program_of (core_program p)).functions }
{}
