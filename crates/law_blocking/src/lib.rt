//! What a function does that may not block: the marks of the static rules, said of the core that the front end leaves. The functions do
//! nothing: their contracts are the laws.
//!
//! Which functions may block is a least set over what is noted while a function is read (`MayBlock` of `cc_blocking`). Here it is said of what
//! is left of them: a function outside of that set has no `par`, `parfor` or `spawn`, reads no sync cell, does nothing on another processor,
//! and calls only functions outside of the set, none of them atomic. The crate knows the typing of the core (`core_types`) and that the core of
//! a source is typed (`source_types`). It must know nothing of rounds, of the text of a function and of steps.
#![tactic(auto)]

ghost use Rattle.cc_tree.specs.declared.declarations.Program.{Program};
ghost use Rattle.cc_types.specs.Program.{IsWellFormed};
ghost use Rattle.law_blocking.specs.Calm.{HasCalmFunctions, AtomicsAreUnmarked};

/// A function of a well-formed program of which `Checked::may_block` is false does nothing that an atomic function may not do. Whether a cell that
/// it reads is sync is told by tables of types, with which the whole core is typed.
pub fn unmarked_functions_are_calm()
    ensures { (p : Program) → IsWellFormed p → HasCalmFunctions p }
{}

/// The atomic functions of a well-formed program are among them.
pub fn atomic_functions_are_unmarked()
    ensures { (p : Program) → IsWellFormed p → AtomicsAreUnmarked p }
{}
