//! Functions, constructors, classes and whole programs: the static rules on them and their core.
//!
//! A program is read item by item in the order of its text. `Functions` in `specs/` reads a function, `Builds` and `Constructors`
//! read a constructor, and `Items` classes, constants and the whole. What is broken is added to the `State` (`cc_scopes`); the
//! core of the functions and classes, and what each function does that an atomic one may not, are a `Done`. Every function
//! ensures just the outcome that its word in `specs/` gives, and fails for want of memory alone.
//!
//! The rules and their names are this project's own; the language is that of Chandy and Kesselman's CC++ definition and of
//! Foster, Designing and Building Parallel Programs, chapter 5.
//!
//! The crate knows statements, tables and who may block by their outcomes. It must know nothing of tokens, and of steps.
#![tactic(auto)]

mod builds;
mod classes;
mod constructors;
mod done;
mod functions;
mod own;
mod whole;

pub use done::Done;
pub use whole::items;
