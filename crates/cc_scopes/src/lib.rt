//! Where an expression stands, what its names mean, and what it can be.
//!
//! A [`Scope`] says where: the names and tables of the program, the class and the function around, the parallel part, and the line.
//! A [`State`] collects on the way: the variables in scope, static rules and rules of sharing that are broken, lines of what an
//! atomic function may not do, and calls. An expression is found to be a [`Typed`]: a value, a place, a constant, `this`, a whole
//! array or object, or broken. An expression of which a part breaks a rule breaks no further one: it is `Spoiled`, without a word.
//!
//! The definitions in `specs/` have a word for each function here, of the same name. What adds to a state is a function from a
//! state to what is found and the state after (`Elab`); a function here ensures just that outcome (`Gives`), and fails for want of
//! memory alone. `Types` says which value a place takes, `Scope` which variable a name is, `Meaning` what else it may be, `Typed`
//! what an expression's value is, and `Lengths` which expressions are lengths and constants. `Places` says how [`Locals`] finds the
//! latest variable of a name without going through all.
//!
//! The rules and their names are this project's own; the language is that of Chandy and Kesselman's CC++ definition and of
//! Foster, Designing and Building Parallel Programs, chapter 5.
//!
//! The crate knows the names of a program (`cc_names`) and the forms of the core. It must know nothing of operators, statements and steps.
#![tactic(auto)]

mod lengths;
mod locals;
mod meaning;
mod places;
mod scope;
mod sharing;
mod state;
mod tables;
mod typed;
mod types;

pub use locals::Locals;
pub use meaning::Meaning;
pub use scope::{Found, Scope};
pub use sharing::{Share, ShareRule};
pub use state::{Call, Local, State};
pub use tables::{Class, Member, Signature, Tables};
pub use typed::{Object, Operand, Place, Root, Typed};
pub use types::{Declared, Shape, Target, Ty};
