//! What the language computes with: kinds of cells, operators, the shapes of functions and classes, constructors, and numbers of threads.
#![tactic(auto)]

mod address;
mod build;
mod build_error;
mod cell;
mod kind;
mod number;
mod operator;
mod shape;
mod value;

pub use address::{element, indexed, moved, shifted};
pub use build::{BuildExpr, BuildSet};
pub use build_error::BuildError;
pub use cell::Cell;
pub use kind::Kind;
pub use number::ThreadNo;
pub use operator::Op;
pub use shape::{CellRun, ClassShape, FunShape};
pub use value::{address_of, as_kind, int_of, is_zero, no_void, same_value, truth, value_at};
