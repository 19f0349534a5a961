//! What programs mean: the core language, its steps, runs and standings, and reports.
#![tactic(auto)]

mod expression;
pub mod laws;
mod program;
mod statement;

pub use expression::{Constant, Expression, How, PrintPart};
pub use program::{Function, Program};
pub use statement::Statement;
