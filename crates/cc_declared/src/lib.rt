//! What variables, fields, parameters and results are declared as, and the static rules on their types.
//!
//! A variable or a field is `int`, `sync int`, or a pointer to one of these or to a class, or an array of one of these; a
//! pointer may be a sync variable itself. Only a global pointer leads to a global class. A variable may also be an object of a
//! class that is not global. A parameter is a plain `int` or a plain pointer, and a result is that or `void`. The rules are
//! this project's own.
//!
//! The crate knows scopes and the typing of expressions (`cc_typing`). It must know nothing of statements and of the tables that it fills.
#![tactic(auto)]

mod allowed;
mod role;
mod slots;
mod written;

pub use role::Role;
pub use slots::{field, parameter, returned, value_type, variable};
