//! The names that a program declares, and the static rules on them.
//!
//! [`Names::of`] numbers the constants, classes and functions of a file and the members of its classes in the order of the text,
//! and refuses a program that breaks a rule of the first group: no `main`, a name twice, or more than a limit allows.
//! [`StaticRule`] and [`StaticLimit`] are the rules of both groups by their names, and [`least`] says which of several broken
//! ones is answered.
#![tactic(auto)]

mod broken;
mod declarations;
mod group;
mod names;
mod rule;
mod table;

pub use broken::{Broken, TypeFault, least};
pub use declarations::{ClassId, Entity, FunId, MemberId};
pub use names::Names;
pub use rule::{StaticLimit, StaticRule};
