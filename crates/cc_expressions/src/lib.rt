//! Reading expressions: a cursor over the tokens of a text, lists, nodes of the tree, and expressions, places and calls.
//!
//! Each function that reads answers what the reader of its symbol does, which `cc_grammar` defines; so a contract is one line,
//! and that it reads exactly its symbol is proved there. A function that reads takes time in proportion to the tokens that it
//! takes, and recurs in nesting alone.
//!
//! The crate knows tokens, the tree and the grammar. It must know nothing of names and types.
#![tactic(auto)]

mod cursor;
mod expressions;
mod lists;
mod nodes;
mod operators;
mod terms;

pub use cursor::Cursor;
pub use expressions::ending;
pub use lists::{commas, flat, listed, many};
pub use nodes::{boxed, posted, with_front};
pub use terms::Terms;
