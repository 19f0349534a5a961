//! Tests of what reads and checks a source: tokens, statements, trees, names, operators, and the rules of waiting and sharing.
#![tactic(auto)]

#[cfg(test)]
mod blocking;
#[cfg(test)]
mod names;
#[cfg(test)]
mod operators;
#[cfg(test)]
mod sharing;
#[cfg(test)]
mod statements;
#[cfg(test)]
mod tokens;
#[cfg(test)]
mod trees;
