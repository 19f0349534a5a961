//! Tests of request messages and the values in them.
#![tactic(auto)]

#[cfg(test)]
mod crossing;
#[cfg(test)]
mod messages;
#[cfg(test)]
mod values;
