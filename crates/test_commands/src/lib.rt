//! Tests of the commands as a whole, from bytes to a report.
#![tactic(auto)]

#[cfg(test)]
mod commands;
