//! Tests of `trace_check::trace`: journals that a run explains, and the first entry of others that none does.
#![tactic(auto)]

#[cfg(test)]
mod tests;
#[cfg(test)]
mod traced;
