//! Tests of stack code: its maker, its listing, what lowers a program to it, its threads and their objects.
#![tactic(auto)]

#[cfg(test)]
mod code;
#[cfg(test)]
mod crossing;
#[cfg(test)]
mod listing;
#[cfg(test)]
mod lowering;
#[cfg(test)]
mod making;
#[cfg(test)]
mod objects;
#[cfg(test)]
mod steps;
