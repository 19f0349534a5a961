//! Tests of the parts of a runtime: files and buffers, pointers, cells, locks, threads and the text of a journal.
#![tactic(auto)]

#[cfg(test)]
mod cells;
#[cfg(test)]
mod crossing;
#[cfg(test)]
mod edge;
#[cfg(test)]
mod journal;
#[cfg(test)]
mod locks;
#[cfg(test)]
mod pointers;
#[cfg(test)]
mod threads;
