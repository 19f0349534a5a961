//! Steps a program through its source definition: `[--steps] F ORDER LIMIT [ints]`.
//!
//! The order is `first`, `last` or a seed: each time the first thread that can move, the last one, or one that is drawn. What is written
//! is the output of the run, then how it stands; after `--steps` also how many steps were made.
#![tactic(auto)]

mod order;
mod report;
#[cfg(test)]
mod tests;
mod words;

use crate::report::{Trouble, report};
use crate::words::words_of;
use ccpp_edge::{RealShelf, RealSink, Shelf, Sink};
use std::alloc::Global;
use std::env::{self, Env};
use std::process::ExitCode;

fn main(rt: HostRuntime) -> ExitCode {
    let alloc = rt.alloc();
    let mut words = Vec::new(alloc);
    let Ok(args) = env::args(&rt) else {
        return ExitCode::from(5);
    };
    for arg in args.skip(1) {
        if words.push(arg).is_err() {
            return ExitCode::from(8);
        }
    }
    let (file, words) = match words_of(alloc, words.as_slice()) {
        Ok(Some(asked)) => asked,
        Ok(None) => return ExitCode::from(5),
        Err(_) => return ExitCode::from(8),
    };
    let mut shelf = RealShelf::new(alloc, &rt);
    let Ok(source) = shelf.read(file) else {
        return ExitCode::from(6);
    };
    let text = match report(alloc, source.as_slice(), words) {
        Ok(text) => text,
        Err(Trouble::Refused) => return ExitCode::from(4),
        Err(Trouble::IntCount) => return ExitCode::from(11),
        Err(Trouble::Memory) => return ExitCode::from(8),
    };
    let mut out = RealSink::new(&rt);
    match out.write_all(text.as_slice()) {
        Ok(()) => ExitCode::from(0),
        Err(_) => ExitCode::from(7),
    }
}
