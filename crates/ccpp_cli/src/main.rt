//! The program `ccpp`: the words of the command line, the files and the standard output, handed to the command.
//!
//! The command is answered in a thread of its own, for its stack: what the front end leaves of a source nests as deep as the longest
//! chain of operators.
//!
//! The crate knows the command (`ccpp_top`) and the edge. It must know nothing of the language.
#![tactic(auto)]

use ccpp_edge::{List, Memory, OpenGate, RealShelf, RealSink};
use ccpp_top::{Status, Word, ccpp};
use std::alloc::{AllocError, Global};
use std::env::{self, Env};
use std::io::ErrorKind;
use std::process::ExitCode;
use std::rt::Files;
use std::thread::{self, Builder, Threads};

/// The stack of the thread that answers the command, in bytes: 2 KiB for each operator of the longest source. Of it only what is
/// used takes memory.
const STACK: usize = 1 << 30;

fn main(rt: HostRuntime) -> ExitCode {
    let status = thread::scope(thread::scope_env(), &rt, |scope| {
        match Builder::new()
            .stack_size(STACK)
            .spawn_scoped(scope, || answer(&rt, rt.alloc()))
        {
            Ok(handle) => handle.join(&rt),
            Err(_) => Status::Memory,
        }
    });
    ExitCode::from(status.number())
}

/// Does what the command line asks for.
fn answer<R: Alloc + Env + Files + Print + Sync + Threads>(rt: &R, alloc: Global) -> Status {
    let Ok(words) = words(rt, alloc) else {
        return Status::Memory;
    };
    let mut shelf = RealShelf::new(alloc, rt);
    let mut out = RealSink::new(rt);
    ccpp(rt, alloc, words.as_slice(), &mut shelf, &mut out, &OpenGate)
}

/// The words of the command line without the program's name. One empty word, which no command has, stands for a command line that
/// cannot be read or has a word that is no UTF-8.
fn words<R: Env + Alloc>(rt: &R, alloc: Global) -> Result<List<Word>, Memory> {
    let mut words = List::new(alloc);
    match env::args(rt) {
        Ok(args) => {
            for arg in args.skip(1) {
                words.push(Word::new(alloc, arg.as_str())?)?;
            }
        }
        Err(error) if error.kind() == ErrorKind::OutOfMemory => return Err(AllocError),
        Err(_) => words.push(Word::new(alloc, "")?)?,
    }
    Ok(words)
}
