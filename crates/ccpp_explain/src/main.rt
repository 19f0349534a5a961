//! Explains rules: `ccpp_explain PAGES RULE` prints the page of a rule, fault or limit, and `ccpp_explain PAGES FILE` why a source is refused or
//! which rule of sharing it breaks, with the page of that rule. The pages are the files `RULE.txt` in the folder PAGES, which is `docs/rules`.
//!
//! As `ccpp` it answers in a thread of its own, for its stack: what the front end leaves of a source nests as deep as the longest chain of operators.
#![tactic(auto)]

mod excerpt;
mod finding;
mod pages;

use crate::excerpt::{line_number, write_excerpt};
use crate::finding::{Broken, Finding, found};
use crate::pages::{is_rule, page_of};
use ccpp_edge::{Bytes, RealShelf, RealSink, Shelf, ShelfFault, Sink};
use std::alloc::{AllocError, Global};
use std::env::{self, Env};
use std::process::ExitCode;
use std::rt::Files;
use std::thread::{self, Builder, Threads};

/// The stack of the thread that answers, in bytes, as that of `ccpp`.
const STACK: usize = 1 << 30;

/// The exit statuses, which are those of `ccpp`.
const REFUSED: u8 = 4;

const WORDS_REFUSED: u8 = 5;

const READ_FAULT: u8 = 6;

const WRITE_FAULT: u8 = 7;

const MEMORY: u8 = 8;

const NO_FILE: u8 = 10;

fn main(rt: HostRuntime) -> ExitCode {
    let status = thread::scope(thread::scope_env(), &rt, |scope| {
        match Builder::new()
            .stack_size(STACK)
            .spawn_scoped(scope, || answer(&rt, rt.alloc()))
        {
            Ok(handle) => handle.join(&rt),
            Err(_) => MEMORY,
        }
    });
    ExitCode::from(status)
}

/// Does what the command line asks for, and gives the exit status.
fn answer<R: Alloc + Env + Files + Print + Sync + Threads>(rt: &R, alloc: Global) -> u8 {
    let mut out = Bytes::new(alloc);
    let Ok(status) = explained(rt, alloc, &mut out) else {
        return MEMORY;
    };
    match RealSink::new(rt).write_all(out.as_slice()) {
        Ok(()) => status,
        Err(_) => WRITE_FAULT,
    }
}

/// Writes what the command line asks for.
fn explained<R: Alloc + Env + Files>(
    rt: &R,
    alloc: Global,
    out: &mut Bytes,
) -> Result<u8, AllocError> {
    let Ok(args) = env::args(rt) else {
        return Ok(WORDS_REFUSED);
    };
    let mut words = Vec::new(alloc);
    for arg in args.skip(1) {
        words.push(arg)?;
    }
    let [pages, word] = words.as_slice() else {
        return Ok(WORDS_REFUSED);
    };
    let mut shelf = RealShelf::new(alloc, rt);
    let (pages, word) = (pages.as_str(), word.as_str());
    if is_rule(word) {
        match page_of(alloc, &mut shelf, pages, word) {
            Ok(page) => {
                out.extend_from_slice(page.as_slice())?;
                return Ok(0);
            }
            Err(ShelfFault::Absent) => {}
            Err(fault) => return unread(fault, out, word),
        }
    }
    match shelf.read(word) {
        Ok(source) => explain(alloc, &mut shelf, out, pages, word, source.as_slice()),
        Err(fault) => unread(fault, out, word),
    }
}

/// Writes that a file is missing, or gives the status of another fault.
fn unread(fault: ShelfFault, out: &mut Bytes, word: &str) -> Result<u8, AllocError> {
    match fault {
        ShelfFault::Absent => {
            out.extend_from_slice(b"no rule and no file ")?;
            out.extend_from_slice(word.as_bytes())?;
            out.push(b'\n')?;
            Ok(NO_FILE)
        }
        ShelfFault::Failed => Ok(READ_FAULT),
        ShelfFault::Memory => Err(AllocError),
    }
}

/// Writes what is found of a source.
fn explain<S: Shelf>(
    alloc: Global,
    shelf: &mut S,
    out: &mut Bytes,
    pages: &str,
    file: &str,
    source: &[u8],
) -> Result<u8, AllocError> {
    let (broken, status) = match found(alloc, source) {
        Finding::Fine => {
            out.extend_from_slice(file.as_bytes())?;
            out.extend_from_slice(b": a program that breaks no rule of sharing\n")?;
            return Ok(0);
        }
        Finding::Refused(broken) => (broken, REFUSED),
        Finding::Shared(broken) => (broken, 0),
        Finding::Memory => return Err(AllocError),
    };
    write_head(alloc, out, file, source, broken)?;
    write_excerpt(alloc, out, source, broken.place)?;
    match page_of(alloc, shelf, pages, broken.rule) {
        Ok(page) => {
            out.extend_from_slice(page.as_slice())?;
            Ok(status)
        }
        Err(ShelfFault::Memory) => Err(AllocError),
        Err(_) => Ok(READ_FAULT),
    }
}

/// Writes the file, the line and the rule.
fn write_head(
    alloc: Global,
    out: &mut Bytes,
    file: &str,
    source: &[u8],
    broken: Broken,
) -> Result<(), AllocError> {
    let rule = broken.rule;
    let head = match line_number(source, broken.place) {
        Some(line) => format!(in alloc; "{file}:{line}: {rule}\n")?,
        None => format!(in alloc; "{file}: {rule}\n")?,
    };
    out.extend_from_slice(head.as_bytes())
}
