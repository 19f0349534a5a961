//! Draws journals: `ccpp_picture JOURNAL` writes a picture of a run, in SVG, to the standard output.
//!
//! A text that is no journal of version 2 gets one line, which says why. The lines and the exit statuses are those of `ccpp`.
#![tactic(auto)]

mod lanes;
mod picture;
mod scale;
mod svg;
mod timeline;

use crate::picture::picture;
use ccpp_edge::{RealShelf, RealSink, Shelf, ShelfFault, Sink};
use effect_journal::{JournalFault, read_journal};
use std::alloc::{AllocError, Global};
use std::env::{self, Env};
use std::io::ErrorKind;
use std::process::ExitCode;
use std::rt::Files;

const DONE: u8 = 0;

const WORDS_REFUSED: u8 = 5;

const READ_FAULT: u8 = 6;

const WRITE_FAULT: u8 = 7;

const MEMORY: u8 = 8;

const NO: u8 = 9;

const NO_FILE: u8 = 10;

/// What is written, and the exit status.
#[derive(Drop)]
struct Answer {
    text: String,
    status: u8,
}

fn main(rt: HostRuntime) -> ExitCode {
    let Ok(answer) = answered(&rt, rt.alloc()) else {
        return ExitCode::from(MEMORY);
    };
    match RealSink::new(&rt).write_all(answer.text.as_bytes()) {
        Ok(()) => ExitCode::from(answer.status),
        Err(_) => ExitCode::from(WRITE_FAULT),
    }
}

/// What is answered to the command line, which names one file. Its words are counted behind `picture`, which is the first.
fn answered<R: Alloc + Env + Files>(rt: &R, alloc: Global) -> Result<Answer, AllocError> {
    let mut words = Vec::new(alloc);
    match env::args(rt) {
        Ok(args) => {
            for arg in args.skip(1) {
                words.push(arg)?;
            }
        }
        Err(error) if error.kind() == ErrorKind::OutOfMemory => return Err(AllocError),
        Err(_) => {}
    }
    let text = match words.as_slice() {
        [name] => return file(rt, alloc, name.as_str()),
        [] => format!(in alloc; "words refused at 2\n")?,
        _ => format!(in alloc; "words refused at 3\n")?,
    };
    Ok(Answer {
        text,
        status: WORDS_REFUSED,
    })
}

/// The picture of the journal in a file.
fn file<R: Alloc + Files>(rt: &R, alloc: Global, name: &str) -> Result<Answer, AllocError> {
    let (text, status) = match RealShelf::new(alloc, rt).read(name) {
        Ok(text) => return journal(alloc, text.as_slice()),
        Err(ShelfFault::Absent) => (format!(in alloc; "no file {name}\n")?, NO_FILE),
        Err(ShelfFault::Failed) => (format!(in alloc; "read fault\n")?, READ_FAULT),
        Err(ShelfFault::Memory) => return Err(AllocError),
    };
    Ok(Answer { text, status })
}

/// The picture of a journal.
fn journal(alloc: Global, text: &[u8]) -> Result<Answer, AllocError> {
    let (text, status) = match read_journal(alloc, text) {
        Ok(entries) => (picture(alloc, entries.as_slice())?, DONE),
        Err(JournalFault::Line { line }) => (format!(in alloc; "no line {line}\n")?, NO),
        Err(JournalFault::NoEnd) => (format!(in alloc; "no end\n")?, NO),
        Err(JournalFault::Memory) => return Err(AllocError),
    };
    Ok(Answer { text, status })
}
