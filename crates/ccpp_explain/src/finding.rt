//! The rule that a source breaks, and where.

ghost use Rattle.cc_lexer.specs.Cut.{Cut};
ghost use Rattle.cc_types.specs.Program.{IsSpelled};

use cc_lexer::{LexFault, Token, lex};
use cc_names::TypeFault;
use cc_parser::{ParseFault, line_at, parse};
use cc_tree::Program;
use cc_types::check;
use sharing_check::{Sharing, sharing};
use std::alloc::Global;

/// What is found of a source.
#[derive(Clone, Copy)]
pub(crate) enum Finding {
    /// It is a program, and breaks no rule of sharing.
    Fine,
    /// It is no program, for this reason.
    Refused(Broken),
    /// It is a program, and breaks this rule of sharing.
    Shared(Broken),
    /// There was not enough memory.
    Memory,
}

/// A rule that is broken.
#[derive(Clone, Copy)]
pub(crate) struct Broken {
    pub rule: &'static str,
    pub place: Place,
}

/// Where a rule is broken.
#[derive(Clone, Copy)]
pub(crate) enum Place {
    /// By the text as a whole.
    Whole,
    /// At this byte, from 0.
    Byte(u32),
    /// In this line, from 1.
    Line(u32),
}

/// What is found of a source: the fault that `ccpp check` answers, or else what `ccpp share` does.
pub(crate) fn found(alloc: Global, source: &[u8]) -> Finding {
    match lex(alloc, source) {
        Ok(tokens) => spelled(alloc, tokens.as_slice(), source),
        Err(LexFault::Memory) => Finding::Memory,
        Err(fault) => Finding::Refused(of_text(fault)),
    }
}

/// What is found of a text that is cut into tokens.
fn spelled(alloc: Global, tokens: &[Token], source: &[u8]) -> Finding
    requires { Cut source.now tokens.now }
{
    match parse(alloc, tokens, source) {
        Ok(program) => checked(alloc, program),
        Err(ParseFault::Syntax { at }) => Finding::Refused(of_token("Syntax", tokens, at)),
        Err(ParseFault::TooDeep { at }) => Finding::Refused(of_token("TooDeep", tokens, at)),
        Err(ParseFault::Memory) => Finding::Memory,
    }
}

/// What is found of a tree.
fn checked(alloc: Global, program: Program) -> Finding
    requires { IsSpelled program }
{
    match check(alloc, program) {
        Ok(checked) => match sharing(&checked) {
            Sharing::Determinate => Finding::Fine,
            Sharing::Shared { rule, line } => Finding::Shared(in_line(rule.name(), line)),
        },
        Err(TypeFault::Rule { rule, line }) => Finding::Refused(in_line(rule.name(), line)),
        Err(TypeFault::Limit { which, line }) => Finding::Refused(in_line(which.name(), line)),
        Err(TypeFault::Memory) => Finding::Memory,
    }
}

fn in_line(rule: &'static str, line: u32) -> Broken {
    Broken {
        rule,
        place: Place::Line(line),
    }
}

/// A fault at a token, or behind the last one.
fn of_token(rule: &'static str, tokens: &[Token], at: u32) -> Broken {
    let place = match tokens.get(at as usize) {
        Some(token) => Place::Byte(token.start),
        None => Place::Line(line_at(tokens, at)),
    };
    Broken { rule, place }
}

fn of_text(fault: LexFault) -> Broken {
    let (rule, place) = match fault {
        LexFault::TooLong | LexFault::Memory => ("TooLong", Place::Whole),
        LexFault::BadByte { at } => ("BadByte", Place::Byte(at)),
        LexFault::OpenComment { at } => ("OpenComment", Place::Byte(at)),
        LexFault::OpenString { at } => ("OpenString", Place::Byte(at)),
        LexFault::LongName { at } => ("LongName", Place::Byte(at)),
        LexFault::NumberTooLarge { at } => ("NumberTooLarge", Place::Byte(at)),
    };
    Broken { rule, place }
}
