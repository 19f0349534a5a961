ghost use Rattle.std.specs.Prelude.{◌≡◌, ◌≢◌, IfOk, IfErr, Ok, Err, string_bytes};
ghost use Rattle.cc_tree.specs.declared.declarations.Program.{Program};
ghost use Rattle.ccpp_source.specs.Source.{IsSource, IsProgramText, IsRefusedFor, lex_fault_text, in_line, parse_fault_text, type_fault_text, parse_refusal};

use cc_lexer::{LexFault, Token, lex};
use cc_names::TypeFault;
use cc_parser::{ParseFault, line_at, parse};
use cc_tree::Program;
use cc_types::{Checked, check};
use ccpp_edge::Memory;
use std::alloc::{AllocError, Global};

/// Why a text is no source.
#[derive(Clone, Copy, Debug)]
pub enum Refusal {
    /// It is not cut into tokens.
    Lex(LexFault),
    /// Its tokens spell no program.
    Parse {
        /// The token at which they stop being the front of one.
        fault: ParseFault,
        /// The line of that token.
        line: u32,
    },
    /// Its program breaks a static rule or a limit.
    Static(TypeFault),
    /// Want of memory.
    Memory,
}

impl From<AllocError> for Refusal {
    ghost use Rattle.std.specs.Prelude.{◌≡◌};
    ghost use Rattle.ccpp_source.specs.declared.source.Refusal.TheVariants.{Memory};

    ghost from_gives = { λ _ refusal. refusal ≡ Memory };

    fn from(_: AllocError) -> Refusal {
        Refusal::Memory
    }
}

impl From<LexFault> for Refusal {
    ghost use Rattle.std.specs.Prelude.{◌≡◌};
    ghost use Rattle.ccpp_source.specs.Source.{lex_refusal};

    ghost from_gives = { λ fault refusal. refusal ≡ lex_refusal fault };

    fn from(fault: LexFault) -> Refusal {
        match fault {
            LexFault::Memory => Refusal::Memory,
            _ => Refusal::Lex(fault),
        }
    }
}

impl From<TypeFault> for Refusal {
    ghost use Rattle.std.specs.Prelude.{◌≡◌};
    ghost use Rattle.ccpp_source.specs.Source.{type_refusal};

    ghost from_gives = { λ fault refusal. refusal ≡ type_refusal fault };

    fn from(fault: TypeFault) -> Refusal {
        match fault {
            TypeFault::Memory => Refusal::Memory,
            _ => Refusal::Static(fault),
        }
    }
}

impl Refusal {
    ghost use Rattle.std.specs.Prelude.{◌≡◌, ◌≢◌, IfOk, string_bytes};
    ghost use Rattle.ccpp_source.specs.Source.{refusal_text};

    /// What is answered, without the end of its line. There is no text for want of memory.
    pub fn text(self, alloc: Global) -> Result<String, Memory>
        ensures { IfOk result (λ text. (self ≢ Refusal.Memory) × (string_bytes text ≡ refusal_text self)) }
    {
        match self {
            Refusal::Lex(fault) => {
                let fault = lex_fault_text(alloc, fault)?;
                format!(in alloc; "refused lex {fault}")
            }
            Refusal::Parse { fault, line } => {
                let fault = parse_fault_text(alloc, fault)?;
                let place = in_line(alloc, fault.as_str(), line)?;
                format!(in alloc; "refused parse {place}")
            }
            Refusal::Static(fault) => {
                let fault = type_fault_text(alloc, fault)?;
                format!(in alloc; "refused type {fault}")
            }
            Refusal::Memory => Err(AllocError),
        }
    }
}

/// A fault of the lexer, and where it is.
fn lex_fault_text(alloc: Global, fault: LexFault) -> Result<String, Memory>
    ensures { IfOk result (λ text. string_bytes text ≡ lex_fault_text fault) }
{
    match fault {
        LexFault::TooLong => format!(in alloc; "TooLong"),
        LexFault::BadByte { at } => format!(in alloc; "BadByte at {at}"),
        LexFault::OpenComment { at } => format!(in alloc; "OpenComment at {at}"),
        LexFault::OpenString { at } => format!(in alloc; "OpenString at {at}"),
        LexFault::LongName { at } => format!(in alloc; "LongName at {at}"),
        LexFault::NumberTooLarge { at } => format!(in alloc; "NumberTooLarge at {at}"),
        LexFault::Memory => Err(AllocError),
    }
}

/// A fault of the parser, and the token at which it is.
fn parse_fault_text(alloc: Global, fault: ParseFault) -> Result<String, Memory>
    ensures { IfOk result (λ text. string_bytes text ≡ parse_fault_text fault) }
{
    match fault {
        ParseFault::Syntax { at } => format!(in alloc; "Syntax at {at}"),
        ParseFault::TooDeep { at } => format!(in alloc; "TooDeep at {at}"),
        ParseFault::Memory => Err(AllocError),
    }
}

/// The broken rule or limit, and its line.
fn type_fault_text(alloc: Global, fault: TypeFault) -> Result<String, Memory>
    ensures { IfOk result (λ text. string_bytes text ≡ type_fault_text fault) }
{
    match fault {
        TypeFault::Rule { rule, line } => in_line(alloc, rule.name(), line),
        TypeFault::Limit { which, line } => in_line(alloc, which.name(), line),
        TypeFault::Memory => Err(AllocError),
    }
}

fn in_line(alloc: Global, fault: &str, line: u32) -> Result<String, Memory>
    ensures { IfOk result (λ text. string_bytes text ≡ in_line fault.now line) }
{
    format!(in alloc; "{fault} line {line}")
}

/// A fault of the parser as a refusal, with its line.
fn parse_refusal(tokens: &[Token], fault: ParseFault) -> Refusal
    ensures { result ≡ parse_refusal tokens.now fault }
{
    match fault {
        ParseFault::Syntax { at } | ParseFault::TooDeep { at } => {
            let line = line_at(tokens, at);
            Refusal::Parse { fault, line }
        }
        ParseFault::Memory => Refusal::Memory,
    }
}

/// The program of a text.
fn read_program(alloc: Global, text: &[u8]) -> Result<Program, Refusal>
    ensures program { IfOk result (IsProgramText text.now) }
    ensures refused { IfErr result (λ why. why ≢ Refusal.Memory → IsRefusedFor text.now why) }
    ensures only_program { (program : Program) → IsProgramText text.now program
        → result ≢ Err Refusal.Memory → result ≡ Ok program }
{
    let tokens = lex(alloc, text)?;
    match parse(alloc, tokens.as_slice(), text) {
        Ok(program) => Ok(program),
        Err(fault) => Err(parse_refusal(tokens.as_slice(), fault)),
    }
}

/// The program of a source, or why the text is none: the first fault of the lexer, of the parser or of the static rules.
pub fn read_source(alloc: Global, text: &[u8]) -> Result<Checked, Refusal>
    ensures source { IfOk result (IsSource text.now) }
    ensures refused { IfErr result (λ why. why ≢ Refusal.Memory → IsRefusedFor text.now why) }
{
    let program = read_program(alloc, text)?;
    Ok(check(alloc, program)?)
}
