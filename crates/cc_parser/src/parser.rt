ghost use Rattle.std.specs.Prelude.{◌≡◌, ◌≢◌, ◌-◌, ◌<◌, ◌≤◌, ◌^◌, length, IfOk, IfErr, Err};
ghost use Rattle.cc_lexer.specs.Cut.{Cut};
ghost use Rattle.cc_lexer.specs.Lexemes.{lexemes};
ghost use Rattle.cc_tree.specs.declared.declarations.Program.{Program};
ghost use Rattle.cc_grammar.specs.Program.{Spells};
ghost use Rattle.cc_grammar.specs.declared.fault.Fault.{Fault};
ghost use Rattle.cc_parser.specs.Faults.{IsRefusedFor};
ghost use Rattle.cc_parser.specs.Faults as spec;

use crate::fault::ParseFault;
use crate::items::program;
use cc_expressions::{Cursor, Terms};
use cc_grammar::Fault;
use cc_lexer::Token;
use cc_tree::Program;
use std::alloc::Global;

/// The most levels that may be open at a token.
pub const MAX_LEVELS: usize = 64;

/// The program that the tokens of a text spell, or where they stop being the front of one. The text gives names and strings their bytes.
/// It recurs in levels alone.
pub fn parse(alloc: Global, tokens: &[Token], text: &[u8]) -> Result<Program, ParseFault>
    requires { Cut text.now tokens.now }
    ensures program { IfOk result (Spells (lexemes text.now tokens.now)) }
    ensures fault { IfErr result (λ fault. fault ≢ ParseFault.Memory → IsRefusedFor (lexemes text.now tokens.now) fault) }

    // Nothing but want of memory comes in place of the program or of the fault.
    ensures only_program { (program : Program) → Spells (lexemes text.now tokens.now) program
        → result ≢ Err ParseFault.Memory → result ≡ Ok program }
    ensures only_fault { (fault : ParseFault) → IsRefusedFor (lexemes text.now tokens.now) fault
        → result ≢ Err ParseFault.Memory → result ≡ Err fault }
{
    whole_text(alloc, tokens, text)
}

/// The program or the fault. That nothing else comes in its place follows, since a list of tokens has one of them at most.
#[tactic(auto, using(crate::proofs::ParseLaws::few))]
fn whole_text(alloc: Global, tokens: &[Token], text: &[u8]) -> Result<Program, ParseFault>
    requires { Cut text.now tokens.now }
    ensures program { IfOk result (Spells (lexemes text.now tokens.now)) }
    ensures fault { IfErr result (λ fault. fault ≢ ParseFault.Memory → IsRefusedFor (lexemes text.now tokens.now) fault) }
{
    let mut cursor = Cursor::new(tokens, text);
    let all = cursor.left();
    match whole(alloc, &mut cursor) {
        Ok(program) => Ok(program),
        Err(fault) => Err(fault_at(fault, all.saturating_sub(cursor.left()))),
    }
}

/// The program that all tokens spell, with none left behind it. After a fault the cursor stands at the token that is refused, or behind them all.
#[tactic(auto, using(crate::proofs::ParseLaws::reads_whole, crate::proofs::ParseLaws::reads_more, crate::proofs::ParseLaws::reads_none))]
fn whole(alloc: Global, tokens: &mut Cursor<'_>) -> Result<Program, Fault>
    ensures program { IfOk result (Spells tokens.old) }
    ensures fault { IfErr result (λ fault. fault ≢ Fault.Memory → IsRefusedFor tokens.old (spec.fault_at fault (length tokens.old - length tokens.new))) }
{
    let terms = Terms {
        alloc,
        depth: MAX_LEVELS,
    };
    let program = program(terms, tokens)?;
    if tokens.left() > 0 {
        return Err(Fault::Syntax);
    }
    Ok(program)
}

/// The fault of a reader that stands at this place.
fn fault_at(fault: Fault, at: usize) -> ParseFault
    requires { at < 2 ^ 32 }
    ensures { result ≡ spec.fault_at fault at }
{
    match fault {
        Fault::Syntax => ParseFault::Syntax { at: at as u32 },
        Fault::TooDeep => ParseFault::TooDeep { at: at as u32 },
        Fault::Memory => ParseFault::Memory,
    }
}

/// The line of the token with this number; of the last one behind them all, and 1 where there is none.
pub fn line_at(tokens: &[Token], at: u32) -> u32
    ensures { result ≡ spec.line_at tokens.now at }
{
    match tokens.get(at as usize).or(tokens.last()) {
        None => 1,
        Some(token) => token.line,
    }
}
