ghost use Rattle.std.specs.Prelude.{◌≡◌, ◌++◌, ◌∷◌, [], ◌<◌, false, decimal, codes, Some, IfOk, OnOk, OnErr};
ghost use Rattle.std.specs.Fmt.{digit_glyph, signed_decimal};
ghost use Rattle.effect_journal.specs.Journal.{HasLine, version_2, hex, line, standing_words, by_words};
ghost use Rattle.effect_journal.specs.Writing.{spaced};

use crate::entry::{Entry, FaultBy};
use crate::format::Version;
use ccpp_edge::Bytes;
use global_ptr::Standing;
use std::alloc::{AllocError, Global};

/// Appends the first line, the header of version 2. Want of memory leaves the text as it was.
pub fn write_header(alloc: Global, out: &mut Bytes) -> Result<(), AllocError>
    ensures ok { OnOk result (out.new ≡ out.old ++ version_2.header ++ 10 ∷ []) }
    ensures err { OnErr result (out.new ≡ out.old) }
{
    let mut line = Bytes::from_slice(alloc, Version::Two.header())?;
    line.push(b'\n')?;
    out.append(line)?;
    Ok(())
}

/// Appends the line of an entry of version 2. Want of memory leaves the text as it was.
pub fn write_entry(alloc: Global, out: &mut Bytes, entry: &Entry) -> Result<(), AllocError>
    requires { HasLine version_2.allows entry.now }
    ensures ok { OnOk result (out.new ≡ out.old ++ line entry.now ++ 10 ∷ []) }
    ensures err { OnErr result (out.new ≡ out.old) }
{
    let mut line = line_of(alloc, entry)?;
    line.push(b'\n')?;
    out.append(line)?;
    Ok(())
}

fn line_of(alloc: Global, entry: &Entry) -> Result<Bytes, AllocError>
    ensures { IfOk result (λ text. text ≡ line entry.now) }
{
    match entry {
        Entry::Run {
            processor,
            thread,
            steps,
        } => run_line(alloc, *processor, *thread, *steps),
        Entry::Serve { processor, request } => serve_line(alloc, *processor, request.as_slice()),
        Entry::Make { request } => make_line(alloc, request.as_slice()),
        Entry::End { standing, by } => end_line(alloc, *standing, *by),
    }
}

fn run_line(alloc: Global, processor: u32, thread: u32, steps: u64) -> Result<Bytes, AllocError>
    ensures { IfOk result (λ text. text ≡ line (Entry.Run processor thread steps)) }
{
    let mut line = Bytes::from_slice(alloc, b"run")?;
    push_number(&mut line, u64::from(processor))?;
    push_number(&mut line, u64::from(thread))?;
    push_number(&mut line, steps)?;
    Ok(line)
}

fn serve_line(alloc: Global, processor: u32, request: &[u8]) -> Result<Bytes, AllocError>
    ensures { IfOk result (λ text. text ≡ line (Entry.Serve processor request.now)) }
{
    let mut line = Bytes::from_slice(alloc, b"serve")?;
    push_number(&mut line, u64::from(processor))?;
    push_hex(&mut line, request)?;
    Ok(line)
}

fn make_line(alloc: Global, request: &[u8]) -> Result<Bytes, AllocError>
    ensures { IfOk result (λ text. text ≡ line (Entry.Make request.now)) }
{
    let mut line = Bytes::from_slice(alloc, b"make")?;
    push_hex(&mut line, request)?;
    Ok(line)
}

fn end_line(alloc: Global, standing: Standing, by: Option<FaultBy>) -> Result<Bytes, AllocError>
    ensures { IfOk result (λ text. text ≡ line (Entry.End standing by)) }
{
    let mut line = Bytes::from_slice(alloc, b"end")?;
    push_standing(&mut line, standing)?;
    push_by(&mut line, by)?;
    Ok(line)
}

fn push_standing(line: &mut Bytes, standing: Standing) -> Result<(), AllocError>
    ensures { OnOk result (line.new ≡ line.old ++ spaced (standing_words standing)) }
{
    match standing {
        Standing::Done(value) => {
            push_word(line, b"done")?;
            push_signed(line, value)
        }
        Standing::Blocked(left) => {
            push_word(line, b"blocked")?;
            push_number(line, left)
        }
        Standing::Fault(fault) => {
            push_word(line, b"fault")?;
            push_word(line, fault.kind.name().as_bytes())?;
            push_word(line, b"line")?;
            push_number(line, u64::from(fault.line))
        }
        Standing::Limit(steps) => {
            push_word(line, b"limit")?;
            push_number(line, steps)
        }
    }
}

fn push_by(line: &mut Bytes, by: Option<FaultBy>) -> Result<(), AllocError>
    ensures { OnOk result (line.new ≡ line.old ++ spaced (by_words by)) }
{
    let Some(by) = by else {
        return Ok(());
    };
    push_word(line, b"by")?;
    push_number(line, u64::from(by.processor))?;
    push_number(line, u64::from(by.thread))
}

/// Appends a space and a word.
fn push_word(line: &mut Bytes, word: &[u8]) -> Result<(), AllocError>
    ensures { OnOk result (line.new ≡ line.old ++ (32 ∷ word.now)) }
{
    line.push(b' ')?;
    line.extend_from_slice(word)?;
    Ok(())
}

/// Appends a space and a number in decimal.
fn push_number(line: &mut Bytes, n: u64) -> Result<(), AllocError>
    ensures { OnOk result (line.new ≡ line.old ++ (32 ∷ decimal n)) }
{
    line.push(b' ')?;
    push_decimal(line, n)
}

/// Appends a space and a number in decimal, with its sign where it is below 0.
fn push_signed(line: &mut Bytes, value: i64) -> Result<(), AllocError>
    ensures { OnOk result (line.new ≡ line.old ++ (32 ∷ signed_decimal value)) }
{
    line.push(b' ')?;
    if value >= 0 {
        return push_decimal(line, value.unsigned_abs());
    }
    line.push(b'-')?;
    push_decimal(line, value.unsigned_abs())
}

fn push_decimal(line: &mut Bytes, n: u64) -> Result<(), AllocError>
    ensures { OnOk result (line.new ≡ line.old ++ decimal n) }
{
    let last = b'0' + (n % 10) as u8;
    if n >= 10 {
        push_decimal(line, n / 10)?;
    }
    line.push(last)
}

/// Appends a space and the bytes, two lower-case digits each.
fn push_hex(line: &mut Bytes, bytes: &[u8]) -> Result<(), AllocError>
    ensures { OnOk result (line.new ≡ line.old ++ (32 ∷ hex bytes.now)) }
{
    line.push(b' ')?;
    for byte in bytes {
        line.push(hex_digit(byte / 16))?;
        line.push(hex_digit(byte % 16))?;
    }
    Ok(())
}

fn hex_digit(value: u8) -> u8
    requires { value < 16 }
    ensures { result ≡ digit_glyph false value }
{
    if value < 10 {
        b'0' + value
    } else {
        b'a' + value - 10
    }
}
