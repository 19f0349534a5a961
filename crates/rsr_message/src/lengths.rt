//! How long the message is with which bytes begin. Every refusal of bytes comes from here, and nothing here takes memory.
ghost use Rattle.std.specs.Prelude.{◌≡◌, ℕ, ◌+◌, ◌*◌, ◌^◌, ◌<◌, ◌≤◌, length, nat_lt, if◌then◌else◌, MatchResult, IfOk};
ghost use Rattle.std.specs.Int.{byte_len};
ghost use Rattle.marshal.specs.Spellings.{BeginsWith};
ghost use Rattle.marshal.specs.Values.{IsValue};
ghost use Rattle.rsr_message.specs.Requests.{format_of, version_1, version_2, SpellsCount};
ghost use Rattle.rsr_message.specs.Shapes.{byte_of, fields_len, IsHead, IsGiven, IsEach, IsCount, IsList, IsTail, HasShape};
ghost use Rattle.rsr_message.specs.Refusals.{fault_at, list_fault, IsRefused, IsRefusedMessage};
ghost use Rattle.rsr_message.specs.declared.faults.MessageFault.TheVariants.{BadCount, BadTag};

use crate::faults::MessageFault;
use crate::kinds::{Head, Kind, MAGIC};
use crate::versions::Version;
use global_ptr::Value;
use marshal::{ValueFault, take_value};

// How many values a list of version 1 has at most.
const MOST_VALUES_1: usize = 8;
// How many values a list of version 2 has at most.
const MOST_VALUES_2: usize = 4096;

/// The head of the message with which the bytes begin, and its length.
pub(crate) fn measure(bytes: &[u8]) -> Result<(Head, usize), MessageFault>
    ensures { MatchResult result (λ found. BeginsWith (HasShape (format_of found.0.version) found.0.kind) bytes.now found.1) (IsRefusedMessage bytes.now) }
{
    let head = head_of(bytes)?;
    let at = 3 + head.kind.fields_len();
    let Some((_, tail)) = bytes.split_at_checked(at) else {
        return Err(MessageFault::Short);
    };
    let len = tail_len(head, tail, at)?;
    Ok((head, at + len))
}

// What the first three bytes tell.
fn head_of(bytes: &[u8]) -> Result<Head, MessageFault>
    ensures { MatchResult result (λ head. BeginsWith (IsHead (format_of head.version) head.kind) bytes.now 3) (IsRefusedMessage bytes.now) }
{
    let Some((magic, bytes)) = bytes.split_first() else {
        return Err(MessageFault::Short);
    };
    if *magic != MAGIC {
        return Err(MessageFault::BadMagic);
    }
    let Some((version, bytes)) = bytes.split_first() else {
        return Err(MessageFault::Short);
    };
    let Some(version) = Version::of_byte(*version) else {
        return Err(MessageFault::BadVersion);
    };
    let Some((kind, _)) = bytes.split_first() else {
        return Err(MessageFault::Short);
    };
    match Kind::of_byte(*kind) {
        Some(kind) => Ok(Head { version, kind }),
        None => Err(MessageFault::BadKind),
    }
}

// The length of what stands behind the numbers of a message, at place `at`.
fn tail_len(head: Head, tail: &[u8], at: usize) -> Result<usize, MessageFault>
    requires { at ≡ 3 + fields_len head.kind }
    ensures { let f = format_of head.version in MatchResult result (BeginsWith (IsTail f head.kind) tail.now) (IsRefused (IsTail f head.kind) (λ k. fault_at f (byte_of head.kind) (at + k)) tail.now) }
{
    match head.kind {
        Kind::Get => Ok(0),
        Kind::Put => given_len(tail, at),
        Kind::Reply => value_len(tail, at),
        Kind::Call | Kind::Make | Kind::Cast => list_len(head.version, tail, at),
    }
}

fn list_len(version: Version, bytes: &[u8], at: usize) -> Result<usize, MessageFault>
    requires { at < 100 }
    ensures { let f = format_of version in MatchResult result (BeginsWith (IsList f) bytes.now) (IsRefused (IsList f) (list_fault f at) bytes.now) }
{
    let count = count_of(version, bytes, at)?;
    let width = version.count_len();
    let len = values_len(count, &bytes[width..], at + width)?;
    Ok(width + len)
}

// The number of a list's values, which stands at place `at`.
fn count_of(version: Version, bytes: &[u8], at: usize) -> Result<usize, MessageFault>
    requires { at < 100 }
    ensures { let f = format_of version in MatchResult result (λ count. BeginsWith (SpellsCount f count) bytes.now (byte_len f.count)) (IsRefused (IsCount f) (λ k. BadCount (at + k)) bytes.now) }
{
    match version {
        Version::One => count_1(bytes, at),
        Version::Two => count_2(bytes, at),
    }
}

fn count_1(bytes: &[u8], at: usize) -> Result<usize, MessageFault>
    requires { at < 100 }
    ensures { MatchResult result (λ count. BeginsWith (SpellsCount version_1 count) bytes.now 1) (IsRefused (IsCount version_1) (λ k. BadCount (at + k)) bytes.now) }
{
    let Some((count, _)) = bytes.split_first() else {
        return Err(MessageFault::Short);
    };
    let count = *count as usize;
    if count > MOST_VALUES_1 {
        return Err(MessageFault::BadCount { at: at as u32 });
    }
    Ok(count)
}

fn count_2(bytes: &[u8], at: usize) -> Result<usize, MessageFault>
    requires { at < 100 }
    ensures { MatchResult result (λ count. BeginsWith (SpellsCount version_2 count) bytes.now 2) (IsRefused (IsCount version_2) (λ k. BadCount (at + k)) bytes.now) }
{
    let Some((high, rest)) = bytes.split_first() else {
        return Err(MessageFault::Short);
    };
    let least = 256 * *high as usize;
    if least > MOST_VALUES_2 {
        return Err(MessageFault::BadCount { at: at as u32 });
    }
    let Some((low, _)) = rest.split_first() else {
        return Err(MessageFault::Short);
    };
    let count = least + *low as usize;
    if count > MOST_VALUES_2 {
        return Err(MessageFault::BadCount { at: at as u32 + 1 });
    }
    Ok(count)
}

// The length of so many values, the first of which stands at place `at`.
fn values_len(count: usize, bytes: &[u8], at: usize) -> Result<usize, MessageFault>
    requires { at + 13 * count < 2 ^ 32 }
    ensures { MatchResult result (BeginsWith (IsEach count) bytes.now) (IsRefused (IsEach count) (λ k. BadTag (at + k)) bytes.now) }
{
    let mut len = 0;
    for done in 0..count {
        len += given_len(&bytes[len..], at + len)?;
    }
    Ok(len)
}

fn given_len(bytes: &[u8], at: usize) -> Result<usize, MessageFault>
    requires { at < 2 ^ 32 }
    ensures given { MatchResult result (BeginsWith IsGiven bytes.now) (IsRefused IsGiven (λ k. BadTag (at + k)) bytes.now) }
    ensures short { IfOk result (λ len. len ≤ 13) }
{
    match take_value(bytes) {
        Ok((value, len)) => match value {
            Value::Void => Err(MessageFault::BadTag { at: at as u32 }),
            _ => Ok(len),
        },
        Err(ValueFault::Short) => Err(MessageFault::Short),
        Err(ValueFault::BadTag { .. }) => Err(MessageFault::BadTag { at: at as u32 }),
    }
}

fn value_len(bytes: &[u8], at: usize) -> Result<usize, MessageFault>
    requires { at < 2 ^ 32 }
    ensures { MatchResult result (BeginsWith IsValue bytes.now) (IsRefused IsValue (λ k. BadTag (at + k)) bytes.now) }
{
    match take_value(bytes) {
        Ok((_, len)) => Ok(len),
        Err(ValueFault::Short) => Err(MessageFault::Short),
        Err(ValueFault::BadTag { .. }) => Err(MessageFault::BadTag { at: at as u32 }),
    }
}
