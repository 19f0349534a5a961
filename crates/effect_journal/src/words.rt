ghost use Rattle.std.specs.Prelude.{◌≡◌, ◌==◌, ◌<◌, ◌^◌, IfOk, IfSome};
ghost use Rattle.std.specs.Char.{is_ascii_digit};
ghost use Rattle.std.specs.List.{list_all, position};
ghost use Rattle.std.specs.Option.{option_copied, option_map};
ghost use Rattle.std.specs.Str.{bytes_eq};
ghost use Rattle.global_ptr.specs.Texts.{fault_name};
ghost use Rattle.effect_journal.specs.Reading.{cut, after, is_natural, natural_of, short_natural_of, integer_of, negative_of, positive_of, hex_value, unhex, request_of, kind_of};

use ccpp_edge::Bytes;
use global_ptr::FaultKind;
use std::alloc::{AllocError, Global};
use std::str;

#[tactic(auto, unfolding(crate::specs::Reading::cut))]
/// What stands before the first such byte, and behind it.
pub(crate) fn split_once(text: &[u8], byte: u8) -> Option<(&[u8], &[u8])>
    ensures { option_map (λ parts. (parts.0.now, parts.1.now)) result ≡ cut byte text.now }
{
    let at = position(text, byte)?;
    Some((&text[..at], &text[at + 1..]))
}

/// What stands behind a word and a space.
#[tactic(auto, unfolding(crate::specs::Reading::after))]
pub(crate) fn after<'a>(word: &[u8], text: &'a [u8]) -> Option<&'a [u8]>
    ensures { option_copied result ≡ after word.now text.now }
{
    let (first, rest) = split_once(text, b' ')?;
    if first == word { Some(rest) } else { None }
}

fn position(text: &[u8], byte: u8) -> Option<usize>
    ensures { result ≡ position (λ b. b == byte) text.now }
{
    text.iter().position(|b| *b == byte)
}

fn all_digits(word: &[u8]) -> bool
    ensures { result ≡ list_all is_ascii_digit word.now }
{
    word.iter().all(|byte| byte.is_ascii_digit())
}

/// Whether a word is `0`, or a digit 1 to 9 and digits.
#[tactic(auto, unfolding(crate::specs::Reading::is_natural))]
fn is_natural(word: &[u8]) -> bool
    ensures { result ≡ is_natural word.now }
{
    match word {
        [] => false,
        [first, rest @ ..] => {
            if *first == b'0' {
                rest.is_empty()
            } else {
                all_digits(word)
            }
        }
    }
}

/// The natural number of 64 bits that a word spells.
pub(crate) fn natural(word: &[u8]) -> Option<u64>
    ensures { result ≡ natural_of word.now }
{
    if !is_natural(word) {
        return None;
    }
    let Ok(digits) = str::from_utf8(word) else {
        return None;
    };
    digits.parse().ok()
}

#[tactic(auto, unfolding(crate::specs::Reading::short_natural_of))]
/// The natural number of 32 bits that a word spells.
pub(crate) fn short_natural(word: &[u8]) -> Option<u32>
    ensures { result ≡ short_natural_of word.now }
{
    let n = natural(word)?;
    u32::try_from(n).ok()
}

/// The number of 64 bits that a word spells: a natural, or `-` and a natural that is not 0.
#[tactic(auto, unfolding(crate::specs::Reading::integer_of))]
pub(crate) fn integer(word: &[u8]) -> Option<i64>
    ensures { result ≡ integer_of word.now }
{
    match word {
        [] => None,
        [first, digits @ ..] => {
            if *first == b'-' {
                negative(digits)
            } else {
                positive(word)
            }
        }
    }
}

#[tactic(auto, unfolding(crate::specs::Reading::negative_of))]
fn negative(digits: &[u8]) -> Option<i64>
    ensures { result ≡ negative_of digits.now }
{
    let n = natural(digits)?;
    if n == 0 || n > 1 << 63 {
        return None;
    }
    Some(-1 - (n - 1) as i64)
}

#[tactic(auto, unfolding(crate::specs::Reading::positive_of))]
fn positive(word: &[u8]) -> Option<i64>
    ensures { result ≡ positive_of word.now }
{
    let n = natural(word)?;
    i64::try_from(n).ok()
}

/// The number that a lower-case hexadecimal digit spells.
#[tactic(auto, unfolding(crate::specs::Reading::hex_value))]
fn hex_value(digit: u8) -> Option<u8>
    ensures value { result ≡ hex_value digit }
    ensures bound { IfSome result (λ n. n < 16) }
{
    match digit {
        b'0'..=b'9' => Some(digit - b'0'),
        b'a'..=b'f' => Some(digit - b'a' + 10),
        _ => None,
    }
}

/// The bytes that pairs of lower-case hexadecimal digits spell.
fn unhex(alloc: Global, digits: &[u8]) -> Result<Option<Bytes>, AllocError>
    ensures { IfOk result (λ bytes. bytes ≡ unhex digits.now) }
{
    let mut bytes = Bytes::new(alloc);
    let mut rest = digits;
    while let [high, low, after @ ..] = rest {
        let (Some(high), Some(low)) = (hex_value(*high), hex_value(*low)) else {
            return Ok(None);
        };
        bytes.push(16 * high + low)?;
        rest = after;
    }
    if rest.is_empty() {
        Ok(Some(bytes))
    } else {
        Ok(None)
    }
}

/// The request of at most `longest` bytes that a word spells.
#[tactic(auto, unfolding(crate::specs::Reading::request_of))]
pub(crate) fn request(
    alloc: Global,
    longest: usize,
    digits: &[u8],
) -> Result<Option<Bytes>, AllocError>
    requires { longest < 2 ^ 32 }
    ensures { IfOk result (λ bytes. bytes ≡ request_of longest digits.now) }
{
    if digits.is_empty() || digits.len() > 2 * longest {
        return Ok(None);
    }
    unhex(alloc, digits)
}

const KINDS: [FaultKind; 9] = [
    FaultKind::SyncTwice,
    FaultKind::Overflow,
    FaultKind::DivideByZero,
    FaultKind::IndexOut,
    FaultKind::NullPointer,
    FaultKind::StoreFull,
    FaultKind::ThreadsFull,
    FaultKind::ProcessorsFull,
    FaultKind::CallDepth,
];

/// The kind of fault that has this name.
#[tactic(auto, unfolding(crate::specs::Reading::kind_of))]
pub(crate) fn fault_kind(name: &[u8]) -> Option<FaultKind>
    ensures { result ≡ kind_of name.now }
{
    KINDS.iter().copied().find(|kind| has_name(*kind, name))
}

fn has_name(kind: FaultKind, name: &[u8]) -> bool
    ensures { result ≡ bytes_eq (fault_name kind) name.now }
{
    kind.name().as_bytes() == name
}
