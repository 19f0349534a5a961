//! The line of a source in which a rule is broken, with a mark under the byte at fault.

use crate::finding::Place;
use ccpp_edge::Bytes;
use std::alloc::{AllocError, Global};

/// A line of a text: its number, from 1, and its bytes from `start` up to but not including `end`.
#[derive(Clone, Copy)]
struct Line {
    number: u32,
    start: usize,
    end: usize,
}

/// The line that is behind this one where it is not the last.
fn next(text: &[u8], line: Line) -> Option<Line> {
    let start = line.end.saturating_add(1);
    if start > text.len() {
        return None;
    }
    Some(Line {
        number: line.number.saturating_add(1),
        start,
        end: line_end(text, start),
    })
}

/// Where the line that begins here ends.
fn line_end(text: &[u8], start: usize) -> usize {
    for at in start..text.len() {
        if text.get(at) == Some(&b'\n') {
            return at;
        }
    }
    text.len()
}

/// The line of a place, and the place within it where a byte is known. None of the whole text.
fn line_of(text: &[u8], place: Place) -> Option<(Line, Option<usize>)> {
    let mut line = Line {
        number: 1,
        start: 0,
        end: line_end(text, 0),
    };
    for _ in 0..text.len() {
        match place {
            Place::Whole => return None,
            Place::Byte(at) if at as usize <= line.end => break,
            Place::Line(number) if number <= line.number => break,
            _ => {}
        }
        match next(text, line) {
            Some(more) => line = more,
            None => break,
        }
    }
    let column = match place {
        Place::Byte(at) => Some((at as usize).saturating_sub(line.start)),
        _ => None,
    };
    Some((line, column))
}

/// The number of the line of a place, which the whole text has not.
pub(crate) fn line_number(text: &[u8], place: Place) -> Option<u32> {
    line_of(text, place).map(|(line, _)| line.number)
}

/// Writes the line of a place, and where a byte is known a `^` under it.
pub(crate) fn write_excerpt(
    alloc: Global,
    out: &mut Bytes,
    text: &[u8],
    place: Place,
) -> Result<(), AllocError> {
    let Some((line, column)) = line_of(text, place) else {
        return Ok(());
    };
    let number = line.number;
    let margin = format!(in alloc; "{number:>5} | ")?;
    out.push(b'\n')?;
    out.extend_from_slice(margin.as_bytes())?;
    let bytes = text.get(line.start..line.end).unwrap_or(&[]);
    for byte in bytes {
        out.push(shown(*byte))?;
    }
    out.push(b'\n')?;
    if let Some(column) = column {
        out.extend_from_slice(b"      | ")?;
        for byte in bytes.iter().take(column) {
            if *byte == b'\t' {
                out.push(b'\t')?;
            } else if !is_inside_character(*byte) {
                out.push(b' ')?;
            }
        }
        out.extend_from_slice(b"^\n")?;
    }
    out.push(b'\n')
}

/// A byte as it is shown: in the place of a control byte, which would spoil the line, a space.
fn shown(byte: u8) -> u8 {
    if byte < b' ' && byte != b'\t' || byte == 127 {
        b' '
    } else {
        byte
    }
}

/// Whether a byte goes on with a character of UTF-8.
fn is_inside_character(byte: u8) -> bool {
    byte >= 128 && byte < 192
}
