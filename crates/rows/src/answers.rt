//! The beginning and the end of lines.

use asn_memory::{Mem, Text};
use std::alloc::Global;
use std::string::ToString;

/// The most bytes that a line tells of what was read; of a longer text it tells how many bytes there are.
const LONGEST: usize = 4000;

/// Writes a number in decimal digits.
///
/// Err: want of memory.
pub fn push_decimal(alloc: Global, out: &mut Text, number: usize) -> Mem<()> {
    let digits = number.to_string(alloc)?;
    out.push_str(digits.as_str())
}

/// Writes a number in decimal digits behind a word.
///
/// Err: want of memory.
pub fn push_count(alloc: Global, out: &mut Text, word: &str, number: usize) -> Mem<()> {
    out.push_str(word)?;
    push_decimal(alloc, out, number)
}

/// Writes yes or no behind a word.
///
/// Err: want of memory.
pub fn push_flag(out: &mut Text, word: &str, holds: bool) -> Mem<()> {
    out.push_str(word)?;
    out.push_str(if holds { " yes" } else { " no" })
}

/// Writes a whole number in decimal digits.
///
/// Err: want of memory.
pub fn push_number(alloc: Global, out: &mut Text, number: i128) -> Mem<()> {
    let digits = number.to_string(alloc)?;
    out.push_str(digits.as_str())
}

/// Writes the text as a part of a line: `\b` for a backslash, `\n` for a line feed, `\t` for a tab.
///
/// Err: want of memory.
pub fn push_line(alloc: Global, out: &mut Text, text: &str) -> Mem<()> {
    let text = text.replace(alloc, '\\', "\\b")?;
    let text = text.as_str().replace(alloc, '\n', "\\n")?;
    let text = text.as_str().replace(alloc, '\t', "\\t")?;
    out.push_str(text.as_str())
}

/// `read OFFSET`: the rest begins there.
///
/// Err: want of memory.
pub fn begun(alloc: Global, rest: usize) -> Mem<Text> {
    let mut out = Text::new(alloc, "read ")?;
    push_decimal(alloc, &mut out, rest)?;
    Ok(out)
}

/// `read OFFSET TEXT`: the rest begins there, and this was read. Of a text that is too long for a line its bytes are told.
///
/// Err: want of memory.
pub fn ended(alloc: Global, rest: usize, text: &str) -> Mem<Text> {
    let mut out = begun(alloc, rest)?;
    out.push_str(" ")?;
    if text.len() > LONGEST {
        push_decimal(alloc, &mut out, text.len())?;
        out.push_str(" bytes")?;
    } else {
        push_line(alloc, &mut out, text)?;
    }
    Ok(out)
}

/// Writes the line that a row comes to; where it is no row, that it is unknown.
///
/// Err: want of memory.
pub fn push_answer(out: &mut Text, row: &str, line: Option<Mem<Text>>) -> Mem<()> {
    match line {
        Some(line) => {
            let line = line?;
            out.push_str(line.as_str())?;
        }
        None => {
            out.push_str("unknown row: ")?;
            out.push_str(row)?;
        }
    }
    out.push_str("\n")
}
