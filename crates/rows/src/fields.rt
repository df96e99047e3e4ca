//! The fields of a row, and the texts that they are written for.
//!
//! Fields stand between tabs. In a field a backslash begins a mark: `\n`, `\r`, `\t`, `\v` and `\f` are a line feed, a
//! carriage return, a tab, a vertical tab and a form feed, `\b` is a backslash, and `\{100:ab\}` is a hundred times `ab`.
//! No repetition stands within another.

use asn_memory::{List, Mem, Text};
use std::alloc::Global;

/// A field as far as it is written out.
#[derive(Drop)]
struct Written {
    text: Text,
    /// What is repeated, while a repetition is open.
    piece: Text,
    /// How often, while a repetition is open.
    times: Option<usize>,
}

/// Adds so many copies of the piece.
fn push_copies(out: &mut Text, piece: &str, times: usize) -> Mem<()> {
    for _ in 0..times {
        out.push_str(piece)?;
    }
    Ok(())
}

/// The character that a mark stands for, and what stands behind the mark.
fn sign_of(part: &str) -> Option<(&'static str, &str)> {
    if let Some(rest) = part.strip_prefix('n') {
        return Some(("\n", rest));
    }
    if let Some(rest) = part.strip_prefix('t') {
        return Some(("\t", rest));
    }
    if let Some(rest) = part.strip_prefix('b') {
        return Some(("\\", rest));
    }
    if let Some(rest) = part.strip_prefix('r') {
        return Some(("\r", rest));
    }
    if let Some(rest) = part.strip_prefix('v') {
        return Some(("\x0b", rest));
    }
    if let Some(rest) = part.strip_prefix('f') {
        return Some(("\x0c", rest));
    }
    None
}

impl Written {
    fn push(&mut self, part: &str) -> Mem<()> {
        match self.times {
            Some(_) => self.piece.push_str(part),
            None => self.text.push_str(part),
        }
    }

    /// Begins a repetition, of which the number and the first part stand here; false where one is open.
    fn open(&mut self, alloc: Global, part: &str) -> Mem<bool> {
        match (self.times, part.split_once(':')) {
            (None, Some((digits, piece))) => match digits.parse::<usize>() {
                Ok(times) => {
                    self.piece = Text::new(alloc, piece)?;
                    self.times = Some(times);
                    Ok(true)
                }
                Err(_) => Ok(false),
            },
            _ => Ok(false),
        }
    }

    /// Ends the repetition, behind which this stands; false where none is open.
    fn close(&mut self, behind: &str) -> Mem<bool> {
        match self.times {
            Some(times) => {
                push_copies(&mut self.text, self.piece.as_str(), times)?;
                self.times = None;
                self.text.push_str(behind)?;
                Ok(true)
            }
            None => Ok(false),
        }
    }

    /// Adds what stands behind a backslash, up to the next one; false where it begins with no mark.
    fn push_marked(&mut self, alloc: Global, part: &str) -> Mem<bool> {
        if let Some(rest) = part.strip_prefix('{') {
            return self.open(alloc, rest);
        }
        if let Some(rest) = part.strip_prefix('}') {
            return self.close(rest);
        }
        match sign_of(part) {
            Some((sign, rest)) => {
                self.push(sign)?;
                self.push(rest)?;
                Ok(true)
            }
            None => Ok(false),
        }
    }
}

/// The text of a field; None where a mark is unknown, or a repetition has no end.
fn text_of(alloc: Global, field: &str) -> Mem<Option<Text>> {
    let mut written = Written {
        text: Text::new(alloc, "")?,
        piece: Text::new(alloc, "")?,
        times: None,
    };
    let mut first = true;
    for part in field.split('\\') {
        if first {
            written.push(part)?;
        } else if !written.push_marked(alloc, part)? {
            return Ok(None);
        }
        first = false;
    }
    match written.times {
        Some(_) => Ok(None),
        None => Ok(Some(written.text)),
    }
}

/// The texts of a row's fields; None where one is written wrong.
///
/// Err: want of memory.
pub fn fields_of(alloc: Global, row: &str) -> Mem<Option<List<Text>>> {
    let mut fields = List::new(alloc);
    for field in row.split('\t') {
        match text_of(alloc, field)? {
            Some(text) => fields.add(text)?,
            None => return Ok(None),
        }
    }
    Ok(Some(fields))
}
