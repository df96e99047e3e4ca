//! How answers are written: words, numbers, and bytes on one line.

use asn_memory::{OutOfMemory, Text};
use rows::push_decimal;
use std::alloc::{AllocError, AllocFailed, Global};
use std::string::ToString;

/// Why a row has no answer.
#[derive(Clone, Copy, Debug, PartialEq, Eq)]
pub(crate) enum Fault {
    /// A word or a mark of the row that says nothing.
    Unknown,
    OutOfMemory,
}

/// What a step towards an answer gives.
pub(crate) type Told<T> = Result<T, Fault>;

impl From<OutOfMemory> for Fault {
    fn from(_: OutOfMemory) -> Fault {
        Fault::OutOfMemory
    }
}

impl From<AllocError> for Fault {
    fn from(_: AllocError) -> Fault {
        Fault::OutOfMemory
    }
}

impl<T: Drop> From<AllocFailed<T>> for Fault {
    fn from(_: AllocFailed<T>) -> Fault {
        Fault::OutOfMemory
    }
}

/// The most bytes that are written whole.
const WHOLE: usize = 1000;

/// How many bytes are written of longer ones.
const FRONT: usize = 60;

/// Writes a text.
pub(crate) fn say(out: &mut Text, text: &str) -> Told<()> {
    out.push_str(text)?;
    Ok(())
}

/// Writes a number in decimal digits.
pub(crate) fn write_number(alloc: Global, out: &mut Text, number: usize) -> Told<()> {
    push_decimal(alloc, out, number)?;
    Ok(())
}

/// Writes bytes, a line feed among them as `\n`.
fn write_escaped(alloc: Global, out: &mut Text, bytes: &[u8]) -> Told<()> {
    let text = Text::from_bytes(alloc, bytes)?;
    let text = text.as_str().replace(alloc, '\n', "\\n")?;
    say(out, text.as_str())
}

/// A number that tells long outputs apart: their bytes as digits to base 257, without what goes past 2^64.
fn mark_of(bytes: &[u8]) -> u64 {
    let mut mark: u64 = 0;
    for byte in bytes {
        mark = mark.wrapping_mul(257).wrapping_add(u64::from(*byte));
    }
    mark
}

/// The first so many bytes, or all where there are fewer.
pub(crate) fn cut(text: &[u8], length: usize) -> &[u8] {
    if length < text.len() {
        &text[..length]
    } else {
        text
    }
}

/// Writes bytes on one line: a line feed as `\n`, and of long ones the first, how many there are and their mark.
pub(crate) fn write_bytes(alloc: Global, out: &mut Text, bytes: &[u8]) -> Told<()> {
    if bytes.len() <= WHOLE {
        return write_escaped(alloc, out, bytes);
    }
    write_escaped(alloc, out, cut(bytes, FRONT))?;
    say(out, " .. ")?;
    write_number(alloc, out, bytes.len())?;
    say(out, " bytes, mark ")?;
    let digits = mark_of(bytes).to_string(alloc)?;
    say(out, digits.as_str())
}
