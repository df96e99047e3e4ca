//! How texts are written in rows.
//!
//! `\n` is a line feed, `\s` a blank, `\!` a byte that no UTF-8 has. `\{3:TEXT\}` stands for three copies of TEXT, in which `\+` is the
//! number of the copy, from 1, and `\-` its number from behind. `\/` parts the pieces that are given to a sink, and stands for nothing
//! elsewhere.

use crate::out::{Fault, Told};
use std::alloc::Global;
use std::string::ToString;

/// The numbers of a copy, from the front and from behind.
#[derive(Clone, Copy)]
struct Copy {
    number: usize,
    from_behind: usize,
}

fn push_number(alloc: Global, out: &mut Vec<u8>, number: usize) -> Told<()> {
    let digits = number.to_string(alloc)?;
    out.extend_from_slice(digits.as_str().as_bytes())?;
    Ok(())
}

/// Adds what stands for the mark at the front, and gives what is behind that.
fn push_marked<'a>(alloc: Global, out: &mut Vec<u8>, marked: &'a str, copy: Copy) -> Told<&'a str> {
    if let Some(behind) = marked.strip_prefix("n") {
        out.push(b'\n')?;
        return Ok(behind);
    }
    if let Some(behind) = marked.strip_prefix("s") {
        out.push(b' ')?;
        return Ok(behind);
    }
    if let Some(behind) = marked.strip_prefix("!") {
        out.push(255)?;
        return Ok(behind);
    }
    if let Some(behind) = marked.strip_prefix("/") {
        return Ok(behind);
    }
    if let Some(behind) = marked.strip_prefix("+") {
        push_number(alloc, out, copy.number)?;
        return Ok(behind);
    }
    if let Some(behind) = marked.strip_prefix("-") {
        push_number(alloc, out, copy.from_behind)?;
        return Ok(behind);
    }
    Err(Fault::Unknown)
}

/// Adds a piece that has no repetition in it.
fn push_piece(alloc: Global, out: &mut Vec<u8>, piece: &str, copy: Copy) -> Told<()> {
    for (place, part) in piece.split("\\").enumerate() {
        let plain = if 0 < place {
            push_marked(alloc, out, part, copy)?
        } else {
            part
        };
        out.extend_from_slice(plain.as_bytes())?;
    }
    Ok(())
}

/// The piece stands in no repetition.
const ALONE: Copy = Copy {
    number: 0,
    from_behind: 0,
};

/// Adds so many copies of a piece.
fn push_copies(alloc: Global, out: &mut Vec<u8>, piece: &str, count: usize) -> Told<()> {
    for before in 0..count {
        let copy = Copy {
            number: before + 1,
            from_behind: count - before,
        };
        push_piece(alloc, out, piece, copy)?;
    }
    Ok(())
}

/// Adds a repetition, from its number on, and what stands behind it.
fn push_repetition(alloc: Global, out: &mut Vec<u8>, written: &str) -> Told<()> {
    let Some((count, others)) = written.split_once(":") else {
        return Err(Fault::Unknown);
    };
    let Some((piece, behind)) = others.split_once("\\}") else {
        return Err(Fault::Unknown);
    };
    match count.parse::<usize>() {
        Ok(count) => push_copies(alloc, out, piece, count)?,
        Err(_) => return Err(Fault::Unknown),
    }
    push_piece(alloc, out, behind, ALONE)
}

/// The bytes that a written text stands for.
pub(crate) fn text_of(alloc: Global, written: &str) -> Told<Vec<u8>> {
    let mut out = Vec::new(alloc);
    for (place, part) in written.split("\\{").enumerate() {
        if 0 < place {
            push_repetition(alloc, &mut out, part)?;
        } else {
            push_piece(alloc, &mut out, part, ALONE)?;
        }
    }
    Ok(out)
}

/// The word that a written one stands for.
pub(crate) fn word_of(alloc: Global, written: &str) -> Told<String> {
    let bytes = text_of(alloc, written)?;
    match std::str::from_utf8(bytes.as_slice()) {
        Ok(word) => Ok(String::from_str(alloc, word)?),
        Err(_) => Err(Fault::Unknown),
    }
}
