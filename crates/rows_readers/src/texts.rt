//! Whole texts, and what they come to where they are cut.

use asn_memory::{Mem, Text};
use asn_modules::asn_spec;
use rows::push_decimal;
use rows_trees::{counts_line, cut_line, reading_line};
use std::alloc::Global;

/// Writes the line of a stretch of cuts: `FROM..TO LINE`, both of them cuts of it.
fn push_stretch(alloc: Global, out: &mut Text, from: usize, to: usize, line: &str) -> Mem<()> {
    out.push_str("\n  ")?;
    push_decimal(alloc, out, from)?;
    out.push_str("..")?;
    push_decimal(alloc, out, to)?;
    out.push_str(" ")?;
    out.push_str(line)
}

/// The cuts that have one answer, as far as they go.
#[derive(Drop)]
struct Stretch {
    from: usize,
    to: usize,
    line: Text,
}

/// What the text comes to that is cut at this byte.
fn line_of_cut(alloc: Global, text: &str, cut: usize, depth: usize) -> Mem<Text> {
    cut_line(alloc, asn_spec(alloc, part(text, cut), depth))
}

/// The text up to a byte; empty where that is within a character.
fn part(text: &str, cut: usize) -> &str {
    match text.as_bytes().get(0..cut) {
        Some(bytes) => std::str::from_utf8(bytes).unwrap_or(""),
        None => "",
    }
}

/// The stretch with one cut more, which begins a new one where its answer is another.
fn further(
    alloc: Global,
    out: &mut Text,
    stretch: Stretch,
    cut: usize,
    line: Text,
) -> Mem<Stretch> {
    if stretch.line.as_str() == line.as_str() {
        return Ok(Stretch {
            from: stretch.from,
            to: cut,
            line,
        });
    }
    push_stretch(alloc, out, stretch.from, stretch.to, stretch.line.as_str())?;
    Ok(Stretch {
        from: cut,
        to: cut,
        line,
    })
}

/// `cuts`, and below it a line for each stretch of cuts with the same answer, from no byte on to all of them.
fn cuts(alloc: Global, text: &str, depth: usize) -> Mem<Text> {
    let mut out = Text::new(alloc, "cuts")?;
    let mut stretch = Stretch {
        from: 0,
        to: 0,
        line: line_of_cut(alloc, text, 0, depth)?,
    };
    for cut in 1..=text.len() {
        let line = line_of_cut(alloc, text, cut, depth)?;
        stretch = further(alloc, &mut out, stretch, cut, line)?;
    }
    push_stretch(
        alloc,
        &mut out,
        stretch.from,
        stretch.to,
        stretch.line.as_str(),
    )?;
    Ok(out)
}

/// The lines of a row about a whole text; None where it is none of these.
pub(crate) fn line_of(alloc: Global, reader: &str, depth: usize, text: &str) -> Option<Mem<Text>> {
    match reader {
        "asn_spec" => Some(reading_line(alloc, asn_spec(alloc, text, depth))),
        "counts" => Some(counts_line(alloc, asn_spec(alloc, text, depth))),
        "cuts" => Some(cuts(alloc, text, depth)),
        _ => None,
    }
}
