//! Whole runs: `run`; `warned`, which tells the warnings alone; and `each-cut`, `each-read` and `each-write`, which run once for each cut
//! of the text and for each failing read or write up to a number.
//!
//! An answer is the number of the status and what was written; between them stands for `run` how many bytes of the text were not read,
//! where there are some.

ghost use Rattle.std.specs.Prelude.{◌<◌};

use crate::asked::Row;
use crate::out::{Told, cut, say, write_bytes, write_number};
use asn_memory::Text;
use asn_streams::{ListSink, ListSource, Source, take_text};
use asn_tool::run_to_status;
use std::alloc::Global;

/// What differs from run to run.
#[derive(Clone, Copy)]
pub(crate) enum Varied {
    /// Where the text is cut off.
    Cut,
    /// Which read fails.
    Read,
    /// Which write fails.
    Write,
}

/// The number, or 1 in place of 0.
pub(crate) fn at_least_one(number: usize) -> usize
    ensures { 0 < result }
{
    if number == 0 { 1 } else { number }
}

/// Writes how many bytes a source still has, where it has some and its next read does not fail.
pub(crate) fn write_unread<S: Source>(alloc: Global, out: &mut Text, source: &mut S) -> Told<()> {
    match take_text(alloc, source) {
        Ok(rest) => {
            if rest.is_empty() {
                return Ok(());
            }
            say(out, ", unread ")?;
            write_number(alloc, out, rest.len())
        }
        Err(_) => Ok(()),
    }
}

/// Writes the answer of a run.
pub(crate) fn write_run(alloc: Global, out: &mut Text, row: &Row, text: &[u8]) -> Told<()> {
    let failing = row.failing_reads.as_slice();
    let mut source = ListSource::new(text, at_least_one(row.reads), failing);
    let failing = row.failing_writes.as_slice();
    let mut sink = ListSink::new(alloc, row.room, at_least_one(row.writes), failing)?;
    let status = run_to_status(alloc, row.words.as_slice(), &mut source, &mut sink);
    write_number(alloc, out, usize::from(status.number()))?;
    write_unread(alloc, out, &mut source)?;
    say(out, ": ")?;
    write_bytes(alloc, out, sink.bytes())?;
    say(out, "\n")
}

/// Writes the warnings in a listing, each behind a semicolon.
fn write_warnings(out: &mut Text, listing: &str) -> Told<()> {
    for line in listing.split("\n") {
        if let Some(warning) = line.strip_prefix("warning ") {
            say(out, "; ")?;
            say(out, warning)?;
        }
    }
    Ok(())
}

/// Writes the status of a run and its warnings.
pub(crate) fn write_warned(alloc: Global, out: &mut Text, row: &Row, text: &[u8]) -> Told<()> {
    let mut source = ListSource::new(text, at_least_one(row.reads), &[]);
    let mut sink = ListSink::new(alloc, row.room, at_least_one(row.writes), &[])?;
    let status = run_to_status(alloc, row.words.as_slice(), &mut source, &mut sink);
    write_number(alloc, out, usize::from(status.number()))?;
    match std::str::from_utf8(sink.bytes()) {
        Ok(listing) => write_warnings(out, listing)?,
        Err(_) => say(out, "; no text")?,
    }
    say(out, "\n")
}

/// The answer of a run of which these reads and writes fail.
fn answer_of(
    alloc: Global,
    row: &Row,
    text: &[u8],
    failing_reads: &[u64],
    failing_writes: &[u64],
) -> Told<Text> {
    let mut out = Text::new(alloc, "")?;
    let mut source = ListSource::new(text, at_least_one(row.reads), failing_reads);
    let mut sink = ListSink::new(alloc, row.room, at_least_one(row.writes), failing_writes)?;
    let status = run_to_status(alloc, row.words.as_slice(), &mut source, &mut sink);
    write_number(alloc, &mut out, usize::from(status.number()))?;
    say(&mut out, ": ")?;
    write_bytes(alloc, &mut out, sink.bytes())?;
    Ok(out)
}

/// The answer of the run with this number.
fn answer_at(alloc: Global, row: &Row, text: &[u8], varied: Varied, number: usize) -> Told<Text> {
    let failing = [number as u64];
    match varied {
        Varied::Cut => answer_of(alloc, row, cut(text, number), &[], &[]),
        Varied::Read => answer_of(alloc, row, text, &failing, &[]),
        Varied::Write => answer_of(alloc, row, text, &[], &failing),
    }
}

/// Writes the answer that these runs and all between them have.
fn write_stretch(
    alloc: Global,
    out: &mut Text,
    first: usize,
    last: usize,
    answer: &str,
) -> Told<()> {
    write_number(alloc, out, first)?;
    if first < last {
        say(out, " to ")?;
        write_number(alloc, out, last)?;
    }
    say(out, " -> ")?;
    say(out, answer)?;
    say(out, "\n")
}

/// Writes the answers of the runs from the first number to the last, a line for each stretch that answers the same.
pub(crate) fn write_runs(
    alloc: Global,
    out: &mut Text,
    row: &Row,
    text: &[u8],
    varied: Varied,
    first: usize,
    last: usize,
) -> Told<()> {
    let mut start = first;
    let mut told = answer_at(alloc, row, text, varied, first)?;
    for before in first..last {
        let answer = answer_at(alloc, row, text, varied, before + 1)?;
        if answer.as_str() != told.as_str() {
            write_stretch(alloc, out, start, before, told.as_str())?;
            start = before + 1;
            told = answer;
        }
    }
    write_stretch(alloc, out, start, last, told.as_str())
}
