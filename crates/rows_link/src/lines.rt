//! The lines that a run writes where it writes no listing: `statuses` tells each status with its number and its line, `matching-line` and
//! `depth-line` the lines with numbers in them, and `without-words` a run that found no memory for its words.

use crate::asked::Row;
use crate::out::{Told, say, write_bytes, write_number};
use crate::runs::at_least_one;
use asn_memory::{Mem, Text};
use asn_streams::ListSink;
use asn_tool::{LONGEST, Status, depth_line, end_without_words, error_line, matching_line};
use std::alloc::Global;

/// Writes the number of a status, and its line where it has one.
fn write_status(alloc: Global, out: &mut Text, status: Status) -> Told<()> {
    write_number(alloc, out, usize::from(status.number()))?;
    say(out, ": ")?;
    match error_line(status) {
        Some(line) => write_bytes(alloc, out, line.as_bytes())?,
        None => say(out, "no line of its own")?,
    }
    say(out, "\n")
}

/// Writes the statuses, and how many bytes a text may have.
pub(crate) fn write_statuses(alloc: Global, out: &mut Text) -> Told<()> {
    for status in [
        Status::Clean,
        Status::Warned,
        Status::Matching,
        Status::TooDeep,
        Status::NotUtf8,
        Status::TooLong,
        Status::ReadFault,
        Status::WriteFault,
        Status::Usage,
        Status::OutOfMemory,
    ] {
        write_status(alloc, out, status)?;
    }
    say(out, "longest ")?;
    write_number(alloc, out, LONGEST)?;
    say(out, "\n")
}

fn write_line(alloc: Global, out: &mut Text, line: Mem<Text>) -> Told<()> {
    let line = line?;
    write_bytes(alloc, out, line.as_str().as_bytes())?;
    say(out, "\n")
}

pub(crate) fn write_matching_line(
    alloc: Global,
    out: &mut Text,
    line: usize,
    column: usize,
) -> Told<()> {
    write_line(alloc, out, matching_line(alloc, line, column))
}

pub(crate) fn write_depth_line(alloc: Global, out: &mut Text, depth: usize) -> Told<()> {
    write_line(alloc, out, depth_line(alloc, depth))
}

/// Writes what a run answers that found no memory for its words.
pub(crate) fn write_end_without_words(alloc: Global, out: &mut Text, row: &Row) -> Told<()> {
    let failing = row.failing_writes.as_slice();
    let mut sink = ListSink::new(alloc, row.room, at_least_one(row.writes), failing)?;
    let status = end_without_words(&mut sink);
    write_number(alloc, out, usize::from(status.number()))?;
    say(out, ": ")?;
    write_bytes(alloc, out, sink.bytes())?;
    say(out, "\n")
}
