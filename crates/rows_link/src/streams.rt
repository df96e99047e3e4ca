//! Sources and sinks by themselves: `take` and `sure-take` read a text to its end, `reads` reads by single calls into four bytes,
//! `give` and `sure-give` write pieces one after the other, `std` reads and writes by the standard library's readers and writers, and
//! `own-take` reads from a source that goes on behind its end.

use crate::asked::Row;
use crate::out::{Fault, Told, say, write_bytes, write_number};
use crate::runs::{at_least_one, write_unread};
use crate::texts::text_of;
use asn_memory::{List, Text};
use asn_streams::{
    ListSink, ListSource, SinkFailed, Source, SourceFailed, StdSink, StdSource, SureSink,
    SureSource, TakeFault, give_all, take_text,
};
use std::alloc::Global;

// ---- sources

/// Writes what a text was taken as.
fn write_text(alloc: Global, out: &mut Text, taken: &Result<List<u8>, TakeFault>) -> Told<()> {
    match taken {
        Ok(text) => {
            say(out, "took ")?;
            write_number(alloc, out, text.len())
        }
        Err(TakeFault::Failed) => say(out, "failed"),
        Err(TakeFault::OutOfMemory) => Err(Fault::OutOfMemory),
    }
}

/// Writes what was taken of a source, behind what it still has.
fn write_taken_of<S: Source>(alloc: Global, out: &mut Text, source: &mut S) -> Told<()> {
    let taken = take_text(alloc, source);
    write_text(alloc, out, &taken)?;
    write_unread(alloc, out, source)?;
    match taken {
        Ok(text) => {
            say(out, ": ")?;
            write_bytes(alloc, out, text.as_slice())?;
        }
        Err(_) => {}
    }
    say(out, "\n")
}

pub(crate) fn write_taken(alloc: Global, out: &mut Text, row: &Row, text: &[u8]) -> Told<()> {
    let failing = row.failing_reads.as_slice();
    let mut source = ListSource::new(text, at_least_one(row.reads), failing);
    write_taken_of(alloc, out, &mut source)
}

pub(crate) fn write_sure_taken(alloc: Global, out: &mut Text, text: &[u8]) -> Told<()> {
    write_taken_of(alloc, out, &mut SureSource::new(text))
}

/// Writes what each of so many reads gives.
pub(crate) fn write_reads(alloc: Global, out: &mut Text, row: &Row, text: &[u8]) -> Told<()> {
    let failing = row.failing_reads.as_slice();
    let mut source = ListSource::new(text, at_least_one(row.reads), failing);
    for _ in 0..row.number {
        let mut piece = [b'.'; 4];
        match source.read(&mut piece) {
            Ok(count) => write_number(alloc, out, count)?,
            Err(SourceFailed) => say(out, "failed")?,
        }
        say(out, " ")?;
        write_bytes(alloc, out, &piece)?;
        say(out, "; ")?;
    }
    say(out, "\n")
}

/// A source whose second read is its end, and which gives one byte in every other.
#[derive(Drop)]
struct EndThenMore {
    calls: usize,
}

impl Source for EndThenMore {
    ghost use Rattle.std.specs.Prelude.{None};

    ghost state = { λ _. record { bytes = None; faults = 0 } };

    fn read(&mut self, buf: &mut [u8]) -> Result<usize, SourceFailed> {
        self.calls = self.calls.saturating_add(1);
        if self.calls == 2 {
            return Ok(0);
        }
        buf[0] = b'A';
        Ok(1)
    }
}

/// Writes what is taken of a source that goes on behind its end, and how many reads were made.
pub(crate) fn write_own_source(alloc: Global, out: &mut Text) -> Told<()> {
    let mut source = EndThenMore { calls: 0 };
    let taken = take_text(alloc, &mut source);
    write_text(alloc, out, &taken)?;
    say(out, " by reads: ")?;
    write_number(alloc, out, source.calls)?;
    say(out, "\n")
}

// ---- sinks

/// Writes whether the pieces were given whole.
fn write_outcome(out: &mut Text, outcome: Result<(), SinkFailed>) -> Told<()> {
    match outcome {
        Ok(()) => say(out, "gave"),
        Err(SinkFailed) => say(out, "failed"),
    }
}

/// Writes what a sink holds behind each piece that it is given.
pub(crate) fn write_given(alloc: Global, out: &mut Text, row: &Row) -> Told<()> {
    let failing = row.failing_writes.as_slice();
    let mut sink = ListSink::new(alloc, row.room, at_least_one(row.writes), failing)?;
    for piece in row.text.split("\\/") {
        let piece = text_of(alloc, piece)?;
        write_outcome(out, give_all(&mut sink, piece.as_slice()))?;
        say(out, " ")?;
        write_bytes(alloc, out, sink.bytes())?;
        say(out, "; ")?;
    }
    say(out, "\n")
}

/// Writes what a sink that never fails tells behind each piece.
pub(crate) fn write_sure_given(alloc: Global, out: &mut Text, row: &Row) -> Told<()> {
    let mut sink = SureSink::new(alloc, row.room)?;
    for piece in row.text.split("\\/") {
        let piece = text_of(alloc, piece)?;
        write_outcome(out, give_all(&mut sink, piece.as_slice()))?;
        match sink.bytes() {
            Some(bytes) => {
                say(out, " ")?;
                write_bytes(alloc, out, bytes)?;
            }
            None => say(out, " more than fits")?,
        }
        say(out, "; ")?;
    }
    say(out, "\n")
}

// ---- readers and writers of std

/// Writes what comes of a text that is given to a writer that has room for all, and to one that has room for two bytes.
fn write_written(alloc: Global, out: &mut Text, text: &[u8]) -> Told<()> {
    let mut written = Vec::new(alloc);
    write_outcome(out, give_all(&mut StdSink::new(&mut written), text))?;
    say(out, " ")?;
    write_bytes(alloc, out, written.as_slice())?;
    say(out, "; ")?;
    let mut room = [b'.'; 2];
    write_outcome(out, give_all(&mut StdSink::new(room.as_mut_slice()), text))?;
    say(out, " ")?;
    write_bytes(alloc, out, &room)?;
    say(out, "\n")
}

/// Writes what is taken of a reader, and what writers take.
pub(crate) fn write_std(alloc: Global, out: &mut Text, text: &[u8]) -> Told<()> {
    write_taken_of(alloc, out, &mut StdSource::new(text))?;
    write_written(alloc, out, text)
}
