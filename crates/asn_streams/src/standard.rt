//! Adapters that make a source of any reader of std, and a sink of any writer.
//!
//! The program's own input and output go through them. As a source and a sink they tell no bytes, since no contract
//! says what a file gives; where a reader or a writer in memory tells its bytes, the adapter's own clauses do.

ghost use Rattle.asn_streams.specs.Faults.{HasCause};
ghost use Rattle.std.specs.Io.KnownBytes.{Appends, Consumes, IsAtEnd, Keeps};
ghost use Rattle.std.specs.Prelude.{◌≡◌, ◌<◌, ◌≤◌, ◌+◌, ◌-◌, ◌^◌, None, length, min, take, IfOk, OnOk, OnErr};

use crate::sink::{Sink, SinkFailed};
use crate::source::{Source, SourceFailed};
use std::io::{Read, Write};
use std::marker::Model;

/// A source over a reader. It counts the reads that failed, up to 2^64 - 1.
#[derive(Drop)]
pub struct StdSource<R: Read> {
    reader: R,
    faults: u64,
}

impl<R: Read> Model for StdSource<R> {
    ghost use Rattle.asn_streams.specs.Stream.{StreamState};

    ghost Value = { StreamState };

    ghost view = { λ s. record { bytes = R.remaining s.reader; faults = s.faults } };
}

impl<R: Read> StdSource<R> {
    /// A source over `reader`, that has not failed yet.
    pub fn new(reader: R) -> StdSource<R>
        ensures bytes { result.bytes ≡ R.remaining reader }
        ensures faults { result.faults ≡ 0 }
    {
        StdSource { reader, faults: 0 }
    }
}

impl<R: Read> Source for StdSource<R> {
    ghost state = { λ s. record { bytes = None; faults = s.faults } };

    /// Reads once. An `Err` of the reader is a failure, and so is a read that a signal interrupted.
    fn read(&mut self, buf: &mut [u8]) -> Result<usize, SourceFailed>
        requires room { 0 < length buf.old }
        ensures within { IfOk result (λ n. n ≤ length buf.new) }
        ensures passed { IfOk result (λ n. Consumes self.old.bytes self.new.bytes (take n buf.new)) }
        ensures end { IfOk result (λ n. n ≡ 0 → IsAtEnd self.new.bytes) }
        ensures same { OnErr result (Keeps self.old.bytes self.new.bytes) }
        ensures no_fault { OnOk result (self.new.faults ≡ self.old.faults) }
        ensures counted { OnErr result (self.new.faults ≡ min (self.old.faults + 1) (2 ^ 64 - 1)) }
        ensures later { self.old.faults ≤ self.new.faults }
        ensures cause { OnErr result (HasCause self.old.faults self.new.faults) }
    {
        match self.reader.read(buf) {
            Ok(n) => Ok(n),
            Err(_) => {
                self.faults = one_more(self.faults);
                Err(SourceFailed)
            }
        }
    }
}

/// A sink over a writer. It counts the writes that failed, up to 2^64 - 1.
#[derive(Drop)]
pub struct StdSink<W: Write> {
    writer: W,
    faults: u64,
}

impl<W: Write> Model for StdSink<W> {
    ghost use Rattle.asn_streams.specs.Stream.{StreamState};

    ghost Value = { StreamState };

    ghost view = { λ s. record { bytes = W.contents s.writer; faults = s.faults } };
}

impl<W: Write> StdSink<W> {
    /// A sink over `writer`, that has not failed yet.
    pub fn new(writer: W) -> StdSink<W>
        ensures bytes { result.bytes ≡ W.contents writer }
        ensures faults { result.faults ≡ 0 }
    {
        StdSink { writer, faults: 0 }
    }
}

impl<W: Write> Sink for StdSink<W> {
    ghost state = { λ s. record { bytes = None; faults = s.faults } };

    /// Writes once. An `Err` of the writer is a failure, and so is a write of nothing, or one that a signal interrupted.
    fn write(&mut self, piece: &[u8]) -> Result<usize, SinkFailed>
        ensures one { IfOk result (λ n. 0 < n) }
        ensures within { IfOk result (λ n. n ≤ length piece.now) }
        ensures passed { IfOk result (λ n. Appends self.old.bytes self.new.bytes (take n piece.now)) }
        ensures same { OnErr result (Keeps self.old.bytes self.new.bytes) }
        ensures no_fault { OnOk result (self.new.faults ≡ self.old.faults) }
        ensures counted { OnErr result (self.new.faults ≡ min (self.old.faults + 1) (2 ^ 64 - 1)) }
        ensures later { self.old.faults ≤ self.new.faults }
        ensures cause { OnErr result (HasCause self.old.faults self.new.faults) }
    {
        match self.writer.write(piece) {
            Ok(n) if 0 < n => Ok(n),
            _ => {
                self.faults = one_more(self.faults);
                Err(SinkFailed)
            }
        }
    }
}

// The count after a failure. It stands still at its last value.
fn one_more(faults: u64) -> u64
    ensures { result ≡ min (faults + 1) (2 ^ 64 - 1) }
{
    faults.saturating_add(1)
}
