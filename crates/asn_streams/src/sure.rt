//! A source and a sink in memory that never fail.
//!
//! They stand for the outside where nothing goes wrong: in tests, and for callers that have the text at hand.

ghost use Rattle.asn_streams.specs.Sink.{Takes};
ghost use Rattle.asn_streams.specs.Source.{Gives};
ghost use Rattle.asn_streams.specs.Sure.{told_after};
ghost use Rattle.std.specs.Io.KnownBytes.{IsAtEnd};
ghost use Rattle.std.specs.Prelude.{◌≡◌, ◌<◌, ◌≤◌, [], Ok, Some, length, min, take, IfOk, option_copied};

use crate::sink::{Sink, SinkFailed};
use crate::source::{Source, SourceFailed};
use asn_memory::Mem;
use std::alloc::Global;
use std::marker::Model;

/// A source of bytes in memory. Contracts see it as the bytes that are left.
#[derive(Drop)]
pub struct SureSource<'a> {
    rest: &'a [u8],
}

impl<'a> Model for SureSource<'a> {
    ghost use Rattle.std.specs.Prelude.{List, ℕ};

    ghost Value = { List ℕ };

    ghost view = { λ s. s.rest.now };
}

impl<'a> SureSource<'a> {
    /// The source of these bytes.
    pub fn new(bytes: &'a [u8]) -> SureSource<'a>
        ensures { result ≡ bytes.now }
    {
        SureSource { rest: bytes }
    }
}

impl<'a> Source for SureSource<'a> {
    ghost state = { λ bytes. record { bytes = Some bytes; faults = 0 } };

    /// Fills the buffer, or as much of it as there are bytes left. It never fails.
    fn read(&mut self, buf: &mut [u8]) -> Result<usize, SourceFailed>
        requires room { 0 < length buf.old }
        ensures sure { result ≡ Ok (min (length buf.old) (length self.old)) }
        ensures within { IfOk result (λ n. n ≤ length buf.new) }
        ensures given { IfOk result (λ n. Gives (Some self.old) (take n buf.new) (Some self.new)) }
        ensures end { IfOk result (λ n. n ≡ 0 → IsAtEnd (Some self.new)) }
    {
        let n = if buf.len() < self.rest.len() {
            buf.len()
        } else {
            self.rest.len()
        };
        let (piece, rest) = self.rest.split_at(n);
        buf[..n].copy_from_slice(piece);
        self.rest = rest;
        Ok(n)
    }
}

/// A sink in memory, with room for a number of bytes. It tells what it has taken as long as that fits.
#[derive(Drop)]
pub struct SureSink {
    bytes: Vec<u8>,
    capacity: usize,
    fits: bool,
}

impl Model for SureSink {
    ghost use Rattle.asn_streams.specs.Sure.{SinkView};
    ghost use Rattle.std.specs.Prelude.{◌≤◌, Some, None, length, vec_capacity, if◌then◌else◌};

    ghost Value = { SinkView };

    ghost view = { λ s. record { capacity = s.capacity; told = if s.fits then Some s.bytes.items else None } };

    ghost invariant = { λ s. (length s.bytes.items ≤ s.capacity) × (s.capacity ≤ vec_capacity s.bytes) };
}

impl SureSink {
    /// An empty sink that tells up to `capacity` bytes. It reserves them at once, and takes no memory later.
    pub fn new(alloc: Global, capacity: usize) -> Mem<SureSink>
        ensures told { IfOk result (λ s. s.told ≡ Some []) }
        ensures capacity { IfOk result (λ s. s.capacity ≡ capacity) }
    {
        Ok(SureSink {
            bytes: Vec::with_capacity(alloc, capacity)?,
            capacity,
            fits: true,
        })
    }

    /// The bytes that it has taken; None exactly where they were more than the capacity.
    pub fn bytes(&self) -> Option<&[u8]>
        ensures { option_copied result ≡ self.now.told }
    {
        if self.fits {
            Some(self.bytes.as_slice())
        } else {
            None
        }
    }
}

impl Sink for SureSink {
    ghost state = { λ s. record { bytes = s.told; faults = 0 } };

    /// Takes the whole piece. It never fails.
    fn write(&mut self, piece: &[u8]) -> Result<usize, SinkFailed>
        ensures sure { result ≡ Ok (length piece.now) }
        ensures told { self.new.told ≡ told_after self.old.capacity self.old.told piece.now }
        ensures capacity { self.new.capacity ≡ self.old.capacity }
        ensures taken { Takes self.old.told piece.now self.new.told }
    {
        if self.fits && piece.len() <= self.capacity - self.bytes.len() {
            self.bytes.extend_from_slice(piece).unwrap();
        } else {
            self.fits = false;
        }
        Ok(piece.len())
    }
}
