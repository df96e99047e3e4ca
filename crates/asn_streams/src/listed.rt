//! A source and a sink in memory, of whose calls those fail that a list names.
//!
//! They stand for an outside that gives and takes in pieces, and fails in mid-stream: in tests, and for callers who want
//! to see what then happens.

ghost use Rattle.asn_streams.specs.Faults.{HasCause};
ghost use Rattle.asn_streams.specs.Listed.{called, given_to, is_listed, is_refused, no_calls, taken_of};
ghost use Rattle.asn_streams.specs.Sink.{Takes};
ghost use Rattle.asn_streams.specs.Source.{Gives};
ghost use Rattle.std.specs.Io.KnownBytes.{IsAtEnd};
ghost use Rattle.std.specs.Prelude.{◌≡◌, ◌<◌, ◌≤◌, ◌++◌, ◌||◌, [], Some, IsTrue, drop, is_err, length, min, take, IfOk, OnOk, OnErr};

use crate::sink::{Sink, SinkFailed};
use crate::source::{Source, SourceFailed};
use asn_memory::Mem;
use std::alloc::Global;
use std::marker::Model;

// The count of the calls and of those that failed, and the list of those that shall.
#[derive(Drop)]
struct Calls<'a> {
    number: u64,
    faults: u64,
    failing: &'a [u64],
}

impl<'a> Model for Calls<'a> {
    ghost use Rattle.asn_streams.specs.Listed.{CallsView};

    ghost Value = { CallsView };

    ghost view = { λ c. record { number = c.number; faults = c.faults; failing = c.failing.now } };
}

impl<'a> Calls<'a> {
    fn new(failing: &'a [u64]) -> Calls<'a>
        ensures { result ≡ no_calls failing.now }
    {
        Calls {
            number: 0,
            faults: 0,
            failing,
        }
    }

    // Counts a call, and answers whether it fails: the list names it, or it is refused anyhow.
    fn fails(&mut self, refused: bool) -> bool
        ensures answer { result ≡ (is_listed self.old || refused) }
        ensures counted { self.new ≡ called self.old result }
        ensures later { self.old.faults ≤ self.new.faults }
        ensures cause { IsTrue result → HasCause self.old.faults self.new.faults }
    {
        self.number = self.number.saturating_add(1);
        let failed = self.failing.contains(&self.number) || refused;
        if failed {
            self.faults = self.faults.saturating_add(1);
        }
        failed
    }
}

/// A source of bytes in memory, of whose reads those fail that a list names by their numbers, counted from 1. The number
/// of a read stops at 2^64 - 1, and every further read has that number. `faults` counts the failed reads, up to the same.
#[derive(Drop)]
pub struct ListSource<'a> {
    rest: &'a [u8],
    at_most: usize,
    calls: Calls<'a>,
}

impl<'a> Model for ListSource<'a> {
    ghost use Rattle.asn_streams.specs.Listed.{ListSourceView};
    ghost use Rattle.std.specs.Prelude.{◌<◌};

    ghost Value = { ListSourceView };

    ghost view = { λ s. record { rest = s.rest.now; at_most = s.at_most; calls = s.calls } };

    ghost invariant = { λ s. 0 < s.at_most };
}

impl<'a> ListSource<'a> {
    /// The source of these bytes. It gives at most `at_most` of them in one read.
    pub fn new(bytes: &'a [u8], at_most: usize, failing: &'a [u64]) -> ListSource<'a>
        requires { 0 < at_most }
        ensures bytes { result.rest ≡ bytes.now }
        ensures at_most { result.at_most ≡ at_most }
        ensures calls { result.calls ≡ no_calls failing.now }
    {
        ListSource {
            rest: bytes,
            at_most,
            calls: Calls::new(failing),
        }
    }
}

impl<'a> Source for ListSource<'a> {
    ghost state = { λ s. record { bytes = Some s.rest; faults = s.calls.faults } };

    /// Gives the next bytes: as many as fit into the buffer, as one read gives and as there are. It fails exactly where
    /// the list names this read, and then gives none.
    fn read(&mut self, buf: &mut [u8]) -> Result<usize, SourceFailed>
        requires room { 0 < length buf.old }
        ensures fails { is_err result ≡ is_listed self.old.calls }
        ensures counted { self.new.calls ≡ called self.old.calls (is_err result) }
        ensures at_most { self.new.at_most ≡ self.old.at_most }
        ensures amount { IfOk result (λ n. n ≡ given_to (length buf.old) self.old) }
        ensures filled { IfOk result (λ n. buf.new ≡ take n self.old.rest ++ drop n buf.old) }
        ensures rest { IfOk result (λ n. self.new.rest ≡ drop n self.old.rest) }
        ensures untouched { OnErr result (buf.new ≡ buf.old) }
        ensures kept { OnErr result (self.new.rest ≡ self.old.rest) }
        ensures within { IfOk result (λ n. n ≤ length buf.new) }
        ensures given { IfOk result (λ n. Gives (Some self.old.rest) (take n buf.new) (Some self.new.rest)) }
        ensures end { IfOk result (λ n. n ≡ 0 → IsAtEnd (Some self.new.rest)) }
        ensures later { self.old.calls.faults ≤ self.new.calls.faults }
        ensures no_fault { OnOk result (self.new.calls.faults ≡ self.old.calls.faults) }
        ensures cause { OnErr result (HasCause self.old.calls.faults self.new.calls.faults) }
    {
        if self.calls.fails(false) {
            return Err(SourceFailed);
        }
        let n = least(buf.len(), self.at_most, self.rest.len());
        let (piece, rest) = self.rest.split_at(n);
        buf[..n].copy_from_slice(piece);
        self.rest = rest;
        Ok(n)
    }
}

/// A sink in memory with room for a number of bytes, of whose writes those fail that a list names by their numbers,
/// counted from 1. The number of a write stops at 2^64 - 1, and every further write has that number. `faults` counts the
/// failed writes, up to the same.
#[derive(Drop)]
pub struct ListSink<'a> {
    bytes: Vec<u8>,
    capacity: usize,
    at_most: usize,
    calls: Calls<'a>,
}

impl<'a> Model for ListSink<'a> {
    ghost use Rattle.asn_streams.specs.Listed.{ListSinkView};
    ghost use Rattle.std.specs.Prelude.{◌<◌, ◌≤◌, length, vec_capacity};

    ghost Value = { ListSinkView };

    ghost view = { λ s. record { bytes = s.bytes.items; capacity = s.capacity; at_most = s.at_most; calls = s.calls } };

    ghost invariant = { λ s. (0 < s.at_most) × (length s.bytes.items ≤ s.capacity) × (s.capacity ≤ vec_capacity s.bytes) };
}

impl<'a> ListSink<'a> {
    /// An empty sink with room for `capacity` bytes, which it reserves at once. It takes at most `at_most` bytes in one
    /// write, and no memory.
    ///
    /// Err: want of memory.
    pub fn new(
        alloc: Global,
        capacity: usize,
        at_most: usize,
        failing: &'a [u64],
    ) -> Mem<ListSink<'a>>
        requires { 0 < at_most }
        ensures empty { IfOk result (λ s. s.bytes ≡ []) }
        ensures capacity { IfOk result (λ s. s.capacity ≡ capacity) }
        ensures at_most { IfOk result (λ s. s.at_most ≡ at_most) }
        ensures calls { IfOk result (λ s. s.calls ≡ no_calls failing.now) }
    {
        Ok(ListSink {
            bytes: Vec::with_capacity(alloc, capacity)?,
            capacity,
            at_most,
            calls: Calls::new(failing),
        })
    }

    /// The bytes that were written.
    pub fn bytes(&self) -> &[u8]
        ensures { result.now ≡ self.now.bytes }
    {
        self.bytes.as_slice()
    }
}

impl<'a> Sink for ListSink<'a> {
    ghost state = { λ s. record { bytes = Some s.bytes; faults = s.calls.faults } };

    /// Takes the front of the piece: as much as there is, as one write takes and as there is room for. It fails exactly
    /// where the list names this write, or where there is no room, and then takes nothing.
    fn write(&mut self, piece: &[u8]) -> Result<usize, SinkFailed>
        requires some { 0 < length piece.now }
        ensures fails { is_err result ≡ is_refused self.old }
        ensures counted { self.new.calls ≡ called self.old.calls (is_err result) }
        ensures at_most { self.new.at_most ≡ self.old.at_most }
        ensures capacity { self.new.capacity ≡ self.old.capacity }
        ensures amount { IfOk result (λ n. n ≡ taken_of (length piece.now) self.old) }
        ensures written { IfOk result (λ n. self.new.bytes ≡ self.old.bytes ++ take n piece.now) }
        ensures kept { OnErr result (self.new.bytes ≡ self.old.bytes) }
        ensures one { IfOk result (λ n. 0 < n) }
        ensures within { IfOk result (λ n. n ≤ length piece.now) }
        ensures taken { IfOk result (λ n. Takes (Some self.old.bytes) (take n piece.now) (Some self.new.bytes)) }
        ensures later { self.old.calls.faults ≤ self.new.calls.faults }
        ensures no_fault { OnOk result (self.new.calls.faults ≡ self.old.calls.faults) }
        ensures cause { OnErr result (HasCause self.old.calls.faults self.new.calls.faults) }
    {
        let room = self.capacity - self.bytes.len();
        if self.calls.fails(room == 0) {
            return Err(SinkFailed);
        }
        let n = least(piece.len(), self.at_most, room);
        self.bytes.extend_from_slice(&piece[..n]).unwrap();
        Ok(n)
    }
}

// The least of three numbers.
fn least(a: usize, b: usize, c: usize) -> usize
    ensures { result ≡ min a (min b c) }
{
    a.min(b.min(c))
}
