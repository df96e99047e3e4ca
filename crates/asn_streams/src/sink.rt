//! `Sink`: where bytes go.
//!
//! Only what a write means stands here. The sinks themselves are in `sure`, `listed` and `standard`; `giving` writes to
//! them.

ghost use Rattle.asn_streams.specs.Faults.{HasCause};
ghost use Rattle.asn_streams.specs.Sink.{Takes};
ghost use Rattle.asn_streams.specs.Stream.{StreamState};
ghost use Rattle.std.specs.Prelude.{◌≡◌, ◌<◌, ◌≤◌, length, take, IfOk, OnOk, OnErr};

use thiserror::Error;

/// A write that failed. It wrote no byte.
#[derive(Clone, Copy, Debug, PartialEq, Eq, Error)]
#[error("a write failed")]
pub struct SinkFailed;

/// Something that takes bytes, piece by piece.
pub trait Sink {
    /// All bytes that it has taken, where the sink tells them, and how often it has failed.
    ghost state: { Self → StreamState };

    /// Takes bytes from the front of `piece`, at least one, and answers how many.
    /// It fails exactly where the count of faults rises, and also where that stands at 2^64 - 1 already.
    fn write(&mut self, piece: &[u8]) -> Result<usize, SinkFailed>
        requires some { 0 < length piece.now }
        ensures one { IfOk result (λ n. 0 < n) }
        ensures within { IfOk result (λ n. n ≤ length piece.now) }
        ensures taken { IfOk result (λ n. Takes (state self.old).bytes (take n piece.now) (state self.new).bytes) }
        ensures same { OnErr result ((state self.new).bytes ≡ (state self.old).bytes) }
        ensures later { (state self.old).faults ≤ (state self.new).faults }
        ensures no_fault { OnOk result ((state self.new).faults ≡ (state self.old).faults) }
        ensures cause { OnErr result (HasCause (state self.old).faults (state self.new).faults) };
}
