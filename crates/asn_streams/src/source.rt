//! `Source`: where bytes come from.
//!
//! Only what a read means stands here. The sources themselves are in `sure`, `listed` and `standard`; `taking` reads
//! them.

ghost use Rattle.asn_streams.specs.Faults.{HasCause};
ghost use Rattle.asn_streams.specs.Source.{Gives};
ghost use Rattle.asn_streams.specs.Stream.{StreamState};
ghost use Rattle.std.specs.Io.KnownBytes.{IsAtEnd};
ghost use Rattle.std.specs.Prelude.{◌≡◌, ◌<◌, ◌≤◌, length, take, IfOk, OnOk, OnErr};

use thiserror::Error;

/// A read that failed. It took no byte.
#[derive(Clone, Copy, Debug, PartialEq, Eq, Error)]
#[error("a read failed")]
pub struct SourceFailed;

/// Something that gives bytes, piece by piece.
pub trait Source {
    /// The bytes still to come, where the source tells them, and how often it has failed.
    ghost state: { Self → StreamState };

    /// Puts the next bytes in the front of `buf` and answers how many they are. Zero is the source's end.
    /// It fails exactly where the count of faults rises, and also where that stands at 2^64 - 1 already.
    fn read(&mut self, buf: &mut [u8]) -> Result<usize, SourceFailed>
        requires room { 0 < length buf.old }
        ensures within { IfOk result (λ n. n ≤ length buf.new) }
        ensures given { IfOk result (λ n. Gives (state self.old).bytes (take n buf.new) (state self.new).bytes) }
        ensures end { IfOk result (λ n. n ≡ 0 → IsAtEnd (state self.new).bytes) }
        ensures same { OnErr result ((state self.new).bytes ≡ (state self.old).bytes) }
        ensures later { (state self.old).faults ≤ (state self.new).faults }
        ensures no_fault { OnOk result ((state self.new).faults ≡ (state self.old).faults) }
        ensures cause { OnErr result (HasCause (state self.old).faults (state self.new).faults) };
}
