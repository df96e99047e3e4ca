//! The writing loop: bytes, to a sink that takes them in pieces.
//!
//! It stands on `sink` alone; the program's run gives everything that it writes through it.

ghost use Rattle.asn_streams.specs.Faults.{HasCause};
ghost use Rattle.asn_streams.specs.Giving.{TakesFront};
ghost use Rattle.asn_streams.specs.Sink.{Takes};
ghost use Rattle.std.specs.Prelude.{◌≡◌, ◌≤◌, [], OnOk, OnErr, IsOk};

use crate::sink::{Sink, SinkFailed};

/// Writes all the bytes, in as many pieces as the sink wants. It takes no memory.
///
/// `SinkFailed`: a write failed, which ends the writing. A front of the bytes was then taken. Where none failed, all were.
#[tactic(auto, using(crate::proofs::SeveralWrites::takes_none))]
pub fn give_all<K: Sink>(sink: &mut K, bytes: &[u8]) -> Result<(), SinkFailed>
    ensures all_taken { OnOk result (Takes (K.state sink.old).bytes bytes.now (K.state sink.new).bytes) }
    ensures front_taken { OnErr result (TakesFront (K.state sink.old).bytes bytes.now (K.state sink.new).bytes) }
    ensures later { (K.state sink.old).faults ≤ (K.state sink.new).faults }
    ensures no_fault { OnOk result ((K.state sink.new).faults ≡ (K.state sink.old).faults) }
    ensures cause { OnErr result (HasCause (K.state sink.old).faults (K.state sink.new).faults) }
    ensures nothing { bytes.now ≡ [] → IsOk result }
    ensures no_call { bytes.now ≡ [] → sink.new ≡ sink.old }
{
    let mut given = 0;
    while given < bytes.len() {
        given += sink.write(&bytes[given..])?;
    }
    Ok(())
}
