//! The reading loop: a source's bytes, to its end or up to a limit.
//!
//! It stands on `source` alone; the program's run calls it once, before anything is made of the text.

ghost use Rattle.asn_streams.specs.Faults.{HasCause};
ghost use Rattle.asn_streams.specs.Source.{Gives};
ghost use Rattle.asn_streams.specs.Taking.{limit, LosesFront};
ghost use Rattle.asn_streams.specs.declared.taking.TakeFault.TheVariants.{OutOfMemory};
ghost use Rattle.std.specs.Io.KnownBytes.{IsAtEnd};
ghost use Rattle.std.specs.Prelude.{◌≡◌, ◌<◌, ◌≤◌, ◌+◌, ◌-◌, ◌++◌, length, take, IfOk, IfSome, OnOk, OnErr, IsErrOf};

use crate::source::{Source, SourceFailed};
use asn_memory::{List, Mem};
use std::alloc::{AllocError, Global};
use thiserror::Error;

/// How many bytes are read at most: one more than a text may have.
pub const LIMIT: usize = 2_097_153;

/// How many bytes are asked for at once.
const PIECE: usize = 65_536;

/// Why there is no text.
#[derive(Clone, Copy, Debug, PartialEq, Eq, Error)]
pub enum TakeFault {
    /// The source failed.
    #[error("a read failed")]
    Failed,
    /// Want of memory.
    #[error("out of memory")]
    OutOfMemory,
}

impl From<AllocError> for TakeFault {
    ghost from_gives = { λ _ fault. fault ≡ OutOfMemory };

    fn from(_: AllocError) -> TakeFault {
        TakeFault::OutOfMemory
    }
}

/// Reads to the source's end, or until `LIMIT` bytes were taken. A text of `LIMIT` bytes is longer than a text may be.
///
/// Failed: a read failed, which ends the reading. OutOfMemory: the bytes or the buffer found no memory.
/// In both cases the bytes taken so far are gone. Where it does not answer Failed, no read failed.
pub fn take_text<S: Source>(alloc: Global, source: &mut S) -> Result<List<u8>, TakeFault>
    ensures taken { IfOk result (λ text. Gives (S.state source.old).bytes text (S.state source.new).bytes) }
    ensures bounded { IfOk result (λ text. length text ≤ limit) }
    ensures end { IfOk result (λ text. length text < limit → IsAtEnd (S.state source.new).bytes) }
    ensures first { IfOk result (λ text. IfSome (S.state source.old).bytes (λ all. text ≡ take limit all)) }
    ensures lost { OnErr result (LosesFront limit (S.state source.old).bytes (S.state source.new).bytes) }
    ensures later { (S.state source.old).faults ≤ (S.state source.new).faults }
    ensures no_fault { ¬ (IsErrOf result TakeFault.Failed) → (S.state source.new).faults ≡ (S.state source.old).faults }
    ensures cause { IsErrOf result TakeFault.Failed → HasCause (S.state source.old).faults (S.state source.new).faults }
{
    take_at_most(alloc, source, LIMIT)
}

// The same up to any length.
#[tactic(auto, using(crate::proofs::SeveralReads::gives_none, crate::proofs::SeveralReads::gives_more, crate::proofs::SeveralReads::text_is_front))]
fn take_at_most<S: Source>(
    alloc: Global,
    source: &mut S,
    most: usize,
) -> Result<List<u8>, TakeFault>
    ensures taken { IfOk result (λ text. Gives (S.state source.old).bytes text (S.state source.new).bytes) }
    ensures bounded { IfOk result (λ text. length text ≤ most) }
    ensures end { IfOk result (λ text. length text < most → IsAtEnd (S.state source.new).bytes) }
    ensures first { IfOk result (λ text. IfSome (S.state source.old).bytes (λ all. text ≡ take most all)) }
    ensures lost { OnErr result (LosesFront most (S.state source.old).bytes (S.state source.new).bytes) }
    ensures later { (S.state source.old).faults ≤ (S.state source.new).faults }
    ensures no_fault { ¬ (IsErrOf result TakeFault.Failed) → (S.state source.new).faults ≡ (S.state source.old).faults }
    ensures cause { IsErrOf result TakeFault.Failed → HasCause (S.state source.old).faults (S.state source.new).faults }
{
    let mut buffer = read_buffer(alloc)?;
    let mut text = List::new(alloc);
    while text.len() < most {
        match take_piece(source, &mut buffer, &mut text, most) {
            Ok(0) => return Ok(text),
            Ok(_) => {}
            Err(fault) => return Err(fault),
        }
    }
    Ok(text)
}

// Where each piece is read to.
fn read_buffer(alloc: Global) -> Result<Vec<u8>, AllocError>
    ensures { IfOk result (λ buffer. 0 < length buffer.items) }
{
    vec![in alloc; 0; PIECE]
}

// Reads once, and adds what came to the text.
fn take_piece<S: Source>(
    source: &mut S,
    buffer: &mut [u8],
    text: &mut List<u8>,
    most: usize,
) -> Result<usize, TakeFault>
    requires room { 0 < length buffer.old }
    requires wanted { length text.old < most }
    ensures taken { OnOk result ((piece : _) × (text.new ≡ text.old ++ piece)
        × Gives (S.state source.old).bytes piece (S.state source.new).bytes) }
    ensures grown { IfOk result (λ n. length text.new ≡ length text.old + n) }
    ensures bounded { OnOk result (length text.new ≤ most) }
    ensures end { IfOk result (λ n. n ≡ 0 → IsAtEnd (S.state source.new).bytes) }
    ensures lost { OnErr result (LosesFront (most - length text.old) (S.state source.old).bytes (S.state source.new).bytes) }
    ensures later { (S.state source.old).faults ≤ (S.state source.new).faults }
    ensures no_fault { ¬ (IsErrOf result TakeFault.Failed) → (S.state source.new).faults ≡ (S.state source.old).faults }
    ensures cause { IsErrOf result TakeFault.Failed → HasCause (S.state source.old).faults (S.state source.new).faults }
{
    let wanted = most - text.len();
    let size = if wanted < buffer.len() {
        wanted
    } else {
        buffer.len()
    };
    let piece = &mut buffer[..size];
    match source.read(piece) {
        Ok(n) => match add_all(text, &piece[..n]) {
            Ok(()) => Ok(n),
            Err(_) => Err(TakeFault::OutOfMemory),
        },
        Err(SourceFailed) => Err(TakeFault::Failed),
    }
}

// Adds the bytes at the end. After a refusal some may be there.
fn add_all(text: &mut List<u8>, bytes: &[u8]) -> Mem<()>
    ensures { OnOk result (text.new ≡ text.old ++ bytes.now) }
{
    for byte in bytes {
        text.add(*byte)?;
    }
    Ok(())
}
