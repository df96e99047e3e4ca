//! The program `link`: it reads ASN.1 modules on standard input, links them, and writes the listing to standard output.
//!
//! It only hands the outside on: its words without its own name, standard input and standard output. What happens
//! between them is `asn_tool`'s `run_to_status`.
#![tactic(auto)]

ghost use Rattle.asn_tool.specs.Run.{Ends, EndsWithoutWords};
ghost use Rattle.asn_tool.specs.Status.{number};
ghost use Rattle.asn_tool.specs.declared.ended.Ended.{Ended as OneEnded};
ghost use Rattle.asn_tool.specs.declared.status.Status.{Status as OneStatus};
ghost use Rattle.std.specs.Prelude.{◌≡◌, IfOk, OnErr, drop};
ghost use Rattle.std.specs.Process.{exit_status};

use asn_memory::{Mem, OutOfMemory};
use asn_streams::{Sink, Source, StdSink, StdSource};
use asn_tool::{Status, end_without_words, run_to_status};
use std::alloc::Global;
use std::env::{self, Env};
use std::io;
use std::process::ExitCode;

/// All words, the program's own name first. A word that is no UTF-8 is no word that the program knows, and there are none
/// then.
///
/// Err: want of memory.
fn words(rt: &(impl Env + AllocGlobal)) -> Mem<Vec<String>> {
    match collected_words(rt) {
        Ok(words) => Ok(words),
        Err(error) if error.kind() == io::ErrorKind::OutOfMemory => Err(OutOfMemory),
        Err(_) => Ok(Vec::new(rt.alloc())),
    }
}

/// All words, the program's own name first.
fn collected_words(rt: &(impl Env + AllocGlobal)) -> io::Result<Vec<String>> {
    let mut words = Vec::new(rt.alloc());
    for word in env::args(rt)? {
        words.push(word)?;
    }
    Ok(words)
}

/// The words behind the program's own name, which is the first of all words.
fn behind_own_name(words: &[String]) -> &[String]
    ensures { result.now ≡ drop 1 words.now }
{
    match words {
        [_, rest @ ..] => rest,
        [] => words,
    }
}

/// The program ends with the number of a status.
fn exit_of(status: Status) -> ExitCode
    ensures { exit_status result ≡ number status }
{
    ExitCode::from(status.number())
}

/// Runs under the words behind the program's own name.
fn status_under<S: Source, K: Sink>(
    alloc: Global,
    words: &[String],
    source: &mut S,
    sink: &mut K,
) -> Status
    ensures { (ended : OneEnded)
        × Ends (drop 1 words.now) (S.state source.old) (S.state source.new) (K.state sink.old) (K.state sink.new) ended
        × (result ≡ ended.status) }
{
    run_to_status(alloc, behind_own_name(words), source, sink)
}

/// Runs under the words, and ends with the number of the status that the run comes to. Where there was no memory for the
/// words, it says so as a run does.
fn end_of<S: Source, K: Sink>(
    alloc: Global,
    words: Mem<Vec<String>>,
    source: &mut S,
    sink: &mut K,
) -> ExitCode
    ensures runs { IfOk words (λ all. (ended : OneEnded)
        × Ends (drop 1 all.items) (S.state source.old) (S.state source.new) (K.state sink.old) (K.state sink.new) ended
        × (exit_status result ≡ number ended.status)) }
    ensures without_words { OnErr words ((status : OneStatus)
        × EndsWithoutWords (K.state sink.old) (K.state sink.new) status
        × (exit_status result ≡ number status)) }
    ensures unread { OnErr words (source.new ≡ source.old) }
{
    match words {
        Ok(words) => exit_of(status_under(alloc, words.as_slice(), source, sink)),
        Err(OutOfMemory) => exit_of(end_without_words(sink)),
    }
}

fn main(rt: HostRuntime) -> ExitCode {
    let mut source = StdSource::new(rt.stdin());
    let mut sink = StdSink::new(rt.stdout());
    end_of(rt.alloc(), words(&rt), &mut source, &mut sink)
}
