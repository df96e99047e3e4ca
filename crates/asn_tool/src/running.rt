//! `run`: from words and a source to a sink and a status.

ghost use Rattle.asn_streams.specs.Giving.{TakesFront};
ghost use Rattle.asn_streams.specs.Sink.{Takes};
ghost use Rattle.asn_tool.specs.Headline.{Decides, IsListing, Prints, SaysAlone, SaysPlace};
ghost use Rattle.asn_tool.specs.Lines.{depth_line};
ghost use Rattle.asn_tool.specs.inner.Output.{bytes_of};
ghost use Rattle.asn_tool.specs.Run.{AreKnown, Course, Ends, EndsWithoutWords, HasFailed, IsNoUtf8, IsTaken, IsTooDeep, IsTooLong, OfTaken, or_nothing};
ghost use Rattle.asn_tool.specs.Status.{line};
ghost use Rattle.asn_tool.specs.Words.{depth_of};
ghost use Rattle.asn_tool.specs.declared.ended.Ended.{Ended as OneEnded};
ghost use Rattle.std.specs.Prelude.{◌≡◌, ◌<◌, ◌≤◌, ◌⊎◌, ℕ, List, None, Some, IfSome, OnOk, OnErr};

use crate::ended::Ended;
use crate::judging::{Output, error, judge};
use crate::status::{Status, error_line};
use crate::words::depth_of;
use asn_rules::one_outcome;
use asn_streams::{Sink, SinkFailed, Source, TakeFault, give_all, take_text};
use std::alloc::Global;

/// What is to be written: judged by the words, then by the source, then by the text.
fn course<S: Source>(alloc: Global, words: &[String], source: &mut S) -> Output
    ensures course { Course words.now (S.state source.old) (S.state source.new)
        result.status result.reading result.linked (bytes_of result) }
    ensures later { (S.state source.old).faults ≤ (S.state source.new).faults }
    ensures unread { depth_of words.now ≡ None → source.new ≡ source.old }
{
    match depth_of(words) {
        Some(depth) => match take_text(alloc, source) {
            Ok(text) => judge(alloc, text.as_slice(), depth),
            Err(TakeFault::Failed) => error(Status::ReadFault),
            Err(TakeFault::OutOfMemory) => error(Status::OutOfMemory),
        },
        None => error(Status::Usage),
    }
}

/// Writes what is to be written.
fn write<K: Sink>(sink: &mut K, output: &Output) -> Result<(), SinkFailed>
    ensures all_taken { OnOk result (Takes (K.state sink.old).bytes (bytes_of output.now) (K.state sink.new).bytes) }
    ensures front_taken { OnErr result (TakesFront (K.state sink.old).bytes (bytes_of output.now) (K.state sink.new).bytes) }
    ensures later { (K.state sink.old).faults ≤ (K.state sink.new).faults }
    ensures no_fault { OnOk result ((K.state sink.new).faults ≡ (K.state sink.old).faults) }
    ensures cause { OnErr result (HasFailed (K.state sink.old) (K.state sink.new)) }
{
    match &output.text {
        Some(text) => give_all(sink, text.as_str().as_bytes()),
        None => give_all(sink, line_of(output.status).as_bytes()),
    }
}

/// The line of a status, or nothing.
fn line_of(status: Status) -> &'static str
    ensures { result.now ≡ or_nothing (line status) }
{
    match error_line(status) {
        Some(line) => line,
        None => "",
    }
}

/// A whole run: what is to be written, and its delivery.
fn run_through<S: Source, K: Sink>(
    alloc: Global,
    words: &[String],
    source: &mut S,
    sink: &mut K,
) -> Ended
    ensures ends { Ends words.now (S.state source.old) (S.state source.new) (K.state sink.old) (K.state sink.new) result }
    ensures source_later { (S.state source.old).faults ≤ (S.state source.new).faults }
    ensures sink_later { (K.state sink.old).faults ≤ (K.state sink.new).faults }
    ensures unread { depth_of words.now ≡ None → source.new ≡ source.old }
{
    let output = course(alloc, words, source);
    match write(sink, &output) {
        Ok(()) => Ended {
            status: output.status,
            reading: output.reading,
            linked: output.linked,
        },
        Err(SinkFailed) => Ended {
            status: Status::WriteFault,
            reading: output.reading,
            linked: output.linked,
        },
    }
}

/// Reads a text from a source, links it and writes its listing to a sink, as the words ask.
///
/// The words are `link`, which stands for a depth of 512, or `link --depth N` with N from 1 to 2000. In the order in
/// which they are judged: Usage where they are anything else; ReadFault where a read failed; TooLong where the source
/// gave more than 2,097,152 bytes; NotUtf8 where the bytes are no UTF-8; TooDeep where the calls of the grammar's rules
/// lie more than N deep within each other; Matching where the bytes are no modules by the grammar; and else Clean or
/// Warned, with the listing. Under the others an error line is written. WriteFault stands in place of the status of what
/// was to be written, where a write failed. OutOfMemory is want of memory, which may come before anything is written.
///
/// No failure is passed over: where a read failed the answer is ReadFault, and where a write failed it is WriteFault.
///
/// Each status has its cause in a clause of its own name; `headline` says what a listing is, `complete` that nothing else
/// comes where nothing fails, `error_line` what is written under the statuses that have one line, and `ends` all of it at
/// once. `read_failed` and `write_failed` say that a failure is told.
pub fn run<S: Source, K: Sink>(
    alloc: Global,
    words: &[String],
    source: &mut S,
    sink: &mut K,
) -> Ended
    ensures headline { IsListing result.status
        → OfTaken words.now (S.state source.old) (S.state source.new)
        (λ depth taken. Prints depth taken (K.state sink.old) (K.state sink.new) result) }
    ensures complete { (depth : ℕ) → depth_of words.now ≡ Some depth
        → ¬ (HasFailed (S.state source.old) (S.state source.new))
        → ¬ (HasFailed (K.state sink.old) (K.state sink.new))
        → (result.status ≡ Status.OutOfMemory)
        ⊎ ((taken : List ℕ) × IsTaken (S.state source.old) taken (S.state source.new) × Decides depth taken result.status) }
    ensures usage { result.status ≡ Status.Usage → depth_of words.now ≡ None }
    ensures misused { depth_of words.now ≡ None → (result.status ≡ Status.Usage) ⊎ (result.status ≡ Status.WriteFault) }
    ensures unread { depth_of words.now ≡ None → source.new ≡ source.old }
    ensures read_fault { result.status ≡ Status.ReadFault → AreKnown words.now × HasFailed (S.state source.old) (S.state source.new) }
    ensures read_failed { (S.state source.old).faults < (S.state source.new).faults
        → (result.status ≡ Status.ReadFault) ⊎ (result.status ≡ Status.WriteFault) }
    ensures too_long { result.status ≡ Status.TooLong
        → OfTaken words.now (S.state source.old) (S.state source.new) (λ depth taken. IsTooLong taken) }
    ensures not_utf8 { result.status ≡ Status.NotUtf8
        → OfTaken words.now (S.state source.old) (S.state source.new) (λ depth taken. IsNoUtf8 taken) }
    ensures too_deep { result.status ≡ Status.TooDeep
        → OfTaken words.now (S.state source.old) (S.state source.new)
        (λ depth taken. IsTooDeep depth taken
        × SaysAlone (depth_line depth) (K.state sink.old) (K.state sink.new) result) }
    ensures matching { result.status ≡ Status.Matching
        → OfTaken words.now (S.state source.old) (S.state source.new)
        (λ depth taken. SaysPlace depth taken (K.state sink.old) (K.state sink.new) result) }
    ensures write_fault { result.status ≡ Status.WriteFault → HasFailed (K.state sink.old) (K.state sink.new) }
    ensures write_failed { (K.state sink.old).faults < (K.state sink.new).faults → result.status ≡ Status.WriteFault }
    ensures error_line { IfSome (line result.status) (λ text. SaysAlone text (K.state sink.old) (K.state sink.new) result) }
    ensures ends { Ends words.now (S.state source.old) (S.state source.new) (K.state sink.old) (K.state sink.new) result }
    ensures source_later { (S.state source.old).faults ≤ (S.state source.new).faults }
    ensures sink_later { (K.state sink.old).faults ≤ (K.state sink.new).faults }
{
    one_outcome();
    run_through(alloc, words, source, sink)
}

/// The status of an end. Its trees are let go.
fn status_of(ended: Ended) -> Status
    ensures { result ≡ ended.status }
{
    ended.status
}

/// Runs as [`run`] does, and gives the status that the run ends with; what it read and linked is let go.
///
/// For programs, which end with a status and hold no trees: [`run`] says when each status comes and what is written.
pub fn run_to_status<S: Source, K: Sink>(
    alloc: Global,
    words: &[String],
    source: &mut S,
    sink: &mut K,
) -> Status
    ensures ends { (ended : OneEnded)
        × Ends words.now (S.state source.old) (S.state source.new) (K.state sink.old) (K.state sink.new) ended
        × (result ≡ ended.status) }
    ensures unread { depth_of words.now ≡ None → source.new ≡ source.old }
    ensures source_later { (S.state source.old).faults ≤ (S.state source.new).faults }
    ensures sink_later { (K.state sink.old).faults ≤ (K.state sink.new).faults }
{
    status_of(run(alloc, words, source, sink))
}

/// What a run writes and answers that finds no memory for its words: the line of want of memory, and that status, or
/// WriteFault where a write failed.
pub fn end_without_words<K: Sink>(sink: &mut K) -> Status
    ensures { EndsWithoutWords (K.state sink.old) (K.state sink.new) result }
{
    match write(sink, &error(Status::OutOfMemory)) {
        Ok(()) => Status::OutOfMemory,
        Err(SinkFailed) => Status::WriteFault,
    }
}
