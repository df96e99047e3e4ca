//! From the bytes of a text to what is to be written: the status, the trees and the listing or the line.

ghost use Rattle.asn_read_nodes.specs.Derivation.{report_of};
ghost use Rattle.asn_tool.specs.inner.Output.{an_error, IsLine, IsOutputOf, IsOutputOfReading};
ghost use Rattle.asn_tool.specs.Lines.{depth_line, matching_line};
ghost use Rattle.asn_tool.specs.Run.{place_line, status_of};
ghost use Rattle.asn_streams.specs.Taking.{limit};
ghost use Rattle.asn_tool.specs.declared.status.Status.TheVariants as the;
ghost use Rattle.std.specs.Prelude.{◌≡◌, ◌<◌, length};

use crate::lines::{depth_line, matching_line};
use crate::status::Status;
use asn_check::{Linked, link_reading, listing};
use asn_memory::Text;
use asn_modules::{SpecError, asn_spec};
use asn_text::{LexerError, LexerErrorType};
use asn_tree::Reading;
use std::alloc::Global;
use std::str;

/// How many bytes a text may have.
pub const LONGEST: usize = 2_097_152;

/// What is to be written, with the status and the trees that it comes of.
#[derive(Drop)]
pub(crate) struct Output {
    pub(crate) status: Status,
    pub(crate) reading: Option<Reading>,
    pub(crate) linked: Option<Linked>,
    /// The listing of the linked answer, or a line with numbers in it; without it the status has a line.
    pub(crate) text: Option<Text>,
}

/// An error line is to be written, that of the status.
pub(crate) fn error(status: Status) -> Output
    ensures { result ≡ an_error status }
{
    Output {
        status,
        reading: None,
        linked: None,
        text: None,
    }
}

/// The line that tells the place where a text does not match.
fn unmatched(alloc: Global, error_told: &LexerError) -> Output
    ensures { IsLine the.Matching (place_line error_told.now) result }
{
    let LexerErrorType::MatchingError(report) = &error_told.kind;
    match matching_line(alloc, report.line, report.column) {
        Ok(line) => Output {
            status: Status::Matching,
            reading: None,
            linked: None,
            text: Some(line),
        },
        Err(_) => error(Status::OutOfMemory),
    }
}

/// The line that tells the depth that a text goes past.
fn too_deep(alloc: Global, depth: usize) -> Output
    ensures { IsLine the.TooDeep (depth_line depth) result }
{
    match depth_line(alloc, depth) {
        Ok(line) => Output {
            status: Status::TooDeep,
            reading: None,
            linked: None,
            text: Some(line),
        },
        Err(_) => error(Status::OutOfMemory),
    }
}

/// The status of a linked answer.
fn status_of_linked(linked: &Linked) -> Status
    ensures { result ≡ status_of linked.now }
{
    match linked.warnings.as_slice() {
        [] => Status::Clean,
        [_, ..] => Status::Warned,
    }
}

/// Links a reading, and lists the answer.
fn link(alloc: Global, reading: Reading) -> Output
    ensures { IsOutputOfReading reading result }
{
    match link_reading(alloc, &reading) {
        Ok(linked) => match listing(alloc, &linked) {
            Ok(text) => Output {
                status: status_of_linked(&linked),
                reading: Some(reading),
                linked: Some(linked),
                text: Some(text),
            },
            Err(_) => error(Status::OutOfMemory),
        },
        Err(_) => error(Status::OutOfMemory),
    }
}

/// Reads a text that is UTF-8, and links it.
fn read(alloc: Global, source: &str, depth: usize) -> Output
    requires { length source.now < limit }
    ensures { IsOutputOf depth source.now result }
{
    match asn_spec(alloc, source, depth) {
        Ok(reading) => link(alloc, reading),
        Err(SpecError::Lexer(told)) => unmatched(alloc, &told),
        Err(SpecError::TooDeep) => too_deep(alloc, depth),
        Err(SpecError::OutOfMemory) => error(Status::OutOfMemory),
    }
}

/// What the bytes of a text come to, judged by their number, then as UTF-8, then by the grammar within the depth.
pub(crate) fn judge(alloc: Global, bytes: &[u8], depth: usize) -> Output
    ensures { IsOutputOf depth bytes.now result }
{
    if bytes.len() > LONGEST {
        return error(Status::TooLong);
    }
    match str::from_utf8(bytes) {
        Ok(source) => read(alloc, source, depth),
        Err(_) => error(Status::NotUtf8),
    }
}
