//! Places in texts. `position`, an offset and a text: line and column. `part`, a first offset, a number of bytes and a text:
//! what stands there, and where. `context`, two offsets and a text: the contexts of what stands behind both, where the
//! context begins anew behind the first. `report`, a place, the place of its context, and a text.

use asn_memory::{Mem, Text};
use asn_text::{Input, ReportData};
use rows::{push_count, push_line};
use std::alloc::Global;

/// What follows the first bytes; None where they end past the end or within a character.
fn rest<'a>(input: &Input<'a>, count: usize) -> Option<Input<'a>> {
    if input.inner().is_char_boundary(count) {
        Some(input.slice_from(count))
    } else {
        None
    }
}

/// The first bytes; None where they end past the end or within a character.
fn first<'a>(input: &Input<'a>, count: usize) -> Option<Input<'a>> {
    if input.inner().is_char_boundary(count) {
        Some(input.slice_to(count))
    } else {
        None
    }
}

/// Writes ` offset O line L column C`.
fn push_place(alloc: Global, out: &mut Text, input: &Input) -> Mem<()> {
    push_count(alloc, out, " offset ", input.offset())?;
    push_count(alloc, out, " line ", input.line())?;
    push_count(alloc, out, " column ", input.column())
}

/// Writes ` context line L offset O`.
fn push_context(alloc: Global, out: &mut Text, input: &Input) -> Mem<()> {
    push_count(alloc, out, " context line ", input.context_start_line())?;
    push_count(alloc, out, " offset ", input.context_start_offset())
}

fn no_place(alloc: Global) -> Mem<Text> {
    Text::new(alloc, "no place")
}

fn position(alloc: Global, text: &str, offset: usize) -> Mem<Text> {
    match rest(&Input::from(text), offset) {
        Some(input) => {
            let mut out = Text::new(alloc, "place")?;
            push_place(alloc, &mut out, &input)?;
            Ok(out)
        }
        None => no_place(alloc),
    }
}

/// `part "TEXT" offset O line L column C`, and whether it is empty.
fn told_part(alloc: Global, part: &Input) -> Mem<Text> {
    let mut out = Text::new(alloc, "part \"")?;
    push_line(alloc, &mut out, part.inner())?;
    out.push_str("\"")?;
    push_place(alloc, &mut out, part)?;
    push_count(alloc, &mut out, " length ", part.len())?;
    if part.is_empty() {
        out.push_str(" empty")?;
    }
    Ok(out)
}

fn part(alloc: Global, text: &str, from: usize, count: usize) -> Mem<Text> {
    match rest(&Input::from(text), from) {
        Some(behind) => match first(&behind, count) {
            Some(part) => told_part(alloc, &part),
            None => no_place(alloc),
        },
        None => no_place(alloc),
    }
}

/// The contexts behind both offsets, where it begins anew behind the first.
fn told_contexts(alloc: Global, input: Input, further: usize) -> Mem<Text> {
    let mut out = Text::new(alloc, "before")?;
    push_context(alloc, &mut out, &input)?;
    let mut anew = input;
    anew.reset_context();
    out.push_str(", anew")?;
    push_context(alloc, &mut out, &anew)?;
    match rest(&anew, further) {
        Some(behind) => {
            push_count(alloc, &mut out, ", behind line ", behind.line())?;
            push_context(alloc, &mut out, &behind)?;
            Ok(out)
        }
        None => no_place(alloc),
    }
}

fn contexts(alloc: Global, text: &str, from: usize, further: usize) -> Mem<Text> {
    match rest(&Input::from(text), from) {
        Some(input) => told_contexts(alloc, input, further),
        None => no_place(alloc),
    }
}

fn told_report(alloc: Global, report: &ReportData) -> Mem<Text> {
    let mut out = Text::new(alloc, report.reason)?;
    push_count(alloc, &mut out, ": line ", report.line)?;
    push_count(alloc, &mut out, " column ", report.column)?;
    push_count(alloc, &mut out, " offset ", report.offset)?;
    push_count(
        alloc,
        &mut out,
        ", context line ",
        report.context_start_line,
    )?;
    push_count(alloc, &mut out, " offset ", report.context_start_offset)?;
    if report.unexpected_eof {
        out.push_str(", at the end")?;
    }
    Ok(out)
}

fn report(alloc: Global, text: &str, place: usize, context: usize) -> Mem<Text> {
    if place > text.len() {
        return no_place(alloc);
    }
    if context > text.len() {
        return no_place(alloc);
    }
    told_report(alloc, &ReportData::at(text, place, context, "END expected"))
}

fn line_of_two(
    alloc: Global,
    kind: &str,
    first: usize,
    second: usize,
    text: &str,
) -> Option<Mem<Text>> {
    match kind {
        "part" => Some(part(alloc, text, first, second)),
        "context" => Some(contexts(alloc, text, first, second)),
        "report" => Some(report(alloc, text, first, second)),
        _ => None,
    }
}

/// The line of a row of these fields; None where it is none of these.
pub(crate) fn line_of(alloc: Global, fields: &[Text]) -> Option<Mem<Text>> {
    match fields {
        [kind, offset, text] => match (kind.as_str(), offset.as_str().parse::<usize>()) {
            ("position", Ok(offset)) => Some(position(alloc, text.as_str(), offset)),
            _ => None,
        },
        [kind, first, second, text] => match (
            first.as_str().parse::<usize>(),
            second.as_str().parse::<usize>(),
        ) {
            (Ok(first), Ok(second)) => {
                line_of_two(alloc, kind.as_str(), first, second, text.as_str())
            }
            _ => None,
        },
        _ => None,
    }
}
