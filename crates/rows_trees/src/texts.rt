//! The lines of whole texts and modules: a line that counts, and one below it for each header and definition; or what is told
//! of a text that does not match.

use crate::definitions::write_told;
use crate::headers::write_header;
use asn_memory::{List, Mem, Text};
use asn_read_nodes::SpecError;
use asn_text::{LexerError, LexerErrorType, ParserResult, ReportData};
use asn_tree::{Reading, ToplevelDefinition};
use asn_tree_headers::ModuleReference;
use rows::{begun, fault_line, push_count, push_line};
use std::alloc::Global;

/// Writes a line below the first one.
fn push_below(alloc: Global, out: &mut Text, text: &str) -> Mem<()> {
    out.push_str("\n  ")?;
    push_line(alloc, out, text)
}

fn push_definition(alloc: Global, out: &mut Text, definition: &ToplevelDefinition) -> Mem<()> {
    let mut line = Text::new(alloc, "")?;
    write_told(alloc, &mut line, definition)?;
    push_below(alloc, out, line.as_str())
}

/// Writes the lines of a module.
fn push_module(
    alloc: Global,
    out: &mut Text,
    header: &ModuleReference,
    definitions: &[ToplevelDefinition],
) -> Mem<()> {
    let mut line = Text::new(alloc, "")?;
    write_header(alloc, &mut line, header)?;
    push_below(alloc, out, line.as_str())?;
    for definition in definitions {
        push_definition(alloc, out, definition)?;
    }
    Ok(())
}

fn told_module(
    alloc: Global,
    rest: usize,
    module: &(ModuleReference, List<ToplevelDefinition>),
) -> Mem<Text> {
    let mut out = begun(alloc, rest)?;
    let (header, definitions) = module;
    push_module(alloc, &mut out, header, definitions.as_slice())?;
    Ok(out)
}

/// The lines of the reader of modules: `read OFFSET`, and below it the module.
///
/// Err: want of memory.
pub fn module_line<'a>(
    alloc: Global,
    answer: ParserResult<'a, (ModuleReference, List<ToplevelDefinition>)>,
) -> Mem<Text> {
    match answer {
        Ok((rest, module)) => told_module(alloc, rest.offset(), &module),
        Err(fault) => fault_line(alloc, fault),
    }
}

/// `lacks PART expected: line L column C offset O, context line L offset O`, and whether the text ends there.
fn told_report(alloc: Global, report: &ReportData) -> Mem<Text> {
    let mut out = Text::new(alloc, "lacks ")?;
    out.push_str(report.reason)?;
    push_count(alloc, &mut out, ": line ", report.line)?;
    push_count(alloc, &mut out, " column ", report.column)?;
    push_count(alloc, &mut out, " offset ", report.offset)?;
    push_count(
        alloc,
        &mut out,
        ", context line ",
        report.context_start_line,
    )?;
    push_count(alloc, &mut out, " offset ", report.context_start_offset)?;
    if report.unexpected_eof {
        out.push_str(", at the end")?;
    }
    Ok(out)
}

/// The line of why a text has no reading.
fn error_line(alloc: Global, error: &SpecError) -> Mem<Text> {
    match error {
        SpecError::TooDeep => Text::new(alloc, "deep"),
        SpecError::OutOfMemory => Text::new(alloc, "memory"),
        SpecError::Lexer(
            LexerError {
                kind: LexerErrorType::MatchingError(report),
            },
        ) => told_report(alloc, report),
    }
}

/// `read COUNT modules`, and below it the modules.
fn told_reading(alloc: Global, reading: &Reading) -> Mem<Text> {
    let mut out = begun(alloc, reading.len())?;
    out.push_str(" modules")?;
    for (header, definitions) in reading.as_slice() {
        push_module(alloc, &mut out, header, definitions.as_slice())?;
    }
    Ok(out)
}

/// The lines of a whole text.
///
/// Err: want of memory.
pub fn reading_line(alloc: Global, read: Result<Reading, SpecError>) -> Mem<Text> {
    match read {
        Ok(reading) => told_reading(alloc, &reading),
        Err(error) => error_line(alloc, &error),
    }
}

/// How many definitions the modules have.
fn told_counts(alloc: Global, reading: &Reading) -> Mem<Text> {
    let mut out = Text::new(alloc, "definitions")?;
    for (_, definitions) in reading.as_slice() {
        push_count(alloc, &mut out, " ", definitions.len())?;
    }
    Ok(out)
}

/// The line of how many definitions each module of a text has.
///
/// Err: want of memory.
pub fn counts_line(alloc: Global, read: Result<Reading, SpecError>) -> Mem<Text> {
    match read {
        Ok(reading) => told_counts(alloc, &reading),
        Err(error) => error_line(alloc, &error),
    }
}

/// What a text lacks that is cut at this byte, and where: at the end, or at an earlier place.
fn told_cut(alloc: Global, report: &ReportData) -> Mem<Text> {
    let mut out = Text::new(alloc, "lacks ")?;
    out.push_str(report.reason)?;
    if report.unexpected_eof {
        out.push_str(" at the end")?;
    } else {
        push_count(alloc, &mut out, " at ", report.offset)?;
    }
    Ok(out)
}

/// What a text that is cut comes to, in so few words that many cuts have the same.
///
/// Err: want of memory.
pub fn cut_line(alloc: Global, read: Result<Reading, SpecError>) -> Mem<Text> {
    match read {
        Ok(_) => Text::new(alloc, "read"),
        Err(
            SpecError::Lexer(
                LexerError {
                    kind: LexerErrorType::MatchingError(report),
                },
            ),
        ) => told_cut(alloc, &report),
        Err(error) => error_line(alloc, &error),
    }
}
