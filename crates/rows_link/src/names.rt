//! A text read by the whole notation: the report of where it stops to match, and what the names in it stand for.

use crate::asked::Row;
use crate::out::{Fault, Told, say, write_number};
use crate::trees::write_listed;
use asn_memory::{List, Mem, OutOfMemory, Text};
use asn_modules::asn_spec;
use asn_names::Names;
use asn_read_nodes::SpecError;
use asn_text::{LexerError, LexerErrorType, ReportData};
use asn_tree::{Reading, ToplevelDefinition};
use rows_trees::{TellsDefinitions, tell_definitions};
use std::alloc::Global;

/// The most calls of rules that may lie within each other, where the row has no number.
const DEPTH: usize = 512;

fn depth_of(row: &Row) -> usize {
    if row.number == 0 { DEPTH } else { row.number }
}

// ---- places

/// Writes all of a report.
fn write_report(alloc: Global, out: &mut Text, report: &ReportData) -> Told<()> {
    say(out, "line ")?;
    write_number(alloc, out, report.line)?;
    say(out, " column ")?;
    write_number(alloc, out, report.column)?;
    say(out, " offset ")?;
    write_number(alloc, out, report.offset)?;
    say(out, ", from line ")?;
    write_number(alloc, out, report.context_start_line)?;
    say(out, " offset ")?;
    write_number(alloc, out, report.context_start_offset)?;
    say(out, ": ")?;
    say(out, report.reason)?;
    say(
        out,
        if report.unexpected_eof {
            ", at the end\n"
        } else {
            "\n"
        },
    )
}

fn write_read(alloc: Global, out: &mut Text, read: &Result<Reading, SpecError>) -> Told<()> {
    match read {
        Ok(_) => say(out, "read\n"),
        Err(SpecError::Lexer(told)) => write_told(alloc, out, told),
        Err(SpecError::TooDeep) => say(out, "too deep\n"),
        Err(SpecError::OutOfMemory) => Err(Fault::OutOfMemory),
    }
}

fn write_told(alloc: Global, out: &mut Text, told: &LexerError) -> Told<()> {
    let LexerErrorType::MatchingError(report) = &told.kind;
    write_report(alloc, out, report)
}

/// Writes where a text stops to match.
pub(crate) fn write_place(alloc: Global, out: &mut Text, row: &Row, text: &[u8]) -> Told<()> {
    match std::str::from_utf8(text) {
        Ok(text) => write_read(alloc, out, &asn_spec(alloc, text, depth_of(row))),
        Err(_) => Err(Fault::Unknown),
    }
}

// ---- names

fn write_found(
    alloc: Global,
    out: &mut Text,
    word: &str,
    found: Option<&ToplevelDefinition>,
) -> Told<()> {
    say(out, word)?;
    match found {
        Some(definition) => write_listed(alloc, out, definition),
        None => say(out, "nothing"),
    }
}

/// Writes what a name stands for.
fn write_name(alloc: Global, out: &mut Text, names: &Names, name: &str) -> Told<()> {
    say(out, name)?;
    write_found(alloc, out, " stands for ", names.see(name))?;
    write_found(alloc, out, "; last defined as ", names.last_named(name))?;
    match names.type_named(name) {
        Some(definition) => {
            say(out, "; a type of the name ")?;
            say(out, definition.name.as_str())?;
        }
        None => say(out, "; no type")?,
    }
    say(
        out,
        if names.is_duplicate(name) {
            "; repeated\n"
        } else {
            "; not repeated\n"
        },
    )
}

/// Writes the definitions that stand.
fn write_standing(out: &mut Text, standing: &[&ToplevelDefinition]) -> Told<()> {
    say(out, "standing")?;
    for definition in standing {
        say(out, " ")?;
        say(out, definition.name().as_str())?;
    }
    say(out, "\n")
}

fn write_all_names(
    alloc: Global,
    out: &mut Text,
    asked: &[&str],
    definitions: &List<ToplevelDefinition>,
) -> Told<()> {
    let names = Names::new(alloc, definitions)?;
    for name in asked {
        write_name(alloc, out, &names, name)?;
    }
    let standing = names.standing(alloc)?;
    write_standing(out, standing.as_slice())
}

/// The names that a row asks for.
#[derive(Clone, Copy)]
struct AskedNames<'a> {
    names: &'a [&'a str],
}

impl<'a> TellsDefinitions for AskedNames<'a> {
    fn tell(
        &self,
        alloc: Global,
        out: &mut Text,
        definitions: &List<ToplevelDefinition>,
    ) -> Mem<()> {
        match write_all_names(alloc, out, self.names, definitions) {
            Ok(()) => Ok(()),
            Err(_) => Err(OutOfMemory),
        }
    }
}

/// Writes what the names that the row asks for stand for in the text, and which definitions stand.
pub(crate) fn write_names(alloc: Global, out: &mut Text, row: &Row, text: &[u8]) -> Told<()> {
    match std::str::from_utf8(text) {
        Ok(text) => {
            let read = asn_spec(alloc, text, depth_of(row));
            let names = row.names.as_slice();
            tell_definitions(alloc, out, read, &AskedNames { names })?;
            Ok(())
        }
        Err(_) => Err(Fault::Unknown),
    }
}
