//! Rows of the tests of the grammar: lexical readers, rules, their trees and tables, places in texts, and numbers.
//!
//! A row is a name and what the name asks for, with a tab between; `rows` says how texts are written. `lexical` has the
//! readers of `asn_text`, `rules` tries rules and grows their trees; `tables` asks match tables and whole texts; `places` tells
//! positions; `numbers` reads numbers, settings and enumerations; `constants`, `errors` and `plain` tell what no text is read for. The
//! library `rows` tells what it does with the rows.
#![tactic(auto)]

mod constants;
mod errors;
mod lexical;
mod numbers;
mod places;
mod plain;
mod rules;
mod tables;

use asn_memory::{Mem, Text};
use rows::{Answers, answer_rows, fields_of, push_answer};
use std::alloc::Global;
use std::process::ExitCode;

/// The line of a row of these fields for which no text is read; None where it is no row.
fn line_of_others(alloc: Global, fields: &[Text]) -> Option<Mem<Text>> {
    if let Some(line) = constants::line_of(alloc, fields) {
        return Some(line);
    }
    if let Some(line) = errors::line_of(alloc, fields) {
        return Some(line);
    }
    plain::line_of(alloc, fields)
}

/// The line of a row of these fields; None where it is no row.
fn line_of_fields(alloc: Global, fields: &[Text]) -> Option<Mem<Text>> {
    if let Some(line) = rules::line_of(alloc, fields) {
        return Some(line);
    }
    if let Some(line) = tables::line_of(alloc, fields) {
        return Some(line);
    }
    if let Some(line) = places::line_of(alloc, fields) {
        return Some(line);
    }
    if let Some(line) = numbers::line_of(alloc, fields) {
        return Some(line);
    }
    if let Some(line) = lexical::line_of(alloc, fields) {
        return Some(line);
    }
    line_of_others(alloc, fields)
}

/// The rows of the grammar.
#[derive(Clone, Copy)]
struct GrammarRows;

impl Answers for GrammarRows {
    fn write(&self, alloc: Global, out: &mut Text, asked: &str) -> Mem<()> {
        match fields_of(alloc, asked)? {
            Some(fields) => push_answer(out, asked, line_of_fields(alloc, fields.as_slice())),
            None => push_answer(out, asked, None),
        }
    }
}

fn main(rt: HostRuntime) -> ExitCode {
    answer_rows(rt.alloc(), rt.stdin(), rt.stdout(), &GrammarRows)
}
