//! Rows of the tests of readers of trees: for each row of standard input what its reader answered.
//!
//! A row is the name of a reader, a depth and a text, with a tab between; `rows` says how texts are written. Its answer is
//! `read OFFSET TREE`, with the place where the rest begins; `fails NAME OFFSET`, with the place at which the reader of
//! that name fails; `deep`, where the rule's calls lie deeper than the depth; or `memory`. `asn_spec` reads whole texts,
//! `counts` tells of one how many definitions its modules have, and `cuts` what it comes to where it is cut; `at` has trees at
//! offsets of tables. The library `rows` tells what it does with the rows.
#![tactic(auto)]

mod built;
mod constraints;
mod definitions;
mod objects;
mod pieces;
mod texts;
mod types;
mod values;

use asn_memory::{Mem, Text};
use rows::{Answers, answer_rows, fields_of, push_answer};
use std::alloc::Global;
use std::process::ExitCode;

/// The line of the reader of this name on a text; None where there is no such reader.
fn line_of(alloc: Global, reader: &str, depth: usize, text: &str) -> Option<Mem<Text>> {
    if let Some(line) = types::line_of(alloc, reader, depth, text) {
        return Some(line);
    }
    if let Some(line) = values::line_of(alloc, reader, depth, text) {
        return Some(line);
    }
    if let Some(line) = constraints::line_of(alloc, reader, depth, text) {
        return Some(line);
    }
    if let Some(line) = pieces::line_of(alloc, reader, depth, text) {
        return Some(line);
    }
    if let Some(line) = definitions::line_of(alloc, reader, depth, text) {
        return Some(line);
    }
    if let Some(line) = texts::line_of(alloc, reader, depth, text) {
        return Some(line);
    }
    objects::line_of(alloc, reader, depth, text)
}

/// The line of a row of these fields; None where it is no row.
fn line_of_fields(alloc: Global, fields: &[Text]) -> Option<Mem<Text>> {
    match fields {
        [reader, depth, text] => match depth.as_str().parse::<usize>() {
            Ok(depth) => line_of(alloc, reader.as_str(), depth, text.as_str()),
            Err(_) => None,
        },
        _ => built::line_of(alloc, fields),
    }
}

/// The rows of readers.
#[derive(Clone, Copy)]
struct ReaderRows;

impl Answers for ReaderRows {
    fn write(&self, alloc: Global, out: &mut Text, asked: &str) -> Mem<()> {
        match fields_of(alloc, asked)? {
            Some(fields) => push_answer(out, asked, line_of_fields(alloc, fields.as_slice())),
            None => push_answer(out, asked, None),
        }
    }
}

fn main(rt: HostRuntime) -> ExitCode {
    answer_rows(rt.alloc(), rt.stdin(), rt.stdout(), &ReaderRows)
}
