//! The program `rows_link`: it reads rows on standard input and writes what the program's run, its lines and the streams answer to each.
//!
//! A row is one line. Its first word says what is done, further words say with what, and behind ` > ` stands a text, as `asked` and
//! `texts` tell. A row with an unknown word is told as such. The library `rows` tells what it does with the rows.
//!
//! `runs` has whole runs, `streams` the sources and sinks by themselves, `lines` the lines of a run, `trees` what a run read and linked,
//! and `names` what the names of a text stand for.
#![tactic(auto)]

mod asked;
mod lines;
mod names;
mod out;
mod runs;
mod streams;
mod texts;
mod trees;

use crate::asked::{Row, row_of};
use crate::lines::{
    write_depth_line, write_end_without_words, write_matching_line, write_statuses,
};
use crate::names::{write_names, write_place};
use crate::out::{Fault, Told, say};
use crate::runs::{Varied, write_run, write_runs, write_warned};
use crate::streams::{
    write_given, write_own_source, write_reads, write_std, write_sure_given, write_sure_taken,
    write_taken,
};
use crate::texts::text_of;
use crate::trees::write_trees;
use asn_memory::{Mem, OutOfMemory, Text};
use rows::{Answers, answer_rows};
use std::alloc::Global;
use std::process::ExitCode;

/// Writes what runs over a row's text answer.
fn write_text_row(alloc: Global, out: &mut Text, row: &Row, text: &[u8]) -> Told<()> {
    match row.kind {
        "run" => write_run(alloc, out, row, text),
        "warned" => write_warned(alloc, out, row, text),
        "each-cut" => write_runs(alloc, out, row, text, Varied::Cut, 0, text.len()),
        "each-read" => write_runs(alloc, out, row, text, Varied::Read, 1, row.number),
        "each-write" => write_runs(alloc, out, row, text, Varied::Write, 1, row.number),
        "trees" => write_trees(alloc, out, row, text),
        "place" => write_place(alloc, out, row, text),
        "names" => write_names(alloc, out, row, text),
        _ => write_stream_row(alloc, out, row, text),
    }
}

/// Writes what sources and sinks by themselves answer.
fn write_stream_row(alloc: Global, out: &mut Text, row: &Row, text: &[u8]) -> Told<()> {
    match row.kind {
        "take" => write_taken(alloc, out, row, text),
        "sure-take" => write_sure_taken(alloc, out, text),
        "own-take" => write_own_source(alloc, out),
        "reads" => write_reads(alloc, out, row, text),
        "give" => write_given(alloc, out, row),
        "sure-give" => write_sure_given(alloc, out, row),
        "std" => write_std(alloc, out, text),
        _ => write_line_row(alloc, out, row),
    }
}

/// Writes the lines that a run tells.
fn write_line_row(alloc: Global, out: &mut Text, row: &Row) -> Told<()> {
    match row.kind {
        "statuses" => write_statuses(alloc, out),
        "matching-line" => write_matching_line(alloc, out, row.number, row.column),
        "depth-line" => write_depth_line(alloc, out, row.number),
        "without-words" => write_end_without_words(alloc, out, row),
        _ => Err(Fault::Unknown),
    }
}

/// Writes the answer to a row.
fn write_answer(alloc: Global, out: &mut Text, line: &str) -> Told<()> {
    let row = row_of(alloc, line)?;
    let text = text_of(alloc, row.text)?;
    write_text_row(alloc, out, &row, text.as_slice())
}

/// Writes the answer to a row, or that it is none.
fn write_row(alloc: Global, out: &mut Text, line: &str) -> Told<()> {
    match write_answer(alloc, out, line) {
        Err(Fault::Unknown) => {
            say(out, "no row: ")?;
            say(out, line)?;
            say(out, "\n")
        }
        Ok(()) => Ok(()),
        Err(Fault::OutOfMemory) => Err(Fault::OutOfMemory),
    }
}

/// The rows about the program.
#[derive(Clone, Copy)]
struct LinkRows;

impl Answers for LinkRows {
    fn write(&self, alloc: Global, out: &mut Text, asked: &str) -> Mem<()> {
        match write_row(alloc, out, asked) {
            Ok(()) => Ok(()),
            Err(_) => Err(OutOfMemory),
        }
    }
}

fn main(rt: HostRuntime) -> ExitCode {
    answer_rows(rt.alloc(), rt.stdin(), rt.stdout(), &LinkRows)
}
