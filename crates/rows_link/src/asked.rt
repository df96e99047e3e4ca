//! What a row asks for: its first word, its further words and its text.
//!
//! A word that begins with `|` has the words of a run, each behind its own `|`; without it they are the one word `link`. `no-words` is a
//! run without words. `read=3` and `write=3` let the third read or write fail, and may stand several times. `reads=20` and `writes=20`
//! are the most bytes that one read gives or one write takes, `room=64` how many bytes the sink has room for. `number=5` and `column=5`
//! are numbers, `name=A` a name, which may stand several times.

use crate::out::{Fault, Told};
use crate::texts::word_of;
use std::alloc::Global;

/// How much a source gives, a sink takes and has room for, where a row says nothing: more than any text here is long.
const ROOM: usize = 4_194_304;

/// A row.
#[derive(Drop)]
pub(crate) struct Row<'a> {
    pub(crate) kind: &'a str,
    /// The words of a run.
    pub(crate) words: Vec<String>,
    /// The most bytes that a read gives.
    pub(crate) reads: usize,
    /// The most bytes that a write takes.
    pub(crate) writes: usize,
    /// How many bytes a sink has room for.
    pub(crate) room: usize,
    /// The numbers of the reads that fail.
    pub(crate) failing_reads: Vec<u64>,
    /// The numbers of the writes that fail.
    pub(crate) failing_writes: Vec<u64>,
    pub(crate) number: usize,
    pub(crate) column: usize,
    pub(crate) names: Vec<&'a str>,
    /// The text as it stands in the row.
    pub(crate) text: &'a str,
}

/// The words that stand behind a `|` each.
fn words_in(alloc: Global, written: &str) -> Told<Vec<String>> {
    let mut words = Vec::new(alloc);
    for (place, word) in written.split("|").enumerate() {
        if 0 < place {
            words.push(word_of(alloc, word)?)?;
        }
    }
    Ok(words)
}

fn number_of(digits: &str) -> Told<usize> {
    match digits.parse::<usize>() {
        Ok(number) => Ok(number),
        Err(_) => Err(Fault::Unknown),
    }
}

/// Notes what a word with a `=` says.
fn set<'a>(row: &mut Row<'a>, name: &'a str, value: &'a str) -> Told<()> {
    match name {
        "reads" => row.reads = number_of(value)?,
        "writes" => row.writes = number_of(value)?,
        "room" => row.room = number_of(value)?,
        "read" => row.failing_reads.push(number_of(value)? as u64)?,
        "write" => row.failing_writes.push(number_of(value)? as u64)?,
        "number" => row.number = number_of(value)?,
        "column" => row.column = number_of(value)?,
        "name" => row.names.push(value)?,
        _ => return Err(Fault::Unknown),
    }
    Ok(())
}

/// Notes what a word says.
fn note<'a>(alloc: Global, row: &mut Row<'a>, word: &'a str) -> Told<()> {
    if word.starts_with("|") {
        row.words = words_in(alloc, word)?;
        return Ok(());
    }
    if word == "no-words" {
        row.words = Vec::new(alloc);
        return Ok(());
    }
    match word.split_once("=") {
        Some((name, value)) => set(row, name, value),
        None => Err(Fault::Unknown),
    }
}

/// The row of a first word, where no further word says anything.
fn plain_row<'a>(alloc: Global, kind: &'a str, text: &'a str) -> Told<Row<'a>> {
    Ok(Row {
        kind,
        words: words_in(alloc, "|link")?,
        reads: ROOM,
        writes: ROOM,
        room: ROOM,
        failing_reads: Vec::new(alloc),
        failing_writes: Vec::new(alloc),
        number: 0,
        column: 0,
        names: Vec::new(alloc),
        text,
    })
}

/// The words of a line, and the text behind them.
fn parted(line: &str) -> (&str, &str) {
    match line.split_once(" >") {
        Some((words, text)) => (words, text.strip_prefix(" ").unwrap_or(text)),
        None => (line, ""),
    }
}

/// The row of a line.
pub(crate) fn row_of(alloc: Global, line: &str) -> Told<Row<'_>> {
    let (words, text) = parted(line);
    let (kind, further) = words.split_once(" ").unwrap_or((words, ""));
    let mut row = plain_row(alloc, kind, text)?;
    for word in further.split(" ") {
        if !word.is_empty() {
            note(alloc, &mut row, word)?;
        }
    }
    Ok(row)
}
