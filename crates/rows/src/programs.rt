//! What programs of rows share: they take all of their input, write the answer to each row or text of it, and give what they wrote.

use crate::answers::push_count;
use asn_memory::{List, Mem, Text};
use asn_streams::{StdSink, StdSource, TakeFault, give_all, take_text};
use std::alloc::Global;
use std::io::{Read, Write};
use std::process::ExitCode;

/// What a program answers.
pub trait Answers {
    /// Writes the answer to a row, or to a text behind the line of its question.
    ///
    /// Err: want of memory.
    fn write(&self, alloc: Global, out: &mut Text, asked: &str) -> Mem<()>;
}

/// The question that is asked of a text, and the text, which stands below it.
pub fn question_of(asked: &str) -> (&str, &str) {
    match asked.split_once('\n') {
        Some((question, text)) => (question, text),
        None => (asked, ""),
    }
}

/// Writes a comment as it stands, or the answer to a row; nothing for an empty line. Whether the line is a row.
fn write_line<A: Answers>(alloc: Global, out: &mut Text, line: &str, answers: &A) -> Mem<bool> {
    if line.is_empty() {
        return Ok(false);
    }
    if line.starts_with('#') {
        out.push_str(line)?;
        out.push_str("\n")?;
        return Ok(false);
    }
    answers.write(alloc, out, line)?;
    Ok(true)
}

/// The answers to rows, and how many rows there are.
fn answers_to_rows<A: Answers>(alloc: Global, rows: &str, answers: &A) -> Mem<Text> {
    let mut out = Text::new(alloc, "")?;
    let mut count: usize = 0;
    for line in rows.split('\n') {
        if write_line(alloc, &mut out, line, answers)? {
            count = count.saturating_add(1);
        }
    }
    push_count(alloc, &mut out, "rows ", count)?;
    out.push_str("\n")?;
    Ok(out)
}

/// Writes the line of a question, and what is answered about the text below it.
fn write_asked<A: Answers>(alloc: Global, out: &mut Text, asked: &str, answers: &A) -> Mem<()> {
    let (question, _) = question_of(asked);
    out.push_str("==== ")?;
    out.push_str(question)?;
    out.push_str("\n")?;
    answers.write(alloc, out, asked)
}

/// The answers to texts, each behind the line of its question, and how many texts there are.
fn answers_to_texts<A: Answers>(alloc: Global, texts: &str, answers: &A) -> Mem<Text> {
    let mut out = Text::new(alloc, "")?;
    let mut count: usize = 0;
    for asked in texts.split("==== ") {
        if !asked.is_empty() {
            write_asked(alloc, &mut out, asked, answers)?;
            count = count.saturating_add(1);
        }
    }
    push_count(alloc, &mut out, "texts ", count)?;
    out.push_str("\n")?;
    Ok(out)
}

/// The answer to one text.
fn answer_to_text<A: Answers>(alloc: Global, text: &str, answers: &A) -> Mem<Text> {
    let mut out = Text::new(alloc, "")?;
    answers.write(alloc, &mut out, text)?;
    Ok(out)
}

/// Gives what a program answers, and tells its exit status: 0, or 1 where there was no memory or a write failed.
fn given<W: Write + Drop>(output: W, answers: Mem<Text>) -> ExitCode {
    let mut sink = StdSink::new(output);
    match answers {
        Ok(answers) => match give_all(&mut sink, answers.as_str().as_bytes()) {
            Ok(()) => ExitCode::from(0),
            Err(_) => ExitCode::from(1),
        },
        Err(_) => ExitCode::from(1),
    }
}

/// All that the input gives.
fn taken<R: Read + Drop>(alloc: Global, input: R) -> Result<List<u8>, TakeFault> {
    let mut source = StdSource::new(input);
    take_text(alloc, &mut source)
}

/// Answers the rows of the input, one a line, and then tells their number. A line that begins with `#` is written as it stands, and an
/// empty line is passed over.
///
/// The exit status is 1 where a read or a write failed, the input is no UTF-8 or there was no memory, else 0.
pub fn answer_rows<R: Read + Drop, W: Write + Drop, A: Answers>(
    alloc: Global,
    input: R,
    output: W,
    answers: &A,
) -> ExitCode {
    match taken(alloc, input) {
        Ok(bytes) => match std::str::from_utf8(bytes.as_slice()) {
            Ok(rows) => given(output, answers_to_rows(alloc, rows, answers)),
            Err(_) => ExitCode::from(1),
        },
        Err(_) => ExitCode::from(1),
    }
}

/// Answers the texts of the input, and then tells their number. Before each text stands a line `==== QUESTION`, which is written too.
///
/// The exit status is as that of [`answer_rows`].
pub fn answer_texts<R: Read + Drop, W: Write + Drop, A: Answers>(
    alloc: Global,
    input: R,
    output: W,
    answers: &A,
) -> ExitCode {
    match taken(alloc, input) {
        Ok(bytes) => match std::str::from_utf8(bytes.as_slice()) {
            Ok(texts) => given(output, answers_to_texts(alloc, texts, answers)),
            Err(_) => ExitCode::from(1),
        },
        Err(_) => ExitCode::from(1),
    }
}

/// Answers all of the input as one text.
///
/// The exit status is as that of [`answer_rows`].
pub fn answer_text<R: Read + Drop, W: Write + Drop, A: Answers>(
    alloc: Global,
    input: R,
    output: W,
    answers: &A,
) -> ExitCode {
    match taken(alloc, input) {
        Ok(bytes) => match std::str::from_utf8(bytes.as_slice()) {
            Ok(text) => given(output, answer_to_text(alloc, text, answers)),
            Err(_) => ExitCode::from(1),
        },
        Err(_) => ExitCode::from(1),
    }
}
