//! The lexical readers, by name. A row is the reader, a depth, a text, and the word, bytes or tags that are looked for.

use asn_memory::{Mem, Text};
use asn_text::{
    Input, ParseFault, ParserResult, assignment, block_comment, comment, extension_marker,
    identifier, line_comment, number_i32, number_i128, number_u64, number_u128, optional_comma,
    range_seperator, skip_ws, skip_ws_and_comments, symbol, take_until_and_not, take_until_or,
    take_until_unbalanced, title_case_identifier, uppercase_identifier, value_identifier, word,
};
use rows::{begun, ended, fault_line};
use std::alloc::Global;
use std::string::ToString;

/// `read OFFSET "SLICE"`.
fn told_slice(alloc: Global, rest: usize, slice: &str) -> Mem<Text> {
    let mut quoted = Text::new(alloc, "\"")?;
    quoted.push_str(slice)?;
    quoted.push_str("\"")?;
    ended(alloc, rest, quoted.as_str())
}

/// The line of a reader that gives a slice.
fn slice_line<'a>(alloc: Global, answer: ParserResult<'a, &'a str>) -> Mem<Text> {
    match answer {
        Ok((rest, slice)) => told_slice(alloc, rest.offset(), slice),
        Err(fault) => fault_line(alloc, fault),
    }
}

/// The line of a reader that gives a rest alone.
fn rest_line<'a>(alloc: Global, answer: Result<Input<'a>, ParseFault<'a>>) -> Mem<Text> {
    match answer {
        Ok(rest) => begun(alloc, rest.offset()),
        Err(fault) => fault_line(alloc, fault),
    }
}

fn u64_line<'a>(alloc: Global, answer: ParserResult<'a, u64>) -> Mem<Text> {
    match answer {
        Ok((rest, number)) => {
            let digits = number.to_string(alloc)?;
            ended(alloc, rest.offset(), digits.as_str())
        }
        Err(fault) => fault_line(alloc, fault),
    }
}

fn u128_line<'a>(alloc: Global, answer: ParserResult<'a, u128>) -> Mem<Text> {
    match answer {
        Ok((rest, number)) => {
            let digits = number.to_string(alloc)?;
            ended(alloc, rest.offset(), digits.as_str())
        }
        Err(fault) => fault_line(alloc, fault),
    }
}

fn i128_line<'a>(alloc: Global, answer: ParserResult<'a, i128>) -> Mem<Text> {
    match answer {
        Ok((rest, number)) => {
            let digits = number.to_string(alloc)?;
            ended(alloc, rest.offset(), digits.as_str())
        }
        Err(fault) => fault_line(alloc, fault),
    }
}

fn i32_line<'a>(alloc: Global, answer: ParserResult<'a, i32>) -> Mem<Text> {
    match answer {
        Ok((rest, number)) => {
            let digits = number.to_string(alloc)?;
            ended(alloc, rest.offset(), digits.as_str())
        }
        Err(fault) => fault_line(alloc, fault),
    }
}

/// The line of a reader of a mark, which gives nothing but that it stands.
fn range_line<'a>(alloc: Global, input: Input<'a>, depth: usize) -> Mem<Text> {
    match range_seperator(input, depth) {
        Ok((rest, _)) => begun(alloc, rest.offset()),
        Err(fault) => fault_line(alloc, fault),
    }
}

fn extension_line<'a>(alloc: Global, input: Input<'a>, depth: usize) -> Mem<Text> {
    match extension_marker(input, depth) {
        Ok((rest, _)) => begun(alloc, rest.offset()),
        Err(fault) => fault_line(alloc, fault),
    }
}

fn comma_line<'a>(alloc: Global, input: Input<'a>, depth: usize) -> Mem<Text> {
    match optional_comma(input, depth) {
        Ok((rest, Some(_))) => ended(alloc, rest.offset(), ","),
        Ok((rest, None)) => ended(alloc, rest.offset(), "nothing"),
        Err(fault) => fault_line(alloc, fault),
    }
}

/// The line of a reader of names, comments and `::=`.
fn line_of_slice(alloc: Global, reader: &str, depth: usize, text: &str) -> Option<Mem<Text>> {
    let input = Input::from(text);
    match reader {
        "identifier" => Some(slice_line(alloc, identifier(input, depth))),
        "title_case_identifier" => Some(slice_line(alloc, title_case_identifier(input, depth))),
        "value_identifier" => Some(slice_line(alloc, value_identifier(input, depth))),
        "uppercase_identifier" => Some(slice_line(alloc, uppercase_identifier(input, depth))),
        "assignment" => Some(slice_line(alloc, assignment(input, depth))),
        "comment" => Some(slice_line(alloc, comment(input, depth))),
        "line_comment" => Some(slice_line(alloc, line_comment(input, depth))),
        "block_comment" => Some(slice_line(alloc, block_comment(input, depth))),
        _ => None,
    }
}

/// The line of a reader of numbers, marks and gaps.
fn line_of_other(alloc: Global, reader: &str, depth: usize, text: &str) -> Option<Mem<Text>> {
    let input = Input::from(text);
    match reader {
        "number_u64" => Some(u64_line(alloc, number_u64(input, depth))),
        "number_u128" => Some(u128_line(alloc, number_u128(input, depth))),
        "number_i128" => Some(i128_line(alloc, number_i128(input, depth))),
        "number_i32" => Some(i32_line(alloc, number_i32(input, depth))),
        "range_seperator" => Some(range_line(alloc, input, depth)),
        "extension_marker" => Some(extension_line(alloc, input, depth)),
        "optional_comma" => Some(comma_line(alloc, input, depth)),
        "skip_ws" => Some(begun(alloc, skip_ws(input).offset())),
        "skip_ws_and_comments" => Some(rest_line(alloc, skip_ws_and_comments(input, depth))),
        _ => None,
    }
}

/// The line of a call that looks for a word or for bytes.
fn line_of_sought(
    alloc: Global,
    reader: &str,
    depth: usize,
    text: &str,
    sought: &str,
) -> Option<Mem<Text>> {
    let input = Input::from(text);
    match reader {
        "word" => Some(slice_line(alloc, word(input, depth, sought))),
        "symbol" => Some(slice_line(alloc, symbol(input, depth, sought))),
        _ => None,
    }
}

/// The line of a call that looks for a tag; None where a tag is empty.
fn line_of_tags(
    alloc: Global,
    reader: &str,
    text: &str,
    first: &str,
    second: &str,
) -> Option<Mem<Text>> {
    if first.is_empty() {
        return None;
    }
    if second.is_empty() {
        return None;
    }
    let input = Input::from(text);
    match reader {
        "take_until_or" => Some(slice_line(alloc, take_until_or(input, first, second))),
        "take_until_unbalanced" => Some(slice_line(
            alloc,
            take_until_unbalanced(input, first, second),
        )),
        "take_until_and_not" => Some(slice_line(alloc, take_until_and_not(input, first, second))),
        _ => None,
    }
}

/// The line of a reader of a depth and a text.
fn line_of_reader(alloc: Global, reader: &str, depth: usize, text: &str) -> Option<Mem<Text>> {
    if let Some(line) = line_of_slice(alloc, reader, depth, text) {
        return Some(line);
    }
    line_of_other(alloc, reader, depth, text)
}

/// The line of a row of these fields; None where it is none of these.
pub(crate) fn line_of(alloc: Global, fields: &[Text]) -> Option<Mem<Text>> {
    match fields {
        [reader, depth, text] => match depth.as_str().parse::<usize>() {
            Ok(depth) => line_of_reader(alloc, reader.as_str(), depth, text.as_str()),
            Err(_) => None,
        },
        [reader, depth, text, sought] => match depth.as_str().parse::<usize>() {
            Ok(depth) => line_of_sought(
                alloc,
                reader.as_str(),
                depth,
                text.as_str(),
                sought.as_str(),
            ),
            Err(_) => None,
        },
        [reader, _, text, first, second] => line_of_tags(
            alloc,
            reader.as_str(),
            text.as_str(),
            first.as_str(),
            second.as_str(),
        ),
        _ => None,
    }
}
