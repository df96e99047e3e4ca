//! The lines of readers that give no tree: tags, marks, operators and named numbers.

use asn_check_listing::{write_numbers, write_tag};
use asn_memory::{List, Mem, OutOfMemory, Text};
use asn_text::ParserResult;
use asn_tree_headers::AsnTag;
use asn_tree_kinds::{DistinguishedValue, SetOperator};
use asn_tree_leaves::OptionalMarker;
use rows::{ended, fault_line};
use std::alloc::Global;

fn told_tag(alloc: Global, rest: usize, tag: AsnTag) -> Mem<Text> {
    let mut out = Text::new(alloc, "")?;
    write_tag(alloc, &mut out, &Some(tag))?;
    ended(alloc, rest, out.as_str().trim_end())
}

/// The line of the reader of tags.
///
/// Err: want of memory.
pub fn tag_line<'a>(alloc: Global, answer: ParserResult<'a, AsnTag>) -> Mem<Text> {
    match answer {
        Ok((rest, tag)) => told_tag(alloc, rest.offset(), tag),
        Err(fault) => fault_line(alloc, fault),
    }
}

/// The line of the reader of OPTIONAL.
///
/// Err: want of memory.
pub fn optional_line<'a>(
    alloc: Global,
    answer: ParserResult<'a, Option<OptionalMarker>>,
) -> Mem<Text> {
    match answer {
        Ok((rest, Some(_))) => ended(alloc, rest.offset(), "OPTIONAL"),
        Ok((rest, None)) => ended(alloc, rest.offset(), "nothing"),
        Err(fault) => fault_line(alloc, fault),
    }
}

fn operator_word(operator: SetOperator) -> &'static str {
    match operator {
        SetOperator::Intersection => "INTERSECTION",
        SetOperator::Union => "UNION",
        SetOperator::Except => "EXCEPT",
    }
}

/// The line of the reader of set operators.
///
/// Err: want of memory.
pub fn operator_line<'a>(alloc: Global, answer: ParserResult<'a, SetOperator>) -> Mem<Text> {
    match answer {
        Ok((rest, operator)) => ended(alloc, rest.offset(), operator_word(operator)),
        Err(fault) => fault_line(alloc, fault),
    }
}

fn told_numbers(
    alloc: Global,
    rest: usize,
    numbers: &Option<List<DistinguishedValue>>,
) -> Mem<Text> {
    let mut out = Text::new(alloc, "")?;
    write_numbers(alloc, &mut out, numbers)?;
    ended(alloc, rest, out.as_str().trim_start())
}

/// The line of the reader of named numbers between braces.
///
/// Err: want of memory.
pub fn named_numbers_line<'a>(
    alloc: Global,
    answer: ParserResult<'a, List<DistinguishedValue>>,
) -> Mem<Text> {
    match answer {
        Ok((rest, numbers)) => told_numbers(alloc, rest.offset(), &Some(numbers)),
        Err(fault) => fault_line(alloc, fault),
    }
}

fn told_number(alloc: Global, rest: usize, number: DistinguishedValue) -> Mem<Text> {
    let numbers = List::of(alloc, number)?;
    told_numbers(alloc, rest, &Some(numbers))
}

/// The line of the reader of one named number, which is told between braces too.
///
/// Err: want of memory.
pub fn named_number_line<'a>(
    alloc: Global,
    answer: ParserResult<'a, DistinguishedValue>,
) -> Mem<Text> {
    match answer {
        Ok((rest, number)) => told_number(alloc, rest.offset(), number),
        Err(fault) => fault_line(alloc, fault),
    }
}

/// The line of a tag that was built of a table, behind which the rest begins.
///
/// Err: want of memory.
pub fn built_tag_line(alloc: Global, end: usize, built: Mem<AsnTag>) -> Mem<Text> {
    match built {
        Ok(tree) => told_tag(alloc, end, tree),
        Err(_) => Err(OutOfMemory),
    }
}
