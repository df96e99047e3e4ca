//! The lines of values. Two values can have one text, as `{}`, so that the form stands before it.

use asn_check_listing::{write_arcs, write_value};
use asn_memory::{Mem, OutOfMemory, Text};
use asn_text::ParserResult;
use asn_tree::ASN1Value;
use asn_tree_headers::ObjectIdentifierValue;
use rows::{ended, fault_line};
use std::alloc::Global;

/// The form of a value in a word or two.
pub(crate) fn value_word(value: &ASN1Value) -> &'static str {
    match value {
        ASN1Value::All => "all",
        ASN1Value::Null => "null",
        ASN1Value::Boolean(_) => "truth",
        ASN1Value::Choice { .. } => "choice",
        ASN1Value::SequenceOrSet(_) => "items",
        ASN1Value::Integer(_) => "number",
        ASN1Value::Real(_) => "real",
        ASN1Value::String(_) => "text",
        ASN1Value::BitString(_) => "bits",
        ASN1Value::BitStringNamedBits(_) => "named bits",
        ASN1Value::OctetString(_) => "octets",
        ASN1Value::EnumeratedValue { .. } => "item",
        ASN1Value::Time(_) => "time",
        ASN1Value::ElsewhereDeclaredValue { .. } => "name",
        ASN1Value::ObjectIdentifier(_) => "arcs",
        ASN1Value::LinkedNestedValue { .. } => "linked",
        ASN1Value::LinkedIntValue { .. } => "linked",
        ASN1Value::LinkedStructLikeValue(_) => "linked",
        ASN1Value::LinkedArrayLikeValue(_) => "linked",
        ASN1Value::LinkedCharStringValue(_, _) => "linked",
        ASN1Value::LinkedElsewhereDefinedValue { .. } => "linked",
    }
}

/// `read OFFSET FORM VALUE`.
pub(crate) fn told_value(alloc: Global, rest: usize, value: &ASN1Value) -> Mem<Text> {
    let mut out = Text::new(alloc, value_word(value))?;
    out.push_str(" ")?;
    write_value(alloc, &mut out, value)?;
    ended(alloc, rest, out.as_str())
}

/// The line of a reader of values.
///
/// Err: want of memory.
pub fn value_line<'a>(alloc: Global, answer: ParserResult<'a, ASN1Value>) -> Mem<Text> {
    match answer {
        Ok((rest, value)) => told_value(alloc, rest.offset(), &value),
        Err(fault) => fault_line(alloc, fault),
    }
}

fn told_identifier(alloc: Global, rest: usize, identifier: &ObjectIdentifierValue) -> Mem<Text> {
    let mut out = Text::new(alloc, "")?;
    write_arcs(alloc, &mut out, identifier.0.as_slice())?;
    ended(alloc, rest, out.as_str())
}

/// The line of the reader of object identifiers.
///
/// Err: want of memory.
pub fn identifier_line<'a>(
    alloc: Global,
    answer: ParserResult<'a, ObjectIdentifierValue>,
) -> Mem<Text> {
    match answer {
        Ok((rest, identifier)) => told_identifier(alloc, rest.offset(), &identifier),
        Err(fault) => fault_line(alloc, fault),
    }
}

/// The line of a value that was built of a table, behind which the rest begins.
///
/// Err: want of memory.
pub fn built_value_line(alloc: Global, end: usize, built: Mem<ASN1Value>) -> Mem<Text> {
    match built {
        Ok(tree) => told_value(alloc, end, &tree),
        Err(_) => Err(OutOfMemory),
    }
}

/// The line of an object identifier that was built of a table, behind which the rest begins.
///
/// Err: want of memory.
pub fn built_identifier_line(
    alloc: Global,
    end: usize,
    built: Mem<ObjectIdentifierValue>,
) -> Mem<Text> {
    match built {
        Ok(tree) => told_identifier(alloc, end, &tree),
        Err(_) => Err(OutOfMemory),
    }
}
