//! The public readers of values.
//!
//! Each reads the rule of its name where its input begins; blanks and comments may stand before it. Want of memory aside,
//! each answers `TooDeep` exactly where the height of its rule exceeds `depth`, and `Fail` exactly where it does not and
//! the rule fails: a leaf with the input unchanged and the reader's name.

ghost use Rattle.asn_read_nodes.specs.Identifiers.{arcs_of};
ghost use Rattle.asn_read_nodes.specs.Reads.{IsFaultAt, ReadsNode};
ghost use Rattle.asn_rules.specs.declared.names.TheConstants.{ALL_VALUE, ASN1_VALUE, BIT_STRING_VALUE, BOOLEAN_VALUE, CHARACTER_STRING_VALUE, CHOICE_VALUE, ELSEWHERE_DECLARED_VALUE, INTEGER_VALUE, NULL_VALUE, OBJECT_IDENTIFIER_VALUE, REAL_VALUE, SEQUENCE_VALUE, TIME_VALUE};
ghost use Rattle.asn_text.specs.Input.{part_of};
ghost use Rattle.asn_text.specs.Part.{shown};
ghost use Rattle.asn_tree.specs.declared.values.ASN1Value.TheVariants.{All, Null};
ghost use Rattle.asn_values.specs.Braces.{choice_of, sequence_of, value_of};
ghost use Rattle.asn_values.specs.Leaves.{bit_string_of, boolean_of, character_string_of, elsewhere_of, integer_of, real_of, time_of};
ghost use Rattle.std.specs.Prelude.{◌≡◌, codes, IfErr, IfOk, Some};

use crate::braces::{read_choice, read_sequence, read_value};
use crate::leaves::{
    read_bit_string, read_boolean, read_character_string, read_elsewhere, read_real,
    read_time_value, read_whole,
};
use asn_read_nodes::{read_node, read_object_identifier};
use asn_rules::names;
use asn_text::{Input, ParseFault, ParserResult};
use asn_tree::ASN1Value;
use asn_tree_headers::ObjectIdentifierValue;
use std::alloc::Global;

/// The word ALL, as a value.
pub fn all_value<'a>(alloc: Global, input: Input<'a>, depth: usize) -> ParserResult<'a, ASN1Value>
    ensures ok { IfOk result (λ read. ReadsNode ALL_VALUE depth (part_of input.entry) (part_of read.0) (λ n. read.1 ≡ All)) }
    ensures err { IfErr result (IsFaultAt ALL_VALUE (codes "all_value") input.entry depth) }
{
    match read_node(alloc, input, depth, names::ALL_VALUE, "all_value") {
        Ok((rest, _)) => Ok((rest, ASN1Value::All)),
        Err(fault) => Err(fault),
    }
}

/// NULL (X.680 24.3).
pub fn null_value<'a>(alloc: Global, input: Input<'a>, depth: usize) -> ParserResult<'a, ASN1Value>
    ensures ok { IfOk result (λ read. ReadsNode NULL_VALUE depth (part_of input.entry) (part_of read.0) (λ n. read.1 ≡ Null)) }
    ensures err { IfErr result (IsFaultAt NULL_VALUE (codes "null_value") input.entry depth) }
{
    match read_node(alloc, input, depth, names::NULL_VALUE, "null_value") {
        Ok((rest, _)) => Ok((rest, ASN1Value::Null)),
        Err(fault) => Err(fault),
    }
}

/// TRUE or FALSE (X.680 18.3).
pub fn boolean_value<'a>(
    alloc: Global,
    input: Input<'a>,
    depth: usize,
) -> ParserResult<'a, ASN1Value>
    ensures ok { IfOk result (λ read. ReadsNode BOOLEAN_VALUE depth (part_of input.entry) (part_of read.0) (λ n. boolean_of n ≡ Some read.1)) }
    ensures err { IfErr result (IsFaultAt BOOLEAN_VALUE (codes "boolean_value") input.entry depth) }
{
    let text = input.inner().as_bytes();
    match read_node(alloc, input, depth, names::BOOLEAN_VALUE, "boolean_value") {
        Ok((rest, node)) => Ok((rest, read_boolean(text, &node))),
        Err(fault) => Err(fault),
    }
}

/// A whole number (X.680 19.9), from -2^127 to 2^127 - 1.
pub fn integer_value<'a>(
    alloc: Global,
    input: Input<'a>,
    depth: usize,
) -> ParserResult<'a, ASN1Value>
    ensures ok { IfOk result (λ read. ReadsNode INTEGER_VALUE depth (part_of input.entry) (part_of read.0) (λ n. integer_of (shown (part_of input.entry)) n ≡ Some read.1)) }
    ensures err { IfErr result (IsFaultAt INTEGER_VALUE (codes "integer_value") input.entry depth) }
{
    let text = input.inner().as_bytes();
    match read_node(alloc, input, depth, names::INTEGER_VALUE, "integer_value") {
        Ok((rest, node)) => Ok((rest, read_whole(text, &node))),
        Err(fault) => Err(fault),
    }
}

/// Bits, in binary or hexadecimal notation or by the names of those that are set (X.680 22.9).
pub fn bit_string_value<'a>(
    alloc: Global,
    input: Input<'a>,
    depth: usize,
) -> ParserResult<'a, ASN1Value>
    ensures ok { IfOk result (λ read. ReadsNode BIT_STRING_VALUE depth (part_of input.entry) (part_of read.0) (λ n. bit_string_of (shown (part_of input.entry)) n ≡ Some read.1)) }
    ensures err { IfErr result (IsFaultAt BIT_STRING_VALUE (codes "bit_string_value") input.entry depth) }
{
    let text = input.inner().as_bytes();
    match read_node(
        alloc,
        input,
        depth,
        names::BIT_STRING_VALUE,
        "bit_string_value",
    ) {
        Ok((rest, node)) => match read_bit_string(alloc, text, &node) {
            Ok(value) => Ok((rest, value)),
            Err(_) => Err(ParseFault::OutOfMemory),
        },
        Err(fault) => Err(fault),
    }
}

/// A text, in quotes or as the quadruple of one character (X.680 41.8).
pub fn character_string_value<'a>(
    alloc: Global,
    input: Input<'a>,
    depth: usize,
) -> ParserResult<'a, ASN1Value>
    ensures ok { IfOk result (λ read. ReadsNode CHARACTER_STRING_VALUE depth (part_of input.entry) (part_of read.0) (λ n. character_string_of (shown (part_of input.entry)) n ≡ Some read.1)) }
    ensures err { IfErr result (IsFaultAt CHARACTER_STRING_VALUE (codes "character_string_value") input.entry depth) }
{
    let text = input.inner().as_bytes();
    match read_node(
        alloc,
        input,
        depth,
        names::CHARACTER_STRING_VALUE,
        "character_string_value",
    ) {
        Ok((rest, node)) => match read_character_string(alloc, text, &node) {
            Ok(value) => Ok((rest, value)),
            Err(_) => Err(ParseFault::OutOfMemory),
        },
        Err(fault) => Err(fault),
    }
}

/// A time in quotes (X.680 38.1, 46.3, 47.3).
pub fn time_value<'a>(alloc: Global, input: Input<'a>, depth: usize) -> ParserResult<'a, ASN1Value>
    ensures ok { IfOk result (λ read. ReadsNode TIME_VALUE depth (part_of input.entry) (part_of read.0) (λ n. time_of (shown (part_of input.entry)) n ≡ Some read.1)) }
    ensures err { IfErr result (IsFaultAt TIME_VALUE (codes "time_value") input.entry depth) }
{
    let text = input.inner().as_bytes();
    match read_node(alloc, input, depth, names::TIME_VALUE, "time_value") {
        Ok((rest, node)) => match read_time_value(alloc, text, &node) {
            Ok(value) => Ok((rest, value)),
            Err(_) => Err(ParseFault::OutOfMemory),
        },
        Err(fault) => Err(fault),
    }
}

/// A real number, with a point or by its parts (X.680 21.6).
pub fn real_value<'a>(alloc: Global, input: Input<'a>, depth: usize) -> ParserResult<'a, ASN1Value>
    ensures ok { IfOk result (λ read. ReadsNode REAL_VALUE depth (part_of input.entry) (part_of read.0) (λ n. real_of (shown (part_of input.entry)) n ≡ Some read.1)) }
    ensures err { IfErr result (IsFaultAt REAL_VALUE (codes "real_value") input.entry depth) }
{
    let text = input.inner().as_bytes();
    match read_node(alloc, input, depth, names::REAL_VALUE, "real_value") {
        Ok((rest, node)) => match read_real(alloc, text, &node) {
            Ok(value) => Ok((rest, value)),
            Err(_) => Err(ParseFault::OutOfMemory),
        },
        Err(fault) => Err(fault),
    }
}

/// The arcs of an object identifier (X.680 32.3).
pub fn object_identifier_value<'a>(
    alloc: Global,
    input: Input<'a>,
    depth: usize,
) -> ParserResult<'a, ObjectIdentifierValue>
    ensures ok { IfOk result (λ read. ReadsNode OBJECT_IDENTIFIER_VALUE depth (part_of input.entry) (part_of read.0) (λ n. arcs_of (shown (part_of input.entry)) n ≡ Some read.1.0)) }
    ensures err { IfErr result (IsFaultAt OBJECT_IDENTIFIER_VALUE (codes "object_identifier_value") input.entry depth) }
{
    let text = input.inner().as_bytes();
    match read_node(
        alloc,
        input,
        depth,
        names::OBJECT_IDENTIFIER_VALUE,
        "object_identifier_value",
    ) {
        Ok((rest, node)) => match read_object_identifier(alloc, text, &node) {
            Ok(value) => Ok((rest, value)),
            Err(_) => Err(ParseFault::OutOfMemory),
        },
        Err(fault) => Err(fault),
    }
}

/// The name of a value, behind the path to it where there is one (X.680 14.1, X.681 15).
pub fn elsewhere_declared_value<'a>(
    alloc: Global,
    input: Input<'a>,
    depth: usize,
) -> ParserResult<'a, ASN1Value>
    ensures ok { IfOk result (λ read. ReadsNode ELSEWHERE_DECLARED_VALUE depth (part_of input.entry) (part_of read.0) (λ n. elsewhere_of (shown (part_of input.entry)) n ≡ Some read.1)) }
    ensures err { IfErr result (IsFaultAt ELSEWHERE_DECLARED_VALUE (codes "elsewhere_declared_value") input.entry depth) }
{
    let text = input.inner().as_bytes();
    match read_node(
        alloc,
        input,
        depth,
        names::ELSEWHERE_DECLARED_VALUE,
        "elsewhere_declared_value",
    ) {
        Ok((rest, node)) => match read_elsewhere(alloc, text, &node) {
            Ok(value) => Ok((rest, value)),
            Err(_) => Err(ParseFault::OutOfMemory),
        },
        Err(fault) => Err(fault),
    }
}

/// An option of a CHOICE with its value (X.680 29.11).
pub fn choice_value<'a>(
    alloc: Global,
    input: Input<'a>,
    depth: usize,
) -> ParserResult<'a, ASN1Value>
    ensures ok { IfOk result (λ read. ReadsNode CHOICE_VALUE depth (part_of input.entry) (part_of read.0) (λ n. choice_of (shown (part_of input.entry)) n ≡ Some read.1)) }
    ensures err { IfErr result (IsFaultAt CHOICE_VALUE (codes "choice_value") input.entry depth) }
{
    let text = input.inner().as_bytes();
    match read_node(alloc, input, depth, names::CHOICE_VALUE, "choice_value") {
        Ok((rest, node)) => match read_choice(alloc, text, &node) {
            Ok(value) => Ok((rest, value)),
            Err(_) => Err(ParseFault::OutOfMemory),
        },
        Err(fault) => Err(fault),
    }
}

/// Items between braces, with or without names (X.680 25.18, 26.3, 27.7, 28.3).
pub fn sequence_value<'a>(
    alloc: Global,
    input: Input<'a>,
    depth: usize,
) -> ParserResult<'a, ASN1Value>
    ensures ok { IfOk result (λ read. ReadsNode SEQUENCE_VALUE depth (part_of input.entry) (part_of read.0) (λ n. sequence_of (shown (part_of input.entry)) n ≡ Some read.1)) }
    ensures err { IfErr result (IsFaultAt SEQUENCE_VALUE (codes "sequence_value") input.entry depth) }
{
    let text = input.inner().as_bytes();
    match read_node(alloc, input, depth, names::SEQUENCE_VALUE, "sequence_value") {
        Ok((rest, node)) => match read_sequence(alloc, text, &node) {
            Ok(value) => Ok((rest, value)),
            Err(_) => Err(ParseFault::OutOfMemory),
        },
        Err(fault) => Err(fault),
    }
}

/// A value of any form (X.680 17.7).
pub fn asn1_value<'a>(alloc: Global, input: Input<'a>, depth: usize) -> ParserResult<'a, ASN1Value>
    ensures ok { IfOk result (λ read. ReadsNode ASN1_VALUE depth (part_of input.entry) (part_of read.0) (λ n. value_of (shown (part_of input.entry)) n ≡ Some read.1)) }
    ensures err { IfErr result (IsFaultAt ASN1_VALUE (codes "asn1_value") input.entry depth) }
{
    let text = input.inner().as_bytes();
    match read_node(alloc, input, depth, names::ASN1_VALUE, "asn1_value") {
        Ok((rest, node)) => match read_value(alloc, text, &node) {
            Ok(value) => Ok((rest, value)),
            Err(_) => Err(ParseFault::OutOfMemory),
        },
        Err(fault) => Err(fault),
    }
}
