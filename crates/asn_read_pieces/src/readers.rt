//! The public readers of tags, marks of options, set operators and named numbers.
//!
//! Each reads the rule of its name where its input begins; blanks and comments may stand before it. Want of memory aside,
//! each answers `TooDeep` exactly where the height of its rule exceeds `depth`, and `Fail` exactly where it does not and
//! the rule fails: a leaf with the input unchanged and the reader's name.

ghost use Rattle.asn_read_nodes.specs.Reads.{IsFaultAt, ReadsNode};
ghost use Rattle.asn_read_pieces.specs.Numbers.{distinguished_of, distinguished_values_of};
ghost use Rattle.asn_read_pieces.specs.Tags.{tag_of};
ghost use Rattle.asn_read_pieces.specs.Words.{operator_of, optional_of};
ghost use Rattle.asn_rules.specs.declared.names.TheConstants.{ASN_TAG, DISTINGUISHED_VAL, DISTINGUISHED_VALUES, OPTIONAL_MARKER, SET_OPERATOR};
ghost use Rattle.asn_text.specs.Input.{part_of};
ghost use Rattle.asn_text.specs.Part.{shown};
ghost use Rattle.std.specs.Prelude.{◌≡◌, codes, IfErr, IfOk, Some};

use crate::numbers::{read_distinguished, read_distinguished_values};
use crate::tags::read_tag;
use crate::words::{read_operator, read_optional};
use asn_memory::List;
use asn_read_nodes::read_node;
use asn_rules::names;
use asn_text::{Input, ParseFault, ParserResult};
use asn_tree_headers::AsnTag;
use asn_tree_kinds::{DistinguishedValue, SetOperator};
use asn_tree_leaves::OptionalMarker;
use std::alloc::Global;

/// A tag: class, number and environment (X.680 31.2).
pub fn asn_tag<'a>(alloc: Global, input: Input<'a>, depth: usize) -> ParserResult<'a, AsnTag>
    ensures ok { IfOk result (λ read. ReadsNode ASN_TAG depth (part_of input.entry) (part_of read.0) (λ n. tag_of (shown (part_of input.entry)) n ≡ Some read.1)) }
    ensures err { IfErr result (IsFaultAt ASN_TAG (codes "asn_tag") input.entry depth) }
{
    let text = input.inner().as_bytes();
    match read_node(alloc, input, depth, names::ASN_TAG, "asn_tag") {
        Ok((rest, node)) => Ok((rest, read_tag(text, &node))),
        Err(fault) => Err(fault),
    }
}

/// The word OPTIONAL, or None, where nothing is passed (X.680 25.1). It never fails.
pub fn optional_marker<'a>(
    alloc: Global,
    input: Input<'a>,
    depth: usize,
) -> ParserResult<'a, Option<OptionalMarker>>
    ensures ok { IfOk result (λ read. ReadsNode OPTIONAL_MARKER depth (part_of input.entry) (part_of read.0) (λ n. read.1 ≡ optional_of n)) }
    ensures err { IfErr result (IsFaultAt OPTIONAL_MARKER (codes "optional_marker") input.entry depth) }
{
    match read_node(
        alloc,
        input,
        depth,
        names::OPTIONAL_MARKER,
        "optional_marker",
    ) {
        Ok((rest, node)) => Ok((rest, read_optional(&node))),
        Err(fault) => Err(fault),
    }
}

/// What joins two sets of values: a word, or a mark of the same meaning (X.680 50.1).
pub fn set_operator<'a>(
    alloc: Global,
    input: Input<'a>,
    depth: usize,
) -> ParserResult<'a, SetOperator>
    ensures ok { IfOk result (λ read. ReadsNode SET_OPERATOR depth (part_of input.entry) (part_of read.0) (λ n. operator_of n ≡ Some read.1)) }
    ensures err { IfErr result (IsFaultAt SET_OPERATOR (codes "set_operator") input.entry depth) }
{
    let text = input.inner().as_bytes();
    match read_node(alloc, input, depth, names::SET_OPERATOR, "set_operator") {
        Ok((rest, node)) => Ok((rest, read_operator(text, &node))),
        Err(fault) => Err(fault),
    }
}

/// A name with its number (X.680 19.1, 22.1).
pub fn distinguished_val<'a>(
    alloc: Global,
    input: Input<'a>,
    depth: usize,
) -> ParserResult<'a, DistinguishedValue>
    ensures ok { IfOk result (λ read. ReadsNode DISTINGUISHED_VAL depth (part_of input.entry) (part_of read.0) (λ n. distinguished_of (shown (part_of input.entry)) n ≡ Some read.1)) }
    ensures err { IfErr result (IsFaultAt DISTINGUISHED_VAL (codes "distinguished_val") input.entry depth) }
{
    let text = input.inner().as_bytes();
    match read_node(
        alloc,
        input,
        depth,
        names::DISTINGUISHED_VAL,
        "distinguished_val",
    ) {
        Ok((rest, node)) => match read_distinguished(alloc, text, &node) {
            Ok(value) => Ok((rest, value)),
            Err(_) => Err(ParseFault::OutOfMemory),
        },
        Err(fault) => Err(fault),
    }
}

/// Names with their numbers, in braces (X.680 19.1, 22.1).
pub fn distinguished_values<'a>(
    alloc: Global,
    input: Input<'a>,
    depth: usize,
) -> ParserResult<'a, List<DistinguishedValue>>
    ensures ok { IfOk result (λ read. ReadsNode DISTINGUISHED_VALUES depth (part_of input.entry) (part_of read.0) (λ n. distinguished_values_of (shown (part_of input.entry)) n ≡ Some read.1)) }
    ensures err { IfErr result (IsFaultAt DISTINGUISHED_VALUES (codes "distinguished_values") input.entry depth) }
{
    let text = input.inner().as_bytes();
    match read_node(
        alloc,
        input,
        depth,
        names::DISTINGUISHED_VALUES,
        "distinguished_values",
    ) {
        Ok((rest, node)) => match read_distinguished_values(alloc, text, &node) {
            Ok(values) => Ok((rest, values)),
            Err(_) => Err(ParseFault::OutOfMemory),
        },
        Err(fault) => Err(fault),
    }
}
