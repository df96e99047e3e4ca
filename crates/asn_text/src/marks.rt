//! Readers of marks that hold nothing, or next to nothing.
//!
//! As the other lexical readers, these take no memory, answer `TooDeep` exactly where the calls of their rule nest deeper
//! than `depth`, and `Fail` exactly where they do not and the rule fails.

ghost use Rattle.std.specs.Prelude.{codes, IfOk, IfErr};
ghost use Rattle.asn_text.specs.Input.{part_of};
ghost use Rattle.asn_text.specs.Reads.{Reads, IsFaultOf, IsMark, IsComma};

use crate::fault::ParserResult;
use crate::input::Input;
use crate::readers::end_of;
use asn_rules::names::{EXTENSION_MARKER, OPTIONAL_COMMA, RANGE_SEPERATOR};
use asn_tree_leaves::{ExtensionMarker, RangeSeperator};

/// The two dots of a range (X.680 12.21). Blanks and comments may stand before them.
pub fn range_seperator<'a>(input: Input<'a>, depth: usize) -> ParserResult<'a, RangeSeperator>
    ensures ok { IfOk result (λ read. Reads RANGE_SEPERATOR depth (part_of input.entry) (part_of read.0) IsMark) }
    ensures err { IfErr result (IsFaultOf RANGE_SEPERATOR (codes "range_seperator") input.entry depth) }
{
    match end_of(input, depth, RANGE_SEPERATOR, "range_seperator") {
        Ok(end) => Ok((input.slice_from(end), RangeSeperator())),
        Err(fault) => Err(fault),
    }
}

/// The three dots of an extension (X.680 12.22). Blanks and comments may stand before them.
pub fn extension_marker<'a>(input: Input<'a>, depth: usize) -> ParserResult<'a, ExtensionMarker>
    ensures ok { IfOk result (λ read. Reads EXTENSION_MARKER depth (part_of input.entry) (part_of read.0) IsMark) }
    ensures err { IfErr result (IsFaultOf EXTENSION_MARKER (codes "extension_marker") input.entry depth) }
{
    match end_of(input, depth, EXTENSION_MARKER, "extension_marker") {
        Ok(end) => Ok((input.slice_from(end), ExtensionMarker())),
        Err(fault) => Err(fault),
    }
}

/// A comma with the blanks and comments before it, or none, where nothing is passed. It never fails.
pub fn optional_comma<'a>(input: Input<'a>, depth: usize) -> ParserResult<'a, Option<char>>
    ensures ok { IfOk result (λ read. Reads OPTIONAL_COMMA depth (part_of input.entry) (part_of read.0) (IsComma read.1)) }
    ensures err { IfErr result (IsFaultOf OPTIONAL_COMMA (codes "optional_comma") input.entry depth) }
{
    match end_of(input, depth, OPTIONAL_COMMA, "optional_comma") {
        Ok(end) => Ok((input.slice_from(end), comma_before(end))),
        Err(fault) => Err(fault),
    }
}

/// The comma with which the bytes before a place end, where there are some.
fn comma_before(end: usize) -> Option<char>
    ensures { IsComma result end }
{
    if end == 0 { None } else { Some(',') }
}
