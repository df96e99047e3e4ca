//! The readers of what is no tree, by name.

use asn_memory::{Mem, Text};
use asn_read_pieces::{
    asn_tag, distinguished_val, distinguished_values, optional_marker, set_operator,
};
use asn_text::Input;
use rows_trees::{named_number_line, named_numbers_line, operator_line, optional_line, tag_line};
use std::alloc::Global;

/// The line of the reader of this name on a text; None where it is none of these.
pub(crate) fn line_of(alloc: Global, reader: &str, depth: usize, text: &str) -> Option<Mem<Text>> {
    let input = Input::from(text);
    match reader {
        "asn_tag" => Some(tag_line(alloc, asn_tag(alloc, input, depth))),
        "optional_marker" => Some(optional_line(alloc, optional_marker(alloc, input, depth))),
        "set_operator" => Some(operator_line(alloc, set_operator(alloc, input, depth))),
        "distinguished_val" => Some(named_number_line(
            alloc,
            distinguished_val(alloc, input, depth),
        )),
        "distinguished_values" => Some(named_numbers_line(
            alloc,
            distinguished_values(alloc, input, depth),
        )),
        _ => None,
    }
}
