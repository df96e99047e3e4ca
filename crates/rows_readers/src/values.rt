//! The readers of values, by name.

use asn_memory::{Mem, Text};
use asn_text::Input;
use asn_values::{
    all_value, asn1_value, bit_string_value, boolean_value, character_string_value, choice_value,
    elsewhere_declared_value, integer_value, null_value, object_identifier_value, real_value,
    sequence_value, time_value,
};
use rows_trees::{identifier_line, value_line};
use std::alloc::Global;

/// The line of the reader of this name on a text; None where it is none of these.
pub(crate) fn line_of(alloc: Global, reader: &str, depth: usize, text: &str) -> Option<Mem<Text>> {
    let input = Input::from(text);
    match reader {
        "all_value" => Some(value_line(alloc, all_value(alloc, input, depth))),
        "null_value" => Some(value_line(alloc, null_value(alloc, input, depth))),
        "boolean_value" => Some(value_line(alloc, boolean_value(alloc, input, depth))),
        "integer_value" => Some(value_line(alloc, integer_value(alloc, input, depth))),
        "bit_string_value" => Some(value_line(alloc, bit_string_value(alloc, input, depth))),
        "character_string_value" => Some(value_line(
            alloc,
            character_string_value(alloc, input, depth),
        )),
        "time_value" => Some(value_line(alloc, time_value(alloc, input, depth))),
        "real_value" => Some(value_line(alloc, real_value(alloc, input, depth))),
        "elsewhere_declared_value" => Some(value_line(
            alloc,
            elsewhere_declared_value(alloc, input, depth),
        )),
        "choice_value" => Some(value_line(alloc, choice_value(alloc, input, depth))),
        "sequence_value" => Some(value_line(alloc, sequence_value(alloc, input, depth))),
        "asn1_value" => Some(value_line(alloc, asn1_value(alloc, input, depth))),
        "object_identifier_value" => Some(identifier_line(
            alloc,
            object_identifier_value(alloc, input, depth),
        )),
        _ => None,
    }
}
