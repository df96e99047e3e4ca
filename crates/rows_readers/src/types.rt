//! The readers of types and of what stands in them, by name.

use asn_memory::{Mem, Text};
use asn_text::Input;
use asn_types::{
    asn1_type, bit_string, boolean, character_string, choice, default, elsewhere_declared_type,
    embedded_pdv, enumerated, external, generalized_time, information_object_field_reference,
    instance_of, integer, null, object_identifier, octet_string, real, selection_type_choice,
    sequence, sequence_component, sequence_of, sequence_or_set_member, set, set_of, time, utc_time,
};
use rows_trees::{component_line, default_line, field_line, member_line, type_line};
use std::alloc::Global;

/// The line of the reader of types of this name on a text; None where it is none of these.
fn line_of_type(alloc: Global, reader: &str, depth: usize, text: &str) -> Option<Mem<Text>> {
    let input = Input::from(text);
    match reader {
        "asn1_type" => Some(type_line(alloc, asn1_type(alloc, input, depth))),
        "bit_string" => Some(type_line(alloc, bit_string(alloc, input, depth))),
        "boolean" => Some(type_line(alloc, boolean(alloc, input, depth))),
        "character_string" => Some(type_line(alloc, character_string(alloc, input, depth))),
        "choice" => Some(type_line(alloc, choice(alloc, input, depth))),
        "elsewhere_declared_type" => Some(type_line(
            alloc,
            elsewhere_declared_type(alloc, input, depth),
        )),
        "embedded_pdv" => Some(type_line(alloc, embedded_pdv(alloc, input, depth))),
        "enumerated" => Some(type_line(alloc, enumerated(alloc, input, depth))),
        "external" => Some(type_line(alloc, external(alloc, input, depth))),
        "generalized_time" => Some(type_line(alloc, generalized_time(alloc, input, depth))),
        "instance_of" => Some(type_line(alloc, instance_of(alloc, input, depth))),
        "integer" => Some(type_line(alloc, integer(alloc, input, depth))),
        "null" => Some(type_line(alloc, null(alloc, input, depth))),
        "object_identifier" => Some(type_line(alloc, object_identifier(alloc, input, depth))),
        "octet_string" => Some(type_line(alloc, octet_string(alloc, input, depth))),
        "real" => Some(type_line(alloc, real(alloc, input, depth))),
        "selection_type_choice" => Some(type_line(
            alloc,
            selection_type_choice(alloc, input, depth),
        )),
        "sequence" => Some(type_line(alloc, sequence(alloc, input, depth))),
        "sequence_of" => Some(type_line(alloc, sequence_of(alloc, input, depth))),
        "set" => Some(type_line(alloc, set(alloc, input, depth))),
        "set_of" => Some(type_line(alloc, set_of(alloc, input, depth))),
        "time" => Some(type_line(alloc, time(alloc, input, depth))),
        "utc_time" => Some(type_line(alloc, utc_time(alloc, input, depth))),
        _ => None,
    }
}

/// The line of the reader of a part of types of this name on a text; None where it is none of these.
fn line_of_part(alloc: Global, reader: &str, depth: usize, text: &str) -> Option<Mem<Text>> {
    let input = Input::from(text);
    match reader {
        "information_object_field_reference" => Some(field_line(
            alloc,
            information_object_field_reference(alloc, input, depth),
        )),
        "sequence_component" => Some(component_line(
            alloc,
            sequence_component(alloc, input, depth),
        )),
        "sequence_or_set_member" => Some(member_line(
            alloc,
            sequence_or_set_member(alloc, input, depth),
        )),
        "default" => Some(default_line(alloc, default(alloc, input, depth))),
        _ => None,
    }
}

/// The line of the reader of this name on a text; None where it is none of these.
pub(crate) fn line_of(alloc: Global, reader: &str, depth: usize, text: &str) -> Option<Mem<Text>> {
    if let Some(line) = line_of_type(alloc, reader, depth, text) {
        return Some(line);
    }
    line_of_part(alloc, reader, depth, text)
}
