//! The readers of definitions and modules, by name.

use asn_memory::{Mem, Text};
use asn_modules::{
    asn_module, enumerated_value, module_reference, top_level_information_declaration,
    top_level_type_declaration, top_level_value_declaration,
};
use asn_text::Input;
use rows_trees::{
    header_line, information_definition_line, module_line, type_definition_line,
    value_definition_line,
};
use std::alloc::Global;

/// The line of the reader of this name on a text; None where it is none of these.
pub(crate) fn line_of(alloc: Global, reader: &str, depth: usize, text: &str) -> Option<Mem<Text>> {
    let input = Input::from(text);
    match reader {
        "top_level_type_declaration" => Some(type_definition_line(
            alloc,
            top_level_type_declaration(alloc, input, depth),
        )),
        "top_level_value_declaration" => Some(value_definition_line(
            alloc,
            top_level_value_declaration(alloc, input, depth),
        )),
        "enumerated_value" => Some(value_definition_line(
            alloc,
            enumerated_value(alloc, input, depth),
        )),
        "top_level_information_declaration" => Some(information_definition_line(
            alloc,
            top_level_information_declaration(alloc, input, depth),
        )),
        "asn_module" => Some(module_line(alloc, asn_module(alloc, input, depth))),
        "module_reference" => Some(header_line(alloc, module_reference(alloc, input, depth))),
        _ => None,
    }
}
