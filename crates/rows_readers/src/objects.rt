//! The readers of classes, objects and sets of objects, by name.

use asn_memory::{Mem, Text};
use asn_text::Input;
use asn_types::{information_object, information_object_class, object_set, type_identifier};
use rows_trees::{class_line, object_line, set_line};
use std::alloc::Global;

/// The line of the reader of this name on a text; None where it is none of these.
pub(crate) fn line_of(alloc: Global, reader: &str, depth: usize, text: &str) -> Option<Mem<Text>> {
    let input = Input::from(text);
    match reader {
        "object_set" => Some(set_line(alloc, object_set(alloc, input, depth))),
        "information_object" => Some(object_line(alloc, information_object(alloc, input, depth))),
        "type_identifier" => Some(class_line(alloc, type_identifier(alloc, input, depth))),
        "information_object_class" => Some(class_line(
            alloc,
            information_object_class(alloc, input, depth),
        )),
        _ => None,
    }
}
