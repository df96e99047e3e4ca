//! The readers of constraints, and of what is handed to templates, by name.

use asn_memory::{Mem, Text};
use asn_text::Input;
use asn_types::{constraint, parameterization, parameters, single_constraint};
use rows_trees::{arguments_line, constraint_line, constraints_line, dummies_line};
use std::alloc::Global;

/// The line of the reader of this name on a text; None where it is none of these.
pub(crate) fn line_of(alloc: Global, reader: &str, depth: usize, text: &str) -> Option<Mem<Text>> {
    let input = Input::from(text);
    match reader {
        "constraint" => Some(constraints_line(alloc, constraint(alloc, input, depth))),
        "single_constraint" => Some(constraint_line(alloc, single_constraint(alloc, input, depth))),
        "parameters" => Some(arguments_line(alloc, parameters(alloc, input, depth))),
        "parameterization" => Some(dummies_line(alloc, parameterization(alloc, input, depth))),
        _ => None,
    }
}
