//! The text of each definition of the whole notation, and of each of its parts.
//!
//! It stands on the trees and on the words that they are told by. One file for each family of trees: values, constraints, types,
//! objects, definitions; `words` and `strings` have what holds no tree, `parts` what stands between texts. Each call writes what it
//! is given behind a text that stands, or gives a word; want of memory is the only error.
#![tactic(auto)]

mod components;
mod constraints;
mod definitions;
mod long_words;
mod objects;
mod parts;
mod strings;
mod types;
mod values;
mod words;

pub use constraints::{
    write_argument, write_arguments, write_component, write_constraint, write_constraints,
    write_content, write_element, write_objects, write_operation, write_range, write_set,
};
pub use definitions::{
    write_class, write_class_field, write_definition, write_definitions, write_dummies,
    write_expression, write_expressions, write_governor, write_information, write_link,
    write_parameters, write_syntax,
};
pub use objects::{write_field, write_object_fields};
pub use strings::{
    write_arc, write_arcs, write_bits, write_octets, write_pair, write_real, write_relation,
    write_relations, write_settings,
};
pub use types::{write_member, write_option, write_presence, write_type};
pub use values::write_value;
pub use words::{
    field_name, operator_word, presence_word, string_word, write_items, write_name, write_named,
    write_names, write_number, write_numbers, write_path, write_quoted, write_tag,
};
