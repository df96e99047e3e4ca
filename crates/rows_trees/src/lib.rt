//! The line of what a reader of trees answered: `read OFFSET TREE`, the tree as the listing writes it, or the fault.
//!
//! A program of rows hands what its reader answered to the function for the type of its tree, which writes the line and lets
//! the tree go. So the programs above own no tree: what a crate pays for letting trees go is paid here, once. One file for
//! each family: types, values, constraints, objects, definitions, headers, whole texts; `pieces` has what is no tree.
#![tactic(auto)]

mod answered;
mod constraints;
mod definitions;
mod headers;
mod listing;
mod objects;
mod pieces;
mod same;
mod texts;
mod told;
mod types;
mod values;

pub use answered::{
    TellsType, tell_type, write_answer, write_found, write_plain_value, write_refusal,
};
pub use constraints::{
    arguments_line, built_dummies_line, constraint_line, constraints_line, dummies_line,
};
pub use definitions::{information_definition_line, type_definition_line, value_definition_line};
pub use headers::header_line;
pub use listing::{write_error, write_reading};
pub use objects::{
    built_class_line, built_object_line, built_set_line, class_line, object_line, set_line,
};
pub use pieces::{
    built_tag_line, named_number_line, named_numbers_line, operator_line, optional_line, tag_line,
};
pub use same::{is_same_component, is_same_constraint, is_same_field, is_same_item, is_same_type};
pub use texts::{counts_line, cut_line, module_line, reading_line};
pub use told::{TellsDefinitions, TellsModules, tell_definitions, tell_modules};
pub use types::{
    built_type_line, component_line, default_line, field_line, member_line, type_line,
    write_instance,
};
pub use values::{built_identifier_line, built_value_line, identifier_line, value_line};
