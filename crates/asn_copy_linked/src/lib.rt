//! Copies of the trees that definitions and headers are made of: each equals what it copies.
//!
//! It stands on the trees and knows nothing of their meaning. Linking copies definitions and headers, and waits for these
//! copies alone; asn_copy has the others, and hands these on. One module for each family of the grammar, with the names of the
//! trees' modules; `lists` has the loop that most lists share, `parts` what joins the copies of a tree's parts.
#![tactic(auto)]

mod constraints;
mod definitions;
mod headers;
mod lists;
mod objects;
mod parts;
mod types;
mod values;

pub use constraints::{
    copy_constraint, copy_constraints, copy_content_constraint, copy_element_or_set_operation,
    copy_parameter, copy_pattern_constraint, copy_property_settings, copy_relational_constraint,
    copy_set_operation, copy_subtype_element, copy_user_defined_constraint,
};
pub use definitions::{
    copy_parameter_governor, copy_parameterization, copy_parameterization_argument,
    copy_toplevel_definition, copy_toplevel_information_definition, copy_toplevel_type_definition,
    copy_toplevel_value_definition,
};
pub use headers::{
    copy_assigned_identifier, copy_definitive_identifier, copy_encoding_reference_default,
    copy_exports, copy_external_value_reference, copy_global_module_reference, copy_import,
    copy_module_reference, copy_object_identifier_arc, copy_object_identifier_value,
    copy_optional_text, copy_text,
};
pub use lists::{copy_list, copy_optional, copy_plain};
pub use objects::{
    copy_asn1_information, copy_class_link, copy_information_object, copy_information_object_class,
    copy_information_object_class_field, copy_information_object_field,
    copy_information_object_fields, copy_information_object_syntax, copy_object_field_identifier,
    copy_object_set, copy_object_set_values, copy_syntax_application, copy_syntax_expression,
    copy_syntax_token,
};
pub use parts::{both, boxed};
pub use types::{
    copy_asn1_type, copy_choice, copy_choice_option, copy_choice_selection_type,
    copy_distinguished_value, copy_distinguished_values, copy_enumeral, copy_sequence_or_set,
    copy_sequence_or_set_member, copy_sequence_or_set_of,
};
pub use values::{copy_asn1_value, copy_linked_field, copy_optional_value};
