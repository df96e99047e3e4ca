//! Copies of trees, of each type of tree: each equals what it copies.
//!
//! The copies that linking waits for stand in asn_copy_linked and are handed on; the others stand here, on those. `making`
//! has the trees in which a part stands twice.
#![tactic(auto)]

mod constraints;
mod definitions;
mod errors;
mod making;
mod objects;
mod types;
mod values;

pub use asn_copy_linked::{
    copy_asn1_information, copy_asn1_type, copy_asn1_value, copy_assigned_identifier, copy_choice,
    copy_choice_option, copy_choice_selection_type, copy_class_link, copy_constraint,
    copy_content_constraint, copy_definitive_identifier, copy_distinguished_value,
    copy_element_or_set_operation, copy_encoding_reference_default, copy_enumeral, copy_exports,
    copy_external_value_reference, copy_global_module_reference, copy_import,
    copy_information_object, copy_information_object_class, copy_information_object_class_field,
    copy_information_object_field, copy_information_object_fields, copy_information_object_syntax,
    copy_linked_field, copy_list, copy_module_reference, copy_object_field_identifier,
    copy_object_identifier_arc, copy_object_identifier_value, copy_object_set, copy_parameter,
    copy_parameter_governor, copy_parameterization, copy_parameterization_argument,
    copy_pattern_constraint, copy_property_settings, copy_relational_constraint,
    copy_sequence_or_set, copy_sequence_or_set_member, copy_sequence_or_set_of, copy_set_operation,
    copy_subtype_element, copy_syntax_application, copy_syntax_expression, copy_syntax_token,
    copy_text, copy_toplevel_definition, copy_toplevel_information_definition,
    copy_toplevel_type_definition, copy_toplevel_value_definition, copy_user_defined_constraint,
};
pub use constraints::{
    copy_composite_constraint, copy_constrained_component, copy_element_set,
    copy_inner_type_constraint, copy_table_constraint, copy_value_constraint,
};
pub use definitions::copy_reading;
pub use errors::{copy_grammar_error, copy_link_fault, copy_linker_error};
pub use making::ValueConstraintMaking;
pub use objects::{
    copy_fixed_value_field, copy_information_object_field_reference, copy_object_set_field,
    copy_object_set_value, copy_type_field,
};
pub use types::{
    copy_bit_string, copy_boolean, copy_character_string, copy_declaration_elsewhere,
    copy_enumerated, copy_generalized_time, copy_integer, copy_object_identifier,
    copy_octet_string, copy_real, copy_sequence_component, copy_time, copy_utc_time,
};
pub use values::copy_struct_like_field_value;
