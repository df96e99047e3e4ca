//! The readers of types, constraints and objects: each reads the rule of its name where an input begins, and builds the tree
//! of its node.
//!
//! It stands on the nodes and what the smallest of them spell, on the parts that lead to no type, on values, and on the
//! trees. Types, constraints and objects lead back to each other, so their readers are one cycle; the readers of modules
//! above call those of nodes, and the public readers under `readers` are called by name.
#![tactic(auto)]

mod arguments;
mod built;
mod choices;
mod classes;
mod constrained;
mod constraints;
mod dummies;
mod elements;
mod enumerations;
mod laws;
mod members;
mod objects;
mod ranges;
mod readers;
mod sets;
mod types;

pub use asn_read_pieces::{
    asn_tag, asn_tag_at, distinguished_val, distinguished_values, optional_marker, set_operator,
};
pub use built::{
    asn1_type_at, information_object_at, information_object_class_at, object_set_at,
    parameterization_at, type_identifier_at,
};
pub use classes::{built_in_class, read_class};
pub use dummies::read_parameterization;
pub use laws::numbers_are_the_standards;
pub use objects::{read_object, read_object_set};
pub use readers::constraints::{constraint, parameterization, parameters, single_constraint};
pub use readers::objects::{
    information_object, information_object_class, object_set, type_identifier,
};
pub use readers::types::{
    asn1_type, bit_string, boolean, character_string, choice, default, elsewhere_declared_type,
    embedded_pdv, enumerated, external, generalized_time, information_object_field_reference,
    instance_of, integer, null, object_identifier, octet_string, real, selection_type_choice,
    sequence, sequence_component, sequence_of, sequence_or_set_member, set, set_of, time, utc_time,
};
pub use types::read_type;
