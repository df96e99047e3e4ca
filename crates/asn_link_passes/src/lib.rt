//! One type linked by itself, each call with what it promises: the type that it gives is in plain form, and accepts and rejects the same
//! trees. A pass looks for one form first (asn_link_forms), and leaves a type in which none stands.
//!
//! A room above the instance of a type (asn_link_types). A caller that links a whole reading has asn_link.
#![tactic(auto)]

mod linking;
mod passes;
mod promises;

pub use linking::{Limits, link_subtype_constraint, link_type, resolve_parameters};
pub use passes::{
    Pass, link_choice_selection_type, link_components_of_notation, link_constraint_reference,
    resolve_class_reference,
};
