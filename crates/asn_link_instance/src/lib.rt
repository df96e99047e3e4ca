//! The instance of a type: what linking makes of it, and that it means what the type does in its scope.
//!
//! The definitions stand in specs/; this crate has no code but the laws.
#![tactic(auto)]

mod laws;

pub use laws::{
    closed_names_mean_the_same, fewer_names, instance_kept, instance_kept_back,
    instances_are_plain, linked_types_mean_the_same, literals_kept, literals_plain,
    literals_steady, more_levels, substitution,
};
