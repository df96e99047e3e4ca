//! The readers of values: each reads the rule of its name where an input begins, and builds the tree of its node.
//!
//! It stands on the nodes and what the smallest of them spell, and on the trees. The readers of types above call
//! [`read_value`] for the values in types and constraints; the public readers of `readers.rt` are called by name.
#![tactic(auto)]

mod braces;
mod built;
mod leaves;
mod readers;

pub use braces::read_value;
pub use built::{asn1_value_at, object_identifier_value_at};
pub use readers::{
    all_value, asn1_value, bit_string_value, boolean_value, character_string_value, choice_value,
    elsewhere_declared_value, integer_value, null_value, object_identifier_value, real_value,
    sequence_value, time_value,
};
