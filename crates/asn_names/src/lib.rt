//! What a definition reaches, what is wrong with it, and which definitions linking is given.
//!
//! It stands on the trees, on their meaning (asn_meaning), on the index of names (asn_names_index), which it hands on, on what definitions
//! need (asn_needs), and on which lead to a circle (asn_names_circles), and rewrites nothing: names are looked up. It has no code but the
//! laws; the layers above cite the definitions in specs/.
#![tactic(auto)]

mod faults;
mod laws;
mod literals;

pub use asn_names_index::{LastPlace, Names};
pub use faults::{Fault, Judgement};
pub use laws::{
    every_tree_decided, faults_stand, given_differ_in_tags, last_is_given, names_occur,
    standing_are_given,
};
pub use literals::LiteralForm;
