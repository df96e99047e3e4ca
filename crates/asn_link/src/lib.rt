//! Linked definitions: each definition that stands, with the type that linking makes of it, and what these mean.
//!
//! A room above the types that linking makes (asn_link_all). A definition whose type is made gets that type and its tag; every other
//! stays as it was given.
#![tactic(auto)]

mod laws;
mod linking;
mod told;

pub use laws::{clean_mean_the_same, left_are_clean};
pub use linking::{LinkedDefinitions, link_definitions};
pub use told::is_told;
