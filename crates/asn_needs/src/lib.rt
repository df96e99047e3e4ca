//! Needs and faults: which names occur in a definition, at what kind of place, in which scope and under which type; what a
//! definition needs; and what is wrong with it.
//!
//! It stands on what the notation means (asn_meaning) and rewrites nothing. The definitions stand in specs/, where names
//! and linking cite them; this crate has no code but the laws.
#![tactic(auto)]

mod laws;

pub use laws::{height_exists, height_means_no_cycle, one_fault};
