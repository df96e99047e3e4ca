//! A program that tells what is wrong in a definition or in a class's field, by its places: a wrong argument, a missing name, a form
//! that is not linked.
//!
//! It stands on asn_places, which computes the places, and on asn_faults_arguments and asn_faults_names, which judge one. What meaning
//! knows within a number of steps, a call computes by `steps`. Where these are used up, it fails for want of memory, so that each answer
//! is the one of all further steps. A call fails for nothing else.
#![tactic(auto)]

mod faults;

pub use faults::{PlaceFaults, place_faults};
