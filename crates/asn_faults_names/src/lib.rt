//! A program that tells whether a name at a place lacks what it is to have, and whether the form at a place is linked.
//!
//! It stands on asn_places_names, which tells the names at a place, on asn_places_objects for arguments and objects, on
//! asn_faults_arguments for arguments, on asn_meaning_fields for objects, on asn_meaning_shapes for members, and borrows the trees.
//! What meaning knows within a number of steps, a call computes by `steps`. Where these are used up, it fails for want of memory, so
//! that each answer is the one of all further steps. A call fails for nothing else.
#![tactic(auto)]

mod arguments;
mod heads;
mod objects;
mod places;
mod types;
mod unlinked;

pub use places::is_lacking_place;
pub use unlinked::is_unlinked_place;
