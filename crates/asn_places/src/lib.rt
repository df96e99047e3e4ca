//! A program that computes the places of a definition or of a class's field: what stands in what stands at a place, and everything
//! that stands there at every depth.
//!
//! It stands on the crates that compute one level each, asn_places_types, asn_places_constraints, asn_places_values and
//! asn_places_objects, of which the last tells too what a definition begins with; and borrows the trees. What meaning knows within a
//! number of steps, a call computes by `steps`. Where these are used up, and where there are four million places or more, it fails for
//! want of memory, so that each answer is the one of all further steps. A call fails for nothing else.
#![tactic(auto)]

mod below;
mod closing;

pub use below::parts;
pub use closing::{places_of, sites_below};
