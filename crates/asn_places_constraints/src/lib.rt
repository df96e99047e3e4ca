//! A program that computes what stands in a constraint, one level down: in the constraint, in a set of values, in an element of
//! it, and in a component that WITH COMPONENTS lists, each on the type that is constrained.
//!
//! It stands on asn_places_types, whose calls append sites to a list that they take and give back, on asn_meaning_heads and asn_meaning_shapes, which
//! tell the parts of the constrained type, and borrows the trees. What meaning knows within a number of steps, a call computes by
//! `steps`. Where these are used up, it fails for want of memory, so that each answer is the one of all further steps. A call
//! fails for nothing else.
#![tactic(auto)]

mod contents;
mod elements;
mod listed;
mod parts;
mod sets;
mod values;

pub use contents::with_constraint;
pub use elements::with_element;
pub use listed::with_listed;
pub use sets::with_set;
