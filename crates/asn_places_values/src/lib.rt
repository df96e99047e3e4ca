//! A program that computes what stands in a value, one level down: the values in it, each under the type that it has there.
//!
//! It stands on asn_places_types, whose calls append sites to a list that they take and give back, on asn_meaning_values, which tells what a
//! value has between its braces, on asn_meaning_dummies, asn_meaning_heads and asn_meaning_shapes, and borrows the trees. What meaning knows within a
//! number of steps, a call computes by `steps`. Where these are used up, it fails for want of memory, so that each answer is the
//! one of all further steps. A call fails for nothing else.
#![tactic(auto)]

mod fields;
mod free;
mod governed;
mod heads;
mod layouts;
mod runs;

pub use governed::with_value;
