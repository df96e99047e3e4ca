//! What takes the place of values, sets, names and tags in the instance of a type, by the definitions of asn_link_instance.
//!
//! It borrows the trees and makes none: whoever makes the instance copies what a call gives. What meaning knows within a number of
//! steps, a call computes by `steps`: each answer is the one of these steps, and None says that there is no such part or that they are
//! too few to tell. A call fails for want of memory alone.
#![tactic(auto)]

mod braces;
mod denoted;
mod literals;
mod names;
mod parts;
mod subjects;
mod tables;
mod tags;
mod trees;
mod values;

pub use names::stays;
pub use parts::{has_no_components_of, marker_risen, part_named};
pub use subjects::{Subject, ends_read, values_read};
pub use tables::{SetMember, set_marker, set_members};
pub use tags::{placed_tag, tag_brought};
pub use values::{PlacedValue, default_value, end_value, is_outside, single_value};
