//! A program that computes what stands one level down where objects are met: in an object, an object set and a class's field; in an
//! argument for a dummy of a template, under the dummy's governor (X.683 8.3, 9.1), and in one without a dummy; and what a definition
//! or a class's field begins with, the places that are nobody's part, from which all others are reached.
//!
//! It stands on asn_places_types, whose calls append sites to a list that they take and give back, on asn_meaning_dummies, which tells
//! what an argument is, on asn_meaning_fields and asn_places_names, and borrows the trees. What meaning knows within a number of steps,
//! a call computes by `steps`. Where these are used up, it fails for want of memory, so that each answer is the one of all further
//! steps. A call fails for nothing else.
#![tactic(auto)]

mod aside;
mod class_fields;
mod first;
mod governed;
mod loose;
mod objects;
mod parts;
mod set_names;
mod sets;
mod settings;

pub use aside::{handed_on_here, is_aside, is_own_argument};
pub use class_fields::with_class_field;
pub use first::{Node, node_sites};
pub use loose::with_loose_parts;
pub use objects::with_object;
pub use parts::with_argument_parts;
pub use sets::with_set_items;
pub use settings::{type_if_classed, with_given, with_loose_field};
