//! The instance of a type: one cycle of calls, each the equation of its name.
//!
//! One module for types, one for their members, options and elements, one for constraints, one for contents, and one for the elements of
//! sets.

mod constraints;
mod contents;
mod elements;
mod members;
mod types;

pub use types::instance_of_type;
