//! Whether a type accepts a tree, and whether an element of a constraint holds of one: one cycle of calls.
//!
//! One module for types, one for constraints written behind another, one for their elements, and one for WITH COMPONENTS.

mod accepting;
mod components;
mod constraints;
mod elements;

pub use accepting::{accepts, judge};
pub use elements::holds;
