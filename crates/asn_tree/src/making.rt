//! Making trees of the parts that a text has.
//!
//! One module for each family, with the names of the trees' modules; `components` sorts what stands in a SEQUENCE or
//! SET. A part that is a text is copied, every other part is moved into its field.

mod components;
mod constraints;
mod definitions;
mod objects;
mod types;
