//! The names in a definition, or in a value, that stand where a reference may stand, of whatever kind.
//!
//! It stands on the trees, borrows them, copies no text, and looks no name up. The layer above asks it where a definition may
//! lead: all names of one, or those that are entered, followed, asked for or selected.
#![tactic(auto)]

mod constraints;
mod definitions;
mod names;
mod objects;
mod types;
mod values;
mod wanted;

pub use definitions::{asked, entered, followed, references, selected};
pub use values::value_references;
