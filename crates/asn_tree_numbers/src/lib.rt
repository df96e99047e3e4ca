//! The numbers of an enumeration's items.
//!
//! A room on the ground: it stands on lists alone, and knows nothing of the grammar or of trees. What an item's number is
//! (`specs/Enumeration`) is cited by the rule of the grammar that reads an enumeration, and by the calls on trees.
#![tactic(auto)]

mod enumeration;
mod laws;
mod taken_numbers;

pub use enumeration::enumerate;
pub use laws::{numbers_are_distinct, numbers_are_one};
