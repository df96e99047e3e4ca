//! The linked answer of a reading: its definitions in byte order of names, its warnings, and its listing.
//!
//! It stands on the names and the copies. The layer above calls `link_reading` and `listing` alone.
#![tactic(auto)]

mod given;
mod judging;
mod laws;
mod lines;
mod link;
mod linked;
mod literals;
mod warnings;

pub use laws::{due_are_warned, linking_keeps_meaning, one_list_of_warnings, warnings_are_due};
pub use lines::listing;
pub use link::link_reading;
pub use linked::Linked;
