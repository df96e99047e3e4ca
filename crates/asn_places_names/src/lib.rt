//! A program that computes the names that occur at a place by the definitions of asn_needs: of what kind each must be, in which
//! scope it is read, and under which type; and whether such a name lacks a definition or an argument list.
//!
//! What holds within a number of steps, a call computes by `steps`. Where these are used up without an answer, it fails for want
//! of memory, so that each answer is the one of all further steps. A call fails for nothing else.
//!
//! It stands on the trees, on what names lead to (asn_meaning_heads), on what a name stands for (asn_names_index), on dummies (asn_meaning_dummies) and on
//! places (asn_places_types). It borrows the trees, and copies none.
#![tactic(auto)]

mod given;
mod lacking;
mod names;
mod needs;
mod occurrences;
mod paths;
mod sorts;
mod types;
mod values;

pub use lacking::{lacks_definition, lacks_list};
pub use names::names_at;
pub use needs::Need;
pub use occurrences::Occurrence;
pub use paths::is_path;
pub use values::{is_governed_by_class, is_own};
