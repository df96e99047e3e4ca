//! A program that tells whether an argument is wrong at a place, whatever else stands there (X.683 8, 9): whether an argument for a
//! dummy of a template is of another kind than the dummy's governor, and whether a governor is wrong (X.683 8.3).
//!
//! It stands on asn_places_objects, which tells what an argument stands for, on asn_places_names and asn_meaning_dummies, and borrows
//! the trees. What meaning knows within a number of steps, a call computes by `steps`. Where these are used up, it fails for want of
//! memory, so that each answer is the one of all further steps. A call fails for nothing else.
#![tactic(auto)]

mod governors;
mod places;
mod wrong;

pub use governors::is_wrong_governor;
pub use places::is_wrong_place;
pub use wrong::{is_braced, is_unknown, is_wrong_argument};
