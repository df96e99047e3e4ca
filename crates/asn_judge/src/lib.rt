//! A plain slow program that computes, by the definitions of meaning, whether a type accepts a value tree, with every constraint.
//!
//! What meaning knows within a number of steps, a call computes by `steps`, which counts down. Where these are used up, it fails
//! for want of memory, so that each answer is the one of all further steps, and Unknown means for good that a name leads nowhere.
//!
//! It stands on asn_names_index, which tells what a name stands for, on asn_meaning_ranges, which tells what whole numbers are left, and on
//! asn_meaning_values, which tells what values denote; it borrows the trees, and copies no more than scopes, sets of numbers and single
//! characters. Each call is proved to give what its definition says, so that tests ask the definitions themselves.
#![tactic(auto)]

mod characters;
mod judging;
mod presence;
mod ranking;
mod singles;
mod sizes;
mod trees;

pub use judging::{accepts, holds, judge};
pub use trees::same_tree;
