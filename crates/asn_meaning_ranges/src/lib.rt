//! A plain slow program that computes, by the definitions of meaning, which whole numbers a range has and which ones the
//! constraints of a type leave, and what an element of a constraint is put on.
//!
//! What meaning knows within a number of steps, a call computes by `steps`, which counts down. Where these are used up, it fails
//! for want of memory, so that each answer is the one of all further steps, and None means for good that a name leads nowhere.
//!
//! It stands on asn_names_index, which tells what a name stands for, and on asn_meaning_values, which tells what the ends of ranges denote; it
//! borrows the trees, and copies no more than scopes and sets of numbers. Each call is proved to give what its definition says, so
//! that tests ask the definitions themselves.
#![tactic(auto)]

mod chains;
mod ends;
mod joining;
mod kinds;
mod known;
mod leaving;
mod making;
mod operands;
mod parents;
mod ranges;
mod sets;
mod turns;
mod wide;

pub use chains::{Chain, Joined};
pub use kinds::{is_free, numbers_at_head, restricted};
pub use leaving::{narrowed, numbers, numbers_before};
pub use making::{
    above_least, below_greatest, every_number, in_both, in_either, in_first, no_number,
    numbers_among, numbers_from, numbers_to, one_number,
};
pub use operands::chain;
pub use parents::{Parent, codes_of, value_place};
pub use ranges::{from_low, range, up_to_high};
pub use sets::Numbers;
