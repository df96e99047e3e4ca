//! A plain slow program that computes what values denote by the definitions of meaning: the trees of values by their own
//! notation, names, dummies, paths and values with parts; and whether a value is ALL or stands for it.
//!
//! What meaning knows within a number of steps, a call computes by `steps`, which counts down. Where these are used up, it fails
//! for want of memory, so that each answer is the one of all further steps, and unsure means for good that a name leads
//! nowhere. A call fails for nothing else. A call whose name ends in `_within` gives what is known within these steps alone; of one whose
//! name ends in `_over` a parameter tells which of both it does.
//!
//! It stands on asn_names_index, which tells what a name stands for, on asn_meaning_heads, which tells where names lead and how a value is
//! written, and on asn_meaning_shapes, whose trees it gives. Each call is proved to give what its definition says, so that tests ask
//! the definitions themselves.
#![tactic(auto)]

mod bits;
mod braces;
mod denotation;
mod everything;
mod following;
mod further;
mod gathering;
mod leaves;
mod making;
mod own;
mod reading;
mod rows;
mod stands;
mod structs;
mod texts;
mod values;
mod within;

pub use bits::bits_written;
pub use braces::{NamedValue, all_unnamed, elements_written, fields_written};
pub use denotation::Denotation;
pub use further::is_all;
pub use rows::{number_written, row};
pub use texts::string_written;
pub use values::denotes;
pub use within::{is_all_within, leaf_within};
