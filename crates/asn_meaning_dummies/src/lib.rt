//! A program that computes what dummies stand for by the definitions of asn_needs: the name that an argument is, what a dummy that is
//! handed on stands for, which arguments are objects, classes, types or sets, and whether a head hangs on a dummy without an argument.
//!
//! What holds within a number of steps, a call computes by `steps`. Where these are used up without an answer, it fails for want of
//! memory, so that each answer is the one of all further steps. A call fails for nothing else.
//!
//! It stands on the trees, on what names lead to (asn_meaning_heads) and on what a name stands for (asn_names_index). It borrows the trees, and
//! copies none. Those who compute the places of a definition call it.
#![tactic(auto)]

mod hanging;
mod information;
mod names;
mod places;
mod scopes;
mod sets;

pub use hanging::{hangs, names_free_at};
pub use information::{
    governs_objects, is_class_at, is_class_name, is_information, is_object_or_class,
};
pub use names::{argument_name, handed_on, name_of_value};
pub use places::{Wanted, is_type_argument, misplaced, serves, unserved};
pub use scopes::{class_in_scope, is_free_dummy};
pub use sets::{SetForm, set_argument};
