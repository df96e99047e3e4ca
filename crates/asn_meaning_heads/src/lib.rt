//! A program that computes what names lead to by the definitions of meaning: what a scope binds, what a type and a value are
//! made of, what a class's and an object's field is, and the head of a type.
//!
//! What meaning knows within a number of steps, a call computes by `steps`, which counts down. Where these are used up, it fails
//! for want of memory, so that each answer is the one of all further steps, and None means lost for good. A call fails for
//! nothing else. A call whose name ends in `_within` gives what is known within these steps alone, and None where they are used up; of
//! one whose name ends in `_over` a parameter tells which of both it does.
//!
//! It stands on the trees, on asn_meaning and on asn_names_index, which tells what a name stands for, and whose proofs tell where an
//! argument is missing. It borrows the trees, and shares scopes: entering a template costs one scope, however deep it lies. Each call
//! is proved to give what its definition says, so that tests ask the definitions themselves.
#![tactic(auto)]

mod circles;
mod classes;
mod following;
mod forms;
mod further;
mod items;
mod kinds;
mod leads;
mod lists;
mod matching;
mod names;
mod objects;
mod places;
mod scopes;
mod spans;
mod templates;
mod tokens;
mod trails;
mod values;
mod within;
mod written;

pub use circles::{is_lost, plain_name_in};
pub use classes::{FieldType, class_field_type, field_type, written_field};
pub use following::begins;
pub use forms::{constraints_in, integer_of, named_numbers_in, plain_text};
pub use further::{head, head_named, lead_of, selection_target};
pub use items::{item_named, number_named, option_named};
pub use kinds::{Kind, Reference, TypeForm, kind_of, kind_of_tree};
pub use leads::{Lead, head_named_over, head_over, options_of};
pub use lists::{ArgumentLists, argument_lists};
pub use matching::item_at;
pub use names::{dummy_target, name_target, reference_target};
pub use objects::{
    GivenField, Gives, as_given, field_target, given, marked, object_field, object_field_type,
};
pub use places::{Place, Target};
pub use scopes::{Argument, Bound, Scope};
pub use spans::Span;
pub use templates::{entered, instance};
pub use tokens::{Behind, Token, token_of};
pub use trails::{constraints_at, place_at, trail};
pub use values::{ValueForm, value_written};
pub use within::{head_named_within, head_within, selection_target_within};
pub use written::{Written, as_written};
