//! A plain slow program that computes which trees a type accepts by the definitions of meaning, as far as it goes: the
//! members of a SEQUENCE or SET with those that COMPONENTS OF puts in, and which trees fit a type at every depth,
//! constraints and character sets aside.
//!
//! What meaning knows within a number of steps, a call computes by `steps`, which counts down. Where these are used up, it fails
//! for want of memory, so that each answer is the one of all further steps, and None and Unknown mean lost for good. A call whose name
//! ends in `_within` gives what is known within these steps alone; of one whose name ends in `_over` a parameter tells which of both it
//! does.
//!
//! It stands on asn_meaning_heads, which tells where names lead, borrows the trees, and copies no more than scopes. Each call is proved
//! to give what its definition says, so that tests ask the definitions themselves.
#![tactic(auto)]

mod answers;
mod by_name;
mod components;
mod elements;
mod fitting;
mod further;
mod members;
mod named;
mod parts;
mod shapes;
mod trees;
mod within;

pub use answers::Answer;
pub use by_name::{FieldsByName, MembersByName};
pub use components::{is_addition_at, struct_members_over};
pub use elements::element_place;
pub use fitting::fits_over;
pub use further::{fits, members_of, struct_members};
pub use members::{Member, member_named};
pub use named::{member_type, option_type};
pub use parts::{Alternative, alternative_of, elements_of, fields_of, is_of_kind};
pub use shapes::{
    are_members, is_bits, is_identifier, is_item, is_null, is_octets, is_opaque, is_real, is_text,
    is_truth_value, is_whole_number,
};
pub use trees::{Field, Members, Tree, View, find_field};
pub use within::struct_members_within;
