//! A program that computes the places of a definition: what stands at a place and what surrounds it, and what stands in a type
//! that stands there, one level down.
//!
//! It stands on the trees, on asn_meaning_heads, asn_names_index and the definitions of asn_needs, and borrows the trees. Sites that stand
//! beside each other share what surrounds them. Each call appends sites to a list that it takes and gives back. A call fails
//! for want of memory and for nothing else.
#![tactic(auto)]

mod components;
mod constraints;
mod forms;
mod instances;
mod lending;
mod loose;
mod scopes;
mod sites;
mod surroundings;
mod types;

pub use components::{governor_here, place_here, with_bare_type};
pub use constraints::{governor_copied, with_constraints};
pub use forms::{
    Asked, ClassFieldForm, Form, OnConstraint, OnElement, OnSet, SetForm, TypePlace, ValuePlace,
};
pub use instances::{Instance, instance_at, with_dummies};
pub use lending::{governor_boxed, lent, unboxed};
pub use loose::{list_in, with_loose_list, with_loose_lists};
pub use scopes::filled;
pub use sites::{Site, with_site};
pub use surroundings::{
    Around, made_opaque, nested, onward, outermost, scope_in, shared, without_way,
};
pub use types::{constraints_behind, with_governor, with_type};
