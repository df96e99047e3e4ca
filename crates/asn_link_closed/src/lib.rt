//! Which definitions are closed: linking made the type of each, and each name that stays in it is that of a closed one or has no
//! definition. With it the names that stay in a type (`staying`): which names must be allowed to stay so that nothing in the type needs
//! to be replaced; and the laws of types that linking leaves as they are (`own_instances`): each is its own instance, and of the names
//! in it none but type references stay.
//!
//! It stands on what linking leaves as it is (asn_meaning_unchanged), on what an instance is (asn_link_instance) and on the graph of
//! names (asn_names_graph). It borrows the trees and makes no type: what linking made of each definition the layer above hands in.
#![tactic(auto)]

mod closing;
mod drawing;
mod laws;
mod left;
mod names;
mod own_instances;
mod staying;
mod trees;
mod types;

pub use closing::closed_definitions;
pub use laws::closed_definitions_close;
pub use names::StayingName;
pub use own_instances::{
    unchanged_are_own_instances, unchanged_bring_no_tag, unchanged_names_are_references,
};
pub use staying::names_that_stay;
pub use types::staying_names;
