//! Which definitions lead to no circle of names.
//!
//! A room above the index of names (asn_names_index), the names in a definition (asn_names_references) and the graph of names (asn_names_graph): the
//! definitions that stand are numbered in their order, and each name that one mentions is an edge. A circle counts where linking changes
//! a definition in it, and where it goes by names alone by which definitions lead on whoever looks for what they stand for, or through a
//! name by which one may come to any other, as a selection's. A template that merely puts its arguments in place leads on to none of them.
//! Of a definition in which linking puts nothing in less is asked: whether a name that it follows leads to a circle.
#![tactic(auto)]

mod asking;
mod circles;
mod drawing;
mod following;
mod leading;
mod templates;

pub use circles::free_of_circles;
pub use following::follow_no_circle;
