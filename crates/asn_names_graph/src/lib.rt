//! What needs what: a graph of numbers, the parts of it whose nodes need each other, and an order in which needs come first; and the
//! graph of names, with a node for each name, in byte order, and an edge to each of them that it mentions.
//!
//! The graph of numbers stands on lists alone. Its definitions (`specs/Graphs`) say what an edge is and what a node needs; `names`,
//! `places` and `drawing` number the names that stand in the index (asn_names_index). What a name mentions the layer above tells, name
//! by name.
#![tactic(auto)]

mod builder;
mod components;
mod drawing;
mod graph;
mod mark;
mod names;
mod places;
mod reach;
mod search;
mod stack;
mod steps;
mod tables;

pub use builder::GraphBuilder;
pub use components::Components;
pub use drawing::{add_mentions, finished};
pub use graph::Graph;
pub use names::names_of;
pub use places::place_of;
pub use reach::free_nodes;
