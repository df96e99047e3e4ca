//! The instance of a type as a tree of its own: what linking makes of it, to be read in the empty scope, by the definitions of asn_link_instance.
//!
//! Names of templates, dummies, selections, class fields of fixed type and COMPONENTS OF go; values in constraints become literals and
//! names of items; constraints stay, each with what stands for it. asn_link_values tells what takes the place of values, sets and tags;
//! here the trees are made, and what stays is copied.
//!
//! What meaning knows within a number of steps, a call computes by `steps`; how deep an instance goes, `levels` tell, and how many
//! nodes it may have, its room. Each answer is the one of these steps and levels: None says that there is no instance within them. Where
//! the room is used up, a call fails for want of memory, and for nothing else.
#![tactic(auto)]

mod constrained;
mod leaves;
mod linking;
mod parts;
mod room;
mod sets;
mod trees;
mod writing;

pub use linking::instance_of_type;
pub use room::Room;
