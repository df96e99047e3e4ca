//! Tagging environments, added where tags lie.
//!
//! It stands on the trees alone, changes them in place, copies nothing and takes no memory. Linking gives each definition
//! its module's environment by it. What the environment does to a tree is a definition of the trees.
#![tactic(auto)]

mod definitions;
mod laws;
mod trees;

pub use definitions::ToplevelDefinitionTagging;
pub use laws::environments_add_up;
