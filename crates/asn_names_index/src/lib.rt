//! What a name stands for: an index of definitions, which finds the one of a name in as many steps as the map of names is deep; and
//! `Bindings`, in which scopes are numbers, for what a template's dummies stand for (X.683 8.4, 9.7).
//!
//! It stands on the trees and on their meaning (asn_meaning), borrows definitions, dummies and arguments, and copies the names of
//! definitions alone.
#![tactic(auto)]

mod bindings;
mod classes;
mod dummies;
mod index;
mod named;
mod names;

pub use bindings::{Bindings, Bound};
pub use classes::Class;
pub use dummies::{Pair, pair_of};
pub use named::is_built_in;
pub use names::{LastPlace, Names};
