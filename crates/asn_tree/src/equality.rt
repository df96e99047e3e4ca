//! Equality of trees: `==` of each type of tree is true exactly where both trees are equal.
//!
//! One module for each family, with the names of the trees' modules. A tree is compared part by part, by `SameTree`; the
//! trees that lead back to each other have functions of their own, since a call through the trait tells the prover
//! nothing of a tree's depth.

mod constraints;
mod definitions;
mod objects;
mod types;
mod values;
