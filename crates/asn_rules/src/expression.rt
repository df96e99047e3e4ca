//! The forms of which a rule of an ordered grammar is made.
//!
//! The tables in `first.rt` and `whole.rt` are made of these, and the interpreters in `run.rt` and `derive.rt` read them.

use crate::marks::Mark;
use asn_rules_guards::{Guard, Sight};

/// An expression of an ordered grammar.
#[derive(Clone, Copy)]
pub enum Expression {
    /// What is seen here is taken.
    See(Sight),
    /// What is seen here is taken, and leaves a leaf with the number of its mark.
    Marked(Mark, Sight),
    /// The rule of this number stands here, as a node of the tree.
    Call(u8),
    /// The rule of this number stands here, and leaves no node.
    Skip(u8),
    /// The first, and then the second.
    Sequence(&'static Expression, &'static Expression),
    /// The first, or where it fails the second.
    Choice(&'static Expression, &'static Expression),
    /// As many turns as there are, and none is enough.
    Many(&'static Expression),
    /// Nothing is taken, and the expression does not stand here.
    Not(&'static Expression),
    /// The expression, where the guard allows what it took.
    Guarded(&'static Expression, Guard),
}
