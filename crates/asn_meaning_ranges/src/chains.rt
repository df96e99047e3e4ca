//! Elements joined by set operators, in order (X.680 50.1).

use asn_memory::List;
use asn_tree::{SetOperator, SubtypeElement};

/// An element behind an operator.
#[derive(Clone, Copy)]
pub struct Joined<'a> {
    pub operator: SetOperator,
    pub element: &'a SubtypeElement,
}

/// An element, and those behind it, each behind its operator.
#[derive(Drop)]
pub struct Chain<'a> {
    pub first: &'a SubtypeElement,
    pub others: List<Joined<'a>>,
}
