//! Equality of each kind of type, constraint, object and value, where the parts can be compared.

ghost use Rattle.asn_tree_equality.specs.Equality.{IsEquality};

use crate::constraints::{ComponentPresence, SetOperator};
use asn_tree_equality::SameTree;

mod constraints;
mod objects;
mod types;
mod values;

impl SameTree for SetOperator {
    fn is_same(&self, other: &Self) -> bool {
        self == other
    }
}

/// The law of `==` of operators and of what is asked of presence: each is true exactly where both are equal.
pub fn equal_kinds()
    ensures operator { IsEquality ⟦<SetOperator as PartialEq>⟧.eq }
    ensures presence { IsEquality ⟦<ComponentPresence as PartialEq>⟧.eq }
{}
