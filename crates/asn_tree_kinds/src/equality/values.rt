//! Equality of the value of a field, over any values.

ghost use Rattle.asn_tree_equality.specs.Equality.{same_by, same_by-laws};
ghost use Rattle.std.specs.Prelude.{◌≡◌, ◌↔◌, IsTrue};

use crate::values::StructLikeFieldValueOver;
use asn_tree_equality::{SameTree, same};

impl<V: SameTree> SameTree for StructLikeFieldValueOver<V> {
    fn is_same(&self, other: &Self) -> bool {
        match (self, other) {
            (StructLikeFieldValueOver::Explicit(left), StructLikeFieldValueOver::Explicit(right)) =>
                left.is_same(right),
            (StructLikeFieldValueOver::Implicit(left), StructLikeFieldValueOver::Implicit(right)) =>
                left.is_same(right),
            _ => false,
        }
    }
}

impl<V: SameTree> PartialEq for StructLikeFieldValueOver<V> {
    ghost use Rattle.asn_tree_kinds.specs.contracts.values.StructLikeFieldValueOver.{the_row};

    ghost eq = { same_by (the_row V.row).coded };

    ghost laws = { same_by-laws (the_row V.row).coded };

    fn eq(&self, other: &Self) -> bool
        ensures equal { IsTrue result ↔ (self.now ≡ other.now) }
        ensures gives { result ≡ same_by (the_row V.row).coded self.now other.now }
    {
        same(self, other)
    }
}
