//! Equality of object sets, of their items and of each kind of field.

ghost use Rattle.asn_tree_equality.specs.Equality.{same_by, same_by-laws};
ghost use Rattle.std.specs.Prelude.{◌≡◌, ◌↔◌, IsTrue};

use crate::objects::{
    FixedValueFieldOver, InformationObjectFieldReferenceOver, ObjectSetFieldOver, ObjectSetOver,
    ObjectSetValueOver, TypeFieldOver,
};
use asn_tree_equality::{SameTree, same};

impl<F: SameTree> SameTree for ObjectSetValueOver<F> {
    fn is_same(&self, other: &Self) -> bool {
        match (self, other) {
            (ObjectSetValueOver::Reference(left), ObjectSetValueOver::Reference(right)) =>
                left.is_same(right),
            (ObjectSetValueOver::Inline(left), ObjectSetValueOver::Inline(right)) => left.is_same(
                right,
            ),
            _ => false,
        }
    }
}

impl<F: SameTree> PartialEq for ObjectSetValueOver<F> {
    ghost use Rattle.asn_tree_kinds.specs.contracts.objects.ObjectSetValueOver.{the_row};

    ghost eq = { same_by (the_row F.row).coded };

    ghost laws = { same_by-laws (the_row F.row).coded };

    fn eq(&self, other: &Self) -> bool
        ensures equal { IsTrue result ↔ (self.now ≡ other.now) }
        ensures gives { result ≡ same_by (the_row F.row).coded self.now other.now }
    {
        same(self, other)
    }
}

impl<F: SameTree> SameTree for ObjectSetOver<F> {
    fn is_same(&self, other: &Self) -> bool {
        self.values.is_same(&other.values) && self.extensible == other.extensible
    }
}

impl<F: SameTree> PartialEq for ObjectSetOver<F> {
    ghost use Rattle.asn_tree_kinds.specs.contracts.objects.ObjectSetOver.{the_row};

    ghost eq = { same_by (the_row F.row).coded };

    ghost laws = { same_by-laws (the_row F.row).coded };

    fn eq(&self, other: &Self) -> bool
        ensures equal { IsTrue result ↔ (self.now ≡ other.now) }
        ensures gives { result ≡ same_by (the_row F.row).coded self.now other.now }
    {
        same(self, other)
    }
}

impl<V: SameTree> SameTree for FixedValueFieldOver<V> {
    fn is_same(&self, other: &Self) -> bool {
        self.identifier.is_same(&other.identifier) && self.value.is_same(&other.value)
    }
}

impl<V: SameTree> PartialEq for FixedValueFieldOver<V> {
    ghost use Rattle.asn_tree_kinds.specs.contracts.objects.FixedValueFieldOver.{the_row};

    ghost eq = { same_by (the_row V.row).coded };

    ghost laws = { same_by-laws (the_row V.row).coded };

    fn eq(&self, other: &Self) -> bool
        ensures equal { IsTrue result ↔ (self.now ≡ other.now) }
        ensures gives { result ≡ same_by (the_row V.row).coded self.now other.now }
    {
        same(self, other)
    }
}

impl<T: SameTree> SameTree for TypeFieldOver<T> {
    fn is_same(&self, other: &Self) -> bool {
        self.identifier.is_same(&other.identifier) && self.ty.is_same(&other.ty)
    }
}

impl<T: SameTree> PartialEq for TypeFieldOver<T> {
    ghost use Rattle.asn_tree_kinds.specs.contracts.objects.TypeFieldOver.{the_row};

    ghost eq = { same_by (the_row T.row).coded };

    ghost laws = { same_by-laws (the_row T.row).coded };

    fn eq(&self, other: &Self) -> bool
        ensures equal { IsTrue result ↔ (self.now ≡ other.now) }
        ensures gives { result ≡ same_by (the_row T.row).coded self.now other.now }
    {
        same(self, other)
    }
}

impl<F: SameTree> SameTree for ObjectSetFieldOver<F> {
    fn is_same(&self, other: &Self) -> bool {
        self.identifier.is_same(&other.identifier) && self.value.is_same(&other.value)
    }
}

impl<F: SameTree> PartialEq for ObjectSetFieldOver<F> {
    ghost use Rattle.asn_tree_kinds.specs.contracts.objects.ObjectSetFieldOver.{the_row};

    ghost eq = { same_by (the_row F.row).coded };

    ghost laws = { same_by-laws (the_row F.row).coded };

    fn eq(&self, other: &Self) -> bool
        ensures equal { IsTrue result ↔ (self.now ≡ other.now) }
        ensures gives { result ≡ same_by (the_row F.row).coded self.now other.now }
    {
        same(self, other)
    }
}

impl<C: SameTree> SameTree for InformationObjectFieldReferenceOver<C> {
    fn is_same(&self, other: &Self) -> bool {
        self.class.is_same(&other.class)
            && self.field_path.is_same(&other.field_path)
            && self.constraints.is_same(&other.constraints)
    }
}

impl<C: SameTree> PartialEq for InformationObjectFieldReferenceOver<C> {
    ghost use Rattle.asn_tree_kinds.specs.contracts.objects.InformationObjectFieldReferenceOver.{the_row};

    ghost eq = { same_by (the_row C.row).coded };

    ghost laws = { same_by-laws (the_row C.row).coded };

    fn eq(&self, other: &Self) -> bool
        ensures equal { IsTrue result ↔ (self.now ≡ other.now) }
        ensures gives { result ≡ same_by (the_row C.row).coded self.now other.now }
    {
        same(self, other)
    }
}
