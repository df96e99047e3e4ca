//! Equality of each kind of type, over any constraints, and of parts of types.

ghost use Rattle.asn_tree_equality.specs.Equality.{same_by, same_by-laws};
ghost use Rattle.std.specs.Prelude.{◌≡◌, ◌↔◌, IsTrue};

use crate::types::{
    BitStringOver, BooleanOver, CharacterStringOver, ChoiceSelectionType, DeclarationElsewhereOver,
    DistinguishedValue, Enumeral, EnumeratedOver, GeneralizedTimeOver, ObjectIdentifierOver,
    OctetStringOver, RealOver, TimeOver, UTCTimeOver,
};
use asn_tree_equality::{SameTree, same};

impl<C: SameTree> SameTree for BooleanOver<C> {
    fn is_same(&self, other: &Self) -> bool {
        self.constraints.is_same(&other.constraints)
    }
}

impl<C: SameTree> PartialEq for BooleanOver<C> {
    ghost use Rattle.asn_tree_kinds.specs.contracts.types.BooleanOver.{the_row};

    ghost eq = { same_by (the_row C.row).coded };

    ghost laws = { same_by-laws (the_row C.row).coded };

    fn eq(&self, other: &Self) -> bool
        ensures equal { IsTrue result ↔ (self.now ≡ other.now) }
        ensures gives { result ≡ same_by (the_row C.row).coded self.now other.now }
    {
        same(self, other)
    }
}

impl<C: SameTree> SameTree for RealOver<C> {
    fn is_same(&self, other: &Self) -> bool {
        self.constraints.is_same(&other.constraints)
    }
}

impl<C: SameTree> PartialEq for RealOver<C> {
    ghost use Rattle.asn_tree_kinds.specs.contracts.types.RealOver.{the_row};

    ghost eq = { same_by (the_row C.row).coded };

    ghost laws = { same_by-laws (the_row C.row).coded };

    fn eq(&self, other: &Self) -> bool
        ensures equal { IsTrue result ↔ (self.now ≡ other.now) }
        ensures gives { result ≡ same_by (the_row C.row).coded self.now other.now }
    {
        same(self, other)
    }
}

impl<C: SameTree> SameTree for GeneralizedTimeOver<C> {
    fn is_same(&self, other: &Self) -> bool {
        self.constraints.is_same(&other.constraints)
    }
}

impl<C: SameTree> PartialEq for GeneralizedTimeOver<C> {
    ghost use Rattle.asn_tree_kinds.specs.contracts.types.GeneralizedTimeOver.{the_row};

    ghost eq = { same_by (the_row C.row).coded };

    ghost laws = { same_by-laws (the_row C.row).coded };

    fn eq(&self, other: &Self) -> bool
        ensures equal { IsTrue result ↔ (self.now ≡ other.now) }
        ensures gives { result ≡ same_by (the_row C.row).coded self.now other.now }
    {
        same(self, other)
    }
}

impl<C: SameTree> SameTree for UTCTimeOver<C> {
    fn is_same(&self, other: &Self) -> bool {
        self.constraints.is_same(&other.constraints)
    }
}

impl<C: SameTree> PartialEq for UTCTimeOver<C> {
    ghost use Rattle.asn_tree_kinds.specs.contracts.types.UTCTimeOver.{the_row};

    ghost eq = { same_by (the_row C.row).coded };

    ghost laws = { same_by-laws (the_row C.row).coded };

    fn eq(&self, other: &Self) -> bool
        ensures equal { IsTrue result ↔ (self.now ≡ other.now) }
        ensures gives { result ≡ same_by (the_row C.row).coded self.now other.now }
    {
        same(self, other)
    }
}

impl<C: SameTree> SameTree for OctetStringOver<C> {
    fn is_same(&self, other: &Self) -> bool {
        self.constraints.is_same(&other.constraints)
    }
}

impl<C: SameTree> PartialEq for OctetStringOver<C> {
    ghost use Rattle.asn_tree_kinds.specs.contracts.types.OctetStringOver.{the_row};

    ghost eq = { same_by (the_row C.row).coded };

    ghost laws = { same_by-laws (the_row C.row).coded };

    fn eq(&self, other: &Self) -> bool
        ensures equal { IsTrue result ↔ (self.now ≡ other.now) }
        ensures gives { result ≡ same_by (the_row C.row).coded self.now other.now }
    {
        same(self, other)
    }
}

impl<C: SameTree> SameTree for BitStringOver<C> {
    fn is_same(&self, other: &Self) -> bool {
        self.constraints.is_same(&other.constraints)
            && self
                .distinguished_values
                .is_same(&other.distinguished_values)
    }
}

impl<C: SameTree> PartialEq for BitStringOver<C> {
    ghost use Rattle.asn_tree_kinds.specs.contracts.types.BitStringOver.{the_row};

    ghost eq = { same_by (the_row C.row).coded };

    ghost laws = { same_by-laws (the_row C.row).coded };

    fn eq(&self, other: &Self) -> bool
        ensures equal { IsTrue result ↔ (self.now ≡ other.now) }
        ensures gives { result ≡ same_by (the_row C.row).coded self.now other.now }
    {
        same(self, other)
    }
}

impl<C: SameTree> SameTree for ObjectIdentifierOver<C> {
    fn is_same(&self, other: &Self) -> bool {
        self.constraints.is_same(&other.constraints)
    }
}

impl<C: SameTree> PartialEq for ObjectIdentifierOver<C> {
    ghost use Rattle.asn_tree_kinds.specs.contracts.types.ObjectIdentifierOver.{the_row};

    ghost eq = { same_by (the_row C.row).coded };

    ghost laws = { same_by-laws (the_row C.row).coded };

    fn eq(&self, other: &Self) -> bool
        ensures equal { IsTrue result ↔ (self.now ≡ other.now) }
        ensures gives { result ≡ same_by (the_row C.row).coded self.now other.now }
    {
        same(self, other)
    }
}

impl<C: SameTree> SameTree for TimeOver<C> {
    fn is_same(&self, other: &Self) -> bool {
        self.constraints.is_same(&other.constraints)
    }
}

impl<C: SameTree> PartialEq for TimeOver<C> {
    ghost use Rattle.asn_tree_kinds.specs.contracts.types.TimeOver.{the_row};

    ghost eq = { same_by (the_row C.row).coded };

    ghost laws = { same_by-laws (the_row C.row).coded };

    fn eq(&self, other: &Self) -> bool
        ensures equal { IsTrue result ↔ (self.now ≡ other.now) }
        ensures gives { result ≡ same_by (the_row C.row).coded self.now other.now }
    {
        same(self, other)
    }
}

impl<C: SameTree> SameTree for CharacterStringOver<C> {
    fn is_same(&self, other: &Self) -> bool {
        self.constraints.is_same(&other.constraints) && self.ty == other.ty
    }
}

impl<C: SameTree> PartialEq for CharacterStringOver<C> {
    ghost use Rattle.asn_tree_kinds.specs.contracts.types.CharacterStringOver.{the_row};

    ghost eq = { same_by (the_row C.row).coded };

    ghost laws = { same_by-laws (the_row C.row).coded };

    fn eq(&self, other: &Self) -> bool
        ensures equal { IsTrue result ↔ (self.now ≡ other.now) }
        ensures gives { result ≡ same_by (the_row C.row).coded self.now other.now }
    {
        same(self, other)
    }
}

impl<C: SameTree> SameTree for EnumeratedOver<C> {
    fn is_same(&self, other: &Self) -> bool {
        self.members.is_same(&other.members)
            && self.extensible == other.extensible
            && self.constraints.is_same(&other.constraints)
    }
}

impl<C: SameTree> PartialEq for EnumeratedOver<C> {
    ghost use Rattle.asn_tree_kinds.specs.contracts.types.EnumeratedOver.{the_row};

    ghost eq = { same_by (the_row C.row).coded };

    ghost laws = { same_by-laws (the_row C.row).coded };

    fn eq(&self, other: &Self) -> bool
        ensures equal { IsTrue result ↔ (self.now ≡ other.now) }
        ensures gives { result ≡ same_by (the_row C.row).coded self.now other.now }
    {
        same(self, other)
    }
}

impl<C: SameTree> SameTree for DeclarationElsewhereOver<C> {
    fn is_same(&self, other: &Self) -> bool {
        self.parent.is_same(&other.parent)
            && self.identifier.is_same(&other.identifier)
            && self.constraints.is_same(&other.constraints)
    }
}

impl<C: SameTree> PartialEq for DeclarationElsewhereOver<C> {
    ghost use Rattle.asn_tree_kinds.specs.contracts.types.DeclarationElsewhereOver.{the_row};

    ghost eq = { same_by (the_row C.row).coded };

    ghost laws = { same_by-laws (the_row C.row).coded };

    fn eq(&self, other: &Self) -> bool
        ensures equal { IsTrue result ↔ (self.now ≡ other.now) }
        ensures gives { result ≡ same_by (the_row C.row).coded self.now other.now }
    {
        same(self, other)
    }
}

impl SameTree for Enumeral {
    fn is_same(&self, other: &Self) -> bool {
        self.name.is_same(&other.name)
            && self.description.is_same(&other.description)
            && self.index == other.index
    }
}

impl PartialEq for Enumeral {
    ghost use Rattle.asn_tree_kinds.specs.contracts.types.Enumeral.{the_row};

    ghost eq = { same_by the_row.coded };

    ghost laws = { same_by-laws the_row.coded };

    fn eq(&self, other: &Self) -> bool
        ensures equal { IsTrue result ↔ (self.now ≡ other.now) }
        ensures gives { result ≡ same_by the_row.coded self.now other.now }
    {
        same(self, other)
    }
}

impl SameTree for DistinguishedValue {
    fn is_same(&self, other: &Self) -> bool {
        self.name.is_same(&other.name) && self.value == other.value
    }
}

impl PartialEq for DistinguishedValue {
    ghost use Rattle.asn_tree_kinds.specs.contracts.types.DistinguishedValue.{the_row};

    ghost eq = { same_by the_row.coded };

    ghost laws = { same_by-laws the_row.coded };

    fn eq(&self, other: &Self) -> bool
        ensures equal { IsTrue result ↔ (self.now ≡ other.now) }
        ensures gives { result ≡ same_by the_row.coded self.now other.now }
    {
        same(self, other)
    }
}

impl SameTree for ChoiceSelectionType {
    fn is_same(&self, other: &Self) -> bool {
        self.choice_name.is_same(&other.choice_name)
            && self.selected_option.is_same(&other.selected_option)
    }
}

impl PartialEq for ChoiceSelectionType {
    ghost use Rattle.asn_tree_kinds.specs.contracts.types.ChoiceSelectionType.{the_row};

    ghost eq = { same_by the_row.coded };

    ghost laws = { same_by-laws the_row.coded };

    fn eq(&self, other: &Self) -> bool
        ensures equal { IsTrue result ↔ (self.now ≡ other.now) }
        ensures gives { result ≡ same_by the_row.coded self.now other.now }
    {
        same(self, other)
    }
}
