//! Each kind of type (X.680 clause 17), over any constraints, and the parts of types that hold no tree.

use asn_memory::{List, Text};
use asn_tree_leaves::CharacterStringType;

/// BOOLEAN with its constraints.
pub struct BooleanOver<C> {
    pub constraints: List<C>,
}

impl<C: Drop> Drop for BooleanOver<C> {
    fn drop(self) {
        let BooleanOver { constraints: _ } = self;
    }
}

/// REAL with its constraints.
pub struct RealOver<C> {
    pub constraints: List<C>,
}

impl<C: Drop> Drop for RealOver<C> {
    fn drop(self) {
        let RealOver { constraints: _ } = self;
    }
}

/// GeneralizedTime with its constraints.
pub struct GeneralizedTimeOver<C> {
    pub constraints: List<C>,
}

impl<C: Drop> Drop for GeneralizedTimeOver<C> {
    fn drop(self) {
        let GeneralizedTimeOver { constraints: _ } = self;
    }
}

/// UTCTime with its constraints.
pub struct UTCTimeOver<C> {
    pub constraints: List<C>,
}

impl<C: Drop> Drop for UTCTimeOver<C> {
    fn drop(self) {
        let UTCTimeOver { constraints: _ } = self;
    }
}

/// OCTET STRING with its constraints.
pub struct OctetStringOver<C> {
    pub constraints: List<C>,
}

impl<C: Drop> Drop for OctetStringOver<C> {
    fn drop(self) {
        let OctetStringOver { constraints: _ } = self;
    }
}

/// BIT STRING with its constraints.
pub struct BitStringOver<C> {
    pub constraints: List<C>,
    /// The named bits, where braces stand (X.680 22.1).
    pub distinguished_values: Option<List<DistinguishedValue>>,
}

impl<C: Drop> Drop for BitStringOver<C> {
    fn drop(self) {
        let BitStringOver {
            constraints: _,
            distinguished_values: _,
        } = self;
    }
}

/// OBJECT IDENTIFIER with its constraints.
pub struct ObjectIdentifierOver<C> {
    pub constraints: List<C>,
}

impl<C: Drop> Drop for ObjectIdentifierOver<C> {
    fn drop(self) {
        let ObjectIdentifierOver { constraints: _ } = self;
    }
}

/// TIME with its constraints.
pub struct TimeOver<C> {
    pub constraints: List<C>,
}

impl<C: Drop> Drop for TimeOver<C> {
    fn drop(self) {
        let TimeOver { constraints: _ } = self;
    }
}

/// A character string type with its constraints.
pub struct CharacterStringOver<C> {
    pub constraints: List<C>,
    /// Which of them.
    pub ty: CharacterStringType,
}

impl<C: Drop> Drop for CharacterStringOver<C> {
    fn drop(self) {
        let CharacterStringOver {
            constraints: _,
            ty: _,
        } = self;
    }
}

/// ENUMERATED with its constraints.
pub struct EnumeratedOver<C> {
    /// The items in order.
    pub members: List<Enumeral>,
    /// How many items stand before the extension marker, where there is one.
    pub extensible: Option<usize>,
    pub constraints: List<C>,
}

impl<C: Drop> Drop for EnumeratedOver<C> {
    fn drop(self) {
        let EnumeratedOver {
            members: _,
            extensible: _,
            constraints: _,
        } = self;
    }
}

/// A type reference with the constraints written after it.
pub struct DeclarationElsewhereOver<C> {
    /// What stands before the last dot of a path.
    pub parent: Option<Text>,
    /// The name.
    pub identifier: Text,
    pub constraints: List<C>,
}

impl<C: Drop> Drop for DeclarationElsewhereOver<C> {
    fn drop(self) {
        let DeclarationElsewhereOver {
            parent: _,
            identifier: _,
            constraints: _,
        } = self;
    }
}

/// An item of an ENUMERATED (X.680 20.1).
#[derive(Drop)]
pub struct Enumeral {
    pub name: Text,
    /// The comment after it.
    pub description: Option<Text>,
    /// Its number.
    pub index: i128,
}

/// A named number (X.680 19.1) or a named bit (X.680 22.1).
#[derive(Drop)]
pub struct DistinguishedValue {
    pub name: Text,
    pub value: i128,
}

/// A selection type: an option of a CHOICE that a name stands for (X.680 30.1).
#[derive(Drop)]
pub struct ChoiceSelectionType {
    /// The name of the CHOICE.
    pub choice_name: Text,
    /// The name of the option.
    pub selected_option: Text,
}
