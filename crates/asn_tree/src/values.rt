//! Values (X.680 clauses 16 to 44).

use crate::types::ASN1Type;
use asn_memory::{Box, List, Text};
use asn_tree_headers::ObjectIdentifierValue;
use asn_tree_kinds::StructLikeFieldValueOver;
use asn_tree_leaves::{CharacterStringType, IntegerType, RealValue};

/// A value. Its notation is often that of several types: the variants tell what stands in the text, and those that
/// begin with `Linked` what it is under its type.
#[cycle(tree)]
pub enum ASN1Value {
    /// The word ALL.
    All,
    /// NULL (X.680 24.3).
    Null,
    /// TRUE or FALSE (X.680 18.3).
    Boolean(bool),
    /// An option of a CHOICE with its value (X.680 29.11).
    Choice {
        type_name: Option<Text>,
        variant_name: Text,
        inner_value: Box<ASN1Value>,
    },
    /// Items between braces, with or without names (X.680 25.18, 26.3, 27.7, 28.3).
    SequenceOrSet(List<(Option<Text>, Box<ASN1Value>)>),
    /// A whole number (X.680 19.9).
    Integer(i128),
    /// A real number (X.680 21.6).
    Real(RealValue),
    /// A text between quotes (X.680 41.8).
    String(Text),
    /// Bits (X.680 22.9).
    BitString(List<bool>),
    /// The names of the bits that are set (X.680 22.9).
    BitStringNamedBits(List<Text>),
    /// Octets (X.680 23.3).
    OctetString(List<u8>),
    /// An item of an ENUMERATED (X.680 20.8).
    EnumeratedValue {
        /// The name of the ENUMERATED.
        enumerated: Text,
        /// The name of the item.
        enumerable: Text,
    },
    /// A time (X.680 38.1, 46.3, 47.3).
    Time(Text),
    /// The name of a value (X.680 14.1), or a path to a field of an object.
    ElsewhereDeclaredValue {
        /// What stands before the last dot of a path.
        parent: Option<Text>,
        identifier: Text,
    },
    /// An object identifier (X.680 32.3).
    ObjectIdentifier(ObjectIdentifierValue),
    /// A value of a type that names lead to.
    LinkedNestedValue {
        /// The names, from the first on.
        supertypes: List<Text>,
        value: Box<ASN1Value>,
    },
    /// A whole number under an INTEGER.
    LinkedIntValue {
        integer_type: IntegerType,
        value: i128,
    },
    /// The fields of a value under a SEQUENCE or SET.
    LinkedStructLikeValue(List<LinkedField>),
    /// The elements of a value under a SEQUENCE OF or SET OF.
    LinkedArrayLikeValue(List<Box<ASN1Value>>),
    /// A text under a character string type.
    LinkedCharStringValue(CharacterStringType, Text),
    /// The name of a value, and whether that value needs no memory.
    LinkedElsewhereDefinedValue {
        /// What stands before the last dot of a path.
        parent: Option<Text>,
        identifier: Text,
        can_be_const: bool,
    },
}

impl Drop for ASN1Value {
    #[cycle(tree)]
    fn drop(self) {
        match self {
            ASN1Value::All => (),
            ASN1Value::Null => (),
            ASN1Value::Boolean(_) => (),
            ASN1Value::Choice {
                type_name: _,
                variant_name: _,
                inner_value: _,
            } => (),
            ASN1Value::SequenceOrSet(_) => (),
            ASN1Value::Integer(_) => (),
            ASN1Value::Real(_) => (),
            ASN1Value::String(_) => (),
            ASN1Value::BitString(_) => (),
            ASN1Value::BitStringNamedBits(_) => (),
            ASN1Value::OctetString(_) => (),
            ASN1Value::EnumeratedValue {
                enumerated: _,
                enumerable: _,
            } => (),
            ASN1Value::Time(_) => (),
            ASN1Value::ElsewhereDeclaredValue {
                parent: _,
                identifier: _,
            } => (),
            ASN1Value::ObjectIdentifier(_) => (),
            ASN1Value::LinkedNestedValue {
                supertypes: _,
                value: _,
            } => (),
            ASN1Value::LinkedIntValue {
                integer_type: _,
                value: _,
            } => (),
            ASN1Value::LinkedStructLikeValue(_) => (),
            ASN1Value::LinkedArrayLikeValue(_) => (),
            ASN1Value::LinkedCharStringValue(_, _) => (),
            ASN1Value::LinkedElsewhereDefinedValue {
                parent: _,
                identifier: _,
                can_be_const: _,
            } => (),
        }
    }
}

/// The value of a field over the values of this notation.
pub type StructLikeFieldValue = StructLikeFieldValueOver<ASN1Value>;

/// A field of a value under a SEQUENCE or SET: its name, its type and its value.
#[cycle(tree)]
pub struct LinkedField {
    pub name: Text,
    pub ty: ASN1Type,
    pub value: StructLikeFieldValue,
}

impl Drop for LinkedField {
    #[cycle(tree)]
    fn drop(self) {
        let LinkedField {
            name: _,
            ty: _,
            value: _,
        } = self;
    }
}
