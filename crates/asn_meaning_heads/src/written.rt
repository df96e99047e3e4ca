//! How values are written.

ghost use Rattle.asn_meaning_heads.specs.Written.{shown_written};
ghost use Rattle.asn_meaning.specs.Written.{as_written};
ghost use Rattle.std.specs.Prelude.{◌≡◌};

use asn_memory::{Box, List, Text};
use asn_tree::{ASN1Value, LinkedField, ObjectIdentifierArc, RealValue};

/// What is written. What linking made of a value counts as that value.
#[derive(Clone, Copy)]
pub enum Written<'a> {
    All,
    Null,
    Truth(bool),
    Number(i128),
    Real(RealValue),
    /// A character string, or a time (X.680 41, 46).
    Text(&'a Text),
    /// Bits (X.680 22.9).
    Bits(&'a List<bool>),
    /// The names of bits in braces (X.680 22.9).
    BitNames(&'a List<Text>),
    Octets(&'a List<u8>),
    /// The arcs of an object identifier (X.680 32.3).
    Arcs(&'a List<ObjectIdentifierArc>),
    /// An item of an enumeration (X.680 20.8).
    Item(&'a Text),
    /// A name, alone or behind the name of an object.
    Name {
        parent: Option<&'a Text>,
        identifier: &'a Text,
    },
    /// Items between braces, with or without names.
    Braces(&'a List<(Option<Text>, Box<ASN1Value>)>),
    /// The fields of a linked value.
    Fields(&'a List<LinkedField>),
    /// The elements of a linked value.
    Elements(&'a List<Box<ASN1Value>>),
    /// An alternative and its value (X.680 29.11).
    Alternative {
        name: &'a Text,
        value: &'a ASN1Value,
    },
    /// A value that linking put under the names of its types.
    Nested(&'a ASN1Value),
}

/// How a value is written.
pub fn as_written<'a>(value: &'a ASN1Value) -> Written<'a>
    ensures { shown_written result ≡ as_written value.now }
{
    match value {
        ASN1Value::All => Written::All,
        ASN1Value::Null => Written::Null,
        ASN1Value::Boolean(truth) => Written::Truth(*truth),
        ASN1Value::Choice {
            variant_name,
            inner_value,
            ..
        } => Written::Alternative {
            name: variant_name,
            value: inner_value.get(),
        },
        ASN1Value::SequenceOrSet(items) => Written::Braces(items),
        ASN1Value::Integer(number) => Written::Number(*number),
        ASN1Value::Real(real) => Written::Real(*real),
        ASN1Value::String(text) => Written::Text(text),
        ASN1Value::BitString(bits) => Written::Bits(bits),
        ASN1Value::BitStringNamedBits(names) => Written::BitNames(names),
        ASN1Value::OctetString(octets) => Written::Octets(octets),
        ASN1Value::EnumeratedValue { enumerable, .. } => Written::Item(enumerable),
        ASN1Value::Time(text) => Written::Text(text),
        ASN1Value::ElsewhereDeclaredValue { parent, identifier } => Written::Name {
            parent: parent.as_ref(),
            identifier,
        },
        ASN1Value::ObjectIdentifier(identifier) => Written::Arcs(&identifier.0),
        ASN1Value::LinkedNestedValue { value, .. } => Written::Nested(value.get()),
        ASN1Value::LinkedIntValue { value, .. } => Written::Number(*value),
        ASN1Value::LinkedStructLikeValue(fields) => Written::Fields(fields),
        ASN1Value::LinkedArrayLikeValue(elements) => Written::Elements(elements),
        ASN1Value::LinkedCharStringValue(_, text) => Written::Text(text),
        ASN1Value::LinkedElsewhereDefinedValue {
            parent,
            identifier,
            ..
        } => Written::Name {
            parent: parent.as_ref(),
            identifier,
        },
    }
}
