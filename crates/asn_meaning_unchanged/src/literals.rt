//! Values as literals: what linking would have to put into a value (X.680 clause 17).

ghost use Rattle.asn_meaning_unchanged.specs.Unchanged.{bare_arcs, braced, braced_items, literal, with_item};
ghost use Rattle.std.specs.Prelude.{◌≡◌};

use asn_memory::{Box, Text};
use asn_tree::ASN1Value;
use asn_tree_headers::ObjectIdentifierArc;

/// What a value is made of.
#[derive(Clone, Copy, Debug, PartialEq, Eq)]
pub enum Literal {
    /// One literal: a number, a text, bits, a truth value, `NULL` or `ALL`.
    Single,
    /// Such literals in braces, or behind the name of an alternative.
    Compound,
    /// A name stands in it that may be that of a value.
    Naming,
}

/// What stands in braces, or behind the name of an alternative, where this stands within.
fn braced(inner: Literal) -> Literal
    ensures { result ≡ braced inner }
{
    match inner {
        Literal::Single => Literal::Compound,
        Literal::Compound => Literal::Compound,
        Literal::Naming => Literal::Naming,
    }
}

/// What stands in braces, where these items and this item stand there.
fn with_item(items: Literal, item: Literal) -> Literal
    ensures { result ≡ with_item items item }
{
    match items {
        Literal::Single => braced(item),
        Literal::Compound => braced(item),
        Literal::Naming => Literal::Naming,
    }
}

/// The arcs of an object identifier: a name among them may be that of a value (X.680 32.3).
fn bare_arcs(arcs: &[ObjectIdentifierArc]) -> Literal
    ensures { result ≡ bare_arcs arcs.now }
{
    let mut all = Literal::Compound;
    for arc in arcs {
        if arc.name.is_some() {
            all = Literal::Naming;
        }
    }
    all
}

/// The items between braces.
#[cycle(literals)]
fn items(parts: &[(Option<Text>, Box<ASN1Value>)]) -> Literal
    ensures { result ≡ braced_items parts.now }
{
    let mut all = Literal::Compound;
    for part in parts {
        all = with_item(all, literal_of(part.1.get()));
    }
    all
}

/// What a value is made of. What linking made of a value is no literal.
#[cycle(literals)]
pub(crate) fn literal_of(value: &ASN1Value) -> Literal
    ensures { result ≡ literal value.now }
{
    match value {
        ASN1Value::All => Literal::Single,
        ASN1Value::Null => Literal::Single,
        ASN1Value::Boolean(_) => Literal::Single,
        ASN1Value::Choice {
            type_name: _,
            variant_name: _,
            inner_value,
        } => braced(literal_of(inner_value.get())),
        ASN1Value::SequenceOrSet(parts) => items(parts.as_slice()),
        ASN1Value::Integer(_) => Literal::Single,
        ASN1Value::Real(_) => Literal::Single,
        ASN1Value::String(_) => Literal::Single,
        ASN1Value::BitString(_) => Literal::Single,
        ASN1Value::BitStringNamedBits(_) => Literal::Naming,
        ASN1Value::OctetString(_) => Literal::Single,
        ASN1Value::EnumeratedValue { .. } => Literal::Naming,
        ASN1Value::Time(_) => Literal::Single,
        ASN1Value::ElsewhereDeclaredValue { .. } => Literal::Naming,
        ASN1Value::ObjectIdentifier(identifier) => bare_arcs(identifier.0.as_slice()),
        ASN1Value::LinkedNestedValue { .. } => Literal::Naming,
        ASN1Value::LinkedIntValue { .. } => Literal::Naming,
        ASN1Value::LinkedStructLikeValue(_) => Literal::Naming,
        ASN1Value::LinkedArrayLikeValue(_) => Literal::Naming,
        ASN1Value::LinkedCharStringValue(_, _) => Literal::Naming,
        ASN1Value::LinkedElsewhereDefinedValue { .. } => Literal::Naming,
    }
}
