//! Equality of values.

ghost use Rattle.asn_tree_equality.specs.Equality.{same_by, same_by-laws};
ghost use Rattle.std.specs.Prelude.{◌≡◌, ◌↔◌, IsTrue};

use crate::equality::types::same_asn1_type;
use crate::values::{ASN1Value, LinkedField, StructLikeFieldValue};
use asn_memory::{Box, List, Text};
use asn_tree_equality::{SameTree, same};

#[cycle(comparing)]
pub(super) fn same_asn1_value(left: &ASN1Value, right: &ASN1Value) -> bool
    ensures { IsTrue result ↔ (left.now ≡ right.now) }
{
    match (left, right) {
        (ASN1Value::All, ASN1Value::All) => true,
        (ASN1Value::Null, ASN1Value::Null) => true,
        (ASN1Value::Boolean(x), ASN1Value::Boolean(y)) => *x == *y,
        (
            ASN1Value::Choice {
                type_name: x0,
                variant_name: x1,
                inner_value: x2,
            },
            ASN1Value::Choice {
                type_name: y0,
                variant_name: y1,
                inner_value: y2,
            },
        ) => x0.is_same(y0) && x1.is_same(y1) && same_asn1_value(x2.get(), y2.get()),
        (ASN1Value::SequenceOrSet(x), ASN1Value::SequenceOrSet(y)) => same_named_values(x, y),
        (ASN1Value::Integer(x), ASN1Value::Integer(y)) => *x == *y,
        (ASN1Value::Real(x), ASN1Value::Real(y)) => *x == *y,
        (ASN1Value::String(x), ASN1Value::String(y)) => x.is_same(y),
        (ASN1Value::BitString(x), ASN1Value::BitString(y)) => x.is_same(y),
        (ASN1Value::BitStringNamedBits(x), ASN1Value::BitStringNamedBits(y)) => x.is_same(y),
        (ASN1Value::OctetString(x), ASN1Value::OctetString(y)) => x.is_same(y),
        (
            ASN1Value::EnumeratedValue {
                enumerated: x0,
                enumerable: x1,
            },
            ASN1Value::EnumeratedValue {
                enumerated: y0,
                enumerable: y1,
            },
        ) => x0.is_same(y0) && x1.is_same(y1),
        (ASN1Value::Time(x), ASN1Value::Time(y)) => x.is_same(y),
        (
            ASN1Value::ElsewhereDeclaredValue {
                parent: x0,
                identifier: x1,
            },
            ASN1Value::ElsewhereDeclaredValue {
                parent: y0,
                identifier: y1,
            },
        ) => x0.is_same(y0) && x1.is_same(y1),
        (ASN1Value::ObjectIdentifier(x), ASN1Value::ObjectIdentifier(y)) => x.is_same(y),
        (
            ASN1Value::LinkedNestedValue {
                supertypes: x0,
                value: x1,
            },
            ASN1Value::LinkedNestedValue {
                supertypes: y0,
                value: y1,
            },
        ) => x0.is_same(y0) && same_asn1_value(x1.get(), y1.get()),
        (
            ASN1Value::LinkedIntValue {
                integer_type: x0,
                value: x1,
            },
            ASN1Value::LinkedIntValue {
                integer_type: y0,
                value: y1,
            },
        ) => *x0 == *y0 && *x1 == *y1,
        (ASN1Value::LinkedStructLikeValue(x), ASN1Value::LinkedStructLikeValue(y)) =>
            same_linked_fields(x, y),
        (ASN1Value::LinkedArrayLikeValue(x), ASN1Value::LinkedArrayLikeValue(y)) =>
            same_boxed_values(x, y),
        (ASN1Value::LinkedCharStringValue(x0, x1), ASN1Value::LinkedCharStringValue(y0, y1)) => *x0
            == *y0
            && x1.is_same(y1),
        (
            ASN1Value::LinkedElsewhereDefinedValue {
                parent: x0,
                identifier: x1,
                can_be_const: x2,
            },
            ASN1Value::LinkedElsewhereDefinedValue {
                parent: y0,
                identifier: y1,
                can_be_const: y2,
            },
        ) => x0.is_same(y0) && x1.is_same(y1) && *x2 == *y2,
        _ => false,
    }
}

#[cycle(comparing)]
pub(super) fn same_optional_asn1_value(left: &Option<ASN1Value>, right: &Option<ASN1Value>) -> bool
    ensures { IsTrue result ↔ (left.now ≡ right.now) }
{
    match (left, right) {
        (None, None) => true,
        (Some(x), Some(y)) => same_asn1_value(x, y),
        _ => false,
    }
}

#[cycle(comparing)]
fn same_linked_field(left: &LinkedField, right: &LinkedField) -> bool
    ensures { IsTrue result ↔ (left.now ≡ right.now) }
{
    match (&left.value, &right.value) {
        (StructLikeFieldValue::Explicit(x), StructLikeFieldValue::Explicit(y)) => left
            .name
            .is_same(&right.name)
            && same_asn1_type(&left.ty, &right.ty)
            && same_asn1_value(x.get(), y.get()),
        (StructLikeFieldValue::Implicit(x), StructLikeFieldValue::Implicit(y)) => left
            .name
            .is_same(&right.name)
            && same_asn1_type(&left.ty, &right.ty)
            && same_asn1_value(x.get(), y.get()),
        _ => false,
    }
}

#[cycle(comparing)]
fn same_named_values(
    left: &List<(Option<Text>, Box<ASN1Value>)>,
    right: &List<(Option<Text>, Box<ASN1Value>)>,
) -> bool
    ensures { IsTrue result ↔ (left.now ≡ right.now) }
{
    let (xs, ys) = (left.as_slice(), right.as_slice());
    if xs.len() != ys.len() {
        return false;
    }
    for i in 0..xs.len() {
        if !(xs[i].0.is_same(&ys[i].0) && same_asn1_value(xs[i].1.get(), ys[i].1.get())) {
            return false;
        }
    }
    true
}

#[cycle(comparing)]
fn same_boxed_values(left: &List<Box<ASN1Value>>, right: &List<Box<ASN1Value>>) -> bool
    ensures { IsTrue result ↔ (left.now ≡ right.now) }
{
    let (xs, ys) = (left.as_slice(), right.as_slice());
    if xs.len() != ys.len() {
        return false;
    }
    for i in 0..xs.len() {
        if !(same_asn1_value(xs[i].get(), ys[i].get())) {
            return false;
        }
    }
    true
}

#[cycle(comparing)]
fn same_linked_fields(left: &List<LinkedField>, right: &List<LinkedField>) -> bool
    ensures { IsTrue result ↔ (left.now ≡ right.now) }
{
    let (xs, ys) = (left.as_slice(), right.as_slice());
    if xs.len() != ys.len() {
        return false;
    }
    for i in 0..xs.len() {
        if !(same_linked_field(&xs[i], &ys[i])) {
            return false;
        }
    }
    true
}

impl SameTree for ASN1Value {
    fn is_same(&self, other: &Self) -> bool {
        same_asn1_value(self, other)
    }
}

impl PartialEq for ASN1Value {
    ghost use Rattle.asn_tree.specs.contracts.values.ASN1Value.{the_row};

    ghost eq = { same_by the_row.coded };

    ghost laws = { same_by-laws the_row.coded };

    fn eq(&self, other: &Self) -> bool
        ensures equal { IsTrue result ↔ (self.now ≡ other.now) }
        ensures gives { result ≡ same_by the_row.coded self.now other.now }
    {
        same(self, other)
    }
}

impl SameTree for LinkedField {
    fn is_same(&self, other: &Self) -> bool {
        same_linked_field(self, other)
    }
}

impl PartialEq for LinkedField {
    ghost use Rattle.asn_tree.specs.contracts.values.LinkedField.{the_row};

    ghost eq = { same_by the_row.coded };

    ghost laws = { same_by-laws the_row.coded };

    fn eq(&self, other: &Self) -> bool
        ensures equal { IsTrue result ↔ (self.now ≡ other.now) }
        ensures gives { result ≡ same_by the_row.coded self.now other.now }
    {
        same(self, other)
    }
}
