//! Equality of classes, objects and their fields.

ghost use Rattle.asn_tree_equality.specs.Equality.{same_by, same_by-laws};
ghost use Rattle.std.specs.Prelude.{◌≡◌, ◌↔◌, IsTrue};

use crate::equality::constraints::same_constraints;
use crate::equality::types::same_asn1_type;
use crate::equality::values::same_asn1_value;
use crate::objects::{
    ASN1Information, ClassLink, InformationObject, InformationObjectClass,
    InformationObjectClassField, InformationObjectField, InformationObjectFields, ObjectSetValue,
    SyntaxApplication,
};
use asn_memory::List;
use asn_tree_equality::{SameTree, same};

impl SameTree for ClassLink {
    fn is_same(&self, other: &Self) -> bool {
        match (self, other) {
            (ClassLink::ByName(left), ClassLink::ByName(right)) => left.is_same(right),
            (
                ClassLink::ByReference(left_name, left_class),
                ClassLink::ByReference(right_name, right_class),
            ) => left_name.is_same(right_name) && left_class.is_same(right_class),
            _ => false,
        }
    }
}

impl PartialEq for ClassLink {
    ghost use Rattle.asn_tree.specs.contracts.objects.ClassLink.{the_row};

    ghost eq = { same_by the_row.coded };

    ghost laws = { same_by-laws the_row.coded };

    fn eq(&self, other: &Self) -> bool
        ensures equal { IsTrue result ↔ (self.now ≡ other.now) }
        ensures gives { result ≡ same_by the_row.coded self.now other.now }
    {
        same(self, other)
    }
}

impl SameTree for ASN1Information {
    fn is_same(&self, other: &Self) -> bool {
        match (self, other) {
            (ASN1Information::ObjectClass(left), ASN1Information::ObjectClass(right)) =>
                left.is_same(right),
            (ASN1Information::ObjectSet(left), ASN1Information::ObjectSet(right)) => left.is_same(
                right,
            ),
            (ASN1Information::Object(left), ASN1Information::Object(right)) => left.is_same(right),
            _ => false,
        }
    }
}

impl PartialEq for ASN1Information {
    ghost use Rattle.asn_tree.specs.contracts.objects.ASN1Information.{the_row};

    ghost eq = { same_by the_row.coded };

    ghost laws = { same_by-laws the_row.coded };

    fn eq(&self, other: &Self) -> bool
        ensures equal { IsTrue result ↔ (self.now ≡ other.now) }
        ensures gives { result ≡ same_by the_row.coded self.now other.now }
    {
        same(self, other)
    }
}

impl SameTree for InformationObjectClass {
    fn is_same(&self, other: &Self) -> bool {
        self.fields.is_same(&other.fields) && self.syntax.is_same(&other.syntax)
    }
}

impl PartialEq for InformationObjectClass {
    ghost use Rattle.asn_tree.specs.contracts.objects.InformationObjectClass.{the_row};

    ghost eq = { same_by the_row.coded };

    ghost laws = { same_by-laws the_row.coded };

    fn eq(&self, other: &Self) -> bool
        ensures equal { IsTrue result ↔ (self.now ≡ other.now) }
        ensures gives { result ≡ same_by the_row.coded self.now other.now }
    {
        same(self, other)
    }
}

impl SameTree for InformationObjectClassField {
    fn is_same(&self, other: &Self) -> bool {
        self.identifier.is_same(&other.identifier)
            && self.ty.is_same(&other.ty)
            && self.is_optional == other.is_optional
            && self.default.is_same(&other.default)
            && self.is_unique == other.is_unique
    }
}

impl PartialEq for InformationObjectClassField {
    ghost use Rattle.asn_tree.specs.contracts.objects.InformationObjectClassField.{the_row};

    ghost eq = { same_by the_row.coded };

    ghost laws = { same_by-laws the_row.coded };

    fn eq(&self, other: &Self) -> bool
        ensures equal { IsTrue result ↔ (self.now ≡ other.now) }
        ensures gives { result ≡ same_by the_row.coded self.now other.now }
    {
        same(self, other)
    }
}

impl SameTree for InformationObject {
    fn is_same(&self, other: &Self) -> bool {
        self.class_name.is_same(&other.class_name) && self.fields.is_same(&other.fields)
    }
}

impl PartialEq for InformationObject {
    ghost use Rattle.asn_tree.specs.contracts.objects.InformationObject.{the_row};

    ghost eq = { same_by the_row.coded };

    ghost laws = { same_by-laws the_row.coded };

    fn eq(&self, other: &Self) -> bool
        ensures equal { IsTrue result ↔ (self.now ≡ other.now) }
        ensures gives { result ≡ same_by the_row.coded self.now other.now }
    {
        same(self, other)
    }
}

#[cycle(comparing)]
pub(super) fn same_information_object_fields(
    left: &InformationObjectFields,
    right: &InformationObjectFields,
) -> bool
    ensures { IsTrue result ↔ (left.now ≡ right.now) }
{
    match (left, right) {
        (InformationObjectFields::DefaultSyntax(x), InformationObjectFields::DefaultSyntax(y)) =>
            same_object_fields(x, y),
        (InformationObjectFields::CustomSyntax(x), InformationObjectFields::CustomSyntax(y)) =>
            same_syntax_applications(x, y),
        _ => false,
    }
}

#[cycle(comparing)]
fn same_information_object_field(
    left: &InformationObjectField,
    right: &InformationObjectField,
) -> bool
    ensures { IsTrue result ↔ (left.now ≡ right.now) }
{
    match (left, right) {
        (InformationObjectField::TypeField(x), InformationObjectField::TypeField(y)) => x
            .identifier
            .is_same(&y.identifier)
            && same_asn1_type(&x.ty, &y.ty),
        (InformationObjectField::FixedValueField(x), InformationObjectField::FixedValueField(y)) =>
            x.identifier.is_same(&y.identifier) && same_asn1_value(&x.value, &y.value),
        (InformationObjectField::ObjectSetField(x), InformationObjectField::ObjectSetField(y)) => x
            .identifier
            .is_same(&y.identifier)
            && same_object_set_values(&x.value.values, &y.value.values)
            && x.value.extensible == y.value.extensible,
        _ => false,
    }
}

#[cycle(comparing)]
fn same_syntax_application(left: &SyntaxApplication, right: &SyntaxApplication) -> bool
    ensures { IsTrue result ↔ (left.now ≡ right.now) }
{
    match (left, right) {
        (SyntaxApplication::ObjectSetDeclaration(x), SyntaxApplication::ObjectSetDeclaration(y)) =>
            same_object_set_values(&x.values, &y.values) && x.extensible == y.extensible,
        (SyntaxApplication::ValueReference(x), SyntaxApplication::ValueReference(y)) =>
            same_asn1_value(x, y),
        (SyntaxApplication::TypeReference(x), SyntaxApplication::TypeReference(y)) =>
            same_asn1_type(x, y),
        (SyntaxApplication::Comma, SyntaxApplication::Comma) => true,
        (SyntaxApplication::Literal(x), SyntaxApplication::Literal(y)) => x.is_same(y),
        (
            SyntaxApplication::LiteralOrTypeReference(x),
            SyntaxApplication::LiteralOrTypeReference(y),
        ) => x.parent.is_same(&y.parent)
            && x.identifier.is_same(&y.identifier)
            && same_constraints(&x.constraints, &y.constraints),
        _ => false,
    }
}

#[cycle(comparing)]
pub(super) fn same_object_set_values(
    left: &List<ObjectSetValue>,
    right: &List<ObjectSetValue>,
) -> bool
    ensures { IsTrue result ↔ (left.now ≡ right.now) }
{
    let (xs, ys) = (left.as_slice(), right.as_slice());
    if xs.len() != ys.len() {
        return false;
    }
    for i in 0..xs.len() {
        match (&xs[i], &ys[i]) {
            (ObjectSetValue::Reference(x), ObjectSetValue::Reference(y)) => {
                if !x.is_same(y) {
                    return false;
                }
            }
            (ObjectSetValue::Inline(x), ObjectSetValue::Inline(y)) => {
                if !same_information_object_fields(x, y) {
                    return false;
                }
            }
            _ => return false,
        }
    }
    true
}

#[cycle(comparing)]
fn same_object_fields(
    left: &List<InformationObjectField>,
    right: &List<InformationObjectField>,
) -> bool
    ensures { IsTrue result ↔ (left.now ≡ right.now) }
{
    let (xs, ys) = (left.as_slice(), right.as_slice());
    if xs.len() != ys.len() {
        return false;
    }
    for i in 0..xs.len() {
        if !(same_information_object_field(&xs[i], &ys[i])) {
            return false;
        }
    }
    true
}

#[cycle(comparing)]
fn same_syntax_applications(left: &List<SyntaxApplication>, right: &List<SyntaxApplication>) -> bool
    ensures { IsTrue result ↔ (left.now ≡ right.now) }
{
    let (xs, ys) = (left.as_slice(), right.as_slice());
    if xs.len() != ys.len() {
        return false;
    }
    for i in 0..xs.len() {
        if !(same_syntax_application(&xs[i], &ys[i])) {
            return false;
        }
    }
    true
}

impl SameTree for InformationObjectFields {
    fn is_same(&self, other: &Self) -> bool {
        same_information_object_fields(self, other)
    }
}

impl PartialEq for InformationObjectFields {
    ghost use Rattle.asn_tree.specs.contracts.objects.InformationObjectFields.{the_row};

    ghost eq = { same_by the_row.coded };

    ghost laws = { same_by-laws the_row.coded };

    fn eq(&self, other: &Self) -> bool
        ensures equal { IsTrue result ↔ (self.now ≡ other.now) }
        ensures gives { result ≡ same_by the_row.coded self.now other.now }
    {
        same(self, other)
    }
}

impl SameTree for InformationObjectField {
    fn is_same(&self, other: &Self) -> bool {
        same_information_object_field(self, other)
    }
}

impl PartialEq for InformationObjectField {
    ghost use Rattle.asn_tree.specs.contracts.objects.InformationObjectField.{the_row};

    ghost eq = { same_by the_row.coded };

    ghost laws = { same_by-laws the_row.coded };

    fn eq(&self, other: &Self) -> bool
        ensures equal { IsTrue result ↔ (self.now ≡ other.now) }
        ensures gives { result ≡ same_by the_row.coded self.now other.now }
    {
        same(self, other)
    }
}

impl SameTree for SyntaxApplication {
    fn is_same(&self, other: &Self) -> bool {
        same_syntax_application(self, other)
    }
}

impl PartialEq for SyntaxApplication {
    ghost use Rattle.asn_tree.specs.contracts.objects.SyntaxApplication.{the_row};

    ghost eq = { same_by the_row.coded };

    ghost laws = { same_by-laws the_row.coded };

    fn eq(&self, other: &Self) -> bool
        ensures equal { IsTrue result ↔ (self.now ≡ other.now) }
        ensures gives { result ≡ same_by the_row.coded self.now other.now }
    {
        same(self, other)
    }
}
