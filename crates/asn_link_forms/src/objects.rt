//! Objects and object sets (X.681 clauses 11 and 12).

ghost use Rattle.asn_link_forms.specs.Forms.{in_given, in_item, in_object, in_objects, is_any};
ghost use Rattle.std.specs.Prelude.{◌≡◌, map};

use crate::constraints::in_constraints;
use crate::forms::{Form, Position};
use crate::types::in_type;
use asn_tree::{
    InformationObjectField, InformationObjectFields, ObjectSetValue, SyntaxApplication,
};

/// Whether the form stands in one of these items of an object set: in an object that is written out (X.681 12.3).
#[cycle(looking)]
pub(crate) fn in_objects(form: Form, items: &[ObjectSetValue]) -> bool
    ensures { result ≡ in_objects form items.now }
{
    let mut found = false;
    for item in items {
        match item {
            ObjectSetValue::Reference(_) => (),
            ObjectSetValue::Inline(fields) => found = found | in_object(form, fields),
        }
    }
    found
}

/// Whether it stands in what an object gives (X.681 11.4).
#[cycle(looking)]
pub(crate) fn in_object(form: Form, fields: &InformationObjectFields) -> bool
    ensures { result ≡ in_object form fields.now }
{
    match fields {
        InformationObjectFields::DefaultSyntax(fields) => in_each_given(form, fields.as_slice()),
        InformationObjectFields::CustomSyntax(items) => in_items(form, items.as_slice()),
    }
}

/// Whether it stands in one of these fields.
#[cycle(looking)]
fn in_each_given(form: Form, fields: &[InformationObjectField]) -> bool
    ensures { result ≡ is_any (map (in_given form) fields.now) }
{
    let mut found = false;
    for field in fields {
        found = found | in_given(form, field);
    }
    found
}

/// Whether it stands in a field that an object gives by its name (X.681 11.5). A value holds no type.
#[cycle(looking)]
fn in_given(form: Form, field: &InformationObjectField) -> bool
    ensures { result ≡ in_given form field.now }
{
    match field {
        InformationObjectField::TypeField(field) => in_type(form, &field.ty, Position::Alone),
        InformationObjectField::FixedValueField(_) => false,
        InformationObjectField::ObjectSetField(field) => {
            in_objects(form, field.value.values.as_slice())
        }
    }
}

/// Whether it stands in one of these items of a class's own syntax.
#[cycle(looking)]
fn in_items(form: Form, items: &[SyntaxApplication]) -> bool
    ensures { result ≡ is_any (map (in_item form) items.now) }
{
    let mut found = false;
    for item in items {
        found = found | in_item(form, item);
    }
    found
}

/// Whether it stands in an item of a class's own syntax (X.681 11.6).
#[cycle(looking)]
fn in_item(form: Form, item: &SyntaxApplication) -> bool
    ensures { result ≡ in_item form item.now }
{
    match item {
        SyntaxApplication::ObjectSetDeclaration(set) => in_objects(form, set.values.as_slice()),
        SyntaxApplication::ValueReference(_) => false,
        SyntaxApplication::TypeReference(ty) => in_type(form, ty, Position::Alone),
        SyntaxApplication::Comma => false,
        SyntaxApplication::Literal(_) => false,
        SyntaxApplication::LiteralOrTypeReference(name) => {
            in_constraints(form, name.constraints.as_slice())
        }
    }
}
