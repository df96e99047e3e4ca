//! Object sets, objects and classes, made anew.

use crate::constraints::marker_of;
use asn_copy::{
    copy_asn1_type, copy_asn1_value, copy_information_object_fields, copy_object_field_identifier,
    copy_object_set, copy_syntax_expression,
};
use asn_memory::{List, Mem, Text};
use asn_tree::{
    ASN1Type, ASN1Value, InformationObjectClass, InformationObjectClassField,
    InformationObjectField, InformationObjectFields, ObjectSet, ObjectSetValue,
};
use asn_tree_kinds::{ObjectSetOver, ObjectSetValueOver};
use asn_tree_leaves::{
    InformationObjectSyntax, ObjectFieldIdentifier, OptionalMarker, SyntaxExpression, SyntaxToken,
};
use std::alloc::Global;

/// What stands before the extension marker, and what stands behind it.
pub(crate) fn halves<T>(items: &[T], marker: Option<usize>) -> (&[T], &[T]) {
    match marker {
        Some(place) if place <= items.len() => items.split_at(place),
        _ => (items, &[]),
    }
}

fn remade_item(alloc: Global, item: &ObjectSetValue) -> Mem<ObjectSetValue> {
    match item {
        ObjectSetValueOver::Reference(name) => ObjectSetValueOver::from_parts(alloc, name.as_str()),
        ObjectSetValueOver::Inline(fields) => {
            Ok(ObjectSetValueOver::from(copy_information_object_fields(alloc, fields)?))
        }
    }
}

fn remade_items(alloc: Global, items: &[ObjectSetValue]) -> Mem<List<ObjectSetValue>> {
    let mut all = List::new(alloc);
    for item in items {
        all.add(remade_item(alloc, item)?)?;
    }
    Ok(all)
}

/// The object set, made of its items.
pub(crate) fn remade_set(alloc: Global, set: &ObjectSet) -> Mem<ObjectSet> {
    let (items, additions) = halves(set.values.as_slice(), set.extensible);
    let items = remade_items(alloc, items)?;
    let additions = remade_items(alloc, additions)?;
    ObjectSetOver::from_parts(
        alloc,
        items,
        marker_of(set.extensible.is_some()),
        Some(additions),
    )
}

// ---- objects

fn value_name(alloc: Global, name: &Text) -> Mem<ObjectFieldIdentifier> {
    Ok(ObjectFieldIdentifier::SingleValue(Text::new(alloc, name.as_str())?))
}

fn type_name(alloc: Global, name: &Text) -> Mem<ObjectFieldIdentifier> {
    Ok(ObjectFieldIdentifier::MultipleValue(Text::new(alloc, name.as_str())?))
}

fn remade_field(alloc: Global, field: &InformationObjectField) -> Mem<InformationObjectField> {
    match field {
        InformationObjectField::TypeField(field) => {
            let ty = copy_asn1_type(alloc, &field.ty)?;
            Ok(InformationObjectField::from((type_name(alloc, &field.identifier)?, ty)))
        }
        InformationObjectField::FixedValueField(field) => {
            let value = copy_asn1_value(alloc, &field.value)?;
            Ok(InformationObjectField::from((value_name(alloc, &field.identifier)?, value)))
        }
        InformationObjectField::ObjectSetField(field) => {
            let set = copy_object_set(alloc, &field.value)?;
            Ok(InformationObjectField::from((type_name(alloc, &field.identifier)?, set)))
        }
    }
}

fn remade_all_fields(
    alloc: Global,
    fields: &[InformationObjectField],
) -> Mem<List<InformationObjectField>> {
    let mut all = List::new(alloc);
    for field in fields {
        all.add(remade_field(alloc, field)?)?;
    }
    Ok(all)
}

/// The fields of an object, made of their names and what they are.
pub(crate) fn remade_fields(
    alloc: Global,
    fields: &InformationObjectFields,
) -> Mem<InformationObjectFields> {
    match fields {
        InformationObjectFields::DefaultSyntax(fields) => {
            let fields = remade_all_fields(alloc, fields.as_slice())?;
            Ok(InformationObjectFields::DefaultSyntax(fields))
        }
        InformationObjectFields::CustomSyntax(_) => copy_information_object_fields(alloc, fields),
    }
}

// ---- classes

fn remade_token(alloc: Global, token: &SyntaxToken) -> Mem<SyntaxToken> {
    match token {
        SyntaxToken::Literal(word) => SyntaxToken::from_parts(alloc, word.as_str()),
        SyntaxToken::Comma => SyntaxToken::from_parts(alloc, ","),
        SyntaxToken::Field(name) => {
            Ok(SyntaxToken::from(copy_object_field_identifier(alloc, name)?))
        }
    }
}

fn remade_expression(alloc: Global, expression: &SyntaxExpression) -> Mem<SyntaxExpression> {
    match expression {
        SyntaxExpression::Required(token) => {
            Ok(SyntaxExpression::Required(remade_token(alloc, token)?))
        }
        SyntaxExpression::Optional(_) => copy_syntax_expression(alloc, expression),
    }
}

fn remade_syntax(
    alloc: Global,
    syntax: &Option<InformationObjectSyntax>,
) -> Mem<Option<List<SyntaxExpression>>> {
    match syntax {
        Some(syntax) => {
            let mut all = List::new(alloc);
            for expression in syntax.expressions.as_slice() {
                all.add(remade_expression(alloc, expression)?)?;
            }
            Ok(Some(all))
        }
        None => Ok(None),
    }
}

fn optional_type(alloc: Global, ty: &Option<ASN1Type>) -> Mem<Option<ASN1Type>> {
    match ty {
        Some(ty) => Ok(Some(copy_asn1_type(alloc, ty)?)),
        None => Ok(None),
    }
}

/// A copy of the value, where there is one.
pub(crate) fn optional_value(alloc: Global, value: &Option<ASN1Value>) -> Mem<Option<ASN1Value>> {
    match value {
        Some(value) => Ok(Some(copy_asn1_value(alloc, value)?)),
        None => Ok(None),
    }
}

fn unique_word(stands: bool) -> Option<&'static str> {
    if stands { Some("UNIQUE") } else { None }
}

fn remade_class_field(
    alloc: Global,
    field: &InformationObjectClassField,
) -> Mem<InformationObjectClassField> {
    let name = copy_object_field_identifier(alloc, &field.identifier)?;
    let ty = optional_type(alloc, &field.ty)?;
    let default = optional_value(alloc, &field.default)?;
    let optional = optional_of(field.is_optional && field.default.is_none());
    Ok(InformationObjectClassField::from((
        name,
        ty,
        unique_word(field.is_unique),
        optional,
        default,
    )))
}

/// The marker of a part that may be absent, where it stands.
pub(crate) fn optional_of(stands: bool) -> Option<OptionalMarker> {
    if stands {
        Some(OptionalMarker::from("OPTIONAL"))
    } else {
        None
    }
}

/// The class, made of its fields and its syntax.
pub(crate) fn remade_class(
    alloc: Global,
    class: &InformationObjectClass,
) -> Mem<InformationObjectClass> {
    let mut fields = List::new(alloc);
    for field in class.fields.as_slice() {
        fields.add(remade_class_field(alloc, field)?)?;
    }
    let syntax = remade_syntax(alloc, &class.syntax)?;
    Ok(InformationObjectClass::from((fields, syntax)))
}
