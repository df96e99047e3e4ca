//! Copies of classes, objects and object sets.

ghost use Rattle.std.specs.Prelude.{◌≡◌, IfOk};

use crate::constraints::copy_constraints;
use crate::headers::{copy_optional_text, copy_text};
use crate::lists::{copy_list, copy_optional};
use crate::parts::both;
use crate::types::copy_asn1_type;
use crate::values::{copy_asn1_value, copy_optional_value};
use asn_memory::{List, Mem};
use asn_tree::{
    ASN1Information, ClassLink, DeclarationElsewhere, FixedValueField, InformationObject,
    InformationObjectClass, InformationObjectClassField, InformationObjectField,
    InformationObjectFields, InformationObjectSyntax, ObjectFieldIdentifier, ObjectSet,
    ObjectSetField, ObjectSetValue, SyntaxApplication, SyntaxExpression, SyntaxToken, TypeField,
};
use std::alloc::Global;

/// A copy of the name of a field.
///
/// Err: want of memory.
pub fn copy_object_field_identifier(
    alloc: Global,
    value: &ObjectFieldIdentifier,
) -> Mem<ObjectFieldIdentifier>
    ensures { IfOk result (λ copy. copy ≡ value.now) }
{
    match value {
        ObjectFieldIdentifier::SingleValue(name) => {
            Ok(ObjectFieldIdentifier::SingleValue(copy_text(alloc, name)?))
        }
        ObjectFieldIdentifier::MultipleValue(name) => {
            Ok(ObjectFieldIdentifier::MultipleValue(copy_text(alloc, name)?))
        }
    }
}

/// A copy of how an object gives its fields.
///
/// Err: want of memory.
#[cycle(copying)]
pub fn copy_information_object_fields(
    alloc: Global,
    value: &InformationObjectFields,
) -> Mem<InformationObjectFields>
    ensures { IfOk result (λ copy. copy ≡ value.now) }
{
    match value {
        InformationObjectFields::DefaultSyntax(fields) => Ok(InformationObjectFields::DefaultSyntax(
            copy_object_fields(alloc, fields)?,
        )),
        InformationObjectFields::CustomSyntax(items) => Ok(InformationObjectFields::CustomSyntax(
            copy_syntax_applications(alloc, items)?,
        )),
    }
}

#[cycle(copying)]
fn copy_object_fields(
    alloc: Global,
    fields: &List<InformationObjectField>,
) -> Mem<List<InformationObjectField>>
    ensures { IfOk result (λ copy. copy ≡ fields.now) }
{
    let mut copies = List::new(alloc);
    for field in fields.as_slice() {
        copies.add(copy_information_object_field(alloc, field)?)?;
    }
    Ok(copies)
}

#[cycle(copying)]
fn copy_syntax_applications(
    alloc: Global,
    items: &List<SyntaxApplication>,
) -> Mem<List<SyntaxApplication>>
    ensures { IfOk result (λ copy. copy ≡ items.now) }
{
    let mut copies = List::new(alloc);
    for item in items.as_slice() {
        copies.add(copy_syntax_application(alloc, item)?)?;
    }
    Ok(copies)
}

/// A copy of a field that an object gives.
///
/// Err: want of memory.
#[cycle(copying)]
pub fn copy_information_object_field(
    alloc: Global,
    value: &InformationObjectField,
) -> Mem<InformationObjectField>
    ensures { IfOk result (λ copy. copy ≡ value.now) }
{
    match value {
        InformationObjectField::TypeField(field) => {
            let (identifier, ty) = both(
                copy_text(alloc, &field.identifier),
                copy_asn1_type(alloc, &field.ty),
            )?;
            Ok(InformationObjectField::TypeField(TypeField { identifier, ty }))
        }
        InformationObjectField::FixedValueField(field) => {
            let (identifier, value) = both(
                copy_text(alloc, &field.identifier),
                copy_asn1_value(alloc, &field.value),
            )?;
            Ok(InformationObjectField::FixedValueField(FixedValueField { identifier, value }))
        }
        InformationObjectField::ObjectSetField(field) => {
            let (identifier, values) = both(
                copy_text(alloc, &field.identifier),
                copy_object_set_values(alloc, &field.value.values),
            )?;
            Ok(InformationObjectField::ObjectSetField(ObjectSetField {
                identifier,
                value: ObjectSet {
                    values,
                    extensible: field.value.extensible,
                },
            }))
        }
    }
}

/// A copy of an item of an object in its class's own syntax.
///
/// Err: want of memory.
#[cycle(copying)]
pub fn copy_syntax_application(alloc: Global, value: &SyntaxApplication) -> Mem<SyntaxApplication>
    ensures { IfOk result (λ copy. copy ≡ value.now) }
{
    match value {
        SyntaxApplication::ObjectSetDeclaration(set) => {
            Ok(SyntaxApplication::ObjectSetDeclaration(ObjectSet {
                values: copy_object_set_values(alloc, &set.values)?,
                extensible: set.extensible,
            }))
        }
        SyntaxApplication::ValueReference(value) => Ok(SyntaxApplication::ValueReference(
            copy_asn1_value(alloc, value)?,
        )),
        SyntaxApplication::TypeReference(ty) => {
            Ok(SyntaxApplication::TypeReference(copy_asn1_type(alloc, ty)?))
        }
        SyntaxApplication::Comma => Ok(SyntaxApplication::Comma),
        SyntaxApplication::Literal(word) => {
            Ok(SyntaxApplication::Literal(copy_text(alloc, word)?))
        }
        SyntaxApplication::LiteralOrTypeReference(reference) => {
            let ((parent, identifier), constraints) = both(
                both(
                    copy_optional_text(alloc, &reference.parent),
                    copy_text(alloc, &reference.identifier),
                ),
                copy_constraints(alloc, &reference.constraints),
            )?;
            Ok(SyntaxApplication::LiteralOrTypeReference(DeclarationElsewhere {
                parent,
                identifier,
                constraints,
            }))
        }
    }
}

/// A copy of the items of an object set in their order.
///
/// Err: want of memory.
#[cycle(copying)]
pub fn copy_object_set_values(
    alloc: Global,
    items: &List<ObjectSetValue>,
) -> Mem<List<ObjectSetValue>>
    ensures { IfOk result (λ copy. copy ≡ items.now) }
{
    let mut copies = List::new(alloc);
    for item in items.as_slice() {
        copies.add(match item {
            ObjectSetValue::Reference(name) => ObjectSetValue::Reference(copy_text(alloc, name)?),
            ObjectSetValue::Inline(fields) => {
                ObjectSetValue::Inline(copy_information_object_fields(alloc, fields)?)
            }
        })?;
    }
    Ok(copies)
}

/// A copy of an object set.
///
/// Err: want of memory.
pub fn copy_object_set(alloc: Global, value: &ObjectSet) -> Mem<ObjectSet>
    ensures { IfOk result (λ copy. copy ≡ value.now) }
{
    Ok(ObjectSet {
        values: copy_object_set_values(alloc, &value.values)?,
        extensible: value.extensible,
    })
}

/// A copy of an object.
///
/// Err: want of memory.
pub fn copy_information_object(alloc: Global, value: &InformationObject) -> Mem<InformationObject>
    ensures { IfOk result (λ copy. copy ≡ value.now) }
{
    let (class_name, fields) = both(
        copy_text(alloc, &value.class_name),
        copy_information_object_fields(alloc, &value.fields),
    )?;
    Ok(InformationObject { class_name, fields })
}

/// A copy of a token of a class's own syntax.
///
/// Err: want of memory.
pub fn copy_syntax_token(alloc: Global, value: &SyntaxToken) -> Mem<SyntaxToken>
    ensures { IfOk result (λ copy. copy ≡ value.now) }
{
    match value {
        SyntaxToken::Literal(word) => Ok(SyntaxToken::Literal(copy_text(alloc, word)?)),
        SyntaxToken::Comma => Ok(SyntaxToken::Comma),
        SyntaxToken::Field(field) => Ok(SyntaxToken::Field(copy_object_field_identifier(
            alloc, field,
        )?)),
    }
}

/// A copy of a part of a class's own syntax.
///
/// Err: want of memory.
#[cycle(syntax)]
pub fn copy_syntax_expression(alloc: Global, value: &SyntaxExpression) -> Mem<SyntaxExpression>
    ensures { IfOk result (λ copy. copy ≡ value.now) }
{
    match value {
        SyntaxExpression::Required(token) => {
            Ok(SyntaxExpression::Required(copy_syntax_token(alloc, token)?))
        }
        SyntaxExpression::Optional(group) => {
            Ok(SyntaxExpression::Optional(copy_syntax_expressions(alloc, group)?))
        }
    }
}

#[cycle(syntax)]
fn copy_syntax_expressions(
    alloc: Global,
    group: &List<SyntaxExpression>,
) -> Mem<List<SyntaxExpression>>
    ensures { IfOk result (λ copy. copy ≡ group.now) }
{
    let mut copies = List::new(alloc);
    for expression in group.as_slice() {
        copies.add(copy_syntax_expression(alloc, expression)?)?;
    }
    Ok(copies)
}

/// A copy of the syntax in which a class's objects are written.
///
/// Err: want of memory.
pub fn copy_information_object_syntax(
    alloc: Global,
    value: &InformationObjectSyntax,
) -> Mem<InformationObjectSyntax>
    ensures { IfOk result (λ copy. copy ≡ value.now) }
{
    Ok(InformationObjectSyntax {
        expressions: copy_syntax_expressions(alloc, &value.expressions)?,
    })
}

/// A copy of a field of a class.
///
/// Err: want of memory.
pub fn copy_information_object_class_field(
    alloc: Global,
    value: &InformationObjectClassField,
) -> Mem<InformationObjectClassField>
    ensures { IfOk result (λ copy. copy ≡ value.now) }
{
    let (identifier, (ty, default)) = both(
        copy_object_field_identifier(alloc, &value.identifier),
        both(
            copy_optional(alloc, &value.ty, copy_asn1_type),
            copy_optional_value(alloc, &value.default),
        ),
    )?;
    Ok(InformationObjectClassField {
        identifier,
        ty,
        is_optional: value.is_optional,
        default,
        is_unique: value.is_unique,
    })
}

/// A copy of a class.
///
/// Err: want of memory.
pub fn copy_information_object_class(
    alloc: Global,
    value: &InformationObjectClass,
) -> Mem<InformationObjectClass>
    ensures { IfOk result (λ copy. copy ≡ value.now) }
{
    let (fields, syntax) = both(
        copy_list(alloc, &value.fields, copy_information_object_class_field),
        copy_optional(alloc, &value.syntax, copy_information_object_syntax),
    )?;
    Ok(InformationObjectClass { fields, syntax })
}

/// A copy of the class of an object or an object set.
///
/// Err: want of memory.
pub fn copy_class_link(alloc: Global, value: &ClassLink) -> Mem<ClassLink>
    ensures { IfOk result (λ copy. copy ≡ value.now) }
{
    match value {
        ClassLink::ByName(name) => Ok(ClassLink::ByName(copy_text(alloc, name)?)),
        ClassLink::ByReference(name, class) => {
            let (name, class) = both(
                copy_text(alloc, name),
                copy_information_object_class(alloc, class),
            )?;
            Ok(ClassLink::ByReference(name, class))
        }
    }
}

/// A copy of what an information definition defines.
///
/// Err: want of memory.
pub fn copy_asn1_information(alloc: Global, value: &ASN1Information) -> Mem<ASN1Information>
    ensures { IfOk result (λ copy. copy ≡ value.now) }
{
    match value {
        ASN1Information::ObjectClass(class) => Ok(ASN1Information::ObjectClass(
            copy_information_object_class(alloc, class)?,
        )),
        ASN1Information::ObjectSet(set) => {
            Ok(ASN1Information::ObjectSet(copy_object_set(alloc, set)?))
        }
        ASN1Information::Object(object) => {
            Ok(ASN1Information::Object(copy_information_object(alloc, object)?))
        }
    }
}
