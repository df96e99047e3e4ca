//! Copies of values.

ghost use Rattle.std.specs.Prelude.{◌≡◌, IfOk};

use crate::headers::{copy_object_identifier_value, copy_optional_text, copy_text};
use crate::lists::{copy_list, copy_plain};
use crate::parts::{both, boxed};
use crate::types::copy_asn1_type;
use asn_memory::{Box, List, Mem, Text};
use asn_tree::{ASN1Value, LinkedField, StructLikeFieldValue};
use std::alloc::Global;

/// A copy of a value.
///
/// Err: want of memory.
#[cycle(copying)]
pub fn copy_asn1_value(alloc: Global, value: &ASN1Value) -> Mem<ASN1Value>
    ensures { IfOk result (λ copy. copy ≡ value.now) }
{
    match value {
        ASN1Value::All => Ok(ASN1Value::All),
        ASN1Value::Null => Ok(ASN1Value::Null),
        ASN1Value::Boolean(truth) => Ok(ASN1Value::Boolean(*truth)),
        ASN1Value::Choice {
            type_name,
            variant_name,
            inner_value,
        } => {
            let ((type_name, variant_name), inner_value) = both(
                both(
                    copy_optional_text(alloc, type_name),
                    copy_text(alloc, variant_name),
                ),
                boxed(alloc, copy_asn1_value(alloc, inner_value.get())),
            )?;
            Ok(ASN1Value::Choice {
                type_name,
                variant_name,
                inner_value,
            })
        }
        ASN1Value::SequenceOrSet(items) => {
            Ok(ASN1Value::SequenceOrSet(copy_named_values(alloc, items)?))
        }
        ASN1Value::Integer(number) => Ok(ASN1Value::Integer(*number)),
        ASN1Value::Real(number) => Ok(ASN1Value::Real(*number)),
        ASN1Value::String(text) => Ok(ASN1Value::String(copy_text(alloc, text)?)),
        ASN1Value::BitString(bits) => Ok(ASN1Value::BitString(copy_list(alloc, bits, copy_plain)?)),
        ASN1Value::BitStringNamedBits(names) => {
            Ok(ASN1Value::BitStringNamedBits(copy_list(alloc, names, copy_text)?))
        }
        ASN1Value::OctetString(octets) => Ok(ASN1Value::OctetString(copy_list(
            alloc, octets, copy_plain,
        )?)),
        ASN1Value::EnumeratedValue {
            enumerated,
            enumerable,
        } => {
            let (enumerated, enumerable) = both(
                copy_text(alloc, enumerated),
                copy_text(alloc, enumerable),
            )?;
            Ok(ASN1Value::EnumeratedValue {
                enumerated,
                enumerable,
            })
        }
        ASN1Value::Time(text) => Ok(ASN1Value::Time(copy_text(alloc, text)?)),
        ASN1Value::ElsewhereDeclaredValue { parent, identifier } => {
            let (parent, identifier) = both(
                copy_optional_text(alloc, parent),
                copy_text(alloc, identifier),
            )?;
            Ok(ASN1Value::ElsewhereDeclaredValue { parent, identifier })
        }
        ASN1Value::ObjectIdentifier(oid) => Ok(ASN1Value::ObjectIdentifier(
            copy_object_identifier_value(alloc, oid)?,
        )),
        ASN1Value::LinkedNestedValue { supertypes, value } => {
            let (supertypes, value) = both(
                copy_list(alloc, supertypes, copy_text),
                boxed(alloc, copy_asn1_value(alloc, value.get())),
            )?;
            Ok(ASN1Value::LinkedNestedValue { supertypes, value })
        }
        ASN1Value::LinkedIntValue {
            integer_type,
            value,
        } => Ok(ASN1Value::LinkedIntValue {
            integer_type: *integer_type,
            value: *value,
        }),
        ASN1Value::LinkedStructLikeValue(fields) => Ok(ASN1Value::LinkedStructLikeValue(
            copy_linked_fields(alloc, fields)?,
        )),
        ASN1Value::LinkedArrayLikeValue(elements) => Ok(ASN1Value::LinkedArrayLikeValue(
            copy_boxed_values(alloc, elements)?,
        )),
        ASN1Value::LinkedCharStringValue(ty, text) => {
            Ok(ASN1Value::LinkedCharStringValue(*ty, copy_text(alloc, text)?))
        }
        ASN1Value::LinkedElsewhereDefinedValue {
            parent,
            identifier,
            can_be_const,
        } => {
            let (parent, identifier) = both(
                copy_optional_text(alloc, parent),
                copy_text(alloc, identifier),
            )?;
            Ok(ASN1Value::LinkedElsewhereDefinedValue {
                parent,
                identifier,
                can_be_const: *can_be_const,
            })
        }
    }
}

/// A copy of a value that may be absent.
///
/// Err: want of memory.
#[cycle(copying)]
pub fn copy_optional_value(alloc: Global, value: &Option<ASN1Value>) -> Mem<Option<ASN1Value>>
    ensures { IfOk result (λ copy. copy ≡ value.now) }
{
    match value {
        Some(value) => Ok(Some(copy_asn1_value(alloc, value)?)),
        None => Ok(None),
    }
}

#[cycle(copying)]
fn copy_named_values(
    alloc: Global,
    items: &List<(Option<Text>, Box<ASN1Value>)>,
) -> Mem<List<(Option<Text>, Box<ASN1Value>)>>
    ensures { IfOk result (λ copy. copy ≡ items.now) }
{
    let mut copies = List::new(alloc);
    for item in items.as_slice() {
        copies.add(both(
            copy_optional_text(alloc, &item.0),
            boxed(alloc, copy_asn1_value(alloc, item.1.get())),
        )?)?;
    }
    Ok(copies)
}

#[cycle(copying)]
fn copy_boxed_values(alloc: Global, elements: &List<Box<ASN1Value>>) -> Mem<List<Box<ASN1Value>>>
    ensures { IfOk result (λ copy. copy ≡ elements.now) }
{
    let mut copies = List::new(alloc);
    for element in elements.as_slice() {
        copies.add(boxed(alloc, copy_asn1_value(alloc, element.get()))?)?;
    }
    Ok(copies)
}

#[cycle(copying)]
fn copy_linked_fields(alloc: Global, fields: &List<LinkedField>) -> Mem<List<LinkedField>>
    ensures { IfOk result (λ copy. copy ≡ fields.now) }
{
    let mut copies = List::new(alloc);
    for field in fields.as_slice() {
        copies.add(copy_linked_field(alloc, field)?)?;
    }
    Ok(copies)
}

/// A copy of a field of a value under a SEQUENCE or SET.
///
/// Err: want of memory.
#[cycle(copying)]
pub fn copy_linked_field(alloc: Global, value: &LinkedField) -> Mem<LinkedField>
    ensures { IfOk result (λ copy. copy ≡ value.now) }
{
    match &value.value {
        StructLikeFieldValue::Explicit(inner) => {
            let ((name, ty), inner) = both(
                both(
                    copy_text(alloc, &value.name),
                    copy_asn1_type(alloc, &value.ty),
                ),
                boxed(alloc, copy_asn1_value(alloc, inner.get())),
            )?;
            Ok(LinkedField {
                name,
                ty,
                value: StructLikeFieldValue::Explicit(inner),
            })
        }
        StructLikeFieldValue::Implicit(inner) => {
            let ((name, ty), inner) = both(
                both(
                    copy_text(alloc, &value.name),
                    copy_asn1_type(alloc, &value.ty),
                ),
                boxed(alloc, copy_asn1_value(alloc, inner.get())),
            )?;
            Ok(LinkedField {
                name,
                ty,
                value: StructLikeFieldValue::Implicit(inner),
            })
        }
    }
}
