//! Copies of the values that linking makes, and of octets, which no text is read as. Each maker holds one tree, and no step follows
//! in it.

use crate::by_hand::comparing::{is_same, list, push_rows};
use asn_copy::{copy_asn1_value, copy_linked_field, copy_struct_like_field_value};
use asn_copy_linked::boxed;
use asn_memory::{List, Mem, Text};
use asn_tree::{
    ASN1Type, ASN1Value, CharacterStringType, IntegerType, LinkedField, StructLikeFieldValue,
};
use std::alloc::Global;

// -7, which is written.
fn written(alloc: Global) -> Mem<StructLikeFieldValue> {
    Ok(StructLikeFieldValue::Explicit(boxed(alloc, Ok(ASN1Value::Integer(-7)))?))
}

// -7, which is left out.
fn left_out(alloc: Global) -> Mem<StructLikeFieldValue> {
    Ok(StructLikeFieldValue::Implicit(boxed(alloc, Ok(ASN1Value::Integer(-7)))?))
}

// The field `a` of type NULL with the value -7, which is left out.
fn field(alloc: Global) -> Mem<LinkedField> {
    let name = Text::new(alloc, "a")?;
    let value = left_out(alloc)?;
    Ok(LinkedField {
        name,
        ty: ASN1Type::Null,
        value,
    })
}

fn is_value_of_field_copied(alloc: Global, value: Mem<StructLikeFieldValue>) -> Mem<bool> {
    let value = value?;
    is_same(copy_struct_like_field_value(alloc, &value), &value)
}

fn is_field_copied(alloc: Global) -> Mem<bool> {
    let field = field(alloc)?;
    is_same(copy_linked_field(alloc, &field), &field)
}

fn is_value_copied(alloc: Global, value: Mem<ASN1Value>) -> Mem<bool> {
    let value = value?;
    is_same(copy_asn1_value(alloc, &value), &value)
}

fn nested(alloc: Global) -> Mem<ASN1Value> {
    let supertypes = list(alloc, Text::new(alloc, "A"))?;
    let value = boxed(alloc, Ok(ASN1Value::Null))?;
    Ok(ASN1Value::LinkedNestedValue { supertypes, value })
}

fn number() -> Mem<ASN1Value> {
    Ok(ASN1Value::LinkedIntValue {
        integer_type: IntegerType::Int8,
        value: -7,
    })
}

fn fields(alloc: Global) -> Mem<ASN1Value> {
    Ok(ASN1Value::LinkedStructLikeValue(list(alloc, field(alloc))?))
}

fn elements(alloc: Global) -> Mem<ASN1Value> {
    let element = boxed(alloc, Ok(ASN1Value::Null));
    Ok(ASN1Value::LinkedArrayLikeValue(list(alloc, element)?))
}

fn characters(alloc: Global) -> Mem<ASN1Value> {
    Ok(ASN1Value::LinkedCharStringValue(CharacterStringType::IA5String, Text::new(alloc, "a")?))
}

fn elsewhere(alloc: Global) -> Mem<ASN1Value> {
    Ok(ASN1Value::LinkedElsewhereDefinedValue {
        parent: None,
        identifier: Text::new(alloc, "a")?,
        can_be_const: true,
    })
}

fn item(alloc: Global) -> Mem<ASN1Value> {
    let enumerated = Text::new(alloc, "Colour")?;
    let enumerable = Text::new(alloc, "red")?;
    Ok(ASN1Value::EnumeratedValue {
        enumerated,
        enumerable,
    })
}

// `a : NULL` of the CHOICE `C`.
fn chosen(alloc: Global) -> Mem<ASN1Value> {
    let type_name = Text::new(alloc, "C")?;
    let variant_name = Text::new(alloc, "a")?;
    let inner_value = boxed(alloc, Ok(ASN1Value::Null))?;
    Ok(ASN1Value::Choice {
        type_name: Some(type_name),
        variant_name,
        inner_value,
    })
}

fn octets(alloc: Global) -> Mem<ASN1Value> {
    Ok(ASN1Value::OctetString(List::of(alloc, 255)?))
}

/// Writes whether each value is copied.
///
/// Err: want of memory.
pub(crate) fn write_rows(alloc: Global, out: &mut Text) -> Mem<()> {
    push_rows(
        out,
        &[
            (
                "an explicit value",
                is_value_of_field_copied(alloc, written(alloc)),
            ),
            (
                "an implicit value",
                is_value_of_field_copied(alloc, left_out(alloc)),
            ),
            ("a field", is_field_copied(alloc)),
            ("a nested value", is_value_copied(alloc, nested(alloc))),
            ("a number", is_value_copied(alloc, number())),
            ("fields", is_value_copied(alloc, fields(alloc))),
            ("elements", is_value_copied(alloc, elements(alloc))),
            ("characters", is_value_copied(alloc, characters(alloc))),
            ("a name", is_value_copied(alloc, elsewhere(alloc))),
            ("an item", is_value_copied(alloc, item(alloc))),
            ("an alternative", is_value_copied(alloc, chosen(alloc))),
            ("octets", is_value_copied(alloc, octets(alloc))),
        ],
    )
}
