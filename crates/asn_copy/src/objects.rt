//! Copies of single fields of objects, and of items of object sets.

ghost use Rattle.std.specs.Prelude.{◌≡◌, IfOk};

use asn_copy_linked::{
    both, copy_asn1_type, copy_asn1_value, copy_constraints, copy_information_object_fields,
    copy_list, copy_object_field_identifier, copy_object_set, copy_text,
};
use asn_memory::Mem;
use asn_tree::{
    FixedValueField, InformationObjectFieldReference, ObjectFieldIdentifier, ObjectSetField,
    ObjectSetValue, TypeField,
};
use std::alloc::Global;

/// A copy of an item of an object set.
///
/// Err: want of memory.
pub fn copy_object_set_value(alloc: Global, value: &ObjectSetValue) -> Mem<ObjectSetValue>
    ensures { IfOk result (λ copy. copy ≡ value.now) }
{
    match value {
        ObjectSetValue::Reference(name) => Ok(ObjectSetValue::Reference(copy_text(alloc, name)?)),
        ObjectSetValue::Inline(fields) => Ok(ObjectSetValue::Inline(copy_information_object_fields(
            alloc, fields,
        )?)),
    }
}

/// A copy of a field that is a value.
///
/// Err: want of memory.
pub fn copy_fixed_value_field(alloc: Global, value: &FixedValueField) -> Mem<FixedValueField>
    ensures { IfOk result (λ copy. copy ≡ value.now) }
{
    let (identifier, value) = both(
        copy_text(alloc, &value.identifier),
        copy_asn1_value(alloc, &value.value),
    )?;
    Ok(FixedValueField { identifier, value })
}

/// A copy of a field that is a type.
///
/// Err: want of memory.
pub fn copy_type_field(alloc: Global, value: &TypeField) -> Mem<TypeField>
    ensures { IfOk result (λ copy. copy ≡ value.now) }
{
    let (identifier, ty) = both(
        copy_text(alloc, &value.identifier),
        copy_asn1_type(alloc, &value.ty),
    )?;
    Ok(TypeField { identifier, ty })
}

/// A copy of a field that is an object set.
///
/// Err: want of memory.
pub fn copy_object_set_field(alloc: Global, value: &ObjectSetField) -> Mem<ObjectSetField>
    ensures { IfOk result (λ copy. copy ≡ value.now) }
{
    let (identifier, value) = both(
        copy_text(alloc, &value.identifier),
        copy_object_set(alloc, &value.value),
    )?;
    Ok(ObjectSetField { identifier, value })
}

// A copy of one name of a path of fields. A function of this crate, since the copy of another can't be handed over.
fn copy_step(alloc: Global, value: &ObjectFieldIdentifier) -> Mem<ObjectFieldIdentifier>
    ensures { IfOk result (λ copy. copy ≡ value.now) }
{
    copy_object_field_identifier(alloc, value)
}

/// A copy of the type of a class's field.
///
/// Err: want of memory.
pub fn copy_information_object_field_reference(
    alloc: Global,
    value: &InformationObjectFieldReference,
) -> Mem<InformationObjectFieldReference>
    ensures { IfOk result (λ copy. copy ≡ value.now) }
{
    let ((class, field_path), constraints) = both(
        both(
            copy_text(alloc, &value.class),
            copy_list(alloc, &value.field_path, copy_step),
        ),
        copy_constraints(alloc, &value.constraints),
    )?;
    Ok(InformationObjectFieldReference {
        class,
        field_path,
        constraints,
    })
}
