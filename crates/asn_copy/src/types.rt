//! Copies of types that are generic in what they hold, and of components.

ghost use Rattle.std.specs.Prelude.{◌≡◌, IfOk};

use asn_copy_linked::{
    both, copy_constraints, copy_distinguished_values, copy_enumeral, copy_list,
    copy_optional_text, copy_sequence_or_set_member, copy_text,
};
use asn_memory::Mem;
use asn_tree::{
    BitString, Boolean, CharacterString, DeclarationElsewhere, Enumeral, Enumerated,
    GeneralizedTime, Integer, ObjectIdentifier, OctetString, Real, SequenceComponent, Time,
    UTCTime,
};
use std::alloc::Global;

/// A copy of a component of a SEQUENCE or SET.
///
/// Err: want of memory.
pub fn copy_sequence_component(alloc: Global, value: &SequenceComponent) -> Mem<SequenceComponent>
    ensures { IfOk result (λ copy. copy ≡ value.now) }
{
    match value {
        SequenceComponent::Member(member) => Ok(SequenceComponent::Member(
            copy_sequence_or_set_member(alloc, member)?,
        )),
        SequenceComponent::ComponentsOf(name) => {
            Ok(SequenceComponent::ComponentsOf(copy_text(alloc, name)?))
        }
    }
}

/// A copy of a BOOLEAN.
///
/// Err: want of memory.
pub fn copy_boolean(alloc: Global, value: &Boolean) -> Mem<Boolean>
    ensures { IfOk result (λ copy. copy ≡ value.now) }
{
    Ok(Boolean {
        constraints: copy_constraints(alloc, &value.constraints)?,
    })
}

/// A copy of an INTEGER.
///
/// Err: want of memory.
pub fn copy_integer(alloc: Global, value: &Integer) -> Mem<Integer>
    ensures { IfOk result (λ copy. copy ≡ value.now) }
{
    let (constraints, distinguished_values) = both(
        copy_constraints(alloc, &value.constraints),
        copy_distinguished_values(alloc, &value.distinguished_values),
    )?;
    Ok(Integer {
        constraints,
        distinguished_values,
    })
}

/// A copy of a REAL.
///
/// Err: want of memory.
pub fn copy_real(alloc: Global, value: &Real) -> Mem<Real>
    ensures { IfOk result (λ copy. copy ≡ value.now) }
{
    Ok(Real {
        constraints: copy_constraints(alloc, &value.constraints)?,
    })
}

/// A copy of a GeneralizedTime.
///
/// Err: want of memory.
pub fn copy_generalized_time(alloc: Global, value: &GeneralizedTime) -> Mem<GeneralizedTime>
    ensures { IfOk result (λ copy. copy ≡ value.now) }
{
    Ok(GeneralizedTime {
        constraints: copy_constraints(alloc, &value.constraints)?,
    })
}

/// A copy of a UTCTime.
///
/// Err: want of memory.
pub fn copy_utc_time(alloc: Global, value: &UTCTime) -> Mem<UTCTime>
    ensures { IfOk result (λ copy. copy ≡ value.now) }
{
    Ok(UTCTime {
        constraints: copy_constraints(alloc, &value.constraints)?,
    })
}

/// A copy of a TIME.
///
/// Err: want of memory.
pub fn copy_time(alloc: Global, value: &Time) -> Mem<Time>
    ensures { IfOk result (λ copy. copy ≡ value.now) }
{
    Ok(Time {
        constraints: copy_constraints(alloc, &value.constraints)?,
    })
}

/// A copy of an OCTET STRING.
///
/// Err: want of memory.
pub fn copy_octet_string(alloc: Global, value: &OctetString) -> Mem<OctetString>
    ensures { IfOk result (λ copy. copy ≡ value.now) }
{
    Ok(OctetString {
        constraints: copy_constraints(alloc, &value.constraints)?,
    })
}

/// A copy of a BIT STRING.
///
/// Err: want of memory.
pub fn copy_bit_string(alloc: Global, value: &BitString) -> Mem<BitString>
    ensures { IfOk result (λ copy. copy ≡ value.now) }
{
    let (constraints, distinguished_values) = both(
        copy_constraints(alloc, &value.constraints),
        copy_distinguished_values(alloc, &value.distinguished_values),
    )?;
    Ok(BitString {
        constraints,
        distinguished_values,
    })
}

/// A copy of an OBJECT IDENTIFIER.
///
/// Err: want of memory.
pub fn copy_object_identifier(alloc: Global, value: &ObjectIdentifier) -> Mem<ObjectIdentifier>
    ensures { IfOk result (λ copy. copy ≡ value.now) }
{
    Ok(ObjectIdentifier {
        constraints: copy_constraints(alloc, &value.constraints)?,
    })
}

/// A copy of a character string type.
///
/// Err: want of memory.
pub fn copy_character_string(alloc: Global, value: &CharacterString) -> Mem<CharacterString>
    ensures { IfOk result (λ copy. copy ≡ value.now) }
{
    Ok(CharacterString {
        constraints: copy_constraints(alloc, &value.constraints)?,
        ty: value.ty,
    })
}

// A copy of an item of an ENUMERATED. A function of this crate, since the copy of another can't be handed over.
fn copy_item(alloc: Global, value: &Enumeral) -> Mem<Enumeral>
    ensures { IfOk result (λ copy. copy ≡ value.now) }
{
    copy_enumeral(alloc, value)
}

/// A copy of an ENUMERATED.
///
/// Err: want of memory.
pub fn copy_enumerated(alloc: Global, value: &Enumerated) -> Mem<Enumerated>
    ensures { IfOk result (λ copy. copy ≡ value.now) }
{
    let (members, constraints) = both(
        copy_list(alloc, &value.members, copy_item),
        copy_constraints(alloc, &value.constraints),
    )?;
    Ok(Enumerated {
        members,
        extensible: value.extensible,
        constraints,
    })
}

/// A copy of a type reference.
///
/// Err: want of memory.
pub fn copy_declaration_elsewhere(
    alloc: Global,
    value: &DeclarationElsewhere,
) -> Mem<DeclarationElsewhere>
    ensures { IfOk result (λ copy. copy ≡ value.now) }
{
    let ((parent, identifier), constraints) = both(
        both(
            copy_optional_text(alloc, &value.parent),
            copy_text(alloc, &value.identifier),
        ),
        copy_constraints(alloc, &value.constraints),
    )?;
    Ok(DeclarationElsewhere {
        parent,
        identifier,
        constraints,
    })
}
