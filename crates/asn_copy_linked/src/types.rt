//! Copies of types.
//!
//! A struct that is generic in what it holds is copied within `copy_asn1_type` too, since the depth by which the copies
//! of trees end is that of the trees that lead back to themselves, and not of such a struct.

ghost use Rattle.std.specs.Prelude.{◌≡◌, IfOk};

use crate::constraints::copy_constraints;
use crate::headers::{copy_optional_text, copy_text};
use crate::lists::{copy_list, copy_plain};
use crate::objects::copy_object_field_identifier;
use crate::parts::{both, boxed};
use crate::values::copy_optional_value;
use asn_memory::{List, Mem};
use asn_tree::{
    ASN1Type, BitString, Boolean, CharacterString, Choice, ChoiceOption, ChoiceSelectionType,
    DeclarationElsewhere, DistinguishedValue, Enumeral, Enumerated, GeneralizedTime,
    InformationObjectFieldReference, Integer, ObjectIdentifier, OctetString, Real, SequenceOrSet,
    SequenceOrSetMember, SequenceOrSetOf, Time, UTCTime,
};
use std::alloc::Global;

/// A copy of a named number or named bit.
///
/// Err: want of memory.
pub fn copy_distinguished_value(
    alloc: Global,
    value: &DistinguishedValue,
) -> Mem<DistinguishedValue>
    ensures { IfOk result (λ copy. copy ≡ value.now) }
{
    Ok(DistinguishedValue {
        name: copy_text(alloc, &value.name)?,
        value: value.value,
    })
}

/// A copy of named numbers or named bits, which may be absent.
///
/// Err: want of memory.
pub fn copy_distinguished_values(
    alloc: Global,
    values: &Option<List<DistinguishedValue>>,
) -> Mem<Option<List<DistinguishedValue>>>
    ensures { IfOk result (λ copy. copy ≡ values.now) }
{
    match values {
        Some(values) => Ok(Some(copy_list(alloc, values, copy_distinguished_value)?)),
        None => Ok(None),
    }
}

/// A copy of an item of an ENUMERATED.
///
/// Err: want of memory.
pub fn copy_enumeral(alloc: Global, value: &Enumeral) -> Mem<Enumeral>
    ensures { IfOk result (λ copy. copy ≡ value.now) }
{
    let name = copy_text(alloc, &value.name)?;
    let description = copy_optional_text(alloc, &value.description)?;
    Ok(Enumeral {
        name,
        description,
        index: value.index,
    })
}

/// A copy of a selection type.
///
/// Err: want of memory.
pub fn copy_choice_selection_type(
    alloc: Global,
    value: &ChoiceSelectionType,
) -> Mem<ChoiceSelectionType>
    ensures { IfOk result (λ copy. copy ≡ value.now) }
{
    let choice_name = copy_text(alloc, &value.choice_name)?;
    let selected_option = copy_text(alloc, &value.selected_option)?;
    Ok(ChoiceSelectionType {
        choice_name,
        selected_option,
    })
}

/// A copy of a type.
///
/// Err: want of memory.
#[cycle(copying)]
pub fn copy_asn1_type(alloc: Global, value: &ASN1Type) -> Mem<ASN1Type>
    ensures { IfOk result (λ copy. copy ≡ value.now) }
{
    match value {
        ASN1Type::Null => Ok(ASN1Type::Null),
        ASN1Type::Boolean(boolean) => Ok(ASN1Type::Boolean(Boolean {
            constraints: copy_constraints(alloc, &boolean.constraints)?,
        })),
        ASN1Type::Integer(integer) => {
            let (constraints, distinguished_values) = both(
                copy_constraints(alloc, &integer.constraints),
                copy_distinguished_values(alloc, &integer.distinguished_values),
            )?;
            Ok(ASN1Type::Integer(Integer {
                constraints,
                distinguished_values,
            }))
        }
        ASN1Type::Real(real) => Ok(ASN1Type::Real(Real {
            constraints: copy_constraints(alloc, &real.constraints)?,
        })),
        ASN1Type::BitString(bits) => {
            let (constraints, distinguished_values) = both(
                copy_constraints(alloc, &bits.constraints),
                copy_distinguished_values(alloc, &bits.distinguished_values),
            )?;
            Ok(ASN1Type::BitString(BitString {
                constraints,
                distinguished_values,
            }))
        }
        ASN1Type::OctetString(octets) => Ok(ASN1Type::OctetString(OctetString {
            constraints: copy_constraints(alloc, &octets.constraints)?,
        })),
        ASN1Type::CharacterString(string) => Ok(ASN1Type::CharacterString(CharacterString {
            constraints: copy_constraints(alloc, &string.constraints)?,
            ty: string.ty,
        })),
        ASN1Type::Enumerated(enumerated) => {
            let (members, constraints) = both(
                copy_list(alloc, &enumerated.members, copy_enumeral),
                copy_constraints(alloc, &enumerated.constraints),
            )?;
            Ok(ASN1Type::Enumerated(Enumerated {
                members,
                extensible: enumerated.extensible,
                constraints,
            }))
        }
        ASN1Type::Choice(choice) => Ok(ASN1Type::Choice(copy_choice(alloc, choice)?)),
        ASN1Type::Sequence(sequence) => {
            Ok(ASN1Type::Sequence(copy_sequence_or_set(alloc, sequence)?))
        }
        ASN1Type::SequenceOf(list) => {
            Ok(ASN1Type::SequenceOf(copy_sequence_or_set_of(alloc, list)?))
        }
        ASN1Type::Set(set) => Ok(ASN1Type::Set(copy_sequence_or_set(alloc, set)?)),
        ASN1Type::SetOf(list) => Ok(ASN1Type::SetOf(copy_sequence_or_set_of(alloc, list)?)),
        ASN1Type::Time(time) => Ok(ASN1Type::Time(Time {
            constraints: copy_constraints(alloc, &time.constraints)?,
        })),
        ASN1Type::GeneralizedTime(time) => Ok(ASN1Type::GeneralizedTime(GeneralizedTime {
            constraints: copy_constraints(alloc, &time.constraints)?,
        })),
        ASN1Type::UTCTime(time) => Ok(ASN1Type::UTCTime(UTCTime {
            constraints: copy_constraints(alloc, &time.constraints)?,
        })),
        ASN1Type::ElsewhereDeclaredType(reference) => {
            let ((parent, identifier), constraints) = both(
                both(
                    copy_optional_text(alloc, &reference.parent),
                    copy_text(alloc, &reference.identifier),
                ),
                copy_constraints(alloc, &reference.constraints),
            )?;
            Ok(ASN1Type::ElsewhereDeclaredType(DeclarationElsewhere {
                parent,
                identifier,
                constraints,
            }))
        }
        ASN1Type::ChoiceSelectionType(selection) => Ok(ASN1Type::ChoiceSelectionType(
            copy_choice_selection_type(alloc, selection)?,
        )),
        ASN1Type::ObjectIdentifier(oid) => Ok(ASN1Type::ObjectIdentifier(ObjectIdentifier {
            constraints: copy_constraints(alloc, &oid.constraints)?,
        })),
        ASN1Type::InformationObjectFieldReference(field) => {
            let ((class, field_path), constraints) = both(
                both(
                    copy_text(alloc, &field.class),
                    copy_list(alloc, &field.field_path, copy_object_field_identifier),
                ),
                copy_constraints(alloc, &field.constraints),
            )?;
            Ok(ASN1Type::InformationObjectFieldReference(InformationObjectFieldReference {
                class,
                field_path,
                constraints,
            }))
        }
        ASN1Type::EmbeddedPdv => Ok(ASN1Type::EmbeddedPdv),
        ASN1Type::External => Ok(ASN1Type::External),
    }
}

/// A copy of a SEQUENCE OF or SET OF.
///
/// Err: want of memory.
#[cycle(copying)]
pub fn copy_sequence_or_set_of(alloc: Global, value: &SequenceOrSetOf) -> Mem<SequenceOrSetOf>
    ensures { IfOk result (λ copy. copy ≡ value.now) }
{
    let (constraints, element_type) = both(
        copy_constraints(alloc, &value.constraints),
        boxed(alloc, copy_asn1_type(alloc, value.element_type.get())),
    )?;
    Ok(SequenceOrSetOf {
        constraints,
        element_type,
        is_recursive: value.is_recursive,
    })
}

/// A copy of a SEQUENCE or SET.
///
/// Err: want of memory.
#[cycle(copying)]
pub fn copy_sequence_or_set(alloc: Global, value: &SequenceOrSet) -> Mem<SequenceOrSet>
    ensures { IfOk result (λ copy. copy ≡ value.now) }
{
    let ((components_of, components_at), (constraints, members)) = both(
        both(
            copy_list(alloc, &value.components_of, copy_text),
            copy_list(alloc, &value.components_at, copy_plain),
        ),
        both(
            copy_constraints(alloc, &value.constraints),
            copy_members(alloc, &value.members),
        ),
    )?;
    Ok(SequenceOrSet {
        components_of,
        components_at,
        extensible: value.extensible,
        constraints,
        members,
    })
}

#[cycle(copying)]
fn copy_members(
    alloc: Global,
    members: &List<SequenceOrSetMember>,
) -> Mem<List<SequenceOrSetMember>>
    ensures { IfOk result (λ copy. copy ≡ members.now) }
{
    let mut copies = List::new(alloc);
    for member in members.as_slice() {
        copies.add(copy_sequence_or_set_member(alloc, member)?)?;
    }
    Ok(copies)
}

/// A copy of a member of a SEQUENCE or SET.
///
/// Err: want of memory.
#[cycle(copying)]
pub fn copy_sequence_or_set_member(
    alloc: Global,
    value: &SequenceOrSetMember,
) -> Mem<SequenceOrSetMember>
    ensures { IfOk result (λ copy. copy ≡ value.now) }
{
    let ((name, constraints), (ty, default_value)) = both(
        both(
            copy_text(alloc, &value.name),
            copy_constraints(alloc, &value.constraints),
        ),
        both(
            copy_asn1_type(alloc, &value.ty),
            copy_optional_value(alloc, &value.default_value),
        ),
    )?;
    Ok(SequenceOrSetMember {
        name,
        tag: value.tag,
        ty,
        default_value,
        is_optional: value.is_optional,
        is_recursive: value.is_recursive,
        constraints,
    })
}

/// A copy of a CHOICE.
///
/// Err: want of memory.
#[cycle(copying)]
pub fn copy_choice(alloc: Global, value: &Choice) -> Mem<Choice>
    ensures { IfOk result (λ copy. copy ≡ value.now) }
{
    let (options, constraints) = both(
        copy_options(alloc, &value.options),
        copy_constraints(alloc, &value.constraints),
    )?;
    Ok(Choice {
        extensible: value.extensible,
        options,
        constraints,
    })
}

#[cycle(copying)]
fn copy_options(alloc: Global, options: &List<ChoiceOption>) -> Mem<List<ChoiceOption>>
    ensures { IfOk result (λ copy. copy ≡ options.now) }
{
    let mut copies = List::new(alloc);
    for option in options.as_slice() {
        copies.add(copy_choice_option(alloc, option)?)?;
    }
    Ok(copies)
}

/// A copy of an option of a CHOICE.
///
/// Err: want of memory.
#[cycle(copying)]
pub fn copy_choice_option(alloc: Global, value: &ChoiceOption) -> Mem<ChoiceOption>
    ensures { IfOk result (λ copy. copy ≡ value.now) }
{
    let ((name, ty), constraints) = both(
        both(
            copy_text(alloc, &value.name),
            copy_asn1_type(alloc, &value.ty),
        ),
        copy_constraints(alloc, &value.constraints),
    )?;
    Ok(ChoiceOption {
        name,
        tag: value.tag,
        ty,
        constraints,
        is_recursive: value.is_recursive,
    })
}
