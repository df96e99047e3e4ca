//! Types, made anew, each by the constructor of its form.

use crate::constraints::{marker_of, remade_constraints};
use crate::objects::{halves, optional_of, optional_value};
use asn_copy::{
    copy_asn1_type, copy_choice, copy_enumeral, copy_object_field_identifier, copy_sequence_or_set,
};
use asn_memory::{List, Mem, Text};
use asn_tree::{
    ASN1Type, CharacterString, CharacterStringType, Choice, ChoiceOption, DeclarationElsewhere,
    Enumerated, InformationObjectFieldReference, IntegerOver, SequenceOrSet, SequenceOrSetMember,
    SequenceOrSetOf,
};
use asn_tree_headers::{AsnTag, TagClass};
use asn_tree_kinds::{
    BitStringOver, BooleanOver, CharacterStringOver, ChoiceSelectionType, DeclarationElsewhereOver,
    DistinguishedValue, Enumeral, EnumeratedOver, InformationObjectFieldReferenceOver,
    ObjectIdentifierOver, OctetStringOver, RealOver, TimeOver,
};
use asn_tree_leaves::ObjectFieldIdentifier;
use std::alloc::Global;

// ---- tags

fn class_word(class: TagClass) -> Option<&'static str> {
    match class {
        TagClass::Universal => Some("UNIVERSAL"),
        TagClass::Application => Some("APPLICATION"),
        TagClass::Private => Some("PRIVATE"),
        TagClass::ContextSpecific => None,
    }
}

/// The tag, made of the word of its class, its number and its environment.
pub(crate) fn remade_tag(tag: &Option<AsnTag>) -> Option<AsnTag> {
    match tag {
        Some(tag) => {
            Some(AsnTag::from(((class_word(tag.tag_class), tag.id), Some(tag.environment))))
        }
        None => None,
    }
}

// ---- numbers and items

fn remade_numbers(
    alloc: Global,
    numbers: &Option<List<DistinguishedValue>>,
) -> Mem<Option<List<DistinguishedValue>>> {
    match numbers {
        Some(numbers) => {
            let mut all = List::new(alloc);
            for number in numbers.as_slice() {
                all.add(DistinguishedValue::from_parts(
                    alloc,
                    number.name.as_str(),
                    number.value,
                )?)?;
            }
            Ok(Some(all))
        }
        None => Ok(None),
    }
}

fn copied_items(alloc: Global, items: &[Enumeral]) -> Mem<List<Enumeral>> {
    let mut all = List::new(alloc);
    for item in items {
        all.add(copy_enumeral(alloc, item)?)?;
    }
    Ok(all)
}

fn remade_enumerated(alloc: Global, ty: &Enumerated) -> Mem<Enumerated> {
    let (items, additions) = halves(ty.members.as_slice(), ty.extensible);
    let items = copied_items(alloc, items)?;
    let additions = copied_items(alloc, additions)?;
    EnumeratedOver::from_parts(
        alloc,
        items,
        marker_of(ty.extensible.is_some()),
        Some(additions),
    )
}

// ---- members and options

fn remade_member(alloc: Global, member: &SequenceOrSetMember) -> Mem<SequenceOrSetMember> {
    let ty = copy_asn1_type(alloc, &member.ty)?;
    let constraints = remade_constraints(alloc, &member.constraints)?;
    let default = optional_value(alloc, &member.default_value)?;
    let optional = optional_of(member.is_optional && member.default_value.is_none());
    let tag = remade_tag(&member.tag);
    SequenceOrSetMember::from_parts(
        alloc,
        member.name.as_str(),
        tag,
        ty,
        constraints,
        optional,
        default,
    )
}

fn remade_members(
    alloc: Global,
    members: &[SequenceOrSetMember],
) -> Mem<List<SequenceOrSetMember>> {
    let mut all = List::new(alloc);
    for member in members {
        all.add(remade_member(alloc, member)?)?;
    }
    Ok(all)
}

/// The SEQUENCE or SET, made of its members where it has no `COMPONENTS OF`.
fn remade_sequence(alloc: Global, ty: &SequenceOrSet) -> Mem<SequenceOrSet> {
    if !ty.components_of.is_empty() {
        return copy_sequence_or_set(alloc, ty);
    }
    let (members, additions) = halves(ty.members.as_slice(), ty.extensible);
    let members = remade_members(alloc, members)?;
    let additions = remade_members(alloc, additions)?;
    let constraints = remade_constraints(alloc, &ty.constraints)?;
    let body = (members, marker_of(ty.extensible.is_some()), Some(additions));
    SequenceOrSet::from_members(alloc, body, constraints)
}

fn remade_options(alloc: Global, options: &[ChoiceOption]) -> Mem<List<ChoiceOption>> {
    let mut all = List::new(alloc);
    for option in options {
        let ty = copy_asn1_type(alloc, &option.ty)?;
        let constraints = remade_constraints(alloc, &option.constraints)?;
        let tag = remade_tag(&option.tag);
        all.add(ChoiceOption::from_parts(alloc, option.name.as_str(), tag, ty, constraints)?)?;
    }
    Ok(all)
}

fn remade_choice(alloc: Global, ty: &Choice) -> Mem<Choice> {
    if !ty.constraints.is_empty() {
        return copy_choice(alloc, ty);
    }
    let (options, additions) = halves(ty.options.as_slice(), ty.extensible);
    let options = remade_options(alloc, options)?;
    let additions = remade_options(alloc, additions)?;
    Choice::from_parts(
        alloc,
        options,
        marker_of(ty.extensible.is_some()),
        Some(additions),
    )
}

fn remade_list(alloc: Global, ty: &SequenceOrSetOf) -> Mem<SequenceOrSetOf> {
    let element = copy_asn1_type(alloc, ty.element_type.get())?;
    SequenceOrSetOf::from_parts(alloc, remade_constraints(alloc, &ty.constraints)?, element)
}

// ---- names

fn optional_str(text: &Option<Text>) -> Option<&str> {
    match text {
        Some(text) => Some(text.as_str()),
        None => None,
    }
}

fn remade_reference(alloc: Global, ty: &DeclarationElsewhere) -> Mem<DeclarationElsewhere> {
    let constraints = remade_constraints(alloc, &ty.constraints)?;
    let parent = optional_str(&ty.parent);
    DeclarationElsewhereOver::from_parts(alloc, parent, ty.identifier.as_str(), constraints)
}

fn copied_path(alloc: Global, path: &[ObjectFieldIdentifier]) -> Mem<List<ObjectFieldIdentifier>> {
    let mut all = List::new(alloc);
    for name in path {
        all.add(copy_object_field_identifier(alloc, name)?)?;
    }
    Ok(all)
}

fn remade_field_type(
    alloc: Global,
    ty: &InformationObjectFieldReference,
) -> Mem<InformationObjectFieldReference> {
    let path = copied_path(alloc, ty.field_path.as_slice())?;
    let constraints = remade_constraints(alloc, &ty.constraints)?;
    InformationObjectFieldReferenceOver::from_parts(alloc, ty.class.as_str(), path, constraints)
}

fn string_word(ty: CharacterStringType) -> &'static str {
    match ty {
        CharacterStringType::NumericString => "NumericString",
        CharacterStringType::VisibleString => "VisibleString",
        CharacterStringType::IA5String => "IA5String",
        CharacterStringType::TeletexString => "TeletexString",
        CharacterStringType::VideotexString => "VideotexString",
        CharacterStringType::GraphicString => "GraphicString",
        CharacterStringType::GeneralString => "GeneralString",
        CharacterStringType::UniversalString => "UniversalString",
        CharacterStringType::UTF8String => "UTF8String",
        CharacterStringType::BMPString => "BMPString",
        CharacterStringType::PrintableString => "PrintableString",
    }
}

fn remade_string(alloc: Global, ty: &CharacterString) -> Mem<CharacterString> {
    let constraints = remade_constraints(alloc, &ty.constraints)?;
    CharacterStringOver::from_parts(alloc, string_word(ty.ty), constraints)
}

// ---- types

/// The type of a form that has constraints and named numbers alone; another is copied.
fn remade_simple(alloc: Global, ty: &ASN1Type) -> Mem<ASN1Type> {
    match ty {
        ASN1Type::Boolean(ty) => Ok(ASN1Type::Boolean(BooleanOver::from_parts(
            alloc,
            remade_constraints(alloc, &ty.constraints)?,
        )?)),
        ASN1Type::Real(ty) => Ok(ASN1Type::Real(RealOver::from_parts(
            alloc,
            remade_constraints(alloc, &ty.constraints)?,
        )?)),
        ASN1Type::OctetString(ty) => Ok(ASN1Type::OctetString(OctetStringOver::from_parts(
            alloc,
            remade_constraints(alloc, &ty.constraints)?,
        )?)),
        ASN1Type::ObjectIdentifier(ty) => Ok(ASN1Type::ObjectIdentifier(
            ObjectIdentifierOver::from_parts(alloc, remade_constraints(alloc, &ty.constraints)?)?,
        )),
        ASN1Type::Time(ty) => Ok(ASN1Type::Time(TimeOver::from_parts(
            alloc,
            remade_constraints(alloc, &ty.constraints)?,
        )?)),
        ASN1Type::Integer(ty) => Ok(ASN1Type::Integer(IntegerOver::from_parts(
            alloc,
            "INTEGER",
            remade_numbers(alloc, &ty.distinguished_values)?,
            remade_constraints(alloc, &ty.constraints)?,
        )?)),
        ASN1Type::BitString(ty) => Ok(ASN1Type::BitString(BitStringOver::from_parts(
            alloc,
            remade_numbers(alloc, &ty.distinguished_values)?,
            remade_constraints(alloc, &ty.constraints)?,
        )?)),
        _ => copy_asn1_type(alloc, ty),
    }
}

/// The type, made by the constructor of its form where it has one.
pub(crate) fn remade_type(alloc: Global, ty: &ASN1Type) -> Mem<ASN1Type> {
    match ty {
        ASN1Type::CharacterString(ty) => Ok(ASN1Type::CharacterString(remade_string(alloc, ty)?)),
        ASN1Type::Enumerated(ty) => Ok(ASN1Type::Enumerated(remade_enumerated(alloc, ty)?)),
        ASN1Type::Choice(ty) => Ok(ASN1Type::Choice(remade_choice(alloc, ty)?)),
        ASN1Type::Sequence(ty) => Ok(ASN1Type::Sequence(remade_sequence(alloc, ty)?)),
        ASN1Type::Set(ty) => Ok(ASN1Type::Set(remade_sequence(alloc, ty)?)),
        ASN1Type::SequenceOf(ty) => Ok(ASN1Type::SequenceOf(remade_list(alloc, ty)?)),
        ASN1Type::SetOf(ty) => Ok(ASN1Type::SetOf(remade_list(alloc, ty)?)),
        ASN1Type::ElsewhereDeclaredType(ty) => {
            Ok(ASN1Type::ElsewhereDeclaredType(remade_reference(alloc, ty)?))
        }
        ASN1Type::ChoiceSelectionType(ty) => Ok(ASN1Type::ChoiceSelectionType(
            ChoiceSelectionType::from_parts(
                alloc,
                ty.selected_option.as_str(),
                ty.choice_name.as_str(),
            )?,
        )),
        ASN1Type::InformationObjectFieldReference(ty) => Ok(
            ASN1Type::InformationObjectFieldReference(remade_field_type(alloc, ty)?),
        ),
        _ => remade_simple(alloc, ty),
    }
}
