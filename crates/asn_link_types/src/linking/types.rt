//! What stands for a type, and what a name leads to.

ghost use Rattle.asn_meaning_heads.specs.Kinds.{shown_reference, shown_type};
ghost use Rattle.asn_meaning_heads.specs.Places.{shown_place, shown_target};
ghost use Rattle.asn_meaning_heads.specs.Scopes.{shown};
ghost use Rattle.asn_link_instance.specs.Instance.{constrained, extended, field_instance, has_no_place, replaced, type_instance};
ghost use Rattle.asn_link_types.specs.inner.Made.{field_layer, reference_layer};
ghost use Rattle.asn_link_types.specs.inner.Parts.{extended_beside};
ghost use Rattle.asn_meaning.specs.Judge.{meaning};
ghost use Rattle.asn_meaning.specs.Names.{class_field_type, reference_target, selection_target};
ghost use Rattle.asn_meaning.specs.Scopes.{Empty, bare};
ghost use Rattle.asn_link_values.specs.Choosing.{chosen, instances};
ghost use Rattle.asn_tree.specs.declared.types.ASN1Type.{out-ASN1Type};
ghost use Rattle.std.specs.Option.{option_map};
ghost use Rattle.std.specs.Prelude.{◌≡◌, IfOk, [], Some, false};

use crate::constrained::{constrained_copy, followed_by, has_no_place};
use crate::leaves::{
    constraints_behind, integer_type, object_identifier, reference_type, utf8_string,
};
use crate::linking::constraints::of_constraints;
use crate::linking::members::{choice_instance, list_instance, struct_instance};
use crate::room::Room;
use crate::trees::{sequence, sequence_of, set, set_of};
use asn_link_values::stays;
use asn_meaning_heads::{
    FieldType, Place, Reference, Scope, Target, TypeForm, class_field_type, constraints_in,
    reference_target, selection_target_within,
};
use asn_memory::{List, Mem};
use asn_names_index::Names;
use asn_tree::{ASN1Type, ChoiceSelectionType, Constraint, InformationObjectFieldReference};
use std::alloc::Global;

/// The instance of a type in its scope, within so many levels: what linking makes of it. `down` asks for the type down to the head:
/// there a plain name is followed too.
///
/// None: there is no instance within these steps and levels: they are too few, a name leads nowhere, a part that a constraint names is
/// missing, or a value has no literal. Err: want of memory, also where the room is used up.
#[cycle(linking)]
#[tactic(auto, using(crate::proofs::Levels::no_type))]
pub fn instance_of_type<'a>(
    alloc: Global,
    names: &Names<'a>,
    steps: usize,
    levels: usize,
    room: &mut Room,
    down: bool,
    place: &Place<'a>,
) -> Mem<Option<ASN1Type>>
    ensures { IfOk result (λ made. made ≡ (instances names.now.definitions.now steps levels).of_type down (shown_place place.now).scope (shown_place place.now).ty) }
{
    room.take()?;
    if levels == 0 {
        return Ok(None);
    }
    let made = type_instance(alloc, names, steps, levels - 1, room, down, place)?;
    Ok(made)
}

/// The instance of a type that is written in a scope.
#[cycle(linking)]
pub(super) fn type_in<'a>(
    alloc: Global,
    names: &Names<'a>,
    steps: usize,
    levels: usize,
    room: &mut Room,
    down: bool,
    scope: &Scope<'a>,
    ty: &'a ASN1Type,
) -> Mem<Option<ASN1Type>>
    ensures { IfOk result (λ made. made ≡ (instances names.now.definitions.now steps levels).of_type down (shown scope.now) ty.now) }
{
    let scope = scope.copy(alloc)?;
    let place = Place {
        scope,
        ty: TypeForm::Written(ty),
    };
    let made = instance_of_type(alloc, names, steps, levels, room, down, &place)?;
    Ok(made)
}

/// What stands for a type as it is met, one level down.
#[cycle(linking)]
fn type_instance<'a>(
    alloc: Global,
    names: &Names<'a>,
    steps: usize,
    levels: usize,
    room: &mut Room,
    down: bool,
    place: &Place<'a>,
) -> Mem<Option<ASN1Type>>
    ensures { IfOk result (λ made. option_map out-ASN1Type made ≡ type_instance chosen names.now.definitions.now (meaning names.now.definitions.now steps) (instances names.now.definitions.now steps levels) down (shown_place place.now).scope (shown_place place.now).ty (out-ASN1Type (shown_place place.now).ty)) }
{
    match place.ty {
        TypeForm::Written(ty) => {
            let made = written_instance(alloc, names, steps, levels, room, down, place, ty)?;
            Ok(made)
        }
        TypeForm::Reference(reference) => {
            let made = reference_instance(
                alloc, names, steps, levels, room, down, place, reference,
            )?;
            Ok(made)
        }
        TypeForm::Null => Ok(Some(ASN1Type::Null)),
        TypeForm::Utf8String => Ok(Some(utf8_string(alloc))),
        TypeForm::ObjectIdentifier => Ok(Some(object_identifier(alloc))),
        TypeForm::Integer(numbers) => {
            let made = integer_type(alloc, numbers)?;
            Ok(Some(made))
        }
    }
}

/// What stands for a type of a tree, at a place.
#[cycle(linking)]
fn written_instance<'a>(
    alloc: Global,
    names: &Names<'a>,
    steps: usize,
    levels: usize,
    room: &mut Room,
    down: bool,
    place: &Place<'a>,
    ty: &'a ASN1Type,
) -> Mem<Option<ASN1Type>>
    ensures { IfOk result (λ made. option_map out-ASN1Type made ≡ type_instance chosen names.now.definitions.now (meaning names.now.definitions.now steps) (instances names.now.definitions.now steps levels) down (shown_place place.now).scope (shown_place place.now).ty (out-ASN1Type ty.now)) }
{
    match ty {
        ASN1Type::ElsewhereDeclaredType(x) => {
            let reference = Reference::Written(x);
            let made = reference_instance(
                alloc, names, steps, levels, room, down, place, reference,
            )?;
            Ok(made)
        }
        ASN1Type::ChoiceSelectionType(x) => {
            let made = selection_instance(alloc, names, steps, levels, room, down, place, x)?;
            Ok(made)
        }
        ASN1Type::InformationObjectFieldReference(x) => {
            let made = field_instance(alloc, names, steps, levels, room, down, place, ty, x)?;
            Ok(made)
        }
        ASN1Type::Choice(x) => {
            let made = choice_instance(alloc, names, steps, levels, room, place, x)?;
            Ok(made)
        }
        ASN1Type::Sequence(x) => {
            let made = struct_instance(alloc, names, steps, levels, room, place, x)?;
            Ok(sequence(made))
        }
        ASN1Type::Set(x) => {
            let made = struct_instance(alloc, names, steps, levels, room, place, x)?;
            Ok(set(made))
        }
        ASN1Type::SequenceOf(x) => {
            let made = list_instance(alloc, names, steps, levels, room, place, x)?;
            Ok(sequence_of(made))
        }
        ASN1Type::SetOf(x) => {
            let made = list_instance(alloc, names, steps, levels, room, place, x)?;
            Ok(set_of(made))
        }
        ASN1Type::Null
        | ASN1Type::Boolean(_)
        | ASN1Type::Integer(_)
        | ASN1Type::Real(_)
        | ASN1Type::BitString(_)
        | ASN1Type::OctetString(_)
        | ASN1Type::CharacterString(_)
        | ASN1Type::Enumerated(_)
        | ASN1Type::Time(_)
        | ASN1Type::GeneralizedTime(_)
        | ASN1Type::UTCTime(_)
        | ASN1Type::ObjectIdentifier(_)
        | ASN1Type::EmbeddedPdv
        | ASN1Type::External => {
            let made = constrained(alloc, names, steps, levels, room, place, ty)?;
            Ok(made)
        }
    }
}

/// A type whose constraints alone change.
#[cycle(linking)]
fn constrained<'a>(
    alloc: Global,
    names: &Names<'a>,
    steps: usize,
    levels: usize,
    room: &mut Room,
    place: &Place<'a>,
    ty: &'a ASN1Type,
) -> Mem<Option<ASN1Type>>
    ensures { IfOk result (λ made. option_map out-ASN1Type made ≡ constrained chosen names.now.definitions.now (meaning names.now.definitions.now steps) (instances names.now.definitions.now steps levels) (shown_place place.now).scope (shown_place place.now).ty (out-ASN1Type ty.now)) }
{
    let own = constraints_in(TypeForm::Written(ty));
    let constraints = of_constraints(alloc, names, steps, levels, room, &place.scope, place, own)?;
    let made = constrained_copy(alloc, ty, constraints)?;
    Ok(made)
}

/// A name: it stays, or what it leads to takes its place.
#[cycle(linking)]
fn reference_instance<'a>(
    alloc: Global,
    names: &Names<'a>,
    steps: usize,
    levels: usize,
    room: &mut Room,
    down: bool,
    place: &Place<'a>,
    reference: Reference<'a>,
) -> Mem<Option<ASN1Type>>
    ensures { IfOk result (λ made. option_map out-ASN1Type made ≡ type_instance chosen names.now.definitions.now (meaning names.now.definitions.now steps) (instances names.now.definitions.now steps levels) down (shown_place place.now).scope (shown_place place.now).ty (reference_layer (shown_reference reference.entry))) }
{
    if stays(down, &place.scope, reference) {
        let made = name_kept(alloc, names, steps, levels, room, place, reference)?;
        Ok(made)
    } else {
        let made = name_followed(alloc, names, steps, levels, room, down, place, reference)?;
        Ok(made)
    }
}

/// A name that stays, with what stands for the constraints behind it.
#[cycle(linking)]
fn name_kept<'a>(
    alloc: Global,
    names: &Names<'a>,
    steps: usize,
    levels: usize,
    room: &mut Room,
    place: &Place<'a>,
    reference: Reference<'a>,
) -> Mem<Option<ASN1Type>>
    ensures { IfOk result (λ made. option_map out-ASN1Type made ≡ constrained chosen names.now.definitions.now (meaning names.now.definitions.now steps) (instances names.now.definitions.now steps levels) (shown_place place.now).scope (shown_place place.now).ty (reference_layer (shown_reference reference.entry))) }
{
    let own = constraints_behind(reference);
    let constraints = of_constraints(alloc, names, steps, levels, room, &place.scope, place, own)?;
    let made = reference_type(alloc, reference, constraints)?;
    Ok(made)
}

/// What takes the place of a name.
#[cycle(linking)]
fn name_followed<'a>(
    alloc: Global,
    names: &Names<'a>,
    steps: usize,
    levels: usize,
    room: &mut Room,
    down: bool,
    place: &Place<'a>,
    reference: Reference<'a>,
) -> Mem<Option<ASN1Type>>
    ensures { IfOk result (λ made. option_map out-ASN1Type made ≡ replaced chosen names.now.definitions.now (meaning names.now.definitions.now steps) (instances names.now.definitions.now steps levels) down (shown_place place.now).scope (shown_place place.now).ty (shown_reference reference.entry).constraints (reference_target names.now.definitions.now (shown_place place.now).scope (shown_reference reference.entry))) }
{
    let beside = constraints_behind(reference);
    let target = reference_target(alloc, names, &place.scope, reference)?;
    let made = replaced(
        alloc, names, steps, levels, room, down, place, beside, target,
    )?;
    Ok(made)
}

/// A selection: the alternative's type takes its place.
#[cycle(linking)]
fn selection_instance<'a>(
    alloc: Global,
    names: &Names<'a>,
    steps: usize,
    levels: usize,
    room: &mut Room,
    down: bool,
    place: &Place<'a>,
    selection: &'a ChoiceSelectionType,
) -> Mem<Option<ASN1Type>>
    ensures { IfOk result (λ made. option_map out-ASN1Type made ≡ replaced chosen names.now.definitions.now (meaning names.now.definitions.now steps) (instances names.now.definitions.now steps levels) down (shown_place place.now).scope (shown_place place.now).ty [] (selection_target (meaning names.now.definitions.now steps) (shown_place place.now).scope selection.now)) }
{
    let target = selection_target_within(alloc, names, steps, &place.scope, selection)?;
    let made = replaced(alloc, names, steps, levels, room, down, place, &[], target)?;
    Ok(made)
}

/// The type of a class's field: an open type stays, a fixed one takes its place.
#[cycle(linking)]
fn field_instance<'a>(
    alloc: Global,
    names: &Names<'a>,
    steps: usize,
    levels: usize,
    room: &mut Room,
    down: bool,
    place: &Place<'a>,
    ty: &'a ASN1Type,
    layer: &'a InformationObjectFieldReference,
) -> Mem<Option<ASN1Type>>
    requires is { out-ASN1Type ty.now ≡ field_layer layer.now }
    ensures { IfOk result (λ made. option_map out-ASN1Type made ≡ field_instance chosen names.now.definitions.now (meaning names.now.definitions.now steps) (instances names.now.definitions.now steps levels) down (shown_place place.now).scope (shown_place place.now).ty layer.now (class_field_type names.now.definitions.now (shown_place place.now).scope layer.now)) }
{
    match class_field_type(names, &place.scope, layer) {
        None => Ok(None),
        Some(FieldType::Open) => {
            let made = constrained(alloc, names, steps, levels, room, place, ty)?;
            Ok(made)
        }
        Some(FieldType::Fixed(fixed)) => {
            let beside = layer.constraints.as_slice();
            let made = fixed_instance(
                alloc, names, steps, levels, room, down, place, beside, fixed,
            )?;
            Ok(made)
        }
    }
}

/// The type that a class's field fixes, in place of the field.
#[cycle(linking)]
fn fixed_instance<'a>(
    alloc: Global,
    names: &Names<'a>,
    steps: usize,
    levels: usize,
    room: &mut Room,
    down: bool,
    place: &Place<'a>,
    beside: &'a [Constraint],
    fixed: TypeForm<'a>,
) -> Mem<Option<ASN1Type>>
    ensures { IfOk result (λ made. option_map out-ASN1Type made ≡ replaced chosen names.now.definitions.now (meaning names.now.definitions.now steps) (instances names.now.definitions.now steps levels) down (shown_place place.now).scope (shown_place place.now).ty beside.now (Some (bare Empty (shown_type fixed.entry)))) }
{
    let target = Some(Target::outside(fixed));
    let made = replaced(
        alloc, names, steps, levels, room, down, place, beside, target,
    )?;
    Ok(made)
}

/// What a name leads to, as it is in its own scope, with the constraints that come along, and those beside the name.
#[cycle(linking)]
fn replaced<'a>(
    alloc: Global,
    names: &Names<'a>,
    steps: usize,
    levels: usize,
    room: &mut Room,
    down: bool,
    place: &Place<'a>,
    beside: &'a [Constraint],
    target: Option<Target<'a>>,
) -> Mem<Option<ASN1Type>>
    ensures { IfOk result (λ made. option_map out-ASN1Type made ≡ replaced chosen names.now.definitions.now (meaning names.now.definitions.now steps) (instances names.now.definitions.now steps levels) down (shown_place place.now).scope (shown_place place.now).ty beside.now (option_map shown_target target.entry)) }
{
    let Some(target) = target else {
        return Ok(None);
    };
    let Some(ty) = instance_of_type(alloc, names, steps, levels, room, down, &target.place)? else {
        return Ok(None);
    };
    let made = placed(
        alloc, names, steps, levels, room, place, beside, ty, &target,
    )?;
    Ok(made)
}

/// The type that takes the place of a name, with constraints where it has a place for them.
#[cycle(linking)]
fn placed<'a>(
    alloc: Global,
    names: &Names<'a>,
    steps: usize,
    levels: usize,
    room: &mut Room,
    place: &Place<'a>,
    beside: &'a [Constraint],
    ty: ASN1Type,
    target: &Target<'a>,
) -> Mem<Option<ASN1Type>>
    ensures { IfOk result (λ made. option_map out-ASN1Type made ≡ extended chosen names.now.definitions.now (meaning names.now.definitions.now steps) (instances names.now.definitions.now steps levels) (shown_place place.now).scope (shown_place place.now).ty beside.now (shown_target target.now) (out-ASN1Type ty) (has_no_place (out-ASN1Type ty))) }
{
    if has_no_place(&ty) {
        return Ok(Some(ty));
    }
    let made = extended(alloc, names, steps, levels, room, place, beside, ty, target)?;
    Ok(made)
}

/// The type that takes the place of a name, with the constraints that come along and those beside the name behind its own.
#[cycle(linking)]
fn extended<'a>(
    alloc: Global,
    names: &Names<'a>,
    steps: usize,
    levels: usize,
    room: &mut Room,
    place: &Place<'a>,
    beside: &'a [Constraint],
    ty: ASN1Type,
    target: &Target<'a>,
) -> Mem<Option<ASN1Type>>
    ensures { IfOk result (λ made. option_map out-ASN1Type made ≡ extended chosen names.now.definitions.now (meaning names.now.definitions.now steps) (instances names.now.definitions.now steps levels) (shown_place place.now).scope (shown_place place.now).ty beside.now (shown_target target.now) (out-ASN1Type ty) false) }
{
    let at = &target.place;
    let own = target.constraints();
    let Some(along) = of_constraints(alloc, names, steps, levels, room, &at.scope, at, own)? else {
        return Ok(None);
    };
    let made = extended_beside(alloc, names, steps, levels, room, place, beside, ty, along)?;
    Ok(made)
}

/// The type that takes the place of a name, of which the constraints that come along are made: those beside the name follow.
#[cycle(linking)]
fn extended_beside<'a>(
    alloc: Global,
    names: &Names<'a>,
    steps: usize,
    levels: usize,
    room: &mut Room,
    place: &Place<'a>,
    beside: &'a [Constraint],
    ty: ASN1Type,
    along: List<Constraint>,
) -> Mem<Option<ASN1Type>>
    ensures { IfOk result (λ made. option_map out-ASN1Type made ≡ extended_beside names.now.definitions.now steps levels (shown_place place.now) beside.now (out-ASN1Type ty) along) }
{
    let scope = &place.scope;
    let behind = of_constraints(alloc, names, steps, levels, room, scope, place, beside)?;
    let made = followed_by(ty, along, behind)?;
    Ok(made)
}
