//! What stands for the members, options and elements of a type.

ghost use Rattle.asn_meaning_heads.specs.Places.{shown_place};
ghost use Rattle.asn_meaning_heads.specs.Scopes.{shown};
ghost use Rattle.asn_link_instance.specs.Instance.{list_instance, member_instance, of_members, of_options, option_instance, struct_instance, type_instance};
ghost use Rattle.asn_link_types.specs.inner.Made.{choice_layer};
ghost use Rattle.asn_link_types.specs.inner.Parts.{member_at, member_typed, option_typed, struct_with};
ghost use Rattle.asn_meaning.specs.Judge.{meaning};
ghost use Rattle.asn_link_values.specs.Choosing.{chosen, instances};
ghost use Rattle.asn_meaning_shapes.specs.Members.{shown_member, shown_members};
ghost use Rattle.asn_tree.specs.declared.types.ASN1Type.{out-ASN1Type};
ghost use Rattle.asn_tree.specs.declared.types.ChoiceOption.{out-ChoiceOption};
ghost use Rattle.asn_tree.specs.declared.types.SequenceOrSet.{out-SequenceOrSet};
ghost use Rattle.asn_tree.specs.declared.types.SequenceOrSetMember.{out-SequenceOrSetMember};
ghost use Rattle.asn_tree.specs.declared.types.SequenceOrSetOf.{out-SequenceOrSetOf};
ghost use Rattle.std.specs.Option.{option_map};
ghost use Rattle.std.specs.Prelude.{◌≡◌, IfOk, false};

use crate::linking::constraints::of_constraints;
use crate::linking::types::{instance_of_type, type_in};
use crate::parts::{finished_member, finished_option, is_divided, risen};
use crate::room::Room;
use crate::trees::{choice, list, structure};
use asn_meaning_heads::{Place, Scope, TypeForm};
use asn_meaning_shapes::{Member, struct_members_within};
use asn_memory::{List, Mem};
use asn_names_index::Names;
use asn_tree::{
    ASN1Type, Choice, ChoiceOption, SequenceOrSet, SequenceOrSetMember, SequenceOrSetOf,
};
use std::alloc::Global;

/// A SEQUENCE or SET, with the members that COMPONENTS OF puts in at their place, each read in its own scope (X.680 25, 27).
#[cycle(linking)]
pub(super) fn struct_instance<'a>(
    alloc: Global,
    names: &Names<'a>,
    steps: usize,
    levels: usize,
    room: &mut Room,
    place: &Place<'a>,
    layer: &'a SequenceOrSet,
) -> Mem<Option<SequenceOrSet>>
    ensures { IfOk result (λ made. option_map out-SequenceOrSet made ≡ struct_instance chosen names.now.definitions.now (meaning names.now.definitions.now steps) (instances names.now.definitions.now steps levels) (shown_place place.now).scope (shown_place place.now).ty (out-SequenceOrSet layer.now)) }
{
    let Some(members) = struct_members_within(alloc, names, steps, &place.scope, layer)? else {
        return Ok(None);
    };
    let members = members.as_slice();
    let made = struct_with(alloc, names, steps, levels, room, place, layer, members)?;
    Ok(made)
}

/// A SEQUENCE or SET of these members.
#[cycle(linking)]
fn struct_with<'a>(
    alloc: Global,
    names: &Names<'a>,
    steps: usize,
    levels: usize,
    room: &mut Room,
    place: &Place<'a>,
    layer: &'a SequenceOrSet,
    members: &[Member<'a>],
) -> Mem<Option<SequenceOrSet>>
    ensures { IfOk result (λ made. option_map out-SequenceOrSet made ≡ struct_with names.now.definitions.now steps levels (shown_place place.now) (out-SequenceOrSet layer.now) (shown_members members.now)) }
{
    let marker = risen(layer, members);
    let Some(made) = of_members(alloc, names, steps, levels, room, marker, members)? else {
        return Ok(None);
    };
    let scope = &place.scope;
    let own = layer.constraints.as_slice();
    let constraints = of_constraints(alloc, names, steps, levels, room, scope, place, own)?;
    let made = structure(alloc, layer, marker, made, constraints)?;
    Ok(made)
}

/// What stands for the members, where the marker divides them as they were.
#[cycle(linking)]
#[tactic(auto, using(crate::proofs::Gathering::begun, crate::proofs::Counting::member_next, crate::proofs::Counting::member_lost, crate::proofs::Counting::members_done))]
fn of_members<'a>(
    alloc: Global,
    names: &Names<'a>,
    steps: usize,
    levels: usize,
    room: &mut Room,
    marker: Option<usize>,
    members: &[Member<'a>],
) -> Mem<Option<List<SequenceOrSetMember>>>
    ensures { IfOk result (λ made. made ≡ of_members chosen names.now.definitions.now (meaning names.now.definitions.now steps) (instances names.now.definitions.now steps levels) marker 0 (shown_members members.now)) }
{
    let mut made = List::new(alloc);
    for member in members {
        let number = made.len();
        let Some(one) = member_at(alloc, names, steps, levels, room, marker, number, member)? else {
            return Ok(None);
        };
        made.add(one)?;
    }
    Ok(Some(made))
}

/// What stands for the member of this number, where the marker makes it what it was: an addition, or of the root.
#[cycle(linking)]
fn member_at<'a>(
    alloc: Global,
    names: &Names<'a>,
    steps: usize,
    levels: usize,
    room: &mut Room,
    marker: Option<usize>,
    number: usize,
    member: &Member<'a>,
) -> Mem<Option<SequenceOrSetMember>>
    ensures { IfOk result (λ made. option_map out-SequenceOrSetMember made ≡ member_at names.now.definitions.now steps levels marker number (shown_member member.now)) }
{
    if !is_divided(marker, number, member) {
        return Ok(None);
    }
    let made = member_instance(alloc, names, steps, levels, room, member)?;
    Ok(made)
}

/// What stands for a member.
#[cycle(linking)]
fn member_instance<'a>(
    alloc: Global,
    names: &Names<'a>,
    steps: usize,
    levels: usize,
    room: &mut Room,
    member: &Member<'a>,
) -> Mem<Option<SequenceOrSetMember>>
    ensures { IfOk result (λ made. option_map out-SequenceOrSetMember made ≡ member_instance chosen names.now.definitions.now (meaning names.now.definitions.now steps) (instances names.now.definitions.now steps levels) (shown_member member.now).scope (shown_member member.now).written) }
{
    room.take()?;
    let place = member.place(alloc)?;
    let Some(ty) = instance_of_type(alloc, names, steps, levels, room, false, &place)? else {
        return Ok(None);
    };
    let written = member.written;
    let made = member_typed(alloc, names, steps, levels, room, &place, written, ty)?;
    Ok(made)
}

/// What stands for a member, of which the type is made.
#[cycle(linking)]
fn member_typed<'a>(
    alloc: Global,
    names: &Names<'a>,
    steps: usize,
    levels: usize,
    room: &mut Room,
    place: &Place<'a>,
    member: &'a SequenceOrSetMember,
    ty: ASN1Type,
) -> Mem<Option<SequenceOrSetMember>>
    ensures { IfOk result (λ made. option_map out-SequenceOrSetMember made ≡ member_typed names.now.definitions.now steps levels (shown_place place.now) (out-SequenceOrSetMember member.now) ty) }
{
    let scope = &place.scope;
    let own = member.constraints.as_slice();
    let constraints = of_constraints(alloc, names, steps, levels, room, scope, place, own)?;
    let made = finished_member(alloc, names, steps, levels, place, member, ty, constraints)?;
    Ok(made)
}

/// A CHOICE, with what stands for each option (X.680 29).
#[cycle(linking)]
pub(super) fn choice_instance<'a>(
    alloc: Global,
    names: &Names<'a>,
    steps: usize,
    levels: usize,
    room: &mut Room,
    place: &Place<'a>,
    layer: &'a Choice,
) -> Mem<Option<ASN1Type>>
    ensures { IfOk result (λ made. option_map out-ASN1Type made ≡ type_instance chosen names.now.definitions.now (meaning names.now.definitions.now steps) (instances names.now.definitions.now steps levels) false (shown_place place.now).scope (shown_place place.now).ty (choice_layer layer.now)) }
{
    let scope = &place.scope;
    let written = layer.options.as_slice();
    let Some(options) = of_options(alloc, names, steps, levels, room, scope, written)? else {
        return Ok(None);
    };
    let own = layer.constraints.as_slice();
    let constraints = of_constraints(alloc, names, steps, levels, room, scope, place, own)?;
    Ok(choice(layer, options, constraints))
}

/// What stands for the options.
#[cycle(linking)]
#[tactic(auto, using(crate::proofs::Gathering::begun, crate::proofs::Gathering::option_made, crate::proofs::Gathering::no_option_made, crate::proofs::Gathering::traversed_next, crate::proofs::Gathering::traversed_lost, crate::proofs::Gathering::traversed_done))]
fn of_options<'a>(
    alloc: Global,
    names: &Names<'a>,
    steps: usize,
    levels: usize,
    room: &mut Room,
    scope: &Scope<'a>,
    options: &'a [ChoiceOption],
) -> Mem<Option<List<ChoiceOption>>>
    ensures { IfOk result (λ made. made ≡ of_options chosen names.now.definitions.now (meaning names.now.definitions.now steps) (instances names.now.definitions.now steps levels) (shown scope.now) options.now) }
{
    let mut made = List::new(alloc);
    for option in options {
        let Some(one) = option_instance(alloc, names, steps, levels, room, scope, option)? else {
            return Ok(None);
        };
        made.add(one)?;
    }
    Ok(Some(made))
}

/// What stands for an option.
#[cycle(linking)]
fn option_instance<'a>(
    alloc: Global,
    names: &Names<'a>,
    steps: usize,
    levels: usize,
    room: &mut Room,
    scope: &Scope<'a>,
    option: &'a ChoiceOption,
) -> Mem<Option<ChoiceOption>>
    ensures { IfOk result (λ made. option_map out-ChoiceOption made ≡ option_instance chosen names.now.definitions.now (meaning names.now.definitions.now steps) (instances names.now.definitions.now steps levels) (shown scope.now) (out-ChoiceOption option.now)) }
{
    room.take()?;
    let scope = scope.copy(alloc)?;
    let place = Place {
        scope,
        ty: TypeForm::Written(&option.ty),
    };
    let Some(ty) = instance_of_type(alloc, names, steps, levels, room, false, &place)? else {
        return Ok(None);
    };
    let made = option_typed(alloc, names, steps, levels, room, &place, option, ty)?;
    Ok(made)
}

/// What stands for an option, of which the type is made.
#[cycle(linking)]
fn option_typed<'a>(
    alloc: Global,
    names: &Names<'a>,
    steps: usize,
    levels: usize,
    room: &mut Room,
    place: &Place<'a>,
    option: &'a ChoiceOption,
    ty: ASN1Type,
) -> Mem<Option<ChoiceOption>>
    ensures { IfOk result (λ made. option_map out-ChoiceOption made ≡ option_typed names.now.definitions.now steps levels (shown_place place.now) (out-ChoiceOption option.now) ty) }
{
    let scope = &place.scope;
    let own = option.constraints.as_slice();
    let constraints = of_constraints(alloc, names, steps, levels, room, scope, place, own)?;
    let made = finished_option(alloc, names, steps, levels, place, option, ty, constraints)?;
    Ok(made)
}

/// A SEQUENCE OF or SET OF (X.680 26, 28).
#[cycle(linking)]
pub(super) fn list_instance<'a>(
    alloc: Global,
    names: &Names<'a>,
    steps: usize,
    levels: usize,
    room: &mut Room,
    place: &Place<'a>,
    layer: &'a SequenceOrSetOf,
) -> Mem<Option<SequenceOrSetOf>>
    ensures { IfOk result (λ made. option_map out-SequenceOrSetOf made ≡ list_instance chosen names.now.definitions.now (meaning names.now.definitions.now steps) (instances names.now.definitions.now steps levels) (shown_place place.now).scope (shown_place place.now).ty (out-SequenceOrSetOf layer.now)) }
{
    let scope = &place.scope;
    let element = layer.element_type.get();
    let Some(ty) = type_in(alloc, names, steps, levels, room, false, scope, element)? else {
        return Ok(None);
    };
    let own = layer.constraints.as_slice();
    let constraints = of_constraints(alloc, names, steps, levels, room, scope, place, own)?;
    let made = list(alloc, layer, ty, constraints)?;
    Ok(made)
}
