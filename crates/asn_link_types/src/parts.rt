//! The parts of types that hold no cycle: what divides members, what a listed component names, and members and options that are finished.

ghost use Rattle.asn_meaning_heads.specs.Places.{shown_place};
ghost use Rattle.asn_link_instance.specs.Instance.{part_named};
ghost use Rattle.asn_link_types.specs.inner.Parts.{marker_behind, member_finished, option_finished, places_behind};
ghost use Rattle.asn_meaning.specs.Answers.{once};
ghost use Rattle.asn_meaning.specs.Judge.{meaning};
ghost use Rattle.asn_meaning.specs.Kinds.{kind_of};
ghost use Rattle.asn_meaning.specs.Members.{is_addition_at};
ghost use Rattle.asn_meaning.specs.ValueTrees.{same_truth};
ghost use Rattle.asn_link_values.specs.Choosing.{chosen, instances};
ghost use Rattle.asn_meaning_shapes.specs.Members.{shown_members};
ghost use Rattle.asn_tree.specs.declared.types.ChoiceOption.{out-ChoiceOption};
ghost use Rattle.asn_tree.specs.declared.types.SequenceOrSet.{out-SequenceOrSet};
ghost use Rattle.asn_tree.specs.declared.types.SequenceOrSetMember.{out-SequenceOrSetMember};
ghost use Rattle.std.specs.Option.{option_map};
ghost use Rattle.std.specs.Prelude.{◌≡◌, IfOk, None};

use crate::writing::default_of;
use asn_copy_linked::copy_text;
use asn_link_values::{has_no_components_of, marker_risen, part_named, placed_tag};
use asn_meaning_heads::Place;
use asn_meaning_shapes::{Member, is_addition_at};
use asn_memory::{List, Mem};
use asn_names_index::Names;
use asn_tree::{
    ASN1Type, ChoiceOption, ConstrainedComponent, Constraint, SequenceOrSet, SequenceOrSetMember,
};
use std::alloc::Global;

/// Whether the marker makes the member of this number what it was: an addition, or of the root.
pub fn is_divided(marker: Option<usize>, number: usize, member: &Member<'_>) -> bool
    ensures { result ≡ same_truth member.now.is_addition (is_addition_at marker number) }
{
    let is_addition = is_addition_at(marker, number);
    if member.is_addition {
        is_addition
    } else {
        !is_addition
    }
}

/// The marker, risen by the members that are put in before it (X.680 25.5).
pub fn risen(layer: &SequenceOrSet, members: &[Member<'_>]) -> Option<usize>
    ensures { result ≡ marker_behind (out-SequenceOrSet layer.now) (shown_members members.now) }
{
    marker_risen(layer, members)
}

/// Copies of places of names after COMPONENTS OF.
///
/// Err: want of memory.
fn copied_places(alloc: Global, places: &[(usize, bool)]) -> Mem<List<(usize, bool)>>
    ensures { IfOk result (λ copies. copies ≡ places.now) }
{
    let mut copies = List::new(alloc);
    for place in places {
        copies.add(*place)?;
    }
    Ok(copies)
}

/// The places of names after COMPONENTS OF, of which none is left: those of a SEQUENCE or SET in which no such names stand.
///
/// Err: want of memory.
pub fn places_left(alloc: Global, layer: &SequenceOrSet) -> Mem<List<(usize, bool)>>
    ensures { IfOk result (λ places. places ≡ places_behind (out-SequenceOrSet layer.now)) }
{
    if has_no_components_of(layer) {
        let places = copied_places(alloc, layer.components_at.as_slice())?;
        Ok(places)
    } else {
        Ok(List::new(alloc))
    }
}

/// The type of the part of a head that a listed component names.
///
/// None: there is none, or it is not known within these steps. Err: want of memory.
pub fn part_of<'a>(
    alloc: Global,
    names: &Names<'a>,
    steps: usize,
    levels: usize,
    head: &Place<'a>,
    listed: &ConstrainedComponent,
) -> Mem<Option<Place<'a>>>
    ensures { IfOk result (λ found. option_map shown_place found ≡ part_named chosen names.now.definitions.now (meaning names.now.definitions.now steps) (instances names.now.definitions.now steps levels) (shown_place head.now).scope listed.now.identifier (kind_of (shown_place head.now))) }
{
    let found = part_named(alloc, names, steps, head, listed.identifier.as_str())?;
    Ok(found)
}

/// A member of this type and these constraints, with its default and its tag.
///
/// None: there is no such default or tag, or it is not known within these steps. Err: want of memory.
pub fn finished_member<'a>(
    alloc: Global,
    names: &Names<'a>,
    steps: usize,
    levels: usize,
    place: &Place<'a>,
    member: &'a SequenceOrSetMember,
    ty: ASN1Type,
    constraints: Option<List<Constraint>>,
) -> Mem<Option<SequenceOrSetMember>>
    ensures { IfOk result (λ made. option_map out-SequenceOrSetMember made ≡ once None constraints (member_finished names.now.definitions.now steps levels (shown_place place.now) (out-SequenceOrSetMember member.now) ty)) }
{
    let Some(constraints) = constraints else {
        return Ok(None);
    };
    let Some(default_value) = default_of(alloc, names, steps, place, &member.default_value)? else {
        return Ok(None);
    };
    let Some(tag) = placed_tag(alloc, names, steps, levels, member.tag, place)? else {
        return Ok(None);
    };
    let name = copy_text(alloc, &member.name)?;
    Ok(Some(SequenceOrSetMember {
        name,
        tag,
        ty,
        default_value,
        is_optional: member.is_optional,
        is_recursive: member.is_recursive,
        constraints,
    }))
}

/// An option of this type and these constraints, with its tag.
///
/// None: there is no such tag, or it is not known within these steps. Err: want of memory.
pub fn finished_option<'a>(
    alloc: Global,
    names: &Names<'a>,
    steps: usize,
    levels: usize,
    place: &Place<'a>,
    option: &'a ChoiceOption,
    ty: ASN1Type,
    constraints: Option<List<Constraint>>,
) -> Mem<Option<ChoiceOption>>
    ensures { IfOk result (λ made. option_map out-ChoiceOption made ≡ once None constraints (option_finished names.now.definitions.now steps levels (shown_place place.now) (out-ChoiceOption option.now) ty)) }
{
    let Some(constraints) = constraints else {
        return Ok(None);
    };
    let Some(tag) = placed_tag(alloc, names, steps, levels, option.tag, place)? else {
        return Ok(None);
    };
    let name = copy_text(alloc, &option.name)?;
    Ok(Some(ChoiceOption {
        name,
        tag,
        ty,
        constraints,
        is_recursive: option.is_recursive,
    }))
}
