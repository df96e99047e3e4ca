//! The parts of a type that its instance is made by: the one that WITH COMPONENTS names, and the marker behind members that are put in.

ghost use Rattle.asn_meaning_heads.specs.Places.{shown_place};
ghost use Rattle.asn_meaning_heads.specs.Scopes.{shown};
ghost use Rattle.asn_link_instance.specs.Instance.{is_empty, part_named, risen};
ghost use Rattle.asn_meaning.specs.Answers.{once};
ghost use Rattle.asn_meaning.specs.Definitions.{Definitions};
ghost use Rattle.asn_meaning.specs.Judge.{meaning};
ghost use Rattle.asn_meaning.specs.Kinds.{kind_of};
ghost use Rattle.asn_meaning.specs.Members.{member_named, member_place, root_members};
ghost use Rattle.asn_link_values.specs.Choosing.{chosen, instances};
ghost use Rattle.asn_meaning_shapes.specs.Members.{shown_members};
ghost use Rattle.asn_tree.specs.declared.types.SequenceOrSet.{out-SequenceOrSet};
ghost use Rattle.std.specs.Option.{option_map};
ghost use Rattle.std.specs.Prelude.{◌≡◌, ◌+◌, ◌≤◌, ◌<◌, ◌^◌, ℕ, IfOk, None, Some, if◌then◌else◌, length};

use asn_meaning_heads::{Kind, Place, Scope, kind_of};
use asn_meaning_shapes::{Member, member_type, option_type, struct_members_within};
use asn_memory::{Mem, Text};
use asn_names_index::Names;
use asn_tree::SequenceOrSet;
use std::alloc::Global;

/// The type of the member of the name, of a SEQUENCE or SET.
///
/// None and Err: as `part_named`.
fn struct_part<'a>(
    alloc: Global,
    names: &Names<'a>,
    steps: usize,
    inside: &Scope<'a>,
    layer: &'a SequenceOrSet,
    name: &str,
) -> Mem<Option<Place<'a>>>
    ensures { IfOk result (λ found. option_map shown_place found ≡ once None ((meaning names.now.definitions.now steps).members (shown inside.now) (out-SequenceOrSet layer.now)) (λ ms. once None (member_named ms name.now) (λ m. Some (member_place m)))) }
{
    match struct_members_within(alloc, names, steps, inside, layer)? {
        None => Ok(None),
        Some(members) => {
            let place = member_type(alloc, members.as_slice(), name)?;
            Ok(place)
        }
    }
}

/// The type of the part of a head that WITH COMPONENTS names (X.680 51.8.6).
///
/// None: there is no such part, or the members are not known within these steps. Err: want of memory.
pub fn part_named<'a>(
    alloc: Global,
    names: &Names<'a>,
    steps: usize,
    head: &Place<'a>,
    name: &str,
) -> Mem<Option<Place<'a>>>
    ensures { IfOk result (λ found. (k : ℕ) → option_map shown_place found ≡ part_named chosen names.now.definitions.now (meaning names.now.definitions.now steps) (instances names.now.definitions.now steps k) (shown_place head.now).scope name.now (kind_of (shown_place head.now))) }
{
    match kind_of(head.ty) {
        Kind::Choice(options) => {
            let part = option_type(alloc, &head.scope, options.as_slice(), name)?;
            Ok(part)
        }
        Kind::Struct(layer) => {
            let part = struct_part(alloc, names, steps, &head.scope, layer, name)?;
            Ok(part)
        }
        Kind::Null => Ok(None),
        Kind::Boolean => Ok(None),
        Kind::Integer(_) => Ok(None),
        Kind::Real => Ok(None),
        Kind::BitString(_) => Ok(None),
        Kind::OctetString => Ok(None),
        Kind::CharacterString(_) => Ok(None),
        Kind::Time => Ok(None),
        Kind::Enumerated(_) => Ok(None),
        Kind::ObjectIdentifier => Ok(None),
        Kind::Opaque => Ok(None),
        Kind::List(_) => Ok(None),
        Kind::Field(_) => Ok(None),
        Kind::Reference(_) => Ok(None),
        Kind::Selection(_) => Ok(None),
    }
}

/// The count with one more for a root member.
fn counted(count: usize, is_addition: bool) -> usize
    requires { count + 1 < 2 ^ 64 }
    ensures value { result ≡ count + (if is_addition then 0 else 1) }
    ensures bound { result ≤ count + 1 }
{
    if is_addition { count } else { count + 1 }
}

/// How many of the members are no additions.
#[tactic(auto, using(crate::proofs::Rising::root_next, crate::proofs::Rising::roots_done))]
fn root_count(members: &[Member<'_>]) -> usize
    ensures { result ≡ length (root_members (shown_members members.now)) }
{
    let mut count: usize = 0;
    for member in members {
        count = counted(count, member.is_addition);
    }
    count
}

/// Whether there are no names.
fn has_no_name(names: &[Text]) -> bool
    ensures { result ≡ is_empty names.now }
{
    match names {
        [] => true,
        [_, ..] => false,
    }
}

/// Whether no COMPONENTS OF stands in a SEQUENCE or SET.
pub fn has_no_components_of(layer: &SequenceOrSet) -> bool
    ensures { result ≡ is_empty (out-SequenceOrSet layer.now).components_of }
{
    has_no_name(layer.components_of.as_slice())
}

/// The marker behind the members of the root, where there is one.
fn marker_behind(marker: Option<usize>, members: &[Member<'_>]) -> Option<usize>
    ensures { result ≡ once None marker (λ number. Some (length (root_members (shown_members members.now)))) }
{
    match marker {
        None => None,
        Some(_) => Some(root_count(members)),
    }
}

/// The marker of a SEQUENCE or SET, risen by the members that are put in before it (X.680 25.5); without COMPONENTS OF it stays.
pub fn marker_risen(layer: &SequenceOrSet, members: &[Member<'_>]) -> Option<usize>
    ensures { (defs : Definitions) (n k : ℕ) → result ≡ risen chosen defs (meaning defs n) (instances defs n k) (out-SequenceOrSet layer.now) (shown_members members.now) }
{
    if has_no_components_of(layer) {
        layer.extensible
    } else {
        marker_behind(layer.extensible, members)
    }
}
