//! The tags of the types that linking makes (X.680 31).

ghost use Rattle.asn_link_all.specs.Made.{new_tag, own_tag, tag_by, tag_each, tag_of, tag_where};
ghost use Rattle.asn_meaning.specs.Answers.{once};
ghost use Rattle.std.specs.Prelude.{◌≡◌, IfOk, length, map};

use crate::making::Limits;
use crate::ways::Way;
use asn_link_values::placed_tag;
use asn_meaning_heads::{Place, Scope, TypeForm};
use asn_meaning_unchanged::is_unchanged;
use asn_memory::{List, Mem};
use asn_names_index::Names;
use asn_tree::{AsnTag, ToplevelDefinition, ToplevelTypeDefinition};
use std::alloc::Global;

/// The tag of a definition's type: the written one, else the one that the type brings to its place.
///
/// None: the steps or levels do not reach, or a name leads nowhere. Err: want of memory.
pub(crate) fn tag_of<'a>(
    alloc: Global,
    names: &Names<'a>,
    limits: Limits,
    definition: &'a ToplevelTypeDefinition,
) -> Mem<Option<Option<AsnTag>>>
    ensures { IfOk result (λ tag. tag ≡ tag_of names.now.definitions.now limits.steps limits.levels definition.now) }
{
    let place = Place {
        scope: Scope::Empty,
        ty: TypeForm::Written(&definition.ty),
    };
    let tag = placed_tag(
        alloc,
        names,
        limits.steps,
        limits.levels,
        definition.tag,
        &place,
    )?;
    Ok(tag)
}

/// The tag of a definition of a type; where none is told its own.
///
/// Err: want of memory.
fn tag_or_own<'a>(
    alloc: Global,
    names: &Names<'a>,
    limits: Limits,
    definition: &'a ToplevelTypeDefinition,
) -> Mem<Option<AsnTag>>
    ensures { IfOk result (λ tag. tag ≡ once definition.now.tag (tag_of names.now.definitions.now limits.steps limits.levels definition.now) (λ tag. tag)) }
{
    match tag_of(alloc, names, limits, definition)? {
        None => Ok(definition.tag),
        Some(tag) => Ok(tag),
    }
}

/// The tag of a definition that linking does not leave as it is.
///
/// Err: want of memory.
fn new_tag<'a>(
    alloc: Global,
    names: &Names<'a>,
    limits: Limits,
    definition: &'a ToplevelDefinition,
) -> Mem<Option<AsnTag>>
    ensures { IfOk result (λ tag. tag ≡ new_tag names.now.definitions.now limits.steps limits.levels definition.now) }
{
    match definition {
        ToplevelDefinition::TypeDef(definition) => {
            let tag = tag_or_own(alloc, names, limits, definition)?;
            Ok(tag)
        }
        ToplevelDefinition::Value(_) => Ok(None),
        ToplevelDefinition::Information(_) => Ok(None),
    }
}

/// The tag that a definition is written with.
fn own_tag(definition: &ToplevelDefinition) -> Option<AsnTag>
    ensures { result ≡ own_tag definition.now }
{
    match definition {
        ToplevelDefinition::TypeDef(definition) => definition.tag,
        ToplevelDefinition::Value(_) => None,
        ToplevelDefinition::Information(_) => None,
    }
}

/// The tag of a definition that linking does not leave as it is: the one that is told, within the limits for circles where it leads to
/// one; its own where it is given as read.
///
/// Err: want of memory.
fn tag_by<'a>(
    alloc: Global,
    names: &Names<'a>,
    limits: Limits,
    definition: &'a ToplevelDefinition,
    way: Way,
) -> Mem<Option<AsnTag>>
    ensures { IfOk result (λ tag. tag ≡ tag_by names.now.definitions.now limits.steps limits.levels limits.in_circles definition.now way) }
{
    match way {
        Way::Whole => {
            let tag = new_tag(alloc, names, limits, definition)?;
            Ok(tag)
        }
        Way::InCircles => {
            let tag = new_tag(alloc, names, limits.for_circles(), definition)?;
            Ok(tag)
        }
        Way::AsRead => Ok(own_tag(definition)),
    }
}

/// The tag of a definition: its own where linking leaves it as it is, else the one that is told as it is linked.
///
/// Err: want of memory.
fn tag_where<'a>(
    alloc: Global,
    names: &Names<'a>,
    limits: Limits,
    definition: &'a ToplevelDefinition,
    way: Way,
) -> Mem<Option<AsnTag>>
    ensures { IfOk result (λ tag. tag ≡ tag_where names.now.definitions.now limits.steps limits.levels limits.in_circles definition.now way) }
{
    if is_unchanged(definition) {
        Ok(own_tag(definition))
    } else {
        let tag = tag_by(alloc, names, limits, definition, way)?;
        Ok(tag)
    }
}

/// The tag of each of these definitions, in their order, as linking gives it: the written one, else the one that its type brings to its
/// place, as far as it is told within the limits, which are those for circles where `ways` tells that a definition leads to one.
///
/// Err: want of memory.
pub(crate) fn tag_types<'a>(
    alloc: Global,
    names: &Names<'a>,
    limits: Limits,
    definitions: &[&'a ToplevelDefinition],
    ways: &[Way],
) -> Mem<List<Option<AsnTag>>>
    requires { length ways.now ≡ length definitions.now }
    ensures { IfOk result (λ tags. tags ≡ tag_each names.now.definitions.now limits.steps limits.levels limits.in_circles (map (λ d. d.now) definitions.now) ways.now) }
{
    let mut tags = List::new(alloc);
    for (i, definition) in definitions.iter().enumerate() {
        tags.add(tag_where(alloc, names, limits, definition, ways[i])?)?;
    }
    Ok(tags)
}
