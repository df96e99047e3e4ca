//! The tag that a type brings to its place, where another type takes its place (X.680 31.2).

ghost use Rattle.asn_meaning_heads.specs.Kinds.{shown_reference};
ghost use Rattle.asn_meaning_heads.specs.Places.{shown_place, shown_target};
ghost use Rattle.asn_meaning_heads.specs.Scopes.{shown};
ghost use Rattle.asn_link_instance.specs.Instance.{placed_tag};
ghost use Rattle.asn_meaning.specs.Judge.{meaning};
ghost use Rattle.asn_meaning.specs.Kinds.{kind_of};
ghost use Rattle.asn_link_values.specs.Choosing.{chosen, instances};
ghost use Rattle.asn_link_values.specs.inner.Bringing.{brings, definition_tag, head_brings, option_brings, reference_brings, selection_brings, shown_brought, target_brings};
ghost use Rattle.asn_tree.specs.declared.types.ChoiceOption.{out-ChoiceOption};
ghost use Rattle.std.specs.Option.{option_map};
ghost use Rattle.std.specs.Prelude.{◌≡◌, IfOk, Some};

use crate::names::stays;
use asn_meaning_heads::{
    Kind, Place, Reference, Scope, Target, TypeForm, head_named_within, kind_of, option_named,
    options_of, reference_target,
};
use asn_memory::{Mem, Text};
use asn_names_index::Names;
use asn_tree::{ChoiceOption, ChoiceSelectionType};
use asn_tree_headers::AsnTag;
use std::alloc::Global;

/// What is found of the tag that a type brings, one name on.
#[derive(Drop)]
pub enum Brought<'a> {
    /// This is the tag; the outer None says that a name leads nowhere.
    Told(Option<Option<AsnTag>>),
    /// It is the tag that the type of this place brings.
    AsPlace(Place<'a>),
}

/// The name of a reference, alone or behind the name of an object.
fn name_of<'a>(reference: Reference<'a>) -> &'a Text
    ensures { result.now ≡ (shown_reference reference.entry).identifier }
{
    match reference {
        Reference::Written(reference) => &reference.identifier,
        Reference::Named(name) => name,
    }
}

/// The tag of the definition that a name stands for; a dummy has none.
fn definition_tag(names: &Names<'_>, scope: &Scope<'_>, name: &str) -> Option<AsnTag>
    ensures { result ≡ definition_tag names.now.definitions.now (shown scope.now) name.now }
{
    if scope.has_dummy(name) {
        return None;
    }
    match names.type_named(name) {
        None => None,
        Some(definition) => definition.tag,
    }
}

/// What a target brings, where the name that leads to it has this tag of its own.
fn target_brings<'a>(target: Option<Target<'a>>, own: Option<AsnTag>) -> Brought<'a>
    ensures { shown_brought result ≡ target_brings (option_map shown_target target.entry) own }
{
    match target {
        None => Brought::Told(None),
        Some(target) => match own {
            Some(tag) => Brought::Told(Some(Some(tag))),
            None => Brought::AsPlace(target.place),
        },
    }
}

/// What a reference brings: one that stays has no tag.
///
/// Err: want of memory.
fn reference_brings<'a>(
    alloc: Global,
    names: &Names<'a>,
    scope: &Scope<'a>,
    reference: Reference<'a>,
) -> Mem<Brought<'a>>
    ensures { IfOk result (λ found. shown_brought found ≡ reference_brings names.now.definitions.now (shown scope.now) (shown_reference reference.entry)) }
{
    if stays(false, scope, reference) {
        return Ok(Brought::Told(Some(None)));
    }
    let own = definition_tag(names, scope, name_of(reference).as_str());
    let target = reference_target(alloc, names, scope, reference)?;
    Ok(target_brings(target, own))
}

/// What an option brings, that stands in a CHOICE which is read in the scope.
fn option_brings<'a>(scope: Scope<'a>, option: &'a ChoiceOption) -> Brought<'a>
    ensures { shown_brought result ≡ option_brings (shown scope.entry) (Some (out-ChoiceOption option.now)) }
{
    match option.tag {
        Some(tag) => Brought::Told(Some(Some(tag))),
        None => Brought::AsPlace(Place {
            scope,
            ty: TypeForm::Written(&option.ty),
        }),
    }
}

/// What the option of the name brings, of a head that is a CHOICE.
fn head_brings<'a>(head: Place<'a>, name: &str) -> Brought<'a>
    ensures { shown_brought result ≡ head_brings name.now (Some (shown_place head.entry)) }
{
    let Place { scope, ty } = head;
    match option_named(options_of(ty), name) {
        None => Brought::Told(None),
        Some(option) => option_brings(scope, option),
    }
}

/// What a selection brings.
///
/// Err: want of memory.
fn selection_brings<'a>(
    alloc: Global,
    names: &Names<'a>,
    steps: usize,
    scope: &Scope<'a>,
    selection: &'a ChoiceSelectionType,
) -> Mem<Brought<'a>>
    ensures { IfOk result (λ found. shown_brought found ≡ selection_brings (meaning names.now.definitions.now steps) (shown scope.now) selection.now) }
{
    match head_named_within(alloc, names, steps, scope, &selection.choice_name)? {
        None => Ok(Brought::Told(None)),
        Some(head) => Ok(head_brings(head, selection.selected_option.as_str())),
    }
}

/// What a type brings: a name that does not stay, and a selection, the tag of what they stand for, where it has one, else the one that
/// its type brings; any other type none, since a class field has no room for a tag.
///
/// Err: want of memory.
fn brings<'a>(alloc: Global, names: &Names<'a>, steps: usize, place: &Place<'a>) -> Mem<Brought<'a>>
    ensures { IfOk result (λ found. shown_brought found ≡ brings names.now.definitions.now (meaning names.now.definitions.now steps) (shown_place place.now).scope (kind_of (shown_place place.now))) }
{
    match kind_of(place.ty) {
        Kind::Reference(reference) => {
            let found = reference_brings(alloc, names, &place.scope, reference)?;
            Ok(found)
        }
        Kind::Selection(selection) => {
            let found = selection_brings(alloc, names, steps, &place.scope, selection)?;
            Ok(found)
        }
        Kind::Null => Ok(Brought::Told(Some(None))),
        Kind::Boolean => Ok(Brought::Told(Some(None))),
        Kind::Integer(_) => Ok(Brought::Told(Some(None))),
        Kind::Real => Ok(Brought::Told(Some(None))),
        Kind::BitString(_) => Ok(Brought::Told(Some(None))),
        Kind::OctetString => Ok(Brought::Told(Some(None))),
        Kind::CharacterString(_) => Ok(Brought::Told(Some(None))),
        Kind::Time => Ok(Brought::Told(Some(None))),
        Kind::Enumerated(_) => Ok(Brought::Told(Some(None))),
        Kind::ObjectIdentifier => Ok(Brought::Told(Some(None))),
        Kind::Opaque => Ok(Brought::Told(Some(None))),
        Kind::Struct(_) => Ok(Brought::Told(Some(None))),
        Kind::List(_) => Ok(Brought::Told(Some(None))),
        Kind::Choice(_) => Ok(Brought::Told(Some(None))),
        Kind::Field(_) => Ok(Brought::Told(Some(None))),
    }
}

/// The tag that a type brings to its place, within so many levels: of the tags of the templates and alternatives on its way the first.
/// The outer None says that the steps or levels do not reach, or that a name leads nowhere; the inner that there is no tag.
///
/// Err: want of memory.
pub fn tag_brought<'a>(
    alloc: Global,
    names: &Names<'a>,
    steps: usize,
    levels: usize,
    place: &Place<'a>,
) -> Mem<Option<Option<AsnTag>>>
    ensures { IfOk result (λ found. found ≡ (instances names.now.definitions.now steps levels).of_tag (shown_place place.now).scope (shown_place place.now).ty) }
{
    let mut at = place.copy(alloc)?;
    for _left in (0..levels).rev() {
        match brings(alloc, names, steps, &at)? {
            Brought::Told(tag) => return Ok(tag),
            Brought::AsPlace(next) => at = next,
        }
    }
    Ok(None)
}

/// The tag of a place: one that is written stays, else the place takes the one that its type brings.
///
/// None and Err: as `tag_brought`.
pub fn placed_tag<'a>(
    alloc: Global,
    names: &Names<'a>,
    steps: usize,
    levels: usize,
    tag: Option<AsnTag>,
    place: &Place<'a>,
) -> Mem<Option<Option<AsnTag>>>
    ensures { IfOk result (λ found. found ≡ placed_tag chosen names.now.definitions.now (meaning names.now.definitions.now steps) (instances names.now.definitions.now steps levels) (shown_place place.now).scope tag (shown_place place.now).ty) }
{
    match tag {
        Some(tag) => Ok(Some(Some(tag))),
        None => {
            let found = tag_brought(alloc, names, steps, levels, place)?;
            Ok(found)
        }
    }
}
