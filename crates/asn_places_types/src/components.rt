//! The components of a type.

ghost use Rattle.asn_meaning_heads.specs.Kinds.{shown_kind, shown_type};
ghost use Rattle.asn_meaning_heads.specs.Places.{shown_place};
ghost use Rattle.asn_meaning.specs.Accepts.{place};
ghost use Rattle.asn_places_types.specs.Forms.{shown_at, shown_governor};
ghost use Rattle.asn_needs.specs.PartsOfTypes.{component_sites, default_site, member_sites, option_sites, struct_sites};
ghost use Rattle.asn_needs.specs.Sites.{beside, each_of, AType, ComponentsOf};
ghost use Rattle.asn_places_types.specs.Sites.{shown_around, shown_sites};
ghost use Rattle.asn_tree.specs.declared.types.ChoiceOption.{out-ChoiceOption};
ghost use Rattle.asn_tree.specs.declared.types.SequenceOrSet.{out-SequenceOrSet};
ghost use Rattle.asn_tree.specs.declared.types.SequenceOrSetMember.{out-SequenceOrSetMember};
ghost use Rattle.std.specs.Prelude.{◌≡◌, ◌++◌, ◌∷◌, [], IfOk, Some, map};

use crate::forms::{Form, TypePlace, ValuePlace};
use crate::sites::{Site, with_site};
use crate::surroundings::{Around, scope_in};
use asn_meaning_heads::{Kind, Place, TypeForm, ValueForm};
use asn_memory::{Box, List, Mem, Text};
use asn_tree::{ASN1Type, ChoiceOption, SequenceOrSet, SequenceOrSetMember};
use std::alloc::Global;
use std::rc::Rc;

/// The type in the scope of these surroundings.
///
/// Err: want of memory.
pub fn place_here<'a>(alloc: Global, around: &Rc<Around<'a>>, ty: TypeForm<'a>) -> Mem<Place<'a>>
    ensures { IfOk result (λ p. shown_place p ≡ place (shown_around around.now.value).scope (shown_type ty.entry)) }
{
    let scope = scope_in(around).copy(alloc)?;
    Ok(Place { scope, ty })
}

/// The type in the scope of these surroundings, as one that governs.
///
/// Err: want of memory.
pub fn governor_here<'a>(
    alloc: Global,
    around: &Rc<Around<'a>>,
    ty: TypeForm<'a>,
) -> Mem<Option<Box<Place<'a>>>>
    ensures { IfOk result (λ p. shown_governor p ≡ Some (place (shown_around around.now.value).scope (shown_type ty.entry))) }
{
    let place = place_here(alloc, around, ty)?;
    let place = Box::new(alloc, place)?;
    Ok(Some(place))
}

/// The sites with the default value of a member, where it has one.
///
/// Err: want of memory.
#[tactic(auto, using(crate::proofs::Adding::nothing_more))]
fn with_default<'a>(
    alloc: Global,
    sites: List<Site<'a>>,
    around: &Rc<Around<'a>>,
    member: &'a SequenceOrSetMember,
) -> Mem<List<Site<'a>>>
    ensures { IfOk result (λ more. shown_sites more ≡ shown_sites sites.entry ++ default_site (shown_around around.now.value) (out-SequenceOrSetMember member.now)) }
{
    match &member.default_value {
        None => Ok(sites),
        Some(value) => {
            let place = governor_here(alloc, around, TypeForm::Written(&member.ty))?;
            let form = Form::AValue(ValuePlace::AsSuch, ValueForm::Written(value), place);
            let sites = with_site(sites, around, form)?;
            Ok(sites)
        }
    }
}

/// The sites with a member's type and default value.
///
/// Err: want of memory.
#[tactic(auto, using(crate::proofs::Adding::then_cons))]
fn with_member<'a>(
    alloc: Global,
    sites: List<Site<'a>>,
    around: &Rc<Around<'a>>,
    member: &'a SequenceOrSetMember,
) -> Mem<List<Site<'a>>>
    ensures { IfOk result (λ more. shown_sites more ≡ shown_sites sites.entry ++ member_sites (shown_around around.now.value) (out-SequenceOrSetMember member.now)) }
{
    let form = Form::AType(
        TypePlace::InPlace,
        TypeForm::Written(&member.ty),
        Some(&member.constraints),
    );
    let sites = with_site(sites, around, form)?;
    let sites = with_default(alloc, sites, around, member)?;
    Ok(sites)
}

/// The sites with members.
///
/// Err: want of memory.
fn with_members<'a>(
    alloc: Global,
    sites: List<Site<'a>>,
    around: &Rc<Around<'a>>,
    members: &'a [SequenceOrSetMember],
) -> Mem<List<Site<'a>>>
    ensures { IfOk result (λ more. shown_sites more ≡ shown_sites sites.entry ++ each_of (λ m. member_sites (shown_around around.now.value) (out-SequenceOrSetMember m)) members.now) }
{
    let mut sites = sites;
    for member in members {
        sites = with_member(alloc, sites, around, member)?;
    }
    Ok(sites)
}

/// The sites with the names behind COMPONENTS OF.
///
/// Err: want of memory.
fn with_names<'a>(
    sites: List<Site<'a>>,
    around: &Rc<Around<'a>>,
    names: &'a [Text],
) -> Mem<List<Site<'a>>>
    ensures { IfOk result (λ more. shown_sites more ≡ shown_sites sites.entry ++ map (λ name. beside (shown_around around.now.value) (ComponentsOf name)) names.now) }
{
    let mut sites = sites;
    for name in names {
        sites = with_site(sites, around, Form::ComponentsOf(name))?;
    }
    Ok(sites)
}

/// The sites with the components of a SEQUENCE or SET.
///
/// Err: want of memory.
#[tactic(auto, using(crate::proofs::Adding::then_more))]
fn with_struct<'a>(
    alloc: Global,
    sites: List<Site<'a>>,
    around: &Rc<Around<'a>>,
    layer: &'a SequenceOrSet,
) -> Mem<List<Site<'a>>>
    ensures { IfOk result (λ more. shown_sites more ≡ shown_sites sites.entry ++ struct_sites (shown_around around.now.value) (out-SequenceOrSet layer.now)) }
{
    let sites = with_members(alloc, sites, around, layer.members.as_slice())?;
    let sites = with_names(sites, around, layer.components_of.as_slice())?;
    Ok(sites)
}

/// The sites with an option's type.
///
/// Err: want of memory.
fn with_option<'a>(
    sites: List<Site<'a>>,
    around: &Rc<Around<'a>>,
    option: &'a ChoiceOption,
) -> Mem<List<Site<'a>>>
    ensures { IfOk result (λ more. shown_sites more ≡ shown_sites sites.entry ++ option_sites (shown_around around.now.value) (out-ChoiceOption option.now)) }
{
    let form = Form::AType(
        TypePlace::InPlace,
        TypeForm::Written(&option.ty),
        Some(&option.constraints),
    );
    let sites = with_site(sites, around, form)?;
    Ok(sites)
}

/// The sites with options.
///
/// Err: want of memory.
fn with_options<'a>(
    sites: List<Site<'a>>,
    around: &Rc<Around<'a>>,
    options: &'a [ChoiceOption],
) -> Mem<List<Site<'a>>>
    ensures { IfOk result (λ more. shown_sites more ≡ shown_sites sites.entry ++ each_of (λ o. option_sites (shown_around around.now.value) (out-ChoiceOption o)) options.now) }
{
    let mut sites = sites;
    for option in options {
        sites = with_option(sites, around, option)?;
    }
    Ok(sites)
}

/// The sites with a type that stands in a place and has nothing behind it.
///
/// Err: want of memory.
pub fn with_bare_type<'a>(
    sites: List<Site<'a>>,
    around: &Rc<Around<'a>>,
    at: TypePlace,
    ty: &'a ASN1Type,
) -> Mem<List<Site<'a>>>
    ensures { IfOk result (λ more. shown_sites more ≡ shown_sites sites.entry ++ beside (shown_around around.now.value) (AType (shown_at at) ty.now []) ∷ []) }
{
    let form = Form::AType(at, TypeForm::Written(ty), None);
    let sites = with_site(sites, around, form)?;
    Ok(sites)
}

/// The sites with the components of a type of this kind.
///
/// Err: want of memory.
#[tactic(auto, using(crate::proofs::Adding::nothing_more))]
pub fn with_components<'a>(
    alloc: Global,
    sites: List<Site<'a>>,
    around: &Rc<Around<'a>>,
    kind: Kind<'a>,
) -> Mem<List<Site<'a>>>
    ensures { IfOk result (λ more. shown_sites more ≡ shown_sites sites.entry ++ component_sites (shown_around around.now.value) (shown_kind kind.entry)) }
{
    match kind {
        Kind::Struct(layer) => {
            let sites = with_struct(alloc, sites, around, layer)?;
            Ok(sites)
        }
        Kind::Choice(options) => {
            let sites = with_options(sites, around, options.as_slice())?;
            Ok(sites)
        }
        Kind::List(ty) => {
            let sites = with_bare_type(sites, around, TypePlace::InPlace, ty)?;
            Ok(sites)
        }
        Kind::Null => Ok(sites),
        Kind::Boolean => Ok(sites),
        Kind::Integer(_) => Ok(sites),
        Kind::Real => Ok(sites),
        Kind::BitString(_) => Ok(sites),
        Kind::OctetString => Ok(sites),
        Kind::CharacterString(_) => Ok(sites),
        Kind::Time => Ok(sites),
        Kind::Enumerated(_) => Ok(sites),
        Kind::ObjectIdentifier => Ok(sites),
        Kind::Opaque => Ok(sites),
        Kind::Field(_) => Ok(sites),
        Kind::Reference(_) => Ok(sites),
        Kind::Selection(_) => Ok(sites),
    }
}
