//! Fields of classes (X.681 9).

ghost use Rattle.asn_meaning.specs.Accepts.{place};
ghost use Rattle.asn_meaning.specs.Answers.{once};
ghost use Rattle.asn_needs.specs.PartsOfObjects.{class_field_sites, field_default_sites, field_type_sites};
ghost use Rattle.asn_places_types.specs.Forms.{shown_at, shown_field, shown_governor};
ghost use Rattle.asn_places_types.specs.Sites.{shown_around, shown_sites};
ghost use Rattle.std.specs.Prelude.{◌≡◌, ◌++◌, IfOk, None, Some};

use asn_meaning_heads::{Place, TypeForm, ValueForm};
use asn_memory::{Box, List, Mem};
use asn_places_types::{
    Around, ClassFieldForm, Form, Site, TypePlace, ValuePlace, governor_here, with_bare_type,
    with_site,
};
use asn_tree::InformationObjectClassField;
use std::alloc::Global;
use std::rc::Rc;

/// The sites with the type of a class's field, where it has one.
///
/// Err: want of memory.
#[tactic(auto, using(asn_places_types::proofs::Adding::nothing_more))]
fn with_field_type<'a>(
    sites: List<Site<'a>>,
    around: &Rc<Around<'a>>,
    at: TypePlace,
    field: &'a InformationObjectClassField,
) -> Mem<List<Site<'a>>>
    ensures { IfOk result (λ more. shown_sites more ≡ shown_sites sites.entry ++ field_type_sites (shown_around around.now.value) (shown_at at) field.now.ty) }
{
    match &field.ty {
        None => Ok(sites),
        Some(ty) => {
            let sites = with_bare_type(sites, around, at, ty)?;
            Ok(sites)
        }
    }
}

/// The type of a class's field in the scope of these surroundings, as one that governs, where it has one.
///
/// Err: want of memory.
fn type_of_field<'a>(
    alloc: Global,
    around: &Rc<Around<'a>>,
    field: &'a InformationObjectClassField,
) -> Mem<Option<Box<Place<'a>>>>
    ensures { IfOk result (λ p. shown_governor p ≡ once None field.now.ty (λ ty. Some (place (shown_around around.now.value).scope ty))) }
{
    match &field.ty {
        None => Ok(None),
        Some(ty) => {
            let governor = governor_here(alloc, around, TypeForm::Written(ty))?;
            Ok(governor)
        }
    }
}

/// The sites with the default value of a class's field, where it has one.
///
/// Err: want of memory.
#[tactic(auto, using(asn_places_types::proofs::Adding::nothing_more))]
fn with_field_default<'a>(
    alloc: Global,
    sites: List<Site<'a>>,
    around: &Rc<Around<'a>>,
    field: &'a InformationObjectClassField,
) -> Mem<List<Site<'a>>>
    ensures { IfOk result (λ more. shown_sites more ≡ shown_sites sites.entry ++ field_default_sites (shown_around around.now.value) field.now.ty field.now.default) }
{
    match &field.default {
        None => Ok(sites),
        Some(value) => {
            let governor = type_of_field(alloc, around, field)?;
            let form = Form::AValue(ValuePlace::AsSuch, ValueForm::Written(value), governor);
            let sites = with_site(sites, around, form)?;
            Ok(sites)
        }
    }
}

/// The sites with the type and the default value of a class's field of a tree.
///
/// Err: want of memory.
#[tactic(auto, using(asn_places_types::proofs::Adding::then_more))]
fn with_written_field<'a>(
    alloc: Global,
    sites: List<Site<'a>>,
    around: &Rc<Around<'a>>,
    at: TypePlace,
    field: &'a InformationObjectClassField,
) -> Mem<List<Site<'a>>>
    ensures { IfOk result (λ more. shown_sites more ≡ shown_sites sites.entry ++ class_field_sites (shown_around around.now.value) (shown_at at) field.now) }
{
    let sites = with_field_type(sites, around, at, field)?;
    let sites = with_field_default(alloc, sites, around, field)?;
    Ok(sites)
}

/// The sites with the type and the default value of a class's field.
///
/// Err: want of memory.
#[tactic(auto, using(asn_places_types::proofs::Adding::nothing_more))]
pub fn with_class_field<'a>(
    alloc: Global,
    sites: List<Site<'a>>,
    around: &Rc<Around<'a>>,
    at: TypePlace,
    field: ClassFieldForm<'a>,
) -> Mem<List<Site<'a>>>
    ensures { IfOk result (λ more. shown_sites more ≡ shown_sites sites.entry ++ class_field_sites (shown_around around.now.value) (shown_at at) (shown_field field.entry)) }
{
    match field {
        ClassFieldForm::Written(field) => {
            let sites = with_written_field(alloc, sites, around, at, field)?;
            Ok(sites)
        }
        ClassFieldForm::Identifier => {
            let form = Form::AType(at, TypeForm::ObjectIdentifier, None);
            let sites = with_site(sites, around, form)?;
            Ok(sites)
        }
        ClassFieldForm::IdentifiedType => Ok(sites),
    }
}
