//! Values in a value, one behind the other, each under its type.

ghost use Rattle.asn_meaning_values.specs.Braces.{shown_named, shown_named_values, shown_values};
ghost use Rattle.asn_meaning_heads.specs.Places.{shown_place};
ghost use Rattle.asn_meaning_heads.specs.Values.{shown_value};
ghost use Rattle.asn_needs.specs.PartsOfValues.{inside, item_type, member_type, named_parts};
ghost use Rattle.asn_meaning_shapes.specs.Members.{shown_members};
ghost use Rattle.asn_places_types.specs.Forms.{shown_governor};
ghost use Rattle.asn_places_types.specs.Sites.{shown_around, shown_sites};
ghost use Rattle.std.specs.Option.{option_copied, option_map};
ghost use Rattle.std.specs.Prelude.{◌≡◌, ◌++◌, ◌∷◌, [], IfOk, map};

use asn_meaning_heads::{Place, ValueForm};
use asn_meaning_shapes::{Member, member_type};
use asn_meaning_values::NamedValue;
use asn_memory::{Box, List, Mem, Text};
use asn_places_types::{
    Around, Form, Site, ValuePlace, governor_boxed, governor_copied, with_site,
};
use asn_tree::ASN1Value;
use std::alloc::Global;
use std::rc::Rc;

/// The sites with a value inside another, under the type that governs it, where there is one.
///
/// Err: want of memory.
pub fn with_inside<'a>(
    sites: List<Site<'a>>,
    around: &Rc<Around<'a>>,
    governor: Option<Box<Place<'a>>>,
    value: ValueForm<'a>,
) -> Mem<List<Site<'a>>>
    ensures { IfOk result (λ more. shown_sites more ≡ shown_sites sites.entry ++ inside (shown_around around.now.value) (shown_governor governor.entry) (shown_value value.entry) ∷ []) }
{
    let form = Form::AValue(ValuePlace::Inside, value, governor);
    let sites = with_site(sites, around, form)?;
    Ok(sites)
}

/// The type of the member of the name, where there is one.
///
/// Err: want of memory.
fn named_governor<'a>(
    alloc: Global,
    members: &[Member<'a>],
    name: &str,
) -> Mem<Option<Box<Place<'a>>>>
    ensures { IfOk result (λ governor. shown_governor governor ≡ member_type (shown_members members.now) name.now) }
{
    let governor = member_type(alloc, members, name)?;
    let governor = governor_boxed(alloc, governor)?;
    Ok(governor)
}

/// The type of the member of an item's name, where the item has a name and there is such a member.
///
/// Err: want of memory.
fn item_governor<'a>(
    alloc: Global,
    members: &[Member<'a>],
    name: Option<&Text>,
) -> Mem<Option<Box<Place<'a>>>>
    ensures { IfOk result (λ governor. shown_governor governor ≡ item_type (shown_members members.now) (option_copied name.entry)) }
{
    match name {
        None => Ok(None),
        Some(name) => {
            let governor = named_governor(alloc, members, name.as_str())?;
            Ok(governor)
        }
    }
}

/// The sites with an item under the member of its name.
///
/// Err: want of memory.
fn with_item<'a>(
    alloc: Global,
    sites: List<Site<'a>>,
    around: &Rc<Around<'a>>,
    members: &[Member<'a>],
    item: &'a (Option<Text>, Box<ASN1Value>),
) -> Mem<List<Site<'a>>>
    ensures { IfOk result (λ more. shown_sites more ≡ shown_sites sites.entry ++ inside (shown_around around.now.value) (item_type (shown_members members.now) item.now.0) item.now.1 ∷ []) }
{
    let governor = item_governor(alloc, members, item.0.as_ref())?;
    let sites = with_inside(sites, around, governor, ValueForm::Written(item.1.get()))?;
    Ok(sites)
}

/// The sites with items, each under the member of its name, as far as there is one (X.680 25.18, 27.7).
///
/// Err: want of memory.
pub fn with_items<'a>(
    alloc: Global,
    sites: List<Site<'a>>,
    around: &Rc<Around<'a>>,
    members: &[Member<'a>],
    items: &'a [(Option<Text>, Box<ASN1Value>)],
) -> Mem<List<Site<'a>>>
    ensures { IfOk result (λ more. shown_sites more ≡ shown_sites sites.entry ++ map (λ item. inside (shown_around around.now.value) (item_type (shown_members members.now) item.0) item.1) items.now) }
{
    let mut sites = sites;
    for item in items {
        sites = with_item(alloc, sites, around, members, item)?;
    }
    Ok(sites)
}

/// The sites with a field under the member of its name.
///
/// Err: want of memory.
fn with_field<'a>(
    alloc: Global,
    sites: List<Site<'a>>,
    around: &Rc<Around<'a>>,
    members: &[Member<'a>],
    field: &NamedValue<'a>,
) -> Mem<List<Site<'a>>>
    ensures { IfOk result (λ more. shown_sites more ≡ shown_sites sites.entry ++ inside (shown_around around.now.value) (member_type (shown_members members.now) (shown_named field.now).0) (shown_named field.now).1 ∷ []) }
{
    let governor = named_governor(alloc, members, field.name.as_str())?;
    let sites = with_inside(sites, around, governor, field.value)?;
    Ok(sites)
}

/// The sites with fields, each under the member of its name, as far as there is one.
///
/// Err: want of memory.
pub fn with_named<'a>(
    alloc: Global,
    sites: List<Site<'a>>,
    around: &Rc<Around<'a>>,
    members: &[Member<'a>],
    fields: &[NamedValue<'a>],
) -> Mem<List<Site<'a>>>
    ensures { IfOk result (λ more. shown_sites more ≡ shown_sites sites.entry ++ named_parts (shown_around around.now.value) (shown_members members.now) (shown_named_values fields.now)) }
{
    let mut sites = sites;
    for field in fields {
        sites = with_field(alloc, sites, around, members, field)?;
    }
    Ok(sites)
}

/// The sites with an element under the type of the elements, where there is one.
///
/// Err: want of memory.
fn with_element<'a>(
    alloc: Global,
    sites: List<Site<'a>>,
    around: &Rc<Around<'a>>,
    element: Option<&Place<'a>>,
    value: ValueForm<'a>,
) -> Mem<List<Site<'a>>>
    ensures { IfOk result (λ more. shown_sites more ≡ shown_sites sites.entry ++ inside (shown_around around.now.value) (option_map (λ p. shown_place p.now) element.entry) (shown_value value.entry) ∷ []) }
{
    let governor = governor_copied(alloc, element)?;
    let governor = governor_boxed(alloc, governor)?;
    let sites = with_inside(sites, around, governor, value)?;
    Ok(sites)
}

/// The sites with elements, each under the type of the elements, where there is one.
///
/// Err: want of memory.
pub fn with_elements<'a>(
    alloc: Global,
    sites: List<Site<'a>>,
    around: &Rc<Around<'a>>,
    element: Option<&Place<'a>>,
    values: &[ValueForm<'a>],
) -> Mem<List<Site<'a>>>
    ensures { IfOk result (λ more. shown_sites more ≡ shown_sites sites.entry ++ map (inside (shown_around around.now.value) (option_map (λ p. shown_place p.now) element.entry)) (shown_values values.now)) }
{
    let mut sites = sites;
    for value in values {
        sites = with_element(alloc, sites, around, element, *value)?;
    }
    Ok(sites)
}
