//! Object sets (X.681 12).

ghost use Rattle.asn_names_index.specs.Classes.{shown_class};
ghost use Rattle.asn_needs.specs.PartsOfObjects.{inline_sites, item_sites, loose_fields, set_items, written_fields};
ghost use Rattle.asn_needs.specs.Sites.{beside, each_of, LooseField};
ghost use Rattle.asn_places_types.specs.Forms.{shown_of_class, shown_set};
ghost use Rattle.asn_places_types.specs.Sites.{shown_around, shown_sites};
ghost use Rattle.asn_tree.specs.declared.objects.InformationObjectFields.{out-InformationObjectFields};
ghost use Rattle.std.specs.Prelude.{◌≡◌, ◌++◌, IfOk, Some, map};

use asn_memory::{List, Mem};
use asn_names_index::Class;
use asn_places_types::{Around, Form, SetForm, Site, with_site};
use asn_tree::{InformationObjectField, InformationObjectFields, ObjectSetValue};
use std::rc::Rc;

/// The fields that stand by their names; items in custom syntax have no known names where the class is not asked.
fn written_fields<'a>(fields: &'a InformationObjectFields) -> &'a [InformationObjectField]
    ensures { result.now ≡ written_fields (out-InformationObjectFields fields.now) }
{
    match fields {
        InformationObjectFields::DefaultSyntax(fields) => fields.as_slice(),
        InformationObjectFields::CustomSyntax(_) => &[],
    }
}

/// The sites with fields of an object whose class is not asked.
///
/// Err: want of memory.
fn with_fields<'a>(
    sites: List<Site<'a>>,
    around: &Rc<Around<'a>>,
    fields: &'a [InformationObjectField],
) -> Mem<List<Site<'a>>>
    ensures { IfOk result (λ more. shown_sites more ≡ shown_sites sites.entry ++ map (λ f. beside (shown_around around.now.value) (LooseField f)) fields.now) }
{
    let mut sites = sites;
    for field in fields {
        sites = with_site(sites, around, Form::LooseField(field))?;
    }
    Ok(sites)
}

/// The sites with what an object whose class is not asked gives by name.
///
/// Err: want of memory.
pub fn with_loose_fields<'a>(
    sites: List<Site<'a>>,
    around: &Rc<Around<'a>>,
    fields: &'a InformationObjectFields,
) -> Mem<List<Site<'a>>>
    ensures { IfOk result (λ more. shown_sites more ≡ shown_sites sites.entry ++ loose_fields (shown_around around.now.value) fields.now) }
{
    let written = written_fields(fields);
    let sites = with_fields(sites, around, written)?;
    Ok(sites)
}

/// The sites with an object of the class that stands in a set: in a content or table constraint the class is not asked.
///
/// Err: want of memory.
fn with_classed<'a>(
    sites: List<Site<'a>>,
    around: &Rc<Around<'a>>,
    class: Class<'a>,
    fields: &'a InformationObjectFields,
) -> Mem<List<Site<'a>>>
    ensures { IfOk result (λ more. shown_sites more ≡ shown_sites sites.entry ++ inline_sites (shown_around around.now.value) (Some (shown_class class.entry)) fields.now) }
{
    let here = around.as_ref();
    if here.is_opaque {
        let sites = with_loose_fields(sites, around, fields)?;
        Ok(sites)
    } else {
        let sites = with_site(sites, around, Form::AnObject(Some(class), fields))?;
        Ok(sites)
    }
}

/// The sites with an object that stands in a set.
///
/// Err: want of memory.
fn with_inline<'a>(
    sites: List<Site<'a>>,
    around: &Rc<Around<'a>>,
    class: Option<Class<'a>>,
    fields: &'a InformationObjectFields,
) -> Mem<List<Site<'a>>>
    ensures { IfOk result (λ more. shown_sites more ≡ shown_sites sites.entry ++ inline_sites (shown_around around.now.value) (shown_of_class class.entry) fields.now) }
{
    match class {
        None => {
            let sites = with_loose_fields(sites, around, fields)?;
            Ok(sites)
        }
        Some(class) => {
            let sites = with_classed(sites, around, class, fields)?;
            Ok(sites)
        }
    }
}

/// The sites with an item of a set.
///
/// Err: want of memory.
fn with_item<'a>(
    sites: List<Site<'a>>,
    around: &Rc<Around<'a>>,
    class: Option<Class<'a>>,
    item: &'a ObjectSetValue,
) -> Mem<List<Site<'a>>>
    ensures { IfOk result (λ more. shown_sites more ≡ shown_sites sites.entry ++ item_sites (shown_around around.now.value) (shown_of_class class.entry) item.now) }
{
    match item {
        ObjectSetValue::Reference(name) => {
            let sites = with_site(sites, around, Form::SetName(name))?;
            Ok(sites)
        }
        ObjectSetValue::Inline(fields) => {
            let sites = with_inline(sites, around, class, fields)?;
            Ok(sites)
        }
    }
}

/// The sites with items of a set.
///
/// Err: want of memory.
fn with_items<'a>(
    sites: List<Site<'a>>,
    around: &Rc<Around<'a>>,
    class: Option<Class<'a>>,
    items: &'a [ObjectSetValue],
) -> Mem<List<Site<'a>>>
    ensures { IfOk result (λ more. shown_sites more ≡ shown_sites sites.entry ++ each_of (item_sites (shown_around around.now.value) (shown_of_class class.entry)) items.now) }
{
    let mut sites = sites;
    for item in items {
        sites = with_item(sites, around, class, item)?;
    }
    Ok(sites)
}

/// The sites with the items of an object set of the class. None: the class is not asked.
///
/// Err: want of memory.
#[tactic(auto, using(asn_places_types::proofs::Adding::nothing_more))]
pub fn with_set_items<'a>(
    sites: List<Site<'a>>,
    around: &Rc<Around<'a>>,
    class: Option<Class<'a>>,
    set: SetForm<'a>,
) -> Mem<List<Site<'a>>>
    ensures { IfOk result (λ more. shown_sites more ≡ shown_sites sites.entry ++ set_items (shown_around around.now.value) (shown_of_class class.entry) (shown_set set.entry)) }
{
    match set {
        SetForm::Written(set) => {
            let sites = with_items(sites, around, class, set.values.as_slice())?;
            Ok(sites)
        }
        SetForm::Named(name) => {
            let sites = with_site(sites, around, Form::SetName(name))?;
            Ok(sites)
        }
        SetForm::Nothing => Ok(sites),
    }
}
