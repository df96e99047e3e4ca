//! Objects (X.681 11).

ghost use Rattle.asn_meaning.specs.Answers.{once};
ghost use Rattle.asn_needs.specs.PartsOfObjects.{becomes, items_name, object_parts};
ghost use Rattle.asn_needs.specs.Sites.{beside, SetName};
ghost use Rattle.asn_places_objects.specs.inner.Fields.{given_site};
ghost use Rattle.asn_places_types.specs.Forms.{shown_of_class};
ghost use Rattle.asn_places_types.specs.Sites.{shown_around, shown_sites};
ghost use Rattle.asn_tree.specs.declared.objects.InformationObjectFields.{out-InformationObjectFields};
ghost use Rattle.std.specs.Prelude.{◌≡◌, ◌++◌, ◌∷◌, [], IfOk, map};

use crate::set_names::items_name;
use asn_meaning_fields::given_fields;
use asn_meaning_heads::GivenField;
use asn_memory::{List, Mem};
use asn_names_index::{Class, Names};
use asn_places_types::{Around, Form, Site, with_site};
use asn_tree::InformationObjectFields;
use std::alloc::Global;
use std::rc::Rc;

/// The sites with fields that an object of the class gives.
///
/// Err: want of memory.
fn with_fields<'a>(
    sites: List<Site<'a>>,
    around: &Rc<Around<'a>>,
    class: Option<Class<'a>>,
    fields: &[GivenField<'a>],
) -> Mem<List<Site<'a>>>
    ensures { IfOk result (λ more. shown_sites more ≡ shown_sites sites.entry ++ map (given_site (shown_around around.now.value) (shown_of_class class.entry)) fields.now) }
{
    let mut sites = sites;
    for field in fields {
        sites = with_site(sites, around, Form::AGivenField(class, *field))?;
    }
    Ok(sites)
}

/// The sites with the set that the first item of an object names, where it names one.
///
/// Err: want of memory.
#[tactic(auto, using(asn_places_types::proofs::Adding::nothing_more))]
fn with_first<'a>(
    names: &Names<'a>,
    sites: List<Site<'a>>,
    around: &Rc<Around<'a>>,
    fields: &'a InformationObjectFields,
) -> Mem<List<Site<'a>>>
    ensures { IfOk result (λ more. shown_sites more ≡ shown_sites sites.entry ++ map (λ name. beside (shown_around around.now.value) (SetName name)) (once [] (items_name names.now.definitions.now (out-InformationObjectFields fields.now)) (λ name. name ∷ []))) }
{
    match items_name(names, fields) {
        None => Ok(sites),
        Some(name) => {
            let sites = with_site(sites, around, Form::SetName(name))?;
            Ok(sites)
        }
    }
}

/// The sites with the set that an object of the class becomes, where its first item names one. None: there is no class.
///
/// Err: want of memory.
#[tactic(auto, using(asn_places_types::proofs::Adding::nothing_more))]
fn with_becoming<'a>(
    names: &Names<'a>,
    sites: List<Site<'a>>,
    around: &Rc<Around<'a>>,
    class: Option<Class<'a>>,
    fields: &'a InformationObjectFields,
) -> Mem<List<Site<'a>>>
    ensures { IfOk result (λ more. shown_sites more ≡ shown_sites sites.entry ++ map (λ name. beside (shown_around around.now.value) (SetName name)) (becomes names.now.definitions.now (shown_of_class class.entry) (out-InformationObjectFields fields.now))) }
{
    match class {
        None => Ok(sites),
        Some(_) => {
            let sites = with_first(names, sites, around, fields)?;
            Ok(sites)
        }
    }
}

/// The sites with what stands in an object of the class: the fields that it gives, or where its items do not follow the class's own
/// syntax the set that its first item names. None: there is no class.
///
/// Err: want of memory.
#[tactic(auto, using(crate::proofs::Becoming::object_given, crate::proofs::Becoming::object_becomes))]
pub fn with_object<'a>(
    alloc: Global,
    names: &Names<'a>,
    sites: List<Site<'a>>,
    around: &Rc<Around<'a>>,
    class: Option<Class<'a>>,
    fields: &'a InformationObjectFields,
) -> Mem<List<Site<'a>>>
    ensures { IfOk result (λ more. shown_sites more ≡ shown_sites sites.entry ++ object_parts names.now.definitions.now (shown_around around.now.value) (shown_of_class class.entry) (out-InformationObjectFields fields.now)) }
{
    match given_fields(alloc, class, fields)? {
        None => {
            let sites = with_becoming(names, sites, around, class, fields)?;
            Ok(sites)
        }
        Some(given) => {
            let sites = with_fields(sites, around, class, given.as_slice())?;
            Ok(sites)
        }
    }
}
