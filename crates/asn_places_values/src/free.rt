//! Values in a value that no type governs, and those that are fields or elements.

ghost use Rattle.asn_meaning.specs.Answers.{once};
ghost use Rattle.asn_meaning.specs.Braces.{elements_written, fields_written};
ghost use Rattle.asn_needs.specs.PartsOfValues.{free_parts, inside, named_parts};
ghost use Rattle.asn_meaning_shapes.specs.Members.{shown_members};
ghost use Rattle.asn_places_types.specs.Sites.{shown_around, shown_sites};
ghost use Rattle.asn_places_values.specs.inner.Layouts.{shown_layout};
ghost use Rattle.std.specs.Prelude.{◌≡◌, ◌++◌, [], IfOk, None, map};

use crate::layouts::{Layout, written_in};
use crate::runs::{with_elements, with_inside, with_items, with_named};
use asn_meaning_heads::ValueForm;
use asn_meaning_shapes::Member;
use asn_meaning_values::{elements_written, fields_written};
use asn_memory::{Box, List, Mem, Text};
use asn_places_types::{Around, Site};
use asn_tree::ASN1Value;
use std::alloc::Global;
use std::rc::Rc;

/// The sites with the fields of a value, each under the member of its name; none where it has no fields (X.680 25.18, 27.7).
///
/// Err: want of memory.
#[tactic(auto, using(asn_places_types::proofs::Adding::nothing_more))]
pub fn with_fields<'a>(
    alloc: Global,
    sites: List<Site<'a>>,
    around: &Rc<Around<'a>>,
    members: &[Member<'a>],
    layout: Layout<'a>,
) -> Mem<List<Site<'a>>>
    ensures { IfOk result (λ more. shown_sites more ≡ shown_sites sites.entry ++ once [] (fields_written (shown_layout layout.entry)) (named_parts (shown_around around.now.value) (shown_members members.now))) }
{
    let Some(fields) = fields_written(alloc, written_in(layout))? else {
        return Ok(sites);
    };
    let sites = with_named(alloc, sites, around, members, fields.as_slice())?;
    Ok(sites)
}

/// The sites with the elements of a value under no type; none where it has no elements (X.680 26.3, 28.3).
///
/// Err: want of memory.
#[tactic(auto, using(asn_places_types::proofs::Adding::nothing_more))]
fn with_free_elements<'a>(
    alloc: Global,
    sites: List<Site<'a>>,
    around: &Rc<Around<'a>>,
    layout: Layout<'a>,
) -> Mem<List<Site<'a>>>
    ensures { IfOk result (λ more. shown_sites more ≡ shown_sites sites.entry ++ once [] (elements_written (shown_layout layout.entry)) (map (inside (shown_around around.now.value) None))) }
{
    let Some(values) = elements_written(alloc, written_in(layout))? else {
        return Ok(sites);
    };
    let sites = with_elements(alloc, sites, around, None, values.as_slice())?;
    Ok(sites)
}

/// The sites with items under no type.
///
/// Err: want of memory.
#[tactic(auto, using(crate::proofs::Running::free_items))]
fn with_free_items<'a>(
    alloc: Global,
    sites: List<Site<'a>>,
    around: &Rc<Around<'a>>,
    items: &'a [(Option<Text>, Box<ASN1Value>)],
) -> Mem<List<Site<'a>>>
    ensures { IfOk result (λ more. shown_sites more ≡ shown_sites sites.entry ++ map (λ item. inside (shown_around around.now.value) None item.1) items.now) }
{
    let sites = with_items(alloc, sites, around, &[], items)?;
    Ok(sites)
}

/// The sites with the fields of a linked value under no type.
///
/// Err: want of memory.
fn with_free_fields<'a>(
    alloc: Global,
    sites: List<Site<'a>>,
    around: &Rc<Around<'a>>,
    layout: Layout<'a>,
) -> Mem<List<Site<'a>>>
    ensures { IfOk result (λ more. shown_sites more ≡ shown_sites sites.entry ++ once [] (fields_written (shown_layout layout.entry)) (map (λ f. inside (shown_around around.now.value) None f.1))) }
{
    let sites = with_fields(alloc, sites, around, &[], layout)?;
    Ok(sites)
}

/// The sites with the values that stand in a value, under no type; arcs stay arcs.
///
/// Err: want of memory.
#[tactic(auto, using(asn_places_types::proofs::Adding::nothing_more))]
pub fn with_free_parts<'a>(
    alloc: Global,
    sites: List<Site<'a>>,
    around: &Rc<Around<'a>>,
    layout: Layout<'a>,
) -> Mem<List<Site<'a>>>
    ensures { IfOk result (λ more. shown_sites more ≡ shown_sites sites.entry ++ free_parts (shown_around around.now.value) (shown_layout layout.entry)) }
{
    match layout {
        Layout::Items(items) => {
            let sites = with_free_items(alloc, sites, around, items.as_slice())?;
            Ok(sites)
        }
        Layout::Fields(_) => {
            let sites = with_free_fields(alloc, sites, around, layout)?;
            Ok(sites)
        }
        Layout::Elements(_) => {
            let sites = with_free_elements(alloc, sites, around, layout)?;
            Ok(sites)
        }
        Layout::Arcs(_) => Ok(sites),
        Layout::Alternative { value, .. } => {
            let sites = with_inside(sites, around, None, ValueForm::Written(value))?;
            Ok(sites)
        }
        Layout::Nested(value) => {
            let sites = with_inside(sites, around, None, ValueForm::Written(value))?;
            Ok(sites)
        }
        Layout::Plain => Ok(sites),
    }
}
