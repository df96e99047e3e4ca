//! Values in a value under a SEQUENCE or SET (X.680 25.18, 27.7).

ghost use Rattle.asn_meaning_values.specs.Braces.{shown_named, shown_named_values};
ghost use Rattle.asn_meaning.specs.Answers.{once};
ghost use Rattle.asn_meaning.specs.Braces.{fields_written};
ghost use Rattle.asn_meaning.specs.Members.{member_named};
ghost use Rattle.asn_needs.specs.PartsOfValues.{arcs_parts, fields_under};
ghost use Rattle.asn_meaning_shapes.specs.Members.{shown_members};
ghost use Rattle.asn_places_types.specs.Sites.{shown_around, shown_sites};
ghost use Rattle.asn_places_values.specs.inner.Layouts.{shown_layout};
ghost use Rattle.std.specs.List.{list_all};
ghost use Rattle.std.specs.Prelude.{◌≡◌, ◌++◌, [], IfOk, is_some};

use crate::free::{with_fields, with_free_parts};
use crate::layouts::{Layout, written_in};
use crate::runs::{with_items, with_named};
use asn_meaning_shapes::{Member, member_named};
use asn_meaning_values::{NamedValue, fields_written};
use asn_memory::{List, Mem};
use asn_places_types::{Around, Site};
use std::alloc::Global;
use std::rc::Rc;

/// Whether a field has the name of a member.
fn is_member(members: &[Member<'_>], field: &NamedValue<'_>) -> bool
    ensures { result ≡ is_some (member_named (shown_members members.now) (shown_named field.now).0) }
{
    member_named(members, field.name.as_str()).is_some()
}

/// Whether each field has the name of a member.
fn are_members(members: &[Member<'_>], fields: &[NamedValue<'_>]) -> bool
    ensures { result ≡ list_all (λ f. is_some (member_named (shown_members members.now) f.0)) (shown_named_values fields.now) }
{
    for field in fields {
        if !is_member(members, field) {
            return false;
        }
    }
    true
}

/// The sites with fields that were read as arcs, where they fit.
///
/// Err: want of memory.
#[tactic(auto, using(crate::proofs::Running::arcs_fit, crate::proofs::Running::arcs_stay))]
fn with_fitting<'a>(
    alloc: Global,
    sites: List<Site<'a>>,
    around: &Rc<Around<'a>>,
    members: &[Member<'a>],
    fields: &[NamedValue<'a>],
) -> Mem<List<Site<'a>>>
    ensures { IfOk result (λ more. shown_sites more ≡ shown_sites sites.entry ++ arcs_parts (shown_around around.now.value) (shown_members members.now) (shown_named_values fields.now)) }
{
    if are_members(members, fields) {
        let sites = with_named(alloc, sites, around, members, fields)?;
        Ok(sites)
    } else {
        Ok(sites)
    }
}

/// The sites with what was read as arcs, where it fits as fields.
///
/// Err: want of memory.
#[tactic(auto, using(asn_places_types::proofs::Adding::nothing_more))]
fn with_arcs<'a>(
    alloc: Global,
    sites: List<Site<'a>>,
    around: &Rc<Around<'a>>,
    members: &[Member<'a>],
    layout: Layout<'a>,
) -> Mem<List<Site<'a>>>
    ensures { IfOk result (λ more. shown_sites more ≡ shown_sites sites.entry ++ once [] (fields_written (shown_layout layout.entry)) (arcs_parts (shown_around around.now.value) (shown_members members.now))) }
{
    let Some(fields) = fields_written(alloc, written_in(layout))? else {
        return Ok(sites);
    };
    let sites = with_fitting(alloc, sites, around, members, fields.as_slice())?;
    Ok(sites)
}

/// The sites with the values in a value under a SEQUENCE or SET with these members.
///
/// Err: want of memory.
pub fn with_fields_under<'a>(
    alloc: Global,
    sites: List<Site<'a>>,
    around: &Rc<Around<'a>>,
    members: &[Member<'a>],
    layout: Layout<'a>,
) -> Mem<List<Site<'a>>>
    ensures { IfOk result (λ more. shown_sites more ≡ shown_sites sites.entry ++ fields_under (shown_around around.now.value) (shown_members members.now) (shown_layout layout.entry)) }
{
    match layout {
        Layout::Items(items) => {
            let sites = with_items(alloc, sites, around, members, items.as_slice())?;
            Ok(sites)
        }
        Layout::Fields(_) => {
            let sites = with_fields(alloc, sites, around, members, layout)?;
            Ok(sites)
        }
        Layout::Arcs(_) => {
            let sites = with_arcs(alloc, sites, around, members, layout)?;
            Ok(sites)
        }
        Layout::Elements(_) => {
            let sites = with_free_parts(alloc, sites, around, layout)?;
            Ok(sites)
        }
        Layout::Alternative { .. } => {
            let sites = with_free_parts(alloc, sites, around, layout)?;
            Ok(sites)
        }
        Layout::Nested(_) => {
            let sites = with_free_parts(alloc, sites, around, layout)?;
            Ok(sites)
        }
        Layout::Plain => {
            let sites = with_free_parts(alloc, sites, around, layout)?;
            Ok(sites)
        }
    }
}
