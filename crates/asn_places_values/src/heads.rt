//! Values in a value under a head.

ghost use Rattle.asn_meaning_heads.specs.Places.{shown_place};
ghost use Rattle.asn_meaning.specs.Accepts.{place};
ghost use Rattle.asn_meaning.specs.Answers.{once};
ghost use Rattle.asn_meaning.specs.Judge.{meaning};
ghost use Rattle.asn_meaning.specs.Kinds.{kind_of};
ghost use Rattle.asn_meaning.specs.Members.{element_place};
ghost use Rattle.asn_meaning.specs.Names.{option_named, options_of};
ghost use Rattle.asn_needs.specs.PartsOfValues.{bits_under, elements_under, inside, option_under, parts_under, struct_under};
ghost use Rattle.asn_places_types.specs.Sites.{shown_around, shown_sites};
ghost use Rattle.asn_places_values.specs.inner.Layouts.{shown_layout};
ghost use Rattle.std.specs.Option.{option_map};
ghost use Rattle.std.specs.Prelude.{◌≡◌, ◌+◌, ◌++◌, ◌∷◌, [], IfOk, None, Some, ℕ};

use crate::fields::with_fields_under;
use crate::free::with_free_parts;
use crate::layouts::{Layout, Parting, parting_of, written_in};
use crate::runs::{with_elements, with_inside};
use asn_meaning_heads::{Place, ValueForm, kind_of, options_of};
use asn_meaning_shapes::{element_place, members_of, option_type};
use asn_meaning_values::elements_written;
use asn_memory::{List, Mem};
use asn_names_index::Names;
use asn_places_types::{Around, Site, governor_boxed, lent};
use asn_tree::ASN1Value;
use std::alloc::Global;
use std::rc::Rc;

/// The sites with elements under the type of the elements (X.680 26.3, 28.3).
///
/// Err: want of memory.
fn with_elements_under<'a>(
    alloc: Global,
    sites: List<Site<'a>>,
    around: &Rc<Around<'a>>,
    element: Option<&Place<'a>>,
    layout: Layout<'a>,
) -> Mem<List<Site<'a>>>
    ensures { IfOk result (λ more. shown_sites more ≡ shown_sites sites.entry ++ elements_under (shown_around around.now.value) (option_map (λ p. shown_place p.now) element.entry) (shown_layout layout.entry)) }
{
    match elements_written(alloc, written_in(layout))? {
        None => {
            let sites = with_free_parts(alloc, sites, around, layout)?;
            Ok(sites)
        }
        Some(values) => {
            let sites = with_elements(alloc, sites, around, element, values.as_slice())?;
            Ok(sites)
        }
    }
}

/// The sites with the values in a value under a SEQUENCE OF or SET OF.
///
/// Err: want of memory.
fn with_list<'a>(
    alloc: Global,
    sites: List<Site<'a>>,
    around: &Rc<Around<'a>>,
    head: &Place<'a>,
    layout: Layout<'a>,
) -> Mem<List<Site<'a>>>
    ensures { IfOk result (λ more. shown_sites more ≡ shown_sites sites.entry ++ elements_under (shown_around around.now.value) (element_place (shown_place head.now)) (shown_layout layout.entry)) }
{
    let element = element_place(alloc, head)?;
    let sites = with_elements_under(alloc, sites, around, lent(&element), layout)?;
    Ok(sites)
}

/// The sites with the value of an alternative under the option of its name, where there is one (X.680 29.11).
///
/// Err: want of memory.
fn with_option<'a>(
    alloc: Global,
    sites: List<Site<'a>>,
    around: &Rc<Around<'a>>,
    head: &Place<'a>,
    name: &str,
    value: &'a ASN1Value,
) -> Mem<List<Site<'a>>>
    ensures { IfOk result (λ more. shown_sites more ≡ shown_sites sites.entry ++ inside (shown_around around.now.value) (once None (option_named (options_of (shown_place head.now)) name.now) (λ o. Some (place (shown_place head.now).scope o.ty))) value.now ∷ []) }
{
    let governor = option_type(alloc, &head.scope, options_of(head.ty), name)?;
    let governor = governor_boxed(alloc, governor)?;
    let sites = with_inside(sites, around, governor, ValueForm::Written(value))?;
    Ok(sites)
}

/// The sites with the values in a value under a CHOICE.
///
/// Err: want of memory.
fn with_choice<'a>(
    alloc: Global,
    sites: List<Site<'a>>,
    around: &Rc<Around<'a>>,
    head: &Place<'a>,
    layout: Layout<'a>,
) -> Mem<List<Site<'a>>>
    ensures { IfOk result (λ more. shown_sites more ≡ shown_sites sites.entry ++ option_under (shown_around around.now.value) (shown_place head.now) (shown_layout layout.entry)) }
{
    match layout {
        Layout::Alternative { name, value } => {
            let sites = with_option(alloc, sites, around, head, name.as_str(), value)?;
            Ok(sites)
        }
        Layout::Items(_) => {
            let sites = with_free_parts(alloc, sites, around, layout)?;
            Ok(sites)
        }
        Layout::Fields(_) => {
            let sites = with_free_parts(alloc, sites, around, layout)?;
            Ok(sites)
        }
        Layout::Elements(_) => {
            let sites = with_free_parts(alloc, sites, around, layout)?;
            Ok(sites)
        }
        Layout::Arcs(_) => {
            let sites = with_free_parts(alloc, sites, around, layout)?;
            Ok(sites)
        }
        Layout::Nested(_) => {
            let sites = with_free_parts(alloc, sites, around, layout)?;
            Ok(sites)
        }
        Layout::Plain => {
            let sites = with_free_parts(alloc, sites, around, layout)?;
            Ok(sites)
        }
    }
}

/// The sites with the values in a value under a BIT STRING, where items between braces are names of bits (X.680 22.9).
///
/// Err: want of memory.
#[tactic(auto, using(asn_places_types::proofs::Adding::nothing_more))]
fn with_bits<'a>(
    alloc: Global,
    sites: List<Site<'a>>,
    around: &Rc<Around<'a>>,
    layout: Layout<'a>,
) -> Mem<List<Site<'a>>>
    ensures { IfOk result (λ more. shown_sites more ≡ shown_sites sites.entry ++ bits_under (shown_around around.now.value) (shown_layout layout.entry)) }
{
    match layout {
        Layout::Items(_) => Ok(sites),
        Layout::Fields(_) => {
            let sites = with_free_parts(alloc, sites, around, layout)?;
            Ok(sites)
        }
        Layout::Elements(_) => {
            let sites = with_free_parts(alloc, sites, around, layout)?;
            Ok(sites)
        }
        Layout::Arcs(_) => {
            let sites = with_free_parts(alloc, sites, around, layout)?;
            Ok(sites)
        }
        Layout::Alternative { .. } => {
            let sites = with_free_parts(alloc, sites, around, layout)?;
            Ok(sites)
        }
        Layout::Nested(_) => {
            let sites = with_free_parts(alloc, sites, around, layout)?;
            Ok(sites)
        }
        Layout::Plain => {
            let sites = with_free_parts(alloc, sites, around, layout)?;
            Ok(sites)
        }
    }
}

/// The sites with the values in a value under a SEQUENCE or SET, where its members are known.
///
/// Err: want of memory, also where the steps are used up.
fn with_struct<'a>(
    alloc: Global,
    names: &Names<'a>,
    steps: usize,
    sites: List<Site<'a>>,
    around: &Rc<Around<'a>>,
    head: &Place<'a>,
    layout: Layout<'a>,
) -> Mem<List<Site<'a>>>
    ensures { IfOk result (λ more. (m : ℕ) → shown_sites more ≡ shown_sites sites.entry ++ struct_under (meaning names.now.definitions.now (steps + m)) (shown_around around.now.value) (shown_place head.now) (shown_layout layout.entry)) }
{
    match members_of(alloc, names, steps, head)? {
        None => {
            let sites = with_free_parts(alloc, sites, around, layout)?;
            Ok(sites)
        }
        Some(members) => {
            let sites = with_fields_under(alloc, sites, around, members.as_slice(), layout)?;
            Ok(sites)
        }
    }
}

/// The sites with the values in a value under a head.
///
/// Err: want of memory, also where the steps are used up.
#[tactic(auto, using(crate::proofs::Dividing::by_member, crate::proofs::Dividing::by_element, crate::proofs::Dividing::by_option, crate::proofs::Dividing::by_bit, crate::proofs::Dividing::by_nothing))]
pub fn with_parts_under<'a>(
    alloc: Global,
    names: &Names<'a>,
    steps: usize,
    sites: List<Site<'a>>,
    around: &Rc<Around<'a>>,
    head: &Place<'a>,
    layout: Layout<'a>,
) -> Mem<List<Site<'a>>>
    ensures { IfOk result (λ more. (m : ℕ) → shown_sites more ≡ shown_sites sites.entry ++ parts_under (meaning names.now.definitions.now (steps + m)) (shown_around around.now.value) (shown_place head.now) (shown_layout layout.entry) (kind_of (shown_place head.now))) }
{
    match parting_of(kind_of(head.ty)) {
        Parting::ByMember => {
            let sites = with_struct(alloc, names, steps, sites, around, head, layout)?;
            Ok(sites)
        }
        Parting::ByElement => {
            let sites = with_list(alloc, sites, around, head, layout)?;
            Ok(sites)
        }
        Parting::ByOption => {
            let sites = with_choice(alloc, sites, around, head, layout)?;
            Ok(sites)
        }
        Parting::ByBit => {
            let sites = with_bits(alloc, sites, around, layout)?;
            Ok(sites)
        }
        Parting::ByNothing => {
            let sites = with_free_parts(alloc, sites, around, layout)?;
            Ok(sites)
        }
    }
}
