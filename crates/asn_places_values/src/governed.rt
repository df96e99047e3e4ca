//! Values in a value under the type that governs it.

ghost use Rattle.asn_meaning_heads.specs.Places.{shown_place};
ghost use Rattle.asn_meaning_heads.specs.Values.{shown_value};
ghost use Rattle.asn_meaning.specs.Answers.{once};
ghost use Rattle.asn_meaning.specs.Judge.{meaning};
ghost use Rattle.asn_meaning.specs.Kinds.{kind_of};
ghost use Rattle.asn_needs.specs.Dummies.{is_class_name};
ghost use Rattle.asn_needs.specs.PartsOfValues.{governed_parts, headless_parts, inside, parts_under, value_sites};
ghost use Rattle.asn_needs.specs.Sites.{seen};
ghost use Rattle.asn_places_types.specs.Sites.{shown_around, shown_sites};
ghost use Rattle.asn_places_values.specs.inner.Layouts.{nested_in, shown_layout};
ghost use Rattle.std.specs.Option.{option_copied, option_map};
ghost use Rattle.std.specs.Prelude.{◌≡◌, ◌+◌, ◌++◌, ◌∷◌, [], IfOk, Some, if◌then◌else◌, ℕ};

use crate::free::with_free_parts;
use crate::heads::with_parts_under;
use crate::layouts::{Layout, layout_of};
use crate::runs::with_inside;
use asn_meaning_dummies::{hangs, is_class_name};
use asn_meaning_heads::{Place, ValueForm, head};
use asn_memory::{List, Mem};
use asn_names_index::Names;
use asn_places_types::{Around, Site, governor_boxed};
use asn_tree::ASN1Value;
use std::alloc::Global;
use std::rc::Rc;

/// The sites with the values in a value under a type without a head. Where it hangs on a dummy of a template by itself, there are
/// none.
///
/// Err: want of memory, also where the steps are used up.
#[tactic(auto, using(crate::proofs::Governing::hung, crate::proofs::Governing::free))]
fn with_headless<'a>(
    alloc: Global,
    names: &Names<'a>,
    steps: usize,
    sites: List<Site<'a>>,
    around: &Rc<Around<'a>>,
    place: &Place<'a>,
    layout: Layout<'a>,
) -> Mem<List<Site<'a>>>
    ensures { IfOk result (λ more. (m : ℕ) → shown_sites more ≡ shown_sites sites.entry ++ headless_parts (seen names.now.definitions.now (steps + m)) (shown_around around.now.value) (shown_place place.now) (shown_layout layout.entry)) }
{
    if hangs(alloc, names, steps, place)? {
        Ok(sites)
    } else {
        let sites = with_free_parts(alloc, sites, around, layout)?;
        Ok(sites)
    }
}

/// The sites with the values in a value under the head of a type.
///
/// Err: want of memory, also where the steps are used up.
fn with_headed<'a>(
    alloc: Global,
    names: &Names<'a>,
    steps: usize,
    sites: List<Site<'a>>,
    around: &Rc<Around<'a>>,
    place: &Place<'a>,
    layout: Layout<'a>,
) -> Mem<List<Site<'a>>>
    ensures { IfOk result (λ more. (m : ℕ) → shown_sites more ≡ shown_sites sites.entry ++ once (headless_parts (seen names.now.definitions.now (steps + m)) (shown_around around.now.value) (shown_place place.now) (shown_layout layout.entry)) ((meaning names.now.definitions.now (steps + m)).head (shown_place place.now)) (λ head. parts_under (meaning names.now.definitions.now (steps + m)) (shown_around around.now.value) head (shown_layout layout.entry) (kind_of head))) }
{
    match head(alloc, names, steps, place)? {
        None => {
            let sites = with_headless(alloc, names, steps, sites, around, place, layout)?;
            Ok(sites)
        }
        Some(head) => {
            let sites = with_parts_under(alloc, names, steps, sites, around, &head, layout)?;
            Ok(sites)
        }
    }
}

/// The sites with the value that linking put under the names of its types, under the same type.
///
/// Err: want of memory.
fn with_nested<'a>(
    alloc: Global,
    sites: List<Site<'a>>,
    around: &Rc<Around<'a>>,
    place: &Place<'a>,
    value: &'a ASN1Value,
) -> Mem<List<Site<'a>>>
    ensures { IfOk result (λ more. shown_sites more ≡ shown_sites sites.entry ++ inside (shown_around around.now.value) (Some (shown_place place.now)) value.now ∷ []) }
{
    let copy = place.copy(alloc)?;
    let governor = governor_boxed(alloc, Some(copy))?;
    let sites = with_inside(sites, around, governor, ValueForm::Written(value))?;
    Ok(sites)
}

/// The value that linking put under the names of its types.
fn nested_in<'a>(layout: Layout<'a>) -> Option<&'a ASN1Value>
    ensures { option_copied result ≡ nested_in (shown_layout layout.entry) }
{
    match layout {
        Layout::Nested(value) => Some(value),
        Layout::Items(_) => None,
        Layout::Fields(_) => None,
        Layout::Elements(_) => None,
        Layout::Arcs(_) => None,
        Layout::Alternative { .. } => None,
        Layout::Plain => None,
    }
}

/// The sites with the values in a value under a type that is no class's name.
///
/// Err: want of memory, also where the steps are used up.
#[tactic(auto, using(crate::proofs::Governing::not_nested, crate::proofs::Governing::nested))]
fn with_governed<'a>(
    alloc: Global,
    names: &Names<'a>,
    steps: usize,
    sites: List<Site<'a>>,
    around: &Rc<Around<'a>>,
    place: &Place<'a>,
    layout: Layout<'a>,
) -> Mem<List<Site<'a>>>
    ensures { IfOk result (λ more. (m : ℕ) → shown_sites more ≡ shown_sites sites.entry ++ governed_parts (seen names.now.definitions.now (steps + m)) (shown_around around.now.value) (shown_place place.now) (shown_layout layout.entry)) }
{
    match nested_in(layout) {
        None => {
            let sites = with_headed(alloc, names, steps, sites, around, place, layout)?;
            Ok(sites)
        }
        Some(value) => {
            let sites = with_nested(alloc, sites, around, place, value)?;
            Ok(sites)
        }
    }
}

/// The sites with the values in a value under a type. A class's name is no type.
///
/// Err: want of memory, also where the steps are used up.
#[tactic(auto, using(crate::proofs::Governing::of_class, crate::proofs::Governing::of_type))]
fn with_typed<'a>(
    alloc: Global,
    names: &Names<'a>,
    steps: usize,
    sites: List<Site<'a>>,
    around: &Rc<Around<'a>>,
    place: &Place<'a>,
    layout: Layout<'a>,
) -> Mem<List<Site<'a>>>
    ensures { IfOk result (λ more. (m : ℕ) → shown_sites more ≡ shown_sites sites.entry ++ (if is_class_name names.now.definitions.now (shown_place place.now) then [] else governed_parts (seen names.now.definitions.now (steps + m)) (shown_around around.now.value) (shown_place place.now) (shown_layout layout.entry))) }
{
    if is_class_name(names, place) {
        Ok(sites)
    } else {
        let sites = with_governed(alloc, names, steps, sites, around, place, layout)?;
        Ok(sites)
    }
}

/// The sites with the values in a value, each under the type that it has there, where the type that governs the value is known.
///
/// Err: want of memory, also where the steps are used up.
#[tactic(auto, using(crate::proofs::Governing::free_laid, crate::proofs::Governing::typed_laid))]
pub fn with_value<'a>(
    alloc: Global,
    names: &Names<'a>,
    steps: usize,
    sites: List<Site<'a>>,
    around: &Rc<Around<'a>>,
    place: Option<&Place<'a>>,
    value: ValueForm<'a>,
) -> Mem<List<Site<'a>>>
    ensures { IfOk result (λ more. (m : ℕ) → shown_sites more ≡ shown_sites sites.entry ++ value_sites (seen names.now.definitions.now (steps + m)) (shown_around around.now.value) (option_map (λ p. shown_place p.now) place.entry) (shown_value value.entry)) }
{
    let layout = layout_of(value);
    match place {
        None => {
            let sites = with_free_parts(alloc, sites, around, layout)?;
            Ok(sites)
        }
        Some(place) => {
            let sites = with_typed(alloc, names, steps, sites, around, place, layout)?;
            Ok(sites)
        }
    }
}
