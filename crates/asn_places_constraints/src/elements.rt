//! What stands in an element of a set of values of a type (X.680 51).

ghost use Rattle.asn_meaning_heads.specs.Places.{shown_place};
ghost use Rattle.asn_needs.specs.PartsOfConstraints.{element_parts};
ghost use Rattle.asn_needs.specs.Sites.{seen};
ghost use Rattle.asn_places_types.specs.Forms.{shown_asked};
ghost use Rattle.asn_places_types.specs.Sites.{shown_around, shown_sites};
ghost use Rattle.asn_tree.specs.declared.constraints.SubtypeElement.{out-SubtypeElement};
ghost use Rattle.std.specs.Option.{option_map};
ghost use Rattle.std.specs.Prelude.{◌≡◌, ◌+◌, ◌++◌, IfOk, ℕ};

use crate::listed::{with_components_part, with_elements_part};
use crate::sets::with_set_on;
use crate::values::{with_asked_value, with_ends};
use asn_meaning_heads::Place;
use asn_memory::{List, Mem};
use asn_names_index::Names;
use asn_places_types::{Around, Asked, Site, TypePlace, ValuePlace, with_bare_type};
use asn_tree::SubtypeElement;
use std::alloc::Global;
use std::rc::Rc;

/// The sites with what stands in an element of a set of values of a type, where the type is known. A pattern, a constraint in
/// words and settings hold no name of a definition.
///
/// Err: want of memory, also where the steps are used up.
#[tactic(auto, using(asn_places_types::proofs::Adding::nothing_more))]
pub fn with_element<'a>(
    alloc: Global,
    names: &Names<'a>,
    steps: usize,
    sites: List<Site<'a>>,
    around: &Rc<Around<'a>>,
    asked: Asked,
    place: Option<&Place<'a>>,
    element: &'a SubtypeElement,
) -> Mem<List<Site<'a>>>
    ensures { IfOk result (λ more. (m : ℕ) → shown_sites more ≡ shown_sites sites.entry ++ element_parts (seen names.now.definitions.now (steps + m)) (shown_around around.now.value) (shown_asked asked) (option_map (λ p. shown_place p.now) place.entry) (out-SubtypeElement element.now)) }
{
    match element {
        SubtypeElement::SingleValue { value, .. } => {
            let at = ValuePlace::AsSingle;
            let sites = with_asked_value(alloc, sites, around, asked, at, place, value)?;
            Ok(sites)
        }
        SubtypeElement::ContainedSubtype { subtype, .. } => {
            let sites = with_bare_type(sites, around, TypePlace::AtHead, subtype)?;
            Ok(sites)
        }
        SubtypeElement::ValueRange { min, max, .. } => {
            let (low, high) = (min.as_ref(), max.as_ref());
            let sites = with_ends(alloc, sites, around, asked, place, low, high)?;
            Ok(sites)
        }
        SubtypeElement::PermittedAlphabet(set) => {
            let asked = Asked::OfCharacters;
            let sites = with_set_on(alloc, sites, around, asked, place, set.get())?;
            Ok(sites)
        }
        SubtypeElement::SizeConstraint(set) => {
            let sites = with_set_on(alloc, sites, around, Asked::OfLengths, place, set.get())?;
            Ok(sites)
        }
        SubtypeElement::TypeConstraint(ty) => {
            let sites = with_bare_type(sites, around, TypePlace::AtHead, ty)?;
            Ok(sites)
        }
        SubtypeElement::SingleTypeConstraint(constraints) => {
            let cs = constraints.as_slice();
            let sites = with_elements_part(alloc, names, steps, sites, around, place, cs)?;
            Ok(sites)
        }
        SubtypeElement::MultipleTypeConstraints(inner) => {
            let components = inner.constraints.as_slice();
            let sites = with_components_part(alloc, sites, around, place, components)?;
            Ok(sites)
        }
        SubtypeElement::PatternConstraint(_) => Ok(sites),
        SubtypeElement::UserDefinedConstraint(_) => Ok(sites),
        SubtypeElement::PropertySettings(_) => Ok(sites),
    }
}
