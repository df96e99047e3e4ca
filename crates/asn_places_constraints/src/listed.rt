//! What stands in a part of a constrained type: in its elements, and in a component that WITH COMPONENTS lists (X.680 51.8).

ghost use Rattle.asn_meaning_heads.specs.Places.{shown_place};
ghost use Rattle.asn_meaning.specs.Judge.{meaning};
ghost use Rattle.asn_needs.specs.PartsOfConstraints.{element_type, listed_parts, onward, part_sites};
ghost use Rattle.asn_needs.specs.Sites.{beside, seen, AListed};
ghost use Rattle.asn_places_types.specs.Sites.{shown_around, shown_sites};
ghost use Rattle.std.specs.Option.{option_map};
ghost use Rattle.std.specs.Prelude.{◌≡◌, ◌+◌, ◌++◌, ◌∷◌, [], IfOk, map, ℕ};

use crate::parts::{element_type, listed_type};
use asn_meaning_heads::Place;
use asn_memory::{List, Mem};
use asn_names_index::Names;
use asn_places_types::{
    Around, Form, Site, governor_boxed, governor_copied, lent, onward, shared, with_constraints,
    with_loose_lists, with_site,
};
use asn_tree::{ConstrainedComponent, Constraint};
use std::alloc::Global;
use std::rc::Rc;

/// What surrounds a part of a constrained type, where the type is known.
///
/// Err: want of memory.
fn behind<'a>(
    alloc: Global,
    around: &Rc<Around<'a>>,
    place: Option<&Place<'a>>,
) -> Mem<Rc<Around<'a>>>
    ensures { IfOk result (λ inner. shown_around inner.value ≡ onward (shown_around around.now.value) (option_map (λ p. shown_place p.now) place.entry)) }
{
    match place {
        None => {
            let inner = shared(around)?;
            Ok(inner)
        }
        Some(place) => {
            let inner = onward(alloc, around, place)?;
            Ok(inner)
        }
    }
}

/// The sites with the constraints on a part, and the argument lists among them.
///
/// Err: want of memory.
#[tactic(auto, using(asn_places_types::proofs::Adding::then_more))]
fn with_part<'a>(
    alloc: Global,
    sites: List<Site<'a>>,
    around: &Rc<Around<'a>>,
    place: Option<&Place<'a>>,
    constraints: &'a [Constraint],
) -> Mem<List<Site<'a>>>
    ensures { IfOk result (λ more. shown_sites more ≡ shown_sites sites.entry ++ part_sites (shown_around around.now.value) (option_map (λ p. shown_place p.now) place.entry) constraints.now) }
{
    let sites = with_constraints(alloc, sites, around, place, constraints)?;
    let sites = with_loose_lists(sites, around, constraints)?;
    Ok(sites)
}

/// The sites with what stands in a component that WITH COMPONENTS lists, where the type that is constrained is known.
///
/// Err: want of memory, also where the steps are used up.
#[tactic(auto, using(crate::proofs::Passing::part_done))]
pub fn with_listed<'a>(
    alloc: Global,
    names: &Names<'a>,
    steps: usize,
    sites: List<Site<'a>>,
    around: &Rc<Around<'a>>,
    place: Option<&Place<'a>>,
    component: &'a ConstrainedComponent,
) -> Mem<List<Site<'a>>>
    ensures { IfOk result (λ more. (m : ℕ) → shown_sites more ≡ shown_sites sites.entry ++ listed_parts (seen names.now.definitions.now (steps + m)) (shown_around around.now.value) (option_map (λ p. shown_place p.now) place.entry) component.now) }
{
    let part = listed_type(alloc, names, steps, place, component.identifier.as_str())?;
    let sites = with_part(
        alloc,
        sites,
        around,
        lent(&part),
        component.constraints.as_slice(),
    )?;
    Ok(sites)
}

/// The sites with what WITH COMPONENT asks of the elements.
///
/// Err: want of memory, also where the steps are used up.
#[tactic(auto, using(crate::proofs::Passing::part_done))]
pub fn with_elements_part<'a>(
    alloc: Global,
    names: &Names<'a>,
    steps: usize,
    sites: List<Site<'a>>,
    around: &Rc<Around<'a>>,
    place: Option<&Place<'a>>,
    constraints: &'a [Constraint],
) -> Mem<List<Site<'a>>>
    ensures { IfOk result (λ more. (m : ℕ) → shown_sites more ≡ shown_sites sites.entry ++ part_sites (onward (shown_around around.now.value) (option_map (λ p. shown_place p.now) place.entry)) (element_type (meaning names.now.definitions.now (steps + m)) (option_map (λ p. shown_place p.now) place.entry)) constraints.now) }
{
    let inner = behind(alloc, around, place)?;
    let part = element_type(alloc, names, steps, place)?;
    let sites = with_part(alloc, sites, &inner, lent(&part), constraints)?;
    Ok(sites)
}

/// A component that WITH COMPONENTS lists, with the constrained type.
///
/// Err: want of memory.
fn with_component<'a>(
    alloc: Global,
    sites: List<Site<'a>>,
    around: &Rc<Around<'a>>,
    place: Option<&Place<'a>>,
    component: &'a ConstrainedComponent,
) -> Mem<List<Site<'a>>>
    ensures { IfOk result (λ more. shown_sites more ≡ shown_sites sites.entry ++ beside (shown_around around.now.value) (AListed component.now (option_map (λ p. shown_place p.now) place.entry)) ∷ []) }
{
    let governor = governor_copied(alloc, place)?;
    let governor = governor_boxed(alloc, governor)?;
    let sites = with_site(sites, around, Form::AListed(component, governor))?;
    Ok(sites)
}

/// The sites with components that WITH COMPONENTS lists.
///
/// Err: want of memory.
fn with_components<'a>(
    alloc: Global,
    sites: List<Site<'a>>,
    around: &Rc<Around<'a>>,
    place: Option<&Place<'a>>,
    components: &'a [ConstrainedComponent],
) -> Mem<List<Site<'a>>>
    ensures { IfOk result (λ more. shown_sites more ≡ shown_sites sites.entry ++ map (λ c. beside (shown_around around.now.value) (AListed c (option_map (λ p. shown_place p.now) place.entry))) components.now) }
{
    let mut sites = sites;
    for component in components {
        sites = with_component(alloc, sites, around, place, component)?;
    }
    Ok(sites)
}

/// The sites with the components that WITH COMPONENTS lists, each behind the constrained type.
///
/// Err: want of memory.
pub fn with_components_part<'a>(
    alloc: Global,
    sites: List<Site<'a>>,
    around: &Rc<Around<'a>>,
    place: Option<&Place<'a>>,
    components: &'a [ConstrainedComponent],
) -> Mem<List<Site<'a>>>
    ensures { IfOk result (λ more. shown_sites more ≡ shown_sites sites.entry ++ map (λ c. beside (onward (shown_around around.now.value) (option_map (λ p. shown_place p.now) place.entry)) (AListed c (option_map (λ p. shown_place p.now) place.entry))) components.now) }
{
    let inner = behind(alloc, around, place)?;
    let sites = with_components(alloc, sites, &inner, place, components)?;
    Ok(sites)
}
