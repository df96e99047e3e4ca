//! Constraints on a type, or on a part that the constrained type lacks.

ghost use Rattle.asn_needs.specs.PartsOfTypes.{constraint_sites};
ghost use Rattle.asn_needs.specs.Sites.{beside, AConstraint};
ghost use Rattle.asn_meaning_heads.specs.Places.{shown_place};
ghost use Rattle.asn_places_types.specs.Forms.{shown_form, shown_governor};
ghost use Rattle.asn_places_types.specs.Sites.{shown_around, shown_sites};
ghost use Rattle.std.specs.Option.{option_map};
ghost use Rattle.std.specs.Prelude.{◌≡◌, ◌++◌, ◌∷◌, [], IfOk};

use crate::forms::{Form, OnConstraint};
use crate::sites::{Site, with_site};
use crate::surroundings::Around;
use asn_meaning_heads::Place;
use asn_memory::{Box, List, Mem};
use asn_tree::Constraint;
use std::alloc::Global;
use std::rc::Rc;

/// A copy of the type, where there is one.
///
/// Err: want of memory.
pub fn governor_copied<'a>(alloc: Global, place: Option<&Place<'a>>) -> Mem<Option<Place<'a>>>
    ensures { IfOk result (λ copy. shown_governor copy ≡ option_map (λ p. shown_place p.now) place.entry) }
{
    match place {
        None => Ok(None),
        Some(place) => {
            let copy = place.copy(alloc)?;
            Ok(Some(copy))
        }
    }
}

/// The constraint on a type.
///
/// Err: want of memory.
fn on_constraint<'a>(
    alloc: Global,
    constraint: &'a Constraint,
    place: Option<Place<'a>>,
) -> Mem<Form<'a>>
    ensures { IfOk result (λ form. shown_form form ≡ AConstraint constraint.now (shown_governor place.entry)) }
{
    let on = Box::new(alloc, OnConstraint { constraint, place })?;
    Ok(Form::AConstraint(on))
}

/// The sites with a constraint on a type.
///
/// Err: want of memory.
fn with_constraint<'a>(
    alloc: Global,
    sites: List<Site<'a>>,
    around: &Rc<Around<'a>>,
    place: Option<&Place<'a>>,
    constraint: &'a Constraint,
) -> Mem<List<Site<'a>>>
    ensures { IfOk result (λ more. shown_sites more ≡ shown_sites sites.entry ++ beside (shown_around around.now.value) (AConstraint constraint.now (option_map (λ p. shown_place p.now) place.entry)) ∷ []) }
{
    let place = governor_copied(alloc, place)?;
    let form = on_constraint(alloc, constraint, place)?;
    let more = with_site(sites, around, form)?;
    Ok(more)
}

/// The sites with the constraints on a type.
///
/// Err: want of memory.
pub fn with_constraints<'a>(
    alloc: Global,
    sites: List<Site<'a>>,
    around: &Rc<Around<'a>>,
    place: Option<&Place<'a>>,
    constraints: &'a [Constraint],
) -> Mem<List<Site<'a>>>
    ensures { IfOk result (λ more. shown_sites more ≡ shown_sites sites.entry ++ constraint_sites (shown_around around.now.value) (option_map (λ p. shown_place p.now) place.entry) constraints.now) }
{
    let mut sites = sites;
    for constraint in constraints {
        sites = with_constraint(alloc, sites, around, place, constraint)?;
    }
    Ok(sites)
}
