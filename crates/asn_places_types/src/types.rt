//! What stands in a type: its parts, its constraints, and under its arguments the template that it instantiates.

ghost use Rattle.asn_meaning_heads.specs.Kinds.{shown_type};
ghost use Rattle.asn_meaning_heads.specs.Places.{shown_place};
ghost use Rattle.asn_meaning.specs.Placed.{listed};
ghost use Rattle.asn_needs.specs.PartsOfTypes.{constraint_sites, governor_sites, own_constraints, type_sites, type_sites_from};
ghost use Rattle.asn_needs.specs.Sites.{seen};
ghost use Rattle.asn_places_types.specs.Forms.{shown_at};
ghost use Rattle.asn_places_types.specs.Sites.{shown_around, shown_sites};
ghost use Rattle.asn_meaning.specs.Accepts.{place};
ghost use Rattle.std.specs.Option.{option_copied, option_map};
ghost use Rattle.std.specs.Prelude.{◌≡◌, ◌++◌, IfOk, Some, ℕ};

use crate::components::{place_here, with_bare_type, with_components};
use crate::constraints::with_constraints;
use crate::forms::TypePlace;
use crate::instances::{instance_at, with_lists};
use crate::loose::with_loose_lists;
use crate::sites::Site;
use crate::surroundings::{Around, scope_in, without_way};
use asn_meaning_heads::{Place, TypeForm, constraints_in, kind_of};
use asn_memory::{List, Mem};
use asn_names_index::Names;
use asn_tree::{Constraint, ParameterGovernor};
use std::alloc::Global;
use std::rc::Rc;

/// The constraints that come along behind a type; None stands for none.
pub fn constraints_behind<'a>(constraints: Option<&'a List<Constraint>>) -> &'a [Constraint]
    ensures { result.now ≡ listed (option_copied constraints.entry) }
{
    match constraints {
        None => &[],
        Some(constraints) => constraints.as_slice(),
    }
}

/// The sites with two runs of constraints on a type.
///
/// Err: want of memory.
#[tactic(auto, using(crate::proofs::Typing::all_constraints))]
fn with_runs<'a>(
    alloc: Global,
    sites: List<Site<'a>>,
    around: &Rc<Around<'a>>,
    place: Option<&Place<'a>>,
    own: &'a [Constraint],
    behind: &'a [Constraint],
) -> Mem<List<Site<'a>>>
    ensures { IfOk result (λ more. shown_sites more ≡ shown_sites sites.entry ++ constraint_sites (shown_around around.now.value) (option_map (λ p. shown_place p.now) place.entry) (own.now ++ behind.now)) }
{
    let sites = with_constraints(alloc, sites, around, place, own)?;
    let sites = with_constraints(alloc, sites, around, place, behind)?;
    Ok(sites)
}

/// The sites with the constraints of a type and those of its place.
///
/// Err: want of memory.
#[tactic(auto, using(crate::proofs::Typing::placed_constraints))]
fn with_both<'a>(
    alloc: Global,
    sites: List<Site<'a>>,
    around: &Rc<Around<'a>>,
    ty: TypeForm<'a>,
    behind: &'a [Constraint],
) -> Mem<List<Site<'a>>>
    ensures { IfOk result (λ more. shown_sites more ≡ shown_sites sites.entry ++ constraint_sites (shown_around around.now.value) (Some (place (shown_around around.now.value).scope (shown_type ty.entry))) (own_constraints (shown_type ty.entry) ++ behind.now)) }
{
    let place = place_here(alloc, around, ty)?;
    let own = constraints_in(ty);
    let sites = with_runs(alloc, sites, around, Some(&place), own, behind)?;
    Ok(sites)
}

/// The sites with a type's components, its arguments and the template under them, its constraints and those of its
/// place.
///
/// Err: want of memory.
#[tactic(auto, using(crate::proofs::Typing::type_done))]
fn with_type_from<'a>(
    alloc: Global,
    names: &Names<'a>,
    sites: List<Site<'a>>,
    around: &Rc<Around<'a>>,
    at: TypePlace,
    ty: TypeForm<'a>,
    behind: &'a [Constraint],
) -> Mem<List<Site<'a>>>
    ensures { IfOk result (λ more. (n : ℕ) → shown_sites more ≡ shown_sites sites.entry ++ type_sites_from (seen names.now.definitions.now n) (shown_around around.now.value) (shown_at at) (shown_type ty.entry) behind.now) }
{
    let sites = with_components(alloc, sites, around, kind_of(ty))?;
    let instance = instance_at(names, scope_in(around), kind_of(ty));
    let sites = with_lists(alloc, sites, around, at, constraints_in(ty), instance)?;
    let sites = with_loose_lists(sites, around, behind)?;
    let sites = with_both(alloc, sites, around, ty, behind)?;
    Ok(sites)
}

/// The sites with what stands in a type.
///
/// Err: want of memory.
#[tactic(auto, using(crate::proofs::Typing::type_inside))]
pub fn with_type<'a>(
    alloc: Global,
    names: &Names<'a>,
    sites: List<Site<'a>>,
    around: &Rc<Around<'a>>,
    at: TypePlace,
    ty: TypeForm<'a>,
    behind: &'a [Constraint],
) -> Mem<List<Site<'a>>>
    ensures { IfOk result (λ more. (n : ℕ) → shown_sites more ≡ shown_sites sites.entry ++ type_sites (seen names.now.definitions.now n) (shown_around around.now.value) (shown_at at) (shown_type ty.entry) behind.now) }
{
    let inner = without_way(alloc, around)?;
    let sites = with_type_from(alloc, names, sites, &inner, at, ty, behind)?;
    Ok(sites)
}

/// The sites with the type that governs a dummy.
///
/// Err: want of memory.
#[tactic(auto, using(crate::proofs::Adding::nothing_more))]
pub fn with_governor<'a>(
    sites: List<Site<'a>>,
    around: &Rc<Around<'a>>,
    governor: &'a ParameterGovernor,
) -> Mem<List<Site<'a>>>
    ensures { IfOk result (λ more. shown_sites more ≡ shown_sites sites.entry ++ governor_sites (shown_around around.now.value) governor.now) }
{
    match governor {
        ParameterGovernor::None => Ok(sites),
        ParameterGovernor::TypeOrClass(ty) => {
            let sites = with_bare_type(sites, around, TypePlace::OfField, ty)?;
            Ok(sites)
        }
        ParameterGovernor::Class(_) => Ok(sites),
    }
}
