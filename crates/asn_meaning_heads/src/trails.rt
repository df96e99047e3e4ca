//! The names that a type passes on the way to its head.

ghost use Rattle.asn_meaning_heads.specs.Places.{shown_place, shown_target};
ghost use Rattle.asn_meaning_heads.specs.Trails.{constraints_at, place_at, shown_targets, trail};
ghost use Rattle.std.specs.Prelude.{◌≡◌, ◌≤◌, ◌+◌, ◌++◌, ◌∷◌, [], ℕ, IfOk, length};
ghost use Rattle.std.specs.Option.{option_map};

use crate::circles::is_lost;
use crate::further::lead_of;
use crate::leads::Lead;
use crate::places::{Place, Target};
use asn_memory::{List, Mem, OutOfMemory};
use asn_names_index::Names;
use asn_tree::Constraint;
use std::alloc::Global;

/// The targets with one more at the end.
///
/// Err: want of memory.
#[tactic(auto, using(crate::proofs::Trailing::one_more))]
fn with_target<'a>(targets: List<Target<'a>>, target: Target<'a>) -> Mem<List<Target<'a>>>
    ensures { IfOk result (λ more. shown_targets more ≡ shown_targets targets.entry ++ shown_target target.entry ∷ []) }
{
    let mut targets = targets;
    targets.add(target)?;
    Ok(targets)
}

/// Where the names lead that a type passes on the way to its head, in order: the last target's place is the head, and a type that
/// is a head passes none. It is found within these steps, and stays the same within more.
///
/// None: the type has no head, however many steps there are. Err: want of memory, also where the steps are used up.
#[tactic(auto, using(crate::proofs::Trailing::ends_here, crate::proofs::Trailing::goes_further, crate::proofs::Trailing::ends_lost, crate::proofs::Trailing::ends_nowhere))]
pub fn trail<'a>(
    alloc: Global,
    names: &Names<'a>,
    steps: usize,
    place: &Place<'a>,
) -> Mem<Option<List<Target<'a>>>>
    ensures { IfOk result (λ found. (m : ℕ) → option_map shown_targets found ≡ trail names.now.definitions.now (steps + m) (shown_place place.now)) }
{
    let mut at = place.copy(alloc)?;
    let mut targets = List::new(alloc);
    for left in (0..steps).rev() {
        if is_lost(names, &at, steps - left) {
            return Ok(None);
        }
        match lead_of(alloc, names, left, &at)? {
            Lead::Head => return Ok(Some(targets)),
            Lead::Target(target) => {
                at = target.place.copy(alloc)?;
                targets = with_target(targets, target)?;
            }
            Lead::Lost => return Ok(None),
        }
    }
    Err(OutOfMemory)
}

/// The place behind so many targets on the way: behind none the type's own.
#[tactic(auto, using(crate::proofs::Passing::behind_none, crate::proofs::Passing::behind_some))]
pub fn place_at<'t, 'a>(
    place: &'t Place<'a>,
    targets: &'t [Target<'a>],
    number: usize,
) -> &'t Place<'a>
    requires { number ≤ length targets.now }
    ensures { shown_place result.now ≡ place_at (shown_place place.now) (shown_targets targets.now) number }
{
    if number == 0 {
        place
    } else {
        &targets[number - 1].place
    }
}

/// The constraints that come along behind the place, where so many targets lie before it: before none these.
#[tactic(auto, using(crate::proofs::Passing::first_constraints, crate::proofs::Passing::later_constraints))]
pub fn constraints_at<'a>(
    constraints: &'a [Constraint],
    targets: &[Target<'a>],
    number: usize,
) -> &'a [Constraint]
    requires { number ≤ length targets.now }
    ensures { result.now ≡ constraints_at constraints.now (shown_targets targets.now) number }
{
    if number == 0 {
        constraints
    } else {
        targets[number - 1].constraints()
    }
}
