//! The whole numbers that elements, constraints and types leave (X.680 49.6, 50.1).

ghost use Rattle.asn_meaning_heads.specs.Places.{shown_place};
ghost use Rattle.asn_meaning_heads.specs.Scopes.{shown};
ghost use Rattle.asn_meaning_heads.specs.Trails.{Passes, shown_targets};
ghost use Rattle.asn_meaning_ranges.specs.Chains.{shown_chain};
ghost use Rattle.asn_meaning_ranges.specs.Parents.{shown_parent};
ghost use Rattle.asn_meaning_ranges.specs.Sets.{shown_numbers};
ghost use Rattle.asn_meaning_ranges.specs.inner.Joining.{numbers_of_element};
ghost use Rattle.asn_meaning.specs.Judge.{meaning};
ghost use Rattle.asn_meaning.specs.Numbers.{number_sets, ranked};
ghost use Rattle.asn_meaning.specs.Ranges.{all_constraints, narrowed, narrowed_by_all, numbers_at, numbers_before, numbers_in_set};
ghost use Rattle.std.specs.Option.{option_map};
ghost use Rattle.std.specs.Prelude.{◌≡◌, [], IfOk, ℕ, ◌+◌};

use crate::chains::Chain;
use crate::joining::{ranked, ranks_of, ranks_with};
use crate::kinds::{is_free, numbers_at_head};
use crate::known::{both_known, copied};
use crate::making::{every_number, no_number};
use crate::operands::chain;
use crate::parents::{Parent, value_place};
use crate::ranges::{number_of_single, range};
use crate::sets::Numbers;
use asn_meaning_heads::{
    Place, Scope, Target, TypeForm, constraints_at, constraints_in, place_at, trail,
};
use asn_memory::{Mem, OutOfMemory};
use asn_names_index::Names;
use asn_tree::{ASN1Type, Constraint, ElementOrSetOperation, SubtypeElement};
use std::alloc::Global;

/// The whole numbers that a type with further constraints accepts, within a number of steps.
///
/// None: a name leads nowhere, however many steps there are. Err: want of memory, also where the steps are used up.
#[cycle(leaving)]
#[tactic(auto, using(crate::proofs::Narrowing::more_steps))]
pub fn numbers<'a>(
    alloc: Global,
    names: &Names<'a>,
    steps: usize,
    place: &Place<'a>,
    constraints: &'a [Constraint],
) -> Mem<Option<Numbers>>
    ensures { IfOk result (λ found. (m : ℕ) → option_map shown_numbers found ≡ (meaning names.now.definitions.now (steps + m)).numbers (shown_place place.now) constraints.now) }
{
    if steps == 0 {
        return Err(OutOfMemory);
    }
    let found = numbers_at(alloc, names, steps - 1, place, constraints)?;
    Ok(found)
}

/// The whole numbers that a type with the constraints of its place accepts.
#[cycle(leaving)]
#[tactic(auto, using(crate::proofs::Narrowing::headless, crate::proofs::Narrowing::headed))]
fn numbers_at<'a>(
    alloc: Global,
    names: &Names<'a>,
    steps: usize,
    place: &Place<'a>,
    constraints: &'a [Constraint],
) -> Mem<Option<Numbers>>
    ensures { IfOk result (λ found. (m : ℕ) → option_map shown_numbers found ≡ numbers_at names.now.definitions.now (meaning names.now.definitions.now (steps + m)) (shown_place place.now) constraints.now) }
{
    match trail(alloc, names, steps, place)? {
        None => Ok(None),
        Some(targets) => {
            let targets = targets.as_slice();
            let before = numbers_on(alloc, names, steps, place, targets)?;
            let head = place_at(&*place, &*targets, targets.len());
            let found = numbers_under(alloc, names, steps, place, head, before, constraints)?;
            Ok(found)
        }
    }
}

/// The whole numbers of these that a type under this head accepts with its own constraints, and with those of its place behind them.
#[cycle(leaving)]
#[tactic(auto, using(crate::proofs::Narrowing::own_first))]
fn numbers_under<'a>(
    alloc: Global,
    names: &Names<'a>,
    steps: usize,
    place: &Place<'a>,
    head: &Place<'a>,
    before: Option<Numbers>,
    constraints: &'a [Constraint],
) -> Mem<Option<Numbers>>
    ensures { IfOk result (λ found. (m : ℕ) → option_map shown_numbers found ≡ narrowed_by_all (meaning names.now.definitions.now (steps + m)) (shown place.now.scope) (shown_place head.now) (option_map shown_numbers before) (all_constraints (shown_place place.now) constraints.now)) }
{
    let own = constraints_in(place.ty);
    let scope = &place.scope;
    let left = narrowed_by_all(alloc, names, steps, scope, head, before, own)?;
    let left = narrowed_by_all(alloc, names, steps, scope, head, left, constraints)?;
    Ok(left)
}

/// The whole numbers that a type accepts before its constraints and those of its place.
///
/// None: a name leads nowhere, however many steps there are. Err: want of memory, also where the steps are used up.
#[tactic(auto, using(crate::proofs::Passed::lost_before))]
pub fn numbers_before<'a>(
    alloc: Global,
    names: &Names<'a>,
    steps: usize,
    place: &Place<'a>,
) -> Mem<Option<Numbers>>
    ensures { IfOk result (λ found. (m : ℕ) → option_map shown_numbers found ≡ numbers_before names.now.definitions.now (meaning names.now.definitions.now (steps + m)) (shown_place place.now)) }
{
    match trail(alloc, names, steps, place)? {
        None => Ok(None),
        Some(targets) => {
            let found = numbers_on(alloc, names, steps, place, targets.as_slice())?;
            Ok(found)
        }
    }
}

/// The whole numbers that a type accepts before its constraints and those of its place, where it passes these targets on the way to its
/// head: from the head backwards, each place's constraints behind those of the next.
#[cycle(leaving)]
#[tactic(auto, using(crate::proofs::Passed::numbers_end, crate::proofs::Passed::numbers_next))]
fn numbers_on<'a>(
    alloc: Global,
    names: &Names<'a>,
    steps: usize,
    place: &Place<'a>,
    targets: &[Target<'a>],
) -> Mem<Option<Numbers>>
    requires passes { Passes names.now.definitions.now steps (shown_place place.now) (shown_targets targets.now) }
    ensures { IfOk result (λ found. (m : ℕ) → option_map shown_numbers found ≡ numbers_before names.now.definitions.now (meaning names.now.definitions.now (steps + m)) (shown_place place.now)) }
{
    let head = place_at(&*place, &*targets, targets.len());
    let mut numbers = Some(numbers_at_head(head.ty));
    for number in (0..targets.len()).rev() {
        let at = number + 1;
        let here = place_at(&*place, &*targets, at);
        let behind = constraints_at(&[], &*targets, at);
        let left = steps.saturating_sub(at);
        numbers = numbers_under(alloc, names, left, here, head, numbers, behind)?;
    }
    Ok(numbers)
}

/// The whole numbers of the parent that all constraints leave, one behind another.
#[cycle(leaving)]
#[tactic(auto, using(crate::proofs::Narrowing::narrowed_next, crate::proofs::Narrowing::narrowed_done))]
fn narrowed_by_all<'a>(
    alloc: Global,
    names: &Names<'a>,
    steps: usize,
    scope: &Scope<'a>,
    head: &Place<'a>,
    numbers: Option<Numbers>,
    constraints: &'a [Constraint],
) -> Mem<Option<Numbers>>
    ensures { IfOk result (λ found. (m : ℕ) → option_map shown_numbers found ≡ narrowed_by_all (meaning names.now.definitions.now (steps + m)) (shown scope.now) (shown_place head.now) (option_map shown_numbers numbers) constraints.now) }
{
    let mut left = numbers;
    for constraint in constraints {
        left = narrowed(alloc, names, steps, scope, head, &left, constraint)?;
    }
    Ok(left)
}

/// The whole numbers of the parent that a further constraint leaves: tables, argument lists and contents leave all.
///
/// None: a name leads nowhere, however many steps there are. Err: want of memory, also where the steps are used up.
#[cycle(leaving)]
#[tactic(auto, using(crate::proofs::Narrowing::free, crate::proofs::Narrowing::by_set, crate::proofs::Narrowing::by_table, crate::proofs::Narrowing::by_arguments, crate::proofs::Narrowing::by_content))]
pub fn narrowed<'a>(
    alloc: Global,
    names: &Names<'a>,
    steps: usize,
    scope: &Scope<'a>,
    head: &Place<'a>,
    numbers: &Option<Numbers>,
    constraint: &'a Constraint,
) -> Mem<Option<Numbers>>
    ensures { IfOk result (λ found. (m : ℕ) → option_map shown_numbers found ≡ narrowed (meaning names.now.definitions.now (steps + m)) (shown scope.now) (shown_place head.now) (option_map shown_numbers numbers.now) constraint.now) }
{
    let before = copied(alloc, numbers)?;
    if is_free(head.ty) {
        return Ok(before);
    }
    match constraint {
        Constraint::SubtypeConstraint(s) => {
            let parent = Parent::Values { head, numbers };
            let found = numbers_in_set(alloc, names, steps, scope, parent, &s.set)?;
            let left = both_known(alloc, before, found)?;
            Ok(left)
        }
        Constraint::TableConstraint(_) => Ok(before),
        Constraint::Parameter(_) => Ok(before),
        Constraint::ContentConstraint(_) => Ok(before),
    }
}

/// The whole numbers of a set's elements, joined by its operators.
#[cycle(leaving)]
#[tactic(auto, using(crate::proofs::Narrowing::chained))]
fn numbers_in_set<'a>(
    alloc: Global,
    names: &Names<'a>,
    steps: usize,
    scope: &Scope<'a>,
    parent: Parent<'_, '_, 'a>,
    set: &'a ElementOrSetOperation,
) -> Mem<Option<Numbers>>
    ensures { IfOk result (λ found. (m : ℕ) → option_map shown_numbers found ≡ numbers_in_set (meaning names.now.definitions.now (steps + m)) (shown scope.now) (shown_parent parent.entry) set.now) }
{
    let elements = chain(alloc, steps, set)?;
    let found = numbers_joined(alloc, names, steps, scope, parent, &elements)?;
    Ok(found)
}

/// The whole numbers of elements joined by operators.
#[cycle(leaving)]
#[tactic(auto, using(crate::proofs::Ranking::next, crate::proofs::Ranking::done))]
fn numbers_joined<'a>(
    alloc: Global,
    names: &Names<'a>,
    steps: usize,
    scope: &Scope<'a>,
    parent: Parent<'_, '_, 'a>,
    elements: &Chain<'a>,
) -> Mem<Option<Numbers>>
    ensures { IfOk result (λ found. (m : ℕ) → option_map shown_numbers found ≡ ranked number_sets (numbers_of_element (meaning names.now.definitions.now (steps + m)) (shown scope.now) (shown_parent parent.entry)) (shown_chain elements.now)) }
{
    let first = numbers_at_element(alloc, names, steps, scope, parent, elements.first)?;
    let mut ranks = ranks_of(first);
    let others = elements.others.as_slice();
    for other in others {
        let found = numbers_at_element(alloc, names, steps, scope, parent, other.element)?;
        ranks = ranks_with(alloc, ranks, other.operator, found)?;
    }
    let found = ranked(alloc, ranks)?;
    Ok(found)
}

/// The whole numbers of a type, written in a scope.
#[cycle(leaving)]
fn numbers_of_type<'a>(
    alloc: Global,
    names: &Names<'a>,
    steps: usize,
    scope: &Scope<'a>,
    ty: &'a ASN1Type,
) -> Mem<Option<Numbers>>
    ensures { IfOk result (λ found. (m : ℕ) → option_map shown_numbers found ≡ (meaning names.now.definitions.now (steps + m)).numbers (record { scope = shown scope.now; ty = ty.now }) []) }
{
    let scope = scope.copy(alloc)?;
    let place = Place {
        scope,
        ty: TypeForm::Written(ty),
    };
    let found = numbers(alloc, names, steps, &place, &[])?;
    Ok(found)
}

/// The whole numbers of an element: one that does not fit whole numbers leaves none; pattern, user text and settings leave
/// all (X.680 51).
#[cycle(leaving)]
#[tactic(auto, using(crate::proofs::Elements::single, crate::proofs::Elements::contained, crate::proofs::Elements::ranged, crate::proofs::Elements::alphabet, crate::proofs::Elements::sized, crate::proofs::Elements::typed, crate::proofs::Elements::component, crate::proofs::Elements::components, crate::proofs::Elements::pattern, crate::proofs::Elements::user, crate::proofs::Elements::settings))]
fn numbers_at_element<'a>(
    alloc: Global,
    names: &Names<'a>,
    steps: usize,
    scope: &Scope<'a>,
    parent: Parent<'_, '_, 'a>,
    element: &'a SubtypeElement,
) -> Mem<Option<Numbers>>
    ensures { IfOk result (λ found. (m : ℕ) → option_map shown_numbers found ≡ numbers_of_element (meaning names.now.definitions.now (steps + m)) (shown scope.now) (shown_parent parent.entry) element.now) }
{
    match element {
        SubtypeElement::SingleValue { value, .. } => {
            let place = value_place(alloc, parent)?;
            let found = number_of_single(alloc, names, steps, scope, &place, value)?;
            Ok(found)
        }
        SubtypeElement::ContainedSubtype { subtype, .. } => {
            let found = numbers_of_type(alloc, names, steps, scope, subtype)?;
            Ok(found)
        }
        SubtypeElement::ValueRange {
            min,
            max,
            min_open,
            max_open,
            ..
        } => {
            let (low, high) = (min.as_ref(), max.as_ref());
            let (from, to) = (*min_open, *max_open);
            let found = range(alloc, names, steps, scope, parent, low, high, from, to)?;
            Ok(found)
        }
        SubtypeElement::PermittedAlphabet(_) => Ok(Some(no_number())),
        SubtypeElement::SizeConstraint(_) => Ok(Some(no_number())),
        SubtypeElement::TypeConstraint(ty) => {
            let found = numbers_of_type(alloc, names, steps, scope, ty)?;
            Ok(found)
        }
        SubtypeElement::SingleTypeConstraint(_) => Ok(Some(no_number())),
        SubtypeElement::MultipleTypeConstraints(_) => Ok(Some(no_number())),
        SubtypeElement::PatternConstraint(_) => Ok(Some(every_number())),
        SubtypeElement::UserDefinedConstraint(_) => Ok(Some(every_number())),
        SubtypeElement::PropertySettings(_) => Ok(Some(every_number())),
    }
}
