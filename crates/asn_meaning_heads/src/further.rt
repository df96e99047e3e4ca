//! Where types lead, and heads, as all further steps have them (X.680 14.1, 30).

ghost use Rattle.asn_meaning_heads.specs.Leads.{shown_lead};
ghost use Rattle.asn_meaning_heads.specs.Places.{shown_place, shown_target};
ghost use Rattle.asn_meaning_heads.specs.Scopes.{shown};
ghost use Rattle.asn_meaning.specs.Judge.{meaning};
ghost use Rattle.asn_meaning.specs.Names.{head_named, lead, selection_target};
ghost use Rattle.std.specs.Option.{option_map};
ghost use Rattle.std.specs.Prelude.{◌≡◌, ◌+◌, ℕ, IfOk};

use crate::leads::{Lead, head_named_over, head_over, lead_over, selection_target_over};
use crate::places::{Place, Target};
use crate::scopes::Scope;
use crate::spans::Span;
use asn_memory::{Mem, Text};
use asn_names_index::Names;
use asn_tree::ChoiceSelectionType;
use std::alloc::Global;

/// `a < C`: the type of the CHOICE's option with the option's constraints; the CHOICE's own do not come along (X.680 30.2).
///
/// Err: want of memory, also where the steps are used up.
pub fn selection_target<'a>(
    alloc: Global,
    names: &Names<'a>,
    steps: usize,
    scope: &Scope<'a>,
    selection: &'a ChoiceSelectionType,
) -> Mem<Option<Target<'a>>>
    ensures { IfOk result (λ target. (m : ℕ) → option_map shown_target target ≡ selection_target (meaning names.now.definitions.now (steps + m)) (shown scope.now) selection.now) }
{
    let target = selection_target_over(alloc, names, Span::Further, steps, scope, selection)?;
    Ok(target)
}

/// Where a type leads: a plain name, an argument list, a selection, a class's field of fixed type and a field of an object
/// lead on; every other type is a head, an open type too.
///
/// Err: want of memory, also where the steps are used up.
pub fn lead_of<'a>(
    alloc: Global,
    names: &Names<'a>,
    steps: usize,
    place: &Place<'a>,
) -> Mem<Lead<'a>>
    ensures { IfOk result (λ l. (m : ℕ) → shown_lead l ≡ lead names.now.definitions.now (meaning names.now.definitions.now (steps + m)) (shown_place place.now)) }
{
    let found = lead_over(alloc, names, Span::Further, steps, place)?;
    Ok(found)
}

/// The head of a type: the first type on the way that leads nowhere else. It is found within these steps, and stays the same
/// within more.
///
/// None: the type has no head, however many steps there are, since a name leads nowhere, or is one that leads back to itself whatever
/// its arguments. Err: want of memory, also where the steps are used up.
pub fn head<'a>(
    alloc: Global,
    names: &Names<'a>,
    steps: usize,
    place: &Place<'a>,
) -> Mem<Option<Place<'a>>>
    ensures { IfOk result (λ found. (m : ℕ) → option_map shown_place found ≡ (meaning names.now.definitions.now (steps + m)).head (shown_place place.now)) }
{
    let found = head_over(alloc, names, Span::Further, steps, place)?;
    Ok(found)
}

/// The head of a type that a name stands for, found within these steps, and the same within more.
///
/// None and Err: as `head`.
pub fn head_named<'a>(
    alloc: Global,
    names: &Names<'a>,
    steps: usize,
    scope: &Scope<'a>,
    name: &'a Text,
) -> Mem<Option<Place<'a>>>
    ensures { IfOk result (λ found. (m : ℕ) → option_map shown_place found ≡ head_named (meaning names.now.definitions.now (steps + m)) (shown scope.now) name.now) }
{
    let found = head_named_over(alloc, names, Span::Further, steps, scope, name)?;
    Ok(found)
}
