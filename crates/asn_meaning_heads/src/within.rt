//! Where types lead, and heads, within a number of steps and no more (X.680 14.1, 30).

ghost use Rattle.asn_meaning_heads.specs.Places.{shown_place, shown_target};
ghost use Rattle.asn_meaning_heads.specs.Scopes.{shown};
ghost use Rattle.asn_meaning.specs.Judge.{meaning};
ghost use Rattle.asn_meaning.specs.Names.{head_named, selection_target};
ghost use Rattle.std.specs.Option.{option_map};
ghost use Rattle.std.specs.Prelude.{◌≡◌, IfOk};

use crate::leads::{head_named_over, head_over, selection_target_over};
use crate::places::{Place, Target};
use crate::scopes::Scope;
use crate::spans::Span;
use asn_memory::{Mem, Text};
use asn_names_index::Names;
use asn_tree::ChoiceSelectionType;
use std::alloc::Global;

/// `a < C`: the type of the CHOICE's option with the option's constraints, as far as it is known within these steps (X.680 30.2).
///
/// Err: want of memory.
pub fn selection_target_within<'a>(
    alloc: Global,
    names: &Names<'a>,
    steps: usize,
    scope: &Scope<'a>,
    selection: &'a ChoiceSelectionType,
) -> Mem<Option<Target<'a>>>
    ensures { IfOk result (λ target. option_map shown_target target ≡ selection_target (meaning names.now.definitions.now steps) (shown scope.now) selection.now) }
{
    let target = selection_target_over(alloc, names, Span::These, steps, scope, selection)?;
    Ok(target)
}

/// The head of a type, as far as it is known within these steps: the first type on the way that leads nowhere else.
///
/// None: a name leads nowhere, or to no head within these steps. Err: want of memory.
pub fn head_within<'a>(
    alloc: Global,
    names: &Names<'a>,
    steps: usize,
    place: &Place<'a>,
) -> Mem<Option<Place<'a>>>
    ensures { IfOk result (λ found. option_map shown_place found ≡ (meaning names.now.definitions.now steps).head (shown_place place.now)) }
{
    let found = head_over(alloc, names, Span::These, steps, place)?;
    Ok(found)
}

/// The head of a type that a name stands for, as far as it is known within these steps.
///
/// None and Err: as `head_within`.
pub fn head_named_within<'a>(
    alloc: Global,
    names: &Names<'a>,
    steps: usize,
    scope: &Scope<'a>,
    name: &'a Text,
) -> Mem<Option<Place<'a>>>
    ensures { IfOk result (λ found. option_map shown_place found ≡ head_named (meaning names.now.definitions.now steps) (shown scope.now) name.now) }
{
    let found = head_named_over(alloc, names, Span::These, steps, scope, name)?;
    Ok(found)
}
