//! What values without parts denote, and whether values are ALL, within a number of steps and no more (X.680 14.1, 51.2).

ghost use Rattle.asn_meaning_heads.specs.Places.{shown_place};
ghost use Rattle.asn_meaning_heads.specs.Scopes.{shown};
ghost use Rattle.asn_meaning_heads.specs.Values.{shown_value};
ghost use Rattle.asn_meaning_values.specs.Denotation.{shown_denotation};
ghost use Rattle.asn_meaning_values.specs.Leaves.{leaf};
ghost use Rattle.asn_meaning.specs.Judge.{meaning};
ghost use Rattle.asn_meaning_shapes.specs.Answers.{known};
ghost use Rattle.std.specs.Prelude.{◌≡◌, IfOk};

use crate::denotation::Denotation;
use crate::everything::is_all_over;
use crate::leaves::leaf_over;
use asn_meaning_heads::{Place, Scope, Span, ValueForm};
use asn_meaning_shapes::{Answer, Tree};
use asn_memory::Mem;
use asn_names_index::Names;
use std::alloc::Global;

/// What a value, read in its own scope, denotes under a type, where that has no parts and is known within these steps. Where it has
/// parts, denotes nothing or is not known, what is given may be anything but a tree without parts.
///
/// Err: want of memory.
pub fn leaf_within<'a>(
    alloc: Global,
    names: &Names<'a>,
    steps: usize,
    scope: &Scope<'a>,
    value: ValueForm<'a>,
    place: &Place<'a>,
) -> Mem<Denotation<Tree>>
    ensures { IfOk result (λ d. leaf (shown_denotation d) ≡ leaf ((meaning names.now.definitions.now steps).denotes (shown scope.now) (shown_value value.entry) (shown_place place.now))) }
{
    let denoted = leaf_over(alloc, names, Span::These, steps, scope, value, place)?;
    Ok(denoted)
}

/// Whether a value, read in its own scope, is ALL under a type, or stands for it, as far as it is known within these steps (X.680
/// 51.2).
///
/// Unknown: a name leads nowhere, or to no value within these steps. Err: want of memory.
pub fn is_all_within<'a>(
    alloc: Global,
    names: &Names<'a>,
    steps: usize,
    scope: &Scope<'a>,
    value: ValueForm<'a>,
    place: &Place<'a>,
) -> Mem<Answer>
    ensures { IfOk result (λ answer. known answer ≡ (meaning names.now.definitions.now steps).is_all (shown scope.now) (shown_value value.entry) (shown_place place.now)) }
{
    let answer = is_all_over(alloc, names, Span::These, steps, scope, value, place)?;
    Ok(answer)
}
