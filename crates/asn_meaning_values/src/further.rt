//! Whether values are ALL, as all further steps have it (X.680 51.2).

ghost use Rattle.asn_meaning_heads.specs.Places.{shown_place};
ghost use Rattle.asn_meaning_heads.specs.Scopes.{shown};
ghost use Rattle.asn_meaning_heads.specs.Values.{shown_value};
ghost use Rattle.asn_meaning.specs.Judge.{meaning};
ghost use Rattle.asn_meaning_shapes.specs.Answers.{known};
ghost use Rattle.std.specs.Prelude.{◌≡◌, ◌+◌, ℕ, IfOk};

use crate::everything::is_all_over;
use asn_meaning_heads::{Place, Scope, Span, ValueForm};
use asn_meaning_shapes::Answer;
use asn_memory::Mem;
use asn_names_index::Names;
use std::alloc::Global;

/// Whether a value, read in its own scope, is ALL under a type within a number of steps, and within more, or a dummy, a name
/// or a path that stands for it (X.680 51.2).
///
/// Unknown: a name leads nowhere, however many steps there are. Err: want of memory, also where the steps are used up.
pub fn is_all<'a>(
    alloc: Global,
    names: &Names<'a>,
    steps: usize,
    scope: &Scope<'a>,
    value: ValueForm<'a>,
    place: &Place<'a>,
) -> Mem<Answer>
    ensures { IfOk result (λ answer. (m : ℕ) → known answer ≡ (meaning names.now.definitions.now (steps + m)).is_all (shown scope.now) (shown_value value.entry) (shown_place place.now)) }
{
    let answer = is_all_over(alloc, names, Span::Further, steps, scope, value, place)?;
    Ok(answer)
}
