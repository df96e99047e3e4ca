//! Elements joined by set operators, taken one by one (X.680 50.1).

ghost use Rattle.asn_meaning_ranges.specs.Sets.{shown_numbers};
ghost use Rattle.asn_meaning_ranges.specs.inner.Joining.{ranks_with, shown_ranks};
ghost use Rattle.asn_meaning.specs.Numbers.{every_number, in_both, in_either, lifted, no_number};
ghost use Rattle.std.specs.Option.{option_map};
ghost use Rattle.std.specs.Prelude.{◌≡◌, IfOk, Some};

use crate::known::{both_known, either_known, first_known};
use crate::making::{every_number, no_number};
use crate::sets::Numbers;
use asn_memory::Mem;
use asn_tree::SetOperator;
use std::alloc::Global;

/// What is known of the elements so far.
#[derive(Drop)]
pub struct Ranks {
    /// What stands before the last UNION.
    pub united: Option<Numbers>,
    /// What is intersected since.
    pub met: Option<Numbers>,
    /// The last element with its exclusions.
    pub last: Option<Numbers>,
}

/// A first element.
pub fn ranks_of(first: Option<Numbers>) -> Ranks
    ensures united { option_map shown_numbers result.united ≡ Some no_number }
    ensures met { option_map shown_numbers result.met ≡ Some every_number }
    ensures last { option_map shown_numbers result.last ≡ option_map shown_numbers first }
{
    Ranks {
        united: Some(no_number()),
        met: Some(every_number()),
        last: first,
    }
}

/// One element more behind an operator: EXCEPT binds tighter than INTERSECTION, and that tighter than UNION.
///
/// Err: want of memory.
pub fn ranks_with(
    alloc: Global,
    ranks: Ranks,
    operator: SetOperator,
    element: Option<Numbers>,
) -> Mem<Ranks>
    ensures { IfOk result (λ more. shown_ranks more ≡ ranks_with (shown_ranks ranks) operator (option_map shown_numbers element)) }
{
    let Ranks { united, met, last } = ranks;
    match operator {
        SetOperator::Except => {
            let last = first_known(alloc, last, element)?;
            Ok(Ranks { united, met, last })
        }
        SetOperator::Intersection => {
            let met = both_known(alloc, met, last)?;
            Ok(Ranks {
                united,
                met,
                last: element,
            })
        }
        SetOperator::Union => {
            let met = both_known(alloc, met, last)?;
            let united = either_known(alloc, united, met)?;
            Ok(Ranks {
                united,
                met: Some(every_number()),
                last: element,
            })
        }
    }
}

/// The numbers of all elements.
///
/// Err: want of memory.
pub fn ranked(alloc: Global, ranks: Ranks) -> Mem<Option<Numbers>>
    ensures { IfOk result (λ set. option_map shown_numbers set ≡ lifted in_either (option_map shown_numbers ranks.united) (lifted in_both (option_map shown_numbers ranks.met) (option_map shown_numbers ranks.last))) }
{
    let Ranks { united, met, last } = ranks;
    let met = both_known(alloc, met, last)?;
    let set = either_known(alloc, united, met)?;
    Ok(set)
}
