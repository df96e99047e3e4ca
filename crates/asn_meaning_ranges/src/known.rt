//! Sets of whole numbers, once they are known: None where a name leads nowhere.

ghost use Rattle.asn_meaning_ranges.specs.Sets.{shown_numbers};
ghost use Rattle.asn_meaning.specs.Numbers.{in_both, in_either, in_first, lifted};
ghost use Rattle.std.specs.Option.{option_map};
ghost use Rattle.std.specs.Prelude.{◌≡◌, IfOk};

use crate::making::{in_both, in_either, in_first};
use crate::sets::Numbers;
use asn_memory::Mem;
use std::alloc::Global;

/// A copy of the set.
///
/// Err: want of memory.
pub fn copied(alloc: Global, set: &Option<Numbers>) -> Mem<Option<Numbers>>
    ensures { IfOk result (λ copy. option_map shown_numbers copy ≡ option_map shown_numbers set.now) }
{
    match set {
        None => Ok(None),
        Some(set) => {
            let copy = set.copy(alloc)?;
            Ok(Some(copy))
        }
    }
}

/// The numbers of both sets.
///
/// Err: want of memory.
pub fn both_known(
    alloc: Global,
    first: Option<Numbers>,
    second: Option<Numbers>,
) -> Mem<Option<Numbers>>
    ensures { IfOk result (λ set. option_map shown_numbers set ≡ lifted in_both (option_map shown_numbers first) (option_map shown_numbers second)) }
{
    match (first, second) {
        (Some(first), Some(second)) => {
            let set = in_both(alloc, first, second)?;
            Ok(Some(set))
        }
        (None, _) => Ok(None),
        (Some(_), None) => Ok(None),
    }
}

/// The numbers of either set.
///
/// Err: want of memory.
pub fn either_known(
    alloc: Global,
    first: Option<Numbers>,
    second: Option<Numbers>,
) -> Mem<Option<Numbers>>
    ensures { IfOk result (λ set. option_map shown_numbers set ≡ lifted in_either (option_map shown_numbers first) (option_map shown_numbers second)) }
{
    match (first, second) {
        (Some(first), Some(second)) => {
            let set = in_either(alloc, first, second)?;
            Ok(Some(set))
        }
        (None, _) => Ok(None),
        (Some(_), None) => Ok(None),
    }
}

/// The numbers of the first set that the second has not.
///
/// Err: want of memory.
pub fn first_known(
    alloc: Global,
    first: Option<Numbers>,
    second: Option<Numbers>,
) -> Mem<Option<Numbers>>
    ensures { IfOk result (λ set. option_map shown_numbers set ≡ lifted in_first (option_map shown_numbers first) (option_map shown_numbers second)) }
{
    match (first, second) {
        (Some(first), Some(second)) => {
            let set = in_first(alloc, first, second)?;
            Ok(Some(set))
        }
        (None, _) => Ok(None),
        (Some(_), None) => Ok(None),
    }
}
