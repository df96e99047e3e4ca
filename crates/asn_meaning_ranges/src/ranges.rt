//! The numbers of ranges, and of single values (X.680 51.2, 51.4).

ghost use Rattle.asn_meaning_heads.specs.Places.{shown_place};
ghost use Rattle.asn_meaning_heads.specs.Scopes.{shown};
ghost use Rattle.asn_meaning_ranges.specs.Parents.{shown_parent};
ghost use Rattle.asn_meaning_ranges.specs.Sets.{shown_numbers};
ghost use Rattle.asn_meaning_ranges.specs.inner.Ends.{shown_end};
ghost use Rattle.asn_meaning.specs.Judge.{meaning};
ghost use Rattle.asn_meaning.specs.Numbers.{above_least, below_greatest, numbers_from, numbers_to};
ghost use Rattle.asn_meaning.specs.Ranges.{beside, from_low, number_of_single, numbers_of, parent_end, range, up_to_high};
ghost use Rattle.std.specs.Option.{option_copied, option_map};
ghost use Rattle.std.specs.Prelude.{◌≡◌, IfOk, true, ℕ, ◌+◌};

use crate::ends::{end_denoted, number_denoted};
use crate::known::both_known;
use crate::making::{
    above_least, below_greatest, every_number, no_number, numbers_from, numbers_to,
};
use crate::parents::{Parent, numbers_of};
use crate::sets::Numbers;
use asn_meaning_heads::{Place, Scope, ValueForm};
use asn_meaning_shapes::Answer;
use asn_meaning_values::{Denotation, denotes, is_all};
use asn_memory::Mem;
use asn_names_index::Names;
use asn_tree::ASN1Value;
use std::alloc::Global;

/// The numbers from a lower end on; there are none where it denotes none.
fn beside_low(left_out: bool, end: Denotation<i128>) -> Option<Numbers>
    ensures { option_map shown_numbers result ≡ beside (numbers_from left_out) (shown_end end) }
{
    match end {
        Denotation::Denoted(number) => Some(numbers_from(left_out, number)),
        Denotation::Nothing => Some(no_number()),
        Denotation::Unsure => None,
    }
}

/// The numbers up to an upper end; there are none where it denotes none.
fn beside_high(left_out: bool, end: Denotation<i128>) -> Option<Numbers>
    ensures { option_map shown_numbers result ≡ beside (numbers_to left_out) (shown_end end) }
{
    match end {
        Denotation::Denoted(number) => Some(numbers_to(left_out, number)),
        Denotation::Nothing => Some(no_number()),
        Denotation::Unsure => None,
    }
}

/// The numbers above the parent's least.
///
/// Err: want of memory.
fn above_known(alloc: Global, numbers: Option<Numbers>) -> Mem<Option<Numbers>>
    ensures { IfOk result (λ found. option_map shown_numbers found ≡ parent_end above_least true (option_map shown_numbers numbers)) }
{
    match numbers {
        None => Ok(None),
        Some(numbers) => {
            let above = above_least(alloc, numbers)?;
            Ok(Some(above))
        }
    }
}

/// The numbers below the parent's greatest.
///
/// Err: want of memory.
fn below_known(alloc: Global, numbers: Option<Numbers>) -> Mem<Option<Numbers>>
    ensures { IfOk result (λ found. option_map shown_numbers found ≡ parent_end below_greatest true (option_map shown_numbers numbers)) }
{
    match numbers {
        None => Ok(None),
        Some(numbers) => {
            let below = below_greatest(alloc, numbers)?;
            Ok(Some(below))
        }
    }
}

/// The numbers from MIN on: a mark beside it leaves out the numbers below which the parent has none.
///
/// Err: want of memory.
fn from_least(alloc: Global, parent: Parent<'_, '_, '_>, is_open: bool) -> Mem<Option<Numbers>>
    ensures { IfOk result (λ found. option_map shown_numbers found ≡ parent_end above_least is_open (numbers_of (shown_parent parent.entry))) }
{
    if is_open {
        let numbers = numbers_of(alloc, parent)?;
        let above = above_known(alloc, numbers)?;
        Ok(above)
    } else {
        Ok(Some(every_number()))
    }
}

/// The numbers up to MAX: a mark beside it leaves out the numbers above which the parent has none.
///
/// Err: want of memory.
fn up_to_greatest(alloc: Global, parent: Parent<'_, '_, '_>, is_open: bool) -> Mem<Option<Numbers>>
    ensures { IfOk result (λ found. option_map shown_numbers found ≡ parent_end below_greatest is_open (numbers_of (shown_parent parent.entry))) }
{
    if is_open {
        let numbers = numbers_of(alloc, parent)?;
        let below = below_known(alloc, numbers)?;
        Ok(below)
    } else {
        Ok(Some(every_number()))
    }
}

/// The numbers from a range's lower end on; None is MIN (X.680 51.4.2).
///
/// None: it is not known which, however many steps there are. Err: want of memory, also where the steps are used up.
pub fn from_low<'a>(
    alloc: Global,
    names: &Names<'a>,
    steps: usize,
    scope: &Scope<'a>,
    parent: Parent<'_, '_, 'a>,
    is_open: bool,
    low: Option<&'a ASN1Value>,
) -> Mem<Option<Numbers>>
    ensures { IfOk result (λ found. (m : ℕ) → option_map shown_numbers found ≡ from_low (meaning names.now.definitions.now (steps + m)) (shown scope.now) (shown_parent parent.entry) is_open (option_copied low.entry)) }
{
    match low {
        None => {
            let found = from_least(alloc, parent, is_open)?;
            Ok(found)
        }
        Some(value) => {
            let end = end_denoted(alloc, names, steps, scope, parent, value)?;
            Ok(beside_low(is_open, end))
        }
    }
}

/// The numbers up to a range's upper end; None is MAX (X.680 51.4.2).
///
/// None: it is not known which, however many steps there are. Err: want of memory, also where the steps are used up.
pub fn up_to_high<'a>(
    alloc: Global,
    names: &Names<'a>,
    steps: usize,
    scope: &Scope<'a>,
    parent: Parent<'_, '_, 'a>,
    is_open: bool,
    high: Option<&'a ASN1Value>,
) -> Mem<Option<Numbers>>
    ensures { IfOk result (λ found. (m : ℕ) → option_map shown_numbers found ≡ up_to_high (meaning names.now.definitions.now (steps + m)) (shown scope.now) (shown_parent parent.entry) is_open (option_copied high.entry)) }
{
    match high {
        None => {
            let found = up_to_greatest(alloc, parent, is_open)?;
            Ok(found)
        }
        Some(value) => {
            let end = end_denoted(alloc, names, steps, scope, parent, value)?;
            Ok(beside_high(is_open, end))
        }
    }
}

/// The numbers of a range: those between its ends, an open end left out; None is MIN or MAX, the parent's end
/// (X.680 51.4.2).
///
/// None: a name leads nowhere, however many steps there are. Err: want of memory, also where the steps are used up.
pub fn range<'a>(
    alloc: Global,
    names: &Names<'a>,
    steps: usize,
    scope: &Scope<'a>,
    parent: Parent<'_, '_, 'a>,
    low: Option<&'a ASN1Value>,
    high: Option<&'a ASN1Value>,
    low_open: bool,
    high_open: bool,
) -> Mem<Option<Numbers>>
    ensures { IfOk result (λ found. (m : ℕ) → option_map shown_numbers found ≡ range (meaning names.now.definitions.now (steps + m)) (shown scope.now) (shown_parent parent.entry) (option_copied low.entry) (option_copied high.entry) low_open high_open) }
{
    let from = from_low(alloc, names, steps, scope, parent, low_open, low)?;
    let to = up_to_high(alloc, names, steps, scope, parent, high_open, high)?;
    let found = both_known(alloc, from, to)?;
    Ok(found)
}

/// The number of a single value; ALL leaves every number (X.680 51.2).
///
/// None: a name leads nowhere, however many steps there are. Err: want of memory, also where the steps are used up.
pub fn number_of_single<'a>(
    alloc: Global,
    names: &Names<'a>,
    steps: usize,
    scope: &Scope<'a>,
    place: &Place<'a>,
    value: &'a ASN1Value,
) -> Mem<Option<Numbers>>
    ensures { IfOk result (λ found. (m : ℕ) → option_map shown_numbers found ≡ number_of_single (meaning names.now.definitions.now (steps + m)) (shown scope.now) (shown_place place.now) value.now) }
{
    let value = ValueForm::Written(value);
    match is_all(alloc, names, steps, scope, value, place)? {
        Answer::Yes => Ok(Some(every_number())),
        Answer::No => {
            let found = denotes(alloc, names, steps, scope, value, place)?;
            Ok(number_denoted(found))
        }
        Answer::Unknown => Ok(None),
    }
}
