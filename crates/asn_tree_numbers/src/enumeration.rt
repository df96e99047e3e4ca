//! The numbers of an enumeration's items.

ghost use Rattle.asn_tree_numbers.specs.inner.Counting.{IsGiven, IsLeastFrom, Passes, from_behind};
ghost use Rattle.asn_tree_numbers.specs.Enumeration.{from_above, if_fits, AreNumbers, Numbered, NumbersPass, SomePasses, written};
ghost use Rattle.std.specs.Prelude.{◌≡◌, ◌↔◌, ℕ, [], IfOk, IfSome, IsNone, MatchOption};

use crate::taken_numbers::TakenNumbers;
use asn_memory::{List, Mem};
use std::alloc::Global;

/// A part of an enumeration: what stands before its extension marker, or behind it.
#[derive(Clone, Copy)]
pub(crate) enum Part {
    Root,
    Additions,
}

/// The number of each item of an enumeration, first of the root's, where an item is the number written after its name
/// (X.680 clause 20). None where a number would pass `i128`. A number that is written stands as it is, also where
/// another item has it.
pub fn enumerate(
    alloc: Global,
    root: &[Option<i128>],
    additions: &[Option<i128>],
) -> Mem<Option<List<i128>>>
    ensures numbers { IfOk result (λ answer. IfSome answer (λ numbers. AreNumbers root.now additions.now numbers)) }
    ensures passes { IfOk result (λ answer. IsNone answer ↔ NumbersPass root.now additions.now) }
{
    let taken = TakenNumbers::new(alloc, written(alloc, root)?)?;
    let Some(of_root) = numbers_of(alloc, Part::Root, root, &taken)? else {
        return Ok(None);
    };
    let taken = TakenNumbers::new(alloc, of_root)?;
    let Some(of_additions) = numbers_of(alloc, Part::Additions, additions, &taken)? else {
        return Ok(None);
    };
    let mut numbers = taken.into_numbers();
    numbers.append(of_additions)?;
    Ok(Some(numbers))
}

// The numbers that are written.
fn written(alloc: Global, items: &[Option<i128>]) -> Mem<List<i128>>
    ensures { IfOk result (λ numbers. numbers ≡ written items.now) }
{
    let mut numbers = List::new(alloc);
    for item in items {
        if let Some(number) = item {
            numbers.add(*number)?;
        }
    }
    Ok(numbers)
}

// The numbers of the items of a part, in order.
fn numbers_of(
    alloc: Global,
    part: Part,
    items: &[Option<i128>],
    taken: &TakenNumbers,
) -> Mem<Option<List<i128>>>
    ensures numbers { IfOk result (λ answer. MatchOption answer (Passes part taken.now.numbers items.now) (λ numbers. Numbered part taken.now.numbers [] items.now numbers)) }
    ensures fit { IfOk result (λ answer. IfSome answer (λ numbers. SomePasses numbers → ⊥)) }
{
    let mut numbers = List::new(alloc);
    let mut from = 0;
    for item in items {
        let Some(number) = number_of(*item, taken, from) else {
            return Ok(None);
        };
        from = from_behind(part, from, *item, number);
        numbers.add(number)?;
    }
    Ok(Some(numbers))
}

// The number that is written, else the least from `from` on that is not taken; None where that would pass `i128`.
fn number_of(item: Option<i128>, taken: &TakenNumbers, from: u128) -> Option<i128>
    ensures { IsGiven taken.now.numbers from item result }
{
    match item {
        Some(number) => Some(number),
        None => least_from(taken, from),
    }
}

// The least number from `from` on that is not taken; None where that would pass `i128`.
fn least_from(taken: &TakenNumbers, from: u128) -> Option<i128>
    ensures { (n : ℕ) × IsLeastFrom taken.now.numbers from n × (result ≡ if_fits n) }
{
    let mut number = from;
    while let Some(fitting) = if_fits(number) {
        if !taken.has(fitting) {
            return Some(fitting);
        }
        number += 1;
    }
    None
}

fn if_fits(number: u128) -> Option<i128>
    ensures { result ≡ if_fits number }
{
    0i128.checked_add_unsigned(number)
}

// Where the number behind an item is counted from.
fn from_behind(part: Part, from: u128, item: Option<i128>, number: i128) -> u128
    ensures { result ≡ from_behind part from item number }
{
    match (part, item) {
        (Part::Root, Some(_)) => from,
        _ => from_above(from, number),
    }
}

// The least number that is neither negative nor below `from`, and above `number`.
fn from_above(from: u128, number: i128) -> u128
    ensures { result ≡ from_above from number }
{
    match u128::try_from(number) {
        Ok(number) => from.max(number + 1),
        Err(_) => from,
    }
}
