//! Sets made of their parts, each with the set of meaning that it stands for.

ghost use Rattle.asn_meaning_ranges.specs.Sets.{shown_numbers};
ghost use Rattle.asn_meaning.specs.Numbers.{above_least, below_greatest, every_number, in_both, in_either, in_first, no_number, numbers_from, numbers_to, one_number};
ghost use Rattle.asn_meaning.specs.Ranges.{numbers_among};
ghost use Rattle.std.specs.Prelude.{◌≡◌, IfOk};

use crate::sets::Numbers;
use asn_memory::{Box, List, Mem};
use std::alloc::Global;

/// Every whole number.
#[tactic(auto, using(crate::proofs::Setting::shown_every))]
pub fn every_number() -> Numbers
    ensures { shown_numbers result ≡ every_number }
{
    Numbers::Every
}

/// No number.
#[tactic(auto, using(crate::proofs::Setting::shown_nothing))]
pub fn no_number() -> Numbers
    ensures { shown_numbers result ≡ no_number }
{
    Numbers::Nothing
}

/// The one number.
#[tactic(auto, using(crate::proofs::Setting::shown_one))]
pub fn one_number(number: i128) -> Numbers
    ensures { shown_numbers result ≡ one_number number }
{
    Numbers::One(number)
}

/// The numbers from this one on, without it where it is left out.
#[tactic(auto, using(crate::proofs::Setting::shown_from))]
pub fn numbers_from(left_out: bool, number: i128) -> Numbers
    ensures { shown_numbers result ≡ numbers_from left_out number }
{
    Numbers::From { left_out, number }
}

/// The numbers up to this one, without it where it is left out.
#[tactic(auto, using(crate::proofs::Setting::shown_to))]
pub fn numbers_to(left_out: bool, number: i128) -> Numbers
    ensures { shown_numbers result ≡ numbers_to left_out number }
{
    Numbers::To { left_out, number }
}

/// The codes of the characters.
#[tactic(auto, using(crate::proofs::Setting::shown_among))]
pub fn numbers_among(characters: List<char>) -> Numbers
    ensures { shown_numbers result ≡ numbers_among characters }
{
    Numbers::Among(characters)
}

/// The numbers of both sets.
///
/// Err: want of memory.
#[tactic(auto, using(crate::proofs::Setting::shown_both))]
pub fn in_both(alloc: Global, first: Numbers, second: Numbers) -> Mem<Numbers>
    ensures { IfOk result (λ set. shown_numbers set ≡ in_both (shown_numbers first) (shown_numbers second)) }
{
    let first = Box::new(alloc, first)?;
    let second = Box::new(alloc, second)?;
    Ok(Numbers::Both(first, second))
}

/// The numbers of either set.
///
/// Err: want of memory.
#[tactic(auto, using(crate::proofs::Setting::shown_either))]
pub fn in_either(alloc: Global, first: Numbers, second: Numbers) -> Mem<Numbers>
    ensures { IfOk result (λ set. shown_numbers set ≡ in_either (shown_numbers first) (shown_numbers second)) }
{
    let first = Box::new(alloc, first)?;
    let second = Box::new(alloc, second)?;
    Ok(Numbers::Either(first, second))
}

/// The numbers of the first set that the second has not.
///
/// Err: want of memory.
#[tactic(auto, using(crate::proofs::Setting::shown_without))]
pub fn in_first(alloc: Global, first: Numbers, second: Numbers) -> Mem<Numbers>
    ensures { IfOk result (λ set. shown_numbers set ≡ in_first (shown_numbers first) (shown_numbers second)) }
{
    let first = Box::new(alloc, first)?;
    let second = Box::new(alloc, second)?;
    Ok(Numbers::Without(first, second))
}

/// The numbers below which the set has another.
///
/// Err: want of memory.
#[tactic(auto, using(crate::proofs::Setting::shown_above_least))]
pub fn above_least(alloc: Global, set: Numbers) -> Mem<Numbers>
    ensures { IfOk result (λ above. shown_numbers above ≡ above_least (shown_numbers set)) }
{
    let set = Box::new(alloc, set)?;
    Ok(Numbers::AboveLeast(set))
}

/// The numbers above which the set has another.
///
/// Err: want of memory.
#[tactic(auto, using(crate::proofs::Setting::shown_below_greatest))]
pub fn below_greatest(alloc: Global, set: Numbers) -> Mem<Numbers>
    ensures { IfOk result (λ below. shown_numbers below ≡ below_greatest (shown_numbers set)) }
{
    let set = Box::new(alloc, set)?;
    Ok(Numbers::BelowGreatest(set))
}

/// The characters once more.
///
/// Err: want of memory.
#[tactic(auto, using(crate::proofs::Turning::item_next, crate::proofs::Turning::items_done))]
fn copied(alloc: Global, characters: &[char]) -> Mem<List<char>>
    ensures { IfOk result (λ list. list ≡ characters.now) }
{
    let mut list = List::new(alloc);
    for character in characters {
        list.add(*character)?;
    }
    Ok(list)
}

impl Numbers {
    /// A copy of the set.
    ///
    /// Err: want of memory.
    #[tactic(auto, using(crate::proofs::Setting::shown_every, crate::proofs::Setting::shown_nothing, crate::proofs::Setting::shown_one, crate::proofs::Setting::shown_from, crate::proofs::Setting::shown_to, crate::proofs::Setting::shown_among, crate::proofs::Setting::shown_both, crate::proofs::Setting::shown_either, crate::proofs::Setting::shown_without, crate::proofs::Setting::shown_above_least, crate::proofs::Setting::shown_below_greatest))]
    pub fn copy(&self, alloc: Global) -> Mem<Numbers>
        ensures { IfOk result (λ copy. shown_numbers copy ≡ shown_numbers self.now) }
    {
        match self {
            Numbers::Every => Ok(every_number()),
            Numbers::Nothing => Ok(no_number()),
            Numbers::One(number) => Ok(one_number(*number)),
            Numbers::From { left_out, number } => Ok(numbers_from(*left_out, *number)),
            Numbers::To { left_out, number } => Ok(numbers_to(*left_out, *number)),
            Numbers::Among(codes) => {
                let codes = copied(alloc, codes.as_slice())?;
                Ok(numbers_among(codes))
            }
            Numbers::Both(first, second) => {
                let first = first.get().copy(alloc)?;
                let second = second.get().copy(alloc)?;
                let copy = in_both(alloc, first, second)?;
                Ok(copy)
            }
            Numbers::Either(first, second) => {
                let first = first.get().copy(alloc)?;
                let second = second.get().copy(alloc)?;
                let copy = in_either(alloc, first, second)?;
                Ok(copy)
            }
            Numbers::Without(first, second) => {
                let first = first.get().copy(alloc)?;
                let second = second.get().copy(alloc)?;
                let copy = in_first(alloc, first, second)?;
                Ok(copy)
            }
            Numbers::AboveLeast(set) => {
                let set = set.get().copy(alloc)?;
                let copy = above_least(alloc, set)?;
                Ok(copy)
            }
            Numbers::BelowGreatest(set) => {
                let set = set.get().copy(alloc)?;
                let copy = below_greatest(alloc, set)?;
                Ok(copy)
            }
        }
    }
}
