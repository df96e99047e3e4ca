//! Sets of whole numbers (X.680 51.4).

ghost use Rattle.asn_meaning_ranges.specs.Sets.{shown_numbers};
ghost use Rattle.asn_meaning_ranges.specs.inner.Wides.{all_wide, wide};
ghost use Rattle.std.specs.List.{list_any};
ghost use Rattle.std.specs.Prelude.{◌≡◌, ◌&&◌, ◌||◌, IfOk, if◌then◌else◌, int_le, int_lt, not};

use crate::turns::{around, before_and_around, behind_and_around, codes_of, is_code, joined, only};
use crate::wide::Wide;
use asn_memory::{Box, List, Mem};
use std::alloc::Global;

/// A set of whole numbers, by how it is made.
#[derive(Drop)]
pub enum Numbers {
    /// Every whole number.
    Every,
    /// No number.
    Nothing,
    One(i128),
    /// The numbers from this one on, without it where it is left out.
    From { left_out: bool, number: i128 },
    /// The numbers up to this one, without it where it is left out.
    To { left_out: bool, number: i128 },
    /// The codes of these characters.
    Among(List<char>),
    Both(Box<Numbers>, Box<Numbers>),
    Either(Box<Numbers>, Box<Numbers>),
    /// The numbers of the first that the second has not.
    Without(Box<Numbers>, Box<Numbers>),
    /// The numbers below which the set has another.
    AboveLeast(Box<Numbers>),
    /// The numbers above which the set has another.
    BelowGreatest(Box<Numbers>),
}

/// Whether the number stands behind an end, or is the end where that is not left out.
fn is_from(left_out: bool, end: i128, number: Wide) -> bool
    ensures { result ≡ (if left_out then int_lt end (wide number) else int_le end (wide number)) }
{
    let end = Wide::Within(end);
    if left_out {
        end.is_below(number)
    } else {
        end.is_at_most(number)
    }
}

/// Whether the number stands before an end, or is the end where that is not left out.
fn is_to(left_out: bool, end: i128, number: Wide) -> bool
    ensures { result ≡ (if left_out then int_lt (wide number) end else int_le (wide number) end) }
{
    let end = Wide::Within(end);
    if left_out {
        number.is_below(end)
    } else {
        number.is_at_most(end)
    }
}

/// Whether both hold.
fn both(left: bool, right: bool) -> bool
    ensures { result ≡ (left && right) }
{
    left && right
}

/// Whether one of them holds.
fn either(left: bool, right: bool) -> bool
    ensures { result ≡ (left || right) }
{
    left || right
}

/// Whether the first holds and the second does not.
fn first_alone(left: bool, right: bool) -> bool
    ensures { result ≡ (left && not right) }
{
    left && !right
}

impl Numbers {
    /// Whether the set has the number.
    ///
    /// Err: want of memory.
    pub fn has(&self, alloc: Global, number: i128) -> Mem<bool>
        ensures { IfOk result (λ answer. answer ≡ (shown_numbers self.now).has number) }
    {
        let answer = self.has_wide(alloc, Wide::Within(number))?;
        Ok(answer)
    }

    /// The numbers at which alone the answer of `has` may turn.
    ///
    /// Err: want of memory.
    #[tactic(auto, using(crate::proofs::Setting::shown_every, crate::proofs::Setting::shown_nothing, crate::proofs::Setting::shown_one, crate::proofs::Setting::shown_from, crate::proofs::Setting::shown_to, crate::proofs::Setting::shown_among, crate::proofs::Setting::shown_both, crate::proofs::Setting::shown_either, crate::proofs::Setting::shown_without, crate::proofs::Setting::shown_above_least, crate::proofs::Setting::shown_below_greatest))]
    fn turns(&self, alloc: Global) -> Mem<List<Wide>>
        ensures { IfOk result (λ turns. all_wide turns ≡ (shown_numbers self.now).turns) }
    {
        match self {
            Numbers::Every => Ok(List::new(alloc)),
            Numbers::Nothing => Ok(List::new(alloc)),
            Numbers::One(number) => {
                let turns = only(alloc, *number)?;
                Ok(turns)
            }
            Numbers::From { number, .. } => {
                let turns = only(alloc, *number)?;
                Ok(turns)
            }
            Numbers::To { number, .. } => {
                let turns = only(alloc, *number)?;
                Ok(turns)
            }
            Numbers::Among(codes) => {
                let turns = codes_of(alloc, codes.as_slice())?;
                Ok(turns)
            }
            Numbers::Both(first, second) => {
                let turns = joined(first.get().turns(alloc)?, second.get().turns(alloc)?)?;
                Ok(turns)
            }
            Numbers::Either(first, second) => {
                let turns = joined(first.get().turns(alloc)?, second.get().turns(alloc)?)?;
                Ok(turns)
            }
            Numbers::Without(first, second) => {
                let turns = joined(first.get().turns(alloc)?, second.get().turns(alloc)?)?;
                Ok(turns)
            }
            Numbers::AboveLeast(set) => {
                let turns = set.get().turns(alloc)?;
                let turns = around(alloc, turns.as_slice())?;
                Ok(turns)
            }
            Numbers::BelowGreatest(set) => {
                let turns = set.get().turns(alloc)?;
                let turns = around(alloc, turns.as_slice())?;
                Ok(turns)
            }
        }
    }

    /// Whether the set has the number, which may lie beyond i128.
    ///
    /// Err: want of memory.
    #[tactic(auto, using(crate::proofs::Setting::shown_every, crate::proofs::Setting::shown_nothing, crate::proofs::Setting::shown_one, crate::proofs::Setting::shown_from, crate::proofs::Setting::shown_to, crate::proofs::Setting::among_has, crate::proofs::Setting::both_has, crate::proofs::Setting::either_has, crate::proofs::Setting::without_has, crate::proofs::Setting::shown_above_least, crate::proofs::Setting::shown_below_greatest))]
    #[cycle(having)]
    fn has_wide(&self, alloc: Global, number: Wide) -> Mem<bool>
        ensures { IfOk result (λ answer. answer ≡ (shown_numbers self.now).has (wide number)) }
    {
        match self {
            Numbers::Every => Ok(true),
            Numbers::Nothing => Ok(false),
            Numbers::One(one) => Ok(number.is(Wide::Within(*one))),
            Numbers::From {
                left_out,
                number: end,
            } => Ok(is_from(*left_out, *end, number)),
            Numbers::To {
                left_out,
                number: end,
            } => Ok(is_to(*left_out, *end, number)),
            Numbers::Among(codes) => Ok(is_code(codes.as_slice(), number)),
            Numbers::Both(first, second) => {
                let left = first.get().has_wide(alloc, number)?;
                let right = second.get().has_wide(alloc, number)?;
                Ok(both(left, right))
            }
            Numbers::Either(first, second) => {
                let left = first.get().has_wide(alloc, number)?;
                let right = second.get().has_wide(alloc, number)?;
                Ok(either(left, right))
            }
            Numbers::Without(first, second) => {
                let left = first.get().has_wide(alloc, number)?;
                let right = second.get().has_wide(alloc, number)?;
                Ok(first_alone(left, right))
            }
            Numbers::AboveLeast(set) => {
                let turns = set.get().turns(alloc)?;
                let tries = before_and_around(alloc, number, turns.as_slice())?;
                let answer = set.get().has_below(alloc, number, tries.as_slice())?;
                Ok(answer)
            }
            Numbers::BelowGreatest(set) => {
                let turns = set.get().turns(alloc)?;
                let tries = behind_and_around(alloc, number, turns.as_slice())?;
                let answer = set.get().has_above(alloc, number, tries.as_slice())?;
                Ok(answer)
            }
        }
    }

    /// Whether the set has one of these numbers that is less than this one.
    ///
    /// Err: want of memory.
    #[tactic(auto, using(crate::proofs::Trying::here, crate::proofs::Trying::not_below, crate::proofs::Trying::not_there, crate::proofs::Trying::none_left))]
    #[cycle(having)]
    fn has_below(&self, alloc: Global, number: Wide, tries: &[Wide]) -> Mem<bool>
        ensures { IfOk result (λ answer. answer ≡ list_any (λ k. int_lt k (wide number) && (shown_numbers self.now).has k) (all_wide tries.now)) }
    {
        for other in tries {
            if other.is_below(number) {
                if self.has_wide(alloc, *other)? {
                    return Ok(true);
                }
            }
        }
        Ok(false)
    }

    /// Whether the set has one of these numbers that is greater than this one.
    ///
    /// Err: want of memory.
    #[tactic(auto, using(crate::proofs::Trying::here_above, crate::proofs::Trying::not_above, crate::proofs::Trying::not_there_above, crate::proofs::Trying::none_left))]
    #[cycle(having)]
    fn has_above(&self, alloc: Global, number: Wide, tries: &[Wide]) -> Mem<bool>
        ensures { IfOk result (λ answer. answer ≡ list_any (λ k. int_lt (wide number) k && (shown_numbers self.now).has k) (all_wide tries.now)) }
    {
        for other in tries {
            if number.is_below(*other) {
                if self.has_wide(alloc, *other)? {
                    return Ok(true);
                }
            }
        }
        Ok(false)
    }
}
