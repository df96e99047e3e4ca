//! Lists of numbers at which a set is tried.

ghost use Rattle.asn_meaning_ranges.specs.inner.Wides.{all_wide, wide};
ghost use Rattle.asn_meaning.specs.Numbers.{around, before, behind};
ghost use Rattle.asn_meaning.specs.ValueTrees.{same_number};
ghost use Rattle.std.specs.List.{list_any};
ghost use Rattle.std.specs.Prelude.{◌≡◌, ◌++◌, ◌∷◌, [], IfOk, map, pos};

use crate::wide::Wide;
use asn_memory::{List, Mem};
use std::alloc::Global;

/// The one number.
///
/// Err: want of memory.
pub fn only(alloc: Global, number: i128) -> Mem<List<Wide>>
    ensures { IfOk result (λ turns. all_wide turns ≡ number ∷ []) }
{
    let turns = List::of(alloc, Wide::Within(number))?;
    Ok(turns)
}

/// The numbers with one more at the end.
///
/// Err: want of memory.
fn with_number(numbers: List<Wide>, number: Wide) -> Mem<List<Wide>>
    ensures { IfOk result (λ more. all_wide more ≡ all_wide numbers ++ wide number ∷ []) }
{
    let mut numbers = numbers;
    numbers.add(number)?;
    Ok(numbers)
}

/// The numbers of both lists in order.
///
/// Err: want of memory.
pub fn joined(numbers: List<Wide>, others: List<Wide>) -> Mem<List<Wide>>
    ensures { IfOk result (λ all. all_wide all ≡ all_wide numbers ++ all_wide others) }
{
    let mut numbers = numbers;
    numbers.append(others)?;
    Ok(numbers)
}

/// The code of a character.
fn code_of(character: char) -> i128
    ensures { result ≡ pos character }
{
    i128::from(u32::from(character))
}

/// The codes of the characters.
///
/// Err: want of memory.
#[tactic(auto, using(crate::proofs::Turning::code_next, crate::proofs::Turning::codes_done))]
pub fn codes_of(alloc: Global, characters: &[char]) -> Mem<List<Wide>>
    ensures { IfOk result (λ codes. all_wide codes ≡ map pos characters.now) }
{
    let mut codes = List::new(alloc);
    for character in characters {
        codes = with_number(codes, Wide::Within(code_of(*character)))?;
    }
    Ok(codes)
}

/// Whether the number is the code of one of the characters.
#[tactic(auto, using(crate::proofs::Turning::is_next, crate::proofs::Turning::not_next, crate::proofs::Turning::none_left))]
pub fn is_code(characters: &[char], number: Wide) -> bool
    ensures { result ≡ list_any (λ c. same_number (pos c) (wide number)) characters.now }
{
    for character in characters {
        if Wide::Within(code_of(*character)).is(number) {
            return true;
        }
    }
    false
}

/// The numbers with one more and its neighbours at the end.
///
/// Err: want of memory.
fn with_neighbours(numbers: List<Wide>, number: Wide) -> Mem<List<Wide>>
    ensures { IfOk result (λ more. all_wide more ≡ all_wide numbers ++ before (wide number) ∷ wide number ∷ behind (wide number) ∷ []) }
{
    let more = with_number(numbers, number.before()?)?;
    let more = with_number(more, number)?;
    let more = with_number(more, number.behind()?)?;
    Ok(more)
}

/// The numbers, and behind them each turn with its neighbours.
///
/// Err: want of memory.
#[tactic(auto, using(crate::proofs::Turning::around_next, crate::proofs::Turning::around_done))]
fn with_around(numbers: List<Wide>, turns: &[Wide]) -> Mem<List<Wide>>
    ensures { IfOk result (λ all. all_wide all ≡ all_wide numbers ++ around (all_wide turns.now)) }
{
    let mut all = numbers;
    for turn in turns {
        all = with_neighbours(all, *turn)?;
    }
    Ok(all)
}

/// Each turn with its neighbours.
///
/// Err: want of memory.
pub fn around(alloc: Global, turns: &[Wide]) -> Mem<List<Wide>>
    ensures { IfOk result (λ all. all_wide all ≡ around (all_wide turns.now)) }
{
    let all = with_around(List::new(alloc), turns)?;
    Ok(all)
}

/// The number before this one, and each turn with its neighbours.
///
/// Err: want of memory.
pub fn before_and_around(alloc: Global, number: Wide, turns: &[Wide]) -> Mem<List<Wide>>
    ensures { IfOk result (λ all. all_wide all ≡ before (wide number) ∷ around (all_wide turns.now)) }
{
    let first = List::of(alloc, number.before()?)?;
    let all = with_around(first, turns)?;
    Ok(all)
}

/// The number behind this one, and each turn with its neighbours.
///
/// Err: want of memory.
pub fn behind_and_around(alloc: Global, number: Wide, turns: &[Wide]) -> Mem<List<Wide>>
    ensures { IfOk result (λ all. all_wide all ≡ behind (wide number) ∷ around (all_wide turns.now)) }
{
    let first = List::of(alloc, number.behind()?)?;
    let all = with_around(first, turns)?;
    Ok(all)
}
