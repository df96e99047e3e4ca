//! The guard on enumerations: whether the numbers of the items are of 128 bits.
//!
//! `guards.rt` calls `numbers_fit`. No memory is taken: the items are gone through where they lie, once where no addition has a
//! number in writing that is close to 2^127, else for each number that is looked for anew.

ghost use Rattle.std.specs.Prelude.{◌≡◌, ◌<◌, ◌≤◌, ◌^◌, ◌||◌, pos, nat_eq, ◌∷◌, [], length, IfSome};
ghost use Rattle.std.specs.List.{list_all};
ghost use Rattle.std.specs.Option.{MatchOption};
ghost use Rattle.asn_tree_numbers.specs.Enumeration.{has, written, from_above, if_fits};
ghost use Rattle.asn_rules_guards.specs.Guards.{bare};
ghost use Rattle.asn_rules_guards.specs.Lexical.{is_alnum};
ghost use Rattle.asn_rules_guards.specs.Enumerations.{FitIsExact, additions_fit, behind_item, behind_name, given, in_parentheses, items, least_free, numbers_fit, past};
ghost use Rattle.asn_rules_guards.specs.inner.Sizes.{is_far, is_taken, root_end};

use crate::asked::ByteClass;
use crate::gaps::next_bare;
use crate::guards::{Stretch, number_of};
use crate::lexical::is_in_class;

/// The guard on enumerations fails exactly where an item's number would pass 128 bits (X.680 clause 20).
pub fn fit_is_exact()
    ensures { FitIsExact }
{}

// Whether the numbers of all items are of 128 bits. Where no addition has a number in writing that is close to 2^127, they are,
// and the items are gone through once.
pub(crate) fn numbers_fit(taken: &[u8]) -> bool
    ensures { result ≡ numbers_fit taken.now }
{
    if are_far(behind_marker(taken)) {
        true
    } else {
        is_each_fitting(taken)
    }
}

// Whether the number is below 2^126, if one is written.
fn is_far(item: Option<i128>) -> bool
    ensures { result ≡ is_far item }
{
    match item {
        Some(number) => number < 0x4000_0000_0000_0000_0000_0000_0000_0000,
        None => true,
    }
}

// Whether each number that is written is below 2^126.
fn are_far(bytes: &[u8]) -> bool
    ensures { result ≡ list_all is_far (items bytes.now) }
{
    let mut rest = bytes;
    while let Some((item, behind)) = next_item(rest) {
        if !is_far(item) {
            return false;
        }
        rest = behind;
    }
    true
}

// Whether the number that each item is given is of 128 bits.
fn is_each_fitting(taken: &[u8]) -> bool
    ensures { result ≡ numbers_fit taken.now }
{
    let root = past(taken, b'{');
    match root_end(root) {
        Some(end) => additions_fit(root, end, behind_marker(taken)),
        None => false,
    }
}

// What follows the first of this byte outside blanks and comments; nothing where there is none.
#[tactic(auto, using(crate::proofs::Items::past_none, crate::proofs::Items::past_here, crate::proofs::Items::past_on))]
fn past(bytes: &[u8], mark: u8) -> &[u8]
    ensures { result.now ≡ past mark bytes.now }
{
    let mut rest = bytes;
    while let Some((byte, behind)) = next_bare(rest) {
        if byte == mark {
            return behind;
        }
        rest = behind;
    }
    &[]
}

// What follows the extension marker; nothing where there is none.
fn behind_marker(taken: &[u8]) -> &[u8]
    ensures { result.now ≡ past 46 (past 46 (past 46 taken.now)) }
{
    past(past(past(taken, b'.'), b'.'), b'.')
}

fn is_name_byte(byte: u8) -> bool
    ensures { result ≡ (is_alnum byte || nat_eq byte 45) }
{
    is_in_class(ByteClass::Alnum, byte) || byte == b'-'
}

// What follows the rest of a name; two hyphens begin a comment.
#[tactic(auto, using(crate::proofs::Items::name_done, crate::proofs::Items::name_ends, crate::proofs::Items::comment_ends, crate::proofs::Items::name_on))]
fn behind_name(bytes: &[u8]) -> &[u8]
    ensures value { result.now ≡ behind_name bytes.now }
    ensures shorter { length result.now ≤ length bytes.now }
{
    let mut rest = bytes;
    while let [byte, ..] = rest {
        if !is_name_byte(*byte) || rest.starts_with(b"--") {
            return rest;
        }
        rest = &rest[1..];
    }
    rest
}

// The number in the parentheses that stand here.
fn in_parentheses(bytes: &[u8]) -> Option<i128>
    ensures { result ≡ in_parentheses (bare bytes.now) }
{
    match next_bare(bytes) {
        Some((byte, behind)) => {
            if byte == b'(' {
                number_of(behind, Stretch::Before(b')'))
            } else {
                None
            }
        }
        None => None,
    }
}

// The first item up to a `.`, by the number that is written behind its name, and what follows the name.
#[tactic(auto, using(crate::proofs::Items::items_none, crate::proofs::Items::items_end, crate::proofs::Items::item_here, crate::proofs::Items::no_item))]
fn next_item(bytes: &[u8]) -> Option<(Option<i128>, &[u8])>
    ensures value { MatchOption result (items bytes.now ≡ []) (λ next. items bytes.now ≡ next.0 ∷ items next.1.now) }
    ensures shorter { IfSome result (λ next. length next.1.now < length bytes.now) }
{
    let mut rest = bytes;
    while let Some((byte, behind)) = next_bare(rest) {
        if byte == b'.' {
            return None;
        }
        if is_in_class(ByteClass::Letter, byte) {
            let after = behind_name(behind);
            return Some((in_parentheses(after), after));
        }
        rest = behind;
    }
    None
}

// Whether an item has this number in writing.
fn is_written(bytes: &[u8], number: i128) -> bool
    ensures { result ≡ has (written (items bytes.now)) number }
{
    let mut rest = bytes;
    while let Some((item, behind)) = next_item(rest) {
        if item == Some(number) {
            return true;
        }
        rest = behind;
    }
    false
}

// Whether the number is one of the root's: below the end of those that are given, or written.
fn is_taken(root: &[u8], end: u128, number: u128, fitting: i128) -> bool
    requires { fitting ≡ pos number }
    ensures { result ≡ is_taken (items root.now) end number }
{
    number < end || is_written(root, fitting)
}

fn if_fits(number: u128) -> Option<i128>
    ensures value { result ≡ if_fits number }
    ensures bits { MatchOption result (2 ^ 127 ≤ number) (λ fitting. (fitting ≡ pos number) × (number < 2 ^ 127)) }
{
    0i128.checked_add_unsigned(number)
}

// The least number from `from` on that is not taken; None where that would pass 128 bits.
#[tactic(auto, using(crate::proofs::Numbered::least_here, crate::proofs::Numbered::least_on, crate::proofs::Numbered::least_past))]
fn least_free(root: &[u8], end: u128, from: u128) -> Option<i128>
    ensures { result ≡ if_fits (least_free (is_taken (items root.now) end) from) }
{
    let mut number = from;
    while let Some(fitting) = if_fits(number) {
        if !is_taken(root, end, number, fitting) {
            return Some(fitting);
        }
        number += 1;
    }
    None
}

// The number that is written, else the least that is free; None where that would pass 128 bits.
fn given(item: Option<i128>, root: &[u8], end: u128, from: u128) -> Option<i128>
    ensures { result ≡ given (is_taken (items root.now) end) from item }
{
    match item {
        Some(number) => Some(number),
        None => least_free(root, end, from),
    }
}

// The least number that is neither negative nor below `from`, and above `number`.
fn from_above(from: u128, number: i128) -> u128
    ensures { result ≡ from_above from number }
{
    match u128::try_from(number) {
        Ok(number) => from.max(number + 1),
        Err(_) => from,
    }
}

// Where the numbers behind an item of the root are counted from.
fn behind_item(from: u128, item: Option<i128>, number: i128) -> u128
    ensures { result ≡ behind_item from item number }
{
    match item {
        Some(_) => from,
        None => from_above(from, number),
    }
}

// The number behind those that the root's items without a number are given; None where one would pass 128 bits.
fn root_end(root: &[u8]) -> Option<u128>
    ensures { result ≡ root_end (is_taken (items root.now) 0) 0 (items root.now) }
{
    let mut from = 0;
    let mut rest = root;
    while let Some((item, behind)) = next_item(rest) {
        match given(item, root, 0, from) {
            Some(number) => from = behind_item(from, item, number),
            None => return None,
        }
        rest = behind;
    }
    Some(from)
}

// Whether the numbers of the additions are of 128 bits.
fn additions_fit(root: &[u8], end: u128, additions: &[u8]) -> bool
    ensures { result ≡ additions_fit (is_taken (items root.now) end) 0 (items additions.now) }
{
    let mut from = 0;
    let mut rest = additions;
    while let Some((item, behind)) = next_item(rest) {
        match given(item, root, end, from) {
            Some(number) => from = from_above(from, number),
            None => return false,
        }
        rest = behind;
    }
    true
}
