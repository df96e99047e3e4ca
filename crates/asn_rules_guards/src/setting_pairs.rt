//! The guard on settings: whether a property has the setting that is written behind it.
//!
//! `guards.rt` calls `is_setting`. The settings and their texts are those of `asn_tree_settings`; they are compared where they
//! lie, so that no memory is taken.

ghost use Rattle.std.specs.Prelude.{◌≡◌, ◌||◌, nat_eq};
ghost use Rattle.std.specs.Cmp.Lexicographic.{pointwise};
ghost use Rattle.std.specs.List.{list_any};
ghost use Rattle.std.specs.Option.{MatchOption, is_some};
ghost use Rattle.std.specs.Str.{bytes_eq};
ghost use Rattle.asn_tree_settings.specs.Settings.{basic_of, date_of, year_of, time_of, clock_of, interval_of, point_of, recurrence_of, midnight_of, number_behind};
ghost use Rattle.asn_rules_guards.specs.Guards.{bare, before, is_setting};
ghost use Rattle.asn_rules_guards.specs.inner.Sizes.{behind_word};

use crate::gaps::next_bare;
use crate::guards::{Stretch, behind_first, fits_u64, is_one_of, is_word};

// Whether the bytes outside blanks and comments are a property's name, `=`, and one of the property's settings.
pub(crate) fn is_setting(taken: &[u8]) -> bool
    ensures { result ≡ is_setting (bare taken.now) }
{
    let text = behind_first(taken, b'=');
    if is_property(taken, b"Basic") {
        is_basic(text)
    } else if is_property(taken, b"Date") {
        is_date(text)
    } else if is_property(taken, b"Year") {
        is_year(text)
    } else if is_property(taken, b"Time") {
        is_time_of_day(text)
    } else if is_property(taken, b"Local-or-UTC") {
        is_clock(text)
    } else if is_property(taken, b"Interval-type") {
        is_interval(text)
    } else if is_property(taken, b"SE-point") {
        is_point(text)
    } else if is_property(taken, b"Recurrence") {
        is_recurrence(text)
    } else if is_property(taken, b"Midnight") {
        is_midnight(text)
    } else {
        false
    }
}

// Whether the bytes before the first `=` are the name.
fn is_property(taken: &[u8], name: &[u8]) -> bool
    ensures { result ≡ bytes_eq (before 61 (bare taken.now)) name.now }
{
    is_word(taken, Stretch::Before(b'='), name)
}

fn is_basic(text: &[u8]) -> bool
    ensures { result ≡ is_some (basic_of (bare text.now)) }
{
    is_one_of(
        &["Date", "Time", "Date-Time", "Interval", "Rec-Interval"],
        text,
    )
}

fn is_date(text: &[u8]) -> bool
    ensures { result ≡ is_some (date_of (bare text.now)) }
{
    is_one_of(&["C", "Y", "YM", "YMD", "YD", "YW", "YWD"], text)
}

fn is_year(text: &[u8]) -> bool
    ensures { result ≡ is_some (year_of (bare text.now)) }
{
    is_told(&["Basic", "Proleptic", "Negative"], &["L"], text)
}

fn is_time_of_day(text: &[u8]) -> bool
    ensures { result ≡ is_some (time_of (bare text.now)) }
{
    is_told(&["H", "HM", "HMS"], &["HF", "HMF", "HMSF"], text)
}

fn is_clock(text: &[u8]) -> bool
    ensures { result ≡ is_some (clock_of (bare text.now)) }
{
    is_one_of(&["L", "Z", "LD"], text)
}

fn is_interval(text: &[u8]) -> bool
    ensures { result ≡ is_some (interval_of (bare text.now)) }
{
    is_one_of(&["SE", "D", "SD", "DE"], text)
}

fn is_point(text: &[u8]) -> bool
    ensures { result ≡ is_some (point_of (bare text.now)) }
{
    is_one_of(&["Date", "Time", "Date-Time"], text)
}

fn is_recurrence(text: &[u8]) -> bool
    ensures { result ≡ is_some (recurrence_of (bare text.now)) }
{
    is_told(&["Unlimited"], &["R"], text)
}

fn is_midnight(text: &[u8]) -> bool
    ensures { result ≡ is_some (midnight_of (bare text.now)) }
{
    is_one_of(&["Start", "End"], text)
}

// Whether one of the words stands there alone, or one of the others with a number behind it.
fn is_told(words: &[&str], numbered: &[&str], text: &[u8]) -> bool
    ensures { result ≡ (list_any (λ w. pointwise nat_eq (bare text.now) w.now) words.now || list_any (λ w. is_some (number_behind w.now (bare text.now))) numbered.now) }
{
    is_one_of(words, text) || is_numbered(numbered, text)
}

// Whether one of the words stands there, and then a number.
fn is_numbered(words: &[&str], text: &[u8]) -> bool
    ensures { result ≡ list_any (λ w. is_some (number_behind w.now (bare text.now))) words.now }
{
    words.iter().any(|word| has_number(text, word.as_bytes()))
}

// Whether the word stands there, and then a number below 2^64.
#[tactic(auto, using(crate::proofs::SettingTexts::number_told))]
fn has_number(text: &[u8], word: &[u8]) -> bool
    ensures { result ≡ is_some (number_behind word.now (bare text.now)) }
{
    match after_word(text, word) {
        Some(number) => fits_u64(number),
        None => false,
    }
}

// What follows the word.
#[tactic(auto, using(crate::proofs::SettingTexts::no_word))]
fn after_word<'a>(text: &'a [u8], word: &[u8]) -> Option<&'a [u8]>
    ensures { MatchOption result (behind_word word.now (bare text.now) ≡ None) (λ rest. behind_word word.now (bare text.now) ≡ Some (bare rest.now)) }
{
    let mut left = word;
    let mut rest = text;
    while let Some((byte, behind)) = next_bare(rest) {
        match left {
            [] => return Some(rest),
            [first, further @ ..] if *first == byte => left = further,
            _ => return None,
        }
        rest = behind;
    }
    if left.is_empty() { Some(rest) } else { None }
}
