//! Guards: what a rule asks of the bytes that it took, beyond its form.
//!
//! Both interpreters call `is_allowed`. No memory is taken: blanks and comments are stepped over where they lie, by
//! `gaps.rt`.

ghost use Rattle.std.specs.Prelude.{◌≡◌, ◌<◌, ◌^◌, true, false, not, ◌&&◌, nat_eq, nat_lt, if◌then◌else◌, pos, neg_ℤ, ◌+ℤ◌, ◌≤ℤ◌, ◌<ℤ◌, int_le, int_lt, length, map, IfSome, ◌∷◌, []};
ghost use Rattle.std.specs.Option.{MatchOption, is_some};
ghost use Rattle.std.specs.List.{list_any};
ghost use Rattle.std.specs.Cmp.Lexicographic.{pointwise};
ghost use Rattle.asn_rules_guards.specs.Lexical.{is_digit, keywords};
ghost use Rattle.asn_rules_guards.specs.Guards.{bare, among, is_empty, is_negative, fitting, integer, number, natural, names_class, before, behind, is_exponent_mark, mantissa, behind_exponent_mark, exponent, fits_less, is_real, is_base_of, is_scalar, with_octet, is_scalar_of, is_character, is_setting, is_time, has_labels};
ghost use Rattle.asn_rules_guards.specs.Allows.{allows};
ghost use Rattle.asn_rules_guards.specs.inner.Sizes.{lengthened, lengthened_by, below, at_some, part, with_sign};

use crate::asked::{ByteClass, Guard};
use crate::enumerations::numbers_fit;
use crate::gaps::{behind_gap, next_bare};
use crate::lexical::is_in_class;
use crate::setting_pairs::is_setting;

/// Reserved words, none of which can be the name of a type. A space stands between two that go together.
pub static ASN1_KEYWORDS: [&str; 63] = [
    "ABSTRACT-SYNTAX",
    "BIT",
    "CHARACTER",
    "CONTAINING",
    "DATE",
    "DATE-TIME",
    "DURATION",
    "EMBEDDED PDV",
    "EXTERNAL",
    "INSTANCE OF",
    "MINUS-INFINITY",
    "NOT-A-NUMBER",
    "OBJECT",
    "OCTET",
    "OID-IRI",
    "PLUS-INFINITY",
    "RELATIVE-OID",
    "RELATIVE-OID-IRI",
    "TIME",
    "TIME-OF-DAY",
    "TYPE-IDENTIFIER",
    "SIZE",
    "DEFAULT",
    "OPTIONAL",
    "WITH COMPONENTS",
    "WITH COMPONENT",
    "UNION",
    "EXCEPT",
    "INTERSECTION",
    "ABSENT",
    "PRESENT",
    "INCLUDES",
    "MIN",
    "MAX",
    "CLASS",
    "UNIQUE",
    "WITH SYNTAX",
    "NULL",
    "BOOLEAN",
    "INTEGER",
    "REAL",
    "ENUMERATED",
    "CHOICE",
    "SEQUENCE",
    "OF",
    "ALL",
    "SET",
    "OBJECT IDENTIFIER",
    "UNIVERSAL",
    "PRIVATE",
    "APPLICATION",
    "TRUE",
    "FALSE",
    "BEGIN",
    "END",
    "DEFINITIONS",
    "AUTOMATIC",
    "EXPLICIT",
    "IMPLICIT",
    "IMPORTS",
    "FROM",
    "INSTRUCTIONS",
    "TAGS",
];

/// The reserved words, [`ASN1_KEYWORDS`], each at its place.
#[tactic(auto, unfolding(crate::specs::Lexical::keywords))]
pub fn reserved_words() -> &'static [&'static str]
    ensures { map (λ word. word.now) result.now ≡ keywords }
{
    &ASN1_KEYWORDS
}

/// Whether the bytes outside blanks and comments are one of [`ASN1_KEYWORDS`].
#[tactic(auto, unfolding(crate::specs::Lexical::keywords))]
pub fn is_keyword(taken: &[u8]) -> bool
    ensures { result ≡ among keywords (bare taken.now) }
{
    is_one_of(&ASN1_KEYWORDS, behind_gap(taken))
}

// Whether the bytes outside blanks and comments are one of the words.
pub(crate) fn is_one_of(words: &[&str], taken: &[u8]) -> bool
    ensures { result ≡ list_any (λ w. pointwise nat_eq (bare taken.now) w.now) words.now }
{
    words
        .iter()
        .any(|word| is_word(taken, Stretch::All, word.as_bytes()))
}

/// The whole number that the bytes outside blanks and comments spell: an optional `-` and at least one digit. Leading
/// zeros count for nothing. None where they are anything else, or the number is below -2^127 or above 2^127 - 1.
pub fn whole_number(taken: &[u8]) -> Option<i128>
    ensures { result ≡ number (bare taken.now) }
{
    number_of(taken, Stretch::All)
}

/// The number that the bytes outside blanks and comments spell: at least one digit, and digits alone. Leading zeros
/// count for nothing. None where they are anything else, or the number is above 2^128 - 1.
pub fn natural_number(taken: &[u8]) -> Option<u128>
    ensures { result ≡ natural 128 (bare taken.now) }
{
    magnitude(taken, Stretch::All)
}

/// Whether the guard lets pass what was taken.
pub fn is_allowed(guard: Guard, taken: &[u8]) -> bool
    ensures { result ≡ allows guard taken.now }
{
    match guard {
        Guard::NoKeyword => !is_keyword(taken),
        Guard::NamesClass => !is_keyword(taken) || is_class_word(taken),
        Guard::FitsU64 => fits_u64(taken),
        Guard::FitsU128 => natural_number(taken).is_some(),
        Guard::FitsI128 => whole_number(taken).is_some(),
        Guard::FitsI32 => fits_i32(taken),
        Guard::FitsU8 => octet_of(taken, Stretch::All).is_some(),
        Guard::IsBase => is_base(taken),
        Guard::FitsReal => is_real(taken),
        Guard::IsCharacter => is_character(taken),
        Guard::IsSetting => is_setting(taken),
        Guard::IsTime => is_time(taken),
        Guard::HasLabels => has_labels(taken),
        Guard::NumbersFit => numbers_fit(taken),
    }
}

fn is_class_word(taken: &[u8]) -> bool
    ensures { result ≡ names_class (bare taken.now) }
{
    is_word(taken, Stretch::All, b"TYPE-IDENTIFIER")
        || is_word(taken, Stretch::All, b"ABSTRACT-SYNTAX")
}

#[tactic(auto, using(crate::proofs::Numbers::natural_below))]
pub(crate) fn fits_u64(taken: &[u8]) -> bool
    ensures { result ≡ is_some (natural 64 (bare taken.now)) }
{
    match natural_number(taken) {
        Some(number) => number < 0x1_0000_0000_0000_0000,
        None => false,
    }
}

#[tactic(auto, using(crate::proofs::Numbers::integer_narrowed))]
fn fits_i32(taken: &[u8]) -> bool
    ensures { result ≡ is_some (integer 31 (bare taken.now)) }
{
    match whole_number(taken) {
        Some(number) => -0x8000_0000 <= number && number < 0x8000_0000,
        None => false,
    }
}

// Whether the stretch is the word.
pub(crate) fn is_word(taken: &[u8], stretch: Stretch, word: &[u8]) -> bool
    ensures { result ≡ pointwise nat_eq (part stretch (bare taken.now)) word.now }
{
    let mut left = word;
    let mut rest = taken;
    while let Some((byte, behind)) = next_in(rest, stretch) {
        match left {
            [first, further @ ..] if *first == byte => left = further,
            _ => return false,
        }
        rest = behind;
    }
    left.is_empty()
}

// The part of some bytes that a walk goes over, blanks and comments aside.
#[derive(Clone, Copy)]
pub(crate) enum Stretch {
    // All of them.
    All,
    // Those before the first of this byte.
    Before(u8),
    // Those before an exponent, without the point.
    Mantissa,
}

// The first byte of the stretch, and what follows it.
pub(crate) fn next_in(bytes: &[u8], stretch: Stretch) -> Option<(u8, &[u8])>
    ensures value { MatchOption result (part stretch (bare bytes.now) ≡ []) (λ next. part stretch (bare bytes.now) ≡ next.0 ∷ part stretch (bare next.1.now)) }
    ensures shorter { IfSome result (λ next. length next.1.now < length bytes.now) }
{
    match stretch {
        Stretch::All => next_bare(bytes),
        Stretch::Before(mark) => next_before(bytes, mark),
        Stretch::Mantissa => next_of_mantissa(bytes),
    }
}

fn next_before(bytes: &[u8], mark: u8) -> Option<(u8, &[u8])>
    ensures value { MatchOption result (before mark (bare bytes.now) ≡ []) (λ next. before mark (bare bytes.now) ≡ next.0 ∷ before mark (bare next.1.now)) }
    ensures shorter { IfSome result (λ next. length next.1.now < length bytes.now) }
{
    match next_bare(bytes) {
        Some((byte, behind)) => {
            if byte == mark {
                None
            } else {
                Some((byte, behind))
            }
        }
        None => None,
    }
}

fn is_exponent_mark(byte: u8) -> bool
    ensures { result ≡ is_exponent_mark byte }
{
    byte == b'e' || byte == b'E'
}

fn next_of_mantissa(bytes: &[u8]) -> Option<(u8, &[u8])>
    ensures value { MatchOption result (mantissa (bare bytes.now) ≡ []) (λ next. mantissa (bare bytes.now) ≡ next.0 ∷ mantissa (bare next.1.now)) }
    ensures shorter { IfSome result (λ next. length next.1.now < length bytes.now) }
{
    let mut rest = bytes;
    while let Some((byte, behind)) = next_bare(rest) {
        if is_exponent_mark(byte) {
            return None;
        }
        if byte != b'.' {
            return Some((byte, behind));
        }
        rest = behind;
    }
    None
}

// What stands behind a `-`, if it is the first byte outside blanks and comments.
fn behind_minus(bytes: &[u8], stretch: Stretch) -> Option<&[u8]>
    ensures { MatchOption result (is_negative (part stretch (bare bytes.now)) ≡ false) (λ behind. part stretch (bare bytes.now) ≡ 45 ∷ part stretch (bare behind.now)) }
{
    match next_in(bytes, stretch) {
        Some((byte, behind)) => { if byte == b'-' { Some(behind) } else { None } }
        None => None,
    }
}

// The sign of a number.
#[derive(Clone, Copy)]
pub(crate) enum Sign {
    Plus,
    Minus,
}

// The whole number that the stretch spells.
pub(crate) fn number_of(taken: &[u8], stretch: Stretch) -> Option<i128>
    ensures { result ≡ number (part stretch (bare taken.now)) }
{
    match behind_minus(taken, stretch) {
        Some(digits) => sized_number(Sign::Minus, magnitude(digits, stretch)),
        None => sized_number(Sign::Plus, magnitude(taken, stretch)),
    }
}

// The number of this sign and size; None where there is no size.
fn sized_number(sign: Sign, size: Option<u128>) -> Option<i128>
    ensures { result ≡ at_some size (λ n. fitting 127 (with_sign sign n)) }
{
    match size {
        Some(size) => signed(sign, size),
        None => None,
    }
}

// The number of this sign and size; None where it is below -2^127 or above 2^127 - 1.
#[tactic(auto, using(crate::proofs::Numbers::fitting_is))]
fn signed(sign: Sign, size: u128) -> Option<i128>
    ensures { result ≡ fitting 127 (with_sign sign size) }
{
    match sign {
        Sign::Minus => 0i128.checked_sub_unsigned(size),
        Sign::Plus => 0i128.checked_add_unsigned(size),
    }
}

// The number that the digits spell; None where they are none, where another byte stands among them, and from 2^128 on.
#[tactic(auto, using(crate::proofs::Numbers::sized_is))]
fn magnitude(digits: &[u8], stretch: Stretch) -> Option<u128>
    ensures { result ≡ natural 128 (part stretch (bare digits.now)) }
{
    match next_in(digits, stretch) {
        Some(_) => with_digits(digits, stretch),
        None => None,
    }
}

fn with_digits(digits: &[u8], stretch: Stretch) -> Option<u128>
    ensures { result ≡ lengthened_by (part stretch (bare digits.now)) 0 }
{
    let mut value = 0;
    let mut rest = digits;
    while let Some((digit, behind)) = next_in(rest, stretch) {
        match with_digit(value, digit) {
            Some(longer) => value = longer,
            None => return None,
        }
        rest = behind;
    }
    Some(value)
}

// The value with a digit behind it; None where the byte is no digit, and from 2^128 on.
fn with_digit(value: u128, digit: u8) -> Option<u128>
    ensures { result ≡ lengthened value digit }
{
    if is_in_class(ByteClass::Digit, digit) {
        match value.checked_mul(10) {
            Some(tenfold) => tenfold.checked_add(u128::from(digit - b'0')),
            None => None,
        }
    } else {
        None
    }
}

// What follows the first of this byte outside comments; nothing where there is none.
pub(crate) fn behind_first(bytes: &[u8], mark: u8) -> &[u8]
    ensures { bare result.now ≡ behind mark (bare bytes.now) }
{
    let mut rest = bytes;
    while let Some((byte, behind)) = next_bare(rest) {
        if byte == mark {
            return behind;
        }
        rest = behind;
    }
    rest
}

// Whether the bytes outside blanks and comments are a number with a point that fits.
fn is_real(taken: &[u8]) -> bool
    ensures { result ≡ is_real (bare taken.now) }
{
    number_of(taken, Stretch::Mantissa).is_some()
        && is_fitting_less(
            length_of_mantissa(behind_first(taken, b'.')),
            exponent_of(behind_exponent(taken)),
        )
}

fn is_fitting_less(count: usize, exponent: Option<i128>) -> bool
    ensures { result ≡ fits_less count exponent }
{
    match exponent {
        Some(exponent) => is_within_less(count as i128, exponent),
        None => false,
    }
}

fn is_within_less(count: i128, exponent: i128) -> bool
    requires low { pos 0 ≤ℤ count }
    requires high { count <ℤ pos (2 ^ 64) }
    ensures { result ≡ (int_le (neg_ℤ (pos (2 ^ 31)) +ℤ count) exponent && int_lt exponent (pos (2 ^ 31) +ℤ count)) }
{
    -0x8000_0000 + count <= exponent && exponent < 0x8000_0000 + count
}

// The exponent that stands in these bytes; 0 where there are none.
fn exponent_of(bytes: &[u8]) -> Option<i128>
    ensures { result ≡ exponent (bare bytes.now) }
{
    match next_bare(bytes) {
        Some(_) => whole_number(bytes),
        None => Some(0),
    }
}

// What follows the mark of an exponent; nothing where there is none.
fn behind_exponent(bytes: &[u8]) -> &[u8]
    ensures { bare result.now ≡ behind_exponent_mark (bare bytes.now) }
{
    let mut rest = bytes;
    while let Some((byte, behind)) = next_bare(rest) {
        if is_exponent_mark(byte) {
            return behind;
        }
        rest = behind;
    }
    rest
}

// How many bytes there are before an exponent, the point aside.
fn length_of_mantissa(bytes: &[u8]) -> usize
    ensures { result ≡ length (mantissa (bare bytes.now)) }
{
    let mut count: usize = 0;
    let mut rest = bytes;
    while let Some((_, behind)) = next_of_mantissa(rest) {
        count += 1;
        rest = behind;
    }
    count
}

fn is_base(taken: &[u8]) -> bool
    ensures { result ≡ is_base_of (natural 128 (bare taken.now)) }
{
    match natural_number(taken) {
        Some(number) => number == 2 || number == 10,
        None => false,
    }
}

#[tactic(auto, using(crate::proofs::Numbers::octet_below))]
fn octet_of(bytes: &[u8], stretch: Stretch) -> Option<u8>
    ensures { result ≡ natural 8 (part stretch (bare bytes.now)) }
{
    match magnitude(bytes, stretch) {
        Some(number) => octet_at(number),
        None => None,
    }
}

// The number, where it is below 256.
fn octet_at(number: u128) -> Option<u8>
    ensures { result ≡ (if nat_lt number (2 ^ 8) then Some number else None) }
{
    if number < 256 {
        Some(number as u8)
    } else {
        None
    }
}

// Whether the bytes outside blanks and comments are four octets that tell a character.
fn is_character(taken: &[u8]) -> bool
    ensures { result ≡ is_character (bare taken.now) }
{
    let group = behind_first(taken, b'{');
    let plane = behind_first(group, b',');
    let row = behind_first(plane, b',');
    let cell = behind_first(row, b',');
    tell_character(
        octet_of(group, Stretch::Before(b',')),
        octet_of(plane, Stretch::Before(b',')),
        octet_of(row, Stretch::Before(b',')),
        octet_of(cell, Stretch::Before(b'}')),
    )
}

fn tell_character(group: Option<u8>, plane: Option<u8>, row: Option<u8>, cell: Option<u8>) -> bool
    ensures { result ≡ is_scalar_of (with_octet (with_octet (with_octet group plane) row) cell) }
{
    match group {
        None => false,
        Some(group) => match plane {
            None => false,
            Some(plane) => match row {
                None => false,
                Some(row) => match cell {
                    None => false,
                    Some(cell) => is_scalar(
                        ((group as u32 * 256 + plane as u32) * 256 + row as u32) * 256
                            + cell as u32,
                    ),
                },
            },
        },
    }
}

fn is_scalar(number: u32) -> bool
    ensures { result ≡ is_scalar number }
{
    number < 0xD800 || (0xE000 <= number && number < 0x11_0000)
}

// Whether there are a digit and another byte.
fn is_time(taken: &[u8]) -> bool
    ensures { result ≡ is_time taken.now }
{
    has_digit(taken) && has_other(taken)
}

fn is_digit(byte: u8) -> bool
    ensures { result ≡ is_digit byte }
{
    is_in_class(ByteClass::Digit, byte)
}

fn has_digit(taken: &[u8]) -> bool
    ensures { result ≡ list_any is_digit taken.now }
{
    taken.iter().any(|byte| is_digit(*byte))
}

// Whether there is a byte that is no digit.
fn has_other(taken: &[u8]) -> bool
    ensures { result ≡ list_any (λ b. not (is_digit b)) taken.now }
{
    taken.iter().any(|byte| !is_digit(*byte))
}

// Whether there is no `//`, and no `/` in front.
fn has_labels(taken: &[u8]) -> bool
    ensures { result ≡ has_labels true taken.now }
{
    let mut slash = true;
    for byte in taken {
        if slash && *byte == b'/' {
            return false;
        }
        slash = *byte == b'/';
    }
    true
}
