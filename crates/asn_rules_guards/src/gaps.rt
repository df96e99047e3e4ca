//! Blanks and comments: the bytes outside them, found one by one where they lie.
//!
//! The guards, the walk over an enumeration's items and the readers above call `next_bare`. No memory is taken.

ghost use Rattle.std.specs.Prelude.{◌≡◌, ◌≤◌, ◌<◌, length, drop, IfSome, true, [], ◌∷◌};
ghost use Rattle.std.specs.Option.{MatchOption};
ghost use Rattle.asn_rules_guards.specs.Guards.{bare, in_line, within};
ghost use Rattle.asn_rules_guards.specs.Lexical.{is_blank};
ghost use Rattle.asn_rules_guards.specs.Outside.{outside, outside_from, starts_bare};

use crate::asked::ByteClass;
use crate::lexical::is_in_class;

fn is_blank(byte: u8) -> bool
    ensures { result ≡ is_blank byte }
{
    is_in_class(ByteClass::Blank, byte)
}

// What follows so many bytes.
fn behind(bytes: &[u8], count: usize) -> &[u8]
    requires { count ≤ length bytes.now }
    ensures { result.now ≡ drop count bytes.now }
{
    &bytes[count..]
}

// What follows the line comment in which these bytes begin.
#[tactic(auto, using(crate::proofs::Bare::line_closes, crate::proofs::Bare::line_breaks, crate::proofs::Bare::line_goes_on, crate::proofs::Bare::outside_none))]
fn behind_line(bytes: &[u8]) -> &[u8]
    ensures same { outside result.now ≡ outside_from in_line bytes.now }
    ensures shorter { length result.now ≤ length bytes.now }
{
    let mut rest = bytes;
    while let [byte, ..] = rest {
        if rest.starts_with(b"--") {
            return behind(rest, 2);
        }
        if *byte == b'\n' {
            return behind(rest, 1);
        }
        rest = behind(rest, 1);
    }
    rest
}

// What follows the block comment in which these bytes begin, and those within it.
#[tactic(auto, using(crate::proofs::Bare::block_opens, crate::proofs::Bare::block_closes, crate::proofs::Bare::block_goes_on, crate::proofs::Bare::outside_none))]
fn behind_block(bytes: &[u8]) -> &[u8]
    ensures same { outside result.now ≡ outside_from (within 1) bytes.now }
    ensures shorter { length result.now ≤ length bytes.now }
{
    let mut rest = bytes;
    let mut inner: usize = 0;
    while let [_, ..] = rest {
        if rest.starts_with(b"/*") {
            inner += 1;
            rest = behind(rest, 2);
        } else if rest.starts_with(b"*/") {
            rest = behind(rest, 2);
            if inner == 0 {
                return rest;
            }
            inner -= 1;
        } else {
            rest = behind(rest, 1);
        }
    }
    rest
}

// The bytes from the first outside blanks and comments on.
#[tactic(auto, using(crate::proofs::Bare::line_opens, crate::proofs::Bare::comment_opens, crate::proofs::Bare::blank_goes_on, crate::proofs::Bare::outside_here, crate::proofs::Bare::outside_none, crate::proofs::Bare::outside_stands, crate::proofs::Bare::bare_gap))]
pub(crate) fn behind_gap(bytes: &[u8]) -> &[u8]
    ensures value { result.now ≡ outside bytes.now }
    ensures same { bare result.now ≡ bare bytes.now }
    ensures begins { starts_bare result.now ≡ true }
    ensures shorter { length result.now ≤ length bytes.now }
{
    let mut rest = bytes;
    while let [byte, ..] = rest {
        if rest.starts_with(b"--") {
            rest = behind_line(behind(rest, 2));
        } else if rest.starts_with(b"/*") {
            rest = behind_block(behind(rest, 2));
        } else if is_blank(*byte) {
            rest = behind(rest, 1);
        } else {
            return rest;
        }
    }
    rest
}

/// The first byte outside blanks and comments (X.680 12.1.6 and 12.6), and what follows it.
///
/// None: there is no such byte.
#[tactic(auto, using(crate::proofs::Bare::bare_byte, crate::proofs::Bare::bare_none))]
pub fn next_bare(bytes: &[u8]) -> Option<(u8, &[u8])>
    ensures exact { MatchOption result (outside bytes.now ≡ []) (λ next. outside bytes.now ≡ next.0 ∷ next.1.now) }
    ensures value { MatchOption result (bare bytes.now ≡ []) (λ next. bare bytes.now ≡ next.0 ∷ bare next.1.now) }
    ensures shorter { IfSome result (λ next. length next.1.now < length bytes.now) }
{
    let rest = behind_gap(bytes);
    match rest {
        [] => None,
        [byte, ..] => Some((*byte, behind(rest, 1))),
    }
}
