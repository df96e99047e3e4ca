//! Real numbers (X.680 21.5, 21.6).

ghost use Rattle.asn_read_nodes.specs.Parts.{taken};
ghost use Rattle.asn_read_nodes.specs.Reals.{base_of, decimal_by, decimal_of, decimals, parts_of};
ghost use Rattle.asn_rules.specs.Children.{Is};
ghost use Rattle.asn_rules_guards.specs.Guards.{bare, behind_exponent_mark, exponent, fits_less, is_base_of, is_exponent_mark, is_real, mantissa, natural};
ghost use Rattle.asn_rules.specs.Whole.{whole_rules};
ghost use Rattle.asn_rules.specs.declared.names.TheConstants.{DOT_NOTATION, MBE_NOTATION, REAL_BASE};
ghost use Rattle.std.specs.Option.{is_some};
ghost use Rattle.std.specs.Prelude.{◌≡◌, ◌-ℤ◌, pos, true, IfOk, Some};

use crate::bare::{bare_bytes, bare_number, behind_byte};
use crate::numbers::{bytes_of, read_i32, read_i128};
use asn_memory::{List, Mem};
use asn_rules::{Node, names, natural_number};
use asn_tree_leaves::RealValue;
use std::alloc::Global;

fn base_from(digits: &[u8]) -> u8
    requires { is_base_of (natural 128 (bare digits.now)) ≡ true }
    ensures { natural 128 (bare digits.now) ≡ Some result }
{
    match natural_number(digits) {
        Some(number) => number as u8,
        None => unreachable!(),
    }
}

/// The base of a real: 2 or 10.
#[tactic(auto, using(crate::proofs::Views::base_fits))]
fn read_base(text: &[u8], node: &Node) -> u8
    requires { Is whole_rules text.now REAL_BASE node.now }
    ensures { base_of text.now node.now ≡ Some result }
{
    base_from(bytes_of(text, node))
}

/// The real that is written as mantissa, base and exponent (X.680 21.5).
#[tactic(auto, using(crate::proofs::Views::parts_have_mantissa, crate::proofs::Views::parts_have_base, crate::proofs::Views::parts_have_exponent))]
pub fn read_real_parts(text: &[u8], node: &Node) -> RealValue
    requires { Is whole_rules text.now MBE_NOTATION node.now }
    ensures { parts_of text.now node.now ≡ Some result }
{
    let mantissa = read_i128(text, node.the_child(names::NUMBER_I128));
    let base = read_base(text, node.the_child(names::REAL_BASE));
    let exponent = read_i32(text, node.the_child(names::NUMBER_I32));
    RealValue {
        mantissa,
        base,
        exponent,
    }
}

fn is_exponent_mark(byte: u8) -> bool
    ensures { result ≡ is_exponent_mark byte }
{
    byte == b'e' || byte == b'E'
}

/// What stands before an exponent, without the point.
fn mantissa_of(alloc: Global, bytes: &[u8]) -> Mem<List<u8>>
    ensures { IfOk result (λ found. found ≡ mantissa bytes.now) }
{
    let mut found = List::new(alloc);
    for byte in bytes {
        if is_exponent_mark(*byte) {
            return Ok(found);
        }
        if *byte != b'.' {
            found.add(*byte)?;
        }
    }
    Ok(found)
}

/// What follows the mark of an exponent; nothing where there is none.
fn behind_exponent(bytes: &[u8]) -> &[u8]
    ensures { result.now ≡ behind_exponent_mark bytes.now }
{
    let mut rest = bytes;
    while let [byte, ..] = rest {
        let further = &rest[1..];
        if is_exponent_mark(*byte) {
            return further;
        }
        rest = further;
    }
    rest
}

/// The exponent that these bytes spell; 0 where there are none.
fn exponent_of(bytes: &[u8]) -> i128
    requires { is_some (exponent bytes.now) ≡ true }
    ensures { exponent bytes.now ≡ Some result }
{
    if bytes.is_empty() {
        0
    } else {
        bare_number(bytes)
    }
}

/// The exponent less the count of decimals.
fn less(exponent: i128, count: usize) -> i32
    requires { fits_less count (Some exponent) ≡ true }
    ensures { result ≡ exponent -ℤ pos count }
{
    (exponent - count as i128) as i32
}

/// The real that bytes outside blanks and comments spell.
#[tactic(auto, using(crate::proofs::Views::real_has_mantissa, crate::proofs::Views::real_has_exponent, crate::proofs::Views::real_fits))]
fn decimal(alloc: Global, bytes: &[u8]) -> Mem<RealValue>
    requires { is_real bytes.now ≡ true }
    ensures { IfOk result (λ real. decimal_by bytes.now ≡ Some real) }
{
    let mantissa = mantissa_of(alloc, bytes)?;
    let decimals = mantissa_of(alloc, behind_byte(bytes, b'.'))?;
    let exponent = exponent_of(behind_exponent(bytes));
    Ok(RealValue {
        mantissa: bare_number(mantissa.as_slice()),
        base: 10,
        exponent: less(exponent, decimals.len()),
    })
}

/// The real that is written with a point (X.680 12.9): its mantissa is all digits with the sign, its base 10, and each
/// decimal makes its exponent one less.
#[tactic(auto, using(crate::proofs::Views::decimal_is_real))]
pub fn read_decimal(alloc: Global, text: &[u8], node: &Node) -> Mem<RealValue>
    requires { Is whole_rules text.now DOT_NOTATION node.now }
    ensures { IfOk result (λ real. decimal_of text.now node.now ≡ Some real) }
{
    let bytes = bare_bytes(alloc, bytes_of(text, node))?;
    decimal(alloc, bytes.as_slice())
}
