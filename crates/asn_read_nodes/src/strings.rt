//! Texts between quotes.

ghost use Rattle.asn_read_nodes.specs.Strings.{character_by, quadruple_of, quoted_of, single, time_of};
ghost use Rattle.asn_rules.specs.Children.{Is};
ghost use Rattle.asn_rules.specs.Whole.{whole_rules};
ghost use Rattle.asn_rules.specs.declared.names.TheConstants.{QUADRUPLE, QUOTED, TIME_VALUE};
ghost use Rattle.asn_rules_guards.specs.Guards.{bare, four_octets, is_character, is_scalar, is_scalar_of, natural, octet};
ghost use Rattle.std.specs.Option.{is_some};
ghost use Rattle.std.specs.Prelude.{◌≡◌, encode_utf8, true, IfOk, Some};

use crate::bare::{bare_bytes, before_byte, behind_byte};
use crate::numbers::bytes_of;
use asn_memory::{List, Mem, Text};
use asn_rules::{Node, names, natural_number};
use std::alloc::Global;

/// The bytes with each doubled quote made single.
fn with_single_quotes(alloc: Global, bytes: &[u8]) -> Mem<List<u8>>
    ensures { IfOk result (λ made. made ≡ single bytes.now) }
{
    let mut made = List::new(alloc);
    let mut held = false;
    for byte in bytes {
        if held && *byte == b'"' {
            held = false;
        } else {
            made.add(*byte)?;
            held = *byte == b'"';
        }
    }
    Ok(made)
}

/// The text of a character string in quotes, of which two that stand together are one (X.680 12.14).
#[tactic(auto, using(crate::proofs::Views::quoted_has_body))]
pub fn read_quoted(alloc: Global, text: &[u8], node: &Node) -> Mem<Text>
    requires { Is whole_rules text.now QUOTED node.now }
    ensures { IfOk result (λ read. quoted_of text.now node.now ≡ Some read) }
{
    let body = node.the_child(names::QUOTED_BODY);
    let bytes = with_single_quotes(alloc, bytes_of(text, body))?;
    Text::from_bytes(alloc, bytes.as_slice())
}

/// The text of a time in quotes (X.680 38.1, 46.3, 47.3).
#[tactic(auto, using(crate::proofs::Views::time_has_chars))]
pub fn read_time(alloc: Global, text: &[u8], node: &Node) -> Mem<Text>
    requires { Is whole_rules text.now TIME_VALUE node.now }
    ensures { IfOk result (λ read. time_of text.now node.now ≡ Some read) }
{
    let chars = node.the_child(names::TIME_CHARS);
    Text::from_bytes(alloc, bytes_of(text, chars))
}

/// The octet that digits spell.
#[tactic(auto, using(asn_rules_guards::proofs::Numbers::octet_below))]
fn octet_of(digits: &[u8]) -> u8
    requires { is_some (natural 8 (bare digits.now)) ≡ true }
    ensures { natural 8 (bare digits.now) ≡ Some result }
{
    match natural_number(digits) {
        Some(number) => number as u8,
        None => unreachable!(),
    }
}

/// The octet that the bytes before the first of this byte spell.
#[tactic(auto, using(crate::proofs::BareNumbers::bare_octet, crate::proofs::BareNumbers::bare_octet_there))]
fn octet_before(alloc: Global, bytes: &[u8], mark: u8) -> Mem<u8>
    requires { is_some (octet mark bytes.now) ≡ true }
    ensures { IfOk result (λ number. octet mark bytes.now ≡ Some number) }
{
    let digits = before_byte(alloc, bytes, mark)?;
    Ok(octet_of(digits.as_slice()))
}

/// The number of four octets, behind each but the last a comma, behind it a closing brace.
#[tactic(auto, using(crate::proofs::Octets::first_octet, crate::proofs::Octets::second_octet, crate::proofs::Octets::third_octet, crate::proofs::Octets::fourth_octet, crate::proofs::Octets::octets_are))]
fn number_of_octets(alloc: Global, bytes: &[u8]) -> Mem<u32>
    requires { is_scalar_of (four_octets bytes.now) ≡ true }
    ensures value { IfOk result (λ number. four_octets bytes.now ≡ Some number) }
    ensures scalar { IfOk result (λ number. is_scalar number ≡ true) }
{
    let plane_on = behind_byte(bytes, b',');
    let row_on = behind_byte(plane_on, b',');
    let cell_on = behind_byte(row_on, b',');
    let group = octet_before(alloc, bytes, b',')?;
    let plane = octet_before(alloc, plane_on, b',')?;
    let row = octet_before(alloc, row_on, b',')?;
    let cell = octet_before(alloc, cell_on, b'}')?;
    Ok(((u32::from(group) * 256 + u32::from(plane)) * 256 + u32::from(row)) * 256 + u32::from(cell))
}

/// The text of one character.
fn text_of(alloc: Global, code: u32) -> Mem<Text>
    requires { is_scalar code ≡ true }
    ensures { IfOk result (λ read. read ≡ encode_utf8 code) }
{
    let character = char::from_u32(code).unwrap();
    let mut buffer = [0; 4];
    Text::new(alloc, character.encode_utf8(&mut buffer))
}

/// The character that a group, a plane, a row and a cell tell (X.680 41.8), as a text.
#[tactic(auto, using(crate::proofs::Views::quadruple_is_character))]
pub fn read_quadruple(alloc: Global, text: &[u8], node: &Node) -> Mem<Text>
    requires { Is whole_rules text.now QUADRUPLE node.now }
    ensures { IfOk result (λ read. quadruple_of text.now node.now ≡ Some read) }
{
    let bytes = bare_bytes(alloc, bytes_of(text, node))?;
    let number = number_of_octets(alloc, behind_byte(bytes.as_slice(), b'{'))?;
    text_of(alloc, number)
}
