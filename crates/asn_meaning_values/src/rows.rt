//! The trees of values that hold no other value, by the kind of their head.

ghost use Rattle.asn_meaning_heads.specs.Kinds.{shown_kind};
ghost use Rattle.asn_meaning_heads.specs.Written.{shown_written};
ghost use Rattle.asn_meaning_values.specs.inner.Rows.{first_octet};
ghost use Rattle.asn_meaning_shapes.specs.Trees.{shown_tree};
ghost use Rattle.asn_meaning.specs.Rows.{arcs_row, bit, bits_row, null_row, number_row, number_written, octet, octets_of, octets_row, real_row, row, string_row, text_row, text_written, truth_row};
ghost use Rattle.asn_meaning.specs.Members.{named};
ghost use Rattle.std.specs.Option.{option_copied, option_map};
ghost use Rattle.std.specs.Prelude.{◌≡◌, ◌≤◌, IfOk, drop, length};
ghost use Rattle.std.specs.Str.{chars};

use crate::bits::bits_written;
use crate::making::{
    bits_tree, identifier_tree, null_tree, octets_tree, opaque_tree, real_tree, text_tree,
    truth_tree, whole_tree,
};
use crate::texts::string_written;
use asn_meaning_heads::{Kind, Written};
use asn_meaning_shapes::Tree;
use asn_memory::{List, Mem, Text};
use asn_tree::{DistinguishedValue, ObjectIdentifierArc, ObjectIdentifierValue, RealValue};
use std::alloc::Global;

/// Under NULL (X.680 24.3).
fn null_row(written: Written<'_>) -> Option<Tree>
    ensures { option_map shown_tree result ≡ null_row (shown_written written.entry) }
{
    match written {
        Written::Null => Some(null_tree()),
        Written::All => None,
        Written::Truth(_) => None,
        Written::Number(_) => None,
        Written::Real(_) => None,
        Written::Text(_) => None,
        Written::Bits(_) => None,
        Written::BitNames(_) => None,
        Written::Octets(_) => None,
        Written::Arcs(_) => None,
        Written::Item(_) => None,
        Written::Name { .. } => None,
        Written::Braces(_) => None,
        Written::Fields(_) => None,
        Written::Elements(_) => None,
        Written::Alternative { .. } => None,
        Written::Nested(_) => None,
    }
}

/// Under BOOLEAN (X.680 18.3).
fn truth_row(written: Written<'_>) -> Option<Tree>
    ensures { option_map shown_tree result ≡ truth_row (shown_written written.entry) }
{
    match written {
        Written::Truth(truth) => Some(truth_tree(truth)),
        Written::All => None,
        Written::Null => None,
        Written::Number(_) => None,
        Written::Real(_) => None,
        Written::Text(_) => None,
        Written::Bits(_) => None,
        Written::BitNames(_) => None,
        Written::Octets(_) => None,
        Written::Arcs(_) => None,
        Written::Item(_) => None,
        Written::Name { .. } => None,
        Written::Braces(_) => None,
        Written::Fields(_) => None,
        Written::Elements(_) => None,
        Written::Alternative { .. } => None,
        Written::Nested(_) => None,
    }
}

/// The number that is written.
pub fn number_written(written: Written<'_>) -> Option<i128>
    ensures { result ≡ number_written (shown_written written.entry) }
{
    match written {
        Written::Number(number) => Some(number),
        Written::All => None,
        Written::Null => None,
        Written::Truth(_) => None,
        Written::Real(_) => None,
        Written::Text(_) => None,
        Written::Bits(_) => None,
        Written::BitNames(_) => None,
        Written::Octets(_) => None,
        Written::Arcs(_) => None,
        Written::Item(_) => None,
        Written::Name { .. } => None,
        Written::Braces(_) => None,
        Written::Fields(_) => None,
        Written::Elements(_) => None,
        Written::Alternative { .. } => None,
        Written::Nested(_) => None,
    }
}

/// Under INTEGER (X.680 19.9).
fn number_row(written: Written<'_>) -> Option<Tree>
    ensures { option_map shown_tree result ≡ number_row (shown_written written.entry) }
{
    match written {
        Written::Number(number) => Some(whole_tree(number)),
        Written::All => None,
        Written::Null => None,
        Written::Truth(_) => None,
        Written::Real(_) => None,
        Written::Text(_) => None,
        Written::Bits(_) => None,
        Written::BitNames(_) => None,
        Written::Octets(_) => None,
        Written::Arcs(_) => None,
        Written::Item(_) => None,
        Written::Name { .. } => None,
        Written::Braces(_) => None,
        Written::Fields(_) => None,
        Written::Elements(_) => None,
        Written::Alternative { .. } => None,
        Written::Nested(_) => None,
    }
}

/// Under REAL, of which a whole number is a value too (X.680 21.6).
fn real_row(written: Written<'_>) -> Option<Tree>
    ensures { option_map shown_tree result ≡ real_row (shown_written written.entry) }
{
    match written {
        Written::Real(real) => Some(real_tree(real)),
        Written::Number(mantissa) => Some(real_tree(RealValue {
            mantissa,
            base: 10,
            exponent: 0,
        })),
        Written::All => None,
        Written::Null => None,
        Written::Truth(_) => None,
        Written::Text(_) => None,
        Written::Bits(_) => None,
        Written::BitNames(_) => None,
        Written::Octets(_) => None,
        Written::Arcs(_) => None,
        Written::Item(_) => None,
        Written::Name { .. } => None,
        Written::Braces(_) => None,
        Written::Fields(_) => None,
        Written::Elements(_) => None,
        Written::Alternative { .. } => None,
        Written::Nested(_) => None,
    }
}

/// The text that is written.
fn text_written<'a>(written: Written<'a>) -> Option<&'a Text>
    ensures { option_map (λ text. chars text.now) result ≡ text_written (shown_written written.entry) }
{
    match written {
        Written::Text(text) => Some(text),
        Written::All => None,
        Written::Null => None,
        Written::Truth(_) => None,
        Written::Number(_) => None,
        Written::Real(_) => None,
        Written::Bits(_) => None,
        Written::BitNames(_) => None,
        Written::Octets(_) => None,
        Written::Arcs(_) => None,
        Written::Item(_) => None,
        Written::Name { .. } => None,
        Written::Braces(_) => None,
        Written::Fields(_) => None,
        Written::Elements(_) => None,
        Written::Alternative { .. } => None,
        Written::Nested(_) => None,
    }
}

/// Under a time type (X.680 38, 46, 47).
///
/// Err: want of memory.
#[tactic(auto, using(crate::proofs::Rowing::no_text, crate::proofs::Rowing::some_text))]
fn text_row(alloc: Global, written: Written<'_>) -> Mem<Option<Tree>>
    ensures { IfOk result (λ tree. option_map shown_tree tree ≡ text_row (shown_written written.entry)) }
{
    match text_written(written) {
        None => Ok(None),
        Some(text) => {
            let text = Text::new(alloc, text.as_str())?;
            Ok(Some(text_tree(text)))
        }
    }
}

/// The octets once more.
///
/// Err: want of memory.
#[tactic(auto, using(crate::proofs::Listing::item_next, crate::proofs::Listing::items_done))]
fn copied_octets(alloc: Global, octets: &[u8]) -> Mem<List<u8>>
    ensures { IfOk result (λ copied. copied ≡ octets.now) }
{
    let mut copied = List::new(alloc);
    for octet in octets {
        copied.add(*octet)?;
    }
    Ok(copied)
}

/// A bit as a number.
fn bit(set: bool) -> u8
    ensures value { result ≡ bit set }
    ensures bound { result ≤ 1 }
{
    if set { 1 } else { 0 }
}

/// The octet of eight bits, the greatest first.
fn octet(bits: [bool; 8]) -> u8
    ensures { result ≡ octet bits }
{
    let [a, b, c, d, e, f, g, h] = bits;
    let high = 2 * (2 * (2 * bit(a) + bit(b)) + bit(c)) + bit(d);
    2 * (2 * (2 * (2 * high + bit(e)) + bit(f)) + bit(g)) + bit(h)
}

/// Under OBJECT IDENTIFIER (X.680 32.3).
///
/// Err: want of memory.
fn arcs_row(alloc: Global, written: Written<'_>) -> Mem<Option<Tree>>
    ensures { IfOk result (λ tree. option_map shown_tree tree ≡ arcs_row (shown_written written.entry)) }
{
    match written {
        Written::Arcs(arcs) => {
            let copied = copied_arcs(alloc, arcs.as_slice())?;
            Ok(Some(identifier_tree(ObjectIdentifierValue(copied))))
        }
        Written::All => Ok(None),
        Written::Null => Ok(None),
        Written::Truth(_) => Ok(None),
        Written::Number(_) => Ok(None),
        Written::Real(_) => Ok(None),
        Written::Text(_) => Ok(None),
        Written::Bits(_) => Ok(None),
        Written::BitNames(_) => Ok(None),
        Written::Octets(_) => Ok(None),
        Written::Item(_) => Ok(None),
        Written::Name { .. } => Ok(None),
        Written::Braces(_) => Ok(None),
        Written::Fields(_) => Ok(None),
        Written::Elements(_) => Ok(None),
        Written::Alternative { .. } => Ok(None),
        Written::Nested(_) => Ok(None),
    }
}

/// The arc once more.
///
/// Err: want of memory.
fn copied_arc(alloc: Global, arc: &ObjectIdentifierArc) -> Mem<ObjectIdentifierArc>
    ensures { IfOk result (λ copied. copied ≡ arc.now) }
{
    let name = match &arc.name {
        None => None,
        Some(name) => Some(Text::new(alloc, name.as_str())?),
    };
    Ok(ObjectIdentifierArc {
        name,
        number: arc.number,
    })
}

/// The arcs once more.
///
/// Err: want of memory.
#[tactic(auto, using(crate::proofs::Listing::item_next, crate::proofs::Listing::items_done))]
fn copied_arcs(alloc: Global, arcs: &[ObjectIdentifierArc]) -> Mem<List<ObjectIdentifierArc>>
    ensures { IfOk result (λ copied. copied ≡ arcs.now) }
{
    let mut copied = List::new(alloc);
    for arc in arcs {
        let one = copied_arc(alloc, arc)?;
        copied.add(one)?;
    }
    Ok(copied)
}

/// The octet of the first eight bits, where there are as many.
fn first_octet(bits: &[bool]) -> Option<u8>
    ensures { result ≡ first_octet bits.now }
{
    match bits {
        [a, b, c, d, e, f, g, h, ..] => Some(octet([*a, *b, *c, *d, *e, *f, *g, *h])),
        _ => None,
    }
}

/// The bits behind so many.
fn behind(bits: &[bool], count: usize) -> &[bool]
    requires { count ≤ length bits.now }
    ensures { result.now ≡ drop count bits.now }
{
    &bits[count..]
}

/// The octets that the bits spell. None where their number is no multiple of 8.
///
/// Err: want of memory.
#[tactic(auto, using(crate::proofs::Rowing::octets_begin, crate::proofs::Rowing::octets_next))]
fn octets_of(alloc: Global, bits: &[bool]) -> Mem<Option<List<u8>>>
    ensures { IfOk result (λ octets. octets ≡ octets_of bits.now) }
{
    let mut octets = List::new(alloc);
    for i in 0..bits.len() / 8 {
        match first_octet(behind(bits, 8 * i)) {
            None => return Ok(None),
            Some(octet) => octets.add(octet)?,
        }
    }
    if bits.len() % 8 == 0 {
        Ok(Some(octets))
    } else {
        Ok(None)
    }
}

/// Under OCTET STRING (X.680 23.3).
///
/// Err: want of memory.

fn octets_row(alloc: Global, written: Written<'_>) -> Mem<Option<Tree>>
    ensures { IfOk result (λ tree. option_map shown_tree tree ≡ octets_row (shown_written written.entry)) }
{
    match written {
        Written::Octets(octets) => {
            let copied = copied_octets(alloc, octets.as_slice())?;
            Ok(Some(octets_tree(copied)))
        }
        Written::Bits(bits) => match octets_of(alloc, bits.as_slice())? {
            None => Ok(None),
            Some(octets) => Ok(Some(octets_tree(octets))),
        },
        Written::All => Ok(None),
        Written::Null => Ok(None),
        Written::Truth(_) => Ok(None),
        Written::Number(_) => Ok(None),
        Written::Real(_) => Ok(None),
        Written::Text(_) => Ok(None),
        Written::BitNames(_) => Ok(None),
        Written::Arcs(_) => Ok(None),
        Written::Item(_) => Ok(None),
        Written::Name { .. } => Ok(None),
        Written::Braces(_) => Ok(None),
        Written::Fields(_) => Ok(None),
        Written::Elements(_) => Ok(None),
        Written::Alternative { .. } => Ok(None),
        Written::Nested(_) => Ok(None),
    }
}

/// The bits in braces; without braces there are none.
pub fn named_of<'a>(bits: Option<&'a List<DistinguishedValue>>) -> &'a [DistinguishedValue]
    ensures { result.now ≡ named (option_copied bits.entry) }
{
    match bits {
        None => &[],
        Some(bits) => bits.as_slice(),
    }
}

/// Under BIT STRING with these named bits (X.680 22.9).
///
/// Err: want of memory.
#[tactic(auto, using(crate::proofs::Rowing::no_bits, crate::proofs::Rowing::some_bits))]
fn bits_row(
    alloc: Global,
    bits: Option<&List<DistinguishedValue>>,
    written: Written<'_>,
) -> Mem<Option<Tree>>
    ensures { IfOk result (λ tree. option_map shown_tree tree ≡ bits_row (named (option_copied bits.entry)) (shown_written written.entry)) }
{
    match bits_written(alloc, named_of(bits), written)? {
        None => Ok(None),
        Some(found) => Ok(Some(bits_tree(found))),
    }
}

/// Under a character string type (X.680 41).
///
/// Err: want of memory.
#[tactic(auto, using(crate::proofs::Rowing::no_string, crate::proofs::Rowing::some_string))]
fn string_row(alloc: Global, written: Written<'_>) -> Mem<Option<Tree>>
    ensures { IfOk result (λ tree. option_map shown_tree tree ≡ string_row (shown_written written.entry)) }
{
    match string_written(alloc, written)? {
        None => Ok(None),
        Some(text) => Ok(Some(text_tree(text))),
    }
}

/// The tree of a value that is no name, by the kind of its head: the outer None where trees of the kind have parts, and for a
/// name's kind; the inner None where the value denotes no tree of the kind.
///
/// Err: want of memory.
pub fn row(alloc: Global, kind: Kind<'_>, written: Written<'_>) -> Mem<Option<Option<Tree>>>
    ensures { IfOk result (λ found. option_map (option_map shown_tree) found ≡ option_map (λ f. f (shown_written written.entry)) (row (shown_kind kind.entry))) }
{
    let found = match kind {
        Kind::Null => null_row(written),
        Kind::Boolean => truth_row(written),
        Kind::Integer(_) => number_row(written),
        Kind::Real => real_row(written),
        Kind::BitString(named) => bits_row(alloc, named, written)?,
        Kind::OctetString => octets_row(alloc, written)?,
        Kind::CharacterString(_) => string_row(alloc, written)?,
        Kind::Time => text_row(alloc, written)?,
        Kind::Enumerated(_) => None,
        Kind::ObjectIdentifier => arcs_row(alloc, written)?,
        Kind::Opaque => Some(opaque_tree()),
        Kind::Field(_) => Some(opaque_tree()),
        Kind::Struct(_) => return Ok(None),
        Kind::List(_) => return Ok(None),
        Kind::Choice(_) => return Ok(None),
        Kind::Reference(_) => return Ok(None),
        Kind::Selection(_) => return Ok(None),
    };
    Ok(Some(found))
}
