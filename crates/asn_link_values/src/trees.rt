//! The literal or item of a tree.

ghost use Rattle.asn_meaning_heads.specs.Kinds.{shown_kind};
ghost use Rattle.asn_link_instance.specs.Literals.{item_numbered, text_of, text_tree, written, written_arc};
ghost use Rattle.asn_meaning.specs.Answers.{once};
ghost use Rattle.asn_meaning.specs.Kinds.{BitStringKind, BooleanKind, EnumeratedKind, IntegerKind, NullKind, ObjectIdentifierKind, OctetStringKind, RealKind};
ghost use Rattle.asn_meaning.specs.Rows.{arc_tree};
ghost use Rattle.asn_meaning.specs.ValueTrees.{ItemNumber};
ghost use Rattle.asn_link_values.specs.Values.{shown_placed};
ghost use Rattle.asn_link_values.specs.inner.Numbered.{first_numbered, numbered_by};
ghost use Rattle.asn_meaning_shapes.specs.Trees.{shown_tree};
ghost use Rattle.std.specs.Option.{option_copied, option_map};
ghost use Rattle.std.specs.Prelude.{◌≡◌, [], IfOk, None, Some, map};
ghost use Rattle.std.specs.Str.{chars};

use crate::values::PlacedValue;
use asn_meaning_heads::{Kind, item_named};
use asn_meaning_shapes::{Tree, View};
use asn_memory::{List, Mem, Text};
use asn_tree::{Enumeral, ObjectIdentifierArc};
use std::alloc::Global;

/// The first item of the number.
#[tactic(auto, using(crate::proofs::Numbering::item_first, crate::proofs::Numbering::no_item_left))]
fn first_numbered<'a>(items: &'a [Enumeral], number: i128) -> Option<&'a Enumeral>
    ensures { option_copied result ≡ first_numbered items.now number }
{
    for item in items {
        if item.index == number {
            return Some(item);
        }
    }
    None
}

/// The item's name, where the first item of the name has the number too.
#[tactic(auto, using(crate::proofs::Numbering::unnamed, crate::proofs::Numbering::named_so))]
fn numbered_by<'a>(items: &[Enumeral], number: i128, item: &'a Enumeral) -> Option<&'a Text>
    ensures { option_copied result ≡ numbered_by items.now number item.now }
{
    match item_named(items, item.name.as_str()) {
        None => None,
        Some(index) => {
            if index == number {
                Some(&item.name)
            } else {
                None
            }
        }
    }
}

/// An item's name for its number, where it is the name of this number alone.
#[tactic(auto, using(crate::proofs::Numbering::not_numbered, crate::proofs::Numbering::numbered))]
fn item_numbered<'a>(items: &'a [Enumeral], number: i128) -> Option<&'a Text>
    ensures { option_copied result ≡ item_numbered items.now number }
{
    match first_numbered(items, number) {
        None => None,
        Some(item) => numbered_by(items, number, item),
    }
}

/// The name of the item of the number.
#[tactic(auto, using(crate::proofs::Numbering::no_name, crate::proofs::Numbering::some_name))]
fn item_of_number<'a>(items: &'a [Enumeral], number: i128) -> Option<PlacedValue<'a>>
    ensures { option_map shown_placed result ≡ written (EnumeratedKind items.now) (ItemNumber number) }
{
    match item_numbered(items, number) {
        None => None,
        Some(name) => Some(PlacedValue::Item(name)),
    }
}

/// The value of NULL, where the tree is it.
fn null_written<'a>(tree: &Tree) -> Option<PlacedValue<'a>>
    ensures { option_map shown_placed result ≡ written NullKind (shown_tree tree.now) }
{
    match tree.view() {
        View::Null => Some(PlacedValue::Null),
        View::Truth(_) => None,
        View::Whole(_) => None,
        View::Item(_) => None,
        View::Real(_) => None,
        View::Bits(_) => None,
        View::Octets(_) => None,
        View::Text(_) => None,
        View::Arcs(_) => None,
        View::Struct(_) => None,
        View::Elements(_) => None,
        View::Alternative(_, _) => None,
        View::Opaque => None,
    }
}

/// The truth value that the tree is.
fn truth_written<'a>(tree: &Tree) -> Option<PlacedValue<'a>>
    ensures { option_map shown_placed result ≡ written BooleanKind (shown_tree tree.now) }
{
    match tree.view() {
        View::Truth(truth) => Some(PlacedValue::Truth(truth)),
        View::Null => None,
        View::Whole(_) => None,
        View::Item(_) => None,
        View::Real(_) => None,
        View::Bits(_) => None,
        View::Octets(_) => None,
        View::Text(_) => None,
        View::Arcs(_) => None,
        View::Struct(_) => None,
        View::Elements(_) => None,
        View::Alternative(_, _) => None,
        View::Opaque => None,
    }
}

/// The whole number that the tree is.
fn number_written<'a>(tree: &Tree) -> Option<PlacedValue<'a>>
    ensures { option_map shown_placed result ≡ written (IntegerKind None) (shown_tree tree.now) }
{
    match tree.view() {
        View::Whole(number) => Some(PlacedValue::Number(number)),
        View::Null => None,
        View::Truth(_) => None,
        View::Item(_) => None,
        View::Real(_) => None,
        View::Bits(_) => None,
        View::Octets(_) => None,
        View::Text(_) => None,
        View::Arcs(_) => None,
        View::Struct(_) => None,
        View::Elements(_) => None,
        View::Alternative(_, _) => None,
        View::Opaque => None,
    }
}

/// The bits once more.
///
/// Err: want of memory.
#[tactic(auto, using(crate::proofs::Copying::item_next, crate::proofs::Copying::items_done))]
fn copied_bits(alloc: Global, bits: &[bool]) -> Mem<List<bool>>
    ensures { IfOk result (λ copied. copied ≡ bits.now) }
{
    let mut copied = List::new(alloc);
    for bit in bits {
        copied.add(*bit)?;
    }
    Ok(copied)
}

/// The octets once more.
///
/// Err: want of memory.
#[tactic(auto, using(crate::proofs::Copying::item_next, crate::proofs::Copying::items_done))]
fn copied_octets(alloc: Global, octets: &[u8]) -> Mem<List<u8>>
    ensures { IfOk result (λ copied. copied ≡ octets.now) }
{
    let mut copied = List::new(alloc);
    for octet in octets {
        copied.add(*octet)?;
    }
    Ok(copied)
}

/// The bits that the tree is.
///
/// Err: want of memory.
fn bits_written<'a>(alloc: Global, tree: &Tree) -> Mem<Option<PlacedValue<'a>>>
    ensures { IfOk result (λ found. option_map shown_placed found ≡ written (BitStringKind None) (shown_tree tree.now)) }
{
    match tree.view() {
        View::Bits(bits) => {
            let copied = copied_bits(alloc, bits)?;
            Ok(Some(PlacedValue::Bits(copied)))
        }
        View::Null => Ok(None),
        View::Truth(_) => Ok(None),
        View::Whole(_) => Ok(None),
        View::Item(_) => Ok(None),
        View::Real(_) => Ok(None),
        View::Octets(_) => Ok(None),
        View::Text(_) => Ok(None),
        View::Arcs(_) => Ok(None),
        View::Struct(_) => Ok(None),
        View::Elements(_) => Ok(None),
        View::Alternative(_, _) => Ok(None),
        View::Opaque => Ok(None),
    }
}

/// The text once more.
///
/// Err: want of memory.
fn copied_text(alloc: Global, text: &str) -> Mem<Text>
    ensures { IfOk result (λ copied. text_of (chars text.now) ≡ Some copied) }
{
    let copied = Text::new(alloc, text)?;
    Ok(copied)
}

/// The text that the tree is.
///
/// Err: want of memory.
#[tactic(auto, using(crate::proofs::Writing::text_found))]
fn text_written<'a>(alloc: Global, tree: &Tree) -> Mem<Option<PlacedValue<'a>>>
    ensures { IfOk result (λ found. option_map shown_placed found ≡ text_tree (shown_tree tree.now)) }
{
    match tree.view() {
        View::Text(text) => {
            let copied = copied_text(alloc, text.as_str())?;
            Ok(Some(PlacedValue::Text(copied)))
        }
        View::Null => Ok(None),
        View::Truth(_) => Ok(None),
        View::Whole(_) => Ok(None),
        View::Item(_) => Ok(None),
        View::Real(_) => Ok(None),
        View::Bits(_) => Ok(None),
        View::Octets(_) => Ok(None),
        View::Arcs(_) => Ok(None),
        View::Struct(_) => Ok(None),
        View::Elements(_) => Ok(None),
        View::Alternative(_, _) => Ok(None),
        View::Opaque => Ok(None),
    }
}

/// The name of an arc, empty where it has none.
///
/// Err: want of memory.
fn arc_name(alloc: Global, arc: &ObjectIdentifierArc) -> Mem<Text>
    ensures { IfOk result (λ name. name ≡ once [] arc.now.name (λ name. name)) }
{
    match &arc.name {
        None => {
            let name = Text::new(alloc, "")?;
            Ok(name)
        }
        Some(name) => {
            let copied = Text::new(alloc, name.as_str())?;
            Ok(copied)
        }
    }
}

/// An arc by its number, where it has one, else by its name.
///
/// Err: want of memory.
#[tactic(auto, using(crate::proofs::Writing::arc_numbered, crate::proofs::Writing::arc_named))]
fn arc_written(alloc: Global, arc: &ObjectIdentifierArc) -> Mem<ObjectIdentifierArc>
    ensures { IfOk result (λ written. written ≡ written_arc (arc_tree arc.now)) }
{
    match arc.number {
        Some(number) => Ok(ObjectIdentifierArc {
            name: None,
            number: Some(number),
        }),
        None => {
            let name = arc_name(alloc, arc)?;
            Ok(ObjectIdentifierArc {
                name: Some(name),
                number: None,
            })
        }
    }
}

/// Arcs, each by its number, where it has one, else by its name.
///
/// Err: want of memory.
fn each_arc_written(alloc: Global, arcs: &[ObjectIdentifierArc]) -> Mem<List<ObjectIdentifierArc>>
    ensures { IfOk result (λ written. written ≡ map written_arc (map arc_tree arcs.now)) }
{
    let mut written = List::new(alloc);
    for arc in arcs {
        written.add(arc_written(alloc, arc)?)?;
    }
    Ok(written)
}

/// The object identifier that the tree is.
///
/// Err: want of memory.
fn arcs_written<'a>(alloc: Global, tree: &Tree) -> Mem<Option<PlacedValue<'a>>>
    ensures { IfOk result (λ found. option_map shown_placed found ≡ written ObjectIdentifierKind (shown_tree tree.now)) }
{
    match tree.view() {
        View::Arcs(arcs) => {
            let written = each_arc_written(alloc, arcs)?;
            Ok(Some(PlacedValue::Arcs(written)))
        }
        View::Null => Ok(None),
        View::Truth(_) => Ok(None),
        View::Whole(_) => Ok(None),
        View::Item(_) => Ok(None),
        View::Real(_) => Ok(None),
        View::Bits(_) => Ok(None),
        View::Octets(_) => Ok(None),
        View::Text(_) => Ok(None),
        View::Struct(_) => Ok(None),
        View::Elements(_) => Ok(None),
        View::Alternative(_, _) => Ok(None),
        View::Opaque => Ok(None),
    }
}

/// The real that the tree is.
fn real_written<'a>(tree: &Tree) -> Option<PlacedValue<'a>>
    ensures { option_map shown_placed result ≡ written RealKind (shown_tree tree.now) }
{
    match tree.view() {
        View::Real(real) => Some(PlacedValue::Real(real)),
        View::Null => None,
        View::Truth(_) => None,
        View::Whole(_) => None,
        View::Item(_) => None,
        View::Bits(_) => None,
        View::Octets(_) => None,
        View::Text(_) => None,
        View::Arcs(_) => None,
        View::Struct(_) => None,
        View::Elements(_) => None,
        View::Alternative(_, _) => None,
        View::Opaque => None,
    }
}

/// The octets that the tree is.
///
/// Err: want of memory.
fn octets_written<'a>(alloc: Global, tree: &Tree) -> Mem<Option<PlacedValue<'a>>>
    ensures { IfOk result (λ found. option_map shown_placed found ≡ written OctetStringKind (shown_tree tree.now)) }
{
    match tree.view() {
        View::Octets(octets) => {
            let copied = copied_octets(alloc, octets)?;
            Ok(Some(PlacedValue::Octets(copied)))
        }
        View::Null => Ok(None),
        View::Truth(_) => Ok(None),
        View::Whole(_) => Ok(None),
        View::Item(_) => Ok(None),
        View::Real(_) => Ok(None),
        View::Bits(_) => Ok(None),
        View::Text(_) => Ok(None),
        View::Arcs(_) => Ok(None),
        View::Struct(_) => Ok(None),
        View::Elements(_) => Ok(None),
        View::Alternative(_, _) => Ok(None),
        View::Opaque => Ok(None),
    }
}

/// The name of the item whose number the tree is.
fn item_written<'a>(items: &'a [Enumeral], tree: &Tree) -> Option<PlacedValue<'a>>
    ensures { option_map shown_placed result ≡ written (EnumeratedKind items.now) (shown_tree tree.now) }
{
    match tree.view() {
        View::Item(number) => item_of_number(items, number),
        View::Null => None,
        View::Truth(_) => None,
        View::Whole(_) => None,
        View::Real(_) => None,
        View::Bits(_) => None,
        View::Octets(_) => None,
        View::Text(_) => None,
        View::Arcs(_) => None,
        View::Struct(_) => None,
        View::Elements(_) => None,
        View::Alternative(_, _) => None,
        View::Opaque => None,
    }
}

/// The literal or item of a tree under a head.
///
/// Err: want of memory.
pub fn written<'a>(alloc: Global, kind: Kind<'a>, tree: &Tree) -> Mem<Option<PlacedValue<'a>>>
    ensures { IfOk result (λ found. option_map shown_placed found ≡ written (shown_kind kind.entry) (shown_tree tree.now)) }
{
    match kind {
        Kind::Null => Ok(null_written(tree)),
        Kind::Boolean => Ok(truth_written(tree)),
        Kind::Integer(_) => Ok(number_written(tree)),
        Kind::BitString(_) => {
            let found = bits_written(alloc, tree)?;
            Ok(found)
        }
        Kind::OctetString => {
            let found = octets_written(alloc, tree)?;
            Ok(found)
        }
        Kind::Enumerated(items) => Ok(item_written(items.as_slice(), tree)),
        Kind::Real => Ok(real_written(tree)),
        Kind::CharacterString(_) => {
            let found = text_written(alloc, tree)?;
            Ok(found)
        }
        Kind::Time => {
            let found = text_written(alloc, tree)?;
            Ok(found)
        }
        Kind::ObjectIdentifier => {
            let found = arcs_written(alloc, tree)?;
            Ok(found)
        }
        Kind::Opaque => Ok(None),
        Kind::Struct(_) => Ok(None),
        Kind::List(_) => Ok(None),
        Kind::Choice(_) => Ok(None),
        Kind::Field(_) => Ok(None),
        Kind::Reference(_) => Ok(None),
        Kind::Selection(_) => Ok(None),
    }
}
