//! Which trees fit a kind of type at one level, constraints and character sets aside.

ghost use Rattle.asn_meaning_shapes.specs.Members.{shown_members};
ghost use Rattle.asn_meaning_shapes.specs.Trees.{shown_fields, shown_tree};
ghost use Rattle.asn_meaning_shapes.specs.declared.trees.Field.{out-Field};
ghost use Rattle.asn_meaning.specs.Members.{member_names};
ghost use Rattle.asn_meaning.specs.Shapes.{is_bits, is_identifier, is_item, is_null, is_octets, is_opaque, is_real, is_text, is_truth_value, is_whole_number};
ghost use Rattle.asn_meaning.specs.ValueTrees.{are_among, is_among, same_number};
ghost use Rattle.std.specs.List.{list_any};
ghost use Rattle.std.specs.Option.{option_map};
ghost use Rattle.std.specs.Prelude.{◌≡◌};

use crate::members::Member;
use crate::trees::{Field, Tree, View};
use asn_tree::Enumeral;

/// Whether the tree is the value of NULL.
pub fn is_null(tree: &Tree) -> bool
    ensures { result ≡ is_null (shown_tree tree.now) }
{
    match tree.view() {
        View::Null => true,
        View::Truth(_) => false,
        View::Whole(_) => false,
        View::Item(_) => false,
        View::Real(_) => false,
        View::Bits(_) => false,
        View::Octets(_) => false,
        View::Text(_) => false,
        View::Arcs(_) => false,
        View::Struct(_) => false,
        View::Elements(_) => false,
        View::Alternative(_, _) => false,
        View::Opaque => false,
    }
}

/// Whether the tree is a truth value.
pub fn is_truth_value(tree: &Tree) -> bool
    ensures { result ≡ is_truth_value (shown_tree tree.now) }
{
    match tree.view() {
        View::Null => false,
        View::Truth(_) => true,
        View::Whole(_) => false,
        View::Item(_) => false,
        View::Real(_) => false,
        View::Bits(_) => false,
        View::Octets(_) => false,
        View::Text(_) => false,
        View::Arcs(_) => false,
        View::Struct(_) => false,
        View::Elements(_) => false,
        View::Alternative(_, _) => false,
        View::Opaque => false,
    }
}

/// Whether the tree is a whole number.
pub fn is_whole_number(tree: &Tree) -> bool
    ensures { result ≡ is_whole_number (shown_tree tree.now) }
{
    match tree.view() {
        View::Null => false,
        View::Truth(_) => false,
        View::Whole(_) => true,
        View::Item(_) => false,
        View::Real(_) => false,
        View::Bits(_) => false,
        View::Octets(_) => false,
        View::Text(_) => false,
        View::Arcs(_) => false,
        View::Struct(_) => false,
        View::Elements(_) => false,
        View::Alternative(_, _) => false,
        View::Opaque => false,
    }
}

/// Whether the tree is a real.
pub fn is_real(tree: &Tree) -> bool
    ensures { result ≡ is_real (shown_tree tree.now) }
{
    match tree.view() {
        View::Null => false,
        View::Truth(_) => false,
        View::Whole(_) => false,
        View::Item(_) => false,
        View::Real(_) => true,
        View::Bits(_) => false,
        View::Octets(_) => false,
        View::Text(_) => false,
        View::Arcs(_) => false,
        View::Struct(_) => false,
        View::Elements(_) => false,
        View::Alternative(_, _) => false,
        View::Opaque => false,
    }
}

/// Whether the tree is a string of bits.
pub fn is_bits(tree: &Tree) -> bool
    ensures { result ≡ is_bits (shown_tree tree.now) }
{
    match tree.view() {
        View::Null => false,
        View::Truth(_) => false,
        View::Whole(_) => false,
        View::Item(_) => false,
        View::Real(_) => false,
        View::Bits(_) => true,
        View::Octets(_) => false,
        View::Text(_) => false,
        View::Arcs(_) => false,
        View::Struct(_) => false,
        View::Elements(_) => false,
        View::Alternative(_, _) => false,
        View::Opaque => false,
    }
}

/// Whether the tree is a string of octets.
pub fn is_octets(tree: &Tree) -> bool
    ensures { result ≡ is_octets (shown_tree tree.now) }
{
    match tree.view() {
        View::Null => false,
        View::Truth(_) => false,
        View::Whole(_) => false,
        View::Item(_) => false,
        View::Real(_) => false,
        View::Bits(_) => false,
        View::Octets(_) => true,
        View::Text(_) => false,
        View::Arcs(_) => false,
        View::Struct(_) => false,
        View::Elements(_) => false,
        View::Alternative(_, _) => false,
        View::Opaque => false,
    }
}

/// Whether the tree is a text.
pub fn is_text(tree: &Tree) -> bool
    ensures { result ≡ is_text (shown_tree tree.now) }
{
    match tree.view() {
        View::Null => false,
        View::Truth(_) => false,
        View::Whole(_) => false,
        View::Item(_) => false,
        View::Real(_) => false,
        View::Bits(_) => false,
        View::Octets(_) => false,
        View::Text(_) => true,
        View::Arcs(_) => false,
        View::Struct(_) => false,
        View::Elements(_) => false,
        View::Alternative(_, _) => false,
        View::Opaque => false,
    }
}

/// Whether the tree is an object identifier.
pub fn is_identifier(tree: &Tree) -> bool
    ensures { result ≡ is_identifier (shown_tree tree.now) }
{
    match tree.view() {
        View::Null => false,
        View::Truth(_) => false,
        View::Whole(_) => false,
        View::Item(_) => false,
        View::Real(_) => false,
        View::Bits(_) => false,
        View::Octets(_) => false,
        View::Text(_) => false,
        View::Arcs(_) => true,
        View::Struct(_) => false,
        View::Elements(_) => false,
        View::Alternative(_, _) => false,
        View::Opaque => false,
    }
}

/// Whether nothing is known of the tree.
pub fn is_opaque(tree: &Tree) -> bool
    ensures { result ≡ is_opaque (shown_tree tree.now) }
{
    match tree.view() {
        View::Null => false,
        View::Truth(_) => false,
        View::Whole(_) => false,
        View::Item(_) => false,
        View::Real(_) => false,
        View::Bits(_) => false,
        View::Octets(_) => false,
        View::Text(_) => false,
        View::Arcs(_) => false,
        View::Struct(_) => false,
        View::Elements(_) => false,
        View::Alternative(_, _) => false,
        View::Opaque => true,
    }
}

/// Whether an item has the number.
#[tactic(auto, using(crate::proofs::Shaping::number_first))]
fn has_number(items: &[Enumeral], number: i128) -> bool
    ensures { result ≡ list_any (λ item. same_number item.index number) items.now }
{
    for item in items {
        if item.index == number {
            return true;
        }
    }
    false
}

/// Whether the tree is the number of an item (X.680 20).
pub fn is_item(items: &[Enumeral], tree: &Tree) -> bool
    ensures { result ≡ is_item items.now (shown_tree tree.now) }
{
    match tree.view() {
        View::Item(number) => has_number(items, number),
        View::Null => false,
        View::Truth(_) => false,
        View::Whole(_) => false,
        View::Real(_) => false,
        View::Bits(_) => false,
        View::Octets(_) => false,
        View::Text(_) => false,
        View::Arcs(_) => false,
        View::Struct(_) => false,
        View::Elements(_) => false,
        View::Alternative(_, _) => false,
        View::Opaque => false,
    }
}

/// Whether the name is a member's.
#[tactic(auto, using(crate::proofs::Shaping::among_first))]
fn is_member(members: &[Member<'_>], name: &str) -> bool
    ensures { result ≡ is_among (member_names (shown_members members.now)) name.now }
{
    for member in members {
        if member.written.name.as_str() == name {
            return true;
        }
    }
    false
}

/// Whether the field's name is a member's.
fn is_field_of(members: &[Member<'_>], field: &Field) -> bool
    ensures { result ≡ is_among (member_names (shown_members members.now)) (out-Field field.now).name }
{
    is_member(members, field.name.as_str())
}

/// Whether each field's name is a member's.
#[tactic(auto, using(crate::proofs::Shaping::fields_in, crate::proofs::Shaping::fields_out, crate::proofs::Shaping::fields_done))]
pub fn are_members(members: &[Member<'_>], fields: &[Field]) -> bool
    ensures { result ≡ are_among (member_names (shown_members members.now)) (shown_fields fields.now) }
{
    for field in fields {
        if !is_field_of(members, field) {
            return false;
        }
    }
    true
}
