//! The parts of trees, and whether a tree without parts is of a kind.

ghost use Rattle.asn_meaning_heads.specs.Kinds.{shown_kind};
ghost use Rattle.asn_meaning_shapes.specs.Parts.{alternative_in, elements_in, fields_in, shown_alternative};
ghost use Rattle.asn_meaning_shapes.specs.Trees.{shown_fields, shown_tree, shown_trees};
ghost use Rattle.asn_meaning.specs.Shapes.{is_of_kind};
ghost use Rattle.std.specs.Option.{option_map};
ghost use Rattle.std.specs.Prelude.{◌≡◌};

use crate::shapes::{
    is_bits, is_identifier, is_item, is_null, is_octets, is_opaque, is_real, is_text,
    is_truth_value, is_whole_number,
};
use crate::trees::{Field, Tree, View};
use asn_meaning_heads::Kind;
use asn_memory::Text;

/// An alternative of a CHOICE: its name, and its tree (X.680 29).
#[derive(Clone, Copy)]
pub struct Alternative<'t> {
    pub name: &'t Text,
    pub tree: &'t Tree,
}

/// The fields of a struct.
pub fn fields_of(tree: &Tree) -> Option<&[Field]>
    ensures { option_map (λ fields. shown_fields fields.now) result ≡ fields_in (shown_tree tree.now) }
{
    match tree.view() {
        View::Struct(fields) => Some(fields),
        View::Null => None,
        View::Truth(_) => None,
        View::Whole(_) => None,
        View::Item(_) => None,
        View::Real(_) => None,
        View::Bits(_) => None,
        View::Octets(_) => None,
        View::Text(_) => None,
        View::Arcs(_) => None,
        View::Elements(_) => None,
        View::Alternative(_, _) => None,
        View::Opaque => None,
    }
}

/// The elements of a list.
pub fn elements_of(tree: &Tree) -> Option<&[Tree]>
    ensures { option_map (λ elements. shown_trees elements.now) result ≡ elements_in (shown_tree tree.now) }
{
    match tree.view() {
        View::Elements(elements) => Some(elements),
        View::Null => None,
        View::Truth(_) => None,
        View::Whole(_) => None,
        View::Item(_) => None,
        View::Real(_) => None,
        View::Bits(_) => None,
        View::Octets(_) => None,
        View::Text(_) => None,
        View::Arcs(_) => None,
        View::Struct(_) => None,
        View::Alternative(_, _) => None,
        View::Opaque => None,
    }
}

/// The alternative that a tree is.
pub fn alternative_of(tree: &Tree) -> Option<Alternative<'_>>
    ensures { option_map shown_alternative result ≡ alternative_in (shown_tree tree.now) }
{
    match tree.view() {
        View::Alternative(name, tree) => Some(Alternative { name, tree }),
        View::Null => None,
        View::Truth(_) => None,
        View::Whole(_) => None,
        View::Item(_) => None,
        View::Real(_) => None,
        View::Bits(_) => None,
        View::Octets(_) => None,
        View::Text(_) => None,
        View::Arcs(_) => None,
        View::Struct(_) => None,
        View::Elements(_) => None,
        View::Opaque => None,
    }
}

/// Whether the tree is of the kind, where trees of the kind have no parts; of a name's kind nothing is known.
pub fn is_of_kind(kind: Kind<'_>, tree: &Tree) -> Option<bool>
    ensures { result ≡ option_map (λ test. test (shown_tree tree.now)) (is_of_kind (shown_kind kind.entry)) }
{
    match kind {
        Kind::Null => Some(is_null(tree)),
        Kind::Boolean => Some(is_truth_value(tree)),
        Kind::Integer(_) => Some(is_whole_number(tree)),
        Kind::Real => Some(is_real(tree)),
        Kind::BitString(_) => Some(is_bits(tree)),
        Kind::OctetString => Some(is_octets(tree)),
        Kind::CharacterString(_) => Some(is_text(tree)),
        Kind::Time => Some(is_text(tree)),
        Kind::Enumerated(items) => Some(is_item(items.as_slice(), tree)),
        Kind::ObjectIdentifier => Some(is_identifier(tree)),
        Kind::Opaque => Some(is_opaque(tree)),
        Kind::Struct(_) => None,
        Kind::List(_) => None,
        Kind::Choice(_) => None,
        Kind::Field(_) => Some(true),
        Kind::Reference(_) => None,
        Kind::Selection(_) => None,
    }
}
