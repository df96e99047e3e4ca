//! What a head has of its own: items and named numbers (X.680 19.9, 20.8); and whether it is an open type (X.681 14.2).

ghost use Rattle.asn_meaning_heads.specs.Kinds.{shown_kind};
ghost use Rattle.asn_meaning_heads.specs.Places.{shown_place};
ghost use Rattle.asn_meaning_shapes.specs.Trees.{shown_tree};
ghost use Rattle.asn_meaning.specs.Denotes.{is_open, is_open_kind, item_in, own_in, own_name};
ghost use Rattle.std.specs.Option.{option_map};
ghost use Rattle.std.specs.Prelude.{◌≡◌};

use crate::making::{item_tree, whole_tree};
use crate::rows::named_of;
use asn_meaning_heads::{Kind, Place, item_named, kind_of, number_named};
use asn_meaning_shapes::Tree;

/// The item of the name under an enumeration; under any other kind there is none.
#[tactic(auto, using(crate::proofs::Owning::no_item, crate::proofs::Owning::some_item))]
pub fn item_in(name: &str, kind: Kind<'_>) -> Option<Tree>
    ensures { option_map shown_tree result ≡ item_in name.now (shown_kind kind.entry) }
{
    match kind {
        Kind::Enumerated(items) => match item_named(items.as_slice(), name) {
            None => None,
            Some(number) => Some(item_tree(number)),
        },
        Kind::Null => None,
        Kind::Boolean => None,
        Kind::Integer(_) => None,
        Kind::Real => None,
        Kind::BitString(_) => None,
        Kind::OctetString => None,
        Kind::CharacterString(_) => None,
        Kind::Time => None,
        Kind::ObjectIdentifier => None,
        Kind::Opaque => None,
        Kind::Struct(_) => None,
        Kind::List(_) => None,
        Kind::Choice(_) => None,
        Kind::Field(_) => None,
        Kind::Reference(_) => None,
        Kind::Selection(_) => None,
    }
}

/// The item or named number of the name under the kind.
#[tactic(auto, using(crate::proofs::Owning::no_number, crate::proofs::Owning::some_number))]
fn own_in(name: &str, kind: Kind<'_>) -> Option<Tree>
    ensures { option_map shown_tree result ≡ own_in name.now (shown_kind kind.entry) }
{
    match kind {
        Kind::Integer(numbers) => match number_named(named_of(numbers), name) {
            None => None,
            Some(number) => Some(whole_tree(number)),
        },
        Kind::Enumerated(_) => item_in(name, kind),
        Kind::Null => None,
        Kind::Boolean => None,
        Kind::Real => None,
        Kind::BitString(_) => None,
        Kind::OctetString => None,
        Kind::CharacterString(_) => None,
        Kind::Time => None,
        Kind::ObjectIdentifier => None,
        Kind::Opaque => None,
        Kind::Struct(_) => None,
        Kind::List(_) => None,
        Kind::Choice(_) => None,
        Kind::Field(_) => None,
        Kind::Reference(_) => None,
        Kind::Selection(_) => None,
    }
}

/// The item or named number of the name under the head (X.680 19.9, 20.8).
pub fn own_name(head: &Place<'_>, name: &str) -> Option<Tree>
    ensures { option_map shown_tree result ≡ own_name (shown_place head.now) name.now }
{
    own_in(name, kind_of(head.ty))
}

/// Whether the kind is that of an open type.
fn is_open_kind(kind: Kind<'_>) -> bool
    ensures { result ≡ is_open_kind (shown_kind kind.entry) }
{
    match kind {
        Kind::Field(_) => true,
        Kind::Null => false,
        Kind::Boolean => false,
        Kind::Integer(_) => false,
        Kind::Real => false,
        Kind::BitString(_) => false,
        Kind::OctetString => false,
        Kind::CharacterString(_) => false,
        Kind::Time => false,
        Kind::Enumerated(_) => false,
        Kind::ObjectIdentifier => false,
        Kind::Opaque => false,
        Kind::Struct(_) => false,
        Kind::List(_) => false,
        Kind::Choice(_) => false,
        Kind::Reference(_) => false,
        Kind::Selection(_) => false,
    }
}

/// Whether the head is an open type (X.681 14.2).
pub fn is_open(head: &Place<'_>) -> bool
    ensures { result ≡ is_open (shown_place head.now) }
{
    is_open_kind(kind_of(head.ty))
}
