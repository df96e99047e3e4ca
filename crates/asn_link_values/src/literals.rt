//! Tests on how values are written, and on the kinds of their types.

ghost use Rattle.asn_meaning_heads.specs.Kinds.{shown_kind};
ghost use Rattle.asn_meaning_heads.specs.Scopes.{shown};
ghost use Rattle.asn_meaning_heads.specs.Written.{shown_written};
ghost use Rattle.asn_link_instance.specs.Literals.{is_dummy, is_item_name, is_literal, is_literal_under, is_own_arcs, is_own_head};
ghost use Rattle.asn_meaning.specs.Kinds.{EnumeratedKind, ObjectIdentifierKind};
ghost use Rattle.asn_meaning.specs.Members.{item_named};
ghost use Rattle.std.specs.Prelude.{◌≡◌, ◌||◌, is_some};

use crate::names::is_free;
use asn_meaning_heads::{Kind, Scope, Written, item_named};
use asn_tree::Enumeral;

/// Whether a value holds neither a name nor another value; the names of bits stay.
fn is_literal(written: Written<'_>) -> bool
    ensures { result ≡ is_literal (shown_written written.entry) }
{
    match written {
        Written::All => true,
        Written::Null => true,
        Written::Truth(_) => true,
        Written::Number(_) => true,
        Written::Real(_) => true,
        Written::Text(_) => true,
        Written::Bits(_) => true,
        Written::BitNames(_) => true,
        Written::Octets(_) => true,
        Written::Arcs(_) => false,
        Written::Item(_) => false,
        Written::Name { .. } => false,
        Written::Braces(_) => false,
        Written::Fields(_) => false,
        Written::Elements(_) => false,
        Written::Alternative { .. } => false,
        Written::Nested(_) => false,
    }
}

/// Whether a value is an object identifier by its arcs.
pub fn is_identifier(written: Written<'_>) -> bool
    ensures { result ≡ is_own_arcs ObjectIdentifierKind (shown_written written.entry) }
{
    match written {
        Written::Arcs(_) => true,
        Written::All => false,
        Written::Null => false,
        Written::Truth(_) => false,
        Written::Number(_) => false,
        Written::Real(_) => false,
        Written::Text(_) => false,
        Written::Bits(_) => false,
        Written::BitNames(_) => false,
        Written::Octets(_) => false,
        Written::Item(_) => false,
        Written::Name { .. } => false,
        Written::Braces(_) => false,
        Written::Fields(_) => false,
        Written::Elements(_) => false,
        Written::Alternative { .. } => false,
        Written::Nested(_) => false,
    }
}

/// Whether a value is an object identifier by its arcs, under its own type.
fn is_own_arcs(kind: Kind<'_>, written: Written<'_>) -> bool
    ensures { result ≡ is_own_arcs (shown_kind kind.entry) (shown_written written.entry) }
{
    match kind {
        Kind::ObjectIdentifier => is_identifier(written),
        Kind::Null => false,
        Kind::Boolean => false,
        Kind::Integer(_) => false,
        Kind::Real => false,
        Kind::BitString(_) => false,
        Kind::OctetString => false,
        Kind::CharacterString(_) => false,
        Kind::Time => false,
        Kind::Enumerated(_) => false,
        Kind::Opaque => false,
        Kind::Struct(_) => false,
        Kind::List(_) => false,
        Kind::Choice(_) => false,
        Kind::Field(_) => false,
        Kind::Reference(_) => false,
        Kind::Selection(_) => false,
    }
}

/// Whether a value holds no name that is followed under a head.
pub fn is_literal_under(kind: Kind<'_>, written: Written<'_>) -> bool
    ensures { result ≡ is_literal_under (shown_kind kind.entry) (shown_written written.entry) }
{
    is_literal(written) || is_own_arcs(kind, written)
}

/// Whether a type is a head whatever is known.
pub fn is_own_head(kind: Kind<'_>) -> bool
    ensures { result ≡ is_own_head (shown_kind kind.entry) }
{
    match kind {
        Kind::Reference(_) => false,
        Kind::Selection(_) => false,
        Kind::Field(_) => false,
        Kind::Null => true,
        Kind::Boolean => true,
        Kind::Integer(_) => true,
        Kind::Real => true,
        Kind::BitString(_) => true,
        Kind::OctetString => true,
        Kind::CharacterString(_) => true,
        Kind::Time => true,
        Kind::Enumerated(_) => true,
        Kind::ObjectIdentifier => true,
        Kind::Opaque => true,
        Kind::Struct(_) => true,
        Kind::List(_) => true,
        Kind::Choice(_) => true,
    }
}

/// Whether an item has the name.
fn has_item(items: &[Enumeral], name: &str) -> bool
    ensures { result ≡ is_some (item_named items.now name.now) }
{
    item_named(items, name).is_some()
}

/// Whether a value is the name of one of the items, which is no dummy.
fn names_item(scope: &Scope<'_>, items: &[Enumeral], written: Written<'_>) -> bool
    ensures { result ≡ is_item_name (shown scope.now) (EnumeratedKind items.now) (shown_written written.entry) }
{
    match written {
        Written::Name { parent, identifier } => match parent {
            None => {
                let name = identifier.as_str();
                is_free(scope, name) && has_item(items, name)
            }
            Some(_) => false,
        },
        Written::All => false,
        Written::Null => false,
        Written::Truth(_) => false,
        Written::Number(_) => false,
        Written::Real(_) => false,
        Written::Text(_) => false,
        Written::Bits(_) => false,
        Written::BitNames(_) => false,
        Written::Octets(_) => false,
        Written::Arcs(_) => false,
        Written::Item(_) => false,
        Written::Braces(_) => false,
        Written::Fields(_) => false,
        Written::Elements(_) => false,
        Written::Alternative { .. } => false,
        Written::Nested(_) => false,
    }
}

/// Whether a value is the name of an item of the head, which is no dummy.
pub fn is_item_name(scope: &Scope<'_>, kind: Kind<'_>, written: Written<'_>) -> bool
    ensures { result ≡ is_item_name (shown scope.now) (shown_kind kind.entry) (shown_written written.entry) }
{
    match kind {
        Kind::Enumerated(items) => names_item(scope, items.as_slice(), written),
        Kind::Null => false,
        Kind::Boolean => false,
        Kind::Integer(_) => false,
        Kind::Real => false,
        Kind::BitString(_) => false,
        Kind::OctetString => false,
        Kind::CharacterString(_) => false,
        Kind::Time => false,
        Kind::ObjectIdentifier => false,
        Kind::Opaque => false,
        Kind::Struct(_) => false,
        Kind::List(_) => false,
        Kind::Choice(_) => false,
        Kind::Field(_) => false,
        Kind::Reference(_) => false,
        Kind::Selection(_) => false,
    }
}

/// Whether a value is a plain name that is bound.
pub fn is_dummy(scope: &Scope<'_>, written: Written<'_>) -> bool
    ensures { result ≡ is_dummy (shown scope.now) (shown_written written.entry) }
{
    match written {
        Written::Name { parent, identifier } => match parent {
            None => scope.has_dummy(identifier.as_str()),
            Some(_) => false,
        },
        Written::All => false,
        Written::Null => false,
        Written::Truth(_) => false,
        Written::Number(_) => false,
        Written::Real(_) => false,
        Written::Text(_) => false,
        Written::Bits(_) => false,
        Written::BitNames(_) => false,
        Written::Octets(_) => false,
        Written::Arcs(_) => false,
        Written::Item(_) => false,
        Written::Braces(_) => false,
        Written::Fields(_) => false,
        Written::Elements(_) => false,
        Written::Alternative { .. } => false,
        Written::Nested(_) => false,
    }
}
