//! How a value is written, as far as values stand in it, and what kind of head may give them types.

ghost use Rattle.asn_meaning_heads.specs.Kinds.{shown_kind};
ghost use Rattle.asn_meaning_heads.specs.Values.{shown_value};
ghost use Rattle.asn_meaning_heads.specs.Written.{shown_written};
ghost use Rattle.asn_meaning.specs.Written.{as_written};
ghost use Rattle.asn_places_values.specs.inner.Layouts.{parting_of, plainly, shown_layout};
ghost use Rattle.std.specs.Prelude.{◌≡◌};

use asn_meaning_heads::{Kind, ValueForm, Written, value_written};
use asn_memory::{Box, List, Text};
use asn_tree::{ASN1Value, LinkedField, ObjectIdentifierArc};

/// How a value is written, as far as values stand in it.
#[derive(Clone, Copy)]
pub enum Layout<'a> {
    /// Items between braces, with or without names.
    Items(&'a List<(Option<Text>, Box<ASN1Value>)>),
    /// The fields of a linked value.
    Fields(&'a List<LinkedField>),
    /// The elements of a linked value.
    Elements(&'a List<Box<ASN1Value>>),
    /// The arcs of an object identifier; one item in braces may have been read so too.
    Arcs(&'a List<ObjectIdentifierArc>),
    /// An alternative and its value.
    Alternative {
        name: &'a Text,
        value: &'a ASN1Value,
    },
    /// A value that linking put under the names of its types.
    Nested(&'a ASN1Value),
    /// No value stands in it.
    Plain,
}

/// The kinds of heads that may give types to what stands in a value.
#[derive(Clone, Copy)]
pub enum Parting {
    /// A SEQUENCE or SET.
    ByMember,
    /// A SEQUENCE OF or SET OF.
    ByElement,
    /// A CHOICE.
    ByOption,
    /// A BIT STRING.
    ByBit,
    /// Any other.
    ByNothing,
}

/// How what is written is laid out.
fn laid_out<'a>(written: Written<'a>) -> Layout<'a>
    ensures { shown_layout result ≡ plainly (shown_written written.entry) }
{
    match written {
        Written::Braces(items) => Layout::Items(items),
        Written::Fields(fields) => Layout::Fields(fields),
        Written::Elements(values) => Layout::Elements(values),
        Written::Arcs(arcs) => Layout::Arcs(arcs),
        Written::Alternative { name, value } => Layout::Alternative { name, value },
        Written::Nested(value) => Layout::Nested(value),
        Written::All => Layout::Plain,
        Written::Null => Layout::Plain,
        Written::Truth(_) => Layout::Plain,
        Written::Number(_) => Layout::Plain,
        Written::Real(_) => Layout::Plain,
        Written::Text(_) => Layout::Plain,
        Written::Bits(_) => Layout::Plain,
        Written::BitNames(_) => Layout::Plain,
        Written::Octets(_) => Layout::Plain,
        Written::Item(_) => Layout::Plain,
        Written::Name { .. } => Layout::Plain,
    }
}

/// How a value is laid out.
pub fn layout_of<'a>(value: ValueForm<'a>) -> Layout<'a>
    ensures { shown_layout result ≡ plainly (as_written (shown_value value.entry)) }
{
    laid_out(value_written(value))
}

/// What is written in this layout.
pub fn written_in<'a>(layout: Layout<'a>) -> Written<'a>
    ensures { shown_written result ≡ shown_layout layout.entry }
{
    match layout {
        Layout::Items(items) => Written::Braces(items),
        Layout::Fields(fields) => Written::Fields(fields),
        Layout::Elements(values) => Written::Elements(values),
        Layout::Arcs(arcs) => Written::Arcs(arcs),
        Layout::Alternative { name, value } => Written::Alternative { name, value },
        Layout::Nested(value) => Written::Nested(value),
        Layout::Plain => Written::All,
    }
}

/// How a head of the kind gives types to what stands in a value.
pub fn parting_of(kind: Kind<'_>) -> Parting
    ensures { result ≡ parting_of (shown_kind kind.entry) }
{
    match kind {
        Kind::Struct(_) => Parting::ByMember,
        Kind::List(_) => Parting::ByElement,
        Kind::Choice(_) => Parting::ByOption,
        Kind::BitString(_) => Parting::ByBit,
        Kind::Null => Parting::ByNothing,
        Kind::Boolean => Parting::ByNothing,
        Kind::Integer(_) => Parting::ByNothing,
        Kind::Real => Parting::ByNothing,
        Kind::OctetString => Parting::ByNothing,
        Kind::CharacterString(_) => Parting::ByNothing,
        Kind::Time => Parting::ByNothing,
        Kind::Enumerated(_) => Parting::ByNothing,
        Kind::ObjectIdentifier => Parting::ByNothing,
        Kind::Opaque => Parting::ByNothing,
        Kind::Field(_) => Parting::ByNothing,
        Kind::Reference(_) => Parting::ByNothing,
        Kind::Selection(_) => Parting::ByNothing,
    }
}
