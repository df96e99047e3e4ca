//! Values in braces whose names are no values: the arcs of an object identifier, and the names of bits.

ghost use Rattle.asn_meaning_heads.specs.Kinds.{shown_kind};
ghost use Rattle.asn_meaning_heads.specs.Written.{shown_written};
ghost use Rattle.asn_meaning_values.specs.Bits.{names_of_elements};
ghost use Rattle.asn_meaning_values.specs.Braces.{shown_values};
ghost use Rattle.asn_link_instance.specs.Literals.{has_own_names};
ghost use Rattle.asn_meaning.specs.Rows.{names_written, reference_name, reference_names};
ghost use Rattle.std.specs.Option.{option_map};
ghost use Rattle.std.specs.Prelude.{◌≡◌, IfOk, is_some};

use crate::literals::is_identifier;
use asn_meaning_heads::{Kind, ValueForm, Written, value_written};
use asn_meaning_values::elements_written;
use asn_memory::{Mem, Text};
use std::alloc::Global;

/// The name that a value is, with nothing before it.
fn plain_name<'a>(written: Written<'a>) -> Option<&'a Text>
    ensures { option_map (λ name. name.now) result ≡ reference_name (shown_written written.entry) }
{
    match written {
        Written::Name { parent, identifier } => match parent {
            None => Some(identifier),
            Some(_) => None,
        },
        Written::All => None,
        Written::Null => None,
        Written::Truth(_) => None,
        Written::Number(_) => None,
        Written::Real(_) => None,
        Written::Text(_) => None,
        Written::Bits(_) => None,
        Written::BitNames(_) => None,
        Written::Octets(_) => None,
        Written::Arcs(_) => None,
        Written::Item(_) => None,
        Written::Braces(_) => None,
        Written::Fields(_) => None,
        Written::Elements(_) => None,
        Written::Alternative { .. } => None,
        Written::Nested(_) => None,
    }
}

/// Whether a value is a name with nothing before it.
fn is_plain_name(written: Written<'_>) -> bool
    ensures { result ≡ is_some (reference_name (shown_written written.entry)) }
{
    match plain_name(written) {
        None => false,
        Some(_) => true,
    }
}

/// Whether each of the values is such a name.
#[tactic(auto, using(crate::proofs::BitNames::name_next, crate::proofs::BitNames::name_lost, crate::proofs::BitNames::names_done))]
fn are_plain_names(values: &[ValueForm<'_>]) -> bool
    ensures { result ≡ is_some (reference_names (shown_values values.now)) }
{
    for value in values {
        if !is_plain_name(value_written(*value)) {
            return false;
        }
    }
    true
}

/// Whether a value has elements, and each of them is such a name.
///
/// Err: want of memory.
#[tactic(auto, using(crate::proofs::BitNames::no_elements, crate::proofs::BitNames::some_elements))]
fn elements_are_names(alloc: Global, written: Written<'_>) -> Mem<bool>
    ensures { IfOk result (λ named. named ≡ is_some (names_of_elements (shown_written written.entry))) }
{
    match elements_written(alloc, written)? {
        None => Ok(false),
        Some(values) => {
            let named = are_plain_names(values.as_slice());
            Ok(named)
        }
    }
}

/// Whether a value is names in braces, also one that was read as an arc.
///
/// Err: want of memory.
fn are_bit_names(alloc: Global, written: Written<'_>) -> Mem<bool>
    ensures { IfOk result (λ named. named ≡ is_some (names_written (shown_written written.entry))) }
{
    match written {
        Written::BitNames(_) => Ok(true),
        Written::Braces(_) => Ok(elements_are_names(alloc, written)?),
        Written::Arcs(_) => Ok(elements_are_names(alloc, written)?),
        Written::Elements(_) => Ok(elements_are_names(alloc, written)?),
        Written::All => Ok(false),
        Written::Null => Ok(false),
        Written::Truth(_) => Ok(false),
        Written::Number(_) => Ok(false),
        Written::Real(_) => Ok(false),
        Written::Text(_) => Ok(false),
        Written::Bits(_) => Ok(false),
        Written::Octets(_) => Ok(false),
        Written::Item(_) => Ok(false),
        Written::Name { .. } => Ok(false),
        Written::Fields(_) => Ok(false),
        Written::Alternative { .. } => Ok(false),
        Written::Nested(_) => Ok(false),
    }
}

/// Whether the names in a value are no values under a head: those in the arcs of an object identifier (X.680 32.3), and those of bits
/// (X.680 22.9).
///
/// Err: want of memory.
pub fn has_own_names(alloc: Global, kind: Kind<'_>, written: Written<'_>) -> Mem<bool>
    ensures { IfOk result (λ own. own ≡ has_own_names (shown_kind kind.entry) (shown_written written.entry)) }
{
    match kind {
        Kind::BitString(_) => Ok(are_bit_names(alloc, written)?),
        Kind::ObjectIdentifier => Ok(is_identifier(written)),
        Kind::Null => Ok(false),
        Kind::Boolean => Ok(false),
        Kind::Integer(_) => Ok(false),
        Kind::Real => Ok(false),
        Kind::OctetString => Ok(false),
        Kind::CharacterString(_) => Ok(false),
        Kind::Time => Ok(false),
        Kind::Enumerated(_) => Ok(false),
        Kind::Opaque => Ok(false),
        Kind::Struct(_) => Ok(false),
        Kind::List(_) => Ok(false),
        Kind::Choice(_) => Ok(false),
        Kind::Field(_) => Ok(false),
        Kind::Reference(_) => Ok(false),
        Kind::Selection(_) => Ok(false),
    }
}
