//! The names that arguments are, and dummies that are handed on.

ghost use Rattle.asn_meaning_dummies.specs.inner.Handing.{dummy_of};
ghost use Rattle.asn_meaning_heads.specs.Kinds.{shown_kind, shown_reference};
ghost use Rattle.asn_meaning_heads.specs.Scopes.{shown_argument, shown_bound};
ghost use Rattle.asn_meaning_heads.specs.Written.{shown_written};
ghost use Rattle.asn_needs.specs.Dummies.{argument_name, bare_name_in, handed_on, name_of_type, name_of_value};
ghost use Rattle.asn_tree.specs.declared.constraints.Parameter.{out-Parameter};
ghost use Rattle.std.specs.Option.{option_copied, option_map};
ghost use Rattle.std.specs.Prelude.{◌≡◌, ◌+◌, ℕ, IfOk};

use asn_meaning_heads::{Argument, Bound, Kind, Reference, Written, as_written, kind_of_tree};
use asn_memory::{Mem, OutOfMemory, Text};
use asn_tree::Parameter;

/// The plain name that a value is.
pub fn name_of_value<'a>(written: Written<'a>) -> Option<&'a Text>
    ensures { option_copied result ≡ name_of_value (shown_written written.entry) }
{
    match written {
        Written::Name { parent, identifier } => match parent {
            None => Some(identifier),
            Some(_) => None,
        },
        Written::All => None,
        Written::Null => None,
        Written::Truth(_) => None,
        Written::Number(_) => None,
        Written::Real(_) => None,
        Written::Text(_) => None,
        Written::Bits(_) => None,
        Written::BitNames(_) => None,
        Written::Octets(_) => None,
        Written::Arcs(_) => None,
        Written::Item(_) => None,
        Written::Braces(_) => None,
        Written::Fields(_) => None,
        Written::Elements(_) => None,
        Written::Alternative { .. } => None,
        Written::Nested(_) => None,
    }
}

/// The name of a reference with nothing before it and nothing behind it.
fn bare_name<'a>(reference: Reference<'a>) -> Option<&'a Text>
    ensures { option_copied result ≡ bare_name_in (shown_reference reference.entry) }
{
    match reference {
        Reference::Named(name) => Some(name),
        Reference::Written(reference) => match reference.constraints.as_slice() {
            [] => match &reference.parent {
                None => Some(&reference.identifier),
                Some(_) => None,
            },
            [_, ..] => None,
        },
    }
}

/// The plain name that a type of this kind is.
fn name_of_type<'a>(kind: Kind<'a>) -> Option<&'a Text>
    ensures { option_copied result ≡ name_of_type (shown_kind kind.entry) }
{
    match kind {
        Kind::Reference(reference) => bare_name(reference),
        Kind::Null => None,
        Kind::Boolean => None,
        Kind::Integer(_) => None,
        Kind::Real => None,
        Kind::BitString(_) => None,
        Kind::OctetString => None,
        Kind::CharacterString(_) => None,
        Kind::Time => None,
        Kind::Enumerated(_) => None,
        Kind::ObjectIdentifier => None,
        Kind::Opaque => None,
        Kind::Struct(_) => None,
        Kind::List(_) => None,
        Kind::Choice(_) => None,
        Kind::Field(_) => None,
        Kind::Selection(_) => None,
    }
}

/// The plain name that an argument is.
pub fn argument_name<'a>(argument: &'a Parameter) -> Option<&'a Text>
    ensures { option_copied result ≡ argument_name (out-Parameter argument.now) }
{
    match argument {
        Parameter::ValueParameter(value) => name_of_value(as_written(value)),
        Parameter::TypeParameter(ty) => name_of_type(kind_of_tree(ty)),
        Parameter::InformationObjectParameter(_) => None,
        Parameter::ObjectSetParameter(_) => None,
    }
}

/// What the scope of an argument binds the argument to, where it is the plain name of a dummy.
fn dummy_of<'s, 'a>(argument: Argument<'s, 'a>) -> Option<Bound<'s, 'a>>
    ensures { option_map shown_bound result ≡ dummy_of (shown_argument argument.entry) }
{
    match argument_name(argument.tree) {
        None => None,
        Some(name) => argument.scope.bound_to(name.as_str()),
    }
}

/// What an argument stands for: a dummy that is handed on counts as its argument. None: it ends at a dummy without an argument.
///
/// Err: want of memory, only where it is handed on more often than there are steps.
#[tactic(auto, using(crate::proofs::Handing::stays, crate::proofs::Handing::ends, crate::proofs::Handing::goes))]
pub fn handed_on<'s, 'a>(steps: usize, argument: Argument<'s, 'a>) -> Mem<Option<Argument<'s, 'a>>>
    ensures { IfOk result (λ found. (m : ℕ) → option_map shown_argument found ≡ handed_on (steps + m) (shown_argument argument.entry)) }
{
    let mut at = argument;
    for _left in (0..steps).rev() {
        match dummy_of(at) {
            None => return Ok(Some(at)),
            Some(bound) => match bound.argument {
                None => return Ok(None),
                Some(next) => at = next,
            },
        }
    }
    Err(OutOfMemory)
}
