//! Names that lead back to themselves, whatever their arguments are: they have no head within any number of steps.

ghost use Rattle.asn_meaning_heads.specs.Kinds.{shown_kind, shown_reference};
ghost use Rattle.asn_meaning_heads.specs.Places.{shown_place};
ghost use Rattle.asn_meaning_heads.specs.Circles.{arrives, has_dummy, is_circular, is_dummy_of, name_behind, name_in, next_name, plain_name_in};
ghost use Rattle.std.specs.List.{list_any};
ghost use Rattle.std.specs.Option.{option_copied};
ghost use Rattle.std.specs.Int.{is_power_of_two};
ghost use Rattle.std.specs.Prelude.{◌≡◌, ◌&&◌};

use crate::kinds::{Kind, Reference, kind_of, kind_of_tree};
use crate::places::Place;
use asn_memory::Text;
use asn_names_index::Names;
use asn_tree::{Parameterization, ParameterizationArgument, ToplevelTypeDefinition};

/// The name of a reference with nothing before it.
fn name_in<'a>(reference: Reference<'a>) -> Option<&'a Text>
    ensures { option_copied result ≡ name_in (shown_reference reference.entry) }
{
    match reference {
        Reference::Named(name) => Some(name),
        Reference::Written(reference) => match &reference.parent {
            None => Some(&reference.identifier),
            Some(_) => None,
        },
    }
}

/// The name that a type of this kind is, with nothing before it.
pub fn plain_name_in<'a>(kind: Kind<'a>) -> Option<&'a Text>
    ensures { option_copied result ≡ plain_name_in (shown_kind kind.entry) }
{
    match kind {
        Kind::Reference(reference) => name_in(reference),
        Kind::Null => None,
        Kind::Boolean => None,
        Kind::Integer(_) => None,
        Kind::Real => None,
        Kind::BitString(_) => None,
        Kind::OctetString => None,
        Kind::CharacterString(_) => None,
        Kind::Time => None,
        Kind::Enumerated(_) => None,
        Kind::ObjectIdentifier => None,
        Kind::Opaque => None,
        Kind::Struct(_) => None,
        Kind::List(_) => None,
        Kind::Choice(_) => None,
        Kind::Field(_) => None,
        Kind::Selection(_) => None,
    }
}

/// Whether one of the dummies has the name.
#[tactic(auto, using(crate::proofs::Circling::dummy_first))]
fn is_among(dummies: &[ParameterizationArgument], name: &str) -> bool
    ensures { result ≡ list_any (is_dummy_of name.now) dummies.now }
{
    for dummy in dummies {
        if dummy.dummy_reference.as_str() == name {
            return true;
        }
    }
    false
}

/// Whether a definition with these parameters has a dummy of the name.
fn has_dummy(parameters: &Option<Parameterization>, name: &str) -> bool
    ensures { result ≡ has_dummy parameters.now name.now }
{
    match parameters {
        None => false,
        Some(template) => is_among(template.parameters.as_slice(), name),
    }
}

/// The name that the type of a definition is, where it is none of the definition's dummies.
fn name_behind<'a>(definition: &'a ToplevelTypeDefinition) -> Option<&'a Text>
    ensures { option_copied result ≡ name_behind definition.now }
{
    match plain_name_in(kind_of_tree(&definition.ty)) {
        None => None,
        Some(name) => {
            if has_dummy(&definition.parameterization, name.as_str()) {
                None
            } else {
                Some(name)
            }
        }
    }
}

/// The name that the definition of a name leads on to, whatever its arguments are.
fn next_name<'a>(names: &Names<'a>, name: &Text) -> Option<&'a Text>
    ensures { option_copied result ≡ next_name names.now.definitions.now name.now }
{
    match names.type_named(name.as_str()) {
        None => None,
        Some(definition) => name_behind(definition),
    }
}

/// Whether a name leads on to itself within so many turns.
#[tactic(auto, using(crate::proofs::Circling::arrives_not, crate::proofs::Circling::arrives_here, crate::proofs::Circling::arrives_further))]
fn comes_back<'a>(names: &Names<'a>, name: &'a Text, turns: usize) -> bool
    ensures { result ≡ arrives names.now.definitions.now name.now turns name.now }
{
    let mut at = name;
    for left in (0..turns).rev() {
        match next_name(names, at) {
            None => return false,
            Some(next) => {
                if next.as_str() == name.as_str() {
                    return true;
                }
                at = next;
            }
        }
    }
    false
}

/// Whether the type at a place is a name, none of the place's dummies, that leads on to itself within so many turns: then it has no
/// head within any number of steps.
#[tactic(auto, using(crate::proofs::Circling::circular_not, crate::proofs::Circling::circular_bound, crate::proofs::Circling::circular_name))]
fn is_circular<'a>(names: &Names<'a>, place: &Place<'a>, turns: usize) -> bool
    ensures { result ≡ is_circular names.now.definitions.now turns (shown_place place.now) }
{
    match plain_name_in(kind_of(place.ty)) {
        None => false,
        Some(name) => match place.scope.bound_to(name.as_str()) {
            Some(_) => false,
            None => comes_back(names, name, turns),
        },
    }
}

/// Whether the type at a place is a name, none of the place's dummies, that leads on to itself within so many turns. That is asked
/// only where the turns are a power of two: so a walk that asks at each turn takes no more turns in all than twice those that it went.
pub fn is_lost<'a>(names: &Names<'a>, place: &Place<'a>, turns: usize) -> bool
    ensures { result ≡ (is_power_of_two turns && is_circular names.now.definitions.now turns (shown_place place.now)) }
{
    if turns.is_power_of_two() {
        is_circular(names, place, turns)
    } else {
        false
    }
}
