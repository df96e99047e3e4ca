//! What is asked of a type as it is met: its constraints and named numbers; and types in the empty scope that no tree holds.

ghost use Rattle.asn_meaning_heads.specs.Kinds.{shown_type};
ghost use Rattle.asn_meaning_heads.specs.Places.{shown_place};
ghost use Rattle.asn_meaning.specs.Everything.{plain_text};
ghost use Rattle.asn_meaning.specs.Kinds.{kind_of_type};
ghost use Rattle.asn_meaning.specs.Placed.{listed};
ghost use Rattle.asn_meaning.specs.Ranges.{integer_named, named_numbers_in};
ghost use Rattle.asn_meaning.specs.Scopes.{Empty, bare};
ghost use Rattle.asn_tree_notation.specs.Types.{constraints_of};
ghost use Rattle.std.specs.Option.{option_copied};
ghost use Rattle.std.specs.Prelude.{◌≡◌};

use crate::kinds::{Kind, Reference, TypeForm, kind_of};
use crate::places::{Place, Target};
use asn_memory::List;
use asn_tree::{ASN1Type, Constraint, DistinguishedValue};

/// The constraints of a type of a tree; none where it has no place for any.
fn constraints_in_tree<'a>(ty: &'a ASN1Type) -> &'a [Constraint]
    ensures { result.now ≡ listed (constraints_of ty.now) }
{
    match ty {
        ASN1Type::Null => &[],
        ASN1Type::Boolean(x) => x.constraints.as_slice(),
        ASN1Type::Integer(x) => x.constraints.as_slice(),
        ASN1Type::Real(x) => x.constraints.as_slice(),
        ASN1Type::BitString(x) => x.constraints.as_slice(),
        ASN1Type::OctetString(x) => x.constraints.as_slice(),
        ASN1Type::CharacterString(x) => x.constraints.as_slice(),
        ASN1Type::Enumerated(x) => x.constraints.as_slice(),
        ASN1Type::Choice(x) => x.constraints.as_slice(),
        ASN1Type::Sequence(x) => x.constraints.as_slice(),
        ASN1Type::SequenceOf(x) => x.constraints.as_slice(),
        ASN1Type::Set(x) => x.constraints.as_slice(),
        ASN1Type::SetOf(x) => x.constraints.as_slice(),
        ASN1Type::Time(x) => x.constraints.as_slice(),
        ASN1Type::GeneralizedTime(x) => x.constraints.as_slice(),
        ASN1Type::UTCTime(x) => x.constraints.as_slice(),
        ASN1Type::ElsewhereDeclaredType(x) => x.constraints.as_slice(),
        ASN1Type::ChoiceSelectionType(_) => &[],
        ASN1Type::ObjectIdentifier(x) => x.constraints.as_slice(),
        ASN1Type::InformationObjectFieldReference(x) => x.constraints.as_slice(),
        ASN1Type::EmbeddedPdv => &[],
        ASN1Type::External => &[],
    }
}

/// The constraints of a type; none where it has no place for any.
#[tactic(auto, using(crate::proofs::Placing::text_free, crate::proofs::Placing::identifier_free, crate::proofs::Placing::integer_free))]
pub fn constraints_in<'a>(ty: TypeForm<'a>) -> &'a [Constraint]
    ensures { result.now ≡ listed (constraints_of (shown_type ty.entry)) }
{
    match ty {
        TypeForm::Written(ty) => constraints_in_tree(ty),
        TypeForm::Reference(Reference::Written(x)) => x.constraints.as_slice(),
        TypeForm::Reference(Reference::Named(_)) => &[],
        TypeForm::Null => &[],
        TypeForm::Utf8String => &[],
        TypeForm::ObjectIdentifier => &[],
        TypeForm::Integer(_) => &[],
    }
}

/// The named numbers of an INTEGER, where it has braces.
pub fn named_numbers_in<'a>(ty: TypeForm<'a>) -> Option<&'a List<DistinguishedValue>>
    ensures { option_copied result ≡ named_numbers_in (kind_of_type (shown_type ty.entry)) }
{
    match kind_of(ty) {
        Kind::Integer(names) => names,
        Kind::Null => None,
        Kind::Boolean => None,
        Kind::Real => None,
        Kind::BitString(_) => None,
        Kind::OctetString => None,
        Kind::CharacterString(_) => None,
        Kind::Time => None,
        Kind::Enumerated(_) => None,
        Kind::ObjectIdentifier => None,
        Kind::Opaque => None,
        Kind::Struct(_) => None,
        Kind::List(_) => None,
        Kind::Choice(_) => None,
        Kind::Field(_) => None,
        Kind::Reference(_) => None,
        Kind::Selection(_) => None,
    }
}

/// A type in the empty scope.
fn outside<'a>(ty: TypeForm<'a>) -> Place<'a>
    ensures { shown_place result ≡ (bare Empty (shown_type ty.entry)).place }
{
    let Target { place, .. } = Target::outside(ty);
    place
}

/// INTEGER with the named numbers of a head.
pub fn integer_of<'a>(head: TypeForm<'a>) -> Place<'a>
    ensures { shown_place result ≡ integer_named (named_numbers_in (kind_of_type (shown_type head.entry))) }
{
    let names = named_numbers_in(head);
    outside(TypeForm::Integer(names))
}

/// A character string type without constraints.
pub fn plain_text<'a>() -> Place<'a>
    ensures { shown_place result ≡ plain_text }
{
    outside(TypeForm::Utf8String)
}
