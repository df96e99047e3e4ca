//! Types that linking leaves as they are (X.680 clause 17).

ghost use Rattle.asn_meaning_unchanged.specs.Unchanged.{are_all, choice_stays, constrained, constraint_stays, default_form, has_none, is_left, linking, list_stays, literal, member_stays, option_stays, placed_form, reference_form, stays_if, struct_stays};
ghost use Rattle.std.specs.Option.{option_map};
ghost use Rattle.std.specs.Prelude.{◌≡◌, map};

use crate::constraints::constraints_stay;
use crate::literals::{Literal, literal_of};
use asn_memory::Text;
use asn_tree::{
    ASN1Type, ASN1Value, Choice, ChoiceOption, Constraint, SequenceOrSet, SequenceOrSetMember,
    SequenceOrSetOf,
};

/// What linking does to a type, as far as its form tells.
#[derive(Clone, Copy, Debug, PartialEq, Eq)]
pub enum Linking {
    /// It is no name, and stays as it is read.
    Stays,
    /// It is the plain name of a type, and stays where no constraint stands behind it.
    PlainName,
    /// Something in it is put in from elsewhere.
    Changes,
}

/// Stays, where the test holds.
fn stays_if(test: bool) -> Linking
    ensures { result ≡ stays_if test }
{
    if test {
        Linking::Stays
    } else {
        Linking::Changes
    }
}

/// A built-in type with these constraints.
#[cycle(telling)]
fn constrained(constraints: &[Constraint]) -> Linking
    ensures { result ≡ constrained (map constraint_stays constraints.now) }
{
    stays_if(constraints_stay(constraints))
}

/// A name of a type, behind that of an object or not, with what stands behind it.
fn reference(parent: &Option<Text>, constraints: &[Constraint]) -> Linking
    ensures { result ≡ reference_form parent.now (map constraint_stays constraints.now) }
{
    match (parent, constraints) {
        (None, []) => Linking::PlainName,
        (None, [_, ..]) => Linking::Changes,
        (Some(_), _) => Linking::Changes,
    }
}

/// What linking does to a type.
#[cycle(telling)]
pub(crate) fn linking_of(ty: &ASN1Type) -> Linking
    ensures { result ≡ linking ty.now }
{
    match ty {
        ASN1Type::Null => Linking::Stays,
        ASN1Type::Boolean(ty) => constrained(ty.constraints.as_slice()),
        ASN1Type::Integer(ty) => constrained(ty.constraints.as_slice()),
        ASN1Type::Real(ty) => constrained(ty.constraints.as_slice()),
        ASN1Type::BitString(ty) => constrained(ty.constraints.as_slice()),
        ASN1Type::OctetString(ty) => constrained(ty.constraints.as_slice()),
        ASN1Type::CharacterString(ty) => constrained(ty.constraints.as_slice()),
        ASN1Type::Enumerated(ty) => constrained(ty.constraints.as_slice()),
        ASN1Type::Choice(choice) => stays_if(choice_stays(choice)),
        ASN1Type::Sequence(sequence) => stays_if(struct_stays(sequence)),
        ASN1Type::SequenceOf(list) => stays_if(list_stays(list)),
        ASN1Type::Set(set) => stays_if(struct_stays(set)),
        ASN1Type::SetOf(list) => stays_if(list_stays(list)),
        ASN1Type::Time(ty) => constrained(ty.constraints.as_slice()),
        ASN1Type::GeneralizedTime(ty) => constrained(ty.constraints.as_slice()),
        ASN1Type::UTCTime(ty) => constrained(ty.constraints.as_slice()),
        ASN1Type::ElsewhereDeclaredType(name) => {
            reference(&name.parent, name.constraints.as_slice())
        }
        ASN1Type::ChoiceSelectionType(_) => Linking::Changes,
        ASN1Type::ObjectIdentifier(ty) => constrained(ty.constraints.as_slice()),
        ASN1Type::InformationObjectFieldReference(_) => Linking::Changes,
        ASN1Type::EmbeddedPdv => Linking::Stays,
        ASN1Type::External => Linking::Stays,
    }
}

/// Whether linking leaves a type as it is.
pub(crate) fn is_left(linking: Linking) -> bool
    ensures { result ≡ is_left linking }
{
    match linking {
        Linking::Stays => true,
        Linking::PlainName => true,
        Linking::Changes => false,
    }
}

/// Whether a type stays with the constraints of its place: none may stand behind a plain name.
#[cycle(telling)]
fn placed(linking: Linking, constraints: &[Constraint]) -> bool
    ensures { result ≡ placed_form linking (map constraint_stays constraints.now) }
{
    match linking {
        Linking::Stays => constraints_stay(constraints),
        Linking::PlainName => constraints.is_empty(),
        Linking::Changes => false,
    }
}

/// Whether a default is made of literals.
fn default_stays(default: &Option<ASN1Value>) -> bool
    ensures { result ≡ default_form (option_map literal default.now) }
{
    match default {
        None => true,
        Some(value) => match literal_of(value) {
            Literal::Single => true,
            Literal::Compound => true,
            Literal::Naming => false,
        },
    }
}

/// Whether a member stays as it is.
#[cycle(telling)]
fn member_stays(member: &SequenceOrSetMember) -> bool
    ensures { result ≡ member_stays member.now }
{
    placed(linking_of(&member.ty), member.constraints.as_slice())
        && default_stays(&member.default_value)
}

/// Whether all members stay.
#[cycle(telling)]
fn members_stay(members: &[SequenceOrSetMember]) -> bool
    ensures { result ≡ are_all (map member_stays members.now) }
{
    let mut all = true;
    for member in members {
        all = all & member_stays(member);
    }
    all
}

/// Whether a SEQUENCE or SET stays as it is.
#[cycle(telling)]
fn struct_stays(layer: &SequenceOrSet) -> bool
    ensures { result ≡ struct_stays layer.now }
{
    layer.components_of.as_slice().is_empty()
        && members_stay(layer.members.as_slice())
        && constraints_stay(layer.constraints.as_slice())
}

/// Whether an alternative stays as it is.
#[cycle(telling)]
fn option_stays(option: &ChoiceOption) -> bool
    ensures { result ≡ option_stays option.now }
{
    placed(linking_of(&option.ty), option.constraints.as_slice())
}

/// Whether all alternatives stay.
#[cycle(telling)]
fn options_stay(options: &[ChoiceOption]) -> bool
    ensures { result ≡ are_all (map option_stays options.now) }
{
    let mut all = true;
    for option in options {
        all = all & option_stays(option);
    }
    all
}

/// Whether a CHOICE stays as it is.
#[cycle(telling)]
fn choice_stays(choice: &Choice) -> bool
    ensures { result ≡ choice_stays choice.now }
{
    options_stay(choice.options.as_slice()) && constraints_stay(choice.constraints.as_slice())
}

/// Whether a SEQUENCE OF or SET OF stays as it is.
#[cycle(telling)]
fn list_stays(list: &SequenceOrSetOf) -> bool
    ensures { result ≡ list_stays list.now }
{
    is_left(linking_of(list.element_type.get())) && constraints_stay(list.constraints.as_slice())
}
