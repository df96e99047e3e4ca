//! Types (X.680 clause 17).

ghost use Rattle.asn_link_forms.specs.Forms.{field_forms, in_choice, in_constraint, in_list, in_member, in_option, in_struct, in_type, is_any, name_forms};
ghost use Rattle.std.specs.Prelude.{◌≡◌, map};

use crate::constraints::in_constraints;
use crate::fields::ends_in_value;
use crate::forms::{
    Form, Position, is_class_field, is_components_of, is_contained, is_reference, is_selection,
};
use crate::values::in_optional_value;
use asn_memory::Text;
use asn_tree::{
    ASN1Type, Choice, ChoiceOption, Constraint, ObjectFieldIdentifier, SequenceOrSet,
    SequenceOrSetMember, SequenceOrSetOf,
};

/// Whether the form stands in a type, by where that stands.
#[cycle(looking)]
pub(crate) fn in_type(form: Form, ty: &ASN1Type, position: Position) -> bool
    ensures { result ≡ in_type form ty.now position }
{
    match ty {
        ASN1Type::Null => false,
        ASN1Type::Boolean(ty) => in_constraints(form, ty.constraints.as_slice()),
        ASN1Type::Integer(ty) => in_constraints(form, ty.constraints.as_slice()),
        ASN1Type::Real(ty) => in_constraints(form, ty.constraints.as_slice()),
        ASN1Type::BitString(ty) => in_constraints(form, ty.constraints.as_slice()),
        ASN1Type::OctetString(ty) => in_constraints(form, ty.constraints.as_slice()),
        ASN1Type::CharacterString(ty) => in_constraints(form, ty.constraints.as_slice()),
        ASN1Type::Enumerated(ty) => in_constraints(form, ty.constraints.as_slice()),
        ASN1Type::Choice(choice) => in_choice(form, choice),
        ASN1Type::Sequence(sequence) => in_struct(form, sequence),
        ASN1Type::SequenceOf(list) => in_list(form, list),
        ASN1Type::Set(set) => in_struct(form, set),
        ASN1Type::SetOf(list) => in_list(form, list),
        ASN1Type::Time(ty) => in_constraints(form, ty.constraints.as_slice()),
        ASN1Type::GeneralizedTime(ty) => in_constraints(form, ty.constraints.as_slice()),
        ASN1Type::UTCTime(ty) => in_constraints(form, ty.constraints.as_slice()),
        ASN1Type::ElsewhereDeclaredType(name) => {
            in_name(form, &name.parent, name.constraints.as_slice(), position)
        }
        ASN1Type::ChoiceSelectionType(_) => is_selection(form),
        ASN1Type::ObjectIdentifier(ty) => in_constraints(form, ty.constraints.as_slice()),
        ASN1Type::InformationObjectFieldReference(field) => {
            in_field(
                form,
                field.field_path.as_slice(),
                field.constraints.as_slice(),
            )
        }
        ASN1Type::EmbeddedPdv => false,
        ASN1Type::External => false,
    }
}

/// Whether it stands in a name, behind that of an object or not, with what stands behind it.
#[cycle(looking)]
fn in_name(
    form: Form,
    parent: &Option<Text>,
    constraints: &[Constraint],
    position: Position,
) -> bool
    ensures { result ≡ name_forms form parent.now (map (in_constraint form) constraints.now) position }
{
    (is_reference(form) && is_contained(position) && parent.is_none())
        || in_constraints(form, constraints)
}

/// Whether it stands in the type of a class's field, with what stands behind it.
#[cycle(looking)]
fn in_field(form: Form, path: &[ObjectFieldIdentifier], constraints: &[Constraint]) -> bool
    ensures { result ≡ field_forms form path.now (map (in_constraint form) constraints.now) }
{
    (is_class_field(form) && ends_in_value(path)) || in_constraints(form, constraints)
}

/// Whether it stands in a member: in its type, its constraints or its default.
#[cycle(looking)]
fn in_member(form: Form, member: &SequenceOrSetMember) -> bool
    ensures { result ≡ in_member form member.now }
{
    in_type(form, &member.ty, Position::Alone)
        || in_constraints(form, member.constraints.as_slice())
        || in_optional_value(form, &member.default_value)
}

/// Whether it stands in one of these members.
#[cycle(looking)]
fn in_members(form: Form, members: &[SequenceOrSetMember]) -> bool
    ensures { result ≡ is_any (map (in_member form) members.now) }
{
    let mut found = false;
    for member in members {
        found = found | in_member(form, member);
    }
    found
}

/// Whether it stands in a SEQUENCE or SET.
#[cycle(looking)]
fn in_struct(form: Form, layer: &SequenceOrSet) -> bool
    ensures { result ≡ in_struct form layer.now }
{
    (is_components_of(form) && !layer.components_of.as_slice().is_empty())
        || in_members(form, layer.members.as_slice())
        || in_constraints(form, layer.constraints.as_slice())
}

/// Whether it stands in an alternative.
#[cycle(looking)]
fn in_option(form: Form, option: &ChoiceOption) -> bool
    ensures { result ≡ in_option form option.now }
{
    in_type(form, &option.ty, Position::Alone)
        || in_constraints(form, option.constraints.as_slice())
}

/// Whether it stands in one of these alternatives.
#[cycle(looking)]
fn in_options(form: Form, options: &[ChoiceOption]) -> bool
    ensures { result ≡ is_any (map (in_option form) options.now) }
{
    let mut found = false;
    for option in options {
        found = found | in_option(form, option);
    }
    found
}

/// Whether it stands in a CHOICE.
#[cycle(looking)]
fn in_choice(form: Form, choice: &Choice) -> bool
    ensures { result ≡ in_choice form choice.now }
{
    in_options(form, choice.options.as_slice())
        || in_constraints(form, choice.constraints.as_slice())
}

/// Whether it stands in a SEQUENCE OF or SET OF.
#[cycle(looking)]
fn in_list(form: Form, list: &SequenceOrSetOf) -> bool
    ensures { result ≡ in_list form list.now }
{
    in_type(form, list.element_type.get(), Position::Alone)
        || in_constraints(form, list.constraints.as_slice())
}
