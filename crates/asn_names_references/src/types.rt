//! The names in types (X.680 clause 17).

ghost use Rattle.asn_names_references.specs.References.{joined, names_in, names_in_choice, names_in_constraint, names_in_list, names_in_member, names_in_option, names_in_struct, reference_names};
ghost use Rattle.std.specs.Prelude.{◌≡◌, ◌++◌, OnOk, map};

use crate::constraints::add_constraints;
use crate::names::{add_name, add_names, add_path};
use crate::values::add_optional_value;
use crate::wanted::{Wanted, in_default, of_class, within};
use asn_memory::{List, Mem, Text};
use asn_tree::{
    ASN1Type, Choice, ChoiceOption, Constraint, SequenceOrSet, SequenceOrSetMember, SequenceOrSetOf,
};

/// Adds the names in a type.
#[cycle(naming)]
pub(crate) fn add_type<'t>(out: &mut List<&'t Text>, ty: &'t ASN1Type, wanted: Wanted) -> Mem<()>
    ensures { OnOk result (map (λ n. n.now) out.new ≡ map (λ n. n.now) out.old ++ names_in ty.now wanted) }
{
    match ty {
        ASN1Type::Null => Ok(()),
        ASN1Type::Boolean(ty) => add_constraints(out, ty.constraints.as_slice(), wanted),
        ASN1Type::Integer(ty) => add_constraints(out, ty.constraints.as_slice(), wanted),
        ASN1Type::Real(ty) => add_constraints(out, ty.constraints.as_slice(), wanted),
        ASN1Type::BitString(ty) => add_constraints(out, ty.constraints.as_slice(), wanted),
        ASN1Type::OctetString(ty) => add_constraints(out, ty.constraints.as_slice(), wanted),
        ASN1Type::CharacterString(ty) => add_constraints(out, ty.constraints.as_slice(), wanted),
        ASN1Type::Enumerated(ty) => add_constraints(out, ty.constraints.as_slice(), wanted),
        ASN1Type::Choice(choice) => add_choice(out, choice, wanted),
        ASN1Type::Sequence(sequence) => add_struct(out, sequence, wanted),
        ASN1Type::SequenceOf(list) => add_list(out, list, wanted),
        ASN1Type::Set(set) => add_struct(out, set, wanted),
        ASN1Type::SetOf(list) => add_list(out, list, wanted),
        ASN1Type::Time(ty) => add_constraints(out, ty.constraints.as_slice(), wanted),
        ASN1Type::GeneralizedTime(ty) => add_constraints(out, ty.constraints.as_slice(), wanted),
        ASN1Type::UTCTime(ty) => add_constraints(out, ty.constraints.as_slice(), wanted),
        ASN1Type::ElsewhereDeclaredType(name) => add_reference(
            out,
            &name.parent,
            &name.identifier,
            name.constraints.as_slice(),
            wanted,
        ),
        ASN1Type::ChoiceSelectionType(selection) => {
            add_name(out, &selection.choice_name, Wanted::Every)
        }
        ASN1Type::ObjectIdentifier(ty) => add_constraints(out, ty.constraints.as_slice(), wanted),
        ASN1Type::InformationObjectFieldReference(field) => {
            add_name(out, &field.class, of_class(wanted))?;
            add_constraints(out, field.constraints.as_slice(), wanted)
        }
        ASN1Type::EmbeddedPdv => Ok(()),
        ASN1Type::External => Ok(()),
    }
}

/// Adds a name, behind that of its object where it has one, and the names in the constraints behind it.
#[cycle(naming)]
pub(crate) fn add_reference<'t>(
    out: &mut List<&'t Text>,
    parent: &'t Option<Text>,
    name: &'t Text,
    constraints: &'t [Constraint],
    wanted: Wanted,
) -> Mem<()>
    ensures { OnOk result (map (λ n. n.now) out.new ≡ map (λ n. n.now) out.old ++ reference_names parent.now name.now (map names_in_constraint constraints.now) wanted) }
{
    add_path(out, parent, name, wanted)?;
    add_constraints(out, constraints, wanted)
}

/// Adds those of a member, its default behind its type.
#[cycle(naming)]
fn add_member<'t>(
    out: &mut List<&'t Text>,
    member: &'t SequenceOrSetMember,
    wanted: Wanted,
) -> Mem<()>
    ensures { OnOk result (map (λ n. n.now) out.new ≡ map (λ n. n.now) out.old ++ names_in_member member.now wanted) }
{
    add_type(out, &member.ty, in_default(&member.default_value, wanted))?;
    add_constraints(out, member.constraints.as_slice(), wanted)?;
    add_optional_value(out, &member.default_value, wanted)
}

/// Adds those of members, in their order.
#[cycle(naming)]
fn add_members<'t>(
    out: &mut List<&'t Text>,
    members: &'t [SequenceOrSetMember],
    wanted: Wanted,
) -> Mem<()>
    ensures { OnOk result (map (λ n. n.now) out.new ≡ map (λ n. n.now) out.old ++ joined (map names_in_member members.now) wanted) }
{
    for member in members {
        add_member(out, member, wanted)?;
    }
    Ok(())
}

/// Adds those of a SEQUENCE or SET, the names after COMPONENTS OF behind those of its members.
#[cycle(naming)]
fn add_struct<'t>(out: &mut List<&'t Text>, layer: &'t SequenceOrSet, wanted: Wanted) -> Mem<()>
    ensures { OnOk result (map (λ n. n.now) out.new ≡ map (λ n. n.now) out.old ++ names_in_struct layer.now wanted) }
{
    add_members(out, layer.members.as_slice(), wanted)?;
    add_names(out, layer.components_of.as_slice(), within(wanted))?;
    add_constraints(out, layer.constraints.as_slice(), wanted)
}

/// Adds those of an alternative.
#[cycle(naming)]
fn add_option<'t>(out: &mut List<&'t Text>, option: &'t ChoiceOption, wanted: Wanted) -> Mem<()>
    ensures { OnOk result (map (λ n. n.now) out.new ≡ map (λ n. n.now) out.old ++ names_in_option option.now wanted) }
{
    add_type(out, &option.ty, wanted)?;
    add_constraints(out, option.constraints.as_slice(), wanted)
}

/// Adds those of alternatives, in their order.
#[cycle(naming)]
fn add_options<'t>(out: &mut List<&'t Text>, options: &'t [ChoiceOption], wanted: Wanted) -> Mem<()>
    ensures { OnOk result (map (λ n. n.now) out.new ≡ map (λ n. n.now) out.old ++ joined (map names_in_option options.now) wanted) }
{
    for option in options {
        add_option(out, option, wanted)?;
    }
    Ok(())
}

/// Adds those of a CHOICE.
#[cycle(naming)]
fn add_choice<'t>(out: &mut List<&'t Text>, choice: &'t Choice, wanted: Wanted) -> Mem<()>
    ensures { OnOk result (map (λ n. n.now) out.new ≡ map (λ n. n.now) out.old ++ names_in_choice choice.now wanted) }
{
    add_options(out, choice.options.as_slice(), wanted)?;
    add_constraints(out, choice.constraints.as_slice(), wanted)
}

/// Adds those of a SEQUENCE OF or SET OF.
#[cycle(naming)]
fn add_list<'t>(out: &mut List<&'t Text>, list: &'t SequenceOrSetOf, wanted: Wanted) -> Mem<()>
    ensures { OnOk result (map (λ n. n.now) out.new ≡ map (λ n. n.now) out.old ++ names_in_list list.now wanted) }
{
    add_type(out, list.element_type.get(), wanted)?;
    add_constraints(out, list.constraints.as_slice(), wanted)
}
