//! The names that stay in each type of tree, contents and tables aside.

ghost use Rattle.asn_link_closed.specs.Lent.{shown_staying_names};
ghost use Rattle.asn_link_closed.specs.StayingNames.{joined, names_in_choice, names_in_constraint, names_in_element, names_in_list, names_in_member, names_in_operation, names_in_option, names_in_set, names_in_struct, staying_names};
ghost use Rattle.std.specs.Prelude.{◌≡◌, ◌++◌, OnOk, map};

use crate::names::{StayingName, add_name};
use asn_memory::{List, Mem};
use asn_tree::{
    ASN1Type, Choice, ChoiceOption, Constraint, ElementOrSetOperation, SequenceOrSet,
    SequenceOrSetMember, SequenceOrSetOf, SetOperation, SubtypeElement,
};

/// Adds the names that stay in a type.
#[cycle(gathering)]
pub(crate) fn add_type<'a>(names: &mut List<StayingName<'a>>, ty: &'a ASN1Type) -> Mem<()>
    ensures { OnOk result (shown_staying_names names.new ≡ shown_staying_names names.old ++ staying_names ty.now) }
{
    match ty {
        ASN1Type::Null => Ok(()),
        ASN1Type::Boolean(ty) => add_constraints(names, ty.constraints.as_slice()),
        ASN1Type::Integer(ty) => add_constraints(names, ty.constraints.as_slice()),
        ASN1Type::Real(ty) => add_constraints(names, ty.constraints.as_slice()),
        ASN1Type::BitString(ty) => add_constraints(names, ty.constraints.as_slice()),
        ASN1Type::OctetString(ty) => add_constraints(names, ty.constraints.as_slice()),
        ASN1Type::CharacterString(ty) => add_constraints(names, ty.constraints.as_slice()),
        ASN1Type::Enumerated(ty) => add_constraints(names, ty.constraints.as_slice()),
        ASN1Type::Choice(choice) => add_choice(names, choice),
        ASN1Type::Sequence(sequence) => add_struct(names, sequence),
        ASN1Type::SequenceOf(list) => add_list(names, list),
        ASN1Type::Set(set) => add_struct(names, set),
        ASN1Type::SetOf(list) => add_list(names, list),
        ASN1Type::Time(ty) => add_constraints(names, ty.constraints.as_slice()),
        ASN1Type::GeneralizedTime(ty) => add_constraints(names, ty.constraints.as_slice()),
        ASN1Type::UTCTime(ty) => add_constraints(names, ty.constraints.as_slice()),
        ASN1Type::ElsewhereDeclaredType(name) => {
            add_name(names, name.parent.as_ref(), &name.identifier)?;
            add_constraints(names, name.constraints.as_slice())
        }
        ASN1Type::ChoiceSelectionType(_) => Ok(()),
        ASN1Type::ObjectIdentifier(ty) => add_constraints(names, ty.constraints.as_slice()),
        ASN1Type::InformationObjectFieldReference(field) => {
            add_name(names, None, &field.class)?;
            add_constraints(names, field.constraints.as_slice())
        }
        ASN1Type::EmbeddedPdv => Ok(()),
        ASN1Type::External => Ok(()),
    }
}

/// Adds those of a member.
#[cycle(gathering)]
fn add_member<'a>(names: &mut List<StayingName<'a>>, member: &'a SequenceOrSetMember) -> Mem<()>
    ensures { OnOk result (shown_staying_names names.new ≡ shown_staying_names names.old ++ names_in_member member.now) }
{
    add_type(names, &member.ty)?;
    add_constraints(names, member.constraints.as_slice())
}

/// Adds those of members, in their order.
#[cycle(gathering)]
fn add_members<'a>(names: &mut List<StayingName<'a>>, members: &'a [SequenceOrSetMember]) -> Mem<()>
    ensures { OnOk result (shown_staying_names names.new ≡ shown_staying_names names.old ++ joined (map names_in_member members.now)) }
{
    for member in members {
        add_member(names, member)?;
    }
    Ok(())
}

/// Adds those of a SEQUENCE or SET.
#[cycle(gathering)]
fn add_struct<'a>(names: &mut List<StayingName<'a>>, layer: &'a SequenceOrSet) -> Mem<()>
    ensures { OnOk result (shown_staying_names names.new ≡ shown_staying_names names.old ++ names_in_struct layer.now) }
{
    add_members(names, layer.members.as_slice())?;
    add_constraints(names, layer.constraints.as_slice())
}

/// Adds those of an alternative.
#[cycle(gathering)]
fn add_option<'a>(names: &mut List<StayingName<'a>>, option: &'a ChoiceOption) -> Mem<()>
    ensures { OnOk result (shown_staying_names names.new ≡ shown_staying_names names.old ++ names_in_option option.now) }
{
    add_type(names, &option.ty)?;
    add_constraints(names, option.constraints.as_slice())
}

/// Adds those of alternatives, in their order.
#[cycle(gathering)]
fn add_options<'a>(names: &mut List<StayingName<'a>>, options: &'a [ChoiceOption]) -> Mem<()>
    ensures { OnOk result (shown_staying_names names.new ≡ shown_staying_names names.old ++ joined (map names_in_option options.now)) }
{
    for option in options {
        add_option(names, option)?;
    }
    Ok(())
}

/// Adds those of a CHOICE.
#[cycle(gathering)]
fn add_choice<'a>(names: &mut List<StayingName<'a>>, choice: &'a Choice) -> Mem<()>
    ensures { OnOk result (shown_staying_names names.new ≡ shown_staying_names names.old ++ names_in_choice choice.now) }
{
    add_options(names, choice.options.as_slice())?;
    add_constraints(names, choice.constraints.as_slice())
}

/// Adds those of a SEQUENCE OF or SET OF.
#[cycle(gathering)]
fn add_list<'a>(names: &mut List<StayingName<'a>>, list: &'a SequenceOrSetOf) -> Mem<()>
    ensures { OnOk result (shown_staying_names names.new ≡ shown_staying_names names.old ++ names_in_list list.now) }
{
    add_type(names, list.element_type.get())?;
    add_constraints(names, list.constraints.as_slice())
}

/// Adds those of constraints, in their order.
#[cycle(gathering)]
fn add_constraints<'a>(names: &mut List<StayingName<'a>>, constraints: &'a [Constraint]) -> Mem<()>
    ensures { OnOk result (shown_staying_names names.new ≡ shown_staying_names names.old ++ joined (map names_in_constraint constraints.now)) }
{
    for constraint in constraints {
        add_constraint(names, constraint)?;
    }
    Ok(())
}

/// Adds those of a constraint; of tables, argument lists and contents none.
#[cycle(gathering)]
fn add_constraint<'a>(names: &mut List<StayingName<'a>>, constraint: &'a Constraint) -> Mem<()>
    ensures { OnOk result (shown_staying_names names.new ≡ shown_staying_names names.old ++ names_in_constraint constraint.now) }
{
    match constraint {
        Constraint::SubtypeConstraint(set) => add_set(names, &set.set),
        Constraint::TableConstraint(_) => Ok(()),
        Constraint::Parameter(_) => Ok(()),
        Constraint::ContentConstraint(_) => Ok(()),
    }
}

/// Adds those of an element, or of elements joined by operators.
#[cycle(gathering)]
fn add_set<'a>(names: &mut List<StayingName<'a>>, set: &'a ElementOrSetOperation) -> Mem<()>
    ensures { OnOk result (shown_staying_names names.new ≡ shown_staying_names names.old ++ names_in_set set.now) }
{
    match set {
        ElementOrSetOperation::Element(element) => add_element(names, element),
        ElementOrSetOperation::SetOperation(operation) => add_operation(names, operation),
    }
}

/// Adds those of both sides of an operator.
#[cycle(gathering)]
fn add_operation<'a>(names: &mut List<StayingName<'a>>, operation: &'a SetOperation) -> Mem<()>
    ensures { OnOk result (shown_staying_names names.new ≡ shown_staying_names names.old ++ names_in_operation operation.now) }
{
    add_element(names, &operation.base)?;
    add_set(names, operation.operant.get())
}

/// Adds those of an element. Those of the components that WITH COMPONENTS lists are added here, since their constraints are no
/// deeper than the element.
#[cycle(gathering)]
fn add_element<'a>(names: &mut List<StayingName<'a>>, element: &'a SubtypeElement) -> Mem<()>
    ensures { OnOk result (shown_staying_names names.new ≡ shown_staying_names names.old ++ names_in_element element.now) }
{
    match element {
        SubtypeElement::SingleValue { .. } => Ok(()),
        SubtypeElement::ContainedSubtype {
            subtype,
            extensible: _,
        } => add_type(names, subtype),
        SubtypeElement::ValueRange { .. } => Ok(()),
        SubtypeElement::PermittedAlphabet(set) => add_set(names, set.get()),
        SubtypeElement::SizeConstraint(set) => add_set(names, set.get()),
        SubtypeElement::TypeConstraint(ty) => add_type(names, ty),
        SubtypeElement::SingleTypeConstraint(constraints) => {
            add_constraints(names, constraints.as_slice())
        }
        SubtypeElement::MultipleTypeConstraints(inner) => {
            for component in inner.constraints.as_slice() {
                add_constraints(names, component.constraints.as_slice())?;
            }
            Ok(())
        }
        SubtypeElement::PatternConstraint(_) => Ok(()),
        SubtypeElement::UserDefinedConstraint(_) => Ok(()),
        SubtypeElement::PropertySettings(_) => Ok(()),
    }
}
