//! The type references that occur in a type (X.680 14.1), inline objects and object sets aside.

ghost use Rattle.asn_meaning_unchanged.specs.References.{joined, names_in, names_in_argument, names_in_choice, names_in_component, names_in_constraint, names_in_content, names_in_element, names_in_list, names_in_member, names_in_operation, names_in_option, names_in_set, names_in_struct, own_name};
ghost use Rattle.std.specs.Prelude.{◌≡◌, ◌++◌, ◌∷◌, [], OnOk, map};

use asn_memory::{List, Mem, Text};
use asn_tree::{
    ASN1Type, Choice, ChoiceOption, ConstrainedComponent, Constraint, ContentConstraint,
    ElementOrSetOperation, Parameter, SequenceOrSet, SequenceOrSetMember, SequenceOrSetOf,
    SetOperation, SubtypeElement,
};

/// Adds a name.
fn add_name<'t>(out: &mut List<&'t Text>, name: &'t Text) -> Mem<()>
    ensures { OnOk result (map (λ n. n.now) out.new ≡ map (λ n. n.now) out.old ++ name.now ∷ []) }
{
    out.add(name)
}

/// Adds names, in their order.
fn add_names<'t>(out: &mut List<&'t Text>, names: &'t [Text]) -> Mem<()>
    ensures { OnOk result (map (λ n. n.now) out.new ≡ map (λ n. n.now) out.old ++ names.now) }
{
    for name in names {
        add_name(out, name)?;
    }
    Ok(())
}

/// Adds a name that does not stand behind that of an object.
fn add_own_name<'t>(out: &mut List<&'t Text>, parent: &Option<Text>, name: &'t Text) -> Mem<()>
    ensures { OnOk result (map (λ n. n.now) out.new ≡ map (λ n. n.now) out.old ++ own_name parent.now name.now) }
{
    match parent {
        None => add_name(out, name),
        Some(_) => Ok(()),
    }
}

/// Adds the type references of a type.
#[cycle(naming)]
pub(crate) fn add_type<'t>(out: &mut List<&'t Text>, ty: &'t ASN1Type) -> Mem<()>
    ensures { OnOk result (map (λ n. n.now) out.new ≡ map (λ n. n.now) out.old ++ names_in ty.now) }
{
    match ty {
        ASN1Type::Null => Ok(()),
        ASN1Type::Boolean(ty) => add_constraints(out, ty.constraints.as_slice()),
        ASN1Type::Integer(ty) => add_constraints(out, ty.constraints.as_slice()),
        ASN1Type::Real(ty) => add_constraints(out, ty.constraints.as_slice()),
        ASN1Type::BitString(ty) => add_constraints(out, ty.constraints.as_slice()),
        ASN1Type::OctetString(ty) => add_constraints(out, ty.constraints.as_slice()),
        ASN1Type::CharacterString(ty) => add_constraints(out, ty.constraints.as_slice()),
        ASN1Type::Enumerated(ty) => add_constraints(out, ty.constraints.as_slice()),
        ASN1Type::Choice(choice) => add_choice(out, choice),
        ASN1Type::Sequence(sequence) => add_struct(out, sequence),
        ASN1Type::SequenceOf(list) => add_list(out, list),
        ASN1Type::Set(set) => add_struct(out, set),
        ASN1Type::SetOf(list) => add_list(out, list),
        ASN1Type::Time(ty) => add_constraints(out, ty.constraints.as_slice()),
        ASN1Type::GeneralizedTime(ty) => add_constraints(out, ty.constraints.as_slice()),
        ASN1Type::UTCTime(ty) => add_constraints(out, ty.constraints.as_slice()),
        ASN1Type::ElsewhereDeclaredType(name) => {
            add_own_name(out, &name.parent, &name.identifier)?;
            add_constraints(out, name.constraints.as_slice())
        }
        ASN1Type::ChoiceSelectionType(selection) => add_name(out, &selection.choice_name),
        ASN1Type::ObjectIdentifier(ty) => add_constraints(out, ty.constraints.as_slice()),
        ASN1Type::InformationObjectFieldReference(field) => {
            add_constraints(out, field.constraints.as_slice())
        }
        ASN1Type::EmbeddedPdv => Ok(()),
        ASN1Type::External => Ok(()),
    }
}

/// Adds those of a member.
#[cycle(naming)]
fn add_member<'t>(out: &mut List<&'t Text>, member: &'t SequenceOrSetMember) -> Mem<()>
    ensures { OnOk result (map (λ n. n.now) out.new ≡ map (λ n. n.now) out.old ++ names_in_member member.now) }
{
    add_type(out, &member.ty)?;
    add_constraints(out, member.constraints.as_slice())
}

/// Adds those of members, in their order.
#[cycle(naming)]
fn add_members<'t>(out: &mut List<&'t Text>, members: &'t [SequenceOrSetMember]) -> Mem<()>
    ensures { OnOk result (map (λ n. n.now) out.new ≡ map (λ n. n.now) out.old ++ joined (map names_in_member members.now)) }
{
    for member in members {
        add_member(out, member)?;
    }
    Ok(())
}

/// Adds those of a SEQUENCE or SET, the names after COMPONENTS OF behind those of its members.
#[cycle(naming)]
fn add_struct<'t>(out: &mut List<&'t Text>, layer: &'t SequenceOrSet) -> Mem<()>
    ensures { OnOk result (map (λ n. n.now) out.new ≡ map (λ n. n.now) out.old ++ names_in_struct layer.now) }
{
    add_members(out, layer.members.as_slice())?;
    add_names(out, layer.components_of.as_slice())?;
    add_constraints(out, layer.constraints.as_slice())
}

/// Adds those of an alternative.
#[cycle(naming)]
fn add_option<'t>(out: &mut List<&'t Text>, option: &'t ChoiceOption) -> Mem<()>
    ensures { OnOk result (map (λ n. n.now) out.new ≡ map (λ n. n.now) out.old ++ names_in_option option.now) }
{
    add_type(out, &option.ty)?;
    add_constraints(out, option.constraints.as_slice())
}

/// Adds those of alternatives, in their order.
#[cycle(naming)]
fn add_options<'t>(out: &mut List<&'t Text>, options: &'t [ChoiceOption]) -> Mem<()>
    ensures { OnOk result (map (λ n. n.now) out.new ≡ map (λ n. n.now) out.old ++ joined (map names_in_option options.now)) }
{
    for option in options {
        add_option(out, option)?;
    }
    Ok(())
}

/// Adds those of a CHOICE.
#[cycle(naming)]
fn add_choice<'t>(out: &mut List<&'t Text>, choice: &'t Choice) -> Mem<()>
    ensures { OnOk result (map (λ n. n.now) out.new ≡ map (λ n. n.now) out.old ++ names_in_choice choice.now) }
{
    add_options(out, choice.options.as_slice())?;
    add_constraints(out, choice.constraints.as_slice())
}

/// Adds those of a SEQUENCE OF or SET OF.
#[cycle(naming)]
fn add_list<'t>(out: &mut List<&'t Text>, list: &'t SequenceOrSetOf) -> Mem<()>
    ensures { OnOk result (map (λ n. n.now) out.new ≡ map (λ n. n.now) out.old ++ names_in_list list.now) }
{
    add_type(out, list.element_type.get())?;
    add_constraints(out, list.constraints.as_slice())
}

/// Adds those of constraints, in their order.
#[cycle(naming)]
fn add_constraints<'t>(out: &mut List<&'t Text>, constraints: &'t [Constraint]) -> Mem<()>
    ensures { OnOk result (map (λ n. n.now) out.new ≡ map (λ n. n.now) out.old ++ joined (map names_in_constraint constraints.now)) }
{
    for constraint in constraints {
        add_constraint(out, constraint)?;
    }
    Ok(())
}

/// Adds those of a constraint; a table names objects and sets.
#[cycle(naming)]
fn add_constraint<'t>(out: &mut List<&'t Text>, constraint: &'t Constraint) -> Mem<()>
    ensures { OnOk result (map (λ n. n.now) out.new ≡ map (λ n. n.now) out.old ++ names_in_constraint constraint.now) }
{
    match constraint {
        Constraint::SubtypeConstraint(set) => add_set(out, &set.set),
        Constraint::TableConstraint(_) => Ok(()),
        Constraint::Parameter(arguments) => add_arguments(out, arguments.as_slice()),
        Constraint::ContentConstraint(content) => add_content(out, content),
    }
}

/// Adds those of a content (X.682 clause 11).
#[cycle(naming)]
fn add_content<'t>(out: &mut List<&'t Text>, content: &'t ContentConstraint) -> Mem<()>
    ensures { OnOk result (map (λ n. n.now) out.new ≡ map (λ n. n.now) out.old ++ names_in_content content.now) }
{
    match content {
        ContentConstraint::Containing(ty) => add_type(out, ty),
        ContentConstraint::EncodedBy(_) => Ok(()),
        ContentConstraint::ContainingEncodedBy {
            containing,
            encoded_by: _,
        } => add_type(out, containing),
    }
}

/// Adds those of arguments, in their order (X.683 clause 9).
#[cycle(naming)]
fn add_arguments<'t>(out: &mut List<&'t Text>, arguments: &'t [Parameter]) -> Mem<()>
    ensures { OnOk result (map (λ n. n.now) out.new ≡ map (λ n. n.now) out.old ++ joined (map names_in_argument arguments.now)) }
{
    for argument in arguments {
        add_argument(out, argument)?;
    }
    Ok(())
}

/// Adds those of an argument that is a type.
#[cycle(naming)]
fn add_argument<'t>(out: &mut List<&'t Text>, argument: &'t Parameter) -> Mem<()>
    ensures { OnOk result (map (λ n. n.now) out.new ≡ map (λ n. n.now) out.old ++ names_in_argument argument.now) }
{
    match argument {
        Parameter::ValueParameter(_) => Ok(()),
        Parameter::TypeParameter(ty) => add_type(out, ty),
        Parameter::InformationObjectParameter(_) => Ok(()),
        Parameter::ObjectSetParameter(_) => Ok(()),
    }
}

/// Adds those of an element, or of elements joined by operators.
#[cycle(naming)]
fn add_set<'t>(out: &mut List<&'t Text>, set: &'t ElementOrSetOperation) -> Mem<()>
    ensures { OnOk result (map (λ n. n.now) out.new ≡ map (λ n. n.now) out.old ++ names_in_set set.now) }
{
    match set {
        ElementOrSetOperation::Element(element) => add_element(out, element),
        ElementOrSetOperation::SetOperation(operation) => add_operation(out, operation),
    }
}

/// Adds those of both sides of an operator.
#[cycle(naming)]
fn add_operation<'t>(out: &mut List<&'t Text>, operation: &'t SetOperation) -> Mem<()>
    ensures { OnOk result (map (λ n. n.now) out.new ≡ map (λ n. n.now) out.old ++ names_in_operation operation.now) }
{
    add_element(out, &operation.base)?;
    add_set(out, operation.operant.get())
}

/// Adds those of an element. Those of the components that WITH COMPONENTS lists are added here, since their constraints are no
/// deeper than the element.
#[cycle(naming)]
fn add_element<'t>(out: &mut List<&'t Text>, element: &'t SubtypeElement) -> Mem<()>
    ensures { OnOk result (map (λ n. n.now) out.new ≡ map (λ n. n.now) out.old ++ names_in_element element.now) }
{
    match element {
        SubtypeElement::SingleValue { .. } => Ok(()),
        SubtypeElement::ContainedSubtype {
            subtype,
            extensible: _,
        } => add_type(out, subtype),
        SubtypeElement::ValueRange { .. } => Ok(()),
        SubtypeElement::PermittedAlphabet(set) => add_set(out, set.get()),
        SubtypeElement::SizeConstraint(set) => add_set(out, set.get()),
        SubtypeElement::TypeConstraint(ty) => add_type(out, ty),
        SubtypeElement::SingleTypeConstraint(constraints) => {
            add_constraints(out, constraints.as_slice())
        }
        SubtypeElement::MultipleTypeConstraints(inner) => {
            for component in inner.constraints.as_slice() {
                add_constraints(out, component.constraints.as_slice())?;
            }
            Ok(())
        }
        SubtypeElement::PatternConstraint(_) => Ok(()),
        SubtypeElement::UserDefinedConstraint(_) => Ok(()),
        SubtypeElement::PropertySettings(_) => Ok(()),
    }
}
