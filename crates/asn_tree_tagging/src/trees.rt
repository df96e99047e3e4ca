//! A module's tagging environment, added to each tag of a tree.
//!
//! There is one function for each type of tree that may lead to a tag, and one for each list of these. A tree is
//! changed where it lies, so nothing is copied, and no memory is taken. A struct that is generic in what it holds has no
//! function: it is no tree whose depth is known to fall, so it stands in the arm that leads to it.

ghost use Rattle.asn_tree_tagging.specs.inner.Parts.{retagged_component, retagged_named};
ghost use Rattle.asn_tree.specs.Passes.{rewritten_choice, rewritten_constraint, rewritten_content, rewritten_element, rewritten_field, rewritten_fields, rewritten_item, rewritten_linked, rewritten_list, rewritten_member, rewritten_operation, rewritten_option, rewritten_parameter, rewritten_set, rewritten_struct, rewritten_type, rewritten_value};
ghost use Rattle.asn_tree.specs.Tagging.{retag, retagged_item, retagging};
ghost use Rattle.std.specs.Prelude.{◌≡◌, map};

use asn_memory::{Box, List, Text};
use asn_tree::{
    ASN1Type, ASN1Value, AsnTag, Choice, ChoiceOption, Constraint, ContentConstraint,
    ElementOrSetOperation, InformationObjectField, InformationObjectFields, LinkedField,
    ObjectSetValue, Parameter, SequenceOrSet, SequenceOrSetMember, SequenceOrSetOf, SetOperation,
    StructLikeFieldValue, SubtypeElement, SyntaxApplication, TaggingEnvironment,
};

/// Adds the environment to the tag's own.
pub fn retag(tag: &mut Option<AsnTag>, environment: TaggingEnvironment)
    ensures { tag.new ≡ retag environment tag.old }
{
    if let Some(tag) = tag {
        tag.environment = &environment + &tag.environment;
    }
}

/// Adds the environment to each tag in the type.
#[cycle(retagging)]
pub fn retag_type(ty: &mut ASN1Type, environment: TaggingEnvironment)
    ensures { ty.new ≡ rewritten_type (retagging environment) ty.old }
{
    match ty {
        ASN1Type::Null => {}
        ASN1Type::Boolean(inner) => retag_constraints(&mut inner.constraints, environment),
        ASN1Type::Integer(inner) => retag_constraints(&mut inner.constraints, environment),
        ASN1Type::Real(inner) => retag_constraints(&mut inner.constraints, environment),
        ASN1Type::BitString(inner) => retag_constraints(&mut inner.constraints, environment),
        ASN1Type::OctetString(inner) => retag_constraints(&mut inner.constraints, environment),
        ASN1Type::CharacterString(inner) => retag_constraints(&mut inner.constraints, environment),
        ASN1Type::Enumerated(inner) => retag_constraints(&mut inner.constraints, environment),
        ASN1Type::Choice(inner) => retag_choice(inner, environment),
        ASN1Type::Sequence(inner) => retag_struct(inner, environment),
        ASN1Type::SequenceOf(inner) => retag_list(inner, environment),
        ASN1Type::Set(inner) => retag_struct(inner, environment),
        ASN1Type::SetOf(inner) => retag_list(inner, environment),
        ASN1Type::Time(inner) => retag_constraints(&mut inner.constraints, environment),
        ASN1Type::GeneralizedTime(inner) => retag_constraints(&mut inner.constraints, environment),
        ASN1Type::UTCTime(inner) => retag_constraints(&mut inner.constraints, environment),
        ASN1Type::ElsewhereDeclaredType(inner) => retag_constraints(
            &mut inner.constraints,
            environment,
        ),
        ASN1Type::ChoiceSelectionType(_) => {}
        ASN1Type::ObjectIdentifier(inner) => retag_constraints(&mut inner.constraints, environment),
        ASN1Type::InformationObjectFieldReference(inner) => retag_constraints(
            &mut inner.constraints,
            environment,
        ),
        ASN1Type::EmbeddedPdv => {}
        ASN1Type::External => {}
    }
}

#[cycle(retagging)]
fn retag_struct(sequence: &mut SequenceOrSet, environment: TaggingEnvironment)
    ensures { sequence.new ≡ rewritten_struct (retagging environment) sequence.old }
{
    retag_constraints(&mut sequence.constraints, environment);
    retag_members(&mut sequence.members, environment);
}

#[cycle(retagging)]
fn retag_member(member: &mut SequenceOrSetMember, environment: TaggingEnvironment)
    ensures { member.new ≡ rewritten_member (retagging environment) member.old }
{
    retag(&mut member.tag, environment);
    retag_type(&mut member.ty, environment);
    if let Some(value) = &mut member.default_value {
        retag_value(value, environment);
    }
    retag_constraints(&mut member.constraints, environment);
}

#[cycle(retagging)]
fn retag_choice(choice: &mut Choice, environment: TaggingEnvironment)
    ensures { choice.new ≡ rewritten_choice (retagging environment) choice.old }
{
    retag_options(&mut choice.options, environment);
    retag_constraints(&mut choice.constraints, environment);
}

#[cycle(retagging)]
fn retag_option(option: &mut ChoiceOption, environment: TaggingEnvironment)
    ensures { option.new ≡ rewritten_option (retagging environment) option.old }
{
    retag(&mut option.tag, environment);
    retag_type(&mut option.ty, environment);
    retag_constraints(&mut option.constraints, environment);
}

#[cycle(retagging)]
fn retag_list(list: &mut SequenceOrSetOf, environment: TaggingEnvironment)
    ensures { list.new ≡ rewritten_list (retagging environment) list.old }
{
    retag_constraints(&mut list.constraints, environment);
    retag_type(list.element_type.get_mut(), environment);
}

#[cycle(retagging)]
fn retag_constraint(constraint: &mut Constraint, environment: TaggingEnvironment)
    ensures { constraint.new ≡ rewritten_constraint (retagging environment) constraint.old }
{
    match constraint {
        Constraint::SubtypeConstraint(inner) => retag_set(&mut inner.set, environment),
        Constraint::TableConstraint(inner) => retag_set_values(
            &mut inner.object_set.values,
            environment,
        ),
        Constraint::Parameter(parameters) => retag_parameters(parameters, environment),
        Constraint::ContentConstraint(content) => retag_content(content, environment),
    }
}

#[cycle(retagging)]
fn retag_content(content: &mut ContentConstraint, environment: TaggingEnvironment)
    ensures { content.new ≡ rewritten_content (retagging environment) content.old }
{
    match content {
        ContentConstraint::Containing(ty) => retag_type(ty, environment),
        ContentConstraint::EncodedBy(value) => retag_value(value, environment),
        ContentConstraint::ContainingEncodedBy {
            containing,
            encoded_by,
        } => {
            retag_type(containing, environment);
            retag_value(encoded_by, environment);
        }
    }
}

#[cycle(retagging)]
fn retag_parameter(parameter: &mut Parameter, environment: TaggingEnvironment)
    ensures { parameter.new ≡ rewritten_parameter (retagging environment) parameter.old }
{
    match parameter {
        Parameter::ValueParameter(value) => retag_value(value, environment),
        Parameter::TypeParameter(ty) => retag_type(ty, environment),
        Parameter::InformationObjectParameter(fields) => retag_fields(fields, environment),
        Parameter::ObjectSetParameter(set) => retag_set_values(&mut set.values, environment),
    }
}

#[cycle(retagging)]
fn retag_set(set: &mut ElementOrSetOperation, environment: TaggingEnvironment)
    ensures { set.new ≡ rewritten_set (retagging environment) set.old }
{
    match set {
        ElementOrSetOperation::Element(element) => retag_element(element, environment),
        ElementOrSetOperation::SetOperation(operation) => retag_operation(operation, environment),
    }
}

#[cycle(retagging)]
fn retag_operation(operation: &mut SetOperation, environment: TaggingEnvironment)
    ensures { operation.new ≡ rewritten_operation (retagging environment) operation.old }
{
    retag_element(&mut operation.base, environment);
    retag_set(operation.operant.get_mut(), environment);
}

#[cycle(retagging)]
#[tactic(auto, using(crate::proofs::ListsUnderVariants::elements_retagged))]
fn retag_element(element: &mut SubtypeElement, environment: TaggingEnvironment)
    ensures { element.new ≡ rewritten_element (retagging environment) element.old }
{
    match element {
        SubtypeElement::SingleValue { value, .. } => retag_value(value, environment),
        SubtypeElement::ContainedSubtype { subtype, .. } => retag_type(subtype, environment),
        SubtypeElement::ValueRange { min, max, .. } => {
            if let Some(value) = min {
                retag_value(value, environment);
            }
            if let Some(value) = max {
                retag_value(value, environment);
            }
        }
        SubtypeElement::PermittedAlphabet(set) => retag_set(set.get_mut(), environment),
        SubtypeElement::SizeConstraint(set) => retag_set(set.get_mut(), environment),
        SubtypeElement::TypeConstraint(ty) => retag_type(ty, environment),
        SubtypeElement::SingleTypeConstraint(constraints) => retag_constraints(
            constraints,
            environment,
        ),
        SubtypeElement::MultipleTypeConstraints(inner) => {
            let components = &mut inner.constraints;
            for i in 0..components.len() {
                if let Some(component) = components.get_mut(i) {
                    retag_constraints(&mut component.constraints, environment);
                }
            }
        }
        SubtypeElement::PatternConstraint(_) => {}
        SubtypeElement::UserDefinedConstraint(_) => {}
        SubtypeElement::PropertySettings(_) => {}
    }
}

/// Adds the environment to each tag in the value.
#[cycle(retagging)]
pub fn retag_value(value: &mut ASN1Value, environment: TaggingEnvironment)
    ensures { value.new ≡ rewritten_value (retagging environment) value.old }
{
    match value {
        ASN1Value::All => {}
        ASN1Value::Null => {}
        ASN1Value::Boolean(_) => {}
        ASN1Value::Choice { inner_value, .. } => retag_value(inner_value.get_mut(), environment),
        ASN1Value::SequenceOrSet(values) => retag_named_values(values, environment),
        ASN1Value::Integer(_) => {}
        ASN1Value::Real(_) => {}
        ASN1Value::String(_) => {}
        ASN1Value::BitString(_) => {}
        ASN1Value::BitStringNamedBits(_) => {}
        ASN1Value::OctetString(_) => {}
        ASN1Value::EnumeratedValue { .. } => {}
        ASN1Value::Time(_) => {}
        ASN1Value::ElsewhereDeclaredValue { .. } => {}
        ASN1Value::ObjectIdentifier(_) => {}
        ASN1Value::LinkedNestedValue { value, .. } => retag_value(value.get_mut(), environment),
        ASN1Value::LinkedIntValue { .. } => {}
        ASN1Value::LinkedStructLikeValue(fields) => retag_linked_fields(fields, environment),
        ASN1Value::LinkedArrayLikeValue(values) => retag_boxed_values(values, environment),
        ASN1Value::LinkedCharStringValue(_, _) => {}
        ASN1Value::LinkedElsewhereDefinedValue { .. } => {}
    }
}

#[cycle(retagging)]
fn retag_linked(field: &mut LinkedField, environment: TaggingEnvironment)
    ensures { field.new ≡ rewritten_linked (retagging environment) field.old }
{
    retag_type(&mut field.ty, environment);
    match &mut field.value {
        StructLikeFieldValue::Explicit(value) => retag_value(value.get_mut(), environment),
        StructLikeFieldValue::Implicit(value) => retag_value(value.get_mut(), environment),
    }
}

/// Adds the environment to each tag in the fields of an object.
#[cycle(retagging)]
pub fn retag_fields(fields: &mut InformationObjectFields, environment: TaggingEnvironment)
    ensures { fields.new ≡ rewritten_fields (retagging environment) fields.old }
{
    match fields {
        InformationObjectFields::DefaultSyntax(fields) => retag_field_list(fields, environment),
        InformationObjectFields::CustomSyntax(applications) => retag_applications(
            applications,
            environment,
        ),
    }
}

#[cycle(retagging)]
fn retag_field(field: &mut InformationObjectField, environment: TaggingEnvironment)
    ensures { field.new ≡ rewritten_field (retagging environment) field.old }
{
    match field {
        InformationObjectField::TypeField(inner) => retag_type(&mut inner.ty, environment),
        InformationObjectField::FixedValueField(inner) => retag_value(
            &mut inner.value,
            environment,
        ),
        InformationObjectField::ObjectSetField(inner) => retag_set_values(
            &mut inner.value.values,
            environment,
        ),
    }
}

#[cycle(retagging)]
#[tactic(auto, using(crate::proofs::ListsUnderVariants::reference_retagged))]
fn retag_application(application: &mut SyntaxApplication, environment: TaggingEnvironment)
    ensures { application.new ≡ rewritten_item (retagging environment) application.old }
{
    match application {
        SyntaxApplication::ObjectSetDeclaration(set) => retag_set_values(
            &mut set.values,
            environment,
        ),
        SyntaxApplication::ValueReference(value) => retag_value(value, environment),
        SyntaxApplication::TypeReference(ty) => retag_type(ty, environment),
        SyntaxApplication::Comma => {}
        SyntaxApplication::Literal(_) => {}
        SyntaxApplication::LiteralOrTypeReference(name) => retag_constraints(
            &mut name.constraints,
            environment,
        ),
    }
}

#[cycle(retagging)]
fn retag_constraints(constraints: &mut List<Constraint>, environment: TaggingEnvironment)
    ensures { constraints.new ≡ map (rewritten_constraint (retagging environment)) constraints.old }
{
    for i in 0..constraints.len() {
        if let Some(constraint) = constraints.get_mut(i) {
            retag_constraint(constraint, environment);
        }
    }
}

#[cycle(retagging)]
fn retag_parameters(parameters: &mut List<Parameter>, environment: TaggingEnvironment)
    ensures { parameters.new ≡ map (rewritten_parameter (retagging environment)) parameters.old }
{
    for i in 0..parameters.len() {
        if let Some(parameter) = parameters.get_mut(i) {
            retag_parameter(parameter, environment);
        }
    }
}

#[cycle(retagging)]
fn retag_members(members: &mut List<SequenceOrSetMember>, environment: TaggingEnvironment)
    ensures { members.new ≡ map (rewritten_member (retagging environment)) members.old }
{
    for i in 0..members.len() {
        if let Some(member) = members.get_mut(i) {
            retag_member(member, environment);
        }
    }
}

#[cycle(retagging)]
fn retag_options(options: &mut List<ChoiceOption>, environment: TaggingEnvironment)
    ensures { options.new ≡ map (rewritten_option (retagging environment)) options.old }
{
    for i in 0..options.len() {
        if let Some(option) = options.get_mut(i) {
            retag_option(option, environment);
        }
    }
}

/// Adds the environment to each tag in the items of an object set.
#[cycle(retagging)]
pub fn retag_set_values(set_values: &mut List<ObjectSetValue>, environment: TaggingEnvironment)
    ensures { set_values.new ≡ map (retagged_item environment) set_values.old }
{
    for i in 0..set_values.len() {
        if let Some(value) = set_values.get_mut(i) {
            if let ObjectSetValue::Inline(fields) = value {
                retag_fields(fields, environment);
            }
        }
    }
}

#[cycle(retagging)]
fn retag_field_list(field_list: &mut List<InformationObjectField>, environment: TaggingEnvironment)
    ensures { field_list.new ≡ map (rewritten_field (retagging environment)) field_list.old }
{
    for i in 0..field_list.len() {
        if let Some(field) = field_list.get_mut(i) {
            retag_field(field, environment);
        }
    }
}

#[cycle(retagging)]
fn retag_applications(applications: &mut List<SyntaxApplication>, environment: TaggingEnvironment)
    ensures { applications.new ≡ map (rewritten_item (retagging environment)) applications.old }
{
    for i in 0..applications.len() {
        if let Some(application) = applications.get_mut(i) {
            retag_application(application, environment);
        }
    }
}

#[cycle(retagging)]
fn retag_named_values(
    named_values: &mut List<(Option<Text>, Box<ASN1Value>)>,
    environment: TaggingEnvironment,
)
    ensures { named_values.new ≡ map (retagged_named environment) named_values.old }
{
    for i in 0..named_values.len() {
        if let Some(named) = named_values.get_mut(i) {
            retag_value(named.1.get_mut(), environment);
        }
    }
}

#[cycle(retagging)]
fn retag_linked_fields(linked_fields: &mut List<LinkedField>, environment: TaggingEnvironment)
    ensures { linked_fields.new ≡ map (rewritten_linked (retagging environment)) linked_fields.old }
{
    for i in 0..linked_fields.len() {
        if let Some(field) = linked_fields.get_mut(i) {
            retag_linked(field, environment);
        }
    }
}

#[cycle(retagging)]
fn retag_boxed_values(boxed_values: &mut List<Box<ASN1Value>>, environment: TaggingEnvironment)
    ensures { boxed_values.new ≡ map (rewritten_value (retagging environment)) boxed_values.old }
{
    for i in 0..boxed_values.len() {
        if let Some(value) = boxed_values.get_mut(i) {
            retag_value(value.get_mut(), environment);
        }
    }
}
