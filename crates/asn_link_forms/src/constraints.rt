//! Constraints (X.680 clauses 49 to 51, X.682 clauses 10 and 11) and the arguments of templates (X.683 clause 9).

ghost use Rattle.asn_link_forms.specs.Forms.{in_argument, in_constraint, in_content, in_element, in_objects, in_operation, in_set, is_any, is_reference, is_sought_inside};
ghost use Rattle.std.specs.Prelude.{◌≡◌, ◌&&◌, ◌||◌, map};

use crate::forms::{Form, Position, is_reference, is_sought_inside};
use crate::objects::{in_object, in_objects};
use crate::types::in_type;
use crate::values::{in_optional_value, in_value};
use asn_tree::{
    Constraint, ContentConstraint, ElementOrSetOperation, ObjectSetValue, Parameter, SetOperation,
    SubtypeElement,
};

/// Whether the form stands in one of these constraints.
#[cycle(looking)]
pub(crate) fn in_constraints(form: Form, constraints: &[Constraint]) -> bool
    ensures { result ≡ is_any (map (in_constraint form) constraints.now) }
{
    let mut found = false;
    for constraint in constraints {
        found = found | in_constraint(form, constraint);
    }
    found
}

/// Whether it stands in a constraint.
#[cycle(looking)]
fn in_constraint(form: Form, constraint: &Constraint) -> bool
    ensures { result ≡ in_constraint form constraint.now }
{
    match constraint {
        Constraint::SubtypeConstraint(set) => in_set(form, &set.set),
        Constraint::TableConstraint(table) => { in_table(form, table.object_set.values.as_slice()) }
        Constraint::Parameter(arguments) => in_argument_list(form, arguments.as_slice()),
        Constraint::ContentConstraint(content) => in_contents(form, content),
    }
}

/// Whether it stands in the items of a table's set (X.682 clause 10), where it is looked for there.
#[cycle(looking)]
fn in_table(form: Form, items: &[ObjectSetValue]) -> bool
    ensures { result ≡ is_sought_inside form && in_objects form items.now }
{
    is_sought_inside(form) && in_objects(form, items)
}

/// Whether it stands in a content (X.682 clause 11), where it is looked for there.
#[cycle(looking)]
fn in_contents(form: Form, content: &ContentConstraint) -> bool
    ensures { result ≡ is_sought_inside form && in_content form content.now }
{
    is_sought_inside(form) && in_content(form, content)
}

/// Whether it stands in the type behind CONTAINING. The value behind ENCODED BY holds no type.
#[cycle(looking)]
fn in_content(form: Form, content: &ContentConstraint) -> bool
    ensures { result ≡ in_content form content.now }
{
    match content {
        ContentConstraint::Containing(ty) => in_type(form, ty, Position::Alone),
        ContentConstraint::EncodedBy(_) => false,
        ContentConstraint::ContainingEncodedBy {
            containing,
            encoded_by: _,
        } => in_type(form, containing, Position::Alone),
    }
}

/// Whether it stands in an argument list, which is a reference itself (X.683 9.1).
#[cycle(looking)]
fn in_argument_list(form: Form, arguments: &[Parameter]) -> bool
    ensures { result ≡ is_reference form || is_any (map (in_argument form) arguments.now) }
{
    is_reference(form) || in_arguments(form, arguments)
}

/// Whether it stands in one of these arguments.
#[cycle(looking)]
fn in_arguments(form: Form, arguments: &[Parameter]) -> bool
    ensures { result ≡ is_any (map (in_argument form) arguments.now) }
{
    let mut found = false;
    for argument in arguments {
        found = found | in_argument(form, argument);
    }
    found
}

/// Whether it stands in the type or in the objects that an argument is. A value holds no type.
#[cycle(looking)]
fn in_argument(form: Form, argument: &Parameter) -> bool
    ensures { result ≡ in_argument form argument.now }
{
    match argument {
        Parameter::ValueParameter(_) => false,
        Parameter::TypeParameter(ty) => in_type(form, ty, Position::Alone),
        Parameter::InformationObjectParameter(fields) => in_object(form, fields),
        Parameter::ObjectSetParameter(set) => in_objects(form, set.values.as_slice()),
    }
}

/// Whether it stands in an element, or in elements joined by operators.
#[cycle(looking)]
fn in_set(form: Form, set: &ElementOrSetOperation) -> bool
    ensures { result ≡ in_set form set.now }
{
    match set {
        ElementOrSetOperation::Element(element) => in_element(form, element),
        ElementOrSetOperation::SetOperation(operation) => in_operation(form, operation),
    }
}

/// Whether it stands on a side of an operator.
#[cycle(looking)]
fn in_operation(form: Form, operation: &SetOperation) -> bool
    ensures { result ≡ in_operation form operation.now }
{
    in_element(form, &operation.base) || in_set(form, operation.operant.get())
}

/// Whether it stands in an element. The components that WITH COMPONENTS lists are gone over here, since their constraints are no deeper
/// than the element.
#[cycle(looking)]
fn in_element(form: Form, element: &SubtypeElement) -> bool
    ensures { result ≡ in_element form element.now }
{
    match element {
        SubtypeElement::SingleValue {
            value,
            extensible: _,
        } => in_value(form, value),
        SubtypeElement::ContainedSubtype {
            subtype,
            extensible: _,
        } => in_type(form, subtype, Position::Contained),
        SubtypeElement::ValueRange { min, max, .. } => {
            in_optional_value(form, min) || in_optional_value(form, max)
        }
        SubtypeElement::PermittedAlphabet(set) => in_set(form, set.get()),
        SubtypeElement::SizeConstraint(set) => in_set(form, set.get()),
        SubtypeElement::TypeConstraint(ty) => in_type(form, ty, Position::Contained),
        SubtypeElement::SingleTypeConstraint(constraints) => {
            in_constraints(form, constraints.as_slice())
        }
        SubtypeElement::MultipleTypeConstraints(inner) => {
            let mut found = false;
            for component in inner.constraints.as_slice() {
                found = found | in_constraints(form, component.constraints.as_slice());
            }
            found
        }
        SubtypeElement::PatternConstraint(_) => false,
        SubtypeElement::UserDefinedConstraint(_) => false,
        SubtypeElement::PropertySettings(_) => false,
    }
}
