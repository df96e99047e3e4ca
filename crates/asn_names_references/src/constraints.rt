//! The names in constraints (X.680 clauses 49 to 51, X.682 clauses 10 and 11) and in the arguments of templates (X.683 clause 9).

ghost use Rattle.asn_names_references.specs.References.{joined, names_in_argument, names_in_constraint, names_in_content, names_in_element, names_in_operation, names_in_set};
ghost use Rattle.std.specs.Prelude.{◌≡◌, ◌++◌, OnOk, map};

use crate::objects::{add_fields, add_objects};
use crate::types::add_type;
use crate::values::{add_optional_value, add_value};
use crate::wanted::{Wanted, in_arguments, within};
use asn_memory::{List, Mem, Text};
use asn_tree::{
    Constraint, ContentConstraint, ElementOrSetOperation, Parameter, SetOperation, SubtypeElement,
};

/// Adds the names in constraints, in their order.
#[cycle(naming)]
pub(crate) fn add_constraints<'t>(
    out: &mut List<&'t Text>,
    constraints: &'t [Constraint],
    wanted: Wanted,
) -> Mem<()>
    ensures { OnOk result (map (λ n. n.now) out.new ≡ map (λ n. n.now) out.old ++ joined (map names_in_constraint constraints.now) wanted) }
{
    for constraint in constraints {
        add_constraint(out, constraint, wanted)?;
    }
    Ok(())
}

/// Adds those of a constraint.
#[cycle(naming)]
fn add_constraint<'t>(
    out: &mut List<&'t Text>,
    constraint: &'t Constraint,
    wanted: Wanted,
) -> Mem<()>
    ensures { OnOk result (map (λ n. n.now) out.new ≡ map (λ n. n.now) out.old ++ names_in_constraint constraint.now wanted) }
{
    match constraint {
        Constraint::SubtypeConstraint(set) => add_set(out, &set.set, wanted),
        Constraint::TableConstraint(table) => add_objects(
            out,
            table.object_set.values.as_slice(),
            wanted,
        ),
        Constraint::Parameter(arguments) => {
            add_arguments(out, arguments.as_slice(), in_arguments(wanted))
        }
        Constraint::ContentConstraint(content) => add_content(out, content, wanted),
    }
}

/// Adds those of a content (X.682 clause 11), which is followed.
#[cycle(naming)]
fn add_content<'t>(
    out: &mut List<&'t Text>,
    content: &'t ContentConstraint,
    wanted: Wanted,
) -> Mem<()>
    ensures { OnOk result (map (λ n. n.now) out.new ≡ map (λ n. n.now) out.old ++ names_in_content content.now wanted) }
{
    match content {
        ContentConstraint::Containing(ty) => add_type(out, ty, within(wanted)),
        ContentConstraint::EncodedBy(rules) => add_value(out, rules, within(wanted)),
        ContentConstraint::ContainingEncodedBy {
            containing,
            encoded_by,
        } => {
            add_type(out, containing, within(wanted))?;
            add_value(out, encoded_by, within(wanted))
        }
    }
}

/// Adds those of arguments, in their order (X.683 clause 9).
#[cycle(naming)]
fn add_arguments<'t>(
    out: &mut List<&'t Text>,
    arguments: &'t [Parameter],
    wanted: Wanted,
) -> Mem<()>
    ensures { OnOk result (map (λ n. n.now) out.new ≡ map (λ n. n.now) out.old ++ joined (map names_in_argument arguments.now) wanted) }
{
    for argument in arguments {
        add_argument(out, argument, wanted)?;
    }
    Ok(())
}

/// Adds those of an argument; one that is no type is followed.
#[cycle(naming)]
fn add_argument<'t>(out: &mut List<&'t Text>, argument: &'t Parameter, wanted: Wanted) -> Mem<()>
    ensures { OnOk result (map (λ n. n.now) out.new ≡ map (λ n. n.now) out.old ++ names_in_argument argument.now wanted) }
{
    match argument {
        Parameter::ValueParameter(value) => add_value(out, value, within(wanted)),
        Parameter::TypeParameter(ty) => add_type(out, ty, wanted),
        Parameter::InformationObjectParameter(fields) => add_fields(out, fields, within(wanted)),
        Parameter::ObjectSetParameter(set) => { add_objects(out, set.values.as_slice(), wanted) }
    }
}

/// Adds those of an element, or of elements joined by operators.
#[cycle(naming)]
fn add_set<'t>(out: &mut List<&'t Text>, set: &'t ElementOrSetOperation, wanted: Wanted) -> Mem<()>
    ensures { OnOk result (map (λ n. n.now) out.new ≡ map (λ n. n.now) out.old ++ names_in_set set.now wanted) }
{
    match set {
        ElementOrSetOperation::Element(element) => add_element(out, element, wanted),
        ElementOrSetOperation::SetOperation(operation) => add_operation(out, operation, wanted),
    }
}

/// Adds those of both sides of an operator.
#[cycle(naming)]
fn add_operation<'t>(
    out: &mut List<&'t Text>,
    operation: &'t SetOperation,
    wanted: Wanted,
) -> Mem<()>
    ensures { OnOk result (map (λ n. n.now) out.new ≡ map (λ n. n.now) out.old ++ names_in_operation operation.now wanted) }
{
    add_element(out, &operation.base, wanted)?;
    add_set(out, operation.operant.get(), wanted)
}

/// Adds those of an element. Those of the components that WITH COMPONENTS lists are added here, since their constraints are no
/// deeper than the element.
#[cycle(naming)]
fn add_element<'t>(out: &mut List<&'t Text>, element: &'t SubtypeElement, wanted: Wanted) -> Mem<()>
    ensures { OnOk result (map (λ n. n.now) out.new ≡ map (λ n. n.now) out.old ++ names_in_element element.now wanted) }
{
    match element {
        SubtypeElement::SingleValue {
            value,
            extensible: _,
        } => add_value(out, value, wanted),
        SubtypeElement::ContainedSubtype {
            subtype,
            extensible: _,
        } => add_type(out, subtype, within(wanted)),
        SubtypeElement::ValueRange { min, max, .. } => {
            add_optional_value(out, min, wanted)?;
            add_optional_value(out, max, wanted)
        }
        SubtypeElement::PermittedAlphabet(set) => add_set(out, set.get(), wanted),
        SubtypeElement::SizeConstraint(set) => add_set(out, set.get(), wanted),
        SubtypeElement::TypeConstraint(ty) => add_type(out, ty, within(wanted)),
        SubtypeElement::SingleTypeConstraint(constraints) => {
            add_constraints(out, constraints.as_slice(), wanted)
        }
        SubtypeElement::MultipleTypeConstraints(inner) => {
            for component in inner.constraints.as_slice() {
                add_constraints(out, component.constraints.as_slice(), wanted)?;
            }
            Ok(())
        }
        SubtypeElement::PatternConstraint(_) => Ok(()),
        SubtypeElement::UserDefinedConstraint(_) => Ok(()),
        SubtypeElement::PropertySettings(_) => Ok(()),
    }
}
