//! Equality of constraints and of arguments.

ghost use Rattle.asn_tree_equality.specs.Equality.{same_by, same_by-laws};
ghost use Rattle.std.specs.Prelude.{◌≡◌, ◌↔◌, IsTrue};

use crate::constraints::{
    CompositeConstraint, Constraint, ContentConstraint, ElementOrSetOperation, Parameter,
    SetOperation, SubtypeElement, ValueConstraint,
};
use crate::equality::objects::{same_information_object_fields, same_object_set_values};
use crate::equality::types::same_asn1_type;
use crate::equality::values::{same_asn1_value, same_optional_asn1_value};
use asn_memory::List;
use asn_tree_equality::{SameTree, same};

#[cycle(comparing)]
fn same_constraint(left: &Constraint, right: &Constraint) -> bool
    ensures { IsTrue result ↔ (left.now ≡ right.now) }
{
    match (left, right) {
        (Constraint::SubtypeConstraint(x), Constraint::SubtypeConstraint(y)) =>
            same_element_or_set_operation(&x.set, &y.set) && x.extensible == y.extensible,
        (Constraint::TableConstraint(x), Constraint::TableConstraint(y)) => same_object_set_values(
            &x.object_set.values,
            &y.object_set.values,
        ) && x.object_set.extensible == y.object_set.extensible
            && x.linked_fields.is_same(&y.linked_fields),
        (Constraint::Parameter(x), Constraint::Parameter(y)) => same_parameters(x, y),
        (Constraint::ContentConstraint(x), Constraint::ContentConstraint(y)) =>
            same_content_constraint(x, y),
        _ => false,
    }
}

#[cycle(comparing)]
fn same_content_constraint(left: &ContentConstraint, right: &ContentConstraint) -> bool
    ensures { IsTrue result ↔ (left.now ≡ right.now) }
{
    match (left, right) {
        (ContentConstraint::Containing(x), ContentConstraint::Containing(y)) => same_asn1_type(
            x, y,
        ),
        (ContentConstraint::EncodedBy(x), ContentConstraint::EncodedBy(y)) => same_asn1_value(x, y),
        (
            ContentConstraint::ContainingEncodedBy {
                containing: x0,
                encoded_by: x1,
            },
            ContentConstraint::ContainingEncodedBy {
                containing: y0,
                encoded_by: y1,
            },
        ) => same_asn1_type(x0, y0) && same_asn1_value(x1, y1),
        _ => false,
    }
}

#[cycle(comparing)]
fn same_parameter(left: &Parameter, right: &Parameter) -> bool
    ensures { IsTrue result ↔ (left.now ≡ right.now) }
{
    match (left, right) {
        (Parameter::ValueParameter(x), Parameter::ValueParameter(y)) => same_asn1_value(x, y),
        (Parameter::TypeParameter(x), Parameter::TypeParameter(y)) => same_asn1_type(x, y),
        (Parameter::InformationObjectParameter(x), Parameter::InformationObjectParameter(y)) =>
            same_information_object_fields(x, y),
        (Parameter::ObjectSetParameter(x), Parameter::ObjectSetParameter(y)) =>
            same_object_set_values(&x.values, &y.values) && x.extensible == y.extensible,
        _ => false,
    }
}

#[cycle(comparing)]
fn same_element_or_set_operation(
    left: &ElementOrSetOperation,
    right: &ElementOrSetOperation,
) -> bool
    ensures { IsTrue result ↔ (left.now ≡ right.now) }
{
    match (left, right) {
        (ElementOrSetOperation::Element(x), ElementOrSetOperation::Element(y)) =>
            same_subtype_element(x, y),
        (ElementOrSetOperation::SetOperation(x), ElementOrSetOperation::SetOperation(y)) =>
            same_set_operation(x, y),
        _ => false,
    }
}

#[cycle(comparing)]
fn same_set_operation(left: &SetOperation, right: &SetOperation) -> bool
    ensures { IsTrue result ↔ (left.now ≡ right.now) }
{
    left.operator == right.operator
        && same_subtype_element(&left.base, &right.base)
        && same_element_or_set_operation(left.operant.get(), right.operant.get())
}

#[cycle(comparing)]
fn same_subtype_element(left: &SubtypeElement, right: &SubtypeElement) -> bool
    ensures { IsTrue result ↔ (left.now ≡ right.now) }
{
    match (left, right) {
        (
            SubtypeElement::SingleValue {
                value: x0,
                extensible: x1,
            },
            SubtypeElement::SingleValue {
                value: y0,
                extensible: y1,
            },
        ) => same_asn1_value(x0, y0) && *x1 == *y1,
        (
            SubtypeElement::ContainedSubtype {
                subtype: x0,
                extensible: x1,
            },
            SubtypeElement::ContainedSubtype {
                subtype: y0,
                extensible: y1,
            },
        ) => same_asn1_type(x0, y0) && *x1 == *y1,
        (
            SubtypeElement::ValueRange {
                min: x0,
                max: x1,
                min_open: x2,
                max_open: x3,
                extensible: x4,
            },
            SubtypeElement::ValueRange {
                min: y0,
                max: y1,
                min_open: y2,
                max_open: y3,
                extensible: y4,
            },
        ) => same_optional_asn1_value(x0, y0)
            && same_optional_asn1_value(x1, y1)
            && *x2 == *y2
            && *x3 == *y3
            && *x4 == *y4,
        (SubtypeElement::PermittedAlphabet(x), SubtypeElement::PermittedAlphabet(y)) =>
            same_element_or_set_operation(x.get(), y.get()),
        (SubtypeElement::SizeConstraint(x), SubtypeElement::SizeConstraint(y)) =>
            same_element_or_set_operation(x.get(), y.get()),
        (SubtypeElement::TypeConstraint(x), SubtypeElement::TypeConstraint(y)) => same_asn1_type(
            x, y,
        ),
        (SubtypeElement::SingleTypeConstraint(x), SubtypeElement::SingleTypeConstraint(y)) =>
            same_constraints(x, y),
        (SubtypeElement::MultipleTypeConstraints(x), SubtypeElement::MultipleTypeConstraints(y)) =>
            {
                let (xs, ys) = (x.constraints.as_slice(), y.constraints.as_slice());
                if xs.len() != ys.len() {
                    return false;
                }
                for i in 0..xs.len() {
                    if !(xs[i].identifier.is_same(&ys[i].identifier)
                        && same_constraints(&xs[i].constraints, &ys[i].constraints)
                        && xs[i].presence == ys[i].presence)
                    {
                        return false;
                    }
                }
                x.is_partial == y.is_partial
            }
        (SubtypeElement::PatternConstraint(x), SubtypeElement::PatternConstraint(y)) => x.is_same(
            y,
        ),
        (SubtypeElement::UserDefinedConstraint(x), SubtypeElement::UserDefinedConstraint(y)) =>
            x.is_same(y),
        (SubtypeElement::PropertySettings(x), SubtypeElement::PropertySettings(y)) => x.is_same(y),
        _ => false,
    }
}

#[cycle(comparing)]
pub(super) fn same_constraints(left: &List<Constraint>, right: &List<Constraint>) -> bool
    ensures { IsTrue result ↔ (left.now ≡ right.now) }
{
    let (xs, ys) = (left.as_slice(), right.as_slice());
    if xs.len() != ys.len() {
        return false;
    }
    for i in 0..xs.len() {
        if !(same_constraint(&xs[i], &ys[i])) {
            return false;
        }
    }
    true
}

#[cycle(comparing)]
fn same_parameters(left: &List<Parameter>, right: &List<Parameter>) -> bool
    ensures { IsTrue result ↔ (left.now ≡ right.now) }
{
    let (xs, ys) = (left.as_slice(), right.as_slice());
    if xs.len() != ys.len() {
        return false;
    }
    for i in 0..xs.len() {
        if !(same_parameter(&xs[i], &ys[i])) {
            return false;
        }
    }
    true
}

impl SameTree for Constraint {
    fn is_same(&self, other: &Self) -> bool {
        same_constraint(self, other)
    }
}

impl PartialEq for Constraint {
    ghost use Rattle.asn_tree.specs.contracts.constraints.Constraint.{the_row};

    ghost eq = { same_by the_row.coded };

    ghost laws = { same_by-laws the_row.coded };

    fn eq(&self, other: &Self) -> bool
        ensures equal { IsTrue result ↔ (self.now ≡ other.now) }
        ensures gives { result ≡ same_by the_row.coded self.now other.now }
    {
        same(self, other)
    }
}

impl SameTree for ContentConstraint {
    fn is_same(&self, other: &Self) -> bool {
        same_content_constraint(self, other)
    }
}

impl PartialEq for ContentConstraint {
    ghost use Rattle.asn_tree.specs.contracts.constraints.ContentConstraint.{the_row};

    ghost eq = { same_by the_row.coded };

    ghost laws = { same_by-laws the_row.coded };

    fn eq(&self, other: &Self) -> bool
        ensures equal { IsTrue result ↔ (self.now ≡ other.now) }
        ensures gives { result ≡ same_by the_row.coded self.now other.now }
    {
        same(self, other)
    }
}

impl SameTree for Parameter {
    fn is_same(&self, other: &Self) -> bool {
        same_parameter(self, other)
    }
}

impl PartialEq for Parameter {
    ghost use Rattle.asn_tree.specs.contracts.constraints.Parameter.{the_row};

    ghost eq = { same_by the_row.coded };

    ghost laws = { same_by-laws the_row.coded };

    fn eq(&self, other: &Self) -> bool
        ensures equal { IsTrue result ↔ (self.now ≡ other.now) }
        ensures gives { result ≡ same_by the_row.coded self.now other.now }
    {
        same(self, other)
    }
}

impl SameTree for ElementOrSetOperation {
    fn is_same(&self, other: &Self) -> bool {
        same_element_or_set_operation(self, other)
    }
}

impl PartialEq for ElementOrSetOperation {
    ghost use Rattle.asn_tree.specs.contracts.constraints.ElementOrSetOperation.{the_row};

    ghost eq = { same_by the_row.coded };

    ghost laws = { same_by-laws the_row.coded };

    fn eq(&self, other: &Self) -> bool
        ensures equal { IsTrue result ↔ (self.now ≡ other.now) }
        ensures gives { result ≡ same_by the_row.coded self.now other.now }
    {
        same(self, other)
    }
}

impl SameTree for SetOperation {
    fn is_same(&self, other: &Self) -> bool {
        same_set_operation(self, other)
    }
}

impl PartialEq for SetOperation {
    ghost use Rattle.asn_tree.specs.contracts.constraints.SetOperation.{the_row};

    ghost eq = { same_by the_row.coded };

    ghost laws = { same_by-laws the_row.coded };

    fn eq(&self, other: &Self) -> bool
        ensures equal { IsTrue result ↔ (self.now ≡ other.now) }
        ensures gives { result ≡ same_by the_row.coded self.now other.now }
    {
        same(self, other)
    }
}

impl SameTree for SubtypeElement {
    fn is_same(&self, other: &Self) -> bool {
        same_subtype_element(self, other)
    }
}

impl PartialEq for SubtypeElement {
    ghost use Rattle.asn_tree.specs.contracts.constraints.SubtypeElement.{the_row};

    ghost eq = { same_by the_row.coded };

    ghost laws = { same_by-laws the_row.coded };

    fn eq(&self, other: &Self) -> bool
        ensures equal { IsTrue result ↔ (self.now ≡ other.now) }
        ensures gives { result ≡ same_by the_row.coded self.now other.now }
    {
        same(self, other)
    }
}

impl SameTree for CompositeConstraint {
    fn is_same(&self, other: &Self) -> bool {
        self.base_constraint.is_same(&other.base_constraint)
            && self.operation.is_same(&other.operation)
            && self.extensible == other.extensible
    }
}

impl PartialEq for CompositeConstraint {
    ghost use Rattle.asn_tree.specs.contracts.constraints.CompositeConstraint.{the_row};

    ghost eq = { same_by the_row.coded };

    ghost laws = { same_by-laws the_row.coded };

    fn eq(&self, other: &Self) -> bool
        ensures equal { IsTrue result ↔ (self.now ≡ other.now) }
        ensures gives { result ≡ same_by the_row.coded self.now other.now }
    {
        same(self, other)
    }
}

impl SameTree for ValueConstraint {
    fn is_same(&self, other: &Self) -> bool {
        self.min_value.is_same(&other.min_value)
            && self.max_value.is_same(&other.max_value)
            && self.extensible == other.extensible
    }
}

impl PartialEq for ValueConstraint {
    ghost use Rattle.asn_tree.specs.contracts.constraints.ValueConstraint.{the_row};

    ghost eq = { same_by the_row.coded };

    ghost laws = { same_by-laws the_row.coded };

    fn eq(&self, other: &Self) -> bool
        ensures equal { IsTrue result ↔ (self.now ≡ other.now) }
        ensures gives { result ≡ same_by the_row.coded self.now other.now }
    {
        same(self, other)
    }
}
