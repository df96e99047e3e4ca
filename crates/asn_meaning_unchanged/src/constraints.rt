//! Constraints that linking leaves as they are (X.680 clauses 49 to 51).

ghost use Rattle.asn_meaning_unchanged.specs.Unchanged.{are_all, constraint_stays, contained_form, element_stays, end_form, is_single, linking, literal, operation_stays, set_stays};
ghost use Rattle.std.specs.Option.{option_map};
ghost use Rattle.std.specs.Prelude.{◌≡◌, map};

use crate::literals::{Literal, literal_of};
use crate::types::{Linking, linking_of};
use asn_tree::{
    ASN1Type, ASN1Value, Constraint, ElementOrSetOperation, SetOperation, SubtypeElement,
};

/// Whether all constraints stay as they are.
#[cycle(telling)]
pub(crate) fn constraints_stay(constraints: &[Constraint]) -> bool
    ensures { result ≡ are_all (map constraint_stays constraints.now) }
{
    let mut all = true;
    for constraint in constraints {
        all = all & constraint_stays(constraint);
    }
    all
}

/// Whether a constraint stays as it is: it is no argument list. What content and table constraints hold is not asked.
#[cycle(telling)]
fn constraint_stays(constraint: &Constraint) -> bool
    ensures { result ≡ constraint_stays constraint.now }
{
    match constraint {
        Constraint::SubtypeConstraint(set) => set_stays(&set.set),
        Constraint::TableConstraint(_) => true,
        Constraint::Parameter(_) => false,
        Constraint::ContentConstraint(_) => true,
    }
}

/// Whether an element, or each of elements joined by operators, stays as it is.
#[cycle(telling)]
fn set_stays(set: &ElementOrSetOperation) -> bool
    ensures { result ≡ set_stays set.now }
{
    match set {
        ElementOrSetOperation::Element(element) => element_stays(element),
        ElementOrSetOperation::SetOperation(operation) => operation_stays(operation),
    }
}

/// Whether both sides of an operator stay.
#[cycle(telling)]
fn operation_stays(operation: &SetOperation) -> bool
    ensures { result ≡ operation_stays operation.now }
{
    element_stays(&operation.base) && set_stays(operation.operant.get())
}

/// Whether a value is one literal.
fn is_single(value: &ASN1Value) -> bool
    ensures { result ≡ is_single (literal value.now) }
{
    match literal_of(value) {
        Literal::Single => true,
        Literal::Compound => false,
        Literal::Naming => false,
    }
}

/// The same of an end of a range, which may be MIN or MAX.
fn is_single_end(end: &Option<ASN1Value>) -> bool
    ensures { result ≡ end_form (option_map literal end.now) }
{
    match end {
        None => true,
        Some(value) => is_single(value),
    }
}

/// Whether a contained subtype stays as it is: no plain name is at its head.
#[cycle(telling)]
fn contained_stays(ty: &ASN1Type) -> bool
    ensures { result ≡ contained_form (linking ty.now) }
{
    match linking_of(ty) {
        Linking::Stays => true,
        Linking::PlainName => false,
        Linking::Changes => false,
    }
}

/// Whether an element stays as it is. The parts that WITH COMPONENT and WITH COMPONENTS list are those of a type that is looked up.
#[cycle(telling)]
fn element_stays(element: &SubtypeElement) -> bool
    ensures { result ≡ element_stays element.now }
{
    match element {
        SubtypeElement::SingleValue {
            value,
            extensible: _,
        } => is_single(value),
        SubtypeElement::ContainedSubtype {
            subtype,
            extensible: _,
        } => contained_stays(subtype),
        SubtypeElement::ValueRange {
            min,
            max,
            min_open: _,
            max_open: _,
            extensible: _,
        } => is_single_end(min) && is_single_end(max),
        SubtypeElement::PermittedAlphabet(set) => set_stays(set.get()),
        SubtypeElement::SizeConstraint(set) => set_stays(set.get()),
        SubtypeElement::TypeConstraint(ty) => contained_stays(ty),
        SubtypeElement::SingleTypeConstraint(_) => false,
        SubtypeElement::MultipleTypeConstraints(_) => false,
        SubtypeElement::PatternConstraint(_) => true,
        SubtypeElement::UserDefinedConstraint(_) => true,
        SubtypeElement::PropertySettings(_) => true,
    }
}
