//! Constraints (X.680 clauses 49 to 51, X.682 clauses 8 to 11) and the arguments of templates (X.683 clause 9).

use crate::objects::{InformationObjectFields, ObjectSet};
use crate::types::ASN1Type;
use crate::values::ASN1Value;
use asn_memory::{Box, List};
use asn_tree_kinds::{
    ConstrainedComponentOver, ElementSetOver, InnerTypeConstraintOver, PatternConstraint,
    SetOperator, TableConstraintOver, UserDefinedConstraint,
};
use asn_tree_settings::PropertySettings;

/// A constraint on a type (X.680 49.6), or the arguments of the template that stands before it.
#[cycle(tree)]
pub enum Constraint {
    /// A set of values (X.680 50.1).
    SubtypeConstraint(ElementSet),
    /// An object set, whose columns the type is tied to (X.682 10.3).
    TableConstraint(TableConstraint),
    /// The arguments of a template (X.683 9.1).
    Parameter(List<Parameter>),
    /// What a string holds (X.682 11.1).
    ContentConstraint(ContentConstraint),
}

impl Drop for Constraint {
    #[cycle(tree)]
    fn drop(self) {
        match self {
            Constraint::SubtypeConstraint(_) => (),
            Constraint::TableConstraint(_) => (),
            Constraint::Parameter(_) => (),
            Constraint::ContentConstraint(_) => (),
        }
    }
}

/// What a BIT STRING or OCTET STRING holds, or how it is encoded (X.682 11.1).
#[cycle(tree)]
pub enum ContentConstraint {
    /// An encoding of a value of this type.
    Containing(ASN1Type),
    /// What the encoding rules of this object identifier give.
    EncodedBy(ASN1Value),
    /// Both.
    ContainingEncodedBy {
        containing: ASN1Type,
        encoded_by: ASN1Value,
    },
}

impl Drop for ContentConstraint {
    #[cycle(tree)]
    fn drop(self) {
        match self {
            ContentConstraint::Containing(_) => (),
            ContentConstraint::EncodedBy(_) => (),
            ContentConstraint::ContainingEncodedBy {
                containing: _,
                encoded_by: _,
            } => (),
        }
    }
}

/// An argument of a template (X.683 9.5).
#[cycle(tree)]
pub enum Parameter {
    ValueParameter(ASN1Value),
    TypeParameter(ASN1Type),
    InformationObjectParameter(InformationObjectFields),
    ObjectSetParameter(ObjectSet),
}

impl Drop for Parameter {
    #[cycle(tree)]
    fn drop(self) {
        match self {
            Parameter::ValueParameter(_) => (),
            Parameter::TypeParameter(_) => (),
            Parameter::InformationObjectParameter(_) => (),
            Parameter::ObjectSetParameter(_) => (),
        }
    }
}

/// A constraint joined with others by set operators.
pub struct CompositeConstraint {
    pub base_constraint: Box<Constraint>,
    /// The others in order, each behind its operator.
    pub operation: List<(SetOperator, Box<Constraint>)>,
    /// Whether an extension marker follows.
    pub extensible: bool,
}

impl Drop for CompositeConstraint {
    fn drop(self) {
        let CompositeConstraint {
            base_constraint: _,
            operation: _,
            extensible: _,
        } = self;
    }
}

/// The components of a `WITH COMPONENTS` over the constraints of this notation.
pub type InnerTypeConstraint = InnerTypeConstraintOver<Constraint>;

/// A listed component over the constraints of this notation.
pub type ConstrainedComponent = ConstrainedComponentOver<Constraint>;

/// A range of values, of which one value is a case.
pub struct ValueConstraint {
    /// The lower end; None is MIN.
    pub min_value: Option<ASN1Value>,
    /// The upper end; None is MAX.
    pub max_value: Option<ASN1Value>,
    /// Whether an extension marker follows.
    pub extensible: bool,
}

impl Drop for ValueConstraint {
    fn drop(self) {
        let ValueConstraint {
            min_value: _,
            max_value: _,
            extensible: _,
        } = self;
    }
}

/// A table constraint over the object fields of this notation.
pub type TableConstraint = TableConstraintOver<InformationObjectFields>;

/// A subtype element (X.680 51.1).
#[cycle(tree)]
pub enum SubtypeElement {
    /// A single value (X.680 51.2).
    SingleValue {
        value: ASN1Value,
        /// Whether an extension marker follows the value.
        extensible: bool,
    },
    /// The values of another type (X.680 51.3).
    ContainedSubtype {
        subtype: ASN1Type,
        /// Whether an extension marker follows the type.
        extensible: bool,
    },
    /// A value range (X.680 51.4).
    ValueRange {
        /// The lower end; None is MIN.
        min: Option<ASN1Value>,
        /// The upper end; None is MAX.
        max: Option<ASN1Value>,
        /// Whether `<` leaves out the lower end.
        min_open: bool,
        /// Whether `<` leaves out the upper end.
        max_open: bool,
        /// Whether an extension marker follows the range.
        extensible: bool,
    },
    /// The characters of a string, after FROM (X.680 51.7).
    PermittedAlphabet(Box<ElementOrSetOperation>),
    /// The length, after SIZE (X.680 51.5).
    SizeConstraint(Box<ElementOrSetOperation>),
    /// A type (X.680 51.6).
    TypeConstraint(ASN1Type),
    /// The elements of a list, after WITH COMPONENT (X.680 51.8.5).
    SingleTypeConstraint(List<Constraint>),
    /// The components of a type, after WITH COMPONENTS (X.680 51.8.6).
    MultipleTypeConstraints(InnerTypeConstraint),
    /// A pattern (X.680 51.9).
    PatternConstraint(PatternConstraint),
    /// What the notation does not tell (X.682 9.1).
    UserDefinedConstraint(UserDefinedConstraint),
    /// Settings of a time type (X.680 51.10).
    PropertySettings(PropertySettings),
}

impl Drop for SubtypeElement {
    #[cycle(tree)]
    fn drop(self) {
        match self {
            SubtypeElement::SingleValue {
                value: _,
                extensible: _,
            } => (),
            SubtypeElement::ContainedSubtype {
                subtype: _,
                extensible: _,
            } => (),
            SubtypeElement::ValueRange {
                min: _,
                max: _,
                min_open: _,
                max_open: _,
                extensible: _,
            } => (),
            SubtypeElement::PermittedAlphabet(_) => (),
            SubtypeElement::SizeConstraint(_) => (),
            SubtypeElement::TypeConstraint(_) => (),
            SubtypeElement::SingleTypeConstraint(_) => (),
            SubtypeElement::MultipleTypeConstraints(_) => (),
            SubtypeElement::PatternConstraint(_) => (),
            SubtypeElement::UserDefinedConstraint(_) => (),
            SubtypeElement::PropertySettings(_) => (),
        }
    }
}

/// An element set over the elements of this notation.
pub type ElementSet = ElementSetOver<ElementOrSetOperation>;

/// One element, or elements joined by set operators (X.680 50.1).
#[cycle(tree)]
pub enum ElementOrSetOperation {
    /// One element.
    Element(SubtypeElement),
    /// Elements joined by set operators.
    SetOperation(SetOperation),
}

impl Drop for ElementOrSetOperation {
    #[cycle(tree)]
    fn drop(self) {
        match self {
            ElementOrSetOperation::Element(_) => (),
            ElementOrSetOperation::SetOperation(_) => (),
        }
    }
}

/// An element, an operator, and what stands behind it; operators group to the right (X.680 50.1).
#[cycle(tree)]
pub struct SetOperation {
    pub base: SubtypeElement,
    pub operator: SetOperator,
    pub operant: Box<ElementOrSetOperation>,
}

impl Drop for SetOperation {
    #[cycle(tree)]
    fn drop(self) {
        let SetOperation {
            base: _,
            operator: _,
            operant: _,
        } = self;
    }
}
