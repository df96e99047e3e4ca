//! Calls on constraints.

ghost use Rattle.asn_calls.specs.Constraints.{bounds_of, element_of, number_of, range_of, single_of};
ghost use Rattle.asn_calls.specs.Faults.{IsUnpackingError};
ghost use Rattle.asn_calls.specs.Integers.{type_of};
ghost use Rattle.std.specs.Option.{option_copied};
ghost use Rattle.std.specs.Prelude.{◌≡◌, IfErr, IfOk, None, Some};

use crate::integers::least_type;
use asn_tree::{
    ASN1Value, Constraint, ElementOrSetOperation, GrammarError, GrammarErrorType, IntegerType,
    SubtypeElement,
};

/// Calls on `Constraint`.
pub trait ConstraintCalls {
    /// The least type that holds both ends of one range as they are written, so that `(0..<256)` gives Uint16, or the
    /// number of one single value: an unsigned one where none of them is negative, else a signed one. Unbounded where
    /// there is none, where an end is no whole number or the lower is above the upper, where an extension marker
    /// follows, and for each other constraint.
    fn integer_constraints(&self) -> IntegerType;

    /// Both ends of the range, where None is MIN or MAX, and whether an extension marker follows.
    ///
    /// UnpackingError where the constraint is not one range.
    fn unpack_as_value_range(
        &self,
    ) -> Result<(&Option<ASN1Value>, &Option<ASN1Value>, bool), GrammarError>;

    /// The single value, and whether an extension marker follows.
    ///
    /// UnpackingError where the constraint is not one single value.
    fn unpack_as_strict_value(&self) -> Result<(&ASN1Value, bool), GrammarError>;
}

impl ConstraintCalls for Constraint {
    fn integer_constraints(&self) -> IntegerType
        ensures { result ≡ type_of self.now }
    {
        match bounds(self) {
            Some((low, high)) if low <= high => least_type(low, high),
            _ => IntegerType::Unbounded,
        }
    }

    fn unpack_as_value_range(
        &self,
    ) -> Result<(&Option<ASN1Value>, &Option<ASN1Value>, bool), GrammarError>
        ensures ok { IfOk result (λ parts. range_of self.now ≡ Some (parts.0.now, parts.1.now, parts.2)) }
        ensures none { IfErr result (λ _. range_of self.now ≡ None) }
        ensures kind { IfErr result (λ e. IsUnpackingError e) }
    {
        match element(self) {
            Some(
                SubtypeElement::ValueRange {
                    min,
                    max,
                    extensible,
                    ..
                },
            ) => Ok((min, max, *extensible)),
            _ => Err(unpacking_error("the constraint is not one range")),
        }
    }

    fn unpack_as_strict_value(&self) -> Result<(&ASN1Value, bool), GrammarError>
        ensures ok { IfOk result (λ parts. single_of self.now ≡ Some (parts.0.now, parts.1)) }
        ensures none { IfErr result (λ _. single_of self.now ≡ None) }
        ensures kind { IfErr result (λ e. IsUnpackingError e) }
    {
        match element(self) {
            Some(SubtypeElement::SingleValue { value, extensible }) => Ok((value, *extensible)),
            _ => Err(unpacking_error("the constraint is not one single value")),
        }
    }
}

pub(crate) fn unpacking_error(details: &'static str) -> GrammarError
    ensures { IsUnpackingError result }
{
    GrammarError::new(details, GrammarErrorType::UnpackingError)
}

fn element(constraint: &Constraint) -> Option<&SubtypeElement>
    ensures { option_copied result ≡ element_of constraint.now }
{
    match constraint {
        Constraint::SubtypeConstraint(set) => match &set.set {
            ElementOrSetOperation::Element(element) => Some(element),
            ElementOrSetOperation::SetOperation(_) => None,
        },
        _ => None,
    }
}

pub(crate) fn whole_number(value: &ASN1Value) -> Option<i128>
    ensures { result ≡ number_of value.now }
{
    match value {
        ASN1Value::Integer(number) => Some(*number),
        _ => None,
    }
}

fn bounds(constraint: &Constraint) -> Option<(i128, i128)>
    ensures { result ≡ bounds_of constraint.now }
{
    match element(constraint)? {
        SubtypeElement::SingleValue {
            value,
            extensible: false,
        } => {
            let number = whole_number(value)?;
            Some((number, number))
        }
        SubtypeElement::ValueRange {
            min: Some(min),
            max: Some(max),
            extensible: false,
            ..
        } => Some((whole_number(min)?, whole_number(max)?)),
        _ => None,
    }
}
