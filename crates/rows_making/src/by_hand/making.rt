//! Constructors of trees that no text is read as: ranges by themselves, constraints joined by operators, and an INTEGER with bounds.

use crate::by_hand::comparing::{is_made, list, push_rows};
use asn_copy::ValueConstraintMaking;
use asn_copy_linked::boxed;
use asn_memory::{Box, List, Mem, Text};
use asn_tree::{
    ASN1Type, ASN1Value, CompositeConstraint, Constraint, ContentConstraint, ElementOrSetOperation,
    ElementSet, ExtensibilityEnvironment, Integer, ParameterGovernor, SetOperator, SubtypeElement,
    TaggingEnvironment, ValueConstraint,
};
use asn_tree_leaves::{ExtensionMarker, RangeSeperator};
use std::alloc::Global;

fn containing_null() -> Constraint {
    Constraint::ContentConstraint(ContentConstraint::Containing(ASN1Type::Null))
}

fn made_composite(alloc: Global) -> Mem<CompositeConstraint> {
    let others = List::of(alloc, (SetOperator::Except, containing_null()))?;
    CompositeConstraint::from_parts(alloc, containing_null(), others, Some(ExtensionMarker()))
}

fn other(alloc: Global) -> Mem<(SetOperator, Box<Constraint>)> {
    Ok((SetOperator::Except, boxed(alloc, Ok(containing_null()))?))
}

fn composite(alloc: Global) -> Mem<CompositeConstraint> {
    let operation = list(alloc, other(alloc))?;
    let base_constraint = boxed(alloc, Ok(containing_null()))?;
    Ok(CompositeConstraint {
        base_constraint,
        operation,
        extensible: true,
    })
}

fn within(min: i128, max: i128, extensible: bool) -> Mem<ValueConstraint> {
    Ok(ValueConstraint {
        min_value: Some(ASN1Value::Integer(min)),
        max_value: Some(ASN1Value::Integer(max)),
        extensible,
    })
}

fn range(alloc: Global) -> Mem<ValueConstraint> {
    ValueConstraint::range(
        alloc,
        ASN1Value::Integer(1),
        RangeSeperator(),
        ASN1Value::Integer(8),
    )
}

fn extensible_range(alloc: Global) -> Mem<ValueConstraint> {
    ValueConstraint::extensible_range(
        alloc,
        ASN1Value::Integer(1),
        RangeSeperator(),
        ASN1Value::Integer(8),
        ExtensionMarker(),
    )
}

fn single(alloc: Global) -> Mem<ValueConstraint> {
    ValueConstraint::single(alloc, ASN1Value::Integer(4))
}

fn extensible_single(alloc: Global) -> Mem<ValueConstraint> {
    ValueConstraint::extensible_single(alloc, ASN1Value::Integer(4), ExtensionMarker())
}

// `INTEGER (min..8, ...)`, where the range and the set have the marker.
fn bounded(alloc: Global, min: Option<ASN1Value>) -> Mem<Integer> {
    let range = SubtypeElement::ValueRange {
        min,
        max: Some(ASN1Value::Integer(8)),
        min_open: false,
        max_open: false,
        extensible: true,
    };
    let constraint = Constraint::SubtypeConstraint(ElementSet {
        set: ElementOrSetOperation::Element(range),
        extensible: true,
    });
    Ok(Integer {
        constraints: List::of(alloc, constraint)?,
        distinguished_values: None,
    })
}

/// Writes whether each tree is made as it is wanted, and what stands by default.
///
/// Err: want of memory.
pub(crate) fn write_rows(alloc: Global, out: &mut Text) -> Mem<()> {
    push_rows(
        out,
        &[
            (
                "joined constraints",
                is_made(made_composite(alloc), composite(alloc)),
            ),
            ("a range", is_made(range(alloc), within(1, 8, false))),
            (
                "a range with a marker",
                is_made(extensible_range(alloc), within(1, 8, true)),
            ),
            (
                "a single value",
                is_made(single(alloc), within(4, 4, false)),
            ),
            (
                "a single value with a marker",
                is_made(extensible_single(alloc), within(4, 4, true)),
            ),
            (
                "bounds",
                is_made(
                    Integer::from_bounds(alloc, -1, 8, true),
                    bounded(alloc, Some(ASN1Value::Integer(-1))),
                ),
            ),
            (
                "an upper bound",
                is_made(
                    Integer::from_optional_bounds(alloc, None, Some(8), true),
                    bounded(alloc, None),
                ),
            ),
            (
                "tags by default",
                Ok(TaggingEnvironment::default() == TaggingEnvironment::Implicit),
            ),
            (
                "extensibility by default",
                Ok(ExtensibilityEnvironment::default() == ExtensibilityEnvironment::Explicit),
            ),
            (
                "governor by default",
                Ok(ParameterGovernor::default() == ParameterGovernor::None),
            ),
        ],
    )
}
