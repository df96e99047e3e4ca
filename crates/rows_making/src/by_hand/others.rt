//! Copies of parts that no reading holds: a class beside its name, components as they are written, and constraints of forms that the
//! reading has others for. And trees that are not the same.

use crate::by_hand::comparing::{is_same, list, push_rows};
use asn_copy::{
    copy_class_link, copy_composite_constraint, copy_sequence_component, copy_subtype_element,
    copy_value_constraint,
};
use asn_copy_linked::boxed;
use asn_memory::{Box, List, Mem, Text};
use asn_tree::{
    ASN1Type, ASN1Value, ClassLink, CompositeConstraint, Constraint, ContentConstraint,
    InformationObjectClass, SequenceComponent, SequenceOrSetMember, SetOperator, SubtypeElement,
    ValueConstraint,
};
use std::alloc::Global;

fn is_link_copied(alloc: Global) -> Mem<bool> {
    let name = Text::new(alloc, "CODED")?;
    let class = InformationObjectClass {
        fields: List::new(alloc),
        syntax: None,
    };
    let link = ClassLink::ByReference(name, class);
    is_same(copy_class_link(alloc, &link), &link)
}

fn are_names_copied(alloc: Global) -> Mem<bool> {
    let names = SequenceComponent::ComponentsOf(Text::new(alloc, "B")?);
    is_same(copy_sequence_component(alloc, &names), &names)
}

fn is_member_copied(alloc: Global) -> Mem<bool> {
    let name = Text::new(alloc, "a")?;
    let member = SequenceComponent::Member(SequenceOrSetMember {
        name,
        tag: None,
        ty: ASN1Type::Null,
        default_value: Some(ASN1Value::Null),
        is_optional: true,
        is_recursive: false,
        constraints: List::new(alloc),
    });
    is_same(copy_sequence_component(alloc, &member), &member)
}

fn containing_null() -> Constraint {
    Constraint::ContentConstraint(ContentConstraint::Containing(ASN1Type::Null))
}

fn other(alloc: Global) -> Mem<(SetOperator, Box<Constraint>)> {
    Ok((SetOperator::Except, boxed(alloc, Ok(containing_null()))?))
}

fn composite(alloc: Global) -> Mem<CompositeConstraint> {
    let operation = list(alloc, other(alloc))?;
    let base_constraint = boxed(alloc, Ok(containing_null()))?;
    Ok(CompositeConstraint {
        base_constraint,
        operation,
        extensible: true,
    })
}

fn is_composite_copied(alloc: Global) -> Mem<bool> {
    let composite = composite(alloc)?;
    is_same(copy_composite_constraint(alloc, &composite), &composite)
}

fn is_range_copied(alloc: Global) -> Mem<bool> {
    let range = ValueConstraint {
        min_value: Some(ASN1Value::Integer(1)),
        max_value: None,
        extensible: true,
    };
    is_same(copy_value_constraint(alloc, &range), &range)
}

// A type between parentheses is read as a contained subtype, and never as this.
fn is_type_constraint_copied(alloc: Global) -> Mem<bool> {
    let element = SubtypeElement::TypeConstraint(ASN1Type::Null);
    is_same(copy_subtype_element(alloc, &element), &element)
}

/// Writes whether each part is copied, and that trees which differ are not the same.
///
/// Err: want of memory.
pub(crate) fn write_rows(alloc: Global, out: &mut Text) -> Mem<()> {
    push_rows(
        out,
        &[
            ("a class beside its name", is_link_copied(alloc)),
            ("names of components", are_names_copied(alloc)),
            ("a member", is_member_copied(alloc)),
            ("joined constraints", is_composite_copied(alloc)),
            ("a range", is_range_copied(alloc)),
            (
                "a type between parentheses",
                is_type_constraint_copied(alloc),
            ),
            (
                "other numbers",
                Ok(ASN1Value::Integer(1) != ASN1Value::Integer(2)),
            ),
            (
                "another form of value",
                Ok(ASN1Value::Integer(1) != ASN1Value::Null),
            ),
            (
                "another form of type",
                Ok(ASN1Type::Null != ASN1Type::External),
            ),
        ],
    )
}
