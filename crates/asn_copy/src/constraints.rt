//! Copies of constraints that no type holds by itself.

ghost use Rattle.std.specs.Prelude.{◌≡◌, IfOk};

use asn_copy_linked::{
    both, boxed, copy_constraint, copy_constraints, copy_element_or_set_operation, copy_list,
    copy_object_set, copy_optional_value, copy_relational_constraint, copy_text,
};
use asn_memory::{Box, Mem};
use asn_tree::{
    CompositeConstraint, ConstrainedComponent, Constraint, ElementSet, InnerTypeConstraint,
    RelationalConstraint, SetOperator, TableConstraint, ValueConstraint,
};
use std::alloc::Global;

// A copy of a reference to another component. A function of this crate, since the copy of another can't be handed over.
fn copy_relation(alloc: Global, value: &RelationalConstraint) -> Mem<RelationalConstraint>
    ensures { IfOk result (λ copy. copy ≡ value.now) }
{
    copy_relational_constraint(alloc, value)
}

/// A copy of a table constraint.
///
/// Err: want of memory.
pub fn copy_table_constraint(alloc: Global, value: &TableConstraint) -> Mem<TableConstraint>
    ensures { IfOk result (λ copy. copy ≡ value.now) }
{
    let (object_set, linked_fields) = both(
        copy_object_set(alloc, &value.object_set),
        copy_list(alloc, &value.linked_fields, copy_relation),
    )?;
    Ok(TableConstraint {
        object_set,
        linked_fields,
    })
}

/// A copy of an element set.
///
/// Err: want of memory.
pub fn copy_element_set(alloc: Global, value: &ElementSet) -> Mem<ElementSet>
    ensures { IfOk result (λ copy. copy ≡ value.now) }
{
    Ok(ElementSet {
        set: copy_element_or_set_operation(alloc, &value.set)?,
        extensible: value.extensible,
    })
}

/// A copy of a listed component.
///
/// Err: want of memory.
pub fn copy_constrained_component(
    alloc: Global,
    value: &ConstrainedComponent,
) -> Mem<ConstrainedComponent>
    ensures { IfOk result (λ copy. copy ≡ value.now) }
{
    let (identifier, constraints) = both(
        copy_text(alloc, &value.identifier),
        copy_constraints(alloc, &value.constraints),
    )?;
    Ok(ConstrainedComponent {
        identifier,
        constraints,
        presence: value.presence,
    })
}

/// A copy of the components of a `WITH COMPONENTS`.
///
/// Err: want of memory.
pub fn copy_inner_type_constraint(
    alloc: Global,
    value: &InnerTypeConstraint,
) -> Mem<InnerTypeConstraint>
    ensures { IfOk result (λ copy. copy ≡ value.now) }
{
    Ok(InnerTypeConstraint {
        is_partial: value.is_partial,
        constraints: copy_list(alloc, &value.constraints, copy_constrained_component)?,
    })
}

// A copy of a set operator and of the constraint behind it.
fn copy_operation(
    alloc: Global,
    value: &(SetOperator, Box<Constraint>),
) -> Mem<(SetOperator, Box<Constraint>)>
    ensures { IfOk result (λ copy. copy ≡ value.now) }
{
    let constraint = boxed(alloc, copy_constraint(alloc, value.1.get()))?;
    Ok((value.0, constraint))
}

/// A copy of a constraint joined with others by set operators.
///
/// Err: want of memory.
pub fn copy_composite_constraint(
    alloc: Global,
    value: &CompositeConstraint,
) -> Mem<CompositeConstraint>
    ensures { IfOk result (λ copy. copy ≡ value.now) }
{
    let (base_constraint, operation) = both(
        boxed(alloc, copy_constraint(alloc, value.base_constraint.get())),
        copy_list(alloc, &value.operation, copy_operation),
    )?;
    Ok(CompositeConstraint {
        base_constraint,
        operation,
        extensible: value.extensible,
    })
}

/// A copy of a range of values.
///
/// Err: want of memory.
pub fn copy_value_constraint(alloc: Global, value: &ValueConstraint) -> Mem<ValueConstraint>
    ensures { IfOk result (λ copy. copy ≡ value.now) }
{
    let (min_value, max_value) = both(
        copy_optional_value(alloc, &value.min_value),
        copy_optional_value(alloc, &value.max_value),
    )?;
    Ok(ValueConstraint {
        min_value,
        max_value,
        extensible: value.extensible,
    })
}
