//! Constraints and their elements, made anew.

use crate::objects::remade_set;
use asn_copy::{
    copy_asn1_type, copy_asn1_value, copy_constraint, copy_element_or_set_operation,
    copy_subtype_element,
};
use asn_copy_linked::copy_constraints;
use asn_memory::{List, Mem};
use asn_tree::{
    Constraint, ContentConstraint, ElementOrSetOperation, ElementSet, InnerTypeConstraint,
    SetOperation, SubtypeElement, TableConstraint,
};
use asn_tree_kinds::{
    ComponentPresence, ElementSetOver, PatternConstraint, RelationalConstraint,
    TableConstraintOver, UserDefinedConstraint,
};
use asn_tree_leaves::ExtensionMarker;
use std::alloc::Global;

/// The marker, where it stands.
pub(crate) fn marker_of(stands: bool) -> Option<ExtensionMarker> {
    if stands {
        Some(ExtensionMarker())
    } else {
        None
    }
}

/// Each component with its constraints and its presence.
fn components_of<'a>(
    alloc: Global,
    inner: &'a InnerTypeConstraint,
) -> Mem<List<(&'a str, Option<List<Constraint>>, Option<ComponentPresence>)>> {
    let mut all = List::new(alloc);
    for component in inner.constraints.as_slice() {
        let constraints = copy_constraints(alloc, &component.constraints)?;
        all.add((
            component.identifier.as_str(),
            Some(constraints),
            Some(component.presence),
        ))?;
    }
    Ok(all)
}

fn remade_size(alloc: Global, root: &ElementOrSetOperation) -> Mem<SubtypeElement> {
    let set = ElementSetOver::from((copy_element_or_set_operation(alloc, root)?, None));
    SubtypeElement::size(alloc, set)
}

fn remade_element(alloc: Global, element: &SubtypeElement) -> Mem<SubtypeElement> {
    match element {
        SubtypeElement::SingleValue { value, extensible } => {
            let value = copy_asn1_value(alloc, value)?;
            Ok(SubtypeElement::from((value, marker_of(*extensible))))
        }
        SubtypeElement::SizeConstraint(root) => remade_size(alloc, root.get()),
        SubtypeElement::MultipleTypeConstraints(inner) => SubtypeElement::from_parts(
            alloc,
            marker_of(inner.is_partial),
            components_of(alloc, inner)?,
        ),
        SubtypeElement::PatternConstraint(pattern) => {
            let pattern = PatternConstraint::from_parts(alloc, pattern.pattern.as_str())?;
            Ok(SubtypeElement::PatternConstraint(pattern))
        }
        SubtypeElement::UserDefinedConstraint(own) => {
            let own = UserDefinedConstraint::from_parts(alloc, own.definition.as_str())?;
            Ok(SubtypeElement::UserDefinedConstraint(own))
        }
        _ => copy_subtype_element(alloc, element),
    }
}

fn remade_operation(alloc: Global, operation: &SetOperation) -> Mem<SetOperation> {
    let base = remade_element(alloc, &operation.base)?;
    let operant = copy_element_or_set_operation(alloc, operation.operant.get())?;
    SetOperation::from_parts(alloc, base, operation.operator, operant)
}

fn remade_elements(alloc: Global, set: &ElementOrSetOperation) -> Mem<ElementOrSetOperation> {
    match set {
        ElementOrSetOperation::Element(element) => {
            Ok(ElementOrSetOperation::Element(remade_element(alloc, element)?))
        }
        ElementOrSetOperation::SetOperation(operation) => {
            Ok(ElementOrSetOperation::SetOperation(remade_operation(alloc, operation)?))
        }
    }
}

fn remade_subtype(alloc: Global, set: &ElementSet) -> Mem<ElementSet> {
    let elements = remade_elements(alloc, &set.set)?;
    Ok(ElementSetOver::from((elements, marker_of(set.extensible))))
}

fn remade_names(alloc: Global, names: &[RelationalConstraint]) -> Mem<List<RelationalConstraint>> {
    let mut all = List::new(alloc);
    for name in names {
        all.add(RelationalConstraint::from_parts(alloc, name.level, name.field_name.as_str())?)?;
    }
    Ok(all)
}

fn remade_table(alloc: Global, table: &TableConstraint) -> Mem<TableConstraint> {
    let names = remade_names(alloc, table.linked_fields.as_slice())?;
    let set = remade_set(alloc, &table.object_set)?;
    TableConstraintOver::from_parts(alloc, set, Some(names))
}

fn remade_content(alloc: Global, content: &ContentConstraint) -> Mem<ContentConstraint> {
    match content {
        ContentConstraint::Containing(ty) => {
            Ok(ContentConstraint::from(copy_asn1_type(alloc, ty)?))
        }
        ContentConstraint::EncodedBy(rules) => {
            Ok(ContentConstraint::from(copy_asn1_value(alloc, rules)?))
        }
        ContentConstraint::ContainingEncodedBy {
            containing,
            encoded_by,
        } => {
            let ty = copy_asn1_type(alloc, containing)?;
            let rules = copy_asn1_value(alloc, encoded_by)?;
            Ok(ContentConstraint::from((ty, rules)))
        }
    }
}

fn remade_constraint(alloc: Global, constraint: &Constraint) -> Mem<Constraint> {
    match constraint {
        Constraint::SubtypeConstraint(set) => {
            Ok(Constraint::SubtypeConstraint(remade_subtype(alloc, set)?))
        }
        Constraint::TableConstraint(table) => {
            Ok(Constraint::TableConstraint(remade_table(alloc, table)?))
        }
        Constraint::ContentConstraint(content) => {
            Ok(Constraint::ContentConstraint(remade_content(alloc, content)?))
        }
        Constraint::Parameter(_) => copy_constraint(alloc, constraint),
    }
}

/// The constraints, each made anew.
pub(crate) fn remade_constraints(
    alloc: Global,
    constraints: &List<Constraint>,
) -> Mem<Option<List<Constraint>>> {
    let mut all = List::new(alloc);
    for constraint in constraints.as_slice() {
        all.add(remade_constraint(alloc, constraint)?)?;
    }
    Ok(Some(all))
}
