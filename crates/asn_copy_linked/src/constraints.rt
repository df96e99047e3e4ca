//! Copies of constraints and of the arguments of templates.

ghost use Rattle.std.specs.Prelude.{◌≡◌, IfOk};

use crate::headers::copy_text;
use crate::lists::{copy_list, copy_plain};
use crate::objects::{copy_information_object_fields, copy_object_set_values};
use crate::parts::{both, boxed};
use crate::types::copy_asn1_type;
use crate::values::{copy_asn1_value, copy_optional_value};
use asn_memory::{List, Mem};
use asn_tree::{
    ConstrainedComponent, Constraint, ContentConstraint, ElementOrSetOperation, ElementSet,
    InnerTypeConstraint, ObjectSet, Parameter, PatternConstraint, PropertySettings,
    RelationalConstraint, SetOperation, SubtypeElement, TableConstraint, UserDefinedConstraint,
};
use std::alloc::Global;

/// A copy of a constraint.
///
/// Err: want of memory.
#[cycle(copying)]
pub fn copy_constraint(alloc: Global, value: &Constraint) -> Mem<Constraint>
    ensures { IfOk result (λ copy. copy ≡ value.now) }
{
    match value {
        Constraint::SubtypeConstraint(set) => Ok(Constraint::SubtypeConstraint(ElementSet {
            set: copy_element_or_set_operation(alloc, &set.set)?,
            extensible: set.extensible,
        })),
        Constraint::TableConstraint(table) => {
            let (values, linked_fields) = both(
                copy_object_set_values(alloc, &table.object_set.values),
                copy_list(alloc, &table.linked_fields, copy_relational_constraint),
            )?;
            Ok(Constraint::TableConstraint(TableConstraint {
                object_set: ObjectSet {
                    values,
                    extensible: table.object_set.extensible,
                },
                linked_fields,
            }))
        }
        Constraint::Parameter(arguments) => {
            Ok(Constraint::Parameter(copy_parameters(alloc, arguments)?))
        }
        Constraint::ContentConstraint(content) => Ok(Constraint::ContentConstraint(
            copy_content_constraint(alloc, content)?,
        )),
    }
}

/// A copy of constraints in their order.
///
/// Err: want of memory.
#[cycle(copying)]
pub fn copy_constraints(alloc: Global, constraints: &List<Constraint>) -> Mem<List<Constraint>>
    ensures { IfOk result (λ copy. copy ≡ constraints.now) }
{
    let mut copies = List::new(alloc);
    for constraint in constraints.as_slice() {
        copies.add(copy_constraint(alloc, constraint)?)?;
    }
    Ok(copies)
}

/// A copy of what a string holds.
///
/// Err: want of memory.
#[cycle(copying)]
pub fn copy_content_constraint(alloc: Global, value: &ContentConstraint) -> Mem<ContentConstraint>
    ensures { IfOk result (λ copy. copy ≡ value.now) }
{
    match value {
        ContentConstraint::Containing(ty) => {
            Ok(ContentConstraint::Containing(copy_asn1_type(alloc, ty)?))
        }
        ContentConstraint::EncodedBy(rules) => {
            Ok(ContentConstraint::EncodedBy(copy_asn1_value(alloc, rules)?))
        }
        ContentConstraint::ContainingEncodedBy {
            containing,
            encoded_by,
        } => {
            let (containing, encoded_by) = both(
                copy_asn1_type(alloc, containing),
                copy_asn1_value(alloc, encoded_by),
            )?;
            Ok(ContentConstraint::ContainingEncodedBy {
                containing,
                encoded_by,
            })
        }
    }
}

/// A copy of an argument of a template.
///
/// Err: want of memory.
#[cycle(copying)]
pub fn copy_parameter(alloc: Global, value: &Parameter) -> Mem<Parameter>
    ensures { IfOk result (λ copy. copy ≡ value.now) }
{
    match value {
        Parameter::ValueParameter(value) => {
            Ok(Parameter::ValueParameter(copy_asn1_value(alloc, value)?))
        }
        Parameter::TypeParameter(ty) => Ok(Parameter::TypeParameter(copy_asn1_type(alloc, ty)?)),
        Parameter::InformationObjectParameter(fields) => Ok(Parameter::InformationObjectParameter(
            copy_information_object_fields(alloc, fields)?,
        )),
        Parameter::ObjectSetParameter(set) => Ok(Parameter::ObjectSetParameter(ObjectSet {
            values: copy_object_set_values(alloc, &set.values)?,
            extensible: set.extensible,
        })),
    }
}

#[cycle(copying)]
fn copy_parameters(alloc: Global, arguments: &List<Parameter>) -> Mem<List<Parameter>>
    ensures { IfOk result (λ copy. copy ≡ arguments.now) }
{
    let mut copies = List::new(alloc);
    for argument in arguments.as_slice() {
        copies.add(copy_parameter(alloc, argument)?)?;
    }
    Ok(copies)
}

/// A copy of an element or of elements joined by operators.
///
/// Err: want of memory.
#[cycle(copying)]
pub fn copy_element_or_set_operation(
    alloc: Global,
    value: &ElementOrSetOperation,
) -> Mem<ElementOrSetOperation>
    ensures { IfOk result (λ copy. copy ≡ value.now) }
{
    match value {
        ElementOrSetOperation::Element(element) => Ok(ElementOrSetOperation::Element(
            copy_subtype_element(alloc, element)?,
        )),
        ElementOrSetOperation::SetOperation(operation) => Ok(ElementOrSetOperation::SetOperation(
            copy_set_operation(alloc, operation)?,
        )),
    }
}

/// A copy of an element, an operator, and what stands behind it.
///
/// Err: want of memory.
#[cycle(copying)]
pub fn copy_set_operation(alloc: Global, value: &SetOperation) -> Mem<SetOperation>
    ensures { IfOk result (λ copy. copy ≡ value.now) }
{
    let (base, operant) = both(
        copy_subtype_element(alloc, &value.base),
        boxed(
            alloc,
            copy_element_or_set_operation(alloc, value.operant.get()),
        ),
    )?;
    Ok(SetOperation {
        base,
        operator: value.operator,
        operant,
    })
}

/// A copy of a subtype element.
///
/// Err: want of memory.
#[cycle(copying)]
pub fn copy_subtype_element(alloc: Global, value: &SubtypeElement) -> Mem<SubtypeElement>
    ensures { IfOk result (λ copy. copy ≡ value.now) }
{
    match value {
        SubtypeElement::SingleValue { value, extensible } => Ok(SubtypeElement::SingleValue {
            value: copy_asn1_value(alloc, value)?,
            extensible: *extensible,
        }),
        SubtypeElement::ContainedSubtype {
            subtype,
            extensible,
        } => Ok(SubtypeElement::ContainedSubtype {
            subtype: copy_asn1_type(alloc, subtype)?,
            extensible: *extensible,
        }),
        SubtypeElement::ValueRange {
            min,
            max,
            min_open,
            max_open,
            extensible,
        } => {
            let (least, greatest) = both(
                copy_optional_value(alloc, min),
                copy_optional_value(alloc, max),
            )?;
            Ok(SubtypeElement::ValueRange {
                min: least,
                max: greatest,
                min_open: *min_open,
                max_open: *max_open,
                extensible: *extensible,
            })
        }
        SubtypeElement::PermittedAlphabet(set) => Ok(SubtypeElement::PermittedAlphabet(boxed(
            alloc,
            copy_element_or_set_operation(alloc, set.get()),
        )?)),
        SubtypeElement::SizeConstraint(set) => Ok(SubtypeElement::SizeConstraint(boxed(
            alloc,
            copy_element_or_set_operation(alloc, set.get()),
        )?)),
        SubtypeElement::TypeConstraint(ty) => {
            Ok(SubtypeElement::TypeConstraint(copy_asn1_type(alloc, ty)?))
        }
        SubtypeElement::SingleTypeConstraint(constraints) => Ok(
            SubtypeElement::SingleTypeConstraint(copy_constraints(alloc, constraints)?),
        ),
        SubtypeElement::MultipleTypeConstraints(inner) => {
            let mut components = List::new(alloc);
            for component in inner.constraints.as_slice() {
                let (identifier, constraints) = both(
                    copy_text(alloc, &component.identifier),
                    copy_constraints(alloc, &component.constraints),
                )?;
                components.add(ConstrainedComponent {
                    identifier,
                    constraints,
                    presence: component.presence,
                })?;
            }
            Ok(SubtypeElement::MultipleTypeConstraints(InnerTypeConstraint {
                is_partial: inner.is_partial,
                constraints: components,
            }))
        }
        SubtypeElement::PatternConstraint(pattern) => Ok(SubtypeElement::PatternConstraint(
            copy_pattern_constraint(alloc, pattern)?,
        )),
        SubtypeElement::UserDefinedConstraint(definition) => Ok(
            SubtypeElement::UserDefinedConstraint(copy_user_defined_constraint(alloc, definition)?),
        ),
        SubtypeElement::PropertySettings(settings) => Ok(SubtypeElement::PropertySettings(
            copy_property_settings(alloc, settings)?,
        )),
    }
}

/// A copy of a pattern.
///
/// Err: want of memory.
pub fn copy_pattern_constraint(alloc: Global, value: &PatternConstraint) -> Mem<PatternConstraint>
    ensures { IfOk result (λ copy. copy ≡ value.now) }
{
    Ok(PatternConstraint {
        pattern: copy_text(alloc, &value.pattern)?,
    })
}

/// A copy of a constraint that the notation does not tell.
///
/// Err: want of memory.
pub fn copy_user_defined_constraint(
    alloc: Global,
    value: &UserDefinedConstraint,
) -> Mem<UserDefinedConstraint>
    ensures { IfOk result (λ copy. copy ≡ value.now) }
{
    Ok(UserDefinedConstraint {
        definition: copy_text(alloc, &value.definition)?,
    })
}

/// A copy of the settings that a constraint asks for.
///
/// Err: want of memory.
pub fn copy_property_settings(alloc: Global, value: &PropertySettings) -> Mem<PropertySettings>
    ensures { IfOk result (λ copy. copy ≡ value.now) }
{
    Ok(PropertySettings {
        property_settings_list: copy_list(alloc, &value.property_settings_list, copy_plain)?,
    })
}

/// A copy of a name after `@`.
///
/// Err: want of memory.
pub fn copy_relational_constraint(
    alloc: Global,
    value: &RelationalConstraint,
) -> Mem<RelationalConstraint>
    ensures { IfOk result (λ copy. copy ≡ value.now) }
{
    Ok(RelationalConstraint {
        field_name: copy_text(alloc, &value.field_name)?,
        level: value.level,
    })
}
