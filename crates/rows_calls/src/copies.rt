//! Copies of single parts of what was read: of types by their forms, of constraints, of the fields of objects, and of sets' items.
//!
//! The copy of a whole reading does not call these: they stand for users alone. Each part is borrowed, and its copy is put into a tree of
//! its family and handed on at once to be compared.

use asn_calls::ASN1TypeCalls;
use asn_copy::{
    copy_asn1_type, copy_bit_string, copy_boolean, copy_character_string,
    copy_constrained_component, copy_constraint, copy_declaration_elsewhere, copy_element_set,
    copy_enumerated, copy_fixed_value_field, copy_generalized_time,
    copy_information_object_field_reference, copy_inner_type_constraint, copy_integer,
    copy_object_identifier, copy_object_set_field, copy_object_set_value, copy_octet_string,
    copy_real, copy_table_constraint, copy_time, copy_type_field, copy_utc_time,
};
use asn_memory::Mem;
use asn_tree::{
    ASN1Information, ASN1Type, ConstrainedComponent, Constraint, ElementOrSetOperation, ElementSet,
    InformationObjectField, InformationObjectFields, InnerTypeConstraint, ObjectSetValue,
    SubtypeElement, ToplevelDefinition,
};
use rows_trees::{
    is_same_component, is_same_constraint, is_same_field, is_same_item, is_same_type,
};
use std::alloc::Global;

/// Whether each copy of a part of the definition is that part.
pub(crate) fn is_copied(alloc: Global, definition: &ToplevelDefinition) -> Mem<bool> {
    match definition {
        ToplevelDefinition::TypeDef(definition) => is_type_copied(alloc, &definition.ty),
        ToplevelDefinition::Value(definition) => is_type_copied(alloc, &definition.associated_type),
        ToplevelDefinition::Information(definition) => match &definition.value {
            ASN1Information::ObjectClass(_) => Ok(true),
            ASN1Information::Object(object) => are_fields_copied(alloc, &object.fields),
            ASN1Information::ObjectSet(set) => are_items_copied(alloc, set.values.as_slice()),
        },
    }
}

fn is_type_copied(alloc: Global, ty: &ASN1Type) -> Mem<bool> {
    let are_copied = match ty.constraints() {
        Some(constraints) => are_constraints_copied(alloc, constraints.as_slice())?,
        None => true,
    };
    Ok(is_same_type(copied_form(alloc, ty), ty)? && are_copied)
}

/// The copy of a type, made by the call for its form where it has one of its own.
fn copied_form(alloc: Global, ty: &ASN1Type) -> Mem<ASN1Type> {
    match ty {
        ASN1Type::Boolean(ty) => Ok(ASN1Type::Boolean(copy_boolean(alloc, ty)?)),
        ASN1Type::Integer(ty) => Ok(ASN1Type::Integer(copy_integer(alloc, ty)?)),
        ASN1Type::Real(ty) => Ok(ASN1Type::Real(copy_real(alloc, ty)?)),
        ASN1Type::BitString(ty) => Ok(ASN1Type::BitString(copy_bit_string(alloc, ty)?)),
        ASN1Type::OctetString(ty) => Ok(ASN1Type::OctetString(copy_octet_string(alloc, ty)?)),
        ASN1Type::CharacterString(ty) => {
            Ok(ASN1Type::CharacterString(copy_character_string(alloc, ty)?))
        }
        ASN1Type::Enumerated(ty) => Ok(ASN1Type::Enumerated(copy_enumerated(alloc, ty)?)),
        ASN1Type::Time(ty) => Ok(ASN1Type::Time(copy_time(alloc, ty)?)),
        ASN1Type::GeneralizedTime(ty) => {
            Ok(ASN1Type::GeneralizedTime(copy_generalized_time(alloc, ty)?))
        }
        ASN1Type::UTCTime(ty) => Ok(ASN1Type::UTCTime(copy_utc_time(alloc, ty)?)),
        ASN1Type::ObjectIdentifier(ty) => {
            Ok(ASN1Type::ObjectIdentifier(copy_object_identifier(alloc, ty)?))
        }
        ASN1Type::ElsewhereDeclaredType(ty) => {
            Ok(ASN1Type::ElsewhereDeclaredType(copy_declaration_elsewhere(alloc, ty)?))
        }
        ASN1Type::InformationObjectFieldReference(ty) => Ok(
            ASN1Type::InformationObjectFieldReference(copy_information_object_field_reference(
                alloc, ty,
            )?),
        ),
        _ => copy_asn1_type(alloc, ty),
    }
}

fn are_constraints_copied(alloc: Global, constraints: &[Constraint]) -> Mem<bool> {
    for constraint in constraints {
        if !is_constraint_copied(alloc, constraint)? {
            return Ok(false);
        }
    }
    Ok(true)
}

/// The copy of a constraint, made by the call for its form where it has one of its own.
fn copied_constraint(alloc: Global, constraint: &Constraint) -> Mem<Constraint> {
    match constraint {
        Constraint::SubtypeConstraint(set) => {
            Ok(Constraint::SubtypeConstraint(copy_element_set(alloc, set)?))
        }
        Constraint::TableConstraint(table) => {
            Ok(Constraint::TableConstraint(copy_table_constraint(alloc, table)?))
        }
        _ => copy_constraint(alloc, constraint),
    }
}

fn is_constraint_copied(alloc: Global, constraint: &Constraint) -> Mem<bool> {
    let are_copied = match constraint {
        Constraint::SubtypeConstraint(set) => match &set.set {
            ElementOrSetOperation::Element(SubtypeElement::MultipleTypeConstraints(inner)) => {
                is_inner_copied(alloc, inner, set.extensible, constraint)?
            }
            _ => true,
        },
        _ => true,
    };
    Ok(is_same_constraint(copied_constraint(alloc, constraint), constraint)? && are_copied)
}

/// The constraint with the copy of what it says of components.
fn copied_inner(alloc: Global, inner: &InnerTypeConstraint, extensible: bool) -> Mem<Constraint> {
    let element = SubtypeElement::MultipleTypeConstraints(copy_inner_type_constraint(
        alloc, inner,
    )?);
    Ok(Constraint::SubtypeConstraint(ElementSet {
        set: ElementOrSetOperation::Element(element),
        extensible,
    }))
}

fn is_inner_copied(
    alloc: Global,
    inner: &InnerTypeConstraint,
    extensible: bool,
    constraint: &Constraint,
) -> Mem<bool> {
    let are_copied = are_components_copied(alloc, inner.constraints.as_slice())?;
    Ok(is_same_constraint(copied_inner(alloc, inner, extensible), constraint)? && are_copied)
}

fn are_components_copied(alloc: Global, components: &[ConstrainedComponent]) -> Mem<bool> {
    for component in components {
        if !is_same_component(copy_constrained_component(alloc, component), component)? {
            return Ok(false);
        }
    }
    Ok(true)
}

fn are_fields_copied(alloc: Global, fields: &InformationObjectFields) -> Mem<bool> {
    match fields {
        InformationObjectFields::DefaultSyntax(fields) => {
            are_all_copied(alloc, fields.as_slice())
        }
        InformationObjectFields::CustomSyntax(_) => Ok(true),
    }
}

fn are_all_copied(alloc: Global, fields: &[InformationObjectField]) -> Mem<bool> {
    for field in fields {
        if !is_same_field(copied_field(alloc, field), field)? {
            return Ok(false);
        }
    }
    Ok(true)
}

/// The copy of a field, made by the call for its form.
fn copied_field(alloc: Global, field: &InformationObjectField) -> Mem<InformationObjectField> {
    match field {
        InformationObjectField::TypeField(field) => {
            Ok(InformationObjectField::TypeField(copy_type_field(alloc, field)?))
        }
        InformationObjectField::FixedValueField(field) => {
            Ok(InformationObjectField::FixedValueField(copy_fixed_value_field(alloc, field)?))
        }
        InformationObjectField::ObjectSetField(field) => {
            Ok(InformationObjectField::ObjectSetField(copy_object_set_field(alloc, field)?))
        }
    }
}

fn are_items_copied(alloc: Global, items: &[ObjectSetValue]) -> Mem<bool> {
    for item in items {
        if !is_same_item(copy_object_set_value(alloc, item), item)? {
            return Ok(false);
        }
    }
    Ok(true)
}
