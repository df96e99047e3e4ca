//! Definitions, made anew of all their parts, and made of a name and what is defined.

use crate::objects::{remade_class, remade_fields, remade_set};
use crate::types::{remade_tag, remade_type};
use asn_copy::{
    copy_asn1_information, copy_asn1_type, copy_asn1_value, copy_information_object_class,
};
use asn_memory::{List, Mem, Text};
use asn_tree::{
    ASN1Information, ClassLink, ParameterGovernor, Parameterization, ParameterizationArgument,
    ToplevelDefinition, ToplevelInformationDefinition, ToplevelTypeDefinition,
    ToplevelValueDefinition,
};
use std::alloc::Global;

/// The lines of comments.
fn lines_of<'a>(alloc: Global, comments: &'a Text) -> Mem<Vec<&'a str>> {
    let mut lines = Vec::new(alloc);
    for line in comments.as_str().split("\n") {
        lines.push(line)?;
    }
    Ok(lines)
}

fn remade_parameter(
    alloc: Global,
    parameter: &ParameterizationArgument,
) -> Mem<ParameterizationArgument> {
    let name = parameter.dummy_reference.as_str();
    match &parameter.param_governor {
        ParameterGovernor::None => ParameterizationArgument::from_parts(alloc, name),
        ParameterGovernor::TypeOrClass(ty) => {
            ParameterizationArgument::from_type(alloc, copy_asn1_type(alloc, ty)?, name)
        }
        ParameterGovernor::Class(class) => {
            ParameterizationArgument::from_class(alloc, class.as_str(), name)
        }
    }
}

fn remade_parameters(
    alloc: Global,
    parameterization: &Option<Parameterization>,
) -> Mem<Option<Parameterization>> {
    match parameterization {
        Some(parameterization) => {
            let mut all = List::new(alloc);
            for parameter in parameterization.parameters.as_slice() {
                all.add(remade_parameter(alloc, parameter)?)?;
            }
            Ok(Some(Parameterization::from(all)))
        }
        None => Ok(None),
    }
}

fn remade_type_definition(
    alloc: Global,
    definition: &ToplevelTypeDefinition,
) -> Mem<ToplevelTypeDefinition> {
    let comments = lines_of(alloc, &definition.comments)?;
    let parameters = remade_parameters(alloc, &definition.parameterization)?;
    let ty = (
        remade_tag(&definition.tag),
        remade_type(alloc, &definition.ty)?,
    );
    let name = definition.name.as_str();
    ToplevelTypeDefinition::from_parts(alloc, comments.as_slice(), name, parameters, ty)
}

fn remade_value_definition(
    alloc: Global,
    definition: &ToplevelValueDefinition,
) -> Mem<ToplevelValueDefinition> {
    let comments = lines_of(alloc, &definition.comments)?;
    let parameters = remade_parameters(alloc, &definition.parameterization)?;
    let ty = copy_asn1_type(alloc, &definition.associated_type)?;
    let value = copy_asn1_value(alloc, &definition.value)?;
    let name = definition.name.as_str();
    ToplevelValueDefinition::from_parts(alloc, comments.as_slice(), name, parameters, ty, value)
}

/// The name of the class of a definition.
fn class_of(definition: &ToplevelInformationDefinition) -> &str {
    match &definition.class {
        Some(ClassLink::ByName(name)) => name.as_str(),
        Some(ClassLink::ByReference(name, _)) => name.as_str(),
        None => "",
    }
}

fn remade_information(
    alloc: Global,
    definition: &ToplevelInformationDefinition,
) -> Mem<ToplevelInformationDefinition> {
    let lines = lines_of(alloc, &definition.comments)?;
    let comments = lines.as_slice();
    let parameters = remade_parameters(alloc, &definition.parameterization)?;
    let class = class_of(definition);
    let name = definition.name.as_str();
    match &definition.value {
        ASN1Information::ObjectClass(made) => ToplevelInformationDefinition::from_class(
            alloc,
            comments,
            name,
            parameters,
            remade_class(alloc, made)?,
        ),
        ASN1Information::ObjectSet(set) => ToplevelInformationDefinition::from_object_set(
            alloc,
            comments,
            name,
            parameters,
            class,
            remade_set(alloc, set)?,
        ),
        ASN1Information::Object(object) => ToplevelInformationDefinition::from_parts(
            alloc,
            comments,
            name,
            parameters,
            class,
            remade_fields(alloc, &object.fields)?,
        ),
    }
}

/// The definition, made of all its parts.
pub(crate) fn remade_definition(
    alloc: Global,
    definition: &ToplevelDefinition,
) -> Mem<ToplevelDefinition> {
    match definition {
        ToplevelDefinition::TypeDef(definition) => {
            Ok(ToplevelDefinition::TypeDef(remade_type_definition(alloc, definition)?))
        }
        ToplevelDefinition::Value(definition) => {
            Ok(ToplevelDefinition::Value(remade_value_definition(alloc, definition)?))
        }
        ToplevelDefinition::Information(definition) => {
            Ok(ToplevelDefinition::Information(remade_information(alloc, definition)?))
        }
    }
}

/// A class has no class of its own.
fn named_information(
    alloc: Global,
    definition: &ToplevelInformationDefinition,
) -> Mem<ToplevelInformationDefinition> {
    let name = definition.name.as_str();
    match &definition.value {
        ASN1Information::ObjectClass(class) => {
            let class = copy_information_object_class(alloc, class)?;
            ToplevelInformationDefinition::from_class(alloc, &[], name, None, class)
        }
        value => {
            let value = copy_asn1_information(alloc, value)?;
            ToplevelInformationDefinition::named(alloc, name, value, class_of(definition))
        }
    }
}

/// The definition that is made of its name and of what is defined.
pub(crate) fn named_definition(
    alloc: Global,
    definition: &ToplevelDefinition,
) -> Mem<ToplevelDefinition> {
    match definition {
        ToplevelDefinition::TypeDef(definition) => {
            let ty = copy_asn1_type(alloc, &definition.ty)?;
            let made = ToplevelTypeDefinition::named(alloc, definition.name.as_str(), ty)?;
            Ok(ToplevelDefinition::TypeDef(made))
        }
        ToplevelDefinition::Value(definition) => {
            let ty = copy_asn1_type(alloc, &definition.associated_type)?;
            let value = copy_asn1_value(alloc, &definition.value)?;
            let name = definition.name.as_str();
            let made = ToplevelValueDefinition::named(alloc, name, value, ty)?;
            Ok(ToplevelDefinition::Value(made))
        }
        ToplevelDefinition::Information(definition) => {
            Ok(ToplevelDefinition::Information(named_information(alloc, definition)?))
        }
    }
}
