//! Copies of definitions.

ghost use Rattle.std.specs.Prelude.{◌≡◌, IfOk};

use crate::headers::copy_text;
use crate::lists::{copy_list, copy_optional};
use crate::objects::{copy_asn1_information, copy_class_link};
use crate::parts::both;
use crate::types::copy_asn1_type;
use crate::values::copy_asn1_value;
use asn_memory::Mem;
use asn_tree::{
    ParameterGovernor, Parameterization, ParameterizationArgument, ToplevelDefinition,
    ToplevelInformationDefinition, ToplevelTypeDefinition, ToplevelValueDefinition,
};
use std::alloc::Global;

/// A copy of a governor.
///
/// Err: want of memory.
pub fn copy_parameter_governor(alloc: Global, value: &ParameterGovernor) -> Mem<ParameterGovernor>
    ensures { IfOk result (λ copy. copy ≡ value.now) }
{
    match value {
        ParameterGovernor::None => Ok(ParameterGovernor::None),
        ParameterGovernor::TypeOrClass(ty) => {
            Ok(ParameterGovernor::TypeOrClass(copy_asn1_type(alloc, ty)?))
        }
        ParameterGovernor::Class(name) => Ok(ParameterGovernor::Class(copy_text(alloc, name)?)),
    }
}

/// A copy of a dummy reference with its governor.
///
/// Err: want of memory.
pub fn copy_parameterization_argument(
    alloc: Global,
    value: &ParameterizationArgument,
) -> Mem<ParameterizationArgument>
    ensures { IfOk result (λ copy. copy ≡ value.now) }
{
    let (dummy_reference, param_governor) = both(
        copy_text(alloc, &value.dummy_reference),
        copy_parameter_governor(alloc, &value.param_governor),
    )?;
    Ok(ParameterizationArgument {
        dummy_reference,
        param_governor,
    })
}

/// A copy of a definition's parameters.
///
/// Err: want of memory.
pub fn copy_parameterization(alloc: Global, value: &Parameterization) -> Mem<Parameterization>
    ensures { IfOk result (λ copy. copy ≡ value.now) }
{
    Ok(Parameterization {
        parameters: copy_list(alloc, &value.parameters, copy_parameterization_argument)?,
    })
}

/// A copy of a type definition.
///
/// Err: want of memory.
pub fn copy_toplevel_type_definition(
    alloc: Global,
    value: &ToplevelTypeDefinition,
) -> Mem<ToplevelTypeDefinition>
    ensures { IfOk result (λ copy. copy ≡ value.now) }
{
    let ((comments, name), (parameterization, ty)) = both(
        both(
            copy_text(alloc, &value.comments),
            copy_text(alloc, &value.name),
        ),
        both(
            copy_optional(alloc, &value.parameterization, copy_parameterization),
            copy_asn1_type(alloc, &value.ty),
        ),
    )?;
    Ok(ToplevelTypeDefinition {
        comments,
        tag: value.tag,
        name,
        ty,
        parameterization,
        index: value.index,
    })
}

/// A copy of a value definition.
///
/// Err: want of memory.
pub fn copy_toplevel_value_definition(
    alloc: Global,
    value: &ToplevelValueDefinition,
) -> Mem<ToplevelValueDefinition>
    ensures { IfOk result (λ copy. copy ≡ value.now) }
{
    let ((comments, name), (parameterization, (associated_type, assigned))) = both(
        both(
            copy_text(alloc, &value.comments),
            copy_text(alloc, &value.name),
        ),
        both(
            copy_optional(alloc, &value.parameterization, copy_parameterization),
            both(
                copy_asn1_type(alloc, &value.associated_type),
                copy_asn1_value(alloc, &value.value),
            ),
        ),
    )?;
    Ok(ToplevelValueDefinition {
        comments,
        name,
        associated_type,
        parameterization,
        value: assigned,
        index: value.index,
    })
}

/// A copy of the definition of a class, an object or an object set.
///
/// Err: want of memory.
pub fn copy_toplevel_information_definition(
    alloc: Global,
    value: &ToplevelInformationDefinition,
) -> Mem<ToplevelInformationDefinition>
    ensures { IfOk result (λ copy. copy ≡ value.now) }
{
    let ((comments, name), (parameterization, (class, information))) = both(
        both(
            copy_text(alloc, &value.comments),
            copy_text(alloc, &value.name),
        ),
        both(
            copy_optional(alloc, &value.parameterization, copy_parameterization),
            both(
                copy_optional(alloc, &value.class, copy_class_link),
                copy_asn1_information(alloc, &value.value),
            ),
        ),
    )?;
    Ok(ToplevelInformationDefinition {
        comments,
        name,
        parameterization,
        class,
        value: information,
        index: value.index,
    })
}

/// A copy of a definition.
///
/// Err: want of memory.
pub fn copy_toplevel_definition(
    alloc: Global,
    value: &ToplevelDefinition,
) -> Mem<ToplevelDefinition>
    ensures { IfOk result (λ copy. copy ≡ value.now) }
{
    match value {
        ToplevelDefinition::TypeDef(definition) => Ok(ToplevelDefinition::TypeDef(
            copy_toplevel_type_definition(alloc, definition)?,
        )),
        ToplevelDefinition::Value(definition) => Ok(ToplevelDefinition::Value(
            copy_toplevel_value_definition(alloc, definition)?,
        )),
        ToplevelDefinition::Information(definition) => Ok(ToplevelDefinition::Information(
            copy_toplevel_information_definition(alloc, definition)?,
        )),
    }
}
