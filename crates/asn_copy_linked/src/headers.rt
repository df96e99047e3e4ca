//! Copies of headers, and of texts.

ghost use Rattle.std.specs.Prelude.{◌≡◌, IfOk};

use crate::lists::{copy_list, copy_optional};
use asn_memory::{Mem, Text};
use asn_tree::{
    AssignedIdentifier, DefinitiveIdentifier, EncodingReferenceDefault, Exports,
    ExternalValueReference, GlobalModuleReference, Import, ModuleReference, ObjectIdentifierArc,
    ObjectIdentifierValue,
};
use std::alloc::Global;

/// A copy of a text.
///
/// Err: want of memory.
pub fn copy_text(alloc: Global, value: &Text) -> Mem<Text>
    ensures { IfOk result (λ copy. copy ≡ value.now) }
{
    Text::new(alloc, value.as_str())
}

/// A copy of a text that may be absent.
///
/// Err: want of memory.
pub fn copy_optional_text(alloc: Global, value: &Option<Text>) -> Mem<Option<Text>>
    ensures { IfOk result (λ copy. copy ≡ value.now) }
{
    copy_optional(alloc, value, copy_text)
}

/// A copy of an arc.
///
/// Err: want of memory.
pub fn copy_object_identifier_arc(
    alloc: Global,
    value: &ObjectIdentifierArc,
) -> Mem<ObjectIdentifierArc>
    ensures { IfOk result (λ copy. copy ≡ value.now) }
{
    Ok(ObjectIdentifierArc {
        name: copy_optional_text(alloc, &value.name)?,
        number: value.number,
    })
}

/// A copy of an object identifier value.
///
/// Err: want of memory.
pub fn copy_object_identifier_value(
    alloc: Global,
    value: &ObjectIdentifierValue,
) -> Mem<ObjectIdentifierValue>
    ensures { IfOk result (λ copy. copy ≡ value.now) }
{
    Ok(ObjectIdentifierValue(copy_list(alloc, &value.0, copy_object_identifier_arc)?))
}

/// A copy of the object identifier that names a module.
///
/// Err: want of memory.
pub fn copy_definitive_identifier(
    alloc: Global,
    value: &DefinitiveIdentifier,
) -> Mem<DefinitiveIdentifier>
    ensures { IfOk result (λ copy. copy ≡ value.now) }
{
    match value {
        DefinitiveIdentifier::DefinitiveOID(oid) => Ok(DefinitiveIdentifier::DefinitiveOID(
            copy_object_identifier_value(alloc, oid)?,
        )),
        DefinitiveIdentifier::DefinitiveOIDandIRI { oid, iri } => {
            let iri = copy_text(alloc, iri)?;
            let oid = copy_object_identifier_value(alloc, oid)?;
            Ok(DefinitiveIdentifier::DefinitiveOIDandIRI { oid, iri })
        }
    }
}

/// A copy of an encoding reference.
///
/// Err: want of memory.
pub fn copy_encoding_reference_default(
    alloc: Global,
    value: &EncodingReferenceDefault,
) -> Mem<EncodingReferenceDefault>
    ensures { IfOk result (λ copy. copy ≡ value.now) }
{
    Ok(EncodingReferenceDefault(copy_text(alloc, &value.0)?))
}

/// A copy of a value reference with its module's name.
///
/// Err: want of memory.
pub fn copy_external_value_reference(
    alloc: Global,
    value: &ExternalValueReference,
) -> Mem<ExternalValueReference>
    ensures { IfOk result (λ copy. copy ≡ value.now) }
{
    Ok(ExternalValueReference {
        module_reference: copy_text(alloc, &value.module_reference)?,
        value_reference: copy_text(alloc, &value.value_reference)?,
    })
}

/// A copy of the identifier assigned to an imported module.
///
/// Err: want of memory.
pub fn copy_assigned_identifier(
    alloc: Global,
    value: &AssignedIdentifier,
) -> Mem<AssignedIdentifier>
    ensures { IfOk result (λ copy. copy ≡ value.now) }
{
    match value {
        AssignedIdentifier::ObjectIdentifierValue(oid) => {
            let oid = copy_object_identifier_value(alloc, oid)?;
            Ok(AssignedIdentifier::ObjectIdentifierValue(oid))
        }
        AssignedIdentifier::ExternalValueReference(reference) => {
            let reference = copy_external_value_reference(alloc, reference)?;
            Ok(AssignedIdentifier::ExternalValueReference(reference))
        }
        AssignedIdentifier::ValueReference(name) => {
            Ok(AssignedIdentifier::ValueReference(copy_text(alloc, name)?))
        }
        AssignedIdentifier::ParameterizedValue {
            value_reference,
            actual_parameter_list,
        } => {
            let reference = copy_text(alloc, value_reference)?;
            let list = copy_text(alloc, actual_parameter_list)?;
            Ok(AssignedIdentifier::ParameterizedValue {
                value_reference: reference,
                actual_parameter_list: list,
            })
        }
        AssignedIdentifier::Empty => Ok(AssignedIdentifier::Empty),
    }
}

/// A copy of the module that an import names.
///
/// Err: want of memory.
pub fn copy_global_module_reference(
    alloc: Global,
    value: &GlobalModuleReference,
) -> Mem<GlobalModuleReference>
    ensures { IfOk result (λ copy. copy ≡ value.now) }
{
    let module_reference = copy_text(alloc, &value.module_reference)?;
    let assigned_identifier = copy_assigned_identifier(alloc, &value.assigned_identifier)?;
    Ok(GlobalModuleReference {
        module_reference,
        assigned_identifier,
    })
}

/// A copy of an import.
///
/// Err: want of memory.
pub fn copy_import(alloc: Global, value: &Import) -> Mem<Import>
    ensures { IfOk result (λ copy. copy ≡ value.now) }
{
    let types = copy_list(alloc, &value.types, copy_text)?;
    let reference = copy_global_module_reference(alloc, &value.global_module_reference)?;
    Ok(Import {
        types,
        global_module_reference: reference,
        with: value.with,
    })
}

/// A copy of a module's exports.
///
/// Err: want of memory.
pub fn copy_exports(alloc: Global, value: &Exports) -> Mem<Exports>
    ensures { IfOk result (λ copy. copy ≡ value.now) }
{
    match value {
        Exports::Identifier(names) => Ok(Exports::Identifier(copy_list(alloc, names, copy_text)?)),
        Exports::All => Ok(Exports::All),
    }
}

/// A copy of a module's header.
///
/// Err: want of memory.
pub fn copy_module_reference(alloc: Global, value: &ModuleReference) -> Mem<ModuleReference>
    ensures { IfOk result (λ copy. copy ≡ value.now) }
{
    let name = copy_text(alloc, &value.name)?;
    let module_identifier = copy_optional(
        alloc,
        &value.module_identifier,
        copy_definitive_identifier,
    )?;
    let encoding_reference_default = copy_optional(
        alloc,
        &value.encoding_reference_default,
        copy_encoding_reference_default,
    )?;
    let imports = copy_list(alloc, &value.imports, copy_import)?;
    let exports = copy_optional(alloc, &value.exports, copy_exports)?;
    Ok(ModuleReference {
        name,
        module_identifier,
        encoding_reference_default,
        tagging_environment: value.tagging_environment,
        extensibility_environment: value.extensibility_environment,
        imports,
        exports,
    })
}
