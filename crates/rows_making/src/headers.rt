//! Headers and their parts, made anew.

use asn_copy::{copy_assigned_identifier, copy_exports};
use asn_memory::{List, Mem, Text};
use asn_tree_headers::{
    AssignedIdentifier, DefinitiveIdentifier, EncodingReferenceDefault, Exports,
    GlobalModuleReference, Import, ModuleReference, ObjectIdentifierArc, ObjectIdentifierValue,
    With,
};
use std::alloc::Global;

fn remade_arc(alloc: Global, arc: &ObjectIdentifierArc) -> Mem<ObjectIdentifierArc> {
    match (&arc.name, arc.number) {
        (Some(name), Some(number)) => {
            ObjectIdentifierArc::from_name_and_number(alloc, name.as_str(), number)
        }
        (Some(name), None) => ObjectIdentifierArc::from_parts(alloc, name.as_str()),
        (None, Some(number)) => Ok(ObjectIdentifierArc::from(number)),
        (None, None) => Ok(ObjectIdentifierArc {
            name: None,
            number: None,
        }),
    }
}

fn remade_oid(alloc: Global, oid: &ObjectIdentifierValue) -> Mem<ObjectIdentifierValue> {
    let mut arcs = List::new(alloc);
    for arc in oid.0.as_slice() {
        arcs.add(remade_arc(alloc, arc)?)?;
    }
    Ok(ObjectIdentifierValue::from(arcs))
}

fn remade_identifier(
    alloc: Global,
    identifier: &DefinitiveIdentifier,
) -> Mem<DefinitiveIdentifier> {
    match identifier {
        DefinitiveIdentifier::DefinitiveOID(oid) => {
            DefinitiveIdentifier::from_parts(alloc, remade_oid(alloc, oid)?, None)
        }
        DefinitiveIdentifier::DefinitiveOIDandIRI { oid, iri } => {
            DefinitiveIdentifier::from_parts(alloc, remade_oid(alloc, oid)?, Some(iri.as_str()))
        }
    }
}

fn optional_identifier(
    alloc: Global,
    identifier: &Option<DefinitiveIdentifier>,
) -> Mem<Option<DefinitiveIdentifier>> {
    match identifier {
        Some(identifier) => Ok(Some(remade_identifier(alloc, identifier)?)),
        None => Ok(None),
    }
}

fn remade_encoding(
    alloc: Global,
    encoding: &Option<EncodingReferenceDefault>,
) -> Mem<Option<EncodingReferenceDefault>> {
    match encoding {
        Some(encoding) => Ok(Some(EncodingReferenceDefault::from_parts(
            alloc,
            encoding.0.as_str(),
        )?)),
        None => Ok(None),
    }
}

/// The texts as they are handed to constructors.
fn strs<'a>(alloc: Global, texts: &'a [Text]) -> Mem<Vec<&'a str>> {
    let mut all = Vec::new(alloc);
    for text in texts {
        all.push(text.as_str())?;
    }
    Ok(all)
}

fn remade_exports(alloc: Global, exports: &Option<Exports>) -> Mem<Option<Exports>> {
    match exports {
        Some(Exports::Identifier(names)) => {
            let names = strs(alloc, names.as_slice())?;
            Ok(Some(Exports::from_parts(alloc, names.as_slice())?))
        }
        Some(all) => Ok(Some(copy_exports(alloc, all)?)),
        None => Ok(None),
    }
}

fn remade_assigned(alloc: Global, assigned: &AssignedIdentifier) -> Mem<AssignedIdentifier> {
    match assigned {
        AssignedIdentifier::ObjectIdentifierValue(oid) => {
            Ok(AssignedIdentifier::ObjectIdentifierValue(remade_oid(alloc, oid)?))
        }
        _ => copy_assigned_identifier(alloc, assigned),
    }
}

fn with_words(with: Option<With>) -> Option<&'static str> {
    match with {
        Some(With::Successors) => Some("WITH SUCCESSORS"),
        Some(With::Descendants) => Some("WITH DESCENDANTS"),
        None => None,
    }
}

fn remade_import(alloc: Global, import: &Import) -> Mem<Import> {
    let from = &import.global_module_reference;
    let names = strs(alloc, import.types.as_slice())?;
    let module = GlobalModuleReference::from_parts(
        alloc,
        from.module_reference.as_str(),
        remade_assigned(alloc, &from.assigned_identifier)?,
    )?;
    Import::from_parts(alloc, names.as_slice(), (module, with_words(import.with)))
}

fn remade_imports(alloc: Global, imports: &[Import]) -> Mem<List<Import>> {
    let mut all = List::new(alloc);
    for import in imports {
        all.add(remade_import(alloc, import)?)?;
    }
    Ok(all)
}

/// The header, made of its parts.
pub(crate) fn remade_header(alloc: Global, header: &ModuleReference) -> Mem<ModuleReference> {
    let identifier = optional_identifier(alloc, &header.module_identifier)?;
    let encoding = remade_encoding(alloc, &header.encoding_reference_default)?;
    let exports = remade_exports(alloc, &header.exports)?;
    let imports = remade_imports(alloc, header.imports.as_slice())?;
    let environments = (
        encoding,
        header.tagging_environment,
        header.extensibility_environment,
    );
    ModuleReference::from_parts(
        alloc,
        header.name.as_str(),
        identifier,
        Some(environments),
        exports,
        Some(imports),
    )
}
