//! The line of a module's header.

ghost use Rattle.rows_trees.specs.Headers.{assigned_text, encoding_text, environments_text, exports_text, extensibility_text, header_text};
ghost use Rattle.rows_trees.specs.Headers.{identifier_text, import_text, named_text, symbols_text, tagging_text, with_text};
ghost use Rattle.asn_check_listing.specs.Parts.{joined};
ghost use Rattle.std.specs.Prelude.{◌≡◌, ◌++◌, OnOk, map};

use asn_check_listing::{write_arcs, write_names};
use asn_memory::{Mem, Text};
use asn_text::ParserResult;
use asn_tree_headers::{
    AssignedIdentifier, DefinitiveIdentifier, EncodingReferenceDefault, Exports,
    ExtensibilityEnvironment, Import, ModuleReference, TaggingEnvironment, With,
};
use rows::{ended, fault_line};
use std::alloc::Global;

fn write_identifier(
    alloc: Global,
    out: &mut Text,
    identifier: &Option<DefinitiveIdentifier>,
) -> Mem<()>
    ensures { OnOk result (out.new ≡ out.old ++ identifier_text identifier.now) }
{
    match identifier {
        None => Ok(()),
        Some(DefinitiveIdentifier::DefinitiveOID(oid)) => {
            out.push_str(" ")?;
            write_arcs(alloc, out, oid.0.as_slice())
        }
        Some(DefinitiveIdentifier::DefinitiveOIDandIRI { oid, iri }) => {
            out.push_str(" ")?;
            write_arcs(alloc, out, oid.0.as_slice())?;
            out.push_str(" ")?;
            out.push_str(iri.as_str())
        }
    }
}

fn write_encoding(out: &mut Text, encoding: &Option<EncodingReferenceDefault>) -> Mem<()>
    ensures { OnOk result (out.new ≡ out.old ++ encoding_text encoding.now) }
{
    match encoding {
        None => Ok(()),
        Some(encoding) => {
            out.push_str(" ")?;
            out.push_str(encoding.0.as_str())?;
            out.push_str(" INSTRUCTIONS")
        }
    }
}

fn tagging_word(tagging: TaggingEnvironment) -> &'static str
    ensures { result.now ≡ tagging_text tagging }
{
    match tagging {
        TaggingEnvironment::Automatic => " AUTOMATIC TAGS",
        TaggingEnvironment::Implicit => " IMPLICIT TAGS",
        TaggingEnvironment::Explicit => " EXPLICIT TAGS",
    }
}

fn extensibility_word(extensibility: ExtensibilityEnvironment) -> &'static str
    ensures { result.now ≡ extensibility_text extensibility }
{
    match extensibility {
        ExtensibilityEnvironment::Implied => " EXTENSIBILITY IMPLIED",
        ExtensibilityEnvironment::Explicit => "",
    }
}

fn write_exports(out: &mut Text, exports: &Option<Exports>) -> Mem<()>
    ensures { OnOk result (out.new ≡ out.old ++ exports_text exports.now) }
{
    match exports {
        None => Ok(()),
        Some(Exports::All) => out.push_str(" EXPORTS ALL"),
        Some(Exports::Identifier(names)) => {
            out.push_str(" EXPORTS ")?;
            write_names(out, names.as_slice())
        }
    }
}

fn write_assigned(alloc: Global, out: &mut Text, assigned: &AssignedIdentifier) -> Mem<()>
    ensures { OnOk result (out.new ≡ out.old ++ assigned_text assigned.now) }
{
    match assigned {
        AssignedIdentifier::ObjectIdentifierValue(oid) => {
            out.push_str(" ")?;
            write_arcs(alloc, out, oid.0.as_slice())
        }
        AssignedIdentifier::ExternalValueReference(reference) => {
            out.push_str(" ")?;
            out.push_str(reference.module_reference.as_str())?;
            out.push_str(".")?;
            out.push_str(reference.value_reference.as_str())
        }
        AssignedIdentifier::ValueReference(name) => {
            out.push_str(" ")?;
            out.push_str(name.as_str())
        }
        AssignedIdentifier::ParameterizedValue {
            value_reference,
            actual_parameter_list,
        } => {
            out.push_str(" ")?;
            out.push_str(value_reference.as_str())?;
            out.push_str(actual_parameter_list.as_str())
        }
        AssignedIdentifier::Empty => Ok(()),
    }
}

fn with_word(with: Option<With>) -> &'static str
    ensures { result.now ≡ with_text with }
{
    match with {
        None => "",
        Some(With::Successors) => " WITH SUCCESSORS",
        Some(With::Descendants) => " WITH DESCENDANTS",
    }
}

fn write_import(alloc: Global, out: &mut Text, import: &Import) -> Mem<()>
    ensures { OnOk result (out.new ≡ out.old ++ import_text import.now) }
{
    let from = &import.global_module_reference;
    out.push_str(" IMPORTS ")?;
    write_names(out, import.types.as_slice())?;
    out.push_str(" FROM ")?;
    out.push_str(from.module_reference.as_str())?;
    write_assigned(alloc, out, &from.assigned_identifier)?;
    out.push_str(with_word(import.with))
}

fn write_imports(alloc: Global, out: &mut Text, imports: &[Import]) -> Mem<()>
    ensures { OnOk result (out.new ≡ out.old ++ joined (map import_text imports.now)) }
{
    for import in imports {
        write_import(alloc, out, import)?;
    }
    Ok(())
}

/// Writes the name, with its object identifier.
#[tactic(auto, unfolding(crate::specs::Headers::named_text))]
fn write_named(alloc: Global, out: &mut Text, header: &ModuleReference) -> Mem<()>
    ensures { OnOk result (out.new ≡ out.old ++ named_text header.now) }
{
    out.push_str("module ")?;
    out.push_str(header.name.as_str())?;
    write_identifier(alloc, out, &header.module_identifier)
}

/// Writes what holds in the whole module.
#[tactic(auto, unfolding(crate::specs::Headers::environments_text))]
fn write_environments(out: &mut Text, header: &ModuleReference) -> Mem<()>
    ensures { OnOk result (out.new ≡ out.old ++ environments_text header.now) }
{
    write_encoding(out, &header.encoding_reference_default)?;
    out.push_str(tagging_word(header.tagging_environment))?;
    out.push_str(extensibility_word(header.extensibility_environment))
}

/// Writes what goes out and what comes in.
#[tactic(auto, unfolding(crate::specs::Headers::symbols_text))]
fn write_symbols(alloc: Global, out: &mut Text, header: &ModuleReference) -> Mem<()>
    ensures { OnOk result (out.new ≡ out.old ++ symbols_text header.now) }
{
    write_exports(out, &header.exports)?;
    write_imports(alloc, out, header.imports.as_slice())
}

/// Writes the line of a header, without a line feed.
pub(crate) fn write_header(alloc: Global, out: &mut Text, header: &ModuleReference) -> Mem<()>
    ensures { OnOk result (out.new ≡ out.old ++ header_text header.now) }
{
    write_named(alloc, out, header)?;
    write_environments(out, header)?;
    write_symbols(alloc, out, header)
}

fn told_header(alloc: Global, rest: usize, header: &ModuleReference) -> Mem<Text> {
    let mut out = Text::new(alloc, "")?;
    write_header(alloc, &mut out, header)?;
    ended(alloc, rest, out.as_str())
}

/// The line of the reader of headers.
///
/// Err: want of memory.
pub fn header_line<'a>(alloc: Global, answer: ParserResult<'a, ModuleReference>) -> Mem<Text> {
    match answer {
        Ok((rest, header)) => told_header(alloc, rest.offset(), &header),
        Err(fault) => fault_line(alloc, fault),
    }
}
