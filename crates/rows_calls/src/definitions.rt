//! What is answered about the definitions of a module.

use crate::classes::write_class;
use crate::copies::is_copied;
use crate::objects::write_object;
use crate::types::write_type;
use crate::values::{write_neighbours, write_value_definition};
use crate::words::{either, write_line};
use asn_calls::{
    ToplevelDefinitionCalls, ToplevelInformationDefinitionCalls, ToplevelTypeDefinitionCalls,
};
use asn_memory::{Mem, Text};
use asn_tree::{ASN1Information, ToplevelDefinition, ToplevelInformationDefinition};
use asn_tree_headers::ModuleReference;
use rows::push_decimal;
use std::alloc::Global;

/// Writes what is answered about a module: about its definitions, and about values that stand beside each other.
pub(crate) fn write_module(
    alloc: Global,
    out: &mut Text,
    header: &ModuleReference,
    definitions: &[ToplevelDefinition],
) -> Mem<()> {
    write_line(out, "module ", header.name.as_str())?;
    for definition in definitions {
        write_head(alloc, out, definition)?;
        write_definition(alloc, out, header, definitions, definition)?;
    }
    write_neighbours(alloc, out, definitions)
}

/// What is defined.
fn definition_word(definition: &ToplevelDefinition) -> &'static str {
    match definition {
        ToplevelDefinition::TypeDef(_) => "type ",
        ToplevelDefinition::Value(_) => "value ",
        ToplevelDefinition::Information(definition) => match definition.pdu() {
            ASN1Information::ObjectClass(_) => "class ",
            ASN1Information::ObjectSet(_) => "set ",
            ASN1Information::Object(_) => "object ",
        },
    }
}

/// Writes what is defined, the class that its name finds there, and whether its copies are the same.
fn write_head(alloc: Global, out: &mut Text, definition: &ToplevelDefinition) -> Mem<()> {
    let name = definition.name();
    out.push_str(definition_word(definition))?;
    out.push_str(name.as_str())?;
    match definition.is_class_with_name(name.as_str()) {
        Some(class) => {
            out.push_str(": a class, fields ")?;
            push_decimal(alloc, out, class.fields.len())?;
        }
        None => out.push_str(": no class")?,
    }
    let copied = is_copied(alloc, definition)?;
    out.push_str(either(copied, ", copied\n", ", copied wrongly\n"))
}

fn write_definition(
    alloc: Global,
    out: &mut Text,
    header: &ModuleReference,
    definitions: &[ToplevelDefinition],
    definition: &ToplevelDefinition,
) -> Mem<()> {
    match definition {
        ToplevelDefinition::TypeDef(definition) => write_type(alloc, out, header, definition.pdu()),
        ToplevelDefinition::Value(definition) => {
            write_value_definition(alloc, out, definitions, definition)
        }
        ToplevelDefinition::Information(definition) => {
            write_information(alloc, out, definitions, definition)
        }
    }
}

fn write_information(
    alloc: Global,
    out: &mut Text,
    definitions: &[ToplevelDefinition],
    definition: &ToplevelInformationDefinition,
) -> Mem<()> {
    match definition.pdu() {
        ASN1Information::ObjectClass(class) => write_class(alloc, out, class),
        ASN1Information::Object(object) => write_object(alloc, out, definitions, object),
        ASN1Information::ObjectSet(_) => Ok(()),
    }
}
