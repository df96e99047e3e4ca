//! What is answered about objects: the names of the fields that they give, and the tokens at whose places their items may stand.

use crate::classes::write_place;
use crate::words::write_line;
use asn_calls::{
    ASN1TypeCalls, InformationObjectFieldCalls, InformationObjectSyntaxCalls,
    SyntaxApplicationCalls, ToplevelDefinitionCalls,
};
use asn_memory::{Mem, Text};
use asn_tree::{
    InformationObject, InformationObjectClass, InformationObjectField, InformationObjectFields,
    SyntaxApplication, ToplevelDefinition,
};
use asn_tree_leaves::SyntaxToken;
use rows_trees::write_plain_value;
use std::alloc::Global;

/// Writes what is answered about an object, whose class is one of the definitions.
pub(crate) fn write_object(
    alloc: Global,
    out: &mut Text,
    definitions: &[ToplevelDefinition],
    object: &InformationObject,
) -> Mem<()> {
    match &object.fields {
        InformationObjectFields::DefaultSyntax(fields) => write_fields(out, fields.as_slice()),
        InformationObjectFields::CustomSyntax(items) => {
            let class = class_named(definitions, object.class_name.as_str());
            write_items_in(alloc, out, class, items.as_slice())
        }
    }
}

fn write_fields(out: &mut Text, fields: &[InformationObjectField]) -> Mem<()> {
    for field in fields {
        write_line(out, "  gives ", field.identifier().as_str())?;
    }
    Ok(())
}

/// The class of that name.
fn class_named<'t>(
    definitions: &'t [ToplevelDefinition],
    name: &str,
) -> Option<&'t InformationObjectClass> {
    for definition in definitions {
        if let Some(class) = definition.is_class_with_name(name) {
            return Some(class);
        }
    }
    None
}

fn write_items_in(
    alloc: Global,
    out: &mut Text,
    class: Option<&InformationObjectClass>,
    items: &[SyntaxApplication],
) -> Mem<()> {
    let Some(class) = class else {
        return out.push_str("  no class here\n");
    };
    match &class.syntax {
        Some(syntax) => {
            let tokens = syntax.flatten(alloc)?;
            write_items(alloc, out, tokens.as_slice(), items)
        }
        None => out.push_str("  no syntax\n"),
    }
}

fn write_items(
    alloc: Global,
    out: &mut Text,
    tokens: &[(bool, SyntaxToken)],
    items: &[SyntaxApplication],
) -> Mem<()> {
    for item in items {
        out.push_str("  ")?;
        write_item(alloc, out, item)?;
        out.push_str(" fits")?;
        write_fitting(alloc, out, tokens, item, None)?;
        out.push_str("; out of range")?;
        write_fitting(alloc, out, tokens, item, Some(tokens.len()))?;
        out.push_str("\n")?;
    }
    Ok(())
}

/// Writes an item with the word of its form.
fn write_item(alloc: Global, out: &mut Text, item: &SyntaxApplication) -> Mem<()> {
    match item {
        SyntaxApplication::ObjectSetDeclaration(_) => out.push_str("a set"),
        SyntaxApplication::ValueReference(value) => {
            out.push_str("the value ")?;
            write_plain_value(alloc, out, value)
        }
        SyntaxApplication::TypeReference(ty) => {
            let name = ty.as_str(alloc)?;
            out.push_str("the type ")?;
            out.push_str(name.as_str())
        }
        SyntaxApplication::Comma => out.push_str("a comma"),
        SyntaxApplication::Literal(word) => {
            out.push_str("the word ")?;
            out.push_str(word.as_str())
        }
        SyntaxApplication::LiteralOrTypeReference(name) => {
            out.push_str("the name ")?;
            out.push_str(name.identifier.as_str())
        }
    }
}

/// Writes the tokens that the item fits, each at its own place or where it is said to stand.
fn write_fitting(
    alloc: Global,
    out: &mut Text,
    tokens: &[(bool, SyntaxToken)],
    item: &SyntaxApplication,
    said: Option<usize>,
) -> Mem<()> {
    for place in 0..tokens.len() {
        let token = &tokens[place].1;
        if item.matches(token, tokens, said.unwrap_or(place)) {
            out.push_str(" ")?;
            write_place(alloc, out, place, token)?;
        }
    }
    Ok(())
}
