//! The lines of definitions: as the listing has them, and behind that what no listing tells.

use crate::constraints::write_governors;
use crate::objects::write_object_words;
use crate::types::write_untold;
use crate::values::value_word;
use asn_check_listing::write_definition;
use asn_memory::{Mem, Text};
use asn_text::ParserResult;
use asn_tree::{
    ASN1Information, ASN1Value, Parameterization, ToplevelDefinition,
    ToplevelInformationDefinition, ToplevelTypeDefinition, ToplevelValueDefinition,
};
use rows::{ended, fault_line};
use std::alloc::Global;

/// The comments before a definition.
fn comments_of(definition: &ToplevelDefinition) -> &Text {
    match definition {
        ToplevelDefinition::TypeDef(definition) => &definition.comments,
        ToplevelDefinition::Value(definition) => &definition.comments,
        ToplevelDefinition::Information(definition) => &definition.comments,
    }
}

/// The dummy references of a definition.
fn dummies_of(definition: &ToplevelDefinition) -> &Option<Parameterization> {
    match definition {
        ToplevelDefinition::TypeDef(definition) => &definition.parameterization,
        ToplevelDefinition::Value(definition) => &definition.parameterization,
        ToplevelDefinition::Information(definition) => &definition.parameterization,
    }
}

/// Writes the form of a value, and of an item of an ENUMERATED what it is an item of.
fn write_value_form(out: &mut Text, value: &ASN1Value) -> Mem<()> {
    out.push_str(" -- ")?;
    out.push_str(value_word(value))?;
    match value {
        ASN1Value::EnumeratedValue { enumerated, .. } => {
            out.push_str(" of ")?;
            out.push_str(enumerated.as_str())
        }
        _ => Ok(()),
    }
}

/// Writes how an object is given; nothing for a class and a set.
fn write_information_form(out: &mut Text, information: &ASN1Information) -> Mem<()> {
    match information {
        ASN1Information::Object(object) => {
            out.push_str(" -- ")?;
            write_object_words(out, &object.fields)
        }
        _ => Ok(()),
    }
}

/// Writes what the listing leaves open of what a definition gives.
fn write_form(out: &mut Text, definition: &ToplevelDefinition) -> Mem<()> {
    match definition {
        ToplevelDefinition::TypeDef(definition) => write_untold(out, &definition.ty),
        ToplevelDefinition::Value(definition) => write_value_form(out, &definition.value),
        ToplevelDefinition::Information(definition) => {
            write_information_form(out, &definition.value)
        }
    }
}

/// Writes the comments before a definition, where there are any.
fn write_comments(out: &mut Text, comments: &Text) -> Mem<()> {
    if comments.is_empty() {
        return Ok(());
    }
    out.push_str(" -- comments \"")?;
    out.push_str(comments.as_str())?;
    out.push_str("\"")
}

/// Writes the definition as the listing has it, without the line feed.
fn write_listed(alloc: Global, out: &mut Text, definition: &ToplevelDefinition) -> Mem<()> {
    let mut line = Text::new(alloc, "")?;
    write_definition(alloc, &mut line, definition)?;
    match line.as_str().strip_suffix('\n') {
        Some(listed) => out.push_str(listed),
        None => out.push_str(line.as_str()),
    }
}

/// Writes a definition.
pub(crate) fn write_told(
    alloc: Global,
    out: &mut Text,
    definition: &ToplevelDefinition,
) -> Mem<()> {
    write_listed(alloc, out, definition)?;
    write_governors(out, dummies_of(definition))?;
    write_form(out, definition)?;
    write_comments(out, comments_of(definition))
}

fn told_definition(alloc: Global, rest: usize, definition: &ToplevelDefinition) -> Mem<Text> {
    let mut out = Text::new(alloc, "")?;
    write_told(alloc, &mut out, definition)?;
    ended(alloc, rest, out.as_str())
}

/// The line of the reader of definitions of types.
///
/// Err: want of memory.
pub fn type_definition_line<'a>(
    alloc: Global,
    answer: ParserResult<'a, ToplevelTypeDefinition>,
) -> Mem<Text> {
    match answer {
        Ok((rest, definition)) => told_definition(
            alloc,
            rest.offset(),
            &ToplevelDefinition::TypeDef(definition),
        ),
        Err(fault) => fault_line(alloc, fault),
    }
}

/// The line of a reader of definitions of values.
///
/// Err: want of memory.
pub fn value_definition_line<'a>(
    alloc: Global,
    answer: ParserResult<'a, ToplevelValueDefinition>,
) -> Mem<Text> {
    match answer {
        Ok((rest, definition)) => {
            told_definition(alloc, rest.offset(), &ToplevelDefinition::Value(definition))
        }
        Err(fault) => fault_line(alloc, fault),
    }
}

/// The line of the reader of definitions of classes, objects and their sets.
///
/// Err: want of memory.
pub fn information_definition_line<'a>(
    alloc: Global,
    answer: ParserResult<'a, ToplevelInformationDefinition>,
) -> Mem<Text> {
    match answer {
        Ok((rest, definition)) => told_definition(
            alloc,
            rest.offset(),
            &ToplevelDefinition::Information(definition),
        ),
        Err(fault) => fault_line(alloc, fault),
    }
}
