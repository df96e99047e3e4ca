//! The lines of classes, objects and sets of objects.

use crate::values::value_word;
use asn_check_listing::{write_class, write_object_fields, write_objects};
use asn_memory::{Mem, OutOfMemory, Text};
use asn_text::ParserResult;
use asn_tree::{
    InformationObjectClass, InformationObjectField, InformationObjectFields, ObjectSet,
    SyntaxApplication,
};
use rows::{ended, fault_line};
use std::alloc::Global;

/// The form of an item of a class's own syntax, in a word or two.
fn item_word(item: &SyntaxApplication) -> &'static str {
    match item {
        SyntaxApplication::ObjectSetDeclaration(_) => "set",
        SyntaxApplication::ValueReference(value) => value_word(value),
        SyntaxApplication::TypeReference(_) => "type",
        SyntaxApplication::Comma => "comma",
        SyntaxApplication::Literal(_) => "word",
        SyntaxApplication::LiteralOrTypeReference(_) => "word or type",
    }
}

/// The form of a field, in a word.
fn field_word(field: &InformationObjectField) -> &'static str {
    match field {
        InformationObjectField::TypeField(_) => "type",
        InformationObjectField::FixedValueField(_) => "value",
        InformationObjectField::ObjectSetField(_) => "set",
    }
}

fn write_item_words(out: &mut Text, items: &[SyntaxApplication]) -> Mem<()> {
    let mut first = true;
    for item in items {
        if !first {
            out.push_str(", ")?;
        }
        out.push_str(item_word(item))?;
        first = false;
    }
    Ok(())
}

fn write_field_words(out: &mut Text, fields: &[InformationObjectField]) -> Mem<()> {
    let mut first = true;
    for field in fields {
        if !first {
            out.push_str(", ")?;
        }
        out.push_str(field_word(field))?;
        first = false;
    }
    Ok(())
}

/// Writes how an object is given, and the forms of its parts.
pub(crate) fn write_object_words(out: &mut Text, fields: &InformationObjectFields) -> Mem<()> {
    match fields {
        InformationObjectFields::DefaultSyntax(fields) => {
            out.push_str("fields ")?;
            write_field_words(out, fields.as_slice())
        }
        InformationObjectFields::CustomSyntax(items) => {
            out.push_str("syntax ")?;
            write_item_words(out, items.as_slice())
        }
    }
}

fn told_object(alloc: Global, rest: usize, fields: &InformationObjectFields) -> Mem<Text> {
    let mut out = Text::new(alloc, "")?;
    write_object_words(&mut out, fields)?;
    out.push_str(" ")?;
    write_object_fields(alloc, &mut out, fields)?;
    ended(alloc, rest, out.as_str())
}

/// The line of the reader of objects.
///
/// Err: want of memory.
pub fn object_line<'a>(
    alloc: Global,
    answer: ParserResult<'a, InformationObjectFields>,
) -> Mem<Text> {
    match answer {
        Ok((rest, fields)) => told_object(alloc, rest.offset(), &fields),
        Err(fault) => fault_line(alloc, fault),
    }
}

fn told_set(alloc: Global, rest: usize, set: &ObjectSet) -> Mem<Text> {
    let mut out = Text::new(alloc, "")?;
    write_objects(alloc, &mut out, set.extensible, set.values.as_slice())?;
    ended(alloc, rest, out.as_str())
}

/// The line of the reader of sets of objects.
///
/// Err: want of memory.
pub fn set_line<'a>(alloc: Global, answer: ParserResult<'a, ObjectSet>) -> Mem<Text> {
    match answer {
        Ok((rest, set)) => told_set(alloc, rest.offset(), &set),
        Err(fault) => fault_line(alloc, fault),
    }
}

fn told_class(alloc: Global, rest: usize, class: &InformationObjectClass) -> Mem<Text> {
    let mut out = Text::new(alloc, "")?;
    write_class(alloc, &mut out, class)?;
    ended(alloc, rest, out.as_str())
}

/// The line of a reader of classes.
///
/// Err: want of memory.
pub fn class_line<'a>(
    alloc: Global,
    answer: ParserResult<'a, InformationObjectClass>,
) -> Mem<Text> {
    match answer {
        Ok((rest, class)) => told_class(alloc, rest.offset(), &class),
        Err(fault) => fault_line(alloc, fault),
    }
}

/// The line of an object that was built of a table, behind which the rest begins.
///
/// Err: want of memory.
pub fn built_object_line(
    alloc: Global,
    end: usize,
    built: Mem<InformationObjectFields>,
) -> Mem<Text> {
    match built {
        Ok(tree) => told_object(alloc, end, &tree),
        Err(_) => Err(OutOfMemory),
    }
}

/// The line of a set of objects that was built of a table, behind which the rest begins.
///
/// Err: want of memory.
pub fn built_set_line(alloc: Global, end: usize, built: Mem<ObjectSet>) -> Mem<Text> {
    match built {
        Ok(tree) => told_set(alloc, end, &tree),
        Err(_) => Err(OutOfMemory),
    }
}

/// The line of a class that was built of a table, behind which the rest begins.
///
/// Err: want of memory.
pub fn built_class_line(
    alloc: Global,
    end: usize,
    built: Mem<InformationObjectClass>,
) -> Mem<Text> {
    match built {
        Ok(tree) => told_class(alloc, end, &tree),
        Err(_) => Err(OutOfMemory),
    }
}
