//! The lines of types, and of what stands in them.

use crate::values::told_value;
use asn_check_listing::{write_member, write_type};
use asn_memory::{Mem, OutOfMemory, Text};
use asn_text::ParserResult;
use asn_tree::{
    ASN1Type, ASN1Value, InformationObjectFieldReference, SequenceComponent, SequenceOrSetMember,
};
use asn_tree_kinds::Enumeral;
use rows::{ended, fault_line};
use std::alloc::Global;

/// Whether a comment stands at one of the items.
fn has_comment(items: &[Enumeral]) -> bool {
    items.iter().any(|item| item.description.is_some())
}

/// Writes the comment of an item between quotes, or a hyphen.
fn write_comment(out: &mut Text, comment: &Option<Text>) -> Mem<()> {
    match comment {
        Some(text) => {
            out.push_str(" \"")?;
            out.push_str(text.as_str())?;
            out.push_str("\"")
        }
        None => out.push_str(" -"),
    }
}

/// Writes the comments of items, which no listing tells; nothing where there is none.
fn write_item_comments(out: &mut Text, items: &[Enumeral]) -> Mem<()> {
    if has_comment(items) {
        out.push_str(" -- items")?;
        for item in items {
            write_comment(out, &item.description)?;
        }
    }
    Ok(())
}

/// Writes what the listing does not tell of a type: of an ENUMERATED the comments of its items.
pub(crate) fn write_untold(out: &mut Text, ty: &ASN1Type) -> Mem<()> {
    match ty {
        ASN1Type::Enumerated(read) => write_item_comments(out, read.members.as_slice()),
        _ => Ok(()),
    }
}

fn told_type(alloc: Global, rest: usize, ty: &ASN1Type) -> Mem<Text> {
    let mut out = Text::new(alloc, "")?;
    write_type(alloc, &mut out, ty)?;
    write_untold(&mut out, ty)?;
    ended(alloc, rest, out.as_str())
}

/// The line of a reader of types: the type, and of an ENUMERATED the comments of its items.
///
/// Err: want of memory.
pub fn type_line<'a>(alloc: Global, answer: ParserResult<'a, ASN1Type>) -> Mem<Text> {
    match answer {
        Ok((rest, ty)) => told_type(alloc, rest.offset(), &ty),
        Err(fault) => fault_line(alloc, fault),
    }
}

/// The line of the reader of a field of a class as a type.
///
/// Err: want of memory.
pub fn field_line<'a>(
    alloc: Global,
    answer: ParserResult<'a, InformationObjectFieldReference>,
) -> Mem<Text> {
    match answer {
        Ok((rest, reference)) => told_type(
            alloc,
            rest.offset(),
            &ASN1Type::InformationObjectFieldReference(reference),
        ),
        Err(fault) => fault_line(alloc, fault),
    }
}

fn told_member(alloc: Global, rest: usize, member: &SequenceOrSetMember) -> Mem<Text> {
    let mut out = Text::new(alloc, "")?;
    write_member(alloc, &mut out, member)?;
    ended(alloc, rest, out.as_str())
}

/// The line of the reader of members.
///
/// Err: want of memory.
pub fn member_line<'a>(alloc: Global, answer: ParserResult<'a, SequenceOrSetMember>) -> Mem<Text> {
    match answer {
        Ok((rest, member)) => told_member(alloc, rest.offset(), &member),
        Err(fault) => fault_line(alloc, fault),
    }
}

fn told_component(alloc: Global, rest: usize, component: &SequenceComponent) -> Mem<Text> {
    match component {
        SequenceComponent::Member(member) => told_member(alloc, rest, member),
        SequenceComponent::ComponentsOf(name) => {
            let mut out = Text::new(alloc, "COMPONENTS OF ")?;
            out.push_str(name.as_str())?;
            ended(alloc, rest, out.as_str())
        }
    }
}

/// The line of the reader of components.
///
/// Err: want of memory.
pub fn component_line<'a>(alloc: Global, answer: ParserResult<'a, SequenceComponent>) -> Mem<Text> {
    match answer {
        Ok((rest, component)) => told_component(alloc, rest.offset(), &component),
        Err(fault) => fault_line(alloc, fault),
    }
}

fn told_default(alloc: Global, rest: usize, value: &Option<ASN1Value>) -> Mem<Text> {
    match value {
        Some(value) => told_value(alloc, rest, value),
        None => ended(alloc, rest, "nothing"),
    }
}

/// The line of the reader of a value that stands by default.
///
/// Err: want of memory.
pub fn default_line<'a>(alloc: Global, answer: ParserResult<'a, Option<ASN1Value>>) -> Mem<Text> {
    match answer {
        Ok((rest, value)) => told_default(alloc, rest.offset(), &value),
        Err(fault) => fault_line(alloc, fault),
    }
}

/// The line of a type that was built of a table, behind which the rest begins.
///
/// Err: want of memory.
pub fn built_type_line(alloc: Global, end: usize, built: Mem<ASN1Type>) -> Mem<Text> {
    match built {
        Ok(tree) => told_type(alloc, end, &tree),
        Err(_) => Err(OutOfMemory),
    }
}

/// Writes an instance that was made behind the name of its type, or that there is none.
///
/// Err: want of memory.
pub fn write_instance(alloc: Global, out: &mut Text, made: Mem<Option<ASN1Type>>) -> Mem<()> {
    match made {
        Ok(Some(ty)) => {
            out.push_str(" ::= ")?;
            write_type(alloc, out, &ty)
        }
        Ok(None) => out.push_str(" none"),
        Err(_) => out.push_str(" memory"),
    }
}
