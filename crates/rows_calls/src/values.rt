//! What is answered about values: whole numbers, names that are defined elsewhere, and the lesser and the greater of two.

use crate::words::either;
use asn_calls::{ASN1ValueCalls, CharacterStringTypeCalls, ToplevelDefinitionCalls};
use asn_memory::{Mem, Text};
use asn_tree::{ASN1Type, ASN1Value, ToplevelDefinition, ToplevelValueDefinition};
use rows::push_number;
use rows_trees::{write_answer, write_found, write_refusal};
use std::alloc::Global;
use std::collections::BTreeMap;

/// Writes what is answered about the value of a definition, and what the definitions of its module say of it where it is a name.
pub(crate) fn write_value_definition(
    alloc: Global,
    out: &mut Text,
    definitions: &[ToplevelDefinition],
    definition: &ToplevelValueDefinition,
) -> Mem<()> {
    write_number(alloc, out, &definition.value)?;
    match (&definition.associated_type, &definition.value) {
        (
            ASN1Type::ElsewhereDeclaredType(reference),
            ASN1Value::ElsewhereDeclaredValue { identifier, .. },
        ) => write_named(
            alloc,
            out,
            definitions,
            reference.identifier.as_str(),
            identifier.as_str(),
        ),
        _ => Ok(()),
    }
}

fn write_number(alloc: Global, out: &mut Text, value: &ASN1Value) -> Mem<()> {
    out.push_str(either(value.is_elsewhere_declared(), "  a name, ", "  no name, "))?;
    match value.unwrap_as_integer() {
        Ok(number) => {
            out.push_str("the number ")?;
            push_number(alloc, out, number)?;
        }
        Err(refusal) => write_refusal(out, &refusal)?,
    }
    out.push_str("\n")
}

/// Writes what each definition of a type says of a name, as one of the type that is named, and as one of any type.
fn write_named(
    alloc: Global,
    out: &mut Text,
    definitions: &[ToplevelDefinition],
    type_name: &str,
    name: &str,
) -> Mem<()> {
    for definition in definitions {
        if let ToplevelDefinition::TypeDef(_) = definition {
            out.push_str("  in ")?;
            out.push_str(definition.name().as_str())?;
            out.push_str(": ")?;
            write_asked(alloc, out, definition, Some(type_name), name)?;
            out.push_str("; ")?;
            write_asked(alloc, out, definition, None, name)?;
            out.push_str("\n")?;
        }
    }
    Ok(())
}

fn write_asked(
    alloc: Global,
    out: &mut Text,
    definition: &ToplevelDefinition,
    type_name: Option<&str>,
    name: &str,
) -> Mem<()> {
    out.push_str(name)?;
    out.push_str(" of ")?;
    out.push_str(type_name.unwrap_or("any"))?;
    out.push_str(" ")?;
    write_number_of(alloc, out, definition, type_name, name)?;
    let is_item = definition.has_enum_value(type_name, name);
    out.push_str(either(is_item, ", an item", ", no item"))
}

fn write_number_of(
    alloc: Global,
    out: &mut Text,
    definition: &ToplevelDefinition,
    type_name: Option<&str>,
    name: &str,
) -> Mem<()> {
    write_found(
        alloc,
        out,
        definition.get_distinguished_or_enum_value(type_name, name),
    )
}

/// Writes the lesser and the greater of each two values whose definitions stand beside each other.
pub(crate) fn write_neighbours(
    alloc: Global,
    out: &mut Text,
    definitions: &[ToplevelDefinition],
) -> Mem<()> {
    let Some((_, others)) = definitions.split_first() else {
        return Ok(());
    };
    for pair in definitions.iter().zip(others) {
        if let (ToplevelDefinition::Value(left), ToplevelDefinition::Value(right)) = pair {
            write_pair(alloc, out, left, right)?;
        }
    }
    Ok(())
}

/// Writes the lesser and the greater of two values, in the character set of the first one's type where that has one.
fn write_pair(
    alloc: Global,
    out: &mut Text,
    left: &ToplevelValueDefinition,
    right: &ToplevelValueDefinition,
) -> Mem<()> {
    out.push_str("of ")?;
    out.push_str(left.name.as_str())?;
    out.push_str(" and ")?;
    out.push_str(right.name.as_str())?;
    match &left.associated_type {
        ASN1Type::CharacterString(string) => {
            let set = string.ty.character_set(alloc)?;
            write_compared(alloc, out, &left.value, &right.value, Some(&set))
        }
        _ => write_compared(alloc, out, &left.value, &right.value, None),
    }
}

fn write_compared(
    alloc: Global,
    out: &mut Text,
    left: &ASN1Value,
    right: &ASN1Value,
    set: Option<&BTreeMap<usize, char>>,
) -> Mem<()> {
    out.push_str(": the lesser ")?;
    write_answer(alloc, out, left.min(alloc, right, set))?;
    out.push_str("; the greater ")?;
    write_answer(alloc, out, left.max(alloc, right, set))?;
    out.push_str("\n")
}
