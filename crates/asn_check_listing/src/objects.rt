//! The text of objects (X.681 clause 11).

ghost use Rattle.asn_check_listing.specs.Objects.{named_line};
ghost use Rattle.asn_check_listing.specs.Parts.{listed, parted};
ghost use Rattle.asn_check_listing.specs.Texts.{field_text, fields_text, item_text, objects_text};
ghost use Rattle.std.specs.Prelude.{◌≡◌, ◌++◌, OnOk, codes, map};

use crate::constraints::write_objects;
use crate::parts::either;
use crate::types::{write_referenced, write_type};
use crate::values::write_value;
use asn_memory::{Mem, Text};
use asn_tree::{
    InformationObjectField, InformationObjectFields, ObjectSetValue, SyntaxApplication,
};
use std::alloc::Global;

/// Writes what an object gives: its fields between braces, as `{&id 5, &Type NULL}`, or the items of its class's own syntax, as
/// `{ID 5 TYPE NULL}` (X.681 11.4).
///
/// Err: want of memory.
#[cycle(writing)]
pub fn write_object_fields(
    alloc: Global,
    out: &mut Text,
    fields: &InformationObjectFields,
) -> Mem<()>
    ensures { OnOk result (out.new ≡ out.old ++ fields_text fields.now) }
{
    match fields {
        InformationObjectFields::DefaultSyntax(fields) => {
            write_fields(alloc, out, fields.as_slice())
        }
        InformationObjectFields::CustomSyntax(items) => write_items(alloc, out, items.as_slice()),
    }
}

/// Writes fields between braces (X.681 11.5).
#[cycle(writing)]
fn write_fields(alloc: Global, out: &mut Text, fields: &[InformationObjectField]) -> Mem<()>
    ensures { OnOk result (out.new ≡ out.old ++ listed (map field_text fields.now)) }
{
    out.push_str("{")?;
    let mut first = true;
    for field in fields {
        out.push_str(either(first, "", ", "))?;
        write_field(alloc, out, field)?;
        first = false;
    }
    out.push_str("}")
}

/// Writes a field of an object behind its name, as `&id 5` (X.681 11.5).
///
/// Err: want of memory.
#[cycle(writing)]
pub fn write_field(alloc: Global, out: &mut Text, field: &InformationObjectField) -> Mem<()>
    ensures { OnOk result (out.new ≡ out.old ++ field_text field.now) }
{
    match field {
        InformationObjectField::TypeField(field) => {
            out.push_str(field.identifier.as_str())?;
            out.push_str(" ")?;
            write_type(alloc, out, &field.ty)
        }
        InformationObjectField::FixedValueField(field) => {
            out.push_str(field.identifier.as_str())?;
            out.push_str(" ")?;
            write_value(alloc, out, &field.value)
        }
        InformationObjectField::ObjectSetField(field) => write_set_field(
            alloc,
            out,
            &field.identifier,
            field.value.extensible,
            field.value.values.as_slice(),
        ),
    }
}

/// Writes a set of objects behind the name of its field.
#[cycle(writing)]
fn write_set_field(
    alloc: Global,
    out: &mut Text,
    name: &Text,
    marker: Option<usize>,
    items: &[ObjectSetValue],
) -> Mem<()>
    ensures { OnOk result (out.new ≡ out.old ++ named_line name.now (objects_text marker items.now)) }
{
    out.push_str(name.as_str())?;
    out.push_str(" ")?;
    write_objects(alloc, out, marker, items)
}

/// Writes the items of a class's own syntax between braces (X.681 11.6).
#[cycle(writing)]
fn write_items(alloc: Global, out: &mut Text, items: &[SyntaxApplication]) -> Mem<()>
    ensures { OnOk result (out.new ≡ out.old ++ codes "{" ++ parted (codes " ") (map item_text items.now) ++ codes "}") }
{
    out.push_str("{")?;
    let mut first = true;
    for item in items {
        out.push_str(either(first, "", " "))?;
        write_item(alloc, out, item)?;
        first = false;
    }
    out.push_str("}")
}

/// Writes an item of a class's own syntax.
#[cycle(writing)]
fn write_item(alloc: Global, out: &mut Text, item: &SyntaxApplication) -> Mem<()>
    ensures { OnOk result (out.new ≡ out.old ++ item_text item.now) }
{
    match item {
        SyntaxApplication::ObjectSetDeclaration(set) => {
            write_objects(alloc, out, set.extensible, set.values.as_slice())
        }
        SyntaxApplication::ValueReference(value) => write_value(alloc, out, value),
        SyntaxApplication::TypeReference(ty) => write_type(alloc, out, ty),
        SyntaxApplication::Comma => out.push_str(","),
        SyntaxApplication::Literal(word) => out.push_str(word.as_str()),
        SyntaxApplication::LiteralOrTypeReference(reference) => {
            write_referenced(
                alloc,
                out,
                &reference.parent,
                &reference.identifier,
                reference.constraints.as_slice(),
            )
        }
    }
}
