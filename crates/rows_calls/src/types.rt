//! What is answered about a type: what it is called, what its name makes, its constraints, and what its form has.

use crate::constraints::write_constraints;
use crate::enumerations::write_counted;
use crate::words::{either, write_line};
use asn_calls::{
    ASN1TypeCalls, CharacterStringTypeCalls, InformationObjectFieldReferenceCalls, IntegerCalls,
    IntegerTypeCalls, IterNameTypes, ModuleReferenceCalls, ObjectFieldIdentifierCalls, characters,
};
use asn_memory::{Mem, Text};
use asn_tree::{
    ASN1Type, CharacterStringType, DeclarationElsewhere, InformationObjectFieldReference,
    IntegerType,
};
use asn_tree_headers::ModuleReference;
use rows::{push_decimal, push_number};
use rows_trees::{TellsType, tell_type};
use std::alloc::Global;

/// Writes what is answered about a type in the module of this header.
pub(crate) fn write_type(
    alloc: Global,
    out: &mut Text,
    header: &ModuleReference,
    ty: &ASN1Type,
) -> Mem<()> {
    write_called(alloc, out, ty)?;
    write_by_name(alloc, out, ty)?;
    if let Some(constraints) = ty.constraints() {
        write_constraints(alloc, out, constraints.as_slice())?;
    }
    write_form(alloc, out, header, ty)
}

/// Writes what the type is called, and of what kind it is.
fn write_kind(alloc: Global, out: &mut Text, ty: &ASN1Type) -> Mem<()> {
    let name = ty.as_str(alloc)?;
    out.push_str(name.as_str())?;
    out.push_str(either(ty.is_builtin_type(), ", built in", ", not built in"))?;
    out.push_str(either(ty.is_const_type(), ", const", ", not const"))
}

fn write_called(alloc: Global, out: &mut Text, ty: &ASN1Type) -> Mem<()> {
    out.push_str("  called ")?;
    write_kind(alloc, out, ty)?;
    match ty.constraints() {
        Some(constraints) => {
            out.push_str(", constraints ")?;
            push_decimal(alloc, out, constraints.len())?;
        }
        None => out.push_str(", no place for constraints")?,
    }
    out.push_str("\n")
}

/// Writes what type the type's name makes, alone and behind a path.
fn write_by_name(alloc: Global, out: &mut Text, ty: &ASN1Type) -> Mem<()> {
    let name = ty.as_str(alloc)?;
    out.push_str("  by name ")?;
    write_named(alloc, out, None, name.as_str())?;
    out.push_str("; behind a path ")?;
    write_named(alloc, out, Some("o"), name.as_str())?;
    out.push_str("\n")
}

/// What is told of a type that a name makes.
#[derive(Clone, Copy)]
struct ByName;

impl TellsType for ByName {
    fn tell(&self, alloc: Global, out: &mut Text, ty: &ASN1Type) -> Mem<()> {
        match ty {
            ASN1Type::ElsewhereDeclaredType(reference) => write_reference(out, reference),
            _ => write_kind(alloc, out, ty),
        }
    }
}

fn write_named(alloc: Global, out: &mut Text, parent: Option<&str>, name: &str) -> Mem<()> {
    tell_type(
        alloc,
        out,
        ASN1Type::builtin_or_elsewhere(alloc, parent, name, None),
        &ByName,
    )
}

fn write_reference(out: &mut Text, reference: &DeclarationElsewhere) -> Mem<()> {
    out.push_str("the reference ")?;
    if let Some(parent) = &reference.parent {
        out.push_str(parent.as_str())?;
        out.push_str(".")?;
    }
    out.push_str(reference.identifier.as_str())
}

/// Writes what only some forms of types answer.
fn write_form(alloc: Global, out: &mut Text, header: &ModuleReference, ty: &ASN1Type) -> Mem<()> {
    match ty {
        ASN1Type::Integer(integer) => write_bounds(out, integer.int_type()),
        ASN1Type::CharacterString(string) => write_characters(alloc, out, string.ty),
        ASN1Type::Enumerated(enumerated) => write_counted(alloc, out, enumerated),
        ASN1Type::Sequence(sequence) => write_parts(alloc, out, sequence),
        ASN1Type::Set(set) => write_parts(alloc, out, set),
        ASN1Type::Choice(choice) => write_parts(alloc, out, choice),
        ASN1Type::ElsewhereDeclaredType(reference) => write_import(
            out,
            header,
            reference.identifier.as_str(),
        ),
        ASN1Type::InformationObjectFieldReference(field) => write_path(alloc, out, field),
        _ => Ok(()),
    }
}

/// Writes the integer type that holds what all constraints admit.
fn write_bounds(out: &mut Text, ty: IntegerType) -> Mem<()> {
    out.push_str("  all constraints in ")?;
    out.push_str(ty.as_str())?;
    out.push_str(either(ty.is_unbounded(), ", unbounded\n", "\n"))
}

/// Writes how many characters a set has, and those at some places.
fn write_characters(alloc: Global, out: &mut Text, ty: CharacterStringType) -> Mem<()> {
    let set = ty.character_set(alloc)?;
    out.push_str("  characters ")?;
    push_decimal(alloc, out, set.len())?;
    out.push_str(", listed ")?;
    push_decimal(alloc, out, characters(alloc, ty)?.len())?;
    for place in [0, 62, 65, 94, 55_296, 63_486] {
        if let Some(character) = set.get(&place) {
            out.push_str("; ")?;
            push_decimal(alloc, out, place)?;
            out.push_str(" is ")?;
            push_number(alloc, out, i128::from(u32::from(*character)))?;
        }
    }
    out.push_str("\n")
}

/// Writes the names and types of members or options, and how many there are.
fn write_parts<T: IterNameTypes>(alloc: Global, out: &mut Text, parts: &T) -> Mem<()> {
    out.push_str("  parts ")?;
    push_decimal(alloc, out, parts.iter_name_types().count())?;
    for (name, ty) in parts.iter_name_types() {
        out.push_str("; ")?;
        out.push_str(name)?;
        out.push_str(" ")?;
        write_kind(alloc, out, ty)?;
    }
    out.push_str("\n")
}

/// Writes what the header's imports find under the name of a type.
fn write_import(out: &mut Text, header: &ModuleReference, name: &str) -> Mem<()> {
    match header.find_import(name) {
        Some(found) => write_line(out, "  imported as ", found.as_str()),
        None => out.push_str("  not imported\n"),
    }
}

/// Writes the path to the field of a class, and the names in it.
fn write_path(alloc: Global, out: &mut Text, field: &InformationObjectFieldReference) -> Mem<()> {
    let path = field.field_path_as_str(alloc)?;
    out.push_str("  path ")?;
    out.push_str(path.as_str())?;
    out.push_str(" of")?;
    for name in field.field_path.as_slice() {
        out.push_str(" ")?;
        out.push_str(name.identifier().as_str())?;
    }
    out.push_str("\n")
}
