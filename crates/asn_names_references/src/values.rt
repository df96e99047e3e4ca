//! The names in values (X.680 clauses 16 to 44).

ghost use Rattle.asn_names_references.specs.References.{joined, names_in_linked, names_in_value, present, references_in_value};
ghost use Rattle.std.specs.Option.{option_map};
ghost use Rattle.std.specs.Prelude.{◌≡◌, ◌++◌, IfOk, OnOk, map};

use crate::names::{add_arcs, add_name, add_names, add_optional_name, add_path};
use crate::types::add_type;
use crate::wanted::Wanted;
use asn_memory::{Box, List, Mem, Text};
use asn_tree::{ASN1Value, LinkedField, StructLikeFieldValue};
use std::alloc::Global;

/// Adds the names in a value.
#[cycle(naming)]
pub(crate) fn add_value<'t>(
    out: &mut List<&'t Text>,
    value: &'t ASN1Value,
    wanted: Wanted,
) -> Mem<()>
    ensures { OnOk result (map (λ n. n.now) out.new ≡ map (λ n. n.now) out.old ++ names_in_value value.now wanted) }
{
    match value {
        ASN1Value::All => Ok(()),
        ASN1Value::Null => Ok(()),
        ASN1Value::Boolean(_) => Ok(()),
        ASN1Value::Choice {
            type_name,
            variant_name: _,
            inner_value,
        } => {
            add_optional_name(out, type_name, wanted)?;
            add_value(out, inner_value.get(), wanted)
        }
        ASN1Value::SequenceOrSet(parts) => add_parts(out, parts.as_slice(), wanted),
        ASN1Value::Integer(_) => Ok(()),
        ASN1Value::Real(_) => Ok(()),
        ASN1Value::String(_) => Ok(()),
        ASN1Value::BitString(_) => Ok(()),
        ASN1Value::BitStringNamedBits(names) => add_names(out, names.as_slice(), wanted),
        ASN1Value::OctetString(_) => Ok(()),
        ASN1Value::EnumeratedValue {
            enumerated,
            enumerable,
        } => {
            add_name(out, enumerated, wanted)?;
            add_name(out, enumerable, wanted)
        }
        ASN1Value::Time(_) => Ok(()),
        ASN1Value::ElsewhereDeclaredValue { parent, identifier } => {
            add_path(out, parent, identifier, wanted)
        }
        ASN1Value::ObjectIdentifier(identifier) => add_arcs(out, identifier.0.as_slice(), wanted),
        ASN1Value::LinkedNestedValue { supertypes, value } => {
            add_names(out, supertypes.as_slice(), wanted)?;
            add_value(out, value.get(), wanted)
        }
        ASN1Value::LinkedIntValue { .. } => Ok(()),
        ASN1Value::LinkedStructLikeValue(fields) => add_linked_fields(
            out,
            fields.as_slice(),
            wanted,
        ),
        ASN1Value::LinkedArrayLikeValue(values) => add_values(out, values.as_slice(), wanted),
        ASN1Value::LinkedCharStringValue(_, _) => Ok(()),
        ASN1Value::LinkedElsewhereDefinedValue {
            parent,
            identifier,
            can_be_const: _,
        } => add_path(out, parent, identifier, wanted),
    }
}

/// Adds those of a value, where there is one.
#[cycle(naming)]
pub(crate) fn add_optional_value<'t>(
    out: &mut List<&'t Text>,
    value: &'t Option<ASN1Value>,
    wanted: Wanted,
) -> Mem<()>
    ensures { OnOk result (map (λ n. n.now) out.new ≡ map (λ n. n.now) out.old ++ present (option_map names_in_value value.now) wanted) }
{
    match value {
        None => Ok(()),
        Some(value) => add_value(out, value, wanted),
    }
}

/// Adds those of the values between braces, in their order.
#[cycle(naming)]
fn add_parts<'t>(
    out: &mut List<&'t Text>,
    parts: &'t [(Option<Text>, Box<ASN1Value>)],
    wanted: Wanted,
) -> Mem<()>
    ensures { OnOk result (map (λ n. n.now) out.new ≡ map (λ n. n.now) out.old ++ joined (map (λ p. names_in_value p.1) parts.now) wanted) }
{
    for part in parts {
        add_value(out, part.1.get(), wanted)?;
    }
    Ok(())
}

/// Adds those of values, in their order.
#[cycle(naming)]
fn add_values<'t>(out: &mut List<&'t Text>, values: &'t [Box<ASN1Value>], wanted: Wanted) -> Mem<()>
    ensures { OnOk result (map (λ n. n.now) out.new ≡ map (λ n. n.now) out.old ++ joined (map names_in_value values.now) wanted) }
{
    for value in values {
        add_value(out, value.get(), wanted)?;
    }
    Ok(())
}

/// Adds those of linked fields, in their order.
#[cycle(naming)]
fn add_linked_fields<'t>(
    out: &mut List<&'t Text>,
    fields: &'t [LinkedField],
    wanted: Wanted,
) -> Mem<()>
    ensures { OnOk result (map (λ n. n.now) out.new ≡ map (λ n. n.now) out.old ++ joined (map names_in_linked fields.now) wanted) }
{
    for field in fields {
        add_linked(out, field, wanted)?;
    }
    Ok(())
}

/// Adds those of a linked field: of its type and of its value.
#[cycle(naming)]
fn add_linked<'t>(out: &mut List<&'t Text>, field: &'t LinkedField, wanted: Wanted) -> Mem<()>
    ensures { OnOk result (map (λ n. n.now) out.new ≡ map (λ n. n.now) out.old ++ names_in_linked field.now wanted) }
{
    add_type(out, &field.ty, wanted)?;
    match &field.value {
        StructLikeFieldValue::Explicit(value) => add_value(out, value.get(), wanted),
        StructLikeFieldValue::Implicit(value) => add_value(out, value.get(), wanted),
    }
}

/// Every name in a value that may be a reference, in order and as often as it stands: of values, of both parts of a path and of arcs
/// that have no number (X.680 32.3), and of the types that a linked value names. An item of an enumeration, a named bit, a named number or
/// a dummy that is written as such a name is among them.
///
/// # Errors
///
/// Want of memory alone.
pub fn value_references<'t>(alloc: Global, value: &'t ASN1Value) -> Mem<List<&'t Text>>
    ensures { IfOk result (λ names. map (λ n. n.now) names ≡ references_in_value value.now) }
{
    let mut names = List::new(alloc);
    add_value(&mut names, value, Wanted::Every)?;
    Ok(names)
}
