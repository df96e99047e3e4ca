//! The text of values (X.680 clauses 16 to 44).

ghost use Rattle.asn_check_listing.specs.Parts.{Letters, led, listed};
ghost use Rattle.asn_check_listing.specs.Texts.{linked_text, value_text};
ghost use Rattle.asn_check_listing.specs.Values.{chosen_line, kept, part_line};
ghost use Rattle.std.specs.Prelude.{◌≡◌, ◌++◌, ◌∷◌, [], List as Sequence, IfOk, OnOk, codes, map};

use crate::parts::{either, write_before};
use crate::strings::{write_arcs, write_bits, write_octets, write_real};
use crate::words::{write_name, write_names, write_number, write_quoted};
use asn_memory::{Box, Mem, Text};
use asn_tree::{ASN1Value, LinkedField, StructLikeFieldValue};
use std::alloc::Global;

/// Writes a value, as `{a TRUE, b 2}` (X.680 17.7).
///
/// Err: want of memory.
#[cycle(values)]
pub fn write_value(alloc: Global, out: &mut Text, value: &ASN1Value) -> Mem<()>
    ensures { OnOk result (out.new ≡ out.old ++ value_text value.now) }
{
    match value {
        ASN1Value::All => out.push_str("ALL"),
        ASN1Value::Null => out.push_str("NULL"),
        ASN1Value::Boolean(value) => out.push_str(either(*value, "TRUE", "FALSE")),
        ASN1Value::Choice {
            variant_name,
            inner_value,
            ..
        } => write_chosen(alloc, out, variant_name, inner_value.get()),
        ASN1Value::SequenceOrSet(parts) => write_parts(alloc, out, parts.as_slice()),
        ASN1Value::Integer(number) => write_number(alloc, out, *number),
        ASN1Value::Real(real) => write_real(alloc, out, *real),
        ASN1Value::String(text) => write_quoted(out, text.as_str()),
        ASN1Value::BitString(bits) => write_bits(out, bits.as_slice()),
        ASN1Value::BitStringNamedBits(names) => write_names(out, names.as_slice()),
        ASN1Value::OctetString(octets) => write_octets(out, octets.as_slice()),
        ASN1Value::EnumeratedValue { enumerable, .. } => out.push_str(enumerable.as_str()),
        ASN1Value::Time(text) => write_quoted(out, text.as_str()),
        ASN1Value::ElsewhereDeclaredValue { parent, identifier } => {
            write_name(out, parent, identifier)
        }
        ASN1Value::ObjectIdentifier(arcs) => write_arcs(alloc, out, arcs.0.as_slice()),
        ASN1Value::LinkedNestedValue { value, .. } => write_value(alloc, out, value.get()),
        ASN1Value::LinkedIntValue { value, .. } => write_number(alloc, out, *value),
        ASN1Value::LinkedStructLikeValue(fields) => write_fields(alloc, out, fields.as_slice()),
        ASN1Value::LinkedArrayLikeValue(values) => write_values(alloc, out, values.as_slice()),
        ASN1Value::LinkedCharStringValue(_, text) => write_quoted(out, text.as_str()),
        ASN1Value::LinkedElsewhereDefinedValue {
            parent,
            identifier,
            ..
        } => write_name(out, parent, identifier),
    }
}

/// Writes a chosen alternative (X.680 29.12).
#[cycle(values)]
fn write_chosen(alloc: Global, out: &mut Text, name: &Text, value: &ASN1Value) -> Mem<()>
    ensures { OnOk result (out.new ≡ out.old ++ chosen_line name.now (value_text value.now)) }
{
    out.push_str(name.as_str())?;
    out.push_str(" : ")?;
    write_value(alloc, out, value)
}

/// Writes values between braces, each behind its name where it has one.
#[cycle(values)]
fn write_parts(alloc: Global, out: &mut Text, parts: &[(Option<Text>, Box<ASN1Value>)]) -> Mem<()>
    ensures { OnOk result (out.new ≡ out.old ++ listed (map part_line (map (λ p. (p.0, value_text p.1)) parts.now))) }
{
    out.push_str("{")?;
    let mut first = true;
    for (name, value) in parts {
        out.push_str(either(first, "", ", "))?;
        write_before(out, name, " ")?;
        write_value(alloc, out, value.get())?;
        first = false;
    }
    out.push_str("}")
}

/// Writes values between braces.
#[cycle(values)]
fn write_values(alloc: Global, out: &mut Text, values: &[Box<ASN1Value>]) -> Mem<()>
    ensures { OnOk result (out.new ≡ out.old ++ listed (map value_text values.now)) }
{
    out.push_str("{")?;
    let mut first = true;
    for value in values {
        out.push_str(either(first, "", ", "))?;
        write_value(alloc, out, value.get())?;
        first = false;
    }
    out.push_str("}")
}

/// Writes linked fields between braces, those that were written: what linking filled in has no text.
#[cycle(values)]
fn write_fields(alloc: Global, out: &mut Text, fields: &[LinkedField]) -> Mem<()>
    ensures { OnOk result (out.new ≡ out.old ++ listed (kept (map linked_text fields.now))) }
{
    out.push_str("{")?;
    let mut first = true;
    for field in fields {
        first = write_field(alloc, out, first, field)?;
    }
    out.push_str("}")
}

/// Writes a linked field that was written. Answers whether no field stands there yet.
#[cycle(values)]
#[tactic(auto, using(crate::proofs::Forms::given_next, crate::proofs::Forms::filled_next))]
fn write_field(alloc: Global, out: &mut Text, first: bool, field: &LinkedField) -> Mem<bool>
    ensures { IfOk result (λ none. (rest : Sequence Letters) → out.new ++ led [] (codes ", ") none (kept rest) ≡ out.old ++ led [] (codes ", ") first (kept (linked_text field.now ∷ rest))) }
{
    match &field.value {
        StructLikeFieldValue::Explicit(value) => {
            out.push_str(either(first, "", ", "))?;
            out.push_str(field.name.as_str())?;
            out.push_str(" ")?;
            write_value(alloc, out, value.get())?;
            Ok(false)
        }
        StructLikeFieldValue::Implicit(_) => Ok(first),
    }
}
