//! What a written value has between its braces (X.680 25.18, 26.3, 27.7, 28.3).

ghost use Rattle.asn_meaning_heads.specs.Values.{shown_value};
ghost use Rattle.asn_meaning_heads.specs.Written.{shown_written};
ghost use Rattle.asn_meaning_values.specs.Braces.{shown_named, shown_named_values, shown_values};
ghost use Rattle.asn_meaning.specs.Braces.{all_named, all_unnamed, arc_value, arcs_as_element, arcs_as_field, elements_written, fields_written};
ghost use Rattle.asn_meaning.specs.Written.{explicit_field, explicit_fields};
ghost use Rattle.asn_tree.specs.declared.values.LinkedField.{out-LinkedField};
ghost use Rattle.std.specs.Option.{option_map};
ghost use Rattle.std.specs.Prelude.{◌≡◌, ◌++◌, ◌∷◌, [], IfOk};

use asn_meaning_heads::{ValueForm, Written};
use asn_memory::{Box, List, Mem, Text};
use asn_tree::{ASN1Value, LinkedField, ObjectIdentifierArc, StructLikeFieldValue};
use std::alloc::Global;

/// A value with its name.
#[derive(Clone, Copy)]
pub struct NamedValue<'a> {
    pub name: &'a Text,
    pub value: ValueForm<'a>,
}

/// The values with one more at the end.
///
/// Err: want of memory.
#[tactic(auto, using(crate::proofs::Bracing::one_value_more))]
fn with_value<'a>(values: List<ValueForm<'a>>, value: ValueForm<'a>) -> Mem<List<ValueForm<'a>>>
    ensures { IfOk result (λ more. shown_values more ≡ shown_values values.entry ++ shown_value value.entry ∷ []) }
{
    let mut values = values;
    values.add(value)?;
    Ok(values)
}

/// The fields with one more at the end.
///
/// Err: want of memory.
#[tactic(auto, using(crate::proofs::Bracing::one_field_more))]
fn with_field<'a>(fields: List<NamedValue<'a>>, field: NamedValue<'a>) -> Mem<List<NamedValue<'a>>>
    ensures { IfOk result (λ more. shown_named_values more ≡ shown_named_values fields.entry ++ shown_named field.entry ∷ []) }
{
    let mut fields = fields;
    fields.add(field)?;
    Ok(fields)
}

/// The items between braces with their names. None where one has no name.
///
/// Err: want of memory.
#[tactic(auto, using(crate::proofs::Bracing::named_begin, crate::proofs::Bracing::named_next, crate::proofs::Bracing::named_lost, crate::proofs::Bracing::named_done))]
fn all_named<'a>(
    alloc: Global,
    items: &'a [(Option<Text>, Box<ASN1Value>)],
) -> Mem<Option<List<NamedValue<'a>>>>
    ensures { IfOk result (λ found. option_map shown_named_values found ≡ all_named items.now) }
{
    let mut fields = List::new(alloc);
    for item in items {
        match &item.0 {
            None => return Ok(None),
            Some(name) => {
                let value = ValueForm::Written(item.1.get());
                fields = with_field(fields, NamedValue { name, value })?;
            }
        }
    }
    Ok(Some(fields))
}

/// The items between braces. None where one has a name.
///
/// Err: want of memory.
#[tactic(auto, using(crate::proofs::Bracing::unnamed_begin, crate::proofs::Bracing::unnamed_next, crate::proofs::Bracing::unnamed_lost, crate::proofs::Bracing::unnamed_done))]
pub fn all_unnamed<'a>(
    alloc: Global,
    items: &'a [(Option<Text>, Box<ASN1Value>)],
) -> Mem<Option<List<ValueForm<'a>>>>
    ensures { IfOk result (λ found. option_map shown_values found ≡ all_unnamed items.now) }
{
    let mut values = List::new(alloc);
    for item in items {
        match &item.0 {
            Some(_) => return Ok(None),
            None => values = with_value(values, ValueForm::Written(item.1.get()))?,
        }
    }
    Ok(Some(values))
}

/// The value that an arc with a name alone or a number alone is.
fn arc_value<'a>(arc: &'a ObjectIdentifierArc) -> Option<ValueForm<'a>>
    ensures { option_map shown_value result ≡ arc_value arc.now.name arc.now.number }
{
    match (&arc.name, arc.number) {
        (Some(name), None) => Some(ValueForm::Name(name)),
        (None, Some(number)) => {
            if number < 170_141_183_460_469_231_731_687_303_715_884_105_728 {
                Some(ValueForm::Number(number as i128))
            } else {
                None
            }
        }
        (Some(_), Some(_)) => None,
        (None, None) => None,
    }
}

/// A field that was read as two arcs: its name, which has no number behind it, and its value.
fn field_of_arcs<'a>(
    name: &'a ObjectIdentifierArc,
    value: &'a ObjectIdentifierArc,
) -> Option<NamedValue<'a>>
    ensures { option_map (λ field. shown_named field ∷ []) result ≡ arcs_as_field (name.now ∷ value.now ∷ []) }
{
    match (&name.name, name.number) {
        (Some(name), None) => match arc_value(value) {
            None => None,
            Some(value) => Some(NamedValue { name, value }),
        },
        (Some(_), Some(_)) => None,
        (None, _) => None,
    }
}

/// One item that was read as two arcs, a name and what stands behind it.
///
/// Err: want of memory.
fn arcs_as_field<'a>(
    alloc: Global,
    arcs: &'a [ObjectIdentifierArc],
) -> Mem<Option<List<NamedValue<'a>>>>
    ensures { IfOk result (λ found. option_map shown_named_values found ≡ arcs_as_field arcs.now) }
{
    match arcs {
        [name, value] => match field_of_arcs(name, value) {
            None => Ok(None),
            Some(field) => {
                let fields = List::of(alloc, field)?;
                Ok(Some(fields))
            }
        },
        _ => Ok(None),
    }
}

/// One item that was read as one arc.
///
/// Err: want of memory.
fn arcs_as_element<'a>(
    alloc: Global,
    arcs: &'a [ObjectIdentifierArc],
) -> Mem<Option<List<ValueForm<'a>>>>
    ensures { IfOk result (λ found. option_map shown_values found ≡ arcs_as_element arcs.now) }
{
    match arcs {
        [arc] => match arc_value(arc) {
            None => Ok(None),
            Some(value) => {
                let values = List::of(alloc, value)?;
                Ok(Some(values))
            }
        },
        _ => Ok(None),
    }
}

/// The fields that are written, without the defaults.
///
/// Err: want of memory.
#[tactic(auto, using(crate::proofs::Bracing::explicit_taken, crate::proofs::Bracing::explicit_passed, crate::proofs::Bracing::explicit_done))]
fn explicit_fields<'a>(alloc: Global, fields: &'a [LinkedField]) -> Mem<List<NamedValue<'a>>>
    ensures { IfOk result (λ found. shown_named_values found ≡ explicit_fields fields.now) }
{
    let mut found = List::new(alloc);
    for field in fields {
        match &field.value {
            StructLikeFieldValue::Implicit(_) => {}
            StructLikeFieldValue::Explicit(value) => {
                let value = ValueForm::Written(value.get());
                let name = &field.name;
                found = with_field(found, NamedValue { name, value })?;
            }
        }
    }
    Ok(found)
}

/// The elements of a linked value.
///
/// Err: want of memory.
#[tactic(auto, using(crate::proofs::Listing::item_next, crate::proofs::Listing::items_done))]
fn linked_elements<'a>(alloc: Global, values: &'a [Box<ASN1Value>]) -> Mem<List<ValueForm<'a>>>
    ensures { IfOk result (λ found. shown_values found ≡ values.now) }
{
    let mut found = List::new(alloc);
    for value in values {
        found = with_value(found, ValueForm::Written(value.get()))?;
    }
    Ok(found)
}

/// The fields of a value under a SEQUENCE or SET (X.680 25.18, 27.7).
///
/// Err: want of memory.
pub fn fields_written<'a>(alloc: Global, written: Written<'a>) -> Mem<Option<List<NamedValue<'a>>>>
    ensures { IfOk result (λ found. option_map shown_named_values found ≡ fields_written (shown_written written.entry)) }
{
    match written {
        Written::Braces(items) => all_named(alloc, items.as_slice()),
        Written::Arcs(arcs) => arcs_as_field(alloc, arcs.as_slice()),
        Written::Fields(fields) => {
            let found = explicit_fields(alloc, fields.as_slice())?;
            Ok(Some(found))
        }
        Written::All => Ok(None),
        Written::Null => Ok(None),
        Written::Truth(_) => Ok(None),
        Written::Number(_) => Ok(None),
        Written::Real(_) => Ok(None),
        Written::Text(_) => Ok(None),
        Written::Bits(_) => Ok(None),
        Written::BitNames(_) => Ok(None),
        Written::Octets(_) => Ok(None),
        Written::Item(_) => Ok(None),
        Written::Name { .. } => Ok(None),
        Written::Elements(_) => Ok(None),
        Written::Alternative { .. } => Ok(None),
        Written::Nested(_) => Ok(None),
    }
}

/// The elements of a value under a SEQUENCE OF or SET OF (X.680 26.3, 28.3).
///
/// Err: want of memory.
pub fn elements_written<'a>(alloc: Global, written: Written<'a>) -> Mem<Option<List<ValueForm<'a>>>>
    ensures { IfOk result (λ found. option_map shown_values found ≡ elements_written (shown_written written.entry)) }
{
    match written {
        Written::Braces(items) => all_unnamed(alloc, items.as_slice()),
        Written::Arcs(arcs) => arcs_as_element(alloc, arcs.as_slice()),
        Written::Elements(values) => {
            let found = linked_elements(alloc, values.as_slice())?;
            Ok(Some(found))
        }
        Written::All => Ok(None),
        Written::Null => Ok(None),
        Written::Truth(_) => Ok(None),
        Written::Number(_) => Ok(None),
        Written::Real(_) => Ok(None),
        Written::Text(_) => Ok(None),
        Written::Bits(_) => Ok(None),
        Written::BitNames(_) => Ok(None),
        Written::Octets(_) => Ok(None),
        Written::Item(_) => Ok(None),
        Written::Name { .. } => Ok(None),
        Written::Fields(_) => Ok(None),
        Written::Alternative { .. } => Ok(None),
        Written::Nested(_) => Ok(None),
    }
}
