//! Values as trees, and the elements that hold values alone.

ghost use Rattle.asn_meaning_heads.specs.Places.{shown_place};
ghost use Rattle.asn_meaning_heads.specs.Scopes.{shown};
ghost use Rattle.asn_link_instance.specs.Literals.{default_written, single_written};
ghost use Rattle.asn_link_instance.specs.Subjects.{rules_read, values_read};
ghost use Rattle.asn_link_types.specs.inner.Made.{present, range_made, single_made};
ghost use Rattle.asn_link_types.specs.inner.Parts.{default_made, end_made};
ghost use Rattle.asn_meaning.specs.Judge.{meaning};
ghost use Rattle.asn_link_values.specs.Subjects.{shown_subject};
ghost use Rattle.asn_link_values.specs.Values.{shown_placed};
ghost use Rattle.asn_tree.specs.declared.constraints.SubtypeElement.{out-SubtypeElement};
ghost use Rattle.std.specs.Option.{option_map};
ghost use Rattle.std.specs.Prelude.{◌≡◌, IfOk};

use crate::leaves::rules_read;
use asn_copy_linked::{copy_asn1_value, copy_text};
use asn_link_values::{PlacedValue, Subject, default_value, end_value, single_value};
use asn_meaning_heads::{Place, Scope};
use asn_memory::Mem;
use asn_names_index::Names;
use asn_tree::{ASN1Value, ObjectIdentifierValue, SubtypeElement};
use std::alloc::Global;

/// The tree of a value that takes the place of another.
///
/// Err: want of memory.
fn placed_tree(alloc: Global, placed: PlacedValue<'_>) -> Mem<ASN1Value>
    ensures { IfOk result (λ tree. tree ≡ shown_placed placed.entry) }
{
    match placed {
        PlacedValue::Same(value) => {
            let copy = copy_asn1_value(alloc, value)?;
            Ok(copy)
        }
        PlacedValue::All => Ok(ASN1Value::All),
        PlacedValue::Null => Ok(ASN1Value::Null),
        PlacedValue::Truth(truth) => Ok(ASN1Value::Boolean(truth)),
        PlacedValue::Number(number) => Ok(ASN1Value::Integer(number)),
        PlacedValue::Real(real) => Ok(ASN1Value::Real(real)),
        PlacedValue::Bits(bits) => Ok(ASN1Value::BitString(bits)),
        PlacedValue::Octets(octets) => Ok(ASN1Value::OctetString(octets)),
        PlacedValue::Text(text) => Ok(ASN1Value::String(text)),
        PlacedValue::Arcs(arcs) => Ok(ASN1Value::ObjectIdentifier(ObjectIdentifierValue(arcs))),
        PlacedValue::Item(name) => {
            let identifier = copy_text(alloc, name)?;
            Ok(ASN1Value::ElsewhereDeclaredValue {
                parent: None,
                identifier,
            })
        }
    }
}

/// The tree of a value, where there is one.
///
/// Err: want of memory.
fn tree_of(alloc: Global, placed: Option<PlacedValue<'_>>) -> Mem<Option<ASN1Value>>
    ensures { IfOk result (λ tree. tree ≡ option_map shown_placed placed.entry) }
{
    match placed {
        None => Ok(None),
        Some(placed) => {
            let tree = placed_tree(alloc, placed)?;
            Ok(Some(tree))
        }
    }
}

/// A value that is there, where one is made of it.
fn present(made: Option<ASN1Value>) -> Option<Option<ASN1Value>>
    ensures { result ≡ present made }
{
    match made {
        None => None,
        Some(value) => Some(Some(value)),
    }
}

/// A single value, as an element.
///
/// None: there is neither a literal nor an item for it, or it is not known within these steps. Err: want of memory.
pub fn single_element<'a>(
    alloc: Global,
    names: &Names<'a>,
    steps: usize,
    scope: &Scope<'a>,
    subject: Subject<'_, 'a>,
    value: &'a ASN1Value,
    extensible: bool,
) -> Mem<Option<SubtypeElement>>
    ensures { IfOk result (λ made. option_map out-SubtypeElement made ≡ single_made extensible (single_written (meaning names.now.definitions.now steps) (shown scope.now) value.now (values_read (shown_subject subject.entry)))) }
{
    let placed = single_value(alloc, names, steps, scope, value, subject)?;
    let made = tree_of(alloc, placed)?;
    Ok(single(made, extensible))
}

/// A value as an element, where it is made.
fn single(made: Option<ASN1Value>, extensible: bool) -> Option<SubtypeElement>
    ensures { option_map out-SubtypeElement result ≡ single_made extensible made }
{
    match made {
        None => None,
        Some(value) => Some(SubtypeElement::SingleValue { value, extensible }),
    }
}

/// An end of a range, where it is written.
///
/// None: there is no literal for it, or it is not known within these steps. Err: want of memory.
fn end_of<'a>(
    alloc: Global,
    names: &Names<'a>,
    steps: usize,
    scope: &Scope<'a>,
    subject: Subject<'_, 'a>,
    end: &'a Option<ASN1Value>,
) -> Mem<Option<Option<ASN1Value>>>
    ensures { IfOk result (λ made. made ≡ end_made (meaning names.now.definitions.now steps) (shown scope.now) (shown_subject subject.entry) end.now) }
{
    match end {
        None => Ok(Some(None)),
        Some(value) => {
            let placed = end_value(alloc, names, steps, scope, value, subject)?;
            let made = tree_of(alloc, placed)?;
            Ok(present(made))
        }
    }
}

/// A range, as an element.
///
/// None: there is no literal for an end, or it is not known within these steps. Err: want of memory.
pub fn range_element<'a>(
    alloc: Global,
    names: &Names<'a>,
    steps: usize,
    scope: &Scope<'a>,
    subject: Subject<'_, 'a>,
    min: &'a Option<ASN1Value>,
    max: &'a Option<ASN1Value>,
    min_open: bool,
    max_open: bool,
    extensible: bool,
) -> Mem<Option<SubtypeElement>>
    ensures { IfOk result (λ made. option_map out-SubtypeElement made ≡ range_made min_open max_open extensible (end_made (meaning names.now.definitions.now steps) (shown scope.now) (shown_subject subject.entry) min.now) (end_made (meaning names.now.definitions.now steps) (shown scope.now) (shown_subject subject.entry) max.now)) }
{
    let Some(min) = end_of(alloc, names, steps, scope, subject, min)? else {
        return Ok(None);
    };
    let Some(max) = end_of(alloc, names, steps, scope, subject, max)? else {
        return Ok(None);
    };
    Ok(Some(SubtypeElement::ValueRange {
        min,
        max,
        min_open,
        max_open,
        extensible,
    }))
}

/// A member's default, where it has one; it is read under the member's type.
///
/// None: there is neither a literal nor an item for it, or it is not known within these steps. Err: want of memory.
pub fn default_of<'a>(
    alloc: Global,
    names: &Names<'a>,
    steps: usize,
    place: &Place<'a>,
    default: &'a Option<ASN1Value>,
) -> Mem<Option<Option<ASN1Value>>>
    ensures { IfOk result (λ made. made ≡ default_made (meaning names.now.definitions.now steps) (shown_place place.now) default.now) }
{
    match default {
        None => Ok(Some(None)),
        Some(value) => {
            let scope = &place.scope;
            let placed = default_value(alloc, names, steps, scope, value, place)?;
            let made = tree_of(alloc, placed)?;
            Ok(present(made))
        }
    }
}

/// The encoding rules of a content, as they are in the scope: an object identifier is read there (X.682 11.5).
///
/// None: there is none for them, or it is not known within these steps. Err: want of memory.
pub fn rules_written<'a>(
    alloc: Global,
    names: &Names<'a>,
    steps: usize,
    scope: &Scope<'a>,
    rules: &'a ASN1Value,
) -> Mem<Option<ASN1Value>>
    ensures { IfOk result (λ made. made ≡ default_written (meaning names.now.definitions.now steps) (shown scope.now) rules.now rules_read) }
{
    let place = rules_read();
    let placed = default_value(alloc, names, steps, scope, rules, &place)?;
    let made = tree_of(alloc, placed)?;
    Ok(made)
}
