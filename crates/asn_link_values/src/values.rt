//! The value that takes the place of another: a literal, or the name of an item.

ghost use Rattle.asn_meaning_heads.specs.Kinds.{shown_kind};
ghost use Rattle.asn_meaning_heads.specs.Places.{shown_place};
ghost use Rattle.asn_meaning_heads.specs.Scopes.{shown};
ghost use Rattle.asn_meaning_heads.specs.Written.{shown_written};
ghost use Rattle.asn_link_instance.specs.Instance.{is_empty};
ghost use Rattle.asn_link_instance.specs.Literals.{default_under, default_written, has_own_names, is_item_name, is_literal_under, is_unbound, single_written, value_written};
ghost use Rattle.asn_link_instance.specs.Subjects.{ends_read, values_read};
ghost use Rattle.asn_meaning.specs.Answers.{once};
ghost use Rattle.asn_meaning.specs.Judge.{meaning};
ghost use Rattle.asn_meaning.specs.Written.{as_written};
ghost use Rattle.asn_link_values.specs.Subjects.{shown_subject};
ghost use Rattle.asn_link_values.specs.Values.{is_outside, shown_placed};
ghost use Rattle.std.specs.Option.{option_map};
ghost use Rattle.std.specs.Prelude.{◌≡◌, ◌||◌, IfOk, None};

use crate::braces::has_own_names;
use crate::denoted::{denoted_written, tree_written};
use crate::literals::{is_dummy, is_item_name, is_literal_under, is_own_head};
use crate::names::are_free;
use crate::subjects::{Subject, ends_read, values_read};
use asn_meaning_heads::{Kind, Place, Scope, ValueForm, Written, as_written, head_within, kind_of};
use asn_meaning_shapes::Answer;
use asn_meaning_values::is_all_within;
use asn_memory::{List, Mem, Text};
use asn_names_index::Names;
use asn_names_references::value_references;
use asn_tree::{ASN1Value, ObjectIdentifierArc, ParameterizationArgument, RealValue};
use std::alloc::Global;

/// A value that takes the place of another: the value itself, or one that no tree holds.
#[derive(Drop)]
pub enum PlacedValue<'a> {
    Same(&'a ASN1Value),
    All,
    Null,
    Truth(bool),
    Number(i128),
    Real(RealValue),
    Bits(List<bool>),
    Octets(List<u8>),
    /// The text of a character string or a time.
    Text(Text),
    /// The arcs of an object identifier.
    Arcs(List<ObjectIdentifierArc>),
    /// The name of an item.
    Item(&'a Text),
}

/// Whether there are no dummies.
fn has_no_dummy(dummies: &[ParameterizationArgument]) -> bool
    ensures { result ≡ is_empty dummies.now }
{
    match dummies {
        [] => true,
        [_, ..] => false,
    }
}

/// Whether a scope has no dummies.
#[tactic(auto, using(crate::proofs::Outside::empty_outside, crate::proofs::Outside::entered_outside))]
pub fn is_outside(scope: &Scope<'_>) -> bool
    ensures { result ≡ is_outside (shown scope.now) }
{
    match scope {
        Scope::Empty => true,
        Scope::Entered { dummies, .. } => has_no_dummy(dummies),
    }
}

/// Whether a value stays that is read under a head: a literal, arcs under OBJECT IDENTIFIER, or the name of an item of the head, which is no
/// dummy.
fn stays_under(scope: &Scope<'_>, kind: Kind<'_>, written: Written<'_>) -> bool
    ensures { result ≡ (is_literal_under (shown_kind kind.entry) (shown_written written.entry) || is_item_name (shown scope.now) (shown_kind kind.entry) (shown_written written.entry)) }
{
    is_literal_under(kind, written) || is_item_name(scope, kind, written)
}

/// What takes the place of a value, as a literal or an item's name.
///
/// None and Err: as `single_value`.
fn value_written<'a>(
    alloc: Global,
    names: &Names<'a>,
    steps: usize,
    scope: &Scope<'a>,
    value: &'a ASN1Value,
    place: &Place<'a>,
) -> Mem<Option<PlacedValue<'a>>>
    ensures { IfOk result (λ found. option_map shown_placed found ≡ value_written (meaning names.now.definitions.now steps) (shown scope.now) value.now (shown_place place.now)) }
{
    let kind = kind_of(place.ty);
    if !is_own_head(kind) {
        return Ok(None);
    }
    if stays_under(scope, kind, as_written(value)) {
        return Ok(Some(PlacedValue::Same(value)));
    }
    let found = tree_written(alloc, names, steps, scope, value, place)?;
    Ok(found)
}

/// What takes the place of a single value that is read under a type; one that stands for ALL becomes ALL.
///
/// None and Err: as `single_value`.
fn single_written<'a>(
    alloc: Global,
    names: &Names<'a>,
    steps: usize,
    scope: &Scope<'a>,
    value: &'a ASN1Value,
    place: &Place<'a>,
) -> Mem<Option<PlacedValue<'a>>>
    ensures { IfOk result (λ found. option_map shown_placed found ≡ single_written (meaning names.now.definitions.now steps) (shown scope.now) value.now (shown_place place.now)) }
{
    match is_all_within(alloc, names, steps, scope, ValueForm::Written(value), place)? {
        Answer::Yes => Ok(Some(PlacedValue::All)),
        Answer::No => {
            let found = value_written(alloc, names, steps, scope, value, place)?;
            Ok(found)
        }
        Answer::Unknown => {
            let found = value_written(alloc, names, steps, scope, value, place)?;
            Ok(found)
        }
    }
}

/// What takes the place of a single value on a subject; one that stands for ALL becomes ALL (X.680 51.2).
///
/// None: there is neither a literal nor an item for it, or it is not known within these steps. Err: want of memory.
pub fn single_value<'a>(
    alloc: Global,
    names: &Names<'a>,
    steps: usize,
    scope: &Scope<'a>,
    value: &'a ASN1Value,
    subject: Subject<'_, 'a>,
) -> Mem<Option<PlacedValue<'a>>>
    ensures { IfOk result (λ found. option_map shown_placed found ≡ single_written (meaning names.now.definitions.now steps) (shown scope.now) value.now (values_read (shown_subject subject.entry))) }
{
    let place = values_read(alloc, subject)?;
    let found = single_written(alloc, names, steps, scope, value, &place)?;
    Ok(found)
}

/// What takes the place of an end of a range on a subject (X.680 51.4).
///
/// None and Err: as `single_value`.
pub fn end_value<'a>(
    alloc: Global,
    names: &Names<'a>,
    steps: usize,
    scope: &Scope<'a>,
    value: &'a ASN1Value,
    subject: Subject<'_, 'a>,
) -> Mem<Option<PlacedValue<'a>>>
    ensures { IfOk result (λ found. option_map shown_placed found ≡ value_written (meaning names.now.definitions.now steps) (shown scope.now) value.now (ends_read (shown_subject subject.entry))) }
{
    let place = ends_read(subject);
    let found = value_written(alloc, names, steps, scope, value, &place)?;
    Ok(found)
}

/// Whether no name in a value, at any depth, is one of the scope's dummies.
///
/// Err: want of memory.
fn is_unbound(alloc: Global, scope: &Scope<'_>, value: &ASN1Value) -> Mem<bool>
    ensures { IfOk result (λ unbound. unbound ≡ is_unbound (shown scope.now) value.now) }
{
    let names = value_references(alloc, value)?;
    Ok(are_free(scope, names.as_slice()))
}

/// Whether a default stays under bindings, by the head of the member's type: no name in it is a dummy, or its names are no values.
///
/// Err: want of memory.
fn default_stays(alloc: Global, scope: &Scope<'_>, value: &ASN1Value, kind: Kind<'_>) -> Mem<bool>
    ensures { IfOk result (λ stays. stays ≡ (is_unbound (shown scope.now) value.now || has_own_names (shown_kind kind.entry) (as_written value.now))) }
{
    if is_unbound(alloc, scope, value)? {
        return Ok(true);
    }
    let own = has_own_names(alloc, kind, as_written(value))?;
    Ok(own)
}

/// What takes the place of a default under bindings, by the head of the member's type.
///
/// None and Err: as `single_value`.
fn default_under<'a>(
    alloc: Global,
    names: &Names<'a>,
    steps: usize,
    scope: &Scope<'a>,
    value: &'a ASN1Value,
    head: &Place<'a>,
) -> Mem<Option<PlacedValue<'a>>>
    ensures { IfOk result (λ found. option_map shown_placed found ≡ default_under (meaning names.now.definitions.now steps) (shown scope.now) value.now (shown_place head.now)) }
{
    if default_stays(alloc, scope, value, kind_of(head.ty))? {
        return Ok(Some(PlacedValue::Same(value)));
    }
    if is_dummy(scope, as_written(value)) {
        let found = denoted_written(alloc, names, steps, scope, value, head)?;
        return Ok(found);
    }
    Ok(None)
}

/// What takes the place of a default under bindings.
///
/// None and Err: as `single_value`.
fn default_bound<'a>(
    alloc: Global,
    names: &Names<'a>,
    steps: usize,
    scope: &Scope<'a>,
    value: &'a ASN1Value,
    place: &Place<'a>,
) -> Mem<Option<PlacedValue<'a>>>
    ensures { IfOk result (λ found. option_map shown_placed found ≡ once None ((meaning names.now.definitions.now steps).head (shown_place place.now)) (default_under (meaning names.now.definitions.now steps) (shown scope.now) value.now)) }
{
    match head_within(alloc, names, steps, place)? {
        None => Ok(None),
        Some(head) => {
            let found = default_under(alloc, names, steps, scope, value, &head)?;
            Ok(found)
        }
    }
}

/// What takes the place of a member's default, read under the member's type: in a scope without dummies it stays (X.680 25.1).
///
/// None and Err: as `single_value`.
#[tactic(auto, using(crate::proofs::Outside::default_outside, crate::proofs::Outside::default_inside))]
pub fn default_value<'a>(
    alloc: Global,
    names: &Names<'a>,
    steps: usize,
    scope: &Scope<'a>,
    value: &'a ASN1Value,
    place: &Place<'a>,
) -> Mem<Option<PlacedValue<'a>>>
    ensures { IfOk result (λ found. option_map shown_placed found ≡ default_written (meaning names.now.definitions.now steps) (shown scope.now) value.now (shown_place place.now)) }
{
    if is_outside(scope) {
        return Ok(Some(PlacedValue::Same(value)));
    }
    let found = default_bound(alloc, names, steps, scope, value, place)?;
    Ok(found)
}
