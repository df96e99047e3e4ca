//! What a value denotes where that has no parts: numbers, truth values, NULL, texts, bits, octets, items and their like. The parts of a
//! value in braces are not gone into, so that what leads back to itself by two of them takes no more work than its steps.

ghost use Rattle.asn_meaning_heads.specs.Places.{shown_place};
ghost use Rattle.asn_meaning_heads.specs.Scopes.{shown};
ghost use Rattle.asn_meaning_heads.specs.Spans.{further};
ghost use Rattle.asn_meaning_heads.specs.Values.{shown_value};
ghost use Rattle.asn_meaning_heads.specs.Written.{shown_written};
ghost use Rattle.asn_meaning_values.specs.Denotation.{shown_denotation};
ghost use Rattle.asn_meaning_values.specs.Leaves.{leaf};
ghost use Rattle.asn_meaning_values.specs.inner.Following.{next_denoted};
ghost use Rattle.asn_meaning_values.specs.inner.Reading.{shown_read};
ghost use Rattle.asn_meaning.specs.Denotes.{denoted_under, denotes_at, value_denoted, written_denoted};
ghost use Rattle.asn_meaning.specs.Judge.{meaning};
ghost use Rattle.asn_meaning.specs.Meaning.{Meaning};
ghost use Rattle.asn_meaning.specs.Scopes.{Scope as GivenScope};
ghost use Rattle.std.specs.Prelude.{◌≡◌, IfOk, ℕ, ◌+◌};

use crate::denotation::{Denotation, if_any};
use crate::following::{Next, named_next, shaped_by, with_wanted};
use crate::making::opaque_tree;
use crate::own::{is_open, item_in};
use crate::reading::{Read, read_at};
use crate::rows::row;
use asn_meaning_heads::{
    Place, Scope, Span, ValueForm, Written, head_over, kind_of, value_written,
};
use asn_meaning_shapes::Tree;
use asn_memory::{List, Mem, OutOfMemory};
use asn_names_index::Names;
use std::alloc::Global;

/// What a value, read in its own scope, denotes under a type, where that has no parts. Each turn of the loop follows one name of a value;
/// what is denoted at the end is to have the shape of each head on the way.
///
/// Err: want of memory, over further steps also where these are used up.
#[cycle(leaving)]
#[tactic(auto, using(crate::proofs::Leaving::leaf_begin, crate::proofs::Leaving::leaf_not))]
pub fn leaf_over<'a>(
    alloc: Global,
    names: &Names<'a>,
    span: Span,
    steps: usize,
    scope: &Scope<'a>,
    value: ValueForm<'a>,
    place: &Place<'a>,
) -> Mem<Denotation<Tree>>
    ensures { IfOk result (λ d. (m : ℕ) → leaf (shown_denotation d) ≡ leaf ((meaning names.now.definitions.now (steps + further span m)).denotes (shown scope.now) (shown_value value.entry) (shown_place place.now))) }
{
    let mut wanted = List::new(alloc);
    let mut read = read_at(alloc, scope, value, place)?;
    for left in (0..steps).rev() {
        match leaf_next(alloc, names, span, left, &read)? {
            Next::Known(denoted) => {
                let answer = shaped_by(alloc, names, span, wanted.as_slice(), denoted)?;
                return Ok(answer);
            }
            Next::Further(head, next) => {
                wanted = with_wanted(wanted, left, head)?;
                read = next;
            }
        }
    }
    match span {
        Span::Further => Err(OutOfMemory),
        Span::These => Ok(Denotation::Unsure),
    }
}

/// What a value without parts denotes under its type, or which value it names, by the type's head.
#[cycle(leaving)]
#[tactic(auto, using(crate::proofs::Leaving::headless, crate::proofs::Leaving::headed))]
fn leaf_next<'a>(
    alloc: Global,
    names: &Names<'a>,
    span: Span,
    steps: usize,
    read: &Read<'a>,
) -> Mem<Next<'a>>
    ensures { IfOk result (λ next. (m : ℕ) → leaf (next_denoted (meaning names.now.definitions.now (steps + further span m)) next) ≡ leaf (denotes_at names.now.definitions.now (meaning names.now.definitions.now (steps + further span m)) (shown_read read.now).scope (shown_read read.now).value (shown_read read.now).place)) }
{
    match head_over(alloc, names, span, steps, &read.place)? {
        None => Ok(Next::Known(Denotation::Unsure)),
        Some(head) => {
            let next = leaf_under(alloc, names, span, steps, &read.scope, read.value, &head)?;
            Ok(next)
        }
    }
}

/// What a value without parts denotes under a head, or which value it names: under an open type every value is opaque (X.681 14.2).
#[cycle(leaving)]
#[tactic(auto, using(crate::proofs::Leaving::under_open, crate::proofs::Leaving::under_closed, crate::proofs::Leaving::same_leaf, crate::proofs::Denoting::under_open))]
fn leaf_under<'a>(
    alloc: Global,
    names: &Names<'a>,
    span: Span,
    steps: usize,
    scope: &Scope<'a>,
    value: ValueForm<'a>,
    head: &Place<'a>,
) -> Mem<Next<'a>>
    ensures { IfOk result (λ next. (m : ℕ) → leaf (next_denoted (meaning names.now.definitions.now (steps + further span m)) next) ≡ leaf (denoted_under names.now.definitions.now (meaning names.now.definitions.now (steps + further span m)) (shown scope.now) (shown_value value.entry) (shown_place head.now))) }
{
    if is_open(head) {
        return Ok(Next::Known(Denotation::Denoted(opaque_tree())));
    }
    let written = value_written(value);
    let next = leaf_value(alloc, names, span, steps, scope, written, head)?;
    Ok(next)
}

/// Which value is named by a name; what is denoted by an item, a value inside a linked form, or any other value without parts.
#[cycle(leaving)]
#[tactic(auto, using(crate::proofs::Leaving::same_leaf))]
fn leaf_value<'a>(
    alloc: Global,
    names: &Names<'a>,
    span: Span,
    steps: usize,
    scope: &Scope<'a>,
    written: Written<'a>,
    head: &Place<'a>,
) -> Mem<Next<'a>>
    ensures { IfOk result (λ next. (m : ℕ) → leaf (next_denoted (meaning names.now.definitions.now (steps + further span m)) next) ≡ leaf (value_denoted names.now.definitions.now (meaning names.now.definitions.now (steps + further span m)) (shown scope.now) (shown_place head.now) (shown_written written.entry))) }
{
    match written {
        Written::Name { parent, identifier } => {
            let next = named_next(alloc, names, span, steps, scope, parent, identifier, head)?;
            Ok(next)
        }
        Written::Item(name) => {
            let denoted = if_any(item_in(name.as_str(), kind_of(head.ty)));
            Ok(Next::Known(denoted))
        }
        Written::Nested(value) => {
            let value = ValueForm::Written(value);
            let denoted = leaf_over(alloc, names, span, steps, scope, value, head)?;
            Ok(Next::Known(denoted))
        }
        Written::All => leaf_row(alloc, written, head),
        Written::Null => leaf_row(alloc, written, head),
        Written::Truth(_) => leaf_row(alloc, written, head),
        Written::Number(_) => leaf_row(alloc, written, head),
        Written::Real(_) => leaf_row(alloc, written, head),
        Written::Text(_) => leaf_row(alloc, written, head),
        Written::Bits(_) => leaf_row(alloc, written, head),
        Written::BitNames(_) => leaf_row(alloc, written, head),
        Written::Octets(_) => leaf_row(alloc, written, head),
        Written::Arcs(_) => leaf_row(alloc, written, head),
        Written::Braces(_) => leaf_row(alloc, written, head),
        Written::Fields(_) => leaf_row(alloc, written, head),
        Written::Elements(_) => leaf_row(alloc, written, head),
        Written::Alternative { .. } => leaf_row(alloc, written, head),
    }
}

/// What is denoted under a head by a value that is no name, where that has no parts.
///
/// Err: want of memory.
#[tactic(auto, using(crate::proofs::Leaving::same_leaf, crate::proofs::Denoting::by_row, crate::proofs::Leaving::by_parts))]
fn leaf_row<'a>(alloc: Global, written: Written<'a>, head: &Place<'a>) -> Mem<Next<'a>>
    ensures { IfOk result (λ next. (M : Meaning) (scope : GivenScope) → leaf (next_denoted M next) ≡ leaf (written_denoted M scope (shown_written written.entry) (shown_place head.now))) }
{
    match row(alloc, kind_of(head.ty), written)? {
        Some(tree) => Ok(Next::Known(if_any(tree))),
        None => Ok(Next::Known(Denotation::Nothing)),
    }
}
