//! Whether a value is ALL, or stands for it (X.680 51.2).

ghost use Rattle.asn_meaning_heads.specs.Classes.{shown_field_type};
ghost use Rattle.asn_meaning_heads.specs.Kinds.{shown_type};
ghost use Rattle.asn_meaning_heads.specs.Places.{shown_place};
ghost use Rattle.asn_meaning_heads.specs.Scopes.{shown, shown_bound};
ghost use Rattle.asn_meaning_heads.specs.Spans.{further};
ghost use Rattle.asn_meaning_heads.specs.Values.{shown_value};
ghost use Rattle.asn_meaning_values.specs.inner.Asking.{asked, defined_asks, dummy_asks, head_asks, name_asks, path_asks, reference_asks, shown_asks};
ghost use Rattle.asn_meaning_values.specs.inner.Reading.{shown_read};
ghost use Rattle.asn_meaning_shapes.specs.Answers.{known};
ghost use Rattle.asn_meaning.specs.Everything.{field_place, is_all_at};
ghost use Rattle.asn_meaning.specs.Judge.{meaning};
ghost use Rattle.asn_meaning.specs.Scopes.{bound_to};
ghost use Rattle.asn_meaning.specs.Written.{as_written};
ghost use Rattle.std.specs.Option.{option_copied};
ghost use Rattle.std.specs.Prelude.{◌≡◌, IfOk, ℕ, ◌+◌};

use crate::own::own_name;
use crate::reading::{Read, argument_of, defined_read, path_value, read_at, read_outside};
use asn_meaning_heads::{
    Bound, FieldType, Place, Scope, Span, TypeForm, ValueForm, Written, head_over, value_written,
};
use asn_meaning_shapes::Answer;
use asn_memory::{Mem, OutOfMemory, Text};
use asn_names_index::Names;
use std::alloc::Global;

/// What is asked of a name, whether it stands for ALL.
#[derive(Drop)]
pub enum Asks<'a> {
    /// Whether a value that is read elsewhere does.
    Read(Read<'a>),
    /// Nothing more: this is the answer.
    Known(Answer),
}

/// The type of a field; of an open type a character string type without constraints.
fn field_type<'a>(ty: FieldType<'a>) -> TypeForm<'a>
    ensures { shown_type result ≡ (field_place (shown_field_type ty.entry)).ty }
{
    match ty {
        FieldType::Open => TypeForm::Utf8String,
        FieldType::Fixed(ty) => ty,
    }
}

/// What is asked of a dummy: whether its argument stands for ALL.
///
/// Err: want of memory.
#[tactic(auto, using(crate::proofs::Asking::dummy_lost, crate::proofs::Asking::dummy_read))]
fn dummy_asks<'s, 'a>(alloc: Global, scope: &Scope<'a>, bound: Bound<'s, 'a>) -> Mem<Asks<'a>>
    ensures { IfOk result (λ asks. shown_asks asks ≡ dummy_asks (shown scope.now) (shown_bound bound.entry)) }
{
    match argument_of(alloc, scope, bound)? {
        None => Ok(Asks::Known(Answer::No)),
        Some(read) => Ok(Asks::Read(read)),
    }
}

/// What is asked of a name under a head: nothing more where it is an item or named number, else whether a value definition
/// stands for ALL (X.680 14.1).
#[tactic(auto, using(crate::proofs::Asking::own_asks, crate::proofs::Asking::defined_lost, crate::proofs::Asking::defined_found))]
fn defined_asks<'a>(names: &Names<'a>, head: &Place<'a>, name: &str) -> Asks<'a>
    ensures { shown_asks result ≡ defined_asks names.now.definitions.now name.now (shown_place head.now) }
{
    match own_name(head, name) {
        Some(_) => Asks::Known(Answer::No),
        None => match names.value_named(name) {
            None => Asks::Known(Answer::No),
            Some(definition) => Asks::Read(defined_read(definition)),
        },
    }
}

/// What is asked of a name that is no dummy, by the type's head.
///
/// Err: want of memory.
#[tactic(auto, using(crate::proofs::Asking::headless, crate::proofs::Asking::headed))]
fn head_asks<'a>(
    alloc: Global,
    names: &Names<'a>,
    span: Span,
    steps: usize,
    place: &Place<'a>,
    name: &str,
) -> Mem<Asks<'a>>
    ensures { IfOk result (λ asks. (m : ℕ) → shown_asks asks ≡ head_asks names.now.definitions.now (meaning names.now.definitions.now (steps + further span m)) (shown_place place.now) name.now) }
{
    match head_over(alloc, names, span, steps, place)? {
        None => Ok(Asks::Known(Answer::Unknown)),
        Some(head) => Ok(defined_asks(names, &head, name)),
    }
}

/// What is asked of a plain name: a dummy, else as `head_asks`.
///
/// Err: want of memory.
#[tactic(auto, using(crate::proofs::Asking::name_bound, crate::proofs::Asking::name_free))]
fn name_asks<'a>(
    alloc: Global,
    names: &Names<'a>,
    span: Span,
    steps: usize,
    scope: &Scope<'a>,
    place: &Place<'a>,
    name: &str,
) -> Mem<Asks<'a>>
    ensures { IfOk result (λ asks. (m : ℕ) → shown_asks asks ≡ name_asks names.now.definitions.now (meaning names.now.definitions.now (steps + further span m)) (shown scope.now) (shown_place place.now) name.now (bound_to (shown scope.now) name.now)) }
{
    match scope.bound_to(name) {
        Some(bound) => {
            let asks = dummy_asks(alloc, scope, bound)?;
            Ok(asks)
        }
        None => {
            let asks = head_asks(alloc, names, span, steps, place, name)?;
            Ok(asks)
        }
    }
}

/// What is asked of `o.&f`: whether the value that the object gives stands for ALL.
///
/// Err: want of memory.
#[tactic(auto, using(crate::proofs::Asking::path_lost, crate::proofs::Asking::path_found))]
fn path_asks<'a>(
    alloc: Global,
    names: &Names<'a>,
    scope: &Scope<'a>,
    object: &str,
    name: &str,
) -> Mem<Asks<'a>>
    ensures { IfOk result (λ asks. shown_asks asks ≡ path_asks names.now.definitions.now (shown scope.now) object.now name.now) }
{
    match path_value(alloc, names, scope, object, name)? {
        None => Ok(Asks::Known(Answer::No)),
        Some(path) => {
            let read = read_outside(path.value, field_type(path.ty));
            Ok(Asks::Read(read))
        }
    }
}

/// What is asked of a name, alone or behind the name of an object.
///
/// Err: want of memory.
fn reference_asks<'a>(
    alloc: Global,
    names: &Names<'a>,
    span: Span,
    steps: usize,
    scope: &Scope<'a>,
    place: &Place<'a>,
    parent: Option<&'a Text>,
    name: &'a Text,
) -> Mem<Asks<'a>>
    ensures { IfOk result (λ asks. (m : ℕ) → shown_asks asks ≡ reference_asks names.now.definitions.now (meaning names.now.definitions.now (steps + further span m)) (shown scope.now) (shown_place place.now) (option_copied parent.entry) name.now) }
{
    match parent {
        None => {
            let asks = name_asks(alloc, names, span, steps, scope, place, name.as_str())?;
            Ok(asks)
        }
        Some(object) => {
            let asks = path_asks(alloc, names, scope, object.as_str(), name.as_str())?;
            Ok(asks)
        }
    }
}

/// What is asked of a value: of ALL nothing more, nor of a value that can't stand for it; of a name, alone or behind the name of
/// an object, and of a value inside a linked form, whether another value is ALL.
///
/// Err: want of memory.
#[tactic(auto, using(crate::proofs::Asking::of_reference))]
fn value_asks<'a>(
    alloc: Global,
    names: &Names<'a>,
    span: Span,
    steps: usize,
    read: &Read<'a>,
) -> Mem<Asks<'a>>
    ensures { IfOk result (λ asks. (m : ℕ) → asked (meaning names.now.definitions.now (steps + further span m)) (shown_asks asks) ≡ is_all_at names.now.definitions.now (meaning names.now.definitions.now (steps + further span m)) (shown_read read.now).scope (shown_read read.now).place (as_written (shown_read read.now).value)) }
{
    let scope = &read.scope;
    let place = &read.place;
    match value_written(read.value) {
        Written::All => Ok(Asks::Known(Answer::Yes)),
        Written::Name { parent, identifier } => {
            let asks = reference_asks(alloc, names, span, steps, scope, place, parent, identifier)?;
            Ok(asks)
        }
        Written::Nested(value) => {
            let read = read_at(alloc, scope, ValueForm::Written(value), place)?;
            Ok(Asks::Read(read))
        }
        Written::Null => Ok(Asks::Known(Answer::No)),
        Written::Truth(_) => Ok(Asks::Known(Answer::No)),
        Written::Number(_) => Ok(Asks::Known(Answer::No)),
        Written::Real(_) => Ok(Asks::Known(Answer::No)),
        Written::Text(_) => Ok(Asks::Known(Answer::No)),
        Written::Bits(_) => Ok(Asks::Known(Answer::No)),
        Written::BitNames(_) => Ok(Asks::Known(Answer::No)),
        Written::Octets(_) => Ok(Asks::Known(Answer::No)),
        Written::Arcs(_) => Ok(Asks::Known(Answer::No)),
        Written::Item(_) => Ok(Asks::Known(Answer::No)),
        Written::Braces(_) => Ok(Asks::Known(Answer::No)),
        Written::Fields(_) => Ok(Asks::Known(Answer::No)),
        Written::Elements(_) => Ok(Asks::Known(Answer::No)),
        Written::Alternative { .. } => Ok(Asks::Known(Answer::No)),
    }
}

/// Whether a value, read in its own scope, is ALL under a type within a number of steps, and within more, or a dummy, a name
/// or a path that stands for it (X.680 51.2). Each turn of the loop follows one of these.
///
/// Unknown: a name leads nowhere, however many steps there are; or, over these steps alone, they are used up. Err: want of memory, over
/// further steps also where these are used up.
#[tactic(auto, using(crate::proofs::Asking::all_begin, crate::proofs::Asking::all_not))]
pub fn is_all_over<'a>(
    alloc: Global,
    names: &Names<'a>,
    span: Span,
    steps: usize,
    scope: &Scope<'a>,
    value: ValueForm<'a>,
    place: &Place<'a>,
) -> Mem<Answer>
    ensures { IfOk result (λ answer. (m : ℕ) → known answer ≡ (meaning names.now.definitions.now (steps + further span m)).is_all (shown scope.now) (shown_value value.entry) (shown_place place.now)) }
{
    let mut read = read_at(alloc, scope, value, place)?;
    for left in (0..steps).rev() {
        match value_asks(alloc, names, span, left, &read)? {
            Asks::Known(answer) => return Ok(answer),
            Asks::Read(next) => read = next,
        }
    }
    match span {
        Span::Further => Err(OutOfMemory),
        Span::These => Ok(Answer::Unknown),
    }
}
