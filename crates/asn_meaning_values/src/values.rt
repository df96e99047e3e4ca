//! What a value denotes under a type, within a number of steps (X.680 14.1, 25.18, 26.3, 27.7, 28.3, 29.11; X.681 14, 15;
//! X.683 8.3).

ghost use Rattle.asn_meaning_heads.specs.Kinds.{shown_kind};
ghost use Rattle.asn_meaning_heads.specs.Places.{shown_place};
ghost use Rattle.asn_meaning_heads.specs.Scopes.{shown};
ghost use Rattle.asn_meaning_heads.specs.Values.{shown_value};
ghost use Rattle.asn_meaning_heads.specs.Written.{shown_written};
ghost use Rattle.asn_meaning_values.specs.Braces.{shown_named_values, shown_values};
ghost use Rattle.asn_meaning_values.specs.Denotation.{shown_denotation};
ghost use Rattle.asn_meaning_values.specs.inner.Gathering.{shown_elements, shown_parts};
ghost use Rattle.asn_meaning_values.specs.inner.Following.{next_denoted};
ghost use Rattle.asn_meaning_values.specs.inner.Reading.{shown_read};
ghost use Rattle.asn_meaning_values.specs.inner.Values.{alternative_written, made_elements, made_parts, shown_chosen};
ghost use Rattle.asn_meaning.specs.Denotes.{choice_row, denoted_under, denotes_at, fields_denoted, list_row, member_denoted, parts_row, struct_denoted, struct_row, trees_denoted, value_denoted, written_denoted};
ghost use Rattle.asn_meaning.specs.Judge.{meaning};
ghost use Rattle.asn_meaning.specs.Members.{member_named};
ghost use Rattle.asn_meaning_shapes.specs.Members.{shown_members};
ghost use Rattle.asn_tree.specs.declared.types.SequenceOrSet.{out-SequenceOrSet};
ghost use Rattle.std.specs.Option.{option_map};
ghost use Rattle.std.specs.Prelude.{◌≡◌, IfOk, ℕ, ◌+◌};

use crate::braces::{NamedValue, elements_written, fields_written};
use crate::denotation::{Denotation, if_any};
use crate::following::{Next, named_next, shaped_by, with_wanted};
use crate::gathering::{alternative_of, elements_of, struct_of, with_element, with_part};
use crate::making::opaque_tree;
use crate::own::{is_open, item_in};
use crate::reading::{Read, read_at};
use crate::rows::row;
use crate::structs::may_stand;
use asn_meaning_heads::{
    Kind, Place, Scope, Span, TypeForm, ValueForm, Written, head, kind_of, option_named,
    value_written,
};
use asn_meaning_shapes::{Field, Member, Tree, member_named, struct_members};
use asn_memory::{List, Mem, OutOfMemory, Text};
use asn_names_index::Names;
use asn_tree::{ASN1Type, ASN1Value, ChoiceOption, SequenceOrSet};
use std::alloc::Global;

/// An alternative as it is written: its name, and its value.
#[derive(Clone, Copy)]
pub struct Chosen<'a> {
    pub name: &'a Text,
    pub value: &'a ASN1Value,
}

/// The alternative that is written.
fn alternative_written<'a>(written: Written<'a>) -> Option<Chosen<'a>>
    ensures { option_map shown_chosen result ≡ alternative_written (shown_written written.entry) }
{
    match written {
        Written::Alternative { name, value } => Some(Chosen { name, value }),
        Written::All => None,
        Written::Null => None,
        Written::Truth(_) => None,
        Written::Number(_) => None,
        Written::Real(_) => None,
        Written::Text(_) => None,
        Written::Bits(_) => None,
        Written::BitNames(_) => None,
        Written::Octets(_) => None,
        Written::Arcs(_) => None,
        Written::Item(_) => None,
        Written::Name { .. } => None,
        Written::Braces(_) => None,
        Written::Fields(_) => None,
        Written::Elements(_) => None,
        Written::Nested(_) => None,
    }
}

/// What a value, read in its own scope, denotes under a type within a number of steps, and within more. Each turn of the loop
/// follows one name of a value; what is denoted at the end is to have the shape of each head on the way.
///
/// Unsure: a name leads nowhere, however many steps there are. Err: want of memory, also where the steps are used up.
#[cycle(denoting)]
#[tactic(auto, using(crate::proofs::Chaining::follow_begin))]
pub fn denotes<'a>(
    alloc: Global,
    names: &Names<'a>,
    steps: usize,
    scope: &Scope<'a>,
    value: ValueForm<'a>,
    place: &Place<'a>,
) -> Mem<Denotation<Tree>>
    ensures { IfOk result (λ d. (m : ℕ) → shown_denotation d ≡ (meaning names.now.definitions.now (steps + m)).denotes (shown scope.now) (shown_value value.entry) (shown_place place.now)) }
{
    let mut wanted = List::new(alloc);
    let mut read = read_at(alloc, scope, value, place)?;
    for left in (0..steps).rev() {
        match next_of(alloc, names, left, &read)? {
            Next::Known(denoted) => {
                let answer = shaped_by(alloc, names, Span::Further, wanted.as_slice(), denoted)?;
                return Ok(answer);
            }
            Next::Further(head, next) => {
                wanted = with_wanted(wanted, left, head)?;
                read = next;
            }
        }
    }
    Err(OutOfMemory)
}

/// What a value denotes under its type, or which value it names, by the type's head.
#[cycle(denoting)]
#[tactic(auto, using(crate::proofs::Denoting::headless, crate::proofs::Denoting::headed))]
fn next_of<'a>(alloc: Global, names: &Names<'a>, steps: usize, read: &Read<'a>) -> Mem<Next<'a>>
    ensures { IfOk result (λ next. (m : ℕ) → next_denoted (meaning names.now.definitions.now (steps + m)) next ≡ denotes_at names.now.definitions.now (meaning names.now.definitions.now (steps + m)) (shown_read read.now).scope (shown_read read.now).value (shown_read read.now).place) }
{
    match head(alloc, names, steps, &read.place)? {
        None => Ok(Next::Known(Denotation::Unsure)),
        Some(head) => {
            let next = next_under(alloc, names, steps, &read.scope, read.value, &head)?;
            Ok(next)
        }
    }
}

/// What a value denotes under a head, or which value it names: under an open type every value is opaque, a dummy, a name and
/// a path too (X.681 14.2).
#[cycle(denoting)]
#[tactic(auto, using(crate::proofs::Denoting::under_open, crate::proofs::Denoting::under_closed))]
fn next_under<'a>(
    alloc: Global,
    names: &Names<'a>,
    steps: usize,
    scope: &Scope<'a>,
    value: ValueForm<'a>,
    head: &Place<'a>,
) -> Mem<Next<'a>>
    ensures { IfOk result (λ next. (m : ℕ) → next_denoted (meaning names.now.definitions.now (steps + m)) next ≡ denoted_under names.now.definitions.now (meaning names.now.definitions.now (steps + m)) (shown scope.now) (shown_value value.entry) (shown_place head.now)) }
{
    if is_open(head) {
        return Ok(Next::Known(Denotation::Denoted(opaque_tree())));
    }
    let written = value_written(value);
    let next = value_next(alloc, names, steps, scope, written, head)?;
    Ok(next)
}

/// Which value is named by a name; what is denoted by an item, a value inside a linked form, or any other value by its row.
#[cycle(denoting)]
fn value_next<'a>(
    alloc: Global,
    names: &Names<'a>,
    steps: usize,
    scope: &Scope<'a>,
    written: Written<'a>,
    head: &Place<'a>,
) -> Mem<Next<'a>>
    ensures { IfOk result (λ next. (m : ℕ) → next_denoted (meaning names.now.definitions.now (steps + m)) next ≡ value_denoted names.now.definitions.now (meaning names.now.definitions.now (steps + m)) (shown scope.now) (shown_place head.now) (shown_written written.entry)) }
{
    match written {
        Written::Name { parent, identifier } => {
            let next = named_next(
                alloc,
                names,
                Span::Further,
                steps,
                scope,
                parent,
                identifier,
                head,
            )?;
            Ok(next)
        }
        Written::Item(name) => {
            let denoted = if_any(item_in(name.as_str(), kind_of(head.ty)));
            Ok(Next::Known(denoted))
        }
        Written::Nested(value) => {
            let value = ValueForm::Written(value);
            let denoted = denotes(alloc, names, steps, scope, value, head)?;
            Ok(Next::Known(denoted))
        }
        Written::All => row_next(alloc, names, steps, scope, written, head),
        Written::Null => row_next(alloc, names, steps, scope, written, head),
        Written::Truth(_) => row_next(alloc, names, steps, scope, written, head),
        Written::Number(_) => row_next(alloc, names, steps, scope, written, head),
        Written::Real(_) => row_next(alloc, names, steps, scope, written, head),
        Written::Text(_) => row_next(alloc, names, steps, scope, written, head),
        Written::Bits(_) => row_next(alloc, names, steps, scope, written, head),
        Written::BitNames(_) => row_next(alloc, names, steps, scope, written, head),
        Written::Octets(_) => row_next(alloc, names, steps, scope, written, head),
        Written::Arcs(_) => row_next(alloc, names, steps, scope, written, head),
        Written::Braces(_) => row_next(alloc, names, steps, scope, written, head),
        Written::Fields(_) => row_next(alloc, names, steps, scope, written, head),
        Written::Elements(_) => row_next(alloc, names, steps, scope, written, head),
        Written::Alternative { .. } => row_next(alloc, names, steps, scope, written, head),
    }
}

/// What is denoted by a value that is no name, under a head.
#[cycle(denoting)]
fn row_next<'a>(
    alloc: Global,
    names: &Names<'a>,
    steps: usize,
    scope: &Scope<'a>,
    written: Written<'a>,
    head: &Place<'a>,
) -> Mem<Next<'a>>
    ensures { IfOk result (λ next. (m : ℕ) → next_denoted (meaning names.now.definitions.now (steps + m)) next ≡ written_denoted (meaning names.now.definitions.now (steps + m)) (shown scope.now) (shown_written written.entry) (shown_place head.now)) }
{
    let denoted = written_denoted(alloc, names, steps, scope, written, head)?;
    Ok(Next::Known(denoted))
}

/// What is denoted by a value that is no name, under a head.
#[cycle(denoting)]
#[tactic(auto, using(crate::proofs::Denoting::by_row, crate::proofs::Denoting::by_parts))]
fn written_denoted<'a>(
    alloc: Global,
    names: &Names<'a>,
    steps: usize,
    scope: &Scope<'a>,
    written: Written<'a>,
    head: &Place<'a>,
) -> Mem<Denotation<Tree>>
    ensures { IfOk result (λ d. (m : ℕ) → shown_denotation d ≡ written_denoted (meaning names.now.definitions.now (steps + m)) (shown scope.now) (shown_written written.entry) (shown_place head.now)) }
{
    let kind = kind_of(head.ty);
    match row(alloc, kind, written)? {
        Some(tree) => Ok(if_any(tree)),
        None => {
            let inside = &head.scope;
            let denoted = parts_row(alloc, names, steps, scope, written, inside, kind)?;
            Ok(denoted)
        }
    }
}

/// What is denoted by a value whose parts are values, by the kind of its head, which is read in `inside`.
#[cycle(denoting)]
fn parts_row<'a>(
    alloc: Global,
    names: &Names<'a>,
    steps: usize,
    scope: &Scope<'a>,
    written: Written<'a>,
    inside: &Scope<'a>,
    kind: Kind<'a>,
) -> Mem<Denotation<Tree>>
    ensures { IfOk result (λ d. (m : ℕ) → shown_denotation d ≡ parts_row (meaning names.now.definitions.now (steps + m)) (shown scope.now) (shown_written written.entry) (shown inside.now) (shown_kind kind.entry)) }
{
    match kind {
        Kind::Struct(layer) => {
            let denoted = struct_row(alloc, names, steps, scope, written, inside, layer)?;
            Ok(denoted)
        }
        Kind::List(ty) => {
            let denoted = list_row(alloc, names, steps, scope, written, inside, ty)?;
            Ok(denoted)
        }
        Kind::Choice(options) => {
            let options = options.as_slice();
            let denoted = choice_row(alloc, names, steps, scope, written, inside, options)?;
            Ok(denoted)
        }
        Kind::Null => Ok(Denotation::Unsure),
        Kind::Boolean => Ok(Denotation::Unsure),
        Kind::Integer(_) => Ok(Denotation::Unsure),
        Kind::Real => Ok(Denotation::Unsure),
        Kind::BitString(_) => Ok(Denotation::Unsure),
        Kind::OctetString => Ok(Denotation::Unsure),
        Kind::CharacterString(_) => Ok(Denotation::Unsure),
        Kind::Time => Ok(Denotation::Unsure),
        Kind::Enumerated(_) => Ok(Denotation::Unsure),
        Kind::ObjectIdentifier => Ok(Denotation::Unsure),
        Kind::Opaque => Ok(Denotation::Unsure),
        Kind::Field(_) => Ok(Denotation::Unsure),
        Kind::Reference(_) => Ok(Denotation::Unsure),
        Kind::Selection(_) => Ok(Denotation::Unsure),
    }
}

/// What is denoted under a SEQUENCE or SET, by the written members alone (X.680 25.18, 27.7).
#[cycle(denoting)]
#[tactic(auto, using(crate::proofs::Denoting::no_fields, crate::proofs::Denoting::members_unknown, crate::proofs::Denoting::members_known))]
fn struct_row<'a>(
    alloc: Global,
    names: &Names<'a>,
    steps: usize,
    scope: &Scope<'a>,
    written: Written<'a>,
    inside: &Scope<'a>,
    layer: &'a SequenceOrSet,
) -> Mem<Denotation<Tree>>
    ensures { IfOk result (λ d. (m : ℕ) → shown_denotation d ≡ struct_row (meaning names.now.definitions.now (steps + m)) (shown scope.now) ((meaning names.now.definitions.now (steps + m)).members (shown inside.now) (out-SequenceOrSet layer.now)) (shown_written written.entry)) }
{
    match fields_written(alloc, written)? {
        None => Ok(Denotation::Nothing),
        Some(fields) => match struct_members(alloc, names, steps, inside, layer)? {
            None => Ok(Denotation::Unsure),
            Some(members) => {
                let fields = fields.as_slice();
                let members = members.as_slice();
                let denoted = struct_denoted(alloc, names, steps, scope, fields, members)?;
                Ok(denoted)
            }
        },
    }
}

/// The struct of what the fields denote, where they may stand for the members.
#[cycle(denoting)]
#[tactic(auto, using(crate::proofs::Denoting::may_not_stand, crate::proofs::Denoting::stands))]
fn struct_denoted<'a>(
    alloc: Global,
    names: &Names<'a>,
    steps: usize,
    scope: &Scope<'a>,
    fields: &[NamedValue<'a>],
    members: &[Member<'a>],
) -> Mem<Denotation<Tree>>
    ensures { IfOk result (λ d. (m : ℕ) → shown_denotation d ≡ struct_denoted (meaning names.now.definitions.now (steps + m)) (shown scope.now) (shown_named_values fields.now) (shown_members members.now)) }
{
    if !may_stand(fields, members) {
        return Ok(Denotation::Nothing);
    }
    let parts = fields_denoted(alloc, names, steps, scope, members, fields)?;
    Ok(struct_of(parts))
}

/// What the fields denote, each under its member's type.
#[cycle(denoting)]
#[tactic(auto, using(crate::proofs::Denoting::fields_begin, crate::proofs::Denoting::fields_next, crate::proofs::Denoting::fields_done))]
fn fields_denoted<'a>(
    alloc: Global,
    names: &Names<'a>,
    steps: usize,
    scope: &Scope<'a>,
    members: &[Member<'a>],
    fields: &[NamedValue<'a>],
) -> Mem<Denotation<List<Field>>>
    ensures { IfOk result (λ d. (m : ℕ) → made_parts (shown_parts d) ≡ fields_denoted (meaning names.now.definitions.now (steps + m)) (shown scope.now) (shown_members members.now) (shown_named_values fields.now)) }
{
    let mut parts = Denotation::Denoted(List::new(alloc));
    for field in fields {
        let part = field_denoted(alloc, names, steps, scope, members, field)?;
        parts = with_part(alloc, parts, field.name, part)?;
    }
    Ok(parts)
}

/// What a field denotes under the type of the member of its name.
#[cycle(denoting)]
#[tactic(auto, using(crate::proofs::Denoting::memberless, crate::proofs::Denoting::of_member))]
fn field_denoted<'a>(
    alloc: Global,
    names: &Names<'a>,
    steps: usize,
    scope: &Scope<'a>,
    members: &[Member<'a>],
    field: &NamedValue<'a>,
) -> Mem<Denotation<Tree>>
    ensures { IfOk result (λ d. (m : ℕ) → shown_denotation d ≡ member_denoted (meaning names.now.definitions.now (steps + m)) (shown scope.now) (member_named (shown_members members.now) field.now.name.now) (shown_value field.now.value)) }
{
    match member_named(members, field.name.as_str()) {
        None => Ok(Denotation::Nothing),
        Some(member) => {
            let place = member.place(alloc)?;
            let denoted = denotes(alloc, names, steps, scope, field.value, &place)?;
            Ok(denoted)
        }
    }
}

/// What is denoted under a SEQUENCE OF or SET OF (X.680 26.3, 28.3).
#[cycle(denoting)]
#[tactic(auto, using(crate::proofs::Denoting::no_elements, crate::proofs::Denoting::some_elements))]
fn list_row<'a>(
    alloc: Global,
    names: &Names<'a>,
    steps: usize,
    scope: &Scope<'a>,
    written: Written<'a>,
    inside: &Scope<'a>,
    ty: &'a ASN1Type,
) -> Mem<Denotation<Tree>>
    ensures { IfOk result (λ d. (m : ℕ) → shown_denotation d ≡ list_row (meaning names.now.definitions.now (steps + m)) (shown scope.now) (record { scope = shown inside.now; ty = ty.now }) (shown_written written.entry)) }
{
    match elements_written(alloc, written)? {
        None => Ok(Denotation::Nothing),
        Some(values) => {
            let inside = inside.copy(alloc)?;
            let place = Place {
                scope: inside,
                ty: TypeForm::Written(ty),
            };
            let values = values.as_slice();
            let elements = trees_denoted(alloc, names, steps, scope, &place, values)?;
            Ok(elements_of(elements))
        }
    }
}

/// What the values denote, each under the type.
#[cycle(denoting)]
#[tactic(auto, using(crate::proofs::Denoting::elements_begin, crate::proofs::Denoting::elements_next, crate::proofs::Denoting::elements_done))]
fn trees_denoted<'a>(
    alloc: Global,
    names: &Names<'a>,
    steps: usize,
    scope: &Scope<'a>,
    place: &Place<'a>,
    values: &[ValueForm<'a>],
) -> Mem<Denotation<List<Tree>>>
    ensures { IfOk result (λ d. (m : ℕ) → made_elements (shown_elements d) ≡ trees_denoted (meaning names.now.definitions.now (steps + m)) (shown scope.now) (shown_place place.now) (shown_values values.now)) }
{
    let mut elements = Denotation::Denoted(List::new(alloc));
    for value in values {
        let element = denotes(alloc, names, steps, scope, *value, place)?;
        elements = with_element(elements, element)?;
    }
    Ok(elements)
}

/// What is denoted under a CHOICE whose options are read in `inside` (X.680 29.11).
#[cycle(denoting)]
#[tactic(auto, using(crate::proofs::Denoting::no_alternative, crate::proofs::Denoting::no_option, crate::proofs::Denoting::of_option))]
fn choice_row<'a>(
    alloc: Global,
    names: &Names<'a>,
    steps: usize,
    scope: &Scope<'a>,
    written: Written<'a>,
    inside: &Scope<'a>,
    options: &'a [ChoiceOption],
) -> Mem<Denotation<Tree>>
    ensures { IfOk result (λ d. (m : ℕ) → shown_denotation d ≡ choice_row (meaning names.now.definitions.now (steps + m)) (shown scope.now) (shown inside.now) options.now (shown_written written.entry)) }
{
    match alternative_written(written) {
        None => Ok(Denotation::Nothing),
        Some(chosen) => match option_named(options, chosen.name.as_str()) {
            None => Ok(Denotation::Nothing),
            Some(option) => {
                let inside = inside.copy(alloc)?;
                let place = Place {
                    scope: inside,
                    ty: TypeForm::Written(&option.ty),
                };
                let value = ValueForm::Written(chosen.value);
                let inner = denotes(alloc, names, steps, scope, value, &place)?;
                let denoted = alternative_of(alloc, chosen.name, inner)?;
                Ok(denoted)
            }
        },
    }
}
