//! Where types lead, and heads: the first type on the way that is no name (X.680 14.1, 30; X.681 14, 15; X.683 9).

ghost use Rattle.asn_meaning_heads.specs.Leads.{shown_lead};
ghost use Rattle.asn_meaning_heads.specs.Places.{shown_place, shown_target};
ghost use Rattle.asn_meaning_heads.specs.Scopes.{shown};
ghost use Rattle.asn_meaning.specs.Judge.{meaning};
ghost use Rattle.asn_meaning_heads.specs.Kinds.{shown_type};
ghost use Rattle.asn_meaning_heads.specs.Leads.{option_target};
ghost use Rattle.asn_meaning_heads.specs.Spans.{further};
ghost use Rattle.asn_meaning.specs.Answers.{once};
ghost use Rattle.asn_meaning.specs.Kinds.{kind_of_type};
ghost use Rattle.asn_meaning.specs.Names.{field_lead, head_named, lead, leading, option_named, options_in, options_of, selection_target};
ghost use Rattle.asn_meaning_heads.specs.Classes.{shown_field_type};
ghost use Rattle.std.specs.Option.{option_map};
ghost use Rattle.std.specs.Prelude.{◌≡◌, ◌+◌, ℕ, IfOk};

use crate::circles::is_lost;
use crate::classes::{FieldType, class_field_type};
use crate::items::option_named;
use crate::kinds::{Kind, Reference, TypeForm, kind_of};
use crate::names::reference_target;
use crate::places::{Place, Target};
use crate::scopes::Scope;
use crate::spans::Span;
use asn_memory::{Mem, OutOfMemory, Text};
use asn_names_index::Names;
use asn_tree::{ChoiceOption, ChoiceSelectionType};
use std::alloc::Global;

/// Where a type leads.
#[derive(Drop)]
pub enum Lead<'a> {
    /// It is a head.
    Head,
    Target(Target<'a>),
    /// Its name is missing or of another kind.
    Lost,
}

/// Where a name leads that has a target or none.
fn leading<'a>(target: Option<Target<'a>>) -> Lead<'a>
    ensures { shown_lead result ≡ leading (option_map shown_target target.entry) }
{
    match target {
        None => Lead::Lost,
        Some(target) => Lead::Target(target),
    }
}

/// Where a class's field leads: an open type is a head.
fn field_lead<'a>(ty: Option<FieldType<'a>>) -> Lead<'a>
    ensures { shown_lead result ≡ field_lead (option_map shown_field_type ty.entry) }
{
    match ty {
        None => Lead::Lost,
        Some(FieldType::Open) => Lead::Head,
        Some(FieldType::Fixed(ty)) => {
            let target = Target::outside(ty);
            Lead::Target(target)
        }
    }
}

/// The options of a CHOICE; of any other head none.
pub fn options_of<'a>(head: TypeForm<'a>) -> &'a [ChoiceOption]
    ensures { result.now ≡ options_in (kind_of_type (shown_type head.entry)) }
{
    match kind_of(head) {
        Kind::Choice(options) => options.as_slice(),
        Kind::Null => &[],
        Kind::Boolean => &[],
        Kind::Integer(_) => &[],
        Kind::Real => &[],
        Kind::BitString(_) => &[],
        Kind::OctetString => &[],
        Kind::CharacterString(_) => &[],
        Kind::Time => &[],
        Kind::Enumerated(_) => &[],
        Kind::ObjectIdentifier => &[],
        Kind::Opaque => &[],
        Kind::Struct(_) => &[],
        Kind::List(_) => &[],
        Kind::Field(_) => &[],
        Kind::Reference(_) => &[],
        Kind::Selection(_) => &[],
    }
}

/// The option of the name under a head that is a CHOICE, with its own constraints (X.680 30.2).
fn selected<'a>(head: Place<'a>, name: &str) -> Option<Target<'a>>
    ensures { option_map shown_target result ≡ once None (option_named (options_of (shown_place head.entry)) name.now) (option_target (shown_place head.entry).scope) }
{
    let Place { scope, ty } = head;
    match option_named(options_of(ty), name) {
        None => None,
        Some(option) => Some(Target {
            place: Place {
                scope,
                ty: TypeForm::Written(&option.ty),
            },
            constraints: Some(&option.constraints),
        }),
    }
}

/// `a < C`: the type of the CHOICE's option with the option's constraints; the CHOICE's own do not come along (X.680 30.2).
///
/// Err: want of memory.
#[cycle(heading)]
#[tactic(auto, using(crate::proofs::Leading::selection_of_none, crate::proofs::Leading::selection_of_head))]
pub fn selection_target_over<'a>(
    alloc: Global,
    names: &Names<'a>,
    span: Span,
    steps: usize,
    scope: &Scope<'a>,
    selection: &'a ChoiceSelectionType,
) -> Mem<Option<Target<'a>>>
    ensures { IfOk result (λ target. (m : ℕ) → option_map shown_target target ≡ selection_target (meaning names.now.definitions.now (steps + further span m)) (shown scope.now) selection.now) }
{
    match head_named_over(alloc, names, span, steps, scope, &selection.choice_name)? {
        None => Ok(None),
        Some(head) => Ok(selected(head, selection.selected_option.as_str())),
    }
}

/// Where a type leads: a plain name, an argument list, a selection, a class's field of fixed type and a field of an object
/// lead on; every other type is a head, an open type too.
///
/// Err: want of memory.
#[cycle(heading)]
pub fn lead_over<'a>(
    alloc: Global,
    names: &Names<'a>,
    span: Span,
    steps: usize,
    place: &Place<'a>,
) -> Mem<Lead<'a>>
    ensures { IfOk result (λ l. (m : ℕ) → shown_lead l ≡ lead names.now.definitions.now (meaning names.now.definitions.now (steps + further span m)) (shown_place place.now)) }
{
    match kind_of(place.ty) {
        Kind::Reference(reference) => {
            let target = reference_target(alloc, names, &place.scope, reference)?;
            Ok(leading(target))
        }
        Kind::Selection(selection) => {
            let target = selection_target_over(alloc, names, span, steps, &place.scope, selection)?;
            Ok(leading(target))
        }
        Kind::Field(field) => {
            let ty = class_field_type(names, &place.scope, field);
            Ok(field_lead(ty))
        }
        Kind::Null => Ok(Lead::Head),
        Kind::Boolean => Ok(Lead::Head),
        Kind::Integer(_) => Ok(Lead::Head),
        Kind::Real => Ok(Lead::Head),
        Kind::BitString(_) => Ok(Lead::Head),
        Kind::OctetString => Ok(Lead::Head),
        Kind::CharacterString(_) => Ok(Lead::Head),
        Kind::Time => Ok(Lead::Head),
        Kind::Enumerated(_) => Ok(Lead::Head),
        Kind::ObjectIdentifier => Ok(Lead::Head),
        Kind::Opaque => Ok(Lead::Head),
        Kind::Struct(_) => Ok(Lead::Head),
        Kind::List(_) => Ok(Lead::Head),
        Kind::Choice(_) => Ok(Lead::Head),
    }
}

/// The head of a type: the first type on the way that leads nowhere else. It is found within these steps, and stays the same
/// within more.
///
/// None: the type has no head, however many steps there are, since a name leads nowhere, or is one that leads back to itself whatever
/// its arguments; or, where it is asked for these steps alone, none within them. Err: want of memory, also where the steps are used up
/// and it is asked for all further ones.
#[cycle(heading)]
#[tactic(auto, using(crate::proofs::Leading::head_is, crate::proofs::Leading::head_beyond, crate::proofs::Leading::head_lost, crate::proofs::Circling::lost_headless, crate::proofs::Spanning::no_head))]
pub fn head_over<'a>(
    alloc: Global,
    names: &Names<'a>,
    span: Span,
    steps: usize,
    place: &Place<'a>,
) -> Mem<Option<Place<'a>>>
    ensures { IfOk result (λ found. (m : ℕ) → option_map shown_place found ≡ (meaning names.now.definitions.now (steps + further span m)).head (shown_place place.now)) }
{
    let mut at = place.copy(alloc)?;
    for left in (0..steps).rev() {
        if is_lost(names, &at, steps - left) {
            return Ok(None);
        }
        match lead_over(alloc, names, span, left, &at)? {
            Lead::Head => return Ok(Some(at)),
            Lead::Target(target) => at = target.place,
            Lead::Lost => return Ok(None),
        }
    }
    match span {
        Span::Further => Err(OutOfMemory),
        Span::These => Ok(None),
    }
}

/// The head of a type that a name stands for.
///
/// Err: want of memory.
#[cycle(heading)]
pub fn head_named_over<'a>(
    alloc: Global,
    names: &Names<'a>,
    span: Span,
    steps: usize,
    scope: &Scope<'a>,
    name: &'a Text,
) -> Mem<Option<Place<'a>>>
    ensures { IfOk result (λ found. (m : ℕ) → option_map shown_place found ≡ head_named (meaning names.now.definitions.now (steps + further span m)) (shown scope.now) name.now) }
{
    let scope = scope.copy(alloc)?;
    let place = Place {
        scope,
        ty: TypeForm::Reference(Reference::Named(name)),
    };
    let found = head_over(alloc, names, span, steps, &place)?;
    Ok(found)
}
