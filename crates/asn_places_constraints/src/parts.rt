//! Types that are parts of a type.

ghost use Rattle.asn_meaning_heads.specs.Kinds.{shown_kind};
ghost use Rattle.asn_meaning_heads.specs.Places.{shown_place};
ghost use Rattle.asn_places_constraints.specs.inner.Choices.{choice_in};
ghost use Rattle.asn_meaning.specs.Answers.{once};
ghost use Rattle.asn_meaning.specs.Judge.{meaning};
ghost use Rattle.asn_meaning.specs.Kinds.{kind_of};
ghost use Rattle.asn_meaning.specs.Members.{member_named, member_place, members_of};
ghost use Rattle.asn_needs.specs.PartsOfConstraints.{element_type, listed_in, listed_type};
ghost use Rattle.asn_places_types.specs.Forms.{shown_governor};
ghost use Rattle.std.specs.Option.{option_copied, option_map};
ghost use Rattle.std.specs.Prelude.{◌≡◌, ◌+◌, IfOk, None, Some, ℕ};

use asn_meaning_heads::{Kind, Place, head, kind_of};
use asn_meaning_shapes::{element_place, member_type, members_of, option_type};
use asn_memory::Mem;
use asn_names_index::Names;
use asn_tree::ChoiceOption;
use std::alloc::Global;

/// The type of the first member of the name in a head.
///
/// None: the head is no SEQUENCE or SET, or has no such member, or a name behind COMPONENTS OF leads to no members. Err: want of
/// memory, also where the steps are used up.
fn struct_part<'a>(
    alloc: Global,
    names: &Names<'a>,
    steps: usize,
    head: &Place<'a>,
    name: &str,
) -> Mem<Option<Place<'a>>>
    ensures { IfOk result (λ found. (n : ℕ) → shown_governor found ≡ once None (members_of (meaning names.now.definitions.now (steps + n)) (shown_place head.now)) (λ ms. once None (member_named ms name.now) (λ m. Some (member_place m)))) }
{
    let Some(members) = members_of(alloc, names, steps, head)? else {
        return Ok(None);
    };
    let part = member_type(alloc, members.as_slice(), name)?;
    Ok(part)
}

/// The options of a CHOICE; None for any other kind.
fn choice_in<'a>(kind: Kind<'a>) -> Option<&'a [ChoiceOption]>
    ensures { option_copied result ≡ choice_in (shown_kind kind.entry) }
{
    match kind {
        Kind::Choice(options) => Some(options.as_slice()),
        Kind::Null => None,
        Kind::Boolean => None,
        Kind::Integer(_) => None,
        Kind::Real => None,
        Kind::BitString(_) => None,
        Kind::OctetString => None,
        Kind::CharacterString(_) => None,
        Kind::Time => None,
        Kind::Enumerated(_) => None,
        Kind::ObjectIdentifier => None,
        Kind::Opaque => None,
        Kind::Struct(_) => None,
        Kind::List(_) => None,
        Kind::Field(_) => None,
        Kind::Reference(_) => None,
        Kind::Selection(_) => None,
    }
}

/// The component of the name in a head; None where it has none.
///
/// Err: want of memory, also where the steps are used up.
#[tactic(auto, using(crate::proofs::Choosing::listed_choice, crate::proofs::Choosing::listed_other))]
fn listed_in<'a>(
    alloc: Global,
    names: &Names<'a>,
    steps: usize,
    head: &Place<'a>,
    name: &str,
) -> Mem<Option<Place<'a>>>
    ensures { IfOk result (λ found. (m : ℕ) → shown_governor found ≡ listed_in (meaning names.now.definitions.now (steps + m)) (shown_place head.now) name.now (kind_of (shown_place head.now))) }
{
    match choice_in(kind_of(head.ty)) {
        None => {
            let part = struct_part(alloc, names, steps, head, name)?;
            Ok(part)
        }
        Some(options) => {
            let part = option_type(alloc, &head.scope, options, name)?;
            Ok(part)
        }
    }
}

/// The component of the name that WITH COMPONENTS lists (X.680 51.8.6); None where the constrained type is not known or has none.
///
/// Err: want of memory, also where the steps are used up.
pub fn listed_type<'a>(
    alloc: Global,
    names: &Names<'a>,
    steps: usize,
    place: Option<&Place<'a>>,
    name: &str,
) -> Mem<Option<Place<'a>>>
    ensures { IfOk result (λ found. (m : ℕ) → shown_governor found ≡ listed_type (meaning names.now.definitions.now (steps + m)) (option_map (λ p. shown_place p.now) place.entry) name.now) }
{
    let Some(place) = place else {
        return Ok(None);
    };
    let Some(place) = head(alloc, names, steps, place)? else {
        return Ok(None);
    };
    let part = listed_in(alloc, names, steps, &place, name)?;
    Ok(part)
}

/// The type of the elements that WITH COMPONENT constrains (X.680 51.8.5); None where the constrained type is not known or has
/// none.
///
/// Err: want of memory, also where the steps are used up.
pub fn element_type<'a>(
    alloc: Global,
    names: &Names<'a>,
    steps: usize,
    place: Option<&Place<'a>>,
) -> Mem<Option<Place<'a>>>
    ensures { IfOk result (λ found. (m : ℕ) → shown_governor found ≡ element_type (meaning names.now.definitions.now (steps + m)) (option_map (λ p. shown_place p.now) place.entry)) }
{
    let Some(place) = place else {
        return Ok(None);
    };
    let Some(place) = head(alloc, names, steps, place)? else {
        return Ok(None);
    };
    let element = element_place(alloc, &place)?;
    Ok(element)
}
