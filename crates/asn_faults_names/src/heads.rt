//! Heads that lack what a name at a place asks of them: a CHOICE, an option, members.

ghost use Rattle.asn_meaning_heads.specs.Places.{shown_place};
ghost use Rattle.asn_meaning_heads.specs.Scopes.{shown};
ghost use Rattle.asn_meaning.specs.Answers.{once};
ghost use Rattle.asn_meaning.specs.Judge.{meaning};
ghost use Rattle.asn_meaning.specs.Members.{member_named, members_of, struct_of};
ghost use Rattle.asn_meaning.specs.Names.{head_named, option_named, options_of};
ghost use Rattle.asn_needs.specs.Missing.{components_lack, listed_lacks, lists_unknown, selection_lacks, wrong_dummy};
ghost use Rattle.asn_needs.specs.Sites.{seen};
ghost use Rattle.std.specs.Option.{option_map};
ghost use Rattle.std.specs.Prelude.{◌≡◌, ◌+◌, ℕ, false, is_none, is_some, IfOk};

use crate::objects::wrong_dummy;
use asn_meaning_dummies::Wanted;
use asn_meaning_heads::{Kind, Place, Scope, head, head_named, kind_of, option_named, options_of};
use asn_meaning_shapes::{member_named, members_of};
use asn_memory::{Mem, Text};
use asn_names_index::Names;
use asn_tree::ChoiceSelectionType;
use std::alloc::Global;

/// Whether a head has no option of the name, or is no CHOICE.
#[tactic(auto, using(crate::proofs::Heading::is_none_at_none, crate::proofs::Heading::is_none_at_some))]
fn lacks_option(head: &Place<'_>, name: &str) -> bool
    ensures { result ≡ is_none (option_named (options_of (shown_place head.now)) name.now) }
{
    match option_named(options_of(head.ty), name) {
        None => true,
        Some(_) => false,
    }
}

/// Whether a head is a SEQUENCE or SET.
fn is_struct(head: &Place<'_>) -> bool
    ensures { result ≡ is_some (struct_of (shown_place head.now)) }
{
    match kind_of(head.ty) {
        Kind::Struct(_) => true,
        Kind::Null => false,
        Kind::Boolean => false,
        Kind::Integer(_) => false,
        Kind::Real => false,
        Kind::BitString(_) => false,
        Kind::OctetString => false,
        Kind::CharacterString(_) => false,
        Kind::Time => false,
        Kind::Enumerated(_) => false,
        Kind::ObjectIdentifier => false,
        Kind::Opaque => false,
        Kind::List(_) => false,
        Kind::Choice(_) => false,
        Kind::Field(_) => false,
        Kind::Reference(_) => false,
        Kind::Selection(_) => false,
    }
}

/// Whether the head of the CHOICE of this name is known, and has no option of that one.
///
/// Err: want of memory, also where the steps are used up.
fn named_lacks_option<'a>(
    alloc: Global,
    names: &Names<'a>,
    steps: usize,
    scope: &Scope<'a>,
    choice: &'a Text,
    option: &str,
) -> Mem<bool>
    ensures { IfOk result (λ b. (m : ℕ) → b ≡ once false (head_named (meaning names.now.definitions.now (steps + m)) (shown scope.now) choice.now) (λ head. is_none (option_named (options_of head) option.now))) }
{
    match head_named(alloc, names, steps, scope, choice)? {
        None => Ok(false),
        Some(head) => Ok(lacks_option(&head, option)),
    }
}

/// Whether the CHOICE of a selection has a head that is no CHOICE or has no such option, or is a dummy that can be no type
/// (X.680 30.1).
///
/// Err: want of memory, also where the steps are used up.
pub(crate) fn selection_lacks<'a>(
    alloc: Global,
    names: &Names<'a>,
    steps: usize,
    scope: &Scope<'a>,
    selection: &'a ChoiceSelectionType,
) -> Mem<bool>
    ensures { IfOk result (λ b. (m : ℕ) → b ≡ selection_lacks (seen names.now.definitions.now (steps + m)) (shown scope.now) selection.now.choice_name selection.now.selected_option) }
{
    let choice = &selection.choice_name;
    if wrong_dummy(names, steps, scope, Wanted::Type, choice.as_str())? {
        Ok(true)
    } else {
        let option = selection.selected_option.as_str();
        let lacks = named_lacks_option(alloc, names, steps, scope, choice, option)?;
        Ok(lacks)
    }
}

/// Whether the head of what stands under this name is known, and is no SEQUENCE or SET.
///
/// Err: want of memory, also where the steps are used up.
fn named_is_no_struct<'a>(
    alloc: Global,
    names: &Names<'a>,
    steps: usize,
    scope: &Scope<'a>,
    name: &'a Text,
) -> Mem<bool>
    ensures { IfOk result (λ b. (m : ℕ) → b ≡ once false (head_named (meaning names.now.definitions.now (steps + m)) (shown scope.now) name.now) (λ head. is_none (struct_of head))) }
{
    match head_named(alloc, names, steps, scope, name)? {
        None => Ok(false),
        Some(head) => Ok(is_no_struct(&head)),
    }
}

/// Whether a head is no SEQUENCE or SET.
#[tactic(auto, using(crate::proofs::Heading::no_struct))]
fn is_no_struct(head: &Place<'_>) -> bool
    ensures { result ≡ is_none (struct_of (shown_place head.now)) }
{
    !is_struct(head)
}

/// Whether what stands behind COMPONENTS OF has a head that is no SEQUENCE or SET, or is a dummy that can be no type (X.680 25.5).
///
/// Err: want of memory, also where the steps are used up.
pub(crate) fn components_lack<'a>(
    alloc: Global,
    names: &Names<'a>,
    steps: usize,
    scope: &Scope<'a>,
    name: &'a Text,
) -> Mem<bool>
    ensures { IfOk result (λ b. (m : ℕ) → b ≡ components_lack (seen names.now.definitions.now (steps + m)) (shown scope.now) name.now) }
{
    if wrong_dummy(names, steps, scope, Wanted::Type, name.as_str())? {
        Ok(true)
    } else {
        let lacks = named_is_no_struct(alloc, names, steps, scope, name)?;
        Ok(lacks)
    }
}

/// Whether the members of a head are known, and none has the name.
///
/// Err: want of memory, also where the steps are used up.
#[tactic(auto, using(crate::proofs::Heading::no_members, crate::proofs::Heading::members_known, crate::proofs::Heading::is_none_at_none, crate::proofs::Heading::is_none_at_some))]
fn lacks_member<'a>(
    alloc: Global,
    names: &Names<'a>,
    steps: usize,
    head: &Place<'a>,
    name: &str,
) -> Mem<bool>
    ensures { IfOk result (λ b. (m : ℕ) → b ≡ once false (members_of (meaning names.now.definitions.now (steps + m)) (shown_place head.now)) (λ ms. is_none (member_named ms name.now))) }
{
    let Some(members) = members_of(alloc, names, steps, head)? else {
        return Ok(false);
    };
    match member_named(members.as_slice(), name) {
        None => Ok(true),
        Some(_) => Ok(false),
    }
}

/// Whether a head lacks a component that WITH COMPONENTS lists: a member, where it is a SEQUENCE or SET whose members are known, else
/// an option (X.680 51.8).
///
/// Err: want of memory, also where the steps are used up.
#[tactic(auto, using(crate::proofs::Heading::unknown_member, crate::proofs::Heading::unknown_option))]
fn lists_unknown<'a>(
    alloc: Global,
    names: &Names<'a>,
    steps: usize,
    head: &Place<'a>,
    name: &str,
) -> Mem<bool>
    ensures { IfOk result (λ b. (m : ℕ) → b ≡ lists_unknown (meaning names.now.definitions.now (steps + m)) (shown_place head.now) name.now) }
{
    if is_struct(head) {
        let lacks = lacks_member(alloc, names, steps, head, name)?;
        Ok(lacks)
    } else {
        Ok(lacks_option(head, name))
    }
}

/// The same of the head of a type, where it is known.
///
/// Err: want of memory, also where the steps are used up.
fn head_lacks<'a>(
    alloc: Global,
    names: &Names<'a>,
    steps: usize,
    place: &Place<'a>,
    name: &str,
) -> Mem<bool>
    ensures { IfOk result (λ b. (m : ℕ) → b ≡ once false ((meaning names.now.definitions.now (steps + m)).head (shown_place place.now)) (λ head. lists_unknown (meaning names.now.definitions.now (steps + m)) head name.now)) }
{
    match head(alloc, names, steps, place)? {
        None => Ok(false),
        Some(head) => {
            let lacks = lists_unknown(alloc, names, steps, &head, name)?;
            Ok(lacks)
        }
    }
}

/// Whether the constrained type lacks a component that WITH COMPONENTS lists. None: there is no such type.
///
/// Err: want of memory, also where the steps are used up.
pub(crate) fn listed_lacks<'a>(
    alloc: Global,
    names: &Names<'a>,
    steps: usize,
    constrained: Option<&Place<'a>>,
    name: &str,
) -> Mem<bool>
    ensures { IfOk result (λ b. (m : ℕ) → b ≡ listed_lacks (seen names.now.definitions.now (steps + m)) (option_map (λ p. shown_place p.now) constrained.entry) name.now) }
{
    match constrained {
        None => Ok(false),
        Some(place) => {
            let lacks = head_lacks(alloc, names, steps, place, name)?;
            Ok(lacks)
        }
    }
}
