//! Heads that hang on a dummy without an argument, which a template that is read by itself has.

ghost use Rattle.asn_meaning_dummies.specs.inner.Hanging.{choice_name, hung, lost_next, shown_next, told_by};
ghost use Rattle.asn_meaning_heads.specs.Kinds.{shown_kind, shown_reference};
ghost use Rattle.asn_meaning_heads.specs.Places.{shown_place};
ghost use Rattle.asn_meaning_heads.specs.Scopes.{shown};
ghost use Rattle.asn_meaning.specs.Accepts.{place};
ghost use Rattle.asn_meaning.specs.Answers.{once};
ghost use Rattle.asn_meaning.specs.Judge.{meaning};
ghost use Rattle.asn_meaning.specs.Names.{plain_name};
ghost use Rattle.asn_needs.specs.Dummies.{hangs, is_free_dummy, names_free_at};
ghost use Rattle.std.specs.Option.{option_copied};
ghost use Rattle.std.specs.Prelude.{◌≡◌, ◌+◌, ℕ, suc, IfOk};

use crate::scopes::is_free_dummy;
use asn_meaning_heads::{Kind, Lead, Place, Reference, Scope, TypeForm, is_lost, kind_of, lead_of};
use asn_memory::{Mem, OutOfMemory, Text};
use asn_names_index::Names;
use std::alloc::Global;

/// What is next on the way to a dummy without an argument.
#[derive(Drop)]
pub(crate) enum Next<'a> {
    /// The way ends, at such a dummy or elsewhere.
    Ends(bool),
    GoesTo(Place<'a>),
}

/// Whether a reference names such a dummy.
fn reference_names_free(scope: &Scope<'_>, reference: Reference<'_>) -> bool
    ensures { result ≡ once (is_free_dummy (shown scope.now) (shown_reference reference.entry).identifier) (shown_reference reference.entry).parent (is_free_dummy (shown scope.now)) }
{
    match reference {
        Reference::Named(name) => is_free_dummy(scope, name.as_str()),
        Reference::Written(reference) => match &reference.parent {
            None => is_free_dummy(scope, reference.identifier.as_str()),
            Some(parent) => is_free_dummy(scope, parent.as_str()),
        },
    }
}

/// Whether a type of this kind names a dummy without an argument.
pub fn names_free_at(scope: &Scope<'_>, kind: Kind<'_>) -> bool
    ensures { result ≡ names_free_at (shown scope.now) (shown_kind kind.entry) }
{
    match kind {
        Kind::Reference(reference) => reference_names_free(scope, reference),
        Kind::Selection(selection) => is_free_dummy(scope, selection.choice_name.as_str()),
        Kind::Field(reference) => is_free_dummy(scope, reference.class.as_str()),
        Kind::Null => false,
        Kind::Boolean => false,
        Kind::Integer(_) => false,
        Kind::Real => false,
        Kind::BitString(_) => false,
        Kind::OctetString => false,
        Kind::CharacterString(_) => false,
        Kind::Time => false,
        Kind::Enumerated(_) => false,
        Kind::ObjectIdentifier => false,
        Kind::Opaque => false,
        Kind::Struct(_) => false,
        Kind::List(_) => false,
        Kind::Choice(_) => false,
    }
}

/// The name of the CHOICE of a selection.
fn choice_name<'a>(kind: Kind<'a>) -> Option<&'a Text>
    ensures { option_copied result ≡ choice_name (shown_kind kind.entry) }
{
    match kind {
        Kind::Selection(selection) => Some(&selection.choice_name),
        Kind::Null => None,
        Kind::Boolean => None,
        Kind::Integer(_) => None,
        Kind::Real => None,
        Kind::BitString(_) => None,
        Kind::OctetString => None,
        Kind::CharacterString(_) => None,
        Kind::Time => None,
        Kind::Enumerated(_) => None,
        Kind::ObjectIdentifier => None,
        Kind::Opaque => None,
        Kind::Struct(_) => None,
        Kind::List(_) => None,
        Kind::Choice(_) => None,
        Kind::Field(_) => None,
        Kind::Reference(_) => None,
    }
}

/// The place of a type that is a name, in this scope.
///
/// Err: want of memory.
fn named_place<'a>(alloc: Global, scope: &Scope<'a>, name: &'a Text) -> Mem<Place<'a>>
    ensures { IfOk result (λ found. shown_place found ≡ place (shown scope.now) (plain_name name.now)) }
{
    let scope = scope.copy(alloc)?;
    Ok(Place {
        scope,
        ty: TypeForm::Reference(Reference::Named(name)),
    })
}

/// The next of a place that leads nowhere: where its name is no such dummy, the CHOICE of its selection may hang on one.
///
/// Err: want of memory.
#[tactic(auto, using(crate::proofs::Arriving::lost_free, crate::proofs::Arriving::lost_ends, crate::proofs::Arriving::lost_goes))]
fn lost_next<'a>(alloc: Global, place: &Place<'a>) -> Mem<Next<'a>>
    ensures { IfOk result (λ next. shown_next next ≡ lost_next (shown_place place.now)) }
{
    let kind = kind_of(place.ty);
    if names_free_at(&place.scope, kind) {
        return Ok(Next::Ends(true));
    }
    match choice_name(kind) {
        None => Ok(Next::Ends(false)),
        Some(name) => {
            let choice = named_place(alloc, &place.scope, name)?;
            Ok(Next::GoesTo(choice))
        }
    }
}

/// The next of a place. A place that leads somewhere names no such dummy, and neither does the CHOICE of its selection.
///
/// Err: want of memory.
#[tactic(auto, using(crate::proofs::Arriving::at_head, crate::proofs::Arriving::at_lost))]
fn next_of<'a>(alloc: Global, names: &Names<'a>, steps: usize, place: &Place<'a>) -> Mem<Next<'a>>
    ensures { IfOk result (λ next. (m k : ℕ) → hung names.now.definitions.now (meaning names.now.definitions.now (steps + m)) (suc k) (shown_place place.now) ≡ told_by (hung names.now.definitions.now (meaning names.now.definitions.now (steps + m)) k) (shown_next next)) }
{
    match lead_of(alloc, names, steps, place)? {
        Lead::Head => Ok(Next::Ends(false)),
        Lead::Target(target) => Ok(Next::GoesTo(target.place)),
        Lead::Lost => {
            let next = lost_next(alloc, place)?;
            Ok(next)
        }
    }
}

/// Whether following a type's names arrives at a dummy without an argument. It does nowhere where the names lead back to themselves.
///
/// Err: want of memory, also where the steps are used up.
#[tactic(auto, using(crate::proofs::Circling::lost_unhung))]
pub fn hangs<'a>(alloc: Global, names: &Names<'a>, steps: usize, place: &Place<'a>) -> Mem<bool>
    ensures { IfOk result (λ b. (m : ℕ) → b ≡ hangs names.now.definitions.now (meaning names.now.definitions.now (steps + m)) (steps + m) (shown_place place.now)) }
{
    let mut at = place.copy(alloc)?;
    for left in (0..steps).rev() {
        if is_lost(names, &at, steps - left) {
            return Ok(false);
        }
        match next_of(alloc, names, steps, &at)? {
            Next::Ends(hangs) => return Ok(hangs),
            Next::GoesTo(next) => at = next,
        }
    }
    Err(OutOfMemory)
}
