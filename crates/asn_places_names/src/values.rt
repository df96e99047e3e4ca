//! The name that a value is.

ghost use Rattle.asn_meaning_heads.specs.Kinds.{shown_kind};
ghost use Rattle.asn_meaning_heads.specs.Places.{shown_place};
ghost use Rattle.asn_meaning_heads.specs.Scopes.{shown};
ghost use Rattle.asn_meaning_heads.specs.Written.{shown_written};
ghost use Rattle.asn_meaning.specs.Answers.{once};
ghost use Rattle.asn_meaning.specs.Denotes.{own_in, own_name};
ghost use Rattle.asn_meaning.specs.Members.{named, number_named};
ghost use Rattle.asn_meaning.specs.Written.{NameWritten};
ghost use Rattle.asn_needs.specs.Dummies.{is_class_name};
ghost use Rattle.asn_needs.specs.Occurrences.{names_in_value, value_names};
ghost use Rattle.asn_needs.specs.Sites.{seen};
ghost use Rattle.asn_places_names.specs.Occurrences.{shown_occurrences};
ghost use Rattle.asn_places_names.specs.inner.Governing.{lent_place};
ghost use Rattle.asn_places_names.specs.inner.Lacks.{is_aside};
ghost use Rattle.std.specs.Option.{option_copied, option_map};
ghost use Rattle.std.specs.Prelude.{◌≡◌, ◌+◌, ℕ, false, is_some, IfOk, None, Some};

use crate::lacking::lacks;
use crate::needs::Need;
use crate::occurrences::{Occurrence, named, object_occurring, occurring_plainly};
use asn_meaning_dummies::{hangs, is_class_name, name_of_value};
use asn_meaning_heads::{Kind, Place, Scope, Written, head, item_named, kind_of, number_named};
use asn_memory::{List, Mem, Text};
use asn_names_index::Names;
use asn_tree::DistinguishedValue;
use std::alloc::Global;

/// Whether the name is one of these named numbers.
fn is_number(numbers: Option<&List<DistinguishedValue>>, name: &str) -> bool
    ensures { result ≡ is_some (number_named (named (option_copied numbers.entry)) name.now) }
{
    match numbers {
        None => false,
        Some(numbers) => number_named(numbers.as_slice(), name).is_some(),
    }
}

/// Whether the name is an item or a named number under the kind.
#[tactic(auto, using(crate::proofs::Owning::item_is_own, crate::proofs::Owning::number_is_own))]
fn is_own_in(name: &str, kind: Kind<'_>) -> bool
    ensures { result ≡ is_some (own_in name.now (shown_kind kind.entry)) }
{
    match kind {
        Kind::Integer(numbers) => is_number(numbers, name),
        Kind::Enumerated(items) => item_named(items.as_slice(), name).is_some(),
        Kind::Null => false,
        Kind::Boolean => false,
        Kind::Real => false,
        Kind::BitString(_) => false,
        Kind::OctetString => false,
        Kind::CharacterString(_) => false,
        Kind::Time => false,
        Kind::ObjectIdentifier => false,
        Kind::Opaque => false,
        Kind::Struct(_) => false,
        Kind::List(_) => false,
        Kind::Choice(_) => false,
        Kind::Field(_) => false,
        Kind::Reference(_) => false,
        Kind::Selection(_) => false,
    }
}

/// Whether the name is an item or a named number of the head (X.680 19.9, 20.8).
pub fn is_own(head: &Place<'_>, name: &str) -> bool
    ensures { result ≡ is_some (own_name (shown_place head.now) name.now) }
{
    is_own_in(name, kind_of(head.ty))
}

/// Whether a name under this type is none of a definition: it is an item or a named number of the type's head (X.680 19.9, 20.8); or
/// it has no value's definition, and the head hangs on a dummy without an argument, so that it may be an item of that.
///
/// Err: want of memory, also where the steps are used up.
#[tactic(auto, using(crate::proofs::Setting::aside_headed, crate::proofs::Setting::aside_defined, crate::proofs::Setting::aside_hung))]
fn is_aside<'a>(
    alloc: Global,
    names: &Names<'a>,
    steps: usize,
    place: &Place<'a>,
    name: &str,
) -> Mem<bool>
    ensures { IfOk result (λ b. (m : ℕ) → b ≡ is_aside (seen names.now.definitions.now (steps + m)) (Some (shown_place place.now)) name.now) }
{
    match head(alloc, names, steps, place)? {
        Some(head) => Ok(is_own(&head, name)),
        None => {
            if lacks(names, Need::NeedsValue, name) {
                let hung = hangs(alloc, names, steps, place)?;
                Ok(hung)
            } else {
                Ok(false)
            }
        }
    }
}

/// The same of the type that governs, where there is one.
///
/// Err: want of memory, also where the steps are used up.
fn is_set_aside<'a>(
    alloc: Global,
    names: &Names<'a>,
    steps: usize,
    governing: Option<&Place<'a>>,
    name: &str,
) -> Mem<bool>
    ensures { IfOk result (λ b. (m : ℕ) → b ≡ is_aside (seen names.now.definitions.now (steps + m)) (lent_place governing.entry) name.now) }
{
    match governing {
        None => Ok(false),
        Some(place) => {
            let aside = is_aside(alloc, names, steps, place, name)?;
            Ok(aside)
        }
    }
}

/// A value's plain name, unless it is none of a definition.
///
/// Err: want of memory, also where the steps are used up.
#[tactic(auto, using(crate::proofs::Setting::plain_dummy, crate::proofs::Setting::plain_aside, crate::proofs::Setting::plain_named))]
fn plain_names<'a>(
    alloc: Global,
    names: &Names<'a>,
    steps: usize,
    scope: &Scope<'a>,
    governing: Option<&Place<'a>>,
    name: &'a Text,
) -> Mem<List<Occurrence<'a>>>
    ensures { IfOk result (λ found. (m : ℕ) → shown_occurrences found ≡ names_in_value (seen names.now.definitions.now (steps + m)) (shown scope.now) (lent_place governing.entry) (NameWritten None name.now)) }
{
    if scope.has_dummy(name.as_str()) {
        return Ok(List::new(alloc));
    }
    if is_set_aside(alloc, names, steps, governing, name.as_str())? {
        return Ok(List::new(alloc));
    }
    let found = named(alloc, scope, governing, Need::NeedsValue, name, false)?;
    Ok(found)
}

/// The name that a value of no class is; in any other value names stand in its parts alone.
///
/// Err: want of memory, also where the steps are used up.
fn written_names<'a>(
    alloc: Global,
    names: &Names<'a>,
    steps: usize,
    scope: &Scope<'a>,
    governing: Option<&Place<'a>>,
    written: Written<'a>,
) -> Mem<List<Occurrence<'a>>>
    ensures { IfOk result (λ found. (m : ℕ) → shown_occurrences found ≡ names_in_value (seen names.now.definitions.now (steps + m)) (shown scope.now) (lent_place governing.entry) (shown_written written.entry)) }
{
    match written {
        Written::Name { parent, identifier } => match parent {
            None => Ok(plain_names(alloc, names, steps, scope, governing, identifier)?),
            Some(object) => Ok(object_occurring(alloc, scope, governing, object)?),
        },
        Written::All => Ok(List::new(alloc)),
        Written::Null => Ok(List::new(alloc)),
        Written::Truth(_) => Ok(List::new(alloc)),
        Written::Number(_) => Ok(List::new(alloc)),
        Written::Real(_) => Ok(List::new(alloc)),
        Written::Text(_) => Ok(List::new(alloc)),
        Written::Bits(_) => Ok(List::new(alloc)),
        Written::BitNames(_) => Ok(List::new(alloc)),
        Written::Octets(_) => Ok(List::new(alloc)),
        Written::Arcs(_) => Ok(List::new(alloc)),
        Written::Item(_) => Ok(List::new(alloc)),
        Written::Braces(_) => Ok(List::new(alloc)),
        Written::Fields(_) => Ok(List::new(alloc)),
        Written::Elements(_) => Ok(List::new(alloc)),
        Written::Alternative { .. } => Ok(List::new(alloc)),
        Written::Nested(_) => Ok(List::new(alloc)),
    }
}

/// Whether the type that governs is a class's name.
pub fn is_governed_by_class(names: &Names<'_>, governing: Option<&Place<'_>>) -> bool
    ensures { result ≡ once false (option_map (λ p. shown_place p.now) governing.entry) (is_class_name names.now.definitions.now) }
{
    match governing {
        None => false,
        Some(place) => is_class_name(names, place),
    }
}

/// The name that a value is. Under a class it is that of an object (X.681 14).
///
/// Err: want of memory, also where the steps are used up.
pub(crate) fn value_names<'a>(
    alloc: Global,
    names: &Names<'a>,
    steps: usize,
    scope: &Scope<'a>,
    governing: Option<&Place<'a>>,
    written: Written<'a>,
) -> Mem<List<Occurrence<'a>>>
    ensures { IfOk result (λ found. (m : ℕ) → shown_occurrences found ≡ value_names (seen names.now.definitions.now (steps + m)) (shown scope.now) (lent_place governing.entry) (shown_written written.entry)) }
{
    if is_governed_by_class(names, governing) {
        let name = name_of_value(written);
        let found = occurring_plainly(alloc, scope, governing, Need::NeedsObject, name)?;
        Ok(found)
    } else {
        let found = written_names(alloc, names, steps, scope, governing, written)?;
        Ok(found)
    }
}
