//! Names that occur.

ghost use Rattle.asn_meaning_heads.specs.Scopes.{shown};
ghost use Rattle.asn_needs.specs.Occurrences.{object_occurring, occurring, occurring_plainly};
ghost use Rattle.asn_places_names.specs.Occurrences.{shown_need, shown_occurrences};
ghost use Rattle.asn_places_names.specs.inner.Governing.{lent_place};
ghost use Rattle.std.specs.Option.{option_copied};
ghost use Rattle.std.specs.Prelude.{◌≡◌, ◌∷◌, [], false, IfOk, None};

use crate::needs::Need;
use crate::paths::is_path;
use asn_meaning_heads::{Place, Scope};
use asn_memory::{List, Mem, Text};
use asn_places_types::governor_copied;
use std::alloc::Global;

/// A name that occurs: what its place needs, whether an argument list stands behind it, the scope that it is read in, and the
/// type that governs its place, where it is the name of a value or an object and its place has one.
#[derive(Drop)]
pub struct Occurrence<'a> {
    pub need: Need,
    pub name: &'a Text,
    pub has_list: bool,
    pub scope: Scope<'a>,
    pub governing: Option<Place<'a>>,
}

/// The one name.
///
/// Err: want of memory.
pub(crate) fn named<'a>(
    alloc: Global,
    scope: &Scope<'a>,
    governing: Option<&Place<'a>>,
    need: Need,
    name: &'a Text,
    has_list: bool,
) -> Mem<List<Occurrence<'a>>>
    ensures { IfOk result (λ found. shown_occurrences found ≡ record { need = shown_need need; name = name.now; has_list = has_list; scope = shown scope.now; governing = lent_place governing.entry } ∷ []) }
{
    let scope = scope.copy(alloc)?;
    let governing = governor_copied(alloc, governing)?;
    let occurrence = Occurrence {
        need,
        name,
        has_list,
        scope,
        governing,
    };
    let found = List::of(alloc, occurrence)?;
    Ok(found)
}

/// The name; a dummy is none (X.683 8.4).
///
/// Err: want of memory.
pub(crate) fn occurring<'a>(
    alloc: Global,
    scope: &Scope<'a>,
    governing: Option<&Place<'a>>,
    need: Need,
    name: &'a Text,
    has_list: bool,
) -> Mem<List<Occurrence<'a>>>
    ensures { IfOk result (λ found. shown_occurrences found ≡ occurring (shown scope.now) (lent_place governing.entry) (shown_need need) name.now has_list) }
{
    if scope.has_dummy(name.as_str()) {
        Ok(List::new(alloc))
    } else {
        let found = named(alloc, scope, governing, need, name, has_list)?;
        Ok(found)
    }
}

/// The name under no type, with no list behind it.
///
/// Err: want of memory.
pub(crate) fn occurring_alone<'a>(
    alloc: Global,
    scope: &Scope<'a>,
    need: Need,
    name: &'a Text,
) -> Mem<List<Occurrence<'a>>>
    ensures { IfOk result (λ found. shown_occurrences found ≡ occurring (shown scope.now) None (shown_need need) name.now false) }
{
    let found = occurring(alloc, scope, None, need, name, false)?;
    Ok(found)
}

/// The plain name that something is, if it is one.
///
/// Err: want of memory.
pub(crate) fn occurring_plainly<'a>(
    alloc: Global,
    scope: &Scope<'a>,
    governing: Option<&Place<'a>>,
    need: Need,
    name: Option<&'a Text>,
) -> Mem<List<Occurrence<'a>>>
    ensures { IfOk result (λ found. shown_occurrences found ≡ occurring_plainly (shown scope.now) (lent_place governing.entry) (shown_need need) (option_copied name.entry)) }
{
    match name {
        None => Ok(List::new(alloc)),
        Some(name) => {
            let found = occurring(alloc, scope, governing, need, name, false)?;
            Ok(found)
        }
    }
}

/// The object of a path; several names are no object (X.681 15).
///
/// Err: want of memory.
pub(crate) fn object_occurring<'a>(
    alloc: Global,
    scope: &Scope<'a>,
    governing: Option<&Place<'a>>,
    object: &'a Text,
) -> Mem<List<Occurrence<'a>>>
    ensures { IfOk result (λ found. shown_occurrences found ≡ object_occurring (shown scope.now) (lent_place governing.entry) object.now) }
{
    if is_path(object.as_str()) {
        Ok(List::new(alloc))
    } else {
        let found = occurring(alloc, scope, governing, Need::NeedsObject, object, false)?;
        Ok(found)
    }
}
