//! The names that occur at a place.

ghost use Rattle.asn_needs.specs.Occurrences.{names_at};
ghost use Rattle.asn_needs.specs.Sites.{seen};
ghost use Rattle.asn_places_names.specs.Occurrences.{shown_occurrences};
ghost use Rattle.asn_places_types.specs.Sites.{shown_site};
ghost use Rattle.std.specs.Prelude.{◌≡◌, ◌+◌, ℕ, IfOk};

use crate::given::{argument_names, given_names};
use crate::needs::Need;
use crate::occurrences::{Occurrence, occurring_alone};
use crate::types::{components_names, governor_names, type_names};
use crate::values::value_names;
use asn_meaning_heads::{as_given, kind_of, value_written};
use asn_memory::{List, Mem};
use asn_names_index::Names;
use asn_places_types::{Form, Site, scope_in, unboxed};
use std::alloc::Global;

/// The names that occur at a place: dummies, arcs, and items and named numbers of what governs aside. Where a form holds no name of
/// its own, names stand in its parts, which are places themselves.
///
/// Err: want of memory, also where the steps are used up before the head of a type that governs is known.
pub fn names_at<'a>(
    alloc: Global,
    names: &Names<'a>,
    steps: usize,
    site: &Site<'a>,
) -> Mem<List<Occurrence<'a>>>
    ensures { IfOk result (λ found. (m : ℕ) → shown_occurrences found ≡ names_at (seen names.now.definitions.now (steps + m)) (shown_site site.now) (shown_site site.now).form) }
{
    let scope = scope_in(&site.around);
    match &site.form {
        Form::AType(at, ty, _) => Ok(type_names(alloc, scope, *at, kind_of(*ty))?),
        Form::ComponentsOf(name) => Ok(components_names(alloc, scope, name)?),
        Form::AValue(_, value, place) => {
            let written = value_written(*value);
            Ok(value_names(alloc, names, steps, scope, unboxed(place), written)?)
        }
        Form::LooseArgument(argument) => Ok(argument_names(alloc, scope, argument)?),
        Form::ADummy(dummy) => Ok(governor_names(alloc, scope, &dummy.param_governor)?),
        Form::ClassName(name) => Ok(occurring_alone(alloc, scope, Need::NeedsClass, name)?),
        Form::AGivenField(class, field) => Ok(given_names(alloc, scope, *class, *field)?),
        Form::LooseField(field) => Ok(given_names(alloc, scope, None, as_given(field))?),
        Form::SetName(name) => Ok(occurring_alone(alloc, scope, Need::NeedsObjectOrSet, name)?),
        Form::AConstraint(_) => Ok(List::new(alloc)),
        Form::ASet(_, _) => Ok(List::new(alloc)),
        Form::AnElement(_, _) => Ok(List::new(alloc)),
        Form::AListed(_, _) => Ok(List::new(alloc)),
        Form::LooseList => Ok(List::new(alloc)),
        Form::AnArgument(_, _, _) => Ok(List::new(alloc)),
        Form::NoArgument => Ok(List::new(alloc)),
        Form::ClassField(_, _) => Ok(List::new(alloc)),
        Form::AnObject(_, _) => Ok(List::new(alloc)),
        Form::AnObjectSet(_, _) => Ok(List::new(alloc)),
    }
}
