//! The name that a type is.

ghost use Rattle.asn_meaning_heads.specs.Kinds.{shown_kind, shown_reference};
ghost use Rattle.asn_meaning_heads.specs.Scopes.{shown};
ghost use Rattle.asn_needs.specs.Occurrences.{has_list, is_path, names_in_governor, names_in_reference, names_in_type, needed_at, occurring, NeedsComponents};
ghost use Rattle.asn_places_names.specs.Occurrences.{shown_need, shown_occurrences};
ghost use Rattle.asn_places_types.specs.Forms.{shown_at};
ghost use Rattle.std.specs.Prelude.{◌≡◌, [], false, IfOk, None, if◌then◌else◌};

use crate::needs::Need;
use crate::occurrences::{Occurrence, object_occurring, occurring, occurring_alone};
use crate::paths::is_path;
use asn_meaning_heads::{ArgumentLists, Kind, Reference, Scope, argument_lists};
use asn_memory::{List, Mem, Text};
use asn_places_types::TypePlace;
use asn_tree::{DeclarationElsewhere, ParameterGovernor};
use std::alloc::Global;

/// What a type's place needs. In a class's field it takes a class too: the field's own place, not those in it (X.681 9).
fn needed_at(at: TypePlace) -> Need
    ensures { shown_need result ≡ needed_at (shown_at at) }
{
    match at {
        TypePlace::AtHead => Need::NeedsType,
        TypePlace::OfField => Need::NeedsTypeOrClass,
        TypePlace::AtHeadOfField => Need::NeedsTypeOrClass,
        TypePlace::InPlace => Need::NeedsType,
    }
}

/// Whether an argument list stands behind a reference (X.683 9.1).
#[tactic(auto, using(crate::proofs::Listed::no_list, crate::proofs::Listed::one_list, crate::proofs::Listed::several_lists))]
fn has_list(reference: &DeclarationElsewhere) -> bool
    ensures { result ≡ has_list reference.now }
{
    match argument_lists(reference.constraints.as_slice()) {
        ArgumentLists::Nothing => false,
        ArgumentLists::One(_) => true,
        ArgumentLists::Several => true,
    }
}

/// The name in a reference of a tree: the type's, or that of the object before a field.
///
/// Err: want of memory.
fn written_names<'a>(
    alloc: Global,
    scope: &Scope<'a>,
    at: TypePlace,
    reference: &'a DeclarationElsewhere,
) -> Mem<List<Occurrence<'a>>>
    ensures { IfOk result (λ found. shown_occurrences found ≡ names_in_reference (shown scope.now) (shown_at at) reference.now reference.now.parent) }
{
    match &reference.parent {
        None => {
            let (need, listed) = (needed_at(at), has_list(reference));
            let found = occurring(alloc, scope, None, need, &reference.identifier, listed)?;
            Ok(found)
        }
        Some(object) => {
            let found = object_occurring(alloc, scope, None, object)?;
            Ok(found)
        }
    }
}

/// The name in a reference.
///
/// Err: want of memory.
fn reference_names<'a>(
    alloc: Global,
    scope: &Scope<'a>,
    at: TypePlace,
    reference: Reference<'a>,
) -> Mem<List<Occurrence<'a>>>
    ensures { IfOk result (λ found. shown_occurrences found ≡ names_in_reference (shown scope.now) (shown_at at) (shown_reference reference.entry) (shown_reference reference.entry).parent) }
{
    match reference {
        Reference::Written(reference) => {
            let found = written_names(alloc, scope, at, reference)?;
            Ok(found)
        }
        Reference::Named(name) => {
            let found = occurring_alone(alloc, scope, needed_at(at), name)?;
            Ok(found)
        }
    }
}

/// The name that a type of this kind is; in any other type names stand in its parts alone.
///
/// Err: want of memory.
pub(crate) fn type_names<'a>(
    alloc: Global,
    scope: &Scope<'a>,
    at: TypePlace,
    kind: Kind<'a>,
) -> Mem<List<Occurrence<'a>>>
    ensures { IfOk result (λ found. shown_occurrences found ≡ names_in_type (shown scope.now) (shown_at at) (shown_kind kind.entry)) }
{
    match kind {
        Kind::Reference(reference) => Ok(reference_names(alloc, scope, at, reference)?),
        Kind::Selection(selection) => {
            let name = &selection.choice_name;
            Ok(occurring_alone(alloc, scope, Need::NeedsChoice, name)?)
        }
        Kind::Field(reference) => {
            let name = &reference.class;
            Ok(occurring_alone(alloc, scope, Need::NeedsClass, name)?)
        }
        Kind::Null => Ok(List::new(alloc)),
        Kind::Boolean => Ok(List::new(alloc)),
        Kind::Integer(_) => Ok(List::new(alloc)),
        Kind::Real => Ok(List::new(alloc)),
        Kind::BitString(_) => Ok(List::new(alloc)),
        Kind::OctetString => Ok(List::new(alloc)),
        Kind::CharacterString(_) => Ok(List::new(alloc)),
        Kind::Time => Ok(List::new(alloc)),
        Kind::Enumerated(_) => Ok(List::new(alloc)),
        Kind::ObjectIdentifier => Ok(List::new(alloc)),
        Kind::Opaque => Ok(List::new(alloc)),
        Kind::Struct(_) => Ok(List::new(alloc)),
        Kind::List(_) => Ok(List::new(alloc)),
        Kind::Choice(_) => Ok(List::new(alloc)),
    }
}

/// The name behind COMPONENTS OF; several names are no type (X.680 25.5).
///
/// Err: want of memory.
pub(crate) fn components_names<'a>(
    alloc: Global,
    scope: &Scope<'a>,
    name: &'a Text,
) -> Mem<List<Occurrence<'a>>>
    ensures { IfOk result (λ found. shown_occurrences found ≡ (if is_path name.now then [] else occurring (shown scope.now) None NeedsComponents name.now false)) }
{
    if is_path(name.as_str()) {
        Ok(List::new(alloc))
    } else {
        let found = occurring_alone(alloc, scope, Need::NeedsComponents, name)?;
        Ok(found)
    }
}

/// The class that governs a dummy (X.683 8.3).
///
/// Err: want of memory.
pub(crate) fn governor_names<'a>(
    alloc: Global,
    scope: &Scope<'a>,
    governor: &'a ParameterGovernor,
) -> Mem<List<Occurrence<'a>>>
    ensures { IfOk result (λ found. shown_occurrences found ≡ names_in_governor (shown scope.now) governor.now) }
{
    match governor {
        ParameterGovernor::None => Ok(List::new(alloc)),
        ParameterGovernor::TypeOrClass(_) => Ok(List::new(alloc)),
        ParameterGovernor::Class(name) => {
            let found = occurring_alone(alloc, scope, Need::NeedsClass, name)?;
            Ok(found)
        }
    }
}
