//! Types and values whose names lack something.

ghost use Rattle.asn_meaning_heads.specs.Kinds.{shown_kind, shown_reference};
ghost use Rattle.asn_meaning_heads.specs.Scopes.{shown};
ghost use Rattle.asn_meaning_heads.specs.Written.{shown_written};
ghost use Rattle.asn_needs.specs.Missing.{is_type_field, is_value_field, path_lacks, reference_lacks, type_lacks, value_lacks};
ghost use Rattle.asn_needs.specs.Occurrences.{is_path};
ghost use Rattle.asn_needs.specs.Sites.{seen};
ghost use Rattle.std.specs.Prelude.{◌≡◌, ◌+◌, ◌||◌, ◌&&◌, ℕ, not, IfOk};

use crate::heads::selection_lacks;
use crate::objects::{WantedField, class_lacks, path_lacks, wrong_dummy};
use asn_meaning_dummies::Wanted;
use asn_meaning_heads::{Kind, Reference, Scope, Written};
use asn_memory::Mem;
use asn_names_index::Names;
use asn_places_names::is_path;
use asn_tree::DeclarationElsewhere;
use std::alloc::Global;

/// Whether the field of an object as a type is lacking; several names are no object (X.681 15).
///
/// Err: want of memory, also where the steps are used up.
fn field_lacks<'a>(
    alloc: Global,
    names: &Names<'a>,
    steps: usize,
    scope: &Scope<'a>,
    object: &str,
    field: &str,
) -> Mem<bool>
    ensures { IfOk result (λ b. (m : ℕ) → b ≡ (is_path object.now || path_lacks (seen names.now.definitions.now (steps + m)) (shown scope.now) is_type_field object.now field.now)) }
{
    if is_path(object) {
        Ok(true)
    } else {
        let wanted = WantedField::Type;
        let lacks = path_lacks(alloc, names, steps, scope, wanted, object, field)?;
        Ok(lacks)
    }
}

/// Whether a reference of a tree lacks something.
///
/// Err: want of memory, also where the steps are used up.
fn written_lacks<'a>(
    alloc: Global,
    names: &Names<'a>,
    steps: usize,
    scope: &Scope<'a>,
    reference: &'a DeclarationElsewhere,
) -> Mem<bool>
    ensures { IfOk result (λ b. (m : ℕ) → b ≡ reference_lacks (seen names.now.definitions.now (steps + m)) (shown scope.now) reference.now reference.now.parent) }
{
    let name = reference.identifier.as_str();
    match &reference.parent {
        None => {
            let wrong = wrong_dummy(names, steps, scope, Wanted::Type, name)?;
            Ok(wrong)
        }
        Some(object) => {
            let lacks = field_lacks(alloc, names, steps, scope, object.as_str(), name)?;
            Ok(lacks)
        }
    }
}

/// Whether a reference lacks something: it is a dummy that can be no type, or a field that its object lacks.
///
/// Err: want of memory, also where the steps are used up.
fn reference_lacks<'a>(
    alloc: Global,
    names: &Names<'a>,
    steps: usize,
    scope: &Scope<'a>,
    reference: Reference<'a>,
) -> Mem<bool>
    ensures { IfOk result (λ b. (m : ℕ) → b ≡ reference_lacks (seen names.now.definitions.now (steps + m)) (shown scope.now) (shown_reference reference.entry) (shown_reference reference.entry).parent) }
{
    match reference {
        Reference::Written(reference) => {
            let lacks = written_lacks(alloc, names, steps, scope, reference)?;
            Ok(lacks)
        }
        Reference::Named(name) => {
            let wrong = wrong_dummy(names, steps, scope, Wanted::Type, name.as_str())?;
            Ok(wrong)
        }
    }
}

/// Whether a type of this kind lacks something: what its reference names, the option of a selection, or a class's field.
///
/// Err: want of memory, also where the steps are used up.
pub(crate) fn type_lacks<'a>(
    alloc: Global,
    names: &Names<'a>,
    steps: usize,
    scope: &Scope<'a>,
    kind: Kind<'a>,
) -> Mem<bool>
    ensures { IfOk result (λ b. (m : ℕ) → b ≡ type_lacks (seen names.now.definitions.now (steps + m)) (shown scope.now) (shown_kind kind.entry)) }
{
    match kind {
        Kind::Reference(reference) => {
            let lacks = reference_lacks(alloc, names, steps, scope, reference)?;
            Ok(lacks)
        }
        Kind::Selection(selection) => {
            let lacks = selection_lacks(alloc, names, steps, scope, selection)?;
            Ok(lacks)
        }
        Kind::Field(reference) => {
            let lacks = class_lacks(names, steps, scope, reference)?;
            Ok(lacks)
        }
        Kind::Null => Ok(false),
        Kind::Boolean => Ok(false),
        Kind::Integer(_) => Ok(false),
        Kind::Real => Ok(false),
        Kind::BitString(_) => Ok(false),
        Kind::OctetString => Ok(false),
        Kind::CharacterString(_) => Ok(false),
        Kind::Time => Ok(false),
        Kind::Enumerated(_) => Ok(false),
        Kind::ObjectIdentifier => Ok(false),
        Kind::Opaque => Ok(false),
        Kind::Struct(_) => Ok(false),
        Kind::List(_) => Ok(false),
        Kind::Choice(_) => Ok(false),
    }
}

/// Whether the field of an object as a value is lacking; several names are a path that is not linked.
///
/// Err: want of memory, also where the steps are used up.
fn value_field_lacks<'a>(
    alloc: Global,
    names: &Names<'a>,
    steps: usize,
    scope: &Scope<'a>,
    object: &str,
    field: &str,
) -> Mem<bool>
    ensures { IfOk result (λ b. (m : ℕ) → b ≡ (not (is_path object.now) && path_lacks (seen names.now.definitions.now (steps + m)) (shown scope.now) is_value_field object.now field.now)) }
{
    if is_path(object) {
        Ok(false)
    } else {
        let wanted = WantedField::Value;
        let lacks = path_lacks(alloc, names, steps, scope, wanted, object, field)?;
        Ok(lacks)
    }
}

/// Whether a value lacks something: it is a field that its object lacks.
///
/// Err: want of memory, also where the steps are used up.
pub(crate) fn value_lacks<'a>(
    alloc: Global,
    names: &Names<'a>,
    steps: usize,
    scope: &Scope<'a>,
    written: Written<'a>,
) -> Mem<bool>
    ensures { IfOk result (λ b. (m : ℕ) → b ≡ value_lacks (seen names.now.definitions.now (steps + m)) (shown scope.now) (shown_written written.entry)) }
{
    match written {
        Written::Name { parent, identifier } => match parent {
            None => Ok(false),
            Some(object) => {
                let (object, field) = (object.as_str(), identifier.as_str());
                let lacks = value_field_lacks(alloc, names, steps, scope, object, field)?;
                Ok(lacks)
            }
        },
        Written::All => Ok(false),
        Written::Null => Ok(false),
        Written::Truth(_) => Ok(false),
        Written::Number(_) => Ok(false),
        Written::Real(_) => Ok(false),
        Written::Text(_) => Ok(false),
        Written::Bits(_) => Ok(false),
        Written::BitNames(_) => Ok(false),
        Written::Octets(_) => Ok(false),
        Written::Arcs(_) => Ok(false),
        Written::Item(_) => Ok(false),
        Written::Braces(_) => Ok(false),
        Written::Fields(_) => Ok(false),
        Written::Elements(_) => Ok(false),
        Written::Alternative { .. } => Ok(false),
        Written::Nested(_) => Ok(false),
    }
}
