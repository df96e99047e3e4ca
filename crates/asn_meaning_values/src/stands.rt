//! What a name or a path of a value stands for under a head (X.680 14.1, X.681 15.1, X.683 8.3).

ghost use Rattle.asn_meaning_heads.specs.Places.{shown_place};
ghost use Rattle.asn_meaning_heads.specs.Scopes.{shown, shown_bound};
ghost use Rattle.asn_meaning_values.specs.inner.Reading.{shown_path};
ghost use Rattle.asn_meaning_values.specs.inner.Standing.{defined_stands, dummy_stands, field_stands, name_stands, own_or_defined, path_stands, reference_stands, shown_stands};
ghost use Rattle.asn_meaning.specs.Scopes.{bound_to};
ghost use Rattle.std.specs.Option.{option_copied};
ghost use Rattle.std.specs.Prelude.{◌≡◌, IfOk};

use crate::own::own_name;
use crate::reading::{PathValue, Read, argument_of, defined_read, path_value, read_outside};
use asn_meaning_heads::{Bound, FieldType, Place, Scope};
use asn_meaning_shapes::Tree;
use asn_memory::{Mem, Text};
use asn_names_index::Names;
use std::alloc::Global;

/// What a name stands for.
#[derive(Drop)]
pub enum Stands<'a> {
    /// A tree of the head's own: an item, or a named number.
    Tree(Tree),
    /// A value that is read elsewhere.
    Read(Read<'a>),
    /// A value of an open type.
    Open,
    /// The name leads nowhere.
    Nothing,
}

/// What a dummy stands for: its argument.
///
/// Err: want of memory.
#[tactic(auto, using(crate::proofs::Standing::dummy_lost, crate::proofs::Standing::dummy_read))]
fn dummy_stands<'s, 'a>(alloc: Global, scope: &Scope<'a>, bound: Bound<'s, 'a>) -> Mem<Stands<'a>>
    ensures { IfOk result (λ stands. shown_stands stands ≡ dummy_stands (shown scope.now) (shown_bound bound.entry)) }
{
    match argument_of(alloc, scope, bound)? {
        None => Ok(Stands::Nothing),
        Some(read) => Ok(Stands::Read(read)),
    }
}

/// What a value definition's name stands for.
#[tactic(auto, using(crate::proofs::Standing::defined_lost, crate::proofs::Standing::defined_found))]
fn defined_stands<'a>(names: &Names<'a>, name: &str) -> Stands<'a>
    ensures { shown_stands result ≡ defined_stands names.now.definitions.now name.now }
{
    match names.value_named(name) {
        None => Stands::Nothing,
        Some(definition) => Stands::Read(defined_read(definition)),
    }
}

/// What a name that is no dummy stands for: an item or named number of the head, else a value definition (X.680 14.1).
#[tactic(auto, using(crate::proofs::Standing::own_lost, crate::proofs::Standing::own_found))]
fn own_or_defined<'a>(names: &Names<'a>, head: &Place<'a>, name: &str) -> Stands<'a>
    ensures { shown_stands result ≡ own_or_defined names.now.definitions.now (shown_place head.now) name.now }
{
    match own_name(head, name) {
        Some(tree) => Stands::Tree(tree),
        None => defined_stands(names, name),
    }
}

/// What a plain name stands for: a dummy's argument, else as `own_or_defined`.
///
/// Err: want of memory.
#[tactic(auto, using(crate::proofs::Standing::name_bound, crate::proofs::Standing::name_free))]
fn name_stands<'a>(
    alloc: Global,
    names: &Names<'a>,
    scope: &Scope<'a>,
    head: &Place<'a>,
    name: &str,
) -> Mem<Stands<'a>>
    ensures { IfOk result (λ stands. shown_stands stands ≡ name_stands names.now.definitions.now (shown scope.now) (shown_place head.now) name.now (bound_to (shown scope.now) name.now)) }
{
    match scope.bound_to(name) {
        Some(bound) => {
            let stands = dummy_stands(alloc, scope, bound)?;
            Ok(stands)
        }
        None => Ok(own_or_defined(names, head, name)),
    }
}

/// What a field of an object stands for: the value that the object gives, under the field's type (X.681 15.1).
fn field_stands<'a>(path: PathValue<'a>) -> Stands<'a>
    ensures { shown_stands result ≡ field_stands (shown_path path.entry) }
{
    match path.ty {
        FieldType::Open => Stands::Open,
        FieldType::Fixed(ty) => Stands::Read(read_outside(path.value, ty)),
    }
}

/// What `o.&f` stands for.
///
/// Err: want of memory.
#[tactic(auto, using(crate::proofs::Standing::path_lost, crate::proofs::Standing::path_found))]
fn path_stands<'a>(
    alloc: Global,
    names: &Names<'a>,
    scope: &Scope<'a>,
    object: &str,
    name: &str,
) -> Mem<Stands<'a>>
    ensures { IfOk result (λ stands. shown_stands stands ≡ path_stands names.now.definitions.now (shown scope.now) object.now name.now) }
{
    match path_value(alloc, names, scope, object, name)? {
        None => Ok(Stands::Nothing),
        Some(path) => Ok(field_stands(path)),
    }
}

/// What a name stands for, alone or behind the name of an object.
///
/// Err: want of memory.
pub fn reference_stands<'a>(
    alloc: Global,
    names: &Names<'a>,
    scope: &Scope<'a>,
    head: &Place<'a>,
    parent: Option<&'a Text>,
    name: &'a Text,
) -> Mem<Stands<'a>>
    ensures { IfOk result (λ stands. shown_stands stands ≡ reference_stands names.now.definitions.now (shown scope.now) (shown_place head.now) (option_copied parent.entry) name.now) }
{
    match parent {
        None => {
            let stands = name_stands(alloc, names, scope, head, name.as_str())?;
            Ok(stands)
        }
        Some(object) => {
            let stands = path_stands(alloc, names, scope, object.as_str(), name.as_str())?;
            Ok(stands)
        }
    }
}
