//! The calls that link one type.

ghost use Rattle.asn_meaning_heads.specs.Places.{shown_place};
ghost use Rattle.asn_meaning.specs.Scopes.{Empty};
ghost use Rattle.asn_link_passes.specs.Promises.{IsLinkedType};
ghost use Rattle.asn_tree.specs.declared.types.ASN1Type.TheVariants as type;
ghost use Rattle.std.specs.Prelude.{false, true, IfOk};

use crate::promises::instances_promise;
use asn_link_types::{Room, instance_of_type};
use asn_meaning_heads::{Place, Reference, Scope, TypeForm};
use asn_memory::Mem;
use asn_names_index::Names;
use asn_tree::{ASN1Type, DeclarationElsewhere};
use std::alloc::Global;

/// How far an instance is looked for.
#[derive(Clone, Copy, Debug, PartialEq, Eq)]
pub struct Limits {
    /// The steps within which it is asked what a name leads to. Where they are used up, nothing is known.
    pub steps: usize,
    /// The levels of names and parts that an instance may have. One that has more is none.
    pub levels: usize,
    /// The nodes that it may have. Where it has more, memory is wanted.
    pub room: usize,
}

/// What linking makes of a type at a place.
///
/// None: there is no instance within these steps and levels. Err: want of memory, also where the room is used up.
fn linked<'a>(
    alloc: Global,
    names: &Names<'a>,
    limits: Limits,
    down: bool,
    place: &Place<'a>,
) -> Mem<Option<ASN1Type>>
    ensures { IfOk result (IsLinkedType names.now.definitions.now limits.steps limits.levels down (shown_place place.now).scope (shown_place place.now).ty) }
{
    instances_promise();
    let mut room = Room::new(limits.room);
    let made = instance_of_type(
        alloc,
        names,
        limits.steps,
        limits.levels,
        &mut room,
        down,
        place,
    )?;
    Ok(made)
}

/// What linking makes of a type, outside all templates: argument lists, selections, COMPONENTS OF, class fields of fixed type, the heads of
/// contained subtypes and the names of values in constraints are put in (X.680 25.5, 30, 51.2 to 51.4, X.681 14, X.683 8, 9). It accepts and
/// rejects the same trees as the type, and is in plain form.
///
/// None: there is none within these steps and levels: they are too few, a name leads nowhere, a part that a constraint names is missing,
/// or a value has no literal.
///
/// # Errors
///
/// Want of memory, also where the room is used up.
pub fn link_type<'a>(
    alloc: Global,
    names: &Names<'a>,
    limits: Limits,
    ty: &'a ASN1Type,
) -> Mem<Option<ASN1Type>>
    ensures { IfOk result (IsLinkedType names.now.definitions.now limits.steps limits.levels false Empty ty.now) }
{
    let place = Place {
        scope: Scope::Empty,
        ty: TypeForm::Written(ty),
    };
    let made = linked(alloc, names, limits, false, &place)?;
    Ok(made)
}

/// The same of a type that is the head of a contained subtype: a plain name there becomes its type, down to the head, with all constraints
/// on the way (X.680 51.3).
///
/// None and errors: as for `link_type`.
///
/// # Errors
///
/// Want of memory, also where the room is used up.
pub fn link_subtype_constraint<'a>(
    alloc: Global,
    names: &Names<'a>,
    limits: Limits,
    ty: &'a ASN1Type,
) -> Mem<Option<ASN1Type>>
    ensures { IfOk result (IsLinkedType names.now.definitions.now limits.steps limits.levels true Empty ty.now) }
{
    let place = Place {
        scope: Scope::Empty,
        ty: TypeForm::Written(ty),
    };
    let made = linked(alloc, names, limits, true, &place)?;
    Ok(made)
}

/// The instance of a template under the arguments behind a reference to it: its type with each dummy read as its argument, an argument read
/// in the scope of the reference (X.683 8, 9). A plain name without arguments stays.
///
/// None and errors: as for `link_type`.
///
/// # Errors
///
/// Want of memory, also where the room is used up.
pub fn resolve_parameters<'a>(
    alloc: Global,
    names: &Names<'a>,
    limits: Limits,
    reference: &'a DeclarationElsewhere,
) -> Mem<Option<ASN1Type>>
    ensures { IfOk result (IsLinkedType names.now.definitions.now limits.steps limits.levels false Empty (type.ElsewhereDeclaredType reference.now)) }
{
    let place = Place {
        scope: Scope::Empty,
        ty: TypeForm::Reference(Reference::Written(reference)),
    };
    let made = linked(alloc, names, limits, false, &place)?;
    Ok(made)
}
