//! The types that linking makes, definition by definition.

ghost use Rattle.asn_link_all.specs.Made.{instance_of, made_by, made_each, made_of, made_where, own_type, tag_of, tagged_instance};
ghost use Rattle.std.specs.Prelude.{◌≡◌, IfOk, length, map};

use crate::tags::tag_of;
use crate::ways::Way;
use asn_copy_linked::copy_asn1_type;
use asn_link_types::{Room, instance_of_type};
use asn_meaning_heads::{Place, Scope, TypeForm};
use asn_meaning_unchanged::is_unchanged;
use asn_memory::{List, Mem};
use asn_names_index::Names;
use asn_tree::{ASN1Type, ToplevelDefinition, ToplevelTypeDefinition};
use std::alloc::Global;

/// How far an instance is looked for.
#[derive(Clone, Copy, Debug, PartialEq, Eq)]
pub struct Limits {
    /// The steps within which it is asked what a name leads to. Where they are used up, nothing is known.
    pub steps: usize,
    /// The levels of names and parts that an instance may have. One that has more is none.
    pub levels: usize,
    /// As many steps and levels has a definition that leads to a circle.
    pub in_circles: usize,
    /// The nodes that an instance may have. Where it has more, memory is wanted.
    pub room: usize,
}

impl Limits {
    /// The limits of a definition that leads to a circle.
    pub(crate) fn for_circles(self) -> Limits
        ensures steps { result.steps ≡ self.in_circles }
        ensures levels { result.levels ≡ self.in_circles }
    {
        Limits {
            steps: self.in_circles,
            levels: self.in_circles,
            in_circles: self.in_circles,
            room: self.room,
        }
    }
}

/// The instance of a definition's type.
///
/// None: there is none within these steps and levels. Err: want of memory, also where the room is used up.
fn instance_of<'a>(
    alloc: Global,
    names: &Names<'a>,
    limits: Limits,
    definition: &'a ToplevelTypeDefinition,
) -> Mem<Option<ASN1Type>>
    ensures { IfOk result (λ made. made ≡ instance_of names.now.definitions.now limits.steps limits.levels definition.now) }
{
    let mut room = Room::new(limits.room);
    let place = Place {
        scope: Scope::Empty,
        ty: TypeForm::Written(&definition.ty),
    };
    let made = instance_of_type(
        alloc,
        names,
        limits.steps,
        limits.levels,
        &mut room,
        false,
        &place,
    )?;
    Ok(made)
}

/// The instance of a definition's type, where its tag is told too.
///
/// None and Err: as `instance_of`.
fn tagged_instance<'a>(
    alloc: Global,
    names: &Names<'a>,
    limits: Limits,
    definition: &'a ToplevelTypeDefinition,
) -> Mem<Option<ASN1Type>>
    ensures { IfOk result (λ made. made ≡ tagged_instance names.now.definitions.now limits.steps limits.levels definition.now) }
{
    match tag_of(alloc, names, limits, definition)? {
        None => Ok(None),
        Some(_) => {
            let made = instance_of(alloc, names, limits, definition)?;
            Ok(made)
        }
    }
}

/// What linking makes of a definition that it does not leave as it is: the instance of a type without parameters.
///
/// Err: want of memory, also where the room is used up.
fn made_of<'a>(
    alloc: Global,
    names: &Names<'a>,
    limits: Limits,
    definition: &'a ToplevelDefinition,
) -> Mem<Option<ASN1Type>>
    ensures { IfOk result (λ made. made ≡ made_of names.now.definitions.now limits.steps limits.levels definition.now) }
{
    match definition {
        ToplevelDefinition::TypeDef(definition) => match &definition.parameterization {
            None => {
                let made = tagged_instance(alloc, names, limits, definition)?;
                Ok(made)
            }
            Some(_) => Ok(None),
        },
        ToplevelDefinition::Value(_) => Ok(None),
        ToplevelDefinition::Information(_) => Ok(None),
    }
}

/// A copy of a definition's type, where it is one of a type.
///
/// Err: want of memory.
fn own_type(alloc: Global, definition: &ToplevelDefinition) -> Mem<Option<ASN1Type>>
    ensures { IfOk result (λ made. made ≡ own_type definition.now) }
{
    match definition {
        ToplevelDefinition::TypeDef(definition) => {
            let copy = copy_asn1_type(alloc, &definition.ty)?;
            Ok(Some(copy))
        }
        ToplevelDefinition::Value(_) => Ok(None),
        ToplevelDefinition::Information(_) => Ok(None),
    }
}

/// What linking makes of a definition that it does not leave as it is: its instance, within the limits for circles where it leads to
/// one; nothing where it is given as read.
///
/// Err: want of memory, also where the room is used up.
fn made_by<'a>(
    alloc: Global,
    names: &Names<'a>,
    limits: Limits,
    definition: &'a ToplevelDefinition,
    way: Way,
) -> Mem<Option<ASN1Type>>
    ensures { IfOk result (λ made. made ≡ made_by names.now.definitions.now limits.steps limits.levels limits.in_circles definition.now way) }
{
    match way {
        Way::Whole => {
            let made = made_of(alloc, names, limits, definition)?;
            Ok(made)
        }
        Way::InCircles => {
            let made = made_of(alloc, names, limits.for_circles(), definition)?;
            Ok(made)
        }
        Way::AsRead => Ok(None),
    }
}

/// What linking makes of a definition: its own type where linking leaves it as it is, else what is made of it as it is linked.
///
/// Err: want of memory, also where the room is used up.
fn made_where<'a>(
    alloc: Global,
    names: &Names<'a>,
    limits: Limits,
    definition: &'a ToplevelDefinition,
    way: Way,
) -> Mem<Option<ASN1Type>>
    ensures { IfOk result (λ made. made ≡ made_where names.now.definitions.now limits.steps limits.levels limits.in_circles definition.now way) }
{
    if is_unchanged(definition) {
        let made = own_type(alloc, definition)?;
        Ok(made)
    } else {
        let made = made_by(alloc, names, limits, definition, way)?;
        Ok(made)
    }
}

/// What linking makes of each of these definitions, in their order: of one that it leaves as it is its own type; of any other of a type
/// without parameters the instance of its type, where one lies within the steps and levels, or, where `ways` tells of it that it leads to a
/// circle, within as many as the limits tell for these; of one that is given as read, and of each other one, nothing.
///
/// # Errors
///
/// Want of memory, also where the room of an instance is used up.
pub fn make_types<'a>(
    alloc: Global,
    names: &Names<'a>,
    limits: Limits,
    definitions: &[&'a ToplevelDefinition],
    ways: &[Way],
) -> Mem<List<Option<ASN1Type>>>
    requires { length ways.now ≡ length definitions.now }
    ensures { IfOk result (λ made. made ≡ made_each names.now.definitions.now limits.steps limits.levels limits.in_circles (map (λ d. d.now) definitions.now) ways.now) }
{
    let mut made = List::new(alloc);
    for (i, definition) in definitions.iter().enumerate() {
        made.add(made_where(alloc, names, limits, definition, ways[i])?)?;
    }
    Ok(made)
}
