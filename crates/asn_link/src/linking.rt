//! Linking definitions.

ghost use Rattle.asn_names_index.specs.Definitions.{IsStanding};
ghost use Rattle.asn_link.specs.Linked.{IsLinking, linked_each, linked_one, most_in_circles, most_levels, most_steps, with_type};
ghost use Rattle.std.specs.Prelude.{◌≡◌, IfOk, is_some, length, map};

use asn_copy_linked::{
    copy_asn1_type, copy_toplevel_information_definition, copy_toplevel_type_definition,
    copy_toplevel_value_definition,
};
use asn_link_all::{Limits, LinkedTypes, link_types};
use asn_memory::{List, Mem};
use asn_names_index::Names;
use asn_tree::{ASN1Type, AsnTag, ToplevelDefinition, ToplevelTypeDefinition};
use std::alloc::Global;

/// How far instances are looked for.
fn limits() -> Limits
    ensures steps { result.steps ≡ most_steps }
    ensures levels { result.levels ≡ most_levels }
    ensures in_circles { result.in_circles ≡ most_in_circles }
{
    Limits {
        steps: 4_096,
        levels: 4_096,
        in_circles: 256,
        room: 1_000_000,
    }
}

/// What linking makes of definitions, each in its turn.
#[derive(Drop)]
pub struct LinkedDefinitions {
    /// The linked definitions.
    pub definitions: List<ToplevelDefinition>,
    /// Whether a type was made of the definition.
    pub made: List<bool>,
    /// Whether the definition is closed: a type was made of it and of each definition of a type that its type leads to, and no field of an
    /// object stays in any of these.
    pub closed: List<bool>,
}

/// A definition with this tag and this type.
///
/// Err: want of memory.
fn retyped(
    alloc: Global,
    definition: &ToplevelTypeDefinition,
    tag: Option<AsnTag>,
    ty: &ASN1Type,
) -> Mem<ToplevelTypeDefinition>
    ensures { IfOk result (λ linked. linked ≡ with_type definition.now tag (Some ty.now)) }
{
    let mut linked = copy_toplevel_type_definition(alloc, definition)?;
    linked.tag = tag;
    linked.ty = copy_asn1_type(alloc, ty)?;
    Ok(linked)
}

/// A definition with the tag and the type that linking made of it, where it made one.
///
/// Err: want of memory.
fn with_type(
    alloc: Global,
    definition: &ToplevelTypeDefinition,
    tag: Option<AsnTag>,
    made: &Option<ASN1Type>,
) -> Mem<ToplevelTypeDefinition>
    ensures { IfOk result (λ linked. linked ≡ with_type definition.now tag made.now) }
{
    match made {
        None => {
            let copy = copy_toplevel_type_definition(alloc, definition)?;
            Ok(copy)
        }
        Some(ty) => {
            let linked = retyped(alloc, definition, tag, ty)?;
            Ok(linked)
        }
    }
}

/// What linking gives of a definition.
///
/// Err: want of memory.
fn linked_one(
    alloc: Global,
    definition: &ToplevelDefinition,
    tag: Option<AsnTag>,
    made: &Option<ASN1Type>,
) -> Mem<ToplevelDefinition>
    ensures { IfOk result (λ linked. linked ≡ linked_one definition.now tag made.now) }
{
    match definition {
        ToplevelDefinition::TypeDef(definition) => {
            let linked = with_type(alloc, definition, tag, made)?;
            Ok(ToplevelDefinition::TypeDef(linked))
        }
        ToplevelDefinition::Value(definition) => {
            let copy = copy_toplevel_value_definition(alloc, definition)?;
            Ok(ToplevelDefinition::Value(copy))
        }
        ToplevelDefinition::Information(definition) => {
            let copy = copy_toplevel_information_definition(alloc, definition)?;
            Ok(ToplevelDefinition::Information(copy))
        }
    }
}

/// What linking gives of each of these definitions, in their order.
///
/// Err: want of memory.
fn linked_each(
    alloc: Global,
    definitions: &[&ToplevelDefinition],
    tags: &[Option<AsnTag>],
    made: &[Option<ASN1Type>],
) -> Mem<List<ToplevelDefinition>>
    requires tags { length tags.now ≡ length definitions.now }
    requires made { length made.now ≡ length definitions.now }
    ensures { IfOk result (λ linked. linked ≡ linked_each (map (λ d. d.now) definitions.now) tags.now made.now) }
{
    let mut linked = List::new(alloc);
    for (i, definition) in definitions.iter().enumerate() {
        linked.add(linked_one(alloc, definition, tags[i], &made[i])?)?;
    }
    Ok(linked)
}

/// Whether there is a type.
fn is_made(made: &Option<ASN1Type>) -> bool
    ensures { result ≡ is_some made.now }
{
    match made {
        None => false,
        Some(_) => true,
    }
}

/// Of each whether there is a type.
///
/// Err: want of memory.
fn are_made(alloc: Global, made: &[Option<ASN1Type>]) -> Mem<List<bool>>
    ensures { IfOk result (λ told. told ≡ map is_some made.now) }
{
    let mut told = List::new(alloc);
    for one in made {
        told.add(is_made(one))?;
    }
    Ok(told)
}

/// Of each definition whether it is closed.
fn closed_of(types: LinkedTypes) -> List<bool>
    ensures { result ≡ types.closed }
{
    let LinkedTypes {
        made: _,
        tags: _,
        closed,
    } = types;
    closed
}

/// What linking gives of the definitions that stand, in their order: one of a type that linking leaves as it is, and one that is no
/// template and has an instance within 4,096 steps and levels, gets the type that is made of it and that type's tag; every other stays, and
/// so does one that `withheld` tells to be given as read, where linking does not leave it as it is. One that leads to a circle has 256 steps
/// and levels. `standing` is what `Names::standing` gives of `names`.
///
/// # Errors
///
/// Want of memory, also where an instance has more than a million nodes.
pub fn link_definitions<'a>(
    alloc: Global,
    names: &Names<'a>,
    standing: &[&'a ToplevelDefinition],
    withheld: &[bool],
) -> Mem<LinkedDefinitions>
    requires stand { IsStanding names.now.definitions.now (map (λ d. d.now) standing.now) }
    requires long { length withheld.now ≡ length standing.now }
    ensures { IfOk result (λ linked. IsLinking names.now.definitions.now (map (λ d. d.now) standing.now) withheld.now linked.definitions linked.made linked.closed) }
{
    let types = link_types(alloc, names, limits(), standing, withheld)?;
    let tags = types.tags.as_slice();
    let definitions = linked_each(alloc, standing, tags, types.made.as_slice())?;
    let made = are_made(alloc, types.made.as_slice())?;
    Ok(LinkedDefinitions {
        definitions,
        made,
        closed: closed_of(types),
    })
}
