//! The instance of each type of a text.
//!
//! Of each type definition that stands and has no parameters, in byte order of their names, `Name ::= INTEGER` tells the instance of its
//! type, the definition's own tag aside; `Name none` that there is none within the levels; `Name memory` that the steps, or the room of
//! an instance, are used up. Behind these lines, `open` and names tell which of the text's type definitions are not closed, so that they
//! can't be linked together with the others; or `open memory` that the steps or the room are used up.

ghost use Rattle.asn_names_index.specs.Definitions.{IsStanding};
ghost use Rattle.std.specs.Prelude.{◌≡◌, IfOk, false, map};

use asn_link_all::{Limits, link_types};
use asn_link_types::{Room, instance_of_type};
use asn_meaning_heads::{Place, Scope, TypeForm};
use asn_memory::{List, Mem, Text};
use asn_names_index::Names;
use asn_tree::{ASN1Type, ToplevelDefinition, ToplevelTypeDefinition};
use rows_trees::{TellsDefinitions, write_instance};
use std::alloc::Global;

/// The steps of each question about what names lead to.
const STEPS: usize = 128;

/// The levels of an instance.
const LEVELS: usize = 128;

/// The nodes that an instance may have.
const ROOM: usize = 10000;

/// The instance of a definition's type.
fn instance_of<'a>(
    alloc: Global,
    names: &Names<'a>,
    definition: &'a ToplevelTypeDefinition,
) -> Mem<Option<ASN1Type>> {
    let mut room = Room::new(ROOM);
    let place = Place {
        scope: Scope::Empty,
        ty: TypeForm::Written(&definition.ty),
    };
    instance_of_type(alloc, names, STEPS, LEVELS, &mut room, false, &place)
}

/// Writes the line of a type definition.
fn write_type<'a>(
    alloc: Global,
    out: &mut Text,
    names: &Names<'a>,
    definition: &'a ToplevelTypeDefinition,
) -> Mem<()> {
    out.push_str(definition.name.as_str())?;
    write_instance(alloc, out, instance_of(alloc, names, definition))?;
    out.push_str("\n")
}

/// Writes the line of a definition, where it is that of a type without parameters.
fn write_definition<'a>(
    alloc: Global,
    out: &mut Text,
    names: &Names<'a>,
    definition: &'a ToplevelDefinition,
) -> Mem<()> {
    match definition {
        ToplevelDefinition::TypeDef(definition) => match &definition.parameterization {
            None => write_type(alloc, out, names, definition),
            Some(_) => Ok(()),
        },
        ToplevelDefinition::Value(_) => Ok(()),
        ToplevelDefinition::Information(_) => Ok(()),
    }
}

/// Writes the names of those of these definitions that are not closed.
fn write_open_names(
    out: &mut Text,
    definitions: &[&ToplevelDefinition],
    closed: &[bool],
) -> Mem<()> {
    for (i, definition) in definitions.iter().enumerate() {
        if closed.get(i) == Some(&false) {
            out.push_str(" ")?;
            out.push_str(definition.name().as_str())?;
        }
    }
    Ok(())
}

/// Of each definition that it is not given as read.
///
/// Err: want of memory.
fn none_withheld(alloc: Global, standing: &[&ToplevelDefinition]) -> Mem<List<bool>>
    ensures { IfOk result (λ told. told ≡ map (λ d. false) standing.now) }
{
    let mut told = List::new(alloc);
    for _definition in standing {
        told.add(false)?;
    }
    Ok(told)
}

/// Writes which of the definitions that stand are not closed.
fn write_open<'a>(
    alloc: Global,
    out: &mut Text,
    names: &Names<'a>,
    standing: &[&'a ToplevelDefinition],
) -> Mem<()>
    requires { IsStanding names.now.definitions.now (map (λ d. d.now) standing.now) }
{
    let limits = Limits {
        steps: STEPS,
        levels: LEVELS,
        in_circles: LEVELS,
        room: ROOM,
    };
    out.push_str("open")?;
    let withheld = none_withheld(alloc, standing)?;
    match link_types(alloc, names, limits, standing, withheld.as_slice()) {
        Ok(linked) => write_open_names(out, standing, linked.closed.as_slice())?,
        Err(_) => out.push_str(" memory")?,
    }
    out.push_str("\n")
}

/// What is told of instances.
#[derive(Clone, Copy)]
pub(crate) struct Instances;

impl TellsDefinitions for Instances {
    /// Writes the lines of these definitions, as far as they stand.
    fn tell(
        &self,
        alloc: Global,
        out: &mut Text,
        definitions: &List<ToplevelDefinition>,
    ) -> Mem<()> {
        let names = Names::new(alloc, definitions)?;
        let standing = names.standing(alloc)?;
        for definition in standing.as_slice() {
            write_definition(alloc, out, &names, *definition)?;
        }
        write_open(alloc, out, &names, standing.as_slice())
    }
}
