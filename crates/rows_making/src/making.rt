//! Each header and each definition of a text, made anew by the constructors of its parts.
//!
//! Of each module it says whether the header that was made is the one that was read; of each definition it writes the one that was made
//! and whether it is the one that was read, the one that is made of its name, and which members of a SEQUENCE or SET are additions. Parts
//! of parts are copies.

use crate::definitions::{named_definition, remade_definition};
use crate::headers::remade_header;
use asn_check_listing::write_definition;
use asn_memory::{List, Mem, OutOfMemory, Text};
use asn_read_nodes::SpecError;
use asn_tree::{ASN1Type, Reading, SequenceOrSet, ToplevelDefinition};
use asn_tree_headers::ModuleReference;
use rows::push_decimal;
use rows_trees::TellsModules;
use std::alloc::Global;

/// Writes whether the header that was made is the one that was read.
fn write_header(out: &mut Text, made: &Mem<ModuleReference>, read: &ModuleReference) -> Mem<()> {
    match made {
        Ok(made) => {
            out.push_str(if *made == *read {
                "same module "
            } else {
                "other module "
            })?;
            out.push_str(made.name.as_str())?;
            out.push_str("\n")
        }
        Err(_) => Err(OutOfMemory),
    }
}

/// Writes the definition that was made, and whether it is the one that was read.
fn write_made(
    alloc: Global,
    out: &mut Text,
    made: &Mem<ToplevelDefinition>,
    read: &ToplevelDefinition,
) -> Mem<()> {
    match made {
        Ok(made) => {
            out.push_str(if *made == *read { "same " } else { "other " })?;
            write_definition(alloc, out, made)
        }
        Err(_) => Err(OutOfMemory),
    }
}

/// Writes the definition that was made of a name.
fn write_named(alloc: Global, out: &mut Text, made: &Mem<ToplevelDefinition>) -> Mem<()> {
    match made {
        Ok(made) => {
            out.push_str("  named ")?;
            write_definition(alloc, out, made)
        }
        Err(_) => Err(OutOfMemory),
    }
}

/// Writes which members are additions.
fn write_additions(alloc: Global, out: &mut Text, sequence: &SequenceOrSet) -> Mem<()> {
    out.push_str("  additions")?;
    for place in 0..sequence.members.len() {
        if sequence.is_addition(place) {
            out.push_str(" ")?;
            push_decimal(alloc, out, place)?;
        }
    }
    let behind = sequence.is_addition(sequence.members.len());
    out.push_str(if behind {
        ", and one behind them\n"
    } else {
        "\n"
    })
}

fn write_additions_in(alloc: Global, out: &mut Text, definition: &ToplevelDefinition) -> Mem<()> {
    match definition {
        ToplevelDefinition::TypeDef(definition) => match &definition.ty {
            ASN1Type::Sequence(sequence) => write_additions(alloc, out, sequence),
            ASN1Type::Set(set) => write_additions(alloc, out, set),
            _ => Ok(()),
        },
        ToplevelDefinition::Value(_) | ToplevelDefinition::Information(_) => Ok(()),
    }
}

/// Writes the lines of definitions.
fn write_definitions(alloc: Global, out: &mut Text, definitions: &[ToplevelDefinition]) -> Mem<()> {
    for definition in definitions {
        write_made(
            alloc,
            out,
            &remade_definition(alloc, definition),
            definition,
        )?;
        write_named(alloc, out, &named_definition(alloc, definition))?;
        write_additions_in(alloc, out, definition)?;
    }
    Ok(())
}

/// Writes the lines of modules.
fn write_modules(
    alloc: Global,
    out: &mut Text,
    modules: &[(ModuleReference, List<ToplevelDefinition>)],
) -> Mem<()> {
    for (header, definitions) in modules {
        write_header(out, &remade_header(alloc, header), header)?;
        write_definitions(alloc, out, definitions.as_slice())?;
    }
    Ok(())
}

/// What is told of texts that are made anew.
#[derive(Clone, Copy)]
pub(crate) struct Making;

impl TellsModules for Making {
    fn tell(&self, alloc: Global, out: &mut Text, modules: &mut Reading) -> Mem<()> {
        write_modules(alloc, out, modules.as_slice())
    }

    fn tell_error(&self, _alloc: Global, out: &mut Text, _error: &SpecError) -> Mem<()> {
        out.push_str("nothing is read\n")
    }
}
