//! Copies of a reading's definitions: as they are read, and with their numbers and their module's tagging environment.

ghost use Rattle.asn_names.specs.Definitions.{definitions_of};
ghost use Rattle.asn_names.specs.Given.{given, given_definitions, given_from};
ghost use Rattle.std.specs.Prelude.{◌≡◌, ◌++◌, IfOk, OnOk};

use asn_copy_linked::copy_toplevel_definition;
use asn_memory::{List, Mem};
use asn_tree::{Reading, TaggingEnvironment, ToplevelDefinition};
use asn_tree_tagging::ToplevelDefinitionTagging;
use std::alloc::Global;

/// A copy of a definition with its numbers and its module's environment.
fn give(
    alloc: Global,
    definition: &ToplevelDefinition,
    environment: TaggingEnvironment,
    home: usize,
    item: usize,
) -> Mem<ToplevelDefinition>
    ensures { IfOk result (λ d. d ≡ given environment home item definition.now) }
{
    let mut copy = copy_toplevel_definition(alloc, definition)?;
    copy.apply_tagging_environment(&environment);
    copy.set_index(home, item);
    Ok(copy)
}

/// Adds the definitions of a module.
fn give_module(
    alloc: Global,
    all: &mut List<ToplevelDefinition>,
    definitions: &[ToplevelDefinition],
    environment: TaggingEnvironment,
    home: usize,
) -> Mem<()>
    ensures { OnOk result (all.new ≡ all.old ++ given_from environment home 0 definitions.now) }
{
    for (item, definition) in definitions.iter().enumerate() {
        all.add(give(alloc, definition, environment, home, item)?)?;
    }
    Ok(())
}

/// All definitions of a reading, in order, with their numbers and their module's environment.
pub(crate) fn give_reading(alloc: Global, reading: &Reading) -> Mem<List<ToplevelDefinition>>
    ensures { IfOk result (λ ds. ds ≡ given_definitions reading.now) }
{
    let mut all = List::new(alloc);
    for (home, (header, definitions)) in reading.as_slice().iter().enumerate() {
        give_module(
            alloc,
            &mut all,
            definitions.as_slice(),
            header.tagging_environment,
            home,
        )?;
    }
    Ok(all)
}

/// Adds copies of definitions, in their order.
fn add_copies(
    alloc: Global,
    all: &mut List<ToplevelDefinition>,
    definitions: &[ToplevelDefinition],
) -> Mem<()>
    ensures { OnOk result (all.new ≡ all.old ++ definitions.now) }
{
    for definition in definitions {
        all.add(copy_toplevel_definition(alloc, definition)?)?;
    }
    Ok(())
}

/// Copies of all definitions of a reading, in order, as they are read.
pub(crate) fn copy_definitions(alloc: Global, reading: &Reading) -> Mem<List<ToplevelDefinition>>
    ensures { IfOk result (λ ds. ds ≡ definitions_of reading.now) }
{
    let mut all = List::new(alloc);
    for module in reading.as_slice() {
        add_copies(alloc, &mut all, module.1.as_slice())?;
    }
    Ok(all)
}
