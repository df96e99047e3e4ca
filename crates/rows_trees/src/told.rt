//! What is told of a text that was read: of its modules, or of the definitions that are in sight in it.
//!
//! A program hands over what was read, and what it tells of trees that it borrows; the reading is let go here.

use asn_memory::{List, Mem, OutOfMemory, Text};
use asn_read_nodes::SpecError;
use asn_tree::{Reading, ToplevelDefinition};
use std::alloc::Global;

/// What is told of modules.
pub trait TellsModules {
    /// Writes what is told of modules, which it may change.
    ///
    /// Err: want of memory.
    fn tell(&self, alloc: Global, out: &mut Text, modules: &mut Reading) -> Mem<()>;

    /// Writes what is told of a text that has no reading.
    ///
    /// Err: want of memory.
    fn tell_error(&self, alloc: Global, out: &mut Text, error: &SpecError) -> Mem<()>;
}

/// What is told of definitions in sight.
pub trait TellsDefinitions {
    /// Writes what is told of these definitions.
    ///
    /// Err: want of memory.
    fn tell(
        &self,
        alloc: Global,
        out: &mut Text,
        definitions: &List<ToplevelDefinition>,
    ) -> Mem<()>;
}

/// Writes what is told of the modules of a text, or of why it has no reading.
///
/// Err: want of memory.
pub fn tell_modules<T: TellsModules>(
    alloc: Global,
    out: &mut Text,
    read: Result<Reading, SpecError>,
    teller: &T,
) -> Mem<()> {
    match read {
        Ok(mut modules) => teller.tell(alloc, out, &mut modules),
        Err(error) => teller.tell_error(alloc, out, &error),
    }
}

/// The definitions of all modules, in order.
fn in_sight(alloc: Global, modules: Reading) -> Mem<List<ToplevelDefinition>> {
    let mut all = List::new(alloc);
    for (_, definitions) in modules.into_vec() {
        all.append(definitions)?;
    }
    Ok(all)
}

fn tell_in_sight<T: TellsDefinitions>(
    alloc: Global,
    out: &mut Text,
    definitions: Mem<List<ToplevelDefinition>>,
    teller: &T,
) -> Mem<()> {
    match definitions {
        Ok(definitions) => teller.tell(alloc, out, &definitions),
        Err(_) => Err(OutOfMemory),
    }
}

/// Writes what is told of the definitions in sight in a text, which are those of all its modules, in order; or the line of one that has
/// no reading.
///
/// Err: want of memory.
pub fn tell_definitions<T: TellsDefinitions>(
    alloc: Global,
    out: &mut Text,
    read: Result<Reading, SpecError>,
    teller: &T,
) -> Mem<()> {
    match read {
        Ok(modules) => tell_in_sight(alloc, out, in_sight(alloc, modules), teller),
        Err(_) => out.push_str("not read\n"),
    }
}
