//! The names of definitions.

ghost use Rattle.asn_tree.specs.Calls.{name_of};
ghost use Rattle.std.specs.Prelude.{◌≡◌, IfOk, map};

use asn_memory::{List, Mem, Text};
use asn_tree::ToplevelDefinition;
use std::alloc::Global;

/// The definitions' names, in their order.
///
/// # Errors
///
/// Want of memory.
pub fn names_of<'t>(alloc: Global, definitions: &[&'t ToplevelDefinition]) -> Mem<List<&'t Text>>
    ensures { IfOk result (λ names. map (λ n. n.now) names ≡ map (λ d. name_of d.now) definitions.now) }
{
    let mut names = List::new(alloc);
    for definition in definitions {
        names.add(definition.name())?;
    }
    Ok(names)
}
