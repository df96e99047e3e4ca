//! Copies of readings.

ghost use Rattle.std.specs.Prelude.{◌≡◌, IfOk};

use asn_copy_linked::{both, copy_list, copy_module_reference, copy_toplevel_definition};
use asn_memory::{List, Mem};
use asn_tree::{ModuleReference, Reading, ToplevelDefinition};
use std::alloc::Global;

// A copy of a definition. A function of this crate, since the copy of another can't be handed over.
fn copy_definition(alloc: Global, value: &ToplevelDefinition) -> Mem<ToplevelDefinition>
    ensures { IfOk result (λ copy. copy ≡ value.now) }
{
    copy_toplevel_definition(alloc, value)
}

// A copy of a module: its header and its definitions.
fn copy_module(
    alloc: Global,
    value: &(ModuleReference, List<ToplevelDefinition>),
) -> Mem<(ModuleReference, List<ToplevelDefinition>)>
    ensures { IfOk result (λ copy. copy ≡ value.now) }
{
    both(
        copy_module_reference(alloc, &value.0),
        copy_list(alloc, &value.1, copy_definition),
    )
}

/// A copy of a reading.
///
/// Err: want of memory.
pub fn copy_reading(alloc: Global, value: &Reading) -> Mem<Reading>
    ensures { IfOk result (λ copy. copy ≡ value.now) }
{
    copy_list(alloc, value, copy_module)
}
