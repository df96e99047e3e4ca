//! Copies of the faults that warnings and refusals name.

ghost use Rattle.std.specs.Prelude.{◌≡◌, IfOk};

use asn_copy_linked::copy_optional_text;
use asn_memory::Mem;
use asn_tree::{GrammarError, LinkFault, LinkerError};
use std::alloc::Global;

/// A copy of a refusal.
///
/// Err: want of memory.
pub fn copy_grammar_error(alloc: Global, value: &GrammarError) -> Mem<GrammarError>
    ensures { IfOk result (λ copy. copy ≡ value.now) }
{
    Ok(GrammarError {
        details: value.details,
        kind: value.kind,
        pdu: copy_optional_text(alloc, &value.pdu)?,
    })
}

/// A copy of a warning.
///
/// Err: want of memory.
pub fn copy_linker_error(alloc: Global, value: &LinkerError) -> Mem<LinkerError>
    ensures { IfOk result (λ copy. copy ≡ value.now) }
{
    Ok(LinkerError {
        pdu: copy_optional_text(alloc, &value.pdu)?,
        details: value.details,
        kind: value.kind,
        grammar: value.grammar,
    })
}

/// A copy of what says why a tree is not linked.
///
/// Err: want of memory, which is no copy of the fault of that name.
pub fn copy_link_fault(alloc: Global, value: &LinkFault) -> Mem<LinkFault>
    ensures { IfOk result (λ copy. copy ≡ value.now) }
{
    match value {
        LinkFault::Grammar(refusal) => Ok(LinkFault::Grammar(copy_grammar_error(alloc, refusal)?)),
        LinkFault::OutOfMemory => Ok(LinkFault::OutOfMemory),
    }
}
