//! Copies of faults, and the warning that a refusal becomes.

use crate::by_hand::comparing::{is_made, is_same, push_rows};
use asn_copy::{copy_grammar_error, copy_link_fault, copy_linker_error};
use asn_memory::{Mem, Text};
use asn_tree::{GrammarError, GrammarErrorType, LinkFault, LinkerError, LinkerErrorType};
use std::alloc::Global;

// A refusal in the definition of `A`.
fn refusal(alloc: Global) -> Mem<GrammarError> {
    Ok(GrammarError {
        details: "no range",
        kind: GrammarErrorType::UnpackingError,
        pdu: Some(Text::new(alloc, "A")?),
    })
}

// The warning that stands for the refusal.
fn warning(alloc: Global) -> Mem<LinkerError> {
    Ok(LinkerError::from(refusal(alloc)?))
}

fn wanted_warning(alloc: Global) -> Mem<LinkerError> {
    Ok(LinkerError {
        pdu: Some(Text::new(alloc, "A")?),
        details: "no range",
        kind: LinkerErrorType::Unknown,
        grammar: Some(GrammarErrorType::UnpackingError),
    })
}

fn is_refusal_copied(alloc: Global) -> Mem<bool> {
    let refusal = refusal(alloc)?;
    is_same(copy_grammar_error(alloc, &refusal), &refusal)
}

fn is_warning_copied(alloc: Global) -> Mem<bool> {
    let warning = warning(alloc)?;
    is_same(copy_linker_error(alloc, &warning), &warning)
}

fn is_fault_copied(alloc: Global) -> Mem<bool> {
    let fault = LinkFault::Grammar(refusal(alloc)?);
    is_same(copy_link_fault(alloc, &fault), &fault)
}

/// Writes whether each fault is copied, and whether a refusal becomes its warning.
///
/// Err: want of memory.
pub(crate) fn write_rows(alloc: Global, out: &mut Text) -> Mem<()> {
    push_rows(
        out,
        &[
            ("a refusal", is_refusal_copied(alloc)),
            ("a warning", is_warning_copied(alloc)),
            ("a fault", is_fault_copied(alloc)),
            (
                "want of memory",
                is_same(
                    copy_link_fault(alloc, &LinkFault::OutOfMemory),
                    &LinkFault::OutOfMemory,
                ),
            ),
            (
                "the warning of a refusal",
                is_made(warning(alloc), wanted_warning(alloc)),
            ),
        ],
    )
}
