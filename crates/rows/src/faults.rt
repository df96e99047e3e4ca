//! The line of a reader that gives nothing: `fails NAME OFFSET`, `deep` or `memory`.

use crate::answers::push_decimal;
use asn_memory::{Mem, Text};
use asn_text::{ErrorKind, ErrorTree, Input, ParseFault};
use std::alloc::Global;

/// The name of the reader that a failure tells; empty where it tells a combinator's kind.
pub fn fault_name(kind: ErrorKind) -> &'static str {
    match kind {
        ErrorKind::External(name) => name,
        ErrorKind::Nom(_) => "",
    }
}

/// `fails NAME OFFSET`.
fn failure_line<'a>(alloc: Global, input: Input<'a>, kind: ErrorKind) -> Mem<Text> {
    let mut out = Text::new(alloc, "fails ")?;
    out.push_str(fault_name(kind))?;
    out.push_str(" ")?;
    push_decimal(alloc, &mut out, input.offset())?;
    Ok(out)
}

/// The line of a fault, which is let go. A reader by itself fails with a leaf; of any other tree the line is `fails`.
///
/// Err: want of memory.
pub fn fault_line<'a>(alloc: Global, fault: ParseFault<'a>) -> Mem<Text> {
    match fault {
        ParseFault::TooDeep => Text::new(alloc, "deep"),
        ParseFault::OutOfMemory => Text::new(alloc, "memory"),
        ParseFault::Fail(ErrorTree::Leaf { input, kind }) => failure_line(alloc, input, kind),
        ParseFault::Fail(_) => Text::new(alloc, "fails"),
    }
}
