//! What lines are made of.

use asn_memory::{Mem, Text};

/// The first word where the test holds, else the other.
pub(crate) fn either(test: bool, one: &'static str, other: &'static str) -> &'static str {
    if test { one } else { other }
}

/// Writes a line of one text behind its word.
pub(crate) fn write_line(out: &mut Text, word: &str, text: &str) -> Mem<()> {
    out.push_str(word)?;
    out.push_str(text)?;
    out.push_str("\n")
}
