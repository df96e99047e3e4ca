//! What is answered about a class's own syntax.

use crate::words::either;
use asn_calls::{InformationObjectSyntaxCalls, SyntaxTokenCalls};
use asn_memory::{Mem, Text};
use asn_tree::InformationObjectClass;
use asn_tree_leaves::SyntaxToken;
use rows::push_decimal;
use std::alloc::Global;

/// Writes the tokens of a class's own syntax, with their places.
pub(crate) fn write_class(
    alloc: Global,
    out: &mut Text,
    class: &InformationObjectClass,
) -> Mem<()> {
    match &class.syntax {
        Some(syntax) => {
            let tokens = syntax.flatten(alloc)?;
            write_tokens(alloc, out, tokens.as_slice())
        }
        None => out.push_str("  no syntax\n"),
    }
}

fn write_tokens(alloc: Global, out: &mut Text, tokens: &[(bool, SyntaxToken)]) -> Mem<()> {
    for place in 0..tokens.len() {
        let (is_required, token) = &tokens[place];
        out.push_str("  token ")?;
        write_place(alloc, out, place, token)?;
        out.push_str(either(*is_required, ", required", ", in a group"))?;
        write_field(out, token.name_or_empty())?;
    }
    Ok(())
}

/// Writes a token as it is written, behind its place.
pub(crate) fn write_place(
    alloc: Global,
    out: &mut Text,
    place: usize,
    token: &SyntaxToken,
) -> Mem<()> {
    push_decimal(alloc, out, place)?;
    out.push_str(" ")?;
    out.push_str(token.as_str())
}

fn write_field(out: &mut Text, name: &str) -> Mem<()> {
    if name.is_empty() {
        return out.push_str(", no field\n");
    }
    out.push_str(", the field ")?;
    out.push_str(name)?;
    out.push_str("\n")
}
