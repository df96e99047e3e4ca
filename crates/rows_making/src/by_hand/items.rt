//! Items of objects that no text has: words of digits, and names with what stands before their last dot. Each line of the text is a word.

use asn_calls::SyntaxApplicationCalls;
use asn_memory::{List, Mem, Text};
use asn_tree::{DeclarationElsewhere, ObjectFieldIdentifier, SyntaxApplication, SyntaxToken};
use rows::push_flag;
use std::alloc::Global;

// The tokens `&id , &Type`, none of them in a group.
fn tokens(alloc: Global) -> Mem<List<(bool, SyntaxToken)>> {
    let value = ObjectFieldIdentifier::SingleValue(Text::new(alloc, "&id")?);
    let ty = ObjectFieldIdentifier::MultipleValue(Text::new(alloc, "&Type")?);
    let mut tokens = List::of(alloc, (true, SyntaxToken::Field(value)))?;
    tokens.add((true, SyntaxToken::Comma))?;
    tokens.add((true, SyntaxToken::Field(ty)))?;
    Ok(tokens)
}

// Whether the item may stand at the place of the token at the index.
fn fits(item: &SyntaxApplication, tokens: &[(bool, SyntaxToken)], index: usize) -> bool {
    match tokens.get(index) {
        Some((_, token)) => item.matches(token, tokens, index),
        None => false,
    }
}

// Writes whether the item may stand for a value, for a comma and for a type.
fn write_fitting(
    out: &mut Text,
    item: &SyntaxApplication,
    tokens: &[(bool, SyntaxToken)],
) -> Mem<()> {
    push_flag(out, ": a value", fits(item, tokens, 0))?;
    push_flag(out, ", a comma", fits(item, tokens, 1))?;
    push_flag(out, ", a type", fits(item, tokens, 2))
}

fn word(alloc: Global, text: &str) -> Mem<SyntaxApplication> {
    Ok(SyntaxApplication::Literal(Text::new(alloc, text)?))
}

// The name behind a module's: what stands before its last dot does not count.
fn name(alloc: Global, text: &str) -> Mem<SyntaxApplication> {
    let parent = Text::new(alloc, "Module")?;
    let identifier = Text::new(alloc, text)?;
    Ok(SyntaxApplication::LiteralOrTypeReference(DeclarationElsewhere {
        parent: Some(parent),
        identifier,
        constraints: List::new(alloc),
    }))
}

fn write_item(
    out: &mut Text,
    item: Mem<SyntaxApplication>,
    tokens: &[(bool, SyntaxToken)],
) -> Mem<()> {
    let item = item?;
    write_fitting(out, &item, tokens)
}

/// Writes of each line of the text where it may stand as a word, and as a name.
///
/// Err: want of memory.
pub(crate) fn write_items(alloc: Global, out: &mut Text, text: &str) -> Mem<()> {
    let tokens = tokens(alloc)?;
    for line in text.split('\n') {
        out.push_str("the word ")?;
        out.push_str(line)?;
        write_item(out, word(alloc, line), tokens.as_slice())?;
        out.push_str("; as a name")?;
        write_item(out, name(alloc, line), tokens.as_slice())?;
        out.push_str("\n")?;
    }
    Ok(())
}
