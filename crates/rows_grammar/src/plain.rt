//! Texts, lists, words and faults, which stand below all readers. `text` has two parts of a text and another text; `bytes`, `list` and
//! `box` have no fields; `environments` has that of a module and a tag's own; `string type` has a word; `prefixes`, `warning`, `refusal`
//! and `real` have no fields.

use asn_memory::{Box, List, Mem, Text};
use asn_tree_headers::TaggingEnvironment;
use asn_tree_leaves::{
    CharacterStringType, GrammarError, GrammarErrorType, INTERNAL_IO_FIELD_REF_TYPE_NAME_PREFIX,
    INTERNAL_NESTED_TYPE_NAME_PREFIX, LinkerError, LinkerErrorType, RealValue,
};
use rows::{push_count, push_flag};
use std::alloc::Global;

// ---- texts, lists and boxes

/// A text of two parts, how long it is, and how it stands to a copy and to another text.
fn told_text(alloc: Global, first: &str, second: &str, other: &str) -> Mem<Text> {
    let mut text = Text::new(alloc, first)?;
    text.push_str(second)?;
    let mut out = Text::new(alloc, text.as_str())?;
    push_count(alloc, &mut out, ", length ", text.len())?;
    push_flag(&mut out, ", empty", text.is_empty())?;
    let copy = text.clone()?;
    push_flag(&mut out, ", same as its copy", text == copy)?;
    let other = Text::new(alloc, other)?;
    push_flag(&mut out, ", less than the other", text < other)?;
    Ok(out)
}

/// A byte that is no UTF-8 becomes U+FFFD.
fn told_bytes(alloc: Global) -> Mem<Text> {
    Text::from_bytes(alloc, &[b'A', 255])
}

fn push_item(alloc: Global, out: &mut Text, item: Option<&usize>) -> Mem<()> {
    match item {
        Some(item) => push_count(alloc, out, " ", *item),
        None => out.push_str(" none"),
    }
}

/// The items of a list, from the first on to one behind the last.
fn push_items(alloc: Global, out: &mut Text, list: &List<usize>) -> Mem<()> {
    push_count(alloc, out, "list of ", list.len())?;
    for place in 0..=list.len() {
        push_item(alloc, out, list.get(place))?;
    }
    Ok(())
}

fn the_list(alloc: Global) -> Mem<List<usize>> {
    let mut list = List::new(alloc);
    match list.push(1) {
        Ok(()) => {}
        Err(_) => return Ok(list),
    }
    list.add(2)?;
    list.append(List::of(alloc, 3)?)?;
    if let Some(item) = list.get_mut(1) {
        *item = 5;
    }
    Ok(list)
}

fn told_list(alloc: Global) -> Mem<Text> {
    let none: List<usize> = List::new(alloc);
    let list = the_list(alloc)?;
    let mut out = Text::new(alloc, "")?;
    push_items(alloc, &mut out, &list)?;
    push_flag(&mut out, ", same as its copy", list == list.clone()?)?;
    push_flag(&mut out, ", the new list empty", none.is_empty())?;
    Ok(out)
}

fn told_box(alloc: Global) -> Mem<Text> {
    let item: Box<usize> = Box::new(alloc, 7)?;
    let mut out = Text::new(alloc, "box")?;
    push_count(alloc, &mut out, " of ", *item.get())?;
    push_flag(&mut out, ", same as its copy", item == item.clone()?)?;
    push_count(alloc, &mut out, ", out of it ", item.into_inner())?;
    Ok(out)
}

// ---- words and faults

fn environment_of(word: &str) -> TaggingEnvironment {
    match word {
        "explicit" => TaggingEnvironment::Explicit,
        "implicit" => TaggingEnvironment::Implicit,
        _ => TaggingEnvironment::Automatic,
    }
}

/// The sum of two environments. A tag without one of its own has that of its module (X.680 31.2.7).
fn told_sum(alloc: Global, module: &str, own: &str) -> Mem<Text> {
    match &environment_of(module) + &environment_of(own) {
        TaggingEnvironment::Explicit => Text::new(alloc, "explicit"),
        TaggingEnvironment::Implicit => Text::new(alloc, "implicit"),
        TaggingEnvironment::Automatic => Text::new(alloc, "automatic"),
    }
}

fn string_word(ty: CharacterStringType) -> &'static str {
    match ty {
        CharacterStringType::IA5String => "IA5String",
        CharacterStringType::TeletexString => "TeletexString",
        CharacterStringType::UTF8String => "UTF8String",
        _ => "another",
    }
}

fn told_prefixes(alloc: Global) -> Mem<Text> {
    let mut out = Text::new(alloc, INTERNAL_IO_FIELD_REF_TYPE_NAME_PREFIX)?;
    out.push_str(" ")?;
    out.push_str(INTERNAL_NESTED_TYPE_NAME_PREFIX)?;
    Ok(out)
}

fn push_name(out: &mut Text, name: &Option<Text>) -> Mem<()> {
    match name {
        Some(name) => {
            out.push_str(" in ")?;
            out.push_str(name.as_str())
        }
        None => out.push_str(" in no definition"),
    }
}

/// Writes the warning with whether it is of this kind, and whether it is of a refusal that is not linked, or of none.
fn push_warning(out: &mut Text, warning: &LinkerError, kind: LinkerErrorType) -> Mem<()> {
    out.push_str(warning.details)?;
    push_name(out, &warning.pdu)?;
    push_flag(out, ", of the kind", warning.kind == kind)?;
    push_flag(out, ", of no refusal", warning.grammar.is_none())?;
    let todo = warning.grammar == Some(GrammarErrorType::NotYetInplemented);
    push_flag(out, ", of one that is not linked", todo)
}

fn told_warning(alloc: Global) -> Mem<Text> {
    let name = Text::new(alloc, "A")?;
    let warning = LinkerError::new(Some(name), "in words", LinkerErrorType::Duplicate);
    let mut out = Text::new(alloc, "warning ")?;
    push_warning(&mut out, &warning, LinkerErrorType::Duplicate)?;
    Ok(out)
}

fn push_refusal(out: &mut Text, refusal: &GrammarError) -> Mem<()> {
    let todo = refusal.kind == GrammarErrorType::NotYetInplemented;
    push_flag(out, "refusal, not linked", todo)?;
    push_name(out, &refusal.pdu)?;
    out.push_str("; ")
}

/// A refusal before and after it is told its definition, and the warning that it becomes, before and after it is told another one.
fn told_refusal(alloc: Global) -> Mem<Text> {
    let mut out = Text::new(alloc, "")?;
    let mut refusal = GrammarError::todo();
    push_refusal(&mut out, &refusal)?;
    refusal.contextualize(alloc, "A")?;
    push_refusal(&mut out, &refusal)?;
    let mut warning = LinkerError::from(refusal);
    push_warning(&mut out, &warning, LinkerErrorType::Unknown)?;
    warning.contextualize(alloc, "B")?;
    push_name(&mut out, &warning.pdu)?;
    Ok(out)
}

fn told_real(alloc: Global) -> Mem<Text> {
    let half = RealValue {
        mantissa: 5,
        base: 10,
        exponent: -1,
    };
    let mut out = Text::new(alloc, "real")?;
    push_flag(&mut out, ", same as itself", half == half)?;
    Ok(out)
}

// ---- rows

fn line_of_one(alloc: Global, kind: &str) -> Option<Mem<Text>> {
    match kind {
        "bytes" => Some(told_bytes(alloc)),
        "list" => Some(told_list(alloc)),
        "box" => Some(told_box(alloc)),
        "prefixes" => Some(told_prefixes(alloc)),
        "warning" => Some(told_warning(alloc)),
        "refusal" => Some(told_refusal(alloc)),
        "real" => Some(told_real(alloc)),
        _ => None,
    }
}

/// The line of a row of these fields; None where it is none of these.
pub(crate) fn line_of(alloc: Global, fields: &[Text]) -> Option<Mem<Text>> {
    match fields {
        [kind] => line_of_one(alloc, kind.as_str()),
        [kind, word] => match kind.as_str() {
            "string type" => Some(Text::new(
                alloc,
                string_word(CharacterStringType::from(word.as_str())),
            )),
            _ => None,
        },
        [kind, first, second] => match kind.as_str() {
            "environments" => Some(told_sum(alloc, first.as_str(), second.as_str())),
            _ => None,
        },
        [kind, first, second, other] => match kind.as_str() {
            "text" => Some(told_text(alloc, first.as_str(), second.as_str(), other.as_str())),
            _ => None,
        },
        _ => None,
    }
}
