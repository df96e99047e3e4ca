//! The texts of what holds no tree: words, numbers, names, tags.

ghost use Rattle.asn_check_listing.specs.Parts.{braced, listed};
ghost use Rattle.asn_check_listing.specs.Words.{class_word, doubled, environment_word, field_name, item_text, items_text, name_text, number_text, numbered_name, numbers_text, operator_text, path_text, presence_text, quoted, tag_text};
ghost use Rattle.asn_tree_notation.specs.Strings.{string_word};
ghost use Rattle.std.specs.Fmt.{signed_decimal};
ghost use Rattle.std.specs.Prelude.{◌≡◌, ◌++◌, OnOk, map};

use crate::parts::{either, write_before, write_marker};
use asn_memory::{List, Mem, Text};
use asn_tree_headers::{AsnTag, TagClass, TaggingEnvironment};
use asn_tree_kinds::{ComponentPresence, DistinguishedValue, Enumeral, SetOperator};
use asn_tree_leaves::{CharacterStringType, ObjectFieldIdentifier};
use std::alloc::Global;

/// Writes a whole number in decimal digits, a minus before it where it is negative, as `-5` (X.680 19.9).
///
/// Err: want of memory.
pub fn write_number(alloc: Global, out: &mut Text, number: i128) -> Mem<()>
    ensures { OnOk result (out.new ≡ out.old ++ signed_decimal number) }
{
    let digits = number.to_string(alloc)?;
    out.push_str(digits.as_str())
}

/// Writes the text with each double quote in it twice (X.680 12.14).
#[tactic(auto, using(crate::proofs::Doubled::doubled_next, crate::proofs::Doubled::doubled_none))]
fn write_doubled(out: &mut Text, text: &str) -> Mem<()>
    ensures { OnOk result (out.new ≡ out.old ++ doubled text.now) }
{
    let mut rest = text;
    while let Some((before, behind)) = rest.split_once('"') {
        out.push_str(before)?;
        out.push_str("\"\"")?;
        rest = behind;
    }
    out.push_str(rest)
}

/// Writes the text between double quotes, each double quote in it twice, as `"a""b"` (X.680 12.14).
///
/// Err: want of memory.
pub fn write_quoted(out: &mut Text, text: &str) -> Mem<()>
    ensures { OnOk result (out.new ≡ out.old ++ quoted text.now) }
{
    out.push_str("\"")?;
    write_doubled(out, text)?;
    out.push_str("\"")
}

fn class_word(class: TagClass) -> &'static str
    ensures { result.now ≡ class_word class }
{
    match class {
        TagClass::Universal => "UNIVERSAL ",
        TagClass::Application => "APPLICATION ",
        TagClass::Private => "PRIVATE ",
        TagClass::ContextSpecific => "",
    }
}

fn environment_word(environment: TaggingEnvironment) -> &'static str
    ensures { result.now ≡ environment_word environment }
{
    match environment {
        TaggingEnvironment::Automatic => "",
        TaggingEnvironment::Implicit => "IMPLICIT ",
        TaggingEnvironment::Explicit => "EXPLICIT ",
    }
}

/// Writes a tag with the space behind it, where there is one, as `[APPLICATION 1] IMPLICIT ` (X.680 31.2).
///
/// Err: want of memory.
pub fn write_tag(alloc: Global, out: &mut Text, tag: &Option<AsnTag>) -> Mem<()>
    ensures { OnOk result (out.new ≡ out.old ++ tag_text tag.now) }
{
    match tag {
        None => Ok(()),
        Some(tag) => {
            out.push_str("[")?;
            out.push_str(class_word(tag.tag_class))?;
            let digits = tag.id.to_string(alloc)?;
            out.push_str(digits.as_str())?;
            out.push_str("] ")?;
            out.push_str(environment_word(tag.environment))
        }
    }
}

/// Writes a name with its number in parentheses, as `a(0)` (X.680 19.1).
///
/// Err: want of memory.
pub fn write_named(alloc: Global, out: &mut Text, name: &Text, number: i128) -> Mem<()>
    ensures { OnOk result (out.new ≡ out.old ++ numbered_name name.now number) }
{
    out.push_str(name.as_str())?;
    out.push_str("(")?;
    write_number(alloc, out, number)?;
    out.push_str(")")
}

/// Writes named numbers or named bits between braces.
fn write_named_numbers(alloc: Global, out: &mut Text, numbers: &[DistinguishedValue]) -> Mem<()>
    ensures { OnOk result (out.new ≡ out.old ++ braced (map number_text numbers.now)) }
{
    let mut first = true;
    for number in numbers {
        out.push_str(either(first, " { ", ", "))?;
        write_named(alloc, out, &number.name, number.value)?;
        first = false;
    }
    out.push_str(either(first, " {}", " }"))
}

/// Writes named numbers or named bits between braces, behind a space, where their braces stand, as ` { a(0), b(1) }`
/// (X.680 19.1, 22.1).
///
/// Err: want of memory.
pub fn write_numbers(
    alloc: Global,
    out: &mut Text,
    numbers: &Option<List<DistinguishedValue>>,
) -> Mem<()>
    ensures { OnOk result (out.new ≡ out.old ++ numbers_text numbers.now) }
{
    match numbers {
        Some(numbers) => write_named_numbers(alloc, out, numbers.as_slice()),
        None => Ok(()),
    }
}

/// Writes the items of an ENUMERATED between braces, behind a space, with the extension marker at its place, as
/// ` { a(0), ..., b(1) }` (X.680 20.1).
///
/// Err: want of memory.
#[tactic(auto, using(crate::proofs::Marked::item_next, crate::proofs::Marked::item_led, crate::proofs::Marked::items_done))]
pub fn write_items(
    alloc: Global,
    out: &mut Text,
    marker: Option<usize>,
    items: &[Enumeral],
) -> Mem<()>
    ensures { OnOk result (out.new ≡ out.old ++ items_text marker items.now) }
{
    let mut first = true;
    for (number, item) in items.iter().enumerate() {
        first = write_marker(out, first, marker, number)?;
        out.push_str(either(first, " { ", ", "))?;
        write_named(alloc, out, &item.name, item.index)?;
        first = false;
    }
    let none = write_marker(out, first, marker, items.len())?;
    out.push_str(either(none, " {}", " }"))
}

/// The operator between elements, with a space on either side (X.680 50.1).
pub fn operator_word(operator: SetOperator) -> &'static str
    ensures { result.now ≡ operator_text operator }
{
    match operator {
        SetOperator::Intersection => " ^ ",
        SetOperator::Union => " | ",
        SetOperator::Except => " EXCEPT ",
    }
}

/// The word of presence behind a component, with the space before it (X.680 51.8.9).
pub fn presence_word(presence: ComponentPresence) -> &'static str
    ensures { result.now ≡ presence_text presence }
{
    match presence {
        ComponentPresence::Absent => " ABSENT",
        ComponentPresence::Present => " PRESENT",
        ComponentPresence::Optional => " OPTIONAL",
        ComponentPresence::Unspecified => "",
    }
}

/// The word of a character string type (X.680 41.1).
pub fn string_word(ty: CharacterStringType) -> &'static str
    ensures { result.now ≡ string_word ty }
{
    match ty {
        CharacterStringType::NumericString => "NumericString",
        CharacterStringType::VisibleString => "VisibleString",
        CharacterStringType::IA5String => "IA5String",
        CharacterStringType::TeletexString => "TeletexString",
        CharacterStringType::VideotexString => "VideotexString",
        CharacterStringType::GraphicString => "GraphicString",
        CharacterStringType::GeneralString => "GeneralString",
        CharacterStringType::UniversalString => "UniversalString",
        CharacterStringType::UTF8String => "UTF8String",
        CharacterStringType::BMPString => "BMPString",
        CharacterStringType::PrintableString => "PrintableString",
    }
}

/// The name of a field of a class with its `&` (X.681 clause 7).
pub fn field_name(field: &ObjectFieldIdentifier) -> &str
    ensures { result.now ≡ field_name field.now }
{
    match field {
        ObjectFieldIdentifier::SingleValue(name) => name.as_str(),
        ObjectFieldIdentifier::MultipleValue(name) => name.as_str(),
    }
}

/// Writes names of fields, each behind a dot, as `.&A.&b` (X.681 14.1).
///
/// Err: want of memory.
pub fn write_path(out: &mut Text, path: &[ObjectFieldIdentifier]) -> Mem<()>
    ensures { OnOk result (out.new ≡ out.old ++ path_text path.now) }
{
    for field in path {
        out.push_str(".")?;
        out.push_str(field_name(field))?;
    }
    Ok(())
}

/// Writes a name, behind the object or class that it is a field of, as `o.&id` (X.681 clause 15).
///
/// Err: want of memory.
pub fn write_name(out: &mut Text, parent: &Option<Text>, name: &Text) -> Mem<()>
    ensures { OnOk result (out.new ≡ out.old ++ name_text parent.now name.now) }
{
    write_before(out, parent, ".&")?;
    out.push_str(name.as_str())
}

/// Writes names between braces, as `{a, b}`: the bits that a value names (X.680 22.9), the symbols of a list (X.680 13.1).
///
/// Err: want of memory.
pub fn write_names(out: &mut Text, names: &[Text]) -> Mem<()>
    ensures { OnOk result (out.new ≡ out.old ++ listed names.now) }
{
    out.push_str("{")?;
    let mut first = true;
    for name in names {
        out.push_str(either(first, "", ", "))?;
        out.push_str(name.as_str())?;
        first = false;
    }
    out.push_str("}")
}
