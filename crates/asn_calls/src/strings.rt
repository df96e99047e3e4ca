//! Calls on the character string types.

ghost use Rattle.asn_tree_notation.specs.Strings.{alone, characters, numbered, span, string_named, string_word};
ghost use Rattle.std.specs.Option.{option_to_list};
ghost use Rattle.std.specs.Prelude.{◌≡◌, ◌++◌, IfOk, OnErr, OnOk};

use asn_memory::{List, Mem};
use asn_tree::{CharacterStringType, NUMERIC_STRING_CHARSET, PRINTABLE_STRING_CHARSET};
use std::alloc::Global;
use std::collections::BTreeMap;

/// Calls on `CharacterStringType`.
pub trait CharacterStringTypeCalls {
    /// The type's characters (X.680 clause 41), numbered from 0. NumericString: the space, and `0` to `9`.
    /// PrintableString: `A` to `Z`, `a` to `z`, `0` to `9`, the space, and `'()+,-./:=?`. VisibleString: 32 to 126.
    /// IA5String: 0 to 127. All others: 0 to 65534 without surrogates.
    fn character_set(&self, alloc: Global) -> Mem<BTreeMap<usize, char>>;
}

impl CharacterStringTypeCalls for CharacterStringType {
    fn character_set(&self, alloc: Global) -> Mem<BTreeMap<usize, char>>
        ensures { IfOk result (λ set. set.entries ≡ numbered 0 (characters self.now)) }
    {
        let characters = characters(alloc, *self)?;
        numbered(alloc, characters.as_slice())
    }
}

/// The characters of a character string type in the order of their numbers (X.680 clause 41).
///
/// Err: want of memory.
pub fn characters(alloc: Global, ty: CharacterStringType) -> Mem<List<char>>
    ensures { IfOk result (λ list. list ≡ characters ty) }
{
    match ty {
        CharacterStringType::NumericString => copied(alloc, &NUMERIC_STRING_CHARSET),
        CharacterStringType::PrintableString => copied(alloc, &PRINTABLE_STRING_CHARSET),
        CharacterStringType::VisibleString => span(alloc, 32, 127),
        CharacterStringType::IA5String => span(alloc, 0, 128),
        _ => span(alloc, 0, 65535),
    }
}

fn copied(alloc: Global, characters: &[char]) -> Mem<List<char>>
    ensures { IfOk result (λ list. list ≡ characters.now) }
{
    let mut list = List::new(alloc);
    for character in characters {
        list.add(*character)?;
    }
    Ok(list)
}

// The characters from `first` on that are below `end`.
fn span(alloc: Global, first: u32, end: u32) -> Mem<List<char>>
    ensures { IfOk result (λ list. list ≡ span first end) }
{
    let mut list = List::new(alloc);
    for code in first..end {
        add(&mut list, code)?;
    }
    Ok(list)
}

// Adds the code's character, if it has one. After a refusal the list is as before.
fn add(list: &mut List<char>, code: u32) -> Mem<()>
    ensures ok { OnOk result (list.new ≡ list.old ++ alone code) }
    ensures err { OnErr result (list.new ≡ list.old) }
{
    match character(code) {
        Some(character) => list.add(character),
        None => Ok(()),
    }
}

#[tactic(auto, using(crate::proofs::CharacterSpans::character_is))]
fn character(code: u32) -> Option<char>
    ensures { option_to_list result ≡ alone code }
{
    char::from_u32(code)
}

// Each character under its place.
fn numbered(alloc: Global, characters: &[char]) -> Mem<BTreeMap<usize, char>>
    ensures { IfOk result (λ set. set.entries ≡ numbered 0 characters.now) }
{
    let mut set = BTreeMap::new(alloc);
    for place in 0..characters.len() {
        set.insert(place, characters[place])?;
    }
    Ok(set)
}

/// The type's word.
pub(crate) fn string_word(ty: CharacterStringType) -> &'static str
    ensures { result.now ≡ string_word ty }
{
    match ty {
        CharacterStringType::NumericString => "NumericString",
        CharacterStringType::VisibleString => "VisibleString",
        CharacterStringType::IA5String => "IA5String",
        CharacterStringType::TeletexString => "TeletexString",
        CharacterStringType::VideotexString => "VideotexString",
        CharacterStringType::GraphicString => "GraphicString",
        CharacterStringType::GeneralString => "GeneralString",
        CharacterStringType::UniversalString => "UniversalString",
        CharacterStringType::UTF8String => "UTF8String",
        CharacterStringType::BMPString => "BMPString",
        CharacterStringType::PrintableString => "PrintableString",
    }
}

/// The type of this word.
#[tactic(auto, unfolding(asn_tree_notation::specs::Strings::string_named))]
pub(crate) fn string_named(word: &str) -> Option<CharacterStringType>
    ensures { result ≡ string_named word.now }
{
    match word {
        "NumericString" => Some(CharacterStringType::NumericString),
        "VisibleString" => Some(CharacterStringType::VisibleString),
        "IA5String" => Some(CharacterStringType::IA5String),
        "TeletexString" => Some(CharacterStringType::TeletexString),
        "VideotexString" => Some(CharacterStringType::VideotexString),
        "GraphicString" => Some(CharacterStringType::GraphicString),
        "GeneralString" => Some(CharacterStringType::GeneralString),
        "UniversalString" => Some(CharacterStringType::UniversalString),
        "UTF8String" => Some(CharacterStringType::UTF8String),
        "BMPString" => Some(CharacterStringType::BMPString),
        "PrintableString" => Some(CharacterStringType::PrintableString),
        _ => None,
    }
}
