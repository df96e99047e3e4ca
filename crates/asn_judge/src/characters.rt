//! The characters of texts, and the sets that string types have of them (X.680 41).

ghost use Rattle.asn_meaning_heads.specs.Kinds.{shown_kind};
ghost use Rattle.asn_judge.specs.inner.Characters.{character_in, characters_in, only_item};
ghost use Rattle.asn_meaning_shapes.specs.Answers.{known};
ghost use Rattle.asn_meaning_shapes.specs.Trees.{shown_tree};
ghost use Rattle.asn_meaning.specs.Judge.{characters_at, in_set, is_within};
ghost use Rattle.asn_meaning.specs.Ranges.{restricted};
ghost use Rattle.asn_meaning.specs.ValueTrees.{Characters};
ghost use Rattle.std.specs.List.{list_any};
ghost use Rattle.std.specs.Option.{option_map};
ghost use Rattle.std.specs.Prelude.{◌≡◌, ◌∷◌, [], IfOk, Some, nat_eq};
ghost use Rattle.std.specs.Str.{bytes_eq, chars};

use asn_meaning_heads::Kind;
use asn_meaning_ranges::restricted;
use asn_meaning_shapes::{Answer, Tree, View};
use asn_memory::{Mem, Text};
use asn_tree::CharacterStringType;
use std::alloc::Global;

/// The text that a tree is.
pub fn text_of(tree: &Tree) -> Option<&Text>
    ensures { option_map (λ text. chars text.now) result ≡ characters_in (shown_tree tree.now) }
{
    match tree.view() {
        View::Text(text) => Some(text),
        View::Null => None,
        View::Truth(_) => None,
        View::Whole(_) => None,
        View::Item(_) => None,
        View::Real(_) => None,
        View::Bits(_) => None,
        View::Octets(_) => None,
        View::Arcs(_) => None,
        View::Struct(_) => None,
        View::Elements(_) => None,
        View::Alternative(_, _) => None,
        View::Opaque => None,
    }
}

/// The characters of a text.
///
/// Err: want of memory.
#[tactic(auto, using(std::proofs::lemmas::Str::chars_from_encodes))]
pub fn characters_of(alloc: Global, text: &str) -> Mem<Vec<char>>
    ensures { IfOk result (λ characters. characters.items ≡ chars text.now) }
{
    let characters: Vec<char> = text.chars().collect(alloc)?;
    Ok(characters)
}

/// The text of one character.
///
/// Err: want of memory.
fn text_of_one(alloc: Global, character: char) -> Mem<Text>
    ensures { IfOk result (λ text. chars text ≡ character ∷ []) }
{
    let mut buffer = [0; 4];
    let text = Text::new(alloc, character.encode_utf8(&mut buffer))?;
    Ok(text)
}

/// A text as a tree.
#[tactic(auto, using(asn_meaning_shapes::proofs::Showing::text_shown))]
fn text_tree(text: Text) -> Tree
    ensures { shown_tree result ≡ Characters (chars text) }
{
    Tree::Texted(text)
}

/// The tree of a text of one character.
///
/// Err: want of memory.
pub fn character_tree(alloc: Global, character: char) -> Mem<Tree>
    ensures { IfOk result (λ tree. shown_tree tree ≡ Characters (character ∷ [])) }
{
    let text = text_of_one(alloc, character)?;
    Ok(text_tree(text))
}

/// The one character of a list.
fn only_item(characters: &[char]) -> Option<char>
    ensures { result ≡ only_item characters.now }
{
    match characters {
        [character] => Some(*character),
        _ => None,
    }
}

/// The character of a text of one character.
///
/// Err: want of memory.
#[tactic(auto, using(crate::proofs::Spelling::no_text, crate::proofs::Spelling::some_text))]
pub fn only_character(alloc: Global, tree: &Tree) -> Mem<Option<char>>
    ensures { IfOk result (λ character. character ≡ character_in (shown_tree tree.now)) }
{
    match text_of(tree) {
        None => Ok(None),
        Some(text) => {
            let characters = characters_of(alloc, text.as_str())?;
            Ok(only_item(&characters))
        }
    }
}

/// Whether the character is one of these.
#[tactic(auto, using(crate::proofs::Spelling::occurs_first))]
pub fn occurs_among(characters: &[char], character: char) -> bool
    ensures { result ≡ list_any (λ x. bytes_eq (x ∷ []) (character ∷ [])) characters.now }
{
    for one in characters {
        if *one == character {
            return true;
        }
    }
    false
}

/// Whether the set has the character.
#[tactic(auto, using(crate::proofs::Spelling::set_first))]
fn has_character(set: &[char], character: char) -> bool
    ensures { result ≡ list_any (nat_eq character) set.now }
{
    for one in set {
        if character == *one {
            return true;
        }
    }
    false
}

/// Whether the set has each character.
#[tactic(auto, using(crate::proofs::Spelling::within_first))]
fn is_within(set: &[char], characters: &[char]) -> bool
    ensures { result ≡ is_within set.now characters.now }
{
    for character in characters {
        if !has_character(set, *character) {
            return false;
        }
    }
    true
}

/// Whether the set has each character of a text; a tree that is no text has none.
///
/// Err: want of memory.
#[tactic(auto, using(crate::proofs::Spelling::set_of_no_text, crate::proofs::Spelling::set_of_text))]
fn is_text_within(alloc: Global, set: &[char], tree: &Tree) -> Mem<Answer>
    ensures { IfOk result (λ answer. known answer ≡ in_set (Some set.now) (shown_tree tree.now)) }
{
    match text_of(tree) {
        None => Ok(Answer::Yes),
        Some(text) => {
            let characters = characters_of(alloc, text.as_str())?;
            Ok(Answer::of(is_within(set, &characters)))
        }
    }
}

/// Whether a text has characters of a string type's set alone, where the type has one.
///
/// Err: want of memory.
#[tactic(auto, using(crate::proofs::Spelling::no_set))]
fn is_restricted_to(alloc: Global, ty: CharacterStringType, tree: &Tree) -> Mem<Answer>
    ensures { IfOk result (λ answer. known answer ≡ in_set (restricted ty) (shown_tree tree.now)) }
{
    match restricted(alloc, ty)? {
        None => Ok(Answer::Yes),
        Some(set) => {
            let answer = is_text_within(alloc, set.as_slice(), tree)?;
            Ok(answer)
        }
    }
}

/// Whether a text has characters of its type's set alone: NumericString, PrintableString, VisibleString and IA5String have
/// one (X.680 41).
///
/// Err: want of memory.
pub fn characters_fit(alloc: Global, kind: Kind<'_>, tree: &Tree) -> Mem<Answer>
    ensures { IfOk result (λ answer. known answer ≡ characters_at (shown_tree tree.now) (shown_kind kind.entry)) }
{
    match kind {
        Kind::CharacterString(ty) => {
            let answer = is_restricted_to(alloc, ty, tree)?;
            Ok(answer)
        }
        Kind::Null => Ok(Answer::Yes),
        Kind::Boolean => Ok(Answer::Yes),
        Kind::Integer(_) => Ok(Answer::Yes),
        Kind::Real => Ok(Answer::Yes),
        Kind::BitString(_) => Ok(Answer::Yes),
        Kind::OctetString => Ok(Answer::Yes),
        Kind::Time => Ok(Answer::Yes),
        Kind::Enumerated(_) => Ok(Answer::Yes),
        Kind::ObjectIdentifier => Ok(Answer::Yes),
        Kind::Opaque => Ok(Answer::Yes),
        Kind::Struct(_) => Ok(Answer::Yes),
        Kind::List(_) => Ok(Answer::Yes),
        Kind::Choice(_) => Ok(Answer::Yes),
        Kind::Field(_) => Ok(Answer::Yes),
        Kind::Reference(_) => Ok(Answer::Yes),
        Kind::Selection(_) => Ok(Answer::Yes),
    }
}
