//! What the ends of ranges and single values denote: whole numbers, or the codes of characters.

ghost use Rattle.asn_meaning_values.specs.Denotation.{shown_denotation};
ghost use Rattle.asn_meaning_heads.specs.Scopes.{shown};
ghost use Rattle.asn_meaning_ranges.specs.Parents.{shown_parent};
ghost use Rattle.asn_meaning_ranges.specs.Sets.{shown_numbers};
ghost use Rattle.asn_meaning_ranges.specs.inner.Ends.{shown_end};
ghost use Rattle.asn_meaning_shapes.specs.Trees.{shown_tree};
ghost use Rattle.asn_meaning.specs.Answers.{Denoted};
ghost use Rattle.asn_meaning.specs.Judge.{meaning};
ghost use Rattle.asn_meaning.specs.Ranges.{end_denoted, number_denoted, number_of_tree, one_character, whole_number};
ghost use Rattle.asn_meaning.specs.ValueTrees.{Characters};
ghost use Rattle.std.specs.Option.{option_map};
ghost use Rattle.std.specs.Prelude.{◌≡◌, IfOk, ℕ, ◌+◌};
ghost use Rattle.std.specs.Str.{chars};

use crate::making::{no_number, one_number};
use crate::parents::Parent;
use crate::sets::Numbers;
use asn_meaning_heads::{Scope, ValueForm, integer_of, plain_text};
use asn_meaning_shapes::{Tree, View};
use asn_meaning_values::{Denotation, denotes};
use asn_memory::{Mem, Text};
use asn_names_index::Names;
use asn_tree::ASN1Value;
use std::alloc::Global;

/// The whole number of a tree; other trees stand for none.
fn number_in(tree: &Tree) -> Denotation<i128>
    ensures { shown_end result ≡ whole_number (Denoted (shown_tree tree.now)) }
{
    match tree.view() {
        View::Whole(number) => Denotation::Denoted(number),
        View::Null => Denotation::Nothing,
        View::Truth(_) => Denotation::Nothing,
        View::Item(_) => Denotation::Nothing,
        View::Real(_) => Denotation::Nothing,
        View::Bits(_) => Denotation::Nothing,
        View::Octets(_) => Denotation::Nothing,
        View::Text(_) => Denotation::Nothing,
        View::Arcs(_) => Denotation::Nothing,
        View::Struct(_) => Denotation::Nothing,
        View::Elements(_) => Denotation::Nothing,
        View::Alternative(_, _) => Denotation::Nothing,
        View::Opaque => Denotation::Nothing,
    }
}

/// The whole number that is denoted; other trees stand for none.
fn whole_number(found: Denotation<Tree>) -> Denotation<i128>
    ensures { shown_end result ≡ whole_number (shown_denotation found) }
{
    match found {
        Denotation::Denoted(tree) => number_in(&tree),
        Denotation::Nothing => Denotation::Nothing,
        Denotation::Unsure => Denotation::Unsure,
    }
}

/// The characters of a text.
///
/// Err: want of memory.
#[tactic(auto, using(std::proofs::lemmas::Str::chars_from_encodes))]
fn characters_of(alloc: Global, text: &str) -> Mem<Vec<char>>
    ensures { IfOk result (λ characters. characters.items ≡ chars text.now) }
{
    let characters = text.chars().collect(alloc)?;
    Ok(characters)
}

/// The code of the character that stands alone.
fn code_alone(characters: &[char]) -> Denotation<i128>
    ensures { shown_end result ≡ one_character (Denoted (Characters characters.now)) }
{
    match characters {
        [character] => Denotation::Denoted(i128::from(u32::from(*character))),
        _ => Denotation::Nothing,
    }
}

/// The code of the character of a text of one; other texts stand for none.
///
/// Err: want of memory.
fn character_in(alloc: Global, text: &Text) -> Mem<Denotation<i128>>
    ensures { IfOk result (λ code. shown_end code ≡ one_character (Denoted (Characters (chars text.now)))) }
{
    let characters = characters_of(alloc, text.as_str())?;
    Ok(code_alone(characters.as_slice()))
}

/// The code of the character of a tree that is a text of one; other trees stand for none.
///
/// Err: want of memory.
fn code_in(alloc: Global, tree: &Tree) -> Mem<Denotation<i128>>
    ensures { IfOk result (λ code. shown_end code ≡ one_character (Denoted (shown_tree tree.now))) }
{
    match tree.view() {
        View::Text(text) => {
            let code = character_in(alloc, text)?;
            Ok(code)
        }
        View::Null => Ok(Denotation::Nothing),
        View::Truth(_) => Ok(Denotation::Nothing),
        View::Whole(_) => Ok(Denotation::Nothing),
        View::Item(_) => Ok(Denotation::Nothing),
        View::Real(_) => Ok(Denotation::Nothing),
        View::Bits(_) => Ok(Denotation::Nothing),
        View::Octets(_) => Ok(Denotation::Nothing),
        View::Arcs(_) => Ok(Denotation::Nothing),
        View::Struct(_) => Ok(Denotation::Nothing),
        View::Elements(_) => Ok(Denotation::Nothing),
        View::Alternative(_, _) => Ok(Denotation::Nothing),
        View::Opaque => Ok(Denotation::Nothing),
    }
}

/// The code of the one character that is denoted; other trees stand for none.
///
/// Err: want of memory.
fn one_character(alloc: Global, found: Denotation<Tree>) -> Mem<Denotation<i128>>
    ensures { IfOk result (λ code. shown_end code ≡ one_character (shown_denotation found)) }
{
    match found {
        Denotation::Denoted(tree) => {
            let code = code_in(alloc, &tree)?;
            Ok(code)
        }
        Denotation::Nothing => Ok(Denotation::Nothing),
        Denotation::Unsure => Ok(Denotation::Unsure),
    }
}

/// What an end of a range denotes: a whole number, read with the head's named numbers; in FROM the code of a character
/// (X.680 51.4).
///
/// Err: want of memory.
pub fn end_denoted<'a>(
    alloc: Global,
    names: &Names<'a>,
    steps: usize,
    scope: &Scope<'a>,
    parent: Parent<'_, '_, 'a>,
    value: &'a ASN1Value,
) -> Mem<Denotation<i128>>
    ensures { IfOk result (λ end. (m : ℕ) → shown_end end ≡ end_denoted (meaning names.now.definitions.now (steps + m)) (shown scope.now) (shown_parent parent.entry) value.now) }
{
    let value = ValueForm::Written(value);
    match parent {
        Parent::Values { head, .. } => {
            let place = integer_of(head.ty);
            let found = denotes(alloc, names, steps, scope, value, &place)?;
            Ok(whole_number(found))
        }
        Parent::Characters(_) => {
            let place = plain_text();
            let found = denotes(alloc, names, steps, scope, value, &place)?;
            let end = one_character(alloc, found)?;
            Ok(end)
        }
    }
}

/// The set of a tree's whole number; other trees leave none.
fn number_of_tree(tree: &Tree) -> Numbers
    ensures { shown_numbers result ≡ number_of_tree (shown_tree tree.now) }
{
    match tree.view() {
        View::Whole(number) => one_number(number),
        View::Null => no_number(),
        View::Truth(_) => no_number(),
        View::Item(_) => no_number(),
        View::Real(_) => no_number(),
        View::Bits(_) => no_number(),
        View::Octets(_) => no_number(),
        View::Text(_) => no_number(),
        View::Arcs(_) => no_number(),
        View::Struct(_) => no_number(),
        View::Elements(_) => no_number(),
        View::Alternative(_, _) => no_number(),
        View::Opaque => no_number(),
    }
}

/// The set of the whole number that is denoted.
pub fn number_denoted(found: Denotation<Tree>) -> Option<Numbers>
    ensures { option_map shown_numbers result ≡ number_denoted (shown_denotation found) }
{
    match found {
        Denotation::Denoted(tree) => Some(number_of_tree(&tree)),
        Denotation::Nothing => Some(no_number()),
        Denotation::Unsure => None,
    }
}
