//! The characters of strings: a text, or the quadruple of one character (X.680 41.8).

ghost use Rattle.asn_meaning_heads.specs.Values.{shown_value};
ghost use Rattle.asn_meaning_heads.specs.Written.{shown_written};
ghost use Rattle.asn_meaning_values.specs.Braces.{shown_values};
ghost use Rattle.asn_meaning_values.specs.Texts.{text_characters};
ghost use Rattle.asn_meaning_values.specs.inner.Rows.{octet_number, quadruple_code};
ghost use Rattle.asn_meaning.specs.Rows.{character, octet_written, quadruple, string_written};
ghost use Rattle.std.specs.Option.{option_map};
ghost use Rattle.std.specs.Prelude.{◌≡◌, ◌∷◌, [], encode_utf8, IfOk};
ghost use Rattle.std.specs.Str.{chars};

use crate::braces::all_unnamed;
use crate::rows::number_written;
use asn_meaning_heads::{ValueForm, Written, value_written};
use asn_memory::{Mem, Text};
use std::alloc::Global;

/// The number of an octet, where it is one.
fn octet_number(number: i128) -> Option<u8>
    ensures { result ≡ octet_number number }
{
    if number < 0 || number > 255 {
        None
    } else {
        Some(number as u8)
    }
}

/// The number that is written, where it is one of an octet.
#[tactic(auto, using(crate::proofs::Spelling::octet_none, crate::proofs::Spelling::octet_some))]
fn octet_written(value: ValueForm<'_>) -> Option<u8>
    ensures { result ≡ octet_written (shown_value value.entry) }
{
    match number_written(value_written(value)) {
        None => None,
        Some(number) => octet_number(number),
    }
}

/// The text of one character.
///
/// Err: want of memory.
#[tactic(auto, using(crate::proofs::Spelling::one_character))]
fn text_of(alloc: Global, character: char) -> Mem<Text>
    ensures { IfOk result (λ text. chars text ≡ character ∷ []) }
{
    let mut buffer = [0; 4];
    let text = Text::new(alloc, character.encode_utf8(&mut buffer))?;
    Ok(text)
}

/// The text of the character of this code, where it is one's.
///
/// Err: want of memory.
#[tactic(auto, using(crate::proofs::Spelling::is_one, crate::proofs::Spelling::is_none))]
fn character(alloc: Global, code: u32) -> Mem<Option<Text>>
    ensures { IfOk result (λ text. option_map text_characters text ≡ character code) }
{
    match char::from_u32(code) {
        None => Ok(None),
        Some(found) => {
            let text = text_of(alloc, found)?;
            Ok(Some(text))
        }
    }
}

/// The code that a group, a plane, a row and a cell tell.
fn code_of(group: Option<u8>, plane: Option<u8>, row: Option<u8>, cell: Option<u8>) -> Option<u32>
    ensures { result ≡ quadruple_code group plane row cell }
{
    match (group, plane, row, cell) {
        (Some(group), Some(plane), Some(row), Some(cell)) => {
            if group == 0 {
                Some(65_536 * u32::from(plane) + 256 * u32::from(row) + u32::from(cell))
            } else {
                None
            }
        }
        (None, _, _, _) => None,
        (Some(_), None, _, _) => None,
        (Some(_), Some(_), None, _) => None,
        (Some(_), Some(_), Some(_), None) => None,
    }
}

/// The character that a group, a plane, a row and a cell tell.
///
/// Err: want of memory.
#[tactic(auto, using(crate::proofs::Spelling::no_code, crate::proofs::Spelling::some_code))]
fn character_of(
    alloc: Global,
    group: ValueForm<'_>,
    plane: ValueForm<'_>,
    row: ValueForm<'_>,
    cell: ValueForm<'_>,
) -> Mem<Option<Text>>
    ensures { IfOk result (λ text. option_map text_characters text ≡ quadruple (shown_value group.entry ∷ shown_value plane.entry ∷ shown_value row.entry ∷ shown_value cell.entry ∷ [])) }
{
    let group = octet_written(group);
    let plane = octet_written(plane);
    let row = octet_written(row);
    let cell = octet_written(cell);
    match code_of(group, plane, row, cell) {
        None => Ok(None),
        Some(code) => {
            let text = character(alloc, code)?;
            Ok(text)
        }
    }
}

/// The character that four values tell, and no other number of them.
///
/// Err: want of memory.
fn quadruple(alloc: Global, values: &[ValueForm<'_>]) -> Mem<Option<Text>>
    ensures { IfOk result (λ text. option_map text_characters text ≡ quadruple (shown_values values.now)) }
{
    match values {
        [group, plane, row, cell] => {
            let text = character_of(alloc, *group, *plane, *row, *cell)?;
            Ok(text)
        }
        _ => Ok(None),
    }
}

/// The string that is written: a text, or the quadruple of one character.
///
/// Err: want of memory.
#[tactic(auto, using(crate::proofs::Spelling::named_items, crate::proofs::Spelling::plain_items))]
pub fn string_written(alloc: Global, written: Written<'_>) -> Mem<Option<Text>>
    ensures { IfOk result (λ text. option_map text_characters text ≡ string_written (shown_written written.entry)) }
{
    match written {
        Written::Text(text) => {
            let text = Text::new(alloc, text.as_str())?;
            Ok(Some(text))
        }
        Written::Braces(items) => match all_unnamed(alloc, items.as_slice())? {
            None => Ok(None),
            Some(values) => {
                let text = quadruple(alloc, values.as_slice())?;
                Ok(text)
            }
        },
        Written::All => Ok(None),
        Written::Null => Ok(None),
        Written::Truth(_) => Ok(None),
        Written::Number(_) => Ok(None),
        Written::Real(_) => Ok(None),
        Written::Bits(_) => Ok(None),
        Written::BitNames(_) => Ok(None),
        Written::Octets(_) => Ok(None),
        Written::Arcs(_) => Ok(None),
        Written::Item(_) => Ok(None),
        Written::Name { .. } => Ok(None),
        Written::Fields(_) => Ok(None),
        Written::Elements(_) => Ok(None),
        Written::Alternative { .. } => Ok(None),
        Written::Nested(_) => Ok(None),
    }
}
