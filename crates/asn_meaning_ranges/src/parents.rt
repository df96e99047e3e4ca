//! What a constraint is put on (X.680 51.1, 51.7).

ghost use Rattle.asn_meaning_heads.specs.Places.{shown_place};
ghost use Rattle.asn_meaning_ranges.specs.Parents.{shown_parent};
ghost use Rattle.asn_meaning_ranges.specs.Sets.{shown_numbers};
ghost use Rattle.asn_meaning.specs.Ranges.{codes_of, numbers_of, value_place};
ghost use Rattle.std.specs.Option.{option_map};
ghost use Rattle.std.specs.Prelude.{◌≡◌, IfOk};

use crate::kinds::codes_at;
use crate::known::copied;
use crate::sets::Numbers;
use asn_meaning_heads::{Place, plain_text};
use asn_memory::Mem;
use std::alloc::Global;

/// What a constraint is put on: the values of a type, by its head and the whole numbers that it accepts with the constraints written
/// before; or the characters of a string, by the codes of its type's set.
#[derive(Clone, Copy)]
pub enum Parent<'h, 'n, 'a> {
    Values {
        head: &'h Place<'a>,
        numbers: &'n Option<Numbers>,
    },
    Characters(&'n Numbers),
}

/// The codes of the characters that a constraint on characters is put on.
///
/// Err: want of memory.
pub fn codes_of(alloc: Global, parent: Parent<'_, '_, '_>) -> Mem<Numbers>
    ensures { IfOk result (λ codes. shown_numbers codes ≡ codes_of (shown_parent parent.entry)) }
{
    match parent {
        Parent::Values { head, .. } => {
            let codes = codes_at(alloc, head.ty)?;
            Ok(codes)
        }
        Parent::Characters(codes) => {
            let codes = codes.copy(alloc)?;
            Ok(codes)
        }
    }
}

/// The whole numbers of the parent, or the codes of its characters.
///
/// Err: want of memory.
pub fn numbers_of(alloc: Global, parent: Parent<'_, '_, '_>) -> Mem<Option<Numbers>>
    ensures { IfOk result (λ found. option_map shown_numbers found ≡ numbers_of (shown_parent parent.entry)) }
{
    match parent {
        Parent::Values { numbers, .. } => {
            let numbers = copied(alloc, numbers)?;
            Ok(numbers)
        }
        Parent::Characters(codes) => {
            let codes = codes.copy(alloc)?;
            Ok(Some(codes))
        }
    }
}

/// The type that single values are read under; in FROM every value is a text.
///
/// Err: want of memory.
pub fn value_place<'a>(alloc: Global, parent: Parent<'_, '_, 'a>) -> Mem<Place<'a>>
    ensures { IfOk result (λ place. shown_place place ≡ value_place (shown_parent parent.entry)) }
{
    match parent {
        Parent::Values { head, .. } => {
            let place = head.copy(alloc)?;
            Ok(place)
        }
        Parent::Characters(_) => Ok(plain_text()),
    }
}
