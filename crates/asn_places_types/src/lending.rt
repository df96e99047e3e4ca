//! Types that govern, lent, and on the heap.

ghost use Rattle.asn_meaning_heads.specs.Places.{shown_place};
ghost use Rattle.asn_places_types.specs.Forms.{shown_governor};
ghost use Rattle.std.specs.Option.{option_map};
ghost use Rattle.std.specs.Prelude.{◌≡◌, IfOk};

use asn_meaning_heads::Place;
use asn_memory::{Box, Mem};
use std::alloc::Global;

/// A type that governs, lent, where there is one.
pub fn lent<'p, 'a>(place: &'p Option<Place<'a>>) -> Option<&'p Place<'a>>
    ensures { option_map (λ p. shown_place p.now) result ≡ shown_governor place.now }
{
    match place {
        None => None,
        Some(place) => Some(place),
    }
}

/// A type that governs, lent out of its box, where there is one.
pub fn unboxed<'p, 'a>(governor: &'p Option<Box<Place<'a>>>) -> Option<&'p Place<'a>>
    ensures { option_map (λ p. shown_place p.now) result ≡ shown_governor governor.now }
{
    match governor {
        None => None,
        Some(place) => Some(place.get()),
    }
}

/// A type that governs, on the heap, where there is one.
///
/// Err: want of memory.
pub fn governor_boxed<'a>(alloc: Global, place: Option<Place<'a>>) -> Mem<Option<Box<Place<'a>>>>
    ensures { IfOk result (λ governor. shown_governor governor ≡ shown_governor place.entry) }
{
    match place {
        None => Ok(None),
        Some(place) => {
            let place = Box::new(alloc, place)?;
            Ok(Some(place))
        }
    }
}
