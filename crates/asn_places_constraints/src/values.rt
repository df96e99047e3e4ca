//! Values in a set of values. In SIZE each is a whole number, in FROM a text (X.680 51.5, 51.7).

ghost use Rattle.asn_meaning_heads.specs.Places.{shown_place};
ghost use Rattle.asn_meaning.specs.Ranges.{integer_named};
ghost use Rattle.asn_needs.specs.PartsOfConstraints.{asked_site, asked_under, asked_value, end_at, end_sites};
ghost use Rattle.asn_places_types.specs.Forms.{shown_asked, shown_governor, shown_value_at};
ghost use Rattle.asn_places_types.specs.Sites.{shown_around, shown_sites};
ghost use Rattle.std.specs.Option.{option_copied, option_map};
ghost use Rattle.std.specs.Prelude.{◌≡◌, ◌++◌, ◌∷◌, [], IfOk, None};

use asn_meaning_heads::{Place, TypeForm, ValueForm, integer_of, plain_text};
use asn_memory::{Box, List, Mem};
use asn_places_types::{
    Around, Asked, Form, Site, ValuePlace, governor_boxed, governor_copied, shared, with_site,
    without_way,
};
use asn_tree::ASN1Value;
use std::alloc::Global;
use std::rc::Rc;

/// INTEGER without named numbers.
fn whole_number<'a>() -> Place<'a>
    ensures { shown_place result ≡ integer_named None }
{
    integer_of(TypeForm::Integer(None))
}

/// The type that governs a value.
///
/// Err: want of memory.
fn asked_under<'a>(alloc: Global, asked: Asked, place: Option<&Place<'a>>) -> Mem<Option<Place<'a>>>
    ensures { IfOk result (λ governor. shown_governor governor ≡ asked_under (shown_asked asked) (option_map (λ p. shown_place p.now) place.entry)) }
{
    match asked {
        Asked::OfValues => {
            let copy = governor_copied(alloc, place)?;
            Ok(copy)
        }
        Asked::OfLengths => Ok(Some(whole_number())),
        Asked::OfCharacters => Ok(Some(plain_text())),
    }
}

/// The type that governs a value, on the heap.
///
/// Err: want of memory.
fn asked_governor<'a>(
    alloc: Global,
    asked: Asked,
    place: Option<&Place<'a>>,
) -> Mem<Option<Box<Place<'a>>>>
    ensures { IfOk result (λ governor. shown_governor governor ≡ asked_under (shown_asked asked) (option_map (λ p. shown_place p.now) place.entry)) }
{
    let governor = asked_under(alloc, asked, place)?;
    let governor = governor_boxed(alloc, governor)?;
    Ok(governor)
}

/// What surrounds a value: in SIZE and FROM nothing was followed to a constrained part.
///
/// Err: want of memory.
fn asked_around<'a>(alloc: Global, around: &Rc<Around<'a>>, asked: Asked) -> Mem<Rc<Around<'a>>>
    ensures { IfOk result (λ inner. shown_around inner.value ≡ asked_site (shown_asked asked) (shown_around around.now.value)) }
{
    match asked {
        Asked::OfValues => {
            let inner = shared(around)?;
            Ok(inner)
        }
        Asked::OfLengths => {
            let inner = without_way(alloc, around)?;
            Ok(inner)
        }
        Asked::OfCharacters => {
            let inner = without_way(alloc, around)?;
            Ok(inner)
        }
    }
}

/// The sites with a value of a set.
///
/// Err: want of memory.
pub fn with_asked_value<'a>(
    alloc: Global,
    sites: List<Site<'a>>,
    around: &Rc<Around<'a>>,
    asked: Asked,
    at: ValuePlace,
    place: Option<&Place<'a>>,
    value: &'a ASN1Value,
) -> Mem<List<Site<'a>>>
    ensures { IfOk result (λ more. shown_sites more ≡ shown_sites sites.entry ++ asked_value (shown_around around.now.value) (shown_asked asked) (shown_value_at at) (option_map (λ p. shown_place p.now) place.entry) value.now ∷ []) }
{
    let inner = asked_around(alloc, around, asked)?;
    let governor = asked_governor(alloc, asked, place)?;
    let form = Form::AValue(at, ValueForm::Written(value), governor);
    let sites = with_site(sites, &inner, form)?;
    Ok(sites)
}

/// Where the end of a range stands.
fn end_at(asked: Asked) -> ValuePlace
    ensures { shown_value_at result ≡ end_at (shown_asked asked) }
{
    match asked {
        Asked::OfValues => ValuePlace::AsEnd,
        Asked::OfLengths => ValuePlace::AsBound,
        Asked::OfCharacters => ValuePlace::AsBound,
    }
}

/// The sites with an end of a range, where one is written.
///
/// Err: want of memory.
#[tactic(auto, using(asn_places_types::proofs::Adding::nothing_more))]
fn with_end<'a>(
    alloc: Global,
    sites: List<Site<'a>>,
    around: &Rc<Around<'a>>,
    asked: Asked,
    place: Option<&Place<'a>>,
    end: Option<&'a ASN1Value>,
) -> Mem<List<Site<'a>>>
    ensures { IfOk result (λ more. shown_sites more ≡ shown_sites sites.entry ++ end_sites (shown_around around.now.value) (shown_asked asked) (option_map (λ p. shown_place p.now) place.entry) (option_copied end.entry)) }
{
    match end {
        None => Ok(sites),
        Some(value) => {
            let at = end_at(asked);
            let sites = with_asked_value(alloc, sites, around, asked, at, place, value)?;
            Ok(sites)
        }
    }
}

/// The sites with both ends of a range, as far as they are written (X.680 51.4).
///
/// Err: want of memory.
#[tactic(auto, using(asn_places_types::proofs::Adding::then_more))]
pub fn with_ends<'a>(
    alloc: Global,
    sites: List<Site<'a>>,
    around: &Rc<Around<'a>>,
    asked: Asked,
    place: Option<&Place<'a>>,
    low: Option<&'a ASN1Value>,
    high: Option<&'a ASN1Value>,
) -> Mem<List<Site<'a>>>
    ensures { IfOk result (λ more. shown_sites more ≡ shown_sites sites.entry ++ (end_sites (shown_around around.now.value) (shown_asked asked) (option_map (λ p. shown_place p.now) place.entry) (option_copied low.entry) ++ end_sites (shown_around around.now.value) (shown_asked asked) (option_map (λ p. shown_place p.now) place.entry) (option_copied high.entry))) }
{
    let sites = with_end(alloc, sites, around, asked, place, low)?;
    let sites = with_end(alloc, sites, around, asked, place, high)?;
    Ok(sites)
}
