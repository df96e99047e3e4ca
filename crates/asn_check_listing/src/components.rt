//! Names after COMPONENTS OF, and what stands between two members (X.680 25.1).

ghost use Rattle.asn_check_listing.specs.LongWords.{components_of_word};
ghost use Rattle.asn_check_listing.specs.Parts.{either, led, nothing};
ghost use Rattle.asn_check_listing.specs.Types.{between_members, components_behind, components_here, components_later, stands_here};
ghost use Rattle.asn_check_listing.specs.inner.Cursor.{name_here};
ghost use Rattle.std.specs.List.{zip};
ghost use Rattle.std.specs.Option.{option_copied};
ghost use Rattle.std.specs.Prelude.{◌≡◌, ◌++◌, ◌<◌, IfOk, OnOk, OnSome, codes, drop, get_or, length};

use crate::long_words::components_of_word;
use crate::parts::{either, write_marker};
use asn_memory::{List, Mem, Text};

/// Whether a name after COMPONENTS OF stands behind so many members, among the additions or not.
fn stands_here(additional: bool, number: usize, place: (usize, bool)) -> bool
    ensures { result ≡ stands_here additional number place }
{
    place.0 == number && (if additional { place.1 } else { !place.1 })
}

/// The place of this number.
fn place_at(places: &[(usize, bool)], number: usize) -> (usize, bool)
    requires { number < length places.now }
    ensures { result ≡ get_or places.now number result }
{
    places[number]
}

/// The name at the cursor, where it stands behind so many members, among the additions or not.
fn name_here<'a>(
    additional: bool,
    number: usize,
    names: &'a List<Text>,
    places: &[(usize, bool)],
    cursor: usize,
) -> Option<&'a Text>
    ensures name { option_copied result ≡ name_here additional number (drop cursor (zip names.now places.now)) }
    ensures within { OnSome result (cursor < length places.now) }
{
    if cursor >= places.len() {
        return None;
    }
    let place = place_at(places, cursor);
    if stands_here(additional, number, place) {
        names.get(cursor)
    } else {
        None
    }
}

/// Writes a name after COMPONENTS OF, behind what stands before it.
fn write_component(out: &mut Text, first: bool, name: &Text) -> Mem<()>
    ensures { OnOk result (out.new ≡ out.old ++ either first (codes " { ") (codes ", ") ++ components_of_word ++ name.now) }
{
    out.push_str(either(first, " { ", ", "))?;
    out.push_str(components_of_word())?;
    out.push_str(name.as_str())
}

/// Writes the names after COMPONENTS OF from the cursor on, as far as they stand behind so many members, among the additions or
/// not. Answers whether no text stands there yet, and the cursor behind these names.
#[tactic(auto, using(crate::proofs::Here::turn, crate::proofs::Here::ended))]
fn write_components_of(
    out: &mut Text,
    first: bool,
    additional: bool,
    number: usize,
    names: &List<Text>,
    places: &[(usize, bool)],
    from: usize,
) -> Mem<(bool, usize)>
    ensures text { OnOk result (out.new ≡ out.old ++ led (codes " { ") (codes ", ") first (components_here additional number (drop from (zip names.now places.now)))) }
    ensures none { IfOk result (λ next. next.0 ≡ nothing first (components_here additional number (drop from (zip names.now places.now)))) }
    ensures rest { IfOk result (λ next. drop next.1 (zip names.now places.now) ≡ components_behind additional number (drop from (zip names.now places.now))) }
{
    let mut none = first;
    let mut cursor = from;
    while let Some(name) = name_here(additional, number, names, places, cursor) {
        write_component(out, none, name)?;
        none = false;
        cursor += 1;
    }
    Ok((none, cursor))
}

/// Writes what stands behind so many members and before the next: names after COMPONENTS OF from the cursor on, and the extension
/// marker. Answers whether no text stands there yet, and the cursor behind these names.
#[tactic(auto, using(crate::proofs::Here::all_between, crate::proofs::Here::nothing_between))]
pub(crate) fn write_between(
    out: &mut Text,
    first: bool,
    names: &List<Text>,
    places: &[(usize, bool)],
    from: usize,
    marker: Option<usize>,
    number: usize,
) -> Mem<(bool, usize)>
    ensures text { OnOk result (out.new ≡ out.old ++ led (codes " { ") (codes ", ") first (between_members (drop from (zip names.now places.now)) marker number)) }
    ensures none { IfOk result (λ next. next.0 ≡ nothing first (between_members (drop from (zip names.now places.now)) marker number)) }
    ensures rest { IfOk result (λ next. drop next.1 (zip names.now places.now) ≡ components_later number (drop from (zip names.now places.now))) }
{
    let (none, cursor) = write_components_of(out, first, false, number, names, places, from)?;
    let marked = write_marker(out, none, marker, number)?;
    write_components_of(out, marked, true, number, names, places, cursor)
}
