//! The literal or item of what a value denotes.

ghost use Rattle.asn_meaning_values.specs.Denotation.{shown_denotation};
ghost use Rattle.asn_meaning_heads.specs.Kinds.{shown_kind};
ghost use Rattle.asn_meaning_heads.specs.Places.{shown_place};
ghost use Rattle.asn_meaning_heads.specs.Scopes.{shown};
ghost use Rattle.asn_link_instance.specs.Literals.{written_by_tree};
ghost use Rattle.asn_meaning.specs.Answers.{No};
ghost use Rattle.asn_meaning.specs.Judge.{meaning};
ghost use Rattle.asn_meaning.specs.Kinds.{kind_of};
ghost use Rattle.asn_link_values.specs.Values.{shown_placed};
ghost use Rattle.std.specs.Option.{option_map};
ghost use Rattle.std.specs.Prelude.{◌≡◌, IfOk};

use crate::trees::written;
use crate::values::PlacedValue;
use asn_meaning_heads::{Kind, Place, Scope, ValueForm, kind_of};
use asn_meaning_shapes::{Answer, Tree};
use asn_meaning_values::{Denotation, is_all_within, leaf_within};
use asn_memory::Mem;
use asn_names_index::Names;
use asn_tree::ASN1Value;
use std::alloc::Global;

/// The literal or item of what is denoted under a head.
///
/// Err: want of memory.
fn denotation_written<'a>(
    alloc: Global,
    kind: Kind<'a>,
    denoted: Denotation<Tree>,
) -> Mem<Option<PlacedValue<'a>>>
    ensures { IfOk result (λ found. option_map shown_placed found ≡ written_by_tree No (shown_denotation denoted) (shown_kind kind.entry)) }
{
    match denoted {
        Denotation::Denoted(tree) => {
            let found = written(alloc, kind, &tree)?;
            Ok(found)
        }
        Denotation::Nothing => Ok(None),
        Denotation::Unsure => Ok(None),
    }
}

/// The literal or item of what a value denotes under a head.
///
/// None: there is neither, or it is not known within these steps. Err: want of memory.
pub fn denoted_written<'a>(
    alloc: Global,
    names: &Names<'a>,
    steps: usize,
    scope: &Scope<'a>,
    value: &'a ASN1Value,
    place: &Place<'a>,
) -> Mem<Option<PlacedValue<'a>>>
    ensures { IfOk result (λ found. option_map shown_placed found ≡ written_by_tree No ((meaning names.now.definitions.now steps).denotes (shown scope.now) value.now (shown_place place.now)) (kind_of (shown_place place.now))) }
{
    let denoted = leaf_within(alloc, names, steps, scope, ValueForm::Written(value), place)?;
    let found = denotation_written(alloc, kind_of(place.ty), denoted)?;
    Ok(found)
}

/// The literal or item of what a value denotes under a head, where it does not stand for ALL.
///
/// None and Err: as `denoted_written`.
pub fn tree_written<'a>(
    alloc: Global,
    names: &Names<'a>,
    steps: usize,
    scope: &Scope<'a>,
    value: &'a ASN1Value,
    place: &Place<'a>,
) -> Mem<Option<PlacedValue<'a>>>
    ensures { IfOk result (λ found. option_map shown_placed found ≡ written_by_tree ((meaning names.now.definitions.now steps).is_all (shown scope.now) value.now (shown_place place.now)) ((meaning names.now.definitions.now steps).denotes (shown scope.now) value.now (shown_place place.now)) (kind_of (shown_place place.now))) }
{
    match is_all_within(alloc, names, steps, scope, ValueForm::Written(value), place)? {
        Answer::No => {
            let found = denoted_written(alloc, names, steps, scope, value, place)?;
            Ok(found)
        }
        Answer::Yes => Ok(None),
        Answer::Unknown => Ok(None),
    }
}
