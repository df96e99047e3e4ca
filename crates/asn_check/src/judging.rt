//! The fault of a definition, by its places.

ghost use Rattle.asn_check.specs.Judged.{AreJudgements, IsJudgementOf, is_withheld};
ghost use Rattle.asn_names_circles.specs.Circles.{FollowersAre, FollowsNoCircle, FreeAre, LeadsToNoCircle};
ghost use Rattle.asn_names_index.specs.Definitions.{last_named, name_of};
ghost use Rattle.asn_names.specs.Faults.{fault_by, first_at_places, IsJudged, IsJudgement, is_settled, stays_as_read};
ghost use Rattle.std.specs.Prelude.{◌≡◌, ◌↔◌, ◌||◌, ◌&&◌, IfOk, IsTrue, map};

use crate::literals::is_own_literal;
use asn_faults::{PlaceFaults, place_faults};
use asn_meaning_unchanged::{is_unchanged, is_unchanged_type};
use asn_memory::{List, Mem};
use asn_names::{Fault, Judgement};
use asn_names_index::Names;
use asn_places_objects::Node;
use asn_tree::ToplevelDefinition;
use std::alloc::Global;

/// Within how many steps the places of a definition are computed: enough for a name that leads through all of so many definitions. Where
/// they are used up, as by a nest of templates that lies deeper, memory is wanted.
fn steps_among(definitions: usize) -> usize {
    definitions.saturating_mul(4).saturating_add(2_000)
}

/// Whether a definition is a template of a type, or its value is a literal of its type, which linking leaves as it is.
fn stays_as_read(definition: &ToplevelDefinition) -> bool
    ensures { result ≡ stays_as_read definition.now }
{
    match definition {
        ToplevelDefinition::TypeDef(definition) => definition.parameterization.is_some(),
        ToplevelDefinition::Value(definition) => {
            is_own_literal(definition) && is_unchanged_type(&definition.associated_type)
        }
        ToplevelDefinition::Information(_) => false,
    }
}

/// Whether nothing is left to be linked in a definition, where its type was linked or not.
pub(crate) fn is_settled(definition: &ToplevelDefinition, linked: bool) -> bool
    ensures { result ≡ is_settled definition.now linked }
{
    if is_unchanged(definition) {
        true
    } else if stays_as_read(definition) {
        true
    } else {
        linked
    }
}

/// What is told of a definition by its places: a wrong argument before a missing name, and that before a form that is not linked.
fn first_at_places(found: PlaceFaults) -> Judgement
    ensures { result ≡ first_at_places found.wrong_argument found.missing_name found.unlinked_form }
{
    if found.wrong_argument {
        Judgement::Faulty(Fault::Argument)
    } else if found.missing_name {
        Judgement::Faulty(Fault::MissingDependency)
    } else if found.unlinked_form {
        Judgement::Faulty(Fault::NotYetInplemented)
    } else {
        Judgement::Faultless
    }
}

/// The fault of a definition of which this is told, where nothing is left to be linked in it or something is.
pub(crate) fn fault_by(judgement: Judgement, settled: bool) -> Option<Fault>
    ensures { result ≡ fault_by judgement settled }
{
    match judgement {
        Judgement::NotJudged => Some(Fault::NotYetInplemented),
        Judgement::Faultless => {
            if settled {
                None
            } else {
                Some(Fault::NotYetInplemented)
            }
        }
        Judgement::Faulty(fault) => Some(fault),
    }
}

/// What is told of the definition that stands for a name, where it is judged.
///
/// Err: want of memory, also where the steps are used up.
fn judged(
    alloc: Global,
    names: &Names<'_>,
    steps: usize,
    name: &str,
    definition: &ToplevelDefinition,
) -> Mem<Judgement>
    requires { IsJudged names.now.definitions.now name.now definition.now }
    ensures { IfOk result (λ judgement. IsJudgement names.now.definitions.now name.now definition.now judgement) }
{
    let found = place_faults(alloc, names, steps, Node::ToDefinition(name))?;
    Ok(first_at_places(found))
}

/// Whether linking judges a definition that leads to no circle, or stays as it is and follows none.
fn is_judged(is_free: bool, unchanged: bool, follows_none: bool) -> bool
    ensures { result ≡ (is_free || (unchanged && follows_none)) }
{
    if is_free {
        true
    } else if unchanged {
        follows_none
    } else {
        false
    }
}

/// What is told of the definition that stands for a name.
///
/// Err: want of memory, also where the steps are used up.
fn judgement_of(
    alloc: Global,
    names: &Names<'_>,
    steps: usize,
    name: &str,
    definition: &ToplevelDefinition,
    is_free: bool,
    follows_none: bool,
) -> Mem<Judgement>
    requires free { IsTrue is_free ↔ LeadsToNoCircle names.now.definitions.now name.now }
    requires follows { IsTrue follows_none ↔ FollowsNoCircle names.now.definitions.now name.now }
    ensures { IfOk result (λ judgement. IsJudgement names.now.definitions.now name.now definition.now judgement) }
{
    if is_judged(is_free, is_unchanged(definition), follows_none) {
        let judgement = judged(alloc, names, steps, name, definition)?;
        Ok(judgement)
    } else {
        Ok(Judgement::NotJudged)
    }
}

/// What is told of a name: of the definition that stands for it, where one does.
///
/// Err: want of memory, also where the steps are used up.
fn judgement_on(
    alloc: Global,
    names: &Names<'_>,
    steps: usize,
    name: &str,
    is_free: bool,
    follows_none: bool,
) -> Mem<Judgement>
    requires free { IsTrue is_free ↔ LeadsToNoCircle names.now.definitions.now name.now }
    requires follows { IsTrue follows_none ↔ FollowsNoCircle names.now.definitions.now name.now }
    ensures { IfOk result (λ judgement. IsJudgementOf names.now.definitions.now name.now (last_named names.now.definitions.now name.now) judgement) }
{
    match names.last_named(name) {
        Some(definition) => {
            let judgement = judgement_of(
                alloc,
                names,
                steps,
                name,
                definition,
                is_free,
                follows_none,
            )?;
            Ok(judgement)
        }
        None => Ok(Judgement::NotJudged),
    }
}

/// What is told of the names of these definitions, in their order; `free` tells of each whether it leads to no circle, and `follow` whether
/// no name that it follows does.
///
/// Err: want of memory.
pub(crate) fn judge_all(
    alloc: Global,
    names: &Names<'_>,
    definitions: &[&ToplevelDefinition],
    free: &[bool],
    follow: &[bool],
) -> Mem<List<Judgement>>
    requires free { FreeAre names.now.definitions.now (map (λ d. name_of d.now) definitions.now) free.now }
    requires follow { FollowersAre names.now.definitions.now (map (λ d. name_of d.now) definitions.now) follow.now }
    ensures { IfOk result (λ js. AreJudgements names.now.definitions.now (map (λ d. name_of d.now) definitions.now) js) }
{
    let steps = steps_among(definitions.len());
    let mut judgements = List::new(alloc);
    for (i, definition) in definitions.iter().enumerate() {
        let name = definition.name();
        let judgement = judgement_on(alloc, names, steps, name.as_str(), free[i], follow[i])?;
        judgements.add(judgement)?;
    }
    Ok(judgements)
}

/// Whether a definition of which this is told is given as read.
fn is_withheld(judgement: Judgement) -> bool
    ensures { result ≡ is_withheld judgement }
{
    match judgement {
        Judgement::NotJudged => false,
        Judgement::Faultless => false,
        Judgement::Faulty(_) => true,
    }
}

/// Of each definition whether it is given as read.
///
/// Err: want of memory.
pub(crate) fn withheld_of(alloc: Global, judgements: &[Judgement]) -> Mem<List<bool>>
    ensures { IfOk result (λ withheld. withheld ≡ map is_withheld judgements.now) }
{
    let mut withheld = List::new(alloc);
    for judgement in judgements {
        withheld.add(is_withheld(*judgement))?;
    }
    Ok(withheld)
}
