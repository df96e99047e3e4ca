//! Linking a reading.

ghost use Rattle.asn_check.specs.Judged.{AreJudgements};
ghost use Rattle.asn_check.specs.Linked.{AreLinkedOf, IsLinkedOf};
ghost use Rattle.asn_check.specs.Warnings.{AreWarnings, said_by};
ghost use Rattle.asn_names_index.specs.Definitions.{IsStanding, name_of};
ghost use Rattle.asn_link.specs.Linked.{is_told};
ghost use Rattle.asn_names_graph.specs.Drawn.{Ascend};
ghost use Rattle.asn_names.specs.Definitions.{definitions_of};
ghost use Rattle.std.specs.Prelude.{◌≡◌, IfOk, length, map};

use crate::given::{copy_definitions, give_reading};
use crate::judging::{judge_all, withheld_of};
use crate::laws::{due_are_warned, linking_keeps_meaning, warnings_are_due};
use crate::linked::Linked;
use crate::warnings::warnings_on_all;
use asn_copy_linked::copy_module_reference;
use asn_link::{LinkedDefinitions, is_told, link_definitions};
use asn_memory::{List, Mem, Text};
use asn_names::Judgement;
use asn_names_circles::{follow_no_circle, free_of_circles};
use asn_names_graph::names_of;
use asn_names_index::Names;
use asn_tree::{LinkerError, ModuleReference, Reading, ToplevelDefinition};
use std::alloc::Global;

/// Copies of the headers of a reading, in their order.
fn copy_headers(alloc: Global, reading: &Reading) -> Mem<List<ModuleReference>>
    ensures { IfOk result (λ hs. hs ≡ map (λ m. m.0) reading.now) }
{
    let mut headers = List::new(alloc);
    for item in reading.as_slice() {
        headers.add(copy_module_reference(alloc, &item.0)?)?;
    }
    Ok(headers)
}

/// The names of definitions, in their order.
///
/// Err: want of memory.
fn names_of_all(alloc: Global, definitions: &[ToplevelDefinition]) -> Mem<List<&Text>>
    ensures { IfOk result (λ names. map (λ n. n.now) names ≡ map name_of definitions.now) }
{
    let mut names = List::new(alloc);
    for definition in definitions {
        names.add(definition.name())?;
    }
    Ok(names)
}

/// What is told of each of these definitions, which stand.
///
/// Err: want of memory.
fn judge(alloc: Global, names: &Names<'_>, standing: &[&ToplevelDefinition]) -> Mem<List<Judgement>>
    requires { IsStanding names.now.definitions.now (map (λ d. d.now) standing.now) }
    ensures { IfOk result (λ js. AreJudgements names.now.definitions.now (map (λ d. name_of d.now) standing.now) js) }
{
    let free = free_of_circles(alloc, names, standing)?;
    let follow = follow_no_circle(alloc, names, standing, free.as_slice())?;
    let judgements = judge_all(alloc, names, standing, free.as_slice(), follow.as_slice())?;
    Ok(judgements)
}

/// Of each of these definitions whether it is given as read: what is told of its name.
///
/// Err: want of memory.
fn withheld_among(
    alloc: Global,
    all: &[&Text],
    withheld: &[bool],
    definitions: &[&ToplevelDefinition],
) -> Mem<List<bool>>
    requires ascend { Ascend (map (λ n. n.now) all.now) }
    requires long { length withheld.now ≡ length all.now }
    ensures { IfOk result (λ told. told ≡ map (λ d. is_told (map (λ n. n.now) all.now) withheld.now (name_of d.now)) definitions.now) }
{
    let mut told = List::new(alloc);
    for definition in definitions {
        told.add(is_told(all, withheld, definition.name()))?;
    }
    Ok(told)
}

/// What linking gives of the definitions of a reading that stand, with their numbers and their module's environment, where `withheld`
/// tells of each of these names whether its definition is given as read.
///
/// Err: want of memory.
fn link_given(
    alloc: Global,
    reading: &Reading,
    all: &[&Text],
    withheld: &[bool],
) -> Mem<LinkedDefinitions>
    requires ascend { Ascend (map (λ n. n.now) all.now) }
    requires long { length withheld.now ≡ length all.now }
    ensures { IfOk result (λ linked. AreLinkedOf reading.now (map (λ n. n.now) all.now) withheld.now linked.definitions linked.made linked.closed) }
{
    let given = give_reading(alloc, reading)?;
    let names = Names::new(alloc, &given)?;
    let standing = names.standing(alloc)?;
    let ones = standing.as_slice();
    let told = withheld_among(alloc, all, withheld, ones)?;
    let linked = link_definitions(alloc, &names, ones, told.as_slice())?;
    Ok(linked)
}

/// The linked definitions alone.
fn into_definitions(linked: LinkedDefinitions) -> List<ToplevelDefinition>
    ensures { result ≡ linked.definitions }
{
    let LinkedDefinitions {
        definitions,
        made: _,
        closed: _,
    } = linked;
    definitions
}

/// The warnings on the names of these definitions, which stand and of each of which something is told, beside what linking gives.
///
/// Err: want of memory.
fn warn_beside(
    alloc: Global,
    names: &Names<'_>,
    standing: &[&ToplevelDefinition],
    judgements: &[Judgement],
    definitions: &[ToplevelDefinition],
    made: &[bool],
) -> Mem<List<LinkerError>>
    requires stand { IsStanding names.now.definitions.now (map (λ d. d.now) standing.now) }
    requires judged { AreJudgements names.now.definitions.now (map (λ d. name_of d.now) standing.now) judgements.now }
    requires ascend { Ascend (map name_of definitions.now) }
    requires long { length made.now ≡ length definitions.now }
    ensures { IfOk result (λ warnings. AreWarnings names.now.definitions.now (is_told (map name_of definitions.now) made.now) (map said_by warnings)) }
{
    warnings_are_due();
    let all = names_of_all(alloc, definitions)?;
    let warnings = warnings_on_all(alloc, names, all.as_slice(), made, standing, judgements)?;
    Ok(warnings)
}

/// The linked answer of a reading, whose definitions as they are read are `names`, and of which these stand.
///
/// Err: want of memory.
fn link_judged(
    alloc: Global,
    reading: &Reading,
    names: &Names<'_>,
    standing: &[&ToplevelDefinition],
) -> Mem<Linked>
    requires read { names.now.definitions.now ≡ definitions_of reading.now }
    requires stand { IsStanding names.now.definitions.now (map (λ d. d.now) standing.now) }
    ensures { IfOk result (λ linked. IsLinkedOf reading.now linked) }
{
    linking_keeps_meaning();
    due_are_warned();
    let judgements = judge(alloc, names, standing)?;
    let told = judgements.as_slice();
    let all = names_of(alloc, standing)?;
    let withheld = withheld_of(alloc, told)?;
    let linked = link_given(alloc, reading, all.as_slice(), withheld.as_slice())?;
    let ones = linked.definitions.as_slice();
    let made = linked.made.as_slice();
    let warnings = warn_beside(alloc, names, standing, told, ones, made)?;
    let modules = copy_headers(alloc, reading)?;
    Ok(Linked {
        modules,
        definitions: into_definitions(linked),
        warnings,
    })
}

/// The linked answer of a reading. Each definition is given with its numbers and its module's tagging environment, and one for each name
/// stands. Linking judges each definition that leads to no circle of names, where of one that it leaves as it is this is asked of the names
/// alone that it follows (`asn_names_references::followed`). One that is judged, and in which a fault stands at a place, is given as read: a
/// wrong argument, a missing name or a form that is not linked, of which the first is warned. Of the others, one of a type that linking
/// leaves as it is, and one without parameters that has an instance within 4,096 steps and levels, or 256 where it leads to a circle of names,
/// gets that instance and its tag; every other is as it was given, and warned that it is not linked, templates of types and literals
/// aside; so, for a time, is each that is not judged. Names that several definitions have are warned of besides. Where all definitions
/// have basic forms, these are all the warnings that are due.
///
/// # Errors
///
/// Want of memory alone.
pub fn link_reading(alloc: Global, reading: &Reading) -> Mem<Linked>
    ensures { IfOk result (λ linked. IsLinkedOf reading.now linked) }
{
    let definitions = copy_definitions(alloc, reading)?;
    let names = Names::new(alloc, &definitions)?;
    let standing = names.standing(alloc)?;
    let linked = link_judged(alloc, reading, &names, standing.as_slice())?;
    Ok(linked)
}
