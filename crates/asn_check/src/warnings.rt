//! The warnings of a linked answer.

ghost use Rattle.asn_check.specs.Warnings.{AreWarningsOf, AreWarningsOn, IsFaultOf, of_duplicate, of_fault, refused, said_by, warning, warning_for};
ghost use Rattle.asn_check.specs.Judged.{AreJudgements, IsJudgementOf};
ghost use Rattle.asn_names_index.specs.Definitions.{last_named, name_of};
ghost use Rattle.asn_link.specs.Linked.{is_told};
ghost use Rattle.asn_names_graph.specs.Drawn.{Ascend};
ghost use Rattle.std.specs.Prelude.{◌≡◌, ◌<◌, ◌++◌, IfOk, OnOk, get_or, length, map};

use crate::judging::{fault_by, is_settled};
use asn_copy_linked::copy_text;
use asn_link::is_told;
use asn_memory::{List, Mem, Text};
use asn_names::{Fault, Judgement};
use asn_names_index::Names;
use asn_tree::{GrammarErrorType, LinkerError, LinkerErrorType, ToplevelDefinition};
use std::alloc::Global;

/// A warning of this kind on this name.
fn warn(alloc: Global, name: &Text, kind: LinkerErrorType) -> Mem<LinkerError>
    ensures { IfOk result (λ w. said_by w ≡ warning name.now kind) }
{
    let pdu = copy_text(alloc, name)?;
    Ok(LinkerError::new(Some(pdu), details_of(kind), kind))
}

/// What is wrong, in words.
fn details_of(kind: LinkerErrorType) -> &'static str {
    match kind {
        LinkerErrorType::MissingDependency =>
            "a name has no definition of the kind that its place needs",
        LinkerErrorType::InvalidConstraintsError => "a range's minimum is above its maximum",
        LinkerErrorType::Unknown => "a form that is not linked",
        LinkerErrorType::Cycle => "the definition needs itself",
        LinkerErrorType::Argument => "an argument is missing or of the wrong kind",
        LinkerErrorType::Duplicate => "several definitions have the name; the last of them stands",
    }
}

/// A warning on this name of a form that is not linked.
fn refuse(alloc: Global, name: &Text) -> Mem<LinkerError>
    ensures { IfOk result (λ w. said_by w ≡ refused name.now GrammarErrorType.NotYetInplemented) }
{
    let pdu = copy_text(alloc, name)?;
    Ok(LinkerError {
        pdu: Some(pdu),
        details: details_of(LinkerErrorType::Unknown),
        kind: LinkerErrorType::Unknown,
        grammar: Some(GrammarErrorType::NotYetInplemented),
    })
}

/// The warning that tells a fault of the definition that stands for the name.
fn warn_of(alloc: Global, name: &Text, fault: Fault) -> Mem<LinkerError>
    ensures { IfOk result (λ w. said_by w ≡ warning_for name.now fault) }
{
    match fault {
        Fault::Argument => warn(alloc, name, LinkerErrorType::Argument),
        Fault::MissingDependency => warn(alloc, name, LinkerErrorType::MissingDependency),
        Fault::NotYetInplemented => refuse(alloc, name),
    }
}

/// Adds the warning of the fault of the definition that stands for the name, if there is one.
fn warn_of_fault(
    alloc: Global,
    warnings: &mut List<LinkerError>,
    name: &Text,
    fault: Option<Fault>,
) -> Mem<()>
    ensures { OnOk result (map said_by warnings.new ≡ map said_by warnings.old ++ of_fault name.now fault) }
{
    match fault {
        Some(fault) => warnings.add(warn_of(alloc, name, fault)?),
        None => Ok(()),
    }
}

/// The fault of the definition that stands for the name, of which this is told, where its type was linked or not.
fn standing_fault(
    names: &Names<'_>,
    name: &str,
    linked: bool,
    judgement: Judgement,
) -> Option<Fault>
    requires { IsJudgementOf names.now.definitions.now name.now (last_named names.now.definitions.now name.now) judgement }
    ensures { IsFaultOf names.now.definitions.now name.now linked (last_named names.now.definitions.now name.now) result }
{
    match names.last_named(name) {
        Some(definition) => fault_by(judgement, is_settled(definition, linked)),
        None => None,
    }
}

/// Adds Duplicate on the name, where several definitions have it.
fn warn_of_duplicate(
    alloc: Global,
    warnings: &mut List<LinkerError>,
    name: &Text,
    several: bool,
) -> Mem<()>
    ensures { OnOk result (map said_by warnings.new ≡ map said_by warnings.old ++ of_duplicate name.now several) }
{
    if several {
        warnings.add(warn(alloc, name, LinkerErrorType::Duplicate)?)
    } else {
        Ok(())
    }
}

/// All warnings on a name, of whose definition this is told, where `made` tells of each of all names whether the type of its definition
/// was linked.
///
/// Err: want of memory.
fn warnings_on(
    alloc: Global,
    names: &Names<'_>,
    all: &[&Text],
    made: &[bool],
    name: &Text,
    judgement: Judgement,
) -> Mem<List<LinkerError>>
    requires ascend { Ascend (map (λ n. n.now) all.now) }
    requires long { length made.now ≡ length all.now }
    requires judged { IsJudgementOf names.now.definitions.now name.now (last_named names.now.definitions.now name.now) judgement }
    ensures { IfOk result (λ ws. AreWarningsOn names.now.definitions.now (is_told (map (λ n. n.now) all.now) made.now) name.now (map said_by ws)) }
{
    let linked = is_told(all, made, name);
    let fault = standing_fault(names, name.as_str(), linked, judgement);
    let mut warnings = List::new(alloc);
    warn_of_fault(alloc, &mut warnings, name, fault)?;
    let several = names.is_duplicate(name.as_str());
    warn_of_duplicate(alloc, &mut warnings, name, several)?;
    Ok(warnings)
}

/// What is told at a place.
fn told_at(judgements: &[Judgement], place: usize) -> Judgement
    requires { place < length judgements.now }
    ensures { result ≡ get_or judgements.now place result }
{
    judgements[place]
}

/// All warnings on the names of these definitions, in their order, of each of which something is told; `made` tells of each of all names
/// whether the type of its definition was linked.
///
/// Err: want of memory.
pub(crate) fn warnings_on_all(
    alloc: Global,
    names: &Names<'_>,
    all: &[&Text],
    made: &[bool],
    definitions: &[&ToplevelDefinition],
    judgements: &[Judgement],
) -> Mem<List<LinkerError>>
    requires ascend { Ascend (map (λ n. n.now) all.now) }
    requires long { length made.now ≡ length all.now }
    requires judged { AreJudgements names.now.definitions.now (map (λ d. name_of d.now) definitions.now) judgements.now }
    ensures { IfOk result (λ ws. AreWarningsOf names.now.definitions.now (is_told (map (λ n. n.now) all.now) made.now) (map (λ d. name_of d.now) definitions.now) (map said_by ws)) }
{
    let mut warnings = List::new(alloc);
    for (i, definition) in definitions.iter().enumerate() {
        let name = definition.name();
        let judgement = told_at(judgements, i);
        let here = warnings_on(alloc, names, all, made, name, judgement)?;
        warnings.append(here)?;
    }
    Ok(warnings)
}
