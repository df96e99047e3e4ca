//! Match tables, and what whole texts come to. `outcome`, a depth, the rule that is tried at the start, a rule, an offset and
//! a text: what the table has of the pair. `whole text`, a depth and a text: where its tree ends, or what it lacks.

ghost use Rattle.std.specs.Prelude.{◌≡◌, ◌<◌};

use crate::rules::{told_fault, told_outcome};
use asn_match::{MatchTable, WholeText, match_rule, whole_text};
use asn_memory::{Mem, Text};
use asn_probe::{Probe, Steps};
use asn_rules::{DuePlace, Grammar, MatchFault, ModulePart, RuleId, reader_rule};
use rows::push_decimal;
use std::alloc::Global;
use std::marker::Brand;
use std::sync::ledger::{Blank, Ledger};

/// The table of a rule, with a counter of its own.
fn counted<L: Ledger>(
    alloc: Global,
    text: &Probe,
    rule: RuleId,
    depth: usize,
    blank: Blank,
) -> Result<MatchTable, MatchFault>
    requires name { blank.name ≡ L.name }
    requires parts { blank.parts ≡ L.parts }
    requires some { 0 < blank.parts }
{
    let mut steps = Steps::<L>::new(blank);
    match_rule(alloc, text, rule, depth, &mut steps)
}

/// The table of a rule.
fn table_of(
    alloc: Global,
    text: &Probe,
    rule: RuleId,
    depth: usize,
) -> Result<MatchTable, MatchFault> {
    counted::<Brand>(alloc, text, rule, depth, Blank::new(1))
}

/// What the table of the first rule has of the second one at the offset.
fn found(
    alloc: Global,
    text: &str,
    start: RuleId,
    rule: RuleId,
    offset: usize,
    depth: usize,
) -> Mem<Text> {
    let probe = Probe::new(text);
    match table_of(alloc, &probe, start, depth) {
        Ok(table) => match table.outcome(rule, offset) {
            Some(outcome) => told_outcome(alloc, outcome),
            None => Text::new(alloc, "not tried"),
        },
        Err(fault) => told_fault(alloc, fault),
    }
}

fn part_word(part: ModulePart) -> &'static str {
    match part {
        ModulePart::Name => "name",
        ModulePart::Definitions => "DEFINITIONS",
        ModulePart::Assignment => "::=",
        ModulePart::Begin => "BEGIN",
        ModulePart::Closing => "END",
    }
}

/// `lacks PART at PLACE of the module at PLACE`.
fn told_due(alloc: Global, due: &DuePlace) -> Mem<Text> {
    let mut out = Text::new(alloc, "lacks ")?;
    out.push_str(part_word(due.part))?;
    out.push_str(" at ")?;
    push_decimal(alloc, &mut out, due.place)?;
    out.push_str(" of the module at ")?;
    push_decimal(alloc, &mut out, due.module)?;
    Ok(out)
}

/// `tree to END`.
fn told_end(alloc: Global, end: usize) -> Mem<Text> {
    let mut out = Text::new(alloc, "tree to ")?;
    push_decimal(alloc, &mut out, end)?;
    Ok(out)
}

/// What a whole text comes to.
fn whole(alloc: Global, text: &str, depth: usize) -> Mem<Text> {
    match whole_text(alloc, Grammar::Whole, text, depth) {
        Ok(WholeText::Tree(node)) => told_end(alloc, node.end),
        Ok(WholeText::Lacking(due)) => told_due(alloc, &due),
        Err(fault) => told_fault(alloc, fault),
    }
}

/// The line of a pair of a table.
fn line_of_pair(
    alloc: Global,
    depth: usize,
    start: &str,
    rule: &str,
    offset: &str,
    text: &str,
) -> Option<Mem<Text>> {
    match (
        reader_rule(start),
        reader_rule(rule),
        offset.parse::<usize>(),
    ) {
        (Some(start), Some(rule), Ok(offset)) => {
            Some(found(alloc, text, start, rule, offset, depth))
        }
        _ => None,
    }
}

/// The line of a whole text.
fn line_of_text(alloc: Global, kind: &str, depth: usize, text: &str) -> Option<Mem<Text>> {
    match kind {
        "whole text" => Some(whole(alloc, text, depth)),
        _ => None,
    }
}

/// The line of a row of these fields; None where it is none of these.
pub(crate) fn line_of(alloc: Global, fields: &[Text]) -> Option<Mem<Text>> {
    match fields {
        [kind, depth, start, rule, offset, text] => match depth.as_str().parse::<usize>() {
            Ok(depth) => {
                if kind.as_str() == "outcome" {
                    line_of_pair(
                        alloc,
                        depth,
                        start.as_str(),
                        rule.as_str(),
                        offset.as_str(),
                        text.as_str(),
                    )
                } else {
                    None
                }
            }
            Err(_) => None,
        },
        [kind, depth, text] => match depth.as_str().parse::<usize>() {
            Ok(depth) => line_of_text(alloc, kind.as_str(), depth, text.as_str()),
            Err(_) => None,
        },
        _ => None,
    }
}
