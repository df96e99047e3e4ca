//! Rules, tried and derived. A row is a word, a depth, the name of a rule and a text: `rule` tells where the rule ends at the
//! start of the text, `height` how many calls lie within each other, too, and `tree` the node that the rule has there, with
//! its children. `rule number` has a name alone.

use asn_match::derive_rule;
use asn_memory::{Mem, Text};
use asn_rules::{Grammar, MatchFault, Node, Outcome, RuleId, outcome_of, reader_rule, try_rule};
use rows::push_decimal;
use std::alloc::Global;

/// `ends OFFSET height HEIGHT` or `fails`.
pub(crate) fn told_outcome(alloc: Global, outcome: Outcome) -> Mem<Text> {
    match outcome {
        Outcome::End { offset, height } => {
            let mut out = Text::new(alloc, "ends ")?;
            push_decimal(alloc, &mut out, offset)?;
            out.push_str(" height ")?;
            push_decimal(alloc, &mut out, height)?;
            Ok(out)
        }
        Outcome::Fail { .. } => Text::new(alloc, "fails"),
    }
}

/// `deep` or `memory`.
pub(crate) fn told_fault(alloc: Global, fault: MatchFault) -> Mem<Text> {
    match fault {
        MatchFault::TooDeep => Text::new(alloc, "deep"),
        MatchFault::OutOfMemory => Text::new(alloc, "memory"),
    }
}

/// `ends OFFSET` or `fails`.
fn told_ending(alloc: Global, outcome: Outcome) -> Mem<Text> {
    match outcome {
        Outcome::End { offset, .. } => {
            let mut out = Text::new(alloc, "ends ")?;
            push_decimal(alloc, &mut out, offset)?;
            Ok(out)
        }
        Outcome::Fail { .. } => Text::new(alloc, "fails"),
    }
}

/// What the rule comes to at the start of the text.
fn tried(alloc: Global, text: &str, rule: RuleId, depth: usize) -> Mem<Text> {
    match try_rule(alloc, text, rule, 0, depth) {
        Ok(outcome) => told_outcome(alloc, outcome),
        Err(fault) => told_fault(alloc, fault),
    }
}

/// Where the rule ends; `differs` where the call over any table does not say the same.
fn told_by_both(alloc: Global, text: &str, rule: RuleId, depth: usize) -> Mem<Text> {
    match (
        try_rule(alloc, text, rule, 0, depth),
        outcome_of(Grammar::Whole, text, rule, 0, depth),
    ) {
        (Ok(by_whole), Ok(by_any)) => {
            if by_whole == by_any {
                told_ending(alloc, by_whole)
            } else {
                Text::new(alloc, "differs")
            }
        }
        (Err(fault), Err(_)) => told_fault(alloc, fault),
        _ => Text::new(alloc, "differs"),
    }
}

/// Writes `RULE START..END`.
fn push_node(alloc: Global, out: &mut Text, node: &Node) -> Mem<()> {
    push_decimal(alloc, out, usize::from(node.rule))?;
    out.push_str(" ")?;
    push_decimal(alloc, out, node.start)?;
    out.push_str("..")?;
    push_decimal(alloc, out, node.end)
}

/// `tree RULE START..END`, and the same of each child behind a colon.
fn told_node(alloc: Global, node: &Node) -> Mem<Text> {
    let mut out = Text::new(alloc, "tree ")?;
    push_node(alloc, &mut out, node)?;
    out.push_str(":")?;
    for child in node.children.as_slice() {
        out.push_str(" ")?;
        push_node(alloc, &mut out, child)?;
    }
    Ok(out)
}

/// The tree of the rule at the start of the text.
fn derived(alloc: Global, text: &str, rule: RuleId, depth: usize) -> Mem<Text> {
    match derive_rule(alloc, Grammar::Whole, text, rule, depth) {
        Ok(Some(node)) => told_node(alloc, &node),
        Ok(None) => Text::new(alloc, "no tree"),
        Err(fault) => told_fault(alloc, fault),
    }
}

/// The number of the rule of a name.
fn told_number(alloc: Global, name: &str) -> Mem<Text> {
    match reader_rule(name) {
        Some(rule) => {
            let mut out = Text::new(alloc, "number ")?;
            push_decimal(alloc, &mut out, usize::from(rule.number))?;
            Ok(out)
        }
        None => Text::new(alloc, "no rule"),
    }
}

/// The line of a rule of this name at the start of a text.
fn line_of_rule(
    alloc: Global,
    kind: &str,
    depth: usize,
    name: &str,
    text: &str,
) -> Option<Mem<Text>> {
    match (kind, reader_rule(name)) {
        ("rule", Some(rule)) => Some(told_by_both(alloc, text, rule, depth)),
        ("height", Some(rule)) => Some(tried(alloc, text, rule, depth)),
        ("tree", Some(rule)) => Some(derived(alloc, text, rule, depth)),
        _ => None,
    }
}

/// The line of a row of these fields; None where it is none of these.
pub(crate) fn line_of(alloc: Global, fields: &[Text]) -> Option<Mem<Text>> {
    match fields {
        [kind, name] => {
            if kind.as_str() == "rule number" {
                Some(told_number(alloc, name.as_str()))
            } else {
                None
            }
        }
        [kind, depth, name, text] => match depth.as_str().parse::<usize>() {
            Ok(depth) => line_of_rule(alloc, kind.as_str(), depth, name.as_str(), text.as_str()),
            Err(_) => None,
        },
        _ => None,
    }
}
