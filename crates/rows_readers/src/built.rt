//! Trees at offsets of a table. A row is `at`, a depth, the rule that is tried at the start of the text, the rule of the tree, its
//! offset, and the text. The answer is that of the tree's reader there; `not there`, where the table has no such ending.

ghost use Rattle.asn_match.specs.Table.{Holds};
ghost use Rattle.asn_rules.specs.Whole.{whole_rules};
ghost use Rattle.std.specs.Prelude.{◌≡◌, ◌<◌, IfOk};

use asn_match::{MatchTable, match_rule};
use asn_memory::{Mem, Text};
use asn_probe::{Probe, Steps};
use asn_read_pieces::asn_tag_at;
use asn_rules::names::{
    ASN_TAG, ASN1_TYPE, ASN1_VALUE, INFORMATION_OBJECT, INFORMATION_OBJECT_CLASS,
    OBJECT_IDENTIFIER_VALUE, OBJECT_SET, PARAMETERIZATION, TYPE_IDENTIFIER,
};
use asn_rules::{MatchFault, Outcome, RuleId, reader_rule};
use asn_types::{
    asn1_type_at, information_object_at, information_object_class_at, object_set_at,
    parameterization_at, type_identifier_at,
};
use asn_values::{asn1_value_at, object_identifier_value_at};
use rows_trees::{
    built_class_line, built_dummies_line, built_identifier_line, built_object_line, built_set_line,
    built_tag_line, built_type_line, built_value_line,
};
use std::alloc::Global;
use std::marker::Brand;
use std::sync::ledger::{Blank, Ledger};

/// The table of a rule, with a counter of its own.
fn counted<L: Ledger>(
    alloc: Global,
    text: &Probe,
    rule: RuleId,
    depth: usize,
    blank: Blank,
) -> Result<MatchTable, MatchFault>
    requires name { blank.name ≡ L.name }
    requires parts { blank.parts ≡ L.parts }
    requires some { 0 < blank.parts }
    ensures { IfOk result (Holds whole_rules text.now) }
{
    let mut steps = Steps::<L>::new(blank);
    match_rule(alloc, text, rule, depth, &mut steps)
}

/// The table of a rule.
fn table_of(
    alloc: Global,
    text: &Probe,
    rule: RuleId,
    depth: usize,
) -> Result<MatchTable, MatchFault>
    ensures { IfOk result (Holds whole_rules text.now) }
{
    counted::<Brand>(alloc, text, rule, depth, Blank::new(1))
}

fn not_there(alloc: Global) -> Mem<Text> {
    Text::new(alloc, "not there")
}

/// The type at the offset.
fn a_type(alloc: Global, text: &str, start: RuleId, offset: usize, depth: usize) -> Mem<Text> {
    match table_of(alloc, &Probe::new(text), start, depth) {
        Ok(table) => match table.outcome(RuleId::new(ASN1_TYPE), offset) {
            Some(Outcome::End { offset: end, .. }) => {
                built_type_line(alloc, end, asn1_type_at(alloc, text, &table, offset))
            }
            _ => not_there(alloc),
        },
        Err(_) => not_there(alloc),
    }
}

/// The dummy references at the offset.
fn dummies(alloc: Global, text: &str, start: RuleId, offset: usize, depth: usize) -> Mem<Text> {
    match table_of(alloc, &Probe::new(text), start, depth) {
        Ok(table) => match table.outcome(RuleId::new(PARAMETERIZATION), offset) {
            Some(Outcome::End { offset: end, .. }) => {
                built_dummies_line(alloc, end, parameterization_at(alloc, text, &table, offset))
            }
            _ => not_there(alloc),
        },
        Err(_) => not_there(alloc),
    }
}

/// The set of objects at the offset.
fn objects(alloc: Global, text: &str, start: RuleId, offset: usize, depth: usize) -> Mem<Text> {
    match table_of(alloc, &Probe::new(text), start, depth) {
        Ok(table) => match table.outcome(RuleId::new(OBJECT_SET), offset) {
            Some(Outcome::End { offset: end, .. }) => {
                built_set_line(alloc, end, object_set_at(alloc, text, &table, offset))
            }
            _ => not_there(alloc),
        },
        Err(_) => not_there(alloc),
    }
}

/// The object at the offset.
fn an_object(alloc: Global, text: &str, start: RuleId, offset: usize, depth: usize) -> Mem<Text> {
    match table_of(alloc, &Probe::new(text), start, depth) {
        Ok(table) => match table.outcome(RuleId::new(INFORMATION_OBJECT), offset) {
            Some(Outcome::End { offset: end, .. }) => {
                built_object_line(
                    alloc,
                    end,
                    information_object_at(alloc, text, &table, offset),
                )
            }
            _ => not_there(alloc),
        },
        Err(_) => not_there(alloc),
    }
}

/// The built-in class at the offset.
fn the_built_in_class(
    alloc: Global,
    text: &str,
    start: RuleId,
    offset: usize,
    depth: usize,
) -> Mem<Text> {
    match table_of(alloc, &Probe::new(text), start, depth) {
        Ok(table) => match table.outcome(RuleId::new(TYPE_IDENTIFIER), offset) {
            Some(Outcome::End { offset: end, .. }) => {
                built_class_line(alloc, end, type_identifier_at(alloc, text, &table, offset))
            }
            _ => not_there(alloc),
        },
        Err(_) => not_there(alloc),
    }
}

/// The class at the offset.
fn a_class(alloc: Global, text: &str, start: RuleId, offset: usize, depth: usize) -> Mem<Text> {
    match table_of(alloc, &Probe::new(text), start, depth) {
        Ok(table) => match table.outcome(RuleId::new(INFORMATION_OBJECT_CLASS), offset) {
            Some(Outcome::End { offset: end, .. }) => {
                built_class_line(
                    alloc,
                    end,
                    information_object_class_at(alloc, text, &table, offset),
                )
            }
            _ => not_there(alloc),
        },
        Err(_) => not_there(alloc),
    }
}

/// The value at the offset.
fn a_value(alloc: Global, text: &str, start: RuleId, offset: usize, depth: usize) -> Mem<Text> {
    match table_of(alloc, &Probe::new(text), start, depth) {
        Ok(table) => match table.outcome(RuleId::new(ASN1_VALUE), offset) {
            Some(Outcome::End { offset: end, .. }) => {
                built_value_line(alloc, end, asn1_value_at(alloc, text, &table, offset))
            }
            _ => not_there(alloc),
        },
        Err(_) => not_there(alloc),
    }
}

/// The object identifier at the offset.
fn arcs(alloc: Global, text: &str, start: RuleId, offset: usize, depth: usize) -> Mem<Text> {
    match table_of(alloc, &Probe::new(text), start, depth) {
        Ok(table) => match table.outcome(RuleId::new(OBJECT_IDENTIFIER_VALUE), offset) {
            Some(Outcome::End { offset: end, .. }) => {
                built_identifier_line(
                    alloc,
                    end,
                    object_identifier_value_at(alloc, text, &table, offset),
                )
            }
            _ => not_there(alloc),
        },
        Err(_) => not_there(alloc),
    }
}

/// The tag at the offset.
fn a_tag(alloc: Global, text: &str, start: RuleId, offset: usize, depth: usize) -> Mem<Text> {
    match table_of(alloc, &Probe::new(text), start, depth) {
        Ok(table) => match table.outcome(RuleId::new(ASN_TAG), offset) {
            Some(Outcome::End { offset: end, .. }) => {
                built_tag_line(alloc, end, asn_tag_at(alloc, text, &table, offset))
            }
            _ => not_there(alloc),
        },
        Err(_) => not_there(alloc),
    }
}

/// The line of the tree of this rule.
fn line_of_rule(
    alloc: Global,
    rule: &str,
    text: &str,
    start: RuleId,
    offset: usize,
    depth: usize,
) -> Option<Mem<Text>> {
    match rule {
        "asn1_type" => Some(a_type(alloc, text, start, offset, depth)),
        "parameterization" => Some(dummies(alloc, text, start, offset, depth)),
        "object_set" => Some(objects(alloc, text, start, offset, depth)),
        "information_object" => Some(an_object(alloc, text, start, offset, depth)),
        "type_identifier" => Some(the_built_in_class(alloc, text, start, offset, depth)),
        "information_object_class" => Some(a_class(alloc, text, start, offset, depth)),
        "asn1_value" => Some(a_value(alloc, text, start, offset, depth)),
        "object_identifier_value" => Some(arcs(alloc, text, start, offset, depth)),
        "asn_tag" => Some(a_tag(alloc, text, start, offset, depth)),
        _ => None,
    }
}

/// The line of a row of these fields behind `at` and a depth; None where it is no row.
fn line_at(alloc: Global, depth: usize, fields: &[Text]) -> Option<Mem<Text>> {
    match fields {
        [start, rule, offset, text] => {
            match (
                reader_rule(start.as_str()),
                offset.as_str().parse::<usize>(),
            ) {
                (Some(start), Ok(offset)) => line_of_rule(
                    alloc,
                    rule.as_str(),
                    text.as_str(),
                    start,
                    offset,
                    depth,
                ),
                _ => None,
            }
        }
        _ => None,
    }
}

/// The line of a row of these fields; None where it is none of these.
pub(crate) fn line_of(alloc: Global, fields: &[Text]) -> Option<Mem<Text>> {
    match fields {
        [kind, depth, further @ ..] => match (kind.as_str(), depth.as_str().parse::<usize>()) {
            ("at", Ok(depth)) => line_at(alloc, depth, further),
            _ => None,
        },
        _ => None,
    }
}
