//! Lexical readers: each tries the rule of its name where its input begins, and hands out what stands there.
//!
//! They ask `asn_rules` where a rule ends, and take no memory. None of them answers want of memory; each answers
//! `TooDeep` exactly where the calls of its rule nest deeper than `depth`, and `Fail` exactly where they do not and the
//! rule fails: a leaf with the input unchanged and the reader's name. The texts are slices of the source.

ghost use Rattle.std.specs.Prelude.{◌≡◌, ◌≤◌, ℕ, true, codes, take, IfOk, IfErr};
ghost use Rattle.std.specs.Str.{IsCharBoundary};
ghost use Rattle.asn_rules.specs.Expression.{rule as rule_call, rule_of};
ghost use Rattle.asn_rules.specs.Runs.{ends, Runs};
ghost use Rattle.asn_rules.specs.Whole.{whole_rules};
ghost use Rattle.asn_text.specs.Input.{part_of};
ghost use Rattle.asn_text.specs.Part.{shown};
ghost use Rattle.asn_text.specs.Reads.{Reads, EndsAt, IsFaultOf, IsItem, IsBody, body_rule};
ghost use Rattle.asn_text.specs.inner.Parts.{skips_gap, is_comment, HasPart};

use crate::fault::{ParseFault, ParserResult, fails};
use crate::input::Input;
use asn_rules::names::{
    ASSIGNMENT, BLOCK_COMMENT, COMMENT, COMMENT_BODY, IDENTIFIER, LINE_BODY, LINE_COMMENT, SP,
    TITLE_CASE_IDENTIFIER, UPPERCASE_IDENTIFIER, VALUE_IDENTIFIER,
};
use asn_rules::{Grammar, Outcome, RuleId, ends_at_characters, one_outcome, outcome_of};

/// A name: a letter, and letters, digits and single hyphens behind it (X.680 12.2, 12.3).
/// Blanks and comments may stand before it.
#[tactic(auto, unfolding(asn_rules::specs::Whole::whole_rules, asn_rules::specs::LexicalRules::lexical_rules_before))]
pub fn identifier<'a>(input: Input<'a>, depth: usize) -> ParserResult<'a, &'a str>
    ensures ok { IfOk result (λ read. Reads IDENTIFIER depth (part_of input.entry) (part_of read.0) (IsItem (shown (part_of input.entry)) read.1.now)) }
    ensures err { IfErr result (IsFaultOf IDENTIFIER (codes "identifier") input.entry depth) }
{
    read_item(input, depth, IDENTIFIER, "identifier")
}

/// A name that begins with a capital or a digit and is no reserved word (X.680 12.2).
/// Blanks and comments may stand before it.
#[tactic(auto, unfolding(asn_rules::specs::Whole::whole_rules, asn_rules::specs::LexicalRules::lexical_rules_before))]
pub fn title_case_identifier<'a>(input: Input<'a>, depth: usize) -> ParserResult<'a, &'a str>
    ensures ok { IfOk result (λ read. Reads TITLE_CASE_IDENTIFIER depth (part_of input.entry) (part_of read.0) (IsItem (shown (part_of input.entry)) read.1.now)) }
    ensures err { IfErr result (IsFaultOf TITLE_CASE_IDENTIFIER (codes "title_case_identifier") input.entry depth) }
{
    read_item(input, depth, TITLE_CASE_IDENTIFIER, "title_case_identifier")
}

/// A name that begins with a small letter (X.680 12.3).
/// Blanks and comments may stand before it.
#[tactic(auto, unfolding(asn_rules::specs::Whole::whole_rules, asn_rules::specs::LexicalRules::lexical_rules_before))]
pub fn value_identifier<'a>(input: Input<'a>, depth: usize) -> ParserResult<'a, &'a str>
    ensures ok { IfOk result (λ read. Reads VALUE_IDENTIFIER depth (part_of input.entry) (part_of read.0) (IsItem (shown (part_of input.entry)) read.1.now)) }
    ensures err { IfErr result (IsFaultOf VALUE_IDENTIFIER (codes "value_identifier") input.entry depth) }
{
    read_item(input, depth, VALUE_IDENTIFIER, "value_identifier")
}

/// A name of capitals, digits and single hyphens (X.681 7.1).
/// Blanks and comments may stand before it.
#[tactic(auto, unfolding(asn_rules::specs::Whole::whole_rules, asn_rules::specs::LexicalRules::lexical_rules_before))]
pub fn uppercase_identifier<'a>(input: Input<'a>, depth: usize) -> ParserResult<'a, &'a str>
    ensures ok { IfOk result (λ read. Reads UPPERCASE_IDENTIFIER depth (part_of input.entry) (part_of read.0) (IsItem (shown (part_of input.entry)) read.1.now)) }
    ensures err { IfErr result (IsFaultOf UPPERCASE_IDENTIFIER (codes "uppercase_identifier") input.entry depth) }
{
    read_item(input, depth, UPPERCASE_IDENTIFIER, "uppercase_identifier")
}

/// The sign `::=` (X.680 12.20).
/// Blanks and comments may stand before it.
#[tactic(auto, unfolding(asn_rules::specs::Whole::whole_rules, asn_rules::specs::LexicalRules::lexical_rules_before))]
pub fn assignment<'a>(input: Input<'a>, depth: usize) -> ParserResult<'a, &'a str>
    ensures ok { IfOk result (λ read. Reads ASSIGNMENT depth (part_of input.entry) (part_of read.0) (IsItem (shown (part_of input.entry)) read.1.now)) }
    ensures err { IfErr result (IsFaultOf ASSIGNMENT (codes "assignment") input.entry depth) }
{
    read_item(input, depth, ASSIGNMENT, "assignment")
}

/// A comment of either kind: the text between its marks (X.680 12.6).
pub fn comment<'a>(input: Input<'a>, depth: usize) -> ParserResult<'a, &'a str>
    ensures ok { IfOk result (λ read. let text = shown (part_of input.entry) in
        Reads COMMENT depth (part_of input.entry) (part_of read.0) (λ place. IsBody (body_rule text) text read.1.now)) }
    ensures err { IfErr result (IsFaultOf COMMENT (codes "comment") input.entry depth) }
{
    read_comment(input, depth, COMMENT, "comment")
}

/// A comment from `--` to the next `--`, or to the end of the line: the text between (X.680 12.6.3).
pub fn line_comment<'a>(input: Input<'a>, depth: usize) -> ParserResult<'a, &'a str>
    ensures ok { IfOk result (λ read. let text = shown (part_of input.entry) in
        Reads LINE_COMMENT depth (part_of input.entry) (part_of read.0) (λ place. IsBody (body_rule text) text read.1.now)) }
    ensures err { IfErr result (IsFaultOf LINE_COMMENT (codes "line_comment") input.entry depth) }
{
    read_comment(input, depth, LINE_COMMENT, "line_comment")
}

/// A comment from `/*` to its `*/`, with those nested in it: the text between (X.680 12.6.4).
pub fn block_comment<'a>(input: Input<'a>, depth: usize) -> ParserResult<'a, &'a str>
    ensures ok { IfOk result (λ read. let text = shown (part_of input.entry) in
        Reads BLOCK_COMMENT depth (part_of input.entry) (part_of read.0) (λ place. IsBody (body_rule text) text read.1.now)) }
    ensures err { IfErr result (IsFaultOf BLOCK_COMMENT (codes "block_comment") input.entry depth) }
{
    read_comment(input, depth, BLOCK_COMMENT, "block_comment")
}

/// What stands behind the blanks and comments with which a rule begins.
fn read_item<'a>(
    input: Input<'a>,
    depth: usize,
    rule: u8,
    name: &'static str,
) -> ParserResult<'a, &'a str>
    requires in_range { 1 ≤ rule }
    requires in_table { rule ≤ 190 }
    requires skips_gap { skips_gap (rule_of whole_rules rule) ≡ true }
    ensures ok { IfOk result (λ read. Reads rule depth (part_of input.entry) (part_of read.0) (IsItem (shown (part_of input.entry)) read.1.now)) }
    ensures err { IfErr result (IsFaultOf rule name.now input.entry depth) }
{
    match end_of(input, depth, rule, name) {
        Ok(end) => {
            let text = input.inner();
            let start = part_end(text, SP, 0, depth, end);
            Ok((input.slice_from(end), &text[start..end]))
        }
        Err(fault) => Err(fault),
    }
}

/// What stands between the marks of a comment.
fn read_comment<'a>(
    input: Input<'a>,
    depth: usize,
    rule: u8,
    name: &'static str,
) -> ParserResult<'a, &'a str>
    requires { is_comment rule ≡ true }
    ensures ok { IfOk result (λ read. let text = shown (part_of input.entry) in
        Reads rule depth (part_of input.entry) (part_of read.0) (λ place. IsBody (body_rule text) text read.1.now)) }
    ensures err { IfErr result (IsFaultOf rule name.now input.entry depth) }
{
    match end_of(input, depth, rule, name) {
        Ok(end) => {
            let text = input.inner();
            let body = part_end(text, body_rule(text), 2, depth, end);
            Ok((input.slice_from(end), &text[2..body]))
        }
        Err(fault) => Err(fault),
    }
}

/// The rule of what stands within the comment in which a text begins.
fn body_rule(text: &str) -> u8
    ensures { result ≡ body_rule text.now }
{
    if text.as_bytes().starts_with(b"/*") {
        COMMENT_BODY
    } else {
        LINE_BODY
    }
}

/// Where a rule ends that is tried where the input begins.
pub(crate) fn end_of<'a>(
    input: Input<'a>,
    depth: usize,
    rule: u8,
    name: &'static str,
) -> Result<usize, ParseFault<'a>>
    requires in_range { 1 ≤ rule }
    requires in_table { rule ≤ 190 }
    ensures ok { IfOk result (EndsAt (shown (part_of input.entry)) rule depth) }
    ensures boundary { IfOk result (IsCharBoundary (shown (part_of input.entry))) }
    ensures err { IfErr result (IsFaultOf rule name.now input.entry depth) }
{
    ends_at_characters();
    let text = input.inner();
    match outcome_of(Grammar::Whole, text, RuleId::new(rule), 0, depth) {
        Ok(Outcome::End { offset, .. }) => Ok(offset),
        Ok(Outcome::Fail { .. }) => Err(fails(input, name)),
        Err(_) => Err(ParseFault::TooDeep),
    }
}

/// Where a rule ends that is known to end there.
fn part_end(text: &str, rule: u8, offset: usize, depth: usize, end: usize) -> usize
    requires in_range { 1 ≤ rule }
    requires in_table { rule ≤ 190 }
    requires boundary { IsCharBoundary text.now offset }
    requires part { HasPart text.now rule offset depth end }
    ensures ends_there { (height : ℕ) × Runs whole_rules text.now (rule_call rule) offset (ends result) height }
    ensures from { offset ≤ result }
    ensures before { result ≤ end }
    ensures boundary { IsCharBoundary text.now result }
{
    one_outcome();
    ends_at_characters();
    match outcome_of(Grammar::Whole, text, RuleId::new(rule), offset, depth) {
        Ok(Outcome::End { offset: place, .. }) => place,
        Ok(Outcome::Fail { .. }) => offset,
        Err(_) => offset,
    }
}
