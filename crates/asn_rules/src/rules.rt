//! The public calls: a rule is tried at an offset of a text.
//!
//! The readers above call these. The laws say that the answers are the only ones there are.

ghost use Rattle.std.specs.Prelude.{◌≡◌, ◌≤◌, ℕ, List, length};
ghost use Rattle.asn_rules.specs.Expression.{rule as rule_call};
ghost use Rattle.std.specs.Str.{IsUtf8, IsCharBoundary};
ghost use Rattle.asn_rules.specs.Runs.{Answers, AnswersInDepth, ExactlyOne, Runs, ends};
ghost use Rattle.asn_rules.specs.Children.{AtCharacters, StandsBy};
ghost use Rattle.asn_rules.specs.Grammar.{rules_of};
ghost use Rattle.asn_rules.specs.declared.node.Node.TheViews.{out-Node};
ghost use Rattle.asn_rules.specs.Whole.{whole_rules};
ghost use Rattle.asn_rules.specs.Derives.{Derives, OneTree, Stand};

use crate::grammar::Grammar;
use crate::node::Node;
use crate::run::{MatchFault, Outcome, TooDeep, run_rule};
use std::alloc::Global;

/// The number of a rule, from 1 to 190.
#[derive(Clone, Copy, Debug, PartialEq, Eq)]
pub struct RuleId {
    pub number: u8,
    ghost in_range: { 1 ≤ number },
    ghost in_table: { number ≤ 190 },
}

impl RuleId {
    /// The rule of this number; [`crate::names`] has those of the tables.
    pub fn new(number: u8) -> RuleId
        requires in_range { 1 ≤ number }
        requires in_table { number ≤ 190 }
        ensures { result.number ≡ number }
    {
        RuleId { number }
    }
}

/// The outcome and the height of the rule of the grammar at this offset, in bytes from the start of the text, where no
/// more than `depth` calls lie within each other. No memory is taken.
///
/// # Errors
///
/// `TooDeep` exactly where the height is above `depth`.
pub fn outcome_of(
    grammar: Grammar,
    text: &str,
    rule: RuleId,
    offset: usize,
    depth: usize,
) -> Result<Outcome, TooDeep>
    requires { offset ≤ length text.now }
    ensures { AnswersInDepth (rules_of grammar) text.now (rule_call rule.number) offset depth result }
{
    match run_rule(grammar, text.as_bytes(), rule.number, offset, depth) {
        Ok(outcome) => Ok(outcome),
        Err(_) => Err(TooDeep),
    }
}

/// The outcome and the height of the rule at this offset, in bytes from the start of the text, by the table of the whole
/// of ASN.1, where no more than `depth` calls lie within each other.
///
/// # Errors
///
/// `TooDeep` exactly where the height is above `depth`. `OutOfMemory` never.
pub fn try_rule(
    _alloc: Global,
    text: &str,
    rule: RuleId,
    offset: usize,
    depth: usize,
) -> Result<Outcome, MatchFault>
    requires { offset ≤ length text.now }
    ensures { Answers whole_rules text.now (rule_call rule.number) offset depth result }
{
    match outcome_of(Grammar::Whole, text, rule, offset, depth) {
        Ok(outcome) => Ok(outcome),
        Err(_) => Err(MatchFault::TooDeep),
    }
}

/// Each rule at each offset of a text has exactly one ending and one height.
pub fn one_outcome()
    ensures { (grammar : Grammar) (text : List ℕ) (number offset : ℕ) → offset ≤ length text → ExactlyOne (rules_of grammar) text (rule_call number) offset }
{}

/// A rule ends exactly where it has a tree, and it has one tree.
pub fn one_tree()
    ensures { (grammar : Grammar) (text : List ℕ) (number offset : ℕ) → offset ≤ length text → OneTree (rules_of grammar) text (rule_call number) offset }
{}

/// The nodes of a tree stand one behind the other, the children of each within it, and all within the text.
pub fn nodes_stand()
    ensures { (grammar : Grammar) (text : List ℕ) (number i j : ℕ) (nodes : List Node) → i ≤ length text → Derives (rules_of grammar) text (rule_call number) i j nodes → Stand i j nodes × (j ≤ length text) }
{}

/// A rule that is tried between two characters of a text ends between two characters.
pub fn ends_at_characters()
    ensures { (grammar : Grammar) (text : List ℕ) (number i j h : ℕ) → IsUtf8 text → IsCharBoundary text i → Runs (rules_of grammar) text (rule_call number) i (ends j) h → IsCharBoundary text j }
{}

/// In a text of characters, the children of a node that begins between two characters begin and end between two.
pub fn children_at_characters()
    ensures { (grammar : Grammar) (text : List ℕ) (node : Node) → IsUtf8 text → StandsBy (rules_of grammar) text node → IsCharBoundary text (out-Node node).start → AtCharacters text (out-Node node).children }
{}
