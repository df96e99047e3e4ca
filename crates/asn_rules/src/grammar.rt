//! The grammars there are.
//!
//! The interpreters ask here for the expression of a rule; the table itself is `whole.rt`.

ghost use Rattle.std.specs.Prelude.{◌≡◌, ◌≤◌};
ghost use Rattle.asn_rules.specs.Expression.{expression, rule_of, weight};
ghost use Rattle.asn_rules.specs.Grammar.{rules_of};

use crate::expression::Expression;
use crate::whole::whole_expression;

/// A table of rules. A second edition will be a further variant.
#[derive(Clone, Copy, Debug, PartialEq, Eq)]
pub enum Grammar {
    /// The whole of ASN.1.
    Whole,
}

/// The expression of a rule in the grammar; of a number that is no rule's, one that fails everywhere.
#[tactic(auto, using(crate::proofs::Rows::whole_light))]
pub fn rule_expression(grammar: Grammar, rule: u8) -> &'static Expression
    ensures value { expression result.now ≡ rule_of (rules_of grammar) rule }
    ensures weight { weight (expression result.now) ≤ 999 }
{
    match grammar {
        Grammar::Whole => whole_expression(rule),
    }
}
