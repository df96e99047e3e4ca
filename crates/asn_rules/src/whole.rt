//! The table of the whole of ASN.1: the rows of seven files.
//!
//! `grammar.rt` alone calls this file.

ghost use Rattle.std.specs.Prelude.{◌≡◌};
ghost use Rattle.asn_rules.specs.Expression.{expression, rule_of};
ghost use Rattle.asn_rules.specs.Whole.{whole_rules};

use crate::constraint_rules::constraint_row;
use crate::definition_rules::definition_row;
use crate::expression::Expression;
use crate::header_rules::header_row;
use crate::lexical_rules::{NO_RULE, lexical_row};
use crate::object_rules::object_row;
use crate::type_rules::type_row;
use crate::value_rules::value_row;

/// The expression of a rule; of a number that is no rule's, one that fails everywhere.
pub(crate) fn whole_expression(rule: u8) -> &'static Expression
    ensures { expression result.now ≡ rule_of whole_rules rule }
{
    match rule {
        0..=22 => lexical_row(rule),
        23..=53 => value_row(rule),
        54..=101 => type_row(rule),
        102..=139 => constraint_row(rule),
        140..=161 => object_row(rule),
        162..=180 => header_row(rule),
        181..=190 => definition_row(rule),
        191..=255 => &NO_RULE,
    }
}
