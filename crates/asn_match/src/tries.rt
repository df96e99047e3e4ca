//! Tables of what a rule tries at the start of a text.

ghost use Rattle.asn_match.specs.Looks.{has, price};
ghost use Rattle.asn_match.specs.Table.{Holds, IsTableOf};
ghost use Rattle.asn_match.specs.inner.Given.{Enters};
ghost use Rattle.asn_rules.specs.Expression.{rule as rule_call};
ghost use Rattle.asn_rules.specs.Grammar.{rules_of};
ghost use Rattle.asn_rules.specs.Runs.{Ending, Exceeds, Runs};
ghost use Rattle.asn_rules.specs.Whole.{whole_rules};
ghost use Rattle.asn_rules.specs.declared.run.MatchFault.TheVariants.{TooDeep};
ghost use Rattle.std.specs.Prelude.{◌≡◌, ◌≤◌, ◌+◌, ◌*◌, ℕ, length, Err, IfOk, IsOk};

use crate::chains::MatchTable;
use crate::run::run_rule;
use asn_probe::{Probe, Steps};
use asn_rules::{Grammar, MatchFault, RuleId, names};
use std::alloc::Global;
use std::sync::ledger::Ledger;

// The same, with what the readers of a table stand on: each entry is right, and all that was tried for it has one.
pub(crate) fn filled<L: Ledger>(
    alloc: Global,
    grammar: Grammar,
    text: &Probe,
    rule: RuleId,
    depth: usize,
    steps: &mut Steps<L>,
) -> Result<MatchTable, MatchFault>
    ensures table { IfOk result (λ t. IsTableOf (rules_of grammar) text.now rule.number t) }
    ensures kept { IfOk result (λ t. Holds (rules_of grammar) text.now t × Enters (rules_of grammar) text.now t (rule_call rule.number) 0) }
    ensures flat { IsOk result → (o : Ending) (h : ℕ) → Runs (rules_of grammar) text.now (rule_call rule.number) 0 o h → h ≤ depth }
    ensures deep { result ≡ Err TooDeep → Exceeds (rules_of grammar) text.now (rule_call rule.number) 0 depth }
    ensures looks { steps.new ≤ steps.old + ((190 * 64) * (length text.now + 1)) * (length text.now + 2) }
    ensures paid { IfOk result (λ t. steps.new ≤ steps.old + price (rules_of grammar) (length text.now) (has t)) }
{
    let mut table = MatchTable::new(alloc);
    let mut taken = Vec::new(alloc);
    match run_rule(
        grammar,
        text,
        rule.number,
        0,
        depth,
        &mut table,
        &mut taken,
        steps,
    ) {
        Ok(_) => Ok(table),
        Err(fault) => Err(fault),
    }
}

/// The table of all that the rule of the grammar tries at the start of the text, where no more than `depth` calls lie within
/// each other: the pairs of rule and offset that are tried in its derivation, each with its outcome and its height, and no
/// others. A text that fails has a table too.
///
/// # Errors
///
/// Want of memory aside, `TooDeep` exactly where the height of the rule exceeds `depth`. Whatever the answer, the counter
/// rose by at most 190 x 64 x (n + 1) x (n + 2), n the bytes of the text, and where there is a table by no more than a price
/// for each of its pairs, the looks of one try of its rule.
pub fn tried<L: Ledger>(
    alloc: Global,
    grammar: Grammar,
    text: &Probe,
    rule: RuleId,
    depth: usize,
    steps: &mut Steps<L>,
) -> Result<MatchTable, MatchFault>
    ensures table { IfOk result (λ t. IsTableOf (rules_of grammar) text.now rule.number t) }
    ensures holds { IfOk result (Holds (rules_of grammar) text.now) }
    ensures flat { IsOk result → (o : Ending) (h : ℕ) → Runs (rules_of grammar) text.now (rule_call rule.number) 0 o h → h ≤ depth }
    ensures deep { result ≡ Err TooDeep → Exceeds (rules_of grammar) text.now (rule_call rule.number) 0 depth }
    ensures looks { steps.new ≤ steps.old + ((190 * 64) * (length text.now + 1)) * (length text.now + 2) }
    ensures paid { IfOk result (λ t. steps.new ≤ steps.old + price (rules_of grammar) (length text.now) (has t)) }
{
    filled(alloc, grammar, text, rule, depth, steps)
}

/// The same by the table of the whole of ASN.1.
pub fn match_rule<L: Ledger>(
    alloc: Global,
    text: &Probe,
    rule: RuleId,
    depth: usize,
    steps: &mut Steps<L>,
) -> Result<MatchTable, MatchFault>
    ensures table { IfOk result (λ t. IsTableOf whole_rules text.now rule.number t) }
    ensures holds { IfOk result (Holds whole_rules text.now) }
    ensures flat { IsOk result → (o : Ending) (h : ℕ) → Runs whole_rules text.now (rule_call rule.number) 0 o h → h ≤ depth }
    ensures deep { result ≡ Err TooDeep → Exceeds whole_rules text.now (rule_call rule.number) 0 depth }
    ensures looks { steps.new ≤ steps.old + ((190 * 64) * (length text.now + 1)) * (length text.now + 2) }
    ensures paid { IfOk result (λ t. steps.new ≤ steps.old + price whole_rules (length text.now) (has t)) }
{
    tried(alloc, Grammar::Whole, text, rule, depth, steps)
}

/// The same for the rule of a whole text.
pub fn match_table<L: Ledger>(
    alloc: Global,
    text: &Probe,
    depth: usize,
    steps: &mut Steps<L>,
) -> Result<MatchTable, MatchFault>
    ensures table { IfOk result (λ t. IsTableOf whole_rules text.now 190 t) }
    ensures holds { IfOk result (Holds whole_rules text.now) }
    ensures flat { IsOk result → (o : Ending) (h : ℕ) → Runs whole_rules text.now (rule_call 190) 0 o h → h ≤ depth }
    ensures deep { result ≡ Err TooDeep → Exceeds whole_rules text.now (rule_call 190) 0 depth }
    ensures looks { steps.new ≤ steps.old + ((190 * 64) * (length text.now + 1)) * (length text.now + 2) }
    ensures paid { IfOk result (λ t. steps.new ≤ steps.old + price whole_rules (length text.now) (has t)) }
{
    match_rule(alloc, text, RuleId::new(names::ASN_SPEC), depth, steps)
}
