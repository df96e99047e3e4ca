//! The tree of a rule, by a table.

ghost use Rattle.asn_match.specs.Table.{Ended, Holds, at};
ghost use Rattle.asn_match.specs.inner.Given.{Enters};
ghost use Rattle.asn_rules.specs.Derives.{Derivation, Derives};
ghost use Rattle.asn_rules.specs.Expression.{rule as rule_call};
ghost use Rattle.asn_rules.specs.Grammar.{rules_of};
ghost use Rattle.asn_rules.specs.Runs.{Ending, Exceeds, Runs};
ghost use Rattle.asn_rules.specs.declared.run.MatchFault.TheVariants.{TooDeep};
ghost use Rattle.std.specs.Prelude.{◌≡◌, ◌<◌, ◌≤◌, ℕ, [], ◌∷◌, Err, IfOk, IsOk, length};

use crate::chains::MatchTable;
use crate::grow::grow_rule;
use crate::tries::filled;
use asn_memory::Mem;
use asn_probe::{Probe, Steps};
use asn_rules::{Grammar, MatchFault, Node, Outcome, RuleId};
use std::alloc::Global;
use std::marker::Brand;
use std::sync::ledger::{Blank, Ledger};

// The table of what the rule tries at the start of the text, with a counter that is let go.
fn counted<L: Ledger>(
    alloc: Global,
    grammar: Grammar,
    text: &Probe,
    rule: RuleId,
    depth: usize,
    blank: Blank,
) -> Result<MatchTable, MatchFault>
    requires name { blank.name ≡ L.name }
    requires parts { blank.parts ≡ L.parts }
    requires some { 0 < blank.parts }
    ensures kept { IfOk result (λ t. Holds (rules_of grammar) text.now t × Enters (rules_of grammar) text.now t (rule_call rule.number) 0) }
    ensures flat { IsOk result → (o : Ending) (h : ℕ) → Runs (rules_of grammar) text.now (rule_call rule.number) 0 o h → h ≤ depth }
    ensures deep { result ≡ Err TooDeep → Exceeds (rules_of grammar) text.now (rule_call rule.number) 0 depth }
{
    let mut steps = Steps::<L>::new(blank);
    filled(alloc, grammar, text, rule, depth, &mut steps)
}

/// The tree of the rule at the start of the text, where no more than `depth` calls lie within each other; None where the rule
/// fails. Its nodes come from a table of all that the rule tries: nothing is tried twice, and nothing for the tree alone.
///
/// # Errors
///
/// `TooDeep` exactly where the height is above `depth`, want of memory aside; `OutOfMemory` where a growth was refused.
pub fn derive_rule(
    alloc: Global,
    grammar: Grammar,
    text: &str,
    rule: RuleId,
    depth: usize,
) -> Result<Option<Node>, MatchFault>
    ensures { Derivation (rules_of grammar) text.now rule.number 0 depth result }
{
    let probe = Probe::new(text);
    match counted::<Brand>(alloc, grammar, &probe, rule, depth, Blank::new(1)) {
        Ok(table) => match table.find(rule.number, 0) {
            Some(
                Outcome::End {
                    offset: end,
                    height,
                },
            ) => {
                let bytes = text.as_bytes();
                match grow_rule(alloc, grammar, bytes, &table, rule.number, 0, end, height) {
                    Ok(node) => Ok(Some(node)),
                    Err(_) => Err(MatchFault::OutOfMemory),
                }
            }
            Some(Outcome::Fail { .. }) => Ok(None),
            None => unreachable!(),
        },
        Err(fault) => Err(fault),
    }
}

/// The tree of the rule at the offset, in bytes from the start of the text, by a table in which each entry is right and all that
/// was tried for an entry has one, as each table is that [`match_rule`](crate::match_rule) answers. The rule has ended there.
pub fn node_at(
    alloc: Global,
    grammar: Grammar,
    text: &str,
    table: &MatchTable,
    rule: RuleId,
    offset: usize,
) -> Mem<Node>
    requires holds { Holds (rules_of grammar) text.now table.now }
    requires ended { Ended (at table.now rule.number offset) }
    ensures derives { IfOk result (λ n. (j : ℕ) × Derives (rules_of grammar) text.now (rule_call rule.number) offset j (n ∷ [])) }
    ensures within { IsOk result → offset ≤ length text.now }
{
    match table.find(rule.number, offset) {
        Some(
            Outcome::End {
                offset: end,
                height,
            },
        ) => {
            let bytes = text.as_bytes();
            grow_rule(
                alloc,
                grammar,
                bytes,
                table,
                rule.number,
                offset,
                end,
                height,
            )
        }
        Some(Outcome::Fail { .. }) => unreachable!(),
        None => unreachable!(),
    }
}
