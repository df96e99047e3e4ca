//! The interpreter with a table: what a rule comes to at an offset, found once.
//!
//! It reads the rules through asn_rules and bytes through `sights.rt`; `tries.rt` calls it. Each form is a function of its
//! own, so that a level of the recursion keeps little on the stack.

ghost use Rattle.asn_match.specs.Looks.{Spends};
ghost use Rattle.asn_match.specs.Table.{Adds, Holds};
ghost use Rattle.asn_match.specs.inner.Given.{Gives};
ghost use Rattle.asn_rules.specs.Expression.{expression, seq, choice, many, never, guarded, rule, skip};
ghost use Rattle.asn_rules.specs.Grammar.{rules_of};
ghost use Rattle.asn_rules.specs.inner.Answer.{answer, height_of, one_more, raised, IsWithin};
ghost use Rattle.std.specs.Prelude.{◌≡◌, ◌≤◌, ◌<◌, ◌+◌, ◌^◌, length, OnOk};

use crate::chains::MatchTable;
use crate::sights::{is_allowed_at, see_at};
use asn_probe::{Probe, Steps};
use asn_rules::{Expression, Grammar, Guard, MatchFault, Outcome, rule_expression};
use std::sync::ledger::Ledger;

// The outcome with a height of at least this.
pub(crate) fn raised(outcome: Outcome, least: usize) -> Outcome
    ensures { result ≡ raised least outcome }
{
    match outcome {
        Outcome::End { offset, height } => Outcome::End {
            offset,
            height: least.max(height),
        },
        Outcome::Fail { height } => Outcome::Fail {
            height: least.max(height),
        },
    }
}

// The outcome one call higher.
fn one_more(outcome: Outcome) -> Outcome
    requires { height_of outcome + 1 < 2 ^ 64 }
    ensures { result ≡ one_more outcome }
{
    match outcome {
        Outcome::End { offset, height } => Outcome::End {
            offset,
            height: height + 1,
        },
        Outcome::Fail { height } => Outcome::Fail { height: height + 1 },
    }
}

fn height(outcome: Outcome) -> usize
    ensures { result ≡ height_of outcome }
{
    match outcome {
        Outcome::End { offset: _, height } => height,
        Outcome::Fail { height } => height,
    }
}

// What the expression comes to, with the table of what was tried so far.
#[cycle(matching)]
pub(crate) fn run<L: Ledger>(
    grammar: Grammar,
    text: &Probe,
    expr: &Expression,
    offset: usize,
    depth: usize,
    table: &mut MatchTable,
    taken: &mut Vec<u8>,
    steps: &mut Steps<L>,
) -> Result<Outcome, MatchFault>
    requires start { offset ≤ length text.now }
    requires holds { Holds (rules_of grammar) text.now table.old }
    ensures value { Gives result (answer (rules_of grammar) text.now depth (expression expr.now) offset) }
    ensures within { IsWithin (length text.now) depth offset result }
    ensures kept { OnOk result (Adds (rules_of grammar) text.now (expression expr.now) offset table.old table.new) }
    ensures spent { Spends (rules_of grammar) text.now (expression expr.now) offset table.old steps.old steps.new }
{
    match expr {
        Expression::See(look) => Ok(see_at(text, look, offset, steps)),
        Expression::Marked(_, look) => Ok(see_at(text, look, offset, steps)),
        Expression::Sequence(left, right) => run_sequence(
            grammar, text, left, right, offset, depth, table, taken, steps,
        ),
        Expression::Choice(left, right) => run_choice(
            grammar, text, left, right, offset, depth, table, taken, steps,
        ),
        Expression::Many(turn) => run_many(grammar, text, turn, offset, depth, table, taken, steps),
        Expression::Not(inner) => run_not(grammar, text, inner, offset, depth, table, taken, steps),
        Expression::Guarded(inner, guard) => run_guarded(
            grammar, text, inner, *guard, offset, depth, table, taken, steps,
        ),
        Expression::Call(rule) => run_rule(
            grammar, text, *rule, offset, depth, table, taken, steps,
        ),
        Expression::Skip(rule) => run_skipped(
            grammar, text, *rule, offset, depth, table, taken, steps,
        ),
    }
}

// What the first comes to, and the second from its end on.
#[cycle(matching)]
fn run_sequence<L: Ledger>(
    grammar: Grammar,
    text: &Probe,
    left: &Expression,
    right: &Expression,
    offset: usize,
    depth: usize,
    table: &mut MatchTable,
    taken: &mut Vec<u8>,
    steps: &mut Steps<L>,
) -> Result<Outcome, MatchFault>
    requires start { offset ≤ length text.now }
    requires holds { Holds (rules_of grammar) text.now table.old }
    ensures value { Gives result (answer (rules_of grammar) text.now depth (seq (expression left.now) (expression right.now)) offset) }
    ensures within { IsWithin (length text.now) depth offset result }
    ensures kept { OnOk result (Adds (rules_of grammar) text.now (seq (expression left.now) (expression right.now)) offset table.old table.new) }
    ensures spent { Spends (rules_of grammar) text.now (seq (expression left.now) (expression right.now)) offset table.old steps.old steps.new }
{
    match run(grammar, text, left, offset, depth, table, taken, steps)? {
        Outcome::End {
            offset: middle,
            height,
        } => {
            Ok(raised(
                run(grammar, text, right, middle, depth, table, taken, steps)?,
                height,
            ))
        }
        Outcome::Fail { height } => Ok(Outcome::Fail { height }),
    }
}

// What the first comes to, or where it fails the second.
#[cycle(matching)]
fn run_choice<L: Ledger>(
    grammar: Grammar,
    text: &Probe,
    left: &Expression,
    right: &Expression,
    offset: usize,
    depth: usize,
    table: &mut MatchTable,
    taken: &mut Vec<u8>,
    steps: &mut Steps<L>,
) -> Result<Outcome, MatchFault>
    requires start { offset ≤ length text.now }
    requires holds { Holds (rules_of grammar) text.now table.old }
    ensures value { Gives result (answer (rules_of grammar) text.now depth (choice (expression left.now) (expression right.now)) offset) }
    ensures within { IsWithin (length text.now) depth offset result }
    ensures kept { OnOk result (Adds (rules_of grammar) text.now (choice (expression left.now) (expression right.now)) offset table.old table.new) }
    ensures spent { Spends (rules_of grammar) text.now (choice (expression left.now) (expression right.now)) offset table.old steps.old steps.new }
{
    match run(grammar, text, left, offset, depth, table, taken, steps)? {
        Outcome::End {
            offset: end,
            height,
        } => Ok(Outcome::End {
            offset: end,
            height,
        }),
        Outcome::Fail { height } => Ok(raised(
            run(grammar, text, right, offset, depth, table, taken, steps)?,
            height,
        )),
    }
}

// An end that takes nothing where the expression fails, and a failure where it ends.
#[cycle(matching)]
fn run_not<L: Ledger>(
    grammar: Grammar,
    text: &Probe,
    inner: &Expression,
    offset: usize,
    depth: usize,
    table: &mut MatchTable,
    taken: &mut Vec<u8>,
    steps: &mut Steps<L>,
) -> Result<Outcome, MatchFault>
    requires start { offset ≤ length text.now }
    requires holds { Holds (rules_of grammar) text.now table.old }
    ensures value { Gives result (answer (rules_of grammar) text.now depth (never (expression inner.now)) offset) }
    ensures within { IsWithin (length text.now) depth offset result }
    ensures kept { OnOk result (Adds (rules_of grammar) text.now (never (expression inner.now)) offset table.old table.new) }
    ensures spent { Spends (rules_of grammar) text.now (never (expression inner.now)) offset table.old steps.old steps.new }
{
    match run(grammar, text, inner, offset, depth, table, taken, steps)? {
        Outcome::End { offset: _, height } => Ok(Outcome::Fail { height }),
        Outcome::Fail { height } => Ok(Outcome::End { offset, height }),
    }
}

// What the expression comes to, where the guard allows what it took.
#[cycle(matching)]
fn run_guarded<L: Ledger>(
    grammar: Grammar,
    text: &Probe,
    inner: &Expression,
    guard: Guard,
    offset: usize,
    depth: usize,
    table: &mut MatchTable,
    taken: &mut Vec<u8>,
    steps: &mut Steps<L>,
) -> Result<Outcome, MatchFault>
    requires start { offset ≤ length text.now }
    requires holds { Holds (rules_of grammar) text.now table.old }
    ensures value { Gives result (answer (rules_of grammar) text.now depth (guarded (expression inner.now) guard) offset) }
    ensures within { IsWithin (length text.now) depth offset result }
    ensures kept { OnOk result (Adds (rules_of grammar) text.now (guarded (expression inner.now) guard) offset table.old table.new) }
    ensures spent { Spends (rules_of grammar) text.now (guarded (expression inner.now) guard) offset table.old steps.old steps.new }
{
    match run(grammar, text, inner, offset, depth, table, taken, steps)? {
        Outcome::End {
            offset: end,
            height,
        } => {
            if is_allowed_at(guard, text, offset, end, taken, steps)? {
                Ok(Outcome::End {
                    offset: end,
                    height,
                })
            } else {
                Ok(Outcome::Fail { height })
            }
        }
        Outcome::Fail { height } => Ok(Outcome::Fail { height }),
    }
}

// What the rule comes to: what the table has of it, or what its expression does, one call higher.
#[cycle(matching)]
pub(crate) fn run_rule<L: Ledger>(
    grammar: Grammar,
    text: &Probe,
    id: u8,
    offset: usize,
    depth: usize,
    table: &mut MatchTable,
    taken: &mut Vec<u8>,
    steps: &mut Steps<L>,
) -> Result<Outcome, MatchFault>
    requires start { offset ≤ length text.now }
    requires holds { Holds (rules_of grammar) text.now table.old }
    ensures value { Gives result (answer (rules_of grammar) text.now depth (rule id) offset) }
    ensures within { IsWithin (length text.now) depth offset result }
    ensures kept { OnOk result (Adds (rules_of grammar) text.now (rule id) offset table.old table.new) }
    ensures spent { Spends (rules_of grammar) text.now (rule id) offset table.old steps.old steps.new }
{
    if let Some(outcome) = table.find(id, offset) {
        return if height(outcome) <= depth {
            Ok(outcome)
        } else {
            Err(MatchFault::TooDeep)
        };
    }
    if depth == 0 {
        return Err(MatchFault::TooDeep);
    }
    let outcome = one_more(run(
        grammar,
        text,
        rule_expression(grammar, id),
        offset,
        depth - 1,
        table,
        taken,
        steps,
    )?);
    match table.put(id, offset, outcome) {
        Ok(()) => Ok(outcome),
        Err(_) => Err(MatchFault::OutOfMemory),
    }
}

// What the rule comes to, which leaves no node.
#[cycle(matching)]
fn run_skipped<L: Ledger>(
    grammar: Grammar,
    text: &Probe,
    id: u8,
    offset: usize,
    depth: usize,
    table: &mut MatchTable,
    taken: &mut Vec<u8>,
    steps: &mut Steps<L>,
) -> Result<Outcome, MatchFault>
    requires start { offset ≤ length text.now }
    requires holds { Holds (rules_of grammar) text.now table.old }
    ensures value { Gives result (answer (rules_of grammar) text.now depth (skip id) offset) }
    ensures within { IsWithin (length text.now) depth offset result }
    ensures kept { OnOk result (Adds (rules_of grammar) text.now (skip id) offset table.old table.new) }
    ensures spent { Spends (rules_of grammar) text.now (skip id) offset table.old steps.old steps.new }
{
    match run_rule(grammar, text, id, offset, depth, table, taken, steps) {
        Ok(outcome) => Ok(outcome),
        Err(fault) => Err(fault),
    }
}

// The end of the last turn that takes a byte.
#[cycle(matching)]
fn run_many<L: Ledger>(
    grammar: Grammar,
    text: &Probe,
    turn: &Expression,
    offset: usize,
    depth: usize,
    table: &mut MatchTable,
    taken: &mut Vec<u8>,
    steps: &mut Steps<L>,
) -> Result<Outcome, MatchFault>
    requires start { offset ≤ length text.now }
    requires holds { Holds (rules_of grammar) text.now table.old }
    ensures value { Gives result (answer (rules_of grammar) text.now depth (many (expression turn.now)) offset) }
    ensures within { IsWithin (length text.now) depth offset result }
    ensures kept { OnOk result (Adds (rules_of grammar) text.now (many (expression turn.now)) offset table.old table.new) }
    ensures spent { Spends (rules_of grammar) text.now (many (expression turn.now)) offset table.old steps.old steps.new }
{
    let mut at = offset;
    let mut highest = 0;
    loop {
        match run(grammar, text, turn, at, depth, table, taken, steps)? {
            Outcome::End {
                offset: end,
                height,
            } => {
                highest = highest.max(height);
                if end == at {
                    return Ok(Outcome::End {
                        offset: at,
                        height: highest,
                    });
                }
                at = end;
            }
            Outcome::Fail { height } => {
                return Ok(Outcome::End {
                    offset: at,
                    height: highest.max(height),
                });
            }
        }
    }
}
