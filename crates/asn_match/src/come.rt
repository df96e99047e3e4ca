//! What an expression comes to by a table that has all that it tries: no rule is tried again, and no memory is taken.
//!
//! `grow.rt` asks here which way an expression went.

ghost use Rattle.asn_rules_guards.specs.Lexical.{sight};
ghost use Rattle.asn_match.specs.Table.{at, Holds, RunsTo};
ghost use Rattle.asn_match.specs.inner.Given.{EndsBehind, Enters};
ghost use Rattle.asn_rules.specs.Expression.{expression, seq, choice, many, never, guarded};
ghost use Rattle.asn_rules.specs.Grammar.{rules_of};
ghost use Rattle.asn_rules.specs.Runs.{seen};
ghost use Rattle.asn_rules.specs.inner.Answer.{at_height};
ghost use Rattle.std.specs.Prelude.{◌≡◌, ◌≤◌, ◌+◌, length, IsSome, Some};

use crate::chains::MatchTable;
use crate::run::raised;
use asn_rules::{Expression, Grammar, Guard, Outcome, Sight};
use asn_rules_guards::{is_allowed, stands_in, width_of};

// What is seen at the offset.
fn see(text: &[u8], look: &Sight, offset: usize) -> Outcome
    requires { offset ≤ length text.now }
    ensures { result ≡ at_height (seen text.now (sight look.now) offset) 0 }
{
    if stands_in(look, &text[offset..]) {
        Outcome::End {
            offset: offset + width_of(look),
            height: 0,
        }
    } else {
        Outcome::Fail { height: 0 }
    }
}

// What the table has of the pair.
fn found(table: &MatchTable, rule: u8, offset: usize) -> Outcome
    requires { IsSome (at table.now rule offset) }
    ensures { at table.now rule offset ≡ Some result }
{
    match table.find(rule, offset) {
        Some(outcome) => outcome,
        None => unreachable!(),
    }
}

// What the expression comes to at the offset.
#[cycle(coming)]
#[tactic(auto, using(crate::proofs::Comes::see_runs, crate::proofs::Comes::mark_runs, crate::proofs::Comes::see_lies, crate::proofs::Comes::rule_runs, crate::proofs::Comes::skip_runs, crate::proofs::Comes::rule_lies, crate::proofs::Comes::enters_itself, crate::proofs::Comes::enters_skipped))]
pub(crate) fn come(
    grammar: Grammar,
    text: &[u8],
    table: &MatchTable,
    expr: &Expression,
    offset: usize,
) -> Outcome
    requires start { offset ≤ length text.now }
    requires holds { Holds (rules_of grammar) text.now table.now }
    requires enters { Enters (rules_of grammar) text.now table.now (expression expr.now) offset }
    ensures runs { RunsTo (rules_of grammar) text.now (expression expr.now) offset result }
    ensures behind { EndsBehind (length text.now) offset result }
{
    match expr {
        Expression::See(look) => see(text, look, offset),
        Expression::Marked(_, look) => see(text, look, offset),
        Expression::Call(id) => found(table, *id, offset),
        Expression::Skip(id) => found(table, *id, offset),
        Expression::Sequence(left, right) => {
            come_sequence(grammar, text, table, left, right, offset)
        }
        Expression::Choice(left, right) => come_choice(grammar, text, table, left, right, offset),
        Expression::Many(turn) => come_many(grammar, text, table, turn, offset),
        Expression::Not(inner) => come_not(grammar, text, table, inner, offset),
        Expression::Guarded(inner, guard) => {
            come_guarded(grammar, text, table, inner, *guard, offset)
        }
    }
}

// What the first comes to, and the second from its end on.
#[cycle(coming)]
#[tactic(auto, using(crate::proofs::Comes::seq_runs, crate::proofs::Comes::seq_fails_so, crate::proofs::Comes::raised_behind, crate::proofs::Comes::enters_first, crate::proofs::Comes::enters_second))]
fn come_sequence(
    grammar: Grammar,
    text: &[u8],
    table: &MatchTable,
    left: &Expression,
    right: &Expression,
    offset: usize,
) -> Outcome
    requires start { offset ≤ length text.now }
    requires holds { Holds (rules_of grammar) text.now table.now }
    requires enters { Enters (rules_of grammar) text.now table.now (seq (expression left.now) (expression right.now)) offset }
    ensures runs { RunsTo (rules_of grammar) text.now (seq (expression left.now) (expression right.now)) offset result }
    ensures behind { EndsBehind (length text.now) offset result }
{
    match come(grammar, text, table, left, offset) {
        Outcome::End {
            offset: middle,
            height,
        } => raised(come(grammar, text, table, right, middle), height),
        Outcome::Fail { height } => Outcome::Fail { height },
    }
}

// What the first comes to, or where it fails the second.
#[cycle(coming)]
#[tactic(auto, using(crate::proofs::Comes::choice_runs, crate::proofs::Comes::choice_ends_so, crate::proofs::Comes::raised_behind, crate::proofs::Comes::enters_one, crate::proofs::Comes::enters_other))]
fn come_choice(
    grammar: Grammar,
    text: &[u8],
    table: &MatchTable,
    left: &Expression,
    right: &Expression,
    offset: usize,
) -> Outcome
    requires start { offset ≤ length text.now }
    requires holds { Holds (rules_of grammar) text.now table.now }
    requires enters { Enters (rules_of grammar) text.now table.now (choice (expression left.now) (expression right.now)) offset }
    ensures runs { RunsTo (rules_of grammar) text.now (choice (expression left.now) (expression right.now)) offset result }
    ensures behind { EndsBehind (length text.now) offset result }
{
    match come(grammar, text, table, left, offset) {
        Outcome::End {
            offset: end,
            height,
        } => Outcome::End {
            offset: end,
            height,
        },
        Outcome::Fail { height } => raised(come(grammar, text, table, right, offset), height),
    }
}

// An end that takes nothing where the expression fails, and a failure where it ends.
#[cycle(coming)]
#[tactic(auto, using(crate::proofs::Comes::never_fails_so, crate::proofs::Comes::never_ends_so, crate::proofs::Comes::enters_never))]
fn come_not(
    grammar: Grammar,
    text: &[u8],
    table: &MatchTable,
    inner: &Expression,
    offset: usize,
) -> Outcome
    requires start { offset ≤ length text.now }
    requires holds { Holds (rules_of grammar) text.now table.now }
    requires enters { Enters (rules_of grammar) text.now table.now (never (expression inner.now)) offset }
    ensures runs { RunsTo (rules_of grammar) text.now (never (expression inner.now)) offset result }
    ensures behind { EndsBehind (length text.now) offset result }
{
    match come(grammar, text, table, inner, offset) {
        Outcome::End { offset: _, height } => Outcome::Fail { height },
        Outcome::Fail { height } => Outcome::End { offset, height },
    }
}

// What the expression comes to, where the guard allows what it took.
#[cycle(coming)]
#[tactic(auto, using(crate::proofs::Comes::guard_ends_so, crate::proofs::Comes::guard_refuses, crate::proofs::Comes::guard_fails_so, crate::proofs::Comes::enters_guarded))]
fn come_guarded(
    grammar: Grammar,
    text: &[u8],
    table: &MatchTable,
    inner: &Expression,
    guard: Guard,
    offset: usize,
) -> Outcome
    requires start { offset ≤ length text.now }
    requires holds { Holds (rules_of grammar) text.now table.now }
    requires enters { Enters (rules_of grammar) text.now table.now (guarded (expression inner.now) guard) offset }
    ensures runs { RunsTo (rules_of grammar) text.now (guarded (expression inner.now) guard) offset result }
    ensures behind { EndsBehind (length text.now) offset result }
{
    match come(grammar, text, table, inner, offset) {
        Outcome::End {
            offset: end,
            height,
        } => {
            if is_allowed(guard, &text[offset..end]) {
                Outcome::End {
                    offset: end,
                    height,
                }
            } else {
                Outcome::Fail { height }
            }
        }
        Outcome::Fail { height } => Outcome::Fail { height },
    }
}

// The end of the last turn that takes a byte.
#[cycle(coming)]
#[tactic(auto, using(crate::proofs::Comes::no_turn, crate::proofs::Comes::enters_turn, crate::proofs::Comes::enters_later, crate::proofs::Comes::one_turn, crate::proofs::Comes::last_idle, crate::proofs::Comes::last_fails, asn_rules::proofs::Theory::max_is))]
fn come_many(
    grammar: Grammar,
    text: &[u8],
    table: &MatchTable,
    turn: &Expression,
    offset: usize,
) -> Outcome
    requires start { offset ≤ length text.now }
    requires holds { Holds (rules_of grammar) text.now table.now }
    requires enters { Enters (rules_of grammar) text.now table.now (many (expression turn.now)) offset }
    ensures runs { RunsTo (rules_of grammar) text.now (many (expression turn.now)) offset result }
    ensures behind { EndsBehind (length text.now) offset result }
{
    let mut at = offset;
    let mut highest = 0;
    loop {
        match come(grammar, text, table, turn, at) {
            Outcome::End {
                offset: end,
                height,
            } => {
                highest = highest.max(height);
                if end == at {
                    return Outcome::End {
                        offset: at,
                        height: highest,
                    };
                }
                at = end;
            }
            Outcome::Fail { height } => {
                return Outcome::End {
                    offset: at,
                    height: highest.max(height),
                };
            }
        }
    }
}
