//! The nodes of what ends, by a table that has all that was tried.
//!
//! As the interpreter of asn_rules that grows nodes, but it goes where the table tells that something ends, and nowhere else:
//! no node is made that does not stand.

ghost use Rattle.asn_match.specs.Table.{Holds};
ghost use Rattle.asn_match.specs.inner.Given.{EndsWithin, Enters, StandsFor};
ghost use Rattle.asn_rules.specs.Derives.{Derives, node};
ghost use Rattle.asn_rules.specs.Expression.{expression, seq, choice, many, guarded, rule, weight};
ghost use Rattle.asn_rules.specs.Grammar.{rules_of};
ghost use Rattle.asn_rules.specs.Marks.{mark_number};
ghost use Rattle.std.specs.Prelude.{◌≡◌, ◌≤◌, ◌<◌, ◌+◌, [], ◌∷◌, length, IfOk};

use crate::chains::MatchTable;
use crate::come::come;
use asn_memory::{List, Mem};
use asn_rules::{Expression, Grammar, Guard, Mark, Node, Outcome, rule_expression};
use std::alloc::Global;

// The leaf of a mark.
fn leaf(alloc: Global, mark: Mark, offset: usize, end: usize) -> Mem<List<Node>>
    ensures { IfOk result (λ nodes. nodes ≡ node (mark_number mark) offset end [] ∷ []) }
{
    List::of(
        alloc,
        Node {
            rule: mark.number(),
            start: offset,
            end,
            children: List::new(alloc),
        },
    )
}

// The nodes of the expression, which ends there at a height of at most this.
#[cycle(growing)]
#[tactic(auto, using(crate::proofs::Grows::see_derives, crate::proofs::Grows::mark_derives, crate::proofs::Grows::skip_derives, crate::proofs::Grows::never_derives, crate::proofs::Grows::one_node))]
pub(crate) fn grow(
    alloc: Global,
    grammar: Grammar,
    text: &[u8],
    table: &MatchTable,
    expr: &Expression,
    offset: usize,
    end: usize,
    height: usize,
) -> Mem<List<Node>>
    requires start { offset ≤ length text.now }
    requires holds { Holds (rules_of grammar) text.now table.now }
    requires enters { Enters (rules_of grammar) text.now table.now (expression expr.now) offset }
    requires ends { EndsWithin (rules_of grammar) text.now height (expression expr.now) offset end }
    ensures { IfOk result (λ nodes. Derives (rules_of grammar) text.now (expression expr.now) offset end nodes) }
{
    match expr {
        Expression::See(_) => Ok(List::new(alloc)),
        Expression::Marked(mark, _) => Ok(leaf(alloc, *mark, offset, end)?),
        Expression::Call(id) => {
            let node = grow_rule(alloc, grammar, text, table, *id, offset, end, height)?;
            Ok(List::of(alloc, node)?)
        }
        Expression::Skip(_) => Ok(List::new(alloc)),
        Expression::Sequence(left, right) => Ok(grow_sequence(
            alloc, grammar, text, table, left, right, offset, end, height,
        )?),
        Expression::Choice(left, right) => {
            let one = chosen(grammar, text, table, left, right, offset);
            Ok(grow(alloc, grammar, text, table, one, offset, end, height)?)
        }
        Expression::Many(turn) => Ok(grow_many(
            alloc, grammar, text, table, turn, offset, end, height,
        )?),
        Expression::Not(_) => Ok(List::new(alloc)),
        Expression::Guarded(inner, guard) => Ok(grow_guarded(
            alloc, grammar, text, table, inner, *guard, offset, end, height,
        )?),
    }
}

// The node of the rule, over those of its expression.
#[cycle(growing)]
#[tactic(auto, using(crate::proofs::Grows::rule_positive, crate::proofs::Grows::rule_body, crate::proofs::Grows::enters_body, crate::proofs::Grows::rule_derives))]
pub(crate) fn grow_rule(
    alloc: Global,
    grammar: Grammar,
    text: &[u8],
    table: &MatchTable,
    id: u8,
    offset: usize,
    end: usize,
    height: usize,
) -> Mem<Node>
    requires start { offset ≤ length text.now }
    requires holds { Holds (rules_of grammar) text.now table.now }
    requires enters { Enters (rules_of grammar) text.now table.now (rule id) offset }
    requires ends { EndsWithin (rules_of grammar) text.now height (rule id) offset end }
    ensures { IfOk result (λ n. Derives (rules_of grammar) text.now (rule id) offset end (n ∷ [])) }
{
    let expr = rule_expression(grammar, id);
    let children = grow(alloc, grammar, text, table, expr, offset, end, height - 1)?;
    Ok(Node {
        rule: id,
        start: offset,
        end,
        children,
    })
}

// The nodes of the first, and of the second behind them.
#[cycle(growing)]
#[tactic(auto, using(crate::proofs::Comes::enters_first, crate::proofs::Comes::enters_second, crate::proofs::Grows::seq_left, crate::proofs::Grows::seq_right, crate::proofs::Grows::seq_not_fails, crate::proofs::Grows::seq_derives))]
fn grow_sequence(
    alloc: Global,
    grammar: Grammar,
    text: &[u8],
    table: &MatchTable,
    left: &Expression,
    right: &Expression,
    offset: usize,
    end: usize,
    height: usize,
) -> Mem<List<Node>>
    requires start { offset ≤ length text.now }
    requires holds { Holds (rules_of grammar) text.now table.now }
    requires enters { Enters (rules_of grammar) text.now table.now (seq (expression left.now) (expression right.now)) offset }
    requires ends { EndsWithin (rules_of grammar) text.now height (seq (expression left.now) (expression right.now)) offset end }
    ensures { IfOk result (λ nodes. Derives (rules_of grammar) text.now (seq (expression left.now) (expression right.now)) offset end nodes) }
{
    match come(grammar, text, table, left, offset) {
        Outcome::End { offset: middle, .. } => {
            let mut all = grow(alloc, grammar, text, table, left, offset, middle, height)?;
            let behind = grow(alloc, grammar, text, table, right, middle, end, height)?;
            all.append(behind)?;
            Ok(all)
        }
        Outcome::Fail { .. } => unreachable!(),
    }
}

// Of two alternatives the one that stands, or where that is a choice again, the one of it. Nothing is grown meanwhile, so a
// choice of many takes no more of the stack than one of two.
#[tactic(auto, using(crate::proofs::Comes::enters_one, crate::proofs::Comes::enters_other, crate::proofs::Choices::stands_left, crate::proofs::Choices::stands_right, crate::proofs::Choices::stands_behind))]
fn chosen(
    grammar: Grammar,
    text: &[u8],
    table: &MatchTable,
    left: &'static Expression,
    right: &'static Expression,
    offset: usize,
) -> &'static Expression
    requires start { offset ≤ length text.now }
    requires holds { Holds (rules_of grammar) text.now table.now }
    requires enters { Enters (rules_of grammar) text.now table.now (choice (expression left.now) (expression right.now)) offset }
    ensures enters { Enters (rules_of grammar) text.now table.now (expression result.now) offset }
    ensures stands { StandsFor (rules_of grammar) text.now (choice (expression left.now) (expression right.now)) (expression result.now) offset }
    ensures light { weight (expression result.now) < 1 + weight (expression left.now) + weight (expression right.now) }
{
    match come(grammar, text, table, left, offset) {
        Outcome::End { .. } => left,
        Outcome::Fail { .. } => match right {
            Expression::Choice(next, further) => {
                chosen(grammar, text, table, next, further, offset)
            }
            _ => right,
        },
    }
}

// The nodes of the expression, which the guard let pass.
#[cycle(growing)]
#[tactic(auto, using(crate::proofs::Comes::enters_guarded, crate::proofs::Grows::guard_inner, crate::proofs::Grows::guard_derives))]
fn grow_guarded(
    alloc: Global,
    grammar: Grammar,
    text: &[u8],
    table: &MatchTable,
    inner: &Expression,
    guard: Guard,
    offset: usize,
    end: usize,
    height: usize,
) -> Mem<List<Node>>
    requires start { offset ≤ length text.now }
    requires holds { Holds (rules_of grammar) text.now table.now }
    requires enters { Enters (rules_of grammar) text.now table.now (guarded (expression inner.now) guard) offset }
    requires ends { EndsWithin (rules_of grammar) text.now height (guarded (expression inner.now) guard) offset end }
    ensures { IfOk result (λ nodes. Derives (rules_of grammar) text.now (guarded (expression inner.now) guard) offset end nodes) }
{
    Ok(grow(alloc, grammar, text, table, inner, offset, end, height)?)
}

// The nodes of each turn that takes a byte.
#[cycle(growing)]
#[tactic(auto, using(crate::proofs::Comes::enters_turn, crate::proofs::Comes::enters_later, crate::proofs::Grows::many_ends_on, crate::proofs::Grows::turn_ends, crate::proofs::Grows::idle_derives, crate::proofs::Grows::stop_derives, crate::proofs::Grows::no_front, crate::proofs::Grows::front_more, crate::proofs::Grows::whole_front))]
fn grow_many(
    alloc: Global,
    grammar: Grammar,
    text: &[u8],
    table: &MatchTable,
    turn: &Expression,
    offset: usize,
    end: usize,
    height: usize,
) -> Mem<List<Node>>
    requires start { offset ≤ length text.now }
    requires holds { Holds (rules_of grammar) text.now table.now }
    requires enters { Enters (rules_of grammar) text.now table.now (many (expression turn.now)) offset }
    requires ends { EndsWithin (rules_of grammar) text.now height (many (expression turn.now)) offset end }
    ensures { IfOk result (λ nodes. Derives (rules_of grammar) text.now (many (expression turn.now)) offset end nodes) }
{
    let mut all = List::new(alloc);
    let mut at = offset;
    loop {
        match come(grammar, text, table, turn, at) {
            Outcome::End { offset: next, .. } => {
                if next == at {
                    return Ok(all);
                }
                let nodes = grow(alloc, grammar, text, table, turn, at, next, height)?;
                all.append(nodes)?;
                at = next;
            }
            Outcome::Fail { .. } => return Ok(all),
        }
    }
}
