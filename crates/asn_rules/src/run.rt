//! The interpreter: what a rule comes to at an offset, with no memory and no tree.
//!
//! It reads the tables through `grammar.rt` and bytes through `lexical.rt` and `guards.rt`; `rules.rt` and `derive.rt` call it.
//! Each form is a function of its own, so that a level of the recursion keeps little on the stack.

ghost use Rattle.std.specs.Prelude.{◌≡◌, ◌≤◌, ◌<◌, ◌+◌, length};
ghost use Rattle.asn_rules.specs.Expression.{expression, sight, seq, choice, many, never, guarded, rule};
ghost use Rattle.asn_rules.specs.Runs.{seen};
ghost use Rattle.asn_rules.specs.inner.Answer.{answer, at_height, raised, IsWithin};
ghost use Rattle.asn_rules.specs.Grammar.{rules_of};

use crate::expression::Expression;
use crate::grammar::{Grammar, rule_expression};
use asn_rules_guards::{Guard, Sight, is_allowed, stands_in, width_of};
use thiserror::Error;

/// What a try of a rule came to. Its height counts the calls that lie within each other, itself included.
#[derive(Clone, Copy, Debug, PartialEq, Eq)]
pub enum Outcome {
    /// It ends at this offset, in bytes from the start of the text.
    End { offset: usize, height: usize },
    /// It does not stand here.
    Fail { height: usize },
}

/// Why a try has no outcome.
#[derive(Clone, Copy, Debug, Error, PartialEq, Eq)]
pub enum MatchFault {
    /// The height is above the depth that was allowed.
    #[error("the calls of rules nest deeper than is allowed")]
    TooDeep,
    /// A growth was refused.
    #[error("out of memory")]
    OutOfMemory,
}

/// The height of a try is above the depth that was allowed.
#[derive(Clone, Copy, Debug, Error, PartialEq, Eq)]
#[error("the calls of rules nest deeper than is allowed")]
pub struct TooDeep;

impl Outcome {
    // The outcome with a height of at least this.
    fn raised(self, least: usize) -> Outcome
        ensures { result ≡ raised least self }
    {
        match self {
            Outcome::End { offset, height } => Outcome::End {
                offset,
                height: least.max(height),
            },
            Outcome::Fail { height } => Outcome::Fail {
                height: least.max(height),
            },
        }
    }
}

// What is seen at the offset.
pub(crate) fn see_at(text: &[u8], look: &Sight, offset: usize) -> Outcome
    requires { offset ≤ length text.now }
    ensures { result ≡ at_height (seen text.now (sight look.now) offset) 0 }
{
    if stands_in(look, &text[offset..]) {
        Outcome::End {
            offset: offset + width_of(look),
            height: 0,
        }
    } else {
        Outcome::Fail { height: 0 }
    }
}

// What the expression comes to at the offset, where no more than `depth` calls lie within each other.
#[cycle(matching)]
pub(crate) fn run(
    grammar: Grammar,
    text: &[u8],
    expr: &Expression,
    offset: usize,
    depth: usize,
) -> Result<Outcome, MatchFault>
    requires { offset ≤ length text.now }
    ensures value { result ≡ answer (rules_of grammar) text.now depth (expression expr.now) offset }
    ensures within { IsWithin (length text.now) depth offset result }
{
    match expr {
        Expression::See(look) => Ok(see_at(text, look, offset)),
        Expression::Marked(_, look) => Ok(see_at(text, look, offset)),
        Expression::Call(id) => run_rule(grammar, text, *id, offset, depth),
        Expression::Skip(id) => run_rule(grammar, text, *id, offset, depth),
        Expression::Sequence(left, right) => run_sequence(
            grammar, text, left, right, offset, depth,
        ),
        Expression::Choice(left, right) => run_choice(grammar, text, left, right, offset, depth),
        Expression::Many(turn) => run_many(grammar, text, turn, offset, depth),
        Expression::Not(inner) => run_not(grammar, text, inner, offset, depth),
        Expression::Guarded(inner, guard) => run_guarded(
            grammar, text, inner, *guard, offset, depth,
        ),
    }
}

// What the rule comes to: what its expression does, one call higher.
#[cycle(matching)]
pub(crate) fn run_rule(
    grammar: Grammar,
    text: &[u8],
    id: u8,
    offset: usize,
    depth: usize,
) -> Result<Outcome, MatchFault>
    requires { offset ≤ length text.now }
    ensures value { result ≡ answer (rules_of grammar) text.now depth (rule id) offset }
    ensures within { IsWithin (length text.now) depth offset result }
{
    if depth == 0 {
        return Err(MatchFault::TooDeep);
    }
    match run(
        grammar,
        text,
        rule_expression(grammar, id),
        offset,
        depth - 1,
    )? {
        Outcome::End {
            offset: end,
            height,
        } => Ok(Outcome::End {
            offset: end,
            height: height + 1,
        }),
        Outcome::Fail { height } => Ok(Outcome::Fail { height: height + 1 }),
    }
}

// What the first comes to, and the second from its end on.
#[cycle(matching)]
fn run_sequence(
    grammar: Grammar,
    text: &[u8],
    left: &Expression,
    right: &Expression,
    offset: usize,
    depth: usize,
) -> Result<Outcome, MatchFault>
    requires { offset ≤ length text.now }
    ensures value { result ≡ answer (rules_of grammar) text.now depth (seq (expression left.now) (expression right.now)) offset }
    ensures within { IsWithin (length text.now) depth offset result }
{
    match run(grammar, text, left, offset, depth)? {
        Outcome::End {
            offset: middle,
            height,
        } => Ok(run(grammar, text, right, middle, depth)?.raised(height)),
        Outcome::Fail { height } => Ok(Outcome::Fail { height }),
    }
}

// What the first comes to, or where it fails the second.
#[cycle(matching)]
fn run_choice(
    grammar: Grammar,
    text: &[u8],
    left: &Expression,
    right: &Expression,
    offset: usize,
    depth: usize,
) -> Result<Outcome, MatchFault>
    requires { offset ≤ length text.now }
    ensures value { result ≡ answer (rules_of grammar) text.now depth (choice (expression left.now) (expression right.now)) offset }
    ensures within { IsWithin (length text.now) depth offset result }
{
    match run(grammar, text, left, offset, depth)? {
        Outcome::End {
            offset: end,
            height,
        } => Ok(Outcome::End {
            offset: end,
            height,
        }),
        Outcome::Fail { height } => Ok(run(grammar, text, right, offset, depth)?.raised(height)),
    }
}

// An end that takes nothing where the expression fails, and a failure where it ends.
#[cycle(matching)]
fn run_not(
    grammar: Grammar,
    text: &[u8],
    inner: &Expression,
    offset: usize,
    depth: usize,
) -> Result<Outcome, MatchFault>
    requires { offset ≤ length text.now }
    ensures value { result ≡ answer (rules_of grammar) text.now depth (never (expression inner.now)) offset }
    ensures within { IsWithin (length text.now) depth offset result }
{
    match run(grammar, text, inner, offset, depth)? {
        Outcome::End { offset: _, height } => Ok(Outcome::Fail { height }),
        Outcome::Fail { height } => Ok(Outcome::End { offset, height }),
    }
}

// What the expression comes to, where the guard allows what it took.
#[cycle(matching)]
fn run_guarded(
    grammar: Grammar,
    text: &[u8],
    inner: &Expression,
    guard: Guard,
    offset: usize,
    depth: usize,
) -> Result<Outcome, MatchFault>
    requires { offset ≤ length text.now }
    ensures value { result ≡ answer (rules_of grammar) text.now depth (guarded (expression inner.now) guard) offset }
    ensures within { IsWithin (length text.now) depth offset result }
{
    match run(grammar, text, inner, offset, depth)? {
        Outcome::End {
            offset: end,
            height,
        } => {
            if is_allowed(guard, &text[offset..end]) {
                Ok(Outcome::End {
                    offset: end,
                    height,
                })
            } else {
                Ok(Outcome::Fail { height })
            }
        }
        Outcome::Fail { height } => Ok(Outcome::Fail { height }),
    }
}

// The end of the last turn that takes a byte.
#[cycle(matching)]
fn run_many(
    grammar: Grammar,
    text: &[u8],
    turn: &Expression,
    offset: usize,
    depth: usize,
) -> Result<Outcome, MatchFault>
    requires { offset ≤ length text.now }
    ensures value { result ≡ answer (rules_of grammar) text.now depth (many (expression turn.now)) offset }
    ensures within { IsWithin (length text.now) depth offset result }
{
    let mut at = offset;
    let mut highest = 0;
    loop {
        match run(grammar, text, turn, at, depth)? {
            Outcome::End {
                offset: end,
                height,
            } => {
                highest = highest.max(height);
                if end == at {
                    return Ok(Outcome::End {
                        offset: at,
                        height: highest,
                    });
                }
                at = end;
            }
            Outcome::Fail { height } => {
                return Ok(Outcome::End {
                    offset: at,
                    height: highest.max(height),
                });
            }
        }
    }
}
