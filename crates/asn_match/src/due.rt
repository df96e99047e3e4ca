//! Where a text goes wrong: the first part of a module that does not stand.
//!
//! `whole.rt` asks here once the grammar has failed. The pieces of a module are tried one behind the other by the table of
//! what the whole text tried, so that nothing is tried again.

ghost use Rattle.asn_match.specs.Table.{Holds};
ghost use Rattle.asn_match.specs.inner.Dues.{Came, DueFrom, IsFollowed, Never, NoStop, NoneDue, Walked};
ghost use Rattle.asn_rules.specs.Due.{Comes, Through, lacks, piece, pieces_of};
ghost use Rattle.asn_rules.specs.Expression.{expression, skip};
ghost use Rattle.asn_rules.specs.Grammar.{rules_of};
ghost use Rattle.asn_rules.specs.Runs.{ends};
ghost use Rattle.asn_rules.specs.declared.names.TheConstants.{SP as BLANKS};
ghost use Rattle.asn_rules.specs.declared.run.MatchFault.TheVariants.{TooDeep};
ghost use Rattle.std.specs.Prelude.{◌≡◌, ◌≤◌, ℕ, [], ◌∷◌, Err, IfOk, OnOk, length, map};

use crate::chains::MatchTable;
use crate::run::run;
use asn_probe::{Probe, Steps};
use asn_rules::Expression::Skip;
use asn_rules::names::SP;
use asn_rules::{DuePlace, Expression, Grammar, MatchFault, ModulePart, Outcome, Piece, pieces};
use std::sync::ledger::Ledger;

static BLANKS_HERE: Expression = Skip(SP);

// What an attempt came to.
#[derive(Clone, Copy)]
pub(crate) enum Attempt {
    End(usize),
    Fail,
}

// What the expression comes to at the offset, its height aside.
fn come_to<L: Ledger>(
    grammar: Grammar,
    text: &Probe,
    expr: &Expression,
    offset: usize,
    depth: usize,
    table: &mut MatchTable,
    taken: &mut Vec<u8>,
    steps: &mut Steps<L>,
) -> Result<Attempt, MatchFault>
    requires start { offset ≤ length text.now }
    requires holds { Holds (rules_of grammar) text.now table.old }
    ensures came { IfOk result (Came (rules_of grammar) text.now depth (expression expr.now) offset) }
    ensures kept { OnOk result (Holds (rules_of grammar) text.now table.new) }
    ensures never { result ≡ Err TooDeep → Never (rules_of grammar) text.now depth (expression expr.now) offset }
{
    match run(grammar, text, expr, offset, depth, table, taken, steps) {
        Ok(
            Outcome::End {
                offset: end,
                height: _,
            },
        ) => Ok(Attempt::End(end)),
        Ok(Outcome::Fail { height: _ }) => Ok(Attempt::Fail),
        Err(fault) => Err(fault),
    }
}

// What pieces came to that were tried one behind the other.
#[derive(Clone, Copy)]
pub(crate) enum Walk {
    Stands(usize),
    Lacks(ModulePart, usize),
}

// One piece. What may stand there never fails; where it did, the pieces would come to nothing.
fn walk_piece<L: Ledger>(
    grammar: Grammar,
    text: &Probe,
    wanted: Piece,
    offset: usize,
    depth: usize,
    table: &mut MatchTable,
    taken: &mut Vec<u8>,
    steps: &mut Steps<L>,
) -> Result<Walk, MatchFault>
    requires start { offset ≤ length text.now }
    requires holds { Holds (rules_of grammar) text.now table.old }
    ensures walked { IfOk result (Walked (rules_of grammar) text.now depth (piece wanted ∷ []) offset) }
    ensures kept { OnOk result (Holds (rules_of grammar) text.now table.new) }
    ensures never { result ≡ Err TooDeep → NoStop (rules_of grammar) text.now depth (piece wanted ∷ []) offset }
{
    match wanted {
        Piece::Optional(expr) => {
            match come_to(grammar, text, expr, offset, depth, table, taken, steps) {
                Ok(Attempt::End(end)) => Ok(Walk::Stands(end)),
                Ok(Attempt::Fail) => Err(MatchFault::TooDeep),
                Err(fault) => Err(fault),
            }
        }
        Piece::Required(part, expr) => {
            match come_to(grammar, text, expr, offset, depth, table, taken, steps) {
                Ok(Attempt::End(end)) => Ok(Walk::Stands(end)),
                Ok(Attempt::Fail) => Ok(Walk::Lacks(part, offset)),
                Err(fault) => Err(fault),
            }
        }
    }
}

// The pieces, from the offset on.
fn walk_pieces<L: Ledger>(
    grammar: Grammar,
    text: &Probe,
    wanted: &[Piece],
    offset: usize,
    depth: usize,
    table: &mut MatchTable,
    taken: &mut Vec<u8>,
    steps: &mut Steps<L>,
) -> Result<Walk, MatchFault>
    requires start { offset ≤ length text.now }
    requires holds { Holds (rules_of grammar) text.now table.old }
    ensures walked { IfOk result (Walked (rules_of grammar) text.now depth (map piece wanted.now) offset) }
    ensures kept { OnOk result (Holds (rules_of grammar) text.now table.new) }
    ensures never { result ≡ Err TooDeep → NoStop (rules_of grammar) text.now depth (map piece wanted.now) offset }
{
    let mut at = offset;
    for one in wanted {
        match walk_piece(grammar, text, *one, at, depth, table, taken, steps) {
            Ok(Walk::Stands(end)) => at = end,
            Ok(Walk::Lacks(lacking, tried)) => return Ok(Walk::Lacks(lacking, tried)),
            Err(fault) => return Err(fault),
        }
    }
    Ok(Walk::Stands(at))
}

// The pieces of a module.
fn walk_module<L: Ledger>(
    grammar: Grammar,
    text: &Probe,
    offset: usize,
    depth: usize,
    table: &mut MatchTable,
    taken: &mut Vec<u8>,
    steps: &mut Steps<L>,
) -> Result<Walk, MatchFault>
    requires start { offset ≤ length text.now }
    requires holds { Holds (rules_of grammar) text.now table.old }
    ensures walked { IfOk result (Walked (rules_of grammar) text.now depth (pieces_of grammar) offset) }
    ensures kept { OnOk result (Holds (rules_of grammar) text.now table.new) }
    ensures never { result ≡ Err TooDeep → NoStop (rules_of grammar) text.now depth (pieces_of grammar) offset }
{
    walk_pieces(
        grammar,
        text,
        pieces(grammar),
        offset,
        depth,
        table,
        taken,
        steps,
    )
}

// Where blanks and comments end that begin at the offset.
fn behind_blanks<L: Ledger>(
    grammar: Grammar,
    text: &Probe,
    offset: usize,
    depth: usize,
    table: &mut MatchTable,
    taken: &mut Vec<u8>,
    steps: &mut Steps<L>,
) -> Result<usize, MatchFault>
    requires start { offset ≤ length text.now }
    requires holds { Holds (rules_of grammar) text.now table.old }
    ensures ends { IfOk result (λ j. Comes (rules_of grammar) text.now depth (skip BLANKS) offset (ends j) × (j ≤ length text.now)) }
    ensures kept { OnOk result (Holds (rules_of grammar) text.now table.new) }
    ensures never { result ≡ Err TooDeep → (j : ℕ) → Comes (rules_of grammar) text.now depth (skip BLANKS) offset (ends j) → ⊥ }
{
    match come_to(
        grammar,
        text,
        &BLANKS_HERE,
        offset,
        depth,
        table,
        taken,
        steps,
    ) {
        Ok(Attempt::End(end)) => Ok(end),
        Ok(Attempt::Fail) => Err(MatchFault::TooDeep),
        Err(fault) => Err(fault),
    }
}

// The place of a part that a module lacks, and of the module's first byte.
fn place_of<L: Ledger>(
    grammar: Grammar,
    text: &Probe,
    part: ModulePart,
    offset: usize,
    tried: usize,
    depth: usize,
    table: &mut MatchTable,
    taken: &mut Vec<u8>,
    steps: &mut Steps<L>,
) -> Result<DuePlace, MatchFault>
    requires begun { offset ≤ length text.now }
    requires lacking { Through (rules_of grammar) text.now depth (pieces_of grammar) offset (lacks part tried) }
    requires within { tried ≤ length text.now }
    requires holds { Holds (rules_of grammar) text.now table.old }
    ensures due { IfOk result (DueFrom (rules_of grammar) text.now depth (pieces_of grammar) offset) }
    ensures never { result ≡ Err TooDeep → NoneDue (rules_of grammar) text.now depth (pieces_of grammar) offset }
{
    match behind_blanks(grammar, text, offset, depth, table, taken, steps) {
        Ok(module) => match behind_blanks(grammar, text, tried, depth, table, taken, steps) {
            Ok(place) => Ok(DuePlace {
                part,
                module,
                place,
            }),
            Err(fault) => Err(fault),
        },
        Err(fault) => Err(fault),
    }
}

// Whether a byte other than blanks and comments follows.
fn is_followed<L: Ledger>(
    grammar: Grammar,
    text: &Probe,
    offset: usize,
    depth: usize,
    table: &mut MatchTable,
    taken: &mut Vec<u8>,
    steps: &mut Steps<L>,
) -> Result<bool, MatchFault>
    requires start { offset ≤ length text.now }
    requires holds { Holds (rules_of grammar) text.now table.old }
    ensures followed { IfOk result (IsFollowed (rules_of grammar) text.now depth offset) }
    ensures kept { OnOk result (Holds (rules_of grammar) text.now table.new) }
    ensures never { result ≡ Err TooDeep → (j : ℕ) → Comes (rules_of grammar) text.now depth (skip BLANKS) offset (ends j) → ⊥ }
{
    match behind_blanks(grammar, text, offset, depth, table, taken, steps) {
        Ok(next) => Ok(next < text.len()),
        Err(fault) => Err(fault),
    }
}

// The place where a text goes wrong: of the first module that lacks a part, the part and where it is due. No more than `depth`
// calls lie within each other. TooDeep where no part is due, which never comes where the grammar fails on the text.
pub(crate) fn due_place<L: Ledger>(
    grammar: Grammar,
    text: &Probe,
    depth: usize,
    table: &mut MatchTable,
    taken: &mut Vec<u8>,
    steps: &mut Steps<L>,
) -> Result<DuePlace, MatchFault>
    requires holds { Holds (rules_of grammar) text.now table.old }
    ensures due { IfOk result (DueFrom (rules_of grammar) text.now depth (pieces_of grammar) 0) }
    ensures never { result ≡ Err TooDeep → NoneDue (rules_of grammar) text.now depth (pieces_of grammar) 0 }
{
    let mut at = 0;
    loop {
        match walk_module(grammar, text, at, depth, table, taken, steps) {
            Ok(Walk::Stands(end)) => {
                match is_followed(grammar, text, end, depth, table, taken, steps) {
                    Ok(true) => at = end,
                    Ok(false) => return Err(MatchFault::TooDeep),
                    Err(fault) => return Err(fault),
                }
            }
            Ok(Walk::Lacks(part, tried)) => {
                return place_of(grammar, text, part, at, tried, depth, table, taken, steps);
            }
            Err(fault) => return Err(fault),
        }
    }
}
