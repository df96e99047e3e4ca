//! What a whole text comes to, by one table.

ghost use Rattle.asn_match.specs.Texts.{ComesTo};
ghost use Rattle.asn_match.specs.inner.Dues.{Tells};
ghost use Rattle.asn_rules.specs.Due.{pieces_of};
ghost use Rattle.asn_rules.specs.Grammar.{rules_of};
ghost use Rattle.asn_rules.specs.Valid.{IsDeeper};
ghost use Rattle.asn_rules.specs.declared.run.MatchFault.TheVariants.{TooDeep};
ghost use Rattle.std.specs.Prelude.{◌≡◌, ◌<◌, Err, IfOk};

use crate::chains::MatchTable;
use crate::derive::node_at;
use crate::due::due_place;
use crate::tries::filled;
use asn_probe::{Probe, Steps};
use asn_rules::{DuePlace, Grammar, MatchFault, Node, Outcome, RuleId, names};
use std::alloc::Global;
use std::marker::Brand;
use std::sync::ledger::{Blank, Ledger};

/// What a whole text comes to.
#[derive(Drop)]
pub enum WholeText {
    /// It is one of the grammar: its tree.
    Tree(Node),
    /// It is none: the first part of a module that it lacks, and where the part is due.
    Lacking(DuePlace),
}

// What the table of a whole text tells: that the text is one of the grammar, or what it lacks.
#[derive(Drop)]
pub(crate) enum Told {
    Ended(MatchTable),
    Lacking(DuePlace),
}

// What the text comes to, with a counter that is let go.
fn counted<L: Ledger>(
    alloc: Global,
    grammar: Grammar,
    text: &Probe,
    depth: usize,
    blank: Blank,
) -> Result<Told, MatchFault>
    requires name { blank.name ≡ L.name }
    requires parts { blank.parts ≡ L.parts }
    requires some { 0 < blank.parts }
    ensures tells { IfOk result (Tells (rules_of grammar) text.now depth (pieces_of grammar)) }
    ensures deep { result ≡ Err TooDeep → IsDeeper (rules_of grammar) text.now depth }
{
    let mut steps = Steps::<L>::new(blank);
    let rule = RuleId::new(names::ASN_SPEC);
    match filled(alloc, grammar, text, rule, depth, &mut steps) {
        Ok(table) => match table.find(names::ASN_SPEC, 0) {
            Some(Outcome::End { .. }) => Ok(Told::Ended(table)),
            Some(Outcome::Fail { .. }) => {
                let mut table = table;
                let mut taken = Vec::new(alloc);
                match due_place(grammar, text, depth, &mut table, &mut taken, &mut steps) {
                    Ok(due) => Ok(Told::Lacking(due)),
                    Err(MatchFault::TooDeep) => unreachable!(),
                    Err(MatchFault::OutOfMemory) => Err(MatchFault::OutOfMemory),
                }
            }
            None => unreachable!(),
        },
        Err(fault) => Err(fault),
    }
}

/// What a whole text comes to by the grammar, where no more than `depth` calls lie within each other: its tree, or what it
/// lacks. One table is made of all that is tried, and both come from it.
///
/// # Errors
///
/// Want of memory aside, `TooDeep` exactly where the height of the text's derivation exceeds `depth`.
pub fn whole_text(
    alloc: Global,
    grammar: Grammar,
    text: &str,
    depth: usize,
) -> Result<WholeText, MatchFault>
    ensures comes { IfOk result (ComesTo (rules_of grammar) (pieces_of grammar) text.now depth) }
    ensures deep { result ≡ Err TooDeep → IsDeeper (rules_of grammar) text.now depth }
{
    let probe = Probe::new(text);
    match counted::<Brand>(alloc, grammar, &probe, depth, Blank::new(1)) {
        Ok(Told::Ended(table)) => {
            match node_at(
                alloc,
                grammar,
                text,
                &table,
                RuleId::new(names::ASN_SPEC),
                0,
            ) {
                Ok(node) => Ok(WholeText::Tree(node)),
                Err(_) => Err(MatchFault::OutOfMemory),
            }
        }
        Ok(Told::Lacking(due)) => Ok(WholeText::Lacking(due)),
        Err(fault) => Err(fault),
    }
}
