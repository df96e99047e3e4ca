//! The node of a whole text.

ghost use Rattle.asn_read_nodes.specs.Derivation.{IsMatchingErrorBy, IsNodeBy, report_of};
ghost use Rattle.asn_read_nodes.specs.declared.errors.SpecError.TheVariants as fault;
ghost use Rattle.asn_rules.specs.Due.{context_of, pieces_of, reason_of};
ghost use Rattle.asn_rules.specs.Grammar.{rules_of};
ghost use Rattle.asn_rules.specs.Valid.{Fails, IsDeeper, IsValid};
ghost use Rattle.asn_text.specs.Report.{IsReport};
ghost use Rattle.asn_text.specs.declared.report.LexerError.{LexerError as OneError};
ghost use Rattle.std.specs.Prelude.{◌≡◌, ◌≤◌, Err, IfOk, length};

use crate::errors::SpecError;
use asn_match::{WholeText, whole_text};
use asn_rules::{DuePlace, Grammar, MatchFault, Node};
use asn_text::{LexerError, LexerErrorType, ReportData};
use std::alloc::Global;

/// The error of a text that lacks a part of a module: the place where the part is due, and the reason.
fn matching_error(source: &str, due: DuePlace) -> LexerError
    requires module { due.module ≤ length source.now }
    requires place { due.place ≤ length source.now }
    ensures { IsReport source.now due.place (context_of due.part due.module due.place) (reason_of due.part) (report_of result.kind) }
{
    LexerError {
        kind: LexerErrorType::MatchingError(ReportData::at(
            source,
            due.place,
            due.context(),
            due.part.reason(),
        )),
    }
}

/// The node of a whole text by the table of the grammar, or why there is none. It is for the caller to read the node. All that
/// the text tries is tried once: the node and the place of an error come from one packrat table.
///
/// # Errors
///
/// Want of memory aside, `Lexer` comes exactly where the height of the text's derivation is at most `depth` and the grammar
/// fails, and `TooDeep` exactly where the height exceeds `depth`. The modules are then gone through in order: the error
/// tells the first of name, `DEFINITIONS`, `::=`, `BEGIN` and closing that does not stand, and where it is due.
pub fn node_of(
    alloc: Global,
    grammar: Grammar,
    source: &str,
    depth: usize,
) -> Result<Node, SpecError>
    ensures node { IfOk result (λ n. IsNodeBy (rules_of grammar) source.now n) }
    ensures valid { IfOk result (λ _. IsValid (rules_of grammar) source.now depth) }
    ensures matching { (e : OneError) → result ≡ Err (fault.Lexer e) → Fails (rules_of grammar) source.now depth × IsMatchingErrorBy (rules_of grammar) (pieces_of grammar) source.now depth e }
    ensures deep { result ≡ Err fault.TooDeep → IsDeeper (rules_of grammar) source.now depth }
{
    match whole_text(alloc, grammar, source, depth) {
        Ok(WholeText::Tree(node)) => Ok(node),
        Ok(WholeText::Lacking(due)) => Err(SpecError::Lexer(matching_error(source, due))),
        Err(MatchFault::TooDeep) => Err(SpecError::TooDeep),
        Err(MatchFault::OutOfMemory) => Err(SpecError::OutOfMemory),
    }
}
