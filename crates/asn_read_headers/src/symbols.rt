//! The symbols that a module exports and imports.

ghost use Rattle.asn_read_headers.specs.Symbols.{exports_of, symbol_of, symbols_in, symbols_of};
ghost use Rattle.asn_rules.specs.Children.{Is, StandsBy};
ghost use Rattle.asn_rules.specs.Whole.{whole_rules};
ghost use Rattle.asn_rules.specs.declared.names.TheConstants.{EXPORTS, IMPORTED_SYMBOL, SYMBOL_LIST};
ghost use Rattle.std.specs.Prelude.{◌≡◌, All, IfOk, Some};

use asn_memory::{List, Mem, Text};
use asn_read_nodes::{children, read_name};
use asn_rules::{Node, names};
use asn_tree_headers::Exports;
use std::alloc::Global;

/// A symbol by its name; the braces of a parameterized one leave no trace (X.680 13.1).
#[tactic(auto, using(crate::proofs::Views::symbol_has_name, asn_read_nodes::proofs::Views::identifier_has_blanks))]
fn read_symbol(alloc: Global, text: &[u8], node: &Node) -> Mem<Text>
    requires { Is whole_rules text.now IMPORTED_SYMBOL node.now }
    ensures { IfOk result (λ name. symbol_of text.now node.now ≡ Some name) }
{
    read_name(alloc, text, node.the_child(names::IDENTIFIER))
}

/// The symbols among the nodes.
#[tactic(auto, using(asn_read_nodes::proofs::Views::as_rule, asn_read_nodes::proofs::Equations::takes_next, asn_read_nodes::proofs::Equations::passes_next))]
fn read_each(alloc: Global, text: &[u8], nodes: &[Node]) -> Mem<List<Text>>
    requires { All (StandsBy whole_rules text.now) nodes.now }
    ensures { IfOk result (λ symbols. symbols_in text.now nodes.now ≡ Some symbols) }
{
    let mut symbols = List::new(alloc);
    for node in nodes {
        if node.rule == names::IMPORTED_SYMBOL {
            symbols.add(read_symbol(alloc, text, node)?)?;
        }
    }
    Ok(symbols)
}

/// The symbols of a list, in order (X.680 13.1).
pub(crate) fn read_symbols(alloc: Global, text: &[u8], node: &Node) -> Mem<List<Text>>
    requires { Is whole_rules text.now SYMBOL_LIST node.now }
    ensures { IfOk result (λ symbols. symbols_of text.now node.now ≡ Some symbols) }
{
    Ok(read_each(alloc, text, children(text, node))?)
}

/// What a module exports: all, or the symbols between EXPORTS and the semicolon, of which there may be none (X.680 13.1).
pub(crate) fn read_exports(alloc: Global, text: &[u8], node: &Node) -> Mem<Exports>
    requires { Is whole_rules text.now EXPORTS node.now }
    ensures { IfOk result (λ exports. exports_of text.now node.now ≡ Some exports) }
{
    if let Some(_) = node.child(names::MARK_ALL) {
        return Ok(Exports::All);
    }
    match node.child(names::SYMBOL_LIST) {
        Some(list) => Ok(Exports::Identifier(read_symbols(alloc, text, list)?)),
        None => Ok(Exports::Identifier(List::new(alloc))),
    }
}
