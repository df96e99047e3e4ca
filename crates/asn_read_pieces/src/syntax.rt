//! The syntax in which a class's objects are written: words, fields, commas, and groups in brackets, which hold further
//! parts.

ghost use Rattle.asn_read_nodes.specs.Parts.{all_some};
ghost use Rattle.asn_read_pieces.specs.Syntax.{part_of, parts_of, syntax_of, token_among};
ghost use Rattle.asn_rules.specs.Children.{Is, StandsBy};
ghost use Rattle.asn_rules.specs.Nodes.{at_children, child_of};
ghost use Rattle.asn_rules.specs.Whole.{whole_rules};
ghost use Rattle.asn_rules.specs.declared.names.TheConstants.{SYNTAX_GROUP, SYNTAX_ITEM, SYNTAX_PART};
ghost use Rattle.asn_rules.specs.declared.node.Node.TheViews.{out-Node};
ghost use Rattle.std.specs.Prelude.{◌≡◌, All, IfOk, None, Some};

use crate::fields::{read_field, read_syntax_literal};
use asn_memory::{List, Mem};
use asn_read_nodes::children;
use asn_rules::{Node, names};
use asn_tree_leaves::{InformationObjectSyntax, SyntaxExpression, SyntaxToken};
use std::alloc::Global;

/// A token: a word in capitals, the name of a field, or a comma (X.681 10.5).
#[tactic(auto, using(crate::proofs::Views::token_is_one))]
fn read_token(alloc: Global, text: &[u8], node: &Node) -> Mem<SyntaxToken>
    requires is { Is whole_rules text.now SYNTAX_ITEM node.now }
    requires no_group { child_of node.now SYNTAX_GROUP ≡ None }
    ensures { IfOk result (λ token. token_among text.now (out-Node node.now).children ≡ Some token) }
{
    if let Some(word) = node.child(names::SYNTAX_LITERAL) {
        return Ok(SyntaxToken::Literal(read_syntax_literal(alloc, text, word)?));
    }
    if let Some(field) = node.child(names::OBJECT_FIELD_IDENTIFIER) {
        return Ok(SyntaxToken::Field(read_field(alloc, text, field)?));
    }
    match node.child(names::MARK_COMMA) {
        Some(_) => Ok(SyntaxToken::Comma),
        None => unreachable!(),
    }
}

/// A part: a group in brackets, which may be left out, or a token, which stands in each object (X.681 10.5).
#[cycle(reading)]
#[tactic(auto, using(crate::proofs::Equations::part_is))]
fn read_part(alloc: Global, text: &[u8], node: &Node) -> Mem<SyntaxExpression>
    requires { Is whole_rules text.now SYNTAX_ITEM node.now }
    ensures { IfOk result (λ part. part_of text.now node.now ≡ Some part) }
{
    match node.child(names::SYNTAX_GROUP) {
        Some(group) => Ok(SyntaxExpression::Optional(read_parts(alloc, text, group)?)),
        None => Ok(SyntaxExpression::Required(read_token(alloc, text, node)?)),
    }
}

/// The parts that stand in a node.
#[cycle(reading)]
#[tactic(auto, using(crate::proofs::Equations::parts_is))]
fn read_parts(alloc: Global, text: &[u8], node: &Node) -> Mem<List<SyntaxExpression>>
    requires { StandsBy whole_rules text.now node.now }
    ensures { IfOk result (λ parts. parts_of text.now node.now ≡ Some parts) }
{
    read_each(alloc, text, children(text, node))
}

#[cycle(reading)]
#[tactic(auto, using(asn_read_nodes::proofs::Views::as_rule, asn_read_nodes::proofs::Equations::takes_next, asn_read_nodes::proofs::Equations::passes_next))]
fn read_each(alloc: Global, text: &[u8], nodes: &[Node]) -> Mem<List<SyntaxExpression>>
    requires { All (StandsBy whole_rules text.now) nodes.now }
    ensures { IfOk result (λ parts. all_some (at_children nodes.now SYNTAX_ITEM (part_of text.now)) ≡ Some parts) }
{
    let mut parts = List::new(alloc);
    for node in nodes {
        if node.rule == names::SYNTAX_ITEM {
            parts.add(read_part(alloc, text, node)?)?;
        }
    }
    Ok(parts)
}

/// The syntax that stands behind a class: its parts in order (X.681 10.5).
pub fn read_syntax(alloc: Global, text: &[u8], node: &Node) -> Mem<InformationObjectSyntax>
    requires { Is whole_rules text.now SYNTAX_PART node.now }
    ensures { IfOk result (λ syntax. syntax_of text.now node.now ≡ Some syntax) }
{
    let expressions = read_parts(alloc, text, node)?;
    Ok(InformationObjectSyntax { expressions })
}
