//! Constraints that hold no tree.

ghost use Rattle.asn_read_nodes.specs.Parts.{taken};
ghost use Rattle.asn_read_pieces.specs.Constraints.{body_of, brace_text_of, pattern_of, relation_of, relations_in, relations_of, user_defined_of};
ghost use Rattle.asn_rules.specs.Children.{Is, StandsBy};
ghost use Rattle.asn_rules.specs.Whole.{whole_rules};
ghost use Rattle.asn_rules.specs.declared.names.TheConstants.{BRACE_GROUP, PATTERN_CONSTRAINT, QUOTED, RELATIONAL_CONSTRAINT, RELATIONS, USER_DEFINED_CONSTRAINT};
ghost use Rattle.std.specs.Prelude.{◌≡◌, All, IfOk, Some};

use asn_memory::{List, Mem, Text};
use asn_read_nodes::{children, read_name};
use asn_rules::{Node, names};
use asn_tree_kinds::{PatternConstraint, RelationalConstraint, UserDefinedConstraint};
use std::alloc::Global;

/// The bytes of a node.
pub(crate) fn bytes_of<'t>(text: &'t [u8], node: &Node) -> &'t [u8]
    requires { StandsBy whole_rules text.now node.now }
    ensures { result.now ≡ taken text.now node.now }
{
    &text[node.start..node.end]
}

/// A member that a table's column belongs to: the name behind `@`, and the number of dots between (X.682 10.7).
#[tactic(auto, using(crate::proofs::Views::relation_has_dots, crate::proofs::Views::relation_has_name, asn_read_nodes::proofs::Views::identifier_has_blanks))]
fn read_relation(alloc: Global, text: &[u8], node: &Node) -> Mem<RelationalConstraint>
    requires { Is whole_rules text.now RELATIONAL_CONSTRAINT node.now }
    ensures { IfOk result (λ relation. relation_of text.now node.now ≡ Some relation) }
{
    let level = bytes_of(text, node.the_child(names::DOTS)).len();
    let field_name = read_name(alloc, text, node.the_child(names::IDENTIFIER))?;
    Ok(RelationalConstraint { field_name, level })
}

/// The members among the nodes.
#[tactic(auto, using(asn_read_nodes::proofs::Views::as_rule, asn_read_nodes::proofs::Equations::takes_next, asn_read_nodes::proofs::Equations::passes_next))]
fn read_each(alloc: Global, text: &[u8], nodes: &[Node]) -> Mem<List<RelationalConstraint>>
    requires { All (StandsBy whole_rules text.now) nodes.now }
    ensures { IfOk result (λ relations. relations_in text.now nodes.now ≡ Some relations) }
{
    let mut relations = List::new(alloc);
    for node in nodes {
        if node.rule == names::RELATIONAL_CONSTRAINT {
            relations.add(read_relation(alloc, text, node)?)?;
        }
    }
    Ok(relations)
}

/// The members in the braces behind an object set, in order (X.682 10.7).
pub fn read_relations(alloc: Global, text: &[u8], node: &Node) -> Mem<List<RelationalConstraint>>
    requires { Is whole_rules text.now RELATIONS node.now }
    ensures { IfOk result (λ relations. relations_of text.now node.now ≡ Some relations) }
{
    Ok(read_each(alloc, text, children(text, node))?)
}

/// What stands between quotes, with its doubled quotes.
#[tactic(auto, using(asn_read_nodes::proofs::Views::quoted_has_body))]
fn read_body(alloc: Global, text: &[u8], node: &Node) -> Mem<Text>
    requires { Is whole_rules text.now QUOTED node.now }
    ensures { IfOk result (λ read. body_of text.now node.now ≡ Some read) }
{
    let body = node.the_child(names::QUOTED_BODY);
    Text::from_bytes(alloc, bytes_of(text, body))
}

/// A pattern: the text between its quotes, in which doubled quotes stay doubled (X.680 51.9).
#[tactic(auto, using(crate::proofs::Views::pattern_has_text))]
pub fn read_pattern(alloc: Global, text: &[u8], node: &Node) -> Mem<PatternConstraint>
    requires { Is whole_rules text.now PATTERN_CONSTRAINT node.now }
    ensures { IfOk result (λ pattern. pattern_of text.now node.now ≡ Some pattern) }
{
    let pattern = read_body(alloc, text, node.the_child(names::QUOTED))?;
    Ok(PatternConstraint { pattern })
}

/// The text inside the outer braces.
#[tactic(auto, using(crate::proofs::Views::group_has_text))]
pub fn read_brace_text(alloc: Global, text: &[u8], node: &Node) -> Mem<Text>
    requires { Is whole_rules text.now BRACE_GROUP node.now }
    ensures { IfOk result (λ read. brace_text_of text.now node.now ≡ Some read) }
{
    let inside = node.the_child(names::BRACE_TEXT);
    Text::from_bytes(alloc, bytes_of(text, inside))
}

/// A constraint that is told in words: the text inside its outer braces (X.682 9.1).
#[tactic(auto, using(crate::proofs::Views::user_defined_has_group))]
pub fn read_user_defined(alloc: Global, text: &[u8], node: &Node) -> Mem<UserDefinedConstraint>
    requires { Is whole_rules text.now USER_DEFINED_CONSTRAINT node.now }
    ensures { IfOk result (λ told. user_defined_of text.now node.now ≡ Some told) }
{
    let definition = read_brace_text(alloc, text, node.the_child(names::BRACE_GROUP))?;
    Ok(UserDefinedConstraint { definition })
}
