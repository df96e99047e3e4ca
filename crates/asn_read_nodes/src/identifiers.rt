//! Object identifiers.

ghost use Rattle.asn_read_nodes.specs.Identifiers.{arc_of, arcs_in, arcs_of};
ghost use Rattle.asn_rules.specs.Children.{Is, StandsBy};
ghost use Rattle.asn_rules.specs.Whole.{whole_rules};
ghost use Rattle.asn_rules.specs.declared.names.TheConstants.{OBJECT_IDENTIFIER_ARC, OBJECT_IDENTIFIER_VALUE};
ghost use Rattle.std.specs.Prelude.{◌≡◌, All, IfOk, Some};

use crate::names::{children, read_name};
use crate::numbers::read_u128;
use asn_memory::{List, Mem};
use asn_rules::{Node, names};
use asn_tree_headers::{ObjectIdentifierArc, ObjectIdentifierValue};
use std::alloc::Global;

/// An arc: a name, a number, or both (X.680 32.3).
#[tactic(auto, using(crate::proofs::Views::name_has_blanks))]
fn read_arc(alloc: Global, text: &[u8], node: &Node) -> Mem<ObjectIdentifierArc>
    requires { Is whole_rules text.now OBJECT_IDENTIFIER_ARC node.now }
    ensures { IfOk result (λ arc. arc_of text.now node.now ≡ Some arc) }
{
    let name = match node.child(names::VALUE_IDENTIFIER) {
        Some(name) => Some(read_name(alloc, text, name)?),
        None => None,
    };
    let number = match node.child(names::NUMBER_U128) {
        Some(number) => Some(read_u128(text, number)),
        None => None,
    };
    Ok(ObjectIdentifierArc { name, number })
}

/// The arcs among the nodes.
#[tactic(auto, using(crate::proofs::Views::as_rule, crate::proofs::Equations::takes_next, crate::proofs::Equations::passes_next))]
fn read_arcs(alloc: Global, text: &[u8], nodes: &[Node]) -> Mem<List<ObjectIdentifierArc>>
    requires { All (StandsBy whole_rules text.now) nodes.now }
    ensures { IfOk result (λ arcs. arcs_in text.now nodes.now ≡ Some arcs) }
{
    let mut arcs = List::new(alloc);
    for node in nodes {
        if node.rule == names::OBJECT_IDENTIFIER_ARC {
            arcs.add(read_arc(alloc, text, node)?)?;
        }
    }
    Ok(arcs)
}

/// The object identifier that a node is: its arcs in order (X.680 32.3).
pub fn read_object_identifier(alloc: Global, text: &[u8], node: &Node) -> Mem<ObjectIdentifierValue>
    requires { Is whole_rules text.now OBJECT_IDENTIFIER_VALUE node.now }
    ensures { IfOk result (λ value. arcs_of text.now node.now ≡ Some value.0) }
{
    Ok(ObjectIdentifierValue(read_arcs(alloc, text, children(text, node))?))
}
