//! Names, and the children of a node.

ghost use Rattle.asn_read_nodes.specs.Parts.{name_of};
ghost use Rattle.asn_rules.specs.Children.{StandsBy};
ghost use Rattle.asn_rules.specs.Nodes.{child_of};
ghost use Rattle.asn_rules.specs.Whole.{whole_rules};
ghost use Rattle.asn_rules.specs.declared.names.TheConstants.{SP};
ghost use Rattle.asn_rules.specs.declared.node.Node.TheViews.{out-Node};
ghost use Rattle.asn_read_nodes.specs.Parts.{behind_blanks};
ghost use Rattle.std.specs.Prelude.{◌≡◌, All, IfOk, IsSome, Some};

use asn_memory::{Mem, Text};
use asn_rules::{Node, names};
use std::alloc::Global;

/// The children of a node that stands, each of which stands.
pub fn children<'n>(text: &[u8], node: &'n Node) -> &'n [Node]
    requires { StandsBy whole_rules text.now node.now }
    ensures value { result.now ≡ (out-Node node.now).children }
    ensures stand { All (StandsBy whole_rules text.now) result.now }
{
    node.children.as_slice()
}

/// The bytes behind the blanks and comments with which a node begins.
#[tactic(auto, using(crate::proofs::Views::blanks_inside))]
pub(crate) fn bytes_behind_blanks<'t>(text: &'t [u8], node: &Node) -> &'t [u8]
    requires stands { StandsBy whole_rules text.now node.now }
    requires has_blanks { IsSome (child_of node.now SP) }
    ensures { behind_blanks text.now node.now ≡ Some result.now }
{
    let blanks = node.the_child(names::SP);
    &text[blanks.end..node.end]
}

/// The name that stands behind the blanks (X.680 12.2, 12.3).
pub fn read_name(alloc: Global, text: &[u8], node: &Node) -> Mem<Text>
    requires stands { StandsBy whole_rules text.now node.now }
    requires has_blanks { IsSome (child_of node.now SP) }
    ensures { IfOk result (λ name. name_of text.now node.now ≡ Some name) }
{
    Text::from_bytes(alloc, bytes_behind_blanks(text, node))
}
