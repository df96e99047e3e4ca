//! Truth values.

ghost use Rattle.asn_read_nodes.specs.Parts.{truth_of};
ghost use Rattle.asn_rules.specs.Children.{Is};
ghost use Rattle.asn_rules.specs.Whole.{whole_rules};
ghost use Rattle.asn_rules.specs.declared.names.TheConstants.{BOOLEAN_VALUE};
ghost use Rattle.std.specs.Prelude.{◌≡◌, Some};

use asn_rules::{Node, names};

/// The truth value that TRUE or FALSE is (X.680 18.3).
#[tactic(auto, using(crate::proofs::Views::truth_is_one))]
pub fn read_truth(text: &[u8], node: &Node) -> bool
    requires { Is whole_rules text.now BOOLEAN_VALUE node.now }
    ensures { truth_of node.now ≡ Some result }
{
    match node.child(names::MARK_TRUE) {
        Some(_) => true,
        None => match node.child(names::MARK_FALSE) {
            Some(_) => false,
            None => unreachable!(),
        },
    }
}
