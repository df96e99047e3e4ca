//! Named numbers and named bits.

ghost use Rattle.asn_read_pieces.specs.Numbers.{distinguished_in, distinguished_of, distinguished_values_of};
ghost use Rattle.asn_rules.specs.Children.{Is, StandsBy};
ghost use Rattle.asn_rules.specs.Whole.{whole_rules};
ghost use Rattle.asn_rules.specs.declared.names.TheConstants.{DISTINGUISHED_VAL, DISTINGUISHED_VALUES};
ghost use Rattle.std.specs.Prelude.{◌≡◌, All, IfOk, Some};

use asn_memory::{List, Mem};
use asn_read_nodes::{children, read_i128, read_name};
use asn_rules::{Node, names};
use asn_tree_kinds::DistinguishedValue;
use std::alloc::Global;

/// A name with its number (X.680 19.1, 22.1).
#[tactic(auto, using(crate::proofs::Views::distinguished_has_name, crate::proofs::Views::distinguished_has_number, asn_read_nodes::proofs::Views::identifier_has_blanks))]
pub fn read_distinguished(alloc: Global, text: &[u8], node: &Node) -> Mem<DistinguishedValue>
    requires { Is whole_rules text.now DISTINGUISHED_VAL node.now }
    ensures { IfOk result (λ value. distinguished_of text.now node.now ≡ Some value) }
{
    let name = read_name(alloc, text, node.the_child(names::IDENTIFIER))?;
    let value = read_i128(text, node.the_child(names::NUMBER_I128));
    Ok(DistinguishedValue { name, value })
}

/// The names with their numbers among the nodes.
#[tactic(auto, using(asn_read_nodes::proofs::Views::as_rule, asn_read_nodes::proofs::Equations::takes_next, asn_read_nodes::proofs::Equations::passes_next))]
fn read_each(alloc: Global, text: &[u8], nodes: &[Node]) -> Mem<List<DistinguishedValue>>
    requires { All (StandsBy whole_rules text.now) nodes.now }
    ensures { IfOk result (λ values. distinguished_in text.now nodes.now ≡ Some values) }
{
    let mut values = List::new(alloc);
    for node in nodes {
        if node.rule == names::DISTINGUISHED_VAL {
            values.add(read_distinguished(alloc, text, node)?)?;
        }
    }
    Ok(values)
}

/// The names with their numbers that stand in braces, in order (X.680 19.1, 22.1).
pub fn read_distinguished_values(
    alloc: Global,
    text: &[u8],
    node: &Node,
) -> Mem<List<DistinguishedValue>>
    requires { Is whole_rules text.now DISTINGUISHED_VALUES node.now }
    ensures { IfOk result (λ values. distinguished_values_of text.now node.now ≡ Some values) }
{
    Ok(read_each(alloc, text, children(text, node))?)
}
