//! Elements that are values or ranges of them (X.680 51.2, 51.4). They lead to no type, so they stand outside the cycle.

ghost use Rattle.asn_rules.specs.Children.{Is, StandsBy};
ghost use Rattle.asn_rules.specs.Whole.{whole_rules};
ghost use Rattle.asn_rules.specs.declared.names.TheConstants.{RANGE_BODY, SINGLE_VALUE, VALUE_RANGE};
ghost use Rattle.asn_types.specs.Sets.{end_of, ends_of, range_of, single_value_of};
ghost use Rattle.std.specs.Prelude.{◌≡◌, IfOk, Some};

use asn_memory::Mem;
use asn_read_pieces::{is_extensible, is_high_open, is_low_open};
use asn_rules::{Node, names};
use asn_tree::{ASN1Value, SubtypeElement};
use asn_values::read_value;
use std::alloc::Global;

/// A single value, extensible where a marker stands behind it (X.680 51.2).
#[tactic(auto, using(crate::proofs::ViewsConstraints::single_value_has_value))]
pub(crate) fn read_single_value(alloc: Global, text: &[u8], node: &Node) -> Mem<SubtypeElement>
    requires { Is whole_rules text.now SINGLE_VALUE node.now }
    ensures { IfOk result (λ element. single_value_of text.now node.now ≡ Some element) }
{
    let value = read_value(alloc, text, node.the_child(names::ASN1_VALUE))?;
    Ok(SubtypeElement::SingleValue {
        value,
        extensible: is_extensible(node),
    })
}

/// An end of a range: a value, or nothing where MIN or MAX stands (X.680 51.4).
fn read_end(alloc: Global, text: &[u8], node: &Node) -> Mem<Option<ASN1Value>>
    requires { StandsBy whole_rules text.now node.now }
    ensures { IfOk result (λ value. end_of text.now node.now ≡ Some value) }
{
    match node.child(names::ASN1_VALUE) {
        Some(value) => Ok(Some(read_value(alloc, text, value)?)),
        None => Ok(None),
    }
}

/// The range between two ends, either of which a mark beside it may leave out (X.680 51.4).
#[tactic(auto, using(crate::proofs::ViewsConstraints::ends_have_low, crate::proofs::ViewsConstraints::ends_have_high))]
fn read_ends(alloc: Global, text: &[u8], node: &Node, extensible: bool) -> Mem<SubtypeElement>
    requires { Is whole_rules text.now RANGE_BODY node.now }
    ensures { IfOk result (λ element. ends_of extensible text.now node.now ≡ Some element) }
{
    let min = read_end(alloc, text, node.the_child(names::RANGE_LOW))?;
    let max = read_end(alloc, text, node.the_child(names::RANGE_HIGH))?;
    Ok(SubtypeElement::ValueRange {
        min,
        max,
        min_open: is_low_open(node),
        max_open: is_high_open(node),
        extensible,
    })
}

/// A range, extensible where a marker stands behind it (X.680 51.4).
#[tactic(auto, using(crate::proofs::ViewsConstraints::range_has_ends))]
pub(crate) fn read_range(alloc: Global, text: &[u8], node: &Node) -> Mem<SubtypeElement>
    requires { Is whole_rules text.now VALUE_RANGE node.now }
    ensures { IfOk result (λ element. range_of text.now node.now ≡ Some element) }
{
    let ends = node.the_child(names::RANGE_BODY);
    Ok(read_ends(alloc, text, ends, is_extensible(node))?)
}
