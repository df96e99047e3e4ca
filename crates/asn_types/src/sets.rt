//! Sets of values: their elements, joined by operators.
//!
//! `constraints.rt` calls these for what stands in parentheses, and `elements.rt` for what stands behind SIZE and FROM.

ghost use Rattle.asn_rules.specs.Children.{Is};
ghost use Rattle.asn_rules.specs.Whole.{whole_rules};
ghost use Rattle.asn_rules.specs.declared.names.TheConstants.{ELEMENT_SET, SET_OPERATION, SET_REST};
ghost use Rattle.asn_types.specs.Reading.{operation_of, rest_of, set_of};
ghost use Rattle.asn_types.specs.Sets.{an_operation};
ghost use Rattle.std.specs.Prelude.{◌≡◌, IfOk, Some};

use crate::elements::read_subtype;
use asn_memory::Mem;
use asn_read_pieces::{is_extensible, read_operator};
use asn_rules::{Node, names};
use asn_tree::{ElementOrSetOperation, ElementSet, SetOperation, SubtypeElement};
use asn_tree_equality::beside;
use asn_tree_kinds::SetOperator;
use std::alloc::Global;

/// A set of values, extensible where a marker stands behind it (X.680 50.1).
#[cycle(reading)]
#[tactic(auto, using(crate::proofs::EquationsOfConstraints::set_is, crate::proofs::ViewsConstraints::set_has_rest))]
pub(crate) fn read_set(alloc: Global, text: &[u8], node: &Node) -> Mem<ElementSet>
    requires { Is whole_rules text.now ELEMENT_SET node.now }
    ensures { IfOk result (λ set. set_of text.now node.now ≡ Some set) }
{
    let set = read_rest(alloc, text, node.the_child(names::SET_REST))?;
    Ok(ElementSet {
        set,
        extensible: is_extensible(node),
    })
}

/// What is left of a set from an element on: an operation, or that element (X.680 50.1).
#[cycle(reading)]
#[tactic(auto, using(crate::proofs::EquationsOfConstraints::rest_is, crate::proofs::ViewsConstraints::rest_has_element))]
pub(crate) fn read_rest(alloc: Global, text: &[u8], node: &Node) -> Mem<ElementOrSetOperation>
    requires { Is whole_rules text.now SET_REST node.now }
    ensures { IfOk result (λ rest. rest_of text.now node.now ≡ Some rest) }
{
    match node.child(names::SET_OPERATION) {
        Some(operation) => Ok(read_operation(alloc, text, operation)?),
        None => {
            let element = node.the_child(names::SUBTYPE_ELEMENT);
            Ok(ElementOrSetOperation::Element(read_subtype(alloc, text, element)?))
        }
    }
}

/// An element, an operator, and what is left behind it.
fn joined(
    alloc: Global,
    base: SubtypeElement,
    operator: SetOperator,
    rest: ElementOrSetOperation,
) -> Mem<ElementOrSetOperation>
    ensures { IfOk result (λ operation. operation ≡ an_operation base operator rest) }
{
    let operation = SetOperation::from_parts(alloc, base, operator, rest)?;
    Ok(ElementOrSetOperation::SetOperation(operation))
}

/// An element, an operator, and what is left behind it; operators group to the right (X.680 50.1).
#[cycle(reading)]
#[tactic(auto, using(crate::proofs::EquationsOfConstraints::operation_is, crate::proofs::ViewsConstraints::operation_has_base, crate::proofs::ViewsConstraints::operation_has_operator, crate::proofs::ViewsConstraints::operation_has_rest))]
fn read_operation(alloc: Global, text: &[u8], node: &Node) -> Mem<ElementOrSetOperation>
    requires { Is whole_rules text.now SET_OPERATION node.now }
    ensures { IfOk result (λ operation. operation_of text.now node.now ≡ Some operation) }
{
    let operator = read_operator(text, node.the_child(names::SET_OPERATOR));
    let base = read_subtype(alloc, text, node.the_child(names::SUBTYPE_ELEMENT))?;
    let rest = read_rest(alloc, text, node.the_child(names::SET_REST));
    let (rest, base) = beside(rest, base)?;
    Ok(joined(alloc, base, operator, rest)?)
}
