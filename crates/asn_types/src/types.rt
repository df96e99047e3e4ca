//! Types, selections, lists, and SEQUENCE and SET.
//!
//! Forms that hold nothing of types but constraints are made by `constrained.rt`, outside the cycle.

ghost use Rattle.asn_rules.specs.Children.{Is, StandsBy};
ghost use Rattle.asn_rules.specs.Whole.{whole_rules};
ghost use Rattle.asn_rules.specs.declared.names.TheConstants.{ASN1_TYPE, ELEMENT, SELECTION_TYPE_CHOICE, SEQUENCE, SEQUENCE_OF, SET, SET_OF};
ghost use Rattle.asn_types.specs.Forms.{constraints_behind, selection_type_of, sequence_of_type_of, sequence_type_of, set_of_type_of, set_type_of};
ghost use Rattle.asn_types.specs.Reading.{element_of, form_of, type_of};
ghost use Rattle.asn_types.specs.Types.{IsConstrained, IsType, constrained_body, constrained_form};
ghost use Rattle.std.specs.Prelude.{◌≡◌, IfOk, Some};

use crate::choices::read_choice;
use crate::constrained::with_constraints;
use crate::constraints::read_constraints;
use crate::enumerations::read_enumerated;
use crate::members::read_body;
use asn_memory::{List, Mem};
use asn_read_pieces::read_selection;
use asn_rules::{Node, names};
use asn_tree::{ASN1Type, Constraint, SequenceOrSet, SequenceOrSetOf};
use std::alloc::Global;

/// The type that a node is (X.680 17.1).
#[cycle(reading)]
#[tactic(auto, using(crate::proofs::Equations::type_is, crate::proofs::ViewsTypes::type_has_first, crate::proofs::ViewsTypes::first_is_type))]
pub fn read_type(alloc: Global, text: &[u8], node: &Node) -> Mem<ASN1Type>
    requires { Is whole_rules text.now ASN1_TYPE node.now }
    ensures { IfOk result (λ ty. type_of text.now node.now ≡ Some ty) }
{
    read_form(alloc, text, node.first_child())
}

/// The type that a node of one of the forms of types is.
#[cycle(reading)]
#[tactic(auto, using(crate::proofs::Equations::form_is, crate::proofs::LeftOver::left_over, crate::proofs::LeftOver::left_over_is, asn_read_nodes::proofs::Views::as_rule))]
fn read_form(alloc: Global, text: &[u8], node: &Node) -> Mem<ASN1Type>
    requires { IsType text.now node.now }
    ensures { IfOk result (λ ty. form_of text.now node.now ≡ Some ty) }
{
    match node.rule {
        names::NULL => Ok(ASN1Type::Null),
        names::SELECTION_TYPE_CHOICE => read_selection_type(alloc, text, node),
        names::SEQUENCE_OF => read_sequence_of(alloc, text, node),
        names::SEQUENCE => read_sequence(alloc, text, node),
        names::SET_OF => read_set_of(alloc, text, node),
        names::SET => read_set_type(alloc, text, node),
        names::EXTERNAL => Ok(ASN1Type::External),
        names::EMBEDDED_PDV => Ok(ASN1Type::EmbeddedPdv),
        names::CHOICE => read_choice(alloc, text, node),
        names::ENUMERATED => read_enumerated(alloc, text, node),
        _ => read_constrained(alloc, text, node),
    }
}

/// The type that a node of a form is that holds nothing of types but constraints.
#[cycle(reading)]
fn read_constrained(alloc: Global, text: &[u8], node: &Node) -> Mem<ASN1Type>
    requires { IsConstrained text.now node.now }
    ensures { IfOk result (λ ty. constrained_form text.now node.now (constraints_behind text.now node.now) ≡ Some ty) }
{
    let constraints = read_behind(alloc, text, node)?;
    Ok(with_constraints(alloc, text, node, constraints)?)
}

/// The constraints behind a type, or behind the type of a member or option; none where none stand (X.680 49.6).
#[cycle(reading)]
pub(crate) fn read_behind(alloc: Global, text: &[u8], node: &Node) -> Mem<List<Constraint>>
    requires { StandsBy whole_rules text.now node.now }
    ensures { IfOk result (λ constraints. constraints_behind text.now node.now ≡ Some constraints) }
{
    match node.child(names::CONSTRAINT) {
        Some(constraints) => Ok(read_constraints(alloc, text, constraints)?),
        None => Ok(List::new(alloc)),
    }
}

/// A selection type: an option of a CHOICE (X.680 30.1).
pub(crate) fn read_selection_type(alloc: Global, text: &[u8], node: &Node) -> Mem<ASN1Type>
    requires { Is whole_rules text.now SELECTION_TYPE_CHOICE node.now }
    ensures { IfOk result (λ ty. selection_type_of text.now node.now ≡ Some ty) }
{
    Ok(ASN1Type::ChoiceSelectionType(read_selection(alloc, text, node)?))
}

/// The element of a list: its type; a name before it leaves no trace (X.680 26.1).
#[cycle(reading)]
#[tactic(auto, using(crate::proofs::Equations::element_is, crate::proofs::ViewsTypes::element_has_type))]
fn read_element(alloc: Global, text: &[u8], node: &Node) -> Mem<ASN1Type>
    requires { Is whole_rules text.now ELEMENT node.now }
    ensures { IfOk result (λ ty. element_of text.now node.now ≡ Some ty) }
{
    read_type(alloc, text, node.the_child(names::ASN1_TYPE))
}

/// SEQUENCE OF with its constraints and its element (X.680 26.1).
#[cycle(reading)]
#[tactic(auto, using(crate::proofs::ViewsTypes::sequence_of_has_element))]
pub(crate) fn read_sequence_of(alloc: Global, text: &[u8], node: &Node) -> Mem<ASN1Type>
    requires { Is whole_rules text.now SEQUENCE_OF node.now }
    ensures { IfOk result (λ ty. sequence_of_type_of text.now node.now ≡ Some ty) }
{
    let element = read_element(alloc, text, node.the_child(names::ELEMENT))?;
    let constraints = read_behind(alloc, text, node)?;
    let list = SequenceOrSetOf::from_parts(alloc, Some(constraints), element)?;
    Ok(ASN1Type::SequenceOf(list))
}

/// SET OF with its constraints and its element (X.680 28.1).
#[cycle(reading)]
#[tactic(auto, using(crate::proofs::ViewsTypes::set_of_has_element))]
pub(crate) fn read_set_of(alloc: Global, text: &[u8], node: &Node) -> Mem<ASN1Type>
    requires { Is whole_rules text.now SET_OF node.now }
    ensures { IfOk result (λ ty. set_of_type_of text.now node.now ≡ Some ty) }
{
    let element = read_element(alloc, text, node.the_child(names::ELEMENT))?;
    let constraints = read_behind(alloc, text, node)?;
    let list = SequenceOrSetOf::from_parts(alloc, Some(constraints), element)?;
    Ok(ASN1Type::SetOf(list))
}

/// What stands between the braces, with the constraints behind them.
fn constrained(body: SequenceOrSet, constraints: List<Constraint>) -> SequenceOrSet
    ensures { result ≡ constrained_body body constraints }
{
    let mut body = body;
    body.constraints = constraints;
    body
}

/// SEQUENCE with its members and constraints (X.680 25.1).
#[cycle(reading)]
#[tactic(auto, using(crate::proofs::ViewsTypes::sequence_has_body))]
pub(crate) fn read_sequence(alloc: Global, text: &[u8], node: &Node) -> Mem<ASN1Type>
    requires { Is whole_rules text.now SEQUENCE node.now }
    ensures { IfOk result (λ ty. sequence_type_of text.now node.now ≡ Some ty) }
{
    let body = read_body(alloc, text, node.the_child(names::STRUCT_BODY))?;
    let constraints = read_behind(alloc, text, node)?;
    Ok(ASN1Type::Sequence(constrained(body, constraints)))
}

/// SET with its members and constraints (X.680 27.1).
#[cycle(reading)]
#[tactic(auto, using(crate::proofs::ViewsTypes::set_has_body))]
pub(crate) fn read_set_type(alloc: Global, text: &[u8], node: &Node) -> Mem<ASN1Type>
    requires { Is whole_rules text.now SET node.now }
    ensures { IfOk result (λ ty. set_type_of text.now node.now ≡ Some ty) }
{
    let body = read_body(alloc, text, node.the_child(names::STRUCT_BODY))?;
    let constraints = read_behind(alloc, text, node)?;
    Ok(ASN1Type::Set(constrained(body, constraints)))
}
