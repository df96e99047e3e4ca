//! Elements of sets of values (X.680 clause 51).
//!
//! `sets.rt` calls [`read_subtype`]; `constraints.rt` calls [`read_element_form`] for a SIZE without parentheses around it.

ghost use Rattle.asn_read_nodes.specs.Parts.{all_some};
ghost use Rattle.asn_rules.specs.Children.{Is, StandsBy};
ghost use Rattle.asn_rules.specs.Nodes.{at_children};
ghost use Rattle.asn_rules.specs.Whole.{whole_rules};
ghost use Rattle.asn_rules.specs.declared.names.TheConstants.{CONTAINED_SUBTYPE, MEMBER_LIST, MULTIPLE_TYPE_CONSTRAINTS, PATTERN_CONSTRAINT, PERMITTED_ALPHABET_CONSTRAINT, PROPERTY_SETTINGS_CONSTRAINT, SINGLE_TYPE_CONSTRAINT, SIZE_CONSTRAINT, SUBSET_MEMBER, SUBTYPE_ELEMENT, USER_DEFINED_CONSTRAINT};
ghost use Rattle.asn_types.specs.Elements.{alphabet_of, contained_of, multiple_types_of, single_type_of, size_of};
ghost use Rattle.asn_types.specs.Reading.{element_form_of, listed_of, listed_one_of, subtype_of};
ghost use Rattle.asn_types.specs.Sets.{IsElement, a_pattern_of, a_setting_of, told_of};
ghost use Rattle.std.specs.Prelude.{◌≡◌, All, IfOk, Some};

use crate::constraints::read_constraints;
use crate::ranges::{read_range, read_single_value};
use crate::sets::{read_rest, read_set};
use crate::types::{read_behind, read_type};
use asn_memory::{Box, List, Mem};
use asn_read_nodes::{children, read_name};
use asn_read_pieces::{
    is_extensible, is_partial, read_pattern, read_presence, read_settings, read_user_defined,
};
use asn_rules::{Node, names};
use asn_tree::{ConstrainedComponent, InnerTypeConstraint, SubtypeElement};
use std::alloc::Global;

/// The element that stands under a node (X.680 51.1).
#[cycle(reading)]
#[tactic(auto, using(crate::proofs::EquationsOfConstraints::subtype_is, crate::proofs::ViewsConstraints::subtype_has_first, crate::proofs::ViewsConstraints::first_is_element))]
pub(crate) fn read_subtype(alloc: Global, text: &[u8], node: &Node) -> Mem<SubtypeElement>
    requires { Is whole_rules text.now SUBTYPE_ELEMENT node.now }
    ensures { IfOk result (λ element. subtype_of text.now node.now ≡ Some element) }
{
    read_element_form(alloc, text, node.first_child())
}

/// The element that a node of one of the forms of elements is (X.680 51.1).
#[cycle(reading)]
#[tactic(auto, using(crate::proofs::EquationsOfConstraints::element_form_is, asn_read_nodes::proofs::Views::as_rule))]
pub(crate) fn read_element_form(alloc: Global, text: &[u8], node: &Node) -> Mem<SubtypeElement>
    requires { IsElement text.now node.now }
    ensures { IfOk result (λ element. element_form_of text.now node.now ≡ Some element) }
{
    match node.rule {
        names::SINGLE_TYPE_CONSTRAINT => read_single_type(alloc, text, node),
        names::MULTIPLE_TYPE_CONSTRAINTS => read_multiple_types(alloc, text, node),
        names::SIZE_CONSTRAINT => read_size(alloc, text, node),
        names::PATTERN_CONSTRAINT => read_a_pattern(alloc, text, node),
        names::USER_DEFINED_CONSTRAINT => read_told(alloc, text, node),
        names::PROPERTY_SETTINGS_CONSTRAINT => read_a_setting(alloc, text, node),
        names::PERMITTED_ALPHABET_CONSTRAINT => read_alphabet(alloc, text, node),
        names::VALUE_RANGE => read_range(alloc, text, node),
        names::SINGLE_VALUE => read_single_value(alloc, text, node),
        names::CONTAINED_SUBTYPE => read_contained(alloc, text, node),
        _ => unreachable!(),
    }
}

/// A pattern (X.680 51.9).
fn read_a_pattern(alloc: Global, text: &[u8], node: &Node) -> Mem<SubtypeElement>
    requires { Is whole_rules text.now PATTERN_CONSTRAINT node.now }
    ensures { IfOk result (λ element. a_pattern_of text.now node.now ≡ Some element) }
{
    Ok(SubtypeElement::PatternConstraint(read_pattern(alloc, text, node)?))
}

/// What the notation does not tell (X.682 9.1).
fn read_told(alloc: Global, text: &[u8], node: &Node) -> Mem<SubtypeElement>
    requires { Is whole_rules text.now USER_DEFINED_CONSTRAINT node.now }
    ensures { IfOk result (λ element. told_of text.now node.now ≡ Some element) }
{
    Ok(SubtypeElement::UserDefinedConstraint(read_user_defined(alloc, text, node)?))
}

/// Settings of a time type (X.680 51.10).
fn read_a_setting(alloc: Global, text: &[u8], node: &Node) -> Mem<SubtypeElement>
    requires { Is whole_rules text.now PROPERTY_SETTINGS_CONSTRAINT node.now }
    ensures { IfOk result (λ element. a_setting_of text.now node.now ≡ Some element) }
{
    Ok(SubtypeElement::PropertySettings(read_settings(alloc, text, node)?))
}

/// The elements of a list, by the constraints on each (X.680 51.8.5).
#[cycle(reading)]
#[tactic(auto, using(crate::proofs::ViewsConstraints::single_type_has_constraints))]
fn read_single_type(alloc: Global, text: &[u8], node: &Node) -> Mem<SubtypeElement>
    requires { Is whole_rules text.now SINGLE_TYPE_CONSTRAINT node.now }
    ensures { IfOk result (λ element. single_type_of text.now node.now ≡ Some element) }
{
    let constraints = read_constraints(alloc, text, node.the_child(names::CONSTRAINT))?;
    Ok(SubtypeElement::SingleTypeConstraint(constraints))
}

/// The components, in part or in full (X.680 51.8.6).
#[cycle(reading)]
#[tactic(auto, using(crate::proofs::ViewsConstraints::multiple_types_have_list))]
fn read_multiple_types(alloc: Global, text: &[u8], node: &Node) -> Mem<SubtypeElement>
    requires { Is whole_rules text.now MULTIPLE_TYPE_CONSTRAINTS node.now }
    ensures { IfOk result (λ element. multiple_types_of text.now node.now ≡ Some element) }
{
    let constraints = read_listed(alloc, text, node.the_child(names::MEMBER_LIST))?;
    Ok(SubtypeElement::MultipleTypeConstraints(InnerTypeConstraint {
        is_partial: is_partial(node),
        constraints,
    }))
}

/// The listed components, in order (X.680 51.8.7).
#[cycle(reading)]
#[tactic(auto, using(crate::proofs::EquationsOfConstraints::listed_is))]
fn read_listed(alloc: Global, text: &[u8], node: &Node) -> Mem<List<ConstrainedComponent>>
    requires { Is whole_rules text.now MEMBER_LIST node.now }
    ensures { IfOk result (λ listed. listed_of text.now node.now ≡ Some listed) }
{
    read_each(alloc, text, children(text, node))
}

#[cycle(reading)]
#[tactic(auto, using(asn_read_nodes::proofs::Views::as_rule, asn_read_nodes::proofs::Equations::takes_next, asn_read_nodes::proofs::Equations::passes_next))]
fn read_each(alloc: Global, text: &[u8], nodes: &[Node]) -> Mem<List<ConstrainedComponent>>
    requires { All (StandsBy whole_rules text.now) nodes.now }
    ensures { IfOk result (λ listed. all_some (at_children nodes.now SUBSET_MEMBER (listed_one_of text.now)) ≡ Some listed) }
{
    let mut listed = List::new(alloc);
    for node in nodes {
        if node.rule == names::SUBSET_MEMBER {
            listed.add(read_listed_one(alloc, text, node)?)?;
        }
    }
    Ok(listed)
}

/// A listed component: its name, the constraints on its value, and what is asked of its presence (X.680 51.8.7).
#[cycle(reading)]
#[tactic(auto, using(crate::proofs::EquationsOfConstraints::listed_one_is, crate::proofs::ViewsConstraints::listed_one_has_name, asn_read_nodes::proofs::Views::identifier_has_blanks))]
fn read_listed_one(alloc: Global, text: &[u8], node: &Node) -> Mem<ConstrainedComponent>
    requires { Is whole_rules text.now SUBSET_MEMBER node.now }
    ensures { IfOk result (λ listed. listed_one_of text.now node.now ≡ Some listed) }
{
    let identifier = read_name(alloc, text, node.the_child(names::IDENTIFIER))?;
    let constraints = read_behind(alloc, text, node)?;
    Ok(ConstrainedComponent {
        identifier,
        constraints,
        presence: read_presence(node),
    })
}

/// The length (X.680 51.5). A marker behind the set has no place in the tree.
#[cycle(reading)]
#[tactic(auto, using(crate::proofs::ViewsConstraints::size_has_set))]
fn read_size(alloc: Global, text: &[u8], node: &Node) -> Mem<SubtypeElement>
    requires { Is whole_rules text.now SIZE_CONSTRAINT node.now }
    ensures { IfOk result (λ element. size_of text.now node.now ≡ Some element) }
{
    let lengths = read_set(alloc, text, node.the_child(names::ELEMENT_SET))?;
    Ok(SubtypeElement::SizeConstraint(Box::new(alloc, lengths.into_set())?))
}

/// The characters of a string (X.680 51.7).
#[cycle(reading)]
#[tactic(auto, using(crate::proofs::ViewsConstraints::alphabet_has_rest))]
fn read_alphabet(alloc: Global, text: &[u8], node: &Node) -> Mem<SubtypeElement>
    requires { Is whole_rules text.now PERMITTED_ALPHABET_CONSTRAINT node.now }
    ensures { IfOk result (λ element. alphabet_of text.now node.now ≡ Some element) }
{
    let characters = read_rest(alloc, text, node.the_child(names::SET_REST))?;
    Ok(SubtypeElement::PermittedAlphabet(Box::new(alloc, characters)?))
}

/// The values of another type, extensible where a marker stands behind it (X.680 51.3).
#[cycle(reading)]
#[tactic(auto, using(crate::proofs::ViewsConstraints::contained_has_type))]
fn read_contained(alloc: Global, text: &[u8], node: &Node) -> Mem<SubtypeElement>
    requires { Is whole_rules text.now CONTAINED_SUBTYPE node.now }
    ensures { IfOk result (λ element. contained_of text.now node.now ≡ Some element) }
{
    let subtype = read_type(alloc, text, node.the_child(names::ASN1_TYPE))?;
    Ok(SubtypeElement::ContainedSubtype {
        subtype,
        extensible: is_extensible(node),
    })
}
