//! Constraints, and what stands in their parentheses.
//!
//! The readers of types call [`read_constraints`] for what stands behind a type. Sets of values are read by `sets.rt`, the
//! arguments of templates by `arguments.rt`.

ghost use Rattle.asn_read_nodes.specs.Parts.{all_some};
ghost use Rattle.asn_rules.specs.Children.{Is, StandsBy};
ghost use Rattle.asn_rules.specs.Nodes.{at_children, child_of};
ghost use Rattle.asn_rules.specs.Whole.{whole_rules};
ghost use Rattle.asn_rules.specs.declared.names.TheConstants.{ASN1_VALUE, CONSTRAINT, CONSTRAINT_ITEM, CONTENT_BODY, CONTENT_CONSTRAINT, RELATIONS, SINGLE_CONSTRAINT, TABLE_CONSTRAINT};
ghost use Rattle.asn_types.specs.Constraints.{an_element, containing_with, members_in};
ghost use Rattle.asn_types.specs.Reading.{constraint_of, constraints_of, content_of, single_of, table_of};
ghost use Rattle.std.specs.Prelude.{◌≡◌, All, IfOk, Some};

use crate::arguments::read_parameters;
use crate::elements::read_element_form;
use crate::objects::read_object_set;
use crate::sets::read_set;
use crate::types::read_type;
use asn_memory::{List, Mem};
use asn_read_nodes::children;
use asn_read_pieces::read_relations;
use asn_rules::{Node, names};
use asn_tree::{
    ASN1Type, Constraint, ContentConstraint, ElementOrSetOperation, ElementSet, SubtypeElement,
    TableConstraint,
};
use asn_tree_kinds::RelationalConstraint;
use asn_values::read_value;
use std::alloc::Global;

/// The constraints behind a type, in order (X.680 49.6).
#[cycle(reading)]
#[tactic(auto, using(crate::proofs::EquationsOfConstraints::constraints_is))]
pub(crate) fn read_constraints(alloc: Global, text: &[u8], node: &Node) -> Mem<List<Constraint>>
    requires { Is whole_rules text.now CONSTRAINT node.now }
    ensures { IfOk result (λ constraints. constraints_of text.now node.now ≡ Some constraints) }
{
    read_each(alloc, text, children(text, node))
}

#[cycle(reading)]
#[tactic(auto, using(asn_read_nodes::proofs::Views::as_rule, asn_read_nodes::proofs::Equations::takes_next, asn_read_nodes::proofs::Equations::passes_next))]
fn read_each(alloc: Global, text: &[u8], nodes: &[Node]) -> Mem<List<Constraint>>
    requires { All (StandsBy whole_rules text.now) nodes.now }
    ensures { IfOk result (λ constraints. all_some (at_children nodes.now CONSTRAINT_ITEM (constraint_of text.now)) ≡ Some constraints) }
{
    let mut constraints = List::new(alloc);
    for node in nodes {
        if node.rule == names::CONSTRAINT_ITEM {
            constraints.add(read_constraint(alloc, text, node)?)?;
        }
    }
    Ok(constraints)
}

/// A set of one element, with no extension marker behind it.
fn set_of_one(element: SubtypeElement) -> Constraint
    ensures { result ≡ an_element element }
{
    Constraint::SubtypeConstraint(ElementSet {
        set: ElementOrSetOperation::Element(element),
        extensible: false,
    })
}

/// A constraint: in parentheses, a SIZE without these, or the arguments of the template before it (X.680 49.6, X.683 9.1).
#[cycle(reading)]
#[tactic(auto, using(crate::proofs::EquationsOfConstraints::constraint_is, crate::proofs::ViewsConstraints::item_has_arguments, crate::proofs::ViewsConstraints::size_is_element))]
fn read_constraint(alloc: Global, text: &[u8], node: &Node) -> Mem<Constraint>
    requires { Is whole_rules text.now CONSTRAINT_ITEM node.now }
    ensures { IfOk result (λ constraint. constraint_of text.now node.now ≡ Some constraint) }
{
    if let Some(single) = node.child(names::SINGLE_CONSTRAINT) {
        return Ok(read_single(alloc, text, single)?);
    }
    match node.child(names::SIZE_CONSTRAINT) {
        Some(size) => Ok(set_of_one(read_element_form(alloc, text, size)?)),
        None => {
            let arguments = node.the_child(names::PARAMETERS);
            Ok(Constraint::Parameter(read_parameters(alloc, text, arguments)?))
        }
    }
}

/// A constraint in parentheses: what a string holds, a table, or a set of values (X.680 49.6).
#[cycle(reading)]
#[tactic(auto, using(crate::proofs::EquationsOfConstraints::single_is, crate::proofs::ViewsConstraints::single_has_set))]
pub(crate) fn read_single(alloc: Global, text: &[u8], node: &Node) -> Mem<Constraint>
    requires { Is whole_rules text.now SINGLE_CONSTRAINT node.now }
    ensures { IfOk result (λ constraint. single_of text.now node.now ≡ Some constraint) }
{
    if let Some(content) = node.child(names::CONTENT_CONSTRAINT) {
        return Ok(Constraint::ContentConstraint(read_content(alloc, text, content)?));
    }
    match node.child(names::TABLE_CONSTRAINT) {
        Some(table) => Ok(read_table(alloc, text, table)?),
        None => {
            let set = node.the_child(names::ELEMENT_SET);
            Ok(Constraint::SubtypeConstraint(read_set(alloc, text, set)?))
        }
    }
}

/// What a string holds, or how it is encoded, perhaps in parentheses (X.682 11.1).
#[cycle(reading)]
#[tactic(auto, using(crate::proofs::EquationsOfConstraints::content_is, crate::proofs::ViewsConstraints::content_has_body))]
fn read_content(alloc: Global, text: &[u8], node: &Node) -> Mem<ContentConstraint>
    requires { Is whole_rules text.now CONTENT_CONSTRAINT node.now }
    ensures { IfOk result (λ content. content_of text.now node.now ≡ Some content) }
{
    Ok(read_content_body(alloc, text, node.the_child(names::CONTENT_BODY))?)
}

/// Encodings of a value of this type, by the rules that the value names, where it stands.
fn read_containing(
    alloc: Global,
    text: &[u8],
    node: &Node,
    containing: ASN1Type,
) -> Mem<ContentConstraint>
    requires { StandsBy whole_rules text.now node.now }
    ensures { IfOk result (λ content. containing_with text.now (child_of node.now ASN1_VALUE) (Some containing) ≡ Some content) }
{
    match node.child(names::ASN1_VALUE) {
        Some(rules) => {
            let encoded_by = read_value(alloc, text, rules)?;
            Ok(ContentConstraint::ContainingEncodedBy {
                containing,
                encoded_by,
            })
        }
        None => Ok(ContentConstraint::Containing(containing)),
    }
}

/// What a string holds, or how it is encoded (X.682 11.1).
#[cycle(reading)]
#[tactic(auto, using(crate::proofs::EquationsOfConstraints::body_is, crate::proofs::ViewsConstraints::body_has_rules))]
fn read_content_body(alloc: Global, text: &[u8], node: &Node) -> Mem<ContentConstraint>
    requires { Is whole_rules text.now CONTENT_BODY node.now }
    ensures { IfOk result (λ content. content_of text.now node.now ≡ Some content) }
{
    match node.child(names::ASN1_TYPE) {
        Some(ty) => {
            let containing = read_type(alloc, text, ty)?;
            Ok(read_containing(alloc, text, node, containing)?)
        }
        None => {
            let rules = read_value(alloc, text, node.the_child(names::ASN1_VALUE))?;
            Ok(ContentConstraint::EncodedBy(rules))
        }
    }
}

/// The members that choose a row of a table; none where none stand (X.682 10.7).
fn read_members(alloc: Global, text: &[u8], node: &Node) -> Mem<List<RelationalConstraint>>
    requires { StandsBy whole_rules text.now node.now }
    ensures { IfOk result (λ members. members_in text.now (child_of node.now RELATIONS) ≡ Some members) }
{
    match node.child(names::RELATIONS) {
        Some(members) => Ok(read_relations(alloc, text, members)?),
        None => Ok(List::new(alloc)),
    }
}

/// An object set as a table, with the members that choose its row (X.682 10.3, 10.7).
#[cycle(reading)]
#[tactic(auto, using(crate::proofs::EquationsOfConstraints::table_is, crate::proofs::ViewsConstraints::table_has_set))]
fn read_table(alloc: Global, text: &[u8], node: &Node) -> Mem<Constraint>
    requires { Is whole_rules text.now TABLE_CONSTRAINT node.now }
    ensures { IfOk result (λ constraint. table_of text.now node.now ≡ Some constraint) }
{
    let object_set = read_object_set(alloc, text, node.the_child(names::OBJECT_SET))?;
    let linked_fields = read_members(alloc, text, node)?;
    Ok(Constraint::TableConstraint(TableConstraint {
        object_set,
        linked_fields,
    }))
}
