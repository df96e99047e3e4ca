//! Definitions of values.

ghost use Rattle.asn_modules.specs.Values.{a_value_definition, an_item, enumerated_value_of, plain_value_of, value_definition_of};
ghost use Rattle.asn_rules.specs.Children.{Is};
ghost use Rattle.asn_rules.specs.Nodes.{child_of, nth_child_of, the};
ghost use Rattle.asn_rules.specs.Whole.{whole_rules};
ghost use Rattle.asn_rules.specs.declared.names.TheConstants.{ENUMERATED_VALUE, TOP_LEVEL_VALUE_DECLARATION, VALUE_IDENTIFIER};
ghost use Rattle.std.specs.Prelude.{◌≡◌, IfOk, None, Some};

use crate::headings::read_heading;
use asn_calls::ASN1TypeCalls;
use asn_memory::{Mem, Text};
use asn_read_nodes::read_name;
use asn_rules::{Node, names};
use asn_tree::{ASN1Type, ASN1Value, Parameterization, ToplevelValueDefinition};
use asn_types::read_type;
use asn_values::read_value;
use std::alloc::Global;

/// The definition of these parts.
fn value_definition(
    heading: (Text, Text, Option<Parameterization>),
    associated_type: ASN1Type,
    value: ASN1Value,
) -> ToplevelValueDefinition
    ensures { result ≡ a_value_definition heading associated_type value }
{
    let (comments, name, parameterization) = heading;
    ToplevelValueDefinition {
        comments,
        name,
        associated_type,
        parameterization,
        value,
        index: None,
    }
}

/// The item that the second name is, under what the type is called.
#[tactic(auto, using(crate::proofs::Views::enumerated_has_item, asn_read_nodes::proofs::Views::name_has_blanks))]
fn read_item(alloc: Global, text: &[u8], node: &Node, ty: &ASN1Type) -> Mem<ASN1Value>
    requires { Is whole_rules text.now ENUMERATED_VALUE node.now }
    ensures { IfOk result (λ value. the (nth_child_of node.now VALUE_IDENTIFIER 1) (an_item text.now ty.now) ≡ Some value) }
{
    let enumerated = ty.as_str(alloc)?;
    let item = node.the_nth_child(names::VALUE_IDENTIFIER, 1);
    Ok(ASN1Value::EnumeratedValue {
        enumerated,
        enumerable: read_name(alloc, text, item)?,
    })
}

/// A value definition whose value is the name of an item: comments, a name, parameters, a type and the item (X.680 20.8).
#[tactic(auto, using(crate::proofs::Views::enumerated_has_comments, crate::proofs::Views::enumerated_has_name, crate::proofs::Views::enumerated_has_type, asn_read_nodes::proofs::Views::name_has_blanks))]
pub(crate) fn read_enumerated_value(
    alloc: Global,
    text: &[u8],
    node: &Node,
) -> Mem<ToplevelValueDefinition>
    requires { Is whole_rules text.now ENUMERATED_VALUE node.now }
    ensures { IfOk result (λ definition. enumerated_value_of text.now node.now ≡ Some definition) }
{
    let name = node.the_child(names::VALUE_IDENTIFIER);
    let heading = read_heading(alloc, text, node, name)?;
    let ty = read_type(alloc, text, node.the_child(names::ASN1_TYPE))?;
    let value = read_item(alloc, text, node, &ty)?;
    Ok(value_definition(heading, ty, value))
}

/// A value definition with a value of any form: comments, a name, parameters, a type and the value (X.680 16.2).
#[tactic(auto, using(crate::proofs::Views::plain_has_comments, crate::proofs::Views::plain_has_name, crate::proofs::Views::plain_has_type, crate::proofs::Views::plain_has_value, asn_read_nodes::proofs::Views::name_has_blanks))]
fn read_plain_value(alloc: Global, text: &[u8], node: &Node) -> Mem<ToplevelValueDefinition>
    requires is { Is whole_rules text.now TOP_LEVEL_VALUE_DECLARATION node.now }
    requires is_plain { child_of node.now ENUMERATED_VALUE ≡ None }
    ensures { IfOk result (λ definition. plain_value_of text.now node.now ≡ Some definition) }
{
    let name = node.the_child(names::VALUE_IDENTIFIER);
    let heading = read_heading(alloc, text, node, name)?;
    let ty = read_type(alloc, text, node.the_child(names::ASN1_TYPE))?;
    let value = read_value(alloc, text, node.the_child(names::ASN1_VALUE))?;
    Ok(value_definition(heading, ty, value))
}

/// A value definition (X.680 16.2).
pub(crate) fn read_value_definition(
    alloc: Global,
    text: &[u8],
    node: &Node,
) -> Mem<ToplevelValueDefinition>
    requires { Is whole_rules text.now TOP_LEVEL_VALUE_DECLARATION node.now }
    ensures { IfOk result (λ definition. value_definition_of text.now node.now ≡ Some definition) }
{
    match node.child(names::ENUMERATED_VALUE) {
        Some(item) => Ok(read_enumerated_value(alloc, text, item)?),
        None => Ok(read_plain_value(alloc, text, node)?),
    }
}
