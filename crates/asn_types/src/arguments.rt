//! The arguments of templates (X.683 9.1).

ghost use Rattle.asn_read_nodes.specs.Parts.{all_some};
ghost use Rattle.asn_rules.specs.Children.{Is, StandsBy};
ghost use Rattle.asn_rules.specs.Nodes.{at_children};
ghost use Rattle.asn_rules.specs.Whole.{whole_rules};
ghost use Rattle.asn_rules.specs.declared.names.TheConstants.{PARAMETER, PARAMETERS};
ghost use Rattle.asn_types.specs.Reading.{parameter_of, parameters_of};
ghost use Rattle.std.specs.Prelude.{◌≡◌, All, IfOk, Some};

use crate::objects::{read_object, read_object_set};
use crate::types::read_type;
use asn_memory::{List, Mem};
use asn_read_nodes::children;
use asn_rules::{Node, names};
use asn_tree::Parameter;
use asn_values::read_value;
use std::alloc::Global;

/// The arguments in the braces, in order (X.683 9.1).
#[cycle(reading)]
#[tactic(auto, using(crate::proofs::EquationsOfConstraints::parameters_is))]
pub(crate) fn read_parameters(alloc: Global, text: &[u8], node: &Node) -> Mem<List<Parameter>>
    requires { Is whole_rules text.now PARAMETERS node.now }
    ensures { IfOk result (λ arguments. parameters_of text.now node.now ≡ Some arguments) }
{
    read_each(alloc, text, children(text, node))
}

#[cycle(reading)]
#[tactic(auto, using(asn_read_nodes::proofs::Views::as_rule, asn_read_nodes::proofs::Equations::takes_next, asn_read_nodes::proofs::Equations::passes_next))]
fn read_each(alloc: Global, text: &[u8], nodes: &[Node]) -> Mem<List<Parameter>>
    requires { All (StandsBy whole_rules text.now) nodes.now }
    ensures { IfOk result (λ arguments. all_some (at_children nodes.now PARAMETER (parameter_of text.now)) ≡ Some arguments) }
{
    let mut arguments = List::new(alloc);
    for node in nodes {
        if node.rule == names::PARAMETER {
            arguments.add(read_parameter(alloc, text, node)?)?;
        }
    }
    Ok(arguments)
}

/// An argument: a value, a type, an object set, or an object (X.683 9.5).
#[cycle(reading)]
#[tactic(auto, using(crate::proofs::EquationsOfConstraints::parameter_is, crate::proofs::ViewsConstraints::parameter_has_object))]
fn read_parameter(alloc: Global, text: &[u8], node: &Node) -> Mem<Parameter>
    requires { Is whole_rules text.now PARAMETER node.now }
    ensures { IfOk result (λ argument. parameter_of text.now node.now ≡ Some argument) }
{
    if let Some(value) = node.child(names::ASN1_VALUE) {
        return Ok(Parameter::ValueParameter(read_value(alloc, text, value)?));
    }
    if let Some(ty) = node.child(names::ASN1_TYPE) {
        return Ok(Parameter::TypeParameter(read_type(alloc, text, ty)?));
    }
    match node.child(names::OBJECT_SET) {
        Some(set) => Ok(Parameter::ObjectSetParameter(read_object_set(alloc, text, set)?)),
        None => {
            let object = node.the_child(names::INFORMATION_OBJECT);
            Ok(Parameter::InformationObjectParameter(read_object(alloc, text, object)?))
        }
    }
}
