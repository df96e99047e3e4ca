//! The parameters of templates (X.683 8.1). They hold types, and no type leads to them, so they stand outside the cycle.
//!
//! The readers of definitions above call [`read_parameterization`].

ghost use Rattle.asn_rules.specs.Children.{Is, StandsBy};
ghost use Rattle.asn_rules.specs.Nodes.{child_of};
ghost use Rattle.asn_rules.specs.Whole.{whole_rules};
ghost use Rattle.asn_rules.specs.declared.names.TheConstants.{DUMMY, IDENTIFIER, PARAMETERIZATION};
ghost use Rattle.asn_types.specs.Dummies.{class_before, dummies_in, dummy_of, parameterization_of, type_before};
ghost use Rattle.std.specs.Prelude.{◌≡◌, All, IfOk, IsSome, Some};

use crate::types::read_type;
use asn_memory::{List, Mem};
use asn_read_nodes::{children, read_name};
use asn_rules::{Node, names};
use asn_tree::{ParameterGovernor, Parameterization, ParameterizationArgument};
use std::alloc::Global;

/// The type before a name in small letters, or nothing.
fn read_type_before(alloc: Global, text: &[u8], node: &Node) -> Mem<ParameterGovernor>
    requires { Is whole_rules text.now DUMMY node.now }
    ensures { IfOk result (λ governor. type_before text.now node.now ≡ Some governor) }
{
    match node.child(names::ASN1_TYPE) {
        Some(ty) => Ok(ParameterGovernor::TypeOrClass(read_type(alloc, text, ty)?)),
        None => Ok(ParameterGovernor::None),
    }
}

/// The class before a name.
#[tactic(auto, using(asn_read_nodes::proofs::Views::identifier_has_blanks))]
fn read_class_before(alloc: Global, text: &[u8], node: &Node) -> Mem<ParameterGovernor>
    requires stands { StandsBy whole_rules text.now node.now }
    requires has_name { IsSome (child_of node.now IDENTIFIER) }
    ensures { IfOk result (λ governor. class_before text.now node.now ≡ Some governor) }
{
    let class = read_name(alloc, text, node.the_child(names::IDENTIFIER))?;
    Ok(ParameterGovernor::Class(class))
}

/// A dummy: one in small letters, governed by the type before it or by nothing; another, governed by the class before it or
/// by nothing (X.683 8.1).
#[tactic(auto, using(crate::proofs::ViewsConstraints::dummy_has_name, asn_read_nodes::proofs::Views::name_has_blanks, asn_read_nodes::proofs::Views::identifier_has_blanks))]
fn read_dummy(alloc: Global, text: &[u8], node: &Node) -> Mem<ParameterizationArgument>
    requires { Is whole_rules text.now DUMMY node.now }
    ensures { IfOk result (λ dummy. dummy_of text.now node.now ≡ Some dummy) }
{
    if let Some(name) = node.child(names::VALUE_IDENTIFIER) {
        let param_governor = read_type_before(alloc, text, node)?;
        return Ok(ParameterizationArgument {
            dummy_reference: read_name(alloc, text, name)?,
            param_governor,
        });
    }
    match node.nth_child(names::IDENTIFIER, 1) {
        Some(name) => {
            let param_governor = read_class_before(alloc, text, node)?;
            Ok(ParameterizationArgument {
                dummy_reference: read_name(alloc, text, name)?,
                param_governor,
            })
        }
        None => Ok(ParameterizationArgument {
            dummy_reference: read_name(alloc, text, node.the_child(names::IDENTIFIER))?,
            param_governor: ParameterGovernor::None,
        }),
    }
}

/// The dummies among the nodes.
#[tactic(auto, using(asn_read_nodes::proofs::Views::as_rule, asn_read_nodes::proofs::Equations::takes_next, asn_read_nodes::proofs::Equations::passes_next))]
fn read_each(alloc: Global, text: &[u8], nodes: &[Node]) -> Mem<List<ParameterizationArgument>>
    requires { All (StandsBy whole_rules text.now) nodes.now }
    ensures { IfOk result (λ dummies. dummies_in text.now nodes.now ≡ Some dummies) }
{
    let mut dummies = List::new(alloc);
    for node in nodes {
        if node.rule == names::DUMMY {
            dummies.add(read_dummy(alloc, text, node)?)?;
        }
    }
    Ok(dummies)
}

/// The dummies in the braces, in order (X.683 8.1).
pub fn read_parameterization(alloc: Global, text: &[u8], node: &Node) -> Mem<Parameterization>
    requires { Is whole_rules text.now PARAMETERIZATION node.now }
    ensures { IfOk result (λ read. parameterization_of text.now node.now ≡ Some read) }
{
    let parameters = read_each(alloc, text, children(text, node))?;
    Ok(Parameterization { parameters })
}
