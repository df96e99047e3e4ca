//! Definitions of every kind, and modules.

ghost use Rattle.asn_modules.specs.Modules.{definition_of, definitions_in, module_of, modules_in};
ghost use Rattle.asn_rules.specs.Children.{Is, StandsBy};
ghost use Rattle.asn_rules.specs.Whole.{whole_rules};
ghost use Rattle.asn_rules.specs.declared.names.TheConstants.{ASN_MODULE, DEFINITION};
ghost use Rattle.std.specs.Prelude.{◌≡◌, All, IfOk, Some};

use crate::information::read_information;
use crate::types::read_type_definition;
use crate::values::read_value_definition;
use asn_memory::{List, Mem};
use asn_read_headers::read_header;
use asn_read_nodes::children;
use asn_rules::{Node, names};
use asn_tree::{Reading, ToplevelDefinition};
use asn_tree_headers::ModuleReference;
use std::alloc::Global;

/// A definition: of a class, an object or an object set, of a type, or of a value (X.680 16, X.681 9, 11, 12).
#[tactic(auto, using(crate::proofs::Views::definition_has_value))]
fn read_definition(alloc: Global, text: &[u8], node: &Node) -> Mem<ToplevelDefinition>
    requires { Is whole_rules text.now DEFINITION node.now }
    ensures { IfOk result (λ definition. definition_of text.now node.now ≡ Some definition) }
{
    if let Some(information) = node.child(names::TOP_LEVEL_INFORMATION_DECLARATION) {
        let definition = read_information(alloc, text, information)?;
        return Ok(ToplevelDefinition::Information(definition));
    }
    match node.child(names::TOP_LEVEL_TYPE_DECLARATION) {
        Some(ty) => Ok(ToplevelDefinition::TypeDef(read_type_definition(alloc, text, ty)?)),
        None => {
            let value = node.the_child(names::TOP_LEVEL_VALUE_DECLARATION);
            Ok(ToplevelDefinition::Value(read_value_definition(alloc, text, value)?))
        }
    }
}

/// The definitions among the nodes.
#[tactic(auto, using(asn_read_nodes::proofs::Views::as_rule, asn_read_nodes::proofs::Equations::takes_next, asn_read_nodes::proofs::Equations::passes_next))]
fn read_definitions(alloc: Global, text: &[u8], nodes: &[Node]) -> Mem<List<ToplevelDefinition>>
    requires { All (StandsBy whole_rules text.now) nodes.now }
    ensures { IfOk result (λ definitions. definitions_in text.now nodes.now ≡ Some definitions) }
{
    let mut definitions = List::new(alloc);
    for node in nodes {
        if node.rule == names::DEFINITION {
            definitions.add(read_definition(alloc, text, node)?)?;
        }
    }
    Ok(definitions)
}

/// A module: its header and its definitions (X.680 13.1).
#[tactic(auto, using(crate::proofs::Views::module_has_header))]
pub(crate) fn read_module(
    alloc: Global,
    text: &[u8],
    node: &Node,
) -> Mem<(ModuleReference, List<ToplevelDefinition>)>
    requires { Is whole_rules text.now ASN_MODULE node.now }
    ensures { IfOk result (λ read. module_of text.now node.now ≡ Some read) }
{
    let header = read_header(alloc, text, node.the_child(names::MODULE_REFERENCE))?;
    let definitions = read_definitions(alloc, text, children(text, node))?;
    Ok((header, definitions))
}

/// The modules among the nodes.
#[tactic(auto, using(asn_read_nodes::proofs::Views::as_rule, asn_read_nodes::proofs::Equations::takes_next, asn_read_nodes::proofs::Equations::passes_next))]
pub(crate) fn read_modules(alloc: Global, text: &[u8], nodes: &[Node]) -> Mem<Reading>
    requires { All (StandsBy whole_rules text.now) nodes.now }
    ensures { IfOk result (λ read. modules_in text.now nodes.now ≡ Some read) }
{
    let mut modules = List::new(alloc);
    for node in nodes {
        if node.rule == names::ASN_MODULE {
            modules.add(read_module(alloc, text, node)?)?;
        }
    }
    Ok(modules)
}
