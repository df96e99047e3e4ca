//! Imports.

ghost use Rattle.asn_read_headers.specs.Imports.{assigned_of, external_of, import_of, imports_among, imports_in, source_of, valued_of, with_in};
ghost use Rattle.asn_rules.specs.Children.{Is, StandsBy};
ghost use Rattle.asn_rules.specs.Nodes.{child_of};
ghost use Rattle.asn_rules.specs.Whole.{whole_rules};
ghost use Rattle.asn_rules.specs.declared.names.TheConstants.{ASSIGNED_IDENTIFIER, BRACE_GROUP, GLOBAL_MODULE_REFERENCE, IDENTIFIER, IMPORT, MODULE_REFERENCE, VALUE_IDENTIFIER};
ghost use Rattle.std.specs.Prelude.{◌≡◌, All, IfOk, IsSome, Some};

use crate::identifiers::{read_identifier, read_text};
use crate::symbols::read_symbols;
use asn_memory::{List, Mem};
use asn_read_nodes::{children, read_name};
use asn_rules::{Node, names};
use asn_tree_headers::{
    AssignedIdentifier, ExternalValueReference, GlobalModuleReference, Import, With,
};
use std::alloc::Global;

/// A value of another module, by the names of both (X.680 14.1).
#[tactic(auto, using(asn_read_nodes::proofs::Views::identifier_has_blanks, asn_read_nodes::proofs::Views::name_has_blanks))]
fn read_external(alloc: Global, text: &[u8], node: &Node) -> Mem<ExternalValueReference>
    requires stands { StandsBy whole_rules text.now node.now }
    requires has_module { IsSome (child_of node.now IDENTIFIER) }
    requires has_value { IsSome (child_of node.now VALUE_IDENTIFIER) }
    ensures { IfOk result (λ value. external_of text.now node.now ≡ Some value) }
{
    let module_reference = read_name(alloc, text, node.the_child(names::IDENTIFIER))?;
    let value_reference = read_name(alloc, text, node.the_child(names::VALUE_IDENTIFIER))?;
    Ok(ExternalValueReference {
        module_reference,
        value_reference,
    })
}

/// A value by its name, with the arguments in braces behind it, where some stand: these are kept as they are written.
#[tactic(auto, using(asn_read_nodes::proofs::Views::name_has_blanks))]
fn read_valued(alloc: Global, text: &[u8], node: &Node, value: &Node) -> Mem<AssignedIdentifier>
    requires stands { StandsBy whole_rules text.now node.now }
    requires is_value { Is whole_rules text.now VALUE_IDENTIFIER value.now }
    ensures { IfOk result (λ assigned. valued_of text.now (child_of node.now BRACE_GROUP) value.now ≡ Some assigned) }
{
    let value_reference = read_name(alloc, text, value)?;
    match node.child(names::BRACE_GROUP) {
        Some(group) => Ok(AssignedIdentifier::ParameterizedValue {
            value_reference,
            actual_parameter_list: read_text(alloc, text, group)?,
        }),
        None => Ok(AssignedIdentifier::ValueReference(value_reference)),
    }
}

/// The identifier assigned to an imported module: an object identifier, a value of another module, a value, or none (X.680
/// 13.1).
#[tactic(auto, using(crate::proofs::Views::external_has_value))]
fn read_assigned(alloc: Global, text: &[u8], node: &Node) -> Mem<AssignedIdentifier>
    requires { Is whole_rules text.now ASSIGNED_IDENTIFIER node.now }
    ensures { IfOk result (λ assigned. assigned_of text.now node.now ≡ Some assigned) }
{
    if let Some(arcs) = node.child(names::OBJECT_IDENTIFIER_VALUE) {
        let value = read_identifier(alloc, text, arcs)?;
        return Ok(AssignedIdentifier::ObjectIdentifierValue(value));
    }
    if let Some(_) = node.child(names::IDENTIFIER) {
        let value = read_external(alloc, text, node)?;
        return Ok(AssignedIdentifier::ExternalValueReference(value));
    }
    match node.child(names::VALUE_IDENTIFIER) {
        Some(value) => Ok(read_valued(alloc, text, node, value)?),
        None => Ok(AssignedIdentifier::Empty),
    }
}

/// The module that an import names (X.680 13.1).
#[tactic(auto, using(crate::proofs::Views::source_has_name, crate::proofs::Views::source_has_identifier, asn_read_nodes::proofs::Views::identifier_has_blanks))]
fn read_source(alloc: Global, text: &[u8], node: &Node) -> Mem<GlobalModuleReference>
    requires { Is whole_rules text.now GLOBAL_MODULE_REFERENCE node.now }
    ensures { IfOk result (λ source. source_of text.now node.now ≡ Some source) }
{
    let module_reference = read_name(alloc, text, node.the_child(names::IDENTIFIER))?;
    let assigned = node.the_child(names::ASSIGNED_IDENTIFIER);
    let assigned_identifier = read_assigned(alloc, text, assigned)?;
    Ok(GlobalModuleReference {
        module_reference,
        assigned_identifier,
    })
}

/// Which other versions of the module serve, by the word behind WITH (X.680 13.1).
fn read_with(node: &Node) -> Option<With>
    ensures { result ≡ with_in node.now }
{
    if let Some(_) = node.child(names::MARK_SUCCESSORS) {
        return Some(With::Successors);
    }
    match node.child(names::MARK_DESCENDANTS) {
        Some(_) => Some(With::Descendants),
        None => None,
    }
}

/// The symbols from one module (X.680 13.1).
#[tactic(auto, using(crate::proofs::Views::import_has_symbols, crate::proofs::Views::import_has_source))]
fn read_import(alloc: Global, text: &[u8], node: &Node) -> Mem<Import>
    requires { Is whole_rules text.now IMPORT node.now }
    ensures { IfOk result (λ read. import_of text.now node.now ≡ Some read) }
{
    let types = read_symbols(alloc, text, node.the_child(names::SYMBOL_LIST))?;
    let source = node.the_child(names::GLOBAL_MODULE_REFERENCE);
    let global_module_reference = read_source(alloc, text, source)?;
    Ok(Import {
        types,
        global_module_reference,
        with: read_with(node),
    })
}

/// The imports among the nodes.
#[tactic(auto, using(asn_read_nodes::proofs::Views::as_rule, asn_read_nodes::proofs::Equations::takes_next, asn_read_nodes::proofs::Equations::passes_next))]
fn read_each(alloc: Global, text: &[u8], nodes: &[Node]) -> Mem<List<Import>>
    requires { All (StandsBy whole_rules text.now) nodes.now }
    ensures { IfOk result (λ imports. imports_among text.now nodes.now ≡ Some imports) }
{
    let mut imports = List::new(alloc);
    for node in nodes {
        if node.rule == names::IMPORT {
            imports.add(read_import(alloc, text, node)?)?;
        }
    }
    Ok(imports)
}

/// The imports of a header, one for each FROM, in order; none where IMPORTS does not stand (X.680 13.1).
pub(crate) fn read_imports(alloc: Global, text: &[u8], node: &Node) -> Mem<List<Import>>
    requires { Is whole_rules text.now MODULE_REFERENCE node.now }
    ensures { IfOk result (λ imports. imports_in text.now node.now ≡ Some imports) }
{
    match node.child(names::IMPORTS) {
        Some(imports) => Ok(read_each(alloc, text, children(text, imports))?),
        None => Ok(List::new(alloc)),
    }
}
