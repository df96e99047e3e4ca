//! Names of classes and of their fields, and paths of them.

ghost use Rattle.asn_read_nodes.specs.Parts.{name_of};
ghost use Rattle.asn_read_pieces.specs.Fields.{capitals_of, component_path_of, field_of, field_path_of, field_step_of, fields_in, path_names_in};
ghost use Rattle.asn_rules.specs.Children.{Is, StandsBy};
ghost use Rattle.asn_rules.specs.Nodes.{child_of};
ghost use Rattle.asn_rules.specs.Whole.{whole_rules};
ghost use Rattle.asn_rules.specs.declared.names.TheConstants.{CLASS_NAME, COMPONENT_PATH, FIELD_STEP, INFORMATION_OBJECT_FIELD_REFERENCE, LITERAL_WORD, OBJECT_FIELD_IDENTIFIER, SYNTAX_LITERAL, UPPERCASE_IDENTIFIER};
ghost use Rattle.std.specs.Prelude.{◌≡◌, All, IfOk, IsSome, Some};

use asn_memory::{List, Mem, Text};
use asn_read_nodes::{children, join_steps, read_name};
use asn_rules::{Node, names};
use asn_tree_leaves::ObjectFieldIdentifier;
use std::alloc::Global;

/// A name in capitals.
#[tactic(auto, using(crate::proofs::Views::capitals_have_blanks))]
fn read_capitals(alloc: Global, text: &[u8], node: &Node) -> Mem<Text>
    requires stands { StandsBy whole_rules text.now node.now }
    requires has_name { IsSome (child_of node.now UPPERCASE_IDENTIFIER) }
    ensures { IfOk result (λ name. capitals_of text.now node.now ≡ Some name) }
{
    read_name(alloc, text, node.the_child(names::UPPERCASE_IDENTIFIER))
}

/// The name of a class (X.681 7.1).
#[tactic(auto, using(crate::proofs::Views::class_has_name))]
pub fn read_class_name(alloc: Global, text: &[u8], node: &Node) -> Mem<Text>
    requires { Is whole_rules text.now CLASS_NAME node.now }
    ensures { IfOk result (λ name. capitals_of text.now node.now ≡ Some name) }
{
    read_capitals(alloc, text, node)
}

/// A word in capitals of a class's own syntax (X.681 7.9).
#[tactic(auto, using(crate::proofs::Views::literal_has_name))]
pub fn read_syntax_literal(alloc: Global, text: &[u8], node: &Node) -> Mem<Text>
    requires { Is whole_rules text.now SYNTAX_LITERAL node.now }
    ensures { IfOk result (λ word. capitals_of text.now node.now ≡ Some word) }
{
    read_capitals(alloc, text, node)
}

/// A word in capitals before a brace, in an object (X.681 11.6).
#[tactic(auto, using(crate::proofs::Views::word_has_name))]
pub fn read_literal_word(alloc: Global, text: &[u8], node: &Node) -> Mem<Text>
    requires { Is whole_rules text.now LITERAL_WORD node.now }
    ensures { IfOk result (λ word. capitals_of text.now node.now ≡ Some word) }
{
    read_capitals(alloc, text, node)
}

/// The name of a field with its `&`; a small letter behind it tells a value or an object, a capital one a type or a set
/// (X.681 7.4 to 7.8).
#[tactic(auto, using(crate::proofs::Views::field_has_name, crate::proofs::Views::single_has_blanks, crate::proofs::Views::multiple_has_blanks))]
pub fn read_field(alloc: Global, text: &[u8], node: &Node) -> Mem<ObjectFieldIdentifier>
    requires { Is whole_rules text.now OBJECT_FIELD_IDENTIFIER node.now }
    ensures { IfOk result (λ field. field_of text.now node.now ≡ Some field) }
{
    match node.child(names::SINGLE_VALUE_FIELD_ID) {
        Some(single) => Ok(ObjectFieldIdentifier::SingleValue(read_name(alloc, text, single)?)),
        None => {
            let multiple = node.the_child(names::MULTIPLE_VALUE_FIELD_ID);
            Ok(ObjectFieldIdentifier::MultipleValue(read_name(alloc, text, multiple)?))
        }
    }
}

/// The field in a step of a path.
#[tactic(auto, using(crate::proofs::Views::step_has_field))]
fn read_step(alloc: Global, text: &[u8], node: &Node) -> Mem<ObjectFieldIdentifier>
    requires { Is whole_rules text.now FIELD_STEP node.now }
    ensures { IfOk result (λ field. field_step_of text.now node.now ≡ Some field) }
{
    read_field(alloc, text, node.the_child(names::OBJECT_FIELD_IDENTIFIER))
}

/// The fields in the steps among the nodes.
#[tactic(auto, using(asn_read_nodes::proofs::Views::as_rule, asn_read_nodes::proofs::Equations::takes_next, asn_read_nodes::proofs::Equations::passes_next))]
fn read_steps(alloc: Global, text: &[u8], nodes: &[Node]) -> Mem<List<ObjectFieldIdentifier>>
    requires { All (StandsBy whole_rules text.now) nodes.now }
    ensures { IfOk result (λ fields. fields_in text.now nodes.now ≡ Some fields) }
{
    let mut fields = List::new(alloc);
    for node in nodes {
        if node.rule == names::FIELD_STEP {
            fields.add(read_step(alloc, text, node)?)?;
        }
    }
    Ok(fields)
}

/// The fields behind a class's name, in order (X.681 14.1).
pub fn read_field_path(alloc: Global, text: &[u8], node: &Node) -> Mem<List<ObjectFieldIdentifier>>
    requires { Is whole_rules text.now INFORMATION_OBJECT_FIELD_REFERENCE node.now }
    ensures { IfOk result (λ fields. field_path_of text.now node.now ≡ Some fields) }
{
    Ok(read_steps(alloc, text, children(text, node))?)
}

/// The names among the nodes.
#[tactic(auto, using(asn_read_nodes::proofs::Views::as_rule, asn_read_nodes::proofs::Views::identifier_has_blanks, asn_read_nodes::proofs::Equations::takes_next, asn_read_nodes::proofs::Equations::passes_next))]
fn read_names(alloc: Global, text: &[u8], nodes: &[Node]) -> Mem<List<Text>>
    requires { All (StandsBy whole_rules text.now) nodes.now }
    ensures { IfOk result (λ found. path_names_in text.now nodes.now ≡ Some found) }
{
    let mut found = List::new(alloc);
    for node in nodes {
        if node.rule == names::IDENTIFIER {
            found.add(read_name(alloc, text, node)?)?;
        }
    }
    Ok(found)
}

/// The type whose components are taken over: its names joined by `.&` (X.680 25.5).
#[tactic(auto, using(crate::proofs::Views::path_is_joined))]
pub fn read_component_path(alloc: Global, text: &[u8], node: &Node) -> Mem<Text>
    requires { Is whole_rules text.now COMPONENT_PATH node.now }
    ensures { IfOk result (λ path. component_path_of text.now node.now ≡ Some path) }
{
    let found = read_names(alloc, text, children(text, node))?;
    match join_steps(alloc, found.as_slice())? {
        Some(path) => Ok(path),
        None => unreachable!(),
    }
}
