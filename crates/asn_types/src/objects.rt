//! Objects and sets of objects: fields by their names, items in a class's own syntax, and the items of sets.

ghost use Rattle.asn_read_nodes.specs.Parts.{all_some};
ghost use Rattle.asn_rules.specs.Children.{Is, StandsBy};
ghost use Rattle.asn_rules.specs.Nodes.{at_child, at_children, child_of};
ghost use Rattle.asn_rules.specs.Whole.{whole_rules};
ghost use Rattle.asn_rules.specs.declared.names.TheConstants.{ASN1_TYPE, CUSTOM_ITEM, CUSTOM_SYNTAX, DEFAULT_FIELD, DEFAULT_SYNTAX, INFORMATION_OBJECT, LITERAL_WORD, MARK_COMMA, OBJECT_ITEM, OBJECT_LIST, OBJECT_SET, SET_MORE};
ghost use Rattle.asn_rules.specs.declared.node.Node.TheViews.{out-Node};
ghost use Rattle.asn_read_pieces.specs.Fields.{capitals_of};
ghost use Rattle.asn_tree.specs.declared.types.ASN1Type.TheVariants.{ElsewhereDeclaredType};
ghost use Rattle.asn_types.specs.Objects.{field_name, object_set_with, reference_item, type_item, word_item};
ghost use Rattle.asn_types.specs.Reading.{custom_item_of, custom_syntax_of, default_field_of, default_syntax_of, object_item_of, object_list_of, object_of, object_set_of};
ghost use Rattle.std.specs.Option.{option_copied};
ghost use Rattle.std.specs.Prelude.{◌≡◌, [], All, IfOk, None, Some};

use crate::types::read_type;
use asn_memory::{List, Mem, Text};
use asn_read_nodes::{children, read_name};
use asn_read_pieces::{read_literal_word, read_syntax_literal};
use asn_rules::{Node, names};
use asn_tree::{
    ASN1Type, DeclarationElsewhere, FixedValueField, InformationObjectField,
    InformationObjectFields, ObjectSet, ObjectSetField, ObjectSetValue, SyntaxApplication,
    TypeField,
};
use asn_values::read_value;
use std::alloc::Global;

/// An object: its fields by their names, or in its class's own syntax (X.681 11.4).
#[cycle(reading)]
#[tactic(auto, using(crate::proofs::EquationsOfObjects::object_is, crate::proofs::ViewsObjects::object_has_items))]
pub fn read_object(alloc: Global, text: &[u8], node: &Node) -> Mem<InformationObjectFields>
    requires { Is whole_rules text.now INFORMATION_OBJECT node.now }
    ensures { IfOk result (λ object. object_of text.now node.now ≡ Some object) }
{
    match node.child(names::DEFAULT_SYNTAX) {
        Some(fields) => {
            let fields = read_default_syntax(alloc, text, fields)?;
            Ok(InformationObjectFields::DefaultSyntax(fields))
        }
        None => {
            let items = read_custom_syntax(alloc, text, node.the_child(names::CUSTOM_SYNTAX))?;
            Ok(InformationObjectFields::CustomSyntax(items))
        }
    }
}

/// The fields of an object by their names, in order (X.681 11.5).
#[cycle(reading)]
#[tactic(auto, using(crate::proofs::EquationsOfObjects::default_syntax_is))]
fn read_default_syntax(alloc: Global, text: &[u8], node: &Node) -> Mem<List<InformationObjectField>>
    requires { Is whole_rules text.now DEFAULT_SYNTAX node.now }
    ensures { IfOk result (λ fields. default_syntax_of text.now node.now ≡ Some fields) }
{
    Ok(read_default_fields(alloc, text, children(text, node))?)
}

#[cycle(reading)]
#[tactic(auto, using(asn_read_nodes::proofs::Views::as_rule, asn_read_nodes::proofs::Equations::takes_next, asn_read_nodes::proofs::Equations::passes_next))]
fn read_default_fields(
    alloc: Global,
    text: &[u8],
    nodes: &[Node],
) -> Mem<List<InformationObjectField>>
    requires { All (StandsBy whole_rules text.now) nodes.now }
    ensures { IfOk result (λ fields. all_some (at_children nodes.now DEFAULT_FIELD (default_field_of text.now)) ≡ Some fields) }
{
    let mut fields = List::new(alloc);
    for node in nodes {
        if node.rule == names::DEFAULT_FIELD {
            fields.add(read_default_field(alloc, text, node)?)?;
        }
    }
    Ok(fields)
}

/// The name of a field with its `&`.
#[tactic(auto, using(crate::proofs::ViewsObjects::field_has_name, asn_read_pieces::proofs::Views::single_has_blanks, asn_read_pieces::proofs::Views::multiple_has_blanks))]
fn read_field_name(alloc: Global, text: &[u8], node: &Node) -> Mem<Text>
    requires { Is whole_rules text.now DEFAULT_FIELD node.now }
    ensures { IfOk result (λ name. field_name text.now (out-Node node.now).children ≡ Some name) }
{
    match node.child(names::SINGLE_VALUE_FIELD_ID) {
        Some(name) => Ok(read_name(alloc, text, name)?),
        None => {
            let name = node.the_child(names::MULTIPLE_VALUE_FIELD_ID);
            Ok(read_name(alloc, text, name)?)
        }
    }
}

/// A field by its name: an object set, a type or a value (X.681 11.5).
#[cycle(reading)]
#[tactic(auto, using(crate::proofs::EquationsOfObjects::default_field_is, crate::proofs::ViewsObjects::field_has_value))]
fn read_default_field(alloc: Global, text: &[u8], node: &Node) -> Mem<InformationObjectField>
    requires { Is whole_rules text.now DEFAULT_FIELD node.now }
    ensures { IfOk result (λ field. default_field_of text.now node.now ≡ Some field) }
{
    let identifier = read_field_name(alloc, text, node)?;
    if let Some(set) = node.child(names::OBJECT_SET) {
        let value = read_object_set(alloc, text, set)?;
        return Ok(InformationObjectField::ObjectSetField(ObjectSetField { identifier, value }));
    }
    if let Some(ty) = node.child(names::ASN1_TYPE) {
        let ty = read_type(alloc, text, ty)?;
        return Ok(InformationObjectField::TypeField(TypeField { identifier, ty }));
    }
    let value = read_value(alloc, text, node.the_child(names::ASN1_VALUE))?;
    Ok(InformationObjectField::FixedValueField(FixedValueField { identifier, value }))
}

/// The items of an object in its class's own syntax, in order (X.681 11.6).
#[cycle(reading)]
#[tactic(auto, using(crate::proofs::EquationsOfObjects::custom_syntax_is))]
fn read_custom_syntax(alloc: Global, text: &[u8], node: &Node) -> Mem<List<SyntaxApplication>>
    requires { Is whole_rules text.now CUSTOM_SYNTAX node.now }
    ensures { IfOk result (λ items. custom_syntax_of text.now node.now ≡ Some items) }
{
    Ok(read_custom_items(alloc, text, children(text, node))?)
}

#[cycle(reading)]
#[tactic(auto, using(asn_read_nodes::proofs::Views::as_rule, asn_read_nodes::proofs::Equations::takes_next, asn_read_nodes::proofs::Equations::passes_next))]
fn read_custom_items(alloc: Global, text: &[u8], nodes: &[Node]) -> Mem<List<SyntaxApplication>>
    requires { All (StandsBy whole_rules text.now) nodes.now }
    ensures { IfOk result (λ items. all_some (at_children nodes.now CUSTOM_ITEM (custom_item_of text.now)) ≡ Some items) }
{
    let mut items = List::new(alloc);
    for node in nodes {
        if node.rule == names::CUSTOM_ITEM {
            items.add(read_custom_item(alloc, text, node)?)?;
        }
    }
    Ok(items)
}

/// A word in capitals before a brace, which is one of the syntax or the name of a type.
fn read_word(alloc: Global, text: &[u8], node: &Node) -> Mem<SyntaxApplication>
    requires { Is whole_rules text.now LITERAL_WORD node.now }
    ensures { IfOk result (λ item. word_item (capitals_of text.now node.now) ≡ Some item) }
{
    let reference = DeclarationElsewhere {
        parent: None,
        identifier: read_literal_word(alloc, text, node)?,
        constraints: List::new(alloc),
    };
    Ok(SyntaxApplication::LiteralOrTypeReference(reference))
}

/// The item that is a type reference: without a path it may be a word of the syntax.
fn reference_item(reference: DeclarationElsewhere) -> SyntaxApplication
    ensures { result ≡ reference_item reference (ElsewhereDeclaredType reference) reference.parent }
{
    match &reference.parent {
        None => SyntaxApplication::LiteralOrTypeReference(reference),
        Some(_) => SyntaxApplication::TypeReference(ASN1Type::ElsewhereDeclaredType(reference)),
    }
}

/// The item that is a type.
#[tactic(auto, using(crate::proofs::ItemsOfObjects::reference_is, crate::proofs::ItemsOfObjects::other_is))]
fn type_item(ty: ASN1Type) -> SyntaxApplication
    ensures { result ≡ type_item ty }
{
    match ty.into_reference() {
        Ok(reference) => reference_item(reference),
        Err(other) => SyntaxApplication::TypeReference(other),
    }
}

/// An item: a comma, a word before a brace, or a type (X.681 11.6).
#[cycle(reading)]
#[tactic(auto, using(crate::proofs::EquationsOfObjects::custom_item_is))]
fn read_custom_item(alloc: Global, text: &[u8], node: &Node) -> Mem<SyntaxApplication>
    requires { Is whole_rules text.now CUSTOM_ITEM node.now }
    ensures { IfOk result (λ item. custom_item_of text.now node.now ≡ Some item) }
{
    if let Some(_) = node.child(names::MARK_COMMA) {
        return Ok(SyntaxApplication::Comma);
    }
    if let Some(word) = node.child(names::LITERAL_WORD) {
        return Ok(read_word(alloc, text, word)?);
    }
    match node.child(names::ASN1_TYPE) {
        Some(ty) => Ok(type_item(read_type(alloc, text, ty)?)),
        None => Ok(read_other_item(alloc, text, node)?),
    }
}

/// An item that is a value, an object set, or a word.
#[cycle(reading)]
#[tactic(auto, using(crate::proofs::EquationsOfObjects::custom_item_is, crate::proofs::ViewsObjects::item_has_literal))]
fn read_other_item(alloc: Global, text: &[u8], node: &Node) -> Mem<SyntaxApplication>
    requires is { Is whole_rules text.now CUSTOM_ITEM node.now }
    requires no_comma { child_of node.now MARK_COMMA ≡ None }
    requires no_word { child_of node.now LITERAL_WORD ≡ None }
    requires no_type { child_of node.now ASN1_TYPE ≡ None }
    ensures { IfOk result (λ item. custom_item_of text.now node.now ≡ Some item) }
{
    if let Some(value) = node.child(names::ASN1_VALUE) {
        return Ok(SyntaxApplication::ValueReference(read_value(alloc, text, value)?));
    }
    if let Some(set) = node.child(names::OBJECT_SET) {
        return Ok(SyntaxApplication::ObjectSetDeclaration(read_object_set(alloc, text, set)?));
    }
    let word = read_syntax_literal(alloc, text, node.the_child(names::SYNTAX_LITERAL))?;
    Ok(SyntaxApplication::Literal(word))
}

/// The set of these items before and behind the marker, which is a node where it stands.
fn set_of(
    mark: Option<&Node>,
    first: List<ObjectSetValue>,
    more: List<ObjectSetValue>,
) -> Mem<ObjectSet>
    ensures { IfOk result (λ set. object_set_with (option_copied mark.entry) (Some first) (Some more) ≡ Some set) }
{
    let extensible = match mark {
        Some(_) => Some(first.len()),
        None => None,
    };
    let mut values = first;
    values.append(more)?;
    Ok(ObjectSet { values, extensible })
}

/// The items of a set before its marker; none where none stand.
#[cycle(reading)]
fn read_first_items(alloc: Global, text: &[u8], node: &Node) -> Mem<List<ObjectSetValue>>
    requires { StandsBy whole_rules text.now node.now }
    ensures { IfOk result (λ items. at_child (child_of node.now OBJECT_LIST) (Some []) (object_list_of text.now) ≡ Some items) }
{
    match node.child(names::OBJECT_LIST) {
        Some(list) => Ok(read_object_list(alloc, text, list)?),
        None => Ok(List::new(alloc)),
    }
}

/// The items behind the first ones or behind the marker; none where none stand.
#[cycle(reading)]
fn read_more_items(alloc: Global, text: &[u8], node: &Node) -> Mem<List<ObjectSetValue>>
    requires { StandsBy whole_rules text.now node.now }
    ensures { IfOk result (λ items. at_child (child_of node.now SET_MORE) (Some []) (object_list_of text.now) ≡ Some items) }
{
    match node.child(names::SET_MORE) {
        Some(more) => Ok(read_object_list(alloc, text, more)?),
        None => Ok(List::new(alloc)),
    }
}

/// A set of objects: its items, and how many of them stand before the extension marker, where it stands (X.681 12.3).
#[cycle(reading)]
#[tactic(auto, using(crate::proofs::EquationsOfObjects::object_set_is))]
pub fn read_object_set(alloc: Global, text: &[u8], node: &Node) -> Mem<ObjectSet>
    requires { Is whole_rules text.now OBJECT_SET node.now }
    ensures { IfOk result (λ set. object_set_of text.now node.now ≡ Some set) }
{
    let first = read_first_items(alloc, text, node)?;
    let more = read_more_items(alloc, text, node)?;
    Ok(set_of(node.child(names::SET_MARK), first, more)?)
}

/// The items of a list, in order, or those of the list that stands under the node (X.681 12.3).
#[cycle(reading)]
#[tactic(auto, using(crate::proofs::EquationsOfObjects::object_list_is))]
fn read_object_list(alloc: Global, text: &[u8], node: &Node) -> Mem<List<ObjectSetValue>>
    requires { StandsBy whole_rules text.now node.now }
    ensures { IfOk result (λ items. object_list_of text.now node.now ≡ Some items) }
{
    match node.child(names::OBJECT_LIST) {
        Some(list) => Ok(read_object_list(alloc, text, list)?),
        None => Ok(read_object_items(alloc, text, children(text, node))?),
    }
}

#[cycle(reading)]
#[tactic(auto, using(asn_read_nodes::proofs::Views::as_rule, asn_read_nodes::proofs::Equations::takes_next, asn_read_nodes::proofs::Equations::passes_next))]
fn read_object_items(alloc: Global, text: &[u8], nodes: &[Node]) -> Mem<List<ObjectSetValue>>
    requires { All (StandsBy whole_rules text.now) nodes.now }
    ensures { IfOk result (λ items. all_some (at_children nodes.now OBJECT_ITEM (object_item_of text.now)) ≡ Some items) }
{
    let mut items = List::new(alloc);
    for node in nodes {
        if node.rule == names::OBJECT_ITEM {
            items.add(read_object_item(alloc, text, node)?)?;
        }
    }
    Ok(items)
}

/// An item of a set: an object, or the name of an object or a set (X.681 12.3).
#[cycle(reading)]
#[tactic(auto, using(crate::proofs::EquationsOfObjects::object_item_is, crate::proofs::ViewsObjects::set_item_has_name, asn_read_nodes::proofs::Views::identifier_has_blanks))]
fn read_object_item(alloc: Global, text: &[u8], node: &Node) -> Mem<ObjectSetValue>
    requires { Is whole_rules text.now OBJECT_ITEM node.now }
    ensures { IfOk result (λ item. object_item_of text.now node.now ≡ Some item) }
{
    match node.child(names::INFORMATION_OBJECT) {
        Some(object) => Ok(ObjectSetValue::Inline(read_object(alloc, text, object)?)),
        None => {
            let name = node.the_child(names::IDENTIFIER);
            Ok(ObjectSetValue::Reference(read_name(alloc, text, name)?))
        }
    }
}
