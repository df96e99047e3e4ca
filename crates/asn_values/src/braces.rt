//! Values that hold other values: options of a CHOICE, items between braces, and the value that each of these is.

ghost use Rattle.asn_rules.specs.Children.{Is, StandsBy};
ghost use Rattle.asn_rules.specs.Whole.{whole_rules};
ghost use Rattle.asn_rules.specs.Nodes.{at_children};
ghost use Rattle.asn_rules.specs.declared.names.TheConstants.{ASN1_VALUE, CHOICE_VALUE, SEQUENCE_VALUE, STRUCT_ITEM, VALUE_LIST};
ghost use Rattle.asn_read_nodes.specs.Parts.{all_some};
ghost use Rattle.asn_values.specs.Braces.{IsValue, a_choice, choice_of, form_of, item_of, items_of, sequence_of, value_of};
ghost use Rattle.std.specs.Prelude.{◌≡◌, All, IfOk, Some};

use crate::leaves::{
    read_bit_string, read_boolean, read_character_string, read_elsewhere, read_identifier,
    read_real, read_time_value, read_whole,
};
use asn_memory::{Box, List, Mem, Text};
use asn_read_nodes::{children, read_name};
use asn_rules::{Node, names};
use asn_tree::ASN1Value;
use std::alloc::Global;

/// An item between braces: its name, if it has one, and its value.
type Item = (Option<Text>, Box<ASN1Value>);

/// The value that a node is (X.680 17.7).
#[cycle(reading)]
#[tactic(auto, using(crate::proofs::Equations::value_is, crate::proofs::Views::value_has_first, crate::proofs::Views::first_is_value))]
pub fn read_value(alloc: Global, text: &[u8], node: &Node) -> Mem<ASN1Value>
    requires { Is whole_rules text.now ASN1_VALUE node.now }
    ensures { IfOk result (λ value. value_of text.now node.now ≡ Some value) }
{
    read_form(alloc, text, node.first_child())
}

/// The value that a node of one of the forms of values is.
#[cycle(reading)]
#[tactic(auto, using(crate::proofs::Equations::form_is, asn_read_nodes::proofs::Views::as_rule))]
fn read_form(alloc: Global, text: &[u8], node: &Node) -> Mem<ASN1Value>
    requires { IsValue text.now node.now }
    ensures { IfOk result (λ value. form_of text.now node.now ≡ Some value) }
{
    match node.rule {
        names::ALL_VALUE => Ok(ASN1Value::All),
        names::NULL_VALUE => Ok(ASN1Value::Null),
        names::OBJECT_IDENTIFIER_VALUE => read_identifier(alloc, text, node),
        names::CHOICE_VALUE => read_choice(alloc, text, node),
        names::REAL_VALUE => read_real(alloc, text, node),
        names::SEQUENCE_VALUE => read_sequence(alloc, text, node),
        names::TIME_VALUE => read_time_value(alloc, text, node),
        names::BIT_STRING_VALUE => read_bit_string(alloc, text, node),
        names::BOOLEAN_VALUE => Ok(read_boolean(text, node)),
        names::INTEGER_VALUE => Ok(read_whole(text, node)),
        names::CHARACTER_STRING_VALUE => read_character_string(alloc, text, node),
        names::ELSEWHERE_DECLARED_VALUE => read_elsewhere(alloc, text, node),
        _ => unreachable!(),
    }
}

/// An option of a CHOICE with its value.
fn choice(name: Text, value: Box<ASN1Value>) -> ASN1Value
    ensures { result ≡ a_choice name value }
{
    ASN1Value::Choice {
        type_name: None,
        variant_name: name,
        inner_value: value,
    }
}

/// An option of a CHOICE with its value (X.680 29.11).
#[cycle(reading)]
#[tactic(auto, using(crate::proofs::Views::choice_has_name, crate::proofs::Views::choice_has_value, asn_read_nodes::proofs::Views::identifier_has_blanks))]
pub(crate) fn read_choice(alloc: Global, text: &[u8], node: &Node) -> Mem<ASN1Value>
    requires { Is whole_rules text.now CHOICE_VALUE node.now }
    ensures { IfOk result (λ value. choice_of text.now node.now ≡ Some value) }
{
    let name = read_name(alloc, text, node.the_child(names::IDENTIFIER))?;
    let value = read_value(alloc, text, node.the_child(names::ASN1_VALUE))?;
    Ok(choice(name, Box::new(alloc, value)?))
}

/// Items between braces, with or without names (X.680 25.18, 26.3, 27.7, 28.3).
#[cycle(reading)]
pub(crate) fn read_sequence(alloc: Global, text: &[u8], node: &Node) -> Mem<ASN1Value>
    requires { Is whole_rules text.now SEQUENCE_VALUE node.now }
    ensures { IfOk result (λ value. sequence_of text.now node.now ≡ Some value) }
{
    match node.child(names::VALUE_LIST) {
        Some(list) => Ok(ASN1Value::SequenceOrSet(read_list(alloc, text, list)?)),
        None => Ok(ASN1Value::SequenceOrSet(List::new(alloc))),
    }
}

/// The items of a list, one for each of its nodes.
#[cycle(reading)]
#[tactic(auto, using(crate::proofs::Equations::items_is))]
fn read_list(alloc: Global, text: &[u8], node: &Node) -> Mem<List<Item>>
    requires { Is whole_rules text.now VALUE_LIST node.now }
    ensures { IfOk result (λ items. items_of text.now node.now ≡ Some items) }
{
    read_items(alloc, text, children(text, node))
}

#[cycle(reading)]
#[tactic(auto, using(asn_read_nodes::proofs::Views::as_rule, asn_read_nodes::proofs::Equations::takes_next, asn_read_nodes::proofs::Equations::passes_next))]
fn read_items(alloc: Global, text: &[u8], nodes: &[Node]) -> Mem<List<Item>>
    requires { All (StandsBy whole_rules text.now) nodes.now }
    ensures { IfOk result (λ items. all_some (at_children nodes.now STRUCT_ITEM (item_of text.now)) ≡ Some items) }
{
    let mut items = List::new(alloc);
    for node in nodes {
        if node.rule == names::STRUCT_ITEM {
            items.add(read_item(alloc, text, node)?)?;
        }
    }
    Ok(items)
}

/// An item between braces.
#[cycle(reading)]
#[tactic(auto, using(crate::proofs::Equations::item_is, crate::proofs::Views::item_has_value, asn_read_nodes::proofs::Views::name_has_blanks))]
fn read_item(alloc: Global, text: &[u8], node: &Node) -> Mem<Item>
    requires { Is whole_rules text.now STRUCT_ITEM node.now }
    ensures { IfOk result (λ item. item_of text.now node.now ≡ Some item) }
{
    let name = match node.child(names::VALUE_IDENTIFIER) {
        Some(name) => Some(read_name(alloc, text, name)?),
        None => None,
    };
    let value = read_value(alloc, text, node.the_child(names::ASN1_VALUE))?;
    Ok((name, Box::new(alloc, value)?))
}
