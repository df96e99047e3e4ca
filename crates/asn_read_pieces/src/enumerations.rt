//! The items of an enumeration as they are written, and the comments that belong to items and definitions.

ghost use Rattle.asn_read_pieces.specs.Enumerations.{bytes_in, comment_of, item_comment_of, item_of, items_in, items_of};
ghost use Rattle.asn_read_nodes.specs.Parts.{integer_of};
ghost use Rattle.asn_rules.specs.Children.{Is, StandsBy};
ghost use Rattle.asn_rules.specs.Nodes.{child_of, the};
ghost use Rattle.asn_rules.specs.Whole.{whole_rules};
ghost use Rattle.asn_rules.specs.declared.names.TheConstants.{COMMENT, ENUMERAL, ENUMERAL_LIST, ITEM_COMMENT, ITEM_NUMBER, NUMBER_I128};
ghost use Rattle.std.specs.Prelude.{◌≡◌, All, IfOk, IsSome, Some};

use crate::constraints::bytes_of;
use asn_memory::{List, Mem, Text};
use asn_read_nodes::{children, read_i128, read_name};
use asn_rules::{Node, names};
use std::alloc::Global;

/// An item of an enumeration as it is written (X.680 20.1).
#[derive(Drop)]
pub struct WrittenItem {
    pub name: Text,
    /// The number in parentheses, where it stands.
    pub number: Option<i128>,
    /// The text of the comment behind the item, where it stands.
    pub description: Option<Text>,
}

/// The text of a part of a node.
fn read_part(alloc: Global, text: &[u8], node: &Node, part: u8) -> Mem<Text>
    requires stands { StandsBy whole_rules text.now node.now }
    requires has_part { IsSome (child_of node.now part) }
    ensures { IfOk result (λ read. bytes_in part text.now node.now ≡ Some read) }
{
    Text::from_bytes(alloc, bytes_of(text, node.the_child(part)))
}

/// The text between the marks of a comment (X.680 12.6).
#[tactic(auto, using(crate::proofs::Views::block_has_body, crate::proofs::Views::line_has_body, crate::proofs::Views::comment_has_line))]
fn read_comment(alloc: Global, text: &[u8], node: &Node) -> Mem<Text>
    requires { Is whole_rules text.now COMMENT node.now }
    ensures { IfOk result (λ read. comment_of text.now node.now ≡ Some read) }
{
    match node.child(names::BLOCK_COMMENT) {
        Some(block) => Ok(read_part(alloc, text, block, names::COMMENT_BODY)?),
        None => {
            let line = node.the_child(names::LINE_COMMENT);
            Ok(read_part(alloc, text, line, names::LINE_BODY)?)
        }
    }
}

/// The text of a comment that belongs to an item or a definition.
#[tactic(auto, using(crate::proofs::Views::item_comment_has_comment))]
pub fn read_item_comment(alloc: Global, text: &[u8], node: &Node) -> Mem<Text>
    requires { Is whole_rules text.now ITEM_COMMENT node.now }
    ensures { IfOk result (λ read. item_comment_of text.now node.now ≡ Some read) }
{
    read_comment(alloc, text, node.the_child(names::COMMENT))
}

/// The number in parentheses behind the name of an item.
#[tactic(auto, using(crate::proofs::Views::item_number_has_number))]
fn read_number(text: &[u8], node: &Node) -> i128
    requires { Is whole_rules text.now ITEM_NUMBER node.now }
    ensures { the (child_of node.now NUMBER_I128) (integer_of 127 text.now) ≡ Some result }
{
    read_i128(text, node.the_child(names::NUMBER_I128))
}

/// An item: its name, and its number and its comment, where they stand (X.680 20.1).
#[tactic(auto, using(crate::proofs::Views::item_has_name, asn_read_nodes::proofs::Views::identifier_has_blanks))]
fn read_item(alloc: Global, text: &[u8], node: &Node) -> Mem<WrittenItem>
    requires { Is whole_rules text.now ENUMERAL node.now }
    ensures { IfOk result (λ item. item_of text.now node.now ≡ Some item) }
{
    let name = read_name(alloc, text, node.the_child(names::IDENTIFIER))?;
    let number = match node.child(names::ITEM_NUMBER) {
        Some(number) => Some(read_number(text, number)),
        None => None,
    };
    let description = match node.child(names::ITEM_COMMENT) {
        Some(comment) => Some(read_item_comment(alloc, text, comment)?),
        None => None,
    };
    Ok(WrittenItem {
        name,
        number,
        description,
    })
}

/// The items among the nodes.
#[tactic(auto, using(asn_read_nodes::proofs::Views::as_rule, asn_read_nodes::proofs::Equations::takes_next, asn_read_nodes::proofs::Equations::passes_next))]
fn read_each(alloc: Global, text: &[u8], nodes: &[Node]) -> Mem<List<WrittenItem>>
    requires { All (StandsBy whole_rules text.now) nodes.now }
    ensures { IfOk result (λ items. items_in text.now nodes.now ≡ Some items) }
{
    let mut items = List::new(alloc);
    for node in nodes {
        if node.rule == names::ENUMERAL {
            items.add(read_item(alloc, text, node)?)?;
        }
    }
    Ok(items)
}

/// The items on one side of the extension marker, in order (X.680 20.1).
pub fn read_items(alloc: Global, text: &[u8], node: &Node) -> Mem<List<WrittenItem>>
    requires { Is whole_rules text.now ENUMERAL_LIST node.now }
    ensures { IfOk result (λ items. items_of text.now node.now ≡ Some items) }
{
    Ok(read_each(alloc, text, children(text, node))?)
}
