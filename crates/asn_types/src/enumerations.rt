//! ENUMERATED and the numbers of its items.

ghost use Rattle.asn_rules.specs.Children.{Is};
ghost use Rattle.asn_rules.specs.Whole.{whole_rules};
ghost use Rattle.asn_rules.specs.Nodes.{nth_child_of, the};
ghost use Rattle.asn_rules.specs.declared.names.TheConstants.{ENUMERAL_LIST, ENUMERATED};
ghost use Rattle.asn_read_pieces.specs.Enumerations.{items_of};
ghost use Rattle.asn_types.specs.Enumerations.{an_enumerated, numbered, numbers_of, numbers_written};
ghost use Rattle.asn_types.specs.Forms.{enumerated_type_of};
ghost use Rattle.std.specs.Option.{option_map};
ghost use Rattle.std.specs.Prelude.{◌≡◌, IfOk, Some};

use asn_memory::{List, Mem};
use asn_read_pieces::{WrittenItem, read_extension, read_items};
use asn_rules::{Node, names};
use asn_tree::{ASN1Type, Enumerated};
use asn_tree_kinds::Enumeral;
use asn_tree_leaves::ExtensionMarker;
use asn_tree_numbers::enumerate;
use std::alloc::Global;

/// The numbers that are written behind the items, each where it stands.
fn numbers_written(alloc: Global, items: &[WrittenItem]) -> Mem<List<Option<i128>>>
    ensures { IfOk result (λ numbers. numbers ≡ numbers_written items.now) }
{
    let mut numbers = List::new(alloc);
    for item in items {
        numbers.add(item.number)?;
    }
    Ok(numbers)
}

/// The item with its number.
fn with_number(item: WrittenItem, index: i128) -> Enumeral
    ensures { result ≡ record { name = item.name; description = item.description; index = index } }
{
    Enumeral {
        name: item.name,
        description: item.description,
        index,
    }
}

/// The items with their numbers, as many as there are numbers for.
#[tactic(auto, using(crate::proofs::Numbered::takes_number, crate::proofs::Numbered::takes_none))]
fn numbered(alloc: Global, items: List<WrittenItem>, numbers: &List<i128>) -> Mem<List<Enumeral>>
    ensures { IfOk result (λ made. made ≡ numbered items numbers.now) }
{
    let mut made = List::new(alloc);
    for item in items.into_vec() {
        if let Some(index) = numbers.get(made.len()) {
            made.add(with_number(item, *index))?;
        }
    }
    Ok(made)
}

/// How many items stand before the extension marker, where there is one.
fn extensible(marker: Option<ExtensionMarker>, before: usize) -> Option<usize>
    ensures { result ≡ option_map (λ _. before) marker }
{
    match marker {
        Some(_) => Some(before),
        None => None,
    }
}

/// The ENUMERATED of items before an extension marker and behind it, with the numbers of all of them.
fn enumerated(
    alloc: Global,
    root: List<WrittenItem>,
    additions: List<WrittenItem>,
    marker: Option<ExtensionMarker>,
    numbers: &List<i128>,
) -> Mem<ASN1Type>
    ensures { IfOk result (λ ty. ty ≡ an_enumerated root additions marker numbers.now) }
{
    let extensible = extensible(marker, root.len());
    let mut items = root;
    items.append(additions)?;
    let members = numbered(alloc, items, numbers)?;
    Ok(ASN1Type::Enumerated(Enumerated {
        members,
        extensible,
        constraints: List::new(alloc),
    }))
}

/// The numbers of all items of an enumeration (X.680 20.4 to 20.7), none of which passes 128 bits, as the grammar asks.
#[tactic(auto, using(crate::proofs::Items::numbers_never_pass, crate::proofs::Items::numbers_come))]
fn numbers(
    alloc: Global,
    text: &[u8],
    node: &Node,
    root: &List<WrittenItem>,
    additions: &List<WrittenItem>,
) -> Mem<List<i128>>
    requires is { Is whole_rules text.now ENUMERATED node.now }
    requires root { the (nth_child_of node.now ENUMERAL_LIST 0) (items_of text.now) ≡ Some root.now }
    requires additions { the (nth_child_of node.now ENUMERAL_LIST 1) (items_of text.now) ≡ Some additions.now }
    ensures { IfOk result (λ numbers. numbers_of (numbers_written root.now) (numbers_written additions.now) ≡ Some numbers) }
{
    let of_root = numbers_written(alloc, root.as_slice())?;
    let of_additions = numbers_written(alloc, additions.as_slice())?;
    match enumerate(alloc, of_root.as_slice(), of_additions.as_slice())? {
        Some(numbers) => Ok(numbers),
        None => unreachable!(),
    }
}

/// ENUMERATED: its items with their numbers and comments; it is extensible behind those before the extension marker
/// (X.680 20.1).
#[tactic(auto, using(crate::proofs::ViewsTypes::enumerated_has_root, crate::proofs::ViewsTypes::enumerated_has_additions))]
pub(crate) fn read_enumerated(alloc: Global, text: &[u8], node: &Node) -> Mem<ASN1Type>
    requires { Is whole_rules text.now ENUMERATED node.now }
    ensures { IfOk result (λ ty. enumerated_type_of text.now node.now ≡ Some ty) }
{
    let root = read_items(alloc, text, node.the_nth_child(names::ENUMERAL_LIST, 0))?;
    let additions = read_items(alloc, text, node.the_nth_child(names::ENUMERAL_LIST, 1))?;
    let numbers = numbers(alloc, text, node, &root, &additions)?;
    let marker = read_extension(node);
    Ok(enumerated(alloc, root, additions, marker, &numbers)?)
}
