//! What types hold beside types: the names in a selection, and the name of a group of members.

ghost use Rattle.asn_read_pieces.specs.Types.{first_member, group_name_of, member_name, selection_of, taken_over};
ghost use Rattle.asn_rules.specs.Children.{Is, StandsBy};
ghost use Rattle.asn_rules.specs.Whole.{whole_rules};
ghost use Rattle.asn_rules.specs.declared.names.TheConstants.{EXTENSION_GROUP, SELECTION_TYPE_CHOICE, SEQUENCE_OR_SET_MEMBER};
ghost use Rattle.asn_rules.specs.declared.node.Node.TheViews.{out-Node};
ghost use Rattle.std.specs.Option.{IfSome, option_copied};
ghost use Rattle.std.specs.Prelude.{◌≡◌, ◌++◌, All, codes, IfOk, None, Some};

use crate::fields::read_component_path;
use asn_memory::{Mem, Text};
use asn_read_nodes::{children, read_name};
use asn_rules::{Node, names};
use asn_tree_kinds::ChoiceSelectionType;
use std::alloc::Global;

/// The option of a CHOICE that a selection takes, and the name of the CHOICE (X.680 30.1).
#[tactic(auto, using(crate::proofs::Views::selection_has_option, crate::proofs::Views::selection_has_choice, crate::proofs::Views::title_has_blanks, asn_read_nodes::proofs::Views::name_has_blanks))]
pub fn read_selection(alloc: Global, text: &[u8], node: &Node) -> Mem<ChoiceSelectionType>
    requires { Is whole_rules text.now SELECTION_TYPE_CHOICE node.now }
    ensures { IfOk result (λ selection. selection_of text.now node.now ≡ Some selection) }
{
    let selected_option = read_name(alloc, text, node.the_child(names::VALUE_IDENTIFIER))?;
    let choice_name = read_name(alloc, text, node.the_child(names::TITLE_CASE_IDENTIFIER))?;
    Ok(ChoiceSelectionType {
        choice_name,
        selected_option,
    })
}

/// The first member in the nodes; None where there is none.
fn first_member<'n>(text: &[u8], nodes: &'n [Node]) -> Option<&'n Node>
    requires { All (StandsBy whole_rules text.now) nodes.now }
    ensures value { option_copied result ≡ first_member nodes.now }
    ensures stands { IfSome result (λ member. Is whole_rules text.now SEQUENCE_OR_SET_MEMBER member.now) }
{
    for node in nodes {
        if let Some(member) = node.child(names::SEQUENCE_OR_SET_MEMBER) {
            return Some(member);
        }
    }
    None
}

/// The type behind the first COMPONENTS OF of a group that has no member.
#[tactic(auto, using(crate::proofs::Views::group_has_component, crate::proofs::Views::component_has_path))]
fn read_taken_over(alloc: Global, text: &[u8], node: &Node) -> Mem<Text>
    requires is { Is whole_rules text.now EXTENSION_GROUP node.now }
    requires no_member { first_member (out-Node node.now).children ≡ None }
    ensures { IfOk result (λ path. taken_over text.now node.now ≡ Some path) }
{
    let component = node.the_child(names::SEQUENCE_COMPONENT);
    read_component_path(alloc, text, component.the_child(names::COMPONENT_PATH))
}

/// The name of a member.
#[tactic(auto, using(crate::proofs::Views::member_has_name, asn_read_nodes::proofs::Views::identifier_has_blanks))]
fn read_member_name(alloc: Global, text: &[u8], node: &Node) -> Mem<Text>
    requires { Is whole_rules text.now SEQUENCE_OR_SET_MEMBER node.now }
    ensures { IfOk result (λ name. member_name text.now node.now ≡ Some name) }
{
    read_name(alloc, text, node.the_child(names::IDENTIFIER))
}

/// The name of a group.
fn with_prefix(alloc: Global, name: &str) -> Mem<Text>
    ensures { IfOk result (λ whole. whole ≡ codes "ext_group_" ++ name.now) }
{
    let mut whole = Text::new(alloc, "ext_group_")?;
    whole.push_str(name)?;
    Ok(whole)
}

/// The name under which a group of members stands: `ext_group_` and the name of its first member; where it has none, the
/// type behind its first COMPONENTS OF.
pub fn read_group_name(alloc: Global, text: &[u8], node: &Node) -> Mem<Text>
    requires { Is whole_rules text.now EXTENSION_GROUP node.now }
    ensures { IfOk result (λ name. group_name_of text.now node.now ≡ Some name) }
{
    let name = match first_member(text, children(text, node)) {
        Some(member) => read_member_name(alloc, text, member)?,
        None => read_taken_over(alloc, text, node)?,
    };
    Ok(with_prefix(alloc, name.as_str())?)
}
