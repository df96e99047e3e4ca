//! CHOICE and its options.

ghost use Rattle.asn_read_nodes.specs.Parts.{if_there};
ghost use Rattle.asn_read_pieces.specs.Tags.{tag_of};
ghost use Rattle.asn_rules.specs.Children.{Is, StandsBy};
ghost use Rattle.asn_rules.specs.Nodes.{child_of};
ghost use Rattle.asn_rules.specs.Whole.{whole_rules};
ghost use Rattle.asn_rules.specs.declared.names.TheConstants.{ASN_TAG, CHOICE, CHOICE_OPTION};
ghost use Rattle.asn_types.specs.Children.{options_in};
ghost use Rattle.asn_types.specs.Forms.{choice_type_of};
ghost use Rattle.asn_types.specs.Reading.{option_of, options_of};
ghost use Rattle.asn_tree.specs.MakingTypes as making;
ghost use Rattle.std.specs.Prelude.{◌≡◌, All, IfOk, Some};

use crate::types::{read_behind, read_type};
use asn_memory::{List, Mem, Text};
use asn_read_nodes::{children, read_name};
use asn_read_pieces::{read_extension, read_tag};
use asn_rules::{Node, names};
use asn_tree::{ASN1Type, Choice, ChoiceOption, Constraint};
use asn_tree_headers::AsnTag;
use std::alloc::Global;

/// The tag before a type, where it stands (X.680 31.2).
pub(crate) fn read_tag_before(text: &[u8], node: &Node) -> Option<AsnTag>
    requires { StandsBy whole_rules text.now node.now }
    ensures { if_there (child_of node.now ASN_TAG) (tag_of text.now) ≡ Some result }
{
    match node.child(names::ASN_TAG) {
        Some(tag) => Some(read_tag(text, tag)),
        None => None,
    }
}

/// An option of these parts.
fn option(
    name: Text,
    tag: Option<AsnTag>,
    ty: ASN1Type,
    constraints: List<Constraint>,
) -> ChoiceOption
    ensures { result ≡ making.option_of name tag ty (Some constraints) }
{
    ChoiceOption {
        name,
        tag,
        ty,
        constraints,
        is_recursive: false,
    }
}

/// An option: its name, its tag, its type, and the constraints behind the type (X.680 29.1).
#[cycle(reading)]
#[tactic(auto, using(crate::proofs::Equations::option_is, crate::proofs::ViewsTypes::option_has_name, crate::proofs::ViewsTypes::option_has_type, asn_read_nodes::proofs::Views::identifier_has_blanks))]
fn read_option(alloc: Global, text: &[u8], node: &Node) -> Mem<ChoiceOption>
    requires { Is whole_rules text.now CHOICE_OPTION node.now }
    ensures { IfOk result (λ made. option_of text.now node.now ≡ Some made) }
{
    let name = read_name(alloc, text, node.the_child(names::IDENTIFIER))?;
    let tag = read_tag_before(text, node);
    let ty = read_type(alloc, text, node.the_child(names::ASN1_TYPE))?;
    let constraints = read_behind(alloc, text, node)?;
    Ok(option(name, tag, ty, constraints))
}

/// The options of a list or group, in order; those of a group within it stand flat among them (X.680 29.1).
#[cycle(reading)]
#[tactic(auto, using(crate::proofs::Equations::options_is))]
fn read_options(alloc: Global, text: &[u8], node: &Node) -> Mem<List<ChoiceOption>>
    requires { StandsBy whole_rules text.now node.now }
    ensures { IfOk result (λ options. options_of text.now node.now ≡ Some options) }
{
    read_option_list(alloc, text, children(text, node))
}

#[cycle(reading)]
#[tactic(auto, using(asn_read_nodes::proofs::Views::as_rule, crate::proofs::Equations::takes_option, crate::proofs::Equations::takes_options, crate::proofs::Equations::passes_option))]
fn read_option_list(alloc: Global, text: &[u8], nodes: &[Node]) -> Mem<List<ChoiceOption>>
    requires { All (StandsBy whole_rules text.now) nodes.now }
    ensures { IfOk result (λ options. options_in text.now nodes.now ≡ Some options) }
{
    let mut options = List::new(alloc);
    for node in nodes {
        if node.rule == names::CHOICE_OPTION {
            options.add(read_option(alloc, text, node)?)?;
        } else if node.rule == names::OPTION_GROUP {
            options.append(read_options(alloc, text, node)?)?;
        }
    }
    Ok(options)
}

/// CHOICE with its options; it is extensible behind those before the extension marker (X.680 29.1).
#[cycle(reading)]
#[tactic(auto, using(crate::proofs::ViewsTypes::choice_has_options, crate::proofs::ViewsTypes::choice_has_additions))]
pub(crate) fn read_choice(alloc: Global, text: &[u8], node: &Node) -> Mem<ASN1Type>
    requires { Is whole_rules text.now CHOICE node.now }
    ensures { IfOk result (λ ty. choice_type_of text.now node.now ≡ Some ty) }
{
    let options = read_options(alloc, text, node.the_child(names::OPTION_LIST))?;
    let additions = read_options(alloc, text, node.the_child(names::OPTION_ADDITIONS))?;
    let choice = Choice::from_parts(alloc, options, read_extension(node), Some(additions))?;
    Ok(ASN1Type::Choice(choice))
}
