//! What a module takes for granted: its encoding reference, how its tags are read, and whether it implies extension markers.

ghost use Rattle.asn_read_headers.specs.Defaults.{encoding_of, environments_of, extensibility_in, tagging_by, tagging_in, tagging_of};
ghost use Rattle.asn_read_nodes.specs.Parts.{if_there};
ghost use Rattle.asn_rules.specs.Children.{Is};
ghost use Rattle.asn_rules.specs.Nodes.{child_of};
ghost use Rattle.asn_rules.specs.Whole.{whole_rules};
ghost use Rattle.asn_rules.specs.declared.names.TheConstants.{ENCODING_REFERENCE, ENVIRONMENTS, TAG_DEFAULT};
ghost use Rattle.std.specs.Option.{is_some};
ghost use Rattle.std.specs.Prelude.{◌≡◌, true, IfOk, Some};

use asn_memory::Mem;
use asn_read_nodes::read_name;
use asn_rules::{Node, names};
use asn_tree_headers::{EncodingReferenceDefault, ExtensibilityEnvironment, TaggingEnvironment};
use std::alloc::Global;

/// An encoding reference: the name before INSTRUCTIONS (X.680 13.1).
#[tactic(auto, using(crate::proofs::Views::encoding_has_name, asn_read_nodes::proofs::Views::identifier_has_blanks))]
fn read_encoding(alloc: Global, text: &[u8], node: &Node) -> Mem<EncodingReferenceDefault>
    requires { Is whole_rules text.now ENCODING_REFERENCE node.now }
    ensures { IfOk result (λ encoding. encoding_of text.now node.now ≡ Some encoding) }
{
    let name = read_name(alloc, text, node.the_child(names::IDENTIFIER))?;
    Ok(EncodingReferenceDefault(name))
}

/// The encoding reference of a module, where one stands.
fn read_encoding_in(
    alloc: Global,
    text: &[u8],
    node: &Node,
) -> Mem<Option<EncodingReferenceDefault>>
    requires { Is whole_rules text.now ENVIRONMENTS node.now }
    ensures { IfOk result (λ encoding. if_there (child_of node.now ENCODING_REFERENCE) (encoding_of text.now) ≡ Some encoding) }
{
    match node.child(names::ENCODING_REFERENCE) {
        Some(encoding) => Ok(Some(read_encoding(alloc, text, encoding)?)),
        None => Ok(None),
    }
}

fn tagging(leaf: u8) -> TaggingEnvironment
    requires { is_some (tagging_by leaf) ≡ true }
    ensures { tagging_by leaf ≡ Some result }
{
    match leaf {
        names::MARK_AUTOMATIC => TaggingEnvironment::Automatic,
        names::MARK_IMPLICIT => TaggingEnvironment::Implicit,
        names::MARK_EXPLICIT => TaggingEnvironment::Explicit,
        _ => unreachable!(),
    }
}

/// How the tags of a module are read, by the word before TAGS (X.680 13.2).
#[tactic(auto, using(crate::proofs::Views::tagging_has_leaf, crate::proofs::Views::leaf_is_tagging))]
fn read_tagging(text: &[u8], node: &Node) -> TaggingEnvironment
    requires { Is whole_rules text.now TAG_DEFAULT node.now }
    ensures { tagging_of node.now ≡ Some result }
{
    tagging(node.first_child().rule)
}

/// How the tags of a module are read; without a word they are explicit (X.680 13.2).
fn read_tagging_in(text: &[u8], node: &Node) -> TaggingEnvironment
    requires { Is whole_rules text.now ENVIRONMENTS node.now }
    ensures { tagging_in node.now ≡ Some result }
{
    match node.child(names::TAG_DEFAULT) {
        Some(tags) => read_tagging(text, tags),
        None => TaggingEnvironment::Explicit,
    }
}

/// Whether a module implies extension markers, which two words say (X.680 13.4).
fn read_extensibility(node: &Node) -> ExtensibilityEnvironment
    ensures { result ≡ extensibility_in node.now }
{
    match node.child(names::MARK_EXTENSIBILITY) {
        Some(_) => ExtensibilityEnvironment::Implied,
        None => ExtensibilityEnvironment::Explicit,
    }
}

/// The three defaults of a module (X.680 13.1).
pub(crate) fn read_environments(
    alloc: Global,
    text: &[u8],
    node: &Node,
) -> Mem<
    (
        Option<EncodingReferenceDefault>,
        TaggingEnvironment,
        ExtensibilityEnvironment,
    ),
>
    requires { Is whole_rules text.now ENVIRONMENTS node.now }
    ensures { IfOk result (λ environments. environments_of text.now node.now ≡ Some environments) }
{
    let encoding = read_encoding_in(alloc, text, node)?;
    let tagging = read_tagging_in(text, node);
    Ok((encoding, tagging, read_extensibility(node)))
}
