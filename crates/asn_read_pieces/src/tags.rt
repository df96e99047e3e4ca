//! Tags.

ghost use Rattle.asn_read_pieces.specs.Tags.{class_of, environment_of, tag_of};
ghost use Rattle.asn_rules.specs.Children.{Is};
ghost use Rattle.asn_rules.specs.Whole.{whole_rules};
ghost use Rattle.asn_rules.specs.declared.names.TheConstants.{ASN_TAG};
ghost use Rattle.std.specs.Prelude.{◌≡◌, Some};

use asn_read_nodes::read_u64;
use asn_rules::{Node, names};
use asn_tree_headers::{AsnTag, TagClass, TaggingEnvironment};

/// The class that the word in the brackets names; without a word the tag is context-specific (X.680 31.2).
fn read_class(node: &Node) -> TagClass
    ensures { result ≡ class_of node.now }
{
    if let Some(_) = node.child(names::MARK_PRIVATE) {
        return TagClass::Private;
    }
    if let Some(_) = node.child(names::MARK_APPLICATION) {
        return TagClass::Application;
    }
    match node.child(names::MARK_UNIVERSAL) {
        Some(_) => TagClass::Universal,
        None => TagClass::ContextSpecific,
    }
}

/// How the tag is told by the word behind the brackets; without a word it is automatic: the module decides (X.680 31.2).
fn read_environment(node: &Node) -> TaggingEnvironment
    ensures { result ≡ environment_of node.now }
{
    if let Some(_) = node.child(names::MARK_EXPLICIT) {
        return TaggingEnvironment::Explicit;
    }
    match node.child(names::MARK_IMPLICIT) {
        Some(_) => TaggingEnvironment::Implicit,
        None => TaggingEnvironment::Automatic,
    }
}

/// The tag that a node is: class, number and environment (X.680 31.2).
#[tactic(auto, using(crate::proofs::Views::tag_has_number))]
pub fn read_tag(text: &[u8], node: &Node) -> AsnTag
    requires { Is whole_rules text.now ASN_TAG node.now }
    ensures { tag_of text.now node.now ≡ Some result }
{
    let id = read_u64(text, node.the_child(names::NUMBER_U64));
    AsnTag {
        environment: read_environment(node),
        tag_class: read_class(node),
        id,
    }
}
