//! Definitions of types.

ghost use Rattle.asn_read_nodes.specs.Parts.{if_there};
ghost use Rattle.asn_modules.specs.Types.{a_type_definition, type_definition_of};
ghost use Rattle.asn_read_pieces.specs.Tags.{tag_of};
ghost use Rattle.asn_rules.specs.Children.{Is};
ghost use Rattle.asn_rules.specs.Nodes.{child_of};
ghost use Rattle.asn_rules.specs.Whole.{whole_rules};
ghost use Rattle.asn_rules.specs.declared.names.TheConstants.{ASN_TAG, TOP_LEVEL_TYPE_DECLARATION};
ghost use Rattle.std.specs.Prelude.{◌≡◌, IfOk, Some};

use crate::headings::read_heading;
use asn_memory::{Mem, Text};
use asn_read_pieces::read_tag;
use asn_rules::{Node, names};
use asn_tree::{ASN1Type, Parameterization, ToplevelTypeDefinition};
use asn_tree_headers::AsnTag;
use asn_types::read_type;
use std::alloc::Global;

/// The tag before the type of a definition, where one stands (X.680 31.2).
fn read_tag_before(text: &[u8], node: &Node) -> Option<AsnTag>
    requires { Is whole_rules text.now TOP_LEVEL_TYPE_DECLARATION node.now }
    ensures { if_there (child_of node.now ASN_TAG) (tag_of text.now) ≡ Some result }
{
    match node.child(names::ASN_TAG) {
        Some(tag) => Some(read_tag(text, tag)),
        None => None,
    }
}

/// The definition of these parts.
fn type_definition(
    heading: (Text, Text, Option<Parameterization>),
    tag: Option<AsnTag>,
    ty: ASN1Type,
) -> ToplevelTypeDefinition
    ensures { result ≡ a_type_definition heading tag ty }
{
    let (comments, name, parameterization) = heading;
    ToplevelTypeDefinition {
        comments,
        tag,
        name,
        ty,
        parameterization,
        index: None,
    }
}

/// A type definition: comments, a name, parameters, a tag and a type (X.680 16.1).
#[tactic(auto, using(crate::proofs::Views::type_has_comments, crate::proofs::Views::type_has_name, crate::proofs::Views::type_has_type, asn_read_pieces::proofs::Views::title_has_blanks))]
pub(crate) fn read_type_definition(
    alloc: Global,
    text: &[u8],
    node: &Node,
) -> Mem<ToplevelTypeDefinition>
    requires { Is whole_rules text.now TOP_LEVEL_TYPE_DECLARATION node.now }
    ensures { IfOk result (λ definition. type_definition_of text.now node.now ≡ Some definition) }
{
    let name = node.the_child(names::TITLE_CASE_IDENTIFIER);
    let heading = read_heading(alloc, text, node, name)?;
    let tag = read_tag_before(text, node);
    let ty = read_type(alloc, text, node.the_child(names::ASN1_TYPE))?;
    Ok(type_definition(heading, tag, ty))
}
