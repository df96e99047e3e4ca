//! The object identifiers of modules.

ghost use Rattle.asn_read_headers.specs.Identifiers.{definitive_of, identifier_of, iri_of, text_of};
ghost use Rattle.asn_read_nodes.specs.Parts.{if_there};
ghost use Rattle.asn_rules.specs.Children.{Is, StandsBy};
ghost use Rattle.asn_rules.specs.Nodes.{child_of};
ghost use Rattle.asn_rules.specs.Whole.{whole_rules};
ghost use Rattle.asn_rules.specs.declared.names.TheConstants.{DEFINITIVE, IRI_VALUE, OBJECT_IDENTIFIER_VALUE};
ghost use Rattle.std.specs.Prelude.{◌≡◌, IfOk, Some};

use asn_memory::{Mem, Text};
use asn_read_nodes::read_object_identifier;
use asn_rules::{Node, names};
use asn_tree_headers::{DefinitiveIdentifier, ObjectIdentifierValue};
use std::alloc::Global;

/// The bytes of a node as a text.
pub(crate) fn read_text(alloc: Global, text: &[u8], node: &Node) -> Mem<Text>
    requires { StandsBy whole_rules text.now node.now }
    ensures { IfOk result (λ read. text_of text.now node.now ≡ Some read) }
{
    Text::from_bytes(alloc, &text[node.start..node.end])
}

/// An object identifier (X.680 32.3).
pub(crate) fn read_identifier(alloc: Global, text: &[u8], node: &Node) -> Mem<ObjectIdentifierValue>
    requires { Is whole_rules text.now OBJECT_IDENTIFIER_VALUE node.now }
    ensures { IfOk result (λ value. identifier_of text.now node.now ≡ Some value) }
{
    Ok(read_object_identifier(alloc, text, node)?)
}

/// The labels of an IRI with the slashes between them (X.680 34.3).
#[tactic(auto, using(crate::proofs::Views::iri_has_labels))]
fn read_iri(alloc: Global, text: &[u8], node: &Node) -> Mem<Text>
    requires { Is whole_rules text.now IRI_VALUE node.now }
    ensures { IfOk result (λ iri. iri_of text.now node.now ≡ Some iri) }
{
    read_text(alloc, text, node.the_child(names::IRI_LABELS))
}

/// The IRI behind an object identifier, where one stands.
fn read_iri_behind(alloc: Global, text: &[u8], node: &Node) -> Mem<Option<Text>>
    requires { Is whole_rules text.now DEFINITIVE node.now }
    ensures { IfOk result (λ iri. if_there (child_of node.now IRI_VALUE) (iri_of text.now) ≡ Some iri) }
{
    match node.child(names::IRI_VALUE) {
        Some(iri) => Ok(Some(read_iri(alloc, text, iri)?)),
        None => Ok(None),
    }
}

/// The identifier of a module: an object identifier, with an IRI where one stands (X.680 13.1).
#[tactic(auto, using(crate::proofs::Views::definitive_has_identifier))]
pub(crate) fn read_definitive(alloc: Global, text: &[u8], node: &Node) -> Mem<DefinitiveIdentifier>
    requires { Is whole_rules text.now DEFINITIVE node.now }
    ensures { IfOk result (λ identifier. definitive_of text.now node.now ≡ Some identifier) }
{
    let oid = read_identifier(alloc, text, node.the_child(names::OBJECT_IDENTIFIER_VALUE))?;
    match read_iri_behind(alloc, text, node)? {
        Some(iri) => Ok(DefinitiveIdentifier::DefinitiveOIDandIRI { oid, iri }),
        None => Ok(DefinitiveIdentifier::DefinitiveOID(oid)),
    }
}
