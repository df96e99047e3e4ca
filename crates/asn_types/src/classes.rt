//! Classes: their fields, and the built-in one.

ghost use Rattle.asn_rules.specs.Children.{Is, StandsBy};
ghost use Rattle.asn_read_nodes.specs.Parts.{if_there};
ghost use Rattle.asn_rules.specs.Nodes.{child_of};
ghost use Rattle.asn_rules.specs.Whole.{whole_rules};
ghost use Rattle.asn_rules.specs.declared.names.TheConstants.{ASN1_TYPE, CLASS_FIELD, FIELD_LIST, INFORMATION_OBJECT_CLASS};
ghost use Rattle.asn_types.specs.Classes.{a_field, class_field_of, class_fields_in, class_fields_of, class_of, type_identifier};
ghost use Rattle.asn_types.specs.Reading.{type_of};
ghost use Rattle.std.specs.Prelude.{◌≡◌, All, IfOk, Some};

use crate::members::read_default;
use crate::types::read_type;
use asn_memory::{List, Mem, Text};
use asn_read_nodes::children;
use asn_read_pieces::{is_unique, read_field, read_optional, read_syntax};
use asn_rules::{Node, names};
use asn_tree::{
    ASN1Type, ASN1Value, InformationObjectClass, InformationObjectClassField, ObjectIdentifier,
};
use asn_tree_leaves::{
    InformationObjectSyntax, ObjectFieldIdentifier, OptionalMarker, SyntaxExpression, SyntaxToken,
};
use std::alloc::Global;

/// The fields of the built-in class: `&id`, a unique OBJECT IDENTIFIER, and `&Type`, a type (X.681 A.2).
fn built_in_fields(alloc: Global) -> Mem<List<InformationObjectClassField>>
    ensures { IfOk result (λ fields. fields ≡ type_identifier.fields) }
{
    let ty = ASN1Type::ObjectIdentifier(ObjectIdentifier {
        constraints: List::new(alloc),
    });
    let mut fields = List::of(
        alloc,
        InformationObjectClassField {
            identifier: ObjectFieldIdentifier::SingleValue(Text::new(alloc, "&id")?),
            ty: Some(ty),
            is_optional: false,
            default: None,
            is_unique: true,
        },
    )?;
    fields.add(InformationObjectClassField {
        identifier: ObjectFieldIdentifier::MultipleValue(Text::new(alloc, "&Type")?),
        ty: None,
        is_optional: false,
        default: None,
        is_unique: false,
    })?;
    Ok(fields)
}

/// The syntax of the built-in class: `{ &Type IDENTIFIED BY &id }` (X.681 A.2).
fn built_in_syntax(alloc: Global) -> Mem<InformationObjectSyntax>
    ensures { IfOk result (λ syntax. Some syntax ≡ type_identifier.syntax) }
{
    let ty = ObjectFieldIdentifier::MultipleValue(Text::new(alloc, "&Type")?);
    let id = ObjectFieldIdentifier::SingleValue(Text::new(alloc, "&id")?);
    let identified = SyntaxToken::Literal(Text::new(alloc, "IDENTIFIED")?);
    let by = SyntaxToken::Literal(Text::new(alloc, "BY")?);
    let mut expressions = List::of(alloc, SyntaxExpression::Required(SyntaxToken::Field(ty)))?;
    expressions.add(SyntaxExpression::Required(identified))?;
    expressions.add(SyntaxExpression::Required(by))?;
    expressions.add(SyntaxExpression::Required(SyntaxToken::Field(id)))?;
    Ok(InformationObjectSyntax { expressions })
}

/// The built-in class TYPE-IDENTIFIER (X.681 A.2).
pub fn built_in_class(alloc: Global) -> Mem<InformationObjectClass>
    ensures { IfOk result (λ class. class ≡ type_identifier) }
{
    let fields = built_in_fields(alloc)?;
    let syntax = Some(built_in_syntax(alloc)?);
    Ok(InformationObjectClass { fields, syntax })
}

/// The type or class of a field, where one stands (X.681 9.5 to 9.11).
fn read_field_type(alloc: Global, text: &[u8], node: &Node) -> Mem<Option<ASN1Type>>
    requires { Is whole_rules text.now CLASS_FIELD node.now }
    ensures { IfOk result (λ ty. if_there (child_of node.now ASN1_TYPE) (type_of text.now) ≡ Some ty) }
{
    match node.child(names::ASN1_TYPE) {
        Some(ty) => Ok(Some(read_type(alloc, text, ty)?)),
        None => Ok(None),
    }
}

/// The field of these parts: it may be left out where OPTIONAL or DEFAULT stands.
fn class_field(
    identifier: ObjectFieldIdentifier,
    ty: Option<ASN1Type>,
    optional: Option<OptionalMarker>,
    default: Option<ASN1Value>,
    is_unique: bool,
) -> InformationObjectClassField
    ensures { result ≡ a_field identifier ty optional default is_unique }
{
    InformationObjectClassField {
        identifier,
        ty,
        is_optional: optional.is_some() || default.is_some(),
        default,
        is_unique,
    }
}

/// A field: its name, its type or class, and which of UNIQUE, OPTIONAL and DEFAULT stand (X.681 9.4).
#[tactic(auto, using(crate::proofs::ViewsObjects::class_field_has_name, crate::proofs::ViewsObjects::class_field_has_marker, crate::proofs::ViewsObjects::class_field_has_default))]
fn read_class_field(alloc: Global, text: &[u8], node: &Node) -> Mem<InformationObjectClassField>
    requires { Is whole_rules text.now CLASS_FIELD node.now }
    ensures { IfOk result (λ field. class_field_of text.now node.now ≡ Some field) }
{
    let identifier = read_field(alloc, text, node.the_child(names::OBJECT_FIELD_IDENTIFIER))?;
    let ty = read_field_type(alloc, text, node)?;
    let marker = read_optional(node.the_child(names::OPTIONAL_MARKER));
    let default = read_default(alloc, text, node.the_child(names::DEFAULT))?;
    Ok(class_field(identifier, ty, marker, default, is_unique(node)))
}

/// The fields among the nodes.
#[tactic(auto, using(asn_read_nodes::proofs::Views::as_rule, asn_read_nodes::proofs::Equations::takes_next, asn_read_nodes::proofs::Equations::passes_next))]
fn read_each(alloc: Global, text: &[u8], nodes: &[Node]) -> Mem<List<InformationObjectClassField>>
    requires { All (StandsBy whole_rules text.now) nodes.now }
    ensures { IfOk result (λ fields. class_fields_in text.now nodes.now ≡ Some fields) }
{
    let mut fields = List::new(alloc);
    for node in nodes {
        if node.rule == names::CLASS_FIELD {
            fields.add(read_class_field(alloc, text, node)?)?;
        }
    }
    Ok(fields)
}

/// The fields of a class, in order (X.681 9.3).
fn read_class_fields(
    alloc: Global,
    text: &[u8],
    node: &Node,
) -> Mem<List<InformationObjectClassField>>
    requires { Is whole_rules text.now FIELD_LIST node.now }
    ensures { IfOk result (λ fields. class_fields_of text.now node.now ≡ Some fields) }
{
    Ok(read_each(alloc, text, children(text, node))?)
}

/// A class: its fields, and the syntax behind WITH SYNTAX, where it stands (X.681 9.3).
#[tactic(auto, using(crate::proofs::ViewsObjects::class_has_fields))]
pub fn read_class(alloc: Global, text: &[u8], node: &Node) -> Mem<InformationObjectClass>
    requires { Is whole_rules text.now INFORMATION_OBJECT_CLASS node.now }
    ensures { IfOk result (λ class. class_of text.now node.now ≡ Some class) }
{
    let fields = read_class_fields(alloc, text, node.the_child(names::FIELD_LIST))?;
    let syntax = match node.child(names::SYNTAX_PART) {
        Some(part) => Some(read_syntax(alloc, text, part)?),
        None => None,
    };
    Ok(InformationObjectClass { fields, syntax })
}
