//! Definitions of classes, objects and object sets.

ghost use Rattle.asn_modules.specs.Information.{a_definition, class_definition_of, class_in, information_of, object_definition_of, set_definition_of};
ghost use Rattle.asn_rules.specs.Children.{Is};
ghost use Rattle.asn_rules.specs.Whole.{whole_rules};
ghost use Rattle.asn_rules.specs.declared.names.TheConstants.{TOP_LEVEL_INFORMATION_DECLARATION, TOP_LEVEL_INFORMATION_OBJECT_DECLARATION, TOP_LEVEL_OBJECT_CLASS_DECLARATION, TOP_LEVEL_OBJECT_SET_DECLARATION};
ghost use Rattle.std.specs.Prelude.{◌≡◌, IfOk, Some};

use crate::headings::read_heading;
use asn_memory::{Mem, Text};
use asn_read_pieces::read_class_name;
use asn_rules::{Node, names};
use asn_tree::{
    ASN1Information, ClassLink, InformationObject, InformationObjectClass, Parameterization,
    ToplevelInformationDefinition,
};
use asn_types::{built_in_class, read_class, read_object, read_object_set};
use std::alloc::Global;

/// The definition of these parts.
fn definition(
    heading: (Text, Text, Option<Parameterization>),
    class: Option<ClassLink>,
    value: ASN1Information,
) -> ToplevelInformationDefinition
    ensures { result ≡ a_definition heading class value }
{
    let (comments, name, parameterization) = heading;
    ToplevelInformationDefinition {
        comments,
        name,
        parameterization,
        class,
        value,
        index: None,
    }
}

/// The definition of an object: comments, a name, parameters, a class and the object (X.681 11.1).
#[tactic(auto, using(crate::proofs::Views::object_has_comments, crate::proofs::Views::object_has_name, crate::proofs::Views::object_has_class, crate::proofs::Views::object_has_object, asn_read_nodes::proofs::Views::identifier_has_blanks))]
fn read_object_definition(
    alloc: Global,
    text: &[u8],
    node: &Node,
) -> Mem<ToplevelInformationDefinition>
    requires { Is whole_rules text.now TOP_LEVEL_INFORMATION_OBJECT_DECLARATION node.now }
    ensures { IfOk result (λ read. object_definition_of text.now node.now ≡ Some read) }
{
    let heading = read_heading(alloc, text, node, node.the_child(names::IDENTIFIER))?;
    let class_name = read_class_name(alloc, text, node.the_child(names::CLASS_NAME))?;
    let class = ClassLink::ByName(Text::new(alloc, class_name.as_str())?);
    let fields = read_object(alloc, text, node.the_child(names::INFORMATION_OBJECT))?;
    let object = InformationObject { class_name, fields };
    Ok(definition(heading, Some(class), ASN1Information::Object(object)))
}

/// The definition of an object set: comments, a name, parameters, a class and the set (X.681 12.1).
#[tactic(auto, using(crate::proofs::Views::set_has_comments, crate::proofs::Views::set_has_name, crate::proofs::Views::set_has_class, crate::proofs::Views::set_has_set, asn_read_nodes::proofs::Views::identifier_has_blanks))]
fn read_set_definition(
    alloc: Global,
    text: &[u8],
    node: &Node,
) -> Mem<ToplevelInformationDefinition>
    requires { Is whole_rules text.now TOP_LEVEL_OBJECT_SET_DECLARATION node.now }
    ensures { IfOk result (λ read. set_definition_of text.now node.now ≡ Some read) }
{
    let heading = read_heading(alloc, text, node, node.the_child(names::IDENTIFIER))?;
    let class_name = read_class_name(alloc, text, node.the_child(names::CLASS_NAME))?;
    let class = ClassLink::ByName(class_name);
    let set = read_object_set(alloc, text, node.the_child(names::OBJECT_SET))?;
    Ok(definition(heading, Some(class), ASN1Information::ObjectSet(set)))
}

/// A class of its own, or the built-in one (X.681 9.2).
fn read_class_in(alloc: Global, text: &[u8], node: &Node) -> Mem<InformationObjectClass>
    requires { Is whole_rules text.now TOP_LEVEL_OBJECT_CLASS_DECLARATION node.now }
    ensures { IfOk result (λ class. class_in text.now node.now ≡ Some class) }
{
    match node.child(names::INFORMATION_OBJECT_CLASS) {
        Some(class) => Ok(read_class(alloc, text, class)?),
        None => Ok(built_in_class(alloc)?),
    }
}

/// The definition of a class: comments, a name in capitals, parameters and the class (X.681 9.1).
#[tactic(auto, using(crate::proofs::Views::class_has_comments, crate::proofs::Views::class_has_name, asn_read_pieces::proofs::Views::capitals_have_blanks))]
fn read_class_definition(
    alloc: Global,
    text: &[u8],
    node: &Node,
) -> Mem<ToplevelInformationDefinition>
    requires { Is whole_rules text.now TOP_LEVEL_OBJECT_CLASS_DECLARATION node.now }
    ensures { IfOk result (λ read. class_definition_of text.now node.now ≡ Some read) }
{
    let name = node.the_child(names::UPPERCASE_IDENTIFIER);
    let heading = read_heading(alloc, text, node, name)?;
    let class = read_class_in(alloc, text, node)?;
    Ok(definition(heading, None, ASN1Information::ObjectClass(class)))
}

/// The definition of a class, an object or an object set.
#[tactic(auto, using(crate::proofs::Views::information_has_class))]
pub(crate) fn read_information(
    alloc: Global,
    text: &[u8],
    node: &Node,
) -> Mem<ToplevelInformationDefinition>
    requires { Is whole_rules text.now TOP_LEVEL_INFORMATION_DECLARATION node.now }
    ensures { IfOk result (λ read. information_of text.now node.now ≡ Some read) }
{
    if let Some(object) = node.child(names::TOP_LEVEL_INFORMATION_OBJECT_DECLARATION) {
        return Ok(read_object_definition(alloc, text, object)?);
    }
    match node.child(names::TOP_LEVEL_OBJECT_SET_DECLARATION) {
        Some(set) => Ok(read_set_definition(alloc, text, set)?),
        None => {
            let class = node.the_child(names::TOP_LEVEL_OBJECT_CLASS_DECLARATION);
            Ok(read_class_definition(alloc, text, class)?)
        }
    }
}
