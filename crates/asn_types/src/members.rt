//! The members of SEQUENCE and SET: what stands between the braces, components, groups of additions, members.

ghost use Rattle.asn_rules.specs.Children.{Is, StandsBy};
ghost use Rattle.asn_rules.specs.Nodes.{child_of};
ghost use Rattle.asn_rules.specs.Whole.{whole_rules};
ghost use Rattle.asn_rules.specs.declared.names.TheConstants.{COMPONENT_PATH, DEFAULT, EXTENSION_GROUP, SEQUENCE_COMPONENT, SEQUENCE_OR_SET_MEMBER, STRUCT_BODY};
ghost use Rattle.asn_tree.specs.MakingTypes as making;
ghost use Rattle.asn_types.specs.Children.{components_in};
ghost use Rattle.asn_types.specs.Members.{a_body, a_group, default_of, taken_over};
ghost use Rattle.asn_types.specs.Reading.{body_of, component_of, components_of, group_of, member_of};
ghost use Rattle.std.specs.Prelude.{◌≡◌, All, IfOk, IsSome, Some};

use crate::choices::read_tag_before;
use crate::types::{read_behind, read_type};
use asn_memory::{List, Mem, Text};
use asn_read_nodes::{children, read_name};
use asn_read_pieces::{read_component_path, read_extension, read_group_name, read_optional};
use asn_rules::{Node, names};
use asn_tree::{
    ASN1Type, ASN1Value, Constraint, SequenceComponent, SequenceOrSet, SequenceOrSetMember,
};
use asn_tree_headers::AsnTag;
use asn_tree_leaves::{ExtensionMarker, OptionalMarker};
use asn_values::read_value;
use std::alloc::Global;

/// The value behind the word DEFAULT, where it stands (X.680 25.1).
pub(crate) fn read_default(alloc: Global, text: &[u8], node: &Node) -> Mem<Option<ASN1Value>>
    requires { Is whole_rules text.now DEFAULT node.now }
    ensures { IfOk result (λ value. default_of text.now node.now ≡ Some value) }
{
    match node.child(names::ASN1_VALUE) {
        Some(value) => Ok(Some(read_value(alloc, text, value)?)),
        None => Ok(None),
    }
}

/// A member of these parts; it is optional where the word OPTIONAL or a default stands (X.680 25.1).
fn member(
    name: Text,
    tag: Option<AsnTag>,
    ty: ASN1Type,
    constraints: List<Constraint>,
    optional: Option<OptionalMarker>,
    default_value: Option<ASN1Value>,
) -> SequenceOrSetMember
    ensures { result ≡ making.member_of name tag ty (Some constraints) optional default_value }
{
    SequenceOrSetMember {
        name,
        tag,
        ty,
        is_optional: optional.is_some() || default_value.is_some(),
        default_value,
        is_recursive: false,
        constraints,
    }
}

/// A member: its name, its tag, its type, the constraints behind the type, OPTIONAL, and its default (X.680 25.1).
#[cycle(reading)]
#[tactic(auto, using(crate::proofs::Equations::member_is, asn_read_pieces::proofs::Views::member_has_name, crate::proofs::ViewsTypes::member_has_type, crate::proofs::ViewsTypes::member_has_marker, crate::proofs::ViewsTypes::member_has_default, asn_read_nodes::proofs::Views::identifier_has_blanks))]
pub(crate) fn read_member(alloc: Global, text: &[u8], node: &Node) -> Mem<SequenceOrSetMember>
    requires { Is whole_rules text.now SEQUENCE_OR_SET_MEMBER node.now }
    ensures { IfOk result (λ made. member_of text.now node.now ≡ Some made) }
{
    let name = read_name(alloc, text, node.the_child(names::IDENTIFIER))?;
    let tag = read_tag_before(text, node);
    let ty = read_type(alloc, text, node.the_child(names::ASN1_TYPE))?;
    let constraints = read_behind(alloc, text, node)?;
    let optional = read_optional(node.the_child(names::OPTIONAL_MARKER));
    let default_value = read_default(alloc, text, node.the_child(names::DEFAULT))?;
    Ok(member(name, tag, ty, constraints, optional, default_value))
}

/// The name behind COMPONENTS OF (X.680 25.5).
fn read_taken_over(alloc: Global, text: &[u8], node: &Node) -> Mem<SequenceComponent>
    requires stands { StandsBy whole_rules text.now node.now }
    requires has_path { IsSome (child_of node.now COMPONENT_PATH) }
    ensures { IfOk result (λ component. taken_over text.now node.now ≡ Some component) }
{
    let path = node.the_child(names::COMPONENT_PATH);
    Ok(SequenceComponent::ComponentsOf(read_component_path(alloc, text, path)?))
}

/// A component: a member, or COMPONENTS OF and the name of a type (X.680 25.1).
#[cycle(reading)]
#[tactic(auto, using(crate::proofs::Equations::component_is, crate::proofs::ViewsTypes::component_has_path))]
pub(crate) fn read_component(alloc: Global, text: &[u8], node: &Node) -> Mem<SequenceComponent>
    requires { Is whole_rules text.now SEQUENCE_COMPONENT node.now }
    ensures { IfOk result (λ component. component_of text.now node.now ≡ Some component) }
{
    match node.child(names::SEQUENCE_OR_SET_MEMBER) {
        Some(member) => Ok(SequenceComponent::Member(read_member(alloc, text, member)?)),
        None => Ok(read_taken_over(alloc, text, node)?),
    }
}

/// The components of a list or group, in order; a group within a list is the one member that it is (X.680 25.1).
#[cycle(reading)]
#[tactic(auto, using(crate::proofs::Equations::components_is))]
fn read_components(alloc: Global, text: &[u8], node: &Node) -> Mem<List<SequenceComponent>>
    requires { StandsBy whole_rules text.now node.now }
    ensures { IfOk result (λ components. components_of text.now node.now ≡ Some components) }
{
    read_component_list(alloc, text, children(text, node))
}

#[cycle(reading)]
#[tactic(auto, using(asn_read_nodes::proofs::Views::as_rule, crate::proofs::Equations::takes_component, crate::proofs::Equations::takes_group, crate::proofs::Equations::passes_component))]
fn read_component_list(alloc: Global, text: &[u8], nodes: &[Node]) -> Mem<List<SequenceComponent>>
    requires { All (StandsBy whole_rules text.now) nodes.now }
    ensures { IfOk result (λ components. components_in text.now nodes.now ≡ Some components) }
{
    let mut components = List::new(alloc);
    for node in nodes {
        if node.rule == names::SEQUENCE_COMPONENT {
            components.add(read_component(alloc, text, node)?)?;
        } else if node.rule == names::EXTENSION_GROUP {
            components.add(SequenceComponent::Member(read_group(alloc, text, node)?))?;
        }
    }
    Ok(components)
}

/// The member that a group of additions is: a SEQUENCE of its components, not optional and without tag (X.680 25.8).
fn group(alloc: Global, name: Text, components: List<SequenceComponent>) -> Mem<SequenceOrSetMember>
    ensures { IfOk result (λ made. made ≡ a_group name components) }
{
    let sequence = SequenceOrSet::from_parts(alloc, (components, None, None), None)?;
    let ty = ASN1Type::Sequence(sequence);
    Ok(member(name, None, ty, List::new(alloc), None, None))
}

/// A group of additions under its name (X.680 25.8).
#[cycle(reading)]
#[tactic(auto, using(crate::proofs::Equations::group_is))]
fn read_group(alloc: Global, text: &[u8], node: &Node) -> Mem<SequenceOrSetMember>
    requires { Is whole_rules text.now EXTENSION_GROUP node.now }
    ensures { IfOk result (λ made. group_of text.now node.now ≡ Some made) }
{
    let name = read_group_name(alloc, text, node)?;
    let components = read_components(alloc, text, node)?;
    Ok(group(alloc, name, components)?)
}

/// What stands between the braces, of the components before the extension marker and those behind it. Without a marker
/// nothing is an addition (X.680 25.1).
fn body(
    alloc: Global,
    components: List<SequenceComponent>,
    marker: Option<ExtensionMarker>,
    further: List<SequenceComponent>,
) -> Mem<SequenceOrSet>
    ensures { IfOk result (λ made. made ≡ a_body components marker further) }
{
    match marker {
        Some(marker) => {
            let parts = (components, Some(marker), Some(further));
            Ok(SequenceOrSet::from_parts(alloc, parts, None)?)
        }
        None => {
            let mut all = components;
            all.append(further)?;
            Ok(SequenceOrSet::from_parts(alloc, (all, None, None), None)?)
        }
    }
}

/// What stands between the braces of a SEQUENCE or SET (X.680 25.1, 27.1).
#[cycle(reading)]
#[tactic(auto, using(crate::proofs::Equations::body_is, crate::proofs::ViewsTypes::body_has_components, crate::proofs::ViewsTypes::body_has_additions))]
pub(crate) fn read_body(alloc: Global, text: &[u8], node: &Node) -> Mem<SequenceOrSet>
    requires { Is whole_rules text.now STRUCT_BODY node.now }
    ensures { IfOk result (λ made. body_of text.now node.now ≡ Some made) }
{
    let components = read_components(alloc, text, node.the_child(names::COMPONENT_LIST))?;
    let further = read_components(alloc, text, node.the_child(names::ADDITION_LIST))?;
    Ok(body(alloc, components, read_extension(node), further)?)
}
