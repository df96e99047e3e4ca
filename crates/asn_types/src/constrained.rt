//! The forms of types that hold nothing of types but constraints, each with those that were read; and each off its node.
//!
//! They stand outside the cycle: `types.rt` reads the constraints and calls [`with_constraints`].

ghost use Rattle.asn_rules.specs.Children.{Is, StandsBy};
ghost use Rattle.asn_rules.specs.Whole.{whole_rules};
ghost use Rattle.asn_rules.specs.declared.names.TheConstants.{BIT_STRING, BOOLEAN, CHARACTER_STRING, ELSEWHERE_DECLARED_TYPE, GENERALIZED_TIME, INFORMATION_OBJECT_FIELD_REFERENCE, INSTANCE_OF, INTEGER, OBJECT_IDENTIFIER, OCTET_STRING, REAL, TIME, UTC_TIME};
ghost use Rattle.asn_types.specs.Forms.{bit_string_type_of, boolean_type_of, character_string_type_of, elsewhere_type_of, field_reference_of, generalized_time_type_of, instance_of_type_of, integer_type_of, object_identifier_type_of, octet_string_type_of, real_type_of, time_type_of, utc_time_type_of};
ghost use Rattle.asn_types.specs.Types.{IsConstrained, bit_string_with, boolean_with, character_string_with, constrained_form, elsewhere_with, field_reference_with, field_type_with, generalized_time_with, instance_of_with, integer_with, named_numbers, object_identifier_with, octet_string_with, real_with, time_with, type_field, type_named, utc_time_with};
ghost use Rattle.std.specs.Prelude.{◌≡◌, IfOk, Some};

use crate::types::read_behind;
use asn_calls::ASN1TypeCalls;
use asn_memory::{List, Mem, Text};
use asn_read_nodes::{read_name, read_parent};
use asn_read_pieces::{
    read_class_name, read_distinguished_values, read_field_path, read_string_type,
};
use asn_rules::{Node, names};
use asn_tree::{
    ASN1Type, BitString, Boolean, CharacterString, Constraint, GeneralizedTime,
    InformationObjectFieldReference, Integer, ObjectIdentifier, OctetString, Real, Time, UTCTime,
};
use asn_tree_kinds::DistinguishedValue;
use asn_tree_leaves::ObjectFieldIdentifier;
use std::alloc::Global;

/// The type that a node of one of these forms is, with these constraints (X.680 17.1).
#[tactic(auto, using(asn_read_nodes::proofs::Views::as_rule))]
pub(crate) fn with_constraints(
    alloc: Global,
    text: &[u8],
    node: &Node,
    constraints: List<Constraint>,
) -> Mem<ASN1Type>
    requires { IsConstrained text.now node.now }
    ensures { IfOk result (λ ty. constrained_form text.now node.now (Some constraints) ≡ Some ty) }
{
    match node.rule {
        names::OBJECT_IDENTIFIER => Ok(object_identifier(constraints)),
        names::UTC_TIME => Ok(utc_time(constraints)),
        names::INSTANCE_OF => instance_of(alloc, text, node, constraints),
        names::GENERALIZED_TIME => Ok(generalized_time(constraints)),
        names::REAL => Ok(real(constraints)),
        names::INTEGER => integer(alloc, text, node, constraints),
        names::BOOLEAN => Ok(boolean(constraints)),
        names::BIT_STRING => bit_string(alloc, text, node, constraints),
        names::TIME => Ok(time(constraints)),
        names::OCTET_STRING => Ok(octet_string(constraints)),
        names::CHARACTER_STRING => Ok(character_string(text, node, constraints)),
        names::INFORMATION_OBJECT_FIELD_REFERENCE => field_type(alloc, text, node, constraints),
        names::ELSEWHERE_DECLARED_TYPE => elsewhere(alloc, text, node, constraints),
        _ => unreachable!(),
    }
}

/// BOOLEAN with these constraints (X.680 18.1).
fn boolean(constraints: List<Constraint>) -> ASN1Type
    ensures { boolean_with (Some constraints) ≡ Some result }
{
    ASN1Type::Boolean(Boolean { constraints })
}

/// BOOLEAN with its constraints (X.680 18.1).
pub(crate) fn read_boolean(alloc: Global, text: &[u8], node: &Node) -> Mem<ASN1Type>
    requires { Is whole_rules text.now BOOLEAN node.now }
    ensures { IfOk result (λ ty. boolean_type_of text.now node.now ≡ Some ty) }
{
    let constraints = read_behind(alloc, text, node)?;
    Ok(boolean(constraints))
}

/// REAL with these constraints (X.680 21.1).
fn real(constraints: List<Constraint>) -> ASN1Type
    ensures { real_with (Some constraints) ≡ Some result }
{
    ASN1Type::Real(Real { constraints })
}

/// REAL with its constraints (X.680 21.1).
pub(crate) fn read_real(alloc: Global, text: &[u8], node: &Node) -> Mem<ASN1Type>
    requires { Is whole_rules text.now REAL node.now }
    ensures { IfOk result (λ ty. real_type_of text.now node.now ≡ Some ty) }
{
    let constraints = read_behind(alloc, text, node)?;
    Ok(real(constraints))
}

/// OCTET STRING with these constraints (X.680 23.1).
fn octet_string(constraints: List<Constraint>) -> ASN1Type
    ensures { octet_string_with (Some constraints) ≡ Some result }
{
    ASN1Type::OctetString(OctetString { constraints })
}

/// OCTET STRING with its constraints (X.680 23.1).
pub(crate) fn read_octet_string(alloc: Global, text: &[u8], node: &Node) -> Mem<ASN1Type>
    requires { Is whole_rules text.now OCTET_STRING node.now }
    ensures { IfOk result (λ ty. octet_string_type_of text.now node.now ≡ Some ty) }
{
    let constraints = read_behind(alloc, text, node)?;
    Ok(octet_string(constraints))
}

/// OBJECT IDENTIFIER with these constraints (X.680 32.1, 33.1).
fn object_identifier(constraints: List<Constraint>) -> ASN1Type
    ensures { object_identifier_with (Some constraints) ≡ Some result }
{
    ASN1Type::ObjectIdentifier(ObjectIdentifier { constraints })
}

/// OBJECT IDENTIFIER with its constraints; RELATIVE-OID is read as it (X.680 32.1, 33.1).
pub(crate) fn read_object_identifier(alloc: Global, text: &[u8], node: &Node) -> Mem<ASN1Type>
    requires { Is whole_rules text.now OBJECT_IDENTIFIER node.now }
    ensures { IfOk result (λ ty. object_identifier_type_of text.now node.now ≡ Some ty) }
{
    let constraints = read_behind(alloc, text, node)?;
    Ok(object_identifier(constraints))
}

/// TIME with these constraints (X.680 38.1).
fn time(constraints: List<Constraint>) -> ASN1Type
    ensures { time_with (Some constraints) ≡ Some result }
{
    ASN1Type::Time(Time { constraints })
}

/// TIME with its constraints (X.680 38.1).
pub(crate) fn read_time(alloc: Global, text: &[u8], node: &Node) -> Mem<ASN1Type>
    requires { Is whole_rules text.now TIME node.now }
    ensures { IfOk result (λ ty. time_type_of text.now node.now ≡ Some ty) }
{
    let constraints = read_behind(alloc, text, node)?;
    Ok(time(constraints))
}

/// GeneralizedTime with these constraints (X.680 46.1).
fn generalized_time(constraints: List<Constraint>) -> ASN1Type
    ensures { generalized_time_with (Some constraints) ≡ Some result }
{
    ASN1Type::GeneralizedTime(GeneralizedTime { constraints })
}

/// GeneralizedTime with its constraints (X.680 46.1).
pub(crate) fn read_generalized_time(alloc: Global, text: &[u8], node: &Node) -> Mem<ASN1Type>
    requires { Is whole_rules text.now GENERALIZED_TIME node.now }
    ensures { IfOk result (λ ty. generalized_time_type_of text.now node.now ≡ Some ty) }
{
    let constraints = read_behind(alloc, text, node)?;
    Ok(generalized_time(constraints))
}

/// UTCTime with these constraints (X.680 47.1).
fn utc_time(constraints: List<Constraint>) -> ASN1Type
    ensures { utc_time_with (Some constraints) ≡ Some result }
{
    ASN1Type::UTCTime(UTCTime { constraints })
}

/// UTCTime with its constraints (X.680 47.1).
pub(crate) fn read_utc_time(alloc: Global, text: &[u8], node: &Node) -> Mem<ASN1Type>
    requires { Is whole_rules text.now UTC_TIME node.now }
    ensures { IfOk result (λ ty. utc_time_type_of text.now node.now ≡ Some ty) }
{
    let constraints = read_behind(alloc, text, node)?;
    Ok(utc_time(constraints))
}

/// The named numbers or bits in braces, where they stand (X.680 19.1, 22.1).
fn read_named(alloc: Global, text: &[u8], node: &Node) -> Mem<Option<List<DistinguishedValue>>>
    requires { StandsBy whole_rules text.now node.now }
    ensures { IfOk result (λ named. named_numbers text.now node.now ≡ Some named) }
{
    match node.child(names::DISTINGUISHED_VALUES) {
        Some(named) => Ok(Some(read_distinguished_values(alloc, text, named)?)),
        None => Ok(None),
    }
}

/// INTEGER with its named numbers and these constraints (X.680 19.1).
fn integer(alloc: Global, text: &[u8], node: &Node, constraints: List<Constraint>) -> Mem<ASN1Type>
    requires { StandsBy whole_rules text.now node.now }
    ensures { IfOk result (λ ty. integer_with text.now node.now (Some constraints) ≡ Some ty) }
{
    let distinguished_values = read_named(alloc, text, node)?;
    Ok(ASN1Type::Integer(Integer {
        constraints,
        distinguished_values,
    }))
}

/// INTEGER with its named numbers and constraints (X.680 19.1).
pub(crate) fn read_integer(alloc: Global, text: &[u8], node: &Node) -> Mem<ASN1Type>
    requires { Is whole_rules text.now INTEGER node.now }
    ensures { IfOk result (λ ty. integer_type_of text.now node.now ≡ Some ty) }
{
    let constraints = read_behind(alloc, text, node)?;
    Ok(integer(alloc, text, node, constraints)?)
}

/// BIT STRING with its named bits and these constraints (X.680 22.1).
fn bit_string(
    alloc: Global,
    text: &[u8],
    node: &Node,
    constraints: List<Constraint>,
) -> Mem<ASN1Type>
    requires { StandsBy whole_rules text.now node.now }
    ensures { IfOk result (λ ty. bit_string_with text.now node.now (Some constraints) ≡ Some ty) }
{
    let distinguished_values = read_named(alloc, text, node)?;
    Ok(ASN1Type::BitString(BitString {
        constraints,
        distinguished_values,
    }))
}

/// BIT STRING with its named bits and constraints (X.680 22.1).
pub(crate) fn read_bit_string(alloc: Global, text: &[u8], node: &Node) -> Mem<ASN1Type>
    requires { Is whole_rules text.now BIT_STRING node.now }
    ensures { IfOk result (λ ty. bit_string_type_of text.now node.now ≡ Some ty) }
{
    let constraints = read_behind(alloc, text, node)?;
    Ok(bit_string(alloc, text, node, constraints)?)
}

/// A character string type with these constraints (X.680 41.1).
fn character_string(text: &[u8], node: &Node, constraints: List<Constraint>) -> ASN1Type
    requires { Is whole_rules text.now CHARACTER_STRING node.now }
    ensures { character_string_with node.now (Some constraints) ≡ Some result }
{
    let ty = read_string_type(text, node);
    ASN1Type::CharacterString(CharacterString { constraints, ty })
}

/// A character string type with its constraints (X.680 41.1).
pub(crate) fn read_character_string(alloc: Global, text: &[u8], node: &Node) -> Mem<ASN1Type>
    requires { Is whole_rules text.now CHARACTER_STRING node.now }
    ensures { IfOk result (λ ty. character_string_type_of text.now node.now ≡ Some ty) }
{
    let constraints = read_behind(alloc, text, node)?;
    Ok(character_string(text, node, constraints))
}

/// The type of a class's field: the class, the fields behind it, and these constraints (X.681 14.1).
#[tactic(auto, using(crate::proofs::ViewsTypes::field_reference_has_class))]
fn field_reference(
    alloc: Global,
    text: &[u8],
    node: &Node,
    constraints: List<Constraint>,
) -> Mem<InformationObjectFieldReference>
    requires { Is whole_rules text.now INFORMATION_OBJECT_FIELD_REFERENCE node.now }
    ensures { IfOk result (λ reference. field_reference_with text.now node.now (Some constraints) ≡ Some reference) }
{
    let class = read_class_name(alloc, text, node.the_child(names::CLASS_NAME))?;
    let field_path = read_field_path(alloc, text, node)?;
    Ok(InformationObjectFieldReference {
        class,
        field_path,
        constraints,
    })
}

/// The type of a class's field, with the constraints behind it (X.681 14.1).
pub(crate) fn read_field_reference(
    alloc: Global,
    text: &[u8],
    node: &Node,
) -> Mem<InformationObjectFieldReference>
    requires { Is whole_rules text.now INFORMATION_OBJECT_FIELD_REFERENCE node.now }
    ensures { IfOk result (λ reference. field_reference_of text.now node.now ≡ Some reference) }
{
    let constraints = read_behind(alloc, text, node)?;
    Ok(field_reference(alloc, text, node, constraints)?)
}

/// The type of a class's field, as a type (X.681 14.1).
fn field_type(
    alloc: Global,
    text: &[u8],
    node: &Node,
    constraints: List<Constraint>,
) -> Mem<ASN1Type>
    requires { Is whole_rules text.now INFORMATION_OBJECT_FIELD_REFERENCE node.now }
    ensures { IfOk result (λ ty. field_type_with text.now node.now (Some constraints) ≡ Some ty) }
{
    let reference = field_reference(alloc, text, node, constraints)?;
    Ok(ASN1Type::InformationObjectFieldReference(reference))
}

/// The field that INSTANCE OF takes of a class: the one named `&Type` (X.681 Annex C).
fn type_field(alloc: Global) -> Mem<List<ObjectFieldIdentifier>>
    ensures { IfOk result (λ path. path ≡ type_field) }
{
    let name = Text::new(alloc, "&Type")?;
    Ok(List::of(alloc, ObjectFieldIdentifier::MultipleValue(name))?)
}

/// INSTANCE OF a class: the type of that class's field `&Type` (X.681 Annex C).
#[tactic(auto, using(crate::proofs::ViewsTypes::instance_of_has_class))]
fn instance_of(
    alloc: Global,
    text: &[u8],
    node: &Node,
    constraints: List<Constraint>,
) -> Mem<ASN1Type>
    requires { Is whole_rules text.now INSTANCE_OF node.now }
    ensures { IfOk result (λ ty. instance_of_with text.now node.now (Some constraints) ≡ Some ty) }
{
    let class = read_class_name(alloc, text, node.the_child(names::CLASS_NAME))?;
    let field_path = type_field(alloc)?;
    Ok(ASN1Type::InformationObjectFieldReference(InformationObjectFieldReference {
        class,
        field_path,
        constraints,
    }))
}

/// INSTANCE OF a class with its constraints (X.681 Annex C).
pub(crate) fn read_instance_of(alloc: Global, text: &[u8], node: &Node) -> Mem<ASN1Type>
    requires { Is whole_rules text.now INSTANCE_OF node.now }
    ensures { IfOk result (λ ty. instance_of_type_of text.now node.now ≡ Some ty) }
{
    let constraints = read_behind(alloc, text, node)?;
    Ok(instance_of(alloc, text, node, constraints)?)
}

/// What a name of a type stands for: without a path to it the built-in type of that word, where there is one; else the type
/// of that name (X.680 14.1, X.681 15).
fn named(
    alloc: Global,
    parent: Option<Text>,
    name: Text,
    constraints: List<Constraint>,
) -> Mem<ASN1Type>
    ensures { IfOk result (λ ty. ty ≡ type_named parent name constraints) }
{
    match parent {
        Some(parent) => Ok(ASN1Type::builtin_or_elsewhere(
            alloc,
            Some(parent.as_str()),
            name.as_str(),
            Some(constraints),
        )?),
        None => Ok(ASN1Type::builtin_or_elsewhere(alloc, None, name.as_str(), Some(constraints))?),
    }
}

/// A type reference: the path to it, its name and these constraints (X.680 14.1, X.681 15).
#[tactic(auto, using(crate::proofs::ViewsTypes::elsewhere_has_path, crate::proofs::ViewsTypes::elsewhere_has_name, asn_read_pieces::proofs::Views::title_has_blanks))]
fn elsewhere(
    alloc: Global,
    text: &[u8],
    node: &Node,
    constraints: List<Constraint>,
) -> Mem<ASN1Type>
    requires { Is whole_rules text.now ELSEWHERE_DECLARED_TYPE node.now }
    ensures { IfOk result (λ ty. elsewhere_with text.now node.now (Some constraints) ≡ Some ty) }
{
    let parent = read_parent(alloc, text, node.the_child(names::VALUE_PATH))?;
    let name = read_name(alloc, text, node.the_child(names::TITLE_CASE_IDENTIFIER))?;
    Ok(named(alloc, parent, name, constraints)?)
}

/// A type reference: the path to it, its name and the constraints behind it (X.680 14.1, X.681 15).
pub(crate) fn read_elsewhere(alloc: Global, text: &[u8], node: &Node) -> Mem<ASN1Type>
    requires { Is whole_rules text.now ELSEWHERE_DECLARED_TYPE node.now }
    ensures { IfOk result (λ ty. elsewhere_type_of text.now node.now ≡ Some ty) }
{
    let constraints = read_behind(alloc, text, node)?;
    Ok(elsewhere(alloc, text, node, constraints)?)
}
