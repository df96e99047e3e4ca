//! The public readers of types and of what stands in them.

ghost use Rattle.asn_read_nodes.specs.Reads.{IsFaultAt, ReadsNode};
ghost use Rattle.asn_rules.specs.declared.names.TheConstants.{ASN1_TYPE, BIT_STRING, BOOLEAN, CHARACTER_STRING, CHOICE, DEFAULT, ELSEWHERE_DECLARED_TYPE, EMBEDDED_PDV, ENUMERATED, EXTERNAL, GENERALIZED_TIME, INFORMATION_OBJECT_FIELD_REFERENCE, INSTANCE_OF, INTEGER, NULL, OBJECT_IDENTIFIER, OCTET_STRING, REAL, SELECTION_TYPE_CHOICE, SEQUENCE, SEQUENCE_COMPONENT, SEQUENCE_OF, SEQUENCE_OR_SET_MEMBER, SET, SET_OF, TIME, UTC_TIME};
ghost use Rattle.asn_text.specs.Input.{part_of};
ghost use Rattle.asn_text.specs.Part.{shown};
ghost use Rattle.asn_tree.specs.declared.types.ASN1Type.TheVariants.{EmbeddedPdv, External, Null};
ghost use Rattle.asn_types.specs.Forms.{bit_string_type_of, boolean_type_of, character_string_type_of, choice_type_of, elsewhere_type_of, enumerated_type_of, field_reference_of, generalized_time_type_of, instance_of_type_of, integer_type_of, object_identifier_type_of, octet_string_type_of, real_type_of, selection_type_of, sequence_of_type_of, sequence_type_of, set_of_type_of, set_type_of, time_type_of, utc_time_type_of};
ghost use Rattle.asn_types.specs.Members.{default_of};
ghost use Rattle.asn_types.specs.Reading.{component_of, member_of, type_of};
ghost use Rattle.std.specs.Prelude.{◌≡◌, codes, IfErr, IfOk, Some};

use crate::choices::read_choice;
use crate::constrained::{
    read_bit_string, read_boolean, read_character_string, read_elsewhere, read_field_reference,
    read_generalized_time, read_instance_of, read_integer, read_object_identifier,
    read_octet_string, read_real, read_time, read_utc_time,
};
use crate::enumerations::read_enumerated;
use crate::members::{read_component, read_default, read_member};
use crate::types::{
    read_selection_type, read_sequence, read_sequence_of, read_set_of, read_set_type, read_type,
};
use asn_read_nodes::read_node;
use asn_rules::names;
use asn_text::{Input, ParseFault, ParserResult};
use asn_tree::{
    ASN1Type, ASN1Value, InformationObjectFieldReference, SequenceComponent, SequenceOrSetMember,
};
use std::alloc::Global;

/// NULL (X.680 24.1).
pub fn null<'a>(alloc: Global, input: Input<'a>, depth: usize) -> ParserResult<'a, ASN1Type>
    ensures ok { IfOk result (λ read. ReadsNode NULL depth (part_of input.entry) (part_of read.0) (λ n. read.1 ≡ Null)) }
    ensures err { IfErr result (IsFaultAt NULL (codes "null") input.entry depth) }
{
    match read_node(alloc, input, depth, names::NULL, "null") {
        Ok((rest, _)) => Ok((rest, ASN1Type::Null)),
        Err(fault) => Err(fault),
    }
}

/// A selection type: an option of a CHOICE, and the name of the CHOICE (X.680 30.1).
pub fn selection_type_choice<'a>(
    alloc: Global,
    input: Input<'a>,
    depth: usize,
) -> ParserResult<'a, ASN1Type>
    ensures ok { IfOk result (λ read. ReadsNode SELECTION_TYPE_CHOICE depth (part_of input.entry) (part_of read.0) (λ n. selection_type_of (shown (part_of input.entry)) n ≡ Some read.1)) }
    ensures err { IfErr result (IsFaultAt SELECTION_TYPE_CHOICE (codes "selection_type_choice") input.entry depth) }
{
    let text = input.inner().as_bytes();
    match read_node(
        alloc,
        input,
        depth,
        names::SELECTION_TYPE_CHOICE,
        "selection_type_choice",
    ) {
        Ok((rest, node)) => match read_selection_type(alloc, text, &node) {
            Ok(ty) => Ok((rest, ty)),
            Err(_) => Err(ParseFault::OutOfMemory),
        },
        Err(fault) => Err(fault),
    }
}

/// OBJECT IDENTIFIER with its constraints; RELATIVE-OID is read as it (X.680 32.1, 33.1).
pub fn object_identifier<'a>(
    alloc: Global,
    input: Input<'a>,
    depth: usize,
) -> ParserResult<'a, ASN1Type>
    ensures ok { IfOk result (λ read. ReadsNode OBJECT_IDENTIFIER depth (part_of input.entry) (part_of read.0) (λ n. object_identifier_type_of (shown (part_of input.entry)) n ≡ Some read.1)) }
    ensures err { IfErr result (IsFaultAt OBJECT_IDENTIFIER (codes "object_identifier") input.entry depth) }
{
    let text = input.inner().as_bytes();
    match read_node(
        alloc,
        input,
        depth,
        names::OBJECT_IDENTIFIER,
        "object_identifier",
    ) {
        Ok((rest, node)) => match read_object_identifier(alloc, text, &node) {
            Ok(ty) => Ok((rest, ty)),
            Err(_) => Err(ParseFault::OutOfMemory),
        },
        Err(fault) => Err(fault),
    }
}

/// SEQUENCE OF with its constraints and the type of its elements, before which a name may stand (X.680 26.1).
pub fn sequence_of<'a>(alloc: Global, input: Input<'a>, depth: usize) -> ParserResult<'a, ASN1Type>
    ensures ok { IfOk result (λ read. ReadsNode SEQUENCE_OF depth (part_of input.entry) (part_of read.0) (λ n. sequence_of_type_of (shown (part_of input.entry)) n ≡ Some read.1)) }
    ensures err { IfErr result (IsFaultAt SEQUENCE_OF (codes "sequence_of") input.entry depth) }
{
    let text = input.inner().as_bytes();
    match read_node(alloc, input, depth, names::SEQUENCE_OF, "sequence_of") {
        Ok((rest, node)) => match read_sequence_of(alloc, text, &node) {
            Ok(ty) => Ok((rest, ty)),
            Err(_) => Err(ParseFault::OutOfMemory),
        },
        Err(fault) => Err(fault),
    }
}

/// SEQUENCE with its members and the constraints behind it (X.680 25.1).
pub fn sequence<'a>(alloc: Global, input: Input<'a>, depth: usize) -> ParserResult<'a, ASN1Type>
    ensures ok { IfOk result (λ read. ReadsNode SEQUENCE depth (part_of input.entry) (part_of read.0) (λ n. sequence_type_of (shown (part_of input.entry)) n ≡ Some read.1)) }
    ensures err { IfErr result (IsFaultAt SEQUENCE (codes "sequence") input.entry depth) }
{
    let text = input.inner().as_bytes();
    match read_node(alloc, input, depth, names::SEQUENCE, "sequence") {
        Ok((rest, node)) => match read_sequence(alloc, text, &node) {
            Ok(ty) => Ok((rest, ty)),
            Err(_) => Err(ParseFault::OutOfMemory),
        },
        Err(fault) => Err(fault),
    }
}

/// SET OF with its constraints and the type of its elements, before which a name may stand (X.680 28.1).
pub fn set_of<'a>(alloc: Global, input: Input<'a>, depth: usize) -> ParserResult<'a, ASN1Type>
    ensures ok { IfOk result (λ read. ReadsNode SET_OF depth (part_of input.entry) (part_of read.0) (λ n. set_of_type_of (shown (part_of input.entry)) n ≡ Some read.1)) }
    ensures err { IfErr result (IsFaultAt SET_OF (codes "set_of") input.entry depth) }
{
    let text = input.inner().as_bytes();
    match read_node(alloc, input, depth, names::SET_OF, "set_of") {
        Ok((rest, node)) => match read_set_of(alloc, text, &node) {
            Ok(ty) => Ok((rest, ty)),
            Err(_) => Err(ParseFault::OutOfMemory),
        },
        Err(fault) => Err(fault),
    }
}

/// SET with its members and the constraints behind it (X.680 27.1).
pub fn set<'a>(alloc: Global, input: Input<'a>, depth: usize) -> ParserResult<'a, ASN1Type>
    ensures ok { IfOk result (λ read. ReadsNode SET depth (part_of input.entry) (part_of read.0) (λ n. set_type_of (shown (part_of input.entry)) n ≡ Some read.1)) }
    ensures err { IfErr result (IsFaultAt SET (codes "set") input.entry depth) }
{
    let text = input.inner().as_bytes();
    match read_node(alloc, input, depth, names::SET, "set") {
        Ok((rest, node)) => match read_set_type(alloc, text, &node) {
            Ok(ty) => Ok((rest, ty)),
            Err(_) => Err(ParseFault::OutOfMemory),
        },
        Err(fault) => Err(fault),
    }
}

/// UTCTime with its constraints (X.680 47.1).
pub fn utc_time<'a>(alloc: Global, input: Input<'a>, depth: usize) -> ParserResult<'a, ASN1Type>
    ensures ok { IfOk result (λ read. ReadsNode UTC_TIME depth (part_of input.entry) (part_of read.0) (λ n. utc_time_type_of (shown (part_of input.entry)) n ≡ Some read.1)) }
    ensures err { IfErr result (IsFaultAt UTC_TIME (codes "utc_time") input.entry depth) }
{
    let text = input.inner().as_bytes();
    match read_node(alloc, input, depth, names::UTC_TIME, "utc_time") {
        Ok((rest, node)) => match read_utc_time(alloc, text, &node) {
            Ok(ty) => Ok((rest, ty)),
            Err(_) => Err(ParseFault::OutOfMemory),
        },
        Err(fault) => Err(fault),
    }
}

/// EXTERNAL (X.680 37.1).
pub fn external<'a>(alloc: Global, input: Input<'a>, depth: usize) -> ParserResult<'a, ASN1Type>
    ensures ok { IfOk result (λ read. ReadsNode EXTERNAL depth (part_of input.entry) (part_of read.0) (λ n. read.1 ≡ External)) }
    ensures err { IfErr result (IsFaultAt EXTERNAL (codes "external") input.entry depth) }
{
    match read_node(alloc, input, depth, names::EXTERNAL, "external") {
        Ok((rest, _)) => Ok((rest, ASN1Type::External)),
        Err(fault) => Err(fault),
    }
}

/// EMBEDDED PDV (X.680 36.1).
pub fn embedded_pdv<'a>(alloc: Global, input: Input<'a>, depth: usize) -> ParserResult<'a, ASN1Type>
    ensures ok { IfOk result (λ read. ReadsNode EMBEDDED_PDV depth (part_of input.entry) (part_of read.0) (λ n. read.1 ≡ EmbeddedPdv)) }
    ensures err { IfErr result (IsFaultAt EMBEDDED_PDV (codes "embedded_pdv") input.entry depth) }
{
    match read_node(alloc, input, depth, names::EMBEDDED_PDV, "embedded_pdv") {
        Ok((rest, _)) => Ok((rest, ASN1Type::EmbeddedPdv)),
        Err(fault) => Err(fault),
    }
}

/// INSTANCE OF a class: the type of that class's field `&Type` (X.681 Annex C).
pub fn instance_of<'a>(alloc: Global, input: Input<'a>, depth: usize) -> ParserResult<'a, ASN1Type>
    ensures ok { IfOk result (λ read. ReadsNode INSTANCE_OF depth (part_of input.entry) (part_of read.0) (λ n. instance_of_type_of (shown (part_of input.entry)) n ≡ Some read.1)) }
    ensures err { IfErr result (IsFaultAt INSTANCE_OF (codes "instance_of") input.entry depth) }
{
    let text = input.inner().as_bytes();
    match read_node(alloc, input, depth, names::INSTANCE_OF, "instance_of") {
        Ok((rest, node)) => match read_instance_of(alloc, text, &node) {
            Ok(ty) => Ok((rest, ty)),
            Err(_) => Err(ParseFault::OutOfMemory),
        },
        Err(fault) => Err(fault),
    }
}

/// GeneralizedTime with its constraints (X.680 46.1).
pub fn generalized_time<'a>(
    alloc: Global,
    input: Input<'a>,
    depth: usize,
) -> ParserResult<'a, ASN1Type>
    ensures ok { IfOk result (λ read. ReadsNode GENERALIZED_TIME depth (part_of input.entry) (part_of read.0) (λ n. generalized_time_type_of (shown (part_of input.entry)) n ≡ Some read.1)) }
    ensures err { IfErr result (IsFaultAt GENERALIZED_TIME (codes "generalized_time") input.entry depth) }
{
    let text = input.inner().as_bytes();
    match read_node(
        alloc,
        input,
        depth,
        names::GENERALIZED_TIME,
        "generalized_time",
    ) {
        Ok((rest, node)) => match read_generalized_time(alloc, text, &node) {
            Ok(ty) => Ok((rest, ty)),
            Err(_) => Err(ParseFault::OutOfMemory),
        },
        Err(fault) => Err(fault),
    }
}

/// REAL with its constraints (X.680 21.1).
pub fn real<'a>(alloc: Global, input: Input<'a>, depth: usize) -> ParserResult<'a, ASN1Type>
    ensures ok { IfOk result (λ read. ReadsNode REAL depth (part_of input.entry) (part_of read.0) (λ n. real_type_of (shown (part_of input.entry)) n ≡ Some read.1)) }
    ensures err { IfErr result (IsFaultAt REAL (codes "real") input.entry depth) }
{
    let text = input.inner().as_bytes();
    match read_node(alloc, input, depth, names::REAL, "real") {
        Ok((rest, node)) => match read_real(alloc, text, &node) {
            Ok(ty) => Ok((rest, ty)),
            Err(_) => Err(ParseFault::OutOfMemory),
        },
        Err(fault) => Err(fault),
    }
}

/// CHOICE with its options (X.680 29.1).
pub fn choice<'a>(alloc: Global, input: Input<'a>, depth: usize) -> ParserResult<'a, ASN1Type>
    ensures ok { IfOk result (λ read. ReadsNode CHOICE depth (part_of input.entry) (part_of read.0) (λ n. choice_type_of (shown (part_of input.entry)) n ≡ Some read.1)) }
    ensures err { IfErr result (IsFaultAt CHOICE (codes "choice") input.entry depth) }
{
    let text = input.inner().as_bytes();
    match read_node(alloc, input, depth, names::CHOICE, "choice") {
        Ok((rest, node)) => match read_choice(alloc, text, &node) {
            Ok(ty) => Ok((rest, ty)),
            Err(_) => Err(ParseFault::OutOfMemory),
        },
        Err(fault) => Err(fault),
    }
}

/// INTEGER with its named numbers and constraints (X.680 19.1).
pub fn integer<'a>(alloc: Global, input: Input<'a>, depth: usize) -> ParserResult<'a, ASN1Type>
    ensures ok { IfOk result (λ read. ReadsNode INTEGER depth (part_of input.entry) (part_of read.0) (λ n. integer_type_of (shown (part_of input.entry)) n ≡ Some read.1)) }
    ensures err { IfErr result (IsFaultAt INTEGER (codes "integer") input.entry depth) }
{
    let text = input.inner().as_bytes();
    match read_node(alloc, input, depth, names::INTEGER, "integer") {
        Ok((rest, node)) => match read_integer(alloc, text, &node) {
            Ok(ty) => Ok((rest, ty)),
            Err(_) => Err(ParseFault::OutOfMemory),
        },
        Err(fault) => Err(fault),
    }
}

/// ENUMERATED with the numbers of its items (X.680 20.1). It fails where a number passes 128 bits.
pub fn enumerated<'a>(alloc: Global, input: Input<'a>, depth: usize) -> ParserResult<'a, ASN1Type>
    ensures ok { IfOk result (λ read. ReadsNode ENUMERATED depth (part_of input.entry) (part_of read.0) (λ n. enumerated_type_of (shown (part_of input.entry)) n ≡ Some read.1)) }
    ensures err { IfErr result (IsFaultAt ENUMERATED (codes "enumerated") input.entry depth) }
{
    let text = input.inner().as_bytes();
    match read_node(alloc, input, depth, names::ENUMERATED, "enumerated") {
        Ok((rest, node)) => match read_enumerated(alloc, text, &node) {
            Ok(ty) => Ok((rest, ty)),
            Err(_) => Err(ParseFault::OutOfMemory),
        },
        Err(fault) => Err(fault),
    }
}

/// BOOLEAN with its constraints (X.680 18.1).
pub fn boolean<'a>(alloc: Global, input: Input<'a>, depth: usize) -> ParserResult<'a, ASN1Type>
    ensures ok { IfOk result (λ read. ReadsNode BOOLEAN depth (part_of input.entry) (part_of read.0) (λ n. boolean_type_of (shown (part_of input.entry)) n ≡ Some read.1)) }
    ensures err { IfErr result (IsFaultAt BOOLEAN (codes "boolean") input.entry depth) }
{
    let text = input.inner().as_bytes();
    match read_node(alloc, input, depth, names::BOOLEAN, "boolean") {
        Ok((rest, node)) => match read_boolean(alloc, text, &node) {
            Ok(ty) => Ok((rest, ty)),
            Err(_) => Err(ParseFault::OutOfMemory),
        },
        Err(fault) => Err(fault),
    }
}

/// BIT STRING with its named bits and constraints (X.680 22.1).
pub fn bit_string<'a>(alloc: Global, input: Input<'a>, depth: usize) -> ParserResult<'a, ASN1Type>
    ensures ok { IfOk result (λ read. ReadsNode BIT_STRING depth (part_of input.entry) (part_of read.0) (λ n. bit_string_type_of (shown (part_of input.entry)) n ≡ Some read.1)) }
    ensures err { IfErr result (IsFaultAt BIT_STRING (codes "bit_string") input.entry depth) }
{
    let text = input.inner().as_bytes();
    match read_node(alloc, input, depth, names::BIT_STRING, "bit_string") {
        Ok((rest, node)) => match read_bit_string(alloc, text, &node) {
            Ok(ty) => Ok((rest, ty)),
            Err(_) => Err(ParseFault::OutOfMemory),
        },
        Err(fault) => Err(fault),
    }
}

/// TIME with its constraints (X.680 38.1).
pub fn time<'a>(alloc: Global, input: Input<'a>, depth: usize) -> ParserResult<'a, ASN1Type>
    ensures ok { IfOk result (λ read. ReadsNode TIME depth (part_of input.entry) (part_of read.0) (λ n. time_type_of (shown (part_of input.entry)) n ≡ Some read.1)) }
    ensures err { IfErr result (IsFaultAt TIME (codes "time") input.entry depth) }
{
    let text = input.inner().as_bytes();
    match read_node(alloc, input, depth, names::TIME, "time") {
        Ok((rest, node)) => match read_time(alloc, text, &node) {
            Ok(ty) => Ok((rest, ty)),
            Err(_) => Err(ParseFault::OutOfMemory),
        },
        Err(fault) => Err(fault),
    }
}

/// OCTET STRING with its constraints (X.680 23.1).
pub fn octet_string<'a>(alloc: Global, input: Input<'a>, depth: usize) -> ParserResult<'a, ASN1Type>
    ensures ok { IfOk result (λ read. ReadsNode OCTET_STRING depth (part_of input.entry) (part_of read.0) (λ n. octet_string_type_of (shown (part_of input.entry)) n ≡ Some read.1)) }
    ensures err { IfErr result (IsFaultAt OCTET_STRING (codes "octet_string") input.entry depth) }
{
    let text = input.inner().as_bytes();
    match read_node(alloc, input, depth, names::OCTET_STRING, "octet_string") {
        Ok((rest, node)) => match read_octet_string(alloc, text, &node) {
            Ok(ty) => Ok((rest, ty)),
            Err(_) => Err(ParseFault::OutOfMemory),
        },
        Err(fault) => Err(fault),
    }
}

/// A character string type with its constraints (X.680 41.1).
pub fn character_string<'a>(
    alloc: Global,
    input: Input<'a>,
    depth: usize,
) -> ParserResult<'a, ASN1Type>
    ensures ok { IfOk result (λ read. ReadsNode CHARACTER_STRING depth (part_of input.entry) (part_of read.0) (λ n. character_string_type_of (shown (part_of input.entry)) n ≡ Some read.1)) }
    ensures err { IfErr result (IsFaultAt CHARACTER_STRING (codes "character_string") input.entry depth) }
{
    let text = input.inner().as_bytes();
    match read_node(
        alloc,
        input,
        depth,
        names::CHARACTER_STRING,
        "character_string",
    ) {
        Ok((rest, node)) => match read_character_string(alloc, text, &node) {
            Ok(ty) => Ok((rest, ty)),
            Err(_) => Err(ParseFault::OutOfMemory),
        },
        Err(fault) => Err(fault),
    }
}

/// A type reference with the constraints behind it (X.680 14.1, X.681 15): without a path to it the built-in type of that word,
/// where there is one.
pub fn elsewhere_declared_type<'a>(
    alloc: Global,
    input: Input<'a>,
    depth: usize,
) -> ParserResult<'a, ASN1Type>
    ensures ok { IfOk result (λ read. ReadsNode ELSEWHERE_DECLARED_TYPE depth (part_of input.entry) (part_of read.0) (λ n. elsewhere_type_of (shown (part_of input.entry)) n ≡ Some read.1)) }
    ensures err { IfErr result (IsFaultAt ELSEWHERE_DECLARED_TYPE (codes "elsewhere_declared_type") input.entry depth) }
{
    let text = input.inner().as_bytes();
    match read_node(
        alloc,
        input,
        depth,
        names::ELSEWHERE_DECLARED_TYPE,
        "elsewhere_declared_type",
    ) {
        Ok((rest, node)) => match read_elsewhere(alloc, text, &node) {
            Ok(ty) => Ok((rest, ty)),
            Err(_) => Err(ParseFault::OutOfMemory),
        },
        Err(fault) => Err(fault),
    }
}

/// A type of any form (X.680 17.1).
pub fn asn1_type<'a>(alloc: Global, input: Input<'a>, depth: usize) -> ParserResult<'a, ASN1Type>
    ensures ok { IfOk result (λ read. ReadsNode ASN1_TYPE depth (part_of input.entry) (part_of read.0) (λ n. type_of (shown (part_of input.entry)) n ≡ Some read.1)) }
    ensures err { IfErr result (IsFaultAt ASN1_TYPE (codes "asn1_type") input.entry depth) }
{
    let text = input.inner().as_bytes();
    match read_node(alloc, input, depth, names::ASN1_TYPE, "asn1_type") {
        Ok((rest, node)) => match read_type(alloc, text, &node) {
            Ok(ty) => Ok((rest, ty)),
            Err(_) => Err(ParseFault::OutOfMemory),
        },
        Err(fault) => Err(fault),
    }
}

/// The type of a class's field: the class, the fields behind it, and the constraints (X.681 14.1).
pub fn information_object_field_reference<'a>(
    alloc: Global,
    input: Input<'a>,
    depth: usize,
) -> ParserResult<'a, InformationObjectFieldReference>
    ensures ok { IfOk result (λ read. ReadsNode INFORMATION_OBJECT_FIELD_REFERENCE depth (part_of input.entry) (part_of read.0) (λ n. field_reference_of (shown (part_of input.entry)) n ≡ Some read.1)) }
    ensures err { IfErr result (IsFaultAt INFORMATION_OBJECT_FIELD_REFERENCE (codes "information_object_field_reference") input.entry depth) }
{
    let text = input.inner().as_bytes();
    match read_node(
        alloc,
        input,
        depth,
        names::INFORMATION_OBJECT_FIELD_REFERENCE,
        "information_object_field_reference",
    ) {
        Ok((rest, node)) => match read_field_reference(alloc, text, &node) {
            Ok(reference) => Ok((rest, reference)),
            Err(_) => Err(ParseFault::OutOfMemory),
        },
        Err(fault) => Err(fault),
    }
}

/// A component of a SEQUENCE or SET: a member, or COMPONENTS OF and the name of a type (X.680 25.1).
pub fn sequence_component<'a>(
    alloc: Global,
    input: Input<'a>,
    depth: usize,
) -> ParserResult<'a, SequenceComponent>
    ensures ok { IfOk result (λ read. ReadsNode SEQUENCE_COMPONENT depth (part_of input.entry) (part_of read.0) (λ n. component_of (shown (part_of input.entry)) n ≡ Some read.1)) }
    ensures err { IfErr result (IsFaultAt SEQUENCE_COMPONENT (codes "sequence_component") input.entry depth) }
{
    let text = input.inner().as_bytes();
    match read_node(
        alloc,
        input,
        depth,
        names::SEQUENCE_COMPONENT,
        "sequence_component",
    ) {
        Ok((rest, node)) => match read_component(alloc, text, &node) {
            Ok(component) => Ok((rest, component)),
            Err(_) => Err(ParseFault::OutOfMemory),
        },
        Err(fault) => Err(fault),
    }
}

/// A member of a SEQUENCE or SET (X.680 25.1).
pub fn sequence_or_set_member<'a>(
    alloc: Global,
    input: Input<'a>,
    depth: usize,
) -> ParserResult<'a, SequenceOrSetMember>
    ensures ok { IfOk result (λ read. ReadsNode SEQUENCE_OR_SET_MEMBER depth (part_of input.entry) (part_of read.0) (λ n. member_of (shown (part_of input.entry)) n ≡ Some read.1)) }
    ensures err { IfErr result (IsFaultAt SEQUENCE_OR_SET_MEMBER (codes "sequence_or_set_member") input.entry depth) }
{
    let text = input.inner().as_bytes();
    match read_node(
        alloc,
        input,
        depth,
        names::SEQUENCE_OR_SET_MEMBER,
        "sequence_or_set_member",
    ) {
        Ok((rest, node)) => match read_member(alloc, text, &node) {
            Ok(member) => Ok((rest, member)),
            Err(_) => Err(ParseFault::OutOfMemory),
        },
        Err(fault) => Err(fault),
    }
}

/// The value behind the word DEFAULT, or None, where nothing is passed (X.680 25.1). It never fails.
pub fn default<'a>(
    alloc: Global,
    input: Input<'a>,
    depth: usize,
) -> ParserResult<'a, Option<ASN1Value>>
    ensures ok { IfOk result (λ read. ReadsNode DEFAULT depth (part_of input.entry) (part_of read.0) (λ n. default_of (shown (part_of input.entry)) n ≡ Some read.1)) }
    ensures err { IfErr result (IsFaultAt DEFAULT (codes "default") input.entry depth) }
{
    let text = input.inner().as_bytes();
    match read_node(alloc, input, depth, names::DEFAULT, "default") {
        Ok((rest, node)) => match read_default(alloc, text, &node) {
            Ok(value) => Ok((rest, value)),
            Err(_) => Err(ParseFault::OutOfMemory),
        },
        Err(fault) => Err(fault),
    }
}
