//! Values that hold no other value.

ghost use Rattle.asn_rules.specs.Children.{Is};
ghost use Rattle.asn_rules.specs.Whole.{whole_rules};
ghost use Rattle.asn_rules.specs.declared.names.TheConstants.{BIT_STRING_VALUE, BOOLEAN_VALUE, CHARACTER_STRING_VALUE, ELSEWHERE_DECLARED_VALUE, INTEGER_VALUE, OBJECT_IDENTIFIER_VALUE, REAL_VALUE, TIME_VALUE};
ghost use Rattle.asn_values.specs.Leaves.{bit_string_of, boolean_of, character_string_of, elsewhere_of, identifier_of, integer_of, real_of, time_of};
ghost use Rattle.std.specs.Prelude.{◌≡◌, IfOk, Some};

use asn_memory::Mem;
use asn_read_nodes::{
    read_binary, read_decimal, read_hexadecimal, read_integer, read_name, read_named_bits,
    read_object_identifier, read_parent, read_quadruple, read_quoted, read_real_parts, read_time,
    read_truth,
};
use asn_rules::{Node, names};
use asn_tree::ASN1Value;
use std::alloc::Global;

/// TRUE or FALSE (X.680 18.3).
pub(crate) fn read_boolean(text: &[u8], node: &Node) -> ASN1Value
    requires { Is whole_rules text.now BOOLEAN_VALUE node.now }
    ensures { boolean_of node.now ≡ Some result }
{
    ASN1Value::Boolean(read_truth(text, node))
}

/// A whole number (X.680 19.9).
pub(crate) fn read_whole(text: &[u8], node: &Node) -> ASN1Value
    requires { Is whole_rules text.now INTEGER_VALUE node.now }
    ensures { integer_of text.now node.now ≡ Some result }
{
    ASN1Value::Integer(read_integer(text, node))
}

/// Bits, in binary or hexadecimal notation or by the names of those that are set (X.680 22.9).
#[tactic(auto, using(crate::proofs::Views::bits_have_names))]
pub(crate) fn read_bit_string(alloc: Global, text: &[u8], node: &Node) -> Mem<ASN1Value>
    requires { Is whole_rules text.now BIT_STRING_VALUE node.now }
    ensures { IfOk result (λ value. bit_string_of text.now node.now ≡ Some value) }
{
    if let Some(binary) = node.child(names::BINARY) {
        return Ok(ASN1Value::BitString(read_binary(alloc, text, binary)?));
    }
    if let Some(digits) = node.child(names::HEXADECIMAL) {
        return Ok(ASN1Value::BitString(read_hexadecimal(alloc, text, digits)?));
    }
    let named = node.the_child(names::NAMED_BITS);
    Ok(ASN1Value::BitStringNamedBits(read_named_bits(alloc, text, named)?))
}

/// A text, in quotes or as the quadruple of one character (X.680 41.8).
#[tactic(auto, using(crate::proofs::Views::text_has_quadruple))]
pub(crate) fn read_character_string(alloc: Global, text: &[u8], node: &Node) -> Mem<ASN1Value>
    requires { Is whole_rules text.now CHARACTER_STRING_VALUE node.now }
    ensures { IfOk result (λ value. character_string_of text.now node.now ≡ Some value) }
{
    match node.child(names::QUOTED) {
        Some(quoted) => Ok(ASN1Value::String(read_quoted(alloc, text, quoted)?)),
        None => {
            let quadruple = node.the_child(names::QUADRUPLE);
            Ok(ASN1Value::String(read_quadruple(alloc, text, quadruple)?))
        }
    }
}

/// A real number, with a point or by its parts (X.680 21.6).
#[tactic(auto, using(crate::proofs::Views::real_has_parts))]
pub(crate) fn read_real(alloc: Global, text: &[u8], node: &Node) -> Mem<ASN1Value>
    requires { Is whole_rules text.now REAL_VALUE node.now }
    ensures { IfOk result (λ value. real_of text.now node.now ≡ Some value) }
{
    match node.child(names::DOT_NOTATION) {
        Some(decimal) => Ok(ASN1Value::Real(read_decimal(alloc, text, decimal)?)),
        None => {
            let parts = node.the_child(names::MBE_NOTATION);
            Ok(ASN1Value::Real(read_real_parts(text, parts)))
        }
    }
}

/// A time (X.680 38.1, 46.3, 47.3).
pub(crate) fn read_time_value(alloc: Global, text: &[u8], node: &Node) -> Mem<ASN1Value>
    requires { Is whole_rules text.now TIME_VALUE node.now }
    ensures { IfOk result (λ value. time_of text.now node.now ≡ Some value) }
{
    Ok(ASN1Value::Time(read_time(alloc, text, node)?))
}

/// The name of a value, and what stands before the last dot of a path (X.680 14.1, X.681 15).
#[tactic(auto, using(crate::proofs::Views::elsewhere_has_path, crate::proofs::Views::elsewhere_has_name, asn_read_nodes::proofs::Views::name_has_blanks))]
pub(crate) fn read_elsewhere(alloc: Global, text: &[u8], node: &Node) -> Mem<ASN1Value>
    requires { Is whole_rules text.now ELSEWHERE_DECLARED_VALUE node.now }
    ensures { IfOk result (λ value. elsewhere_of text.now node.now ≡ Some value) }
{
    let parent = read_parent(alloc, text, node.the_child(names::VALUE_PATH))?;
    let identifier = read_name(alloc, text, node.the_child(names::VALUE_IDENTIFIER))?;
    Ok(ASN1Value::ElsewhereDeclaredValue { parent, identifier })
}

/// An object identifier (X.680 32.3).
pub(crate) fn read_identifier(alloc: Global, text: &[u8], node: &Node) -> Mem<ASN1Value>
    requires { Is whole_rules text.now OBJECT_IDENTIFIER_VALUE node.now }
    ensures { IfOk result (λ value. identifier_of text.now node.now ≡ Some value) }
{
    Ok(ASN1Value::ObjectIdentifier(read_object_identifier(alloc, text, node)?))
}
