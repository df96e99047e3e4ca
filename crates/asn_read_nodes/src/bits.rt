//! The bits of a value, in binary and hexadecimal notation and by their names (X.680 22.9).

ghost use Rattle.asn_read_nodes.specs.Bits.{binary_bits, binary_of, hex_bits, hexadecimal_of, is_hex_digit, named_bits_of, names_in};
ghost use Rattle.asn_rules.specs.Children.{Is, StandsBy};
ghost use Rattle.asn_rules.specs.Whole.{whole_rules};
ghost use Rattle.asn_rules.specs.declared.names.TheConstants.{BINARY, HEXADECIMAL, NAMED_BITS};
ghost use Rattle.std.specs.Prelude.{◌≡◌, ◌++◌, All, IfOk, OnOk, Some};

use crate::names::{bytes_behind_blanks, children, read_name};
use asn_memory::{List, Mem, Text};
use asn_rules::{ByteClass, Node, is_in_class, names};
use asn_text::hex_to_bools;
use std::alloc::Global;

/// The bits that the binary digits among these bytes are.
fn bits_of_binary(alloc: Global, bytes: &[u8]) -> Mem<List<bool>>
    ensures { IfOk result (λ bits. bits ≡ binary_bits bytes.now) }
{
    let mut bits = List::new(alloc);
    for byte in bytes {
        if *byte == b'0' {
            bits.add(false)?;
        } else if *byte == b'1' {
            bits.add(true)?;
        }
    }
    Ok(bits)
}

/// The bits of a value in binary notation (X.680 12.10).
#[tactic(auto, using(crate::proofs::Views::binary_has_blanks))]
pub fn read_binary(alloc: Global, text: &[u8], node: &Node) -> Mem<List<bool>>
    requires { Is whole_rules text.now BINARY node.now }
    ensures { IfOk result (λ bits. binary_of text.now node.now ≡ Some bits) }
{
    Ok(bits_of_binary(alloc, bytes_behind_blanks(text, node))?)
}

fn is_hex_digit(byte: u8) -> bool
    ensures { result ≡ is_hex_digit byte }
{
    is_in_class(ByteClass::Digit, byte) || is_in_class(ByteClass::HexLetter, byte)
}

/// Puts four bits behind the others.
fn add_four(bits: &mut List<bool>, four: [bool; 4]) -> Mem<()>
    ensures { OnOk result (bits.new ≡ bits.old ++ four) }
{
    let [first, second, third, fourth] = four;
    bits.add(first)?;
    bits.add(second)?;
    bits.add(third)?;
    bits.add(fourth)
}

/// The bits that the hexadecimal digits among these bytes are.
fn bits_of_hexadecimal(alloc: Global, bytes: &[u8]) -> Mem<List<bool>>
    ensures { IfOk result (λ bits. bits ≡ hex_bits bytes.now) }
{
    let mut bits = List::new(alloc);
    for byte in bytes {
        if is_hex_digit(*byte) {
            add_four(&mut bits, hex_to_bools(char::from(*byte)))?;
        }
    }
    Ok(bits)
}

/// The bits of a value in hexadecimal notation, four for each digit (X.680 12.12, 22.10).
#[tactic(auto, using(crate::proofs::Views::hexadecimal_has_blanks))]
pub fn read_hexadecimal(alloc: Global, text: &[u8], node: &Node) -> Mem<List<bool>>
    requires { Is whole_rules text.now HEXADECIMAL node.now }
    ensures { IfOk result (λ bits. hexadecimal_of text.now node.now ≡ Some bits) }
{
    Ok(bits_of_hexadecimal(alloc, bytes_behind_blanks(text, node))?)
}

/// The names of the nodes that are names.
#[tactic(auto, using(crate::proofs::Views::as_rule, crate::proofs::Views::name_has_blanks, crate::proofs::Equations::takes_next, crate::proofs::Equations::passes_next))]
fn names_of(alloc: Global, text: &[u8], nodes: &[Node]) -> Mem<List<Text>>
    requires { All (StandsBy whole_rules text.now) nodes.now }
    ensures { IfOk result (λ ns. names_in text.now nodes.now ≡ Some ns) }
{
    let mut found = List::new(alloc);
    for node in nodes {
        if node.rule == names::VALUE_IDENTIFIER {
            found.add(read_name(alloc, text, node)?)?;
        }
    }
    Ok(found)
}

/// The names of the bits that are set, in the order of the text.
pub fn read_named_bits(alloc: Global, text: &[u8], node: &Node) -> Mem<List<Text>>
    requires { Is whole_rules text.now NAMED_BITS node.now }
    ensures { IfOk result (λ ns. named_bits_of text.now node.now ≡ Some ns) }
{
    match node.child(names::NAME_LIST) {
        Some(list) => Ok(names_of(alloc, text, children(text, list))?),
        None => Ok(List::new(alloc)),
    }
}
