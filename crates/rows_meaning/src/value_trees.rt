//! The text of value trees.

ghost use Rattle.std.specs.Prelude.{◌<◌};

use asn_check_listing::write_arcs;
use asn_meaning_shapes::{Field, Tree};
use asn_memory::{Mem, Text};
use asn_tree::RealValue;
use rows::push_number;
use std::alloc::Global;
use std::string::ToString;

/// The first text where the test holds, else the other.
pub(crate) fn either(test: bool, one: &'static str, other: &'static str) -> &'static str {
    if test { one } else { other }
}

fn write_item(alloc: Global, out: &mut Text, number: i128) -> Mem<()> {
    out.push_str("item ")?;
    push_number(alloc, out, number)
}

fn write_real(alloc: Global, out: &mut Text, real: RealValue) -> Mem<()> {
    push_number(alloc, out, real.mantissa)?;
    out.push_str(" * ")?;
    let base = real.base.to_string(alloc)?;
    out.push_str(base.as_str())?;
    out.push_str(" ^ ")?;
    let exponent = real.exponent.to_string(alloc)?;
    out.push_str(exponent.as_str())
}

fn write_bits(out: &mut Text, bits: &[bool]) -> Mem<()> {
    out.push_str("'")?;
    for bit in bits {
        out.push_str(either(*bit, "1", "0"))?;
    }
    out.push_str("'B")
}

/// The digit of a number below sixteen.
fn hex_digit(number: u8) -> &'static str
    requires { number < 16 }
{
    match number {
        0 => "0",
        1 => "1",
        2 => "2",
        3 => "3",
        4 => "4",
        5 => "5",
        6 => "6",
        7 => "7",
        8 => "8",
        9 => "9",
        10 => "A",
        11 => "B",
        12 => "C",
        13 => "D",
        14 => "E",
        15 => "F",
        16.. => unreachable!(),
    }
}

fn write_octets(out: &mut Text, octets: &[u8]) -> Mem<()> {
    out.push_str("'")?;
    for octet in octets {
        out.push_str(hex_digit(*octet / 16))?;
        out.push_str(hex_digit(*octet % 16))?;
    }
    out.push_str("'H")
}

fn write_quoted(out: &mut Text, text: &str) -> Mem<()> {
    out.push_str("\"")?;
    out.push_str(text)?;
    out.push_str("\"")
}

/// Writes a tree: a struct between braces, a list between brackets, an object identifier behind `arcs`.
#[cycle(trees)]
pub(crate) fn write_tree(alloc: Global, out: &mut Text, tree: &Tree) -> Mem<()> {
    match tree {
        Tree::Null => out.push_str("NULL"),
        Tree::Truth(truth) => out.push_str(either(*truth, "TRUE", "FALSE")),
        Tree::Whole(number) => push_number(alloc, out, *number),
        Tree::Item(number) => write_item(alloc, out, *number),
        Tree::Real(real) => write_real(alloc, out, *real),
        Tree::Bits(bits) => write_bits(out, bits.as_slice()),
        Tree::Octets(octets) => write_octets(out, octets.as_slice()),
        Tree::Texted(text) => write_quoted(out, text.as_str()),
        Tree::Oid(identifier) => {
            out.push_str("arcs ")?;
            write_arcs(alloc, out, identifier.0.as_slice())
        }
        Tree::Struct(fields) => write_fields(alloc, out, fields.as_slice()),
        Tree::Elements(elements) => write_elements(alloc, out, elements.as_slice()),
        Tree::Alternative(name, tree) => write_alternative(alloc, out, name, tree.get()),
        Tree::Opaque => out.push_str("opaque"),
    }
}

#[cycle(trees)]
fn write_fields(alloc: Global, out: &mut Text, fields: &[Field]) -> Mem<()> {
    out.push_str("{")?;
    let mut first = true;
    for field in fields {
        out.push_str(either(first, "", ", "))?;
        out.push_str(field.name.as_str())?;
        out.push_str(" ")?;
        write_tree(alloc, out, &field.tree)?;
        first = false;
    }
    out.push_str("}")
}

#[cycle(trees)]
fn write_elements(alloc: Global, out: &mut Text, elements: &[Tree]) -> Mem<()> {
    out.push_str("[")?;
    let mut first = true;
    for element in elements {
        out.push_str(either(first, "", ", "))?;
        write_tree(alloc, out, element)?;
        first = false;
    }
    out.push_str("]")
}

#[cycle(trees)]
fn write_alternative(alloc: Global, out: &mut Text, name: &Text, tree: &Tree) -> Mem<()> {
    out.push_str(name.as_str())?;
    out.push_str(" : ")?;
    write_tree(alloc, out, tree)
}
