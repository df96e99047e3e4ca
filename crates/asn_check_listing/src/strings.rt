//! The texts of literals: strings of bits and of octets, reals, object identifiers, settings, relations.

ghost use Rattle.asn_check_listing.specs.Parts.{listed};
ghost use Rattle.asn_check_listing.specs.Words.{arc_text, arcs_text, bits_text, dots, hex_digit, octet_text, octets_text, pair_text, real_text, relation_text, relations_text, setting_text, settings_text};
ghost use Rattle.std.specs.Prelude.{◌≡◌, ◌++◌, ◌<◌, IfOk, OnOk, map};

use crate::parts::either;
use crate::words::write_number;
use asn_memory::{Mem, Text};
use asn_tree_headers::ObjectIdentifierArc;
use asn_tree_kinds::RelationalConstraint;
use asn_tree_leaves::RealValue;
use asn_tree_settings::{PropertyAndSettingsPair, PropertySetting};
use std::alloc::Global;

/// Writes a real by its mantissa, its base and its exponent, as `{mantissa 5, base 10, exponent -1}` (X.680 21.5).
///
/// Err: want of memory.
pub fn write_real(alloc: Global, out: &mut Text, real: RealValue) -> Mem<()>
    ensures { OnOk result (out.new ≡ out.old ++ real_text real) }
{
    out.push_str("{mantissa ")?;
    write_number(alloc, out, real.mantissa)?;
    out.push_str(", base ")?;
    let base = real.base.to_string(alloc)?;
    out.push_str(base.as_str())?;
    out.push_str(", exponent ")?;
    let exponent = real.exponent.to_string(alloc)?;
    out.push_str(exponent.as_str())?;
    out.push_str("}")
}

/// Writes an arc of an object identifier: its name, its number, or both, as `iso(1)` (X.680 32.3).
///
/// Err: want of memory.
pub fn write_arc(alloc: Global, out: &mut Text, arc: &ObjectIdentifierArc) -> Mem<()>
    ensures { OnOk result (out.new ≡ out.old ++ arc_text arc.now) }
{
    match (&arc.name, arc.number) {
        (Some(name), Some(number)) => {
            out.push_str(name.as_str())?;
            out.push_str("(")?;
            let digits = number.to_string(alloc)?;
            out.push_str(digits.as_str())?;
            out.push_str(")")
        }
        (Some(name), None) => out.push_str(name.as_str()),
        (None, Some(number)) => {
            let digits = number.to_string(alloc)?;
            out.push_str(digits.as_str())
        }
        (None, None) => Ok(()),
    }
}

/// Writes an object identifier between braces, as `{iso(1) 3}` (X.680 32.3).
///
/// Err: want of memory.
pub fn write_arcs(alloc: Global, out: &mut Text, arcs: &[ObjectIdentifierArc]) -> Mem<()>
    ensures { OnOk result (out.new ≡ out.old ++ arcs_text arcs.now) }
{
    out.push_str("{")?;
    let mut first = true;
    for arc in arcs {
        out.push_str(either(first, "", " "))?;
        write_arc(alloc, out, arc)?;
        first = false;
    }
    out.push_str("}")
}

/// Writes a string of bits, as `'01'B` (X.680 12.10).
///
/// Err: want of memory.
pub fn write_bits(out: &mut Text, bits: &[bool]) -> Mem<()>
    ensures { OnOk result (out.new ≡ out.old ++ bits_text bits.now) }
{
    out.push_str("'")?;
    for bit in bits {
        out.push_str(either(*bit, "1", "0"))?;
    }
    out.push_str("'B")
}

/// The digit of a number below sixteen, A to F behind 9 (X.680 12.12).
fn hex_digit(number: u8) -> &'static str
    requires { number < 16 }
    ensures { result.now ≡ hex_digit number }
{
    match number {
        0 => "0",
        1 => "1",
        2 => "2",
        3 => "3",
        4 => "4",
        5 => "5",
        6 => "6",
        7 => "7",
        8 => "8",
        9 => "9",
        10 => "A",
        11 => "B",
        12 => "C",
        13 => "D",
        14 => "E",
        15 => "F",
        16.. => unreachable!(),
    }
}

fn write_octet(out: &mut Text, octet: u8) -> Mem<()>
    ensures { OnOk result (out.new ≡ out.old ++ octet_text octet) }
{
    out.push_str(hex_digit(octet / 16))?;
    out.push_str(hex_digit(octet % 16))
}

/// Writes a string of octets, two digits each, as `'0AFF'H` (X.680 12.12).
///
/// Err: want of memory.
pub fn write_octets(out: &mut Text, octets: &[u8]) -> Mem<()>
    ensures { OnOk result (out.new ≡ out.old ++ octets_text octets.now) }
{
    out.push_str("'")?;
    for octet in octets {
        write_octet(out, *octet)?;
    }
    out.push_str("'H")
}

/// Writes so many dots.
fn write_dots(out: &mut Text, number: usize) -> Mem<()>
    ensures { OnOk result (out.new ≡ out.old ++ dots number) }
{
    let mut left = number;
    while left > 0 {
        out.push_str(".")?;
        left -= 1;
    }
    Ok(())
}

/// Writes a name behind `@`, with a dot for each level, as `@.a` (X.682 10.7).
///
/// Err: want of memory.
pub fn write_relation(out: &mut Text, relation: &RelationalConstraint) -> Mem<()>
    ensures { OnOk result (out.new ≡ out.old ++ relation_text relation.now) }
{
    out.push_str("@")?;
    write_dots(out, relation.level)?;
    out.push_str(relation.field_name.as_str())
}

/// Writes the relations of a table constraint between braces, as `{@a, @.b}`; where there are none, nothing (X.682 10.7).
///
/// Err: want of memory.
pub fn write_relations(out: &mut Text, relations: &[RelationalConstraint]) -> Mem<()>
    ensures { OnOk result (out.new ≡ out.old ++ relations_text relations.now) }
{
    if relations.is_empty() {
        return Ok(());
    }
    write_some_relations(out, relations)
}

fn write_some_relations(out: &mut Text, relations: &[RelationalConstraint]) -> Mem<()>
    ensures { OnOk result (out.new ≡ out.old ++ listed (map relation_text relations.now)) }
{
    out.push_str("{")?;
    let mut first = true;
    for relation in relations {
        out.push_str(either(first, "", ", "))?;
        write_relation(out, relation)?;
        first = false;
    }
    out.push_str("}")
}

/// The text of a setting.
fn setting_of(alloc: Global, pair: &PropertyAndSettingsPair) -> Mem<Text>
    ensures { IfOk result (λ text. text ≡ setting_text pair.now) }
{
    match pair {
        PropertyAndSettingsPair::Basic(setting) => setting.setting_name(alloc),
        PropertyAndSettingsPair::Date(setting) => setting.setting_name(alloc),
        PropertyAndSettingsPair::Year(setting) => setting.setting_name(alloc),
        PropertyAndSettingsPair::Time(setting) => setting.setting_name(alloc),
        PropertyAndSettingsPair::LocalOrUtc(setting) => setting.setting_name(alloc),
        PropertyAndSettingsPair::IntervalType(setting) => setting.setting_name(alloc),
        PropertyAndSettingsPair::StartEndPoint(setting) => setting.setting_name(alloc),
        PropertyAndSettingsPair::Recurrence(setting) => setting.setting_name(alloc),
        PropertyAndSettingsPair::Midnight(setting) => setting.setting_name(alloc),
    }
}

/// Writes a property with its setting, as `Basic=Date` (X.680 51.10).
///
/// Err: want of memory.
pub fn write_pair(alloc: Global, out: &mut Text, pair: &PropertyAndSettingsPair) -> Mem<()>
    ensures { OnOk result (out.new ≡ out.old ++ pair_text pair.now) }
{
    out.push_str(pair.property_name())?;
    out.push_str("=")?;
    let setting = setting_of(alloc, pair)?;
    out.push_str(setting.as_str())
}

/// Writes the settings of a property settings constraint, as `SETTINGS "Basic=Date Date=YMD"` (X.680 51.10).
///
/// Err: want of memory.
pub fn write_settings(alloc: Global, out: &mut Text, pairs: &[PropertyAndSettingsPair]) -> Mem<()>
    ensures { OnOk result (out.new ≡ out.old ++ settings_text pairs.now) }
{
    out.push_str("SETTINGS \"")?;
    let mut first = true;
    for pair in pairs {
        out.push_str(either(first, "", " "))?;
        write_pair(alloc, out, pair)?;
        first = false;
    }
    out.push_str("\"")
}
