//! The text of types (X.680 clause 17).

ghost use Rattle.asn_check_listing.specs.Parts.{behind, braced, constrained, with_marker};
ghost use Rattle.asn_check_listing.specs.Texts.{choice_text, constraint_text, list_text, member_text, option_text, struct_text, type_text, value_text};
ghost use Rattle.asn_check_listing.specs.Types.{among_members, enumerated, numbered, of_field, presence_line, referenced, selected};
ghost use Rattle.std.specs.List.{zip};
ghost use Rattle.std.specs.Option.{option_map};
ghost use Rattle.std.specs.Prelude.{◌≡◌, ◌++◌, OnOk, codes, map};

use crate::components::write_between;
use crate::constraints::write_constraints;
use crate::long_words::{generalized_time_word, object_identifier_word, octet_string_word};
use crate::parts::{either, write_marker, write_when};
use crate::values::write_value;
use crate::words::{string_word, write_items, write_name, write_numbers, write_path, write_tag};
use asn_memory::{List, Mem, Text};
use asn_tree::{
    ASN1Type, ASN1Value, Choice, ChoiceOption, Constraint, SequenceOrSet, SequenceOrSetMember,
    SequenceOrSetOf,
};
use asn_tree_kinds::{DistinguishedValue, Enumeral};
use asn_tree_leaves::ObjectFieldIdentifier;
use std::alloc::Global;

/// Writes a type with its constraints, as `SEQUENCE { a NULL, ... }` (X.680 17.1).
///
/// Err: want of memory.
#[cycle(writing)]
pub fn write_type(alloc: Global, out: &mut Text, ty: &ASN1Type) -> Mem<()>
    ensures { OnOk result (out.new ≡ out.old ++ type_text ty.now) }
{
    match ty {
        ASN1Type::Null => out.push_str("NULL"),
        ASN1Type::Boolean(t) => write_constrained(alloc, out, "BOOLEAN", t.constraints.as_slice()),
        ASN1Type::Integer(t) => write_numbered(
            alloc,
            out,
            "INTEGER",
            &t.distinguished_values,
            t.constraints.as_slice(),
        ),
        ASN1Type::Real(t) => write_constrained(alloc, out, "REAL", t.constraints.as_slice()),
        ASN1Type::BitString(t) => write_numbered(
            alloc,
            out,
            "BIT STRING",
            &t.distinguished_values,
            t.constraints.as_slice(),
        ),
        ASN1Type::OctetString(t) => {
            write_constrained(alloc, out, octet_string_word(), t.constraints.as_slice())
        }
        ASN1Type::CharacterString(t) => {
            write_constrained(alloc, out, string_word(t.ty), t.constraints.as_slice())
        }
        ASN1Type::Enumerated(t) => write_enumerated(
            alloc,
            out,
            t.extensible,
            t.members.as_slice(),
            t.constraints.as_slice(),
        ),
        ASN1Type::Choice(choice) => write_choice(alloc, out, choice),
        ASN1Type::Sequence(layer) => write_struct(alloc, out, "SEQUENCE", layer),
        ASN1Type::SequenceOf(list) => write_list(alloc, out, "SEQUENCE", list),
        ASN1Type::Set(layer) => write_struct(alloc, out, "SET", layer),
        ASN1Type::SetOf(list) => write_list(alloc, out, "SET", list),
        ASN1Type::Time(t) => write_constrained(alloc, out, "TIME", t.constraints.as_slice()),
        ASN1Type::GeneralizedTime(t) => {
            write_constrained(
                alloc,
                out,
                generalized_time_word(),
                t.constraints.as_slice(),
            )
        }
        ASN1Type::UTCTime(t) => write_constrained(alloc, out, "UTCTime", t.constraints.as_slice()),
        ASN1Type::ElsewhereDeclaredType(t) => write_referenced(
            alloc,
            out,
            &t.parent,
            &t.identifier,
            t.constraints.as_slice(),
        ),
        ASN1Type::ChoiceSelectionType(t) => {
            write_selected(out, &t.selected_option, &t.choice_name)
        }
        ASN1Type::ObjectIdentifier(t) => {
            write_constrained(
                alloc,
                out,
                object_identifier_word(),
                t.constraints.as_slice(),
            )
        }
        ASN1Type::InformationObjectFieldReference(t) => write_of_field(
            alloc,
            out,
            &t.class,
            t.field_path.as_slice(),
            t.constraints.as_slice(),
        ),
        ASN1Type::EmbeddedPdv => out.push_str("EMBEDDED PDV"),
        ASN1Type::External => out.push_str("EXTERNAL"),
    }
}

/// Writes a word with constraints behind it.
#[cycle(writing)]
pub(crate) fn write_constrained(
    alloc: Global,
    out: &mut Text,
    word: &str,
    constraints: &[Constraint],
) -> Mem<()>
    ensures { OnOk result (out.new ≡ out.old ++ constrained word.now (map constraint_text constraints.now)) }
{
    out.push_str(word)?;
    write_constraints(alloc, out, constraints)
}

/// Writes a word with named numbers or bits behind it, then the constraints.
#[cycle(writing)]
fn write_numbered(
    alloc: Global,
    out: &mut Text,
    word: &str,
    numbers: &Option<List<DistinguishedValue>>,
    constraints: &[Constraint],
) -> Mem<()>
    ensures { OnOk result (out.new ≡ out.old ++ numbered word.now numbers.now (map constraint_text constraints.now)) }
{
    out.push_str(word)?;
    write_numbers(alloc, out, numbers)?;
    write_constraints(alloc, out, constraints)
}

/// Writes an ENUMERATED with its items, then the constraints.
#[cycle(writing)]
fn write_enumerated(
    alloc: Global,
    out: &mut Text,
    marker: Option<usize>,
    items: &[Enumeral],
    constraints: &[Constraint],
) -> Mem<()>
    ensures { OnOk result (out.new ≡ out.old ++ enumerated marker items.now (map constraint_text constraints.now)) }
{
    out.push_str("ENUMERATED")?;
    write_items(alloc, out, marker, items)?;
    write_constraints(alloc, out, constraints)
}

/// Writes a name of a type with its constraints, behind the object or class that it is a field of.
#[cycle(writing)]
pub(crate) fn write_referenced(
    alloc: Global,
    out: &mut Text,
    parent: &Option<Text>,
    name: &Text,
    constraints: &[Constraint],
) -> Mem<()>
    ensures { OnOk result (out.new ≡ out.old ++ referenced parent.now name.now (map constraint_text constraints.now)) }
{
    write_name(out, parent, name)?;
    write_constraints(alloc, out, constraints)
}

/// Writes a selection type (X.680 30.1).
fn write_selected(out: &mut Text, option: &Text, choice: &Text) -> Mem<()>
    ensures { OnOk result (out.new ≡ out.old ++ selected option.now choice.now) }
{
    out.push_str(option.as_str())?;
    out.push_str(" < ")?;
    out.push_str(choice.as_str())
}

/// Writes a field of a class as a type (X.681 14.1).
#[cycle(writing)]
fn write_of_field(
    alloc: Global,
    out: &mut Text,
    class: &Text,
    path: &[ObjectFieldIdentifier],
    constraints: &[Constraint],
) -> Mem<()>
    ensures { OnOk result (out.new ≡ out.old ++ of_field class.now path.now (map constraint_text constraints.now)) }
{
    out.push_str(class.as_str())?;
    write_path(out, path)?;
    write_constraints(alloc, out, constraints)
}

/// Writes a SEQUENCE OF or SET OF behind its first word.
#[cycle(writing)]
fn write_list(alloc: Global, out: &mut Text, word: &str, list: &SequenceOrSetOf) -> Mem<()>
    ensures { OnOk result (out.new ≡ out.old ++ behind word.now (list_text list.now)) }
{
    out.push_str(word)?;
    write_constraints(alloc, out, list.constraints.as_slice())?;
    out.push_str(" OF ")?;
    write_type(alloc, out, list.element_type.get())
}

/// Writes a CHOICE with its options, then the constraints.
#[cycle(writing)]
fn write_choice(alloc: Global, out: &mut Text, choice: &Choice) -> Mem<()>
    ensures { OnOk result (out.new ≡ out.old ++ behind (codes "CHOICE") (choice_text choice.now)) }
{
    out.push_str("CHOICE")?;
    write_options(alloc, out, choice.extensible, choice.options.as_slice())?;
    write_constraints(alloc, out, choice.constraints.as_slice())
}

/// Writes options between braces, with the extension marker at its place (X.680 29.1).
#[cycle(writing)]
#[tactic(auto, using(crate::proofs::Marked::option_next, crate::proofs::Marked::option_led, crate::proofs::Marked::options_done))]
fn write_options(
    alloc: Global,
    out: &mut Text,
    marker: Option<usize>,
    options: &[ChoiceOption],
) -> Mem<()>
    ensures { OnOk result (out.new ≡ out.old ++ braced (with_marker marker 0 (map option_text options.now))) }
{
    let mut first = true;
    for (number, option) in options.iter().enumerate() {
        first = write_marker(out, first, marker, number)?;
        out.push_str(either(first, " { ", ", "))?;
        write_option(alloc, out, option)?;
        first = false;
    }
    let none = write_marker(out, first, marker, options.len())?;
    out.push_str(either(none, " {}", " }"))
}

/// Writes an alternative of a CHOICE: its name, its tag, its type with the constraints, as `a [0] NULL` (X.680 29.1).
///
/// Err: want of memory.
#[cycle(writing)]
pub fn write_option(alloc: Global, out: &mut Text, option: &ChoiceOption) -> Mem<()>
    ensures { OnOk result (out.new ≡ out.old ++ option_text option.now) }
{
    out.push_str(option.name.as_str())?;
    out.push_str(" ")?;
    write_tag(alloc, out, &option.tag)?;
    write_type(alloc, out, &option.ty)?;
    write_constraints(alloc, out, option.constraints.as_slice())
}

/// Writes the word behind a component or a field of a class, with the space before it: the value that it has by default, or that it may
/// be left out, as ` DEFAULT 1` or ` OPTIONAL`; else nothing (X.680 25.1, X.681 9.6).
///
/// Err: want of memory.
pub fn write_presence(
    alloc: Global,
    out: &mut Text,
    default: &Option<ASN1Value>,
    optional: bool,
) -> Mem<()>
    ensures { OnOk result (out.new ≡ out.old ++ presence_line (option_map value_text default.now) optional) }
{
    match default {
        Some(value) => {
            out.push_str(" DEFAULT ")?;
            write_value(alloc, out, value)
        }
        None => write_when(out, optional, " OPTIONAL"),
    }
}

/// Writes a component of a SEQUENCE or SET: its name, its tag, its type with the constraints, the word of its presence, as
/// `a [0] NULL OPTIONAL` (X.680 25.1).
///
/// Err: want of memory.
#[cycle(writing)]
pub fn write_member(alloc: Global, out: &mut Text, member: &SequenceOrSetMember) -> Mem<()>
    ensures { OnOk result (out.new ≡ out.old ++ member_text member.now) }
{
    out.push_str(member.name.as_str())?;
    out.push_str(" ")?;
    write_tag(alloc, out, &member.tag)?;
    write_type(alloc, out, &member.ty)?;
    write_constraints(alloc, out, member.constraints.as_slice())?;
    write_presence(alloc, out, &member.default_value, member.is_optional)
}

/// Writes a SEQUENCE or SET behind its word: the members, then the constraints.
#[cycle(writing)]
fn write_struct(alloc: Global, out: &mut Text, word: &str, layer: &SequenceOrSet) -> Mem<()>
    ensures { OnOk result (out.new ≡ out.old ++ behind word.now (struct_text layer.now)) }
{
    out.push_str(word)?;
    write_members(
        alloc,
        out,
        &layer.components_of,
        layer.components_at.as_slice(),
        layer.extensible,
        layer.members.as_slice(),
    )?;
    write_constraints(alloc, out, layer.constraints.as_slice())
}

/// Writes members between braces, with names after COMPONENTS OF and the extension marker at their places (X.680 25.1).
#[cycle(writing)]
#[tactic(auto, using(crate::proofs::Members::members_done))]
fn write_members(
    alloc: Global,
    out: &mut Text,
    names: &List<Text>,
    places: &[(usize, bool)],
    marker: Option<usize>,
    members: &[SequenceOrSetMember],
) -> Mem<()>
    ensures { OnOk result (out.new ≡ out.old ++ braced (among_members (zip names.now places.now) marker 0 (map member_text members.now))) }
{
    let mut first = true;
    let mut cursor = 0;
    for (number, member) in members.iter().enumerate() {
        let (none, next) = write_between(out, first, names, places, cursor, marker, number)?;
        out.push_str(either(none, " { ", ", "))?;
        write_member(alloc, out, member)?;
        first = false;
        cursor = next;
    }
    let (none, _) = write_between(out, first, names, places, cursor, marker, members.len())?;
    out.push_str(either(none, " {}", " }"))
}
