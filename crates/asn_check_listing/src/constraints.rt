//! The text of constraints (X.680 clauses 49 to 51, X.682) and of the arguments of templates (X.683 clause 9).

ghost use Rattle.asn_check_listing.specs.Constraints.{arguments_line, containing_line, encoded_line, end_line, extended, is_marked, listed_text, mark, parenthesized, pattern_line, range_line, set_lead, table_line, user_line, within};
ghost use Rattle.asn_check_listing.specs.LongWords.{with_components_word};
ghost use Rattle.asn_check_listing.specs.Parts.{joined, when};
ghost use Rattle.asn_check_listing.specs.Texts.{constraint_text, content_text, element_text, objects_text, operation_text, parameter_text, set_text, type_text, value_text};
ghost use Rattle.std.specs.Option.{option_map};
ghost use Rattle.std.specs.Prelude.{◌≡◌, ◌++◌, IfOk, OnOk, codes, map, not};

use crate::long_words::{
    constrained_by_word, containing_word, encoded_by_word, with_component_word,
    with_components_word,
};
use crate::objects::write_object_fields;
use crate::parts::{either, write_when};
use crate::strings::{write_relations, write_settings};
use crate::types::{write_constrained, write_type};
use crate::values::write_value;
use crate::words::{operator_word, presence_word, write_quoted};
use asn_memory::{Mem, Text};
use asn_tree::{
    ASN1Type, ASN1Value, Constraint, ContentConstraint, ElementOrSetOperation, ObjectSetValue,
    Parameter, SetOperation, SubtypeElement,
};
use asn_tree_kinds::{ComponentPresence, RelationalConstraint};
use std::alloc::Global;

/// Writes a constraint, or the arguments of a template, with the space before it, as ` (0..5)` or ` {a, B}` (X.680 49.6, X.683 clause 9).
///
/// Err: want of memory.
#[cycle(writing)]
pub fn write_constraint(alloc: Global, out: &mut Text, constraint: &Constraint) -> Mem<()>
    ensures { OnOk result (out.new ≡ out.old ++ constraint_text constraint.now) }
{
    match constraint {
        Constraint::SubtypeConstraint(set) => {
            write_parenthesized(alloc, out, &set.set, set.extensible)
        }
        Constraint::TableConstraint(table) => write_table(
            alloc,
            out,
            table.object_set.extensible,
            table.object_set.values.as_slice(),
            table.linked_fields.as_slice(),
        ),
        Constraint::Parameter(arguments) => write_arguments(alloc, out, arguments.as_slice()),
        Constraint::ContentConstraint(content) => write_parenthesized_content(alloc, out, content),
    }
}

/// Writes a set of elements in parentheses, behind a space.
#[cycle(writing)]
fn write_parenthesized(
    alloc: Global,
    out: &mut Text,
    set: &ElementOrSetOperation,
    extensible: bool,
) -> Mem<()>
    ensures { OnOk result (out.new ≡ out.old ++ parenthesized (extended (set_text set.now) extensible)) }
{
    out.push_str(" (")?;
    write_set(alloc, out, set)?;
    write_when(out, extensible, ", ...")?;
    out.push_str(")")
}

/// Writes a table constraint, behind a space (X.682 10.3).
#[cycle(writing)]
fn write_table(
    alloc: Global,
    out: &mut Text,
    marker: Option<usize>,
    items: &[ObjectSetValue],
    relations: &[RelationalConstraint],
) -> Mem<()>
    ensures { OnOk result (out.new ≡ out.old ++ table_line (objects_text marker items.now) relations.now) }
{
    out.push_str(" (")?;
    write_objects(alloc, out, marker, items)?;
    write_relations(out, relations)?;
    out.push_str(")")
}

#[cycle(writing)]
fn write_parenthesized_content(
    alloc: Global,
    out: &mut Text,
    content: &ContentConstraint,
) -> Mem<()>
    ensures { OnOk result (out.new ≡ out.old ++ parenthesized (content_text content.now)) }
{
    out.push_str(" (")?;
    write_content(alloc, out, content)?;
    out.push_str(")")
}

/// Writes constraints one behind the other, each with the space before it (X.680 49.6).
///
/// Err: want of memory.
#[cycle(writing)]
pub fn write_constraints(alloc: Global, out: &mut Text, constraints: &[Constraint]) -> Mem<()>
    ensures { OnOk result (out.new ≡ out.old ++ joined (map constraint_text constraints.now)) }
{
    for constraint in constraints {
        write_constraint(alloc, out, constraint)?;
    }
    Ok(())
}

/// Writes what a string contains and how that is encoded, as `CONTAINING A ENCODED BY b` (X.682 11.4).
///
/// Err: want of memory.
#[cycle(writing)]
pub fn write_content(alloc: Global, out: &mut Text, content: &ContentConstraint) -> Mem<()>
    ensures { OnOk result (out.new ≡ out.old ++ content_text content.now) }
{
    match content {
        ContentConstraint::Containing(ty) => write_containing(alloc, out, ty),
        ContentConstraint::EncodedBy(rules) => write_encoded(alloc, out, rules),
        ContentConstraint::ContainingEncodedBy {
            containing,
            encoded_by,
        } => {
            write_containing(alloc, out, containing)?;
            out.push_str(" ")?;
            write_encoded(alloc, out, encoded_by)
        }
    }
}

#[cycle(writing)]
fn write_containing(alloc: Global, out: &mut Text, ty: &ASN1Type) -> Mem<()>
    ensures { OnOk result (out.new ≡ out.old ++ containing_line (type_text ty.now)) }
{
    out.push_str(containing_word())?;
    write_type(alloc, out, ty)
}

fn write_encoded(alloc: Global, out: &mut Text, rules: &ASN1Value) -> Mem<()>
    ensures { OnOk result (out.new ≡ out.old ++ encoded_line (value_text rules.now)) }
{
    out.push_str(encoded_by_word())?;
    write_value(alloc, out, rules)
}

/// Writes an argument of a template, an actual parameter: a value, a type, an object or a set of objects (X.683 clause 9).
///
/// Err: want of memory.
#[cycle(writing)]
pub fn write_argument(alloc: Global, out: &mut Text, argument: &Parameter) -> Mem<()>
    ensures { OnOk result (out.new ≡ out.old ++ parameter_text argument.now) }
{
    match argument {
        Parameter::ValueParameter(value) => write_value(alloc, out, value),
        Parameter::TypeParameter(ty) => write_type(alloc, out, ty),
        Parameter::InformationObjectParameter(fields) => write_object_fields(alloc, out, fields),
        Parameter::ObjectSetParameter(set) => {
            write_objects(alloc, out, set.extensible, set.values.as_slice())
        }
    }
}

/// Writes arguments of a template between braces, behind a space, as ` {a, B}` (X.683 clause 9).
///
/// Err: want of memory.
#[cycle(writing)]
pub fn write_arguments(alloc: Global, out: &mut Text, arguments: &[Parameter]) -> Mem<()>
    ensures { OnOk result (out.new ≡ out.old ++ arguments_line (map parameter_text arguments.now)) }
{
    out.push_str(" {")?;
    let mut first = true;
    for argument in arguments {
        out.push_str(either(first, "", ", "))?;
        write_argument(alloc, out, argument)?;
        first = false;
    }
    out.push_str("}")
}

/// Whether the extension marker stands behind so many items.
fn is_marked(marker: Option<usize>, number: usize) -> bool
    ensures { result ≡ is_marked marker number }
{
    match marker {
        Some(place) => place == number,
        None => false,
    }
}

/// Writes the marker of a set of objects, where so many items stand before it.
fn write_mark(out: &mut Text, number: usize) -> Mem<()>
    ensures { OnOk result (out.new ≡ out.old ++ mark number) }
{
    out.push_str(either(number == 0, "...", ", ..."))
}

/// Writes what stands before an item of a set of objects, where so many stand before it.
fn write_set_lead(out: &mut Text, marker: Option<usize>, number: usize) -> Mem<()>
    ensures { OnOk result (out.new ≡ out.old ++ set_lead marker number) }
{
    if is_marked(marker, number) {
        write_mark(out, number)?;
        out.push_str(", ")
    } else {
        out.push_str(either(number == 0, "", " | "))
    }
}

/// Writes a set of objects between braces, with the extension marker at its place, as `{a | b, ...}` (X.681 12.3).
///
/// Err: want of memory.
#[cycle(writing)]
pub fn write_objects(
    alloc: Global,
    out: &mut Text,
    marker: Option<usize>,
    items: &[ObjectSetValue],
) -> Mem<()>
    ensures { OnOk result (out.new ≡ out.old ++ objects_text marker items.now) }
{
    out.push_str("{")?;
    for (number, item) in items.iter().enumerate() {
        write_set_lead(out, marker, number)?;
        match item {
            ObjectSetValue::Reference(name) => out.push_str(name.as_str())?,
            ObjectSetValue::Inline(fields) => write_object_fields(alloc, out, fields)?,
        }
    }
    if is_marked(marker, items.len()) {
        write_mark(out, items.len())?;
    }
    out.push_str("}")
}

/// Writes an end of a range; where it is absent, the word.
fn write_end(alloc: Global, out: &mut Text, word: &str, end: &Option<ASN1Value>) -> Mem<()>
    ensures { OnOk result (out.new ≡ out.old ++ end_line word.now (option_map value_text end.now)) }
{
    match end {
        Some(value) => write_value(alloc, out, value),
        None => out.push_str(word),
    }
}

/// Writes a range, as `0<..MAX` (X.680 51.4).
///
/// Err: want of memory.
pub fn write_range(
    alloc: Global,
    out: &mut Text,
    min: &Option<ASN1Value>,
    max: &Option<ASN1Value>,
    min_open: bool,
    max_open: bool,
) -> Mem<()>
    ensures { OnOk result (out.new ≡ out.old ++ range_line (option_map value_text min.now) (option_map value_text max.now) min_open max_open) }
{
    write_end(alloc, out, "MIN", min)?;
    write_when(out, min_open, "<")?;
    out.push_str("..")?;
    write_when(out, max_open, "<")?;
    write_end(alloc, out, "MAX", max)
}

fn write_pattern(out: &mut Text, pattern: &Text) -> Mem<()>
    ensures { OnOk result (out.new ≡ out.old ++ pattern_line pattern.now) }
{
    out.push_str("PATTERN ")?;
    write_quoted(out, pattern.as_str())
}

fn write_user_defined(out: &mut Text, definition: &Text) -> Mem<()>
    ensures { OnOk result (out.new ≡ out.old ++ user_line definition.now) }
{
    out.push_str(constrained_by_word())?;
    out.push_str(definition.as_str())?;
    out.push_str("}")
}

/// Writes a single value.
fn write_single_value(alloc: Global, out: &mut Text, value: &ASN1Value, extensible: bool) -> Mem<()>
    ensures { OnOk result (out.new ≡ out.old ++ extended (value_text value.now) extensible) }
{
    write_value(alloc, out, value)?;
    write_when(out, extensible, ", ...")
}

/// Writes a range with the extension marker behind it, where it stands.
fn write_extended_range(
    alloc: Global,
    out: &mut Text,
    min: &Option<ASN1Value>,
    max: &Option<ASN1Value>,
    open_ends: (bool, bool),
    extensible: bool,
) -> Mem<()>
    ensures { OnOk result (out.new ≡ out.old ++ extended (range_line (option_map value_text min.now) (option_map value_text max.now) open_ends.0 open_ends.1) extensible) }
{
    write_range(alloc, out, min, max, open_ends.0, open_ends.1)?;
    write_when(out, extensible, ", ...")
}

/// Writes a contained subtype.
#[cycle(writing)]
fn write_contained(alloc: Global, out: &mut Text, ty: &ASN1Type, extensible: bool) -> Mem<()>
    ensures { OnOk result (out.new ≡ out.old ++ extended (type_text ty.now) extensible) }
{
    write_type(alloc, out, ty)?;
    write_when(out, extensible, ", ...")
}

/// Writes the words before the components of WITH COMPONENTS, with the mark of a partial list. Answers whether nothing stands
/// between the braces yet.
fn begin_components(out: &mut Text, partial: bool) -> Mem<bool>
    ensures text { OnOk result (out.new ≡ out.old ++ with_components_word ++ when partial (codes " { ...")) }
    ensures none { IfOk result (λ none. none ≡ not partial) }
{
    out.push_str(with_components_word())?;
    write_when(out, partial, " { ...")?;
    Ok(!partial)
}

/// Writes a component of WITH COMPONENTS: its name, the constraints on it, the word of its presence, as `a (1) PRESENT` (X.680 51.8.7).
///
/// Err: want of memory.
#[cycle(writing)]
pub fn write_component(
    alloc: Global,
    out: &mut Text,
    name: &Text,
    constraints: &[Constraint],
    presence: ComponentPresence,
) -> Mem<()>
    ensures { OnOk result (out.new ≡ out.old ++ listed_text name.now (map constraint_text constraints.now) presence) }
{
    out.push_str(name.as_str())?;
    write_constraints(alloc, out, constraints)?;
    out.push_str(presence_word(presence))
}

/// Writes a set of elements behind a word.
#[cycle(writing)]
fn write_within(alloc: Global, out: &mut Text, word: &str, set: &ElementOrSetOperation) -> Mem<()>
    ensures { OnOk result (out.new ≡ out.old ++ within word.now (set_text set.now)) }
{
    out.push_str(word)?;
    out.push_str(" (")?;
    write_set(alloc, out, set)?;
    out.push_str(")")
}

/// Writes an element of a constraint, as `SIZE (1..5)` (X.680 clause 51). The components of WITH COMPONENTS are written here, the mark of
/// a partial list first (X.680 51.8.5), since their constraints are no deeper than the element.
///
/// Err: want of memory.
#[cycle(writing)]
pub fn write_element(alloc: Global, out: &mut Text, element: &SubtypeElement) -> Mem<()>
    ensures { OnOk result (out.new ≡ out.old ++ element_text element.now) }
{
    match element {
        SubtypeElement::SingleValue { value, extensible } => {
            write_single_value(alloc, out, value, *extensible)
        }
        SubtypeElement::ContainedSubtype {
            subtype,
            extensible,
        } => write_contained(alloc, out, subtype, *extensible),
        SubtypeElement::ValueRange {
            min,
            max,
            min_open,
            max_open,
            extensible,
        } => {
            let ends = (*min_open, *max_open);
            write_extended_range(alloc, out, min, max, ends, *extensible)
        }
        SubtypeElement::PermittedAlphabet(set) => write_within(alloc, out, "FROM", set.get()),
        SubtypeElement::SizeConstraint(set) => write_within(alloc, out, "SIZE", set.get()),
        SubtypeElement::TypeConstraint(ty) => write_type(alloc, out, ty),
        SubtypeElement::SingleTypeConstraint(constraints) => {
            write_constrained(alloc, out, with_component_word(), constraints.as_slice())
        }
        SubtypeElement::MultipleTypeConstraints(inner) => {
            let mut first = begin_components(out, inner.is_partial)?;
            for component in inner.constraints.as_slice() {
                out.push_str(either(first, " { ", ", "))?;
                write_component(
                    alloc,
                    out,
                    &component.identifier,
                    component.constraints.as_slice(),
                    component.presence,
                )?;
                first = false;
            }
            out.push_str(either(first, " {}", " }"))
        }
        SubtypeElement::PatternConstraint(pattern) => write_pattern(out, &pattern.pattern),
        SubtypeElement::UserDefinedConstraint(user) => write_user_defined(out, &user.definition),
        SubtypeElement::PropertySettings(settings) => {
            write_settings(alloc, out, settings.property_settings_list.as_slice())
        }
    }
}

/// Writes an element, or elements joined by operators, as `1..5 | 7` (X.680 50.1).
///
/// Err: want of memory.
#[cycle(writing)]
pub fn write_set(alloc: Global, out: &mut Text, set: &ElementOrSetOperation) -> Mem<()>
    ensures { OnOk result (out.new ≡ out.old ++ set_text set.now) }
{
    match set {
        ElementOrSetOperation::Element(element) => write_element(alloc, out, element),
        ElementOrSetOperation::SetOperation(operation) => write_operation(alloc, out, operation),
    }
}

/// Writes an element, the operator behind it, and what stands behind that, as `1 | 2` (X.680 50.1).
///
/// Err: want of memory.
#[cycle(writing)]
pub fn write_operation(alloc: Global, out: &mut Text, operation: &SetOperation) -> Mem<()>
    ensures { OnOk result (out.new ≡ out.old ++ operation_text operation.now) }
{
    write_element(alloc, out, &operation.base)?;
    out.push_str(operator_word(operation.operator))?;
    write_set(alloc, out, operation.operant.get())
}
