//! The lines of constraints, arguments and dummy references. What a text alone does not tell, as whether a name between
//! parentheses is a type's, is told in words.

use crate::values::value_word;
use asn_check_listing::{write_constraint, write_constraints, write_parameters};
use asn_memory::{List, Mem, OutOfMemory, Text};
use asn_text::ParserResult;
use asn_tree::{
    Constraint, ElementOrSetOperation, Parameter, ParameterGovernor, Parameterization,
    ParameterizationArgument, SubtypeElement,
};
use rows::{ended, fault_line};
use std::alloc::Global;

/// The form of an element in a word or two.
fn element_word(element: &SubtypeElement) -> &'static str {
    match element {
        SubtypeElement::SingleValue { value, .. } => value_word(value),
        SubtypeElement::ContainedSubtype { .. } => "contained type",
        SubtypeElement::ValueRange { .. } => "range",
        SubtypeElement::PermittedAlphabet(_) => "alphabet",
        SubtypeElement::SizeConstraint(_) => "size",
        SubtypeElement::TypeConstraint(_) => "type",
        SubtypeElement::SingleTypeConstraint(_) => "component",
        SubtypeElement::MultipleTypeConstraints(_) => "components",
        SubtypeElement::PatternConstraint(_) => "pattern",
        SubtypeElement::UserDefinedConstraint(_) => "user defined",
        SubtypeElement::PropertySettings(_) => "settings",
    }
}

/// The form of a constraint in a word or two.
fn constraint_word(constraint: &Constraint) -> &'static str {
    match constraint {
        Constraint::SubtypeConstraint(set) => match &set.set {
            ElementOrSetOperation::Element(element) => element_word(element),
            ElementOrSetOperation::SetOperation(_) => "operation",
        },
        Constraint::TableConstraint(_) => "table",
        Constraint::Parameter(_) => "arguments",
        Constraint::ContentConstraint(_) => "contents",
    }
}

fn told_constraint(alloc: Global, rest: usize, constraint: &Constraint) -> Mem<Text> {
    let mut out = Text::new(alloc, constraint_word(constraint))?;
    write_constraint(alloc, &mut out, constraint)?;
    ended(alloc, rest, out.as_str())
}

/// The line of the reader of one constraint.
///
/// Err: want of memory.
pub fn constraint_line<'a>(alloc: Global, answer: ParserResult<'a, Constraint>) -> Mem<Text> {
    match answer {
        Ok((rest, constraint)) => told_constraint(alloc, rest.offset(), &constraint),
        Err(fault) => fault_line(alloc, fault),
    }
}

/// Writes the forms of constraints, with commas between them.
fn write_words(out: &mut Text, constraints: &[Constraint]) -> Mem<()> {
    let mut first = true;
    for constraint in constraints {
        if !first {
            out.push_str(", ")?;
        }
        out.push_str(constraint_word(constraint))?;
        first = false;
    }
    Ok(())
}

fn told_constraints(alloc: Global, rest: usize, constraints: &[Constraint]) -> Mem<Text> {
    let mut out = Text::new(alloc, "")?;
    write_words(&mut out, constraints)?;
    write_constraints(alloc, &mut out, constraints)?;
    ended(alloc, rest, out.as_str())
}

/// The line of the reader of constraints behind each other.
///
/// Err: want of memory.
pub fn constraints_line<'a>(
    alloc: Global,
    answer: ParserResult<'a, List<Constraint>>,
) -> Mem<Text> {
    match answer {
        Ok((rest, constraints)) => told_constraints(alloc, rest.offset(), constraints.as_slice()),
        Err(fault) => fault_line(alloc, fault),
    }
}

/// The form of an argument in a word.
fn argument_word(argument: &Parameter) -> &'static str {
    match argument {
        Parameter::ValueParameter(_) => "value",
        Parameter::TypeParameter(_) => "type",
        Parameter::InformationObjectParameter(_) => "object",
        Parameter::ObjectSetParameter(_) => "set",
    }
}

/// Writes the forms of arguments, with commas between them.
fn write_argument_words(out: &mut Text, arguments: &[Parameter]) -> Mem<()> {
    let mut first = true;
    for argument in arguments {
        if !first {
            out.push_str(", ")?;
        }
        out.push_str(argument_word(argument))?;
        first = false;
    }
    Ok(())
}

/// The line of arguments, which are told as those of a constraint.
fn told_arguments(alloc: Global, rest: usize, constraint: &Constraint) -> Mem<Text> {
    let mut out = Text::new(alloc, "")?;
    if let Constraint::Parameter(arguments) = constraint {
        write_argument_words(&mut out, arguments.as_slice())?;
    }
    write_constraint(alloc, &mut out, constraint)?;
    ended(alloc, rest, out.as_str())
}

/// The line of the reader of arguments.
///
/// Err: want of memory.
pub fn arguments_line<'a>(alloc: Global, answer: ParserResult<'a, List<Parameter>>) -> Mem<Text> {
    match answer {
        Ok((rest, arguments)) => {
            told_arguments(alloc, rest.offset(), &Constraint::Parameter(arguments))
        }
        Err(fault) => fault_line(alloc, fault),
    }
}

/// What governs a dummy reference, in a word.
fn governor_word(governor: &ParameterGovernor) -> &'static str {
    match governor {
        ParameterGovernor::None => "bare",
        ParameterGovernor::TypeOrClass(_) => "type",
        ParameterGovernor::Class(_) => "class",
    }
}

/// Writes what governs dummy references, with commas between them.
fn write_governor_words(out: &mut Text, dummies: &[ParameterizationArgument]) -> Mem<()> {
    let mut first = true;
    for dummy in dummies {
        if !first {
            out.push_str(", ")?;
        }
        out.push_str(governor_word(&dummy.param_governor))?;
        first = false;
    }
    Ok(())
}

/// Writes what governs the dummy references of a definition; nothing where there are none.
pub(crate) fn write_governors(
    out: &mut Text,
    parameterization: &Option<Parameterization>,
) -> Mem<()> {
    match parameterization {
        Some(read) => {
            out.push_str(" -- dummies ")?;
            write_governor_words(out, read.parameters.as_slice())
        }
        None => Ok(()),
    }
}

fn told_dummies(alloc: Global, rest: usize, dummies: &Option<Parameterization>) -> Mem<Text> {
    let mut out = Text::new(alloc, "")?;
    if let Some(read) = dummies {
        write_governor_words(&mut out, read.parameters.as_slice())?;
    }
    write_parameters(alloc, &mut out, dummies)?;
    ended(alloc, rest, out.as_str())
}

/// The line of the reader of dummy references.
///
/// Err: want of memory.
pub fn dummies_line<'a>(alloc: Global, answer: ParserResult<'a, Parameterization>) -> Mem<Text> {
    match answer {
        Ok((rest, dummies)) => told_dummies(alloc, rest.offset(), &Some(dummies)),
        Err(fault) => fault_line(alloc, fault),
    }
}

/// The line of the dummy references that was built of a table, behind which the rest begins.
///
/// Err: want of memory.
pub fn built_dummies_line(alloc: Global, end: usize, built: Mem<Parameterization>) -> Mem<Text> {
    match built {
        Ok(tree) => told_dummies(alloc, end, &Some(tree)),
        Err(_) => Err(OutOfMemory),
    }
}
