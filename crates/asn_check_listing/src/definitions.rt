//! The lines of definitions (X.680 16, X.681 9 to 12, X.683 8).

ghost use Rattle.asn_check_listing.specs.Definitions.{class_field_text, class_text, definition_line, definition_lines, dummy_text, expression_text, expressions_text, governor_text, headed, information_definition_line, information_text, information_word, link_text, parameters_text, syntax_text, token_text, type_definition_line, value_definition_line};
ghost use Rattle.asn_check_listing.specs.Parts.{around, braced, parted};
ghost use Rattle.asn_check_listing.specs.Texts.{type_text};
ghost use Rattle.std.specs.Option.{option_map};
ghost use Rattle.std.specs.Prelude.{◌≡◌, ◌++◌, [], OnOk, codes, map};

use crate::constraints::write_objects;
use crate::long_words::with_syntax_word;
use crate::objects::write_object_fields;
use crate::parts::{either, write_when};
use crate::types::{write_presence, write_type};
use crate::values::write_value;
use crate::words::{field_name, write_tag};
use asn_memory::{Mem, Text};
use asn_tree::{
    ASN1Information, ASN1Type, ClassLink, InformationObjectClass, InformationObjectClassField,
    ParameterGovernor, Parameterization, ParameterizationArgument, ToplevelDefinition,
    ToplevelInformationDefinition, ToplevelTypeDefinition, ToplevelValueDefinition,
};
use asn_tree_leaves::{InformationObjectSyntax, SyntaxExpression, SyntaxToken};
use std::alloc::Global;

/// Writes the governor of a dummy with the mark behind it, where there is one, as `INTEGER: ` (X.683 8.3).
///
/// Err: want of memory.
pub fn write_governor(alloc: Global, out: &mut Text, governor: &ParameterGovernor) -> Mem<()>
    ensures { OnOk result (out.new ≡ out.old ++ governor_text governor.now) }
{
    match governor {
        ParameterGovernor::None => Ok(()),
        ParameterGovernor::TypeOrClass(ty) => {
            write_type(alloc, out, ty)?;
            out.push_str(": ")
        }
        ParameterGovernor::Class(name) => {
            out.push_str(name.as_str())?;
            out.push_str(": ")
        }
    }
}

/// Writes the dummy references of a template, each behind its governor, as `INTEGER: a, B` (X.683 8.3).
///
/// Err: want of memory.
pub fn write_dummies(alloc: Global, out: &mut Text, dummies: &[ParameterizationArgument]) -> Mem<()>
    ensures { OnOk result (out.new ≡ out.old ++ parted (codes ", ") (map dummy_text dummies.now)) }
{
    let mut first = true;
    for dummy in dummies {
        out.push_str(either(first, "", ", "))?;
        write_governor(alloc, out, &dummy.param_governor)?;
        out.push_str(dummy.dummy_reference.as_str())?;
        first = false;
    }
    Ok(())
}

/// Writes the dummy references between braces behind the name of a template, where it is one, as ` {INTEGER: a, B}` (X.683 8.3).
///
/// Err: want of memory.
pub fn write_parameters(
    alloc: Global,
    out: &mut Text,
    parameters: &Option<Parameterization>,
) -> Mem<()>
    ensures { OnOk result (out.new ≡ out.old ++ parameters_text parameters.now) }
{
    match parameters {
        None => Ok(()),
        Some(parameters) => {
            out.push_str(" {")?;
            write_dummies(alloc, out, parameters.parameters.as_slice())?;
            out.push_str("}")
        }
    }
}

fn token_word(token: &SyntaxToken) -> &str
    ensures { result.now ≡ token_text token.now }
{
    match token {
        SyntaxToken::Literal(word) => word.as_str(),
        SyntaxToken::Comma => ",",
        SyntaxToken::Field(name) => field_name(name),
    }
}

/// Writes a token of a class's own syntax, or a group that may be left out, as `ID` or `[ TYPE &Type ]` (X.681 10.5).
///
/// Err: want of memory.
#[cycle(syntax)]
#[tactic(auto, unfolding(crate::specs::Definitions::expressions_text))]
pub fn write_expression(out: &mut Text, expression: &SyntaxExpression) -> Mem<()>
    ensures { OnOk result (out.new ≡ out.old ++ expression_text expression.now) }
{
    match expression {
        SyntaxExpression::Required(token) => out.push_str(token_word(token)),
        SyntaxExpression::Optional(group) => {
            out.push_str("[")?;
            write_expressions(out, group.as_slice())?;
            out.push_str(" ]")
        }
    }
}

/// Writes tokens and groups of a class's own syntax, each behind a space (X.681 10.5).
///
/// Err: want of memory.
#[cycle(syntax)]
#[tactic(auto, unfolding(crate::specs::Definitions::expressions_text))]
pub fn write_expressions(out: &mut Text, expressions: &[SyntaxExpression]) -> Mem<()>
    ensures { OnOk result (out.new ≡ out.old ++ expressions_text expressions.now) }
{
    for expression in expressions {
        out.push_str(" ")?;
        write_expression(out, expression)?;
    }
    Ok(())
}

/// Writes a class's own syntax, where it has one, as ` WITH SYNTAX { ID &id }` (X.681 10.5).
///
/// Err: want of memory.
pub fn write_syntax(out: &mut Text, syntax: &Option<InformationObjectSyntax>) -> Mem<()>
    ensures { OnOk result (out.new ≡ out.old ++ syntax_text syntax.now) }
{
    match syntax {
        None => Ok(()),
        Some(syntax) => {
            out.push_str(with_syntax_word())?;
            write_expressions(out, syntax.expressions.as_slice())?;
            out.push_str(" }")
        }
    }
}

/// Writes a type behind a space, where there is one.
fn write_field_type(alloc: Global, out: &mut Text, ty: &Option<ASN1Type>) -> Mem<()>
    ensures { OnOk result (out.new ≡ out.old ++ around (codes " ") (option_map type_text ty.now) []) }
{
    match ty {
        None => Ok(()),
        Some(ty) => {
            out.push_str(" ")?;
            write_type(alloc, out, ty)
        }
    }
}

/// Writes a field of a class, as `&id INTEGER UNIQUE` (X.681 9.5 to 9.11).
///
/// Err: want of memory.
pub fn write_class_field(
    alloc: Global,
    out: &mut Text,
    field: &InformationObjectClassField,
) -> Mem<()>
    ensures { OnOk result (out.new ≡ out.old ++ class_field_text field.now) }
{
    out.push_str(field_name(&field.identifier))?;
    write_field_type(alloc, out, &field.ty)?;
    write_when(out, field.is_unique, " UNIQUE")?;
    write_presence(alloc, out, &field.default, field.is_optional)
}

fn write_class_fields(
    alloc: Global,
    out: &mut Text,
    fields: &[InformationObjectClassField],
) -> Mem<()>
    ensures { OnOk result (out.new ≡ out.old ++ braced (map class_field_text fields.now)) }
{
    let mut first = true;
    for field in fields {
        out.push_str(either(first, " { ", ", "))?;
        write_class_field(alloc, out, field)?;
        first = false;
    }
    out.push_str(either(first, " {}", " }"))
}

/// Writes a class, as `CLASS { &id INTEGER } WITH SYNTAX { ID &id }` (X.681 9.3).
///
/// Err: want of memory.
pub fn write_class(alloc: Global, out: &mut Text, class: &InformationObjectClass) -> Mem<()>
    ensures { OnOk result (out.new ≡ out.old ++ class_text class.now) }
{
    out.push_str("CLASS")?;
    write_class_fields(alloc, out, class.fields.as_slice())?;
    write_syntax(out, &class.syntax)
}

/// Writes the class of an object or a set of objects, behind a space, where it is told (X.681 11.1, 12.1).
///
/// Err: want of memory.
pub fn write_link(out: &mut Text, link: &Option<ClassLink>) -> Mem<()>
    ensures { OnOk result (out.new ≡ out.old ++ link_text link.now) }
{
    match link {
        None => Ok(()),
        Some(ClassLink::ByName(name)) => {
            out.push_str(" ")?;
            out.push_str(name.as_str())
        }
        Some(ClassLink::ByReference(name, _)) => {
            out.push_str(" ")?;
            out.push_str(name.as_str())
        }
    }
}

/// Writes a class, an object or a set of objects (X.681 9.3, 11.3, 12.3).
///
/// Err: want of memory.
pub fn write_information(alloc: Global, out: &mut Text, information: &ASN1Information) -> Mem<()>
    ensures { OnOk result (out.new ≡ out.old ++ information_text information.now) }
{
    match information {
        ASN1Information::ObjectClass(class) => write_class(alloc, out, class),
        ASN1Information::ObjectSet(set) => {
            write_objects(alloc, out, set.extensible, set.values.as_slice())
        }
        ASN1Information::Object(object) => write_object_fields(alloc, out, &object.fields),
    }
}

fn information_word(information: &ASN1Information) -> &'static str
    ensures { result.now ≡ information_word information.now }
{
    match information {
        ASN1Information::ObjectClass(_) => "class ",
        ASN1Information::ObjectSet(_) => "set ",
        ASN1Information::Object(_) => "object ",
    }
}

/// Writes a word, the name of a definition, and the dummy references behind it.
fn write_head(
    alloc: Global,
    out: &mut Text,
    word: &str,
    name: &Text,
    parameters: &Option<Parameterization>,
) -> Mem<()>
    ensures { OnOk result (out.new ≡ out.old ++ headed word.now name.now parameters.now) }
{
    out.push_str(word)?;
    out.push_str(name.as_str())?;
    write_parameters(alloc, out, parameters)
}

fn write_type_definition(
    alloc: Global,
    out: &mut Text,
    definition: &ToplevelTypeDefinition,
) -> Mem<()>
    ensures { OnOk result (out.new ≡ out.old ++ type_definition_line definition.now) }
{
    write_head(
        alloc,
        out,
        "type ",
        &definition.name,
        &definition.parameterization,
    )?;
    out.push_str(" ::= ")?;
    write_tag(alloc, out, &definition.tag)?;
    write_type(alloc, out, &definition.ty)?;
    out.push_str("\n")
}

fn write_value_definition(
    alloc: Global,
    out: &mut Text,
    definition: &ToplevelValueDefinition,
) -> Mem<()>
    ensures { OnOk result (out.new ≡ out.old ++ value_definition_line definition.now) }
{
    write_head(
        alloc,
        out,
        "value ",
        &definition.name,
        &definition.parameterization,
    )?;
    out.push_str(" ")?;
    write_type(alloc, out, &definition.associated_type)?;
    out.push_str(" ::= ")?;
    write_value(alloc, out, &definition.value)?;
    out.push_str("\n")
}

fn write_information_definition(
    alloc: Global,
    out: &mut Text,
    definition: &ToplevelInformationDefinition,
) -> Mem<()>
    ensures { OnOk result (out.new ≡ out.old ++ information_definition_line definition.now) }
{
    write_head(
        alloc,
        out,
        information_word(&definition.value),
        &definition.name,
        &definition.parameterization,
    )?;
    write_link(out, &definition.class)?;
    out.push_str(" ::= ")?;
    write_information(alloc, out, &definition.value)?;
    out.push_str("\n")
}

/// Writes the line of a definition with its line feed. Comments are not told.
///
/// Err: want of memory.
pub fn write_definition(alloc: Global, out: &mut Text, definition: &ToplevelDefinition) -> Mem<()>
    ensures { OnOk result (out.new ≡ out.old ++ definition_line definition.now) }
{
    match definition {
        ToplevelDefinition::TypeDef(definition) => write_type_definition(alloc, out, definition),
        ToplevelDefinition::Value(definition) => write_value_definition(alloc, out, definition),
        ToplevelDefinition::Information(definition) => {
            write_information_definition(alloc, out, definition)
        }
    }
}

/// Writes the lines of definitions one behind the other.
///
/// Err: want of memory.
pub fn write_definitions(
    alloc: Global,
    out: &mut Text,
    definitions: &[ToplevelDefinition],
) -> Mem<()>
    ensures { OnOk result (out.new ≡ out.old ++ definition_lines definitions.now) }
{
    for definition in definitions {
        write_definition(alloc, out, definition)?;
    }
    Ok(())
}
