//! The public readers of definitions and modules.
//!
//! Each reads the rule of its name where its input begins; blanks and comments may stand before it. Want of memory aside,
//! each answers `TooDeep` exactly where the height of its rule exceeds `depth`, and `Fail` exactly where it does not and
//! the rule fails: a leaf with the input unchanged and the reader's name.

ghost use Rattle.asn_read_nodes.specs.Reads.{IsFaultAt, ReadsNode};
ghost use Rattle.asn_modules.specs.Information.{information_of};
ghost use Rattle.asn_modules.specs.Modules.{module_of};
ghost use Rattle.asn_modules.specs.Types.{type_definition_of};
ghost use Rattle.asn_modules.specs.Values.{enumerated_value_of, value_definition_of};
ghost use Rattle.asn_rules.specs.declared.names.TheConstants.{ASN_MODULE, ENUMERATED_VALUE, TOP_LEVEL_INFORMATION_DECLARATION, TOP_LEVEL_TYPE_DECLARATION, TOP_LEVEL_VALUE_DECLARATION};
ghost use Rattle.asn_text.specs.Input.{part_of};
ghost use Rattle.asn_text.specs.Part.{shown};
ghost use Rattle.std.specs.Prelude.{◌≡◌, codes, IfErr, IfOk, Some};

use crate::information::read_information;
use crate::modules::read_module;
use crate::types::read_type_definition;
use crate::values::{read_enumerated_value, read_value_definition};
use asn_memory::List;
use asn_read_nodes::read_node;
use asn_rules::names;
use asn_text::{Input, ParseFault, ParserResult};
use asn_tree::{
    ToplevelDefinition, ToplevelInformationDefinition, ToplevelTypeDefinition,
    ToplevelValueDefinition,
};
use asn_tree_headers::ModuleReference;
use std::alloc::Global;

/// The definition of a type: the comments before it joined by line feeds, its name, its parameters, its tag and its type (X.680
/// 16.1, X.683 8.1).
pub fn top_level_type_declaration<'a>(
    alloc: Global,
    input: Input<'a>,
    depth: usize,
) -> ParserResult<'a, ToplevelTypeDefinition>
    ensures ok { IfOk result (λ read. ReadsNode TOP_LEVEL_TYPE_DECLARATION depth (part_of input.entry) (part_of read.0) (λ n. type_definition_of (shown (part_of input.entry)) n ≡ Some read.1)) }
    ensures err { IfErr result (IsFaultAt TOP_LEVEL_TYPE_DECLARATION (codes "top_level_type_declaration") input.entry depth) }
{
    let text = input.inner().as_bytes();
    match read_node(
        alloc,
        input,
        depth,
        names::TOP_LEVEL_TYPE_DECLARATION,
        "top_level_type_declaration",
    ) {
        Ok((rest, node)) => match read_type_definition(alloc, text, &node) {
            Ok(definition) => Ok((rest, definition)),
            Err(_) => Err(ParseFault::OutOfMemory),
        },
        Err(fault) => Err(fault),
    }
}

/// The definition of a value: the comments before it joined by line feeds, its name, its parameters, its type and its value
/// (X.680 16.2).
pub fn top_level_value_declaration<'a>(
    alloc: Global,
    input: Input<'a>,
    depth: usize,
) -> ParserResult<'a, ToplevelValueDefinition>
    ensures ok { IfOk result (λ read. ReadsNode TOP_LEVEL_VALUE_DECLARATION depth (part_of input.entry) (part_of read.0) (λ n. value_definition_of (shown (part_of input.entry)) n ≡ Some read.1)) }
    ensures err { IfErr result (IsFaultAt TOP_LEVEL_VALUE_DECLARATION (codes "top_level_value_declaration") input.entry depth) }
{
    let text = input.inner().as_bytes();
    match read_node(
        alloc,
        input,
        depth,
        names::TOP_LEVEL_VALUE_DECLARATION,
        "top_level_value_declaration",
    ) {
        Ok((rest, node)) => match read_value_definition(alloc, text, &node) {
            Ok(definition) => Ok((rest, definition)),
            Err(_) => Err(ParseFault::OutOfMemory),
        },
        Err(fault) => Err(fault),
    }
}

/// The definition of a value by the name of an item: its type is taken as that of an enumeration, whatever it is called (X.680
/// 20.8).
pub fn enumerated_value<'a>(
    alloc: Global,
    input: Input<'a>,
    depth: usize,
) -> ParserResult<'a, ToplevelValueDefinition>
    ensures ok { IfOk result (λ read. ReadsNode ENUMERATED_VALUE depth (part_of input.entry) (part_of read.0) (λ n. enumerated_value_of (shown (part_of input.entry)) n ≡ Some read.1)) }
    ensures err { IfErr result (IsFaultAt ENUMERATED_VALUE (codes "enumerated_value") input.entry depth) }
{
    let text = input.inner().as_bytes();
    match read_node(
        alloc,
        input,
        depth,
        names::ENUMERATED_VALUE,
        "enumerated_value",
    ) {
        Ok((rest, node)) => match read_enumerated_value(alloc, text, &node) {
            Ok(definition) => Ok((rest, definition)),
            Err(_) => Err(ParseFault::OutOfMemory),
        },
        Err(fault) => Err(fault),
    }
}

/// The definition of a class, an object or an object set (X.681 9.1, 11.1, 12.1). A set of braces with nothing in them is an
/// object set, since an object needs a field.
pub fn top_level_information_declaration<'a>(
    alloc: Global,
    input: Input<'a>,
    depth: usize,
) -> ParserResult<'a, ToplevelInformationDefinition>
    ensures ok { IfOk result (λ read. ReadsNode TOP_LEVEL_INFORMATION_DECLARATION depth (part_of input.entry) (part_of read.0) (λ n. information_of (shown (part_of input.entry)) n ≡ Some read.1)) }
    ensures err { IfErr result (IsFaultAt TOP_LEVEL_INFORMATION_DECLARATION (codes "top_level_information_declaration") input.entry depth) }
{
    let text = input.inner().as_bytes();
    match read_node(
        alloc,
        input,
        depth,
        names::TOP_LEVEL_INFORMATION_DECLARATION,
        "top_level_information_declaration",
    ) {
        Ok((rest, node)) => match read_information(alloc, text, &node) {
            Ok(definition) => Ok((rest, definition)),
            Err(_) => Err(ParseFault::OutOfMemory),
        },
        Err(fault) => Err(fault),
    }
}

/// A module: its header and its definitions in order, up to END or the end of an encoding control (X.680 13.1).
pub fn asn_module<'a>(
    alloc: Global,
    input: Input<'a>,
    depth: usize,
) -> ParserResult<'a, (ModuleReference, List<ToplevelDefinition>)>
    ensures ok { IfOk result (λ read. ReadsNode ASN_MODULE depth (part_of input.entry) (part_of read.0) (λ n. module_of (shown (part_of input.entry)) n ≡ Some read.1)) }
    ensures err { IfErr result (IsFaultAt ASN_MODULE (codes "asn_module") input.entry depth) }
{
    let text = input.inner().as_bytes();
    match read_node(alloc, input, depth, names::ASN_MODULE, "asn_module") {
        Ok((rest, node)) => match read_module(alloc, text, &node) {
            Ok(read) => Ok((rest, read)),
            Err(_) => Err(ParseFault::OutOfMemory),
        },
        Err(fault) => Err(fault),
    }
}
