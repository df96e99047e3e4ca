//! The public readers of classes, objects and sets of objects.

ghost use Rattle.asn_read_nodes.specs.Reads.{IsFaultAt, ReadsNode};
ghost use Rattle.asn_rules.specs.declared.names.TheConstants.{INFORMATION_OBJECT, INFORMATION_OBJECT_CLASS, OBJECT_SET, TYPE_IDENTIFIER};
ghost use Rattle.asn_text.specs.Input.{part_of};
ghost use Rattle.asn_text.specs.Part.{shown};
ghost use Rattle.asn_types.specs.Classes as classes;
ghost use Rattle.asn_types.specs.Reading.{object_of, object_set_of};
ghost use Rattle.std.specs.Prelude.{◌≡◌, codes, IfErr, IfOk, Some};

use crate::classes::{built_in_class, read_class};
use crate::objects::{read_object, read_object_set};
use asn_read_nodes::read_node;
use asn_rules::names;
use asn_text::{Input, ParseFault, ParserResult};
use asn_tree::{InformationObjectClass, InformationObjectFields, ObjectSet};
use std::alloc::Global;

/// A set of objects: its items, and how many of them stand before the extension marker, where it stands (X.681 12.3).
pub fn object_set<'a>(alloc: Global, input: Input<'a>, depth: usize) -> ParserResult<'a, ObjectSet>
    ensures ok { IfOk result (λ read. ReadsNode OBJECT_SET depth (part_of input.entry) (part_of read.0) (λ n. object_set_of (shown (part_of input.entry)) n ≡ Some read.1)) }
    ensures err { IfErr result (IsFaultAt OBJECT_SET (codes "object_set") input.entry depth) }
{
    let text = input.inner().as_bytes();
    match read_node(alloc, input, depth, names::OBJECT_SET, "object_set") {
        Ok((rest, node)) => match read_object_set(alloc, text, &node) {
            Ok(set) => Ok((rest, set)),
            Err(_) => Err(ParseFault::OutOfMemory),
        },
        Err(fault) => Err(fault),
    }
}

/// An object: its fields by their names, or in its class's own syntax (X.681 11.4).
pub fn information_object<'a>(
    alloc: Global,
    input: Input<'a>,
    depth: usize,
) -> ParserResult<'a, InformationObjectFields>
    ensures ok { IfOk result (λ read. ReadsNode INFORMATION_OBJECT depth (part_of input.entry) (part_of read.0) (λ n. object_of (shown (part_of input.entry)) n ≡ Some read.1)) }
    ensures err { IfErr result (IsFaultAt INFORMATION_OBJECT (codes "information_object") input.entry depth) }
{
    let text = input.inner().as_bytes();
    match read_node(
        alloc,
        input,
        depth,
        names::INFORMATION_OBJECT,
        "information_object",
    ) {
        Ok((rest, node)) => match read_object(alloc, text, &node) {
            Ok(object) => Ok((rest, object)),
            Err(_) => Err(ParseFault::OutOfMemory),
        },
        Err(fault) => Err(fault),
    }
}

/// The built-in class TYPE-IDENTIFIER by its name: `&id`, a unique OBJECT IDENTIFIER, and `&Type`, with the syntax
/// `{ &Type IDENTIFIED BY &id }` (X.681 A.2).
pub fn type_identifier<'a>(
    alloc: Global,
    input: Input<'a>,
    depth: usize,
) -> ParserResult<'a, InformationObjectClass>
    ensures ok { IfOk result (λ read. ReadsNode TYPE_IDENTIFIER depth (part_of input.entry) (part_of read.0) (λ n. read.1 ≡ classes.type_identifier)) }
    ensures err { IfErr result (IsFaultAt TYPE_IDENTIFIER (codes "type_identifier") input.entry depth) }
{
    match read_node(
        alloc,
        input,
        depth,
        names::TYPE_IDENTIFIER,
        "type_identifier",
    ) {
        Ok((rest, _)) => match built_in_class(alloc) {
            Ok(class) => Ok((rest, class)),
            Err(_) => Err(ParseFault::OutOfMemory),
        },
        Err(fault) => Err(fault),
    }
}

/// A class: its fields, and the syntax behind WITH SYNTAX, where it stands (X.681 9.3).
pub fn information_object_class<'a>(
    alloc: Global,
    input: Input<'a>,
    depth: usize,
) -> ParserResult<'a, InformationObjectClass>
    ensures ok { IfOk result (λ read. ReadsNode INFORMATION_OBJECT_CLASS depth (part_of input.entry) (part_of read.0) (λ n. classes.class_of (shown (part_of input.entry)) n ≡ Some read.1)) }
    ensures err { IfErr result (IsFaultAt INFORMATION_OBJECT_CLASS (codes "information_object_class") input.entry depth) }
{
    let text = input.inner().as_bytes();
    match read_node(
        alloc,
        input,
        depth,
        names::INFORMATION_OBJECT_CLASS,
        "information_object_class",
    ) {
        Ok((rest, node)) => match read_class(alloc, text, &node) {
            Ok(class) => Ok((rest, class)),
            Err(_) => Err(ParseFault::OutOfMemory),
        },
        Err(fault) => Err(fault),
    }
}
